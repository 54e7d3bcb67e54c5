//! The outside that the system provides.

ghost use Rattle.std.specs.Prelude.{◌≡◌, ◌<◌, ◌≤◌, None, length, take, IfOk, OnErr, OnOk, IsErr};
ghost use Rattle.std.specs.Io.KnownBytes.{Keeps, Appends, Consumes, IsAtEnd};
ghost use Rattle.iss_edge.specs.World.{HasCause};
ghost use Rattle.iss_edge.specs.Channels.{count_of, take_fault, emit_fault};
ghost use Rattle.iss_edge.specs.Memory.{stream_faults};

use crate::device::Device;
use crate::sockets::Sockets;
use iss_edge::{Arrival, Channel, Edge, Failed, Fault, FaultCounts};
use std::io;
use std::io::{ErrorKind, Read, Write};
use std::net::{Net, TcpStream};
use std::time::Clock;

/// How often a read is made again that was interrupted.
const READS: u32 = 1_000_000;

/// A reader and a writer, in the program the standard streams, as channel 0, a device, and sockets as the other channels. It
/// tells nothing of what passes, and counts what fails.
#[derive(Drop)]
pub struct RealEdge<R, W, N> {
    input: R,
    output: W,
    device: Device,
    sockets: Sockets<N>,
    faults: FaultCounts,
}

impl<R, W, N> RealEdge<R, W, N> {
    /// An outside on which nothing has failed yet.
    pub fn new(input: R, output: W, device: Device, sockets: Sockets<N>) -> Self
        ensures streams { (result.input ≡ input) × (result.output ≡ output) }
        ensures device { result.device ≡ device }
        ensures sockets { result.sockets ≡ sockets }
        ensures faults { result.faults ≡ stream_faults 0 0 0 }
    {
        RealEdge {
            input,
            output,
            device,
            sockets,
            faults: FaultCounts::none(),
        }
    }
}

// If the streams tell their bytes, a call ensures which of them it took or sent.
impl<R: Read + Drop, W: Write + Drop, N: Net<Stream = TcpStream> + Clock + Drop> Edge
    for RealEdge<R, W, N> {
    ghost told = { λ _. None };

    ghost heard = { λ _. None };

    ghost faults = { λ edge. edge.faults };

    ghost extent = { λ edge. edge.device.size };

    ghost channels = { λ edge. edge.sockets };

    fn size(&self) -> u64 {
        self.device.size()
    }

    fn read_at(&mut self, at: u64, buf: &mut [u8]) -> Result<(), Failed> {
        let alloc = self.sockets.alloc();
        counted(
            self.device.read_at(alloc, at, buf),
            Fault::Disk,
            &mut self.faults,
        )
    }

    fn write_at(&mut self, at: u64, bytes: &[u8]) -> Result<(), Failed> {
        counted(
            self.device.write_at(at, bytes),
            Fault::Disk,
            &mut self.faults,
        )
    }

    fn sync(&mut self) -> Result<(), Failed> {
        counted(self.device.sync(), Fault::Disk, &mut self.faults)
    }

    fn wait(&mut self) -> Result<Arrival, Failed> {
        counted(self.sockets.wait(), Fault::Input, &mut self.faults)
    }

    fn take(&mut self, ch: Channel, buf: &mut [u8]) -> Result<usize, Failed>
        requires { 0 < length buf.old }
        ensures bound { IfOk result (λ count. count ≤ length buf.new) }
        ensures taken { ch.0 ≡ 0 → IfOk result
            (λ count. Consumes (R.remaining self.old.input) (R.remaining self.new.input) (take count buf.new)) }
        ensures end { ch.0 ≡ 0 → IfOk result (λ count. count ≡ 0 → IsAtEnd (R.remaining self.new.input)) }
        ensures none_lost { ch.0 ≡ 0 → OnErr result
            (Keeps (R.remaining self.old.input) (R.remaining self.new.input)) }
        ensures untaken { (ch.0 ≡ 0 → ⊥) → self.new.input ≡ self.old.input }
        ensures nothing_sent { self.new.output ≡ self.old.output }
        ensures kept { self.new.device ≡ self.old.device }
        ensures cause { HasCause (count_of (take_fault self.old.sockets ch)) self.old.faults self.new.faults result }
        ensures channels { self.new.sockets ≡ self.old.sockets }
    {
        let fault = Fault::of_take(ch, self.sockets.is_dialled(ch));
        if ch.0 == 0 {
            counted(read_some(&mut self.input, buf), fault, &mut self.faults)
        } else {
            counted(self.sockets.take(ch, buf), fault, &mut self.faults)
        }
    }

    fn emit(&mut self, ch: Channel, bytes: &[u8]) -> Result<(), Failed>
        ensures sent { ch.0 ≡ 0 → OnOk result
            (Appends (W.contents self.old.output) (W.contents self.new.output) bytes.now) }
        ensures unsent { (ch.0 ≡ 0 → ⊥) → self.new.output ≡ self.old.output }
        ensures nothing_taken { self.new.input ≡ self.old.input }
        ensures kept { self.new.device ≡ self.old.device }
        ensures cause { HasCause (count_of (emit_fault self.old.sockets ch)) self.old.faults self.new.faults result }
        ensures channels { self.new.sockets ≡ self.old.sockets }
    {
        let fault = Fault::of_emit(ch, self.sockets.is_dialled(ch));
        if ch.0 == 0 {
            counted(
                write_through(&mut self.output, bytes),
                fault,
                &mut self.faults,
            )
        } else {
            counted(self.sockets.emit(ch, bytes), fault, &mut self.faults)
        }
    }

    fn dial(&mut self) -> Result<Channel, Failed> {
        counted(self.sockets.dial(), Fault::Link, &mut self.faults)
    }

    fn close(&mut self, ch: Channel) {
        self.sockets.close(ch);
    }

    ghost sized = { λ _. tt };
}

/// One read, which answers 0 only at the end. One that a signal interrupted is made again, as std's own loops do.
fn read_some<R: Read>(input: &mut R, buf: &mut [u8]) -> io::Result<usize>
    ensures bound { IfOk result (λ count. count ≤ length buf.new) }
    ensures taken { IfOk result
        (λ count. Consumes (R.remaining input.old) (R.remaining input.new) (take count buf.new)) }
    ensures end { IfOk result
        (λ count. count ≡ 0 → 0 < length buf.old → IsAtEnd (R.remaining input.new)) }
    ensures none_lost { OnErr result (Keeps (R.remaining input.old) (R.remaining input.new)) }
{
    for _ in 0..READS {
        match input.read(buf) {
            Err(e) if e.kind() == ErrorKind::Interrupted => {}
            outcome => return outcome,
        }
    }
    Err(io::Error::from(ErrorKind::Interrupted))
}

/// Writes all of the bytes, none of which wait in a buffer afterwards.
fn write_through<W: Write>(output: &mut W, bytes: &[u8]) -> io::Result<()>
    ensures { OnOk result (Appends (W.contents output.old) (W.contents output.new) bytes.now) }
{
    output.write_all(bytes)?;
    output.flush()
}

/// The same answer, of which a failure only raises a count.
fn counted<T>(outcome: io::Result<T>, fault: Fault, faults: &mut FaultCounts) -> Result<T, Failed>
    ensures same { IfOk result (λ value. outcome ≡ Ok value) }
    ensures failed { OnErr result (IsErr outcome) }
    ensures kept { OnOk result (faults.new ≡ faults.old) }
    ensures cause { HasCause (count_of fault) faults.old faults.new result }
{
    match outcome {
        Ok(value) => Ok(value),
        Err(_) => Err(faults.count(fault)),
    }
}
