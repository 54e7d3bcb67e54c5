//! A device in memory for a drill, which keeps nothing of what is sent.
ghost use Rattle.std.specs.Prelude.{◌≡◌, ◌≤◌, OnOk, vec_len};

use iss_edge::{Arrival, Channel, Edge, Failed};

/// A device of a size: its bytes as far as one was written, and zeros after them. What is sent is dropped, and nothing comes in. It tells
/// nothing of what is done, so nothing is kept of it.
#[derive(Drop)]
pub(crate) struct Quiet {
    size: u64,
    bytes: Vec<u8>,
}

impl Quiet {
    pub(crate) fn new(size: u64, bytes: Vec<u8>) -> Quiet
        ensures { ⟦<Quiet as Edge>⟧.extent result ≡ size }
    {
        Quiet { size, bytes }
    }
}

impl Edge for Quiet {
    ghost use Rattle.std.specs.Prelude.{None, ◌^◌, ◌-◌};
    ghost use Rattle.iss_edge.specs.Channels.{no_channels};

    ghost told = { λ _. None };

    ghost heard = { λ _. None };

    // A dial fails, and so may an allocation: the counts of such faults stand at their last value.
    ghost faults = { λ _. record { disk = 2 ^ 64 - 1; input = 0; output = 0; peer = 0; link = 2 ^ 64 - 1 } };

    ghost extent = { λ q. q.size };

    ghost channels = { λ _. no_channels };

    fn size(&self) -> u64 {
        self.size
    }

    fn read_at(&mut self, at: u64, buf: &mut [u8]) -> Result<(), Failed> {
        let from = at as usize;
        reach(&mut self.bytes, from + buf.len())?;
        buf.copy_from_slice(&self.bytes[from..from + buf.len()]);
        Ok(())
    }

    fn write_at(&mut self, at: u64, bytes: &[u8]) -> Result<(), Failed> {
        let from = at as usize;
        reach(&mut self.bytes, from + bytes.len())?;
        self.bytes[from..from + bytes.len()].copy_from_slice(bytes);
        Ok(())
    }

    fn sync(&mut self) -> Result<(), Failed> {
        Ok(())
    }

    fn wait(&mut self) -> Result<Arrival, Failed> {
        Ok(Arrival::End)
    }

    fn take(&mut self, _: Channel, _: &mut [u8]) -> Result<usize, Failed> {
        Ok(0)
    }

    fn emit(&mut self, _: Channel, _: &[u8]) -> Result<(), Failed> {
        Ok(())
    }

    fn dial(&mut self) -> Result<Channel, Failed> {
        Err(Failed)
    }

    fn close(&mut self, _: Channel) {}

    ghost sized = { λ _. tt };
}

/// Adds zeros until the bytes reach up to there.
fn reach(bytes: &mut Vec<u8>, end: usize) -> Result<(), Failed>
    ensures { OnOk result (end ≤ vec_len bytes.new) }
{
    if end <= bytes.len() {
        return Ok(());
    }
    match bytes.resize(end, 0) {
        Ok(()) => Ok(()),
        Err(_) => Err(Failed),
    }
}
