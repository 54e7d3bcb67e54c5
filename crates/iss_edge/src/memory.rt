//! An outside in memory.

ghost use Rattle.std.specs.Prelude.{◌≡◌, ◌+◌, ◌^◌, ◌-◌, ◌≤◌, ◌↔◌, [], true, min, take, drop, length, vec_len, IsTrue, Contains, Some, IfOk, IsSomeAnd, IfSome};
ghost use Rattle.std.proofs.Common.{sym};
ghost use Rattle.iss_edge.specs.Channels.{no_channels};
ghost use Rattle.iss_edge.specs.Disk.{splice};
ghost use Rattle.iss_edge.specs.Memory.{first_world, told_if, stream_faults, left_on, are_clients_apart};

use crate::{Action, Answered, Arrival, Bytes, Channel, Edge, Failed, Fault, FaultCounts, Script};
use network::{Network, arrive, open_channel};
use noting::{Heard, fail, hear_bytes, note_close, note_sync, note_write, send, send_prefix};
use std::alloc::{AllocError, Global};

mod network;
mod noting;
mod piece;
mod rest;

/// An outside in memory, which tells everything.
#[derive(Drop)]
pub struct MemoryEdge {
    alloc: Global,
    device: Vec<u8>,
    network: Network,
    fails: Vec<u64>,
    /// How many calls that may fail were made.
    calls: u64,
    trace: Vec<Action>,
    heard: Heard,
    faults: FaultCounts,
}

impl MemoryEdge {
    /// An outside with this device and these bytes to come on channel 0. Of its calls that may fail, those fail whose
    /// numbers, counted from 1, are among `fails`. The script is what waits will bring, with clients on channels from 1 to
    /// 1000000, each on one of its own. Dials give the channels from 1000001 on.
    pub fn new(
        alloc: Global,
        device: Vec<u8>,
        input: Vec<u8>,
        script: Vec<Script>,
        fails: Vec<u64>,
    ) -> Result<MemoryEdge, AllocError>
        requires { are_clients_apart script.items ≡ true }
        ensures told { IfOk result (λ m. ⟦<MemoryEdge as Edge>⟧.told m ≡ Some (first_world device.items input.items script.items)) }
        ensures heard { IfOk result (λ m. ⟦<MemoryEdge as Edge>⟧.heard m ≡ Some []) }
        ensures faults { IfOk result (λ m. ⟦<MemoryEdge as Edge>⟧.faults m ≡ stream_faults 0 0 0) }
        ensures extent { IfOk result (λ m. ⟦<MemoryEdge as Edge>⟧.extent m ≡ vec_len device) }
        ensures channels { IfOk result (λ m. ⟦<MemoryEdge as Edge>⟧.channels m ≡ no_channels) }
    {
        Ok(MemoryEdge {
            alloc,
            device,
            network: Network::new(alloc, Bytes::from(input), script)?,
            fails,
            calls: 0,
            trace: Vec::new(alloc),
            heard: Heard {
                answers: Vec::new(alloc),
                whole: true,
            },
            faults: FaultCounts::none(),
        })
    }

    /// All that was done so far, in order.
    pub fn trace(&self) -> &[Action]
        ensures { IsSomeAnd (⟦<MemoryEdge as Edge>⟧.told self.now) (λ world. result.now ≡ world.trace) }
    {
        self.trace.as_slice()
    }

    /// What the calls answered so far, in order, as long as each answer could be noted.
    pub fn heard(&self) -> &[Answered]
        ensures { IfSome (⟦<MemoryEdge as Edge>⟧.heard self.now) (λ items. result.now ≡ items) }
    {
        self.heard.answers.as_slice()
    }

    /// The device's bytes.
    pub fn device(&self) -> &[u8]
        ensures { IsSomeAnd (⟦<MemoryEdge as Edge>⟧.told self.now) (λ world. result.now ≡ world.device) }
    {
        self.device.as_slice()
    }
}

impl Edge for MemoryEdge {
    ghost told = { λ m. Some (record {
      device = m.device.items;
      left = left_on m.network.pieces;
      arrivals = m.network.script;
      trace = m.trace.items;
    }) };

    ghost heard = { λ m. told_if m.heard.whole m.heard.answers.items };

    ghost faults = { λ m. m.faults };

    ghost extent = { λ m. vec_len m.device };

    ghost channels = { λ m. m.network.channels };

    fn size(&self) -> u64 {
        self.device.len() as u64
    }

    fn read_at(&mut self, at: u64, buf: &mut [u8]) -> Result<(), Failed> {
        if fails_now(&mut self.calls, self.fails.as_slice()) {
            return Err(self.faults.count(Fault::Disk));
        }
        copy_from(self.device.as_slice(), at as usize, buf);
        Ok(())
    }

    fn write_at(&mut self, at: u64, bytes: &[u8]) -> Result<(), Failed> {
        if fails_now(&mut self.calls, self.fails.as_slice()) {
            let _ = note_write(self.alloc, &mut self.trace, at, bytes, false);
            return Err(self.faults.count(Fault::Disk));
        }
        if note_write(self.alloc, &mut self.trace, at, bytes, true).is_err() {
            return Err(self.faults.count(Fault::Disk));
        }
        copy_into(&mut self.device, at as usize, bytes);
        Ok(())
    }

    fn sync(&mut self) -> Result<(), Failed> {
        let ok = !fails_now(&mut self.calls, self.fails.as_slice());
        if note_sync(&mut self.trace, ok).is_err() || !ok {
            return Err(self.faults.count(Fault::Disk));
        }
        Ok(())
    }

    fn wait(&mut self) -> Result<Arrival, Failed> {
        if !fails_now(&mut self.calls, self.fails.as_slice())
            && let Ok(arrives) = arrive(&mut self.network, &mut self.heard.answers)
        {
            return Ok(arrives);
        }
        let answer = Answered::Waited(None);
        Err(fail(&mut self.faults, Fault::Input, &mut self.heard, answer))
    }

    fn take(&mut self, ch: Channel, buf: &mut [u8]) -> Result<usize, Failed> {
        let fault = Fault::of_take(ch, self.network.is_dialled(ch));
        if fails_now(&mut self.calls, self.fails.as_slice()) {
            let answer = Answered::Took { ch, bytes: None };
            return Err(fail(&mut self.faults, fault, &mut self.heard, answer));
        }
        let count = self.network.copy_next(ch, buf);
        if hear_bytes(self.alloc, &mut self.heard.answers, ch, &buf[..count]).is_err() {
            let answer = Answered::Took { ch, bytes: None };
            return Err(fail(&mut self.faults, fault, &mut self.heard, answer));
        }
        self.network.pass(ch, count);
        Ok(count)
    }

    fn emit(&mut self, ch: Channel, bytes: &[u8]) -> Result<(), Failed> {
        let fault = Fault::of_emit(ch, self.network.is_dialled(ch));
        if fails_now(&mut self.calls, self.fails.as_slice()) {
            let answer = Answered::Emitted { ch, ok: false };
            let _ = send_prefix(self.alloc, &mut self.trace, ch, bytes);
            return Err(fail(&mut self.faults, fault, &mut self.heard, answer));
        }
        let answers = &mut self.heard.answers;
        if send(self.alloc, &mut self.trace, answers, ch, bytes).is_err() {
            let answer = Answered::Emitted { ch, ok: false };
            return Err(fail(&mut self.faults, fault, &mut self.heard, answer));
        }
        Ok(())
    }

    fn dial(&mut self) -> Result<Channel, Failed> {
        if !fails_now(&mut self.calls, self.fails.as_slice())
            && let Some(ch) = open_channel(
                &mut self.network,
                &mut self.trace,
                &mut self.heard.answers,
            )
        {
            return Ok(ch);
        }
        let answer = Answered::Dialled(None);
        Err(fail(&mut self.faults, Fault::Link, &mut self.heard, answer))
    }

    fn close(&mut self, ch: Channel) {
        self.network.close(ch);
        note_close(&mut self.trace, &mut self.heard, ch);
    }

    ghost sized = { λ m. sym m.device.ok.0 };
}

/// Counts a call that may fail, and returns whether it is one of those that are to.
fn fails_now(calls: &mut u64, fails: &[u64]) -> bool
    ensures counted { calls.new ≡ min (calls.old + 1) (2 ^ 64 - 1) }
    ensures named { IsTrue result ↔ Contains fails.now calls.new }
{
    *calls = calls.saturating_add(1);
    fails.contains(calls)
}

/// Copies the device from this place on into the whole buffer.
fn copy_from(device: &[u8], at: usize, buf: &mut [u8])
    requires { at + length buf.old ≤ length device.now }
    ensures { buf.new ≡ take (length buf.new) (drop at device.now) }
{
    buf.copy_from_slice(&device[at..at + buf.len()]);
}

/// Copies the bytes over the device from this place on.
fn copy_into(device: &mut Vec<u8>, at: usize, bytes: &[u8])
    requires { at + length bytes.now ≤ vec_len device.old }
    ensures spliced { device.new.items ≡ splice at bytes.now device.old.items }
    ensures len { vec_len device.new ≡ vec_len device.old }
{
    device[at..at + bytes.len()].copy_from_slice(bytes);
}
