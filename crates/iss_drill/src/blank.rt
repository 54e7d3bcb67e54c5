//! A device that is made of zeros, to be formatted and opened.
ghost use Rattle.std.specs.Prelude.{◌≡◌, ◌+◌, ◌≤◌, IsTrue, IfOk, IsSomeAnd};
ghost use Rattle.iss_drill.specs.Blanks.{with_zeros};

use iss_edge::{Arrival, Channel, Edge, Failed, MemoryEdge};
use std::alloc::{AllocError, Global};

/// How many bytes are kept: formatting and opening touch no byte after them while no record stands.
const KEPT: usize = 64;

/// A device of a size, of which the first bytes alone are kept and can be read and written. It tells what is done on it, and that all bytes
/// after those are zeros. What is no work on the device fails.
#[derive(Drop)]
pub(crate) struct Blank {
    size: u64,
    first: MemoryEdge,
}

impl Blank {
    /// A device of zeros.
    pub(crate) fn new(alloc: Global, size: u64) -> Result<Blank, AllocError>
        ensures { IfOk result (λ b. ⟦<Blank as Edge>⟧.extent b ≡ size) }
    {
        let zeros = vec![in alloc; 0; KEPT]?;
        let nothing = Vec::new(alloc);
        let first = MemoryEdge::new(alloc, zeros, nothing, Vec::new(alloc), Vec::new(alloc))?;
        Ok(Blank { size, first })
    }

    /// The bytes that are kept.
    pub(crate) fn first(&self) -> &[u8]
        ensures { IsSomeAnd (⟦<Blank as Edge>⟧.told self.now) (λ world. with_zeros self.now.size result.now ≡ world.device) }
    {
        self.first.device()
    }

    /// Whether all of these bytes are kept.
    fn keeps(&self, at: u64, count: usize) -> bool
        ensures { IsTrue result → at + count ≤ ⟦<MemoryEdge as Edge>⟧.extent self.now.first }
    {
        at <= self.first.size() && count as u64 <= self.first.size() - at
    }
}

impl Edge for Blank {
    ghost use Rattle.std.specs.Prelude.{None, ◌^◌, ◌-◌};
    ghost use Rattle.iss_edge.specs.Channels.{no_channels};
    ghost use Rattle.iss_drill.specs.Blanks.{told_with, sized_with, worn_out};

    ghost told = { λ b. told_with b.size (⟦<MemoryEdge as Edge>⟧.told b.first) };

    ghost heard = { λ _. None };

    // Any call may fail, so the counts of faults stand at their last value.
    ghost faults = { λ _. worn_out };

    ghost extent = { λ b. b.size };

    ghost channels = { λ _. no_channels };

    fn size(&self) -> u64 {
        self.size
    }

    fn read_at(&mut self, at: u64, buf: &mut [u8]) -> Result<(), Failed> {
        if !self.keeps(at, buf.len()) {
            return Err(Failed);
        }
        self.first.read_at(at, buf)
    }

    fn write_at(&mut self, at: u64, bytes: &[u8]) -> Result<(), Failed> {
        if !self.keeps(at, bytes.len()) {
            return Err(Failed);
        }
        self.first.write_at(at, bytes)
    }

    fn sync(&mut self) -> Result<(), Failed> {
        self.first.sync()
    }

    fn wait(&mut self) -> Result<Arrival, Failed> {
        Err(Failed)
    }

    fn take(&mut self, _: Channel, _: &mut [u8]) -> Result<usize, Failed> {
        Err(Failed)
    }

    fn emit(&mut self, _: Channel, _: &[u8]) -> Result<(), Failed> {
        Err(Failed)
    }

    fn dial(&mut self) -> Result<Channel, Failed> {
        Err(Failed)
    }

    fn close(&mut self, _: Channel) {}

    ghost sized = { λ b. sized_with b.size (⟦<MemoryEdge as Edge>⟧.told b.first) };
}
