//! Why a call of the journal fails.

ghost use Rattle.std.specs.Prelude.{◌≡◌};
ghost use Rattle.iss_journal.specs.declared.fault.JournalFault.TheVariants.{Disk, OutOfMemory};

use iss_edge::Failed;
use std::alloc::AllocError;

/// Why a call of the journal fails.
#[derive(Debug, Clone, Copy)]
pub enum JournalFault {
    /// A call on the device failed.
    Disk,
    /// The device's size or header is that of no formatted device.
    NotFormatted,
    /// No record stands after the open gate at this place: the length there is 0, over 8192, or passes the region's end.
    BadRecord(u64),
    /// What is to be written needs more bytes than are free.
    Full { free: u64, need: u64 },
    /// There was no memory.
    OutOfMemory,
}

impl From<Failed> for JournalFault {
    ghost from_gives = { λ failed fault. fault ≡ Disk };

    fn from(_: Failed) -> JournalFault {
        JournalFault::Disk
    }
}

impl From<AllocError> for JournalFault {
    ghost from_gives = { λ error fault. fault ≡ OutOfMemory };

    fn from(_: AllocError) -> JournalFault {
        JournalFault::OutOfMemory
    }
}
