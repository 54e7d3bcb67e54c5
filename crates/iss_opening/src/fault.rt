//! Why a device doesn't open.
ghost use Rattle.std.specs.Prelude.{◌≡◌};
ghost use Rattle.iss_opening.specs.declared.fault.OpenFault.TheVariants as open_fault;
ghost use Rattle.iss_opening.specs.Faults.{fault_of_reading};

use iss_journal::JournalFault;
use std::alloc::AllocError;

/// Why a device doesn't open.
#[derive(Clone, Copy)]
pub enum OpenFault {
    /// A call on the device failed.
    Disk,
    /// The device's size or header is that of no formatted device.
    NotFormatted,
    /// The current half begins here, and its image is that of no sound state.
    BadImage(u64),
    /// No record follows this open gate: its length is 0, over 8192, or passes the end of the journal. Or the current half begins here, and
    /// the length of its image leaves no room for a gate.
    BadRecord(u64),
    /// The bytes that follow this gate spell no record.
    BadSpelling(u64),
    /// The record that follows this gate isn't new on what stands before it, or its stamp is below the time, or it would be one more than
    /// there may be.
    BadHistory(u64),
    /// An allocation failed.
    OutOfMemory,
}

impl From<JournalFault> for OpenFault {
    ghost from_gives = { λ fault given. given ≡ fault_of_reading fault };

    fn from(fault: JournalFault) -> OpenFault {
        match fault {
            // An opening adds no record, so none is too long for it.
            JournalFault::Disk | JournalFault::Full { .. } => OpenFault::Disk,
            JournalFault::NotFormatted => OpenFault::NotFormatted,
            JournalFault::BadRecord(place) => OpenFault::BadRecord(place),
            JournalFault::OutOfMemory => OpenFault::OutOfMemory,
        }
    }
}

impl From<AllocError> for OpenFault {
    ghost from_gives = { λ error fault. fault ≡ open_fault.OutOfMemory };

    fn from(_: AllocError) -> OpenFault {
        OpenFault::OutOfMemory
    }
}
