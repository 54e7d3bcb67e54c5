//! What ends a run early.
ghost use Rattle.std.specs.Prelude.{◌≡◌};
ghost use Rattle.iss_follow_runs.specs.declared.stop.Stop.TheVariants as stop;
ghost use Rattle.iss_follow_runs.specs.Statuses.{exit_status, stop_of_opening};

use crate::status::{NO_ROOM, NOT_BEHIND};
use iss_edge::status::{BAD_DEVICE, DISK_FAULT, DONE, OUT_OF_MEMORY, OUTPUT_FAULT};
use iss_opening::OpenFault;
use std::alloc::AllocError;

/// Why a run ended early.
#[derive(Debug, Clone, Copy)]
pub enum Stop {
    /// No store can be opened on a device, or the one to make has another size.
    Device,
    /// An emit failed.
    Output,
    /// A call on a device failed.
    Disk,
    /// An allocation failed.
    Memory,
    /// The device to write has no room for what is to be put there.
    NoRoom,
    /// The device to write doesn't hold what the other held after as many records.
    NotBehind,
}

impl From<AllocError> for Stop {
    ghost from_gives = { λ error given. given ≡ stop.Memory };

    fn from(_: AllocError) -> Self {
        Stop::Memory
    }
}

impl From<OpenFault> for Stop {
    ghost from_gives = { λ fault given. given ≡ stop_of_opening fault };

    fn from(fault: OpenFault) -> Self {
        match fault {
            OpenFault::Disk => Stop::Disk,
            OpenFault::OutOfMemory => Stop::Memory,
            OpenFault::NotFormatted
            | OpenFault::BadRecord(_)
            | OpenFault::BadSpelling(_)
            | OpenFault::BadHistory(_)
            | OpenFault::BadImage(_) => Stop::Device,
        }
    }
}

/// The exit status of a run that ended so.
pub fn exit_status(ended: Result<(), Stop>) -> u8
    ensures { result ≡ exit_status ended }
{
    match ended {
        Ok(()) => DONE,
        Err(Stop::Device) => BAD_DEVICE,
        Err(Stop::Output) => OUTPUT_FAULT,
        Err(Stop::Disk) => DISK_FAULT,
        Err(Stop::Memory) => OUT_OF_MEMORY,
        Err(Stop::NoRoom) => NO_ROOM,
        Err(Stop::NotBehind) => NOT_BEHIND,
    }
}
