//! What ends a run early.
ghost use Rattle.std.specs.Prelude.{◌≡◌};
ghost use Rattle.iss_top.specs.declared.stop.Stop.TheVariants.{Memory};
ghost use Rattle.iss_top.specs.Statuses.{stop_status, stop_of_opening, stop_of_store};

use iss_edge::status::{
    BAD_DEVICE, DISK_FAULT, DONE, INPUT_FAULT, INPUT_TOO_LONG, OUT_OF_MEMORY, OUTPUT_FAULT,
};
use iss_opening::OpenFault;
use iss_store::StoreFault;
use std::alloc::AllocError;

#[derive(Clone, Copy)]
pub(crate) enum Stop {
    /// A take of the input failed.
    Input,
    /// No store can be opened on the device.
    Device,
    /// An emit failed.
    Output,
    /// A call on the device failed.
    Disk,
    /// An allocation failed.
    Memory,
    /// The input has more than 4294967296 bytes.
    InputLong,
}

impl From<AllocError> for Stop {
    ghost from_gives = { λ _ stop. stop ≡ Memory };

    fn from(_: AllocError) -> Self {
        Stop::Memory
    }
}

impl From<OpenFault> for Stop {
    ghost from_gives = { λ fault stop. stop ≡ stop_of_opening fault };

    fn from(fault: OpenFault) -> Self {
        match fault {
            OpenFault::Disk => Stop::Disk,
            OpenFault::OutOfMemory => Stop::Memory,
            OpenFault::NotFormatted
            | OpenFault::BadRecord(_)
            | OpenFault::BadSpelling(_)
            | OpenFault::BadHistory(_)
            | OpenFault::BadImage(_) => Stop::Device,
        }
    }
}

impl From<StoreFault> for Stop {
    ghost from_gives = { λ fault stop. stop ≡ stop_of_store fault };

    fn from(fault: StoreFault) -> Self {
        match fault {
            StoreFault::Disk => Stop::Disk,
            StoreFault::Output => Stop::Output,
            StoreFault::OutOfMemory => Stop::Memory,
        }
    }
}

/// The exit status of a run that ended so.
pub(crate) fn stop_status(ended: Result<(), Stop>) -> u8
    ensures { result ≡ stop_status ended }
{
    match ended {
        Ok(()) => DONE,
        Err(Stop::Input) => INPUT_FAULT,
        Err(Stop::Device) => BAD_DEVICE,
        Err(Stop::Output) => OUTPUT_FAULT,
        Err(Stop::Disk) => DISK_FAULT,
        Err(Stop::Memory) => OUT_OF_MEMORY,
        Err(Stop::InputLong) => INPUT_TOO_LONG,
    }
}
