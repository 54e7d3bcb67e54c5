//! What ends a run that serves early.
ghost use Rattle.std.specs.Prelude.{◌≡◌};
ghost use Rattle.iss_serve.specs.declared.fault.ServeFault.TheVariants.{OutOfMemory};
ghost use Rattle.iss_serve.specs.Causes.{fault_of_opening, fault_of_store};

use iss_store::{OpenFault, StoreFault};
use std::alloc::AllocError;

/// What ends a run that serves early.
#[derive(Clone, Copy, Debug, PartialEq, Eq)]
pub enum ServeFault {
    /// The device stands for no records.
    Device,
    /// A wait failed.
    Wait,
    /// A call on the device failed.
    Disk,
    /// An allocation failed.
    OutOfMemory,
}

impl From<AllocError> for ServeFault {
    ghost from_gives = { λ error fault. fault ≡ OutOfMemory };

    fn from(_: AllocError) -> ServeFault {
        ServeFault::OutOfMemory
    }
}

impl From<OpenFault> for ServeFault {
    ghost from_gives = { λ fault given. given ≡ fault_of_opening fault };

    fn from(fault: OpenFault) -> ServeFault {
        match fault {
            OpenFault::Disk => ServeFault::Disk,
            OpenFault::OutOfMemory => ServeFault::OutOfMemory,
            OpenFault::NotFormatted
            | OpenFault::BadImage(_)
            | OpenFault::BadRecord(_)
            | OpenFault::BadSpelling(_)
            | OpenFault::BadHistory(_) => ServeFault::Device,
        }
    }
}

impl From<StoreFault> for ServeFault {
    ghost from_gives = { λ fault given. given ≡ fault_of_store fault };

    fn from(fault: StoreFault) -> ServeFault {
        match fault {
            // While clients are served, nothing goes out on channel 0, so no text fails there.
            StoreFault::Disk | StoreFault::Output => ServeFault::Disk,
            StoreFault::OutOfMemory => ServeFault::OutOfMemory,
        }
    }
}
