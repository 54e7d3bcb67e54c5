//! What ends a run early that attends to clients.
ghost use Rattle.std.specs.Prelude.{◌≡◌};
ghost use Rattle.iss_attend.specs.declared.fault.AttendFault.TheVariants.{OutOfMemory};

use std::alloc::AllocError;

/// What ends a run early that attends to clients.
#[derive(Clone, Copy, Debug, PartialEq, Eq)]
pub enum AttendFault {
    /// A wait failed.
    Wait,
    /// An allocation failed.
    OutOfMemory,
}

impl From<AllocError> for AttendFault {
    ghost from_gives = { λ error fault. fault ≡ OutOfMemory };

    fn from(_: AllocError) -> AttendFault {
        AttendFault::OutOfMemory
    }
}
