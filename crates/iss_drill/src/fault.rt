//! Why a drill ends early.
ghost use Rattle.std.specs.Prelude.{◌≡◌};
ghost use Rattle.iss_drill.specs.declared.fault.DrillFault.TheVariants as drill_fault;

use iss_edge::Failed;
use std::alloc::AllocError;

/// Why a drill ends early.
#[derive(Clone, Copy, Debug, PartialEq, Eq)]
pub enum DrillFault {
    /// Its line didn't go out whole.
    Output,
    /// An allocation failed.
    OutOfMemory,
}

impl From<Failed> for DrillFault {
    ghost from_gives = { λ failed fault. fault ≡ drill_fault.Output };

    fn from(_: Failed) -> DrillFault {
        DrillFault::Output
    }
}

impl From<AllocError> for DrillFault {
    ghost from_gives = { λ error fault. fault ≡ drill_fault.OutOfMemory };

    fn from(_: AllocError) -> DrillFault {
        DrillFault::OutOfMemory
    }
}
