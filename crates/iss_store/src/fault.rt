//! Why a call of the store fails.
ghost use Rattle.std.specs.Prelude.{◌≡◌};
ghost use Rattle.iss_store.specs.declared.fault.PlanFault.TheVariants as plan_fault;
ghost use Rattle.iss_store.specs.declared.fault.StoreFault.TheVariants as store_fault;

use iss_edge::Failed;
use iss_model::Answer;
use std::alloc::AllocError;

/// Why an input gets no plan.
#[derive(Clone, Copy)]
pub enum PlanFault {
    /// It makes no record, and is told this.
    Told(Answer),
    /// An allocation failed.
    OutOfMemory,
}

impl From<AllocError> for PlanFault {
    ghost from_gives = { λ error fault. fault ≡ plan_fault.OutOfMemory };

    fn from(_: AllocError) -> PlanFault {
        PlanFault::OutOfMemory
    }
}

/// Why a commit, or what is said after it, fails.
#[derive(Clone, Copy)]
pub enum StoreFault {
    /// A call on the device failed.
    Disk,
    /// A text didn't go out on channel 0.
    Output,
    /// An allocation failed.
    OutOfMemory,
}

impl From<Failed> for StoreFault {
    ghost from_gives = { λ failed fault. fault ≡ store_fault.Output };

    fn from(_: Failed) -> StoreFault {
        StoreFault::Output
    }
}

impl From<AllocError> for StoreFault {
    ghost from_gives = { λ error fault. fault ≡ store_fault.OutOfMemory };

    fn from(_: AllocError) -> StoreFault {
        StoreFault::OutOfMemory
    }
}
