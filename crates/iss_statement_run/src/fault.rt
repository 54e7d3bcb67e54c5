//! Why a statement wasn't written.
ghost use Rattle.std.specs.Prelude.{◌≡◌};
ghost use Rattle.iss_statement_run.specs.declared.fault.StatementFault.TheVariants as statement_fault;
ghost use Rattle.iss_statement_run.specs.Faulting.{fault_of_keeping};

use iss_archive::KeepFault;
use std::alloc::AllocError;

/// Why a statement wasn't written, or not all of it.
#[derive(Clone, Copy, Debug)]
pub enum StatementFault {
    /// The keeper of the archive failed.
    Keeper,
    /// The emit failed.
    Output,
    OutOfMemory,
}

impl From<AllocError> for StatementFault {
    ghost from_gives = { λ error given. given ≡ statement_fault.OutOfMemory };

    fn from(_: AllocError) -> Self {
        StatementFault::OutOfMemory
    }
}

impl From<KeepFault> for StatementFault {
    ghost from_gives = { λ fault given. given ≡ fault_of_keeping fault };

    fn from(fault: KeepFault) -> Self {
        match fault {
            KeepFault::Failed => StatementFault::Keeper,
            KeepFault::OutOfMemory => StatementFault::OutOfMemory,
        }
    }
}
