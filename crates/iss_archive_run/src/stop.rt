//! What ends a run early.
ghost use Rattle.std.specs.Prelude.{◌≡◌};
ghost use Rattle.iss_archive_run.specs.declared.stop.Stop.TheVariants as stop;
ghost use Rattle.iss_archive_run.specs.Statuses.{exit_status, statement_status, stop_of_opening, stop_of_keeping};

use crate::status::{GAP, KEEPER_FAULT, STRANGE};
use iss_archive::ArchiveFault;
use iss_edge::status::{BAD_DEVICE, DISK_FAULT, DONE, OUT_OF_MEMORY, OUTPUT_FAULT};
use iss_opening::OpenFault;
use iss_statement_run::StatementFault;
use std::alloc::AllocError;

/// Why a run ended early.
#[derive(Debug, Clone, Copy)]
pub enum Stop {
    /// No store can be opened on the device.
    Device,
    /// An emit failed.
    Output,
    /// A call on the device failed.
    Disk,
    /// An allocation failed.
    Memory,
    /// The record after those that are archived can't be had from the device any more.
    Gap,
    /// The archive is of another device, or of more records than this one has, or its postings would be more than can be counted.
    Strange,
    /// The keeper failed.
    Keeper,
}

impl From<AllocError> for Stop {
    ghost from_gives = { λ error given. given ≡ stop.Memory };

    fn from(_: AllocError) -> Self {
        Stop::Memory
    }
}

impl From<OpenFault> for Stop {
    ghost from_gives = { λ fault given. given ≡ stop_of_opening fault };

    fn from(fault: OpenFault) -> Self {
        match fault {
            OpenFault::Disk => Stop::Disk,
            OpenFault::OutOfMemory => Stop::Memory,
            OpenFault::NotFormatted
            | OpenFault::BadRecord(_)
            | OpenFault::BadSpelling(_)
            | OpenFault::BadHistory(_)
            | OpenFault::BadImage(_) => Stop::Device,
        }
    }
}

impl From<ArchiveFault> for Stop {
    ghost from_gives = { λ fault given. given ≡ stop_of_keeping fault };

    fn from(fault: ArchiveFault) -> Self {
        match fault {
            ArchiveFault::Gap => Stop::Gap,
            ArchiveFault::Strange => Stop::Strange,
            ArchiveFault::Keeper => Stop::Keeper,
            ArchiveFault::OutOfMemory => Stop::Memory,
        }
    }
}

/// The exit status of a run that ended so.
pub fn exit_status(ended: Result<(), Stop>) -> u8
    ensures { result ≡ exit_status ended }
{
    match ended {
        Ok(()) => DONE,
        Err(Stop::Device) => BAD_DEVICE,
        Err(Stop::Output) => OUTPUT_FAULT,
        Err(Stop::Disk) => DISK_FAULT,
        Err(Stop::Memory) => OUT_OF_MEMORY,
        Err(Stop::Gap) => GAP,
        Err(Stop::Strange) => STRANGE,
        Err(Stop::Keeper) => KEEPER_FAULT,
    }
}

/// The exit status of a statement that ended so.
pub fn statement_status(ended: Result<(), StatementFault>) -> u8
    ensures { result ≡ statement_status ended }
{
    match ended {
        Ok(()) => DONE,
        Err(StatementFault::Output) => OUTPUT_FAULT,
        Err(StatementFault::OutOfMemory) => OUT_OF_MEMORY,
        Err(StatementFault::Keeper) => KEEPER_FAULT,
    }
}
