//! What the program says on standard error if it ends with another status than 0.

ghost use Rattle.std.specs.Prelude.{◌≡◌, ◌↔◌, ◌≤◌, IsSome, IfSome};
ghost use Rattle.iss_cli.specs.Failure.{failure_status};

use iss_edge::status::{
    BAD_DEVICE, DISK_FAULT, INPUT_FAULT, INPUT_TOO_LONG, OUT_OF_MEMORY, OUTPUT_FAULT, USAGE,
};
use thiserror::Error;

/// Why the program did not do what was asked for.
#[derive(Debug, Drop, Error)]
pub enum Failure {
    #[error("issuer: usage: dry, format DEVICE SIZE INSTANCE, replay DEVICE, balances DEVICE, serve DEVICE PORT GATEWAYPORT TURNS, drill N")]
    Usage,
    #[error("issuer: input fault")]
    Input,
    #[error("issuer: device is not an issuer device")]
    Device,
    #[error("issuer: output fault")]
    Output,
    #[error("issuer: disk fault")]
    Disk,
    #[error("issuer: out of memory")]
    Memory,
    #[error("issuer: input too long")]
    InputTooLong,
}

/// The failure that a status stands for.
pub fn failure_of(status: u8) -> Option<Failure>
    ensures known { IsSome result ↔ ((USAGE ≤ status) × (status ≤ INPUT_TOO_LONG)) }
    ensures told { IfSome result (λ failure. failure_status failure ≡ status) }
{
    match status {
        USAGE => Some(Failure::Usage),
        INPUT_FAULT => Some(Failure::Input),
        BAD_DEVICE => Some(Failure::Device),
        OUTPUT_FAULT => Some(Failure::Output),
        DISK_FAULT => Some(Failure::Disk),
        OUT_OF_MEMORY => Some(Failure::Memory),
        INPUT_TOO_LONG => Some(Failure::InputTooLong),
        _ => None,
    }
}
