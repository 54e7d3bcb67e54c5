//! The processor and the gateway together, as definitions, and the law that their books differ by what is on its way.
//!
//! It may cite `iss_model`, the crates of laws over it, `iss_laws`, `iss_gateway_laws`, the definitions of `iss_gateway`, and
//! `byteorder`. It must not cite any body of the program.
#![tactic(auto)]

mod laws;
mod moves;
mod worked;

pub use laws::{both_sides_reconcile, reference_gateway_reconciles};
pub use moves::{Move, Sent};
pub use worked::worked_moves;
