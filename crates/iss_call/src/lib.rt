//! The calls to the customer's gateway, each with its number, and the asked ones as they fall due and by transaction.
//!
//! It may cite `iss_model`, and `iss_index` for names.
//! It must not cite the other parts of the core.
#![tactic(auto)]

mod call;
mod calls;
mod orders;
mod rows;

pub use call::{Call, NotOpen};
pub use calls::Calls;
