//! The holds: what each transaction holds of its user, by who funds it, and what falls due.
//!
//! An amount is a whole number of minor units.
//!
//! It may cite `iss_model`, and `iss_index` for names. It must not cite the other parts of the core.
#![tactic(auto)]

mod hold;
mod holds;
mod indexes;
mod list;
mod queue;
mod table;

pub use hold::{Hold, Taken};
pub use holds::Holds;
