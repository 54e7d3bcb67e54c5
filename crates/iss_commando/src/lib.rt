//! Commando Mode: the sets by which the programme stands in for its gateway, and what it stood in for on each day.
//!
//! An amount is a whole number of minor units, a stamp a number of milliseconds since 1970, a day one of UTC.
//!
//! It may cite `iss_model` and `iss_time`.
//! It must not cite the other parts of the core.
#![tactic(auto)]

mod day;
mod sets;
mod stand;
mod sums;

pub use sets::{SetFault, Sets};
pub use stand::SetStand;
