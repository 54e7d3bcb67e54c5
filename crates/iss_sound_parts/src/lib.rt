//! The tests of a state's parts beside its events and its balances: transactions, calls, verdicts, counters, sums of stand-ins
//! and notices.
//!
//! It may cite `iss_model`, `iss_index`, `iss_known`, and definitions and laws of the crates of laws. It must not cite the core
//! or its parts.
#![tactic(auto)]

mod asked;
mod belonging;
mod counters;
mod groups;
mod limits;
mod notices;
mod places;
mod reasons;
mod stand_ins;
mod totals;
mod turns;
mod txns;
mod verdicts;

pub use asked::Asked;
pub use counters::are_counters_sound;
pub use notices::are_notices_sound;
pub use stand_ins::are_stand_ins_sound;
pub use totals::{Open, open_in};
pub use txns::are_txns_sound;
pub use verdicts::are_verdicts_sound;
