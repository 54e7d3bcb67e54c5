//! What can be told of a state's events and of its transactions' sums without a core that is made again.
//!
//! It may cite `iss_model`, `iss_index`, and definitions of the crates of laws over the model. It must not cite the core or its
//! parts.
#![tactic(auto)]

mod events;
mod forms;
mod listed;
mod names;
mod order;
mod sums;
mod totals;
mod verdicts;

pub use events::are_events_sound;
pub use sums::are_sums_done;
