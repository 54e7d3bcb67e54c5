//! When a state is well-formed: what its lists owe to its events.
//!
//! It may cite `iss_model` and the crates of laws over it: `iss_acts`, `iss_agreement`, `iss_state`, `iss_states` and `iss_rebuilt`.
//! It must not cite any body: its laws are of definitions.
#![tactic(auto)]

mod events;
mod notices;
mod txns;
mod well_formed;

pub use events::{marks_are_of_asks, marks_stay_sound, parts_go_with_marks};
pub use notices::notices_stay_told_well;
pub use txns::transactions_stay_fair;
pub use well_formed::states_stay_well_formed;
