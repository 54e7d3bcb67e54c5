//! What a state's reasons, transactions and increments rest on.
//!
//! It may cite `iss_model` and the crates of laws over it: `iss_acts`, `iss_agreement`, `iss_state`, `iss_states`, `iss_rebuilt` and
//! `iss_well_formed`. It must not cite any body: its laws are of definitions.
#![tactic(auto)]

mod origins;
mod reasons;

pub use origins::{increments_stay_in_turn, origins_stay_sound};
pub use reasons::reasons_stay_known;
