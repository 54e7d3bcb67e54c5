//! What a state names: its balances, its counters and its sums of stand-ins.
//!
//! It may cite `iss_model` and the crates of laws over it: `iss_acts`, `iss_agreement`, `iss_state`, `iss_states`, `iss_rebuilt` and
//! `iss_well_formed`.
//! It must not cite any body: its laws are of definitions.
#![tactic(auto)]

mod kept;

pub use kept::{names_stay_known, states_are_shown_again};
