//! How far the counters and sums of a sound state reach, and how many there are.
//!
//! It may cite `iss_model` and the crates of laws over it: `iss_acts`, `iss_agreement`, `iss_state`, `iss_states`, `iss_rebuilt`,
//! `iss_well_formed` and `iss_noticed`. It must not cite any body: its laws are of definitions.
#![tactic(auto)]

mod bounds;

pub use bounds::{bounds_stay, numbers_stay};
