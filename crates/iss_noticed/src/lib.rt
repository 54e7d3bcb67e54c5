//! Whom the notices of a sound state name, and how much they tell.
//!
//! It may cite `iss_model` and the crates of laws over it: `iss_acts`, `iss_agreement`, `iss_state`, `iss_states`, `iss_rebuilt` and
//! `iss_well_formed`. It must not cite any body: its laws are of definitions.
#![tactic(auto)]

mod addressed;
mod amounts;
mod given_back;

pub use addressed::notices_stay_addressed;
pub use amounts::amounts_stay_within;
pub use given_back::notices_give_back_within;
