//! What the verdicts and the marks of a sound state say, and what they owe to its sums.
//!
//! It may cite `iss_model` and the crates of laws over it: `iss_acts`, `iss_agreement`, `iss_state`, `iss_states`, `iss_rebuilt` and
//! `iss_well_formed`. It must not cite any body: its laws are of definitions.
#![tactic(auto)]

mod approved;
mod verdicts;

pub use approved::{own_purchases_stay_unpaid, sums_stay_within_approved};
pub use verdicts::verdicts_stay_sound;
