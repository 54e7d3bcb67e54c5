//! What each account of a sound state is owed.
//!
//! It may cite `iss_model` and the crates of laws over it: `iss_acts`, `iss_agreement`, `iss_state`, `iss_states`, `iss_rebuilt` and
//! `iss_well_formed`. It must not cite any body: its laws are of definitions.
#![tactic(auto)]

mod balances;

pub use balances::{balances_stay_owed, shares_add_up};
