//! The test of a state's balances: each account has what it is owed, and balances are of known
//! accounts and in order.
//!
//! It may cite `iss_model`, `iss_index`, `iss_ledger`, `iss_known`, and the crates of laws over the model. It must not cite the
//! core or its other parts.
#![tactic(auto)]

mod balances;
mod listed;
mod order;
mod owed;
mod taken;

pub use balances::are_balances_sound;
