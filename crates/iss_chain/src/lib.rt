//! Transactions: each call moves a transaction's money and its holds in one place, and returns the entries made.
//!
//! An amount is a whole number of minor units, a stamp a number of milliseconds since 1970.
//!
//! It may cite `iss_model`, `iss_hold` and `iss_ledger`.
//! It must not cite what decides, asks the gateway or makes notices: that is the core's.
#![tactic(auto)]

mod books;
mod carrying;
mod chain;
mod laws;
mod making;
pub mod pieces;
mod rows;
mod state;
mod sums;

pub use chain::Chain;
pub use laws::{a_chain_is_part_of_the_core, the_rules_make_its_entries};
pub use state::TxnState;
