//! The ledger: what each account has, and which accounts there are.
//!
//! An amount is a whole number of minor units. A post takes it from one account and adds it to another.
//!
//! It may cite `iss_model`.
//! It must not cite the other parts of the core.
#![tactic(auto)]

mod key;
mod ledger;
mod sums;

pub use ledger::Ledger;
