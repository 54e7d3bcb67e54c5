//! Card products: those that stand, in the order in which they were made, and the switch of each.
//!
//! It may cite `iss_model` and `indexmap`.
//! It must not cite the other parts of the core.
#![tactic(auto)]

mod products;

pub use products::{ProductFault, Products};
