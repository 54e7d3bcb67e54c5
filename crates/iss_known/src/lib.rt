//! What the events of a state make known: one pass over them, for whoever tests the state.
//!
//! It may cite `iss_model`, `iss_index`, and definitions and laws of the crates of laws over the model. It must not cite the core
//! or its parts.
#![tactic(auto)]

mod asks;
mod calls;
mod controls;
mod known;
mod parts;
mod products;
mod reading;
mod txns;

pub use calls::CallKnown;
pub use controls::ControlKnown;
pub use known::Known;
pub use txns::TxnKnown;
