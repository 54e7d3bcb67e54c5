//! The notices to the customer's gateway: how many were made, and those that aren't acknowledged yet.
//!
//! It may cite `iss_model`.
//! It must not cite the other parts of the core.
#![tactic(auto)]

mod notices;

pub use notices::{NoticeFault, Notices};
