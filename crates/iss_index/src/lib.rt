//! Named things in the order in which they were added, each found by its name.
//!
//! It may cite `iss_model`, for names alone.
//! It must not cite what its things are.
#![tactic(auto)]

mod groups;
mod index;
mod names;
mod places;

pub use index::Index;
pub use names::Names;
