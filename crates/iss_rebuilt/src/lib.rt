//! A core that is made again from what is shown is like the core.
//!
//! It may cite `iss_model` and the crates of laws over it: `iss_acts`, `iss_agreement`, `iss_state` and `iss_states`.
//! It must not cite any body: its laws are of definitions.
#![tactic(auto)]

mod likeness;
mod purchases;
mod sums;

pub use likeness::cores_are_made_again;
pub use purchases::{holdings_are_made_again, purchases_are_made_again};
pub use sums::{decisions_are_made_again, sums_are_made_again};
