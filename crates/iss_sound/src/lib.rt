//! When a state is sound: all its rules together, and the test of them.
//!
//! It may cite `iss_model`, the crates of laws over it, and the crates that test parts of a state: `iss_known`, `iss_sound_events`,
//! `iss_sound_parts` and `iss_sound_balances`. It must not cite the core or its parts.
#![tactic(auto)]

mod laws;
mod testing;

pub use laws::states_stay_sound;
pub use testing::{known_if_sound, sound};
