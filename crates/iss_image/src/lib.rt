//! The image of a state: the bytes that spell it, and the state that bytes spell.
//!
//! The events' tokens stand in a table, and each list names them by their places there. `image_of_state` is the definition.
//!
//! It may cite `iss_model`, `iss_codec`, `iss_index`, `iss_image_lists`, of `iss_states` the state without a record, and of
//! `iss_acts`, `iss_agreement` and `iss_state` their laws. It must not cite the core, its parts, or a device.
#![tactic(auto)]

mod events;
mod laws;
mod lists;
mod lookups;
mod reading;
mod spelling;
mod tokens;
mod verdicts;

pub use laws::images_are_read_again;
pub use lookups::{CardMade, Purchase, WindowSet};
pub use reading::read;
pub use spelling::spell;
