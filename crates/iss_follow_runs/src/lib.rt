//! What all runs share that keep a second device beside a first one: what ends them, and what a stop leaves at each of their moments.
//!
//! It may cite `iss_edge`, `iss_halves`, the model, `iss_states`, `iss_image`, `iss_core`, `iss_standing`, `iss_opening` and
//! `iss_device`. It must not cite a store's calls, nor the words of a run.
#![tactic(auto)]

mod status;
mod stop;

pub use status::{NO_ROOM, NOT_BEHIND};
pub use stop::{Stop, exit_status};
