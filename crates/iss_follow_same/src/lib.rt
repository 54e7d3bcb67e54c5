//! Telling whether two devices stand for the same.
//!
//! It may cite `iss_edge`, `iss_halves`, the model, `iss_states`, `iss_image`, `iss_core`, `iss_snapshot`, `iss_standing`,
//! `iss_opening`, `iss_device`, `iss_follow_runs` and `itoa`. It must not cite a store's calls, nor the words of a run.
#![tactic(auto)]

mod comparing;
mod line;

pub use comparing::same;
