//! Copying a device to one of another size: the image of all that stands on the first becomes that of the second.
//!
//! It may cite `iss_edge`, `iss_journal`, `iss_halves`, the model, `iss_states`, `iss_image`, `iss_core`, `iss_snapshot`,
//! `iss_standing`, `iss_opening`, `iss_device` and `iss_follow_runs`. It must not cite a store's calls, nor the words of a run.
#![tactic(auto)]

mod copying;
mod tail;

pub use copying::copy;
