//! Bringing a second device up to a first one: the records that it doesn't hold yet are committed to it.
//!
//! It may cite `iss_edge`, `iss_journal`, `iss_halves`, the model and its laws, `iss_codec`, `iss_image`, `iss_image_forms`,
//! `iss_core`, `iss_snapshot`, `iss_standing`, `iss_opening`, `iss_store`, `iss_device` and `iss_follow_runs`. It must not cite
//! the words of a run.
#![tactic(auto)]

mod ahead;
mod catching;
mod committing;
mod laws;

pub use catching::catch;
pub use laws::caught_up_is_all;
