//! The device's side of every run that opens one: which devices are refused, what a stop leaves at each moment, and what then
//! stands.
//!
//! It may cite `iss_edge`, `iss_journal`, `iss_halves`, the model, `iss_standing` and `iss_opening`.
//! It must not cite a store's calls, lines, clients or a run's words: it says what all runs share.
#![tactic(auto)]

mod laws;

pub use laws::{devices_keep_what_was_told, ended_runs_leave_calm, made_devices_keep, runs_go_on};
