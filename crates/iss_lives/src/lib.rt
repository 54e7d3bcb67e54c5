//! What a device keeps over its whole life, whichever of the programs run on it, by their clauses alone.
//!
//! It may cite `iss_edge`, `iss_journal`, `iss_halves`, the model, `iss_image`, `iss_session`, `iss_session_examples`, `iss_standing`,
//! `iss_opening` and `iss_device`, and the clauses of `iss_serve`, `iss_top`, `iss_follow_runs`, `iss_follow_copy`, `iss_follow_same`
//! and `iss_follow_catch`. It must not cite any body of the programs, nor lemmas on them.
#![tactic(auto)]

mod laws;

pub use laws::{
    clauses_are_runs, made_devices_keep_records, programs_keep_what_they_told, runs_end_calm,
    runs_may_end_anywhere,
};
