//! What a server sends to whom, after whatever it heard, as definitions with their laws.
//!
//! It may cite `iss_edge`, `iss_model`, `iss_http`, and of `iss_acts` and `iss_agreement` the laws of book and state. It must not
//! cite any body of the program, nor how JSON is read.
#![tactic(auto)]

mod accounts;
mod channels;
mod laws;
pub mod piece;

pub use accounts::accounts_stay_local;
pub use channels::channels_are_closed;
pub use laws::{
    heard_decides_happenings, levels_never_fall, parts_follow, sessions_are_good_stretches,
    sessions_judge_lines, texts_are_sent, waits_are_turns,
};
