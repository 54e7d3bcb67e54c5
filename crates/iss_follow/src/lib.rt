//! A second device, as a program: its words, and what it does over two outsides, one for each device.
//!
//! It may cite `iss_edge`, `iss_amount`, `iss_journal`, `iss_halves`, the model, `iss_standing`, `iss_opening`, `iss_device`,
//! `iss_follow_runs`, `iss_follow_copy`, `iss_follow_same` and `iss_follow_catch`. It must not cite the real outside.
#![tactic(auto)]

mod following;
mod words;

pub use following::follow;
pub use words::{Command, Usage, command_of};
