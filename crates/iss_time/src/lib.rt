//! Windows of time: the days, weeks and months over which controls add up, at an offset from UTC.
//!
//! It may cite `iss_model`, `jiff` and `jiff_core`. It must not cite controls: it knows stamps and windows alone.
#![tactic(auto)]

mod windows;

pub use windows::window;
