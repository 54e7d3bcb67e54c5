//! Tests of opening a device over an outside in memory: each call once, with ample memory.
//!
//! It may cite `iss_edge` and `iss_opening`, and of `iss_core`, `iss_halves` and `iss_journal` what an opened device has.
//! Nothing may cite it.
#![tactic(auto)]

#[cfg(test)]
mod openings;
