//! Tests of devices over an outside in memory: each call once, with ample memory, and the bytes that it leaves.
//!
//! It may cite `iss_edge`, `iss_journal` and `iss_halves`.
//! Nothing may cite it.
#![tactic(auto)]

#[cfg(test)]
mod devices;
