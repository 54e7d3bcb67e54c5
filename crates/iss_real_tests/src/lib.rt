//! Tests of the real outside: a file, connections on loopback, and want of handles.
//!
//! It may cite `iss_real` and `iss_edge`.
//! Nothing may cite it.
#![tactic(auto)]

#[cfg(test)]
mod edges;
