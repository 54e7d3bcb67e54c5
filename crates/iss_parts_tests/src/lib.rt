//! Tests of the core's parts: what neither a worked script nor a check of the built program shows.
//!
//! It may cite `iss_model`, `iss_time`, `iss_hold`, `iss_chain`, `iss_velocity`, `iss_commando`, `iss_notice` and `iss_core`.
//! Nothing may cite it.
#![tactic(auto)]

#[cfg(test)]
mod chain;
#[cfg(test)]
mod listed;
#[cfg(test)]
mod state;
#[cfg(test)]
mod windows;
