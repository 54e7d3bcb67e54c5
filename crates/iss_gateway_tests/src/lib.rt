//! Tests of the reference gateway: a worked list of messages, and texts and bodies by their bytes.
//!
//! It may cite `iss_model`, `iss_gateway` and `uuid`.
//! Nothing may cite it.
#![tactic(auto)]

#[cfg(test)]
mod hearing;
#[cfg(test)]
mod texts;
