//! Tests of the gateway's top call over an outside in memory.
//!
//! It may cite every crate below.
//! Nothing may cite it.
#![tactic(auto)]

#[cfg(test)]
mod asks;
#[cfg(test)]
mod playing;
