//! Tests of the archive's top call over an outside in memory, with a keeper in memory and with one over a database, and stops at each call
//! on its files.
//!
//! It may cite every crate below.
//! Nothing may cite it.
#![tactic(auto)]

#[cfg(test)]
mod archives;
#[cfg(test)]
mod devices;
#[cfg(test)]
mod playing;
#[cfg(test)]
mod statements;
#[cfg(test)]
mod stops;
