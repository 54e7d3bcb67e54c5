//! Tests of a second device over outsides in memory: what each command does, and what it leaves if it stops anywhere.
//!
//! It may cite every crate below.
//! Nothing may cite it.
#![tactic(auto)]

#[cfg(test)]
mod devices;
#[cfg(test)]
mod images;
#[cfg(test)]
mod rows;
#[cfg(test)]
mod stops;
