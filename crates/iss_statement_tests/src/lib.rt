//! Tests of statements: worked lines and words.
//!
//! It may cite `iss_edge`, `iss_model`, `iss_archive` and `iss_statement`.
//! Nothing may cite it.
#![tactic(auto)]

#[cfg(test)]
mod lines;
#[cfg(test)]
mod words;
#[cfg(test)]
mod year;
