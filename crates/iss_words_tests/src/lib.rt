//! A test that the words of a run are what `clap` takes for the same commands.
//!
//! It may cite `iss_top` and `clap`.
//! Nothing may cite it. It stands alone, since a test over `clap` takes minutes to prove.
#![tactic(auto)]

#[cfg(test)]
mod words;
