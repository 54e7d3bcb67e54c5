//! Why each act of the rules may be made, and of what it is made. An act makes entries together, and what a record makes
//! is a list of acts. A law on entries is a function over acts, with a clause for each of those that concern it.
//!
//! It may cite `iss_model`.
//! It must not cite any body: its laws are of definitions.
#![tactic(auto)]

mod laws;

pub use laws::acts_have_causes;
