//! The texts that go out: written in a row from what is to be said, and sent one by one.
//!
//! It may cite `iss_edge`, `iss_model`, `iss_event` and `iss_jit`.
//! It must not cite the core: it doesn't know what stands.
#![tactic(auto)]

mod row;
mod sending;

pub use row::Texts;
