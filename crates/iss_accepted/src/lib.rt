//! The events that were accepted: each once, with its input and how it was decided.
//!
//! An event's input is kept as its record's spelling, all in one buffer, so that a repeat is found by equal bytes.
//!
//! It may cite `iss_model`, `iss_codec`, and of `iss_index` what holds of places.
//! It must not cite the other parts of the core.
#![tactic(auto)]

mod events;
mod row;
mod short;

pub use events::Events;
