//! The parts of a core that are lists, made again from a sound state: events, calls, notices, stand-ins and counters.
//!
//! It may cite `iss_model`, the parts that it makes again, `iss_time`, `iss_index`, `iss_codec`, `iss_known`, and definitions and
//! laws of the crates of laws. It must not cite the core.
#![tactic(auto)]

mod calls;
mod counters;
mod events;
mod notices;
mod stand_ins;

pub use calls::calls_again;
pub use counters::counters_again;
pub use events::events_again;
pub use notices::notices_again;
pub use stand_ins::stand_ins_again;
