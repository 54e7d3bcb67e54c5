//! Things that are kept by channel, in the order in which they came, each found by a logarithm of how many stand.
//!
//! More than one may have a channel, so no call asks what stands. An owner that looks its things up by another key too keeps
//! their places by that key beside them.
//!
//! It may cite `iss_edge`, for channels alone.
//! It must not cite what its things are.
#![tactic(auto)]

mod by_channel;
mod on_channel;
mod places;

pub use by_channel::ByChannel;
pub use on_channel::{OnChannel, Receives};
pub use places::Places;
