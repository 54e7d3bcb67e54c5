//! The outside of the processor: its channels of bytes and its device, behind one trait, and an implementation in memory.
//!
//! It may cite std alone.
//! It must not cite what the bytes mean: no input, no record, no gateway.
#![tactic(auto)]

mod bytes;
mod counts;
mod device;
mod edge;
mod memory;
mod outside;
pub mod status;

pub use bytes::Bytes;
pub use counts::{Fault, FaultCounts};
pub use device::{Showing, put, stretches_join};
pub use edge::Edge;
pub use memory::MemoryEdge;
pub use outside::{Action, Answered, Arrival, Channel, Failed, Script};
