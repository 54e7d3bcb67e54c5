//! The real outside: standard streams, a file that is a device, loopback sockets and the system's clocks.
//!
//! It may cite `iss_edge`, `mio` and std's streams, files, sockets and clocks.
//! It must not cite what the bytes mean, nor which command a program's words are.
#![tactic(auto)]

mod ahead;
mod clocks;
mod device;
mod host;
mod peers;
mod real_edge;
mod sockets;
mod unsent;
mod waits;
mod words;

pub use device::Device;
pub use real_edge::RealEdge;
pub use sockets::Sockets;
pub use words::words_of;
