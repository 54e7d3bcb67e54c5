//! How long a drill may be.

/// The most events of a drill.
pub const MOST_EVENTS: u32 = 100_000;
