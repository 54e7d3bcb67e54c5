//! How much a take brings.

/// The longest piece that one take of a channel brings, in bytes.
pub const LONGEST_PIECE: usize = 4096;
