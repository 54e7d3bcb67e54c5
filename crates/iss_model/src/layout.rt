//! What a record takes on a device beside its spelling, and where the first one begins, in bytes. These are the sizes of
//! the journal. The journal isn't a library of this crate, nor this crate one of the journal's, so the store asks that
//! they are equal.

/// How long a gate is.
pub const GATE_SIZE: u64 = 1;

/// How long the length before a spelling or an image is.
pub const LENGTH_SIZE: u64 = 4;

/// How much stands before a record's spelling: a gate and a length.
pub const RECORD_HEAD: u64 = GATE_SIZE + LENGTH_SIZE;

/// The place of the first gate, right after the header.
pub const HEADER_END: u64 = 16;

/// Where the halves of a device begin: after the header and the byte that names the current half.
pub const HALVES_START: u64 = HEADER_END + 1;
