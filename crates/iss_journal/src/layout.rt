//! What stands on a device, how long each part is, and the least and greatest values of each: lengths and places in bytes.

/// How long the header is: it takes the places 0 to 15.
pub const HEADER: usize = 16;

/// How many instances a header can spell: it has six bytes for one.
pub const HEADER_INSTANCES: u64 = 1 << 48;

/// How long a gate is.
pub const GATE: u64 = 1;

/// How long the length before a record's body is: the highest byte comes first.
pub const LENGTH: u64 = 4;

/// How much stands before a record's body: a gate and a length.
pub const HEAD: u64 = GATE + LENGTH;

/// How much the shortest record takes: its head and a body of one byte.
pub const SHORTEST_RECORD: u64 = HEAD + 1;

/// How long the longest body of a record is.
pub const LONGEST_BODY: u64 = 8192;

/// The place of the first gate, right after the header.
pub const FIRST_GATE: u64 = HEADER as u64;

/// How long the shortest device is: it has a header and an end gate.
pub const LEAST_SIZE: u64 = FIRST_GATE + GATE;

/// How long the longest device is.
pub const GREATEST_SIZE: u64 = 1 << 32;
