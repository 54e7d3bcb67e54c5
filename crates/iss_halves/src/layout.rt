//! What stands on a device in halves, and how long each part is: lengths and places in bytes.

use iss_journal::layout::{FIRST_GATE, GATE, LENGTH};

/// The place of the selector, right after the header: the byte there names the current half.
pub const SELECTOR: u64 = FIRST_GATE;

/// The selector that names the second half. Any other names the first.
pub const SECOND: u8 = 1;

/// The place of the first half, right after the selector.
pub const HALVES_START: u64 = SELECTOR + 1;

/// How much a half takes beside its image: the length before it, and the first gate after it.
pub const BESIDE_IMAGE: u64 = LENGTH + GATE;

/// How long the shortest device in halves is: each half has room for an image of no bytes.
pub const LEAST_HALVES_SIZE: u64 = HALVES_START + BESIDE_IMAGE + BESIDE_IMAGE;
