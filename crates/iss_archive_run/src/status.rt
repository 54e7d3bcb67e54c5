//! The exit statuses that a run over an archive has beside those of `iss_edge`.

/// The record after those that are archived can't be had from the device any more.
pub const GAP: u8 = 11;

/// The archive is of another device, or of more records than this one has, or its postings would be more than can be counted.
pub const STRANGE: u8 = 12;

/// The keeper of the archive failed.
pub const KEEPER_FAULT: u8 = 13;
