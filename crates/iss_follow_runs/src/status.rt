//! The exit statuses that a run with a second device has beside those of `iss_edge`.

/// The device to write has no room for what is to be put there.
pub const NO_ROOM: u8 = 9;

/// The device to write doesn't hold what the other held after as many records.
pub const NOT_BEHIND: u8 = 10;
