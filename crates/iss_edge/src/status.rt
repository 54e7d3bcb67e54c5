//! The exit status of the program, for each way in which a run ends.

/// All was done.
pub const DONE: u8 = 0;

/// The words are no command.
pub const USAGE: u8 = 2;

/// A take or a wait failed.
pub const INPUT_FAULT: u8 = 3;

/// The device stands for no records, or the one to format has another size.
pub const BAD_DEVICE: u8 = 4;

/// An emit failed.
pub const OUTPUT_FAULT: u8 = 5;

/// A call on the device failed.
pub const DISK_FAULT: u8 = 6;

/// An allocation failed.
pub const OUT_OF_MEMORY: u8 = 7;

/// The input has more bytes than a run takes.
pub const INPUT_TOO_LONG: u8 = 8;
