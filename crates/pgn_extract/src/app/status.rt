//! The statuses that the program ends with.

/// No game was faulty, or the help was asked for.
pub const SOUND: u8 = 0;

/// A game was faulty.
pub const FAULTY: u8 = 1;

/// The arguments or the criteria were refused, or a file could not be opened.
pub const REFUSED: u8 = 2;

/// The run failed.
pub const FAILED: u8 = 3;
