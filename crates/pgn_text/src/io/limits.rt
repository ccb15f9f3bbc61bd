//! The limits of texts.

/// The most bytes that a block may have and still be given as bytes.
pub const BLOCK_LIMIT: usize = 16_777_216;

/// How deep variations may nest.
pub const MAX_DEPTH: usize = 255;

/// The largest offset that a text may reach.
pub const LARGEST_OFFSET: u64 = 4_611_686_018_427_387_904;

/// The most bytes that one read asks for.
pub const READ_LIMIT: usize = 8192;

/// The most bytes that are held at once: a block of the limit, and what one read gives.
pub const WINDOW_LIMIT: usize = BLOCK_LIMIT + READ_LIMIT;
