//! Bytes read and written: readers and writers with a tally, and the blocks of a text.

pub(crate) mod blocks;
pub(crate) mod buffer;
pub(crate) mod limits;
pub(crate) mod skip;
pub(crate) mod tally;
