//! The parts of a text: classes of bytes, parts as tokens and by their places, tags and their
//! strings.

pub(crate) mod class;
pub(crate) mod movetext;
pub(crate) mod place;
pub(crate) mod quoted;
pub(crate) mod scan;
pub(crate) mod tag;
pub(crate) mod token;
pub(crate) mod unquoted;
