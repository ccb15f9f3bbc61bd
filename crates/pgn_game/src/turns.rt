//! One turn of a game: the position that it begins from, what a word says there, and why it can't
//! be played.

pub(crate) mod fault;
pub(crate) mod line_move;
pub(crate) mod naming;
pub(crate) mod replayed;
pub(crate) mod saying;
pub(crate) mod starting;
