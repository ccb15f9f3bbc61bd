//! What `--explain` adds: notes on faulty games, on refusals, and on what an input is.

pub(crate) mod kinds;
pub(crate) mod move_notes;
pub(crate) mod notes;
pub(crate) mod players;
pub(crate) mod refusal_notes;
