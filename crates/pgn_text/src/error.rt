//! Where a text stops agreeing with games, and where the elements and tags of a game stand.

pub(crate) mod error_position;
pub(crate) mod locate;
