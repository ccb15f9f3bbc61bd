//! What a side does when it is to move.

use chess::Move;

/// What a side does when it is to move.
#[derive(Clone, Copy, Debug, PartialEq, Eq)]
pub enum LineMove {
    /// It plays a move.
    Played(Move),
    /// It gives its move up; only in variations.
    Passed,
}
