//! Moves.
use crate::board::{Kind, Square, Wing};

pub(crate) mod castling;
mod legal;
mod list;
mod pass;
mod play;
pub(crate) mod pseudo_legal;

/// A move. In castling `from` and `to` are the king's squares.
#[derive(Clone, Copy, Debug, PartialEq, Eq)]
pub struct Move {
    pub from: Square,
    pub to: Square,
    /// What a pawn becomes that reaches the last rank.
    pub promote: Option<Kind>,
    /// The wing, where the move is castling.
    pub castle: Option<Wing>,
}
