//! How moves are written.

/// How moves are written.
#[derive(Clone, Copy, Debug, PartialEq, Eq)]
pub enum Notation {
    /// In standard algebraic notation, as in the export.
    San,
    /// As in the protocol UCI: the squares from and to, and what a pawn becomes. Castling is the
    /// king's move.
    Uci,
}
