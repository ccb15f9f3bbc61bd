//! Positions in Forsyth-Edwards notation (PGN 16.1): read, and written.

mod read;
mod write;

/// Why a text is no position: the first of these that applies.
#[derive(Clone, Copy, Debug, PartialEq, Eq)]
pub enum FenError {
    /// The text is not of the form (PGN 16.1).
    Syntax,
    /// A side has no king, or more than one.
    Kings,
    /// A pawn stands on the first or the last rank.
    Pawns,
    /// The side not to move is in check.
    InCheck,
}
