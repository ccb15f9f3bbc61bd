//! Moves in standard algebraic notation (PGN 8.2.3): read, and written.

mod play;
mod read;
mod refusal;
mod write;
mod writer;

pub use play::{play_word, play_word_san};
pub use read::resolve;
pub use refusal::{Refusal, named_from, why_unnamed};
pub use write::{play_san, san};

/// Why a text names no move.
#[derive(Clone, Copy, Debug, PartialEq, Eq)]
pub enum SanError {
    /// No legal move has that text.
    None,
    /// More than one legal move has that text.
    Several,
}
