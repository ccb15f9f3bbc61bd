//! Chess by the FIDE Laws: boards, positions, legal moves, FEN and SAN. `Position::legal_moves`
//! alone takes memory.
//!
//! The position after the one legal move that a word names; none where the word names none or
//! several:
//!
//! ```text
//! fn after_word(fen: &[u8], word: &[u8]) -> Option<Position<Bits>> {
//!     let position = Position::<Bits>::from_fen(fen).ok()?;
//!     let m = resolve(&position, word).ok()?;
//!     Some(position.play(m))
//! }
//! ```
#![tactic(auto)]

mod board;
mod counts;
mod fen;
mod keys;
pub mod laws;
mod letters;
mod move_text;
mod moves;
mod position;
mod start;

pub use board::{
    Bits, Board, CastlingRights, Direction, Kind, Mailbox, Man, Side, Square, SquareSet, Wing,
};
pub use fen::FenError;
pub use letters::kind_letter;
pub use move_text::{
    Refusal, SanError, named_from, play_san, play_word, play_word_san, resolve, san, why_unnamed,
};
pub use moves::Move;
pub use position::Position;
