//! Chess games in Portable Game Notation: what a reader gives is parted into blocks, a block into
//! games, and each game is read as tags, elements and a result. Nothing of a game is copied: tags,
//! words, comments and results are slices of the block. The module `memory` has a proved example of
//! each call over a reader, a writer or a block.
#![tactic(auto)]

mod error;
mod game;
mod io;
pub mod laws;
mod lex;
pub mod memory;

pub use error::error_position::{Stop, Within, error_position_of, locate_error, tag_name_at};
pub use error::locate::{element_place, tag_place};
pub use game::pieces::start::{games, marks};
pub use game::pieces::{Games, Marks, Piece, PieceStart};
pub use game::{Element, RawGame};
pub use io::blocks::{Block, Blocks, Body, ReadError};
pub use io::buffer::Buffer;
pub use io::limits::{BLOCK_LIMIT, LARGEST_OFFSET, MAX_DEPTH};
pub use io::skip::Skip;
pub use io::tally::Tally;
pub use lex::class::are_name_bytes;
pub use lex::quoted::{is_contents, value};
pub use lex::unquoted::Value;
