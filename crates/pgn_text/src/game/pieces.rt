//! The pieces of a block.

ghost use Rattle.std.specs.Prelude.{◌≡◌, ◌≤◌, false, length};

use crate::game::{RawGame, game_end, read_game};
use crate::lex::place::gap_end;
use std::alloc::{AllocError, Global};
use std::marker::Model;

pub mod start;

/// A piece of a block.
#[derive(Drop)]
pub enum Piece<'a> {
    /// A game.
    Game(RawGame<'a>),
    /// The bytes from this place to the block's end, where no game begins.
    Unreadable { at: usize },
}

/// The pieces of a block, in their order. After an error there are no more.
#[derive(Drop)]
pub struct Games<'a> {
    alloc: Global,
    block: &'a [u8],
    file_start: bool,
    at: usize,
    failed: bool,
}

impl<'a> Model for Games<'a> {
    ghost use Rattle.std.specs.Prelude.{◌≤◌, length};
    ghost use Rattle.pgn_text.specs.Public.Left.{Left};

    ghost Value = { Left };

    ghost view = { λ games.
        record {
          block = games.block.now;
          file_start = games.file_start;
          at = games.at;
          failed =
              games.failed;
        } };

    ghost invariant = { λ games. games.at ≤ length games.block.now };
}

impl<'a> Games<'a> {
    pub(crate) fn new(alloc: Global, block: &'a [u8], file_start: bool) -> Self
        ensures { result
            ≡ record { block = block.now; file_start = file_start; at = 0; failed = false } }
    {
        Games {
            alloc,
            block,
            file_start,
            at: 0,
            failed: false,
        }
    }
}

impl<'a> Iterator for Games<'a> {
    ghost use Rattle.std.specs.Iterator.{at_most};
    ghost use Rattle.std.specs.Prelude.{◌-◌, length};
    ghost use Rattle.pgn_text.specs.Public.Left.{GivesPiece};
    ghost use Rattle.pgn_text.specs.Public.Limits.{depth_limit};

    type Item = Result<Piece<'a>, AllocError>;

    ghost next_gives = { GivesPiece depth_limit };

    ghost remaining = { λ games. at_most (length games.block - games.at) };

    fn next(&mut self) -> Option<Result<Piece<'a>, AllocError>> {
        if self.failed {
            return None;
        }
        let begin = gap_end(self.block, self.at, self.file_start);
        if begin == self.block.len() {
            return None;
        }
        match read_game(self.alloc, self.block, begin, self.file_start) {
            Ok(Some((game, end))) => {
                self.at = end;
                Some(Ok(Piece::Game(game)))
            }
            Ok(None) => {
                self.at = self.block.len();
                Some(Ok(Piece::Unreadable { at: begin }))
            }
            Err(error) => {
                self.at = self.block.len();
                self.failed = true;
                Some(Err(error))
            }
        }
    }
}

/// Where a piece of a block begins, and what it is.
#[derive(Clone, Copy, Debug, PartialEq, Eq)]
pub enum PieceStart {
    /// A game begins at this place.
    Game(usize),
    /// The bytes from this place to the block's end, where no game begins.
    Unreadable(usize),
}

/// The places of the pieces of a block, in their order.
#[derive(Drop)]
pub struct Marks<'a> {
    block: &'a [u8],
    file_start: bool,
    at: usize,
}

impl<'a> Model for Marks<'a> {
    ghost use Rattle.std.specs.Prelude.{◌≤◌, false, length};
    ghost use Rattle.pgn_text.specs.Public.Left.{Left};

    ghost Value = { Left };

    ghost view = { λ marks.
        record {
          block = marks.block.now;
          file_start = marks.file_start;
          at = marks.at;
          failed =
              false;
        } };

    ghost invariant = { λ marks. marks.at ≤ length marks.block.now };
}

impl<'a> Marks<'a> {
    pub(crate) fn new(block: &'a [u8], file_start: bool) -> Self
        ensures { result
            ≡ record { block = block.now; file_start = file_start; at = 0; failed = false } }
    {
        Marks {
            block,
            file_start,
            at: 0,
        }
    }
}

impl<'a> Iterator for Marks<'a> {
    ghost use Rattle.std.specs.Iterator.{at_most};
    ghost use Rattle.std.specs.Prelude.{◌-◌, length};
    ghost use Rattle.pgn_text.specs.Public.LeftMarks.{GivesMark};
    ghost use Rattle.pgn_text.specs.Public.Limits.{depth_limit};

    type Item = PieceStart;

    ghost next_gives = { GivesMark depth_limit };

    ghost remaining = { λ marks. at_most (length marks.block - marks.at) };

    fn next(&mut self) -> Option<PieceStart> {
        let begin = gap_end(self.block, self.at, self.file_start);
        if begin == self.block.len() {
            return None;
        }
        match game_end(self.block, begin, self.file_start) {
            Some(end) => {
                self.at = end;
                Some(PieceStart::Game(begin))
            }
            None => {
                self.at = self.block.len();
                Some(PieceStart::Unreadable(begin))
            }
        }
    }
}
