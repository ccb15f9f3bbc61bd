//! A game that is replayed.
ghost use Rattle.std.specs.Prelude.{◌≡◌, ◌+◌, ◌<◌, ◌≤◌, length, Some};
ghost use Rattle.std.specs.List.{slice_get};
ghost use Rattle.pgn_game.specs.Private.Codes.{coded_replay};
ghost use Rattle.pgn_game.specs.Public.Replays.{Replay};

use crate::turns::line_move::LineMove;
use chess::{Bits, Move, Position};
use std::marker::Model;

/// The positions that games are played in.
pub type GamePosition = Position<Bits>;

/// The positions of a game's main line, and the moves between them; where all lines were replayed,
/// also the turns of all of them.
#[derive(Drop)]
pub struct Replayed {
    pub(crate) positions: Vec<GamePosition>,
    pub(crate) played: Vec<Move>,
    pub(crate) turns: Vec<LineMove>,
}

impl Model for Replayed {
    ghost Value = { Replay };

    ghost coded = { coded_replay };

    ghost view = { λ replayed.
        record {
          positions = replayed.positions.items;
          played = replayed.played.items;
          turns =
              replayed.turns.items;
        } };

    ghost invariant = { λ replayed. length replayed.positions.items
        ≡ length replayed.played.items + 1 };
}

impl Replayed {
    /// The number of plies of the main line; each is a move of one side.
    pub fn plies(&self) -> usize
        ensures count { result ≡ length self.now.played }
        ensures positions { length self.now.positions ≡ result + 1 }
    {
        self.played.len()
    }

    /// The position after so many plies: at 0 the one that the game starts from.
    pub fn position(&self, ply: usize) -> &GamePosition
        requires { ply ≤ length self.now.played }
        ensures { slice_get self.now.positions ply ≡ Some result.now }
    {
        &self.positions[ply]
    }

    /// The move of the main line that follows after so many plies.
    pub fn played(&self, plies: usize) -> Move
        requires { plies < length self.now.played }
        ensures { slice_get self.now.played plies ≡ Some result }
    {
        self.played[plies]
    }

    /// How many turns are kept: where all lines were replayed, one for each move text of the game,
    /// also in variations; else 0.
    pub fn turns(&self) -> usize
        ensures { result ≡ length self.now.turns }
    {
        self.turns.len()
    }

    /// The turn that follows so many others in the order of the text: a move, or in a variation a
    /// pass.
    pub fn turn(&self, index: usize) -> LineMove
        requires { index < length self.now.turns }
        ensures { slice_get self.now.turns index ≡ Some result }
    {
        self.turns[index]
    }
}
