//! All lines, played and kept.
ghost use Rattle.std.specs.Prelude.{◌≡◌, ℕ, ◌+◌, ◌++◌, List, [], ◌∷◌, length, map, MatchResult};
ghost use Rattle.std.specs.Prelude.{IfOk, IfSome, OnOk};
ghost use Rattle.chess.specs.Public.Positions.{State};
ghost use Rattle.pgn_text.specs.Public.Elements.{item_of};
ghost use Rattle.pgn_text.specs.Public.GameTexts.{IsPaired};
ghost use Rattle.pgn_game.specs.Public.AllLines.{IsTurn, after_turn, ArePlayed};
ghost use Rattle.pgn_game.specs.Public.Faults.{HaveFault};
ghost use Rattle.pgn_game.specs.Public.MainLines.{main_words, IsMainLine};
ghost use Rattle.pgn_game.specs.Public.Replays.{fault_of};
ghost use Rattle.pgn_game.specs.Private.Steps.{Keeps, KeepsStep};

use crate::replays::line_stack::LineStack;
use crate::replays::walk::{Level, StepVisitor, play_turn, walk};
use crate::turns::fault::GameFault;
use crate::turns::line_move::LineMove;
use crate::turns::replayed::{GamePosition, Replayed};
use chess::Move;
use pgn_text::Element;
use std::alloc::{AllocError, Global};

/// A replay of all lines while it is kept: the positions of the main line, its moves, and all turns
/// in the order of the text.
#[derive(Drop)]
struct ReplayKeeper {
    positions: Vec<GamePosition>,
    played: Vec<Move>,
    turns: Vec<LineMove>,
}

impl ReplayKeeper {
    /// Before the first turn.
    fn new(alloc: Global, start: &GamePosition) -> Result<Self, AllocError>
        ensures positions { IfOk result (λ keeper. keeper.positions.items ≡ start.now ∷ []) }
        ensures played { IfOk result (λ keeper. keeper.played.items ≡ []) }
        ensures turns { IfOk result (λ keeper. keeper.turns.items ≡ []) }
    {
        let mut positions = Vec::new(alloc);
        positions.push(start.copy())?;
        Ok(ReplayKeeper {
            positions,
            played: Vec::new(alloc),
            turns: Vec::new(alloc),
        })
    }

    /// Keeps a turn, and a move of the main line also among its moves, with the position after it.
    fn keep(
        &mut self,
        inside: bool,
        turn: &LineMove,
        after: &GamePosition,
    ) -> Result<(), AllocError>
        requires says { (before : State) × (word : List ℕ) × IsTurn inside before word turn.now }
        ensures turns { OnOk result (self.new.turns.items ≡ self.old.turns.items ++ turn.now ∷ []) }
        ensures main { OnOk result
            (Keeps inside self.old.positions.items self.new.positions.items self.old.played.items
            self.new.played.items turn.now after.now) }
    {
        self.turns.push(*turn)?;
        if !inside {
            if let LineMove::Played(m) = turn {
                self.positions.push(after.copy())?;
                self.played.push(*m)?;
            }
        }
        Ok(())
    }

    /// What is kept, as a replay.
    fn replayed(self) -> Replayed
        requires { length self.positions.items ≡ length self.played.items + 1 }
        ensures positions { result.positions ≡ self.positions.items }
        ensures played { result.played ≡ self.played.items }
        ensures turns { result.turns ≡ self.turns.items }
    {
        let ReplayKeeper {
            positions,
            played,
            turns,
        } = self;
        Replayed {
            positions,
            played,
            turns,
        }
    }
}

impl StepVisitor for ReplayKeeper {
    ghost does = { KeepsStep };

    ghost text = { λ keeper. [] };

    fn turn<'a>(
        &mut self,
        position: &mut GamePosition,
        inside: bool,
        word: &'a [u8],
        ply: usize,
    ) -> Result<LineMove, GameFault<'a>> {
        let turn = play_turn(position, inside, word, ply)?;
        self.keep(inside, &turn, position)?;
        Ok(turn)
    }

    fn beside(&mut self, _element: Element<'_>) -> Result<(), AllocError> {
        Ok(())
    }
}

/// Plays all lines of the elements from the position.
pub(crate) fn play_all_lines<'a>(
    alloc: Global,
    start: &GamePosition,
    elements: &[Element<'a>],
) -> Result<Replayed, GameFault<'a>>
    requires { IsPaired 0 (map item_of elements.now) }
    ensures { MatchResult result
        (λ replayed.
        IsMainLine start.now (main_words (map item_of elements.now) 0) replayed.positions
        replayed.played
        × ArePlayed start.now (map item_of elements.now) replayed.turns)
        (λ fault. IfSome (fault_of fault) (HaveFault start.now (map item_of elements.now))) }
{
    let mut keeper = ReplayKeeper::new(alloc, start)?;
    let mut stack = LineStack::new(alloc, Level::first(start));
    walk(&mut stack, elements, true, &mut keeper)?;
    Ok(keeper.replayed())
}
