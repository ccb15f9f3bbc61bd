//! What criteria ask of the plies of a line while it is played.
ghost use Rattle.std.specs.Prelude.{◌≡◌, ◌↔◌, ◌/◌, [], ℕ, length, IsTrue, IfOk, IfSome};
ghost use Rattle.chess.specs.Public.Moves.{IsLegal};
ghost use Rattle.pgn_game.specs.Public.Replays.{Replay};
ghost use Rattle.pgn_text.specs.Public.GameTexts.{GameText};
ghost use Rattle.pgn_game.specs.Public.PackedGames.{PackedGame, IsPacked, FitsRecord};
ghost use Rattle.pgn_game.specs.Public.PackReading.{IsRawOfGame, raw_of};
ghost use Rattle.pgn_criteria.specs.Public.Meeting.{Heading, Meets, heading_of};
ghost use Rattle.pgn_criteria.specs.Public.Turns.{IsTurn};
ghost use Rattle.pgn_criteria.specs.Private.Counted.{AreOfTurns};
ghost use Rattle.pgn_criteria.specs.Private.Stages.{FitsAt};

use crate::alternative::Alternative;
use crate::headed::Headed;
use crate::meets::Criteria;
use crate::played::{About, are_about, fits_before};
use chess::Move;
use pgn_game::GamePosition;
use pgn_game::pack::RawRecord;
use std::alloc::{AllocError, Global};
use std::marker::Model;

/// What stands at a ply of a line that is played.
#[derive(Clone, Copy)]
pub struct Turn<'l> {
    /// The position before the last move; any where there is none.
    pub before: &'l GamePosition,
    /// The move that led to the position, none at the start.
    pub last: &'l Option<Move>,
    /// The position.
    pub position: &'l GamePosition,
    /// The move that is played from it, none at the end.
    pub next: &'l Option<Move>,
}

/// What criteria ask of the plies of one game, where they say nothing of several: the alternatives
/// whose conditions on the game hold. Contracts see them without those conditions.
#[derive(Drop)]
pub struct TurnSearch<'a> {
    pub(crate) left: Vec<&'a Alternative>,
}

impl<'a> Model for TurnSearch<'a> {
    ghost use Rattle.std.specs.Prelude.{List, map};
    ghost use Rattle.pgn_criteria.specs.Public.Conditions.{Conditions};
    ghost use Rattle.pgn_criteria.specs.Private.Stages.{on_plies};
    ghost use Rattle.std.specs.Coded.{codes};
    ghost use Rattle.chess.specs.Shared.Codes.{coded_state};

    ghost Value = { List Conditions };

    ghost coded = { Prim.hlevel (codes, coded_state) };

    ghost view = { λ s. map (λ a. on_plies a.now) s.left.items };
}

/// Whether what the alternative says of the position, and of the moves before and after it, is so.
pub(crate) fn fits_turn(alternative: &Alternative, turn: Turn<'_>) -> bool
    requires last { IfSome turn.last.now (IsLegal turn.before.now) }
    requires next { IfSome turn.next.now (IsLegal turn.position.now) }
    ensures { (replay : Replay) (ply : ℕ)
        → IsTurn replay ply turn.entry.before.now turn.entry.last.now
        turn.entry.position.now turn.entry.next.now
        → IsTrue result ↔ FitsAt replay alternative.now ply }
{
    let moves = &alternative.moves;
    let is_reached = are_about(moves, About::Last, turn.before, turn.last);
    if !fits_before(alternative, is_reached, turn.position) {
        return false;
    }
    are_about(moves, About::Next, turn.position, turn.next)
}

impl<'a> TurnSearch<'a> {
    /// Whether the ply at which this stands meets what is asked: some alternative that is left
    /// holds there.
    pub fn is_met(&self, turn: Turn<'_>) -> bool
        requires last { IfSome turn.last.now (IsLegal turn.before.now) }
        requires next { IfSome turn.next.now (IsLegal turn.position.now) }
        ensures { (heading : Heading) (replay : Replay) (ply : ℕ)
            → IsTurn replay ply turn.entry.before.now turn.entry.last.now
            turn.entry.position.now turn.entry.next.now
            → IsTrue result ↔ Meets heading replay ply self.now }
    {
        for alternative in &self.left {
            if fits_turn(alternative, turn) {
                return true;
            }
        }
        false
    }
}

impl Criteria {
    /// What the criteria ask of the plies of a game of so many plies. Conditions on its tags, its
    /// result and their number are decided here, once. It is `None` where an alternative of which
    /// these hold speaks of the first moves, or of several plies.
    fn watch_turns_of<'a, H: Headed<'a>>(
        &'a self,
        alloc: Global,
        game: &H,
        plies: usize,
    ) -> Result<Option<TurnSearch<'a>>, AllocError>
        requires { H.valid game.now }
        ensures { IfOk result (λ watched. IfSome watched (λ search. (replay : Replay)
            → length replay.played ≡ plies → (ply : ℕ)
            → Meets (H.heading game.now) replay ply search
            ↔ Meets (H.heading game.now) replay ply self.now)) }
    {
        let mut left = Vec::new(alloc);
        for alternative in &self.alternatives {
            if alternative.is_of_counted(game, plies) {
                if !alternative.is_of_turns() {
                    return Ok(None);
                }
                left.push(alternative)?;
            }
        }
        Ok(Some(TurnSearch { left }))
    }

    /// What the criteria ask of the plies of a packed game while it is played. Conditions on its
    /// tags, its result and the number of its plies are decided here, once. It is `None` where an
    /// alternative of which these hold speaks of its first moves, or of several plies.
    pub fn watch_turns<'a>(
        &'a self,
        alloc: Global,
        record: &RawRecord<'a>,
    ) -> Result<Option<TurnSearch<'a>>, AllocError>
        requires { IsRawOfGame record.now }
        ensures { IfOk result (λ watched.
            IfSome watched (λ search. (game : GameText) (replay : Replay) (packed : PackedGame)
            → IsPacked packed.name packed.number packed.offset game replay packed
            → FitsRecord packed → raw_of packed ≡ record.now → (any : Replay)
            → length any.played ≡ length record.now.plies / 3 → (ply : ℕ)
            → Meets (heading_of game) any ply search
            ↔ Meets (heading_of game) any ply self.now)) }
    {
        self.watch_turns_of(alloc, record, record.plies().len() / 3)
    }
}
