//! The plies of one game that meet criteria, looked for one after the other.
ghost use Rattle.std.specs.Prelude.{◌≡◌, ◌↔◌, ◌/◌, ◌==◌, ℕ, false, List, length, IsTrue, IfOk};
ghost use Rattle.std.specs.Prelude.{IfSome, take, ◌*◌};
ghost use Rattle.chess.specs.declared.moves.Move.{Move};
ghost use Rattle.pgn_game.specs.Public.CodeLines.{IsCodedLine, IsLegalLine};
ghost use Rattle.std.specs.Prelude.{MatchResult};
ghost use Rattle.chess.specs.Public.Positions.{State};
ghost use Rattle.pgn_text.specs.Public.GameTexts.{GameText, tag_in};
ghost use Rattle.pgn_game.specs.Public.Faults.{IsFault};
ghost use Rattle.pgn_game.specs.Public.Replays.{Replay, IsSomeReplay, fault_of};
ghost use Rattle.pgn_game.specs.Public.PackedGames.{PackedGame, IsPacked, FitsRecord};
ghost use Rattle.pgn_game.specs.Public.PackReading.{IsRawOfGame, raw_of};
ghost use Rattle.pgn_game.specs.Public.Starts.{fen_tag};
ghost use Rattle.pgn_game.specs.declared.replays.replayer.Lines.TheVariants.{Main};
ghost use Rattle.pgn_criteria.specs.Public.Prefilters.{IsPlayedBy, MeetsSeen, NowhereSeen};
ghost use Rattle.pgn_criteria.specs.Public.Prefilters.{codes_in};
ghost use Rattle.pgn_criteria.specs.Public.Meeting.{Heading, heading_of, SomeHold, Meets};
ghost use Rattle.pgn_criteria.specs.Public.Headings.{MayMeet};
ghost use Rattle.pgn_criteria.specs.Private.Stages.{AllGood, AreLegal, EachAsksWithin};
ghost use Rattle.pgn_criteria.specs.Public.Walks.{IsSeenOf};

use crate::alternative::Alternative;
use crate::headed::Headed;
use crate::meets::Criteria;
use crate::seen::Seen;
use pgn_game::pack::{CodesError, RawRecord, replay_codes};
use pgn_game::{GameFault, GamePosition, Replayed, count_main_moves, replay_beginning};
use pgn_text::RawGame;
use std::alloc::{AllocError, Global};
use std::marker::Model;

/// What criteria ask of the positions of one game: the alternatives whose conditions on tags and on
/// the moves hold. Contracts see them without those conditions.
#[derive(Drop)]
pub struct Search<'a> {
    left: Vec<&'a Alternative>,
}

impl<'a> Model for Search<'a> {
    ghost use Rattle.std.specs.Prelude.{List, map};
    ghost use Rattle.pgn_criteria.specs.Public.Conditions.{Conditions};
    ghost use Rattle.pgn_criteria.specs.Private.Stages.{on_positions};
    ghost use Rattle.std.specs.Coded.{codes};
    ghost use Rattle.chess.specs.Shared.Codes.{coded_state};

    ghost Value = { List Conditions };

    ghost coded = { Prim.hlevel (codes, coded_state) };

    ghost view = { λ s. map (λ a. on_positions a.now) s.left.items };
}

impl<'a> Search<'a> {
    /// Whether no position can meet what is asked: no alternative is left.
    pub fn is_empty(&self) -> bool
        ensures { result ≡ (length self.now == 0) }
    {
        self.left.is_empty()
    }

    /// Whether the position that is seen meets what is asked: some alternative that is left holds
    /// there.
    #[inline(always)]
    pub fn is_met<S: Seen>(&self, seen: &S) -> bool
        ensures { (P : State)
            → IsSeenOf P (S.men seen.now) (S.turn seen.now) (S.checked seen.now) (S.stuck seen.now)
            → (heading : Heading) (replay : Replay) (ply : ℕ)
            → IsTrue result ↔ SomeHold heading replay ply P self.now }
    {
        for alternative in &self.left {
            if alternative.is_met(seen) {
                return true;
            }
        }
        false
    }

    /// Whether a position of a packed game may meet what is asked, by the squares of one man of
    /// each alternative, and by check and whether there is a move: the game starts as is seen, and
    /// these are the bytes of its plies.
    pub fn may_be_met<S: Seen>(&self, start: &S, plies: &[u8]) -> bool
        ensures { result ≡ false
            → NowhereSeen (MeetsSeen self.now) (S.men start.now) (S.turn start.now)
            (S.checked start.now) (S.stuck start.now) (codes_in plies.now) }
    {
        for alternative in &self.left {
            if alternative.may_be_met(start, plies) {
                return true;
            }
        }
        false
    }
}

/// What the alternatives ask of the positions of a game that begins with the moves of this replay.
/// Conditions on tags and on the moves are decided here.
fn left_after<'a, H: Headed<'a>>(
    alloc: Global,
    alternatives: &'a [Alternative],
    game: &H,
    beginning: &Replayed,
) -> Result<Search<'a>, AllocError>
    requires valid { H.valid game.now }
    requires good { AllGood alternatives.now }
    requires legal { AreLegal beginning.now }
    requires still { (most : ℕ) × EachAsksWithin most alternatives.now }
    ensures kept { IfOk result (λ search. (ply : ℕ) (P : State)
        → SomeHold (H.heading game.now) beginning.now ply P search
        ↔ SomeHold (H.heading game.now) beginning.now ply P alternatives.now) }
    ensures free { IfOk result (EachAsksWithin 0) }
{
    let mut left = Vec::new(alloc);
    for alternative in alternatives {
        if alternative.is_of_game(game, beginning) {
            left.push(alternative)?;
        }
    }
    Ok(Search { left })
}

/// The bytes of so many first plies, or of all where there are no more.
pub(crate) fn front_of(plies: &[u8], most: usize) -> &[u8]
    ensures { result.now ≡ take (3 * most) plies.now }
{
    let size = most.saturating_mul(3);
    if size < plies.len() {
        return &plies[..size];
    }
    plies
}

impl Criteria {
    /// What the criteria ask of the positions of the game, where that does not depend on its moves.
    /// It is `None` where an alternative whose conditions on tags hold has one on the moves.
    fn watch_heading<'a, H: Headed<'a>>(
        &'a self,
        alloc: Global,
        game: &H,
    ) -> Result<Option<Search<'a>>, AllocError>
        requires { H.valid game.now }
        ensures { IfOk result (λ watched. IfSome watched (λ search. (replay : Replay) (ply : ℕ)
            → Meets (H.heading game.now) replay ply search
            ↔ Meets (H.heading game.now) replay ply self.now)) }
    {
        let mut left = Vec::new(alloc);
        for alternative in &self.alternatives {
            if alternative.is_of_heading(game) {
                if !alternative.is_free_of_moves() {
                    return Ok(None);
                }
                left.push(alternative)?;
            }
        }
        Ok(Some(Search { left }))
    }

    /// Whether the game can meet the criteria by its tags and its result: some alternative has no
    /// condition on them that fails. No memory is needed.
    pub fn may_be_of<'a>(&'a self, game: &RawGame<'a>) -> bool
        ensures { IsTrue result ↔ MayMeet (heading_of game.now) self.now }
    {
        for alternative in &self.alternatives {
            if alternative.is_of_heading(game) {
                return true;
            }
        }
        false
    }

    /// What the criteria ask of the positions of a game of so many plies. Conditions on its tags,
    /// its result and their number are decided here, once. It is `None` where an alternative of
    /// which these hold speaks of the moves otherwise, or of several plies.
    fn watch_plies<'a, H: Headed<'a>>(
        &'a self,
        alloc: Global,
        game: &H,
        plies: usize,
    ) -> Result<Option<Search<'a>>, AllocError>
        requires { H.valid game.now }
        ensures { IfOk result (λ watched. IfSome watched (λ search. (replay : Replay)
            → length replay.played ≡ plies → (ply : ℕ)
            → Meets (H.heading game.now) replay ply search
            ↔ Meets (H.heading game.now) replay ply self.now)) }
    {
        let mut left = Vec::new(alloc);
        for alternative in &self.alternatives {
            if alternative.is_of_counted(game, plies) {
                if !alternative.is_free_of_words() {
                    return Ok(None);
                }
                left.push(alternative)?;
            }
        }
        Ok(Some(Search { left }))
    }

    /// What the criteria ask of the positions of a packed game. Conditions on its tags, its result
    /// and the number of its plies are decided here, once. It is `None` where an alternative of
    /// which these hold speaks of the moves otherwise, or of several plies.
    pub fn watch_counted<'a>(
        &'a self,
        alloc: Global,
        record: &RawRecord<'a>,
    ) -> Result<Option<Search<'a>>, AllocError>
        requires { IsRawOfGame record.now }
        ensures { IfOk result (λ watched.
            IfSome watched (λ search. (game : GameText) (replay : Replay) (packed : PackedGame)
            → IsPacked packed.name packed.number packed.offset game replay packed
            → FitsRecord packed → raw_of packed ≡ record.now → (any : Replay)
            → length any.played ≡ length record.now.plies / 3 → (ply : ℕ)
            → Meets (heading_of game) any ply search
            ↔ Meets (heading_of game) any ply self.now)) }
    {
        self.watch_plies(alloc, record, record.plies().len() / 3)
    }

    /// What the criteria ask of the positions of a packed game that starts there. Conditions on its
    /// tags and on its first moves are decided here, once; no more of its line is replayed than
    /// these ask for. It is `None` where a condition speaks of the moves at each ply, or of several
    /// plies.
    pub fn watch_begun<'a>(
        &'a self,
        alloc: Global,
        record: &RawRecord<'a>,
        start: GamePosition,
    ) -> Result<Option<Search<'a>>, CodesError>
        requires { IsRawOfGame record.now }
        ensures { MatchResult result
            (λ watched.
            IfSome watched (λ search. (game : GameText) (replay : Replay) (packed : PackedGame)
            → IsPacked packed.name packed.number packed.offset game replay packed
            → FitsRecord packed → raw_of packed ≡ record.now → (line : Replay)
            → IsLegalLine start line → IsCodedLine start record.now.plies line.played → (ply : ℕ)
            → Meets (heading_of game) line ply search
            ↔ Meets (heading_of game) line ply self.now))
            (λ error. error ≡ CodesError.NoLine → (moves : List Move)
            → IsCodedLine start record.now.plies moves → ⊥) }
    {
        let Some(most) = self.beginning else {
            return Ok(None);
        };
        match replay_codes(alloc, start, front_of(record.plies(), most)) {
            Ok(beginning) => Ok(Some(left_after(alloc, &self.alternatives, record, &beginning)?)),
            Err(error) => Err(error),
        }
    }

    /// Whether a position of a packed game may meet the criteria, as far as its record tells with
    /// no move played: by its tags, its result and the number of its plies, by where men arrive,
    /// and by what a walk shows. The game starts as is seen. No memory is needed.
    pub fn may_meet_packed<'a, S: Seen>(&'a self, record: &RawRecord<'a>, start: &S) -> bool
        requires { IsRawOfGame record.now }
        ensures { result ≡ false → (game : GameText) (replay : Replay) (packed : PackedGame)
            → IsPacked packed.name packed.number packed.offset game replay packed
            → FitsRecord packed → raw_of packed ≡ record.now → (P : State)
            → IsSeenOf P (S.men start.now) (S.turn start.now) (S.checked start.now)
            (S.stuck start.now) → IsPlayedBy P (codes_in record.now.plies) replay → (ply : ℕ)
            → Meets (heading_of game) replay ply self.now → ⊥ }
    {
        for alternative in &self.alternatives {
            if alternative.may_be_told(record, start) {
                return true;
            }
        }
        false
    }

    /// What the criteria ask of the positions of the game, by which its plies are found while it is
    /// played. Conditions on tags, on the number of plies and on the first moves are decided here,
    /// once. No more of the main line is played than conditions on its first moves ask for; where
    /// it is faulty there, the fault is answered. It is `None` where a condition speaks of the
    /// moves at each ply, or of several plies: `met_of_game` finds the plies then.
    pub fn watch<'a>(
        &'a self,
        alloc: Global,
        game: &RawGame<'a>,
    ) -> Result<Option<Search<'a>>, GameFault<'a>>
        ensures { MatchResult result
            (λ watched.
            IfSome watched (λ search. (replay : Replay)
            → IsSomeReplay (tag_in fen_tag game.now.tags) game.now.elements replay
            → (ply : ℕ) → Meets (heading_of game.now) replay ply search
            ↔ Meets (heading_of game.now) replay ply self.now))
            (λ fault.
            IfSome (fault_of fault)
            (IsFault Main (tag_in fen_tag game.now.tags) game.now.elements)) }
    {
        if let Some(search) = self.watch_heading(alloc, game)? {
            return Ok(Some(search));
        }
        let Some(most) = self.beginning else {
            return Ok(None);
        };
        let plies = count_main_moves(game.elements());
        if let Some(search) = self.watch_plies(alloc, game, plies)? {
            return Ok(Some(search));
        }
        let beginning = replay_beginning(alloc, game, most)?;
        Ok(Some(left_after(alloc, &self.alternatives, game, &beginning)?))
    }
}
