//! Alternatives of criteria.
ghost use Rattle.std.specs.Prelude.{◌≡◌, ◌↔◌, ◌∷◌, [], ℕ, false, List, map, IsTrue, IfOk, IfSome};
ghost use Rattle.std.specs.Prelude.{MatchOption};
ghost use Rattle.chess.specs.Public.Placements.{Placement};
ghost use Rattle.chess.specs.Public.Positions.{State};
ghost use Rattle.pgn_game.specs.Public.PackReading.{IsRawOfGame};
ghost use Rattle.pgn_game.specs.Public.Replays.{Replay};
ghost use Rattle.pgn_criteria.specs.Private.Counted.{AllOfCounted, AreFreeOfWords, AreOfSeen};
ghost use Rattle.pgn_criteria.specs.Private.Counted.{AreOfTurns, IsFreeOfWords};
ghost use Rattle.pgn_criteria.specs.Private.Planning.{Plans};
ghost use Rattle.pgn_criteria.specs.Private.Records.{heading_of_raw};
ghost use Rattle.pgn_criteria.specs.Public.Meeting.{Meets};
ghost use Rattle.pgn_criteria.specs.Public.Walks.{IsSeenOf};
ghost use Rattle.pgn_criteria.specs.Private.Stages.{AreLegal, AreGood, AllOfGame, AllOfHeading};
ghost use Rattle.pgn_criteria.specs.Private.Stages.{AllAskWithin, AllClaims, AreFreeOfMoves};
ghost use Rattle.pgn_criteria.specs.Private.Stages.{AllOfPly};
ghost use Rattle.pgn_criteria.specs.Private.Stages.{AllSaid, AllOfSeen, AreFixed, AreMirrored};
ghost use Rattle.pgn_criteria.specs.Private.Stages.{OfPattern, AllOfPatterns};
ghost use Rattle.pgn_criteria.specs.Private.Stages.{AllOfRest, AreNoCounts, SpansStand};
ghost use Rattle.pgn_criteria.specs.Private.Stages.{position_seen, seen, stage_of};
ghost use Rattle.pgn_criteria.specs.Public.Prefilters.{IsPlayedBy, NowhereSeen, codes_in};
ghost use Rattle.pgn_criteria.specs.Private.Marks.{AreMarksOf, FitsSeen};
ghost use Rattle.pgn_criteria.specs.Private.PrefilterTests.{Nowhere};
ghost use Rattle.pgn_criteria.specs.declared.meets.Stage.TheVariants.{Squares};

use crate::by_marks::marks_of_all;
use crate::by_record::{are_free_of_words, are_of_counted, words_are_shown};
use crate::condition::{GameClaim, MoveClaim, PositionClaim, PositionCondition, SpanClaim, Stated};
use crate::conditions::Conditions;
use crate::headed::Headed;
use crate::marks::marks_are_shown;
use crate::meets::{
    Stage, are_free_of_moves, are_of_game, are_of_heading, are_of_ply, are_of_rest, are_of_stage,
    are_patterns, longest_beginning, stage_of,
};
use crate::mirror::{all_mirrored, are_fixed};
use crate::numbers::numbers_are_shown;
use crate::plan::Plan;
use crate::played::are_beside_plies;
use crate::prefilter::Prefilter;
use crate::seen::Seen;
use crate::spans::{are_no_counts, spans_stand};
use chess::SquareSet;
use pgn_game::Replayed;
use pgn_game::pack::RawRecord;
use std::alloc::{AllocError, Global};
use std::marker::Model;

/// Conditions as they are tried at a position, whether they have `either` or not. Contracts see the
/// conditions.
#[derive(Drop)]
pub(crate) struct PlannedConditions {
    pub(crate) conditions: Vec<PositionCondition<Vec<u8>>>,
    /// What the patterns among them ask of squares, and where men may stand then.
    plan: Plan,
    free: SquareSet,
    /// Whether that is all that the patterns ask.
    is_planned: bool,
    /// Whether the others say nothing of positions.
    is_bare: bool,
    /// Whether the prefilter is asked of a position before the plan. It takes fewer steps where
    /// patterns are asked either way.
    is_prefiltered: bool,
    /// A man who has to stand on known squares, or may not, if the patterns say so of one.
    prefilter: Option<Prefilter>,
}

impl Model for PlannedConditions {
    ghost use Rattle.std.specs.Prelude.{ℕ, List, IfSome, IsTrue, map};
    ghost use Rattle.pgn_criteria.specs.Private.PrefilterTests.{IsPrefilterOf};
    ghost use Rattle.pgn_criteria.specs.declared.condition.PositionCondition.{PositionCondition};
    ghost use Rattle.pgn_criteria.specs.Private.Layouts.{IsRest};
    ghost use Rattle.pgn_criteria.specs.Private.Planning.{IsSoundPlan, IsPlanned};
    ghost use Rattle.pgn_criteria.specs.Private.Stages.{ArePatterns, seen};

    ghost Value = { List (PositionCondition (List ℕ)) };

    ghost view = { λ a. map (seen (λ text. text.items)) a.conditions.items };

    ghost invariant = { λ a. record {
      sound : IsSoundPlan a.plan;
      rest : IsRest a.plan.layout.empty a.free;
      planned : IsPlanned (map (seen (λ text. text.items)) a.conditions.items) a.plan a.is_planned;
      bare : IsTrue a.is_bare → ArePatterns (map (seen (λ text. text.items)) a.conditions.items);
      prefiltered : IfSome a.prefilter (IsPrefilterOf a.plan);
    } };
}

/// Conditions that are to hold together. Contracts see the conditions.
#[derive(Drop)]
pub struct Alternative {
    pub(crate) games: Vec<Stated<GameClaim<Vec<u8>>>>,
    pub(crate) moves: Vec<Stated<MoveClaim<Vec<u8>>>>,
    pub(crate) spans: Vec<SpanClaim>,
    /// The conditions on positions as they stand.
    pub(crate) plain: PlannedConditions,
    /// Where some have `either`, the conditions that hold at a position where those hold at its
    /// mirror, and the others at the position.
    mirrored: Option<PlannedConditions>,
}

impl Model for Alternative {
    ghost use Rattle.std.specs.Prelude.{MatchOption, map};
    ghost use Rattle.pgn_criteria.specs.Public.Conditions.{Conditions as Asked};
    ghost use Rattle.pgn_criteria.specs.Private.Stages.{AreFixed, AreMirrored, game_seen};
    ghost use Rattle.pgn_criteria.specs.Private.Stages.{move_seen, stated};
    ghost use Rattle.std.specs.Coded.{codes};
    ghost use Rattle.chess.specs.Shared.Codes.{coded_state};

    ghost Value = { Asked };

    ghost coded = { Prim.hlevel (codes, coded_state) };

    ghost view = { λ a. record {
      games = map (stated (game_seen (λ text. text.items))) a.games.items;
      positions = a.plain;
      moves = map (stated (move_seen (λ text. text.items))) a.moves.items;
      spans = a.spans.items;
    } };

    ghost invariant = { λ a.
        MatchOption a.mirrored (AreFixed a.plain) (λ planned. AreMirrored planned a.plain) };
}

/// Plans what a condition asks of squares, if it is a pattern. Answers whether that is all that it
/// asks.
fn plan_one(
    alloc: Global,
    plan: &mut Plan,
    condition: &PositionCondition<Vec<u8>>,
) -> Result<bool, AllocError>
    ensures { IfOk result
        (Plans (λ p. stage_of (position_seen (λ text. text.items) condition.now.claim) ≡ Squares
        → OfPattern p (seen (λ text. text.items) condition.now)) (λ p. Unit {0})
        plan.old plan.new) }
{
    if stage_of(&condition.claim) != Stage::Squares {
        return Ok(true);
    }
    match &condition.claim {
        PositionClaim::Fen(pattern) => {
            if condition.is_denied {
                plan.add_denied(alloc, pattern)
            } else {
                plan.add_pattern(pattern)
            }
        }
        PositionClaim::Flip(pattern) => {
            if condition.is_denied {
                plan.add_no_way(alloc, pattern)
            } else {
                plan.add_ways(alloc, pattern)
            }
        }
        _ => Ok(false),
    }
}

/// Plans what conditions ask of squares. Answers whether that is all that the patterns among them
/// ask.
fn plan_all(
    alloc: Global,
    plan: &mut Plan,
    conditions: &[PositionCondition<Vec<u8>>],
) -> Result<bool, AllocError>
    ensures { IfOk result
        (Plans (λ p. AllOfPatterns p (map (seen (λ text. text.items)) conditions.now)) (λ p.
        Unit {0}) plan.old plan.new) }
{
    let mut is_all = true;
    for condition in conditions {
        is_all = plan_one(alloc, plan, condition)? && is_all;
    }
    Ok(is_all)
}

impl PlannedConditions {
    /// What is planned for these conditions.
    fn new(alloc: Global, conditions: Vec<PositionCondition<Vec<u8>>>) -> Result<Self, AllocError>
        ensures { IfOk result (λ own. own ≡ map (seen (λ text. text.items)) conditions.items) }
    {
        let mut plan = Plan::new(alloc);
        let is_planned = plan_all(alloc, &mut plan, &conditions)?;
        let is_bare = are_patterns(&conditions);
        let free = plan.free();
        let prefilter = plan.prefilter();
        let is_prefiltered = prefilter.is_some() && !plan.is_flat();
        Ok(PlannedConditions {
            conditions,
            plan,
            free,
            is_planned,
            is_bare,
            is_prefiltered,
            prefilter,
        })
    }

    /// Whether the patterns can be met before the plies or after one of them, by the squares of one
    /// man.
    #[inline(always)]
    fn may_be_met<S: Seen>(&self, start: &S, plies: &[u8]) -> bool
        ensures { result ≡ false
            → Nowhere (λ men. AllOfPatterns men self.now) (S.men start.now) (codes_in plies.now) }
    {
        match &self.prefilter {
            Some(prefilter) => prefilter.lets_through(start, plies),
            None => true,
        }
    }

    /// Whether the marks that the conditions need, and as few men as they allow, may be so before
    /// the plies or after one of them.
    #[inline(always)]
    fn needs_are_shown<S: Seen>(&self, start: &S, plies: &[u8]) -> bool
        ensures { result ≡ false
            → NowhereSeen (FitsSeen self.now) (S.men start.now) (S.turn start.now)
            (S.checked start.now) (S.stuck start.now) (codes_in plies.now) }
    {
        if !marks_are_shown(&self.conditions, start, plies) {
            return false;
        }
        numbers_are_shown(&self.conditions, start, plies)
    }

    /// The marks of positions with which all conditions hold. It is `None` where one of them speaks
    /// of men.
    fn marks(&self) -> Option<u8>
        ensures { IfSome result (λ set. (men : Placement)
            → AreMarksOf set (λ turn check stuck.
            AllSaid men turn (IsTrue check) (IsTrue stuck) self.now)) }
    {
        marks_of_all(&self.conditions)
    }

    /// Whether the position meets the conditions that speak of it and are no patterns.
    #[inline(always)]
    fn rest_is_met<S: Seen>(&self, position: &S) -> bool
        ensures { IsTrue result
            ↔ AllOfRest (S.men position.now) (S.turn position.now) (S.checked position.now)
            (S.stuck position.now) self.now }
    {
        self.is_bare || are_of_rest(&self.conditions, position)
    }

    /// Whether the position can meet the patterns, by the squares of one man.
    #[inline(never)]
    fn may_stand<S: Seen>(&self, position: &S) -> bool
        ensures { result ≡ false → AllOfPatterns (S.men position.now) self.now → ⊥ }
    {
        match &self.prefilter {
            Some(prefilter) => prefilter.may_be_met(position),
            None => true,
        }
    }

    /// Whether the position meets all conditions that speak of it. What is planned is looked at
    /// first, and patterns of which that is not all last.
    #[inline(always)]
    fn is_met<S: Seen>(&self, position: &S) -> bool
        ensures { IsTrue result
            ↔ AllSaid (S.men position.now) (S.turn position.now) (S.checked position.now)
            (S.stuck position.now) self.now }
    {
        if self.is_prefiltered && !self.may_stand(position) {
            return false;
        }
        self.plan.is_met(&self.free, position)
            && self.rest_is_met(position)
            && (self.is_planned || are_of_stage(&self.conditions, Stage::Squares, position))
    }
}

/// What is tried at the mirror of a position, if one of the conditions has `either`.
fn mirrored_conditions(
    alloc: Global,
    conditions: &[PositionCondition<Vec<u8>>],
) -> Result<Option<PlannedConditions>, AllocError>
    ensures { IfOk result (λ found.
        MatchOption found (AreFixed (map (seen (λ text. text.items)) conditions.now))
        (λ planned. AreMirrored planned (map (seen (λ text. text.items)) conditions.now))) }
{
    if are_fixed(conditions) {
        return Ok(None);
    }
    let mirrored = all_mirrored(alloc, conditions)?;
    Ok(Some(PlannedConditions::new(alloc, mirrored)?))
}

impl Alternative {
    /// The alternative with these conditions.
    pub(crate) fn new(alloc: Global, conditions: Conditions) -> Result<Self, AllocError>
        ensures { IfOk result (λ own. own ≡ conditions) }
    {
        let mirrored = mirrored_conditions(alloc, &conditions.positions)?;
        let plain = PlannedConditions::new(alloc, conditions.positions)?;
        Ok(Alternative {
            games: conditions.games,
            moves: conditions.moves,
            spans: conditions.spans,
            plain,
            mirrored,
        })
    }

    /// Whether the game meets the conditions, as far as they speak of it alone.
    pub(crate) fn is_of_game<'a, H: Headed<'a>>(&'a self, game: &H, replayed: &Replayed) -> bool
        requires valid { H.valid game.now }
        requires good { AreGood self.now }
        requires legal { AreLegal replayed.now }
        ensures { IsTrue result ↔ AllOfGame (H.heading game.now) replayed.now self.now }
    {
        are_of_game(&self.games, game, replayed)
    }

    /// Whether the tags and the result of the game meet the conditions that speak of them.
    pub(crate) fn is_of_heading<'a, H: Headed<'a>>(&'a self, game: &H) -> bool
        requires valid { H.valid game.now }
        requires good { AreGood self.now }
        ensures { IsTrue result ↔ AllOfHeading (H.heading game.now) self.now.games }
    {
        are_of_heading(&self.games, game)
    }

    /// Whether the tags, the result and the number of the plies of the game meet the conditions
    /// that speak of them.
    pub(crate) fn is_of_counted<'a, H: Headed<'a>>(&'a self, game: &H, plies: usize) -> bool
        requires valid { H.valid game.now }
        requires good { AreGood self.now }
        ensures { IsTrue result ↔ AllOfCounted (H.heading game.now) plies self.now.games }
    {
        are_of_counted(&self.games, game, plies)
    }

    /// How many first moves of the game the conditions ask for at most; `None` where they ask for
    /// each.
    pub(crate) fn beginning(&self) -> Option<usize>
        ensures { IfSome result (λ most. AllAskWithin most self.now) }
    {
        if self.moves.is_empty() && self.spans.is_empty() {
            Some(longest_beginning(&self.games))
        } else {
            None
        }
    }

    /// Whether the moves before and after so many plies meet the conditions that speak of them.
    pub(crate) fn is_of_ply(&self, replayed: &Replayed, plies: usize) -> bool
        requires { AreLegal replayed.now }
        ensures { IsTrue result ↔ AllOfPly replayed.now plies self.now }
    {
        are_of_ply(&self.moves, replayed, plies)
    }

    /// Whether none of the conditions speaks of the moves of the game.
    pub(crate) fn is_free_of_moves(&self) -> bool
        ensures { IsTrue result ↔ AreFreeOfMoves self.now }
    {
        self.moves.is_empty() && self.spans.is_empty() && are_free_of_moves(&self.games)
    }

    /// Whether none of the conditions speaks of the moves of the game but by their number.
    pub(crate) fn is_free_of_words(&self) -> bool
        ensures { IsTrue result ↔ AreFreeOfWords self.now }
    {
        self.moves.is_empty() && self.spans.is_empty() && are_free_of_words(&self.games)
    }

    /// Whether none of the conditions speaks of the first moves of the game.
    pub(crate) fn has_no_words(&self) -> bool
        ensures { IsTrue result ↔ AllClaims IsFreeOfWords self.now.games }
    {
        are_free_of_words(&self.games)
    }

    /// Whether none of the conditions speaks of the first moves of the game, or has `position`.
    pub(crate) fn is_of_seen(&self) -> bool
        ensures { IsTrue result ↔ AreOfSeen self.now }
    {
        are_beside_plies(&self.moves) && self.has_no_words()
    }

    /// Whether none of the conditions speaks of the first moves of the game, or of several plies.
    pub(crate) fn is_of_turns(&self) -> bool
        ensures { IsTrue result ↔ AreOfTurns self.now }
    {
        self.is_free_of_spans() && self.has_no_words()
    }

    /// The marks of positions with which its conditions on them hold. It is `None` where one of
    /// these has `either`, or speaks of men.
    pub(crate) fn position_marks(&self) -> Option<u8>
        ensures { IfSome result (λ set. (men : Placement)
            → AreMarksOf set (λ turn check stuck.
            AllOfSeen men turn (IsTrue check) (IsTrue stuck) self.now.positions)) }
    {
        match &self.mirrored {
            Some(_) => None,
            None => self.plain.marks(),
        }
    }

    /// The marks of positions with which the conditions hold. It is `None` where one of them has
    /// `either`, or speaks of men or of moves.
    pub(crate) fn marks(&self) -> Option<u8>
        ensures { IfSome result (λ set. AreFreeOfMoves self.now
            × ((men : Placement)
            → AreMarksOf set (λ turn check stuck.
            AllOfSeen men turn (IsTrue check) (IsTrue stuck) self.now.positions))) }
    {
        if !self.is_free_of_moves() {
            return None;
        }
        self.position_marks()
    }

    /// Whether none of the conditions speaks of positions.
    pub(crate) fn is_free_of_positions(&self) -> bool
        ensures { IsTrue result ↔ (self.now.positions ≡ []) }
    {
        self.plain.conditions.is_empty()
    }

    /// Whether none of the conditions has `for` or `count`.
    pub(crate) fn is_free_of_spans(&self) -> bool
        ensures { IsTrue result ↔ (self.now.spans ≡ []) }
    {
        self.spans.is_empty()
    }

    /// Whether none of the conditions has `count`.
    pub(crate) fn is_free_of_counts(&self) -> bool
        ensures { IsTrue result ↔ AreNoCounts self.now.spans }
    {
        are_no_counts(&self.spans)
    }

    /// Whether `for` and `count` are met at a ply that begins a run of so many plies that fit,
    /// where so many fit in all.
    pub(crate) fn spans_stand(&self, run: u128, many: u128) -> bool
        ensures { IsTrue result ↔ SpansStand run many self.now.spans }
    {
        spans_stand(&self.spans, run, many)
    }

    /// Whether the position meets the conditions that speak of it, as they stand or with those that
    /// have `either` tried at its mirror.
    #[inline(always)]
    pub(crate) fn is_met<S: Seen>(&self, position: &S) -> bool
        ensures { IsTrue result
            ↔ AllOfSeen (S.men position.now) (S.turn position.now) (S.checked position.now)
            (S.stuck position.now) self.now.positions }
    {
        if self.plain.is_met(position) {
            return true;
        }
        match &self.mirrored {
            Some(planned) => planned.is_met(position),
            None => false,
        }
    }

    /// Whether some position before the plies or after one of them can meet the conditions.
    #[inline(always)]
    pub(crate) fn may_be_met<S: Seen>(&self, start: &S, plies: &[u8]) -> bool
        ensures { result ≡ false
            → NowhereSeen (FitsSeen self.now.positions) (S.men start.now) (S.turn start.now)
            (S.checked start.now) (S.stuck start.now) (codes_in plies.now) }
    {
        if !self.plain.needs_are_shown(start, plies) {
            return false;
        }
        if self.plain.may_be_met(start, plies) {
            return true;
        }
        match &self.mirrored {
            Some(planned) => planned.may_be_met(start, plies),
            None => false,
        }
    }

    /// Whether the moves that the conditions ask for may be among the plies.
    fn words_are_shown(&self, plies: &[u8]) -> bool
        ensures { result ≡ false → (P : State) (replay : Replay)
            → IsPlayedBy P (codes_in plies.now) replay → (ply : ℕ)
            → AllOfPly replay ply self.now → ⊥ }
    {
        words_are_shown(&self.moves, plies)
    }

    /// Whether the conditions may hold at a position of the packed game, as far as its record tells
    /// with no move played. The game starts as is seen.
    pub(crate) fn may_be_told<'a, S: Seen>(&'a self, record: &RawRecord<'a>, start: &S) -> bool
        requires valid { IsRawOfGame record.now }
        requires good { AreGood self.now }
        ensures { result ≡ false → (P : State) (replay : Replay)
            → IsSeenOf P (S.men start.now) (S.turn start.now) (S.checked start.now)
            (S.stuck start.now) → IsPlayedBy P (codes_in record.now.plies) replay → (ply : ℕ)
            → Meets (heading_of_raw record.now) replay ply (self.now ∷ []) → ⊥ }
    {
        let plies = record.plies();
        if !self.is_of_counted(record, plies.len() / 3) {
            return false;
        }
        if !self.words_are_shown(plies) {
            return false;
        }
        self.may_be_met(start, plies)
    }
}
