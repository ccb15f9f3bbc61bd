//! Criteria that speak of no men and of no moves: the marks of a position tell whether it meets
//! them, and no board is needed.
ghost use Rattle.std.specs.Prelude.{◌≡◌, ◌↔◌, ◌%◌, ◌/◌, ◌-◌, ◌==◌, ℕ, if◌then◌else◌, true, map};
ghost use Rattle.std.specs.Prelude.{IsTrue, IfSome, MatchOption};
ghost use Rattle.chess.specs.Public.Placements.{Placement};
ghost use Rattle.pgn_text.specs.Public.GameTexts.{GameText};
ghost use Rattle.pgn_game.specs.Public.PackedGames.{PackedGame, IsPacked, FitsRecord};
ghost use Rattle.pgn_game.specs.Public.PackReading.{IsRawOfGame, raw_of};
ghost use Rattle.pgn_game.specs.Public.Replays.{Replay};
ghost use Rattle.pgn_criteria.specs.Public.ByMarks.{first_place, has_marks, AreMetByMarks};
ghost use Rattle.pgn_criteria.specs.Public.ByMarks.{NoneMeets, IsNextMet};
ghost use Rattle.pgn_criteria.specs.Private.Marks.{AreMarksOf, Needs};
ghost use Rattle.pgn_criteria.specs.Public.Meeting.{heading_of};
ghost use Rattle.pgn_criteria.specs.Public.Prefilters.{codes_in};
ghost use Rattle.pgn_criteria.specs.Private.Stages.{AllSaid, SaysOfSeen, position_seen, seen};

use crate::condition::{PositionClaim, PositionCondition};
use crate::headed::Headed;
use crate::marks::after_eights;
use crate::meets::Criteria;
use chess::Side;
use pgn_game::pack::RawRecord;

/// The marks with which positions meet criteria.
#[derive(Clone, Copy)]
pub struct MarkSet {
    /// Four flags for White to move and then four for Black: with neither mark, in check, with no
    /// move, mated.
    pub flags: u8,
}

/// The first of the four places of marks of a side to move.
#[inline(always)]
fn place_of(turn: Side) -> u8
    ensures { result ≡ first_place turn }
{
    match turn {
        Side::White => 0,
        Side::Black => 4,
    }
}

/// The set, or where the claim is denied, all other marks.
fn taken(set: u8, is_denied: bool) -> u8
    ensures { result ≡ (if is_denied then 255 - set else set) }
{
    if is_denied { 255 - set } else { set }
}

/// The marks with which the claim is so, or is not so where it is denied. It is `None` where it
/// speaks of men.
fn marks_of(claim: &PositionClaim<Vec<u8>>, is_denied: bool) -> Option<u8>
    ensures { IfSome result (λ set. (men : Placement)
        → AreMarksOf set (λ turn check stuck.
        SaysOfSeen men turn (IsTrue check) (IsTrue stuck) is_denied
        (position_seen (λ text. text.items) claim.now))) }
{
    match claim {
        PositionClaim::Turn(Side::White) => Some(taken(15, is_denied)),
        PositionClaim::Turn(Side::Black) => Some(taken(240, is_denied)),
        PositionClaim::Check => Some(taken(170, is_denied)),
        PositionClaim::Mate => Some(taken(136, is_denied)),
        PositionClaim::Stalemate => Some(taken(68, is_denied)),
        _ => None,
    }
}

/// The marks with which all conditions hold. It is `None` where one of them speaks of men.
pub(crate) fn marks_of_all(conditions: &[PositionCondition<Vec<u8>>]) -> Option<u8>
    ensures { IfSome result (λ set. (men : Placement)
        → AreMarksOf set (λ turn check stuck.
        AllSaid men turn (IsTrue check) (IsTrue stuck)
        (map (seen (λ text. text.items)) conditions.now))) }
{
    let mut set = 255;
    for condition in conditions {
        match marks_of(&condition.claim, condition.is_denied) {
            Some(own) => set &= own,
            None => return None,
        }
    }
    Some(set)
}

impl MarkSet {
    /// Whether it has the marks of a position: the side to move, whether it is in check, and
    /// whether it has no move.
    pub fn has(self, turn: Side, check: bool, stuck: bool) -> bool
        ensures { result ≡ has_marks self.flags turn check stuck }
    {
        let place = place_of(turn) + u8::from(check) + 2 * u8::from(stuck);
        (self.flags >> place) & 1 == 1
    }

    /// Whether it has the marks that the first byte of a ply tells, after which that side is to
    /// move.
    #[inline(always)]
    pub(crate) fn has_told(self, turn: Side, a: u8) -> bool
        ensures { result ≡ has_marks self.flags turn (a / 64 % 2 == 1) (a / 128 == 1) }
    {
        (self.flags >> (place_of(turn) + a / 64)) & 1 == 1
    }

    /// Whether it has marks only of positions in check, and whether it has marks only of those with
    /// no move.
    #[inline(always)]
    fn needs(self) -> (bool, bool)
        ensures { Needs result.0 result.1 self.flags }
    {
        (self.flags & 85 == 0, self.flags & 51 == 0)
    }

    /// The first ply after which it has the marks: the side to move then, and the plies that are
    /// left. Before all of them `turn` is to move.
    pub fn next<'p>(self, turn: Side, plies: &'p [u8]) -> Option<(Side, &'p [u8])>
        ensures { MatchOption result (NoneMeets self.flags turn (codes_in plies.now))
            (λ found.
            IsNextMet self.flags turn (codes_in plies.now) found.0 (codes_in found.1.now)) }
    {
        if self.flags == 0 {
            return None;
        }
        let (check, stuck) = self.needs();
        let mut side = turn;
        let mut rest = after_eights(check, stuck, plies);
        while let [a, _, _, after @ ..] = rest {
            side = side.opposite();
            rest = after;
            if self.has_told(side, *a) {
                return Some((side, rest));
            }
        }
        None
    }
}

impl Criteria {
    /// The marks with which positions of the game meet the criteria. It is `None` where an
    /// alternative speaks of men or of moves.
    fn marks_of_heading<'a, H: Headed<'a>>(&'a self, game: &H) -> Option<MarkSet>
        requires { H.valid game.now }
        ensures { IfSome result (λ marks. AreMetByMarks marks.flags (H.heading game.now) self.now) }
    {
        let mut flags = 0;
        for alternative in &self.alternatives {
            let Some(own) = alternative.marks() else {
                return None;
            };
            if alternative.is_of_heading(game) {
                flags |= own;
            }
        }
        Some(MarkSet { flags })
    }

    /// The marks with which positions of a packed game meet the criteria. Conditions on its tags
    /// and its result are decided here, once. It is `None` where an alternative speaks of men, of
    /// moves or of several plies.
    pub fn marks_packed<'a>(&'a self, record: &RawRecord<'a>) -> Option<MarkSet>
        requires { IsRawOfGame record.now }
        ensures { IfSome result (λ marks. (game : GameText) (replay : Replay) (packed : PackedGame)
            → IsPacked packed.name packed.number packed.offset game replay packed
            → FitsRecord packed → raw_of packed ≡ record.now
            → AreMetByMarks marks.flags (heading_of game) self.now) }
    {
        self.marks_of_heading(record)
    }
}
