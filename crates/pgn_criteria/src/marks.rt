//! Check, and that there is no move: games whose plies never show what conditions need of the two
//! are passed over.
ghost use Rattle.std.specs.Prelude.{◌≡◌, ◌↔◌, ℕ, List, true, false, map, IsTrue};
ghost use Rattle.std.specs.List.{AllByRecursion};
ghost use Rattle.chess.specs.declared.board.man.Side.{Side};
ghost use Rattle.pgn_game.specs.Public.PlyCodes.{PlyCode};
ghost use Rattle.pgn_criteria.specs.Public.ByMarks.{NoneMeets, IsNextMet};
ghost use Rattle.pgn_criteria.specs.Public.Prefilters.{NowhereSeen, codes_in};
ghost use Rattle.pgn_criteria.specs.Private.Marks.{NeedMark, LacksMarks, Needs, FitsSeen};
ghost use Rattle.pgn_criteria.specs.Private.Marks.{asks_mark};
ghost use Rattle.pgn_criteria.specs.Private.Stages.{position_seen, seen};

use crate::condition::{PositionClaim, PositionCondition};
use crate::seen::Seen;

/// What may be so of the side to move.
#[derive(Clone, Copy, PartialEq, Eq)]
pub(crate) enum Mark {
    /// It is in check.
    Check,
    /// It has no move.
    Stuck,
}

/// Whether the claim asks for the mark.
fn asks_mark(claim: &PositionClaim<Vec<u8>>, mark: Mark) -> bool
    ensures { result ≡ asks_mark mark (position_seen (λ text. text.items) claim.now) }
{
    match claim {
        PositionClaim::Check => mark == Mark::Check,
        PositionClaim::Mate => true,
        PositionClaim::Stalemate => mark == Mark::Stuck,
        _ => false,
    }
}

/// Whether the conditions hold only where the mark is so.
fn need_mark(conditions: &[PositionCondition<Vec<u8>>], mark: Mark) -> bool
    ensures { IsTrue result → NeedMark mark (map (seen (λ text. text.items)) conditions.now) }
{
    for condition in conditions {
        if !condition.is_denied && asks_mark(&condition.claim, mark) {
            return true;
        }
    }
    false
}

/// Whether the marks that are needed are so.
#[inline(always)]
fn shows(check: bool, stuck: bool, is_checked: bool, is_stuck: bool) -> bool
    ensures { IsTrue result
        ↔ ((check ≡ true → is_checked ≡ true) × (stuck ≡ true → is_stuck ≡ true)) }
{
    (!check || is_checked) && (!stuck || is_stuck)
}

/// The plies from where the marks that are needed may be so: eight plies are passed over at once
/// where none of them has a mark.
pub(crate) fn after_eights(check: bool, stuck: bool, plies: &[u8]) -> &[u8]
    ensures met { (set : ℕ) → Needs check stuck set → (turn : Side)
        → (NoneMeets set turn (codes_in result.now) → NoneMeets set turn (codes_in plies.now))
        × ((side : Side) (left : List PlyCode) → IsNextMet set turn (codes_in result.now) side left
        → IsNextMet set turn (codes_in plies.now) side left) }
    ensures lacks { AllByRecursion (LacksMarks check stuck) (codes_in result.now)
        → AllByRecursion (LacksMarks check stuck) (codes_in plies.now) }
{
    let mut rest = plies;
    while rest.len() >= 24 {
        let any = ((rest[0] | rest[3]) | (rest[6] | rest[9]))
            | ((rest[12] | rest[15]) | (rest[18] | rest[21]));
        if shows(check, stuck, any / 64 % 2 == 1, any >= 128) {
            return rest;
        }
        rest = &rest[24..];
    }
    rest
}

/// Whether after one of the plies the side to move is in check, if that is needed, and has no move,
/// if that is needed.
fn some_ply_shows(check: bool, stuck: bool, plies: &[u8]) -> bool
    ensures { result ≡ false → AllByRecursion (LacksMarks check stuck) (codes_in plies.now) }
{
    let mut rest = after_eights(check, stuck, plies);
    while let [a, _, _, after @ ..] = rest {
        if shows(check, stuck, *a / 64 % 2 == 1, *a / 128 == 1) {
            return true;
        }
        rest = after;
    }
    false
}

/// Whether the marks that the conditions need may be so before the plies or after one of them.
pub(crate) fn marks_are_shown<S: Seen>(
    conditions: &[PositionCondition<Vec<u8>>],
    start: &S,
    plies: &[u8],
) -> bool
    ensures { result ≡ false
        → NowhereSeen (FitsSeen (map (seen (λ text. text.items)) conditions.now)) (S.men start.now)
        (S.turn start.now) (S.checked start.now) (S.stuck start.now) (codes_in plies.now) }
{
    let check = need_mark(conditions, Mark::Check);
    let stuck = need_mark(conditions, Mark::Stuck);
    if shows(check, stuck, start.is_checked(), start.is_stuck()) {
        return true;
    }
    some_ply_shows(check, stuck, plies)
}
