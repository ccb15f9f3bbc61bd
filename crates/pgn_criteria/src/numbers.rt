//! How many of a man stand, while the codes of plies move him: games in which there are never as
//! few as a line `material` allows are passed over.
ghost use Rattle.std.specs.Prelude.{◌≡◌, false, map, IfSome};
ghost use Rattle.chess.specs.Public.Placements.{Placement};
ghost use Rattle.pgn_criteria.specs.Private.Counting.{FitsKind};
ghost use Rattle.pgn_criteria.specs.Public.Prefilters.{NowhereSeen, codes_in};
ghost use Rattle.pgn_criteria.specs.Private.Marks.{FitsSeen, IsMost, SaysOfNumbers};
ghost use Rattle.pgn_criteria.specs.Public.Materials.{FitsSide, FitsMaterial};
ghost use Rattle.pgn_criteria.specs.Private.Stages.{position_seen, seen};
ghost use Rattle.pgn_criteria.specs.Private.PrefilterTests.{AreFew, Nowhere};

use crate::condition::{PositionClaim, PositionCondition};
use crate::material::{Limit, Limits};
use crate::prefilter_test::{PrefilterTest, is_met_somewhere};
use crate::seen::Seen;
use chess::{Kind, Man, Side, SquareSet};

/// The largest number that the limit allows, if there is one.
fn most_of(limit: Limit) -> Option<u8>
    ensures { IfSome result (λ most. IsMost limit most) }
{
    match limit {
        Limit::Exactly(n) => Some(n),
        Limit::AtMost(n) => Some(n),
        _ => None,
    }
}

/// A man of whom no more than so many are to stand.
#[derive(Drop)]
struct Few {
    most: u8,
}

impl PrefilterTest for Few {
    ghost stands = { AreFew };

    #[inline(always)]
    fn is_met(&self, squares: &SquareSet, _taken: &SquareSet) -> bool {
        squares.count() <= u32::from(self.most)
    }
}

/// Whether before the plies or after one of them no more of the man stand than his side's limit
/// allows.
fn kind_may_fit<S: Seen>(limits: &Limits, man: Man, start: &S, plies: &[u8]) -> bool
    ensures { result ≡ false
        → Nowhere (λ p. FitsKind p man.side limits.now man.kind) (S.men start.now)
        (codes_in plies.now) }
{
    match most_of(limits.of(man.kind)) {
        Some(most) => is_met_somewhere(&Few { most }, man, start.squares_with(man), plies),
        None => true,
    }
}

/// Whether of each kind before the plies or after one of them no more stand than the side's limit
/// allows.
fn side_may_fit<S: Seen>(limits: &Limits, side: Side, start: &S, plies: &[u8]) -> bool
    ensures { result ≡ false
        → Nowhere (λ p. FitsSide p side limits.now) (S.men start.now) (codes_in plies.now) }
{
    for kind in [
        Kind::Queen,
        Kind::Rook,
        Kind::Bishop,
        Kind::Knight,
        Kind::Pawn,
    ] {
        if !kind_may_fit(limits, Man { side, kind }, start, plies) {
            return false;
        }
    }
    true
}

/// Whether of each side's kinds before the plies or after one of them no more stand than its limits
/// allow.
fn sides_may_fit<S: Seen>(white: &Limits, black: &Limits, start: &S, plies: &[u8]) -> bool
    ensures { result ≡ false
        → Nowhere (λ p. FitsMaterial p white.now black.now) (S.men start.now) (codes_in plies.now) }
{
    if !side_may_fit(white, Side::White, start, plies) {
        return false;
    }
    side_may_fit(black, Side::Black, start, plies)
}

/// Whether a line `material` without `not` can be met before the plies or after one of them.
fn material_may_fit<S: Seen>(
    condition: &PositionCondition<Vec<u8>>,
    start: &S,
    plies: &[u8],
) -> bool
    ensures { result ≡ false → (condition.now.is_denied ≡ false)
        × Nowhere (SaysOfNumbers condition.now.is_either
        (position_seen (λ text. text.items) condition.now.claim)) (S.men start.now)
        (codes_in plies.now) }
{
    if condition.is_denied {
        return true;
    }
    match &condition.claim {
        PositionClaim::Material { white, black } => {
            if sides_may_fit(white, black, start, plies) {
                return true;
            }
            if !condition.is_either {
                return false;
            }
            sides_may_fit(black, white, start, plies)
        }
        _ => true,
    }
}

/// Whether as few men as the conditions allow may stand before the plies or after one of them.
pub(crate) fn numbers_are_shown<S: Seen>(
    conditions: &[PositionCondition<Vec<u8>>],
    start: &S,
    plies: &[u8],
) -> bool
    ensures { result ≡ false
        → NowhereSeen (FitsSeen (map (seen (λ text. text.items)) conditions.now)) (S.men start.now)
        (S.turn start.now) (S.checked start.now) (S.stuck start.now) (codes_in plies.now) }
{
    for condition in conditions {
        if !material_may_fit(condition, start, plies) {
            return false;
        }
    }
    true
}
