//! What men see on the empty board and the squares between two squares, by tables.
ghost use Rattle.std.specs.Prelude.{◌≡◌, ◌↔◌, ◌<◌, IsTrue, true, false};
ghost use Rattle.chess.specs.Public.Squares.{Place, IsOnBoard, index_of};
ghost use Rattle.chess.specs.Public.Placements.{Placement, IsEmpty};
ghost use Rattle.chess.specs.Public.Attacks.{IsNear, Reaches};
ghost use Rattle.chess.specs.Public.Sets.{HoldsExactly, IsBitboardOf, has_bit};
ghost use Rattle.chess.specs.Private.Bitboards.{pseudo_attacks_row_of};
ghost use Rattle.chess.specs.Private.PseudoAttacks.{IsPseudoAttack, IsUnblocked, StandsBetween};

mod between_table;
mod pseudo_attacks_table;

use crate::board::bits::number_of;
use crate::board::{Kind, Man, Side, Square, SquareSet};
use between_table::BETWEEN;
use pseudo_attacks_table::PSEUDO_ATTACKS;

/// The number of the table of what a man sees: one for each kind, and a second one for Black's
/// pawns.
#[inline(always)]
fn pseudo_attacks_row(man: Man) -> u8
    ensures row { result ≡ pseudo_attacks_row_of man.side man.kind }
    ensures below { result < 7 }
{
    match (man.side, man.kind) {
        (Side::Black, Kind::Pawn) => 6,
        (_, kind) => number_of(kind),
    }
}

/// The squares from which such a man attacks the target on the empty board.
#[inline(always)]
pub(crate) fn pseudo_attacks_on(man: Man, target: Square) -> u64
    ensures { IsBitboardOf (λ s. IsPseudoAttack man.side man.kind s target) result }
{
    PSEUDO_ATTACKS[pseudo_attacks_row(man) as usize][target.index() as usize]
}

/// The squares next to the square.
#[inline(always)]
pub(crate) fn squares_near(square: Square) -> SquareSet
    ensures { HoldsExactly (IsNear square) result }
{
    let king = Man {
        side: Side::White,
        kind: Kind::King,
    };
    SquareSet::of_bitboard(pseudo_attacks_on(king, square))
}

/// The squares between two squares: those that both their lines have, and that stand between them
/// in order.
#[inline(always)]
fn between(from: Square, to: Square) -> u64
    ensures { IsBitboardOf (StandsBetween from to) result }
{
    BETWEEN[from.index() as usize][to.index() as usize]
}

/// Whether none of these squares is between the two.
#[inline(always)]
fn is_unblocked(from: Square, to: Square, occupied: u64) -> bool
    ensures { IsTrue result
        ↔ ((u : Place) → IsOnBoard u → StandsBetween from to u
        → has_bit occupied (index_of u) ≡ false) }
{
    between(from, to) & occupied == 0
}

/// Those of the squares from which such a man attacks the target, where men stand on the occupied
/// squares.
#[inline(always)]
pub(crate) fn attackers_of(man: Man, target: Square, own: u64, occupied: u64) -> SquareSet
    ensures { (p : Placement) → IsBitboardOf (λ s. ¬ IsEmpty p s) occupied
        → HoldsExactly (λ s. (has_bit own (index_of s) ≡ true)
        × Reaches p man.side man.kind s target) result }
{
    let seen = own & pseudo_attacks_on(man, target);
    let mut left = SquareSet::of_bitboard(seen);
    // Mostly one man alone sees the target.
    if let Some(square) = left.only() {
        if is_unblocked(square, target, occupied) {
            return left;
        }
        return SquareSet::new();
    }
    let mut set = SquareSet::new();
    while let Some(square) = left.take_first() {
        set.insert_if(square, is_unblocked(square, target, occupied));
    }
    set
}

/// Whether the way from some of the squares to the target is free, where men stand on the occupied
/// squares.
#[inline(always)]
pub(crate) fn has_unblocked(squares: u64, target: Square, occupied: u64) -> bool
    ensures { (p : Placement) → IsBitboardOf (λ s. ¬ IsEmpty p s) occupied
        → IsTrue result
        ↔ ((s : Place) × IsOnBoard s × (has_bit squares (index_of s) ≡ true)
        × IsUnblocked p s target) }
{
    let mut left = SquareSet::of_bitboard(squares);
    while let Some(square) = left.take_first() {
        if is_unblocked(square, target, occupied) {
            return true;
        }
    }
    false
}
