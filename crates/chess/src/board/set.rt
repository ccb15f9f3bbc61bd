//! Sets of squares.
ghost use Rattle.std.specs.Prelude.{◌≡◌, ◌&&◌, ◌||◌, ◌↔◌, ◌<◌, ◌≤◌, IsTrue, IsSome, MatchOption};
ghost use Rattle.std.specs.Prelude.{Some, None, true, not};
ghost use Rattle.chess.specs.Public.Squares.{Place, IsOnBoard, same_square, index_of};
ghost use Rattle.chess.specs.Public.Sets.{is_in, no_places, size_of, has_bit, HoldsExactly};
ghost use Rattle.chess.specs.Public.Sets.{IsTakenFirst};
ghost use Rattle.chess.specs.Shared.SetBitboards.{HasOnly};

use crate::board::Square;
use std::marker::Model;

/// The squares of the a-file.
const FILE_A: u64 = 0x0101_0101_0101_0101;

/// The squares of the first rank.
const RANK_1: u64 = 0xff;

/// A set of squares.
#[derive(Debug, Drop)]
pub struct SquareSet {
    bitboard: u64,
}

impl Model for SquareSet {
    ghost use Rattle.std.specs.Prelude.{◌<◌, ◌^◌};
    ghost use Rattle.chess.specs.Public.Sets.{Places, has_bit};
    ghost use Rattle.chess.specs.Shared.SetBitboards.{coded_places, places_of};

    ghost Value = { Places };

    ghost coded = { coded_places };

    ghost view = { λ s. places_of (has_bit s.bitboard) };

    ghost invariant = { λ s. s.bitboard < 2 ^ 64 };
}

impl SquareSet {
    /// The set without squares.
    #[inline(always)]
    pub fn new() -> Self
        ensures { result ≡ no_places }
    {
        SquareSet { bitboard: 0 }
    }

    /// The set of the squares of a bitboard: bit 0 is a1, bit 1 is b1, and so on to h1, a2 and h8.
    #[inline(always)]
    pub(crate) fn of_bitboard(bitboard: u64) -> Self
        ensures { HoldsExactly (λ (s : Place). has_bit bitboard (index_of s) ≡ true) result }
    {
        SquareSet { bitboard }
    }

    /// The bitboard of its squares: bit 0 is a1, bit 1 is b1, and so on to h1, a2 and h8.
    #[inline(always)]
    pub(crate) fn bitboard(&self) -> u64
        ensures { (s : Place) → IsOnBoard s → has_bit result (index_of s) ≡ is_in self.now s }
    {
        self.bitboard
    }

    /// All squares.
    #[inline(always)]
    pub(crate) fn all() -> Self
        ensures { HoldsExactly (λ s. IsOnBoard s) result }
    {
        SquareSet::of_bitboard(u64::MAX)
    }

    /// The squares of that file.
    #[inline(always)]
    pub(crate) fn of_file(file: u8) -> Self
        ensures { HoldsExactly (λ s. s.file ≡ file) result }
    {
        if file < 1 || file > 8 {
            return SquareSet::of_bitboard(0);
        }
        SquareSet::of_bitboard(FILE_A << (file - 1))
    }

    /// The squares of that rank.
    #[inline(always)]
    pub(crate) fn of_rank(rank: u8) -> Self
        ensures { HoldsExactly (λ s. s.rank ≡ rank) result }
    {
        if rank < 1 || rank > 8 {
            return SquareSet::of_bitboard(0);
        }
        SquareSet::of_bitboard(RANK_1 << (8 * (rank - 1)))
    }

    /// The squares that both sets have.
    #[inline(always)]
    pub(crate) fn common(self, other: SquareSet) -> Self
        ensures { HoldsExactly (λ s. (is_in self s ≡ true) × (is_in other s ≡ true)) result }
    {
        SquareSet::of_bitboard(self.bitboard() & other.bitboard())
    }

    /// Puts a square into the set.
    #[inline(always)]
    pub fn insert(&mut self, square: Square)
        ensures { (s : Place) → is_in self.new s ≡ (same_square square s || is_in self.old s) }
    {
        self.bitboard |= 1u64 << square.index();
    }

    /// Puts a square into the set if that is so.
    #[inline(always)]
    pub(crate) fn insert_if(&mut self, square: Square, is_so: bool)
        ensures { (s : Place) → is_in self.new s
            ≡ ((is_so && same_square square s) || is_in self.old s) }
    {
        if is_so {
            self.insert(square);
        }
    }

    /// Takes a square out of the set.
    #[inline(always)]
    pub fn remove(&mut self, square: Square)
        ensures { (s : Place) → is_in self.new s
            ≡ (is_in self.old s && not (same_square s square)) }
    {
        self.bitboard &= !(1u64 << square.index());
    }

    /// Whether the square is in the set.
    #[inline(always)]
    pub fn has(&self, square: Square) -> bool
        ensures { result ≡ is_in self.now square }
    {
        (self.bitboard >> square.index()) & 1 == 1
    }

    /// Whether no square is in the set.
    pub fn is_empty(&self) -> bool
        ensures { IsTrue result ↔ (self.now ≡ no_places) }
    {
        self.bitboard == 0
    }

    /// Whether some square is in the set: the contrary of `is_empty`, said of a square that is
    /// there.
    #[inline(always)]
    pub(crate) fn has_some(&self) -> bool
        ensures { IsTrue result ↔ ((s : Place) × IsOnBoard s × (is_in self.now s ≡ true)) }
    {
        self.bitboard != 0
    }

    /// Whether each of its squares is in the other set too.
    #[inline(always)]
    pub fn is_within(&self, other: &SquareSet) -> bool
        ensures { IsTrue result
            ↔ ((s : Place) → is_in self.now s ≡ true → is_in other.now s ≡ true) }
    {
        self.bitboard & other.bitboard == self.bitboard
    }

    /// How many squares are in the set.
    pub fn count(&self) -> u32
        ensures { result ≡ size_of self.now }
    {
        self.bitboard.count_ones()
    }

    /// Takes out the first square in the order a1, b1 to h1, a2 and so on: `None` where there is
    /// none. So a loop over it meets each square of the set once, in that order.
    #[inline(always)]
    pub fn take_first(&mut self) -> Option<Square>
        ensures { IsTakenFirst self.old self.new result }
    {
        let bitboard = self.bitboard;
        if bitboard == 0 {
            return None;
        }
        let place = bitboard.trailing_zeros() as u8;
        // One less than the bitboard differs from it in its lowest bit and those below.
        self.bitboard = bitboard & (bitboard - 1);
        Some(Square::of_index(place))
    }

    /// Its square, where it has one alone.
    #[inline(always)]
    pub(crate) fn only(&self) -> Option<Square>
        ensures { MatchOption result ((s : Place) → HasOnly self.now s → ⊥) (HasOnly self.now) }
    {
        let mut rest = SquareSet {
            bitboard: self.bitboard,
        };
        let Some(first) = rest.take_first() else {
            return None;
        };
        if rest.has_some() {
            return None;
        }
        Some(first)
    }
}
