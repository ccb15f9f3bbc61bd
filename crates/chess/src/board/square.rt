//! Squares of the board.
ghost use Rattle.std.specs.Prelude.{◌≡◌, ◌<◌, ◌↔◌, IsTrue, MatchOption};
ghost use Rattle.chess.specs.Public.Squares.{IsOnBoard, square_at, index_of};

use std::marker::Model;

/// One of the 64 squares. Contracts see its file and rank, each from 1 to 8 (Laws 2.1, 2.4).
#[derive(Clone, Copy, Debug, PartialEq, Eq)]
pub struct Square {
    index: u8,
}

impl Model for Square {
    ghost use Rattle.std.specs.Prelude.{◌<◌};
    ghost use Rattle.chess.specs.Public.Squares.{Place, square_at, index_of};
    ghost use Rattle.chess.specs.Shared.PlaceCodes.{coded_place};
    ghost use Rattle.chess.specs.Shared.SquareFacts.{index_of-square_at};

    ghost Value = { Place };

    ghost coded = { coded_place };

    ghost view = { λ s. square_at s.index };

    ghost invariant = { λ s. s.index < 64 };

    ghost inverse = { λ p. record { index = index_of p } };

    ghost inverse_ok = { λ s h i. record { index = index_of-square_at s.index h i } };
}

impl Square {
    /// The square on a file (1 is the a-file) and a rank: `None` exactly where a number is not from
    /// 1 to 8.
    #[inline(always)]
    pub fn new(file: u8, rank: u8) -> Option<Self>
        ensures { MatchOption result (¬ IsOnBoard (record { file = file; rank = rank }))
            (λ s. (s ≡ record { file = file; rank = rank }) × IsOnBoard s) }
    {
        if file < 1 || file > 8 || rank < 1 || rank > 8 {
            return None;
        }
        Some(Square {
            index: 8 * (rank - 1) + (file - 1),
        })
    }

    /// The square on a file and a rank of the board.
    pub(crate) fn at(file: u8, rank: u8) -> Self
        requires { IsOnBoard (record { file = file; rank = rank }) }
        ensures square { result ≡ record { file = file; rank = rank } }
        ensures on_board { IsOnBoard result }
    {
        Square {
            index: 8 * (rank - 1) + (file - 1),
        }
    }

    /// The number of its file, from 1 for the a-file to 8.
    #[inline(always)]
    pub fn file(&self) -> u8
        ensures number { result ≡ self.now.file }
        ensures on_board { IsOnBoard self.now }
    {
        self.index % 8 + 1
    }

    /// The number of its rank, from 1 for White's home rank to 8.
    #[inline(always)]
    pub fn rank(&self) -> u8
        ensures number { result ≡ self.now.rank }
        ensures on_board { IsOnBoard self.now }
    {
        self.index / 8 + 1
    }

    /// The square that stands at this place in the order a1, b1 to h1, a2 and so on.
    #[inline(always)]
    pub fn of_index(index: u8) -> Self
        requires { index < 64 }
        ensures square { result ≡ square_at index }
        ensures on_board { IsOnBoard result }
    {
        Square { index }
    }

    /// Its place in that order.
    #[inline(always)]
    pub(crate) fn index(self) -> u8
        ensures place { result ≡ index_of self }
        ensures on_board { IsOnBoard self }
        ensures below { result < 64 }
    {
        self.index
    }

    /// Every square is on the board, however it was come by: a caller that asks knows it. Nothing
    /// is done.
    pub(crate) fn invariant(self)
        ensures { IsOnBoard self }
    {
        let _ = self.index;
    }

    /// Whether the two are the same square.
    pub(crate) fn is(self, other: Square) -> bool
        ensures { IsTrue result ↔ (self ≡ other) }
    {
        self == other
    }
}
