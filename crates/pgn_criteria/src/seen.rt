//! What is asked of one position: the men on their squares, the side to move, whether it is in
//! check, and whether it has no move.
ghost use Rattle.std.specs.Prelude.{◌≡◌, ◌↔◌, IsTrue};
ghost use Rattle.chess.specs.Public.Moves.{HasMove};
ghost use Rattle.chess.specs.Public.Placements.{Placement, man_at, AreOnBoard};
ghost use Rattle.chess.specs.Public.Positions.{IsCheck};
ghost use Rattle.chess.specs.Public.Sets.{IsSquaresOf};
ghost use Rattle.chess.specs.declared.board.man.Side.{Side};

use chess::{Board, Man, Position, Side, Square, SquareSet};

/// What conditions on one position ask of it, by whatever it is seen.
pub trait Seen {
    /// The men on their squares.
    ghost men: { Self → Placement };

    /// The side to move.
    ghost turn: { Self → Side };

    /// That side is in check.
    ghost checked: { Self → Type 0 };

    /// It has no move.
    ghost stuck: { Self → Type 0 };

    /// The men stand on the board: a caller that asks knows it. Nothing is done.
    fn invariant(&self)
        ensures { AreOnBoard (men self.now) };

    /// The man on a square, or none.
    fn man_on(&self, square: Square) -> Option<Man>
        ensures { result ≡ man_at (men self.now) square };

    /// The squares on which that man stands.
    fn squares_with(&self, man: Man) -> SquareSet
        ensures { IsSquaresOf (men self.now) man result };

    /// The side to move.
    fn to_move(&self) -> Side
        ensures { result ≡ turn self.now };

    /// Whether that side is in check.
    fn is_checked(&self) -> bool
        ensures { IsTrue result ↔ checked self.now };

    /// Whether that side has no move.
    fn is_stuck(&self) -> bool
        ensures { IsTrue result ↔ stuck self.now };
}

impl<B: Board> Seen for Position<B> {
    ghost men = { λ p. p.men };

    ghost turn = { λ p. p.turn };

    ghost checked = { λ p. IsCheck p.men p.turn };

    ghost stuck = { λ p. ¬ HasMove p };

    #[inline(always)]
    fn invariant(&self) {
        Position::invariant(self);
    }

    #[inline(always)]
    fn man_on(&self, square: Square) -> Option<Man> {
        self.at(square)
    }

    #[inline(always)]
    fn squares_with(&self, man: Man) -> SquareSet {
        self.squares_of(man)
    }

    #[inline(always)]
    fn to_move(&self) -> Side {
        self.side()
    }

    #[inline(always)]
    fn is_checked(&self) -> bool {
        self.in_check()
    }

    #[inline(always)]
    fn is_stuck(&self) -> bool {
        !self.has_move()
    }
}
