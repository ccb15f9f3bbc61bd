//! What a board is: a map from squares to men.
ghost use Rattle.std.specs.Prelude.{◌≡◌, ◌↔◌, IsTrue, None, Some};
ghost use Rattle.chess.specs.Public.Placements.{Placement, no_men, man_at, with_man, opposite};
ghost use Rattle.chess.specs.Public.Placements.{AreOnBoard, IsEmpty, IsOccupiedBy};
ghost use Rattle.chess.specs.Public.Attacks.{IsAttacked};
ghost use Rattle.chess.specs.Public.Start.{initial_men};
ghost use Rattle.chess.specs.Public.Sets.{IsReachOf, IsSquaresOf, HoldsExactly, IsAttacker};

mod attack_tables;
mod bits;
mod direction;
mod initial;
mod mailbox;
mod man;
mod set;
mod square;
mod step_attacks;

pub(crate) use attack_tables::squares_near;
pub use bits::Bits;
pub use direction::Direction;
pub use mailbox::Mailbox;
pub use man::{CastlingRights, Kind, Man, Side, Wing};
pub use set::SquareSet;
pub use square::Square;

/// A board: which man stands on which square. Contracts see the map from squares to men alone.
pub trait Board: Copy {
    /// The men on their squares.
    ghost men: { Self → Placement };

    /// The board without men.
    fn empty() -> Self
        ensures { men result ≡ no_men };

    /// The board with all men where they stand as games usually begin (Laws 2.3).
    fn initial() -> Self
        ensures { men result ≡ initial_men };

    /// The man on a square, or none.
    fn at(&self, square: Square) -> Option<Man>
        ensures { result ≡ man_at (men self.now) square };

    /// Puts the man, or none, on the square. No other square changes.
    fn put(&mut self, square: Square, man: Option<Man>)
        ensures { men self.new ≡ with_man (men self.old) square man };

    /// Takes the men off `capture_square` and `from`, and puts that man, or none, on `to`. No other
    /// square changes.
    fn move_piece(&mut self, man: Option<Man>, from: Square, capture_square: Square, to: Square)
        ensures { men self.new
            ≡ with_man (with_man (with_man (men self.old) capture_square None) from None) to man };

    /// Whether no man stands on the square.
    fn is_empty(&self, square: Square) -> bool
        ensures { IsTrue result ↔ IsEmpty (men self.now) square };

    /// Whether a man of the side stands on the square.
    fn is_occupied_by(&self, side: Side, square: Square) -> bool
        ensures { IsTrue result ↔ IsOccupiedBy (men self.now) side square };

    /// Whether some man of the side attacks the square (Laws 3.1.2).
    fn attacked(&self, square: Square, side: Side) -> bool
        ensures { IsTrue result ↔ IsAttacked (men self.now) side square };

    /// Whether some man of the other side attacks the square once that man is moved so, as
    /// `move_piece` does it. The board stays as it is.
    fn attacked_after(
        &self,
        square: Square,
        man: Man,
        from: Square,
        capture_square: Square,
        to: Square,
    ) -> bool
        ensures { IsTrue result
            ↔ IsAttacked
            (with_man (with_man (with_man (men self.now) capture_square None) from None)
            to (Some man))
            (opposite man.side) square };

    /// The squares that the man on the square attacks; the empty set where there is none (Laws 3.2
    /// to 3.8).
    fn reach(&self, square: Square) -> SquareSet
        ensures { IsReachOf (men self.now) square result };

    /// The squares on which that man stands.
    fn squares_of(&self, man: Man) -> SquareSet
        ensures { IsSquaresOf (men self.now) man result };

    /// Those of the squares on which that man stands and attacks the target.
    fn attackers_from(&self, man: Man, target: Square, among: SquareSet) -> SquareSet
        ensures { HoldsExactly (IsAttacker (men self.now) man target among) result };

    ghost on_board: { (b : Self) → AreOnBoard (men b) };
}
