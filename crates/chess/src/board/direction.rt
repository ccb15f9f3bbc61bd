//! The eight ways along which men run.
ghost use Rattle.std.specs.Prelude.{◌≤◌, MatchOption};
ghost use Rattle.chess.specs.Public.Squares.{Place, IsOnBoard, IsAhead};

use crate::board::Square;

/// A way across the board: along the files and ranks, and along the diagonals (Laws 3.2, 3.3).
#[derive(Clone, Copy, Debug, PartialEq, Eq)]
pub enum Direction {
    North,
    South,
    East,
    West,
    NorthEast,
    NorthWest,
    SouthEast,
    SouthWest,
}

impl Direction {
    /// The square so many steps ahead, if it is on the board.
    pub(crate) fn ahead(self, from: Square, steps: u8) -> Option<Square>
        requires { steps ≤ 8 }
        ensures { MatchOption result ((t : Place) → IsOnBoard t → IsAhead self steps from t → ⊥)
            (λ t. IsOnBoard t × IsAhead self steps from t) }
    {
        let (file, rank) = (from.file(), from.rank());
        let (right, left) = (file + steps, file.saturating_sub(steps));
        let (up, down) = (rank + steps, rank.saturating_sub(steps));
        match self {
            Direction::North => Square::new(file, up),
            Direction::South => Square::new(file, down),
            Direction::East => Square::new(right, rank),
            Direction::West => Square::new(left, rank),
            Direction::NorthEast => Square::new(right, up),
            Direction::NorthWest => Square::new(left, up),
            Direction::SouthEast => Square::new(right, down),
            Direction::SouthWest => Square::new(left, down),
        }
    }
}
