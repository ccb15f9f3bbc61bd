//! How many men there are.
ghost use Rattle.std.specs.Prelude.{◌≡◌};
ghost use Rattle.chess.specs.Public.Sets.{Places, IsSquaresOf, size_of};

use crate::board::{Board, Man};
use crate::position::Position;

impl<B: Board> Position<B> {
    /// On how many squares that man stands.
    pub fn count(&self, man: Man) -> u32
        ensures { (squares : Places) × IsSquaresOf self.now.men man squares
            × (result ≡ size_of squares) }
    {
        self.squares_of(man).count()
    }
}
