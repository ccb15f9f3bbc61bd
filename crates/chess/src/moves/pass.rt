//! The position after a pass.
ghost use Rattle.std.specs.Prelude.{◌≡◌, MatchOption};
ghost use Rattle.chess.specs.Public.Passes.{passed};
ghost use Rattle.chess.specs.Public.Positions.{IsCheck};

use crate::board::Board;
use crate::moves::play::one_more;
use crate::position::Position;

impl<B: Board> Position<B> {
    /// The position after the side to move gives its move up: the same men and castling rights, the
    /// other side to move, and no en passant square. The halfmove clock is one more, and after
    /// Black's pass the fullmove number is; both stop at 4,294,967,295. `None` exactly where the
    /// side to move is in check, since a pass would leave its king attacked.
    pub fn pass(&self) -> Option<Self>
        ensures { MatchOption result
            (IsCheck self.now.men self.now.turn)
            (λ next. (IsCheck self.now.men self.now.turn → ⊥) × (next ≡ passed self.now)) }
    {
        self.invariant();
        if self.in_check() {
            return None;
        }
        Some(Position {
            board: self.board,
            turn: self.side().opposite(),
            rights: self.rights,
            en_passant: None,
            halfmove_clock: one_more(self.halfmove_clock),
            fullmove_number: self.fullmove_number_after(),
            white_king: self.white_king,
            black_king: self.black_king,
        })
    }
}
