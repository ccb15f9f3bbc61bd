//! The position in which games usually begin (Laws 2.3).
ghost use Rattle.std.specs.Prelude.{◌≡◌};
ghost use Rattle.chess.specs.Public.Positions.{IsSound};
ghost use Rattle.chess.specs.Public.Start.{initial};

use crate::board::{Board, CastlingRights, Side, Square};
use crate::position::Position;

impl<B: Board> Position<B> {
    /// The position in which games usually begin.
    pub fn start() -> Self
        ensures position { result ≡ initial }
        ensures sound { IsSound result }
    {
        Position {
            board: B::initial(),
            turn: Side::White,
            rights: CastlingRights {
                white_king_side: true,
                white_queen_side: true,
                black_king_side: true,
                black_queen_side: true,
            },
            en_passant: None,
            halfmove_clock: 0,
            fullmove_number: 1,
            white_king: Square::at(5, 1),
            black_king: Square::at(5, 8),
        }
    }
}
