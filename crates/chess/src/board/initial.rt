//! Where the men stand as games usually begin (Laws 2.3).
ghost use Rattle.std.specs.Prelude.{◌≡◌};
ghost use Rattle.chess.specs.Public.Start.{initial_piece, initial_man};

use crate::board::{Kind, Man, Side, Square};

/// The piece that stands on the file at first.
fn initial_piece(file: u8) -> Kind
    ensures { result ≡ initial_piece file }
{
    if file == 1 || file == 8 {
        return Kind::Rook;
    }
    if file == 2 || file == 7 {
        return Kind::Knight;
    }
    if file == 3 || file == 6 {
        return Kind::Bishop;
    }
    if file == 4 { Kind::Queen } else { Kind::King }
}

/// The man that stands on the square at first, or none.
pub(crate) fn initial_man(square: Square) -> Option<Man>
    ensures { result ≡ initial_man square }
{
    let piece = initial_piece(square.file());
    let rank = square.rank();
    if rank == 1 {
        return Some(Man {
            side: Side::White,
            kind: piece,
        });
    }
    if rank == 2 {
        return Some(Man {
            side: Side::White,
            kind: Kind::Pawn,
        });
    }
    if rank == 7 {
        return Some(Man {
            side: Side::Black,
            kind: Kind::Pawn,
        });
    }
    if rank == 8 {
        return Some(Man {
            side: Side::Black,
            kind: piece,
        });
    }
    None
}
