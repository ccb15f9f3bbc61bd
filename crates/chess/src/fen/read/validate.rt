//! What is kept of the rights and the en passant square of a text, and what may be wrong with its
//! men.
ghost use Rattle.std.specs.Prelude.{◌≡◌, ◌↔◌, true, Some, IsTrue, MatchOption};
ghost use Rattle.chess.specs.Public.Squares.{Place, IsOnBoard};
ghost use Rattle.chess.specs.Public.Placements.{man_at};
ghost use Rattle.chess.specs.Public.Positions.{has_right, IsOnlyKing, FitsEnPassant};
ghost use Rattle.chess.specs.Public.Fen.{AreAtHome};
ghost use Rattle.chess.specs.Private.FenWords.{IsEdgePawn};
ghost use Rattle.chess.specs.declared.board.man.Side.{Side};
ghost use Rattle.chess.specs.declared.board.man.Wing.{Wing};

use crate::board::{Board, CastlingRights, Kind, Man, Side, Square, Wing};
use crate::moves::castling::{king_leaves, rook_leaves};

/// Whether that man stands on the square.
fn holds<B: Board>(board: &B, square: Square, man: Man) -> bool
    ensures { IsTrue result ↔ (man_at (B.men board.now) square ≡ Some man) }
{
    board.at(square) == Some(man)
}

/// Whether the king and the rook of the right stand at home.
fn are_at_home<B: Board>(board: &B, side: Side, wing: Wing) -> bool
    ensures { IsTrue result ↔ AreAtHome (B.men board.now) side wing }
{
    let king = Man {
        side,
        kind: Kind::King,
    };
    let rook = Man {
        side,
        kind: Kind::Rook,
    };
    holds(board, king_leaves(side), king) && holds(board, rook_leaves(side, wing), rook)
}

/// Whether the right is given, and its king and rook stand at home.
fn keeps_right<B: Board>(board: &B, given: CastlingRights, side: Side, wing: Wing) -> bool
    ensures { (result ≡ true)
        ↔ ((has_right given side wing ≡ true) × AreAtHome (B.men board.now) side wing) }
{
    given.has(side, wing) && are_at_home(board, side, wing)
}

/// The rights that are given, without those whose king or rook is not at home.
pub(crate) fn kept_rights<B: Board>(board: &B, given: CastlingRights) -> CastlingRights
    ensures { (side : Side) (wing : Wing)
        → (has_right result side wing ≡ true)
        ↔ ((has_right given side wing ≡ true) × AreAtHome (B.men board.now) side wing) }
{
    CastlingRights {
        white_king_side: keeps_right(board, given, Side::White, Wing::KingSide),
        white_queen_side: keeps_right(board, given, Side::White, Wing::QueenSide),
        black_king_side: keeps_right(board, given, Side::Black, Wing::KingSide),
        black_queen_side: keeps_right(board, given, Side::Black, Wing::QueenSide),
    }
}

/// Whether the square fits as an en passant square.
fn fits_en_passant<B: Board>(board: &B, turn: Side, square: Square) -> bool
    ensures { IsTrue result ↔ FitsEnPassant (B.men board.now) turn square }
{
    let (passed, origin, end) = match turn {
        Side::White => (6, 7, 5),
        Side::Black => (3, 2, 4),
    };
    let file = square.file();
    if square.rank() != passed {
        return false;
    }
    if board.at(square).is_some() {
        return false;
    }
    if board.at(Square::at(file, origin)).is_some() {
        return false;
    }
    let pawn = Man {
        side: turn.opposite(),
        kind: Kind::Pawn,
    };
    holds(board, Square::at(file, end), pawn)
}

/// The en passant square that is given, if it fits.
pub(crate) fn kept_en_passant<B: Board>(
    board: &B,
    turn: Side,
    given: Option<Square>,
) -> Option<Square>
    ensures { (s : Place) → (result ≡ Some s)
        ↔ ((given ≡ Some s) × FitsEnPassant (B.men board.now) turn s) }
{
    let square = given?;
    if fits_en_passant(board, turn, square) {
        Some(square)
    } else {
        None
    }
}

/// The square of the side's king, if it has one king and no other.
pub(crate) fn only_king<B: Board>(board: &B, side: Side) -> Option<Square>
    ensures { MatchOption result ((s : Place) → IsOnlyKing (B.men board.now) side s
        → ⊥) (IsOnlyKing (B.men board.now) side) }
{
    let mut kings = board.squares_of(Man {
        side,
        kind: Kind::King,
    });
    let square = kings.take_first()?;
    if kings.take_first().is_some() {
        return None;
    }
    Some(square)
}

/// Whether a pawn stands on the square, and the square is on the first or the last rank.
fn is_edge_pawn<B: Board>(board: &B, square: Square) -> bool
    ensures { IsTrue result ↔ IsEdgePawn (B.men board.now) square }
{
    let rank = square.rank();
    if rank != 1 && rank != 8 {
        return false;
    }
    match board.at(square) {
        Some(man) => man.kind == Kind::Pawn,
        None => false,
    }
}

/// Whether a pawn stands on the first or the last rank.
pub(crate) fn has_edge_pawn<B: Board>(board: &B) -> bool
    ensures { IsTrue result ↔ ((s : Place) × IsEdgePawn (B.men board.now) s) }
{
    for index in 0u8..64 {
        if is_edge_pawn(board, Square::of_index(index)) {
            return true;
        }
    }
    false
}
