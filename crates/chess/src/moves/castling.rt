//! The squares of castling (Laws 3.8.2), and the ranks of each side.
ghost use Rattle.std.specs.Prelude.{◌≡◌, ◌≤◌};
ghost use Rattle.chess.specs.Public.Squares.{IsOnBoard};
ghost use Rattle.chess.specs.Public.Positions.{home_rank, pawn_rank, king_from, king_to, rook_from};
ghost use Rattle.chess.specs.Public.Positions.{rook_to};

use crate::board::{Side, Square, Wing};

/// The rank on which the pieces of the side stand at first.
pub(crate) fn rank_of_pieces(side: Side) -> u8
    ensures { result ≡ home_rank side }
{
    match side {
        Side::White => 1,
        Side::Black => 8,
    }
}

/// The rank on which the pawns of the side stand at first.
pub(crate) fn rank_of_pawns(side: Side) -> u8
    ensures { result ≡ pawn_rank side }
{
    match side {
        Side::White => 2,
        Side::Black => 7,
    }
}

/// The square of that file on the side's home rank.
pub(crate) fn at_home(side: Side, file: u8) -> Square
    requires low { 1 ≤ file }
    requires high { file ≤ 8 }
    ensures square { result ≡ record { file = file; rank = home_rank side } }
    ensures on_board { IsOnBoard result }
{
    Square::at(file, rank_of_pieces(side))
}

/// The square from which the king castles.
pub(crate) fn king_leaves(side: Side) -> Square
    ensures square { result ≡ king_from side }
    ensures on_board { IsOnBoard result }
{
    at_home(side, 5)
}

/// The square to which the king castles.
pub(crate) fn king_arrives(side: Side, wing: Wing) -> Square
    ensures square { result ≡ king_to side wing }
    ensures on_board { IsOnBoard result }
{
    match wing {
        Wing::KingSide => at_home(side, 7),
        Wing::QueenSide => at_home(side, 3),
    }
}

/// The corner of the rook of that wing.
pub(crate) fn rook_leaves(side: Side, wing: Wing) -> Square
    ensures square { result ≡ rook_from side wing }
    ensures on_board { IsOnBoard result }
{
    match wing {
        Wing::KingSide => at_home(side, 8),
        Wing::QueenSide => at_home(side, 1),
    }
}

/// The square to which the rook goes, which the king crosses.
pub(crate) fn rook_arrives(side: Side, wing: Wing) -> Square
    ensures square { result ≡ rook_to side wing }
    ensures on_board { IsOnBoard result }
{
    match wing {
        Wing::KingSide => at_home(side, 6),
        Wing::QueenSide => at_home(side, 4),
    }
}
