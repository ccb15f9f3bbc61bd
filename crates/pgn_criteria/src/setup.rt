//! Positions that are asked for by the first fields of a FEN.
ghost use Rattle.std.specs.Prelude.{◌≡◌, ◌↔◌, IsTrue, MatchOption};
ghost use Rattle.chess.specs.Public.Squares.{Place, IsOnBoard};
ghost use Rattle.chess.specs.Public.Attacks.{IsForward};
ghost use Rattle.chess.specs.Public.Moves.{TakesEnPassant, is_pawn, is_en_passant};
ghost use Rattle.chess.specs.Public.Placements.{man_at, opposite};
ghost use Rattle.chess.specs.Public.Positions.{has_right, passed_rank};
ghost use Rattle.chess.specs.declared.board.man.Side.{Side};
ghost use Rattle.chess.specs.declared.board.man.Wing.{Wing};
ghost use Rattle.chess.specs.declared.moves.Move.{Move};
ghost use Rattle.pgn_criteria.specs.Public.Setups.{IsAlike, IsSetUp};
ghost use Rattle.pgn_criteria.specs.Private.MenAlike.{StandsAlike, KindAlike};

use chess::{Kind, Man, Move, Side, Square};
use pgn_game::{GamePosition, Replayed};

/// A position, by the fields of its FEN that are given.
#[derive(Drop)]
pub struct Setup {
    pub position: GamePosition,
    /// How many of the first four fields are given: the men; the side to move too; the castling
    /// rights; the en passant square.
    pub given: usize,
}

/// Whether the man stands on the same squares of both.
#[inline(always)]
fn stands_alike(one: &GamePosition, other: &GamePosition, man: Man) -> bool
    ensures { IsTrue result ↔ StandsAlike one.now.men other.now.men man }
{
    let ours = one.squares_of(man);
    let theirs = other.squares_of(man);
    ours.is_within(&theirs) && theirs.is_within(&ours)
}

/// Whether the men of the kind stand on the same squares of both.
#[inline(always)]
fn is_kind_alike(one: &GamePosition, other: &GamePosition, kind: Kind) -> bool
    ensures { IsTrue result ↔ KindAlike one.now.men other.now.men kind }
{
    let white = Man {
        side: Side::White,
        kind,
    };
    let black = Man {
        side: Side::Black,
        kind,
    };
    stands_alike(one, other, white) && stands_alike(one, other, black)
}

/// Whether on each square stands the same man in both, or none. What differs most often comes
/// first.
fn are_squares_alike(one: &GamePosition, other: &GamePosition) -> bool
    ensures { IsTrue result
        ↔ ((s : Place) → IsOnBoard s → man_at one.now.men s ≡ man_at other.now.men s) }
{
    if !is_kind_alike(one, other, Kind::Pawn) {
        return false;
    }
    if !is_kind_alike(one, other, Kind::Knight) {
        return false;
    }
    if !is_kind_alike(one, other, Kind::Bishop) {
        return false;
    }
    if !is_kind_alike(one, other, Kind::Rook) {
        return false;
    }
    if !is_kind_alike(one, other, Kind::Queen) {
        return false;
    }
    is_kind_alike(one, other, Kind::King)
}

/// Whether the same men stand on the same squares of both.
fn are_men_alike(one: &GamePosition, other: &GamePosition) -> bool
    ensures { IsTrue result ↔ (one.now.men ≡ other.now.men) }
{
    one.invariant();
    other.invariant();
    are_squares_alike(one, other)
}

/// Whether the same rights to castle are held in both.
fn are_rights_alike(one: &GamePosition, other: &GamePosition) -> bool
    ensures { IsTrue result
        ↔ ((side : Side) (wing : Wing)
        → has_right one.now.rights side wing ≡ has_right other.now.rights side wing) }
{
    one.rights() == other.rights()
}

/// The rank from which pawns of the side take en passant.
#[inline(always)]
fn capture_rank(side: Side) -> u8
    ensures { IsForward side result (passed_rank (opposite side)) }
{
    match side {
        Side::White => 5,
        Side::Black => 4,
    }
}

/// The one move from the file that can take a pawn en passant: none where no square is for it.
fn capture_from(position: &GamePosition, file: u8) -> Option<Move>
    ensures { MatchOption result
        ((m : Move) → m.from.file ≡ file → TakesEnPassant position.now m → ⊥)
        (λ only. (only.from.file ≡ file)
        × ((m : Move) → m.from.file ≡ file → TakesEnPassant position.now m → m ≡ only)) }
{
    position.invariant();
    let Some(to) = position.en_passant() else {
        return None;
    };
    let Some(from) = Square::new(file, capture_rank(position.side())) else {
        return None;
    };
    Some(Move {
        from,
        to,
        promote: None,
        castle: None,
    })
}

/// Whether that is a pawn.
#[inline(always)]
fn is_pawn(man: Option<Man>) -> bool
    ensures { result ≡ is_pawn man }
{
    match man {
        Some(man) => man.kind == Kind::Pawn,
        None => false,
    }
}

/// Whether the move is a capture en passant: a pawn goes to the en passant square on another file.
fn is_en_passant(position: &GamePosition, m: &Move) -> bool
    ensures { result ≡ is_en_passant position.now m.now }
{
    position.en_passant() == Some(m.to)
        && m.from.file() != m.to.file()
        && is_pawn(position.at(m.from))
}

/// Whether the move takes a pawn en passant, and is legal.
fn takes_en_passant(position: &GamePosition, m: &Move) -> bool
    ensures { IsTrue result ↔ TakesEnPassant position.now m.now }
{
    is_en_passant(position, m) && position.is_legal(*m)
}

/// Whether each move from the file that takes a pawn en passant in the one position takes it so in
/// the other.
fn are_taken_from(one: &GamePosition, other: &GamePosition, file: u8) -> bool
    ensures { IsTrue result
        ↔ ((m : Move) → m.from.file ≡ file → TakesEnPassant one.now m
        → TakesEnPassant other.now m) }
{
    let Some(m) = capture_from(one, file) else {
        return true;
    };
    !takes_en_passant(one, &m) || takes_en_passant(other, &m)
}

/// Whether each move that takes a pawn en passant in the one position takes it so in the other.
fn are_taken(one: &GamePosition, other: &GamePosition) -> bool
    ensures { IsTrue result
        ↔ ((m : Move) → TakesEnPassant one.now m → TakesEnPassant other.now m) }
{
    let Some(square) = one.en_passant() else {
        return true;
    };
    are_taken_from(one, other, square.file() - 1) && are_taken_from(one, other, square.file() + 1)
}

/// Whether the same moves take a pawn en passant in both.
fn are_captures_alike(one: &GamePosition, other: &GamePosition) -> bool
    ensures { IsTrue result
        ↔ ((m : Move) → TakesEnPassant one.now m ↔ TakesEnPassant other.now m) }
{
    are_taken(one, other) && are_taken(other, one)
}

/// Whether the position is that one in the fields that are given.
pub(crate) fn is_alike(setup: &Setup, position: &GamePosition) -> bool
    ensures { IsTrue result ↔ IsAlike setup.now.given position.now setup.now.position }
{
    let wanted = &setup.position;
    if setup.given >= 2 && position.side() != wanted.side() {
        return false;
    }
    if !are_men_alike(position, wanted) {
        return false;
    }
    if setup.given >= 3 && !are_rights_alike(position, wanted) {
        return false;
    }
    setup.given < 4 || are_captures_alike(position, wanted)
}

/// Whether the main line has a position after so many plies, and it is that one in the fields that
/// are given.
pub(crate) fn is_set_up(replayed: &Replayed, plies: usize, setup: &Setup) -> bool
    ensures { IsTrue result ↔ IsSetUp replayed.now plies setup.now }
{
    plies <= replayed.plies() && is_alike(setup, replayed.position(plies))
}
