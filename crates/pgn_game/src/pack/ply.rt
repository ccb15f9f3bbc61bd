//! A ply in three bytes.
ghost use Rattle.std.specs.Prelude.{◌≡◌, ◌<◌, IsTrue, Some, List, ℕ};
ghost use Rattle.chess.specs.Public.Squares.{index_of};
ghost use Rattle.chess.specs.Public.Moves.{after, arriving, is_pawn, is_en_passant, capture_square};
ghost use Rattle.chess.specs.Public.Moves.{HasMove, IsPseudoLegal};
ghost use Rattle.pgn_game.specs.Public.PlyCodes.{PlyCode, AreMarks, IsCode, code_bytes};
ghost use Rattle.pgn_game.specs.Public.PlyCodes.{marks_number, castle_number, man_number};

use crate::turns::replayed::GamePosition;
use chess::{Kind, Man, Move, Side, Square, Wing};

/// What is marked at a position: whether the side to move is in check, and whether it has no legal
/// move.
#[derive(Clone, Copy)]
pub(crate) struct Marks {
    pub(crate) check: bool,
    pub(crate) stuck: bool,
}

impl Marks {
    /// The marks of the position. Where a move is known to follow, no legal move is looked for.
    pub(crate) fn of(position: &GamePosition, goes_on: bool) -> Self
        ensures { (IsTrue goes_on → HasMove position.now)
            → AreMarks position.now result.check result.stuck }
    {
        Marks {
            check: position.in_check(),
            stuck: !goes_on && !position.has_move(),
        }
    }

    /// The marks as a number.
    pub(crate) fn number(self) -> u8
        ensures number { result ≡ marks_number self.check self.stuck }
        ensures below { result < 4 }
    {
        u8::from(self.check) + 2 * u8::from(self.stuck)
    }
}

/// The place of the square in the order a1, b1 to h1, a2 and so on.
fn index(square: Square) -> u8
    ensures place { result ≡ index_of square }
    ensures below { result < 64 }
{
    8 * (square.rank() - 1) + (square.file() - 1)
}

/// The number of a king that castles.
fn castle_number(side: Side, wing: Wing) -> u8
    ensures number { result ≡ castle_number side wing }
    ensures below { result < 16 }
{
    match (side, wing) {
        (Side::White, Wing::KingSide) => 12,
        (Side::White, Wing::QueenSide) => 13,
        (Side::Black, Wing::KingSide) => 14,
        (Side::Black, Wing::QueenSide) => 15,
    }
}

/// The number of a man that arrives.
fn man_number(man: Man, castle: Option<Wing>) -> u8
    ensures number { result ≡ man_number man castle }
    ensures below { result < 16 }
{
    if let Some(wing) = castle {
        return castle_number(man.side, wing);
    }
    let side = match man.side {
        Side::White => 0,
        Side::Black => 6,
    };
    let kind = match man.kind {
        Kind::King => 0,
        Kind::Queen => 1,
        Kind::Rook => 2,
        Kind::Bishop => 3,
        Kind::Knight => 4,
        Kind::Pawn => 5,
    };
    side + kind
}

/// The man that arrives.
fn arriving_man(position: &GamePosition, m: &Move) -> Man
    requires { IsPseudoLegal position.now m.now }
    ensures { arriving position.now m.now.promote m.now.from ≡ Some result }
{
    if let Some(kind) = m.promote {
        return Man {
            side: position.side(),
            kind,
        };
    }
    match position.at(m.from) {
        Some(man) => man,
        None => unreachable!(),
    }
}

/// Whether that is a pawn.
pub(crate) fn is_pawn(man: Option<Man>) -> bool
    ensures { result ≡ is_pawn man }
{
    match man {
        Some(man) => man.kind == Kind::Pawn,
        None => false,
    }
}

/// Whether the move is a capture en passant: a pawn goes to another file, where no man stands.
fn is_en_passant(position: &GamePosition, m: &Move) -> bool
    requires { IsPseudoLegal position.now m.now }
    ensures { result ≡ is_en_passant position.now m.now }
{
    if m.from.file() == m.to.file() || position.en_passant() != Some(m.to) {
        return false;
    }
    is_pawn(position.at(m.from))
}

/// The square of the man that is taken, if one is.
fn capture_square(position: &GamePosition, m: &Move) -> Square
    requires { IsPseudoLegal position.now m.now }
    ensures { result ≡ capture_square position.now m.now }
{
    if is_en_passant(position, m) {
        return Square::of_index(8 * (m.from.rank() - 1) + (m.to.file() - 1));
    }
    m.to
}

/// The three bytes of a move, with these marks of the position after it.
pub(crate) fn coded_move(position: &GamePosition, m: &Move, marks: Marks) -> [u8; 3]
    requires { IsPseudoLegal position.now m.now }
    ensures { (c : PlyCode)
        × (AreMarks (after position.now m.now) marks.check marks.stuck
        → IsCode position.now m.now c)
        × (result ≡ code_bytes c) }
{
    let man = man_number(arriving_man(position, m), m.castle);
    [
        index(m.from) + 64 * marks.number(),
        index(m.to) + 64 * (man % 4),
        index(capture_square(position, m)) + 64 * (man / 4),
    ]
}
