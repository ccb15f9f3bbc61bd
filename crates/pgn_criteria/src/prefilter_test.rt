//! The squares of one man, moved by the codes of plies. Where he never stands as is asked, no
//! position of a game need be looked at.
ghost use Rattle.std.specs.Prelude.{◌≡◌, ◌↔◌, ◌<◌, ◌+◌, ◌*◌, ◌/◌, ◌%◌, IsTrue, None, true, false};
ghost use Rattle.chess.specs.Public.Moves.{with_rook};
ghost use Rattle.chess.specs.Public.Placements.{Placement};
ghost use Rattle.chess.specs.Public.Sets.{IsSquaresOf};
ghost use Rattle.chess.specs.Public.Squares.{square_at};
ghost use Rattle.chess.specs.declared.board.man.Man.{Man};
ghost use Rattle.pgn_criteria.specs.Public.Prefilters.{codes_in};
ghost use Rattle.pgn_criteria.specs.Private.PrefilterTests.{AreTaken, IsPut, Nowhere, gone};
ghost use Rattle.pgn_game.specs.Public.PlyCodes.{code_of, man_number, moved, numbered_castle};
ghost use Rattle.pgn_game.specs.Public.PlyCodes.{numbered_man};

use crate::walk::{rook_arrives, rook_leaves};
use chess::{Kind, Man, Side, Square, SquareSet};
use pgn_game::pack::{numbered_castle, numbered_man};

/// What is asked of the squares on which one man stands.
pub(crate) trait PrefilterTest {
    /// The man stands so among the men.
    ghost stands: { Self → Man → Placement → Type 0 };

    /// Whether a man who stands on these squares may stand so, where the others are known to be
    /// taken.
    fn is_met(&self, squares: &SquareSet, taken: &SquareSet) -> bool
        ensures { (man : Man) (men : Placement) → IsSquaresOf men man squares.now
            → AreTaken men taken.now → stands self.now man men → IsTrue result };
}

/// Puts the square into the set, or takes it out.
#[inline(always)]
fn put(squares: &mut SquareSet, square: Square, is_his: bool)
    ensures { IsPut square is_his squares.old squares.new }
{
    if is_his {
        squares.insert(square);
    } else {
        squares.remove(square);
    }
}

/// The number of the man.
#[inline(always)]
fn number_of(man: Man) -> u8
    ensures number { man_number man None ≡ result }
    ensures below { result < 12 }
{
    let side = match man.side {
        Side::White => 0u8,
        Side::Black => 6,
    };
    let kind = match man.kind {
        Kind::King => 0u8,
        Kind::Queen => 1,
        Kind::Rook => 2,
        Kind::Bishop => 3,
        Kind::Knight => 4,
        Kind::Pawn => 5,
    };
    side + kind
}

/// Whether the man has that number.
#[inline(always)]
fn has_number(own: Man, number: u8) -> bool
    ensures { (man : Man) → man_number man None ≡ number → (result ≡ true) ↔ (man ≡ own) }
{
    number_of(own) == number
}

/// The squares of the man with the number after a king castles by the bytes, where these are his
/// before it.
#[cold]
#[inline(never)]
fn follow_castling(number: u8, squares: SquareSet, a: u8, b: u8, king: u8) -> SquareSet
    requires { king < 16 }
    ensures { (man : Man) → man_number man None ≡ number → (men : Placement)
        → IsSquaresOf men man squares
        → IsSquaresOf
        (gone men (square_at (a % 64)) (square_at (b % 64)) (numbered_man king)
        (numbered_castle king)) man result }
{
    let own = numbered_man(king);
    let mut now = squares;
    put(&mut now, Square::of_index(a % 64), false);
    put(&mut now, Square::of_index(b % 64), has_number(own, number));
    let Some(wing) = numbered_castle(king) else {
        return now;
    };
    let rook = Man {
        side: own.side,
        kind: Kind::Rook,
    };
    put(&mut now, rook_leaves(own.side, wing), false);
    put(
        &mut now,
        rook_arrives(own.side, wing),
        has_number(rook, number),
    );
    now
}

/// Squares that are known to be taken after the rook of a king who castles. These are taken before
/// it goes.
#[cold]
#[inline(never)]
fn settle_rook(taken: SquareSet, king: u8) -> SquareSet
    requires { king < 16 }
    ensures { (men : Placement) → AreTaken men taken
        → AreTaken (with_rook (numbered_man king).side (numbered_castle king) men) result }
{
    let side = numbered_man(king).side;
    let mut now = taken;
    let Some(wing) = numbered_castle(king) else {
        return now;
    };
    put(&mut now, rook_leaves(side, wing), false);
    put(&mut now, rook_arrives(side, wing), true);
    now
}

/// Squares that are known to be taken after the ply of three bytes, where these are before it.
#[inline(always)]
fn settle(taken: SquareSet, a: u8, b: u8, d: u8) -> SquareSet
    ensures { (men : Placement) → AreTaken men taken → AreTaken (moved men (code_of a b d)) result }
{
    let mut now = taken;
    put(&mut now, Square::of_index(d % 64), false);
    put(&mut now, Square::of_index(b % 64), true);
    put(&mut now, Square::of_index(a % 64), false);
    if d >= 192 {
        return settle_rook(now, b / 64 + 4 * (d / 64));
    }
    now
}

/// Whether the man who arrives by the ply has the number.
#[inline(always)]
fn is_arriving(number: u8, b: u8, d: u8) -> bool
    ensures { (result ≡ true) ↔ (b / 64 + 4 * (d / 64) ≡ number) }
{
    b / 64 == number % 4 && d / 64 == number / 4
}

/// The squares of the man with the number after the ply of three bytes, where these are his before
/// it.
#[inline(always)]
fn follow(number: u8, squares: SquareSet, a: u8, b: u8, d: u8) -> SquareSet
    requires { number < 12 }
    ensures { (man : Man) → man_number man None ≡ number → (men : Placement)
        → IsSquaresOf men man squares
        → IsSquaresOf (moved men (code_of a b d)) man result }
{
    let mut now = squares;
    put(&mut now, Square::of_index(d % 64), false);
    if d >= 192 {
        return follow_castling(number, now, a, b, b / 64 + 4 * (d / 64));
    }
    put(&mut now, Square::of_index(a % 64), false);
    put(
        &mut now,
        Square::of_index(b % 64),
        is_arriving(number, b, d),
    );
    now
}

/// Whether the man stands as is asked before the plies or after one of them. He stands on these
/// squares before them.
pub(crate) fn is_met_somewhere<T: PrefilterTest>(
    stand: &T,
    man: Man,
    start: SquareSet,
    plies: &[u8],
) -> bool
    ensures { (men : Placement) → IsSquaresOf men man start → result ≡ false
        → Nowhere (T.stands stand.now man) men (codes_in plies.now) }
{
    let mut squares = start;
    let mut taken = SquareSet::new();
    if stand.is_met(&squares, &taken) {
        return true;
    }
    let number = number_of(man);
    let mut rest = plies;
    while let [a, b, d, after @ ..] = rest {
        squares = follow(number, squares, *a, *b, *d);
        taken = settle(taken, *a, *b, *d);
        rest = after;
        if stand.is_met(&squares, &taken) {
            return true;
        }
    }
    false
}
