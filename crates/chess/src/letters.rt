//! The letters of men and squares, read, and written into a text of limited length (PGN 8.2.3.1,
//! 8.2.3.2, 16.1.3.1).
ghost use Rattle.std.specs.Prelude.{◌≡◌, MatchOption, ◌+◌, ◌≤◌, ◌<◌, ◌++◌, ◌∷◌, []};
ghost use Rattle.arrayvec.specs.ArrayString.{array_string_len};
ghost use Rattle.chess.specs.Public.Letters.{kind_letter, man_letter, square_text};
ghost use Rattle.chess.specs.Private.SanWords.{kind_of};
ghost use Rattle.chess.specs.declared.board.man.Kind.{Kind};

use crate::board::{Kind, Man, Side, Square};
use arrayvec::ArrayString;

/// No kind and each kind, short enough for a table.
const O: Option<Kind> = None;

const K: Option<Kind> = Some(Kind::King);

const Q: Option<Kind> = Some(Kind::Queen);

const R: Option<Kind> = Some(Kind::Rook);

const B: Option<Kind> = Some(Kind::Bishop);

const N: Option<Kind> = Some(Kind::Knight);

const P: Option<Kind> = Some(Kind::Pawn);

/// The kind of each byte that is a letter of one, in upper case. The proof of `kind_of` compares
/// all 256 with `kind_letter`.
static KINDS: [Option<Kind>; 256] = [
    // from 0x00
    O, O, O, O, O, O, O, O, O, O, O, O, O, O, O, O,
    // from 0x10
    O, O, O, O, O, O, O, O, O, O, O, O, O, O, O, O,
    // from 0x20
    O, O, O, O, O, O, O, O, O, O, O, O, O, O, O, O,
    // from 0x30
    O, O, O, O, O, O, O, O, O, O, O, O, O, O, O, O,
    // from 0x40
    O, O, B, O, O, O, O, O, O, O, O, K, O, O, N, O,
    // from 0x50
    P, Q, R, O, O, O, O, O, O, O, O, O, O, O, O, O,
    // from 0x60
    O, O, O, O, O, O, O, O, O, O, O, O, O, O, O, O,
    // from 0x70
    O, O, O, O, O, O, O, O, O, O, O, O, O, O, O, O,
    // from 0x80
    O, O, O, O, O, O, O, O, O, O, O, O, O, O, O, O,
    // from 0x90
    O, O, O, O, O, O, O, O, O, O, O, O, O, O, O, O,
    // from 0xA0
    O, O, O, O, O, O, O, O, O, O, O, O, O, O, O, O,
    // from 0xB0
    O, O, O, O, O, O, O, O, O, O, O, O, O, O, O, O,
    // from 0xC0
    O, O, O, O, O, O, O, O, O, O, O, O, O, O, O, O,
    // from 0xD0
    O, O, O, O, O, O, O, O, O, O, O, O, O, O, O, O,
    // from 0xE0
    O, O, O, O, O, O, O, O, O, O, O, O, O, O, O, O,
    // from 0xF0
    O, O, O, O, O, O, O, O, O, O, O, O, O, O, O, O,
];

/// The letters of the kinds, in upper case and in the order of `Kind`.
static LETTERS: [u8; 6] = [b'K', b'Q', b'R', b'B', b'N', b'P'];

/// The letter of a kind, in upper case (PGN 8.2.3.2): by a table, so that no jump depends on the
/// kind.
#[inline(always)]
pub fn kind_letter(kind: Kind) -> u8
    ensures letter { result ≡ kind_letter kind }
    ensures ascii { result ≤ 82 }
{
    LETTERS[kind as usize]
}

/// The kind of that letter in upper case, if there is one: by a table, so that no jump depends on
/// the letter.
#[inline(always)]
pub(crate) fn kind_of(letter: u8) -> Option<Kind>
    ensures found { MatchOption result ((other : Kind) → kind_letter other ≡ letter
        → ⊥) (λ kind. kind_letter kind ≡ letter) }
    ensures answer { result ≡ kind_of letter }
{
    KINDS[letter as usize]
}

/// The letter of a man: White's in upper case, Black's in lower case.
pub(crate) fn man_letter(man: Man) -> u8
    ensures letter { result ≡ man_letter man }
    ensures ascii { result < 128 }
{
    let letter = kind_letter(man.kind);
    match man.side {
        Side::White => letter,
        Side::Black => letter + 32,
    }
}

/// Appends an ASCII byte. The remainder is the byte, and lets the compiler see that it takes one
/// byte of text.
pub(crate) fn push_byte<const CAP: usize>(out: &mut ArrayString<CAP>, byte: u8)
    requires ascii { byte < 128 }
    requires room { array_string_len out.old < CAP }
    ensures { out.new.bytes ≡ out.old.bytes ++ byte ∷ [] }
{
    out.push((byte % 128) as char);
}

/// Appends a square.
pub(crate) fn push_square<const CAP: usize>(out: &mut ArrayString<CAP>, square: Square)
    requires { array_string_len out.old + 2 ≤ CAP }
    ensures { out.new.bytes ≡ out.old.bytes ++ square_text square }
{
    push_byte(out, b'a' - 1 + square.file());
    push_byte(out, b'0' + square.rank());
}
