//! The text of a position in Forsyth-Edwards notation (PGN 16.1).
ghost use Rattle.std.specs.Prelude.{◌≡◌, Option, List, ◌+◌, ◌≤◌, ◌<◌, ◌++◌, decimal};
ghost use Rattle.std.specs.Prelude.{if◌then◌else◌, take};
ghost use Rattle.std.specs.Simd.Lanes.{Each1};
ghost use Rattle.arrayvec.specs.ArrayString.{array_string_len};
ghost use Rattle.chess.specs.Public.Squares.{Place, IsOnBoard};
ghost use Rattle.chess.specs.Public.Placements.{Placement, number_of_side, number_of_kind};
ghost use Rattle.chess.specs.Public.Sets.{is_in};
ghost use Rattle.chess.specs.Public.Fen.{IsFen, side_text, rights_letters, or_dash};
ghost use Rattle.chess.specs.Public.Fen.{en_passant_text, joined};
ghost use Rattle.chess.specs.Private.FenTextWords.{rank_text, rank_texts, rank_signs, empty_set};
ghost use Rattle.chess.specs.Private.FenTextWords.{in_order, letter_if, letter_at, AreLetters};
ghost use Rattle.chess.specs.Private.FenTextWords.{AreLettersBelow};
ghost use Rattle.chess.specs.declared.board.man.Man.{Man};

mod rank_orders;

use crate::board::{Board, CastlingRights, Kind, Man, Side, Square, SquareSet};
use crate::letters::{man_letter, push_byte, push_square};
use crate::position::Position;
use arrayvec::ArrayString;
use itoa::Buffer;
use rank_orders::{LENGTHS, ORDERS};
use std::simd::prelude::*;

/// The signs of a rank: the letters of its squares, 0 for an empty one, and then the digits from 1
/// to 8. Eight bytes follow the letters of the board, so that 16 can be read from each rank on.
#[inline(always)]
fn rank_signs(letters: &[u8; 72], rank: u8) -> u8x16
    requires on_board { (1 ≤ rank) × (rank ≤ 8) }
    ensures { result ≡ rank_signs letters.now rank }
{
    u8x16::from_slice(&letters[8 * (rank as usize - 1)..]).shuffle(
        u8x16::from_array(*b"1234567812345678"),
        [0, 1, 2, 3, 4, 5, 6, 7, 16, 17, 18, 19, 20, 21, 22, 23],
    )
}

/// The set of the empty squares of a rank: bit 0 is the a-file's.
#[inline(always)]
fn empty_set(signs: u8x16) -> usize
    ensures { result ≡ empty_set signs }
{
    signs.simd_eq(u8x16::splat(0)).to_bitmask() as usize
}

/// The signs in that order.
#[inline(always)]
fn in_order(signs: u8x16, order: u8x16) -> u8x16
    requires { Each1 (λ place. place < 16) order }
    ensures { result ≡ in_order signs order }
{
    signs.swizzle_dyn(order)
}

/// Appends the first eight of the bytes.
#[inline(always)]
fn push_eight(out: &mut ArrayString<112>, bytes: &[u8; 16])
    requires ascii { Each1 (λ byte. byte < 128) bytes.now }
    requires room { array_string_len out.old ≤ 104 }
    ensures { out.new.bytes ≡ out.old.bytes ++ take 8 bytes.now }
{
    for place in 0usize..8 {
        push_byte(out, bytes[place]);
    }
}

/// Appends a rank: the letters of its men, and a digit for each longest run of empty squares. Eight
/// bytes are appended, and those that are too many taken off, so that no jump depends on the men.
#[inline(always)]
fn push_rank(out: &mut ArrayString<112>, letters: &[u8; 72], rank: u8)
    requires on_board { (1 ≤ rank) × (rank ≤ 8) }
    requires room { array_string_len out.old ≤ 100 }
    requires letters { (p : Placement) × AreLetters p letters.now }
    ensures text { (p : Placement) → AreLetters p letters.now
        → out.new.bytes ≡ out.old.bytes ++ rank_text p rank }
    ensures short { array_string_len out.new ≤ array_string_len out.old + 8 }
{
    let signs = rank_signs(letters, rank);
    let empty = empty_set(signs);
    let length = out.len() + LENGTHS[empty] as usize;
    let text = in_order(signs, u8x16::from_array(ORDERS[empty]));
    push_eight(out, &text.to_array());
    out.truncate(length);
}

/// Appends the ranks, from rank 8 down, with a slash between two.
fn push_ranks(out: &mut ArrayString<112>, letters: &[u8; 72])
    requires room { array_string_len out.old ≤ 8 }
    requires letters { (p : Placement) × AreLetters p letters.now }
    ensures text { (p : Placement) → AreLetters p letters.now
        → out.new.bytes ≡ out.old.bytes ++ joined 47 (rank_texts p 8) }
    ensures short { array_string_len out.new ≤ array_string_len out.old + 71 }
{
    push_rank(out, letters, 8);
    for step in 1u8..8 {
        push_byte(out, b'/');
        push_rank(out, letters, 8 - step);
    }
}

/// Puts the letter on each of the squares.
#[inline(always)]
fn mark(letters: &mut [u8; 72], squares: SquareSet, letter: u8)
    ensures { (s : Place) → IsOnBoard s
        → letter_at letters.new s ≡ (if is_in squares s then letter else letter_at letters.old s) }
{
    let mut left = squares;
    while let Some(square) = left.take_first() {
        letters[square.index() as usize] = letter;
    }
}

/// Appends the side to move.
fn push_side(out: &mut ArrayString<112>, side: Side)
    requires { array_string_len out.old < 112 }
    ensures { out.new.bytes ≡ out.old.bytes ++ side_text side }
{
    match side {
        Side::White => push_byte(out, b'w'),
        Side::Black => push_byte(out, b'b'),
    }
}

/// Appends the letter of a right, if it is held.
fn push_right(out: &mut ArrayString<112>, is_held: bool, letter: u8)
    requires ascii { letter < 128 }
    requires room { array_string_len out.old < 112 }
    ensures { out.new.bytes ≡ out.old.bytes ++ letter_if is_held letter }
{
    if is_held {
        push_byte(out, letter);
    }
}

/// Appends the rights that are held, or a dash.
fn push_rights(out: &mut ArrayString<112>, rights: CastlingRights)
    requires { array_string_len out.old ≤ 108 }
    ensures { out.new.bytes ≡ out.old.bytes ++ or_dash (rights_letters rights) }
{
    let on_king_side = rights.white_king_side || rights.black_king_side;
    let on_queen_side = rights.white_queen_side || rights.black_queen_side;
    if !on_king_side && !on_queen_side {
        push_byte(out, b'-');
        return;
    }
    push_right(out, rights.white_king_side, b'K');
    push_right(out, rights.white_queen_side, b'Q');
    push_right(out, rights.black_king_side, b'k');
    push_right(out, rights.black_queen_side, b'q');
}

/// Appends the en passant square, or a dash.
fn push_en_passant(out: &mut ArrayString<112>, square: Option<Square>)
    requires { array_string_len out.old ≤ 110 }
    ensures { out.new.bytes ≡ out.old.bytes ++ en_passant_text square }
{
    match square {
        Some(square) => push_square(out, square),
        None => push_byte(out, b'-'),
    }
}

/// Appends a number. Most have one digit or two, and need no buffer.
fn push_count(out: &mut ArrayString<112>, count: u32)
    requires { array_string_len out.old ≤ 102 }
    ensures text { out.new.bytes ≡ out.old.bytes ++ decimal count }
    ensures short { array_string_len out.new ≤ array_string_len out.old + 10 }
{
    if count < 10 {
        push_byte(out, b'0' + count as u8);
        return;
    }
    if count < 100 {
        push_byte(out, b'0' + (count / 10) as u8);
        push_byte(out, b'0' + (count % 10) as u8);
        return;
    }
    let mut buffer = Buffer::new();
    out.push_str(buffer.format(count));
}

impl<B: Board> Position<B> {
    /// The text of the position (PGN 16.1.4): a square of en passant stands there after each double
    /// step, whether a pawn can take or not.
    pub fn fen(&self) -> ArrayString<112>
        ensures { IsFen self.now result.bytes }
    {
        let mut out = ArrayString::new();
        self.push_men(&mut out);
        push_byte(&mut out, b' ');
        push_side(&mut out, self.side());
        push_byte(&mut out, b' ');
        push_rights(&mut out, self.rights());
        push_byte(&mut out, b' ');
        push_en_passant(&mut out, self.en_passant());
        push_byte(&mut out, b' ');
        push_count(&mut out, self.clock());
        push_byte(&mut out, b' ');
        push_count(&mut out, self.number());
        out
    }

    /// Appends the ranks, from rank 8 down, with a slash between two.
    fn push_men(&self, out: &mut ArrayString<112>)
        requires { array_string_len out.old ≤ 8 }
        ensures text { out.new.bytes ≡ out.old.bytes ++ joined 47 (rank_texts self.now.men 8) }
        ensures short { array_string_len out.new ≤ array_string_len out.old + 71 }
    {
        let mut letters = [0u8; 72];
        self.mark_side(&mut letters, Side::White);
        self.mark_side(&mut letters, Side::Black);
        push_ranks(out, &letters);
    }

    /// Puts the letters of the side's men on their squares, kind by kind.
    #[inline(always)]
    fn mark_side(&self, letters: &mut [u8; 72], side: Side)
        ensures { AreLettersBelow self.now.men letters.old (number_of_side side)
            → AreLettersBelow self.now.men letters.new (number_of_side side + 6) }
    {
        self.mark_kind(letters, side, Kind::King);
        self.mark_kind(letters, side, Kind::Queen);
        self.mark_kind(letters, side, Kind::Rook);
        self.mark_kind(letters, side, Kind::Bishop);
        self.mark_kind(letters, side, Kind::Knight);
        self.mark_kind(letters, side, Kind::Pawn);
    }

    /// Puts the letter of the side's men of the kind on their squares.
    #[inline(always)]
    fn mark_kind(&self, letters: &mut [u8; 72], side: Side, kind: Kind)
        ensures { AreLettersBelow self.now.men letters.old (number_of_side side
            + number_of_kind kind)
            → AreLettersBelow self.now.men letters.new (number_of_side side + number_of_kind kind
            + 1) }
    {
        let man = Man { side, kind };
        mark(letters, self.squares_of(man), man_letter(man));
    }
}
