//! The fields after the men of a text in Forsyth-Edwards notation (PGN 16.1.3.2 to 16.1.3.6).
ghost use Rattle.std.specs.Prelude.{◌≡◌, ◌≢◌, ◌⊎◌, ◌↔◌, ℕ, Option, [], codes, length, IsTrue};
ghost use Rattle.std.specs.Prelude.{MatchOption};
ghost use Rattle.std.specs.List.{list_all};
ghost use Rattle.chess.specs.Public.Squares.{Place};
ghost use Rattle.chess.specs.Public.Fen.{side_text, has_byte, is_distinct, is_right_letter};
ghost use Rattle.chess.specs.Public.Fen.{GivesRights, GivesEnPassant, is_digit, number_from};
ghost use Rattle.chess.specs.Public.Fen.{IsCount, GiveCounts, fields_of};
ghost use Rattle.chess.specs.declared.board.man.Side.{Side};
ghost use Rattle.chess.specs.declared.board.man.CastlingRights.{CastlingRights};

use crate::board::{CastlingRights, Side, Square};
use crate::fen::read::fields::next_field;

/// The side that the text names.
pub(crate) fn read_side(text: &[u8]) -> Option<Side>
    ensures { MatchOption result ((side : Side) → text.now ≡ side_text side
        → ⊥) (λ side. text.now ≡ side_text side) }
{
    match text {
        [b'w'] => Some(Side::White),
        [b'b'] => Some(Side::Black),
        _ => None,
    }
}

/// Whether the byte stands in the text.
fn has_byte(byte: u8, text: &[u8]) -> bool
    ensures { result ≡ has_byte byte text.now }
{
    let mut rest = text;
    while let [first, after @ ..] = rest {
        if *first == byte {
            return true;
        }
        rest = after;
    }
    false
}

/// Whether no byte stands twice in the text.
fn is_distinct(text: &[u8]) -> bool
    ensures { result ≡ is_distinct text.now }
{
    let mut rest = text;
    while let [first, after @ ..] = rest {
        if has_byte(*first, after) {
            return false;
        }
        rest = after;
    }
    true
}

/// Whether that is a letter of `KQkq`.
fn is_right_letter(byte: u8) -> bool
    ensures { result ≡ is_right_letter byte }
{
    (byte == b'K' || byte == b'Q') || (byte == b'k' || byte == b'q')
}

/// Whether each byte is a letter of `KQkq`.
fn are_right_letters(text: &[u8]) -> bool
    ensures { result ≡ list_all is_right_letter text.now }
{
    let mut rest = text;
    while let [first, after @ ..] = rest {
        if !is_right_letter(*first) {
            return false;
        }
        rest = after;
    }
    true
}

/// Whether that is a dash, or distinct letters of `KQkq`.
fn are_rights(text: &[u8]) -> bool
    ensures { IsTrue result
        ↔ ((text.now ≡ codes "-")
        ⊎ ((text.now ≢ []) × IsTrue (list_all is_right_letter text.now)
        × IsTrue (is_distinct text.now))) }
{
    if let [b'-'] = text {
        return true;
    }
    if text.is_empty() {
        return false;
    }
    are_right_letters(text) && is_distinct(text)
}

/// The castling rights that the text gives.
pub(crate) fn read_rights(text: &[u8]) -> Option<CastlingRights>
    ensures { MatchOption result ((rights : CastlingRights) → GivesRights text.now rights
        → ⊥) (λ rights. GivesRights text.now rights) }
{
    if !are_rights(text) {
        return None;
    }
    Some(CastlingRights {
        white_king_side: has_byte(b'K', text),
        white_queen_side: has_byte(b'Q', text),
        black_king_side: has_byte(b'k', text),
        black_queen_side: has_byte(b'q', text),
    })
}

/// The square of that name, as `e3`.
fn square_of(text: &[u8]) -> Option<Square>
    ensures { MatchOption result ((s : Place) → GivesEnPassant text.now (Some s)
        → ⊥) (λ s. GivesEnPassant text.now (Some s)) }
{
    match text {
        [file, rank] => {
            if *file < b'a' || *rank < b'1' {
                return None;
            }
            Square::new(*file - (b'a' - 1), *rank - b'0')
        }
        _ => None,
    }
}

/// The en passant square that the text gives, if it gives one.
pub(crate) fn read_en_passant(text: &[u8]) -> Option<Option<Square>>
    ensures { MatchOption result ((given : Option Place) → GivesEnPassant text.now given
        → ⊥) (λ given. GivesEnPassant text.now given) }
{
    if let [b'-'] = text {
        return Some(None);
    }
    Some(Some(square_of(text)?))
}

/// The number that one to seven digits write.
fn read_count(text: &[u8]) -> Option<u32>
    ensures { MatchOption result ((n : ℕ) → IsCount text.now n → ⊥) (λ n. IsCount text.now n) }
{
    if text.is_empty() || text.len() > 7 {
        return None;
    }
    let mut number = 0u32;
    let mut rest = text;
    while let [digit, after @ ..] = rest {
        if *digit < b'0' || *digit > b'9' {
            return None;
        }
        number = 10 * number + (*digit - b'0') as u32;
        rest = after;
    }
    Some(number)
}

/// The halfmove clock and the fullmove number, of which the second or both may be missing.
pub(crate) fn read_counts(text: &[u8]) -> Option<(u32, u32)>
    ensures { MatchOption result ((clock number : ℕ) → GiveCounts (fields_of text.now) clock number
        → ⊥)
        (λ counts. GiveCounts (fields_of text.now) counts.0 counts.1) }
{
    let Some((clock_field, rest)) = next_field(text) else {
        return Some((0, 1));
    };
    let clock = read_count(clock_field)?;
    let Some((number_field, rest)) = next_field(rest) else {
        return Some((clock, 1));
    };
    let number = read_count(number_field)?;
    if next_field(rest).is_some() {
        return None;
    }
    Some((clock, number))
}
