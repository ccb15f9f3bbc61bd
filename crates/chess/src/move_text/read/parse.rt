//! What a move text says, read from its end (PGN 8.2.3).
ghost use Rattle.std.specs.Prelude.{◌≡◌, ◌↔◌, ◌⊎◌, reverse, Some, None, IfSome, MatchOption};
ghost use Rattle.std.specs.Prelude.{IsTrue};
ghost use Rattle.chess.specs.Public.San.{IsCastlingText};
ghost use Rattle.chess.specs.Private.SanWords.{IsReadSaid, SaysPlainly, SaysPawnTakes};
ghost use Rattle.chess.specs.Private.SanWords.{IsBeforeCheckSigns, IsWholeLetter, IsCastlingStem};
ghost use Rattle.chess.specs.Private.SanWords.{kind_given, number_given, kind_of, is_of, last_of};
ghost use Rattle.chess.specs.Private.SanWords.{before_last, unmarked, before_equals, stem};
ghost use Rattle.chess.specs.Private.SanWords.{after_target_rank, after_sign, after_rank};
ghost use Rattle.chess.specs.Private.SanWords.{after_file};
ghost use Rattle.chess.specs.declared.board.man.Wing.{Wing};
ghost use Rattle.chess.specs.declared.move_text.read.parse.ByteClass.TheVariants.{Digit};
ghost use Rattle.chess.specs.declared.move_text.read.parse.ByteClass.TheVariants.{FileLetter};
ghost use Rattle.chess.specs.declared.move_text.read.parse.ByteClass.TheVariants.{PromotionLetter};

use crate::board::{Kind, Square, Wing};
use crate::letters::kind_of;

/// What a move text that is not castling says.
#[derive(Drop)]
pub(crate) struct ParsedSan {
    pub(crate) letter: Option<Kind>,
    pub(crate) file: Option<u8>,
    pub(crate) rank: Option<u8>,
    pub(crate) target: Square,
    pub(crate) promote: Option<Kind>,
}

/// The classes of the bytes of a move text.
#[derive(Clone, Copy, Debug, PartialEq, Eq)]
enum ByteClass {
    Sign,
    Digit,
    FileLetter,
    KindLetter,
    Equals,
    PromotionLetter,
}

/// The bytes of a move text by their places.
#[derive(Drop)]
struct Parts<'a> {
    promotion: Option<u8>,
    target_rank: u8,
    target_file: u8,
    rank: Option<u8>,
    file: Option<u8>,
    rest: &'a [u8],
}

/// Whether the byte is of the class.
#[inline(always)]
fn is_of(class: ByteClass, byte: u8) -> bool
    ensures { result ≡ is_of class byte }
{
    match class {
        ByteClass::Sign => byte == b'x' || byte == b':' || byte == b'-',
        ByteClass::Digit => b'0' < byte && byte < b'9',
        ByteClass::FileLetter => b'`' < byte && byte < b'i',
        ByteClass::KindLetter => kind_of(byte).is_some(),
        ByteClass::Equals => byte == b'=',
        ByteClass::PromotionLetter => (byte == b'Q' || byte == b'R')
            || (byte == b'B' || byte == b'N'),
    }
}

/// The last byte of a text if it is of the class, and the text before it.
#[inline(always)]
fn take_last(class: ByteClass, text: &[u8]) -> (Option<u8>, &[u8])
    ensures byte { result.0 ≡ last_of class (reverse text.now) }
    ensures rest { reverse result.1.now ≡ before_last class (reverse text.now) }
{
    if let [before @ .., last] = text
        && is_of(class, *last)
    {
        return (Some(*last), before);
    }
    (None, text)
}

/// The text without the signs of check and mate at its end.
#[inline(always)]
fn unmarked(text: &[u8]) -> &[u8]
    ensures { reverse result.now ≡ unmarked (reverse text.now) }
{
    let mut rest = text;
    while let [before @ .., last] = rest
        && (*last == b'+' || *last == b'#')
    {
        rest = before;
    }
    rest
}

/// The text before a promotion and its `=`.
#[inline(always)]
fn before_equals(promotion: Option<u8>, text: &[u8]) -> &[u8]
    ensures { reverse result.now ≡ before_equals promotion (reverse text.now) }
{
    match promotion {
        Some(_) => take_last(ByteClass::Equals, text).1,
        None => text,
    }
}

/// The bytes of a text by their places, from its end; `None` where no target stands there.
#[inline(always)]
fn split_parts(text: &[u8]) -> Option<Parts<'_>>
    ensures target { MatchOption result
        ((last_of Digit (stem (reverse text.now)) ≡ None)
        ⊎ (last_of FileLetter (after_target_rank (reverse text.now)) ≡ None))
        (λ parts. (last_of Digit (stem (reverse text.now)) ≡ Some parts.target_rank)
        × (last_of FileLetter (after_target_rank (reverse text.now)) ≡ Some parts.target_file)) }
    ensures promotion { IfSome result (λ parts. parts.promotion
        ≡ last_of PromotionLetter (unmarked (reverse text.now))) }
    ensures rank { IfSome result (λ parts. parts.rank
        ≡ last_of Digit (after_sign (reverse text.now))) }
    ensures file { IfSome result (λ parts. parts.file
        ≡ last_of FileLetter (after_rank (reverse text.now))) }
    ensures rest { IfSome result (λ parts. reverse parts.rest.now ≡ after_file (reverse text.now)) }
{
    let (promotion, rest) = take_last(ByteClass::PromotionLetter, unmarked(text));
    let (target_rank, rest) = take_last(ByteClass::Digit, before_equals(promotion, rest));
    let (target_file, rest) = take_last(ByteClass::FileLetter, rest);
    let (Some(target_file), Some(target_rank)) = (target_file, target_rank) else {
        return None;
    };
    let (_, rest) = take_last(ByteClass::Sign, rest);
    let (rank, rest) = take_last(ByteClass::Digit, rest);
    let (file, rest) = take_last(ByteClass::FileLetter, rest);
    Some(Parts {
        promotion,
        target_rank,
        target_file,
        rank,
        file,
        rest,
    })
}

/// The kind of the letter that is the whole text, or none where the text is empty; `None` where it
/// is neither.
#[inline(always)]
fn whole_letter(text: &[u8]) -> Option<Option<Kind>>
    ensures { IsWholeLetter (reverse text.now) result }
{
    match text {
        [] => Some(None),
        [letter] if is_of(ByteClass::KindLetter, *letter) => Some(kind_of(*letter)),
        _ => None,
    }
}

/// The kind of the letter, if one is given.
#[inline(always)]
fn kind_given(letter: Option<u8>) -> Option<Kind>
    ensures { result ≡ kind_given letter }
{
    match letter {
        Some(byte) => kind_of(byte),
        None => None,
    }
}

/// The number that a byte writes from that one on, if it is given.
#[inline(always)]
fn number_given(byte: Option<u8>, zero: u8) -> Option<u8>
    ensures { result ≡ number_given byte zero }
{
    match byte {
        Some(byte) => Some(byte.saturating_sub(zero)),
        None => None,
    }
}

/// What a letter or none, a file and a rank say together, if that is what the bytes are.
#[inline(always)]
pub(crate) fn plainly_said(letter: Option<u8>, file: u8, rank: u8) -> Option<ParsedSan>
    ensures { MatchOption result (Unit {0}) (SaysPlainly letter file rank) }
{
    let mut kind = None;
    if let Some(byte) = letter {
        let found = kind_of(byte)?;
        kind = Some(found);
    }
    let target = Square::new(file.wrapping_sub(b'`'), rank.wrapping_sub(b'0'))?;
    Some(ParsedSan {
        letter: kind,
        file: None,
        rank: None,
        target,
        promote: None,
    })
}

/// What a pawn's capture says, from the file that it leaves and the target's bytes, if that is what
/// the bytes are.
#[inline(always)]
pub(crate) fn pawn_takes(from: u8, file: u8, rank: u8) -> Option<ParsedSan>
    ensures { MatchOption result (Unit {0}) (SaysPawnTakes from file rank) }
{
    if !is_of(ByteClass::FileLetter, from) {
        return None;
    }
    let target = Square::new(file.wrapping_sub(b'`'), rank.wrapping_sub(b'0'))?;
    Some(ParsedSan {
        letter: None,
        file: Some(from.saturating_sub(b'`')),
        rank: None,
        target,
        promote: None,
    })
}

/// The text before one sign of check or mate, where it ends in one.
#[inline(always)]
pub(crate) fn before_check_sign(text: &[u8]) -> &[u8]
    ensures { IsBeforeCheckSigns text.now result.now }
{
    match text {
        [before @ .., b'+'] | [before @ .., b'#'] => before,
        _ => text,
    }
}

/// What the text says, if it is a target alone or a letter and a target, or says of a pawn or a
/// piece that it takes, with one mark at most, as most texts are; else it may be a move text of
/// another form.
#[inline(always)]
pub(crate) fn read_frequent(text: &[u8]) -> Option<ParsedSan>
    ensures { MatchOption result (Unit {0}) (λ said. IsReadSaid text.now (Some said)) }
{
    match before_check_sign(text) {
        [file, rank] => plainly_said(None, *file, *rank),
        [letter, file, rank] => plainly_said(Some(*letter), *file, *rank),
        [from, sign, file, rank] if *sign == b'x' => {
            if let Some(said) = pawn_takes(*from, *file, *rank) {
                return Some(said);
            }
            plainly_said(Some(*from), *file, *rank)
        }
        _ => None,
    }
}

/// What the text says, if it is a move text that is not castling.
#[inline(always)]
pub(crate) fn parse_san(text: &[u8]) -> Option<ParsedSan>
    ensures { IsReadSaid text.now result }
{
    if let Some(said) = read_frequent(text) {
        return Some(said);
    }
    let Some(parts) = split_parts(text) else {
        return None;
    };
    let Some(letter) = whole_letter(parts.rest) else {
        return None;
    };
    let target = Square::new(
        parts.target_file.saturating_sub(b'`'),
        parts.target_rank.saturating_sub(b'0'),
    )?;
    Some(ParsedSan {
        letter,
        file: number_given(parts.file, b'`'),
        rank: number_given(parts.rank, b'0'),
        target,
        promote: kind_given(parts.promotion),
    })
}

/// Whether the two texts are the same.
fn is_text(text: &[u8], other: &[u8]) -> bool
    ensures { IsTrue result ↔ (text.now ≡ other.now) }
{
    text == other
}

/// Whether the text, without marks, is that of castling on the wing.
fn is_castling(wing: Wing, stem: &[u8]) -> bool
    ensures { IsTrue result ↔ IsCastlingStem wing stem.now }
{
    match wing {
        Wing::KingSide => is_text(stem, b"O-O") || is_text(stem, b"0-0"),
        Wing::QueenSide => is_text(stem, b"O-O-O") || is_text(stem, b"0-0-0"),
    }
}

/// Whether the text begins as one of castling: no other move text does.
#[inline(always)]
pub(crate) fn begins_castling(text: &[u8]) -> bool
    ensures { (wing : Wing) → IsCastlingText wing text.now → IsTrue result }
{
    match text {
        [first, ..] => *first == b'O' || *first == b'0',
        [] => false,
    }
}

/// The wing on which the text castles: most texts are recognized by their first byte.
#[inline(always)]
pub(crate) fn castling(text: &[u8]) -> Option<Wing>
    ensures { (wing : Wing) → IsCastlingText wing text.now ↔ (result ≡ Some wing) }
{
    if !begins_castling(text) {
        return None;
    }
    wing_of(text)
}

/// The wing on which the text castles.
#[cold]
fn wing_of(text: &[u8]) -> Option<Wing>
    ensures { (wing : Wing) → IsCastlingText wing text.now ↔ (result ≡ Some wing) }
{
    let stem = unmarked(text);
    if is_castling(Wing::KingSide, stem) {
        return Some(Wing::KingSide);
    }
    if is_castling(Wing::QueenSide, stem) {
        return Some(Wing::QueenSide);
    }
    None
}
