//! The part at the front of a text, one function for each kind.

ghost use Rattle.std.specs.Prelude.{◌≡◌, ◌≤◌, length, drop, if◌then◌else◌, option_map, IfSome};
ghost use Rattle.std.specs.Prelude.{Some, None};
ghost use Rattle.memchr.specs.Find.{IsFirstByte, is_byte};
ghost use Rattle.pgn_text.specs.Shared.Lanes.{AreLanes};
ghost use Rattle.pgn_text.specs.Public.Bytes.{is_not_line_feed, run_of, after_run};
ghost use Rattle.pgn_text.specs.Public.Parts.{EscapeLine, Line, number_of};
ghost use Rattle.pgn_text.specs.Private.Reading.{rest_after, brace_front, mark_front, gap_front};
ghost use Rattle.pgn_text.specs.Private.Reading.{tag_front, is_glyph, glyph_front, game_front};
ghost use Rattle.pgn_text.specs.Private.Reading.{part_front, kept_found};
ghost use Rattle.pgn_text.specs.Private.Tokens.{found_of, glyph_of, now_of, standing_view};

use crate::lex::class::{ByteClass, is_in, run, run_end};
use crate::lex::movetext::first_from;
use crate::lex::quoted::bytes_at;
use crate::lex::tag::tag_at;
use crate::lex::token::{Token, word_token};
use memchr::memchr;
use std::simd::prelude::*;

/// How a part stands in a text, as far as it matters to the part.
#[derive(Clone, Copy)]
pub(crate) struct Standing {
    /// At the start of the file.
    pub(crate) file_start: bool,
    /// In column one.
    pub(crate) column_one: bool,
}

/// A part and the text after it.
pub(crate) type Found<'a> = (Token<'a>, &'a [u8]);

/// The text after the byte, if the text begins with it.
#[inline(always)]
pub(crate) fn after(byte: u8, text: &[u8]) -> Option<&[u8]>
    ensures { option_map now_of result ≡ rest_after byte text.now }
{
    let Some((first, rest)) = text.split_first() else {
        return None;
    };
    if *first == byte { Some(rest) } else { None }
}

/// Which bytes are closing braces.
#[inline(always)]
fn closing_braces(bytes: u8x32) -> u64
    ensures { AreLanes 32 (is_byte 125) bytes result }
{
    bytes.simd_eq(u8x32::splat(b'}')).to_bitmask()
}

/// The place of the text's first closing brace: most stand among its first 32 bytes.
#[inline(always)]
pub(crate) fn first_brace(text: &[u8]) -> Option<usize>
    ensures { IsFirstByte (is_byte 125) text.now result }
{
    if text.len() < 32 {
        return memchr(b'}', text);
    }
    let place = first_from(closing_braces(bytes_at(text, 0)), 0);
    if place < 32 {
        return Some(place);
    }
    let Some(further) = memchr(b'}', &text[32..]) else {
        return None;
    };
    Some(32 + further)
}

/// The comment whose opening brace stands before the text.
#[inline(always)]
fn brace_comment(text: &[u8]) -> Option<Found<'_>>
    ensures { option_map found_of result ≡ option_map kept_found (brace_front text.now) }
{
    let Some(end) = first_brace(text) else {
        return None;
    };
    Some((Token::Comment(&text[..end]), &text[end + 1..]))
}

/// How many bytes the text's first line has, without its line feed.
#[inline(always)]
fn line_len(text: &[u8]) -> usize
    ensures value { result ≡ length (run_of is_not_line_feed text.now) }
    ensures within { result ≤ length text.now }
{
    match memchr(b'\n', text) {
        Some(len) => len,
        None => text.len(),
    }
}

/// The text's first line without its line feed, and what follows it.
#[inline(always)]
fn line(text: &[u8]) -> (&[u8], &[u8])
    ensures front { result.0.now ≡ run_of is_not_line_feed text.now }
    ensures rest { result.1.now ≡ after_run is_not_line_feed text.now }
{
    let len = line_len(text);
    (&text[..len], &text[len..])
}

/// The comment whose semicolon stands before the text.
#[inline(always)]
fn line_comment(text: &[u8]) -> Found<'_>
    ensures { found_of result
        ≡ kept_found (
          Line (run_of is_not_line_feed text.now),
          after_run is_not_line_feed text.now,
        ) }
{
    let (comment, rest) = line(text);
    (Token::Comment(comment), rest)
}

/// The escape line whose percent sign stands before the text.
#[inline(always)]
fn escape_line(text: &[u8], column_one: bool) -> Option<Found<'_>>
    ensures { option_map found_of result
        ≡ option_map kept_found (if column_one then
        Some (EscapeLine (run_of is_not_line_feed text.now), after_run is_not_line_feed text.now)
        else None) }
{
    if column_one {
        Some((Token::Gap, line(text).1))
    } else {
        None
    }
}

/// The byte order mark whose first byte stands before the text.
#[inline(always)]
fn byte_order_mark(text: &[u8], file_start: bool) -> Option<Found<'_>>
    ensures { option_map found_of result
        ≡ option_map kept_found (if file_start then mark_front text.now else None) }
{
    if file_start && text.starts_with(&[0xBB, 0xBF]) {
        Some((Token::Gap, &text[2..]))
    } else {
        None
    }
}

/// The part of a gap at the front of the text.
#[inline(always)]
pub(crate) fn gap_part(text: &[u8], place: Standing) -> Option<Found<'_>>
    ensures { option_map found_of result
        ≡ option_map kept_found (gap_front (standing_view place) text.now) }
{
    let Some((first, rest)) = text.split_first() else {
        return None;
    };
    match *first {
        9..=13 | b' ' => Some((Token::Gap, rest)),
        b'{' => brace_comment(rest),
        b';' => Some(line_comment(rest)),
        b'%' => escape_line(rest, place.column_one),
        0xEF => byte_order_mark(rest, place.file_start),
        _ => None,
    }
}

/// The tag whose opening bracket stands before the text.
fn tag(text: &[u8]) -> Option<Found<'_>>
    ensures { option_map found_of result ≡ option_map kept_found (tag_front text.now) }
{
    let Some((name, contents, end)) = tag_at(text, 0) else {
        return None;
    };
    Some((Token::Tag { name, contents }, &text[end..]))
}

/// The number that one to three digits write, if it is at most 255.
#[inline(always)]
fn glyph_number(digits: &[u8]) -> Option<u8>
    ensures { result ≡ (if is_glyph digits.now then Some (number_of digits.now) else None) }
{
    let value = |digit: u8| u16::from(digit.saturating_sub(b'0'));
    let number = match digits {
        [last] => value(*last),
        [tens, last] => 10 * value(*tens) + value(*last),
        [hundreds, tens, last] => 100 * value(*hundreds) + 10 * value(*tens) + value(*last),
        _ => return None,
    };
    u8::try_from(number).ok()
}

/// The NAG whose dollar sign stands before the place of the block: its number, and the place
/// after it.
#[inline(always)]
pub(crate) fn glyph_at(block: &[u8], begin: usize) -> Option<(u8, usize)>
    requires { begin ≤ length block.now }
    ensures found { option_map (glyph_of block.now) result
        ≡ option_map kept_found (glyph_front (drop begin block.now)) }
    ensures within { IfSome result (λ found. found.1 ≤ length block.now) }
{
    let end = run_end(ByteClass::Digit, block, begin);
    let Some(number) = glyph_number(&block[begin..end]) else {
        return None;
    };
    Some((number, end))
}

/// The NAG whose dollar sign stands before the text.
#[inline(always)]
fn glyph(text: &[u8]) -> Option<Found<'_>>
    ensures { option_map found_of result ≡ option_map kept_found (glyph_front text.now) }
{
    let Some((number, end)) = glyph_at(text, 0) else {
        return None;
    };
    Some((Token::Glyph(number), &text[end..]))
}

/// The part at the front of the text that only a game can have.
#[inline(always)]
pub(crate) fn game_part(text: &[u8]) -> Option<Found<'_>>
    ensures { option_map found_of result ≡ option_map kept_found (game_front text.now) }
{
    let Some((first, rest)) = text.split_first() else {
        return None;
    };
    match *first {
        byte if is_in(ByteClass::Word, byte) => {
            let (word, rest) = run(ByteClass::Word, text);
            Some((word_token(word), rest))
        }
        b'.' => Some((Token::Dot, rest)),
        b'$' => glyph(rest),
        b'!' | b'?' => {
            let (marks, rest) = run(ByteClass::Mark, text);
            Some((Token::Marks(marks), rest))
        }
        b'(' => Some((Token::Open, rest)),
        b')' => Some((Token::Close, rest)),
        b'*' => Some((Token::Result, rest)),
        b'[' => tag(rest),
        _ => None,
    }
}

/// The part at the front of the text.
#[inline(always)]
pub(crate) fn part(text: &[u8], place: Standing) -> Option<Found<'_>>
    ensures { option_map found_of result
        ≡ option_map kept_found (part_front (standing_view place) text.now) }
{
    match gap_part(text, place) {
        Some(found) => Some(found),
        None => game_part(text),
    }
}
