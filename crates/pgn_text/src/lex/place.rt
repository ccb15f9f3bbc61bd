//! Parts at places of a block.

ghost use Rattle.std.specs.Prelude.{◌≡◌, ◌<◌, ◌≤◌, Bool, length, take, drop, get_or, MatchOption};
ghost use Rattle.pgn_text.specs.Public.Parts.{is_column_one as is_in_column_one, standing_of};
ghost use Rattle.pgn_text.specs.Private.Reading.{KeptComment, KeptNumber};
ghost use Rattle.pgn_text.specs.Private.Tokens.{standing_view, token_of};
ghost use Rattle.pgn_text.specs.Private.Walk.{KeptAt, NothingAt, GapPartAt, NoGapPartAt};
ghost use Rattle.pgn_text.specs.Private.Walk.{LongestGapTo};

use crate::lex::class::{ByteClass, is_in, run_end};
use crate::lex::scan::{Found, Standing, first_brace, gap_part, part};
use crate::lex::token::Token;

const BYTE_ORDER_MARK: [u8; 3] = [0xEF, 0xBB, 0xBF];

/// Whether the place after these bytes of a block is in column one.
#[inline(always)]
fn is_column_one(before: &[u8], file_start: bool) -> bool
    ensures { result ≡ is_in_column_one file_start before.now }
{
    before.last() == Some(&b'\n')
        || (file_start && (before.is_empty() || before == BYTE_ORDER_MARK.as_slice()))
}

/// How a part stands at the place.
#[inline(always)]
#[tactic(auto, using(crate::proofs::Runs::is_empty_length))]
fn standing_at(block: &[u8], at: usize, file_start: bool) -> Standing
    requires { at ≤ length block.now }
    ensures { standing_view result ≡ standing_of file_start (take at block.now) }
{
    let before = &block[..at];
    Standing {
        file_start: file_start && before.is_empty(),
        column_one: is_column_one(before, file_start),
    }
}

/// The place after the move number at the place of the block, if one stands there.
#[inline(always)]
pub(crate) fn number_at(block: &[u8], at: usize) -> Option<usize>
    requires { at < length block.now }
    ensures { MatchOption result (Unit {0}) (λ end. (file_start : Bool)
        → KeptAt file_start block.now at KeptNumber end) }
{
    if !is_in(ByteClass::Digit, block[at]) {
        return None;
    }
    let end = run_end(ByteClass::Digit, block, at + 1);
    if end < block.len() && is_in(ByteClass::Word, block[end]) {
        return None;
    }
    Some(end)
}

/// The bytes of the brace comment at the place of the block, and the place after it.
#[inline(always)]
pub(crate) fn comment_at(block: &[u8], at: usize) -> Option<(&[u8], usize)>
    requires place { at < length block.now }
    requires brace { get_or block.now at 0 ≡ 123 }
    ensures { (file_start : Bool)
        → MatchOption result (NothingAt file_start block.now at) (λ found.
        KeptAt file_start block.now at (KeptComment found.0.now) found.1) }
{
    let Some(len) = first_brace(&block[at + 1..]) else {
        return None;
    };
    let end = at + 1 + len;
    Some((&block[at + 1..end], end + 1))
}

/// The part at the place of the block, and the place after it.
pub(crate) fn part_at(block: &[u8], at: usize, file_start: bool) -> Option<(Token<'_>, usize)>
    requires { at ≤ length block.now }
    ensures { MatchOption result (NothingAt file_start block.now at) (λ found.
        KeptAt file_start block.now at (token_of found.0) found.1) }
{
    let Some((token, rest)) = part(&block[at..], standing_at(block, at, file_start)) else {
        return None;
    };
    Some((token, block.len() - rest.len()))
}

/// The place after the part of a gap at the place of the block.
#[inline(always)]
fn gap_part_at(block: &[u8], at: usize, file_start: bool) -> Option<usize>
    requires { at ≤ length block.now }
    ensures { MatchOption result (NoGapPartAt file_start block.now at) (λ end.
        GapPartAt file_start block.now at end) }
{
    if at < block.len() && is_in(ByteClass::White, block[at]) {
        return Some(at + 1);
    }
    let Some((_, rest)) = gap_part(&block[at..], standing_at(block, at, file_start)) else {
        return None;
    };
    Some(block.len() - rest.len())
}

/// The place after the longest gap at the place of the block.
pub(crate) fn gap_end(block: &[u8], begin: usize, file_start: bool) -> usize
    requires { begin ≤ length block.now }
    ensures { LongestGapTo file_start block.now begin result }
{
    let mut at = begin;
    while let Some(end) = gap_part_at(block, at, file_start) {
        at = end;
    }
    at
}
