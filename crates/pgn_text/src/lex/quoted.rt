//! The contents of strings.

ghost use Rattle.std.specs.Prelude.{◌≡◌, ◌↔◌, ◌≤◌, ◌<◌, ◌+◌, ℕ, not, List, length, get_or, IsTrue};
ghost use Rattle.pgn_text.specs.Shared.Lanes.{AreLanes};
ghost use Rattle.pgn_text.specs.Private.Reading.{is_single};
ghost use Rattle.pgn_text.specs.Private.Tokens.{EndsContents, RunTo};
ghost use Rattle.pgn_text.specs.Public.Strings.{Sign, IsContents, HasValue};

use crate::lex::class::{ByteClass, is_plain, run_end};
use crate::lex::movetext::first_from;
use crate::lex::unquoted::Value;
use std::simd::prelude::*;

/// Which bytes do not stand for themselves in a string.
#[inline(always)]
fn stops(bytes: u8x32) -> u64
    ensures { AreLanes 32 (λ b. not (is_single b)) bytes result }
{
    (bytes.simd_eq(u8x32::splat(b'"'))
        | bytes.simd_eq(u8x32::splat(b'\\'))
        | bytes.simd_lt(u8x32::splat(9))
        | (bytes - u8x32::splat(10)).simd_lt(u8x32::splat(22))
        | bytes.simd_eq(u8x32::splat(127))).to_bitmask()
}

/// 32 bytes of the block.
#[inline(always)]
pub(crate) fn bytes_at(block: &[u8], at: usize) -> u8x32
    requires { at + 32 ≤ length block.now }
    ensures { (i : ℕ) → i < 32 → get_or result i 0 ≡ get_or block.now (at + i) 0 }
{
    u8x32::from_slice(&block[at..])
}

/// The first place from there on whose byte does not stand for itself in a string, or the end.
#[inline(always)]
fn singles_end(block: &[u8], from: usize) -> usize
    requires { from ≤ length block.now }
    ensures { RunTo is_single block.now from result }
{
    if block.len() - from < 32 {
        return run_end(ByteClass::Single, block, from);
    }
    let place = first_from(stops(bytes_at(block, from)), 0);
    if place < 32 {
        return from + place;
    }
    run_end(ByteClass::Single, block, from + 32)
}

/// The place after the longest contents of a string at the place of the block. There is none where
/// the block ends, or a byte comes that no string has, directly after a backslash that stands by
/// itself.
#[inline(always)]
pub(crate) fn contents_end(block: &[u8], begin: usize) -> Option<usize>
    requires { begin ≤ length block.now }
    ensures { EndsContents block.now begin result }
{
    let mut at = singles_end(block, begin);
    while at < block.len() && block[at] == b'\\' {
        if at + 1 == block.len() || !is_plain(block[at + 1]) {
            return None;
        }
        at = singles_end(block, at + 2);
    }
    Some(at)
}

/// Whether the bytes are the contents of a string: plain bytes other than the quote and the
/// backslash, and pairs of a backslash and a plain byte.
pub fn is_contents(bytes: &[u8]) -> bool
    ensures { IsTrue result ↔ IsContents bytes.now }
{
    match contents_end(bytes, 0) {
        Some(end) => end == bytes.len(),
        None => false,
    }
}

/// The bytes of the value of a string with these contents: a backslash before a quote or a
/// backslash is dropped, before another byte it stays.
pub fn value<'a>(contents: &'a [u8]) -> Value<'a>
    requires { IsContents contents.now }
    ensures { (signs : List Sign) × HasValue contents.now result signs }
{
    Value::new(contents)
}
