//! Plain movetext: moves, move numbers with a period, and white space, one after the other, 64
//! bytes at once.

ghost use Rattle.std.specs.Prelude.{MatchOption, OnOk, IfOk, ◌++◌, map, ◌≡◌, ◌<◌, ◌≤◌, ◌+◌, ◌==◌};
ghost use Rattle.std.specs.Prelude.{◌||◌, suc, true, false, ℕ, List, length, get_or};
ghost use Rattle.pgn_text.specs.Public.Bytes.{is_digit, is_letter};
ghost use Rattle.pgn_text.specs.Public.Elements.{item_of};
ghost use Rattle.pgn_text.specs.Public.Games.{Item};
ghost use Rattle.pgn_text.specs.Private.Movetext.{PlainTo};
ghost use Rattle.pgn_text.specs.Private.Masks.{is_gap, is_move_sign, AreBegins};
ghost use Rattle.pgn_text.specs.Private.Masks.{HaveEnds, IsNextMove, Sweeps};
ghost use Rattle.pgn_text.specs.Shared.Lanes.{has_bit, AreLanes};

use crate::game::Element;
use crate::game::game_builder::push_element;
use std::alloc::AllocError;
use std::simd::prelude::*;

/// Which bytes are letters.
#[inline(always)]
fn letters(bytes: u8x64) -> u64
    ensures { AreLanes 64 is_letter bytes result }
{
    ((bytes | u8x64::splat(0x20)) - u8x64::splat(b'a'))
        .simd_lt(u8x64::splat(26))
        .to_bitmask()
}

/// Which bytes are digits.
#[inline(always)]
fn digits(bytes: u8x64) -> u64
    ensures { AreLanes 64 is_digit bytes result }
{
    (bytes - u8x64::splat(b'0'))
        .simd_lt(u8x64::splat(10))
        .to_bitmask()
}

/// Which bytes are white space or periods.
#[inline(always)]
fn gaps(bytes: u8x64) -> u64
    ensures { AreLanes 64 is_gap bytes result }
{
    (bytes.simd_eq(u8x64::splat(b' '))
        | bytes.simd_eq(u8x64::splat(b'.'))
        | (bytes - u8x64::splat(9)).simd_lt(u8x64::splat(5))).to_bitmask()
}

/// Which bytes are signs of the words of moves. Words with other signs are read by themselves.
#[inline(always)]
fn signs(bytes: u8x64) -> u64
    ensures { AreLanes 64 is_move_sign bytes result }
{
    // (a minus and an equals sign, and a plus and a hash, differ in one bit)
    ((bytes | u8x64::splat(16)).simd_eq(u8x64::splat(b'='))
        | (bytes | u8x64::splat(8)).simd_eq(u8x64::splat(b'+'))).to_bitmask()
}

/// The bytes with which the words begin.
#[inline(always)]
fn begins(words: u64) -> u64
    ensures { AreBegins words result }
{
    words & !(words << 1)
}

/// The digits of the words that begin with one, up to another byte: a carry runs through them. That
/// they are digits is all that is needed.
#[inline(always)]
fn numbers(digits: u64, begins: u64) -> u64
    ensures { (i : ℕ) → has_bit result i ≡ true → has_bit digits i ≡ true }
{
    digits & !digits.wrapping_add(begins & digits)
}

/// The word's bits below the place.
#[inline(always)]
fn below(word: u64, place: u32) -> u64
    requires { place < 64 }
    ensures low { (i : ℕ) → i < place → has_bit result i ≡ has_bit word i }
    ensures high { (i : ℕ) → place ≤ i → i < 64 → has_bit result i ≡ false }
{
    word & !(u64::MAX << place)
}

/// The bytes of no plain movetext: those of no class, those with which a word begins that is
/// neither a move nor a number, and those after a number's byte that are neither a number's nor a
/// gap.
#[inline(always)]
fn strange(words: u64, gaps: u64, begins: u64, letters: u64, numbers: u64) -> u64
    ensures each { (i : ℕ) → i < 64 → has_bit result i ≡ false
        → (has_bit words i || has_bit gaps i) ≡ true }
    ensures begins { (i : ℕ) → i < 64 → has_bit result i ≡ false → has_bit begins i ≡ true
        → (has_bit letters i || has_bit numbers i) ≡ true }
    ensures goes_on { (i : ℕ) → suc i < 64 → has_bit result (suc i) ≡ false
        → has_bit numbers i ≡ true → (has_bit numbers (suc i) || has_bit gaps (suc i)) ≡ true }
{
    !(words | gaps) | (begins & !(letters | numbers)) | ((numbers << 1) & !(numbers | gaps))
}

/// How many bytes from the first on are not strange and have a gap as their last.
#[inline(always)]
fn plain_len(gaps: u64, strange: u64) -> usize
    ensures short { result < 64 }
    ensures plain { (i : ℕ) → i < result → has_bit strange i ≡ false }
    ensures ends { (i : ℕ) → result ≡ suc i → has_bit gaps i ≡ true }
{
    let stops = strange | 1 << 63;
    let ends = gaps & !stops & (stops - 1);
    64 - ends.leading_zeros() as usize
}

/// 64 bytes of the block.
#[inline(always)]
fn bytes_at(block: &[u8], at: usize) -> u8x64
    requires { at + 64 ≤ length block.now }
    ensures { (i : ℕ) → i < 64 → get_or result i 0 ≡ get_or block.now (at + i) 0 }
{
    u8x64::from_slice(&block[at..])
}

/// What 64 bytes of a block show: where words stand, which of them are moves of the plain movetext
/// at the front, and how long it is.
#[derive(Clone, Copy)]
pub(crate) struct Swept {
    pub(crate) words: u64,
    pub(crate) moves: u64,
    pub(crate) len: usize,
}

/// Looks at 64 bytes of the block at once, past so many of them: none, or the 64 are the last.
#[inline(always)]
fn sweep_past(block: &[u8], base: usize, skip: usize) -> Swept
    requires within { (base + 64 ≤ length block.now) × (skip < 64) }
    requires last { 0 < skip → base + 64 ≡ length block.now }
    ensures { (numbers : ℕ)
        × Sweeps block.now (base + skip) result.words result.moves numbers result.len }
{
    let bytes = bytes_at(block, base);
    let letter_bits = letters(bytes) >> skip;
    let digit_bits = digits(bytes) >> skip;
    let word_bits = letter_bits | digit_bits | (signs(bytes) >> skip);
    let gap_bits = gaps(bytes) >> skip;
    let begin_bits = begins(word_bits);
    let number_bits = numbers(digit_bits, begin_bits);
    let strange_bits = strange(word_bits, gap_bits, begin_bits, letter_bits, number_bits);
    let len = plain_len(gap_bits, strange_bits);
    let moves = below(begin_bits & letter_bits, len as u32);
    Swept {
        words: word_bits,
        moves,
        len,
    }
}

/// Looks at the bytes of the block from the place on, fewer than 64.
#[inline(never)]
fn sweep_last(block: &[u8], at: usize) -> Swept
    requires { (at < length block.now) × (64 ≤ length block.now) × (length block.now < at + 64) }
    ensures { (numbers : ℕ) × Sweeps block.now at result.words result.moves numbers result.len }
{
    let base = block.len() - 64;
    sweep_past(block, base, at - base)
}

/// Looks at 64 bytes of the block at once: those from the place on, or where fewer are left, the
/// last.
#[inline(always)]
pub(crate) fn sweep(block: &[u8], at: usize) -> Swept
    requires { (at < length block.now) × (64 ≤ length block.now) }
    ensures { (numbers : ℕ) × Sweeps block.now at result.words result.moves numbers result.len }
{
    if block.len() - at < 64 {
        return sweep_last(block, at);
    }
    sweep_past(block, at, 0)
}

/// The place of the word's first bit from the given one on, or 64 where there is none.
#[inline(always)]
pub(crate) fn first_from(word: u64, from: usize) -> usize
    requires { from < 64 }
    ensures within { result ≤ 64 }
    ensures found { result < 64 → (from ≤ result) × (has_bit word result ≡ true) }
    ensures before { (i : ℕ) → from ≤ i → i < result → i < 64 → has_bit word i ≡ false }
{
    (word & (u64::MAX << from)).trailing_zeros() as usize
}

/// The first of the moves that are left, from its first byte to the place after it.
#[inline(always)]
fn first_move(words: u64, left: u64) -> (usize, usize)
    requires some { 0 < left }
    requires words { (i : ℕ) → i < 64 → has_bit left i ≡ true → has_bit words i ≡ true }
    requires ends { HaveEnds words left }
    ensures { IsNextMove words left 0 result.0 result.1 }
{
    // (below the move, all bits of `left - 1` are set)
    let end = first_from(!(words | (left - 1)), 0);
    (first_from(left, 0), end)
}

/// Adds the moves that the sweep shows.
#[inline(always)]
fn push_moves<'a>(
    elements: &mut Vec<Element<'a>>,
    block: &'a [u8],
    at: usize,
    swept: Swept,
) -> Result<(), AllocError>
    requires { (numbers : ℕ) × Sweeps block.now at swept.words swept.moves numbers swept.len }
    ensures { OnOk result ((moves : List Item) × PlainTo block.now at moves (at + swept.len)
        × (map item_of elements.new.items ≡ map item_of elements.old.items ++ moves)) }
{
    let mut left = swept.moves;
    while left != 0 {
        let (begin, end) = first_move(swept.words, left);
        push_element(elements, Element::Move(&block[at + begin..at + end]))?;
        left &= left - 1;
    }
    Ok(())
}

/// A sweep that shows fewer plain bytes has mostly come to the end of plain movetext: a word that
/// goes on after its 64 bytes is shorter.
const MOSTLY_PLAIN: usize = 32;

/// A place up to which only plain movetext stands from the given one on; more of it may follow.
#[inline(never)]
pub(crate) fn plain_end(block: &[u8], from: usize) -> usize
    requires { from ≤ length block.now }
    ensures { (moves : List Item) × PlainTo block.now from moves result }
{
    if block.len() < 64 {
        return from;
    }
    let mut at = from;
    while at < block.len() {
        let swept = sweep(block, at);
        at += swept.len;
        if swept.len < MOSTLY_PLAIN {
            return at;
        }
    }
    at
}

/// Adds the moves of plain movetext from the place of the block on, and answers the place up to
/// which it stands; more of it may follow.
#[inline(never)]
pub(crate) fn push_plain<'a>(
    elements: &mut Vec<Element<'a>>,
    block: &'a [u8],
    from: usize,
) -> Result<usize, AllocError>
    requires { from ≤ length block.now }
    ensures { IfOk result (λ end. (moves : List Item) × PlainTo block.now from moves end
        × (map item_of elements.new.items ≡ map item_of elements.old.items ++ moves)) }
{
    if block.len() < 64 {
        return Ok(from);
    }
    let mut at = from;
    while at < block.len() {
        let swept = sweep(block, at);
        push_moves(elements, block, at, swept)?;
        at += swept.len;
        if swept.len < MOSTLY_PLAIN {
            return Ok(at);
        }
    }
    Ok(at)
}
