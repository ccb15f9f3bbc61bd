//! Comments of fewer than 64 bytes, looked at at once: whether they are written as they are, and
//! where their blanks stand.
ghost use Rattle.std.specs.Prelude.{◌≡◌, ◌<◌, ◌≤◌, ◌==◌, ◌&&◌, ◌||◌, ℕ, suc, true, false};
ghost use Rattle.std.specs.Prelude.{length, get_or, IfSome};
ghost use Rattle.pgn_text.specs.Shared.Lanes.{has_bit, AreLanes};
ghost use Rattle.pgn_game.specs.Private.EvenComments.{is_odd, is_even, AreBlanks, IsLastBit};

use std::simd::prelude::*;

/// Where the byte stands.
#[inline(always)]
fn places_of<const N: usize>(bytes: Simd<u8, N>, byte: u8) -> u64
    requires { N ≤ 64 }
    ensures lanes { AreLanes N (λ b. b == byte) bytes.entry result }
    ensures past { (i : ℕ) → N ≤ i → i < 64 → has_bit result i ≡ false }
{
    bytes.simd_eq(Simd::splat(byte)).to_bitmask()
}

/// Where closing braces stand, and white space other than blanks.
#[inline(always)]
fn odd_places<const N: usize>(bytes: Simd<u8, N>) -> u64
    requires { N ≤ 64 }
    ensures { AreLanes N is_odd bytes.entry result }
{
    (bytes.simd_eq(Simd::splat(b'}'))
        | (bytes - Simd::splat(9)).simd_lt(Simd::splat(5))).to_bitmask()
}

/// The places of bytes that may not stand where they do in words which are written as they are,
/// with one blank between each two.
#[inline(always)]
fn strays(odd: u64, blanks: u64, percents: u64, brackets: u64, letters: u64) -> u64
    ensures first { has_bit result 0 ≡ false → (has_bit odd 0 ≡ false)
        × ((has_bit blanks 0 || has_bit percents 0) ≡ false) }
    ensures next { (i : ℕ) → suc i < 64 → has_bit result (suc i) ≡ false
        → (has_bit odd (suc i) ≡ false)
        × ((has_bit blanks i && (has_bit blanks (suc i) || has_bit percents (suc i))) ≡ false)
        × ((has_bit brackets i && has_bit letters (suc i)) ≡ false) }
{
    let begins = (blanks << 1) | 1;
    odd | (begins & (blanks | percents)) | ((brackets << 1) & letters)
}

/// The text, with percent signs after it.
#[inline(always)]
fn padded<const N: usize>(text: &[u8]) -> Simd<u8, N>
    requires { length text.now < N }
    ensures { (i : ℕ) → i < N → get_or result i 0 ≡ get_or text.now i 37 }
{
    let mut bytes = [b'%'; N];
    bytes[..text.len()].copy_from_slice(text);
    Simd::from_array(bytes)
}

/// The places of the blanks of a text of fewer than N bytes, if it is words that are written as
/// they are, with one blank between each two.
#[inline(always)]
fn blanks_within<const N: usize>(text: &[u8]) -> Option<u64>
    requires few { length text.now < N }
    requires lanes { N ≤ 64 }
    ensures { IfSome result (λ blanks. (is_even text.now ≡ true) × AreBlanks text.now blanks) }
{
    let bytes = padded::<N>(text);
    let blanks = places_of(bytes, b' ');
    let found = strays(
        odd_places(bytes),
        blanks,
        places_of(bytes, b'%'),
        places_of(bytes, b'['),
        places_of(bytes, b'E'),
    );
    if found != 0 {
        return None;
    }
    Some(blanks)
}

/// The places of the blanks of a text, if it is words that are written as they are, with one blank
/// between each two. Most comments are within 32 bytes.
#[inline(always)]
pub(crate) fn blanks_of(text: &[u8]) -> Option<u64>
    requires { length text.now < 64 }
    ensures { IfSome result (λ blanks. (is_even text.now ≡ true) × AreBlanks text.now blanks) }
{
    if text.len() < 32 {
        return blanks_within::<32>(text);
    }
    blanks_within::<64>(text)
}

/// The word's bits before the place.
#[inline(always)]
fn bits_before(word: u64, end: usize) -> u64
    ensures low { (i : ℕ) → i < end → i < 64 → has_bit result i ≡ has_bit word i }
    ensures high { (i : ℕ) → end ≤ i → i < 64 → has_bit result i ≡ false }
{
    if end < 64 {
        word & !(u64::MAX << end)
    } else {
        word
    }
}

/// The last bit of the word before the place, if it has one there.
#[inline(always)]
pub(crate) fn last_bit(word: u64, end: usize) -> Option<usize>
    ensures { IsLastBit word end result }
{
    let bits = bits_before(word, end);
    if bits == 0 {
        return None;
    }
    Some(63 - bits.leading_zeros() as usize)
}
