//! The fields of a record, each in front of bytes.
ghost use Rattle.std.specs.Prelude.{◌≡◌, None, option_map};
ghost use Rattle.std.specs.Cmp.Lexicographic.{slice_cmp};
ghost use Rattle.std.specs.Int.{w32, w64};
ghost use Rattle.std.specs.Ordering.{is_lt, nat_cmp};
ghost use Rattle.pgn_game.specs.Public.PackReading.{Gives, number_at, text_at, name_at, tag_at};
ghost use Rattle.pgn_game.specs.Public.PackReading.{follows, next_tag, after_tags};

use crate::pack::error::RecordError;
use std::cmp::Ordering;

/// A number of four bytes, and what stands after it.
pub(crate) fn u32_at(bytes: &[u8]) -> Result<(u32, &[u8]), RecordError>
    ensures { Gives (λ x. (x.0, x.1.now)) result (number_at w32 bytes.now) }
{
    if bytes.len() < 4 {
        return Err(RecordError::CutShort);
    }
    let (front, rest) = bytes.split_at(4);
    let number = u32::from_be_bytes([front[0], front[1], front[2], front[3]]);
    Ok((number, rest))
}

/// A number of eight bytes, and what stands after it.
pub(crate) fn u64_at(bytes: &[u8]) -> Result<(u64, &[u8]), RecordError>
    ensures { Gives (λ x. (x.0, x.1.now)) result (number_at w64 bytes.now) }
{
    if bytes.len() < 8 {
        return Err(RecordError::CutShort);
    }
    let (front, rest) = bytes.split_at(8);
    let number = u64::from_be_bytes([
        front[0], front[1], front[2], front[3], front[4], front[5], front[6], front[7],
    ]);
    Ok((number, rest))
}

/// A length and so many bytes: these, and what stands after them.
#[inline(always)]
#[tactic(auto, unfolding(crate::specs::Public::PackReading::text_at))]
fn text_at(bytes: &[u8]) -> Result<(&[u8], &[u8]), RecordError>
    ensures { Gives (λ x. (x.0.now, x.1.now)) result (text_at bytes.now) }
{
    let (len, rest) = u32_at(bytes)?;
    let len = len as usize;
    if rest.len() < len {
        return Err(RecordError::CutShort);
    }
    Ok(rest.split_at(len))
}

/// The name in front, where there is one, and what stands after it.
pub(crate) fn name_at(is_named: bool, bytes: &[u8]) -> Result<(Option<&[u8]>, &[u8]), RecordError>
    ensures { Gives (λ x. (option_map (λ name. name.now) x.0, x.1.now)) result
        (name_at is_named bytes.now) }
{
    if !is_named {
        return Ok((None, bytes));
    }
    let (name, rest) = text_at(bytes)?;
    Ok((Some(name), rest))
}

/// The name and the contents of the tag in front, and what stands after it.
pub(crate) fn tag_at(bytes: &[u8]) -> Result<((&[u8], &[u8]), &[u8]), RecordError>
    ensures { Gives (λ x. ((x.0.0.now, x.0.1.now), x.1.now)) result (tag_at bytes.now) }
{
    let (name, rest) = text_at(bytes)?;
    let (contents, rest) = text_at(rest)?;
    Ok(((name, contents), rest))
}

/// Whether a name is smaller than another one, byte by byte: most differ in their first bytes.
#[inline(always)]
fn is_below(name: &[u8], other: &[u8]) -> bool
    ensures { result ≡ is_lt (slice_cmp nat_cmp name.now other.now) }
{
    match (name, other) {
        ([first, ..], [second, ..]) if *first != *second => *first < *second,
        _ => name.cmp(other) == Ordering::Less,
    }
}

/// Whether a tag with the name may stand after one with the last name.
#[inline(always)]
fn follows(last: Option<&[u8]>, name: &[u8]) -> bool
    ensures { result ≡ follows (option_map (λ name. name.now) last.entry) name.now }
{
    match last {
        None => true,
        Some(last) => is_below(last, name),
    }
}

/// The name of the tag in front, which follows the last one, and what stands after the tag.
#[inline(always)]
fn next_tag<'a>(last: Option<&[u8]>, bytes: &'a [u8]) -> Result<(&'a [u8], &'a [u8]), RecordError>
    ensures { Gives (λ x. (x.0.now, x.1.now)) result
        (next_tag (option_map (λ name. name.now) last.entry) bytes.now) }
{
    let (name, contents) = text_at(bytes)?;
    let (_, rest) = text_at(contents)?;
    if !follows(last, name) {
        return Err(RecordError::TagOrder);
    }
    Ok((name, rest))
}

/// What stands after so many tags.
pub(crate) fn after_tags(count: u32, bytes: &[u8]) -> Result<&[u8], RecordError>
    ensures { Gives (λ rest. rest.now) result (after_tags count None bytes.now) }
{
    let mut last = None;
    let mut rest = bytes;
    for _ in 0..count {
        let (name, after) = next_tag(last, rest)?;
        last = Some(name);
        rest = after;
    }
    Ok(rest)
}
