//! Tags at places of a block.

ghost use Rattle.std.specs.Prelude.{◌≡◌, ◌+◌, ◌<◌, ◌≤◌, length, drop, option_map, IfSome, Some};
ghost use Rattle.std.specs.Prelude.{None, MatchBool};
ghost use Rattle.pgn_text.specs.Private.Reading.{kept_found, rest_after, tag_front};
ghost use Rattle.pgn_text.specs.Private.Tokens.{tag_of};

use crate::lex::class::{ByteClass, run_end};
use crate::lex::quoted::contents_end;

/// Whether the byte stands at the place of the block.
#[inline(always)]
fn stands(byte: u8, block: &[u8], at: usize) -> bool
    requires { at ≤ length block.now }
    ensures { MatchBool result ((at < length block.now)
        × (rest_after byte (drop at block.now) ≡ Some (drop (at + 1) block.now)))
        (rest_after byte (drop at block.now) ≡ None) }
{
    at < block.len() && block[at] == byte
}

/// The tag whose opening bracket stands before the place of the block: its name, the contents of
/// its string, and the place after it.
#[inline(always)]
pub(crate) fn tag_at(block: &[u8], begin: usize) -> Option<(&[u8], &[u8], usize)>
    requires { begin ≤ length block.now }
    ensures found { option_map (tag_of block.now) result
        ≡ option_map kept_found (tag_front (drop begin block.now)) }
    ensures within { IfSome result (λ found. found.2 ≤ length block.now) }
{
    let start = run_end(ByteClass::White, block, begin);
    let end = run_end(ByteClass::Name, block, start);
    if start == end {
        return None;
    }
    let opening = run_end(ByteClass::White, block, end);
    if !stands(b'"', block, opening) {
        return None;
    }
    let Some(closing) = contents_end(block, opening + 1) else {
        return None;
    };
    if !stands(b'"', block, closing) {
        return None;
    }
    let last = run_end(ByteClass::White, block, closing + 1);
    if !stands(b']', block, last) {
        return None;
    }
    Some((&block[start..end], &block[opening + 1..closing], last + 1))
}
