//! Where in a block an element or a tag of a game stands.

ghost use Rattle.std.specs.Prelude.{◌≡◌, ◌≤◌, length, is_some};
ghost use Rattle.pgn_text.specs.Public.PartPlaces.{IsElementPlace, IsTagPlace};
ghost use Rattle.pgn_text.specs.Private.Reading.{items_of_kept, named_kept};
ghost use Rattle.pgn_text.specs.Private.Tokens.{token_of};

use crate::lex::place::part_at;
use crate::lex::token::Token;

/// How many elements the part gives: a run of `!` and `?` gives one for each two, and one for a
/// last mark alone.
fn element_count(token: Token<'_>) -> usize
    ensures { result ≡ length (items_of_kept (token_of token.entry)) }
{
    match token {
        Token::Comment(_) | Token::Move(_) | Token::Glyph(_) | Token::Open | Token::Close => 1,
        Token::Marks(marks) => marks.len() / 2 + marks.len() % 2,
        _ => 0,
    }
}

/// The place in the block of the element of that index, in the game that begins at the place.
pub fn element_place(block: &[u8], begin: usize, file_start: bool, index: usize) -> usize
    requires { begin ≤ length block.now }
    ensures place { IsElementPlace file_start block.now begin index result }
    ensures within { result ≤ length block.now }
{
    let mut at = begin;
    let mut left = index;
    while let Some((token, end)) = part_at(block, at, file_start) {
        let count = element_count(token);
        if left < count {
            return at;
        }
        left -= count;
        at = end;
    }
    at
}

/// Whether the part is a tag of the name.
fn is_tag_of(token: Token<'_>, name: &[u8]) -> bool
    ensures { result ≡ is_some (named_kept name.now (token_of token.entry)) }
{
    match token {
        Token::Tag { name: own, .. } => own == name,
        _ => false,
    }
}

/// The place in the block of the first tag of the name, in the game that begins at the place.
pub fn tag_place(block: &[u8], begin: usize, file_start: bool, name: &[u8]) -> usize
    requires { begin ≤ length block.now }
    ensures place { IsTagPlace file_start block.now begin name.now result }
    ensures within { result ≤ length block.now }
{
    let mut at = begin;
    while let Some((token, end)) = part_at(block, at, file_start) {
        if is_tag_of(token, name) {
            return at;
        }
        at = end;
    }
    at
}
