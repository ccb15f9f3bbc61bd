//! The value of a string.

ghost use Rattle.std.specs.Prelude.{◌≡◌, List, ℕ};
ghost use Rattle.std.specs.Iterator.{YieldsFirst, item_count};
ghost use Rattle.pgn_text.specs.Shared.StringTexts.{value_of};

use std::marker::Model;

/// The bytes of the value of a string, in their order.
#[derive(Drop)]
pub struct Value<'a> {
    rest: &'a [u8],
}

impl<'a> Model for Value<'a> {
    ghost Value = { List ℕ };

    ghost view = { λ value. value_of value.rest.now };
}

impl<'a> Value<'a> {
    pub(crate) fn new(rest: &'a [u8]) -> Self
        ensures { result ≡ value_of rest.now }
    {
        Value { rest }
    }
}

impl<'a> Iterator for Value<'a> {
    type Item = u8;

    ghost next_gives = { YieldsFirst (λ bytes. bytes) };

    ghost remaining = { item_count (λ bytes. bytes) };

    fn next(&mut self) -> Option<u8> {
        let (first, rest) = self.rest.split_first()?;
        if *first == b'\\'
            && let Some((second, after)) = rest.split_first()
            && (*second == b'"' || *second == b'\\')
        {
            self.rest = after;
            return Some(*second);
        }
        self.rest = rest;
        Some(*first)
    }
}
