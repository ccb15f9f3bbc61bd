//! A game's tags and elements while it is read.

ghost use Rattle.std.specs.Prelude.{◌≡◌, ◌<◌, ◌≤◌, ◌++◌, ◌∷◌, ℕ, List, [], None, IfOk, OnOk};
ghost use Rattle.std.specs.Prelude.{length, map, vec_capacity, vec_len};
ghost use Rattle.std.specs.Option.{option_or};
ghost use Rattle.pgn_text.specs.Public.Elements.{item_of};
ghost use Rattle.pgn_text.specs.Private.Movetext.{PlainTo};
ghost use Rattle.pgn_text.specs.Private.TagOrder.{AreOrdered, tag_at};
ghost use Rattle.pgn_text.specs.Public.Games.{Item, single_mark as glyph_of_mark};
ghost use Rattle.pgn_text.specs.Public.Games.{double_mark as glyph_of_two, glyphs_of_marks};
ghost use Rattle.pgn_text.specs.Private.Reading.{KeptTag, items_of_kept, named_kept};
ghost use Rattle.pgn_text.specs.Private.Tokens.{token_of};

use crate::game::Element;
use crate::lex::movetext::push_plain;
use crate::lex::token::Token;
use std::alloc::{AllocError, Global};
use std::collections::BTreeMap;

/// The tags and elements of the parts that were read.
#[derive(Drop)]
pub(crate) struct GameBuilder<'a> {
    pub(crate) tags: BTreeMap<&'a [u8], &'a [u8]>,
    pub(crate) elements: Vec<Element<'a>>,
}

/// Keeps the contents under the name, unless the name has some.
fn keep_first<'a>(
    tags: &mut BTreeMap<&'a [u8], &'a [u8]>,
    name: &'a [u8],
    contents: &'a [u8],
) -> Result<(), AllocError>
    ensures ordered { OnOk result (AreOrdered tags.old → AreOrdered tags.new) }
    ensures first { OnOk result ((wanted : List ℕ)
        → tag_at tags.new wanted
        ≡ option_or (tag_at tags.old wanted) (named_kept wanted (KeptTag name.now contents.now))) }
{
    // (few games have a name twice, so that one search is enough for most tags)
    if let Some(first) = tags.insert(name, contents)? {
        tags.insert(name, first)?;
    }
    Ok(())
}

/// The NAG of one mark.
fn single_mark(mark: u8) -> u8
    ensures { result ≡ glyph_of_mark mark }
{
    if mark == b'!' { 1 } else { 2 }
}

/// The NAG of two marks.
fn double_mark(first: u8, second: u8) -> u8
    ensures { result ≡ glyph_of_two first second }
{
    match (first == b'!', second == b'!') {
        (true, true) => 3,
        (true, false) => 5,
        (false, true) => 6,
        (false, false) => 4,
    }
}

/// Makes room for one more element.
#[cold]
fn make_room(elements: &mut Vec<Element<'_>>) -> Result<(), AllocError>
    ensures items { elements.new.items ≡ elements.old.items }
    ensures room { OnOk result (vec_len elements.new < vec_capacity elements.new) }
{
    elements.reserve(1)
}

/// Adds an element, for which there is mostly room (`Vec::push` is too large to stand in each
/// caller).
#[inline(always)]
pub(crate) fn push_element<'a>(
    elements: &mut Vec<Element<'a>>,
    element: Element<'a>,
) -> Result<(), AllocError>
    ensures { OnOk result (elements.new.items ≡ elements.old.items ++ element.entry ∷ []) }
{
    if elements.len() >= elements.capacity() {
        make_room(elements)?;
    }
    elements.push_reserved(element);
    Ok(())
}

/// Adds the NAGs of a run of marks, which is cut into pairs from the left.
fn push_marks<'a>(elements: &mut Vec<Element<'a>>, marks: &[u8]) -> Result<(), AllocError>
    ensures { OnOk result (map item_of elements.new.items
        ≡ map item_of elements.old.items ++ glyphs_of_marks marks.now) }
{
    let mut rest = marks;
    while let [first, second, after @ ..] = rest {
        push_element(elements, Element::Glyph(double_mark(*first, *second)))?;
        rest = after;
    }
    if let [mark] = rest {
        push_element(elements, Element::Glyph(single_mark(*mark)))?;
    }
    Ok(())
}

/// Adds the elements of a part.
#[inline(always)]
fn push_elements<'a>(elements: &mut Vec<Element<'a>>, token: Token<'a>) -> Result<(), AllocError>
    ensures { OnOk result (map item_of elements.new.items
        ≡ map item_of elements.old.items ++ items_of_kept (token_of token.entry)) }
{
    match token {
        Token::Comment(text) => push_element(elements, Element::Comment(text))?,
        Token::Move(word) => push_element(elements, Element::Move(word))?,
        Token::Glyph(number) => push_element(elements, Element::Glyph(number))?,
        Token::Marks(marks) => push_marks(elements, marks)?,
        Token::Open => push_element(elements, Element::Open)?,
        Token::Close => push_element(elements, Element::Close)?,
        _ => {}
    }
    Ok(())
}

/// Keeps a tag, unless there is one of its name.
#[inline(always)]
fn keep_tag<'a>(tags: &mut BTreeMap<&'a [u8], &'a [u8]>, token: Token<'a>) -> Result<(), AllocError>
    ensures ordered { OnOk result (AreOrdered tags.old → AreOrdered tags.new) }
    ensures first { OnOk result ((wanted : List ℕ)
        → tag_at tags.new wanted
        ≡ option_or (tag_at tags.old wanted) (named_kept wanted (token_of token.entry))) }
{
    match token {
        Token::Tag { name, contents } => keep_first(tags, name, contents),
        _ => Ok(()),
    }
}

/// The elements that a game builder has room for at first: as many as most games have, with their
/// comments and variations, so that their room does not grow.
const ELEMENTS: usize = 512;

impl<'a> GameBuilder<'a> {
    /// Without tags and elements.
    pub(crate) fn new(alloc: Global) -> Result<Self, AllocError>
        ensures ordered { IfOk result (λ game_builder. AreOrdered game_builder.tags) }
        ensures tags { IfOk result (λ game_builder. (wanted : List ℕ)
            → tag_at game_builder.tags wanted ≡ None) }
        ensures elements { IfOk result (λ game_builder. game_builder.elements.items ≡ []) }
    {
        Ok(GameBuilder {
            tags: BTreeMap::new(alloc),
            elements: Vec::with_capacity(alloc, ELEMENTS)?,
        })
    }

    /// Adds what a part gives.
    #[inline(always)]
    pub(crate) fn add(&mut self, token: Token<'a>) -> Result<(), AllocError>
        ensures ordered { OnOk result (AreOrdered self.old.tags → AreOrdered self.new.tags) }
        ensures tags { OnOk result ((wanted : List ℕ)
            → tag_at self.new.tags wanted
            ≡ option_or (tag_at self.old.tags wanted) (named_kept wanted (token_of token.entry))) }
        ensures elements { OnOk result (map item_of self.new.elements.items
            ≡ map item_of self.old.elements.items ++ items_of_kept (token_of token.entry)) }
    {
        keep_tag(&mut self.tags, token)?;
        push_elements(&mut self.elements, token)
    }

    /// Adds the moves of plain movetext from the place of the block on, and answers the place up to
    /// which it stands; more of it may follow.
    pub(crate) fn add_plain(&mut self, block: &'a [u8], at: usize) -> Result<usize, AllocError>
        requires { at ≤ length block.now }
        ensures tags { self.new.tags ≡ self.old.tags }
        ensures elements { IfOk result (λ end. (moves : List Item) × PlainTo block.now at moves end
            × (map item_of self.new.elements.items
            ≡ map item_of self.old.elements.items ++ moves)) }
    {
        push_plain(&mut self.elements, block, at)
    }
}
