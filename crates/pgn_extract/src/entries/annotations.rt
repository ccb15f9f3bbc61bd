//! The annotations of a game, by the ply after which they stand.
ghost use Rattle.std.specs.Prelude.{◌≡◌, ◌≤◌, ◌<◌, ◌+◌, ◌∷◌, ◌++◌, [], ℕ, List, OnOk, IfOk, map};
ghost use Rattle.std.specs.Prelude.{drop, get_or, flat_map, decimal, false};
ghost use Rattle.pgn_text.specs.Public.Bytes.{is_white as is_white_byte};
ghost use Rattle.pgn_text.specs.Public.Elements.{item_of};
ghost use Rattle.pgn_text.specs.Public.Games.{Item};
ghost use Rattle.pgn_game.specs.Public.Comments.{words_in};
ghost use Rattle.pgn_extract.specs.Public.Annotations.{annotation_lists};
ghost use Rattle.pgn_extract.specs.Private.AnnotationLists.{annotation_value, annotation_words};
ghost use Rattle.pgn_extract.specs.Private.AnnotationLists.{lists_in, MakesLists, shown_of};
ghost use Rattle.pgn_extract.specs.Private.AnnotationLists.{spaced, spaced_byte};
ghost use Rattle.pgn_extract.specs.Private.RowTexts.{value_text};

use crate::output::texts::push_number;
use crate::rows::column::{AnnotationColumn, Format};
use crate::rows::commands::command_value;
use crate::rows::format::push_value;
use pgn_text::{Element, RawGame};
use std::alloc::{AllocError, Global};
use std::mem;

/// The NAGs and comments of the main line of a game, those of each ply in a list.
#[derive(Drop)]
pub(crate) struct Annotations<'a> {
    pub(crate) lists: Vec<Vec<Element<'a>>>,
}

/// The lists that are done, the one of the ply that is reached, and how many variations are open.
#[derive(Drop)]
pub(crate) struct AnnotationKeeper<'a> {
    pub(crate) lists: Vec<Vec<Element<'a>>>,
    pub(crate) own: Vec<Element<'a>>,
    pub(crate) depth: usize,
}

impl<'a> AnnotationKeeper<'a> {
    /// Keeps the element, if it is an annotation of the main line. A move of the main line ends a
    /// list.
    fn step(&mut self, alloc: Global, element: Element<'a>) -> Result<(), AllocError>
        requires room { self.old.depth < usize.MAX }
        ensures within { self.new.depth ≤ self.old.depth + 1 }
        ensures kept { OnOk result ((items : List Item) (all : List (List Item))
            → MakesLists self.old (item_of element.entry ∷ items) all
            → MakesLists self.new items all) }
    {
        match element {
            Element::Open => self.depth += 1,
            Element::Close => self.depth = self.depth.saturating_sub(1),
            _ if self.depth > 0 => {}
            Element::Move(_) => {
                let own = mem::replace(&mut self.own, Vec::new(alloc));
                self.lists.push(own)?;
            }
            Element::Glyph(_) | Element::Comment(_) => self.own.push(element)?,
        }
        Ok(())
    }
}

impl<'a> Annotations<'a> {
    /// None.
    pub(crate) fn none(alloc: Global) -> Self {
        Annotations {
            lists: Vec::new(alloc),
        }
    }

    /// Those of these elements of a game.
    fn of_elements(alloc: Global, elements: &[Element<'a>]) -> Result<Self, AllocError>
        ensures { IfOk result
            (λ kept. lists_in kept ≡ annotation_lists (map item_of elements.now)) }
    {
        let mut keeper = AnnotationKeeper {
            lists: Vec::new(alloc),
            own: Vec::new(alloc),
            depth: 0,
        };
        for element in elements {
            keeper.step(alloc, *element)?;
        }
        let AnnotationKeeper { mut lists, own, .. } = keeper;
        lists.push(own)?;
        Ok(Annotations { lists })
    }

    /// Those of the game.
    pub(crate) fn of_game(alloc: Global, game: &RawGame<'a>) -> Result<Self, AllocError>
        ensures { IfOk result (λ kept. lists_in kept ≡ annotation_lists game.now.elements) }
    {
        Annotations::of_elements(alloc, game.elements())
    }

    /// Those of a ply; none where the main line is shorter.
    pub(crate) fn at(&self, ply: usize) -> &[Element<'a>]
        ensures { map item_of result.now ≡ get_or (lists_in self.now) ply [] }
    {
        if ply >= self.lists.len() {
            return &[];
        }
        &self.lists[ply]
    }
}

/// Whether the byte is white space.
fn is_white(byte: u8) -> bool
    ensures { result ≡ is_white_byte byte }
{
    matches!(byte, 9..=13 | b' ')
}

/// Appends a byte of a text whose words are written with a space before each.
fn push_byte(own: &mut Vec<u8>, is_inside: bool, byte: u8) -> Result<(), AllocError>
    ensures { OnOk result (own.new.items ≡ own.old.items ++ spaced_byte is_inside byte) }
{
    if is_white(byte) {
        return Ok(());
    }
    if !is_inside {
        own.push(b' ')?;
    }
    own.push(byte)?;
    Ok(())
}

/// Appends the words of a text, a space before each.
fn push_words(own: &mut Vec<u8>, text: &[u8]) -> Result<(), AllocError>
    ensures { OnOk result (own.new.items ≡ own.old.items ++ spaced (words_in text.now)) }
{
    let mut is_inside = false;
    for byte in text {
        push_byte(own, is_inside, *byte)?;
        is_inside = !is_white(*byte);
    }
    Ok(())
}

/// Appends a NAG after a space.
fn push_nag(own: &mut Vec<u8>, number: u8) -> Result<(), AllocError>
    ensures { OnOk result (own.new.items ≡ own.old.items ++ 32 ∷ 36 ∷ decimal number) }
{
    own.extend_from_slice(b" $")?;
    push_number(own, number as usize)
}

/// Appends the words that a column shows of an annotation, a space before each.
fn push_annotation(
    own: &mut Vec<u8>,
    column: AnnotationColumn,
    element: Element<'_>,
) -> Result<(), AllocError>
    ensures { OnOk result (own.new.items
        ≡ own.old.items ++ spaced (annotation_words column (item_of element.entry))) }
{
    match element {
        Element::Glyph(number) if column == AnnotationColumn::Nags => push_nag(own, number),
        Element::Comment(text) if column != AnnotationColumn::Nags => push_words(own, text),
        _ => Ok(()),
    }
}

/// Appends the words that a column shows of annotations, a space before each.
fn push_annotations(
    own: &mut Vec<u8>,
    column: AnnotationColumn,
    elements: &[Element<'_>],
) -> Result<(), AllocError>
    ensures { OnOk result (own.new.items ≡ own.old.items
        ++ spaced (flat_map (annotation_words column) (map item_of elements.now))) }
{
    for element in elements {
        push_annotation(own, column, *element)?;
    }
    Ok(())
}

/// The text without its first byte.
fn without_first(text: &[u8]) -> &[u8]
    ensures { result.now ≡ drop 1 text.now }
{
    match text {
        [_, rest @ ..] => rest,
        [] => text,
    }
}

/// What a column shows, of the NAGs or of the text of the comments.
fn shown_of(column: AnnotationColumn, text: &[u8]) -> &[u8]
    ensures { result.now ≡ shown_of column text.now }
{
    match column {
        AnnotationColumn::Nags | AnnotationColumn::Comment => text,
        AnnotationColumn::Clock => command_value(b"[%clk ", text),
        AnnotationColumn::Eval => command_value(b"[%eval ", text),
    }
}

/// Appends the text of what a column shows of annotations.
pub(crate) fn push_annotation_value(
    text: &mut Vec<u8>,
    alloc: Global,
    format: Format,
    column: AnnotationColumn,
    elements: &[Element<'_>],
) -> Result<(), AllocError>
    ensures { OnOk result (text.new.items ≡ text.old.items
        ++ value_text format false (annotation_value column (map item_of elements.now))) }
{
    let mut own = Vec::new(alloc);
    push_annotations(&mut own, column, elements)?;
    push_value(text, format, false, shown_of(column, without_first(&own)))
}
