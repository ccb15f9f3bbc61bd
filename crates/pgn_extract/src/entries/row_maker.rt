//! The rows of a game: what its plies do not change is made once.
ghost use Rattle.std.specs.Prelude.{◌≡◌, ◌++◌, ◌∷◌, [], ℕ, List, OnOk, IfErr, IfOk, IfSome};
ghost use Rattle.std.specs.Prelude.{option_map, true};
ghost use Rattle.std.specs.List.{list_any};
ghost use Rattle.pgn_extract.specs.Private.AnnotationLists.{lists_in};
ghost use Rattle.pgn_extract.specs.Private.Lines.{Where, HasFault, ShowsPart, ShowsParts};
ghost use Rattle.pgn_extract.specs.Private.RowTexts.{MakesRows, EndsPart, AddsCell, or_quotes};
ghost use Rattle.pgn_extract.specs.Private.RowTexts.{filled, part_quote, quote_text};
ghost use Rattle.pgn_extract.specs.Private.RowTexts.{EachColumn, need_line, part_needs_line};
ghost use Rattle.pgn_extract.specs.Private.RowTexts.{IsShownWith};
ghost use Rattle.pgn_extract.specs.Public.Annotations.{annotation_lists};
ghost use Rattle.pgn_extract.specs.Public.Columns.{is_number_of_ply, shows_annotations};
ghost use Rattle.pgn_extract.specs.Public.Rows.{IsGameCell, IsOpeningCell, IsTagCell};
ghost use Rattle.pgn_extract.specs.Public.Rows.{line_or_main, place_of, result_in};
ghost use Rattle.pgn_extract.specs.Private.Finding.{IsOfGame};
ghost use Rattle.pgn_game.specs.Public.Replays.{Replay};
ghost use Rattle.pgn_text.specs.Public.GameTexts.{GameText, tag_in};
ghost use Rattle.pgn_extract.specs.Private.RowGames.{IsGameIn, name_of, openings_of, is_text};
ghost use Rattle.pgn_text.specs.Public.Strings.{IsContents};
ghost use Rattle.pgn_game.specs.Public.Starts.{IsValueOf};

use crate::entries::annotations::{Annotations, push_annotation_value};
use crate::entries::line::Line;
use crate::entries::row_game::{GameSource, RowGame};
use crate::marks::LineId;
use crate::output::texts::{push_mark, push_number};
use crate::rows::column::{AnnotationColumn, Column, Format, GameColumn, PlyColumn, Row};
use crate::rows::format::{end_row, push_gap, push_key, push_value};
use pgn_text::value;
use std::alloc::{AllocError, Global};
use std::mem;

/// What a column shows of a ply.
#[derive(Clone, Copy, Debug, PartialEq, Eq)]
pub(crate) enum PartColumn {
    /// Something of the ply itself.
    OfPly(PlyColumn),
    /// Something of its annotations.
    OfAnnotations(AnnotationColumn),
}

/// What stands before the value of a column of the ply.
#[derive(Drop)]
pub(crate) struct RowPart {
    pub(crate) before: Vec<u8>,
    pub(crate) column: PartColumn,
}

/// The rows of a game, or of a line of it: the columns, the annotations where a column shows them,
/// the parts with a value of the ply each, and what stands after them.
#[derive(Drop)]
pub(crate) struct RowMaker<'s> {
    pub(crate) alloc: Global,
    pub(crate) row: &'s Row,
    pub(crate) line: Option<LineId>,
    pub(crate) annotations: Annotations<'s>,
    pub(crate) parts: Vec<RowPart>,
    pub(crate) last: Vec<u8>,
}

/// Makes the value of a string with these contents.
fn put_contents(own: &mut Vec<u8>, contents: &[u8]) -> Result<(), AllocError>
    requires { IsContents contents.now }
    ensures { OnOk result (IsValueOf contents.now own.new.items) }
{
    own.clear();
    for byte in value(contents) {
        own.push(byte)?;
    }
    Ok(())
}

/// Makes the value of a tag with these contents, which is empty where there is no such tag.
fn put_given(own: &mut Vec<u8>, contents: Option<&[u8]>) -> Result<(), AllocError>
    requires { IfSome contents (λ text. IsContents text.now) }
    ensures { OnOk result
        (IsTagCell (option_map (λ text. text.now) contents.entry) own.new.items) }
{
    match contents {
        Some(contents) => put_contents(own, contents),
        None => {
            own.clear();
            Ok(())
        }
    }
}

/// Makes the value of the tag with this name, which the game may not have.
fn put_tag(own: &mut Vec<u8>, game: RowGame<'_, '_>, name: &[u8]) -> Result<(), AllocError>
    ensures { OnOk result ((text : GameText) → IsGameIn game.entry.source text
        → IsTagCell (tag_in name.now text.tags) own.new.items) }
{
    put_given(own, game.source.tag(name))
}

/// Makes the text of the ply at which the line of the game's opening ends; empty where it has none.
fn put_opening_ply(
    own: &mut Vec<u8>,
    alloc: Global,
    game: RowGame<'_, '_>,
) -> Result<(), AllocError>
    ensures { OnOk result ((text : GameText) → IsGameIn game.entry.source text
        → (replay : Replay) → IsOfGame text replay
        → IsOpeningCell (openings_of game.entry.source) replay.positions own.new.items) }
{
    own.clear();
    match game.source.opening(alloc)? {
        Some(opening) => push_number(own, opening.ply),
        None => Ok(()),
    }
}

/// The line of the game; the main line where lines are not listed.
fn line_of(game: RowGame<'_, '_>) -> LineId
    ensures { result ≡ line_or_main game.entry.line }
{
    match game.line {
        Some(line) => line,
        None => LineId { number: 0, from: 0 },
    }
}

/// The result of the line of the game: a variation has none.
fn result_of<'a>(game: RowGame<'_, 'a>) -> &'a [u8]
    ensures { (text : GameText) → IsGameIn game.entry.source text
        → result.now ≡ result_in (line_or_main game.entry.line) text.result }
{
    if line_of(game).number > 0 {
        return b"*";
    }
    game.source.result()
}

/// Makes what a column shows of the game.
fn put_game_value(
    own: &mut Vec<u8>,
    alloc: Global,
    game: RowGame<'_, '_>,
    column: GameColumn,
) -> Result<(), AllocError>
    ensures { OnOk result ((text : GameText) → IsGameIn game.entry.source text
        → (replay : Replay) → IsOfGame text replay → (ply : ℕ)
        → IsGameCell column (place_of (name_of game.entry) (openings_of game.entry.source)
        game.entry.id game.entry.line text replay ply) own.new.items) }
{
    own.clear();
    match column {
        GameColumn::File => match game.name {
            Some(name) => own.extend_from_slice(name),
            None => Ok(()),
        },
        GameColumn::Game => push_number(own, game.id.number as usize),
        GameColumn::Offset => push_number(own, game.id.offset as usize),
        GameColumn::Id => push_mark(own, game.id),
        GameColumn::Result => own.extend_from_slice(result_of(game)),
        GameColumn::OpeningPly => put_opening_ply(own, alloc, game),
        GameColumn::Line => push_number(own, line_of(game).number),
        GameColumn::From => push_number(own, line_of(game).from),
    }
}

/// The quotes around the values of a column of the ply, where they have any.
fn ply_quote(format: Format, column: PlyColumn) -> &'static [u8]
    ensures { result.now ≡ quote_text format (is_number_of_ply column) }
{
    if format == Format::Jsonl && !column.is_number() {
        b"\""
    } else {
        b""
    }
}

/// The quotes around what is written for a column. The text of what is shown of annotations has its
/// own.
fn quote_of(format: Format, column: PartColumn) -> &'static [u8]
    ensures { result.now ≡ part_quote format column }
{
    match column {
        PartColumn::OfPly(own) => ply_quote(format, own),
        PartColumn::OfAnnotations(_) => b"",
    }
}

impl PartColumn {
    /// Whether the whole main line is kept for it.
    fn needs_line(self) -> bool
        ensures { result ≡ part_needs_line self }
    {
        match self {
            PartColumn::OfPly(own) => own.needs_line(),
            PartColumn::OfAnnotations(_) => false,
        }
    }
}

/// The annotations of the game, where the row shows them.
fn annotations_for<'a>(
    alloc: Global,
    row: &Row,
    game: RowGame<'_, 'a>,
) -> Result<Annotations<'a>, AllocError>
    requires { list_any shows_annotations row.now.columns.items ≡ true
        → is_text game.source ≡ true }
    ensures { IfOk result (λ kept. list_any shows_annotations row.now.columns.items ≡ true
        → (text : GameText) → IsGameIn game.entry.source text
        → lists_in kept ≡ annotation_lists text.elements) }
{
    match game.source {
        GameSource::Text(game, _) if row.shows_annotations() => Annotations::of_game(alloc, game),
        _ => Ok(Annotations::none(alloc)),
    }
}

impl<'s> RowMaker<'s> {
    /// Ends a part with a column of the ply.
    fn end_part(&mut self, column: PartColumn) -> Result<(), AllocError>
        ensures { OnOk result (EndsPart self.old self.new column) }
    {
        let quote = quote_of(self.row.format, column);
        self.last.extend_from_slice(quote)?;
        let after = Vec::from_slice(self.alloc, quote)?;
        let before = mem::replace(&mut self.last, after);
        self.parts.push(RowPart { before, column })?;
        Ok(())
    }

    /// Adds a column, of which the value is made in `own` where it is one of the game.
    fn add_column(
        &mut self,
        own: &mut Vec<u8>,
        game: RowGame<'_, '_>,
        column: &Column,
    ) -> Result<(), AllocError>
        requires annotations { shows_annotations column.now ≡ true
            → (text : GameText) → IsGameIn game.source text
            → lists_in self.old.annotations ≡ annotation_lists text.elements }
        ensures row { OnOk result (self.new.row.now ≡ self.old.row.now) }
        ensures line { OnOk result (self.new.line ≡ self.old.line) }
        ensures annotations { OnOk result (self.new.annotations ≡ self.old.annotations) }
        ensures cell { OnOk result ((text : GameText) → IsGameIn game.entry.source text
            → AddsCell self.old self.new (name_of game.entry) (openings_of game.entry.source)
            game.entry.id game.entry.line text column.now) }
    {
        let format = self.row.format;
        push_key(&mut self.last, format, column)?;
        match column {
            Column::Tag(name) => {
                put_tag(own, game, name)?;
                push_value(&mut self.last, format, false, own)
            }
            Column::OfGame(shown) => {
                put_game_value(own, self.alloc, game, *shown)?;
                push_value(&mut self.last, format, shown.is_number(), own)
            }
            Column::OfPly(shown) => self.end_part(PartColumn::OfPly(*shown)),
            Column::OfAnnotations(shown) => self.end_part(PartColumn::OfAnnotations(*shown)),
        }
    }

    /// The rows of the game.
    pub(crate) fn of_game(
        alloc: Global,
        row: &'s Row,
        game: RowGame<'_, 's>,
    ) -> Result<Self, AllocError>
        requires { list_any shows_annotations row.now.columns.items ≡ true
            → is_text game.source ≡ true }
        ensures { IfOk result (λ maker. (maker.row.now ≡ row.now)
            × (maker.line ≡ game.entry.line)
            × ((text : GameText) → IsGameIn game.entry.source text
            → MakesRows maker (name_of game.entry) (openings_of game.entry.source) game.entry.id
            text)) }
    {
        let mut maker = RowMaker {
            alloc,
            row,
            line: game.line,
            annotations: annotations_for(alloc, row, game)?,
            parts: Vec::new(alloc),
            last: Vec::from_slice(alloc, row.format.front())?,
        };
        let mut own = Vec::new(alloc);
        let mut is_first = true;
        for column in &row.columns {
            push_gap(&mut maker.last, row.format, is_first)?;
            maker.add_column(&mut own, game, column)?;
            is_first = false;
        }
        maker.last.extend_from_slice(row.format.back())?;
        Ok(maker)
    }

    /// Whether the whole main line is kept for one of the columns.
    pub(crate) fn needs_line(&self) -> bool
        ensures { result ≡ need_line self.now.parts.items }
    {
        self.parts.iter().any(|part| part.column.needs_line())
    }

    /// Appends the text of a column where the line stands.
    #[inline(always)]
    fn push_part<L: Line>(
        &self,
        text: &mut Vec<u8>,
        line: &L,
        column: PartColumn,
    ) -> Result<(), L::Fault>
        requires valid { L.Valid line.now }
        requires shows { IsShownWith L.Shows column }
        ensures shown { OnOk result ((value : List ℕ)
            × Where (L.At line.now) (ShowsPart self.now column value)
            × (text.new.items ≡ text.old.items ++ value)) }
        ensures fault { IfErr result (λ fault. IfSome (L.fault_of fault)
            (λ own. Where (L.At line.now) (HasFault own) × (some : List ℕ)
            × (text.new.items ≡ text.old.items ++ some))) }
    {
        match column {
            PartColumn::OfPly(own) => line.push_value(text, own),
            PartColumn::OfAnnotations(own) => {
                let elements = self.annotations.at(line.ply());
                push_annotation_value(text, self.alloc, self.row.format, own, elements)?;
                Ok(())
            }
        }
    }

    /// Appends the row of the ply where the line stands.
    #[inline(always)]
    pub(crate) fn push_row<L: Line>(&self, text: &mut Vec<u8>, line: &L) -> Result<(), L::Fault>
        requires valid { L.Valid line.now }
        requires shows { EachColumn L.Shows self.now.parts.items }
        ensures shown { OnOk result ((values : List (List ℕ))
            × Where (L.At line.now) (ShowsParts self.now self.now.parts.items values)
            × (text.new.items ≡ text.old.items ++ (or_quotes self.now.row.now.format
            (filled self.now.parts.items values self.now.last.items) ++ 10 ∷ []))) }
        ensures fault { IfErr result (λ fault. IfSome (L.fault_of fault)
            (λ own. Where (L.At line.now) (HasFault own) × (some : List ℕ)
            × (text.new.items ≡ text.old.items ++ some))) }
    {
        let begin = text.len();
        for part in &self.parts {
            text.extend_from_slice(&part.before)?;
            self.push_part(text, line, part.column)?;
        }
        text.extend_from_slice(&self.last)?;
        end_row(text, self.row.format, begin)?;
        Ok(())
    }
}
