//! What stands in a row, by its format.
ghost use Rattle.std.specs.Prelude.{◌≡◌, ◌++◌, ◌∷◌, [], ℕ, List, OnOk, length, if◌then◌else◌};
ghost use Rattle.pgn_extract.specs.Private.RowTexts.{value_text, key_text, gap, front, back};
ghost use Rattle.pgn_extract.specs.Private.RowTexts.{names_text, or_quotes};
ghost use Rattle.pgn_extract.specs.Public.Rows.{header_text};

use crate::output::texts::end_line;
use crate::rows::column::{Column, Format, Row};
use crate::rows::{csv, json, tsv};
use std::alloc::AllocError;

impl Format {
    /// What stands between two cells.
    fn gap(self) -> &'static [u8]
        ensures { result.now ≡ gap self }
    {
        match self {
            Format::Csv => b",",
            Format::Tsv => b"\t",
            Format::Jsonl => b",",
        }
    }

    /// What stands before the first cell.
    pub(crate) fn front(self) -> &'static [u8]
        ensures { result.now ≡ front self }
    {
        match self {
            Format::Csv => b"",
            Format::Tsv => b"",
            Format::Jsonl => b"{",
        }
    }

    /// What stands after the last cell.
    pub(crate) fn back(self) -> &'static [u8]
        ensures { result.now ≡ back self }
    {
        match self {
            Format::Csv => b"",
            Format::Tsv => b"",
            Format::Jsonl => b"}",
        }
    }
}

/// Appends what stands before the value of a column: in an object its name.
pub(crate) fn push_key(
    text: &mut Vec<u8>,
    format: Format,
    column: &Column,
) -> Result<(), AllocError>
    ensures { OnOk result (text.new.items ≡ text.old.items ++ key_text format column.now) }
{
    match format {
        Format::Csv => Ok(()),
        Format::Tsv => Ok(()),
        Format::Jsonl => {
            json::push_string(text, column.name())?;
            text.push(b':')?;
            Ok(())
        }
    }
}

/// Appends the text of a value.
pub(crate) fn push_value(
    text: &mut Vec<u8>,
    format: Format,
    is_number: bool,
    value: &[u8],
) -> Result<(), AllocError>
    ensures { OnOk result
        (text.new.items ≡ text.old.items ++ value_text format is_number value.now) }
{
    match format {
        Format::Csv => csv::push_cell(text, value),
        Format::Tsv => tsv::push_cell(text, value),
        Format::Jsonl => {
            if is_number {
                return text.extend_from_slice(value);
            }
            json::push_string(text, value)
        }
    }
}

/// Appends what stands before a cell that is not the first.
pub(crate) fn push_gap(text: &mut Vec<u8>, format: Format, is_first: bool) -> Result<(), AllocError>
    ensures { OnOk result
        (text.new.items ≡ text.old.items ++ (if is_first then [] else gap format)) }
{
    if is_first {
        return Ok(());
    }
    text.extend_from_slice(format.gap())
}

/// Ends a row that begins at this place of the text. An empty line would be no row of
/// comma-separated values for many readers.
#[inline(always)]
pub(crate) fn end_row(text: &mut Vec<u8>, format: Format, begin: usize) -> Result<(), AllocError>
    ensures { OnOk result ((start line : List ℕ) → text.old.items ≡ start ++ line
        → length start ≡ begin → text.new.items ≡ start ++ (or_quotes format line ++ 10 ∷ [])) }
{
    if format == Format::Csv && text.len() == begin {
        text.extend_from_slice(b"\"\"")?;
    }
    end_line(text)
}

/// Appends the names of the columns.
fn push_names(text: &mut Vec<u8>, row: &Row) -> Result<(), AllocError>
    ensures { OnOk result (text.new.items ≡ text.old.items
        ++ names_text row.now.format row.now.columns.items) }
{
    let mut is_first = true;
    for column in &row.columns {
        push_gap(text, row.format, is_first)?;
        push_value(text, row.format, false, column.name())?;
        is_first = false;
    }
    Ok(())
}

/// Appends the names of the columns as a row.
fn push_row_of_names(text: &mut Vec<u8>, row: &Row) -> Result<(), AllocError>
    ensures { OnOk result (text.new.items ≡ text.old.items ++ (or_quotes row.now.format
        (names_text row.now.format row.now.columns.items) ++ 10 ∷ [])) }
{
    let begin = text.len();
    push_names(text, row)?;
    end_row(text, row.format, begin)
}

/// Appends the header of rows. Objects have the names in each line.
pub(crate) fn push_header(text: &mut Vec<u8>, row: &Row) -> Result<(), AllocError>
    ensures { OnOk result (text.new.items ≡ text.old.items ++ header_text row.now) }
{
    match row.format {
        Format::Csv => push_row_of_names(text, row),
        Format::Tsv => push_row_of_names(text, row),
        Format::Jsonl => Ok(()),
    }
}
