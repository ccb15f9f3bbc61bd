//! The columns of rows as the arguments list them, and the line of their names.
ghost use Rattle.std.specs.Prelude.{◌≡◌, ◌↔◌, false, true, option_map, IfOk, OnOk, IsErrOf, Some};
ghost use Rattle.std.specs.Prelude.{MatchOption, None};
ghost use Rattle.std.specs.List.{find};
ghost use Rattle.pgn_extract.specs.Public.Columns.{shows_annotations, shows_opening};
ghost use Rattle.pgn_extract.specs.Public.Requests.{IsAskedRow, IsInPacks, HasItsLines};
ghost use Rattle.pgn_extract.specs.Public.Requests.{asked_header};
ghost use Rattle.pgn_extract.specs.Public.Runs.{Adds, passage};

use crate::app::command::Request;
use crate::app::messages;
use crate::app::order::{Order, format_of};
use crate::output::file_name::shown_bytes;
use crate::output::outcome::RunError;
use crate::output::write_all::write_all;
use crate::rows::column::{Column, Row};
use crate::rows::format::push_header;
use crate::rows::list::{ColumnsError, parse_columns};
use crate::settings::{EntryLine, Settings};
use pgn_text::Tally;
use std::alloc::{AllocError, Global};
use std::io::Write;
use strsim::levenshtein;

/// The names of the columns that are no tags.
const OWN_NAMES: [&str; 26] = [
    "@file",
    "@game",
    "@offset",
    "@id",
    "@ply",
    "@fen",
    "@placement",
    "@turn",
    "@number",
    "@check",
    "@material",
    "@next",
    "@next-uci",
    "@result",
    "@opening-ply",
    "@line",
    "@from",
    "@last",
    "@last-uci",
    "@plies",
    "@moves",
    "@uci",
    "@nags",
    "@comment",
    "@clk",
    "@eval",
];

/// Why a column is refused where packs are searched.
const IN_NO_PACK: &str = "stands in no pack";

/// Why the columns are refused: a line of the program, or one that names a column.
#[derive(Drop)]
pub enum RefusedColumns {
    /// A line of the program.
    Line(&'static str),
    /// A line that names a column.
    Named(String),
    /// Memory ran out.
    OutOfMemory,
}

impl From<AllocError> for RefusedColumns {
    ghost use Rattle.pgn_extract.specs.declared.app.header.RefusedColumns.TheVariants.{OutOfMemory};

    ghost from_gives = { λ _ refused. refused ≡ OutOfMemory };

    fn from(_: AllocError) -> RefusedColumns {
        RefusedColumns::OutOfMemory
    }
}

/// The name of a column that is most like this one.
fn nearest_name(alloc: Global, name: &str) -> Result<&'static str, AllocError> {
    let mut nearest = 0;
    let mut least = usize::MAX;
    for place in 0..OWN_NAMES.len() {
        let steps = levenshtein(alloc, name, OWN_NAMES[place])?;
        if steps < least {
            least = steps;
            nearest = place;
        }
    }
    Ok(OWN_NAMES[nearest])
}

/// The refusal of a column with this name, which no column has.
fn unknown_column(alloc: Global, name: &[u8]) -> Result<String, AllocError> {
    let shown = shown_bytes(alloc, name)?;
    let nearest = nearest_name(alloc, shown.as_str())?;
    match format!(in alloc;
        "pgn-extract: --rows: no column is called {shown}; the nearest is {nearest}\n"
    ) {
        Ok(line) => Ok(line),
        Err(_) => Err(AllocError),
    }
}

/// The refusal of a column by its name.
fn named_column(alloc: Global, name: &[u8], fault: &str) -> Result<String, AllocError> {
    let shown = shown_bytes(alloc, name)?;
    match format!(in alloc; "pgn-extract: --rows: {shown} {fault}\n") {
        Ok(line) => Ok(line),
        Err(_) => Err(AllocError),
    }
}

/// The refusal of a list of columns.
fn refused_columns(alloc: Global, error: &ColumnsError<'_>) -> Result<RefusedColumns, AllocError> {
    Ok(match error {
        ColumnsError::Empty => RefusedColumns::Line(messages::COLUMN_WITHOUT_NAME),
        ColumnsError::TooMany => RefusedColumns::Line(messages::TOO_MANY_COLUMNS),
        ColumnsError::Unknown(name) => RefusedColumns::Named(unknown_column(alloc, *name)?),
        ColumnsError::NoName(name) => {
            RefusedColumns::Named(named_column(alloc, *name, "is no name of a tag")?)
        }
        ColumnsError::Twice(name) => {
            RefusedColumns::Named(named_column(alloc, *name, "stands twice")?)
        }
        ColumnsError::OutOfMemory => RefusedColumns::OutOfMemory,
    })
}

/// The first of the columns that shows annotations, if one does.
fn of_annotations(columns: &[Column]) -> Option<&Column>
    ensures { option_map (λ column. column.now) result ≡ find shows_annotations columns.now }
{
    columns.iter().find(|column| column.shows_annotations())
}

/// The first column of a row that packs leave out, where packs are searched.
fn unpacked_column<'r>(request: &Request<'_>, row: &'r Row) -> Option<&'r Column>
    ensures { MatchOption result (IsInPacks request.now (Some row.now)) (λ column. Unit {0}) }
{
    if !request.packed {
        return None;
    }
    of_annotations(&row.columns)
}

/// The first of the columns that shows something of openings, if one does.
fn of_openings(columns: &[Column]) -> Option<&Column>
    ensures { option_map (λ column. column.now) result ≡ find shows_opening columns.now }
{
    columns.iter().find(|column| column.shows_opening())
}

/// The first column of a row that shows something of openings, where no lines of them are given.
fn unlined_column<'r>(request: &Request<'_>, row: &'r Row) -> Option<&'r Column>
    ensures { MatchOption result (HasItsLines request.now (Some row.now)) (λ column. Unit {0}) }
{
    if request.openings.is_some() {
        return None;
    }
    of_openings(&row.columns)
}

/// The refusal of one of the columns of a row beside the other options, if one does not go with
/// them.
fn refused_row(
    alloc: Global,
    request: &Request<'_>,
    row: &Row,
) -> Result<Option<String>, AllocError>
    ensures packed { IfOk result (λ line. line ≡ None → IsInPacks request.now (Some row.now)) }
    ensures lines { IfOk result (λ line. line ≡ None → HasItsLines request.now (Some row.now)) }
{
    if let Some(column) = unpacked_column(request, row) {
        return Ok(Some(named_column(alloc, column.name(), IN_NO_PACK)?));
    }
    let Some(column) = unlined_column(request, row) else {
        return Ok(None);
    };
    Ok(Some(named_column(alloc, column.name(), "goes with --openings")?))
}

/// The row that is asked for, if one is. One of packs shows no annotations, and one shows openings
/// only by lines that are given.
pub fn read_row(alloc: Global, order: &Order<'_>) -> Result<Option<Row>, RefusedColumns>
    ensures asked { IfOk result (λ row. IsAskedRow order.now.request row) }
    ensures packed { IfOk result (λ row. IsInPacks order.now.request row) }
    ensures lines { IfOk result (λ row. HasItsLines order.now.request row) }
{
    let Some(text) = order.request.rows else {
        return Ok(None);
    };
    let row = match parse_columns(alloc, text.as_bytes()) {
        Ok(columns) => Row {
            columns,
            format: format_of(&order.request),
        },
        Err(error) => return Err(refused_columns(alloc, &error)?),
    };
    match refused_row(alloc, &order.request, &row)? {
        Some(line) => Err(RefusedColumns::Named(line)),
        None => Ok(Some(row)),
    }
}

/// Writes the names of the columns where rows begin: at the beginning of the input, unless they are
/// left out.
pub fn put_header<O: Write>(
    alloc: Global,
    out: &mut Tally<O>,
    settings: &Settings,
    left_out: bool,
) -> Result<(), RunError>
    requires { out.old.faulted ≡ false }
    ensures put { OnOk result (Adds (passage O.contents out.old out.new)
        (asked_header settings.now left_out)) }
    ensures fault { IsErrOf result RunError.Write ↔ (out.new.faulted ≡ true) }
{
    let EntryLine::InColumns(row) = &settings.line else {
        return Ok(());
    };
    if left_out || settings.offset > 0 {
        return Ok(());
    }
    let mut text = Vec::new(alloc);
    push_header(&mut text, row)?;
    write_all(out, &text)
}
