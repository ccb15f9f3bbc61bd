//! A list of columns: names with commas between.
ghost use Rattle.std.specs.Prelude.{◌≡◌, ◌↔◌, ◌∷◌, [], List, ℕ, IsTrue, MatchOption, MatchResult};
ghost use Rattle.std.specs.Prelude.{bytes_eq, false};
ghost use Rattle.std.specs.List.{list_all, list_any};
ghost use Rattle.chess.specs.Public.Fen.{parted_at};
ghost use Rattle.chess.specs.Shared.Runs.{run_of, after_run};
ghost use Rattle.pgn_text.specs.Public.Bytes.{is_name_byte as is_name_byte_of};
ghost use Rattle.pgn_extract.specs.Public.Columns.{IsTagName, IsColumnOf, IsColumnFault};
ghost use Rattle.pgn_extract.specs.Public.Columns.{IsNoOwnName, AreColumns, IsRefusedList};
ghost use Rattle.pgn_extract.specs.Public.Columns.{column_name, game_column_name, ply_column_name};
ghost use Rattle.pgn_extract.specs.Public.Columns.{position_column_name, line_column_name};
ghost use Rattle.pgn_extract.specs.Public.Columns.{annotation_column_name, is_of_opening};
ghost use Rattle.pgn_extract.specs.declared.rows.column.AnnotationColumn.{AnnotationColumn};
ghost use Rattle.pgn_extract.specs.declared.rows.column.GameColumn.{GameColumn};
ghost use Rattle.pgn_extract.specs.declared.rows.column.LineColumn.{LineColumn};
ghost use Rattle.pgn_extract.specs.declared.rows.column.PlyColumn.{PlyColumn};
ghost use Rattle.pgn_extract.specs.declared.rows.column.PositionColumn.{PositionColumn};
ghost use Rattle.pgn_extract.specs.declared.rows.list.ColumnsError.TheVariants.{OutOfMemory};

use crate::rows::column::{
    AnnotationColumn, Column, GameColumn, LineColumn, PlyColumn, PositionColumn,
};
use pgn_game::Notation;
use std::alloc::{AllocError, Global};

/// Why a list of columns is refused.
#[derive(Debug, Drop)]
pub enum ColumnsError<'a> {
    /// A column has no name.
    Empty,
    /// The name begins with `@`, and no column has it.
    Unknown(&'a [u8]),
    /// The name begins otherwise, and is no name of a tag.
    NoName(&'a [u8]),
    /// The column stands twice.
    Twice(&'a [u8]),
    /// There are more than 64.
    TooMany,
    /// Memory ran out.
    OutOfMemory,
}

impl<'a> From<AllocError> for ColumnsError<'a> {
    fn from(_: AllocError) -> Self
        ensures { result ≡ OutOfMemory }
    {
        ColumnsError::OutOfMemory
    }
}

/// The most columns of a row.
pub const MOST_COLUMNS: usize = 64;

/// Whether this is the name of the column of the ply of an opening.
fn is_opening_ply(name: &[u8]) -> bool
    ensures { IsTrue result ↔ (name.now ≡ game_column_name GameColumn.OpeningPly) }
{
    name == b"@opening-ply".as_slice()
}

/// The column of the game with this name, but for that of an opening.
fn plain_game_column(name: &[u8]) -> Option<GameColumn>
    ensures { MatchOption result
        ((own : GameColumn) → is_of_opening own ≡ false → name.now ≡ game_column_name own → ⊥)
        (λ own. name.now ≡ game_column_name own) }
{
    match name {
        b"@file" => Some(GameColumn::File),
        b"@game" => Some(GameColumn::Game),
        b"@offset" => Some(GameColumn::Offset),
        b"@id" => Some(GameColumn::Id),
        b"@result" => Some(GameColumn::Result),
        b"@line" => Some(GameColumn::Line),
        b"@from" => Some(GameColumn::From),
        _ => None,
    }
}

/// The column of the game with this name.
fn game_column(name: &[u8]) -> Option<GameColumn>
    ensures { MatchOption result
        ((own : GameColumn) → name.now ≡ game_column_name own → ⊥)
        (λ own. name.now ≡ game_column_name own) }
{
    if is_opening_ply(name) {
        return Some(GameColumn::OpeningPly);
    }
    plain_game_column(name)
}

/// The column of the position with this name.
fn position_column(name: &[u8]) -> Option<PositionColumn>
    ensures { MatchOption result
        ((own : PositionColumn) → name.now ≡ position_column_name own → ⊥)
        (λ own. name.now ≡ position_column_name own) }
{
    match name {
        b"@fen" => Some(PositionColumn::Fen),
        b"@turn" => Some(PositionColumn::Turn),
        b"@number" => Some(PositionColumn::Number),
        b"@placement" => Some(PositionColumn::Men),
        b"@check" => Some(PositionColumn::Check),
        b"@material" => Some(PositionColumn::Material),
        _ => None,
    }
}

/// The column with this name for which the main line is kept.
fn line_column(name: &[u8]) -> Option<LineColumn>
    ensures { MatchOption result
        ((own : LineColumn) → name.now ≡ line_column_name own → ⊥)
        (λ own. name.now ≡ line_column_name own) }
{
    match name {
        b"@plies" => Some(LineColumn::Plies),
        b"@last" => Some(LineColumn::Last(Notation::San)),
        b"@last-uci" => Some(LineColumn::Last(Notation::Uci)),
        b"@moves" => Some(LineColumn::Moves(Notation::San)),
        b"@uci" => Some(LineColumn::Moves(Notation::Uci)),
        _ => None,
    }
}

/// The column of the ply with this name.
fn ply_column(name: &[u8]) -> Option<PlyColumn>
    ensures { MatchOption result
        ((own : PlyColumn) → name.now ≡ ply_column_name own → ⊥)
        (λ own. name.now ≡ ply_column_name own) }
{
    match name {
        b"@ply" => Some(PlyColumn::Ply),
        b"@next" => Some(PlyColumn::Next),
        b"@next-uci" => Some(PlyColumn::NextUci),
        _ => match position_column(name) {
            Some(own) => Some(PlyColumn::OfPosition(own)),
            None => match line_column(name) {
                Some(own) => Some(PlyColumn::OfLine(own)),
                None => None,
            },
        },
    }
}

/// The column of annotations with this name.
fn annotation_column(name: &[u8]) -> Option<AnnotationColumn>
    ensures { MatchOption result
        ((own : AnnotationColumn) → name.now ≡ annotation_column_name own → ⊥)
        (λ own. name.now ≡ annotation_column_name own) }
{
    match name {
        b"@nags" => Some(AnnotationColumn::Nags),
        b"@comment" => Some(AnnotationColumn::Comment),
        b"@clk" => Some(AnnotationColumn::Clock),
        b"@eval" => Some(AnnotationColumn::Eval),
        _ => None,
    }
}

/// The column with this name that is no tag.
fn own_column(name: &[u8]) -> Option<Column>
    ensures { MatchOption result (IsNoOwnName name.now) (IsColumnOf name.now) }
{
    if let Some(own) = game_column(name) {
        return Some(Column::OfGame(own));
    }
    if let Some(own) = ply_column(name) {
        return Some(Column::OfPly(own));
    }
    match annotation_column(name) {
        Some(own) => Some(Column::OfAnnotations(own)),
        None => None,
    }
}

/// Whether the byte may stand in a tag's name.
fn is_name_byte(byte: u8) -> bool
    ensures { result ≡ is_name_byte_of byte }
{
    byte.is_ascii_alphabetic() || byte.is_ascii_digit() || byte == b'_'
}

/// Whether each byte may stand in a tag's name.
fn are_name_bytes(text: &[u8]) -> bool
    ensures { result ≡ list_all is_name_byte_of text.now }
{
    text.iter().all(|byte| is_name_byte(*byte))
}

/// Whether the text is a tag's name.
pub(crate) fn is_tag_name(text: &[u8]) -> bool
    ensures { IsTrue result ↔ IsTagName text.now }
{
    !text.is_empty() && are_name_bytes(text)
}

/// The text from the first of these separators on.
fn from_separator(text: &[u8], separator: u8) -> &[u8]
    ensures { result.now ≡ after_run separator text.now }
{
    let mut rest = text;
    while let [first, after @ ..] = rest
        && *first != separator
    {
        rest = after;
    }
    rest
}

/// The bytes before the first of these separators, and those from it on.
pub(crate) fn split_run(text: &[u8], separator: u8) -> (&[u8], &[u8])
    ensures run { result.0.now ≡ run_of separator text.now }
    ensures rest { result.1.now ≡ after_run separator text.now }
{
    let rest = from_separator(text, separator);
    (&text[..text.len() - rest.len()], rest)
}

/// The first name of a list, and what follows its comma, if one follows it.
pub(crate) fn next_name(text: &[u8]) -> (&[u8], Option<&[u8]>)
    ensures { MatchOption result.1 (parted_at 44 text.now ≡ result.0.now ∷ [])
        (λ rest. parted_at 44 text.now ≡ result.0.now ∷ parted_at 44 rest.now) }
{
    let (name, rest) = split_run(text, b',');
    match rest {
        [_, after @ ..] => (name, Some(after)),
        [] => (name, None),
    }
}

/// The column of the tag with this name.
fn tag_column<'a>(alloc: Global, name: &'a [u8]) -> Result<Column, ColumnsError<'a>>
    requires { IsTagName name.now }
    ensures { MatchResult result (λ column. IsColumnOf name.now column)
        (λ fault. IsColumnFault name.now fault) }
{
    let mut own = Vec::new(alloc);
    if own.extend_from_slice(name).is_err() {
        return Err(ColumnsError::OutOfMemory);
    }
    Ok(Column::Tag(own))
}

/// The column with this name.
fn column_of<'a>(alloc: Global, name: &'a [u8]) -> Result<Column, ColumnsError<'a>>
    ensures { MatchResult result (λ column. IsColumnOf name.now column)
        (λ fault. IsColumnFault name.now fault) }
{
    match name {
        [] => Err(ColumnsError::Empty),
        [b'@', ..] => match own_column(name) {
            Some(column) => Ok(column),
            None => Err(ColumnsError::Unknown(name)),
        },
        _ => {
            if !is_tag_name(name) {
                return Err(ColumnsError::NoName(name));
            }
            tag_column(alloc, name)
        }
    }
}

/// Whether one of the columns has the name.
fn has_name(columns: &[Column], name: &[u8]) -> bool
    ensures { result ≡ list_any (λ column. bytes_eq (column_name column) name.now) columns.now }
{
    columns.iter().any(|column| column.name() == name)
}

/// The columns that a text lists: names with commas between, each once and at most 64.
pub fn parse_columns<'a>(alloc: Global, text: &'a [u8]) -> Result<Vec<Column>, ColumnsError<'a>>
    ensures { MatchResult result (λ columns. AreColumns text.now columns.items)
        (λ fault. IsRefusedList text.now fault) }
{
    let mut columns = Vec::new(alloc);
    let mut rest = text;
    loop {
        let (name, after) = next_name(rest);
        if columns.len() == MOST_COLUMNS {
            return Err(ColumnsError::TooMany);
        }
        let column = match column_of(alloc, name) {
            Ok(column) => column,
            Err(fault) => return Err(fault),
        };
        if has_name(&columns, name) {
            return Err(ColumnsError::Twice(name));
        }
        if columns.push(column).is_err() {
            return Err(ColumnsError::OutOfMemory);
        }
        let Some(after) = after else {
            return Ok(columns);
        };
        rest = after;
    }
}
