//! Who played a faulty game, by the tags that its bytes begin with.
ghost use Rattle.std.specs.Prelude.{◌≡◌, ◌++◌, ℕ, List, true, OnOk};
ghost use Rattle.pgn_extract.specs.Private.MoveNotes.{KeepsLine};
ghost use Rattle.pgn_extract.specs.Public.Notes.{IsNote};

use crate::explain::move_notes::{push_line, push_shown};
use crate::explain::refusal_notes::{after_line, first_line};
use crate::output::file_name::shown_bytes;
use std::alloc::{AllocError, Global};

/// In how many of the first lines of a game its tags are looked for.
const MOST_LINES: usize = 40;

/// The value of the tag with the name, where the line is that tag.
fn value_on<'a>(line: &'a [u8], name: &[u8]) -> Option<&'a [u8]> {
    let tag = line.strip_prefix(b"[".as_slice())?;
    let rest = tag.strip_prefix(name)?;
    let value = rest.trim_ascii_start().strip_prefix(b"\"".as_slice())?;
    let end = value.iter().position(|byte| *byte == b']')?;
    value[..end].trim_ascii_end().strip_suffix(b"\"".as_slice())
}

/// The value of the first tag with the name among the first lines of a game.
fn value_of<'a>(game: &'a [u8], name: &[u8]) -> Option<&'a [u8]> {
    let mut rest = game;
    for _ in 0..MOST_LINES {
        if let Some(value) = value_on(first_line(rest), name) {
            return Some(value);
        }
        rest = after_line(rest);
    }
    None
}

/// Appends the name of a player, and `?` where it is not known.
fn push_player(alloc: Global, line: &mut Vec<u8>, name: Option<&[u8]>) -> Result<(), AllocError>
    ensures { OnOk result (KeepsLine line.old.items line.new.items) }
{
    let shown = shown_bytes(alloc, name.unwrap_or(b"?"))?;
    push_shown(line, shown.as_bytes())
}

/// Appends the year of a date, where it is known.
fn push_year(line: &mut Vec<u8>, date: Option<&[u8]>) -> Result<(), AllocError>
    ensures { OnOk result (KeepsLine line.old.items line.new.items) }
{
    let year = match date {
        Some(date) => &date[..date.len().min(4)],
        None => b"".as_slice(),
    };
    if year.is_empty() || !year.iter().all(|byte| byte.is_ascii_digit()) {
        return Ok(());
    }
    push_shown(line, b", ")?;
    push_shown(line, year)
}

/// Appends a line that says who played the game that begins with these bytes, and in which year,
/// where they name a player.
pub fn push_players(alloc: Global, text: &mut Vec<u8>, game: &[u8]) -> Result<(), AllocError>
    ensures { OnOk result ((note : List ℕ) × IsNote true note
        × (text.new.items ≡ text.old.items ++ note)) }
{
    let (white, black) = (value_of(game, b"White"), value_of(game, b"Black"));
    if white.is_none() && black.is_none() {
        return Ok(());
    }
    let mut line = Vec::new(alloc);
    push_shown(&mut line, b"game of ")?;
    push_player(alloc, &mut line, white)?;
    push_shown(&mut line, b" - ")?;
    push_player(alloc, &mut line, black)?;
    push_year(&mut line, value_of(game, b"Date"))?;
    push_line(text, line.as_slice())
}
