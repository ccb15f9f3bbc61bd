//! What a run writes, byte by byte: marks, the lines of entries, and the lines of faulty games.
ghost use Rattle.std.specs.Prelude.{◌≡◌, ◌+◌, ◌<◌, Some, [], ◌∷◌, ◌++◌, codes, decimal, OnOk};
ghost use Rattle.std.specs.Prelude.{OnErr};
ghost use Rattle.pgn_game.specs.Public.Faults.{Fault};
ghost use Rattle.pgn_game.specs.Public.Replays.{fault_of};
ghost use Rattle.pgn_extract.specs.Private.Finding.{named_mark};
ghost use Rattle.pgn_extract.specs.Public.Index.{mark, titled, mark_line, fault_text};
ghost use Rattle.pgn_extract.specs.Public.GameReports.{cause_text};
ghost use Rattle.pgn_extract.specs.Public.Listing.{line_field};

use crate::marks::{GameId, LineId};
use crate::output::file_name::FileName;
use itoa::Buffer;
use pgn_game::GameFault;
use std::alloc::AllocError;

/// The most bytes that a mark without a name has: two numbers of at most 20 digits, and `@`.
pub const MARK_ROOM: usize = 41;

/// Appends a number in decimal.
pub fn push_number(text: &mut Vec<u8>, number: usize) -> Result<(), AllocError>
    ensures { OnOk result (text.new.items ≡ text.old.items ++ decimal number) }
{
    let mut buffer = Buffer::new();
    text.extend_from_slice(buffer.format(number).as_bytes())
}

/// Appends the mark `N@O`.
pub fn push_mark(text: &mut Vec<u8>, id: GameId) -> Result<(), AllocError>
    ensures { OnOk result (text.new.items ≡ text.old.items ++ mark id) }
{
    let mut buffer = Buffer::new();
    text.extend_from_slice(buffer.format(id.number).as_bytes())?;
    text.push(b'@')?;
    text.extend_from_slice(buffer.format(id.offset).as_bytes())?;
    Ok(())
}

/// Appends the name of a file and what parts it from the text after it, and nothing where lines
/// have no name.
#[inline(always)]
pub fn push_title(text: &mut Vec<u8>, name: &Option<FileName>, gap: &[u8]) -> Result<(), AllocError>
    ensures { OnOk result (text.new.items ≡ text.old.items ++ titled gap.now name.now) }
{
    let Some(name) = name else {
        return Ok(());
    };
    text.extend_from_slice(name.bytes())?;
    text.extend_from_slice(gap)
}

/// Appends the mark that a line begins with, after the name of its file where lines have one.
pub fn push_named_mark(
    text: &mut Vec<u8>,
    name: &Option<FileName>,
    id: GameId,
) -> Result<(), AllocError>
    ensures { OnOk result (text.new.items ≡ text.old.items ++ named_mark name.now id) }
{
    push_title(text, name, b":")?;
    push_mark(text, id)
}

/// Appends the line of a game in the index.
pub fn push_mark_line(
    text: &mut Vec<u8>,
    name: &Option<FileName>,
    id: GameId,
) -> Result<(), AllocError>
    ensures { OnOk result (text.new.items ≡ text.old.items ++ mark_line name.now id) }
{
    push_named_mark(text, name, id)?;
    text.push(b'\n')?;
    Ok(())
}

/// Appends how the line of an entry begins: the mark of its game, a space and the ply.
#[inline(always)]
pub fn push_ply(text: &mut Vec<u8>, mark: &[u8], ply: usize) -> Result<(), AllocError>
    ensures { OnOk result (text.new.items ≡ text.old.items ++ (mark.now ++ 32 ∷ decimal ply)) }
{
    let mut buffer = Buffer::new();
    text.extend_from_slice(mark)?;
    push_blank(text)?;
    text.extend_from_slice(buffer.format(ply).as_bytes())
}

/// Appends a blank.
#[inline(always)]
pub fn push_blank(text: &mut Vec<u8>) -> Result<(), AllocError>
    ensures added { OnOk result (text.new.items ≡ text.old.items ++ 32 ∷ []) }
    ensures left { OnErr result (text.new.items ≡ text.old.items) }
{
    text.push(b' ')?;
    Ok(())
}

/// Appends the number of a line of a game after a blank, where there is one.
#[inline(always)]
pub fn push_line_number(text: &mut Vec<u8>, line: Option<LineId>) -> Result<(), AllocError>
    ensures { OnOk result (text.new.items ≡ text.old.items ++ line_field line) }
{
    let Some(line) = line else {
        return Ok(());
    };
    push_blank(text)?;
    push_number(text, line.number)
}

/// Ends a line.
#[inline(always)]
pub fn end_line(text: &mut Vec<u8>) -> Result<(), AllocError>
    ensures { OnOk result (text.new.items ≡ text.old.items ++ 10 ∷ []) }
{
    text.push(b'\n')?;
    Ok(())
}

/// Appends the line of an entry: the mark of its game, a space and the ply.
pub fn push_entry(text: &mut Vec<u8>, mark: &[u8], ply: usize) -> Result<(), AllocError>
    ensures { OnOk result (text.new.items ≡ text.old.items
        ++ (mark.now ++ 32 ∷ decimal ply ++ 10 ∷ [])) }
{
    push_ply(text, mark, ply)?;
    end_line(text)
}

/// Makes the line of an entry that of the entry at the next ply.
#[inline(always)]
pub fn count_up(line: &mut Vec<u8>, mark: &[u8], ply: usize) -> Result<(), AllocError>
    requires line { line.old.items ≡ mark.now ++ 32 ∷ decimal ply ++ 10 ∷ [] }
    requires room { ply < usize.MAX }
    ensures { OnOk result (line.new.items ≡ mark.now ++ 32 ∷ decimal (ply + 1) ++ 10 ∷ []) }
{
    if ply % 10 == 9 {
        line.clear();
        return push_entry(line, mark, ply + 1);
    }
    let last_digit = line.len() - 2;
    line[last_digit] += 1;
    Ok(())
}

/// Appends how the line of a faulty game begins: with its mark, after the name of its file where
/// lines have one.
fn push_faulty_mark(
    text: &mut Vec<u8>,
    name: &Option<FileName>,
    id: GameId,
) -> Result<(), AllocError>
    ensures { OnOk result (text.new.items ≡ text.old.items
        ++ (codes "pgn-extract: " ++ titled (codes ": ") name.now ++ codes "game " ++ mark id
        ++ codes ": ")) }
{
    text.extend_from_slice(b"pgn-extract: ")?;
    push_title(text, name, b": ")?;
    text.extend_from_slice(b"game ")?;
    push_mark(text, id)?;
    text.extend_from_slice(b": ")?;
    Ok(())
}

/// Appends the line that reports a faulty game.
pub fn push_fault_line(
    text: &mut Vec<u8>,
    name: &Option<FileName>,
    id: GameId,
    cause: &[u8],
) -> Result<(), AllocError>
    ensures { OnOk result (text.new.items ≡ text.old.items ++ fault_text name.now id cause.now) }
{
    push_faulty_mark(text, name, id)?;
    text.extend_from_slice(cause)?;
    text.push(b'\n')?;
    Ok(())
}

/// Appends why a move cannot be played: the kind of its fault, its word and its ply.
fn push_move_cause(
    text: &mut Vec<u8>,
    kind: &[u8],
    word: &[u8],
    ply: usize,
) -> Result<(), AllocError>
    ensures { OnOk result (text.new.items ≡ text.old.items
        ++ (kind.now ++ word.now ++ codes " at ply " ++ decimal ply)) }
{
    let mut buffer = Buffer::new();
    text.extend_from_slice(kind)?;
    text.extend_from_slice(word)?;
    text.extend_from_slice(b" at ply ")?;
    text.extend_from_slice(buffer.format(ply).as_bytes())?;
    Ok(())
}

/// Appends why a game cannot be replayed. Running out of memory has no text: it is answered.
fn push_cause(text: &mut Vec<u8>, fault: GameFault<'_>) -> Result<(), AllocError>
    ensures { OnOk result ((own : Fault) × (fault_of fault.entry ≡ Some own)
        × (text.new.items ≡ text.old.items ++ cause_text own)) }
{
    match fault {
        GameFault::BadPosition => text.extend_from_slice(b"bad position"),
        GameFault::Illegal { word, ply } => push_move_cause(text, b"illegal move ", word, ply),
        GameFault::Ambiguous { word, ply } => push_move_cause(text, b"ambiguous move ", word, ply),
        GameFault::OutOfMemory => Err(AllocError),
    }
}

/// Appends the line that reports a game that cannot be replayed.
pub fn push_game_fault(
    text: &mut Vec<u8>,
    name: &Option<FileName>,
    id: GameId,
    fault: GameFault<'_>,
) -> Result<(), AllocError>
    ensures { OnOk result ((own : Fault) × (fault_of fault.entry ≡ Some own)
        × (text.new.items ≡ text.old.items ++ fault_text name.now id (cause_text own))) }
{
    push_faulty_mark(text, name, id)?;
    push_cause(text, fault)?;
    text.push(b'\n')?;
    Ok(())
}
