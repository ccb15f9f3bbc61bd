//! What stands on standard error of a whole run: its summary, or why it failed.
ghost use Rattle.std.specs.Prelude.{◌≡◌, ◌↔◌, ◌⊎◌, ◌++◌, false, true, codes, IfErr, IfOk, IsErrOf};
ghost use Rattle.std.specs.Prelude.{OnErr, OnOk, decimal};
ghost use Rattle.std.specs.Io.KnownBytes.{Appends};
ghost use Rattle.pgn_extract.specs.Public.Index.{titled};
ghost use Rattle.pgn_extract.specs.Public.Outcomes.{AppendsFront};
ghost use Rattle.pgn_extract.specs.Public.Several.{games_word, summary_text, unplayed_text};

use crate::app::messages;
use crate::output::file_name::FileName;
use crate::output::outcome::{RunError, Summary};
use crate::output::texts::push_title;
use crate::output::write_all::{finish, write_all};
use itoa::Buffer;
use pgn_text::Tally;
use std::alloc::{AllocError, Global};
use std::io::Write;

/// The line that reports a failed run.
pub fn line_of(error: RunError) -> &'static str {
    match error {
        RunError::Read => messages::READ_FAILED,
        RunError::Write => messages::WRITE_FAILED,
        RunError::OutOfMemory => messages::OUT_OF_MEMORY,
        RunError::InputTooLong => messages::INPUT_TOO_LONG,
    }
}

/// Writes bytes to standard error. A fault in that is ignored: there is nowhere left to report it.
pub fn report_bytes<E: Write>(err: &mut Tally<E>, bytes: &[u8]) {
    if err.faulted() {
        return;
    }
    let _ = write_all(err, bytes);
    let _ = err.flush();
}

/// Writes a text to standard error. A fault in that is ignored.
pub fn report_line<E: Write>(err: &mut Tally<E>, text: &str) {
    report_bytes(err, text.as_bytes());
}

/// The name of a file, and what parts it from the text after it, where there is one.
fn title_of(name: &Option<FileName>) -> (&[u8], &[u8])
    ensures { titled (codes ": ") name.now ≡ result.0.now ++ result.1.now }
{
    match name {
        Some(name) => (name.bytes(), b": "),
        None => (b"", b""),
    }
}

/// Writes a line of the program, with the name of a file before this text where there is one. No
/// memory is needed.
fn put_line<E: Write>(
    err: &mut Tally<E>,
    name: &Option<FileName>,
    text: &[u8],
) -> Result<(), RunError>
    requires { err.old.faulted ≡ false }
    ensures { OnOk result (Appends (E.contents err.old.inner) (E.contents err.new.inner)
        (codes "pgn-extract: " ++ titled (codes ": ") name.now ++ text.now)) }
{
    let (title, gap) = title_of(name);
    write_all(err, b"pgn-extract: ")?;
    write_all(err, title)?;
    write_all(err, gap)?;
    write_all(err, text)
}

/// Reports why a run failed, with the name of its file where there is one. A fault in that is
/// ignored.
pub fn report_failure<E: Write>(err: &mut Tally<E>, name: &Option<FileName>, error: RunError) {
    if err.faulted() {
        return;
    }
    let line = line_of(error);
    let text = line.strip_prefix(messages::PROGRAM).unwrap_or(line);
    let _ = put_line(err, name, text.as_bytes());
    let _ = err.flush();
}

/// What stands between the two numbers of a summary.
fn word_after(games: u64) -> &'static [u8]
    ensures { result.now ≡ games_word games }
{
    if games == 1 { b" game, " } else { b" games, " }
}

/// Appends how many games were not played.
fn push_count_unplayed(line: &mut Vec<u8>, unplayed: u64) -> Result<(), AllocError>
    ensures { OnOk result (line.new.items
        ≡ line.old.items ++ codes ", " ++ decimal unplayed ++ codes " not played") }
{
    let mut number = Buffer::new();
    line.extend_from_slice(b", ")?;
    line.extend_from_slice(number.format(unplayed).as_bytes())?;
    line.extend_from_slice(b" not played")?;
    Ok(())
}

/// Appends what a summary says of the games that were not played, where tags came first.
fn push_unplayed(line: &mut Vec<u8>, tags_first: bool, unplayed: u64) -> Result<(), AllocError>
    ensures { OnOk result (line.new.items ≡ line.old.items ++ unplayed_text tags_first unplayed) }
{
    if tags_first {
        push_count_unplayed(line, unplayed)?;
    }
    Ok(())
}

/// The line that says how many games were read, and how many of them were faulty; where tags came
/// first, also how many were not played.
fn summary_line(
    alloc: Global,
    name: &Option<FileName>,
    summary: &Summary,
    tags_first: bool,
) -> Result<Vec<u8>, AllocError>
    ensures { IfOk result (λ line. line.items ≡ summary_text tags_first name.now summary.now) }
{
    let mut number = Buffer::new();
    let mut line = Vec::from_slice(alloc, messages::PROGRAM.as_bytes())?;
    push_title(&mut line, name, b": ")?;
    line.extend_from_slice(number.format(summary.games).as_bytes())?;
    line.extend_from_slice(word_after(summary.games))?;
    line.extend_from_slice(number.format(summary.faulty).as_bytes())?;
    line.extend_from_slice(b" of them faulty")?;
    push_unplayed(&mut line, tags_first, summary.unplayed)?;
    line.extend_from_slice(b"\n")?;
    Ok(line)
}

/// Writes how many games were read, and how many of them were faulty; where tags came first, also
/// how many were not played.
pub fn put_summary<E: Write>(
    alloc: Global,
    err: &mut Tally<E>,
    name: &Option<FileName>,
    summary: &Summary,
    tags_first: bool,
) -> Result<(), RunError>
    requires { err.old.faulted ≡ false }
    ensures line { OnOk result (Appends (E.contents err.old.inner) (E.contents err.new.inner)
        (summary_text tags_first name.now summary.now)) }
    ensures left { OnErr result (AppendsFront (E.contents err.old.inner) (E.contents err.new.inner)
        (summary_text tags_first name.now summary.now)) }
    ensures only { IfErr result (λ error. (error ≡ RunError.Write)
        ⊎ (error ≡ RunError.OutOfMemory)) }
    ensures fault { IsErrOf result RunError.Write ↔ (err.new.faulted ≡ true) }
{
    let line = summary_line(alloc, name, summary, tags_first)?;
    write_all(err, &line)?;
    finish(err)
}

/// Writes what was gathered before a run failed. After a write that failed nothing is written.
pub fn flush_rest<O: Write>(out: &mut Tally<O>) {
    if out.faulted() {
        return;
    }
    let _ = out.flush();
}
