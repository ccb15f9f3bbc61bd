//! What `--explain` adds before the run to a refusal: the line of criteria and its place, or the
//! name of a file and the system's reason; and its notes of lines of criteria that mislead.
ghost use Rattle.std.specs.Prelude.{◌≡◌, ◌++◌, ℕ, List, OnOk};

use crate::app::messages;
use crate::output::file_name::{FileName, shown_bytes};
use crate::output::texts::push_number;
use memchr::memchr;
use pgn_criteria::{Criteria, complaint_of};
use std::alloc::{AllocError, Global};
use std::io;

/// The most bytes of a line that are shown before the place, and from it on.
const BEFORE: usize = 60;

const FROM: usize = 19;

/// Appends the system's reason for an error.
pub fn push_reason(alloc: Global, text: &mut Vec<u8>, error: &io::Error) -> Result<(), AllocError>
    ensures { OnOk result ((reason : List ℕ) × (text.new.items ≡ text.old.items ++ reason)) }
{
    let reason = match format!(in alloc; "{error}") {
        Ok(reason) => reason,
        Err(_) => return Err(AllocError),
    };
    let (reason, _) = reason
        .as_str()
        .split_once(" (os error ")
        .unwrap_or((reason.as_str(), ""));
    text.extend_from_slice(reason.as_bytes())
}

/// How standard input is read in place of the file that is refused.
fn standard_input_note(refusal: &str) -> &'static [u8] {
    if refusal == messages::CANNOT_OPEN_INPUT {
        b"  without FILE standard input is read\n"
    } else {
        b"  standard input has the name /dev/stdin here\n"
    }
}

/// A refusal of a file, and below it the name of the file and the system's reason.
pub fn file_note(
    alloc: Global,
    refusal: &str,
    path: &str,
    error: &io::Error,
) -> Result<Vec<u8>, AllocError> {
    let name = FileName::of_path(alloc, path)?;
    let mut note = Vec::from_slice(alloc, refusal.as_bytes())?;
    note.extend_from_slice(b"  ")?;
    note.extend_from_slice(name.bytes())?;
    note.extend_from_slice(b": ")?;
    push_reason(alloc, &mut note, error)?;
    note.push(b'\n')?;
    if path == "-" {
        note.extend_from_slice(standard_input_note(refusal))?;
    }
    Ok(note)
}

/// The line that refuses an output that is one of the files that are to be read.
pub fn written_note(alloc: Global, path: &str) -> Result<Vec<u8>, AllocError> {
    let name = FileName::of_path(alloc, path)?;
    let mut note = Vec::from_slice(alloc, messages::OUTPUT_IS_READ.as_bytes())?;
    note.extend_from_slice(name.bytes())?;
    note.push(b'\n')?;
    Ok(note)
}

/// Appends the line that refuses a line of criteria.
fn push_refusal(note: &mut Vec<u8>, number: usize) -> Result<(), AllocError> {
    note.extend_from_slice(b"pgn-extract: criteria line ")?;
    push_number(note, number)?;
    note.push(b'\n')?;
    Ok(())
}

/// What follows the first line of a text.
pub(crate) fn after_line(text: &[u8]) -> &[u8] {
    match memchr(b'\n', text) {
        Some(end) => &text[end + 1..],
        None => b"".as_slice(),
    }
}

/// The first line of a text, without its end.
pub(crate) fn first_line(text: &[u8]) -> &[u8] {
    let line = match memchr(b'\n', text) {
        Some(end) => &text[..end],
        None => text,
    };
    match line {
        [before @ .., b'\r'] => before,
        _ => line,
    }
}

/// The line of the text with this number, counted from 1.
fn line_at(text: &[u8], number: usize) -> &[u8] {
    let mut rest = text;
    for _ in 1..number {
        rest = after_line(rest);
    }
    first_line(rest)
}

/// Appends the end of what stands before the place: after two dots, where more does. How many
/// columns that takes is answered by the blanks.
fn push_before(
    alloc: Global,
    note: &mut Vec<u8>,
    blanks: &mut Vec<u8>,
    before: &[u8],
) -> Result<(), AllocError> {
    let end = &before[before.len().saturating_sub(BEFORE)..];
    if end.len() < before.len() {
        note.extend_from_slice(b"..")?;
        blanks.extend_from_slice(b"  ")?;
    }
    let shown = shown_bytes(alloc, end)?;
    note.extend_from_slice(shown.as_bytes())?;
    for _ in shown.chars() {
        blanks.push(b' ')?;
    }
    Ok(())
}

/// Appends the beginning of what stands from the place on, with two dots where more does.
fn push_after(alloc: Global, note: &mut Vec<u8>, rest: &[u8]) -> Result<(), AllocError> {
    let begin = &rest[..rest.len().min(FROM)];
    note.extend_from_slice(shown_bytes(alloc, begin)?.as_bytes())?;
    if begin.len() < rest.len() {
        note.extend_from_slice(b"..")?;
    }
    Ok(())
}

/// The refusal of the line of criteria with this number, and below it the line, a mark where it
/// stops being of the language, and what is expected there.
pub fn line_note(alloc: Global, text: &[u8], number: usize) -> Result<Vec<u8>, AllocError> {
    let line = line_at(text, number);
    let complaint = complaint_of(line);
    let at = complaint.at.min(line.len());
    let (before, rest) = line.split_at(at);
    let mut note = Vec::new(alloc);
    let mut blanks = Vec::from_slice(alloc, b"\n  ")?;
    push_refusal(&mut note, number)?;
    note.extend_from_slice(b"  ")?;
    push_before(alloc, &mut note, &mut blanks, before)?;
    push_after(alloc, &mut note, rest)?;
    note.extend_from_slice(&blanks)?;
    note.extend_from_slice(b"^ ")?;
    note.extend_from_slice(complaint.expected.as_bytes())?;
    note.push(b'\n')?;
    Ok(note)
}

/// A line for each line of these criteria that misleads, with its number and why. The criteria were
/// read from the text.
pub fn doubt_notes(alloc: Global, criteria: &Criteria, text: &[u8]) -> Result<Vec<u8>, AllocError> {
    let mut notes = Vec::new(alloc);
    for doubt in &criteria.doubts(alloc, text)? {
        notes.extend_from_slice(b"  criteria line ")?;
        push_number(&mut notes, doubt.line)?;
        notes.extend_from_slice(b": ")?;
        notes.extend_from_slice(doubt.why.as_bytes())?;
        notes.push(b'\n')?;
    }
    Ok(notes)
}
