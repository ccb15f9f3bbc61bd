//! The marks at the beginnings of lines.
ghost use Rattle.std.specs.Prelude.{◌≡◌, ◌<◌, ◌++◌, ℕ, List, codes, length, not, option_map};
ghost use Rattle.std.specs.Prelude.{position, IfOk, IfSome};
ghost use Rattle.pgn_extract.specs.Private.MarkLines.{front_mark, is_mark_byte, line_mark};
ghost use Rattle.pgn_extract.specs.Private.MarkLines.{mark_of_rest, rest_after};

use crate::app::mark::read_mark;
use crate::marks::GameId;
use std::alloc::{AllocError, Global};

/// How the report of a bad game begins, where lines have no name.
const REPORT: &[u8] = b"pgn-extract: game ";

/// Whether a byte may stand in a mark.
fn is_mark_byte(byte: u8) -> bool
    ensures { result ≡ is_mark_byte byte }
{
    (b'0'..=b'9').contains(&byte) || byte == b'@'
}

/// Where the first byte stands that is none of a mark.
fn end_of_mark(text: &[u8]) -> Option<usize>
    ensures place { result ≡ position (λ byte. not (is_mark_byte byte)) text.now }
    ensures within { IfSome result (λ end. end < length text.now) }
{
    text.iter().position(|byte| !is_mark_byte(*byte))
}

/// The mark at the front of a text, if there is one.
fn front_mark(text: &[u8]) -> Option<GameId>
    ensures { result ≡ front_mark text.now }
{
    match end_of_mark(text) {
        Some(end) => read_mark(&text[..end]),
        None => read_mark(text),
    }
}

/// What follows a prefix, in a text that begins with it.
fn rest_after<'a>(prefix: &[u8], text: &'a [u8]) -> Option<&'a [u8]>
    ensures { option_map (λ rest. rest.now) result ≡ rest_after prefix.now text.now }
{
    text.strip_prefix(prefix)
}

/// The mark that follows a prefix, if there is one.
fn mark_after(prefix: &[u8], text: &[u8]) -> Option<GameId>
    ensures { result ≡ mark_of_rest (rest_after prefix.now text.now) }
{
    match rest_after(prefix, text) {
        Some(rest) => front_mark(rest),
        None => None,
    }
}

/// How lines begin that have the name of a file.
#[derive(Drop)]
pub struct NamedLines {
    /// Before a mark in lines: the name and a colon.
    line: Vec<u8>,
    /// Before a mark in reports of bad games.
    report: Vec<u8>,
}

impl NamedLines {
    /// How those begin that have this name.
    pub fn new(alloc: Global, name: &[u8]) -> Result<NamedLines, AllocError>
        ensures line { IfOk result (λ named. named.line.items ≡ name.now ++ codes ":") }
        ensures report { IfOk result (λ named. named.report.items
            ≡ codes "pgn-extract: " ++ name.now ++ codes ": game ") }
    {
        let mut line = Vec::from_slice(alloc, name)?;
        line.extend_from_slice(b":")?;
        let mut report = Vec::from_slice(alloc, b"pgn-extract: ")?;
        report.extend_from_slice(name)?;
        report.extend_from_slice(b": game ")?;
        Ok(NamedLines { line, report })
    }

    /// The mark of a line that has this name, or none.
    pub fn mark(&self, line: &[u8]) -> Option<GameId>
        ensures { (name : List ℕ) → self.now.line.items ≡ name ++ codes ":"
            → self.now.report.items ≡ codes "pgn-extract: " ++ name ++ codes ": game "
            → result ≡ line_mark name line.now }
    {
        if let Some(mark) = front_mark(line) {
            return Some(mark);
        }
        if let Some(mark) = mark_after(REPORT, line) {
            return Some(mark);
        }
        if let Some(mark) = mark_after(&self.line, line) {
            return Some(mark);
        }
        mark_after(&self.report, line)
    }
}

/// Whether it is the line of a run over some other file: a mark stands after a colon, and after it
/// a blank or the line's end; or, in a report of a bad game, a colon.
pub fn is_elsewhere(line: &[u8]) -> bool {
    let is_report = line.starts_with(b"pgn-extract: ");
    for at in 0..line.len() {
        if line[at] == b':' && follows_name(&line[at + 1..], is_report) {
            return true;
        }
    }
    false
}

/// Whether this is what follows a name in a line of a run, or in a report of a bad game.
fn follows_name(text: &[u8], is_report: bool) -> bool {
    let own = if is_report {
        text.strip_prefix(b" game ").unwrap_or(b"")
    } else {
        text
    };
    front_mark(own).is_some() && ends_well(own, is_report)
}

/// Whether what follows a mark is what follows it in lines of a run.
fn ends_well(text: &[u8], is_report: bool) -> bool {
    let rest = match end_of_mark(text) {
        Some(end) => &text[end..],
        None => b"",
    };
    match rest {
        [b':', ..] => is_report,
        [b' ', ..] | [] => !is_report,
        _ => false,
    }
}

/// Whether it is a line that stands beside the marks of a run: a blank line, a note, or the
/// summary.
pub fn is_beside(line: &[u8]) -> bool {
    line.starts_with(b"  ") || line.trim_ascii().is_empty() || is_summary(line)
}

/// Whether it is the line of a summary: `N games, M of them faulty`, with the name of a file or
/// without.
fn is_summary(line: &[u8]) -> bool {
    if !line.starts_with(b"pgn-extract: ") {
        return false;
    }
    let Some(before) = line.strip_suffix(b" of them faulty") else {
        return false;
    };
    let before = without_number(before);
    let counted = before
        .strip_suffix(b" games, ")
        .or(before.strip_suffix(b" game, "));
    match counted {
        Some(counted) => without_number(counted).ends_with(b": "),
        None => false,
    }
}

/// A text without the digits at its end.
fn without_number(text: &[u8]) -> &[u8] {
    match text.iter().rposition(|byte| !(b'0'..=b'9').contains(byte)) {
        Some(last) => &text[..last + 1],
        None => b"",
    }
}
