//! The name of a file, and other texts, as lines show them.
ghost use Rattle.std.specs.Prelude.{◌≡◌, ℕ, List, IfOk, string_bytes};
ghost use Rattle.pgn_extract.specs.Public.Index.{shown_char, shown_name};

use std::alloc::{AllocError, Global};
use std::marker::Model;

/// The name of a file, as lines show it: without a control character, so no name is two lines or
/// moves a terminal's cursor.
#[derive(Drop)]
pub struct FileName {
    shown: String,
}

impl Model for FileName {
    ghost use Rattle.std.specs.Prelude.{ℕ, List, string_bytes};

    ghost Value = { List ℕ };

    ghost view = { λ name. string_bytes name.shown };
}

/// A character as lines show it: `?` for a control character.
fn shown_char_of(character: char) -> char
    ensures { result ≡ shown_char character }
{
    if character < ' ' || ('\x7F' <= character && character <= '\u{9F}') {
        '?'
    } else {
        character
    }
}

/// A text as a line shows it.
fn shown_text(alloc: Global, text: &str) -> Result<String, AllocError>
    ensures { IfOk result (λ shown. string_bytes shown ≡ shown_name text.now) }
{
    let mut shown = String::new(alloc);
    for character in text.chars() {
        shown.push(shown_char_of(character))?;
    }
    Ok(shown)
}

/// A text of lines as a terminal shows them.
pub(crate) fn shown_lines(alloc: Global, text: &str) -> Result<String, AllocError> {
    let mut shown = String::new(alloc);
    for character in text.chars() {
        shown.push(if character == '\n' {
            character
        } else {
            shown_char_of(character)
        })?;
    }
    Ok(shown)
}

/// Bytes as a line shows them: with `?` for each byte that is none of UTF-8, too.
pub(crate) fn shown_bytes(alloc: Global, bytes: &[u8]) -> Result<String, AllocError> {
    let mut shown = String::new(alloc);
    for chunk in bytes.utf8_chunks() {
        shown.push_str(shown_text(alloc, chunk.valid())?.as_str())?;
        for _ in chunk.invalid() {
            shown.push('?')?;
        }
    }
    Ok(shown)
}

impl FileName {
    /// The name for a path: the path, with `?` for each control character.
    pub fn of_path(alloc: Global, path: &str) -> Result<FileName, AllocError>
        ensures { IfOk result (λ name. name ≡ shown_name path.now) }
    {
        Ok(FileName {
            shown: shown_text(alloc, path)?,
        })
    }

    /// Its bytes.
    pub fn bytes(&self) -> &[u8]
        ensures { result.now ≡ self.now }
    {
        self.shown.as_bytes()
    }
}
