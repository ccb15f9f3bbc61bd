//! How the lines of a game are written.

use crate::exports::edits::TagEdits;
use crate::exports::notation::Notation;
use crate::exports::style::Style;

/// How the lines of a game are written.
#[derive(Clone, Copy)]
pub enum LineForm<'s> {
    /// In the export format, as games of their own.
    Export {
        /// The edits of each.
        edits: Option<&'s TagEdits>,
        /// What is kept of each.
        style: &'s Style,
    },
    /// On lines of text: the position that a line starts from, and its turns. A pass is `--`, or
    /// the null move of UCI, `0000`.
    Turns {
        /// How turns are written.
        notation: Notation,
        /// What each line of text begins with.
        before: &'s [u8],
    },
}
