//! How the lines of the entries of a game are made.
ghost use Rattle.std.specs.Prelude.{◌≡◌, true, IfOk};
ghost use Rattle.pgn_extract.specs.Private.Lines.{MakesLines, keeps_line, line_made, made_line};
ghost use Rattle.pgn_extract.specs.Private.RowGames.{IsGameIn, name_of, openings_of, is_text};
ghost use Rattle.pgn_extract.specs.Public.Listing.{has_annotations};
ghost use Rattle.pgn_text.specs.Public.GameTexts.{GameText};

use crate::entries::row_game::RowGame;
use crate::entries::row_maker::RowMaker;
use crate::marks::LineId;
use crate::settings::{EntryLine, Fields};
use std::alloc::{AllocError, Global};

/// What is shown of an entry: something after its mark and its ply, where lines are listed first
/// the number of its line, or a row.
#[derive(Drop)]
pub(crate) enum LineMaker<'s> {
    Fields(Fields, Option<LineId>),
    Rows(RowMaker<'s>),
}

impl<'s> LineMaker<'s> {
    /// Whether the whole main line is kept for it.
    pub(crate) fn needs_line(&self) -> bool
        ensures { result ≡ keeps_line self.now }
    {
        match self {
            LineMaker::Fields(..) => false,
            LineMaker::Rows(rows) => rows.needs_line(),
        }
    }

    /// What is shown of the entries of the game.
    pub(crate) fn of_game(
        alloc: Global,
        line: &'s EntryLine,
        game: RowGame<'_, 's>,
    ) -> Result<Self, AllocError>
        requires { has_annotations line.now ≡ true → is_text game.source ≡ true }
        ensures { IfOk result (λ lines. (line.now ≡ made_line lines)
            × (game.entry.line ≡ line_made lines)
            × ((text : GameText) → IsGameIn game.entry.source text
            → MakesLines lines (name_of game.entry) (openings_of game.entry.source) game.entry.id
            text)) }
    {
        match line {
            EntryLine::Marked(fields) => Ok(LineMaker::Fields(*fields, game.line)),
            EntryLine::InColumns(row) => Ok(LineMaker::Rows(RowMaker::of_game(alloc, row, game)?)),
        }
    }
}
