//! What a run is to do.
ghost use Rattle.std.specs.Prelude.{◌≡◌};
ghost use Rattle.pgn_extract.specs.Public.Listing.{is_plain};
ghost use Rattle.pgn_extract.specs.Private.Lines.{is_bare};

use crate::marks::Marks;
use crate::output::file_name::FileName;
use crate::rows::column::Row;
use pgn_criteria::Criteria;
use pgn_game::{Notation, Openings, Style, TagEdits};

/// What a run writes.
#[derive(Clone, Copy, Debug, PartialEq, Eq)]
pub enum Mode {
    /// The mark of each readable game, on a line of its own.
    Index,
    /// Each entry on a line of its own: the mark of a game whose main line can be replayed, and a
    /// ply of it whose position is looked for.
    List,
    /// The same of each line of a game, where all can be replayed: after the ply stands the number
    /// of the line in the game. A ply that a variation shares with the line that it stands in is
    /// an entry of that line alone.
    EachLine,
    /// The text of each game that is selected.
    Export,
}

/// Which games the export writes.
#[derive(Clone, Copy, Debug, PartialEq, Eq)]
pub enum Select {
    /// The sound games that have an entry.
    Matching,
    /// The sound games that have none.
    Others,
    /// The faulty games and the unreadable pieces, each as it stands. They are reported as ever.
    Faulty,
}

/// What the line of an entry shows after the ply.
#[derive(Clone, Copy, Debug, PartialEq, Eq)]
pub struct Fields {
    /// The text of the position in FEN.
    pub fen: bool,
    /// The move that is played from there.
    pub next: bool,
}

impl Fields {
    /// The line ends after the ply.
    pub const NONE: Fields = Fields {
        fen: false,
        next: false,
    };

    /// Whether the line ends after the ply.
    pub fn is_empty(&self) -> bool
        ensures { result ≡ is_plain self.now }
    {
        !self.fen && !self.next
    }
}

/// What the line of an entry is.
#[derive(Debug, Drop)]
pub enum EntryLine {
    /// The mark of its game and its ply, and what is shown after them.
    Marked(Fields),
    /// A row.
    InColumns(Row),
}

impl EntryLine {
    /// Whether it is the mark and the ply alone.
    pub(crate) fn is_bare(&self) -> bool
        ensures { result ≡ is_bare self.now }
    {
        match self {
            EntryLine::Marked(fields) => fields.is_empty(),
            EntryLine::InColumns(_) => false,
        }
    }
}

/// How a game that the export selects is written.
#[derive(Clone, Copy, Debug, PartialEq, Eq)]
pub enum Form {
    /// In the standard's format for export.
    Standard,
    /// In the standard's format, from the position of its first entry on; whole, where it has none.
    FromEntry,
    /// Each of its lines in the standard's format, as a game of its own.
    EachLine,
    /// Each of its lines on a line of its own, as `Line`, with its turns in this notation.
    LineOfEach(Notation),
    /// As it stands, followed by two line feeds.
    AsItStands,
    /// On a line of its own: its mark, the position that it starts from, and the moves of its main
    /// line in this notation.
    Line(Notation),
    /// As the record of a pack: its mark, the name of its file where lines have one, its tags, its
    /// result and the moves of its main line.
    Record,
}

/// What a run writes, and where in the file it begins. With [`Mode::Index`] only `name`, `chosen`,
/// `explain`, `number` and `offset` have an effect.
#[derive(Drop)]
pub struct Settings {
    /// The name that the lines of games begin with, if they have one.
    pub name: Option<FileName>,
    /// The marks of the pieces that are reported; without marks, every one is.
    pub chosen: Option<Marks>,
    /// The lines of openings by which games count: each with the tags of its opening. Without
    /// them a game counts as it stands.
    pub openings: Option<Openings>,
    /// What is written.
    pub mode: Mode,
    /// Which positions are looked for; without criteria, every one.
    pub criteria: Option<Criteria>,
    /// The least ply that is looked for. Ply 0 is the starting position.
    pub min_ply: u32,
    /// The largest ply that is looked for. Where it is less than the least one, none is.
    pub max_ply: u32,
    /// Whether of each game only the first entry is listed.
    pub first: bool,
    /// What the line of an entry is.
    pub line: EntryLine,
    /// Which games the export writes.
    pub select: Select,
    /// How each game that the export selects is written.
    pub form: Form,
    /// The edits of the tags of a game in the standard's format. Without them a game has its own.
    pub edits: Option<TagEdits>,
    /// What is kept of a game in the standard's format. Where variations are, each line of a game
    /// must be sound, also of one that is written as it stands; else its main line alone, as where
    /// it is written on a line or as a record.
    pub style: Style,
    /// Whether notes stand after the lines of faulty games: where a game is faulty, and why.
    pub explain: bool,
    /// Whether a game whose tags and result keep it from having an entry is read, and not played.
    /// It has an effect only where games with an entry are looked for.
    pub tags_first: bool,
    /// The number of the first piece that the run meets.
    pub number: u64,
    /// How many bytes of the input are dropped first, and the offset of the first byte after them.
    pub offset: u64,
}
