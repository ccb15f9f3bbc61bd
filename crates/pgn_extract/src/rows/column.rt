//! The columns of a row.
ghost use Rattle.std.specs.Prelude.{◌≡◌};
ghost use Rattle.pgn_extract.specs.Public.Columns.{column_name, game_column_name, ply_column_name};
ghost use Rattle.pgn_extract.specs.Public.Columns.{position_column_name, is_number_of_game};
ghost use Rattle.pgn_extract.specs.Public.Columns.{is_number_of_ply, is_number_of_position};
ghost use Rattle.pgn_extract.specs.Public.Columns.{line_column_name, is_number_of_line};
ghost use Rattle.pgn_extract.specs.Public.Columns.{annotation_column_name, shows_annotations};
ghost use Rattle.pgn_extract.specs.Public.Columns.{is_of_opening, shows_opening};
ghost use Rattle.pgn_extract.specs.Private.RowTexts.{needs_line};
ghost use Rattle.std.specs.List.{list_any};

use pgn_game::Notation;

/// How rows are written.
#[derive(Clone, Copy, Debug, PartialEq, Eq)]
pub enum Format {
    /// Comma-separated values.
    Csv,
    /// Values parted by tabs.
    Tsv,
    /// An object of JSON a line.
    Jsonl,
}

/// What a column shows of a game.
#[derive(Clone, Copy, Debug, PartialEq, Eq)]
pub enum GameColumn {
    /// The name of its file; empty where lines have none.
    File,
    /// Its number.
    Game,
    /// Its offset.
    Offset,
    /// Its mark.
    Id,
    /// The result that ends its text.
    Result,
    /// The ply at which the line of its opening ends; empty where it has no opening.
    OpeningPly,
    /// The number of the line among the lines of the game, of which the main line has 0.
    Line,
    /// How many plies the line shares with the one that it leaves; the main line has 0.
    From,
}

/// What a column shows of a position.
#[derive(Clone, Copy, Debug, PartialEq, Eq)]
pub enum PositionColumn {
    /// Its text in FEN.
    Fen,
    /// Which side is to move, as in FEN.
    Turn,
    /// The number of the move that is to be played.
    Number,
    /// The men on the board, as the first field of its text in FEN.
    Men,
    /// The sign of a check, of mate or of stalemate; else empty.
    Check,
    /// How many men of each kind each side has.
    Material,
}

/// What a column shows of a main line that is kept.
#[derive(Clone, Copy, Debug, PartialEq, Eq)]
pub enum LineColumn {
    /// How many plies it has.
    Plies,
    /// The move that led to the ply, in a notation; empty at the start.
    Last(Notation),
    /// All its moves in a notation, with blanks between.
    Moves(Notation),
}

/// What a column shows of a ply.
#[derive(Clone, Copy, Debug, PartialEq, Eq)]
pub enum PlyColumn {
    /// How many plies lead there.
    Ply,
    /// Something of the position.
    OfPosition(PositionColumn),
    /// The move that is played from there; empty at the end.
    Next,
    /// That move as `--uci` writes it.
    NextUci,
    /// Something for which the whole main line is kept.
    OfLine(LineColumn),
}

/// What a column shows of the annotations of a ply: of the NAGs and comments of the main line that
/// stand after the move which leads there, and before the next.
#[derive(Clone, Copy, Debug, PartialEq, Eq)]
pub enum AnnotationColumn {
    /// The NAGs.
    Nags,
    /// The words of the comments.
    Comment,
    /// The value of the first command `%clk` of them.
    Clock,
    /// The value of the first command `%eval` of them.
    Eval,
}

/// What a column shows.
#[derive(Debug, Drop)]
pub enum Column {
    /// The value of the tag with this name; empty where the game has none.
    Tag(Vec<u8>),
    /// Something of the game.
    OfGame(GameColumn),
    /// Something of the ply.
    OfPly(PlyColumn),
    /// Something of the annotations of the ply.
    OfAnnotations(AnnotationColumn),
}

/// What a row has, and how it is written.
#[derive(Debug, Drop)]
pub struct Row {
    /// The columns, in their order.
    pub columns: Vec<Column>,
    /// How they are written.
    pub format: Format,
}

impl GameColumn {
    /// Its name.
    pub(crate) fn name(self) -> &'static [u8]
        ensures { result.now ≡ game_column_name self }
    {
        match self {
            GameColumn::File => b"@file",
            GameColumn::Game => b"@game",
            GameColumn::Offset => b"@offset",
            GameColumn::Id => b"@id",
            GameColumn::Result => b"@result",
            GameColumn::OpeningPly => b"@opening-ply",
            GameColumn::Line => b"@line",
            GameColumn::From => b"@from",
        }
    }

    /// Whether its values are numbers.
    pub(crate) fn is_number(self) -> bool
        ensures { result ≡ is_number_of_game self }
    {
        match self {
            GameColumn::Game | GameColumn::Offset | GameColumn::Line | GameColumn::From => true,
            GameColumn::File | GameColumn::Id | GameColumn::Result | GameColumn::OpeningPly =>
                false,
        }
    }

    /// Whether it shows something of openings.
    fn shows_opening(self) -> bool
        ensures { result ≡ is_of_opening self }
    {
        match self {
            GameColumn::OpeningPly => true,
            GameColumn::File
            | GameColumn::Game
            | GameColumn::Offset
            | GameColumn::Id
            | GameColumn::Result
            | GameColumn::Line
            | GameColumn::From => false,
        }
    }
}

impl PositionColumn {
    /// Its name.
    fn name(self) -> &'static [u8]
        ensures { result.now ≡ position_column_name self }
    {
        match self {
            PositionColumn::Fen => b"@fen",
            PositionColumn::Turn => b"@turn",
            PositionColumn::Number => b"@number",
            PositionColumn::Men => b"@placement",
            PositionColumn::Check => b"@check",
            PositionColumn::Material => b"@material",
        }
    }

    /// Whether its values are numbers.
    fn is_number(self) -> bool
        ensures { result ≡ is_number_of_position self }
    {
        match self {
            PositionColumn::Number => true,
            PositionColumn::Fen
            | PositionColumn::Turn
            | PositionColumn::Men
            | PositionColumn::Check
            | PositionColumn::Material => false,
        }
    }
}

impl LineColumn {
    /// Its name.
    fn name(self) -> &'static [u8]
        ensures { result.now ≡ line_column_name self }
    {
        match self {
            LineColumn::Plies => b"@plies",
            LineColumn::Last(Notation::San) => b"@last",
            LineColumn::Last(Notation::Uci) => b"@last-uci",
            LineColumn::Moves(Notation::San) => b"@moves",
            LineColumn::Moves(Notation::Uci) => b"@uci",
        }
    }

    /// Whether its values are numbers.
    fn is_number(self) -> bool
        ensures { result ≡ is_number_of_line self }
    {
        match self {
            LineColumn::Plies => true,
            LineColumn::Last(_) | LineColumn::Moves(_) => false,
        }
    }
}

impl PlyColumn {
    /// Its name.
    pub(crate) fn name(self) -> &'static [u8]
        ensures { result.now ≡ ply_column_name self }
    {
        match self {
            PlyColumn::Ply => b"@ply",
            PlyColumn::OfPosition(own) => own.name(),
            PlyColumn::Next => b"@next",
            PlyColumn::NextUci => b"@next-uci",
            PlyColumn::OfLine(own) => own.name(),
        }
    }

    /// Whether its values are numbers.
    pub(crate) fn is_number(self) -> bool
        ensures { result ≡ is_number_of_ply self }
    {
        match self {
            PlyColumn::Ply => true,
            PlyColumn::OfPosition(own) => own.is_number(),
            PlyColumn::Next | PlyColumn::NextUci => false,
            PlyColumn::OfLine(own) => own.is_number(),
        }
    }

    /// Whether the whole main line is kept for it.
    pub(crate) fn needs_line(self) -> bool
        ensures { result ≡ needs_line self }
    {
        match self {
            PlyColumn::Ply | PlyColumn::OfPosition(_) | PlyColumn::Next | PlyColumn::NextUci => {
                false
            }
            PlyColumn::OfLine(_) => true,
        }
    }
}

impl AnnotationColumn {
    /// Its name.
    pub(crate) fn name(self) -> &'static [u8]
        ensures { result.now ≡ annotation_column_name self }
    {
        match self {
            AnnotationColumn::Nags => b"@nags",
            AnnotationColumn::Comment => b"@comment",
            AnnotationColumn::Clock => b"@clk",
            AnnotationColumn::Eval => b"@eval",
        }
    }
}

impl Column {
    /// Whether it shows something of openings.
    pub(crate) fn shows_opening(&self) -> bool
        ensures { result ≡ shows_opening self.now }
    {
        match self {
            Column::OfGame(own) => own.shows_opening(),
            Column::Tag(_) | Column::OfPly(_) | Column::OfAnnotations(_) => false,
        }
    }

    /// Whether it shows annotations.
    pub(crate) fn shows_annotations(&self) -> bool
        ensures { result ≡ shows_annotations self.now }
    {
        match self {
            Column::OfAnnotations(_) => true,
            Column::Tag(_) | Column::OfGame(_) | Column::OfPly(_) => false,
        }
    }

    /// The name with which the header shows it.
    pub(crate) fn name(&self) -> &[u8]
        ensures { result.now ≡ column_name self.now }
    {
        match self {
            Column::Tag(name) => name,
            Column::OfGame(own) => own.name(),
            Column::OfPly(own) => own.name(),
            Column::OfAnnotations(own) => own.name(),
        }
    }
}

impl Row {
    /// Whether one of the columns shows annotations.
    pub(crate) fn shows_annotations(&self) -> bool
        ensures { result ≡ list_any shows_annotations self.now.columns.items }
    {
        self.columns.iter().any(|column| column.shows_annotations())
    }
}
