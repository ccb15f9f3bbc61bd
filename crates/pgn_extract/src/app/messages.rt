//! The fixed lines of refusals and of failed runs, which go to standard error.

/// How each line begins.
pub const PROGRAM: &str = "pgn-extract: ";

/// Two modes were asked for.
pub const BOTH_MODES: &str = "pgn-extract: --list and --index exclude each other\n";

/// A game can't be chosen in two ways.
pub const BOTH_CHOICES: &str = "pgn-extract: --others and --faulty exclude each other\n";

/// Where lines are written, there is no choice of games.
pub const NO_GAMES_WRITTEN: &str =
    "pgn-extract: --others, --faulty and --as-is go with neither --list nor --index\n";

/// Where no entries are listed, their lines show nothing.
pub const NO_ENTRIES_LISTED: &str = "pgn-extract: --fen and --next go with --list\n";

/// Rows are the whole output.
pub const ROWS_ALONE: &str =
    "pgn-extract: --rows goes with none of --list, --index, --fen, --next, --others, --faulty, --as-is, --pack, --moves and --uci\n";

/// Where there are no rows, they have no format.
pub const NO_ROWS: &str = "pgn-extract: --csv, --tsv, --jsonl and --no-header go with --rows\n";

/// Rows have one format.
pub const SEVERAL_FORMATS: &str = "pgn-extract: --csv, --tsv and --jsonl exclude each other\n";

/// A column of rows has no name.
pub const COLUMN_WITHOUT_NAME: &str = "pgn-extract: --rows: a column has no name\n";

/// Rows have too many columns.
pub const TOO_MANY_COLUMNS: &str = "pgn-extract: --rows: more than 64 columns\n";

/// Moves have one notation.
pub const BOTH_NOTATIONS: &str = "pgn-extract: --moves and --uci exclude each other\n";

/// Lines of moves are of games that are selected, and nothing else is written.
pub const NO_LINES_OF_MOVES: &str =
    "pgn-extract: --moves and --uci go with none of --list, --index, --faulty and --as-is\n";

/// A pack is of games that are selected, and a record has one form.
pub const NO_PACK: &str =
    "pgn-extract: --pack goes with none of --list, --index, --moves, --uci, --faulty, --as-is, -C, -N, -V, --keep-commands, --strip-commands, --roster and -w\n";

/// Games are edited that are written in the standard's form alone.
pub const NO_TAGS_WRITTEN: &str =
    "pgn-extract: --set, --drop, --order, --fix-results, --plycount, --to-ply and --from-position go with none of --list, --index, --rows, --moves, --uci, --pack, --as-is and --faulty\n";

/// Games that have no position that is looked for begin with none.
pub const NO_POSITION: &str = "pgn-extract: --from-position and --others exclude each other\n";

/// Lines are listed, or written as games or on lines of moves.
pub const LINES_ARE_GAMES: &str =
    "pgn-extract: --lines goes with none of --index, --others, --faulty, --pack, --as-is, --from-position and -V\n";

/// A record has one line.
pub const PACKS_HAVE_ONE_LINE: &str =
    "pgn-extract: --lines goes without --packed: packs have no variations\n";

/// The lines of all games are written.
pub const NO_LINES_SEARCHED: &str =
    "pgn-extract: --lines goes with --criteria, --where, --min-ply and --openings only beside --list and --rows; else search what --lines wrote\n";

/// Commands are kept whole, and left out.
pub const BOTH_COMMANDS: &str =
    "pgn-extract: --keep-commands and --strip-commands exclude each other\n";

/// Without criteria no game is ruled out by its tags.
pub const NO_TAGS_TO_MEET: &str = "pgn-extract: --tags-first goes with --criteria or --where\n";

/// What is written of all games, or of faulty ones, and what their openings are, asks for each to
/// be played; packs are not.
pub const TAGS_ARE_NOT_FIRST: &str =
    "pgn-extract: --tags-first goes with none of --index, --packed, --others, --faulty, --pack and --openings\n";

/// Names are asked for, and refused.
pub const BOTH_NAMINGS: &str = "pgn-extract: --with-names and --no-names exclude each other\n";

/// A pack is listed or indexed, and nothing else is done with it.
pub const PACKS_GIVE_LINES: &str = "pgn-extract: --packed goes with --list, --rows or --index\n";

/// The lines of a pack have the names that were packed; and a pack is searched as a whole.
pub const PACKS_ARE_PLAIN: &str =
    "pgn-extract: --packed goes with none of --from, --until, --at, --with-names and --no-names\n";

/// A pack has something that is no segment, or the record of no game; its name follows.
pub const BAD_PACK: &str = "pgn-extract: bad pack: ";

/// A pack is of the layout without segments; its name follows.
pub const OLDER_PACK: &str =
    "pgn-extract: pack made by an older program, pack the collection anew: ";

/// A pack is of another layout; its name follows.
pub const OTHER_PACK: &str = "pgn-extract: pack of another layout: ";

/// A mark is of one file.
pub const MARKS_TAKE_ONE_FILE: &str = "pgn-extract: --from, --until and --at take one FILE\n";

/// The name of standard input.
pub const STANDARD_INPUT: &str = "(standard input)";

/// The text of `--from` or `--until` is no mark.
pub const BAD_MARK: &str = "pgn-extract: bad mark\n";

/// The same, with a note.
pub const BAD_MARK_NOTED: &str =
    "pgn-extract: bad mark\n  a mark is N@O, as --index prints it; 1@0 is the first game's\n";

/// The mark of `--until` does not stand after that of `--from`.
pub const NOTHING_BETWEEN: &str = "pgn-extract: --until is not after --from\n";

/// The note where the least ply is above the greatest.
pub const NO_PLY_BETWEEN: &str = "  --min-ply is above --max-ply, so no position is between\n";

/// The text of `--where` has a line feed or a carriage return.
pub const NOT_ONE_LINE: &str = "pgn-extract: --where takes one line\n";

/// Standard output is one of the files that are to be read; its name follows.
pub const OUTPUT_IS_READ: &str = "pgn-extract: the output is one of the files: ";

/// The file of marks could not be opened, or a read of it failed.
pub const CANNOT_READ_MARKS: &str = "pgn-extract: cannot read marks\n";

/// The file of openings could not be opened, or a read of it failed.
pub const CANNOT_READ_OPENINGS: &str = "pgn-extract: cannot read openings\n";

/// The file of openings has more bytes than its limit.
pub const OPENINGS_TOO_LONG: &str = "pgn-extract: openings too long: more than 16777216 bytes\n";

/// It has more lines than their limit.
pub const TOO_MANY_OPENINGS: &str = "pgn-extract: too many openings: more than 65536 lines\n";

/// It has no line.
pub const NO_OPENINGS: &str = "pgn-extract: no openings: the file has no game\n";

/// It has a game that cannot be read or played, whose line follows.
pub const BAD_OPENINGS: &str = "pgn-extract: bad openings\n";

/// The file of criteria could not be opened, or a read of it failed.
pub const CANNOT_READ_CRITERIA: &str = "pgn-extract: cannot read criteria\n";

/// The criteria have more bytes than their limit.
pub const CRITERIA_TOO_LONG: &str = "pgn-extract: criteria too long\n";

/// The file of games could not be opened.
pub const CANNOT_OPEN_INPUT: &str = "pgn-extract: cannot open input\n";

/// An argument of the command line is no UTF-8 text.
pub const ARGUMENTS_ARE_NO_TEXT: &str = "pgn-extract: the arguments are not UTF-8 text\n";

/// A read of the input failed.
pub const READ_FAILED: &str = "pgn-extract: read failed\n";

/// A write to the output or to standard error failed.
pub const WRITE_FAILED: &str = "pgn-extract: write failed\n";

/// Memory ran out.
pub const OUT_OF_MEMORY: &str = "pgn-extract: out of memory\n";

/// The input goes past the largest offset.
pub const INPUT_TOO_LONG: &str = "pgn-extract: input too long\n";
