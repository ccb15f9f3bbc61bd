//! The arguments of the command line, read by `clap`.
use clap::{Arg, ArgAction, Command, Error, value_parser};
use std::alloc::{AllocError, Global};

/// What the arguments ask for, as texts.
#[derive(Drop)]
pub struct Request<'a> {
    /// `--index` was given.
    pub index: bool,
    /// `--list` was given.
    pub list: bool,
    /// The text after `--rows`.
    pub rows: Option<&'a str>,
    /// `--csv` was given.
    pub csv: bool,
    /// `--tsv` was given.
    pub tsv: bool,
    /// `--jsonl` was given.
    pub jsonl: bool,
    /// `--no-header` was given.
    pub no_header: bool,
    /// `--packed` was given.
    pub packed: bool,
    /// `--moves` was given.
    pub moves: bool,
    /// `--uci` was given.
    pub uci: bool,
    /// `--pack` was given.
    pub pack: bool,
    /// `-C` was given.
    pub no_comments: bool,
    /// `--keep-commands` was given.
    pub keep_commands: bool,
    /// `--strip-commands` was given.
    pub strip_commands: bool,
    /// `-N` was given.
    pub no_glyphs: bool,
    /// `-V` was given.
    pub no_variations: bool,
    /// `--roster` was given.
    pub roster: bool,
    /// The texts after each `--set`, in their order.
    pub sets: Vec<&'a str>,
    /// The texts after each `--drop`, in their order.
    pub drops: Vec<&'a str>,
    /// `--fix-results` was given.
    pub fix_results: bool,
    /// `--plycount` was given.
    pub plycount: bool,
    /// The text after `--order`.
    pub order: Option<&'a str>,
    /// The number after `--to-ply`.
    pub to_ply: Option<u32>,
    /// `--from-position` was given.
    pub from_position: bool,
    /// `--lines` was given.
    pub lines: bool,
    /// The number after `-w`.
    pub width: Option<u16>,
    /// The path after `--openings`.
    pub openings: Option<&'a str>,
    /// The path after `--criteria`.
    pub criteria: Option<&'a str>,
    /// The texts after each `--where`, in their order.
    pub conditions: Vec<&'a str>,
    /// The number after `--min-ply`, and 0 without it.
    pub min_ply: u32,
    /// The number after `--max-ply`, and the largest one without it.
    pub max_ply: u32,
    /// `--first` was given.
    pub first: bool,
    /// `--tags-first` was given.
    pub tags_first: bool,
    /// `--fen` was given.
    pub fen: bool,
    /// `--next` was given.
    pub next: bool,
    /// `--others` was given.
    pub others: bool,
    /// `--faulty` was given.
    pub faulty: bool,
    /// `--as-is` was given.
    pub as_is: bool,
    /// `--explain` was given.
    pub explain: bool,
    /// `--summary` was given.
    pub summary: bool,
    /// `--progress` was given.
    pub progress: bool,
    /// `--no-progress` was given.
    pub no_progress: bool,
    /// The text after `--from`.
    pub from: Option<&'a str>,
    /// The text after `--until`.
    pub until: Option<&'a str>,
    /// The path after `--at`.
    pub at: Option<&'a str>,
    /// `--with-names` was given.
    pub with_names: bool,
    /// `--no-names` was given.
    pub no_names: bool,
    /// The paths of the inputs, in their order; without one standard input is read.
    pub files: Vec<&'a str>,
}

/// The width of lines without `-w`.
pub const DEFAULT_WIDTH: u16 = 79;

/// The version of the program, and the toolchain that proved it.
pub const VERSION: &str = "2.0.0 (proved with rattle-kit-13f logic dac8208d650f15bf)";

const ABOUT: &str =
    "Reads chess games in Portable Game Notation (PGN), plays their moves, and writes\n\
    each legal game in the standard's form; or lists the positions that are looked\n\
    for, or where each game begins.";

const AFTER_HELP: &str =
    "Criteria, a condition a line; all of them hold (man pgn-extract-criteria):\n  \
    tag White|Black = \"Tal\"    the value of a tag; also <> < <= > >= has begins\n  \
    number WhiteElo >= 2700    the value as a number; also = <> < <= >\n  \
    date Date < 1985.06        the value as a date; also 1985, 1985.06.30\n  \
    fen */*/*/*/*/*/*PPP/*RK1  men as in FEN; ? a square, ! a man, * any squares\n  \
    position FEN               that position; of the FEN one field or more\n  \
    material KRP* v KRP*       each side's men: P* any number, R2+ two or more\n  \
    moves e4 c5 *, next *x*    the first moves; the next, * any bytes; also played\n  \
    plies <= 50, result 1-0    how many plies, also = <> < > >=; how the game ends\n  \
    turn black, not check      also mate, stalemate; not, either, flip in front\n  \
    for 20, count >= 40        the others at 20 positions in a row, 40 in all\n  \
    # a comment, or            nothing; between alternatives: one is enough\n\
    \n\
    Examples:\n  \
    pgn-extract games.pgn > clean.pgn                 # the legal games, cleaned\n  \
    pgn-extract -CNV --roster games.pgn               # roster, and bare moves\n  \
    pgn-extract --where mate games.pgn                # the games that end in mate\n  \
    pgn-extract --list --where mate games.pgn         # where they do: N@O P\n  \
    pgn-extract --others --where mate games.pgn       # all others\n  \
    pgn-extract --criteria wanted.txt games.pgn       # criteria in a file\n  \
    pgn-extract --faulty games.pgn > faulty.pgn       # the bad ones, unchanged\n  \
    pgn-extract --list --first --min-ply 80 games.pgn # games of 80 plies and more\n  \
    pgn-extract --pack games.pgn > all.pack           # a pack, for many searches\n  \
    pgn-extract --list --packed --where mate all.pack # the same list, much sooner\n  \
    gzip -dc games.pgn.gz | pgn-extract --index       # each game's mark: N@O\n\
    \n\
    A game that cannot be read or played is reported on standard error, and is\n\
    written with --faulty alone. Status: 0 no game was bad, 1 a game was bad,\n\
    2 the arguments or the criteria were refused or a file could not be opened,\n\
    3 the run failed. The manual: man pgn-extract.";

/// What stands after the name of an option.
enum Takes {
    Nothing,
    /// A text, by what help calls it.
    Text(&'static str),
    /// The same, any number of times.
    Texts(&'static str),
    /// A ply.
    Ply,
    /// How long lines are.
    Width,
}

/// An option: its name, its letter, what it takes and what help says of it.
struct Choice {
    name: &'static str,
    letter: Option<char>,
    takes: Takes,
    help: &'static str,
}

/// A row of the tables below: its letter, its name, what it takes, and what help says of it.
macro_rules! choice {
    ($name:expr, $help:expr $(,)?) => {
        choice!($name, Takes::Nothing, $help)
    };
    ($name:expr, $takes:expr, $help:expr $(,)?) => {
        Choice { name: $name, letter: None, takes: $takes, help: $help }
    };
    ($letter:expr, $name:expr, $takes:expr, $help:expr $(,)?) => {
        Choice { name: $name, letter: Some($letter), takes: $takes, help: $help }
    };
}

/// What is written.
const MODES: &[Choice] = &[
    choice!(
        "list",
        "N@O P for each position looked for: the number\n\
         and offset of its game, and its ply",
    ),
    choice!(
        "fen",
        "With --list, show each position after its ply, in FEN"
    ),
    choice!(
        "next",
        "With --list, show the move that is played from there\n\
         (- at the end of the game)",
    ),
    choice!(
        "rows",
        Takes::Text("COLUMNS"),
        "A row for each position that --list has: names of\n\
         tags, and @file @game @offset @id @ply @fen @placement\n\
         @turn @number @check @material @next @next-uci @last\n\
         @last-uci @nags @comment @clk @eval @result @plies\n\
         @moves @uci @line @from @opening-ply, with commas\n\
         between",
    ),
    choice!("csv", "With --rows, values with commas between [default]"),
    choice!("tsv", "With --rows, values with tabs between"),
    choice!("jsonl", "With --rows, an object of JSON a line"),
    choice!("no-header", "With --rows, no line of the columns' names"),
    choice!(
        "packed",
        "With --list, --rows or --index, the FILEs are packs:\n\
         lines of the games that were packed, much sooner",
    ),
    choice!("index", "N@O for each readable game; no move is played"),
    choice!(
        "moves",
        "N@O, FEN with _ for blanks (- is the usual start)\n\
         and the moves of each game, on one line",
    ),
    choice!("uci", "The same with moves as e2e4, e7e8q, e1g1"),
    choice!(
        "pack",
        "A pack: a record of each game, which holds its tags\n\
         and its moves for searches",
    ),
];

/// What is looked for.
const SEARCHES: &[Choice] = &[
    choice!(
        "criteria",
        Takes::Text("FILE"),
        "Only those that meet the criteria in FILE, or\n\
         of an example (carlsbad)\n\
         [default: all]",
    ),
    choice!(
        "where",
        Takes::Texts("LINE"),
        "A line of criteria, after those of FILE; any number\n\
         of times",
    ),
    choice!(
        "openings",
        Takes::Text("FILE"),
        "Count each game with the tags ECO, Opening and\n\
         Variation of its opening, a game of FILE: the last\n\
         whose end it comes to",
    ),
    choice!(
        "min-ply",
        Takes::Ply,
        "None before ply N; ply 0 is the position before\n\
         the first move [default: 0]",
    ),
    choice!(
        "max-ply",
        Takes::Ply,
        "None after ply N [default: 4294967295]"
    ),
    choice!("first", "List only the first of each game"),
    choice!(
        "tags-first",
        "Do not play games whose tags and result cannot meet\n\
         the criteria: much sooner, and their bad moves are\n\
         not reported",
    ),
];

/// Which games are written, and whether unchanged.
const CHOICES: &[Choice] = &[
    choice!(
        "others",
        "Those without a position looked for, not those with"
    ),
    choice!("faulty", "The bad ones, unchanged, not the legal ones"),
    choice!("as-is", "Write each unchanged, byte for byte"),
];

/// How games are written.
const STYLES: &[Choice] = &[
    choice!('C', "no-comments", Takes::Nothing, "Leave comments out"),
    choice!(
        "keep-commands",
        "End no line within a command of a comment, as\n\
         [%clk 0:01:00]",
    ),
    choice!(
        "strip-commands",
        "Leave the commands of comments out, and comments that\n\
         have nothing else",
    ),
    choice!(
        'N',
        "no-glyphs",
        Takes::Nothing,
        "Leave NAGs ($1, !, ?) out"
    ),
    choice!(
        'V',
        "no-variations",
        Takes::Nothing,
        "Leave variations out; then the main line alone\n\
         must be legal",
    ),
    choice!(
        "roster",
        "Keep only the seven tags of the roster, and FEN and\n\
         SetUp of a game with FEN",
    ),
    choice!(
        'w',
        "width",
        Takes::Width,
        "Fill lines of moves up to N bytes, 1 to 9999\n\
         [default: 79]",
    ),
];

/// How they are edited.
const EDITS: &[Choice] = &[
    choice!(
        "set",
        Takes::Texts("TAG=VALUE"),
        "Write the tag TAG with this value in each game; any\n\
         number of times",
    ),
    choice!(
        "drop",
        Takes::Texts("TAG"),
        "Leave the tag TAG out; one of the roster is written as\n\
         unknown; any number of times",
    ),
    choice!(
        "fix-results",
        "Write the result that ends a game as its Result tag"
    ),
    choice!(
        "plycount",
        "Write how many plies a game has as its PlyCount tag"
    ),
    choice!(
        "order",
        Takes::Text("TAGS"),
        "Write these tags, with commas between, first after\n\
         the roster, in this order, where a game has them",
    ),
    choice!(
        "to-ply",
        Takes::Ply,
        "End each game after N plies of its main line",
    ),
    choice!(
        "from-position",
        "Begin each game with its first position that is\n\
         looked for",
    ),
    choice!(
        "lines",
        "Write each line of a game as a game of its own: the\n\
         main line, and each variation after the moves that\n\
         lead to it, without a result; with --list or --rows\n\
         the positions of each line, once each, and in a list\n\
         the line's number after P",
    ),
];

/// What goes to standard error.
const REPORTS: &[Choice] = &[
    choice!(
        "explain",
        "Say after the line of each bad game where it stops\n\
         being one, and why; the same of a refused line of\n\
         criteria; why a file cannot be read, or is no PGN",
    ),
    choice!(
        "summary",
        "Say at the end how many games were read, and how many\n\
         were bad",
    ),
    choice!(
        "progress",
        "Show on a terminal how far the input is read, not\n\
         only once a run has lasted two seconds",
    ),
    choice!("no-progress", "Never show that"),
];

/// Where the input begins and ends, and its name.
const INPUTS: &[Choice] = &[
    choice!(
        "from",
        Takes::Text("N@O"),
        "Begin at the game with this mark, as another run printed\n\
         it [default: 1@0]",
    ),
    choice!(
        "until",
        Takes::Text("N@O"),
        "End before the game with this mark\n\
         [default: the end of the input]",
    ),
    choice!(
        "at",
        Takes::Text("MARKS"),
        "Report only the games whose marks begin the lines of\n\
         the file MARKS: of a list, an index, or reports",
    ),
    choice!(
        "with-names",
        "Begin each line with the name of its FILE, as is done\n\
         with two or more",
    ),
    choice!("no-names", "Leave names out"),
];

/// All of them under their headings, in the order of help.
const GROUPS: [(&str, &[Choice]); 7] = [
    ("Output, if not the games themselves", MODES),
    ("Positions looked for", SEARCHES),
    ("Games that are written", CHOICES),
    ("Games as they are written", STYLES),
    ("Edits of what is written", EDITS),
    ("Reports, on standard error", REPORTS),
    ("Input", INPUTS),
];

/// The option as `clap` takes it.
fn option_of<'a>(alloc: Global, choice: &Choice) -> Arg<'a> {
    let arg = Arg::new(alloc, choice.name)
        .long(choice.name)
        .help(choice.help);
    let arg = match choice.takes {
        Takes::Nothing => arg.action(ArgAction::SetTrue),
        Takes::Text(name) => arg.value_name(name),
        Takes::Texts(name) => arg.value_name(name).action(ArgAction::Append),
        Takes::Ply => arg.value_name("N").value_parser(value_parser!(u32)),
        Takes::Width => arg
            .value_name("N")
            .value_parser(value_parser!(u16).range(1..=9999)),
    };
    match choice.letter {
        Some(letter) => arg.short(letter),
        None => arg,
    }
}

/// The command with these options under a heading.
fn with_options<'a>(
    alloc: Global,
    command: Command<'a>,
    heading: &'static str,
    choices: &[Choice],
) -> Result<Command<'a>, AllocError> {
    let mut command = command.next_help_heading(heading);
    for choice in choices {
        command = command.arg(option_of(alloc, choice))?;
    }
    Ok(command)
}

/// The options that print a text and end the program.
fn help_options<'a>(alloc: Global, command: Command<'a>) -> Result<Command<'a>, AllocError> {
    let help = Arg::new(alloc, "help")
        .short('h')
        .long("help")
        .action(ArgAction::Help)
        .help("Print this help");
    let version = Arg::new(alloc, "version")
        .long("version")
        .action(ArgAction::Version)
        .help("Print the version, and the toolchain that proved it");
    command.next_help_heading("Help").arg(help)?.arg(version)
}

/// The command with its options.
fn make_command<'a>(alloc: Global) -> Result<Command<'a>, AllocError> {
    let file = Arg::new(alloc, "FILE")
        .num_args(0..)
        .action(ArgAction::Append)
        .help("The games [default: standard input]");
    let command = Command::new(alloc, "pgn-extract")
        .bin_name("pgn-extract")?
        .version(VERSION)
        .about(ABOUT)
        .after_help(AFTER_HELP)
        .disable_help_flag(true)
        .disable_version_flag(true)
        .arg(file)?;
    let mut command = command;
    for (heading, choices) in GROUPS {
        command = with_options(alloc, command, heading, choices)?;
    }
    help_options(alloc, command)
}

/// Reads the arguments, of which the first is the program's name.
pub fn read_arguments<'a>(alloc: Global, arguments: &'a [String]) -> Result<Request<'a>, Error> {
    let matches = make_command(alloc)?.try_get_matches_from(arguments)?;
    let conditions = Vec::from_slice(alloc, matches.get_strs("where").unwrap_or(&[]))?;
    let sets = Vec::from_slice(alloc, matches.get_strs("set").unwrap_or(&[]))?;
    let drops = Vec::from_slice(alloc, matches.get_strs("drop").unwrap_or(&[]))?;
    let files = Vec::from_slice(alloc, matches.get_strs("FILE").unwrap_or(&[]))?;
    Ok(Request {
        index: matches.get_flag("index"),
        list: matches.get_flag("list"),
        rows: matches.get_str("rows"),
        csv: matches.get_flag("csv"),
        tsv: matches.get_flag("tsv"),
        jsonl: matches.get_flag("jsonl"),
        no_header: matches.get_flag("no-header"),
        packed: matches.get_flag("packed"),
        moves: matches.get_flag("moves"),
        uci: matches.get_flag("uci"),
        pack: matches.get_flag("pack"),
        no_comments: matches.get_flag("no-comments"),
        keep_commands: matches.get_flag("keep-commands"),
        strip_commands: matches.get_flag("strip-commands"),
        no_glyphs: matches.get_flag("no-glyphs"),
        no_variations: matches.get_flag("no-variations"),
        roster: matches.get_flag("roster"),
        sets,
        drops,
        fix_results: matches.get_flag("fix-results"),
        plycount: matches.get_flag("plycount"),
        order: matches.get_str("order"),
        to_ply: matches.get_one("to-ply"),
        from_position: matches.get_flag("from-position"),
        lines: matches.get_flag("lines"),
        width: matches.get_one("width"),
        openings: matches.get_str("openings"),
        criteria: matches.get_str("criteria"),
        conditions,
        min_ply: matches.get_one("min-ply").unwrap_or(0),
        max_ply: matches.get_one("max-ply").unwrap_or(u32::MAX),
        first: matches.get_flag("first"),
        tags_first: matches.get_flag("tags-first"),
        fen: matches.get_flag("fen"),
        next: matches.get_flag("next"),
        others: matches.get_flag("others"),
        faulty: matches.get_flag("faulty"),
        as_is: matches.get_flag("as-is"),
        explain: matches.get_flag("explain"),
        summary: matches.get_flag("summary"),
        progress: matches.get_flag("progress"),
        no_progress: matches.get_flag("no-progress"),
        from: matches.get_str("from"),
        until: matches.get_str("until"),
        at: matches.get_str("at"),
        with_names: matches.get_flag("with-names"),
        no_names: matches.get_flag("no-names"),
        files,
    })
}
