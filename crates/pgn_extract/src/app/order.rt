//! What is asked for: which of it is refused, and the settings of a run.
ghost use Rattle.std.specs.Prelude.{◌≡◌, ◌||◌, true, option_map, IfErr, IfOk, IfSome, OnOk};
ghost use Rattle.pgn_extract.specs.Public.Aims.{aim_of};
ghost use Rattle.pgn_extract.specs.Public.GivenMarks.{IsGameMark};
ghost use Rattle.pgn_extract.specs.Private.Lines.{is_bare};
ghost use Rattle.pgn_extract.specs.Public.Requests.{asks_no_lines, asks_of_games};
ghost use Rattle.pgn_extract.specs.Public.Requests.{lists};
ghost use Rattle.pgn_extract.specs.Public.Requests.{asked, asked_form, asked_mode, asked_select};
ghost use Rattle.pgn_extract.specs.Public.Requests.{asked_commands, asked_style, asks_names};
ghost use Rattle.pgn_extract.specs.Public.Requests.{bad_mark, begin_of, edit_refusals, end_of};
ghost use Rattle.pgn_extract.specs.Public.Requests.{file_refusals, form_refusals, line_refusals};
ghost use Rattle.pgn_extract.specs.Public.Requests.{first_line, gives_criteria, gives_mark};
ghost use Rattle.pgn_extract.specs.Public.Requests.{has_style, needs_each_game, option_refusals};
ghost use Rattle.pgn_extract.specs.Public.Requests.{other_refusals, row_refusals, search_refusals};
ghost use Rattle.pgn_extract.specs.Public.Requests.{asked_format, asked_line, asked_moves, refused};

use crate::app::command::{DEFAULT_WIDTH, Request};
use crate::app::conditions::are_lines;
use crate::app::edits::is_edited;
use crate::app::mark::{FIRST, read_mark};
use crate::app::messages;
use crate::marks::{GameId, Marks};
use crate::rows::column::{Format, Row};
use crate::settings::{EntryLine, Fields, Form, Mode, Select, Settings};
use pgn_criteria::Criteria;
use pgn_game::{Commands, Notation, Openings, Style, TagEdits};

/// What the arguments ask for.
#[derive(Drop)]
pub struct Order<'a> {
    /// The options.
    pub request: Request<'a>,
    /// Where the run begins.
    pub mark: GameId,
    /// The offset before which it ends.
    pub end: u64,
    /// Whether refusals and faulty games have notes.
    pub noted: bool,
    ghost bound: { IsGameMark mark },
}

/// Tests what is asked for, or answers the line that refuses it: of the options, of the marks, or
/// of the lines of criteria.
pub fn accept(request: Request<'_>, watched: bool) -> Result<Order<'_>, &'static str>
    ensures refused { IfErr result (λ line. refused (request.entry.explain || watched) request.entry
        ≡ Some line.now) }
    ensures taken { OnOk result (refused (request.entry.explain || watched) request.entry ≡ None) }
    ensures request { IfOk result (λ order. order.request ≡ request.entry) }
    ensures begin { IfOk result (λ order. begin_of request.entry ≡ Some order.mark) }
    ensures end { IfOk result (λ order. end_of request.entry ≡ Some order.end) }
    ensures noted { IfOk result (λ order. order.noted ≡ (request.entry.explain || watched)) }
{
    let noted = request.explain | watched;
    if let Some(line) = refused_line(&request) {
        return Err(line);
    }
    let Some(mark) = mark_of(&request) else {
        return Err(bad_mark(noted));
    };
    let Some(end) = end_of(&request) else {
        return Err(bad_mark(noted));
    };
    if mark.offset >= end {
        return Err(messages::NOTHING_BETWEEN);
    }
    if !are_lines(&request.conditions) {
        return Err(messages::NOT_ONE_LINE);
    }
    Ok(Order {
        request,
        mark,
        end,
        noted,
    })
}

/// The line that refuses the options, the first of those that apply.
fn refused_line(request: &Request<'_>) -> Option<&'static str>
    ensures { option_map (λ line. line.now) result ≡ first_line (option_refusals request.now) }
{
    if let Some(line) = refused_rows(request) {
        return Some(line);
    }
    refused_others(request)
}

/// The line that refuses what does not go with rows, or their formats.
fn refused_rows(request: &Request<'_>) -> Option<&'static str>
    ensures { option_map (λ line. line.now) result ≡ first_line (row_refusals request.now) }
{
    let has_mode = request.list | request.index | request.fen | request.next;
    let has_games = request.others | request.faulty | request.as_is;
    let has_form = request.pack | request.moves | request.uci;
    let has_format = request.csv | request.tsv | request.jsonl;
    if request.rows.is_some() & (has_mode | has_games | has_form) {
        return Some(messages::ROWS_ALONE);
    }
    if (has_format | request.no_header) & request.rows.is_none() {
        return Some(messages::NO_ROWS);
    }
    if (request.csv & (request.tsv | request.jsonl)) | (request.tsv & request.jsonl) {
        return Some(messages::SEVERAL_FORMATS);
    }
    None
}

/// The line that refuses the other options, the first of those that apply.
fn refused_others(request: &Request<'_>) -> Option<&'static str>
    ensures { option_map (λ line. line.now) result ≡ first_line (other_refusals request.now) }
{
    let has_mode = request.list | request.index;
    let has_fields = request.fen | request.next;
    if request.list & request.index {
        return Some(messages::BOTH_MODES);
    }
    if request.packed & !(has_mode | request.rows.is_some()) {
        return Some(messages::PACKS_GIVE_LINES);
    }
    let is_named = request.with_names | request.no_names;
    if request.packed & (has_mark(request) | is_named) {
        return Some(messages::PACKS_ARE_PLAIN);
    }
    if has_fields & !request.list {
        return Some(messages::NO_ENTRIES_LISTED);
    }
    refused_forms(request)
}

/// The line that refuses games that are written beside a list or an index, or in two ways; or the
/// options of searches.
fn refused_forms(request: &Request<'_>) -> Option<&'static str>
    ensures { option_map (λ line. line.now) result ≡ first_line (form_refusals request.now) }
{
    let has_mode = request.list | request.index;
    let has_moves = request.moves | request.uci;
    let unstyled = request.faulty | request.as_is;
    if (request.others | unstyled) & has_mode {
        return Some(messages::NO_GAMES_WRITTEN);
    }
    if request.others & request.faulty {
        return Some(messages::BOTH_CHOICES);
    }
    if request.pack & (has_mode | has_moves | unstyled | is_styled(request)) {
        return Some(messages::NO_PACK);
    }
    if request.moves & request.uci {
        return Some(messages::BOTH_NOTATIONS);
    }
    if has_moves & (has_mode | unstyled) {
        return Some(messages::NO_LINES_OF_MOVES);
    }
    refused_searches(request)
}

/// The line that refuses tags that come first: without criteria, or where each game is looked at;
/// or lines as games, edits of tags, or the options of files.
fn refused_searches(request: &Request<'_>) -> Option<&'static str>
    ensures { option_map (λ line. line.now) result ≡ first_line (search_refusals request.now) }
{
    if request.tags_first & !has_criteria(request) {
        return Some(messages::NO_TAGS_TO_MEET);
    }
    if request.tags_first & needs_each_game(request) {
        return Some(messages::TAGS_ARE_NOT_FIRST);
    }
    refused_lines(request)
}

/// The line that refuses lines beside another form, in packs, and beside a search where they are
/// not listed; or edits of tags, or the options of files.
fn refused_lines(request: &Request<'_>) -> Option<&'static str>
    ensures { option_map (λ line. line.now) result ≡ first_line (line_refusals request.now) }
{
    if request.lines & asks_no_lines(request) {
        return Some(messages::LINES_ARE_GAMES);
    }
    if request.lines & request.packed {
        return Some(messages::PACKS_HAVE_ONE_LINE);
    }
    if request.lines & !lists(request) & asks_of_games(request) {
        return Some(messages::NO_LINES_SEARCHED);
    }
    refused_edits(request)
}

/// The line that refuses edits of tags where no tags are written, or commands that are both kept
/// and left out; or the options of files.
fn refused_edits(request: &Request<'_>) -> Option<&'static str>
    ensures { option_map (λ line. line.now) result ≡ first_line (edit_refusals request.now) }
{
    let has_mode = request.index | lists(request);
    let has_form = request.moves | request.uci | request.pack | request.as_is;
    let is_changed = is_edited(request) | request.from_position;
    if is_changed & (has_mode | has_form | request.faulty) {
        return Some(messages::NO_TAGS_WRITTEN);
    }
    if request.from_position & request.others {
        return Some(messages::NO_POSITION);
    }
    if request.keep_commands & request.strip_commands {
        return Some(messages::BOTH_COMMANDS);
    }
    refused_files(request)
}

/// The line that refuses names that are both asked for and left out, or marks of several files.
fn refused_files(request: &Request<'_>) -> Option<&'static str>
    ensures { option_map (λ line. line.now) result ≡ first_line (file_refusals request.now) }
{
    if request.with_names & request.no_names {
        return Some(messages::BOTH_NAMINGS);
    }
    if has_mark(request) & (request.files.len() > 1) {
        return Some(messages::MARKS_TAKE_ONE_FILE);
    }
    None
}

/// Whether criteria are given.
fn has_criteria(request: &Request<'_>) -> bool
    ensures { result ≡ gives_criteria request.now }
{
    request.criteria.is_some() || !request.conditions.is_empty()
}

/// Whether games are looked for, or have the tags of their openings.
fn asks_of_games(request: &Request<'_>) -> bool
    ensures { result ≡ asks_of_games request.now }
{
    request.min_ply > 0 || request.openings.is_some() || has_criteria(request)
}

/// Whether something is asked for that no lines are written or listed with.
fn asks_no_lines(request: &Request<'_>) -> bool
    ensures { result ≡ asks_no_lines request.now }
{
    let has_choice = request.index || request.others || request.faulty;
    let has_form = request.pack || request.as_is;
    has_choice || has_form || request.from_position || request.no_variations
}

/// Whether something is asked for that no game can be left out of by its tags, or of packs.
fn needs_each_game(request: &Request<'_>) -> bool
    ensures { result ≡ needs_each_game request.now }
{
    let is_of_all = request.index || request.others || request.faulty;
    is_of_all || request.packed || request.pack || request.openings.is_some()
}

/// Whether the run is to begin or to end at a mark, or to report the pieces with marks.
fn has_mark(request: &Request<'_>) -> bool
    ensures { result ≡ gives_mark request.now }
{
    request.from.is_some() || request.until.is_some() || request.at.is_some()
}

/// Whether an option says how games are written in the standard's form.
fn is_styled(request: &Request<'_>) -> bool
    ensures { result ≡ has_style request.now }
{
    let leaves_out = request.no_comments || request.no_glyphs || request.no_variations;
    let has_commands = request.keep_commands || request.strip_commands;
    leaves_out || has_commands || request.roster || request.width.is_some()
}

/// Whether lines have the names of their files.
pub fn has_names(request: &Request<'_>) -> bool
    ensures { result ≡ asks_names request.now }
{
    request.with_names || (request.files.len() > 1 && !request.no_names)
}

/// Whether entries are listed, each on a line with its mark or as a row.
fn lists(request: &Request<'_>) -> bool
    ensures { result ≡ lists request.now }
{
    request.list || request.rows.is_some()
}

/// What the run writes.
fn mode_of(request: &Request<'_>) -> Mode
    ensures { result ≡ asked_mode request.now }
{
    if lists(request) && request.lines {
        Mode::EachLine
    } else if lists(request) {
        Mode::List
    } else if request.index {
        Mode::Index
    } else {
        Mode::Export
    }
}

/// Which games the export writes.
fn select_of(request: &Request<'_>) -> Select
    ensures { result ≡ asked_select request.now }
{
    if request.others {
        Select::Others
    } else if request.faulty {
        Select::Faulty
    } else {
        Select::Matching
    }
}

/// How moves on a line are written: of each line of a game, or of its main line.
fn moves_of(request: &Request<'_>, notation: Notation) -> Form
    ensures { result ≡ asked_moves request.now notation }
{
    if request.lines {
        Form::LineOfEach(notation)
    } else {
        Form::Line(notation)
    }
}

/// How a game that is selected is written.
fn form_of(request: &Request<'_>) -> Form
    ensures { result ≡ asked_form request.now }
{
    if request.pack {
        Form::Record
    } else if request.moves {
        moves_of(request, Notation::San)
    } else if request.uci {
        moves_of(request, Notation::Uci)
    } else if request.as_is {
        Form::AsItStands
    } else if request.from_position {
        Form::FromEntry
    } else if request.lines {
        Form::EachLine
    } else {
        Form::Standard
    }
}

/// What becomes of the commands of comments.
fn commands_of(request: &Request<'_>) -> Commands
    ensures { result ≡ asked_commands request.now }
{
    if request.strip_commands {
        Commands::LeftOut
    } else if request.keep_commands {
        Commands::Whole
    } else {
        Commands::InWords
    }
}

/// How games are written.
fn style_of(request: &Request<'_>) -> Style
    ensures { result ≡ asked_style request.now }
{
    Style {
        comments: !request.no_comments,
        commands: commands_of(request),
        glyphs: !request.no_glyphs,
        variations: !request.no_variations,
        roster_only: request.roster,
        width: request.width.unwrap_or(DEFAULT_WIDTH),
    }
}

/// How rows are written.
pub fn format_of(request: &Request<'_>) -> Format
    ensures { result ≡ asked_format request.now }
{
    if request.tsv {
        Format::Tsv
    } else if request.jsonl {
        Format::Jsonl
    } else {
        Format::Csv
    }
}

/// What the line of an entry is.
fn line_of(request: &Request<'_>, row: Option<Row>) -> EntryLine
    ensures { result ≡ asked_line request.now row }
{
    match row {
        Some(row) => EntryLine::InColumns(row),
        None => EntryLine::Marked(Fields {
            fen: request.fen,
            next: request.next,
        }),
    }
}

/// What was read for a run: what the options name, where they do.
#[derive(Drop)]
pub struct Given {
    /// The row of each entry.
    pub row: Option<Row>,
    /// The lines of openings.
    pub openings: Option<Openings>,
    /// The criteria.
    pub criteria: Option<Criteria>,
    /// The marks of the pieces that are reported.
    pub chosen: Option<Marks>,
    /// The edits of tags.
    pub edits: Option<TagEdits>,
}

/// What a run is to write, with no name yet.
pub fn settings_of(order: &Order<'_>, given: Given) -> Settings
    ensures asked { aim_of result ≡ asked order.now.noted order.now.request given }
    ensures number { result.number ≡ order.now.mark.number }
    ensures offset { result.offset ≡ order.now.mark.offset }
{
    let request = &order.request;
    Settings {
        name: None,
        chosen: given.chosen,
        openings: given.openings,
        mode: mode_of(request),
        criteria: given.criteria,
        min_ply: request.min_ply,
        max_ply: request.max_ply,
        first: request.first,
        line: line_of(request, given.row),
        select: select_of(request),
        form: form_of(request),
        edits: given.edits,
        style: style_of(request),
        explain: order.noted,
        tags_first: request.tags_first,
        number: order.mark.number,
        offset: order.mark.offset,
    }
}

/// The mark that the run begins at: that of `--from`, and `1@0` without it. `None` for a bad one.
fn mark_of(request: &Request<'_>) -> Option<GameId>
    ensures mark { result ≡ begin_of request.now }
    ensures bound { IfSome result (λ mark. IsGameMark mark) }
{
    match request.from {
        Some(text) => read_mark(text.as_bytes()),
        None => Some(FIRST),
    }
}

/// The offset that the run ends before: that of the mark of `--until`, and one that no input comes
/// to without it. `None` for a bad mark.
fn end_of(request: &Request<'_>) -> Option<u64>
    ensures { result ≡ end_of request.now }
{
    match request.until {
        Some(text) => match read_mark(text.as_bytes()) {
            Some(mark) => Some(mark.offset),
            None => None,
        },
        None => Some(u64::MAX),
    }
}

/// The refusal of a text that is no mark, with a note where refusals have them.
fn bad_mark(noted: bool) -> &'static str
    ensures { result.now ≡ bad_mark noted }
{
    if noted {
        messages::BAD_MARK_NOTED
    } else {
        messages::BAD_MARK
    }
}
