//! The program over arguments and files that are handed in.
ghost use Rattle.std.specs.Prelude.{◌≡◌, ℕ, List, [], false, true, IfOk, IfSome, OnErr};
ghost use Rattle.std.specs.Prelude.{is_none, is_some};
ghost use Rattle.pgn_extract.specs.Private.AskedCriteria.{AreAskedCriteria};
ghost use Rattle.pgn_extract.specs.Private.OpeningFiles.{AreLinesOfFile};
ghost use Rattle.pgn_extract.specs.Public.AskedEdits.{AreAskedEdits};
ghost use Rattle.pgn_extract.specs.Public.Requests.{IsAskedRow, IsInPacks};

mod chosen_marks;
pub mod command;
mod conditions;
mod debians;
pub mod edits;
mod endings;
pub(crate) mod files;
pub(crate) mod header;
pub mod mark;
mod mark_lines;
pub mod messages;
mod openings;
pub mod order;
mod outputs;
mod packing;
mod packs;
mod prefix;
pub mod status;

use crate::app::chosen_marks::{MarkNames, MarksFile, Unmarked, read_marks};
use crate::app::command::{Request, read_arguments};
use crate::app::conditions::push_lines;
use crate::app::debians::debians_option;
use crate::app::edits::{edit_line, read_edits};
use crate::app::endings::{
    flush_rest, line_of, put_summary, report_bytes, report_failure, report_line,
};
use crate::app::files::{Files, Task, Total, name_file};
use crate::app::header::{RefusedColumns, read_row};
use crate::app::openings::{BadOpenings, MOST_BYTES, read_openings};
use crate::app::order::{Given, Order, accept, has_names, settings_of};
use crate::app::outputs::refuse_outputs;
use crate::app::packing::{pack_task, run_task};
use crate::app::packs::{PackTask, search_packs};
use crate::app::prefix::read_prefix;
use crate::app::status::{FAILED, FAULTY, REFUSED, SOUND};
use crate::explain::refusal_notes::{doubt_notes, file_note, line_note};
use crate::marks::Marks;
use crate::output::file_name::shown_lines;
use crate::output::write_all::write_all;
use crate::rows::column::Row;
use clap::Error;
use clap::error::ErrorKind;
use pgn_criteria::{Criteria, CriteriaError};
use pgn_game::{Openings, TagEdits};
use pgn_text::Tally;
use std::alloc::{AllocError, Global};
use std::io;
use std::io::{Read, Write};

/// Why the program ends before its run.
#[derive(Drop)]
enum Refusal {
    /// The arguments ask for the help, which goes to standard output.
    Help(String),
    /// The arguments, or the criteria, are refused with this text.
    Text(String),
    /// One of the program's own refusals, with its line.
    Line(&'static str),
    /// A refusal with a note below it.
    Note(Vec<u8>),
    OutOfMemory,
}

impl From<AllocError> for Refusal {
    ghost use Rattle.pgn_extract.specs.declared.app.Refusal.TheVariants.{OutOfMemory};

    ghost from_gives = { λ _ refusal. refusal ≡ OutOfMemory };

    fn from(_error: AllocError) -> Refusal {
        Refusal::OutOfMemory
    }
}

/// The refusal that `clap` answers; of an option of Debian's tool, what to use here.
fn refused_arguments(alloc: Global, error: &Error) -> Refusal {
    if error.kind() == ErrorKind::OutOfMemory {
        return Refusal::OutOfMemory;
    }
    let Ok(text) = format!(in alloc; "{error}") else {
        return Refusal::OutOfMemory;
    };
    if !error.use_stderr() {
        return Refusal::Help(text);
    }
    let Some((name, instead)) = debians_option(text.as_str()) else {
        return match shown_lines(alloc, text.as_str()) {
            Ok(shown) => Refusal::Text(shown),
            Err(AllocError) => Refusal::OutOfMemory,
        };
    };
    match format!(in alloc;
        "error: {name} is an option of Debian's pgn-extract; here {instead}\n\nFor more information, try '--help'.\n"
    ) {
        Ok(text) => Refusal::Text(text),
        Err(_) => Refusal::OutOfMemory,
    }
}

/// Reads the arguments, and tests what they ask for.
fn read_order<'a>(
    alloc: Global,
    arguments: &'a [String],
    watched: bool,
) -> Result<Order<'a>, Refusal> {
    let request = match read_arguments(alloc, arguments) {
        Ok(request) => request,
        Err(error) => return Err(refused_arguments(alloc, &error)),
    };
    match accept(request, watched) {
        Ok(order) => Ok(order),
        Err(line) => Err(Refusal::Line(line)),
    }
}

/// The most bytes that are read of a file of criteria: one more than it may have.
const CRITERIA_READ: usize = 65_537;

/// The refusal of a file that could not be opened or read: with this line, unless memory ran out;
/// where it is to be explained, with the file's name and the system's reason.
fn refused_file(
    alloc: Global,
    error: &io::Error,
    line: &'static str,
    path: &str,
    noted: bool,
) -> Refusal {
    if error.kind() == io::ErrorKind::OutOfMemory {
        return Refusal::OutOfMemory;
    }
    if !noted {
        return Refusal::Line(line);
    }
    match file_note(alloc, line, path, error) {
        Ok(note) => Refusal::Note(note),
        Err(AllocError) => Refusal::OutOfMemory,
    }
}

/// The first bytes of the criteria at the path.
fn read_path<F: Files>(alloc: Global, files: &mut F, path: &str) -> io::Result<Vec<u8>>
where
    F::Input: Drop,
{
    let mut input = files.open_criteria(path)?;
    read_prefix(alloc, &mut input, CRITERIA_READ)
}

/// The bytes of the file of criteria, and none without one.
fn read_file<F: Files>(alloc: Global, files: &mut F, order: &Order<'_>) -> Result<Vec<u8>, Refusal>
where
    F::Input: Drop,
    ensures { IfOk result (λ text. is_none order.now.request.criteria ≡ true → text.items ≡ []) }
{
    let Some(path) = order.request.criteria else {
        return Ok(Vec::new(alloc));
    };
    match read_path(alloc, files, path) {
        Ok(text) => Ok(text),
        Err(error) => {
            let line = messages::CANNOT_READ_CRITERIA;
            Err(refused_file(alloc, &error, line, path, order.noted))
        }
    }
}

/// The row that is asked for, if one is.
fn row_of(alloc: Global, order: &Order<'_>) -> Result<Option<Row>, Refusal>
    ensures asked { IfOk result (IsAskedRow order.now.request) }
    ensures packed { IfOk result (IsInPacks order.now.request) }
{
    match read_row(alloc, order) {
        Ok(row) => Ok(row),
        Err(RefusedColumns::Line(line)) => Err(Refusal::Line(line)),
        Err(RefusedColumns::Named(line)) => Err(Refusal::Text(line)),
        Err(RefusedColumns::OutOfMemory) => Err(Refusal::OutOfMemory),
    }
}

/// The edits that are asked for, if some are.
fn edits_of(alloc: Global, request: &Request<'_>) -> Result<Option<TagEdits>, Refusal>
    ensures { IfOk result (AreAskedEdits request.now) }
{
    match read_edits(alloc, request) {
        Ok(edits) => Ok(edits),
        Err(fault) => Err(Refusal::Text(edit_line(alloc, &fault)?)),
    }
}

/// The criteria of the file that is asked for and of the lines after it, if there are any.
fn read_criteria<F: Files>(
    alloc: Global,
    files: &mut F,
    order: &Order<'_>,
) -> Result<Option<Criteria>, Refusal>
where
    F::Input: Drop,
    ensures { IfOk result (AreAskedCriteria order.now.request) }
{
    let request = &order.request;
    if request.criteria.is_none() && request.conditions.is_empty() {
        return Ok(None);
    }
    let mut text = read_file(alloc, files, order)?;
    push_lines(&mut text, &request.conditions)?;
    match Criteria::parse(alloc, &text) {
        Ok(criteria) => {
            if order.noted {
                show_doubts(alloc, files, &criteria, &text);
            }
            Ok(Some(criteria))
        }
        Err(error) if order.noted => Err(explained_criteria(alloc, &error, &text)),
        Err(error) => Err(refused_criteria(alloc, &error)),
    }
}

/// The first bytes of the file of openings at the path: one more than it may have.
fn read_book<F: Files>(alloc: Global, files: &mut F, path: &str) -> io::Result<Vec<u8>>
where
    F::Input: Drop,
{
    let mut text = Vec::new(alloc);
    files
        .open(path)?
        .take(MOST_BYTES as u64 + 1)
        .read_to_end(&mut text)?;
    Ok(text)
}

/// The openings of the file that is asked for, if one is.
fn read_asked_openings<F: Files>(
    alloc: Global,
    files: &mut F,
    order: &Order<'_>,
) -> Result<Option<Openings>, Refusal>
where
    F::Input: Drop,
    ensures given { IfOk result (λ openings. is_some openings
        ≡ is_some order.now.request.openings) }
    ensures lines { IfOk result (λ openings. IfSome openings (λ lines. (text : List ℕ)
        × AreLinesOfFile text lines)) }
{
    let Some(path) = order.request.openings else {
        return Ok(None);
    };
    let text = match read_book(alloc, files, path) {
        Ok(text) => text,
        Err(error) => {
            let line = messages::CANNOT_READ_OPENINGS;
            return Err(refused_file(alloc, &error, line, path, order.noted));
        }
    };
    match read_openings(alloc, path, &text) {
        Ok(openings) => Ok(Some(openings)),
        Err(BadOpenings::Line(line)) => Err(Refusal::Line(line)),
        Err(BadOpenings::Named(line)) => Err(Refusal::Note(line)),
        Err(BadOpenings::OutOfMemory) => Err(Refusal::OutOfMemory),
    }
}

/// What the file of marks at the path has for a run.
fn read_marks_at<F: Files>(
    alloc: Global,
    files: &mut F,
    order: &Order<'_>,
    path: &str,
) -> io::Result<MarksFile>
where
    F::Input: Drop,
{
    let games = match order.request.files.get(0) {
        Some(games) => *games,
        None => messages::STANDARD_INPUT,
    };
    let names = MarkNames::new(alloc, path, games)?;
    read_marks(alloc, files.open(path)?, order, names)
}

/// The marks of the games that are reported, with the lines of their file that have none, where
/// not all games are.
fn read_chosen<F: Files>(
    alloc: Global,
    files: &mut F,
    order: &Order<'_>,
) -> Result<Option<(Marks, Unmarked)>, Refusal>
where
    F::Input: Drop,
{
    let Some(path) = order.request.at else {
        return Ok(None);
    };
    let file = match read_marks_at(alloc, files, order, path) {
        Ok(file) => file,
        Err(error) => {
            let line = messages::CANNOT_READ_MARKS;
            return Err(refused_file(alloc, &error, line, path, order.noted));
        }
    };
    match file.refusal(alloc)? {
        Some(line) => Err(Refusal::Note(line)),
        None => Ok(Some(file.into_marks())),
    }
}

/// Shows a note for each line of criteria that misleads. Where memory is refused there is none: the
/// run is the same with notes and without.
fn show_doubts<F: Files>(alloc: Global, files: &mut F, criteria: &Criteria, text: &[u8]) {
    if let Ok(notes) = doubt_notes(alloc, criteria, text) {
        files.show_notes(&notes);
    }
}

/// The refusal of criteria with this text, which is to be explained.
fn explained_criteria(alloc: Global, error: &CriteriaError, text: &[u8]) -> Refusal {
    let CriteriaError::Line(number) = error else {
        return refused_criteria(alloc, error);
    };
    match line_note(alloc, text, *number) {
        Ok(note) => Refusal::Note(note),
        Err(AllocError) => Refusal::OutOfMemory,
    }
}

/// The refusal of criteria.
fn refused_criteria(alloc: Global, error: &CriteriaError) -> Refusal {
    match error {
        CriteriaError::TooLong => Refusal::Line(messages::CRITERIA_TOO_LONG),
        CriteriaError::Line(number) => {
            match format!(in alloc; "pgn-extract: criteria line {number}\n") {
                Ok(line) => Refusal::Text(line),
                Err(_) => Refusal::OutOfMemory,
            }
        }
        CriteriaError::OutOfMemory => Refusal::OutOfMemory,
    }
}

/// The name and the input of the one file, or of standard input without one.
fn open_input<'a, F: Files>(
    alloc: Global,
    files: &mut F,
    order: &Order<'a>,
) -> Result<(&'a str, F::Input), Refusal> {
    let Some(path) = order.request.files.get(0).copied() else {
        return Ok((messages::STANDARD_INPUT, files.standard()));
    };
    match files.open(path) {
        Ok(input) => Ok((path, input)),
        Err(error) => {
            let line = messages::CANNOT_OPEN_INPUT;
            Err(refused_file(alloc, &error, line, path, order.noted))
        }
    }
}

/// What is read for a run before its input is opened, and the lines of the file of marks that have
/// none.
fn read_given<F: Files>(
    alloc: Global,
    files: &mut F,
    order: &Order<'_>,
) -> Result<(Given, Option<Unmarked>), Refusal>
where
    F::Input: Drop,
    ensures row { IfOk result (λ read. IsAskedRow order.now.request read.0.row) }
    ensures packs { IfOk result (λ read. IsInPacks order.now.request read.0.row) }
    ensures criteria { IfOk result (λ read.
        AreAskedCriteria order.now.request read.0.criteria) }
    ensures edits { IfOk result (λ read. AreAskedEdits order.now.request read.0.edits) }
{
    let row = row_of(alloc, order)?;
    let edits = edits_of(alloc, &order.request)?;
    refuse_outputs(alloc, files, &order.request)?;
    let criteria = read_criteria(alloc, files, order)?;
    let openings = read_asked_openings(alloc, files, order)?;
    let (chosen, unmarked) = match read_chosen(alloc, files, order)? {
        Some((marks, unmarked)) => (Some(marks), Some(unmarked)),
        None => (None, None),
    };
    let given = Given {
        row,
        openings,
        criteria,
        chosen,
        edits,
    };
    Ok((given, unmarked))
}

/// Shows what may mislead a person, and from when on progress is shown.
fn show_order<F: Files>(files: &mut F, request: &Request<'_>, noted: bool) {
    if noted && request.min_ply > request.max_ply {
        files.show_notes(messages::NO_PLY_BETWEEN.as_bytes());
    }
    if noted {
        files.note_kinds(request.packed);
    }
    if !request.no_progress {
        files.show_progress(request.progress);
    }
}

/// Reads the arguments and the criteria, opens the input and runs: the status, or what the program
/// ends with before its run.
fn start<F: Files, O: Write, E: Write>(
    alloc: Global,
    arguments: &[String],
    files: &mut F,
    out: &mut Tally<O>,
    err: &mut Tally<E>,
) -> Result<u8, Refusal>
where
    F::Input: Drop,
    requires { (out.old.faulted ≡ false) × (err.old.faulted ≡ false) }
    ensures { OnErr result (out.new.faulted ≡ false) }
{
    let order = read_order(alloc, arguments, files.is_watched())?;
    let (given, unmarked) = read_given(alloc, files, &order)?;
    let request = &order.request;
    show_order(files, request, order.noted);
    if request.packed {
        let task = PackTask {
            alloc,
            settings: settings_of(&order, given),
            no_header: request.no_header,
            paths: &request.files,
            summary: request.summary,
            explain: order.noted,
        };
        return Ok(search_packs(&task, files, out, err));
    }
    let mut task = Task {
        alloc,
        settings: settings_of(&order, given),
        paths: &request.files,
        with_names: has_names(request),
        summary: request.summary,
        end: order.end,
    };
    let input = if request.files.len() < 2 {
        let (name, input) = open_input(alloc, files, &order)?;
        name_file(&mut task, name)?;
        Some(input)
    } else {
        None
    };
    let ended = if request.pack {
        pack_task(&mut task, files, input, out, err)
    } else {
        run_task(&mut task, files, input, request.no_header, out, err)
    };
    Ok(match ended {
        Ok(total) => end_task(&task, err, &total, &unmarked),
        Err(error) => {
            flush_rest(out);
            report_failure(err, &task.settings.name, error);
            FAILED
        }
    })
}

/// Ends the runs of a task that came to the ends of their inputs: the status. Before the summary is
/// said which marks of the games that were to be reported are of none.
fn end_task<E: Write>(
    task: &Task<'_>,
    err: &mut Tally<E>,
    total: &Total,
    unmarked: &Option<Unmarked>,
) -> u8
    requires { err.old.faulted ≡ false }
{
    let mut is_short = false;
    if let Some(unmarked) = unmarked
        && let Some(marks) = &task.settings.chosen
    {
        match unmarked.put_end(task.alloc, err, marks, total.summary.met) {
            Ok(said) => is_short = said,
            Err(error) => {
                report_line(err, line_of(error));
                return FAILED;
            }
        }
    }
    let tags_first = task.settings.tags_first;
    match end_runs(task.alloc, err, task.summary, tags_first, total) {
        SOUND if is_short => FAULTY,
        status => status,
    }
}

/// Ends runs that came to the ends of their inputs, with a summary where it is asked for: the
/// status. Where tags came first, the summary says how many games were not played.
pub(crate) fn end_runs<E: Write>(
    alloc: Global,
    err: &mut Tally<E>,
    asked: bool,
    tags_first: bool,
    total: &Total,
) -> u8
    requires { err.old.faulted ≡ false }
{
    if asked && let Err(error) = put_summary(alloc, err, &None, &total.summary, tags_first) {
        report_line(err, line_of(error));
        return FAILED;
    }
    if total.unopened {
        return REFUSED;
    }
    if total.summary.faulty == 0 {
        SOUND
    } else {
        FAULTY
    }
}

/// Ends the program before its run: reports why, and answers the status.
fn refuse<O: Write, E: Write>(refusal: Refusal, out: &mut Tally<O>, err: &mut Tally<E>) -> u8
    requires { out.old.faulted ≡ false }
{
    match refusal {
        Refusal::Help(text) => help(text.as_str(), out, err),
        Refusal::Text(text) => {
            report_line(err, text.as_str());
            REFUSED
        }
        Refusal::Line(line) => {
            report_line(err, line);
            REFUSED
        }
        Refusal::Note(note) => {
            report_bytes(err, &note);
            REFUSED
        }
        Refusal::OutOfMemory => {
            report_line(err, messages::OUT_OF_MEMORY);
            FAILED
        }
    }
}

/// Writes the help to standard output.
fn help<O: Write, E: Write>(text: &str, out: &mut Tally<O>, err: &mut Tally<E>) -> u8
    requires { out.old.faulted ≡ false }
{
    if write_all(out, text.as_bytes()).is_ok() && out.flush().is_ok() {
        return SOUND;
    }
    report_line(err, messages::WRITE_FAILED);
    FAILED
}

/// Does what the arguments ask for, of which the first is the program's name, and answers the exit
/// status: 0 where no game was faulty (or the help was asked for), 1 where a game was faulty, 2
/// where the arguments or the criteria were refused or a file could not be opened, 3 where the run
/// failed.
pub fn program<F: Files, O: Write, E: Write>(
    alloc: Global,
    arguments: Vec<String>,
    files: &mut F,
    out: &mut Tally<O>,
    err: &mut Tally<E>,
) -> u8
where
    F::Input: Drop,
    requires { (out.old.faulted ≡ false) × (err.old.faulted ≡ false) }
{
    match start(alloc, arguments.as_slice(), files, out, err) {
        Ok(status) => status,
        Err(refusal) => refuse(refusal, out, err),
    }
}
