//! The files of the command line, each of which is read as if it were the only one.
ghost use Rattle.std.specs.Prelude.{◌≡◌, ◌≢◌, ◌↔◌, ◌⊎◌, ◌≤◌, ◌^◌, ◌||◌, ℕ, List, [], false, true};
ghost use Rattle.std.specs.Prelude.{is_none, IfErr, IfOk, IfSome, OnErr, OnOk, IsErrOf};
ghost use Rattle.std.specs.Io.KnownBytes.{Keeps};
ghost use Rattle.std.specs.List.{list_any};
ghost use Rattle.std.specs.IoError.{error_kind};
ghost use Rattle.pgn_text.specs.Public.Limits.{largest_offset};
ghost use Rattle.pgn_extract.specs.Private.RunParts.{WritesPath};
ghost use Rattle.pgn_extract.specs.Public.Outcomes.{AppendsFront};
ghost use Rattle.pgn_extract.specs.Public.Runs.{Adds, passage};
ghost use Rattle.pgn_extract.specs.Public.Several.{AtPath, FileOf, Unknown, AreKnown, IsOpened};
ghost use Rattle.pgn_extract.specs.Public.Several.{IsRefused, NamesUnopened, StopsAmong};
ghost use Rattle.pgn_extract.specs.Public.Several.{StopsAtPath, WritesPaths, WritesRead};
ghost use Rattle.pgn_extract.specs.Public.Several.{is_no_file, order_at, order_of, own_summary};
ghost use Rattle.pgn_extract.specs.Public.Several.{paths_of};

use crate::app::endings::put_summary;
use crate::engine::run_skipping;
use crate::explain::refusal_notes::push_reason;
use crate::marks::Met;
use crate::output::file_name::FileName;
use crate::output::outcome::{RunError, Summary};
use crate::output::write_all::{finish, write_all};
use crate::settings::Settings;
use pgn_text::{Skip, Tally};
use std::alloc::{AllocError, Global};
use std::io;
use std::io::{ErrorKind, Read, Write};

/// A stream that the program writes.
#[derive(Clone, Copy, Debug, PartialEq, Eq)]
pub enum Stream {
    /// Standard output.
    Output,
    /// Standard error.
    Reports,
}

/// Where the program's input comes from: files by their paths, and standard input.
pub trait Files {
    type Input: Skip;

    // What is known of a path.
    ghost known: { Self → List ℕ → AtPath } = { λ _ _. Unknown };

    /// Opens the file at `path`. An error of the kind `OutOfMemory` means that memory ran out.
    fn open(&mut self, path: &str) -> io::Result<Self::Input>
        ensures opened { IfOk result (λ input.
            IsOpened (known self.old path.now) (Self.Input.remaining input)) }
        ensures refused { IfErr result (λ error.
            IsRefused (known self.old path.now) (error_kind error)) }
        ensures kept { (own : List ℕ) → known self.new own ≡ known self.old own };

    /// Opens a file of criteria, by its path or, of an example, by its name. Errors are those of
    /// `open`.
    fn open_criteria(&mut self, path: &str) -> io::Result<Self::Input> {
        self.open(path)
    }

    /// Standard input.
    fn standard(&mut self) -> Self::Input;

    /// Whether the stream is the file at the path, or without one that of standard input: what is
    /// written would be read.
    fn is_written(&self, _stream: Stream, _path: Option<&str>) -> bool {
        false
    }

    /// Whether a person reads what is reported, so that refusals have notes without being asked
    /// for.
    fn is_watched(&self) -> bool {
        false
    }

    /// Shows notes to the person who reads what is reported. A fault in that is ignored, and
    /// nothing else changes.
    fn show_notes(&mut self, _notes: &[u8]) {}

    /// From now on each input has a note on standard error, where its first bytes say that it is no
    /// text of games, or no pack where packs are read. Nothing else changes.
    fn note_kinds(&mut self, _packed: bool) {}

    /// From now on each input shows on a terminal how far it is read: at once where that is asked
    /// for, else after two seconds. Nothing else changes.
    fn show_progress(&mut self, asked: bool);
}

/// What is to be done with each file.
#[derive(Drop)]
pub struct Task<'a> {
    /// The memory that it takes.
    pub alloc: Global,
    /// What a run writes; the name in them is that of the file that is read.
    pub settings: Settings,
    /// The paths of the files; none for standard input.
    pub paths: &'a [&'a str],
    /// Whether lines have the name of their file.
    pub with_names: bool,
    /// Whether a summary is asked for.
    pub summary: bool,
    /// The offset before which a run ends.
    pub end: u64,
}

/// What the runs met.
#[derive(Clone, Copy)]
pub struct Total {
    /// What they met together.
    pub summary: Summary,
    /// Whether a file could not be opened.
    pub unopened: bool,
}

impl Total {
    /// That of no run.
    pub(crate) const NONE: Total = Total {
        summary: Summary {
            games: 0,
            faulty: 0,
            unplayed: 0,
            met: Met::NONE,
        },
        unopened: false,
    };

    /// That of one run.
    pub fn of(summary: Summary) -> Total {
        Total {
            summary,
            unopened: false,
        }
    }

    /// Adds what a run met, or that a file could not be opened.
    pub(crate) fn add(&mut self, ran: Option<Summary>)
        ensures { self.new.unopened ≡ (self.old.unopened || is_none ran) }
    {
        let Some(own) = ran else {
            self.unopened = true;
            return;
        };
        self.summary.games = self.summary.games.saturating_add(own.games);
        self.summary.faulty = self.summary.faulty.saturating_add(own.faulty);
        self.summary.unplayed = self.summary.unplayed.saturating_add(own.unplayed);
    }
}

/// Gives the lines of the next run the name of a file, where lines have names.
pub fn name_file(task: &mut Task<'_>, name: &str) -> Result<(), AllocError>
    ensures number { task.new.settings.number ≡ task.old.settings.number }
    ensures offset { task.new.settings.offset ≡ task.old.settings.offset }
    ensures named { OnOk result (order_of task.new ≡ order_at task.old name.now) }
    ensures kept { (path : List ℕ) → order_at task.new path ≡ order_at task.old path }
{
    if task.with_names {
        task.settings.name = Some(FileName::of_path(task.alloc, name)?);
    }
    Ok(())
}

/// Ends the lines of a run with its summary, where that is asked for and lines have names.
fn put_own_summary<E: Write>(
    err: &mut Tally<E>,
    task: &Task<'_>,
    own: &Summary,
) -> Result<(), RunError>
    requires { err.old.faulted ≡ false }
    ensures line { OnOk result (Adds (passage E.contents err.old err.new)
        (own_summary task.now.summary task.now.settings.tags_first
        task.now.settings.name own.now)) }
    ensures left { OnErr result (AppendsFront (E.contents err.old.inner) (E.contents err.new.inner)
        (own_summary task.now.summary task.now.settings.tags_first
        task.now.settings.name own.now)) }
    ensures only { IfErr result (λ error. (error ≡ RunError.Write)
        ⊎ (error ≡ RunError.OutOfMemory)) }
    ensures fault { IsErrOf result RunError.Write ↔ (err.new.faulted ≡ true) }
{
    if task.summary && task.settings.name.is_some() {
        return put_summary(
            task.alloc,
            err,
            &task.settings.name,
            own,
            task.settings.tags_first,
        );
    }
    Ok(())
}

/// Runs over one input; where lines have its name, its summary has a line of its own.
pub fn run_input<I: Skip, O: Write, E: Write>(
    task: &Task<'_>,
    input: I,
    out: &mut Tally<O>,
    err: &mut Tally<E>,
) -> Result<Summary, RunError>
where
    I: Drop,
    requires sound { (out.old.faulted ≡ false) × (err.old.faulted ≡ false) }
    requires number { (1 ≤ task.now.settings.number) × (task.now.settings.number ≤ 2 ^ 62) }
    requires offset { task.now.settings.offset ≤ largest_offset }
    ensures read { OnOk result (IfSome (I.remaining input)
        (λ text.
        WritesRead (order_of task.now) text (passage O.contents out.old out.new)
        (passage E.contents err.old err.new))) }
    ensures stopped { IfErr result (λ error. IfSome (I.remaining input) (λ text. (path : List ℕ)
        → StopsAtPath error (order_of task.now) path (FileOf text)
        (passage O.contents out.old out.new) (passage E.contents err.old err.new))) }
    ensures faults { IsErrOf result RunError.Write
        ↔ ((out.new.faulted ≡ true) ⊎ (err.new.faulted ≡ true)) }
{
    let mut input = Tally::new(input.take(task.end));
    let own = run_skipping(task.alloc, &mut input, out, err, &task.settings)?;
    put_own_summary(err, task, &own)?;
    Ok(own)
}

/// Names a file that could not be opened, and the system's reason.
pub(crate) fn put_unopened<E: Write>(
    alloc: Global,
    err: &mut Tally<E>,
    path: &str,
    error: &io::Error,
) -> Result<(), RunError>
    requires { err.old.faulted ≡ false }
    ensures memory { OnOk result (error_kind error.now ≢ ErrorKind.OutOfMemory) }
    ensures line { OnOk result ((line : List ℕ) × NamesUnopened path.now line
        × Adds (passage E.contents err.old err.new) line) }
    ensures left { OnErr result ((line : List ℕ) × NamesUnopened path.now line
        × AppendsFront (E.contents err.old.inner) (E.contents err.new.inner) line) }
    ensures kept { error_kind error.now ≡ ErrorKind.OutOfMemory
        → Keeps (E.contents err.old.inner) (E.contents err.new.inner) }
    ensures only { IfErr result (λ error. (error ≡ RunError.Write)
        ⊎ (error ≡ RunError.OutOfMemory)) }
    ensures fault { IsErrOf result RunError.Write ↔ (err.new.faulted ≡ true) }
{
    if error.kind() == ErrorKind::OutOfMemory {
        return Err(RunError::OutOfMemory);
    }
    let line = unopened_line(alloc, path, error)?;
    write_all(err, &line)?;
    finish(err)
}

/// The line of a file that could not be opened.
fn unopened_line(alloc: Global, path: &str, error: &io::Error) -> Result<Vec<u8>, AllocError>
    ensures { IfOk result (λ line. NamesUnopened path.now line.items) }
{
    let name = FileName::of_path(alloc, path)?;
    let mut line = Vec::from_slice(alloc, b"pgn-extract: cannot open input: ")?;
    line.extend_from_slice(name.bytes())?;
    line.extend_from_slice(b": ")?;
    push_reason(alloc, &mut line, error)?;
    line.push(b'\n')?;
    Ok(line)
}

/// Runs over the file at the path. One that cannot be opened is named: it has no summary.
fn run_path<F: Files, O: Write, E: Write>(
    task: &mut Task<'_>,
    files: &mut F,
    path: &str,
    out: &mut Tally<O>,
    err: &mut Tally<E>,
) -> Result<Option<Summary>, RunError>
where
    F::Input: Drop,
    requires sound { (out.old.faulted ≡ false) × (err.old.faulted ≡ false) }
    requires number { (1 ≤ task.old.settings.number) × (task.old.settings.number ≤ 2 ^ 62) }
    requires offset { task.old.settings.offset ≤ largest_offset }
    ensures written { OnOk result (F.known files.old path.now ≢ Unknown
        → WritesPath (order_at task.old path.now) path.now (F.known files.old path.now)
        (passage O.contents out.old out.new) (passage E.contents err.old err.new)) }
    ensures unopened { IfOk result (λ ran. F.known files.old path.now ≢ Unknown
        → is_none ran ≡ is_no_file (F.known files.old path.now)) }
    ensures stopped { IfErr result (λ error. F.known files.old path.now ≢ Unknown
        → StopsAtPath error (order_at task.old path.now) path.now (F.known files.old path.now)
        (passage O.contents out.old out.new) (passage E.contents err.old err.new)) }
    ensures known { (own : List ℕ) → F.known files.new own ≡ F.known files.old own }
    ensures orders { (own : List ℕ) → order_at task.new own ≡ order_at task.old own }
    ensures number { task.new.settings.number ≡ task.old.settings.number }
    ensures offset { task.new.settings.offset ≡ task.old.settings.offset }
    ensures faults { IsErrOf result RunError.Write
        ↔ ((out.new.faulted ≡ true) ⊎ (err.new.faulted ≡ true)) }
{
    name_file(task, path)?;
    match files.open(path) {
        Ok(input) => match run_input(task, input, out, err) {
            Ok(own) => Ok(Some(own)),
            Err(error) => Err(error),
        },
        Err(error) => match put_unopened(task.alloc, err, path, &error) {
            Ok(()) => Ok(None),
            Err(error) => Err(error),
        },
    }
}

/// Runs over the files in their order, each by itself. One that cannot be opened is named, and the
/// others are read.
pub fn run_files<F: Files, O: Write, E: Write>(
    task: &mut Task<'_>,
    files: &mut F,
    out: &mut Tally<O>,
    err: &mut Tally<E>,
) -> Result<Total, RunError>
where
    F::Input: Drop,
    requires sound { (out.old.faulted ≡ false) × (err.old.faulted ≡ false) }
    requires number { (1 ≤ task.old.settings.number) × (task.old.settings.number ≤ 2 ^ 62) }
    requires offset { task.old.settings.offset ≤ largest_offset }
    ensures written { OnOk result (AreKnown (F.known files.old) (paths_of task.old)
        → WritesPaths (order_at task.old) (F.known files.old) (paths_of task.old)
        (passage O.contents out.old out.new) (passage E.contents err.old err.new)) }
    ensures unopened { IfOk result (λ total. AreKnown (F.known files.old) (paths_of task.old)
        → total.unopened
        ≡ list_any (λ path. is_no_file (F.known files.old path)) (paths_of task.old)) }
    ensures stopped { IfErr result (λ error. AreKnown (F.known files.old) (paths_of task.old)
        → StopsAmong (order_at task.old) (F.known files.old) (paths_of task.old) error
        (passage O.contents out.old out.new) (passage E.contents err.old err.new)) }
    ensures faults { IsErrOf result RunError.Write
        ↔ ((out.new.faulted ≡ true) ⊎ (err.new.faulted ≡ true)) }
{
    let mut total = Total::NONE;
    let paths = task.paths;
    for path in paths {
        total.add(run_path(task, files, path, out, err)?);
    }
    Ok(total)
}
