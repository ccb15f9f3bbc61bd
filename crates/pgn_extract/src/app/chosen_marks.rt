//! The file of `--at`: the marks of the games that are reported, and what is said of its lines.
ghost use Rattle.std.specs.Prelude.{◌≡◌, ◌++◌, ℕ, List, [], Some, codes, false, map};
ghost use Rattle.std.specs.Prelude.{IfOk, IfSome, OnOk};
ghost use Rattle.pgn_extract.specs.Private.MarkLines.{AreMarksOf, line_mark, pairs_of};
ghost use Rattle.pgn_extract.specs.Private.MarkOrder.{given_of};
ghost use Rattle.pgn_extract.specs.Public.Choices.{is_among};
ghost use Rattle.pgn_extract.specs.Public.Index.{shown_name};
ghost use Rattle.pgn_extract.specs.declared.marks.GameId.{GameId};

use crate::app::mark_lines::{NamedLines, is_beside, is_elsewhere};
use crate::app::messages;
use crate::app::order::Order;
use crate::marks::{GameId, Marks, Met};
use crate::output::file_name::{FileName, shown_bytes};
use crate::output::outcome::RunError;
use crate::output::texts::{push_mark, push_number};
use crate::output::write_all::{finish, write_all};
use pgn_text::Tally;
use std::alloc::{AllocError, Global};
use std::io;
use std::io::{BufRead, BufReader, ErrorKind, Read, Write};

/// The most bytes that are shown of a line without a mark.
const SHOWN: usize = 60;

/// Lines of one kind: how many, and the first of them as it is shown.
#[derive(Drop)]
struct Lines {
    count: u64,
    first: Vec<u8>,
}

impl Lines {
    /// None.
    fn new(alloc: Global) -> Lines {
        Lines {
            count: 0,
            first: Vec::new(alloc),
        }
    }

    /// One more, with this number.
    fn add(&mut self, alloc: Global, number: usize, line: &[u8]) -> Result<(), AllocError> {
        if self.count == 0 {
            let shown = shown_bytes(alloc, &line[..line.len().min(SHOWN)])?;
            self.first.extend_from_slice(b"line ")?;
            push_number(&mut self.first, number)?;
            self.first.extend_from_slice(b": ")?;
            self.first.extend_from_slice(shown.as_bytes())?;
        }
        self.count = self.count.saturating_add(1);
        Ok(())
    }
}

/// The names of the file of marks, and of the one of games.
#[derive(Drop)]
pub struct MarkNames {
    marks: FileName,
    games: FileName,
}

impl MarkNames {
    /// Those of these paths.
    pub fn new(alloc: Global, marks: &str, games: &str) -> Result<MarkNames, AllocError>
        ensures { IfOk result (λ names. names.games ≡ shown_name games.now) }
    {
        Ok(MarkNames {
            marks: FileName::of_path(alloc, marks)?,
            games: FileName::of_path(alloc, games)?,
        })
    }
}

/// What a file of marks has for a run.
#[derive(Drop)]
pub struct MarksFile {
    names: MarkNames,
    /// How many lines are read.
    lines: usize,
    /// The marks that stand in the stretch of the run, by their numbers and their offsets.
    pairs: Vec<(u64, u64)>,
    /// Whether some line has a mark of the games.
    has_marks: bool,
    /// The lines without a mark.
    others: Lines,
    /// Those with a mark of some other file.
    elsewhere: Lines,
}

impl MarksFile {
    /// One without lines.
    fn new(alloc: Global, names: MarkNames) -> MarksFile
        ensures { result.pairs.items ≡ [] }
    {
        MarksFile {
            names,
            lines: 0,
            pairs: Vec::new(alloc),
            has_marks: false,
            others: Lines::new(alloc),
            elsewhere: Lines::new(alloc),
        }
    }

    /// Adds the mark of a line, where the run can meet it.
    fn add_mark(&mut self, order: &Order<'_>, mark: GameId) -> Result<(), AllocError>
        ensures { OnOk result (self.new.pairs.items ≡ self.old.pairs.items
            ++ pairs_of order.now.mark.offset order.now.end (Some mark)) }
    {
        self.has_marks = true;
        if order.mark.offset <= mark.offset && mark.offset < order.end {
            self.pairs.push((mark.number, mark.offset))?;
        }
        Ok(())
    }

    /// Adds a line in which there is no mark of the games.
    fn add_unmarked(&mut self, alloc: Global, line: &[u8]) -> Result<(), AllocError>
        ensures { self.new.pairs.items ≡ self.old.pairs.items }
    {
        if is_beside(line) {
            return Ok(());
        }
        if is_elsewhere(line) {
            return self.elsewhere.add(alloc, self.lines, line);
        }
        self.others.add(alloc, self.lines, line)
    }

    /// Adds the next line, which stands here with its end.
    fn add_line(
        &mut self,
        alloc: Global,
        order: &Order<'_>,
        named: &NamedLines,
        line: &[u8],
    ) -> Result<(), AllocError>
        ensures { OnOk result ((name : List ℕ) → named.now.line.items ≡ name ++ codes ":"
            → named.now.report.items ≡ codes "pgn-extract: " ++ name ++ codes ": game "
            → self.new.pairs.items ≡ self.old.pairs.items
            ++ pairs_of order.now.mark.offset order.now.end (line_mark name line.now)) }
    {
        self.lines = self.lines.saturating_add(1);
        match named.mark(line) {
            Some(mark) => self.add_mark(order, mark),
            None => self.add_unmarked(alloc, without_end(line)),
        }
    }

    /// The line that refuses a file that has no mark of the games, but other lines.
    pub fn refusal(&self, alloc: Global) -> Result<Option<Vec<u8>>, AllocError> {
        if self.has_marks || self.others.count == 0 && self.elsewhere.count == 0 {
            return Ok(None);
        }
        let mut line = Vec::from_slice(alloc, messages::PROGRAM.as_bytes())?;
        line.extend_from_slice(self.names.marks.bytes())?;
        line.extend_from_slice(b" has no marks")?;
        if self.elsewhere.count > 0 {
            line.extend_from_slice(b" of ")?;
            line.extend_from_slice(self.names.games.bytes())?;
            line.extend_from_slice(b", only of other names; the first is ")?;
            line.extend_from_slice(&self.elsewhere.first)?;
        }
        line.push(b'\n')?;
        Ok(Some(line))
    }

    /// The marks, and what may be said of them at the end.
    pub fn into_marks(self) -> (Marks, Unmarked)
        ensures { (id : GameId) → is_among result.0 id
            ≡ is_among (map given_of self.pairs.items) id }
    {
        let MarksFile {
            names,
            lines: _,
            pairs,
            has_marks: _,
            others,
            elsewhere: _,
        } = self;
        (Marks::of_pairs(pairs), Unmarked { names, others })
    }
}

/// The lines of a file of marks that have none, which are reported at the end, and its name.
#[derive(Drop)]
pub struct Unmarked {
    names: MarkNames,
    others: Lines,
}

/// A line without its end.
fn without_end(line: &[u8]) -> &[u8] {
    match line {
        [before @ .., b'\r', b'\n'] => before,
        [before @ .., b'\n'] => before,
        _ => line,
    }
}

/// Reads the lines of a file of marks.
pub fn read_marks<R: Read + Drop>(
    alloc: Global,
    input: R,
    order: &Order<'_>,
    names: MarkNames,
) -> io::Result<MarksFile>
    ensures { IfOk result (λ file. IfSome (R.remaining input) (λ text. AreMarksOf names.games text
        order.now.mark.offset order.now.end (map given_of file.pairs.items))) }
{
    let mut reader = BufReader::new(alloc, input)?;
    let named = NamedLines::new(alloc, names.games.bytes())?;
    let mut file = MarksFile::new(alloc, names);
    let mut line = Vec::new(alloc);
    for _ in 1..usize::MAX {
        line.clear();
        let read = reader.read_until(b'\n', &mut line)?;
        if read == 0 {
            return Ok(file);
        }
        file.add_line(alloc, order, &named, &line)?;
    }
    Err(io::Error::from(ErrorKind::FileTooLarge))
}

/// Appends a line: a number of things, and the parts that say what they are.
fn push_count(text: &mut Vec<u8>, count: usize, parts: &[&[u8]]) -> Result<(), AllocError> {
    text.extend_from_slice(messages::PROGRAM.as_bytes())?;
    push_number(text, count)?;
    for part in parts {
        text.extend_from_slice(part)?;
    }
    text.push(b'\n')?;
    Ok(())
}

impl Unmarked {
    /// What is to be said at the end of a run over these marks: which of them are of no game, and
    /// which lines have none. Nothing where all is well.
    fn end_lines(&self, alloc: Global, marks: &Marks, met: Met) -> Result<Vec<u8>, AllocError> {
        let mut lines = Vec::new(alloc);
        if let Some(id) = marks.at(met.first_missed()) {
            let mut first = Vec::new(alloc);
            push_mark(&mut first, id)?;
            let missed = marks.len().saturating_sub(met.count);
            let parts = [
                b" of the marks are of no game in ".as_slice(),
                self.names.games.bytes(),
                b"; the first is ",
                &first,
            ];
            push_count(&mut lines, missed, &parts)?;
        }
        if self.others.count > 0 {
            let parts = [
                b" of the lines of ".as_slice(),
                self.names.marks.bytes(),
                b" have no mark; the first is ",
                &self.others.first,
            ];
            push_count(&mut lines, self.others.count as usize, &parts)?;
        }
        Ok(lines)
    }

    /// Says it, and answers whether there was something to say.
    pub fn put_end<E: Write>(
        &self,
        alloc: Global,
        err: &mut Tally<E>,
        marks: &Marks,
        met: Met,
    ) -> Result<bool, RunError>
        requires { err.old.faulted ≡ false }
        ensures { OnOk result (err.new.faulted ≡ false) }
    {
        let lines = self.end_lines(alloc, marks, met)?;
        if lines.is_empty() {
            return Ok(false);
        }
        write_all(err, &lines)?;
        finish(err)?;
        Ok(true)
    }
}
