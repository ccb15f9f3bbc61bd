//! The files of the machine that the program runs on.
ghost use Rattle.std.specs.Prelude.{◌≤◌, IfOk};

use crate::head::Head;
use crate::progress::{Pace, Progress, StatusLine};
use pgn_extract::{Files, Stream, folder_note, messages};
use pgn_text::Skip;
use std::fs::File;
use std::io::{ErrorKind, Read, Seek, SeekFrom, Stdin, Write};
use std::os::unix::fs::MetadataExt;
use std::{env, fs, io};

/// Where bytes come from: a file, or standard input.
#[derive(Drop)]
pub enum Source {
    File(File),
    Standard(Stdin),
}

impl Read for Source {
    fn read(&mut self, buf: &mut [u8]) -> io::Result<usize> {
        match self {
            Source::File(file) => file.read(buf),
            Source::Standard(stdin) => stdin.read(buf),
        }
    }
}

/// Moves on by at most `most` bytes in a file whose end is known, and answers by how many; pipes
/// and devices are to be read.
fn move_on(file: &mut File, most: u64) -> io::Result<u64>
    ensures { IfOk result (λ count. count ≤ most) }
{
    if most == 0 {
        return Ok(0);
    }
    let Ok(here) = file.stream_position() else {
        return Ok(0);
    };
    let Ok(end) = file.seek(SeekFrom::End(0)) else {
        return Ok(0);
    };
    let count = end.saturating_sub(here).min(most);
    file.seek(SeekFrom::Start(here.saturating_add(count)))?;
    Ok(count)
}

impl Skip for Source {
    fn skip(&mut self, most: u64) -> io::Result<u64> {
        match self {
            Source::File(file) => move_on(file, most),
            Source::Standard(_) => Ok(0),
        }
    }
}

/// An input, with its first bytes until they say what it is, and how far it is read where that is
/// shown.
#[derive(Drop)]
pub struct Input<'a> {
    source: Source,
    head: Option<Head<'a>>,
    progress: Option<Progress<'a>>,
}

impl<'a> Read for Input<'a> {
    fn read(&mut self, buf: &mut [u8]) -> io::Result<usize> {
        let count = self.source.read(buf)?;
        if let Some(head) = &mut self.head
            && !head.add(&buf[..count])
        {
            self.head = None;
        }
        if let Some(progress) = &mut self.progress {
            progress.add(&buf[..count]);
        }
        Ok(count)
    }
}

impl<'a> Skip for Input<'a> {
    fn skip(&mut self, most: u64) -> io::Result<u64> {
        let count = self.source.skip(most)?;
        if count > 0 {
            self.head = None;
        }
        if let Some(progress) = &mut self.progress {
            progress.pass(count);
        }
        Ok(count)
    }
}

/// Where examples of criteria stand, from the folder of the program: where it is installed, and
/// where it was built.
const EXAMPLES: [&str; 3] = [
    "../share/pgn-extract/criteria",
    "../../../examples",
    "../../../../examples",
];

/// What the notes on inputs say.
#[derive(Clone, Copy)]
enum Notes {
    None,
    /// What is no text of games.
    Texts,
    /// What is no pack.
    Packs,
}

/// Opens real files through the runtime.
#[derive(Drop)]
pub struct RealFiles<'a> {
    rt: HostRuntime,
    line: &'a StatusLine,
    notes: Notes,
    pace: Option<Pace>,
}

impl<'a> RealFiles<'a> {
    /// Those of the machine, with the line on which progress is shown.
    pub fn new(rt: HostRuntime, line: &'a StatusLine) -> Self {
        RealFiles {
            rt,
            line,
            notes: Notes::None,
            pace: None,
        }
    }

    /// The example of criteria with this name.
    fn open_example(&mut self, name: &str) -> io::Result<Input<'a>> {
        let alloc = self.rt.alloc();
        let program = env::current_exe(&self.rt)?;
        let (folder, _) = program.as_str().rsplit_once('/').unwrap_or(("", ""));
        for place in EXAMPLES {
            let Ok(path) = format!(in alloc; "{folder}/{place}/{name}.txt") else {
                return Err(io::Error::from(ErrorKind::OutOfMemory));
            };
            match self.open(path.as_str()) {
                Err(error) if error.kind() == ErrorKind::NotFound => {}
                other => return other,
            }
        }
        Err(io::Error::from(ErrorKind::NotFound))
    }

    /// Notes that an input with this name is a folder, where notes say what inputs are.
    fn note_folder(&self, name: &str) {
        if !matches!(self.notes, Notes::None)
            && let Ok(note) = folder_note(self.rt.alloc(), name)
        {
            self.line.report(&note);
        }
    }

    /// The first bytes of an input with this name, or of standard input, where notes speak of them.
    fn head(&self, name: Option<String>) -> Option<Head<'a>> {
        let packed = match self.notes {
            Notes::None => return None,
            Notes::Texts => false,
            Notes::Packs => true,
        };
        Some(Head::new(self.rt.alloc(), self.line, name, packed))
    }

    /// How far an input with this name and size is read, where that is shown.
    fn progress(&self, name: &str, size: Option<u64>) -> Option<Progress<'a>> {
        let pace = self.pace?;
        match Progress::new(self.rt.alloc(), self.line, name, size, pace) {
            Ok(progress) => Some(progress),
            Err(_) => None,
        }
    }
}

/// The bytes of a file, where they are known.
fn size_of(file: &File) -> Option<u64> {
    match file.metadata() {
        Ok(metadata) if metadata.is_file() => Some(metadata.len()),
        _ => None,
    }
}

/// Whether it is a folder, which can be opened but not read.
fn is_folder(file: &File) -> bool {
    match file.metadata() {
        Ok(metadata) => metadata.is_dir(),
        Err(_) => false,
    }
}

/// The device and the number of the regular file at the path, if there is one.
fn node_of(rt: &HostRuntime, path: &str) -> Option<(u64, u64)> {
    match fs::metadata(rt, path) {
        Ok(metadata) if metadata.is_file() => Some((metadata.dev(), metadata.ino())),
        _ => None,
    }
}

impl<'a> Files for RealFiles<'a> {
    type Input = Input<'a>;

    fn open(&mut self, path: &str) -> io::Result<Input<'a>> {
        let file = fs::open(&self.rt, path)?;
        if is_folder(&file) {
            self.note_folder(path);
        }
        let name = String::from_str(self.rt.alloc(), path)?;
        let size = size_of(&file);
        Ok(Input {
            source: Source::File(file),
            head: self.head(Some(name)),
            progress: self.progress(path, size),
        })
    }

    fn open_criteria(&mut self, path: &str) -> io::Result<Input<'a>> {
        match self.open(path) {
            Err(error) if error.kind() == ErrorKind::NotFound && !path.contains('/') => {
                match self.open_example(path) {
                    Err(other) if other.kind() == ErrorKind::NotFound => Err(error),
                    other => other,
                }
            }
            other => other,
        }
    }

    fn standard(&mut self) -> Input<'a> {
        Input {
            source: Source::Standard(self.rt.stdin()),
            head: self.head(None),
            progress: self.progress(messages::STANDARD_INPUT, None),
        }
    }

    fn is_written(&self, stream: Stream, path: Option<&str>) -> bool {
        let written = match stream {
            Stream::Output => "/proc/self/fd/1",
            Stream::Reports => "/proc/self/fd/2",
        };
        match node_of(&self.rt, written) {
            Some(node) => node_of(&self.rt, path.unwrap_or("/proc/self/fd/0")) == Some(node),
            None => false,
        }
    }

    fn is_watched(&self) -> bool {
        self.line.has_terminal()
    }

    fn show_notes(&mut self, notes: &[u8]) {
        let _ = self.rt.stderr().write_all(notes);
    }

    fn note_kinds(&mut self, packed: bool) {
        self.notes = if packed { Notes::Packs } else { Notes::Texts };
    }

    fn show_progress(&mut self, asked: bool) {
        self.pace = if self.line.has_terminal() {
            Pace::new(&self.rt, asked)
        } else {
            None
        };
    }
}
