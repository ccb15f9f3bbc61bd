//! How far an input is read, on a terminal.
use memchr::memchr_iter;
use std::alloc::{AllocError, Global};
use std::cell::Cell;
use std::io::{IsTerminal, Write};
use std::time::Instant;
use std::{fmt, io};

/// How many milliseconds pass at least from one line to the next.
const PAUSE: u64 = 250;

/// After how many milliseconds of a run it is drawn where nobody asked for it.
const PATIENCE: u64 = 2_000;

/// How each game begins.
const EVENT: &[u8] = b"[Event ";

/// The most characters that are shown of a name: its last ones.
const NAME_SHOWN: usize = 24;

/// A line on the terminal that is drawn anew, and taken away before anything else is written there.
#[derive(Drop)]
pub struct StatusLine {
    rt: HostRuntime,
    is_drawn: Cell<bool>,
}

impl StatusLine {
    /// A line that is not drawn.
    pub fn new(rt: HostRuntime) -> Self {
        StatusLine {
            rt,
            is_drawn: Cell::new(false),
        }
    }

    /// Whether standard error is a terminal.
    pub fn has_terminal(&self) -> bool {
        self.rt.stderr().is_terminal()
    }

    /// Draws it in place of what it was. A fault in that is ignored: the line is no part of what is
    /// reported.
    fn draw(&self, text: &str) {
        let _ = self.rt.eprint(text);
        self.is_drawn.set(true);
    }

    /// Writes bytes to standard error in its place. A fault in that is ignored.
    pub fn report(&self, bytes: &[u8]) {
        self.clear();
        let _ = self.rt.stderr().write_all(bytes);
    }

    /// Takes it away, if it is drawn.
    pub fn clear(&self) {
        if self.is_drawn.get() {
            let _ = self.rt.eprint("\r\x1b[K");
            self.is_drawn.set(false);
        }
    }
}

/// A writer that takes the line away first, where it writes to a terminal.
#[derive(Drop)]
pub struct Beside<'a, W> {
    inner: W,
    line: &'a StatusLine,
    is_terminal: bool,
}

impl<'a, W: IsTerminal> Beside<'a, W> {
    pub fn new(inner: W, line: &'a StatusLine) -> Self {
        let is_terminal = inner.is_terminal();
        Beside {
            inner,
            line,
            is_terminal,
        }
    }
}

impl<'a, W: Write> Write for Beside<'a, W> {
    fn write(&mut self, buf: &[u8]) -> io::Result<usize> {
        if self.is_terminal {
            self.line.clear();
        }
        self.inner.write(buf)
    }

    fn flush(&mut self) -> io::Result<()> {
        self.inner.flush()
    }
}

/// How many games begin in bytes that come in pieces.
#[derive(Clone, Copy)]
struct Beginnings {
    count: u64,
    /// How many bytes of a beginning the last piece ended with.
    matched: usize,
}

impl Beginnings {
    /// Looks at the next piece.
    fn add(&mut self, bytes: &[u8]) {
        if self.matched > 0 {
            self.go_on(self.matched, bytes);
        }
        for at in memchr_iter(b'[', bytes) {
            if let Some(rest) = bytes.get(at.saturating_add(1)..) {
                self.go_on(1, rest);
            }
        }
    }

    /// Looks whether these bytes go on with a beginning of which so many bytes came.
    fn go_on(&mut self, matched: usize, bytes: &[u8]) {
        let wanted = &EVENT[matched.min(EVENT.len())..];
        self.matched = 0;
        if bytes.starts_with(wanted) {
            self.count = self.count.saturating_add(1);
        } else if wanted.starts_with(bytes) {
            self.matched = matched.saturating_add(bytes.len());
        }
    }
}

/// Bytes as megabytes, with one decimal.
#[derive(Clone, Copy)]
struct Megabytes(u64);

impl fmt::Display for Megabytes {
    fn fmt<W: fmt::Write>(&self, f: &mut fmt::Formatter<W>) -> fmt::Result {
        let tenths = self.0 / 100_000;
        write!(f, "{}.{} MB", tenths / 10, tenths % 10)
    }
}

/// Games after a comma, and nothing where none begin, as in a pack.
#[derive(Clone, Copy)]
struct Games(u64);

impl fmt::Display for Games {
    fn fmt<W: fmt::Write>(&self, f: &mut fmt::Formatter<W>) -> fmt::Result {
        match self.0 {
            0 => Ok(()),
            count => write!(f, ", {count} games"),
        }
    }
}

/// When a run began, and after how many milliseconds of it lines are drawn.
#[derive(Clone, Copy)]
pub struct Pace {
    begun: Instant,
    wait: u64,
}

impl Pace {
    /// That of a run that begins now, where progress is asked for or not; none where the clock
    /// gives no time.
    pub fn new(rt: &HostRuntime, asked: bool) -> Option<Self> {
        let begun = Instant::now(rt).ok()?;
        let wait = if asked { 0 } else { PATIENCE };
        Some(Pace { begun, wait })
    }
}

/// How far one input is read.
#[derive(Drop)]
pub struct Progress<'a> {
    line: &'a StatusLine,
    alloc: Global,
    /// Its name, as far as it is shown.
    name: String,
    /// Its bytes, where they are known.
    size: Option<u64>,
    read: u64,
    games: Beginnings,
    pace: Pace,
    begun: Instant,
    drawn: Instant,
}

/// The last characters of a name, with `?` for control characters.
fn shown_name(alloc: Global, name: &str) -> io::Result<String> {
    let mut shown = String::new(alloc);
    let left = name.chars().count().saturating_sub(NAME_SHOWN);
    for character in name.chars().skip(left) {
        shown.push(if character.is_control() {
            '?'
        } else {
            character
        })?;
    }
    Ok(shown)
}

/// The milliseconds from one time to another.
fn millis(from: Instant, to: Instant) -> u64 {
    let passed = to.duration_since(from);
    let whole = passed.as_secs().saturating_mul(1000);
    whole.saturating_add(u64::from(passed.subsec_millis()))
}

impl<'a> Progress<'a> {
    /// That of an input with this name of which nothing is read.
    pub fn new(
        alloc: Global,
        line: &'a StatusLine,
        name: &str,
        size: Option<u64>,
        pace: Pace,
    ) -> io::Result<Self> {
        let now = Instant::now(&line.rt)?;
        Ok(Progress {
            line,
            alloc,
            name: shown_name(alloc, name)?,
            size,
            read: 0,
            games: Beginnings {
                count: 0,
                matched: 0,
            },
            pace,
            begun: now,
            drawn: now,
        })
    }

    /// Counts bytes that were read.
    pub fn add(&mut self, bytes: &[u8]) {
        self.games.add(bytes);
        self.pass(bytes.len() as u64);
    }

    /// Counts bytes that were read or passed over, and draws the line where it is time.
    pub fn pass(&mut self, count: u64) {
        self.read = self.read.saturating_add(count);
        let Ok(now) = Instant::now(&self.line.rt) else {
            return;
        };
        if millis(self.drawn, now) < PAUSE || millis(self.pace.begun, now) < self.pace.wait {
            return;
        }
        self.drawn = now;
        if let Ok(text) = self.text(millis(self.begun, now)) {
            self.line.draw(text.as_str());
        }
    }

    /// The line after so many milliseconds.
    fn text(&self, passed: u64) -> Result<String, AllocError> {
        // (bytes a millisecond)
        let rate = self.read / passed.max(1);
        let games = Games(self.games.count);
        let name = self.name.as_str();
        let speed = Megabytes(rate.saturating_mul(1000));
        let Some(size) = self.size else {
            let read = Megabytes(self.read);
            return format!(in self.alloc; "\r{name}: {read}{games}, {speed}/s\x1b[K");
        };
        let percent = self.read.min(size).saturating_mul(100) / size.max(1);
        let left = size.saturating_sub(self.read) / rate.max(1) / 1000;
        let size = Megabytes(size);
        let (minutes, seconds) = (left / 60, left % 60);
        format!(in self.alloc;
            "\r{name}: {percent} % of {size}{games}, {speed}/s, {minutes}:{seconds:02} left\x1b[K"
        )
    }
}
