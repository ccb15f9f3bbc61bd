//! A writer over a borrowed tally.
ghost use Rattle.std.specs.Io.{WritesAtMost};
ghost use Rattle.std.specs.Io.KnownBytes.{Keeps, WriteAppends};

use pgn_text::Tally;
use std::io;
use std::io::Write;

/// A writer that hands each call on to a tally.
#[derive(Drop)]
pub struct Through<'a, O: Write> {
    out: &'a mut Tally<O>,
}

impl<'a, O: Write> Through<'a, O> {
    /// One over this tally.
    pub fn new(out: &'a mut Tally<O>) -> Self {
        Through { out }
    }
}

impl<'a, O: Write> Write for Through<'a, O> {
    ghost contents = { λ t. O.contents t.out.now.inner };

    fn write(&mut self, buf: &[u8]) -> io::Result<usize> {
        self.out.write(buf)
    }

    fn flush(&mut self) -> io::Result<()> {
        self.out.flush()
    }
}
