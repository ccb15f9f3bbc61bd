//! A reader or a writer with the memory of whether a call to it has failed.
ghost use Rattle.std.specs.Prelude.{◌≡◌, ◌≤◌, ◌||◌, Bool, true, false, IfOk, is_ok, is_err};
ghost use Rattle.std.specs.Io.{ReadsAtMost, WritesAtMost};
ghost use Rattle.std.specs.Io.KnownBytes.{ConsumesCount, Keeps, ReadConsumes, WriteAppends};
ghost use Rattle.pgn_text.specs.Public.Tallies.{Tallied, moved_by, takes_nothing};

use crate::io::skip::Skip;
use std::io;
use std::io::{Read, Write};
use std::marker::Model;

/// A reader or a writer, as `Blocks` and runs take it, and what became of the calls to it: whether
/// one has failed, how many bytes they moved, and whether the last of them was a flush that
/// succeeded.
#[derive(Drop)]
pub struct Tally<T> {
    inner: T,
    faulted: bool,
    moved: u64,
    flushed: bool,
}

impl<T> Model for Tally<T> {
    ghost Value = { Tallied T };

    ghost view = { λ t. record {
      inner = t.inner;
      faulted = t.faulted;
      moved = t.moved;
      flushed = t.flushed;
    } };
}

impl<T> Tally<T> {
    /// A tally that has seen no call.
    pub fn new(inner: T) -> Self
        ensures { result ≡ record { inner = inner; faulted = false; moved = 0; flushed = false } }
    {
        Tally {
            inner,
            faulted: false,
            moved: 0,
            flushed: false,
        }
    }

    /// Whether a call has failed: one that answered an error, or a write that took none of its
    /// bytes.
    pub fn faulted(&self) -> bool
        ensures { result ≡ self.now.faulted }
    {
        self.faulted
    }

    /// How many bytes the reads gave, the skips passed over or the writes took. The count stays at
    /// `u64::MAX`.
    pub fn moved(&self) -> u64
        ensures { result ≡ self.now.moved }
    {
        self.moved
    }

    /// Whether the last call was a flush that succeeded.
    pub fn flushed(&self) -> bool
        ensures { result ≡ self.now.flushed }
    {
        self.flushed
    }

    /// The reader or the writer itself.
    pub fn into_inner(self) -> T
        ensures { result ≡ self.inner }
    {
        let Tally {
            inner,
            faulted: _,
            moved: _,
            flushed: _,
        } = self;
        inner
    }
}

impl<R: Read> Tally<R> {
    /// One read of the reader, with its answer.
    pub fn read(&mut self, buf: &mut [u8]) -> io::Result<usize>
        ensures bound { ReadsAtMost result buf.new }
        ensures bytes { ReadConsumes (R.remaining self.old.inner) (R.remaining self.new.inner)
            result buf.new }
        ensures faulted { self.new.faulted ≡ (self.old.faulted || is_err result) }
        ensures moved { self.new.moved ≡ moved_by self.old.moved result }
        ensures flushed { self.new.flushed ≡ false }
    {
        self.flushed = false;
        match self.inner.read(buf) {
            Ok(count) => {
                self.moved = self.moved.saturating_add(count as u64);
                Ok(count)
            }
            Err(error) => {
                self.faulted = true;
                Err(error)
            }
        }
    }
}

impl<R: Skip> Tally<R> {
    /// One skip of the reader, with its answer; the bytes that it passed over count as moved.
    pub fn skip(&mut self, most: u64) -> io::Result<u64>
        ensures bytes { ConsumesCount (R.remaining self.old.inner)
            (R.remaining self.new.inner) result }
        ensures bound { IfOk result (λ count. count ≤ most) }
        ensures faulted { self.new.faulted ≡ (self.old.faulted || is_err result) }
        ensures moved { self.new.moved ≡ moved_by self.old.moved result }
        ensures flushed { self.new.flushed ≡ false }
    {
        self.flushed = false;
        match self.inner.skip(most) {
            Ok(count) => {
                self.moved = self.moved.saturating_add(count);
                Ok(count)
            }
            Err(error) => {
                self.faulted = true;
                Err(error)
            }
        }
    }
}

impl<W: Write> Tally<W> {
    /// One write of the writer, with its answer.
    pub fn write(&mut self, buf: &[u8]) -> io::Result<usize>
        ensures bound { WritesAtMost result buf.now }
        ensures bytes { WriteAppends (W.contents self.old.inner) (W.contents self.new.inner)
            result buf.now }
        ensures faulted { self.new.faulted
            ≡ (self.old.faulted || (is_err result || takes_nothing result buf.now)) }
        ensures moved { self.new.moved ≡ moved_by self.old.moved result }
        ensures flushed { self.new.flushed ≡ false }
    {
        self.flushed = false;
        match self.inner.write(buf) {
            Ok(count) => {
                if count == 0 && !buf.is_empty() {
                    self.faulted = true;
                }
                self.moved = self.moved.saturating_add(count as u64);
                Ok(count)
            }
            Err(error) => {
                self.faulted = true;
                Err(error)
            }
        }
    }

    /// One flush of the writer, with its answer.
    pub fn flush(&mut self) -> io::Result<()>
        ensures bytes { Keeps (W.contents self.old.inner) (W.contents self.new.inner) }
        ensures faulted { self.new.faulted ≡ (self.old.faulted || is_err result) }
        ensures moved { self.new.moved ≡ self.old.moved }
        ensures flushed { self.new.flushed ≡ is_ok result }
    {
        let answer = self.inner.flush();
        self.flushed = answer.is_ok();
        if answer.is_err() {
            self.faulted = true;
        }
        answer
    }
}
