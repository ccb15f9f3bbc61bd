//! A writer of records that makes segments of them.
ghost use Rattle.std.specs.Prelude.{◌≡◌, ◌≤◌, List, [], length, take, OnOk};
ghost use Rattle.std.specs.Io.{WritesAtMost};
ghost use Rattle.std.specs.Io.KnownBytes.{Appends, Keeps, WriteAppends};
ghost use Rattle.pgn_game.specs.Public.SegmentWriting.{segment_bytes, segment_records};

use crate::pack::segment::{LARGEST_BODY, push_segment};
use std::alloc::{AllocError, Global};
use std::io;
use std::io::{ErrorKind, Write};
use std::marker::Model;

/// Writes until all is written or a write fails, and answers how many bytes were written.
fn write_out<W: Write>(bytes: &[u8], to: &mut W) -> (usize, io::Result<()>)
    ensures bound { result.0 ≤ length bytes.now }
    ensures all { OnOk result.1 (result.0 ≡ length bytes.now) }
    ensures bytes { Appends (W.contents to.old) (W.contents to.new) (take result.0 bytes.now) }
{
    let mut written = 0;
    while written < bytes.len() {
        match to.write(&bytes[written..]) {
            Ok(0) => return (written, Err(io::Error::from(ErrorKind::WriteZero))),
            Ok(count) => written += count,
            Err(error) => return (written, Err(error)),
        }
    }
    (written, Ok(()))
}

/// A writer that makes a segment of what each write gives it: whole records, so that no record
/// stands in two segments. A write fails before it takes a byte, or is taken whole.
#[derive(Drop)]
pub struct SegmentWriter<W: Write> {
    alloc: Global,
    inner: W,
    /// The last segment, and how many of its bytes are written.
    segment: Vec<u8>,
    at: usize,
}

impl<W: Write> Model for SegmentWriter<W> {
    ghost use Rattle.std.specs.Prelude.{◌≤◌, length, drop};
    ghost use Rattle.pgn_game.specs.Public.SegmentWriting.{Sending};

    ghost Value = { Sending W };

    ghost view = { λ w. record { inner = w.inner; unsent = drop w.at w.segment.items } };

    ghost invariant = { λ w. w.at ≤ length w.segment.items };
}

impl<W: Write> SegmentWriter<W> {
    /// A writer that puts segments after what the inner one holds.
    pub fn new(alloc: Global, inner: W) -> Self
        ensures inner { result.inner ≡ inner }
        ensures none { result.unsent ≡ [] }
    {
        SegmentWriter {
            alloc,
            inner,
            segment: Vec::new(alloc),
            at: 0,
        }
    }

    /// The inner writer: bytes that it does not have yet are dropped.
    pub fn into_inner(self) -> W
        ensures { result ≡ self.inner }
    {
        let SegmentWriter {
            inner,
            alloc: _,
            segment: _,
            at: _,
        } = self;
        inner
    }

    /// Writes what is left of the last segment.
    fn send(&mut self) -> io::Result<()>
        ensures kept { Keeps (segment_bytes W.contents self.old)
            (segment_bytes W.contents self.new) }
        ensures sent { OnOk result (self.new.unsent ≡ []) }
    {
        let (count, result) = write_out(&self.segment[self.at..], &mut self.inner);
        self.at += count;
        result
    }
}

impl<W: Write> Write for SegmentWriter<W> {
    ghost contents = { segment_records W.contents };

    fn write(&mut self, buf: &[u8]) -> io::Result<usize>
        ensures bound { WritesAtMost result buf.now }
        ensures bytes { WriteAppends (segment_records W.contents self.old)
            (segment_records W.contents self.new) result buf.now }
    {
        let count = buf.len().min(LARGEST_BODY);
        if count == 0 {
            return Ok(0);
        }
        self.send()?;
        self.at = 0;
        self.segment.clear();
        match push_segment(self.alloc, count as u32, &buf[..count], &mut self.segment) {
            Ok(()) => Ok(count),
            Err(AllocError) => {
                self.segment.clear();
                Err(io::Error::from(ErrorKind::OutOfMemory))
            }
        }
    }

    fn flush(&mut self) -> io::Result<()>
        ensures bytes { Keeps (segment_records W.contents self.old)
            (segment_records W.contents self.new) }
        ensures sent { OnOk result (self.new.unsent ≡ []) }
    {
        self.send()?;
        self.inner.flush()
    }
}
