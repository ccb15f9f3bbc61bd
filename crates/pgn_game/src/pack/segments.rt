//! The segments of a pack, one after another, as a reader gives them.
ghost use Rattle.std.specs.Prelude.{◌≡◌, ◌≢◌, ◌↔◌, ℕ, ◌+◌, ◌^◌, ◌<◌, ◌≤◌, true, false, List};
ghost use Rattle.std.specs.Prelude.{[], ◌++◌, length, IfErr, IfOk, IsErrOf, OnOk, ◌⊎◌};
ghost use Rattle.pgn_text.specs.Public.Limits.{largest_offset};
ghost use Rattle.pgn_game.specs.Public.SegmentStreams.{SegmentStep, no_segment_yet};
ghost use Rattle.pgn_game.specs.Private.SegmentSteps.{Fills, HoldsSegment};

use crate::pack::error::SegmentError;
use crate::pack::segment::{read, read_front};
use pgn_text::{Buffer, LARGEST_OFFSET, ReadError, Tally};
use std::alloc::Global;
use std::io::Read;
use std::marker::Model;
use thiserror::Error;

/// The bytes in front of a body: a front and its seal.
pub const FRONT: usize = 24;

/// Why no further segment is held.
#[derive(Clone, Copy, Debug, PartialEq, Eq, Error)]
pub enum SegmentsError {
    /// The reader failed.
    #[error("a read failed")]
    Read,
    /// Memory ran out.
    #[error("out of memory")]
    OutOfMemory,
    /// What is left does not begin with a segment.
    #[error("{0}")]
    Bad(SegmentError),
    /// The pack goes past the largest offset.
    #[error("the pack is too long")]
    InputTooLong,
}

/// Reads on until so many bytes are held, and answers whether they are: fewer are at the end.
fn fill<R: Read>(
    held: &mut Buffer,
    size: usize,
    input: &mut Tally<R>,
) -> Result<bool, SegmentsError>
    requires few { size < 2 ^ 32 }
    requires room { length held.old ≤ size }
    requires sound { input.old.faulted ≡ false }
    ensures gives { Fills size held.old held.new (R.remaining input.old.inner)
        (R.remaining input.new.inner) result }
    ensures own { IfErr result (λ error. (error ≡ SegmentsError.Read)
        ⊎ (error ≡ SegmentsError.OutOfMemory)) }
    ensures fault { IsErrOf result SegmentsError.Read ↔ (input.new.faulted ≡ true) }
{
    while held.len() < size {
        let count = size - held.len();
        match held.read_more(count, input) {
            Ok(0) => return Ok(false),
            Ok(_) => {}
            Err(ReadError::Read | ReadError::Failed) => return Err(SegmentsError::Read),
            Err(ReadError::OutOfMemory | ReadError::InputTooLong) => {
                return Err(SegmentsError::OutOfMemory);
            }
        }
    }
    Ok(true)
}

/// Reads the next segment, of which nothing is held yet, and answers how many bytes its records
/// have; none at the end of the pack.
fn hold_segment<R: Read>(
    held: &mut Buffer,
    input: &mut Tally<R>,
) -> Result<Option<usize>, SegmentsError>
    requires empty { held.old ≡ [] }
    requires sound { input.old.faulted ≡ false }
    ensures gives { HoldsSegment held.new (R.remaining input.old.inner)
        (R.remaining input.new.inner) result }
    ensures fault { IsErrOf result SegmentsError.Read ↔ (input.new.faulted ≡ true) }
{
    if !fill(held, FRONT, input)? {
        return if held.len() == 0 {
            Ok(None)
        } else {
            Err(SegmentsError::Bad(SegmentError::CutShort))
        };
    }
    let size = match read_front(held.bytes()) {
        Ok(((_, size), _)) => size as usize,
        Err(error) => return Err(SegmentsError::Bad(error)),
    };
    if !fill(held, FRONT + size + 8, input)? {
        return Err(SegmentsError::Bad(SegmentError::CutShort));
    }
    match read(held.bytes()) {
        Ok((segment, _)) => Ok(Some(segment.records().len())),
        Err(error) => Err(SegmentsError::Bad(error)),
    }
}

/// The segments of the pack that a reader gives, in order. One is held at a time.
#[derive(Drop)]
pub struct Segments {
    /// The bytes of the segment that is held.
    held: Buffer,
    /// Where in them its records begin, and how many bytes these have.
    begin: usize,
    records: usize,
    /// How many bytes the segment has.
    size: usize,
    /// How many bytes stand before it.
    place: u64,
}

impl Model for Segments {
    ghost use Rattle.std.specs.Prelude.{take, drop};
    ghost use Rattle.pgn_game.specs.Private.SegmentSteps.{LiesInside};
    ghost use Rattle.pgn_game.specs.Public.SegmentStreams.{SegmentWindow};

    ghost Value = { SegmentWindow };

    ghost view = { λ s. record {
      records = take s.records (drop s.begin s.held);
      size = s.size;
      place = s.place;
    } };

    ghost invariant = { λ s. LiesInside s.held s.begin s.records s.size s.place };
}

impl Segments {
    /// The segments of a pack of which nothing is read.
    pub fn new(alloc: Global) -> Self
        ensures { result ≡ no_segment_yet }
    {
        Segments {
            held: Buffer::new(alloc),
            begin: 0,
            records: 0,
            size: 0,
            place: 0,
        }
    }

    /// How many bytes of the pack stand before the segment that is held, or before what is none.
    pub fn place(&self) -> u64
        ensures { result ≡ self.now.place }
    {
        self.place
    }

    /// Whether what is held begins as a record: the packs of older programs are records alone.
    pub fn is_older(&self) -> bool {
        self.place == 0 && matches!(self.held.bytes(), [0..=2, _, _, _, 0, 0, 0, 0, ..])
    }

    /// The records of the segment that is held.
    pub fn records(&self) -> &[u8]
        ensures { result.now ≡ self.now.records }
    {
        &self.held.bytes()[self.begin..self.begin + self.records]
    }

    /// Steps to the next segment, and says whether there is one: none is left at the end of the
    /// pack.
    pub fn step<R: Read>(&mut self, input: &mut Tally<R>) -> Result<bool, SegmentsError>
        requires sound { input.old.faulted ≡ false }
        ensures gives { SegmentStep self.new (R.remaining input.old.inner)
            (R.remaining input.new.inner) result }
        ensures place { self.new.place ≡ self.old.place + self.old.size }
        ensures within { self.new.place + self.new.size ≤ largest_offset }
        ensures fault { IsErrOf result SegmentsError.Read ↔ (input.new.faulted ≡ true) }
    {
        self.place += self.size as u64;
        self.size = 0;
        self.begin = 0;
        self.records = 0;
        self.held.clear();
        let Some(records) = hold_segment(&mut self.held, input)? else {
            return Ok(false);
        };
        let size = self.held.len();
        if size as u64 > LARGEST_OFFSET - self.place {
            return Err(SegmentsError::InputTooLong);
        }
        self.size = size;
        self.begin = FRONT;
        self.records = records;
        Ok(true)
    }
}
