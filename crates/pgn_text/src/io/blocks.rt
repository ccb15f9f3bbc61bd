//! The blocks of a text: from its begin or an event line to the next event line or the end.
ghost use Rattle.std.specs.Prelude.{◌≡◌, ◌≢◌, ◌↔◌, ◌⊎◌, ℕ, ◌+◌, ◌-◌, ◌^◌, ◌<◌, ◌≤◌, true, false};
ghost use Rattle.std.specs.Prelude.{List, [], ◌++◌, length, take, drop, IsTrue, IfOk, IfErr};
ghost use Rattle.std.specs.Prelude.{IsErrOf};
ghost use Rattle.std.specs.Borrow.{sem};
ghost use Rattle.std.specs.Io.BufRead.{Rests};
ghost use Rattle.std.specs.Io.KnownBytes.{IsAtEnd};
ghost use Rattle.pgn_text.specs.Private.Cuts.{is_cut};
ghost use Rattle.pgn_text.specs.Private.Held.{IsOccupiedBy};
ghost use Rattle.pgn_text.specs.Public.Limits.{block_limit, largest_offset, window_limit};
ghost use Rattle.pgn_text.specs.Private.Phases.{is_failed, is_ended, is_over};
ghost use Rattle.pgn_text.specs.Private.Searches.{FindsCut, FindsMore, FindsEnd, FailsFrom};
ghost use Rattle.pgn_text.specs.Private.Searches.{GivesUp, StepGives};
ghost use Rattle.pgn_text.specs.Public.Tallies.{Reads};
ghost use Rattle.pgn_text.specs.Public.Windows.{EndsIn, HoldsTheRest, IsBlock, Gives, fresh_window};
ghost use Rattle.pgn_text.specs.contracts.io.blocks.Blocks.{the_row};

use crate::io::buffer::Buffer;
use crate::io::limits::{BLOCK_LIMIT, LARGEST_OFFSET, READ_LIMIT, WINDOW_LIMIT};
use crate::io::tally::Tally;
use memchr::memmem;
use std::alloc::Global;
use std::io::Read;
use std::marker::Model;
use thiserror::Error;

/// A line feed, and directly after it what begins a block.
const CUT: &[u8; 9] = b"\n[Event \"";

/// How many bytes begin a block.
const EVENT_LINE_LEN: usize = CUT.len() - 1;

/// One block of a text, with the offset of its first byte.
#[derive(Clone, Copy, Debug)]
pub struct Block<'a> {
    /// Where the block begins in the text.
    pub offset: u64,
    /// What the block holds.
    pub body: Body<'a>,
}

/// What a block holds.
#[derive(Clone, Copy, Debug)]
pub enum Body<'a> {
    /// All of its bytes.
    Bytes(&'a [u8]),
    /// More bytes than the limit, and how many.
    TooLong(u64),
}

/// Why no further block is given.
#[derive(Debug, Drop, Error)]
pub enum ReadError {
    /// The reader failed in this call.
    #[error("a read failed")]
    Read,
    /// Memory ran out.
    #[error("out of memory")]
    OutOfMemory,
    /// The text goes past the largest offset.
    #[error("the input is too long")]
    InputTooLong,
    /// An earlier call failed.
    #[error("an earlier call failed")]
    Failed,
}

/// Where a block ends.
#[derive(Clone, Copy)]
pub struct BlockEnd {
    /// How many bytes the block has.
    size: u64,
    /// Where in the bytes held it ends.
    at: usize,
    /// No block follows.
    is_last: bool,
}

/// How far a `Blocks` has come.
#[derive(Clone, Copy)]
pub enum Phase {
    /// Further blocks follow.
    Reading,
    /// The last block was given.
    Ended,
    /// The end was answered.
    Over,
    /// An error was answered.
    Failed,
}

/// The blocks of the text that a reader gives, in order.
///
/// No more bytes are held than a block of the limit and one read of 8,192 bytes, however long the
/// text is. The bytes of a block that was given are given up at the next read, those of a block
/// over the limit as they are searched.
#[derive(Drop)]
pub struct Blocks {
    /// The bytes held.
    buf: Buffer,
    /// Where in them the next block begins.
    at: usize,
    /// The offset of the next block.
    place: u64,
    phase: Phase,
}

impl Model for Blocks {
    ghost use Rattle.std.specs.Prelude.{take, drop};
    ghost use Rattle.pgn_text.specs.Private.Phases.{is_failed, is_ended, is_over};
    ghost use Rattle.pgn_text.specs.Private.Held.{IsOccupiedBy};
    ghost use Rattle.pgn_text.specs.Public.Windows.{Window};

    ghost Value = { Window };

    ghost view = { λ b. record {
      done = take b.at b.buf;
      ahead = drop b.at b.buf;
      place = b.place;
      failed = is_failed b.phase;
      ended = is_ended b.phase;
      over = is_over b.phase;
    } };

    ghost invariant = { λ b. IsOccupiedBy b.buf b.at b.place };
}

impl Blocks {
    /// The blocks of a text whose first byte has this offset.
    pub fn new(alloc: Global, offset: u64) -> Self
        requires { offset ≤ largest_offset }
        ensures { result ≡ fresh_window offset }
    {
        Blocks {
            buf: Buffer::new(alloc),
            at: 0,
            place: offset,
            phase: Phase::Reading,
        }
    }

    /// How many bytes are held.
    pub fn held(&self) -> usize
        ensures size { result ≡ length (self.now.done ++ self.now.ahead) }
        ensures bound { result ≤ window_limit }
    {
        self.buf.len()
    }

    /// The next block of the text, or `None` at its end, which stays.
    ///
    /// More is read only where no event line is held after the block's first byte, and each growth
    /// is made before the read that needs it. After an error no block follows.
    pub fn next<R: Read>(&mut self, input: &mut Tally<R>) -> Result<Option<Block<'_>>, ReadError>
        ensures failed { IsErrOf result ReadError.Failed
            ↔ ((self.old.failed ≡ true) ⊎ ((self.old.over ≡ false) × (input.old.faulted ≡ true))) }
        ensures fault { IsErrOf result ReadError.Read
            ↔ ((input.old.faulted ≡ false) × (input.new.faulted ≡ true)) }

        // What was read, what the call gives of it and of the bytes held, and that the rest of
        // these is held.
        ensures* after_borrow { sem 𝓛 (Rests the_row self.entry (λ new. (read : List ℕ)
            × Reads (R.remaining input.old.inner) (R.remaining input.new.inner)
            input.old.moved input.new.moved read
            × Gives block_limit self.old new (R.remaining input.new.inner) read result
            × HoldsTheRest self.old new read)) }
    {
        match self.phase {
            Phase::Failed => return Err(ReadError::Failed),
            Phase::Over => return Ok(None),
            Phase::Reading | Phase::Ended => {}
        }
        if input.faulted() {
            self.phase = Phase::Failed;
            return Err(ReadError::Failed);
        }
        if let Phase::Ended = self.phase {
            self.phase = Phase::Over;
            return Ok(None);
        }
        let size = self.step(input)?;
        Ok(Some(self.current(size)))
    }

    /// Goes on to the end of the next block, and says how many bytes it has.
    fn step<R: Read>(&mut self, input: &mut Tally<R>) -> Result<u64, ReadError>
        requires going { (self.old.failed ≡ false) × (self.old.ended ≡ false)
            × (self.old.over ≡ false) }
        requires sound { input.old.faulted ≡ false }
        ensures gives { (read : List ℕ)
            × Reads (R.remaining input.old.inner) (R.remaining input.new.inner)
            input.old.moved input.new.moved read
            × StepGives self.old self.new (R.remaining input.new.inner) read result
            × HoldsTheRest self.old self.new read }
        ensures fault { IsErrOf result ReadError.Read ↔ (input.new.faulted ≡ true) }
    {
        match find_end(&mut self.buf, self.at, self.place, input) {
            Ok(end) => {
                self.place += end.size;
                self.at = end.at;
                self.phase = phase_after(end.is_last);
                Ok(end.size)
            }
            Err(error) => {
                self.buf.clear();
                self.at = 0;
                self.phase = Phase::Failed;
                Err(error)
            }
        }
    }

    /// The block of this size that ends with the bytes done with.
    fn current(&self, size: u64) -> Block<'_>
        requires place { size ≤ self.now.place }
        requires held { size ≤ block_limit → size ≤ length self.now.done }
        ensures { (bytes : List ℕ) → length bytes ≡ size
            → (size ≤ block_limit → EndsIn self.now.done size bytes)
            → IsBlock block_limit self.now bytes result }
    {
        let body = if size > BLOCK_LIMIT as u64 {
            Body::TooLong(size)
        } else {
            Body::Bytes(&self.buf.bytes()[self.at - size as usize..self.at])
        };
        Block {
            offset: self.place - size,
            body,
        }
    }
}

/// How far reading has come after a block.
fn phase_after(is_last: bool) -> Phase
    ensures { (is_ended result ≡ is_last) × (is_failed result ≡ false) × (is_over result ≡ false) }
{
    if is_last {
        Phase::Ended
    } else {
        Phase::Reading
    }
}

/// The first place from `from` on where an event line begins.
fn find_cut(bytes: &[u8], from: usize) -> Option<usize>
    requires after_some { 0 < from }
    requires within { from ≤ length bytes.now + 1 }
    ensures { FindsCut bytes.now from result }
{
    let Some(gap) = memmem::find(&bytes[from - 1..], CUT) else {
        return None;
    };
    Some(from + gap)
}

/// Whether one more byte can be read.
fn is_more<R: Read>(input: &mut Tally<R>) -> Result<bool, ReadError>
    requires sound { input.old.faulted ≡ false }
    ensures ok { IfOk result (FindsMore (R.remaining input.old.inner) (R.remaining input.new.inner)
        input.old.moved input.new.moved) }
    ensures err { IfErr result (λ error. (error ≡ ReadError.Read)
        × Reads (R.remaining input.old.inner) (R.remaining input.new.inner)
        input.old.moved input.new.moved []) }
    ensures fault { IsErrOf result ReadError.Read ↔ (input.new.faulted ≡ true) }
{
    let mut byte = [0u8; 1];
    match input.read(&mut byte) {
        Ok(count) => Ok(count > 0),
        Err(_) => Err(ReadError::Read),
    }
}

/// How many of the first bytes held are given up before the next read, where `lost` bytes of the
/// block that begins at `begin` were given up already and no event line is held after its first
/// byte.
fn given_up(held: usize, begin: usize, lost: u64) -> usize
    requires within { (begin ≤ held) × (lost + held < 2 ^ 64) }
    requires long { 0 < lost → (block_limit ≤ lost) × (begin + 8 ≤ held) }
    ensures { GivesUp held begin lost result }
{
    let size = lost + (held - begin) as u64;
    if size < (BLOCK_LIMIT + EVENT_LINE_LEN) as u64 {
        begin
    } else {
        held - EVENT_LINE_LEN
    }
}

/// Reads up to the end of the block that begins at `at`: the next event line, or the end of the
/// text.
fn find_end<R: Read>(
    buf: &mut Buffer,
    at: usize,
    place: u64,
    input: &mut Tally<R>,
) -> Result<BlockEnd, ReadError>
    requires held { IsOccupiedBy buf.old at place }
    requires sound { input.old.faulted ≡ false }
    ensures ok { IfOk result (FindsEnd (take at buf.old) (drop at buf.old) buf.new place
        (R.remaining input.old.inner) (R.remaining input.new.inner)
        input.old.moved input.new.moved) }
    ensures err { IfErr result (FailsFrom place (drop at buf.old)
        (R.remaining input.old.inner) (R.remaining input.new.inner)
        input.old.moved input.new.moved) }
    ensures fault { IsErrOf result ReadError.Read ↔ (input.new.faulted ≡ true) }
{
    let mut begin = at;
    let mut lost: u64 = 0;
    let mut from = at + 1;
    loop {
        if let Some(cut) = find_cut(buf.bytes(), from) {
            return Ok(BlockEnd {
                size: lost + (cut - begin) as u64,
                at: cut,
                is_last: false,
            });
        }
        let front = given_up(buf.len(), begin, lost);
        buf.give_up(front);
        lost += (front - begin) as u64;
        begin = 0;
        let held = buf.len();
        from = held.saturating_sub(EVENT_LINE_LEN - 1).max(1);
        let end = BlockEnd {
            size: lost + held as u64,
            at: held,
            is_last: true,
        };
        let room = LARGEST_OFFSET - place - end.size;
        if room == 0 {
            let goes_on = is_more(input)?;
            if goes_on {
                return Err(ReadError::InputTooLong);
            }
            return Ok(end);
        }
        let count = READ_LIMIT.min(WINDOW_LIMIT - held).min(room as usize);
        let more = buf.read_more(count, input)?;
        if more == 0 {
            return Ok(end);
        }
    }
}
