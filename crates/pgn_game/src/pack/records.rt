//! The records of a pack, one after another, as a reader gives them.
ghost use Rattle.std.specs.Prelude.{◌≡◌, ◌≢◌, ◌↔◌, ◌⊎◌, ℕ, ◌+◌, ◌^◌, ◌<◌, ◌≤◌, true, false, List};
ghost use Rattle.std.specs.Prelude.{[], ◌++◌, length, take, drop, IfOk, IfErr, IsErrOf};
ghost use Rattle.std.specs.Prelude.{MatchOption, MatchResult};
ghost use Rattle.std.specs.Io.KnownBytes.{Consumes};
ghost use Rattle.pgn_text.specs.Public.Limits.{largest_offset};
ghost use Rattle.pgn_text.specs.Public.Tallies.{AppendsRead};
ghost use Rattle.pgn_game.specs.Public.PackedGames.{PackedGame, FitsRecord, record_bytes};
ghost use Rattle.pgn_game.specs.Public.PackReading.{raw_of};
ghost use Rattle.pgn_game.specs.Public.PackStreams.{IsRecord, StepGives, fresh_window, HasNoRecord};
ghost use Rattle.pgn_game.specs.Private.PackSteps.{HoldsWhole, IsWhole, IsPart, HasBody};

use crate::pack::fields::u32_at;
use crate::pack::reading::{LARGEST_BODY, RawRecord, read, read_again};
use pgn_text::{Buffer, LARGEST_OFFSET, ReadError, Tally};
use std::alloc::Global;
use std::io::Read;
use std::marker::Model;
use thiserror::Error;

/// The least number of bytes that one read asks for.
const READ_SIZE: usize = 65_536;

/// Why no further record is held.
#[derive(Clone, Copy, Debug, PartialEq, Eq, Error)]
pub enum RecordsError {
    /// The reader failed.
    #[error("a read failed")]
    Read,
    /// Memory ran out.
    #[error("out of memory")]
    OutOfMemory,
    /// What is left is no record, nor does it begin with one.
    #[error("no record of a pack")]
    BadPack,
    /// The pack goes past the largest offset.
    #[error("the pack is too long")]
    InputTooLong,
}

/// The bytes of a pack that are read and not yet passed.
#[derive(Drop)]
struct Ahead {
    buf: Buffer,
    /// How many of the bytes are passed.
    at: usize,
}

impl Model for Ahead {
    ghost use Rattle.std.specs.Prelude.{◌≤◌, ℕ, List, length, drop};

    ghost Value = { List ℕ };

    ghost view = { λ a. drop a.at a.buf };

    ghost invariant = { λ a. a.at ≤ length a.buf };
}

impl Ahead {
    /// No bytes.
    fn new(alloc: Global) -> Self
        ensures { result ≡ [] }
    {
        Ahead {
            buf: Buffer::new(alloc),
            at: 0,
        }
    }

    /// The bytes.
    fn bytes(&self) -> &[u8]
        ensures { result.now ≡ self.now }
    {
        &self.buf.bytes()[self.at..]
    }

    /// Passes so many bytes.
    fn pass(&mut self, count: usize)
        requires { count ≤ length self.old }
        ensures { self.new ≡ drop count self.old }
    {
        prove!(count <= self.buf.len() - self.at);
        self.at += count;
    }

    /// Reads bytes after those that there are, as many as there are or more, and says how many
    /// came.
    fn read_more<R: Read>(&mut self, input: &mut Tally<R>) -> Result<usize, RecordsError>
        requires few { length self.old < 2 ^ 32 }
        requires sound { input.old.faulted ≡ false }
        ensures ok { IfOk result (λ count. (room : ℕ) × AppendsRead self.old self.new
            (R.remaining input.old.inner) (R.remaining input.new.inner)
            input.old.moved input.new.moved room count) }
        ensures err { IfErr result (λ error.
            ((error ≡ RecordsError.Read) ⊎ (error ≡ RecordsError.OutOfMemory))
            × Consumes (R.remaining input.old.inner) (R.remaining input.new.inner) []) }
        ensures fault { IsErrOf result RecordsError.Read ↔ (input.new.faulted ≡ true) }
    {
        self.buf.give_up(self.at);
        self.at = 0;
        let count = self.buf.len().max(READ_SIZE);
        match self.buf.read_more(count, input) {
            Ok(more) => Ok(more),
            Err(ReadError::Read | ReadError::Failed) => Err(RecordsError::Read),
            Err(ReadError::OutOfMemory | ReadError::InputTooLong) => Err(RecordsError::OutOfMemory),
        }
    }
}

/// Whether the bytes show if a record stands in front of them, whatever comes after them.
fn is_whole(bytes: &[u8]) -> bool
    ensures whole { result ≡ true → IsWhole bytes.now }
    ensures part { result ≡ false → IsPart bytes.now }
{
    match u32_at(bytes) {
        Ok((size, rest)) => size as usize > LARGEST_BODY || rest.len() >= size as usize,
        Err(_) => false,
    }
}

/// Reads on until the bytes show if a record stands in front of them. Answers whether there are
/// bytes.
fn hold_whole<R: Read>(ahead: &mut Ahead, input: &mut Tally<R>) -> Result<bool, RecordsError>
    requires sound { input.old.faulted ≡ false }
    ensures gives { HoldsWhole ahead.old ahead.new (R.remaining input.old.inner)
        (R.remaining input.new.inner)
        result }
    ensures fault { IsErrOf result RecordsError.Read ↔ (input.new.faulted ≡ true) }
{
    while !is_whole(ahead.bytes()) {
        let count = ahead.read_more(input)?;
        if count == 0 {
            return at_end(ahead.bytes());
        }
    }
    Ok(true)
}

/// Whether there are bytes, which are no record, as none come after them.
fn at_end(bytes: &[u8]) -> Result<bool, RecordsError>
    ensures { MatchResult result (λ some. (some ≡ false)
        × (bytes.now ≡ [])) (λ error. (error ≡ RecordsError.BadPack) × (bytes.now ≢ [])) }
{
    if bytes.is_empty() {
        Ok(false)
    } else {
        Err(RecordsError::BadPack)
    }
}

/// How many bytes the record in front has, and how many of these its plies, or `None` where none
/// stands there.
fn sizes_of_record(bytes: &[u8]) -> Option<(usize, usize)>
    requires { IsWhole bytes.now }
    ensures { MatchOption result ((more : List ℕ) → HasNoRecord (bytes.now ++ more))
        (λ sizes. (sizes.0 ≤ length bytes.now) × IsRecord (take sizes.0 bytes.now)
        × HasBody (drop 4 (take sizes.0 bytes.now)) sizes.1) }
{
    match read(bytes) {
        Ok((record, rest)) => Some((bytes.len() - rest.len(), record.plies().len())),
        Err(_) => None,
    }
}

/// The records of the pack that a reader gives, in order. One is held at a time.
///
/// Memory grows by doubling, as the bytes of a record come: four bytes that speak of a large one
/// take none.
#[derive(Drop)]
pub struct Records {
    /// The record that is held, and the bytes after it.
    ahead: Ahead,
    /// How many bytes the record has.
    size: usize,
    /// How many of these are the bytes of its plies.
    plies: usize,
    /// How many bytes stand before it.
    place: u64,
}

impl Model for Records {
    ghost use Rattle.std.specs.Prelude.{take, drop};
    ghost use Rattle.pgn_game.specs.Private.PackSteps.{LiesWithin};
    ghost use Rattle.pgn_game.specs.Public.PackStreams.{Window};

    ghost Value = { Window };

    ghost view = { λ r. record {
      current = take r.size r.ahead;
      ahead = drop r.size r.ahead;
      place =
          r.place;
    } };

    ghost invariant = { λ r. LiesWithin r.ahead r.size r.plies r.place };
}

impl Records {
    /// The records of a pack of which nothing is read.
    pub fn new(alloc: Global) -> Self
        ensures { result ≡ fresh_window }
    {
        Records {
            ahead: Ahead::new(alloc),
            size: 0,
            plies: 0,
            place: 0,
        }
    }

    /// How many bytes of the pack stand before the record that is held, or before what is no
    /// record.
    pub fn place(&self) -> u64
        ensures { result ≡ self.now.place }
    {
        self.place
    }

    /// Steps to the next record, and says whether there is one: none is left at the end of the
    /// pack.
    pub fn step<R: Read>(&mut self, input: &mut Tally<R>) -> Result<bool, RecordsError>
        requires sound { input.old.faulted ≡ false }
        ensures gives { StepGives self.old self.new (R.remaining input.old.inner)
            (R.remaining input.new.inner) result }
        ensures place { self.new.place ≡ self.old.place + length self.old.current }
        ensures within { self.new.place + length self.new.current ≤ largest_offset }
        ensures fault { IsErrOf result RecordsError.Read ↔ (input.new.faulted ≡ true) }
    {
        self.ahead.pass(self.size);
        self.place += self.size as u64;
        self.size = 0;
        if !hold_whole(&mut self.ahead, input)? {
            return Ok(false);
        }
        let Some((size, plies)) = sizes_of_record(self.ahead.bytes()) else {
            return Err(RecordsError::BadPack);
        };
        if size as u64 > LARGEST_OFFSET - self.place {
            return Err(RecordsError::InputTooLong);
        }
        self.size = size;
        self.plies = plies;
        Ok(true)
    }

    /// The record that is held.
    pub fn record(&self) -> RawRecord<'_>
        requires { IsRecord self.now.current }
        ensures { (game : PackedGame) × FitsRecord game × (self.now.current ≡ record_bytes game)
            × (result ≡ raw_of game) }
    {
        let record = &self.ahead.bytes()[..self.size];
        read_again(&record[4..], self.plies).unwrap()
    }
}
