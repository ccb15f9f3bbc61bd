//! Bytes that are held, with room after them for those that a read gives.
ghost use Rattle.std.specs.Prelude.{◌≡◌, ◌≢◌, ◌↔◌, ℕ, ◌+◌, ◌^◌, ◌<◌, ◌≤◌, true, false, List, []};
ghost use Rattle.std.specs.Prelude.{◌++◌, length, take, drop, vec_len, IfOk, IfErr, IsErrOf, OnOk};
ghost use Rattle.pgn_text.specs.Public.Tallies.{AppendsRead, Reads};

use crate::io::blocks::ReadError;
use crate::io::limits::WINDOW_LIMIT;
use crate::io::tally::Tally;
use std::alloc::{AllocError, Global};
use std::io::Read;
use std::marker::Model;

/// Bytes in a row. The room after them is kept when bytes are given up, so that each of its places
/// is filled with zeros once.
#[derive(Drop)]
pub struct Buffer {
    /// The bytes, and room for more.
    room: Vec<u8>,
    /// How many bytes there are.
    len: usize,
}

impl Model for Buffer {
    ghost use Rattle.std.specs.Prelude.{ℕ, ◌≤◌, List, length, take};

    ghost Value = { List ℕ };

    ghost view = { λ b. take b.len b.room.items };

    ghost invariant = { λ b. b.len ≤ length b.room.items };
}

impl Buffer {
    /// No bytes.
    pub fn new(alloc: Global) -> Self
        ensures { result ≡ [] }
    {
        Buffer {
            room: Vec::new(alloc),
            len: 0,
        }
    }

    /// How many bytes there are.
    pub fn len(&self) -> usize
        ensures { result ≡ length self.now }
    {
        self.len
    }

    /// The bytes.
    pub fn bytes(&self) -> &[u8]
        ensures { result.now ≡ self.now }
    {
        &self.room[..self.len]
    }

    /// Gives up all bytes.
    pub fn clear(&mut self)
        ensures { self.new ≡ [] }
    {
        self.len = 0;
    }

    /// Gives up so many bytes at the front.
    pub fn give_up(&mut self, count: usize)
        requires { count ≤ length self.old }
        ensures { self.new ≡ drop count self.old }
    {
        if count > 0 {
            self.room.copy_within(count..self.len, 0);
            self.len -= count;
        }
    }

    /// Reads at most `count` bytes after those that there are, and says how many came.
    pub fn read_more<R: Read>(
        &mut self,
        count: usize,
        input: &mut Tally<R>,
    ) -> Result<usize, ReadError>
        requires some { (0 < count) × (length self.old + count < 2 ^ 64) }
        requires sound { input.old.faulted ≡ false }
        ensures ok { IfOk result (AppendsRead self.old self.new
            (R.remaining input.old.inner) (R.remaining input.new.inner)
            input.old.moved input.new.moved count) }
        ensures err { IfErr result (λ error. (error ≢ ReadError.Failed)
            × (error ≢ ReadError.InputTooLong)
            × Reads (R.remaining input.old.inner) (R.remaining input.new.inner)
            input.old.moved input.new.moved []) }
        ensures fault { IsErrOf result ReadError.Read ↔ (input.new.faulted ≡ true) }
    {
        let len = self.len;
        if grow(&mut self.room, len + count).is_err() {
            return Err(ReadError::OutOfMemory);
        }
        match fill(&mut self.room, len, count, input) {
            Ok(more) => {
                self.len = len + more;
                Ok(more)
            }
            Err(error) => Err(error),
        }
    }
}

/// Makes sure of memory for so many bytes in all: twice what there is, but past the window no more
/// than they need.
fn reserve(room: &mut Vec<u8>, size: usize) -> Result<(), AllocError>
    requires { vec_len room.old ≤ size }
    ensures { room.new.items ≡ room.old.items }
{
    let capacity = room.capacity();
    if size <= capacity {
        return Ok(());
    }
    let doubled = capacity.saturating_mul(2).min(WINDOW_LIMIT);
    room.reserve_exact(doubled.max(size) - room.len())
}

/// Makes room for so many bytes in all.
fn grow(room: &mut Vec<u8>, size: usize) -> Result<(), AllocError>
    ensures kept { (more : List ℕ) × (room.new.items ≡ room.old.items ++ more) }
    ensures ok { OnOk result (size ≤ vec_len room.new) }
{
    if size <= room.len() {
        return Ok(());
    }
    reserve(room, size)?;
    room.resize(size, 0)
}

/// Reads at most `count` bytes into the room from `len` on, and says how many came.
fn fill<R: Read>(
    room: &mut Vec<u8>,
    len: usize,
    count: usize,
    input: &mut Tally<R>,
) -> Result<usize, ReadError>
    requires some { 0 < count }
    requires within { len + count ≤ vec_len room.old }
    requires sound { input.old.faulted ≡ false }
    ensures size { length room.new.items ≡ length room.old.items }
    ensures ok { IfOk result (λ more.
        AppendsRead (take len room.old.items) (take (len + more) room.new.items)
        (R.remaining input.old.inner) (R.remaining input.new.inner)
        input.old.moved input.new.moved count more) }
    ensures err { IfErr result (λ error. (error ≡ ReadError.Read)
        × Reads (R.remaining input.old.inner) (R.remaining input.new.inner)
        input.old.moved input.new.moved []) }
    ensures fault { IsErrOf result ReadError.Read ↔ (input.new.faulted ≡ true) }
{
    match input.read(&mut room[len..len + count]) {
        Ok(more) => Ok(more),
        Err(_) => Err(ReadError::Read),
    }
}
