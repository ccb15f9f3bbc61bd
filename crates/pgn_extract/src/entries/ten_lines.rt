//! The lines of plies in a row: those of ten that have all digits but the last in common are
//! written at once.
ghost use Rattle.std.specs.Prelude.{◌≡◌, ◌+◌, ◌-◌, ◌*◌, ◌^◌, ◌<◌, ◌≤◌, ◌++◌, OnOk};
ghost use Rattle.pgn_extract.specs.Private.Blockwise.{lines_from};

use crate::output::texts::{MARK_ROOM, count_up, push_entry};
use std::alloc::{AllocError, Global};

/// The most bytes that the line of an entry without a name has: a mark, a space, 20 digits and the
/// end of the line.
const LINE_ROOM: usize = MARK_ROOM + 22;

/// The buffers in which lines are made: one line, and those of ten plies.
#[derive(Drop)]
struct LineBuffers {
    line: Vec<u8>,
    ten: Vec<u8>,
}

/// Appends the lines of the plies from one up to another, each made in the buffer from the one
/// before it.
fn push_each(
    text: &mut Vec<u8>,
    line: &mut Vec<u8>,
    mark: &[u8],
    from: usize,
    end: usize,
) -> Result<(), AllocError>
    ensures { OnOk result (text.new.items ≡ text.old.items
        ++ lines_from mark.now from (end - from)) }
{
    line.clear();
    push_entry(line, mark, from)?;
    for ply in from..end {
        text.extend_from_slice(line)?;
        count_up(line, mark, ply)?;
    }
    Ok(())
}

impl LineBuffers {
    /// Makes of the lines of ten plies, the first of which is so many tens, those of the next ten.
    fn next_ten(&mut self, mark: &[u8], tens: usize) -> Result<(), AllocError>
        requires tens { 1 ≤ tens }
        requires room { tens < 2 ^ 60 }
        requires lines { self.old.ten.items ≡ lines_from mark.now (10 * tens) 10 }
        ensures { OnOk result (self.new.ten.items ≡ lines_from mark.now (10 * tens + 10) 10) }
    {
        if tens % 10 == 9 {
            self.ten.clear();
            let next = 10 * tens + 10;
            return push_each(&mut self.ten, &mut self.line, mark, next, next + 10);
        }
        let width = self.ten.len() / 10;
        let mut tens_digit = width - 3;
        for count in 0u8..10 {
            self.ten[tens_digit] += 1;
            tens_digit += width;
        }
        Ok(())
    }

    /// Appends the lines of the plies from one up to another, of which the first is so many tens.
    fn push_tens(
        &mut self,
        text: &mut Vec<u8>,
        mark: &[u8],
        first: usize,
        end: usize,
    ) -> Result<(), AllocError>
        requires tens { 1 ≤ first }
        requires some { 10 * first < end }
        requires room { end < 2 ^ 60 }
        ensures { OnOk result (text.new.items ≡ text.old.items
            ++ lines_from mark.now (10 * first) (end - 10 * first)) }
    {
        self.ten.clear();
        self.ten.reserve(10 * LINE_ROOM)?;
        push_each(
            &mut self.ten,
            &mut self.line,
            mark,
            10 * first,
            10 * first + 10,
        )?;
        let last = (end - 1) / 10;
        for tens in first..last {
            text.extend_from_slice(&self.ten)?;
            self.next_ten(mark, tens)?;
        }
        let width = self.ten.len() / 10;
        text.extend_from_slice(&self.ten[..(end - 10 * last) * width])?;
        Ok(())
    }
}

/// Appends the lines of the plies of a game with this mark from one up to another, which is left
/// out.
pub fn push_range(
    text: &mut Vec<u8>,
    alloc: Global,
    mark: &[u8],
    from: usize,
    end: usize,
) -> Result<(), AllocError>
    requires room { (from < 2 ^ 60) × (end < 2 ^ 60) }
    ensures { OnOk result (text.new.items ≡ text.old.items
        ++ lines_from mark.now from (end - from)) }
{
    let mut buffers = LineBuffers {
        line: Vec::with_capacity(alloc, LINE_ROOM)?,
        ten: Vec::new(alloc),
    };
    let first = from / 10 + 1;
    push_each(text, &mut buffers.line, mark, from, end.min(10 * first))?;
    if end <= 10 * first {
        return Ok(());
    }
    buffers.push_tens(text, mark, first, end)?;
    Ok(())
}
