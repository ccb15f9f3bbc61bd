//! Texts in memory: what the calls of this crate say where all bytes are known. Each function is an
//! example of one call.

ghost use Rattle.std.specs.Prelude.{◌≡◌, ◌≤◌, ℕ, List, [], ◌∷◌, ◌++◌, length, take, map, IfOk};
ghost use Rattle.std.specs.Prelude.{MatchResult, MatchOption, true};
ghost use Rattle.pgn_text.specs.Public.Blocks.{AreBlocks};
ghost use Rattle.pgn_text.specs.Public.Left.{IsPiece};
ghost use Rattle.pgn_text.specs.Public.LeftMarks.{IsMark};
ghost use Rattle.pgn_text.specs.Public.Limits.{depth_limit};
ghost use Rattle.pgn_text.specs.Public.Pieces.{ArePieces};
ghost use Rattle.pgn_text.specs.Public.Pieces as spec;
ghost use Rattle.pgn_text.specs.Public.Stops.{IsErrorPosition};
ghost use Rattle.pgn_text.specs.Public.Windows.{Shows};

use crate::error::error_position::error_position_of;
use crate::game::pieces::start::{games, marks};
use crate::game::pieces::{Piece, PieceStart};
use crate::io::blocks::{Blocks, Body, ReadError};
use crate::io::tally::Tally;
use std::alloc::{AllocError, Global};
use std::io;

/// How many bytes the body of a block stands for.
fn size_of(body: Body<'_>) -> u64
    ensures { (limit : ℕ) (bytes : List ℕ) → Shows limit body.entry bytes → result ≡ length bytes }
{
    match body {
        Body::Bytes(bytes) => bytes.len() as u64,
        Body::TooLong(size) => size,
    }
}

/// How many bytes each block of the text has.
pub fn block_sizes(alloc: Global, text: &[u8]) -> Result<Vec<u64>, ReadError>
    ensures { IfOk result (λ sizes. (blocks : List (List ℕ)) × AreBlocks blocks text.now
        × (sizes.items ≡ map length blocks)) }
{
    let mut input = Tally::new(text);
    let mut blocks = Blocks::new(alloc, 0);
    let mut sizes = Vec::new(alloc);
    loop {
        match blocks.next(&mut input) {
            Ok(Some(block)) => {
                let size = size_of(block.body);
                match sizes.push(size) {
                    Ok(()) => {}
                    Err(_) => return Err(ReadError::OutOfMemory),
                }
            }
            Ok(None) => return Ok(sizes),
            Err(error) => return Err(error),
        }
    }
}

/// Reads bytes from the front of those that are left.
pub fn read_front(input: &mut Tally<&[u8]>, buf: &mut [u8]) -> io::Result<usize>
    ensures { MatchResult result
        (λ count. input.old.inner.now ≡ take count buf.new ++ input.new.inner.now)
        (λ error. input.new.inner.now ≡ input.old.inner.now) }
{
    input.read(buf)
}

/// Passes over bytes at the front of those that are left.
pub fn skip_front(input: &mut Tally<&[u8]>, most: u64) -> io::Result<u64>
    ensures passed { MatchResult result
        (λ count. (front : List ℕ) × (input.old.inner.now ≡ front ++ input.new.inner.now)
        × (length front ≡ count))
        (λ error. input.new.inner.now ≡ input.old.inner.now) }
    ensures bound { IfOk result (λ count. count ≤ most) }
{
    input.skip(most)
}

/// Writes bytes after those that were written.
pub fn write_after(out: &mut Tally<Vec<u8>>, text: &[u8]) -> io::Result<usize>
    ensures { MatchResult result
        (λ count. out.new.inner.items ≡ out.old.inner.items ++ take count text.now)
        (λ error. out.new.inner.items ≡ out.old.inner.items) }
{
    out.write(text)
}

/// Flushes what was written, which stays.
pub fn flush_written(out: &mut Tally<Vec<u8>>) -> io::Result<()>
    ensures { out.new.inner.items ≡ out.old.inner.items }
{
    out.flush()
}

/// The first piece of a block, if it has one.
pub fn first_piece<'a>(
    alloc: Global,
    block: &'a [u8],
    file_start: bool,
) -> Result<Option<Piece<'a>>, AllocError>
    ensures { IfOk result (λ first. (pieces : List spec.Piece)
        × ArePieces depth_limit file_start [] pieces block.now
        × MatchOption first (pieces ≡ []) (λ piece. (shown : spec.Piece) × (more : List spec.Piece)
        × (pieces ≡ shown ∷ more) × IsPiece piece shown)) }
{
    let mut pieces = games(alloc, block, file_start);
    match pieces.next() {
        None => Ok(None),
        Some(Ok(piece)) => Ok(Some(piece)),
        Some(Err(error)) => Err(error),
    }
}

/// Where the first piece of a block begins, and what it is, if it has one.
pub fn first_mark(block: &[u8], file_start: bool) -> Option<PieceStart>
    ensures { (pieces : List spec.Piece) × ArePieces depth_limit file_start [] pieces block.now
        × MatchOption result (pieces ≡ []) (λ mark. (shown : spec.Piece) × (more : List spec.Piece)
        × (pieces ≡ shown ∷ more) × IsMark mark shown) }
{
    marks(block, file_start).next()
}

/// Where the text of a file stops agreeing with games.
pub fn first_stop(text: &[u8]) -> usize
    ensures { IsErrorPosition depth_limit true text.now 0 result }
{
    error_position_of(text, 0, true)
}
