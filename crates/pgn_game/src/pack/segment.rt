//! A segment, appended to bytes and read from the front of bytes.
ghost use Rattle.std.specs.Prelude.{◌≡◌, ◌≤◌, ◌<◌, ◌^◌, ◌++◌, OnOk, OnErr, IfOk, ℕ, List, length};
ghost use Rattle.std.specs.Prelude.{drop};
ghost use Rattle.pgn_game.specs.Private.SegmentSteps.{Gives};
ghost use Rattle.pgn_game.specs.Public.Segments.{HasNoSegment, FitsSegment, front_bytes};
ghost use Rattle.pgn_game.specs.Public.Segments.{largest_body, sealed, segment_text, records_in};
ghost use Rattle.pgn_game.specs.Public.Segments.{numbers_of, front_at, segment_at};

use crate::pack::error::SegmentError;
use crate::pack::seal::{push_sealed, unsealed_at};
use std::alloc::{AllocError, Global};
use std::marker::Model;

/// What each segment of this layout begins with.
const MAGIC: [u8; 8] = *b"PGNPACK2";

/// The most bytes of a body.
pub const LARGEST_BODY: usize = 35_651_584;

/// How many records a segment has, and their records and columns.
#[derive(Drop)]
pub struct Segment<'a> {
    records: u32,
    body: &'a [u8],
}

impl<'a> Model for Segment<'a> {
    ghost use Rattle.pgn_game.specs.Public.Segments.{Segment};

    ghost Value = { Segment };

    ghost view = { λ segment. record { records = segment.records; body = segment.body.now } };
}

impl<'a> Segment<'a> {
    /// Its records.
    pub fn records(&self) -> &'a [u8]
        ensures { result.now ≡ records_in self.now }
    {
        let count = self.body.len().min(self.records as usize);
        &self.body[..count]
    }
}

/// The front of a segment of so many records, whose body has so many bytes.
#[tactic(auto, unfolding(crate::specs::Public::Segments::front_bytes))]
fn front_of(alloc: Global, records: u32, size: u32) -> Result<Vec<u8>, AllocError>
    ensures { IfOk result (λ front. front.items ≡ front_bytes records size) }
{
    let mut front = Vec::with_capacity(alloc, 16)?;
    front.extend_from_slice(&MAGIC)?;
    front.extend_from_slice(&records.to_be_bytes())?;
    front.extend_from_slice(&size.to_be_bytes())?;
    Ok(front)
}

/// Appends the segment of so many records with this body.
pub fn push_segment(
    alloc: Global,
    records: u32,
    body: &[u8],
    out: &mut Vec<u8>,
) -> Result<(), AllocError>
    requires { length body.now ≤ largest_body }
    ensures { OnOk result (out.new.items ≡ out.old.items ++ segment_text
        (record { records = records; body = body.now })) }
{
    let front = front_of(alloc, records, body.len() as u32)?;
    push_sealed(front.as_slice(), out)?;
    push_sealed(body, out)?;
    Ok(())
}

/// How many records and how many bytes of their body a front of this layout names.
fn numbers_of(front: &[u8]) -> Result<(u32, u32), SegmentError>
    requires { length front.now ≡ 16 }
    ensures exact { Gives (λ x. x) result (numbers_of front.now) }
    ensures small { IfOk result (λ x. x.1 ≤ largest_body) }
{
    let (magic, numbers) = front.split_at(8);
    if magic != MAGIC.as_slice() {
        return Err(SegmentError::OtherLayout);
    }
    let records = u32::from_be_bytes([numbers[0], numbers[1], numbers[2], numbers[3]]);
    let size = u32::from_be_bytes([numbers[4], numbers[5], numbers[6], numbers[7]]);
    if size as usize > LARGEST_BODY {
        return Err(SegmentError::TooLarge);
    }
    Ok((records, size))
}

/// The front that the bytes begin with, as how many records and how many bytes of their body it
/// names, and what stands after it. Where the body is
/// damaged, the next segment begins so many bytes and eight after it.
#[tactic(auto, unfolding(crate::specs::Public::Segments::front_at))]
pub fn read_front(bytes: &[u8]) -> Result<((u32, u32), &[u8]), SegmentError>
    ensures exact { Gives (λ x. (x.0, x.1.now)) result (front_at bytes.now) }
    ensures small { IfOk result (λ x. x.0.1 ≤ largest_body) }
    ensures rest { IfOk result (λ x. x.1.now ≡ drop 24 bytes.now) }
{
    let (front, rest) = unsealed_at(SegmentError::DamagedFront, 16, bytes)?;
    let numbers = numbers_of(front)?;
    Ok((numbers, rest))
}

/// The segment that the bytes begin with, and what stands after it. No memory is taken.
#[tactic(auto, unfolding(crate::specs::Public::Segments::segment_at))]
fn read_segment(bytes: &[u8]) -> Result<(Segment<'_>, &[u8]), SegmentError>
    ensures { Gives (λ x. (x.0, x.1.now)) result (segment_at bytes.now) }
{
    let ((records, size), rest) = read_front(bytes)?;
    let (body, rest) = unsealed_at(SegmentError::DamagedBody, size as usize, rest)?;
    Ok((Segment { records, body }, rest))
}

/// The segment that the bytes begin with, and what stands after it. No memory is taken. Fails where
/// they begin with none, and says why.
pub fn read(bytes: &[u8]) -> Result<(Segment<'_>, &[u8]), SegmentError>
    // What is read is the text of a segment.
    ensures found { IfOk result (λ x. FitsSegment x.0 × (bytes.now ≡ segment_text x.0 ++ x.1.now)) }
    // Where nothing is read, no segment stands in front.
    ensures none { OnErr result (HasNoSegment bytes.now) }
    // Which fault it is.
    ensures exact { Gives (λ x. (x.0, x.1.now)) result (segment_at bytes.now) }
{
    read_segment(bytes)
}
