//! A record read from the front of bytes.
ghost use Rattle.std.specs.Prelude.{◌≡◌, ◌++◌, ◌/◌, ◌%◌, ◌==◌, List, ℕ, IfOk, Ok, option_map};
ghost use Rattle.pgn_text.specs.Public.GameTexts.{tag_in};
ghost use Rattle.pgn_game.specs.Public.PackedGames.{PackedGame, FitsRecord, numbered_result};
ghost use Rattle.pgn_game.specs.Public.PackedGames.{record_bytes};
ghost use Rattle.pgn_game.specs.Public.PackReading.{Gives, raw_of, body_at, size_at, record_at};
ghost use Rattle.pgn_game.specs.Private.PackSteps.{HasBody};

use crate::pack::error::RecordError;
use crate::pack::fields::{after_tags, name_at, tag_at, u32_at, u64_at};
use crate::pack::origin::is_origin;
use pgn_text::BLOCK_LIMIT;
use std::marker::Model;

/// The most bytes that stand after the size of a record.
pub(crate) const LARGEST_BODY: usize = 24 + 4096 + 2 * BLOCK_LIMIT;

/// A record as it lies in its bytes.
#[derive(Drop)]
pub struct RawRecord<'a> {
    number: u64,
    offset: u64,
    head: u32,
    name: Option<&'a [u8]>,
    tail: &'a [u8],
    plies: &'a [u8],
}

impl<'a> Model for RawRecord<'a> {
    ghost use Rattle.std.specs.Prelude.{option_map};
    ghost use Rattle.pgn_game.specs.Public.PackReading.{RawRecord};

    ghost Value = { RawRecord };

    ghost view = { λ raw. record {
      number = raw.number;
      offset = raw.offset;
      head = raw.head;
      name =
          option_map (λ name. name.now) raw.name;
      tail = raw.tail.now;
      plies = raw.plies.now;
    } };
}

impl<'a> RawRecord<'a> {
    /// The number of the game.
    pub fn number(&self) -> u64
        ensures { result ≡ self.now.number }
    {
        self.number
    }

    /// The offset of the game's first byte in the text that it comes from.
    pub fn offset(&self) -> u64
        ensures { result ≡ self.now.offset }
    {
        self.offset
    }

    /// The name of the game's file, where lines have one.
    pub fn name(&self) -> Option<&'a [u8]>
        ensures { option_map (λ name. name.now) result ≡ self.now.name }
    {
        self.name
    }

    /// How many tags the game has.
    pub fn tag_count(&self) -> u32
        ensures { result ≡ self.now.head / 32 }
    {
        self.head / 32
    }

    /// The result token that ends the game.
    pub fn result(&self) -> &'static [u8]
        ensures { result.now ≡ numbered_result (self.now.head / 4 % 4) }
    {
        match self.head / 4 % 4 {
            1 => b"1-0",
            2 => b"0-1",
            3 => b"1/2-1/2",
            _ => b"*",
        }
    }

    /// The contents of the tag with the wanted name, as they stand, if the game has one. No memory
    /// is taken.
    pub fn tag(&self, wanted: &[u8]) -> Option<&'a [u8]>
        ensures { (game : PackedGame) → FitsRecord game → self.now ≡ raw_of game
            → option_map (λ contents. contents.now) result ≡ tag_in wanted.now game.tags }
    {
        let mut rest = self.tail;
        for _ in 0..self.tag_count() {
            let Ok(((name, contents), after)) = tag_at(rest) else {
                return None;
            };
            if wanted == name {
                return Some(contents);
            }
            rest = after;
        }
        None
    }

    /// Whether the side to move at the start of the game is in check.
    pub fn in_check(&self) -> bool
        ensures { result ≡ (self.now.head % 2 == 1) }
    {
        self.head % 2 == 1
    }

    /// Whether the side to move at the start of the game has no legal move.
    pub fn is_stuck(&self) -> bool
        ensures { result ≡ (self.now.head / 2 % 2 == 1) }
    {
        self.head / 2 % 2 == 1
    }

    /// What its head has beside the number of its tags: whether the game has a name, its result and
    /// the marks of its start.
    pub(crate) fn below_count(&self) -> u32
        ensures { result ≡ self.now.head % 32 }
    {
        self.head % 32
    }

    /// The bytes of its tags, and then of its plies.
    pub(crate) fn tail(&self) -> &'a [u8]
        ensures { result.now ≡ self.now.tail }
    {
        self.tail
    }

    /// The bytes of its plies, three a ply.
    pub fn plies(&self) -> &'a [u8]
        ensures { result.now ≡ self.now.plies }
    {
        self.plies
    }
}

/// The record whose bytes after its size are these.
#[tactic(auto, unfolding(crate::specs::Public::PackReading::body_at))]
fn read_body(bytes: &[u8]) -> Result<RawRecord<'_>, RecordError>
    ensures { Gives (λ x. x) result (body_at bytes.now) }
{
    let (number, rest) = u64_at(bytes)?;
    let (offset, rest) = u64_at(rest)?;
    let (head, rest) = u32_at(rest)?;
    let (name, tail) = name_at(head / 16 % 2 == 1, rest)?;
    let plies = after_tags(head / 32, tail)?;
    if plies.len() % 3 != 0 {
        return Err(RecordError::PartOfPly);
    }
    if !is_origin(number, offset, name) {
        return Err(RecordError::NoOrigin);
    }
    Ok(RawRecord {
        number,
        offset,
        head,
        name,
        tail,
        plies,
    })
}

/// The record that was read of the same bytes before, and whose plies take so many of them: its
/// tags are not read again.
#[tactic(auto, unfolding(crate::specs::Public::PackReading::body_at))]
pub(crate) fn read_again(bytes: &[u8], plies: usize) -> Result<RawRecord<'_>, RecordError>
    requires { HasBody bytes.now plies }
    ensures { Gives (λ x. x) result (body_at bytes.now) }
{
    let (number, rest) = u64_at(bytes)?;
    let (offset, rest) = u64_at(rest)?;
    let (head, rest) = u32_at(rest)?;
    let (name, tail) = name_at(head / 16 % 2 == 1, rest)?;
    let (_, plies) = tail.split_at(tail.len() - plies);
    Ok(RawRecord {
        number,
        offset,
        head,
        name,
        tail,
        plies,
    })
}

/// The size of the record in front, and what stands after the size.
fn read_size(bytes: &[u8]) -> Result<(u32, &[u8]), RecordError>
    ensures { Gives (λ x. (x.0, x.1.now)) result (size_at bytes.now) }
{
    let (size, rest) = u32_at(bytes)?;
    if size as usize > LARGEST_BODY {
        return Err(RecordError::TooLarge);
    }
    Ok((size, rest))
}

/// The record in front, and what stands after it.
#[tactic(auto, unfolding(crate::specs::Public::PackReading::record_at))]
fn read_record(bytes: &[u8]) -> Result<(RawRecord<'_>, &[u8]), RecordError>
    ensures { Gives (λ x. (x.0, x.1.now)) result (record_at bytes.now) }
{
    let (size, rest) = read_size(bytes)?;
    let size = size as usize;
    if rest.len() < size {
        return Err(RecordError::CutShort);
    }
    let (body, rest) = rest.split_at(size);
    let raw = read_body(body)?;
    Ok((raw, rest))
}

/// The record that stands in front of the bytes, and what stands after it; no memory is taken.
/// Fails where no record stands in front, and says which fault is the first from left to right.
pub fn read(bytes: &[u8]) -> Result<(RawRecord<'_>, &[u8]), RecordError>
    // What is read is the spelling of a packed game.
    ensures found { IfOk result (λ x. (game : PackedGame) × FitsRecord game × (x.0 ≡ raw_of game)
        × (bytes.now ≡ record_bytes game ++ x.1.now)) }
    // The spelling of each packed game is read.
    ensures only { (game : PackedGame) (rest : List ℕ) → FitsRecord game
        → bytes.now ≡ record_bytes game ++ rest → record_at bytes.now ≡ Ok (raw_of game, rest) }
    // Which fault it is.
    ensures exact { Gives (λ x. (x.0, x.1.now)) result (record_at bytes.now) }
{
    read_record(bytes)
}
