//! The notes after the lines of faulty games, which say where a game is faulty, and why.
ghost use Rattle.std.specs.Prelude.{◌≡◌, ℕ, List, ◌+◌, ◌^◌, ◌<◌, ◌≤◌, ◌==◌, [], ◌∷◌, ◌++◌, length};
ghost use Rattle.std.specs.Prelude.{take, drop, codes, decimal, OnOk};
ghost use Rattle.pgn_text.specs.Public.Limits.{block_limit};
ghost use Rattle.pgn_extract.specs.Private.MoveNotes.{KeepsLine};
ghost use Rattle.pgn_extract.specs.Public.Notes.{indented};
ghost use Rattle.pgn_extract.specs.Private.NoteTexts.{line_feeds as line_feeds_of, column_after};
ghost use Rattle.pgn_extract.specs.Private.NoteTexts.{position_text, place_text, begin_text};
ghost use Rattle.pgn_extract.specs.Private.NoteTexts.{hex_digit as hex_digit_of, byte_text};
ghost use Rattle.pgn_extract.specs.Private.NoteTexts.{stopper_text, context_text, too_long_text};
ghost use Rattle.pgn_extract.specs.Private.NoteTexts.{IsStopNote, IsWithinBlock};

use crate::settings::Settings;
use itoa::Buffer;
use pgn_text::{BLOCK_LIMIT, Block, Body, Stop, Within, locate_error, tag_name_at};
use std::alloc::AllocError;

/// Where a block begins in its file.
#[derive(Clone, Copy)]
pub struct Origin {
    /// The offset of its first byte.
    pub offset: u64,
    /// Its first line, counted from 1, where lines are known.
    pub line: Option<u32>,
}

/// The line on which a run begins, where notes are asked for: known is that of the file's first
/// byte.
pub fn first_line(settings: &Settings) -> Option<u32> {
    if settings.explain && settings.offset == 0 {
        Some(1)
    } else {
        None
    }
}

/// The line on which the next block begins, where this one begins on the line. After a block over
/// the limit, and past the largest number, lines are not known.
pub fn line_after(line: Option<u32>, block: Block<'_>) -> Option<u32> {
    let Some(first) = line else {
        return None;
    };
    let Body::Bytes(bytes) = block.body else {
        return None;
    };
    match u32::try_from(line_feeds(bytes)) {
        Ok(feeds) => first.checked_add(feeds),
        Err(_) => None,
    }
}

/// A place in a block: how many line feeds stand before it, and its column, counted from 1.
#[derive(Clone, Copy)]
pub struct Spot {
    at: usize,
    feeds: u64,
    column: usize,
}

impl Spot {
    /// The first byte of a block.
    pub fn first() -> Spot {
        Spot {
            at: 0,
            feeds: 0,
            column: 1,
        }
    }

    /// A place of the block, found by going on from this one, or anew where it stands before this
    /// one.
    pub fn go_on(self, block: &[u8], to: usize) -> Spot
        requires { to ≤ length block.now }
    {
        let mut spot = if self.at <= to { self } else { Spot::first() };
        for byte in &block[spot.at.min(to)..to] {
            if *byte == b'\n' {
                spot.feeds = spot.feeds.saturating_add(1);
                spot.column = 1;
            } else {
                spot.column = spot.column.saturating_add(1);
            }
        }
        spot.at = to;
        spot
    }
}

/// How many line feeds the bytes have.
fn line_feeds(bytes: &[u8]) -> usize
    ensures { result ≡ line_feeds_of bytes.now }
{
    let mut count = 0;
    for byte in bytes {
        if *byte == b'\n' {
            count += 1;
        }
    }
    count
}

/// The column of the byte after the front of a block.
fn column(front: &[u8]) -> usize
    ensures { result ≡ column_after front.now }
{
    let mut column = 1;
    for byte in front {
        column = if *byte == b'\n' { 1 } else { column + 1 };
    }
    column
}

/// Appends a number after a label.
fn push_number(text: &mut Vec<u8>, label: &[u8], number: u64) -> Result<(), AllocError>
    ensures { OnOk result (text.new.items ≡ text.old.items ++ (label.now ++ decimal number)) }
{
    let mut buffer = Buffer::new();
    text.extend_from_slice(label)?;
    text.extend_from_slice(buffer.format(number).as_bytes())?;
    Ok(())
}

/// Appends the line and the column of the byte after the front of a block that begins on the line.
fn push_position(text: &mut Vec<u8>, first: u32, front: &[u8]) -> Result<(), AllocError>
    ensures { OnOk result (text.new.items ≡ text.old.items ++ position_text first front.now) }
{
    let line = u64::from(first) + line_feeds(front) as u64;
    push_number(text, b"line ", line)?;
    push_number(text, b", column ", column(front) as u64)
}

/// Appends where the byte after the front of a block stands in the file.
fn push_place(text: &mut Vec<u8>, origin: Origin, front: &[u8]) -> Result<(), AllocError>
    requires { origin.offset + length front.now < 2 ^ 64 }
    ensures { OnOk result (text.new.items ≡ text.old.items ++ place_text origin front.now) }
{
    let byte = origin.offset + front.len() as u64;
    match origin.line {
        Some(first) => {
            push_position(text, first, front)?;
            push_number(text, b", byte ", byte)
        }
        None => push_number(text, b"byte ", byte),
    }
}

/// Appends where a place of a block stands in the file.
pub fn push_spot(text: &mut Vec<u8>, origin: Origin, spot: Spot) -> Result<(), AllocError>
    ensures { OnOk result (KeepsLine text.old.items text.new.items) }
{
    let byte = origin.offset.saturating_add(spot.at as u64);
    let Some(first) = origin.line else {
        return push_number(text, b"byte ", byte);
    };
    let line = u64::from(first).saturating_add(spot.feeds);
    push_number(text, b"line ", line)?;
    push_number(text, b", column ", spot.column as u64)?;
    push_number(text, b", byte ", byte)
}

/// Appends in what a place stands that begins after the front of a block.
fn push_begin(
    text: &mut Vec<u8>,
    label: &[u8],
    origin: Origin,
    front: &[u8],
) -> Result<(), AllocError>
    requires { origin.offset + length front.now < 2 ^ 64 }
    ensures { OnOk result (text.new.items ≡ text.old.items
        ++ (label.now ++ begin_text origin front.now ++ codes ")")) }
{
    text.extend_from_slice(label)?;
    match origin.line {
        Some(first) => push_position(text, first, front)?,
        None => push_number(text, b"byte ", origin.offset + front.len() as u64)?,
    }
    text.extend_from_slice(b")")
}

/// Appends a label, a name and a closing parenthesis.
fn push_named(text: &mut Vec<u8>, label: &[u8], name: &[u8]) -> Result<(), AllocError>
    ensures { OnOk result (text.new.items ≡ text.old.items
        ++ (label.now ++ name.now ++ codes ")")) }
{
    text.extend_from_slice(label)?;
    text.extend_from_slice(name)?;
    text.extend_from_slice(b")")
}

/// A hexadecimal digit.
fn hex_digit(number: u8) -> u8
    requires { number < 16 }
    ensures { result ≡ hex_digit_of number }
{
    if number < 10 {
        b'0' + number
    } else {
        b'A' + (number - 10)
    }
}

/// Appends a byte as a reader is shown it.
fn push_byte(text: &mut Vec<u8>, byte: u8) -> Result<(), AllocError>
    ensures { OnOk result (text.new.items ≡ text.old.items ++ byte_text byte) }
{
    if matches!(byte, b' '..=b'~') {
        return text.extend_from_slice(&[b'\'', byte, b'\'']);
    }
    let digits = [hex_digit(byte / 16), hex_digit(byte % 16)];
    text.extend_from_slice(b"0x")?;
    text.extend_from_slice(&digits)
}

/// Appends with what byte no game goes on, or that none follows.
fn push_stopper(text: &mut Vec<u8>, block: &[u8], place: usize) -> Result<(), AllocError>
    requires { place ≤ length block.now }
    ensures { OnOk result (text.new.items ≡ text.old.items ++ stopper_text block.now place) }
{
    if place == block.len() {
        return text.extend_from_slice(b": the text ends here");
    }
    text.extend_from_slice(b": no game goes on with ")?;
    push_byte(text, block[place])
}

/// Appends what the place of the block stands in.
fn push_context(
    text: &mut Vec<u8>,
    origin: Origin,
    block: &[u8],
    stop: Stop,
) -> Result<(), AllocError>
    requires begins { IsWithinBlock (length block.now) stop.within }
    requires room { origin.offset + length block.now < 2 ^ 64 }
    ensures { OnOk result (text.new.items ≡ text.old.items
        ++ context_text origin block.now (stop.place == length block.now) stop.within) }
{
    match stop.within {
        Within::Comment(at) => {
            push_begin(
                text,
                b" (in a comment that begins at ",
                origin,
                &block[..at],
            )
        }
        Within::TagName(at) => {
            push_begin(text, b" (in a tag that begins at ", origin, &block[..at])
        }
        Within::TagValue(at) => {
            push_named(text, b" (in the value of tag ", tag_name_at(block, at))
        }
        Within::Variation => text.extend_from_slice(b" (in a variation)"),
        Within::Tags | Within::MainLine if stop.place == block.len() => {
            text.extend_from_slice(b" (before a result)")
        }
        Within::Tags | Within::MainLine | Within::Game => Ok(()),
    }
}

/// Appends the note on bytes that are no game, from the place of the block on: where they stop
/// agreeing with games, and what stands there.
pub fn push_stop_note(
    text: &mut Vec<u8>,
    origin: Origin,
    block: &[u8],
    begin: usize,
) -> Result<(), AllocError>
    requires place { begin ≤ length block.now }
    requires room { origin.offset + length block.now < 2 ^ 64 }
    ensures { OnOk result ((note : List ℕ) × IsStopNote origin block.now begin note
        × (text.new.items ≡ text.old.items ++ note)) }
{
    let stop = locate_error(block, begin, origin.offset == 0);
    text.extend_from_slice(b"  ")?;
    push_place(text, origin, &block[..stop.place])?;
    push_stopper(text, block, stop.place)?;
    push_context(text, origin, block, stop)?;
    text.push(b'\n')?;
    Ok(())
}

/// Appends the note on a block of this size, over the limit.
pub fn push_too_long_note(text: &mut Vec<u8>, size: u64) -> Result<(), AllocError>
    ensures { OnOk result (text.new.items ≡ text.old.items
        ++ indented (too_long_text size block_limit ∷ [])) }
{
    push_number(text, b"  ", size)?;
    push_number(text, b" bytes, over the limit of ", BLOCK_LIMIT as u64)?;
    text.extend_from_slice(
        b"; games are parted at lines that begin with [Event \" (a compressed file needs zcat)\n",
    )
}
