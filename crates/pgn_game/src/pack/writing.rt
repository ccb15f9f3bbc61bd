//! The record of a game, appended to bytes.
ghost use Rattle.std.specs.Prelude.{◌≡◌, ◌↔◌, ◌<◌, ◌≤◌, ◌+◌, ◌^◌, ◌++◌, ℕ, true, false, List};
ghost use Rattle.std.specs.Prelude.{length, min};
ghost use Rattle.std.specs.Prelude.{option_map, OnOk, OnErr, IsErrOf};
ghost use Rattle.std.specs.List.{flat_map};
ghost use Rattle.std.specs.Int.{w32, to_be_bytes};
ghost use Rattle.pgn_text.specs.Public.GameTexts.{tag_in};
ghost use Rattle.pgn_game.specs.Public.Starts.{fen_tag};
ghost use Rattle.pgn_game.specs.Public.Replays.{IsSomeReplay};
ghost use Rattle.pgn_game.specs.Public.NamedRecords.{with_tags};
ghost use Rattle.pgn_game.specs.Public.PackReading.{raw_of};
ghost use Rattle.pgn_game.specs.Public.PackedGames.{PackedGame, FitsRecord, IsPacked, with_length};
ghost use Rattle.pgn_game.specs.Public.PackedGames.{name_bytes, tag_bytes, tags_size, body_size};
ghost use Rattle.pgn_game.specs.Public.PackedGames.{record_bytes, largest_body, name_size};
ghost use Rattle.pgn_game.specs.Public.PackedGames.{named_number, result_number, name_of};
ghost use Rattle.pgn_game.specs.Public.PackedGames.{is_origin};
ghost use Rattle.pgn_game.specs.Private.PackWords.{IsLinePlayed, PutsFront, PutsHead, PutsFields};

use crate::pack::error::PackError;
use crate::pack::origin::{GameOrigin, is_origin};
use crate::pack::ply::{Marks, coded_move};
use crate::pack::reading::{LARGEST_BODY, RawRecord};
use crate::turns::replayed::Replayed;
use pgn_text::RawGame;
use std::alloc::AllocError;

/// How many bytes the tags of the game take in its record; the largest number, where it is more.
fn tags_size(game: &RawGame) -> usize
    ensures { result ≡ min (tags_size game.now.tags) usize.MAX }
{
    let mut size = 0_usize;
    for (name, contents) in game.tags() {
        size = size
            .saturating_add(8)
            .saturating_add(name.len())
            .saturating_add(contents.len());
    }
    size
}

/// How many bytes the name takes in a record; the largest number, where it is more.
fn name_size(name: Option<&[u8]>) -> usize
    ensures { result ≡ min (name_size (option_map (λ bytes. bytes.now) name.entry)) usize.MAX }
{
    match name {
        Some(name) => name.len().saturating_add(4),
        None => 0,
    }
}

/// 1 where there is a name, and else 0.
fn named_number(name: Option<&[u8]>) -> u32
    ensures number { result ≡ named_number (option_map (λ bytes. bytes.now) name.entry) }
    ensures below { result < 2 }
{
    match name {
        Some(_) => 1,
        None => 0,
    }
}

/// The number of the result token that ends a game.
fn result_number(token: &[u8]) -> u32
    ensures number { result ≡ result_number token.now }
    ensures below { result < 4 }
{
    if token == b"1-0".as_slice() {
        1
    } else if token == b"0-1".as_slice() {
        2
    } else if token == b"1/2-1/2".as_slice() {
        3
    } else {
        0
    }
}

/// How many bytes stand in the record of the game with so many plies after its size; the largest
/// number, where it is more.
fn body_size(origin: &GameOrigin, game: &RawGame, plies: usize) -> usize
    ensures { result ≡ min (body_size (name_of origin.now) game.now.tags plies) usize.MAX }
{
    tags_size(game)
        .saturating_add(20)
        .saturating_add(name_size(origin.name))
        .saturating_add(plies.saturating_mul(3))
}

/// How many bytes stand after the size in the record with the tags of the head; the largest number,
/// where it is more.
fn headed_size(raw: &RawRecord<'_>, head: &RawGame) -> usize
    ensures { result ≡ min (20 + name_size raw.now.name + tags_size head.now.tags
        + length raw.now.plies) usize.MAX }
{
    tags_size(head)
        .saturating_add(20)
        .saturating_add(name_size(raw.name()))
        .saturating_add(raw.plies().len())
}

/// Appends the size of the record of the game with so many plies.
fn put_size(
    origin: &GameOrigin,
    game: &RawGame,
    plies: usize,
    out: &mut Vec<u8>,
) -> Result<(), PackError>
    ensures size { OnOk result (out.new.items
        ≡ out.old.items ++ to_be_bytes w32 (body_size (name_of origin.now) game.now.tags plies)) }
    ensures within { OnOk result
        (body_size (name_of origin.now) game.now.tags plies ≤ largest_body) }
    ensures large { IsErrOf result PackError.TooLarge
        ↔ (largest_body < body_size (name_of origin.now) game.now.tags plies) }
    ensures origin { IsErrOf result PackError.NoOrigin → ⊥ }
    ensures kept { (some : List ℕ) × (out.new.items ≡ out.old.items ++ some) }
{
    let size = body_size(origin, game, plies);
    if size > LARGEST_BODY {
        return Err(PackError::TooLarge);
    }
    out.extend_from_slice(&(size as u32).to_be_bytes())?;
    Ok(())
}

/// Appends the size of the record with so many plies, and the number and the offset of the game.
/// Answers an error where no run gives a game such a number, offset or file name.
fn put_front(
    origin: &GameOrigin,
    game: &RawGame,
    plies: usize,
    out: &mut Vec<u8>,
) -> Result<(), PackError>
    ensures front { OnOk result
        (PutsFront origin.now.number origin.now.offset
        (body_size (name_of origin.now) game.now.tags plies) out.old.items out.new.items) }
    ensures placed { OnOk result ((origin.now.number < 2 ^ 64) × (origin.now.offset < 2 ^ 64)
        × (is_origin origin.now.number origin.now.offset (name_of origin.now) ≡ true)) }
    ensures origin { IsErrOf result PackError.NoOrigin
        → is_origin origin.now.number origin.now.offset (name_of origin.now) ≡ false }
    ensures within { OnOk result
        (body_size (name_of origin.now) game.now.tags plies ≤ largest_body) }
    ensures large { IsErrOf result PackError.TooLarge
        ↔ (largest_body < body_size (name_of origin.now) game.now.tags plies) }
    ensures kept { (some : List ℕ) × (out.new.items ≡ out.old.items ++ some) }
{
    put_size(origin, game, plies, out)?;
    if !is_origin(origin.number, origin.offset, origin.name) {
        return Err(PackError::NoOrigin);
    }
    out.extend_from_slice(&origin.number.to_be_bytes())?;
    out.extend_from_slice(&origin.offset.to_be_bytes())?;
    Ok(())
}

/// Appends the head of the record of the game, of which the start has these marks.
fn put_head(
    origin: &GameOrigin,
    game: &RawGame,
    marks: Marks,
    out: &mut Vec<u8>,
) -> Result<(), AllocError>
    requires { length game.now.tags < 2 ^ 27 }
    ensures head { OnOk result
        (PutsHead (name_of origin.now) game.now.tags game.now.result marks.check marks.stuck
        out.old.items out.new.items) }
    ensures kept { (some : List ℕ) × (out.new.items ≡ out.old.items ++ some) }
{
    let count = game.tags().len() as u32;
    let named = named_number(origin.name);
    let low = 4 * result_number(game.result()) + u32::from(marks.number());
    let head = 32 * count + 16 * named + low;
    out.extend_from_slice(&head.to_be_bytes())?;
    Ok(())
}

/// Appends the bytes after their length.
fn put_text(text: &[u8], out: &mut Vec<u8>) -> Result<(), AllocError>
    requires { length text.now < 2 ^ 32 }
    ensures text { OnOk result (out.new.items ≡ out.old.items ++ with_length text.now) }
    ensures kept { (some : List ℕ) × (out.new.items ≡ out.old.items ++ some) }
{
    out.extend_from_slice(&(text.len() as u32).to_be_bytes())?;
    out.extend_from_slice(text)?;
    Ok(())
}

/// Appends the name, where there is one.
fn put_name(name: Option<&[u8]>, out: &mut Vec<u8>) -> Result<(), AllocError>
    requires { name_size (option_map (λ bytes. bytes.now) name) < 2 ^ 32 }
    ensures name { OnOk result (out.new.items
        ≡ out.old.items ++ name_bytes (option_map (λ bytes. bytes.now) name.entry)) }
    ensures kept { (some : List ℕ) × (out.new.items ≡ out.old.items ++ some) }
{
    match name {
        Some(name) => put_text(name, out),
        None => Ok(()),
    }
}

/// Appends the tags of the game.
fn put_tags(game: &RawGame, out: &mut Vec<u8>) -> Result<(), AllocError>
    requires { tags_size game.now.tags < 2 ^ 32 }
    ensures tags { OnOk result (out.new.items ≡ out.old.items ++ flat_map tag_bytes game.now.tags) }
    ensures kept { (some : List ℕ) × (out.new.items ≡ out.old.items ++ some) }
{
    for (name, contents) in game.tags() {
        put_text(*name, out)?;
        put_text(*contents, out)?;
    }
    Ok(())
}

/// Appends what stands in the record of the game in front of its plies. They are so many, and its
/// start has these marks. Where the record would be too large or memory is refused, some bytes of
/// it are appended.
pub(crate) fn put_fields(
    origin: &GameOrigin,
    game: &RawGame,
    plies: usize,
    marks: Marks,
    out: &mut Vec<u8>,
) -> Result<(), PackError>
    ensures fields { OnOk result
        (PutsFields origin.now game.now plies marks.check marks.stuck out.old.items
        out.new.items) }
    ensures large { IsErrOf result PackError.TooLarge
        ↔ (largest_body < body_size (name_of origin.now) game.now.tags plies) }
    ensures origin { IsErrOf result PackError.NoOrigin
        → is_origin origin.now.number origin.now.offset (name_of origin.now) ≡ false }
    ensures kept { (some : List ℕ) × (out.new.items ≡ out.old.items ++ some) }
{
    game.invariant();
    put_front(origin, game, plies, out)?;
    put_head(origin, game, marks, out)?;
    put_name(origin.name, out)?;
    put_tags(game, out)?;
    Ok(())
}

/// Appends the record of the game; where it would be too large or memory is refused, some bytes of
/// it.
fn put_replayed(
    origin: &GameOrigin,
    game: &RawGame,
    replayed: &Replayed,
    out: &mut Vec<u8>,
) -> Result<(), PackError>
    requires { IsLinePlayed replayed.now }
    ensures record { OnOk result ((packed : PackedGame)
        × IsPacked (name_of origin.now) origin.now.number origin.now.offset game.now replayed.now
        packed × FitsRecord packed × (out.new.items ≡ out.old.items ++ record_bytes packed)) }
    ensures large { IsErrOf result PackError.TooLarge
        ↔ (largest_body
        < body_size (name_of origin.now) game.now.tags (length replayed.now.played)) }
    ensures origin { IsErrOf result PackError.NoOrigin
        → is_origin origin.now.number origin.now.offset (name_of origin.now) ≡ false }
    ensures kept { (some : List ℕ) × (out.new.items ≡ out.old.items ++ some) }
{
    let count = replayed.plies();
    let marks = Marks::of(replayed.position(0), count > 0);
    put_fields(origin, game, count, marks, out)?;
    for plies in 0..count {
        let m = replayed.played(plies);
        let marks = Marks::of(replayed.position(plies + 1), plies + 1 < count);
        out.extend_from_slice(&coded_move(replayed.position(plies), &m, marks))?;
    }
    Ok(())
}

/// Appends the record of the game that comes from there: its name, its tags and its result as they
/// stand, and the main line of the replay, which is one of the game. Where the record would be too
/// large, no run gives the game such a number, offset or file name, or memory is refused, nothing
/// is appended.
pub fn put_record(
    origin: &GameOrigin,
    game: &RawGame,
    replayed: &Replayed,
    out: &mut Vec<u8>,
) -> Result<(), PackError>
    requires { IsSomeReplay (tag_in fen_tag game.now.tags) game.now.elements replayed.now }
    ensures record { OnOk result ((packed : PackedGame)
        × IsPacked (name_of origin.now) origin.now.number origin.now.offset game.now replayed.now
        packed × FitsRecord packed × (out.new.items ≡ out.old.items ++ record_bytes packed)) }
    ensures large { IsErrOf result PackError.TooLarge
        ↔ (largest_body
        < body_size (name_of origin.now) game.now.tags (length replayed.now.played)) }
    ensures origin { IsErrOf result PackError.NoOrigin
        → is_origin origin.now.number origin.now.offset (name_of origin.now) ≡ false }
    ensures left { OnErr result (out.new.items ≡ out.old.items) }
{
    let length = out.len();
    let put = put_replayed(origin, game, replayed, out);
    if put.is_err() {
        out.truncate(length);
    }
    put
}

/// Appends the record with the tags of the head in place of its own. Where it would be too large
/// or memory is refused, some bytes of it.
pub(crate) fn put_headed(
    raw: &RawRecord<'_>,
    head: &RawGame,
    out: &mut Vec<u8>,
) -> Result<(), PackError>
    ensures { OnOk result ((game : PackedGame) → FitsRecord game → raw.now ≡ raw_of game
        → FitsRecord (with_tags head.now.tags game)
        × (out.new.items ≡ out.old.items ++ record_bytes (with_tags head.now.tags game))) }
{
    head.invariant();
    let size = headed_size(raw, head);
    if size > LARGEST_BODY {
        return Err(PackError::TooLarge);
    }
    let count = head.tags().len() as u32;
    out.extend_from_slice(&(size as u32).to_be_bytes())?;
    out.extend_from_slice(&raw.number().to_be_bytes())?;
    out.extend_from_slice(&raw.offset().to_be_bytes())?;
    out.extend_from_slice(&(32 * count + raw.below_count()).to_be_bytes())?;
    put_name(raw.name(), out)?;
    put_tags(head, out)?;
    out.extend_from_slice(raw.plies())?;
    Ok(())
}
