//! The tags of a game that is written, one a line.
ghost use Rattle.std.specs.Prelude.{◌≡◌, ◌++◌, ℕ, List, OnOk, IfSome, option_map, map, bytes_eq};
ghost use Rattle.std.specs.Prelude.{codes, ◌&&◌, ◌||◌, filter, flat_map, is_some, not};
ghost use Rattle.std.specs.List.{list_any};
ghost use Rattle.pgn_text.specs.Public.GameTexts.{tag_in, tag_names};
ghost use Rattle.pgn_text.specs.Public.Strings.{IsContents};
ghost use Rattle.pgn_game.specs.Public.Starts.{fen_tag};
ghost use Rattle.pgn_game.specs.Public.TagLines.{roster, missing_text as missing_text_of, escaped};
ghost use Rattle.pgn_game.specs.Public.TagLines.{IsValueText, IsTagText, IsLineOf, AreLinesOf};
ghost use Rattle.pgn_game.specs.Public.TagLines.{is_beside as is_name_beside, AreTagLines};
ghost use Rattle.pgn_game.specs.Public.TagLines.{is_among as is_name_among};

use crate::exports::style::Style;
use pgn_text::{RawGame, value};
use std::alloc::AllocError;

/// The names of the roster, in the order in which they are written.
const ROSTER: [&[u8]; 7] = [
    b"Event", b"Site", b"Date", b"Round", b"White", b"Black", b"Result",
];

/// Appends a byte of a string: a quote or a backslash after a backslash, a tab as a space.
fn put_byte(byte: u8, out: &mut Vec<u8>) -> Result<(), AllocError>
    ensures text { OnOk result (out.new.items ≡ out.old.items ++ escaped byte) }
    ensures kept { (some : List ℕ) × (out.new.items ≡ out.old.items ++ some) }
{
    if byte == b'"' || byte == b'\\' {
        out.push(b'\\')?;
    }
    out.push(if byte == b'\t' { b' ' } else { byte })?;
    Ok(())
}

/// Appends the contents of a string with this value: a quote and a backslash stand after a
/// backslash, and a tab is a space.
pub fn push_contents(value: &[u8], out: &mut Vec<u8>) -> Result<(), AllocError>
    ensures { OnOk result (out.new.items ≡ out.old.items ++ flat_map escaped value.now) }
{
    for byte in value {
        put_byte(*byte, out)?;
    }
    Ok(())
}

/// Appends the value of a string with these contents.
fn put_value(contents: &[u8], out: &mut Vec<u8>) -> Result<(), AllocError>
    requires { IsContents contents.now }
    ensures text { OnOk result ((text : List ℕ) × IsValueText contents.now text
        × (out.new.items ≡ out.old.items ++ text)) }
    ensures kept { (some : List ℕ) × (out.new.items ≡ out.old.items ++ some) }
{
    for byte in value(contents) {
        put_byte(byte, out)?;
    }
    Ok(())
}

/// What is written for a tag of the roster that a game has not: its result, or that it is unknown.
fn missing_text<'a>(name: &[u8], game_result: &'a [u8]) -> &'a [u8]
    ensures { result.now ≡ missing_text_of game_result.entry.now name.now }
{
    if name == b"Result".as_slice() {
        return game_result;
    }
    if name == b"Date".as_slice() {
        b"????.??.??"
    } else {
        b"?"
    }
}

/// Appends the string of a tag with these contents, or of one that is missing.
fn put_text(contents: Option<&[u8]>, missing: &[u8], out: &mut Vec<u8>) -> Result<(), AllocError>
    requires { IfSome contents (λ text. IsContents text.now) }
    ensures text { OnOk result ((text : List ℕ)
        × IsTagText (option_map (λ text. text.now) contents.entry) missing.now text
        × (out.new.items ≡ out.old.items ++ text)) }
    ensures kept { (some : List ℕ) × (out.new.items ≡ out.old.items ++ some) }
{
    match contents {
        Some(contents) => put_value(contents, out),
        None => out.extend_from_slice(missing),
    }
}

/// Appends the line of a tag with these contents, or of one that is missing, in a game with this
/// result.
fn put_tag(
    name: &[u8],
    contents: Option<&[u8]>,
    game_result: &[u8],
    out: &mut Vec<u8>,
) -> Result<(), AllocError>
    requires { IfSome contents (λ text. IsContents text.now) }
    ensures line { OnOk result ((line : List ℕ)
        × IsLineOf game_result.now name.now (option_map (λ text. text.now) contents.entry) line
        × (out.new.items ≡ out.old.items ++ line)) }
    ensures kept { (some : List ℕ) × (out.new.items ≡ out.old.items ++ some) }
{
    out.push(b'[')?;
    out.extend_from_slice(name)?;
    out.extend_from_slice(b" \"")?;
    put_text(contents, missing_text(name, game_result), out)?;
    out.extend_from_slice(b"\"]\n")?;
    Ok(())
}

/// Whether the tag is one of the roster.
fn is_in_roster(name: &[u8]) -> bool
    ensures { result ≡ is_name_among roster name.now }
{
    ROSTER.contains(&name)
}

/// Whether the tag says from which position a game starts.
fn is_of_start(name: &[u8]) -> bool
    ensures { result ≡ (bytes_eq name.now (codes "SetUp") || bytes_eq name.now fen_tag) }
{
    name == b"SetUp".as_slice() || name == b"FEN".as_slice()
}

/// Whether the style writes a tag with this name beside the roster, in a game that has a FEN tag or
/// has none.
fn is_beside(name: &[u8], style: &Style, has_fen: bool) -> bool
    ensures { result ≡ is_name_beside style.now has_fen name.now }
{
    !is_in_roster(name) && (!style.roster_only || (has_fen && is_of_start(name)))
}

/// Appends the line of the tag with this name, which the game may not have.
fn put_named(game: &RawGame, name: &[u8], out: &mut Vec<u8>) -> Result<(), AllocError>
    ensures line { OnOk result ((line : List ℕ)
        × IsLineOf game.now.result name.now (tag_in name.now game.now.tags) line
        × (out.new.items ≡ out.old.items ++ line)) }
    ensures kept { (some : List ℕ) × (out.new.items ≡ out.old.items ++ some) }
{
    let contents = game.tags().get(name).copied();
    put_tag(name, contents, game.result(), out)
}

/// Appends the lines of the tags with these names, which the game may not have.
fn put_all_named(game: &RawGame, names: &[&[u8]], out: &mut Vec<u8>) -> Result<(), AllocError>
    ensures lines { OnOk result ((lines : List ℕ)
        × AreLinesOf game.now.tags game.now.result (map (λ name. name.now) names.now) lines
        × (out.new.items ≡ out.old.items ++ lines)) }
    ensures kept { (some : List ℕ) × (out.new.items ≡ out.old.items ++ some) }
{
    for name in names {
        put_named(game, *name, out)?;
    }
    Ok(())
}

/// Whether the name is one of these.
fn is_among(names: &[Vec<u8>], name: &[u8]) -> bool
    ensures { result ≡ list_any (λ other. bytes_eq other.items name.now) names.now }
{
    names.iter().any(|other| other.as_slice() == name)
}

/// Whether the game has a tag with this name that the style writes beside the roster.
fn has_beside(game: &RawGame, name: &[u8], style: &Style, has_fen: bool) -> bool
    ensures { result ≡ is_name_among
        (filter (is_name_beside style.now has_fen) (tag_names game.now.tags)) name.now }
{
    is_beside(name, style, has_fen) && game.tags().get(name).is_some()
}

/// Whether the style writes a tag with this name beside the roster, and it is not asked for first.
fn is_other(name: &[u8], order: &[Vec<u8>], style: &Style, has_fen: bool) -> bool
    ensures { result ≡ (is_name_beside style.now has_fen name.now
        && not (is_name_among (map (λ other. other.items) order.now) name.now)) }
{
    is_beside(name, style, has_fen) && !is_among(order, name)
}

/// Appends the lines of the tags with these names that the game has and the style writes beside the
/// roster.
fn put_first(
    game: &RawGame,
    order: &[Vec<u8>],
    style: &Style,
    out: &mut Vec<u8>,
) -> Result<(), AllocError>
    ensures lines { OnOk result ((lines : List ℕ)
        × AreLinesOf game.now.tags game.now.result
        (filter (is_name_among
        (filter (is_name_beside style.now (is_some (tag_in fen_tag game.now.tags)))
        (tag_names game.now.tags))) (map (λ name. name.items) order.now)) lines
        × (out.new.items ≡ out.old.items ++ lines)) }
    ensures kept { (some : List ℕ) × (out.new.items ≡ out.old.items ++ some) }
{
    let fen: &[u8] = b"FEN";
    let has_fen = game.tags().contains_key(&fen);
    for name in order {
        if has_beside(game, name, style, has_fen) {
            put_named(game, name, out)?;
        }
    }
    Ok(())
}

/// Appends the lines of the other tags that the style writes, in the order of their names.
fn put_others(
    game: &RawGame,
    order: &[Vec<u8>],
    style: &Style,
    out: &mut Vec<u8>,
) -> Result<(), AllocError>
    ensures lines { OnOk result ((lines : List ℕ)
        × AreLinesOf game.now.tags game.now.result
        (filter (λ name. is_name_beside style.now (is_some (tag_in fen_tag game.now.tags)) name
        && not (is_name_among (map (λ other. other.items) order.now) name))
        (tag_names game.now.tags)) lines × (out.new.items ≡ out.old.items ++ lines)) }
    ensures kept { (some : List ℕ) × (out.new.items ≡ out.old.items ++ some) }
{
    let fen: &[u8] = b"FEN";
    let has_fen = game.tags().contains_key(&fen);
    for (name, contents) in game.tags() {
        if !is_other(*name, order, style, has_fen) {
            continue;
        }
        put_tag(*name, Some(*contents), game.result(), out)?;
    }
    Ok(())
}

/// Appends the tags of the game, one a line: the roster, and the others that the style writes, with
/// those first that are asked for first.
pub(crate) fn put_tags(
    game: &RawGame,
    order: &[Vec<u8>],
    style: &Style,
    out: &mut Vec<u8>,
) -> Result<(), AllocError>
    ensures lines { OnOk result ((lines : List ℕ)
        × AreTagLines (map (λ name. name.items) order.now) style.now game.now.tags game.now.result
        lines × (out.new.items ≡ out.old.items ++ lines)) }
    ensures kept { (some : List ℕ) × (out.new.items ≡ out.old.items ++ some) }
{
    put_all_named(game, &ROSTER, out)?;
    put_first(game, order, style, out)?;
    put_others(game, order, style, out)?;
    Ok(())
}
