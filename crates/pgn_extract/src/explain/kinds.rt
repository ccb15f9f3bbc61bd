//! What an input is that is no text of games, by its first bytes.

use crate::output::file_name::FileName;
use std::alloc::{AllocError, Global};

/// How many of the first bytes are looked at.
pub const HEAD: usize = 32;

/// How files of a kind begin, and what is said of them.
const KINDS: [(&[u8], &str); 13] = [
    (
        b"\x1F\x8B",
        "compressed by gzip; read it with gzip -dc FILE | pgn-extract ..",
    ),
    (
        b"\x28\xB5\x2F\xFD",
        "compressed by zstd; read it with zstd -dc FILE | pgn-extract ..",
    ),
    (
        b"\xFD7zXZ\x00",
        "compressed by xz; read it with xz -dc FILE | pgn-extract ..",
    ),
    (
        b"BZh",
        "compressed by bzip2; read it with bzip2 -dc FILE | pgn-extract ..",
    ),
    (
        b"PK\x03\x04",
        "compressed by zip; read it with unzip -p FILE | pgn-extract ..",
    ),
    (
        b"7z\xBC\xAF\x27\x1C",
        "compressed by 7z; read it with 7z x -so FILE | pgn-extract ..",
    ),
    (b"\xFF\xFE", UTF_16),
    (b"\xFE\xFF", UTF_16),
    (b"\x00\x00\x2C\x00\x2E\x01", CHESS_BASE),
    (b"\x00\x00\x24\x00\x2E\x01", CHESS_BASE),
    (b"Scid.si", SCID),
    (b"Scid.sn", SCID),
    (b"Scid.sg", SCID),
];

const UTF_16: &str = "text in UTF-16; read it with iconv -f UTF-16 -t UTF-8 FILE | pgn-extract ..";

const CHESS_BASE: &str = "a database of ChessBase; have ChessBase write its games as PGN";

const SCID: &str = "a database of Scid; have Scid write its games as PGN";

const HTML: &str = "a page of HTML; get the PGN file that it speaks of";

const PACK: &str = "a pack; read it with --list --packed or --index --packed";

const OLDER_PACK: &str = "a pack made by an older program; pack the collection anew";

const FOLDER: &str = "a folder; give the files in it, as FOLDER/*.pgn";

const NO_PACK: &str = "no pack; read it without --packed, or write a pack with --pack";

/// Whether a text begins like this one, whatever the case of its letters.
fn begins_with(text: &[u8], beginning: &[u8]) -> bool {
    match text.get(..beginning.len()) {
        Some(own) => own.eq_ignore_ascii_case(beginning),
        None => false,
    }
}

/// Whether this is the beginning of a page of HTML.
fn is_html(first: &[u8]) -> bool {
    let text = first.strip_prefix(b"\xEF\xBB\xBF").unwrap_or(first);
    let text = text.trim_ascii_start();
    begins_with(text, b"<!doctype") || begins_with(text, b"<html")
}

/// Whether this is the beginning of a pack, whatever its layout.
fn is_pack(first: &[u8]) -> bool {
    first.starts_with(b"PGNPACK")
}

/// Whether this is the beginning of a pack of older programs: of a record whose number has no more
/// than four bytes.
fn is_older_pack(first: &[u8]) -> bool {
    matches!(first, [0..=2, _, _, _, 0, 0, 0, 0, ..])
}

/// Whether this is the beginning of a text.
fn is_text(first: &[u8]) -> bool {
    match first {
        [0xEF, 0xBB, 0xBF, _, ..] => true,
        [byte, _, _, _, ..] => byte.is_ascii_graphic() || byte.is_ascii_whitespace(),
        _ => false,
    }
}

/// What is said of an input with these first bytes that is no text of games, or no pack where packs
/// are read.
fn kind_of(first: &[u8], packed: bool) -> Option<&'static str> {
    for &(beginning, said) in &KINDS {
        if first.starts_with(beginning) {
            return Some(said);
        }
    }
    if is_html(first) {
        return Some(HTML);
    }
    match packed {
        false if is_pack(first) => Some(PACK),
        false if is_older_pack(first) => Some(OLDER_PACK),
        true if is_text(first) && !is_pack(first) => Some(NO_PACK),
        _ => None,
    }
}

/// A line that says so of an input with this name.
fn note_line(alloc: Global, name: &str, said: &str) -> Result<Vec<u8>, AllocError> {
    let name = FileName::of_path(alloc, name)?;
    let mut note = Vec::from_slice(alloc, b"  ")?;
    note.extend_from_slice(name.bytes())?;
    note.extend_from_slice(b": ")?;
    note.extend_from_slice(said.as_bytes())?;
    note.push(b'\n')?;
    Ok(note)
}

/// The note on an input with this name and these first bytes, where they say that it is no text of
/// games, or no pack where packs are read.
pub fn kind_note(
    alloc: Global,
    name: &str,
    first: &[u8],
    packed: bool,
) -> Result<Option<Vec<u8>>, AllocError> {
    match kind_of(first, packed) {
        Some(said) => Ok(Some(note_line(alloc, name, said)?)),
        None => Ok(None),
    }
}

/// The note on an input with this name that is a folder.
pub fn folder_note(alloc: Global, name: &str) -> Result<Vec<u8>, AllocError> {
    note_line(alloc, name, FOLDER)
}
