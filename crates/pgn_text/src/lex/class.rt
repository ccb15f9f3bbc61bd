//! Classes of bytes, and the longest front of a text within one.

ghost use Rattle.std.specs.Prelude.{◌≡◌, ◌≤◌, not, length, position};
ghost use Rattle.std.specs.List.{list_all};
ghost use Rattle.pgn_text.specs.Public.Bytes.{is_name_byte, is_plain as is_plain_byte};
ghost use Rattle.pgn_text.specs.Public.Bytes.{run_of, after_run};
ghost use Rattle.pgn_text.specs.Private.Tokens.{flag_of, test_of, RunTo};

/// A class of bytes.
#[derive(Clone, Copy)]
pub(crate) enum ByteClass {
    White,
    Digit,
    Letter,
    Name,
    Word,
    Mark,
    Period,
    /// What a string may have but the quote and the backslash.
    Single,
}

// For each byte the sum of the flags of the classes that it belongs to.
static CLASSES: [u8; 256] = [
    // from 0x00
    0, 0, 0, 0, 0, 0, 0, 0, 0, 65, 1, 1, 1, 1, 0, 0,
    // from 0x10
    0, 0, 0, 0, 0, 0, 0, 0, 0, 0, 0, 0, 0, 0, 0, 0,
    // from 0x20
    65, 96, 0, 66, 64, 64, 64, 64, 64, 64, 64, 66, 64, 66, 192, 66,
    // from 0x30
    90, 90, 90, 90, 90, 90, 90, 90, 90, 90, 66, 64, 64, 66, 64, 96,
    // from 0x40
    64, 86, 86, 86, 86, 86, 86, 86, 86, 86, 86, 86, 86, 86, 86, 86,
    // from 0x50
    86, 86, 86, 86, 86, 86, 86, 86, 86, 86, 86, 64, 0, 64, 64, 82,
    // from 0x60
    64, 86, 86, 86, 86, 86, 86, 86, 86, 86, 86, 86, 86, 86, 86, 86,
    // from 0x70
    86, 86, 86, 86, 86, 86, 86, 86, 86, 86, 86, 64, 64, 64, 64, 0,
    // from 0x80
    64, 64, 64, 64, 64, 64, 64, 64, 64, 64, 64, 64, 64, 64, 64, 64,
    // from 0x90
    64, 64, 64, 64, 64, 64, 64, 64, 64, 64, 64, 64, 64, 64, 64, 64,
    // from 0xA0
    64, 64, 64, 64, 64, 64, 64, 64, 64, 64, 64, 64, 64, 64, 64, 64,
    // from 0xB0
    64, 64, 64, 64, 64, 64, 64, 64, 64, 64, 64, 64, 64, 64, 64, 64,
    // from 0xC0
    64, 64, 64, 64, 64, 64, 64, 64, 64, 64, 64, 64, 64, 64, 64, 64,
    // from 0xD0
    64, 64, 64, 64, 64, 64, 64, 64, 64, 64, 64, 64, 64, 64, 64, 64,
    // from 0xE0
    64, 64, 64, 64, 64, 64, 64, 64, 64, 64, 64, 64, 64, 64, 64, 64,
    // from 0xF0
    64, 64, 64, 64, 64, 64, 64, 64, 64, 64, 64, 64, 64, 64, 64, 64,
];

/// The class's flag.
#[inline(always)]
fn flag(class: ByteClass) -> u8
    ensures { result ≡ flag_of class }
{
    match class {
        ByteClass::White => 1,
        ByteClass::Word => 2,
        ByteClass::Letter => 4,
        ByteClass::Digit => 8,
        ByteClass::Name => 16,
        ByteClass::Mark => 32,
        ByteClass::Single => 64,
        ByteClass::Period => 128,
    }
}

/// Whether the byte belongs to the class.
#[inline(always)]
pub(crate) fn is_in(class: ByteClass, byte: u8) -> bool
    ensures { result ≡ test_of class byte }
{
    CLASSES[byte as usize] & flag(class) != 0
}

/// Whether each of the bytes may stand in the name of a tag.
pub fn are_name_bytes(text: &[u8]) -> bool
    ensures { result ≡ list_all is_name_byte text.now }
{
    text.iter().all(|byte| is_in(ByteClass::Name, *byte))
}

/// Whether the byte may stand in a string: a tab, or anything from the space on but the delete
/// byte.
#[inline(always)]
pub(crate) fn is_plain(byte: u8) -> bool
    ensures { result ≡ is_plain_byte byte }
{
    matches!(byte, b'\t' | 32..=126 | 128..=255)
}

/// The longest front of the text within the class, and what follows it.
#[inline(always)]
pub(crate) fn run(class: ByteClass, text: &[u8]) -> (&[u8], &[u8])
    ensures front { result.0.now ≡ run_of (test_of class) text.now }
    ensures rest { result.1.now ≡ after_run (test_of class) text.now }
{
    let len = run_end(class, text, 0);
    (&text[..len], &text[len..])
}

/// The first place from there on whose byte is outside the class, or the end.
#[inline(always)]
pub(crate) fn run_end(class: ByteClass, block: &[u8], from: usize) -> usize
    requires { from ≤ length block.now }
    ensures { RunTo (test_of class) block.now from result }
{
    let mut at = from;
    while at + 4 <= block.len() {
        if !is_in(class, block[at]) {
            return at;
        }
        if !is_in(class, block[at + 1]) {
            return at + 1;
        }
        if !is_in(class, block[at + 2]) {
            return at + 2;
        }
        if !is_in(class, block[at + 3]) {
            return at + 3;
        }
        at += 4;
    }
    while at < block.len() && is_in(class, block[at]) {
        at += 1;
    }
    at
}
