//! Strings of JSON.
ghost use Rattle.std.specs.Prelude.{◌≡◌, ◌++◌, ◌<◌, OnOk, flat_map};
ghost use Rattle.std.specs.List.{list_any};
ghost use Rattle.pgn_extract.specs.Public.Json.{is_special as is_special_byte};
ghost use Rattle.pgn_extract.specs.Public.Json.{hex_digit as hex_digit_of, escaped, string_text};
ghost use Rattle.pgn_extract.specs.Public.Json.{latin, text_of};

use std::alloc::AllocError;

/// Whether the byte does not stand for itself in a string.
#[inline(always)]
fn is_special(byte: u8) -> bool
    ensures { result ≡ is_special_byte byte }
{
    byte < 32 || byte == b'"' || byte == b'\\'
}

/// Whether a byte of the text does not stand for itself.
fn has_special(text: &[u8]) -> bool
    ensures { result ≡ list_any is_special_byte text.now }
{
    text.iter().any(|byte| is_special(*byte))
}

/// The digit of a number below 16.
fn hex_digit(number: u8) -> u8
    requires { number < 16 }
    ensures { result ≡ hex_digit_of number }
{
    if number < 10 {
        number + b'0'
    } else {
        number + 87
    }
}

/// Appends a byte of a text.
fn push_byte(out: &mut Vec<u8>, byte: u8) -> Result<(), AllocError>
    ensures { OnOk result (out.new.items ≡ out.old.items ++ escaped byte) }
{
    if byte < 32 {
        return out.extend_from_slice(&[
            b'\\',
            b'u',
            b'0',
            b'0',
            hex_digit(byte / 16),
            hex_digit(byte % 16),
        ]);
    }
    if byte == b'"' || byte == b'\\' {
        out.push(b'\\')?;
    }
    out.push(byte)?;
    Ok(())
}

/// Appends the bytes of a text one by one.
fn push_bytes(out: &mut Vec<u8>, text: &[u8]) -> Result<(), AllocError>
    ensures { OnOk result (out.new.items ≡ out.old.items ++ flat_map escaped text.now) }
{
    for byte in text {
        push_byte(out, *byte)?;
    }
    Ok(())
}

/// Appends a text as it stands between the quotes of a string.
#[tactic(auto, using(crate::proofs::rows::JsonCells::plain))]
fn push_contents(out: &mut Vec<u8>, text: &[u8]) -> Result<(), AllocError>
    ensures { OnOk result (out.new.items ≡ out.old.items ++ flat_map escaped text.now) }
{
    if has_special(text) {
        return push_bytes(out, text);
    }
    out.extend_from_slice(text)
}

/// Appends a byte that is taken as Latin-1.
fn push_latin(out: &mut Vec<u8>, byte: u8) -> Result<(), AllocError>
    ensures { OnOk result (out.new.items ≡ out.old.items ++ flat_map escaped (latin byte)) }
{
    if byte < 128 {
        return push_byte(out, byte);
    }
    out.extend_from_slice(&[192 + byte / 64, 128 + byte % 64])
}

/// Appends bytes that are taken as Latin-1.
fn push_all_latin(out: &mut Vec<u8>, value: &[u8]) -> Result<(), AllocError>
    ensures { OnOk result
        (out.new.items ≡ out.old.items ++ flat_map escaped (flat_map latin value.now)) }
{
    for byte in value {
        push_latin(out, *byte)?;
    }
    Ok(())
}

/// Appends what stands between the quotes of the string of a value.
fn push_text(out: &mut Vec<u8>, value: &[u8]) -> Result<(), AllocError>
    ensures { OnOk result (out.new.items ≡ out.old.items ++ flat_map escaped (text_of value.now)) }
{
    match str::from_utf8(value) {
        Ok(_) => push_contents(out, value),
        Err(_) => push_all_latin(out, value),
    }
}

/// Appends the string of a value.
pub(crate) fn push_string(out: &mut Vec<u8>, value: &[u8]) -> Result<(), AllocError>
    ensures { OnOk result (out.new.items ≡ out.old.items ++ string_text (text_of value.now)) }
{
    out.push(b'"')?;
    push_text(out, value)?;
    out.push(b'"')?;
    Ok(())
}
