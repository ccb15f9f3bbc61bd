//! Cells of values parted by tabs.
ghost use Rattle.std.specs.Prelude.{◌≡◌, ◌++◌, OnOk};
ghost use Rattle.std.specs.List.{list_any};
ghost use Rattle.pgn_extract.specs.Public.Tsv.{is_special as is_special_byte, cell_text, escaped};

use std::alloc::AllocError;

/// Whether the byte does not stand for itself.
#[inline(always)]
fn is_special(byte: u8) -> bool
    ensures { result ≡ is_special_byte byte }
{
    byte == b'\t' || byte == b'\n' || byte == b'\r' || byte == b'\\'
}

/// Whether a byte of the cell does not stand for itself.
pub(crate) fn has_special(cell: &[u8]) -> bool
    ensures { result ≡ list_any is_special_byte cell.now }
{
    cell.iter().any(|byte| is_special(*byte))
}

/// Appends a byte of a cell.
fn push_byte(out: &mut Vec<u8>, byte: u8) -> Result<(), AllocError>
    ensures { OnOk result (out.new.items ≡ out.old.items ++ escaped byte) }
{
    match byte {
        b'\t' => out.extend_from_slice(b"\\t"),
        b'\n' => out.extend_from_slice(b"\\n"),
        b'\r' => out.extend_from_slice(b"\\r"),
        b'\\' => out.extend_from_slice(b"\\\\"),
        _ => out.extend_from_slice(&[byte]),
    }
}

/// Appends the bytes of a cell one by one.
fn push_bytes(out: &mut Vec<u8>, cell: &[u8]) -> Result<(), AllocError>
    ensures { OnOk result (out.new.items ≡ out.old.items ++ cell_text cell.now) }
{
    for byte in cell {
        push_byte(out, *byte)?;
    }
    Ok(())
}

/// Appends the text of a cell.
#[tactic(auto, using(crate::proofs::rows::TsvCells::plain))]
pub(crate) fn push_cell(out: &mut Vec<u8>, cell: &[u8]) -> Result<(), AllocError>
    ensures { OnOk result (out.new.items ≡ out.old.items ++ cell_text cell.now) }
{
    if has_special(cell) {
        return push_bytes(out, cell);
    }
    out.extend_from_slice(cell)
}
