//! Cells of comma-separated values.
ghost use Rattle.std.specs.Prelude.{◌≡◌, ◌++◌, ◌==◌, OnOk, flat_map};
ghost use Rattle.std.specs.List.{list_any};
ghost use Rattle.pgn_extract.specs.Public.Csv.{is_special as is_special_byte, cell_text, doubled};
ghost use Rattle.pgn_extract.specs.Public.Csv.{quoted};

use std::alloc::AllocError;

/// Whether a cell with the byte stands in quotes.
#[inline(always)]
fn is_special(byte: u8) -> bool
    ensures { result ≡ is_special_byte byte }
{
    byte == b',' || byte == b'"' || byte == b'\r' || byte == b'\n'
}

/// Whether a cell stands in quotes.
pub(crate) fn has_special(cell: &[u8]) -> bool
    ensures { result ≡ list_any is_special_byte cell.now }
{
    cell.iter().any(|byte| is_special(*byte))
}

/// Appends a byte of a quoted cell: a quote twice.
fn push_doubled(out: &mut Vec<u8>, byte: u8) -> Result<(), AllocError>
    ensures { OnOk result (out.new.items ≡ out.old.items ++ doubled byte) }
{
    if byte == b'"' {
        out.push(b'"')?;
    }
    out.push(byte)?;
    Ok(())
}

/// Whether a quote stands in a cell.
fn has_quote(cell: &[u8]) -> bool
    ensures { result ≡ list_any (λ b. b == 34) cell.now }
{
    cell.iter().any(|byte| *byte == b'"')
}

/// Appends the bytes of a quoted cell one by one.
fn push_bytes(out: &mut Vec<u8>, cell: &[u8]) -> Result<(), AllocError>
    ensures { OnOk result (out.new.items ≡ out.old.items ++ flat_map doubled cell.now) }
{
    for byte in cell {
        push_doubled(out, *byte)?;
    }
    Ok(())
}

/// Appends what stands between the quotes of a cell. A name as `Tal, M` has a comma and no quote:
/// that is no rare case.
#[tactic(auto, using(crate::proofs::rows::CsvCells::unquoted))]
fn push_contents(out: &mut Vec<u8>, cell: &[u8]) -> Result<(), AllocError>
    ensures { OnOk result (out.new.items ≡ out.old.items ++ flat_map doubled cell.now) }
{
    if has_quote(cell) {
        return push_bytes(out, cell);
    }
    out.extend_from_slice(cell)
}

/// Appends a cell in quotes.
fn push_quoted(out: &mut Vec<u8>, cell: &[u8]) -> Result<(), AllocError>
    ensures { OnOk result (out.new.items ≡ out.old.items ++ quoted cell.now) }
{
    out.push(b'"')?;
    push_contents(out, cell)?;
    out.push(b'"')?;
    Ok(())
}

/// Appends the text of a cell.
pub(crate) fn push_cell(out: &mut Vec<u8>, cell: &[u8]) -> Result<(), AllocError>
    ensures { OnOk result (out.new.items ≡ out.old.items ++ cell_text cell.now) }
{
    if has_special(cell) {
        return push_quoted(out, cell);
    }
    out.extend_from_slice(cell)
}
