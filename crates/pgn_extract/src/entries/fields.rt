//! What the line of an entry shows after its ply: columns of the ply, each after a blank.
ghost use Rattle.std.specs.Prelude.{◌≡◌, ◌++◌, ℕ, List, true, OnOk, IfErr, IfSome};
ghost use Rattle.pgn_extract.specs.Private.Lines.{Where, HasFault, ShowsFen, ShowsNext};
ghost use Rattle.pgn_extract.specs.Private.Lines.{ShowsFields};

use crate::entries::line::Line;
use crate::output::texts::push_blank;
use crate::rows::column::{PlyColumn, PositionColumn};
use crate::settings::Fields;

/// Appends the text of the position in FEN after a blank, where that is asked for.
fn push_fen<L: Line>(text: &mut Vec<u8>, line: &L, is_asked: bool) -> Result<(), L::Fault>
    requires valid { L.Valid line.now }
    requires shows { is_asked ≡ true → L.Shows (PlyColumn.OfPosition PositionColumn.Fen) }
    ensures shown { OnOk result ((shown : List ℕ)
        × Where (L.At line.now) (ShowsFen is_asked shown)
        × (text.new.items ≡ text.old.items ++ shown)) }
    ensures fault { IfErr result (λ fault. IfSome (L.fault_of fault)
        (λ own. Where (L.At line.now) (HasFault own) × (some : List ℕ)
        × (text.new.items ≡ text.old.items ++ some))) }
{
    if !is_asked {
        return Ok(());
    }
    push_blank(text)?;
    line.push_value(text, PlyColumn::OfPosition(PositionColumn::Fen))
}

/// Appends the text of the next move after a blank, where that is asked for: `-` where there is
/// none. A move that cannot be played is answered as a fault.
fn push_next<L: Line>(text: &mut Vec<u8>, line: &L, is_asked: bool) -> Result<(), L::Fault>
    requires valid { L.Valid line.now }
    requires shows { is_asked ≡ true → L.Shows PlyColumn.Next }
    ensures shown { OnOk result ((shown : List ℕ)
        × Where (L.At line.now) (ShowsNext is_asked shown)
        × (text.new.items ≡ text.old.items ++ shown)) }
    ensures fault { IfErr result (λ fault. IfSome (L.fault_of fault)
        (λ own. Where (L.At line.now) (HasFault own) × (some : List ℕ)
        × (text.new.items ≡ text.old.items ++ some))) }
{
    if !is_asked {
        return Ok(());
    }
    push_blank(text)?;
    let from = text.len();
    line.push_value(text, PlyColumn::Next)?;
    if text.len() != from {
        return Ok(());
    }
    text.extend_from_slice(b"-")?;
    Ok(())
}

/// Appends what is shown after the ply where the line stands. A next move that cannot be played is
/// answered as a fault.
#[inline(always)]
pub(crate) fn push_fields<L: Line>(
    text: &mut Vec<u8>,
    line: &L,
    fields: Fields,
) -> Result<(), L::Fault>
    requires valid { L.Valid line.now }
    requires fen { fields.fen ≡ true → L.Shows (PlyColumn.OfPosition PositionColumn.Fen) }
    requires next { fields.next ≡ true → L.Shows PlyColumn.Next }
    ensures shown { OnOk result ((shown : List ℕ)
        × Where (L.At line.now) (ShowsFields fields shown)
        × (text.new.items ≡ text.old.items ++ shown)) }
    ensures fault { IfErr result (λ fault. IfSome (L.fault_of fault)
        (λ own. Where (L.At line.now) (HasFault own) × (some : List ℕ)
        × (text.new.items ≡ text.old.items ++ some))) }
{
    push_fen(text, line, fields.fen)?;
    push_next(text, line, fields.next)
}
