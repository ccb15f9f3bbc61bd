//! Conditions on the fields of a FEN.
ghost use Rattle.std.specs.Prelude.{◌↔◌, IsTrue, MatchOption};
ghost use Rattle.pgn_criteria.specs.Public.Lines.{SpellsMove, IsTrimmed};
ghost use Rattle.pgn_criteria.specs.declared.setup.Setup as declared;
ghost use Rattle.pgn_criteria.specs.declared.condition.MoveClaim.TheVariants as claim;

use crate::setup::Setup;
use crate::words::after_key;
use chess::Position;

/// Whether the text begins and ends with bytes above the space.
fn is_trimmed(text: &[u8]) -> bool
    ensures { IsTrue result ↔ IsTrimmed text.now }
{
    let [first, ..] = text else {
        return false;
    };
    let [.., last] = text else {
        return false;
    };
    *first > b' ' && *last > b' '
}

/// The position of a condition on fields of a FEN, if the text is one.
pub(super) fn setup_of(text: &[u8]) -> Option<Setup>
    ensures { MatchOption result ((setup : declared.Setup)
        → SpellsMove text.now (claim.Setup setup) → ⊥)
        (λ setup. SpellsMove text.now (claim.Setup setup)) }
{
    let own = after_key(text, b"position")?;
    if !is_trimmed(own) {
        return None;
    }
    let (position, given) = Position::from_first_fields(own)?;
    Some(Setup { position, given })
}
