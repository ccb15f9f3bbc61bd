//! Conditions on the result.
ghost use Rattle.std.specs.Prelude.{◌↔◌, ℕ, List, IsTrue, MatchOption};
ghost use Rattle.pgn_text.specs.Public.GameTexts.{IsResult};
ghost use Rattle.pgn_criteria.specs.Public.Lines.{SpellsGame};
ghost use Rattle.pgn_criteria.specs.declared.condition.GameClaim.TheVariants.{Result};

use crate::words::after_key;

/// Whether the text is a result of a game.
pub(super) fn is_result(text: &[u8]) -> bool
    ensures { IsTrue result ↔ IsResult text.now }
{
    text == b"1-0".as_slice()
        || text == b"0-1".as_slice()
        || text == b"1/2-1/2".as_slice()
        || text == b"*".as_slice()
}

/// The result of a claim on the result, if the text is one.
pub(super) fn result_of(text: &[u8]) -> Option<&[u8]>
    ensures { MatchOption result ((own : List ℕ) → SpellsGame text.now (Result own)
        → ⊥) (λ own. SpellsGame text.now (Result own.now)) }
{
    let own = after_key(text, b"result")?;
    if is_result(own) { Some(own) } else { None }
}
