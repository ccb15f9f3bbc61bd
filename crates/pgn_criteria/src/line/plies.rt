//! Conditions on numbers of plies.
ghost use Rattle.std.specs.Prelude.{◌≡◌, ◌≤◌, ℕ, length, nat_le, IsTrue, MatchOption};
ghost use Rattle.std.specs.List.{list_all};
ghost use Rattle.chess.specs.Public.Fen.{is_digit, number_from};
ghost use Rattle.pgn_criteria.specs.Public.Lines.{SpellsGame, SpellsSpan, SpellsCompared};
ghost use Rattle.pgn_criteria.specs.Public.Lines.{SpellsDigits, comparison_text};
ghost use Rattle.pgn_criteria.specs.declared.compare.Comparison.{Comparison};
ghost use Rattle.pgn_criteria.specs.declared.condition.GameClaim.TheVariants.{Plies};
ghost use Rattle.pgn_criteria.specs.declared.condition.SpanClaim.TheVariants.{For, Count};

use crate::compare::Comparison;
use crate::words::{after_key, split_first};

/// The most digits of a number of plies.
pub(super) const COUNT_DIGITS: usize = 4;

/// The comparison that is written so.
pub(super) fn comparison_of(text: &[u8]) -> Option<Comparison>
    ensures { MatchOption result ((comparison : Comparison) → text.now ≡ comparison_text comparison
        → ⊥) (λ comparison. text.now ≡ comparison_text comparison) }
{
    match text {
        b"=" => Some(Comparison::Equal),
        b"<>" => Some(Comparison::Unequal),
        b"<" => Some(Comparison::Less),
        b"<=" => Some(Comparison::LessOrEqual),
        b">" => Some(Comparison::Greater),
        b">=" => Some(Comparison::GreaterOrEqual),
        _ => None,
    }
}

/// The number that the text is, if it is so many digits at most, and one or more.
pub(super) fn count_of(text: &[u8], most: usize) -> Option<u32>
    requires { most ≤ 9 }
    ensures { MatchOption result ((count : ℕ) → SpellsDigits most text.now count
        → ⊥) (λ count. SpellsDigits most text.now count) }
{
    if text.is_empty() || text.len() > most {
        return None;
    }
    let mut count = 0u32;
    let mut rest = text;
    while let [digit, after @ ..] = rest {
        if *digit < b'0' || *digit > b'9' {
            return None;
        }
        count = 10 * count + (*digit - b'0') as u32;
        rest = after;
    }
    Some(count)
}

/// The comparison and the number that stand after a key word, if the text is that word with them.
fn compared_of(text: &[u8], key: &[u8]) -> Option<(Comparison, u32)>
    requires { IsTrue (list_all (λ b. nat_le 33 b) key.now) }
    ensures { MatchOption result ((comparison : Comparison) (count : ℕ)
        → SpellsCompared key.now text.now comparison count
        → ⊥) (λ found. SpellsCompared key.now text.now found.0 found.1) }
{
    let rest = after_key(text, key)?;
    let (operator, digits) = split_first(rest);
    let comparison = comparison_of(operator)?;
    let count = count_of(digits, COUNT_DIGITS)?;
    Some((comparison, count))
}

/// The comparison and the number of a claim on the plies, if the text is one.
pub(super) fn plies_of(text: &[u8]) -> Option<(Comparison, u32)>
    ensures { MatchOption result ((comparison : Comparison) (count : ℕ)
        → SpellsGame text.now (Plies comparison count)
        → ⊥) (λ found. SpellsGame text.now (Plies found.0 found.1)) }
{
    compared_of(text, b"plies")
}

/// The comparison and the number of a claim on how many plies the other conditions hold at, if the
/// text is one.
pub(super) fn counted_of(text: &[u8]) -> Option<(Comparison, u32)>
    ensures { MatchOption result ((comparison : Comparison) (count : ℕ)
        → SpellsSpan text.now (Count comparison count)
        → ⊥) (λ found. SpellsSpan text.now (Count found.0 found.1)) }
{
    compared_of(text, b"count")
}

/// The number of a claim that the other conditions hold at so many plies one after the other, if
/// the text is one.
pub(super) fn for_of(text: &[u8]) -> Option<u32>
    ensures { MatchOption result ((count : ℕ) → SpellsSpan text.now (For count)
        → ⊥) (λ count. SpellsSpan text.now (For count)) }
{
    let digits = after_key(text, b"for")?;
    let count = count_of(digits, COUNT_DIGITS)?;
    if count == 0 { None } else { Some(count) }
}
