//! The days that a condition on a date names.
ghost use Rattle.std.specs.Prelude.{◌≤◌, ℕ, MatchOption};
ghost use Rattle.chess.specs.Public.Fen.{parted_at};
ghost use Rattle.pgn_criteria.specs.Public.Lines.{SpellsField, SpellsOne, SpellsDays};
ghost use Rattle.pgn_criteria.specs.declared.dates.Days.{Days};

use super::plies::count_of;
use crate::cut::next_part;
use crate::dates::Days;

/// The number that the text is, if it is so many digits.
fn field_of(text: &[u8], size: usize) -> Option<u32>
    requires { size ≤ 9 }
    ensures { MatchOption result ((number : ℕ) → SpellsField size text.now number → ⊥)
        (λ number. SpellsField size text.now number) }
{
    if text.len() != size {
        return None;
    }
    count_of(text, size)
}

/// The number from 1 to this one that the text is, if it is two digits.
fn one_of(text: &[u8], most: u32) -> Option<u32>
    ensures { MatchOption result ((first last : ℕ) → SpellsOne most text.now first last → ⊥)
        (λ own. SpellsOne most text.now own own) }
{
    let own = field_of(text, 2)?;
    if own < 1 || most < own {
        return None;
    }
    Some(own)
}

/// The days of a year, of a month or one day, if the text is one of these.
pub(super) fn days_of(text: &[u8]) -> Option<Days>
    ensures { MatchOption result ((days : Days) → SpellsDays (parted_at 46 text.now) days → ⊥)
        (λ days. SpellsDays (parted_at 46 text.now) days) }
{
    let (first, rest) = next_part(b'.', text);
    let year = field_of(first, 4)?;
    let mut days = Days {
        year,
        first_month: 1,
        last_month: 12,
        first_day: 1,
        last_day: 31,
    };
    let Some(rest) = rest else {
        return Some(days);
    };
    let (second, rest) = next_part(b'.', rest);
    let month = one_of(second, 12)?;
    days.first_month = month;
    days.last_month = month;
    let Some(rest) = rest else {
        return Some(days);
    };
    let (third, rest) = next_part(b'.', rest);
    let day = one_of(third, 31)?;
    days.first_day = day;
    days.last_day = day;
    match rest {
        Some(_) => None,
        None => Some(days),
    }
}
