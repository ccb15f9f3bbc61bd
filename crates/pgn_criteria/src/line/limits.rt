//! Conditions on the material.
ghost use Rattle.std.specs.Prelude.{◌≡◌, ◌↔◌, ◌≤◌, ◌<◌, length, IsTrue};
ghost use Rattle.std.specs.Prelude.{MatchOption, Option};
ghost use Rattle.chess.specs.Public.Fen.{has_byte};
ghost use Rattle.chess.specs.Public.Letters.{kind_letter};
ghost use Rattle.chess.specs.declared.board.man.Kind.{Kind};
ghost use Rattle.pgn_criteria.specs.Public.Lines.{SpellsPosition, SpellsLimits};
ghost use Rattle.pgn_criteria.specs.Private.Reading.{AreEntries, digit_limit, first_limit};
ghost use Rattle.pgn_criteria.specs.Private.Reading.{limit_after};
ghost use Rattle.pgn_criteria.specs.declared.material.Limits.{Limits};
ghost use Rattle.pgn_criteria.specs.declared.condition.PositionClaim.TheVariants.{Material};

use crate::material::{Limit, Limits};
use crate::words::{after_key, split_first};
use chess::{Kind, kind_letter};

/// The limit of that number that begins the text, and what follows it.
fn digit_limit(number: u8, text: &[u8]) -> (Limit, &[u8])
    ensures limit { result.0 ≡ (digit_limit number text.now).0 }
    ensures rest { result.1.now ≡ (digit_limit number text.now).1 }
    ensures shorter { length result.1.now ≤ length text.now }
{
    match text {
        [b'+', rest @ ..] => (Limit::AtLeast(number), rest),
        [b'-', rest @ ..] => (Limit::AtMost(number), rest),
        _ => (Limit::Exactly(number), text),
    }
}

/// The limit that begins the text after the letter of a kind, and what follows it.
fn first_limit(text: &[u8]) -> (Limit, &[u8])
    ensures limit { result.0 ≡ (first_limit text.now).0 }
    ensures rest { result.1.now ≡ (first_limit text.now).1 }
    ensures shorter { length result.1.now ≤ length text.now }
{
    match text {
        [b'*', rest @ ..] => (Limit::AnyNumber, rest),
        [digit @ b'0'..=b'9', rest @ ..] => digit_limit(*digit - b'0', rest),
        _ => (Limit::Exactly(1), text),
    }
}

/// The kind of man with that letter.
fn kind_of(letter: u8) -> Option<Kind>
    ensures { MatchOption result ((kind : Kind) → letter ≡ kind_letter kind
        → ⊥) (λ kind. letter ≡ kind_letter kind) }
{
    match letter {
        b'K' => Some(Kind::King),
        b'Q' => Some(Kind::Queen),
        b'R' => Some(Kind::Rook),
        b'B' => Some(Kind::Bishop),
        b'N' => Some(Kind::Knight),
        b'P' => Some(Kind::Pawn),
        _ => None,
    }
}

/// Whether the byte stands in the text.
fn has_byte(byte: u8, text: &[u8]) -> bool
    ensures { result ≡ has_byte byte text.now }
{
    text.contains(&byte)
}

/// Whether the text is letters of kinds with their limits, no letter twice, or empty.
fn are_entries(text: &[u8]) -> bool
    ensures { IsTrue result ↔ AreEntries text.now }
{
    let mut rest = text;
    while let [letter, after @ ..] = rest {
        let Some(_) = kind_of(*letter) else {
            return false;
        };
        let (_, more) = first_limit(after);
        if has_byte(*letter, more) {
            return false;
        }
        rest = more;
    }
    true
}

/// The limit that the entries of a text give to the kind.
fn limit_in(text: &[u8], kind: Kind) -> Limit
    ensures { result ≡ limit_after (kind_letter kind) text.now }
{
    let letter = kind_letter(kind);
    let mut rest = text;
    while let [first, after @ ..] = rest {
        if *first == letter {
            return first_limit(after).0;
        }
        rest = after;
    }
    Limit::Exactly(0)
}

/// The limits that the text spells, if it does.
pub(super) fn limits_of(text: &[u8]) -> Option<Limits>
    ensures { MatchOption result ((limits : Limits) → SpellsLimits text.now limits
        → ⊥) (λ limits. SpellsLimits text.now limits) }
{
    if text.is_empty() {
        return None;
    }
    if !are_entries(text) {
        return None;
    }
    Some(Limits {
        king: limit_in(text, Kind::King),
        queen: limit_in(text, Kind::Queen),
        rook: limit_in(text, Kind::Rook),
        bishop: limit_in(text, Kind::Bishop),
        knight: limit_in(text, Kind::Knight),
        pawn: limit_in(text, Kind::Pawn),
    })
}

/// The limits for White and for Black of a condition on the material, if the text is one.
pub(super) fn material_of(text: &[u8]) -> Option<(Limits, Limits)>
    ensures { MatchOption result ((white black : Limits)
        → SpellsPosition text.now (Material white black)
        → ⊥) (λ found. SpellsPosition text.now (Material found.0 found.1)) }
{
    let rest = after_key(text, b"material")?;
    let (white, rest) = split_first(rest);
    let black = after_key(rest, b"v")?;
    let white = limits_of(white)?;
    let black = limits_of(black)?;
    Some((white, black))
}
