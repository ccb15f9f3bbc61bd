//! Numbers and dates that are compared with a tag's value, byte by byte where not both are digits
//! alone.
use crate::compare::Relation;
use crate::condition::{GameClaim, Stated, ValueClaim};

const ABOVE: &str =
    "tag: ? is above every digit, so unknown values are found; take number or date in place of tag";

const BELOW: &str =
    "tag: - and the empty value are below every digit, so they are found; take number or date in place of tag";

const DOTTED: &str =
    "tag: bytes are compared, so 1985.??.?? is above 1985.12.31, and 10.1 below 9.1; take date in place of tag";

const SEVERAL: &str =
    "tag: ? is above every digit, - and the empty value below; take number or date in place of tag";

/// From which side a condition bounds a value.
#[derive(Clone, Copy, PartialEq, Eq)]
enum Bound {
    /// The value is the text or above it.
    Low,
    /// The value is the text or below it.
    High,
}

/// From which side the relation, or its denial, bounds a value.
fn bound_of(relation: Relation, is_denied: bool) -> Option<Bound> {
    let is_low = match relation {
        Relation::Greater | Relation::GreaterOrEqual => true,
        Relation::Less | Relation::LessOrEqual => false,
        _ => return None,
    };
    if is_low == is_denied {
        Some(Bound::High)
    } else {
        Some(Bound::Low)
    }
}

/// Whether the text is a number or a date: it begins with a digit, and has digits, dots, question
/// marks and dashes alone.
fn is_number_or_date(text: &[u8]) -> bool {
    let [b'0'..=b'9', rest @ ..] = text else {
        return false;
    };
    rest.iter()
        .all(|byte| matches!(*byte, b'0'..=b'9' | b'.' | b'?' | b'-'))
}

/// Whether the text is digits alone.
fn are_digits(text: &[u8]) -> bool {
    text.iter().all(|byte| byte.is_ascii_digit())
}

/// Whether the condition keeps values of the tag out that are unknown on that side of it.
fn is_guard(condition: &Stated<GameClaim<Vec<u8>>>, tag: &[u8], bound: Bound) -> bool {
    let GameClaim::Tag {
        names,
        value: ValueClaim::Text { relation, contents },
    } = &condition.claim
    else {
        return false;
    };
    if names.as_slice() != tag {
        return false;
    }
    match bound_of(*relation, condition.is_denied) {
        Some(own) => own != bound && is_number_or_date(contents),
        None => matches!(*relation, Relation::Equal | Relation::Begins),
    }
}

/// Why a condition of an alternative misleads that compares a tag's value with a number or a date.
pub(super) fn tag_doubt(
    conditions: &[Stated<GameClaim<Vec<u8>>>],
    condition: &Stated<GameClaim<&[u8]>>,
) -> Option<&'static str> {
    let GameClaim::Tag {
        names,
        value: ValueClaim::Text { relation, contents },
    } = &condition.claim
    else {
        return None;
    };
    let bound = bound_of(*relation, condition.is_denied)?;
    if !is_number_or_date(contents) {
        return None;
    }
    if names.contains(&b'|') {
        return Some(SEVERAL);
    }
    if bound == Bound::High && !are_digits(contents) {
        return Some(DOTTED);
    }
    for other in conditions {
        if is_guard(other, names, bound) {
            return None;
        }
    }
    match bound {
        Bound::Low => Some(ABOVE),
        Bound::High => Some(BELOW),
    }
}
