//! Conditions on a tag.
ghost use Rattle.std.specs.Prelude.{◌≡◌, ◌≢◌, ◌↔◌, ◌∷◌, ◌++◌, [], ℕ, List, IsTrue, MatchOption};
ghost use Rattle.std.specs.List.{list_all};
ghost use Rattle.chess.specs.Public.Fen.{parted_at};
ghost use Rattle.pgn_text.specs.Public.Bytes.{is_name_byte};
ghost use Rattle.pgn_text.specs.Public.Strings.{IsContents};
ghost use Rattle.pgn_criteria.specs.Public.Lines.{SpellsGame, SpellsTag, IsName, AreNames};
ghost use Rattle.pgn_criteria.specs.Public.Lines.{CanBeCompared, relation_text};
ghost use Rattle.pgn_criteria.specs.Private.Reading.{ReadsNamed};
ghost use Rattle.pgn_criteria.specs.Private.Stages.{game_seen};
ghost use Rattle.pgn_criteria.specs.declared.compare.Comparison.{Comparison};
ghost use Rattle.pgn_criteria.specs.declared.compare.Relation.{Relation};
ghost use Rattle.pgn_criteria.specs.declared.condition.ValueClaim.TheVariants.{Text, Number, Date};
ghost use Rattle.pgn_criteria.specs.declared.dates.Days.{Days};

use super::days::days_of;
use super::plies::{comparison_of, count_of};
use crate::compare::Relation;
use crate::condition::{GameClaim, ValueClaim};
use crate::cut::next_part;
use crate::words::{after_key, split_first};
use pgn_text::is_contents;

/// The relation that is written so.
pub(super) fn relation_of(text: &[u8]) -> Option<Relation>
    ensures { MatchOption result ((relation : Relation) → text.now ≡ relation_text relation
        → ⊥) (λ relation. text.now ≡ relation_text relation) }
{
    match text {
        b"=" => Some(Relation::Equal),
        b"<>" => Some(Relation::Unequal),
        b"<" => Some(Relation::Less),
        b"<=" => Some(Relation::LessOrEqual),
        b">" => Some(Relation::Greater),
        b">=" => Some(Relation::GreaterOrEqual),
        b"has" => Some(Relation::Has),
        b"begins" => Some(Relation::Begins),
        _ => None,
    }
}

/// Whether the byte may stand in a tag's name.
fn is_name_byte(byte: u8) -> bool
    ensures { result ≡ is_name_byte byte }
{
    byte.is_ascii_alphanumeric() || byte == b'_'
}

/// Whether each byte may stand in a tag's name.
fn are_name_bytes(text: &[u8]) -> bool
    ensures { result ≡ list_all is_name_byte text.now }
{
    text.iter().all(|byte| is_name_byte(*byte))
}

/// Whether the text is a tag's name.
fn is_name(text: &[u8]) -> bool
    ensures { IsTrue result ↔ IsName text.now }
{
    !text.is_empty() && are_name_bytes(text)
}

/// Whether the text is names of tags, with `|` between.
pub(super) fn are_names(text: &[u8]) -> bool
    ensures { IsTrue result ↔ AreNames (parted_at 124 text.now) }
{
    let mut rest = text;
    loop {
        let (name, after) = next_part(b'|', rest);
        if !is_name(name) {
            return false;
        }
        let Some(after) = after else {
            return true;
        };
        rest = after;
    }
}

/// What stands between the quotes of a string, if the text is one.
pub(super) fn contents_of(text: &[u8]) -> Option<&[u8]>
    ensures { MatchOption result ((contents : List ℕ) → text.now ≡ 34 ∷ (contents ++ 34 ∷ [])
        → IsContents contents → ⊥) (λ contents. (text.now ≡ 34 ∷ (contents.now ++ 34 ∷ []))
        × IsContents contents.now) }
{
    match text {
        [b'"', contents @ .., b'"'] if is_contents(contents) => Some(contents),
        _ => None,
    }
}

/// The most digits of a number that values are compared with.
pub(super) const NUMBER_DIGITS: usize = 9;

/// The most bytes of a text that values are to contain: as many as a string of a game has (PGN 7).
/// Looking for it stays linear in the value.
const MOST_CONTAINED: usize = 255;

/// Whether values can be compared with these contents by the relation.
pub(super) fn can_be_compared(relation: Relation, contents: &[u8]) -> bool
    ensures { IsTrue result ↔ CanBeCompared relation contents.now }
{
    relation != Relation::Has || contents.len() <= MOST_CONTAINED
}

/// The names, the operator and what follows it, after a key word, if the text is that word with
/// them.
fn named_of<'a>(text: &'a [u8], key: &[u8]) -> Option<(&'a [u8], &'a [u8], &'a [u8])>
    ensures { MatchOption result ((names operator own : List ℕ)
        → ReadsNamed key.now text.now names operator own → ⊥)
        (λ found. ReadsNamed key.now text.now found.0.now found.1.now found.2.now) }
{
    let rest = after_key(text, key)?;
    let (names, rest) = split_first(rest);
    if !are_names(names) {
        return None;
    }
    let (operator, own) = split_first(rest);
    Some((names, operator, own))
}

/// The claim on the number of a tag that the text spells, if it is one.
pub(super) fn number_of(text: &[u8]) -> Option<GameClaim<&[u8]>>
    ensures { MatchOption result ((names : List ℕ) (comparison : Comparison) (number : ℕ)
        → SpellsTag text.now names (Number comparison number) → ⊥)
        (λ found. SpellsGame text.now (game_seen (λ bytes. bytes.now) found)) }
{
    let (names, operator, digits) = named_of(text, b"number")?;
    let comparison = comparison_of(operator)?;
    let number = count_of(digits, NUMBER_DIGITS)?;
    let value = ValueClaim::Number { comparison, number };
    Some(GameClaim::Tag { names, value })
}

/// The claim on the date of a tag that the text spells, if it is one.
pub(super) fn date_of(text: &[u8]) -> Option<GameClaim<&[u8]>>
    ensures { MatchOption result ((names : List ℕ) (comparison : Comparison) (days : Days)
        → SpellsTag text.now names (Date comparison days) → ⊥)
        (λ found. SpellsGame text.now (game_seen (λ bytes. bytes.now) found)) }
{
    let (names, operator, date) = named_of(text, b"date")?;
    let comparison = comparison_of(operator)?;
    let days = days_of(date)?;
    let value = ValueClaim::Date { comparison, days };
    Some(GameClaim::Tag { names, value })
}

/// The claim on the text of a tag that the text spells, if it is one.
pub(super) fn tag_of(text: &[u8]) -> Option<GameClaim<&[u8]>>
    ensures { MatchOption result ((names contents : List ℕ) (relation : Relation)
        → SpellsTag text.now names (Text relation contents)
        → ⊥) (λ found. SpellsGame text.now (game_seen (λ bytes. bytes.now) found)) }
{
    let (names, operator, string) = named_of(text, b"tag")?;
    let relation = relation_of(operator)?;
    let contents = contents_of(string)?;
    if !can_be_compared(relation, contents) {
        return None;
    }
    let value = ValueClaim::Text { relation, contents };
    Some(GameClaim::Tag { names, value })
}
