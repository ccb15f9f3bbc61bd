//! Conditions on the first moves.
ghost use Rattle.std.specs.Prelude.{◌≡◌, ◌↔◌, ◌||◌, ◌==◌, ℕ, List, IsTrue, MatchOption};
ghost use Rattle.std.specs.List.{list_all};
ghost use Rattle.pgn_criteria.specs.Public.Lines.{SpellsGame, SpellsMove, is_move_byte, IsMoveWord};
ghost use Rattle.pgn_criteria.specs.Public.Lines.{IsMoveLike, AreMoveWords};
ghost use Rattle.pgn_criteria.specs.declared.condition.GameClaim.TheVariants.{Moves};
ghost use Rattle.pgn_criteria.specs.declared.condition.MoveClaim.TheVariants.{Next, Played};

use crate::words::{after_blanks, after_key, split_word};

/// Whether the byte may stand in the word of a move.
fn is_move_byte(byte: u8) -> bool
    ensures { result ≡ is_move_byte byte }
{
    byte.is_ascii_alphanumeric() || byte == b'=' || byte == b'-'
}

/// Whether each byte may stand in the word of a move.
fn are_move_bytes(word: &[u8]) -> bool
    ensures { result ≡ list_all is_move_byte word.now }
{
    word.iter().all(|byte| is_move_byte(*byte))
}

/// Whether the word is one for a move: a star, or 2 to 7 letters, digits, `=` and `-`.
pub(super) fn is_move_word(word: &[u8]) -> bool
    ensures { IsTrue result ↔ IsMoveWord word.now }
{
    if word == b"*".as_slice() {
        return true;
    }
    if word.len() < 2 || 7 < word.len() {
        return false;
    }
    are_move_bytes(word)
}

/// Whether the text is one or more words for moves, with blanks between.
fn are_move_words(text: &[u8]) -> bool
    ensures { IsTrue result ↔ AreMoveWords text.now }
{
    let mut rest = text;
    loop {
        let (word, after) = split_word(rest);
        if !is_move_word(word) {
            return false;
        }
        if after.is_empty() {
            return true;
        }
        rest = after_blanks(after);
    }
}

/// The words of a condition on the moves, if the text is one.
pub(super) fn moves_of(text: &[u8]) -> Option<&[u8]>
    ensures { MatchOption result ((words : List ℕ) → SpellsGame text.now (Moves words)
        → ⊥) (λ words. SpellsGame text.now (Moves words.now)) }
{
    let words = after_key(text, b"moves")?;
    if are_move_words(words) {
        Some(words)
    } else {
        None
    }
}

/// Whether the byte may stand in a word for moves that are alike.
fn is_like_byte(byte: u8) -> bool
    ensures { result ≡ is_move_byte byte || byte == 42 }
{
    is_move_byte(byte) || byte == b'*'
}

/// Whether each byte may stand in a word for moves that are alike.
fn are_like_bytes(word: &[u8]) -> bool
    ensures { result ≡ list_all (λ b. is_move_byte b || b == 42) word.now }
{
    word.iter().all(|byte| is_like_byte(*byte))
}

/// Whether the word is one for moves that are alike: 1 to 7 letters, digits, `=`, `-` and stars.
pub(super) fn is_move_like(word: &[u8]) -> bool
    ensures { IsTrue result ↔ IsMoveLike word.now }
{
    if word.is_empty() || 7 < word.len() {
        return false;
    }
    are_like_bytes(word)
}

/// The word of a condition on the move that follows, if the text is one.
pub(super) fn next_of(text: &[u8]) -> Option<&[u8]>
    ensures { MatchOption result ((word : List ℕ) → SpellsMove text.now (Next word)
        → ⊥) (λ word. SpellsMove text.now (Next word.now)) }
{
    let word = after_key(text, b"next")?;
    if is_move_like(word) { Some(word) } else { None }
}

/// The word of a condition on the move that was played, if the text is one.
pub(super) fn played_of(text: &[u8]) -> Option<&[u8]>
    ensures { MatchOption result ((word : List ℕ) → SpellsMove text.now (Played word)
        → ⊥) (λ word. SpellsMove text.now (Played word.now)) }
{
    let word = after_key(text, b"played")?;
    if is_move_like(word) { Some(word) } else { None }
}
