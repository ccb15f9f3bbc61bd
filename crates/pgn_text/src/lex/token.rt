//! A part of a text, as the reader of a game sees it.

ghost use Rattle.std.specs.Prelude.{◌≡◌};
ghost use Rattle.std.specs.List.{list_all};
ghost use Rattle.pgn_text.specs.Public.Bytes.{begins, is_check_sign, is_digit, is_letter};
ghost use Rattle.pgn_text.specs.Public.Games.{is_zero_castling as is_zero_castling_word};
ghost use Rattle.pgn_text.specs.Public.Games.{is_move_text as is_move_word};
ghost use Rattle.pgn_text.specs.Public.Games.{is_number as is_number_word};
ghost use Rattle.pgn_text.specs.Public.Games.{is_result_word as is_result_text};
ghost use Rattle.pgn_text.specs.Private.Reading.{is_kept_result, kept_word};
ghost use Rattle.pgn_text.specs.Private.Tokens.{token_of};

use crate::lex::class::{ByteClass, is_in};

/// A part of a text, as far as a game keeps it.
#[derive(Clone, Copy)]
pub(crate) enum Token<'a> {
    /// White space, an escape line or a byte order mark.
    Gap,
    /// A comment's bytes.
    Comment(&'a [u8]),
    /// A tag's name and the contents of its string.
    Tag { name: &'a [u8], contents: &'a [u8] },
    /// A move's word.
    Move(&'a [u8]),
    /// A move number.
    Number,
    /// The result that ends a game.
    Result,
    /// A word without a meaning.
    Stray,
    /// A period.
    Dot,
    /// A numeric annotation glyph (NAG).
    Glyph(u8),
    /// A run of `!` and `?`.
    Marks(&'a [u8]),
    /// The begin of a variation.
    Open,
    /// The end of a variation.
    Close,
}

impl<'a> Token<'a> {
    /// Whether the part is the result that ends a game.
    #[inline(always)]
    pub(crate) fn is_result(self) -> bool
        ensures { result ≡ is_kept_result (token_of self.entry) }
    {
        matches!(self, Token::Result)
    }
}

/// Whether all bytes are signs of check or mate.
fn are_check_signs(text: &[u8]) -> bool
    ensures { result ≡ list_all is_check_sign text.now }
{
    text.iter().all(|byte| matches!(*byte, b'+' | b'#'))
}

/// Whether the word is castling written with zeros, and then any number of `+` and `#`.
fn is_zero_castling(word: &[u8]) -> bool
    ensures { result ≡ is_zero_castling_word word.now }
{
    (word.starts_with(b"0-0-0") && are_check_signs(&word[5..]))
        || (word.starts_with(b"0-0") && are_check_signs(&word[3..]))
}

/// Whether the word begins with a letter.
#[inline(always)]
fn begins_with_letter(word: &[u8]) -> bool
    ensures { result ≡ begins is_letter word.now }
{
    word.first().is_some_and(|byte| byte.is_ascii_alphabetic())
}

/// Whether the word is read as a move.
fn is_move_text(word: &[u8]) -> bool
    ensures { result ≡ is_move_word word.now }
{
    begins_with_letter(word) || is_zero_castling(word) || word == b"--".as_slice()
}

/// Whether all bytes are digits.
fn are_digits(text: &[u8]) -> bool
    ensures { result ≡ list_all is_digit text.now }
{
    text.iter().all(|byte| is_in(ByteClass::Digit, *byte))
}

/// Whether the word has digits only.
#[tactic(auto, using(crate::proofs::Runs::is_empty_length))]
fn is_number(word: &[u8]) -> bool
    ensures { result ≡ is_number_word word.now }
{
    !word.is_empty() && are_digits(word)
}

/// Whether the word is a result.
fn is_result_word(word: &[u8]) -> bool
    ensures { result ≡ is_result_text word.now }
{
    word == b"1-0".as_slice() || word == b"0-1".as_slice() || word == b"1/2-1/2".as_slice()
}

/// The token of a word.
#[inline(always)]
pub(crate) fn word_token(word: &[u8]) -> Token<'_>
    ensures { token_of result ≡ kept_word word.now }
{
    if begins_with_letter(word) {
        Token::Move(word)
    } else if is_number(word) {
        Token::Number
    } else if is_move_text(word) {
        Token::Move(word)
    } else if is_result_word(word) {
        Token::Result
    } else {
        Token::Stray
    }
}
