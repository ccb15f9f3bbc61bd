//! Why a line is refused: where it stops being of the language, and what is expected there.
ghost use Rattle.std.specs.Prelude.{◌≤◌};

use super::days::days_of;
use super::limits::limits_of;
use super::move_words::{is_move_like, is_move_word};
use super::plies::{COUNT_DIGITS, comparison_of, count_of};
use super::result::is_result;
use super::tag::{NUMBER_DIGITS, are_names, contents_of, relation_of};
use super::{core_of, side_of};
use crate::cut::next_part;
use crate::rank::next_item;
use crate::words::{after_blanks, split_first, split_word};
use pgn_game::GamePosition;

/// Where a line stops being of the language, and what is expected there.
#[derive(Clone, Copy, Debug, PartialEq, Eq)]
pub struct Complaint {
    /// The place, in bytes from the line's beginning; at its end where something is missing there.
    pub at: usize,
    /// What is expected there.
    pub expected: &'static str,
}

/// What is expected where so many bytes of the text are left.
#[derive(Clone, Copy)]
struct Stop {
    left: usize,
    expected: &'static str,
}

impl Stop {
    /// Before the rest of the text.
    fn before(rest: &[u8], expected: &'static str) -> Self {
        Stop {
            left: rest.len(),
            expected,
        }
    }
}

const ITEM: &str = "fen: an item, one of KQRBNPkqrbnp12345678?!Aa* or a set such as [Qq]";

const SET: &str = "fen: a set of men between brackets, such as [Qq] or [^Pp]";

const FEWER_RANKS: &str = "fen: eight ranks, with / between them";

const MORE_RANKS: &str = "fen: no more than eight ranks";

const MOVE: &str = "moves: a move without its check mark, such as Nf3, or *";

const MEN: &str = "material: letters of KQRBNP, each once, with a count such as P2, P2+, P2- or P*";

const VERSUS: &str = "material: v between White's men and Black's";

const NAME: &str = "tag: a name of letters, digits and _, or several with | between";

const OPERATOR: &str = "tag: an operator, one of = <> < <= > >= has begins";

const CONTENTS: &str = "tag: a text between double quotes";

const CONTAINED: &str = "tag: a text of at most 255 bytes after has";

const NUMBER_NAME: &str = "number: a name of letters, digits and _, or several with | between";

const NUMBER_COMPARISON: &str = "number: a comparison, one of = <> < <= > >=";

const NUMBER: &str = "number: a number of one to nine digits";

const DATE_NAME: &str = "date: a name of letters, digits and _, or several with | between";

const DATE_COMPARISON: &str = "date: a comparison, one of = <> < <= > >=";

const DATE: &str = "date: a year, a month or a day, such as 1985, 1985.06 or 1985.06.30";

const COMPARISON: &str = "plies: a comparison, one of = <> < <= > >=";

const COUNT: &str = "plies: a number of one to four digits";

const COUNT_COMPARISON: &str = "count: a comparison, one of = <> < <= > >=";

const COUNT_PLIES: &str = "count: a number of one to four digits";

const RUN: &str = "for: a number of plies, one to four digits and not 0";

const RESULT: &str = "result: 1-0, 0-1, 1/2-1/2 or *";

const NEXT: &str =
    "next: a move without its check mark, such as Nf3, in which * stands for any bytes; at most 7 bytes";

const PLAYED: &str =
    "played: a move without its check mark, such as Nf3, in which * stands for any bytes; at most 7 bytes";

const SETUP: &str =
    "position: a FEN or its first fields, with one king a side, no pawn on rank 1 or 8, and the side that has moved not in check";

const SIDE: &str = "turn: white or black";

const NOTHING: &str = "nothing after this word";

const END: &str = "nothing after this";

const COMMENT: &str = "nothing after this; a comment stands on a line of its own";

const FEN_WHITE: &str =
    "nothing after the men; position takes a whole FEN, and turn white stands on a line of its own";

const FEN_BLACK: &str =
    "nothing after the men; position takes a whole FEN, and turn black stands on a line of its own";

const MOVE_ALONE: &str = "nothing after the move; turn and or stand on lines of their own";

const RESULT_ALONE: &str = "nothing after the result; or stands on a line of its own";

const BLANK: &str = "a blank before this";

const CONDITION: &str =
    "a condition, which begins with fen, flip, position, material, moves, next, played, plies, result, tag, number, date, turn, check, mate, stalemate, for or count, or the words not, either and or";

const DENIED: &str = "a condition after not, and no second not";

const NOT_DENIED: &str = "not: a condition, but neither for nor count";

const FLIPPED: &str = "flip: fen and a pattern";

const TURNED: &str = "either: fen, flip fen, material or turn, with or without not before it";

const OTHER_WAY: &str = "not: a condition; either stands in front of not";

/// The words that a condition begins with, or that stand before one.
#[derive(Clone, Copy)]
enum Key {
    Fen,
    Tag,
    Number,
    Date,
    Turn,
    Moves,
    Plies,
    Result,
    Next,
    Played,
    Setup,
    Material,
    Check,
    Mate,
    Stalemate,
    For,
    Count,
    Or,
    Not,
    Flip,
    Either,
}

/// The key words, each with the question whether it was meant.
const KEYS: [(&[u8], Key, &str); 21] = [
    (b"fen", Key::Fen, "did you mean fen?"),
    (b"tag", Key::Tag, "did you mean tag?"),
    (b"number", Key::Number, "did you mean number?"),
    (b"turn", Key::Turn, "did you mean turn?"),
    (b"moves", Key::Moves, "did you mean moves?"),
    (b"plies", Key::Plies, "did you mean plies?"),
    (b"result", Key::Result, "did you mean result?"),
    (b"next", Key::Next, "did you mean next?"),
    (b"played", Key::Played, "did you mean played?"),
    (b"position", Key::Setup, "did you mean position?"),
    (b"material", Key::Material, "did you mean material?"),
    (b"check", Key::Check, "did you mean check?"),
    (b"mate", Key::Mate, "did you mean mate?"),
    (b"date", Key::Date, "did you mean date?"),
    (b"stalemate", Key::Stalemate, "did you mean stalemate?"),
    (b"for", Key::For, "did you mean for?"),
    (b"count", Key::Count, "did you mean count?"),
    (b"or", Key::Or, "did you mean or?"),
    (b"not", Key::Not, "did you mean not?"),
    (b"flip", Key::Flip, "did you mean flip?"),
    (b"either", Key::Either, "did you mean either?"),
];

/// The key word that a word is.
fn key_of(word: &[u8]) -> Option<Key> {
    for &(text, key, _) in &KEYS {
        if text == word {
            return Some(key);
        }
    }
    None
}

/// Two words without the bytes that both begin with.
fn after_common<'a>(one: &'a [u8], other: &'a [u8]) -> (&'a [u8], &'a [u8]) {
    let mut left = one;
    let mut right = other;
    while let [first, more @ ..] = left
        && let [same, rest @ ..] = right
        && first == same
    {
        left = more;
        right = rest;
    }
    (left, right)
}

/// Two words without the bytes that both end with.
fn before_common<'a>(one: &'a [u8], other: &'a [u8]) -> (&'a [u8], &'a [u8]) {
    let mut left = one;
    let mut right = other;
    while let [more @ .., last] = left
        && let [rest @ .., same] = right
        && last == same
    {
        left = more;
        right = rest;
    }
    (left, right)
}

/// Whether one word is the other but for one byte that is wrong, missing or too much, or two that
/// are exchanged.
fn is_near(word: &[u8], key: &[u8]) -> bool {
    let (word, key) = after_common(word, key);
    let (word, key) = before_common(word, key);
    match (word, key) {
        ([] | [_], [] | [_]) => true,
        ([a, b], [c, d]) => a == d && b == c,
        _ => false,
    }
}

/// What stands right after a key word that a text begins with, if it is a digit or a comparison: a
/// blank is missing.
fn glued_to_key(text: &[u8]) -> Option<&[u8]> {
    for &(key, _, _) in &KEYS {
        let (rest, missing) = after_common(text, key);
        if missing.is_empty() && (has_digit(rest) || after_signs(rest).len() < rest.len()) {
            return Some(rest);
        }
    }
    None
}

/// What is expected in place of a word that is no key word.
fn expected_for(word: &[u8]) -> &'static str {
    for &(key, _, question) in &KEYS {
        if is_near(word, key) {
            return question;
        }
    }
    CONDITION
}

/// The bytes of the rank that are left where it has no item, if there is such a place.
fn rank_stop(rank: &[u8]) -> Option<usize> {
    if rank.is_empty() {
        return Some(0);
    }
    let mut rest = rank;
    while !rest.is_empty() {
        let Some((_, after)) = next_item(rest) else {
            return Some(rest.len());
        };
        rest = after;
    }
    None
}

/// What is expected where a right line goes on: a comment is the likeliest slip.
fn end_stop(rest: &[u8], expected: &'static str) -> Stop {
    match rest {
        [b'#', ..] => Stop::before(rest, COMMENT),
        _ => Stop::before(rest, expected),
    }
}

/// Where a pattern that is refused stops.
fn pattern_stop(pattern: &[u8]) -> Stop {
    let mut rest = pattern;
    for ranks in 0u8..8 {
        let (rank, after) = next_part(b'/', rest);
        if let Some(left) = rank_stop(rank) {
            let before = rank.len().saturating_sub(left);
            let rest = &rest[before.min(rest.len())..];
            return if ranks == 7 && before > 0 {
                men_end_stop(rest)
            } else {
                item_stop(rest)
            };
        }
        let Some(after) = after else {
            return Stop::before(b"".as_slice(), FEWER_RANKS);
        };
        rest = after;
    }
    Stop::before(rest, MORE_RANKS)
}

/// Where no item is after men that may be whole: what follows them is often the rest of a FEN.
fn men_end_stop(rest: &[u8]) -> Stop {
    let after = after_blanks(rest);
    match after {
        _ if after.len() == rest.len() => item_stop(rest),
        [b'w'] | [b'w', b' ', ..] => Stop::before(after, FEN_WHITE),
        [b'b'] | [b'b', b' ', ..] => Stop::before(after, FEN_BLACK),
        _ => end_stop(after, END),
    }
}

/// Where no item is.
fn item_stop(rest: &[u8]) -> Stop {
    match rest {
        [b'[', ..] => Stop::before(rest, SET),
        _ => Stop::before(rest, ITEM),
    }
}

/// Where words that are refused stop being moves.
fn moves_stop(words: &[u8]) -> Stop {
    let mut rest = words;
    for _ in 0..words.len() {
        let (word, after) = split_word(rest);
        if !is_move_word(word) {
            return end_stop(rest, MOVE);
        }
        rest = after_blanks(after);
    }
    Stop::before(rest, MOVE)
}

/// Where limits that are refused stop.
fn material_stop(text: &[u8]) -> Stop {
    let (white, rest) = split_first(text);
    if limits_of(white).is_none() {
        return Stop::before(text, MEN);
    }
    let (word, black) = split_first(rest);
    if word != b"v".as_slice() {
        return Stop::before(rest, VERSUS);
    }
    let (men, more) = split_first(black);
    if limits_of(men).is_some() {
        return end_stop(more, END);
    }
    Stop::before(black, MEN)
}

/// Where a condition on a tag that is refused stops.
fn tag_stop(text: &[u8]) -> Stop {
    let (names, rest) = split_first(text);
    if !are_names(names) {
        return Stop::before(text, NAME);
    }
    let (operator, string) = split_first(rest);
    if relation_of(operator).is_none() {
        return Stop::before(rest, OPERATOR);
    }
    if contents_of(string).is_some() {
        return Stop::before(string, CONTAINED);
    }
    let quoted = up_to_quote(string);
    if contents_of(quoted).is_some() {
        let rest = &string[quoted.len().min(string.len())..];
        return end_stop(after_blanks(rest), END);
    }
    Stop::before(string, CONTENTS)
}

/// A text up to its last double quote.
fn up_to_quote(text: &[u8]) -> &[u8] {
    let mut kept = text;
    while let [before @ .., last] = kept
        && *last != b'"'
    {
        kept = before;
    }
    kept
}

/// A text without the signs of comparisons that it begins with.
fn after_signs(text: &[u8]) -> &[u8] {
    let mut rest = text;
    while let [b'<' | b'=' | b'>', more @ ..] = rest {
        rest = more;
    }
    rest
}

/// Whether a text begins with a digit.
fn has_digit(text: &[u8]) -> bool {
    matches!(text, [b'0'..=b'9', ..])
}

/// Where a number that is refused stops, with the most digits that it may have and what is expected
/// in its place.
fn count_stop(text: &[u8], most: usize, expected: &'static str) -> Stop
    requires { most ≤ 9 }
{
    let (digits, more) = split_first(text);
    if count_of(digits, most).is_some() && !more.is_empty() {
        return end_stop(more, NOTHING);
    }
    Stop::before(text, expected)
}

/// Where a comparison with a number that is refused stops, with what is expected in place of
/// either.
fn compared_stop(text: &[u8], most: usize, comparison: &'static str, count: &'static str) -> Stop
    requires { most ≤ 9 }
{
    let (operator, digits) = split_first(text);
    if comparison_of(operator).is_some() {
        return count_stop(digits, most, count);
    }
    sign_stop(text, comparison)
}

/// Where no comparison is, with what is expected in its place.
fn sign_stop(text: &[u8], comparison: &'static str) -> Stop {
    let rest = after_signs(text);
    if rest.len() < text.len() && has_digit(rest) {
        return Stop::before(rest, BLANK);
    }
    Stop::before(text, comparison)
}

/// Where a condition on the number of a tag that is refused stops.
fn number_stop(text: &[u8]) -> Stop {
    let (names, rest) = split_first(text);
    if !are_names(names) {
        return Stop::before(text, NUMBER_NAME);
    }
    compared_stop(rest, NUMBER_DIGITS, NUMBER_COMPARISON, NUMBER)
}

/// Where a condition on the date of a tag that is refused stops.
fn date_stop(text: &[u8]) -> Stop {
    let (names, rest) = split_first(text);
    if !are_names(names) {
        return Stop::before(text, DATE_NAME);
    }
    let (operator, own) = split_first(rest);
    if comparison_of(operator).is_none() {
        return sign_stop(rest, DATE_COMPARISON);
    }
    let (date, more) = split_first(own);
    if days_of(date).is_some() && !more.is_empty() {
        return end_stop(more, NOTHING);
    }
    Stop::before(own, DATE)
}

/// Where a condition on the result that is refused stops.
fn result_stop(text: &[u8]) -> Stop {
    let (result, more) = split_first(text);
    if !is_result(result) {
        return Stop::before(text, RESULT);
    }
    end_stop(more, RESULT_ALONE)
}

/// Where a condition on one move that is refused stops, with what is expected in place of its word.
fn like_stop(text: &[u8], expected: &'static str) -> Stop {
    let (word, more) = split_first(text);
    if !is_move_like(word) {
        return Stop::before(text, expected);
    }
    end_stop(more, MOVE_ALONE)
}

/// Where a FEN that is refused stops: after the fields that give a position by themselves.
fn setup_stop(text: &[u8]) -> Stop {
    let mut left = text;
    let mut rest = text;
    for _ in 0..6 {
        rest = split_first(rest).1;
        let fields = &text[..text.len().saturating_sub(rest.len())];
        if GamePosition::from_first_fields(fields).is_some() {
            left = rest;
        }
    }
    end_stop(left, SETUP)
}

/// Where a condition on who is to move that is refused stops.
fn turn_stop(text: &[u8]) -> Stop {
    let (side, more) = split_first(text);
    if side_of(side).is_none() {
        return Stop::before(text, SIDE);
    }
    end_stop(more, END)
}

/// Where a text that is no condition stops being one.
fn condition_stop(text: &[u8]) -> Stop {
    let (word, rest) = split_first(text);
    match key_of(word) {
        Some(Key::Not) => denied_stop(rest),
        Some(Key::Either) => either_stop(rest),
        Some(Key::Or) => end_stop(rest, NOTHING),
        _ => claim_stop(text),
    }
}

/// Where a text that is no condition to be tried at the mirror stops being one.
fn either_stop(text: &[u8]) -> Stop {
    let (word, rest) = split_first(text);
    match key_of(word) {
        Some(Key::Not) => mirrored_stop(rest),
        _ => mirrored_stop(text),
    }
}

/// Where a text that is no claim to be made of the mirror stops being one.
fn mirrored_stop(text: &[u8]) -> Stop {
    let (word, _) = split_first(text);
    match key_of(word) {
        Some(Key::Fen | Key::Flip | Key::Material | Key::Turn) => claim_stop(text),
        _ => Stop::before(text, TURNED),
    }
}

/// Where a text that is no flipped pattern stops being one.
fn flip_stop(text: &[u8]) -> Stop {
    let (word, pattern) = split_first(text);
    match key_of(word) {
        Some(Key::Fen) => pattern_stop(pattern),
        _ => Stop::before(text, FLIPPED),
    }
}

/// Where a text that is no condition to be denied stops being one.
fn denied_stop(text: &[u8]) -> Stop {
    let (word, _) = split_first(text);
    if word.is_empty() {
        return Stop::before(text, DENIED);
    }
    match key_of(word) {
        Some(Key::Or | Key::Not) => Stop::before(text, DENIED),
        Some(Key::Either) => Stop::before(text, OTHER_WAY),
        Some(Key::For | Key::Count) => Stop::before(text, NOT_DENIED),
        _ => claim_stop(text),
    }
}

/// Where a text that is no condition stops being one, whether it is denied or not.
fn claim_stop(text: &[u8]) -> Stop {
    let (word, rest) = split_first(text);
    let Some(key) = key_of(word) else {
        return unknown_stop(text, word);
    };
    match key {
        Key::Fen => pattern_stop(rest),
        Key::Flip => flip_stop(rest),
        Key::Moves => moves_stop(rest),
        Key::Material => material_stop(rest),
        Key::Plies => compared_stop(rest, COUNT_DIGITS, COMPARISON, COUNT),
        Key::Count => compared_stop(rest, COUNT_DIGITS, COUNT_COMPARISON, COUNT_PLIES),
        Key::Number => number_stop(rest),
        Key::Date => date_stop(rest),
        Key::For => count_stop(rest, COUNT_DIGITS, RUN),
        Key::Result => result_stop(rest),
        Key::Next => like_stop(rest, NEXT),
        Key::Played => like_stop(rest, PLAYED),
        Key::Setup => setup_stop(rest),
        Key::Tag => tag_stop(rest),
        Key::Turn => turn_stop(rest),
        Key::Check | Key::Mate | Key::Stalemate => end_stop(rest, NOTHING),
        Key::Or | Key::Not | Key::Either => unknown_stop(text, word),
    }
}

/// Where a text stops whose first word begins no condition.
fn unknown_stop(text: &[u8], word: &[u8]) -> Stop {
    match glued_to_key(text) {
        Some(rest) => Stop::before(rest, BLANK),
        None => Stop::before(text, expected_for(word)),
    }
}

/// Why a line that is refused is none of the language.
pub fn complaint_of(line: &[u8]) -> Complaint {
    let text = core_of(line);
    let stop = condition_stop(text);
    let indent = line.len().saturating_sub(after_blanks(line).len());
    let within = text.len().saturating_sub(stop.left);
    Complaint {
        at: indent.saturating_add(within),
        expected: stop.expected,
    }
}
