//! Comments as tokens.
ghost use Rattle.std.specs.Prelude.{◌≡◌, ◌+◌, ◌++◌, ◌∷◌, ◌<◌, ◌≤◌, ℕ, Bool, List, [], length, map};
ghost use Rattle.std.specs.Prelude.{OnOk, IfOk, IfSome, IsTrue, true, false, Some, None, ◌-◌};
ghost use Rattle.std.specs.Prelude.{take, drop};
ghost use Rattle.pgn_text.specs.Public.Bytes.{is_white};
ghost use Rattle.pgn_game.specs.Public.Comments.{words_in, unbraced, later_word, closed};
ghost use Rattle.pgn_game.specs.Public.Comments.{begins_command, closes, leaves_open, in_command};
ghost use Rattle.pgn_game.specs.Public.Comments.{comment_tokens, is_written, shown_tokens};
ghost use Rattle.pgn_game.specs.Public.Comments.{without_commands};
ghost use Rattle.pgn_game.specs.Public.Exports.{kept};
ghost use Rattle.pgn_game.specs.declared.exports.style.Commands.TheVariants.{LeftOut};
ghost use Rattle.pgn_game.specs.Public.TextLines.{joined};
ghost use Rattle.pgn_game.specs.Private.CommentWords.{word_front, after_front, after_white};
ghost use Rattle.pgn_game.specs.Private.CommentWords.{found_words, closing, found_size, tied_words};
ghost use Rattle.pgn_game.specs.Private.CommentWords.{IsBare, IsFoundBare, IsAfterBare};
ghost use Rattle.pgn_game.specs.Private.CommentWords.{IsAfterKept, IsSpaced, HasTied, PutsTied};
ghost use Rattle.pgn_game.specs.Private.EvenComments.{is_even, IsLastBlank};
ghost use Rattle.pgn_game.specs.Private.LineWrappers.{HasPut};

use crate::exports::line_wrapper::LineWrapper;
use crate::exports::sweep::{blanks_of, last_bit};
use std::alloc::AllocError;

/// The first word of a text, whether it is known to have no closing brace, and what follows it.
#[derive(Clone, Copy)]
struct Found<'a> {
    word: &'a [u8],
    bare: bool,
    rest: &'a [u8],
}

/// Whether the byte is white space.
fn is_white(byte: u8) -> bool
    ensures { result ≡ is_white byte }
{
    matches!(byte, 9..=13 | b' ')
}

/// The text after the white space that it begins with.
fn after_white(text: &[u8]) -> &[u8]
    ensures { result.now ≡ after_white text.now }
{
    let mut rest = text;
    while let [first, after @ ..] = rest
        && is_white(*first)
    {
        rest = after;
    }
    rest
}

/// The text from the first white space on.
fn from_white(text: &[u8]) -> &[u8]
    ensures { result.now ≡ after_front text.now }
{
    let mut rest = text;
    while let [first, after @ ..] = rest
        && !is_white(*first)
    {
        rest = after;
    }
    rest
}

/// The text after the bytes that it begins with which stand in words and are no closing braces: all
/// of a word, for most words.
#[inline(always)]
fn after_bare(text: &[u8]) -> &[u8]
    ensures { IsAfterBare text.now result.now }
{
    let mut rest = text;
    while let [first, after @ ..] = rest
        && *first > b' '
        && *first != b'}'
    {
        rest = after;
    }
    rest
}

/// The bytes before the first white space, and those from it on.
fn split_word(text: &[u8]) -> Found<'_>
    ensures word { result.word.now ≡ word_front text.now }
    ensures rest { result.rest.now ≡ after_front text.now }
    ensures bare { result.bare ≡ true → IsBare result.word.now }
{
    let left = after_bare(text);
    let rest = from_white(left);
    Found {
        word: &text[..text.len() - rest.len()],
        bare: left.len() == rest.len(),
        rest,
    }
}

/// The first word of the text, if it has one.
fn first_word(text: &[u8]) -> Option<Found<'_>>
    ensures words { found_words result ≡ words_in text.now }
    ensures shorter { IfSome result (λ found. length found.rest.now < length text.now) }
    ensures bare { IsFoundBare result }
{
    let rest = after_white(text);
    if rest.is_empty() {
        return None;
    }
    Some(split_word(rest))
}

/// Writes the word without closing braces; where it is known to have none, as it is.
#[inline(always)]
fn push_unbraced(out: &mut Vec<u8>, word: &[u8], bare: bool) -> Result<(), AllocError>
    requires { bare ≡ true → IsBare word.now }
    ensures text { OnOk result (out.new.items ≡ out.old.items ++ unbraced word.now) }
    ensures kept { (some : List ℕ) × (out.new.items ≡ out.old.items ++ some) }
{
    if bare {
        out.extend_from_slice(word)?;
        return Ok(());
    }
    replace_braces(out, word)
}

/// Writes the word with other brackets for closing braces.
fn replace_braces(out: &mut Vec<u8>, word: &[u8]) -> Result<(), AllocError>
    ensures text { OnOk result (out.new.items ≡ out.old.items ++ unbraced word.now) }
    ensures kept { (some : List ℕ) × (out.new.items ≡ out.old.items ++ some) }
{
    for byte in word {
        out.push(if *byte == b'}' { b')' } else { *byte })?;
    }
    Ok(())
}

/// Writes what a word begins with: for most words it is nothing.
#[inline]
fn push_front(out: &mut Vec<u8>, front: &[u8]) -> Result<(), AllocError>
    ensures text { OnOk result (out.new.items ≡ out.old.items ++ front.now) }
    ensures kept { (some : List ℕ) × (out.new.items ≡ out.old.items ++ some) }
{
    if front.is_empty() {
        return Ok(());
    }
    out.extend_from_slice(front)?;
    Ok(())
}

/// Writes a word that was found, after what it begins with; the last one has the closing brace.
#[inline(always)]
fn push_word(
    out: &mut Vec<u8>,
    front: &[u8],
    found: Found<'_>,
    is_last: bool,
) -> Result<(), AllocError>
    requires { found.bare ≡ true → IsBare found.word.now }
    ensures text { OnOk result (out.new.items
        ≡ out.old.items ++ (front.now ++ unbraced found.entry.word.now ++ closing is_last)) }
    ensures kept { (some : List ℕ) × (out.new.items ≡ out.old.items ++ some) }
{
    push_front(out, front)?;
    push_unbraced(out, found.word, found.bare)?;
    if is_last {
        out.push(b'}')?;
    }
    Ok(())
}

/// Writes a word that was found as a token, after what it begins with; the last one has the closing
/// brace.
fn put_word(
    wrapper: &mut LineWrapper,
    out: &mut Vec<u8>,
    front: &[u8],
    found: Found<'_>,
    is_last: bool,
) -> Result<(), AllocError>
    requires { found.bare ≡ true → IsBare found.word.now }
    ensures text { OnOk result
        (HasPut wrapper.old wrapper.new out.old.items out.new.items
        ((front.now ++ unbraced found.entry.word.now ++ closing is_last) ∷ [])) }
    ensures kept { (some : List ℕ) × (out.new.items ≡ out.old.items ++ some) }
    ensures width { wrapper.new.width ≡ wrapper.old.width }
{
    wrapper.start(out, front.len() + found.word.len() + usize::from(is_last))?;
    push_word(out, front, found, is_last)
}

/// What a word after the first one begins with, and what follows: it must be neither an event line
/// nor an escape at the beginning of a line.
fn guarded(word: &[u8]) -> (&[u8], &[u8])
    ensures text { later_word word.now ≡ result.0.now ++ unbraced result.1.now }
    ensures bare { IsBare word.now → IsBare result.1.now }
{
    if word == b"[Event".as_slice() {
        return (b"(", b"Event");
    }
    match word.first() {
        Some(b'%') => (b"(", word),
        _ => (b"", word),
    }
}

/// Writes the words after the first one.
fn put_later(
    wrapper: &mut LineWrapper,
    out: &mut Vec<u8>,
    first: Option<Found<'_>>,
) -> Result<(), AllocError>
    requires { IsFoundBare first }
    ensures text { OnOk result
        (HasPut wrapper.old wrapper.new out.old.items out.new.items
        (closed (map later_word (found_words first.entry)))) }
    ensures kept { (some : List ℕ) × (out.new.items ≡ out.old.items ++ some) }
    ensures width { wrapper.new.width ≡ wrapper.old.width }
{
    let mut next = first;
    while let Some(found) = next {
        next = first_word(found.rest);
        let (front, word) = guarded(found.word);
        put_word(wrapper, out, front, Found { word, ..found }, next.is_none())?;
    }
    Ok(())
}

/// Whether a word after the first one is written as it is, but for its closing braces.
fn is_kept(word: &[u8]) -> bool
    ensures { IsTrue result → later_word word.now ≡ unbraced word.now }
{
    word.first() != Some(&b'%') && word != b"[Event".as_slice()
}

/// What follows the first word of the text, if the text begins with a word, which is written as it
/// is wherever it stands.
#[inline(always)]
fn after_kept(text: &[u8]) -> Option<&[u8]>
    ensures { IfSome result (λ rest. IsAfterKept text.now rest.now) }
{
    let found = split_word(text);
    if found.word.is_empty() || !found.bare || !is_kept(found.word) {
        return None;
    }
    Some(found.rest)
}

/// Whether the text is words with one space between each two, all of which are written as they are.
fn is_spaced(text: &[u8]) -> bool
    ensures { IsTrue result → IsSpaced text.now }
{
    let Some(mut rest) = after_kept(text) else {
        return false;
    };
    while let [b' ', more @ ..] = rest {
        let Some(after) = after_kept(more) else {
            return false;
        };
        rest = after;
    }
    rest.is_empty()
}

/// Writes a comment that stands in the line that is begun as it is.
fn put_spaced(wrapper: &mut LineWrapper, out: &mut Vec<u8>, text: &[u8]) -> Result<(), AllocError>
    requires spaced { IsSpaced text.now }
    requires begun { wrapper.old.begun ≡ true }
    requires room { wrapper.old.column + 1 + (length text.now + 2) ≤ wrapper.old.width }
    ensures text { OnOk result ((commands : Bool)
        → HasPut wrapper.old wrapper.new out.old.items out.new.items
        (comment_tokens commands text.now)) }
    ensures kept { (some : List ℕ) × (out.new.items ≡ out.old.items ++ some) }
    ensures width { wrapper.new.width ≡ wrapper.old.width }
{
    wrapper.start_within(out, text.len() + 2)?;
    out.push(b'{')?;
    out.extend_from_slice(text)?;
    out.push(b'}')?;
    Ok(())
}

/// The text without the white space around it.
#[inline(always)]
fn trimmed(text: &[u8]) -> &[u8]
    ensures { words_in result.now ≡ words_in text.now }
{
    let mut rest = after_white(text);
    while let [before @ .., last] = rest
        && is_white(*last)
    {
        rest = before;
    }
    rest
}

/// Writes a comment of even words at the beginning of the next line.
fn put_in_line(wrapper: &mut LineWrapper, out: &mut Vec<u8>, text: &[u8]) -> Result<(), AllocError>
    requires even { is_even text.now ≡ true }
    requires begun { wrapper.old.begun ≡ true }
    requires blank { IsLastBlank text.now (wrapper.old.width - (wrapper.old.column + 1)) None }
    requires over { wrapper.old.width < wrapper.old.column + 1 + (length text.now + 2) }
    requires within { length text.now + 2 ≤ wrapper.old.width }
    ensures text { OnOk result
        (HasPut wrapper.old wrapper.new out.old.items out.new.items
        (comment_tokens false text.now)) }
    ensures kept { (some : List ℕ) × (out.new.items ≡ out.old.items ++ some) }
    ensures width { wrapper.new.width ≡ wrapper.old.width }
{
    wrapper.start_line(out, text.len() + 2)?;
    out.push(b'{')?;
    out.extend_from_slice(text)?;
    out.push(b'}')?;
    Ok(())
}

/// Appends the text, with a line feed in place of the byte there.
#[inline(always)]
fn push_parted(out: &mut Vec<u8>, text: &[u8], place: usize) -> Result<(), AllocError>
    requires { place < length text.now }
    ensures text { OnOk result (out.new.items
        ≡ out.old.items ++ (take place text.now ++ 10 ∷ drop (place + 1) text.now)) }
    ensures kept { (some : List ℕ) × (out.new.items ≡ out.old.items ++ some) }
{
    let at = out.len() + place;
    out.extend_from_slice(text)?;
    out[at] = b'\n';
    Ok(())
}

/// Writes a comment of even words: those before the blank in the line that is begun, and those
/// after it in the next.
fn put_in_two_lines(
    wrapper: &mut LineWrapper,
    out: &mut Vec<u8>,
    text: &[u8],
    blank: usize,
) -> Result<(), AllocError>
    requires even { is_even text.now ≡ true }
    requires begun { wrapper.old.begun ≡ true }
    requires blank { IsLastBlank text.now (wrapper.old.width - (wrapper.old.column + 1))
        (Some blank) }
    requires inside { blank < length text.now }
    requires over { wrapper.old.width < wrapper.old.column + 1 + (length text.now + 2) }
    requires within { length text.now + 2 ≤ wrapper.old.width }
    ensures text { OnOk result
        (HasPut wrapper.old wrapper.new out.old.items out.new.items
        (comment_tokens false text.now)) }
    ensures kept { (some : List ℕ) × (out.new.items ≡ out.old.items ++ some) }
    ensures width { wrapper.new.width ≡ wrapper.old.width }
{
    wrapper.start_within(out, blank + 1)?;
    out.push(b'{')?;
    push_parted(out, text, blank)?;
    wrapper.go_on_in_next(text.len() - blank);
    out.push(b'}')?;
    Ok(())
}

/// Writes a comment of even words that is not within the line which is begun.
fn put_broken(
    wrapper: &mut LineWrapper,
    out: &mut Vec<u8>,
    text: &[u8],
    blank: Option<usize>,
) -> Result<(), AllocError>
    requires even { is_even text.now ≡ true }
    requires begun { wrapper.old.begun ≡ true }
    requires blank { IsLastBlank text.now (wrapper.old.width - (wrapper.old.column + 1)) blank }
    requires over { wrapper.old.width < wrapper.old.column + 1 + (length text.now + 2) }
    requires within { length text.now + 2 ≤ wrapper.old.width }
    ensures text { OnOk result
        (HasPut wrapper.old wrapper.new out.old.items out.new.items
        (comment_tokens false text.now)) }
    ensures kept { (some : List ℕ) × (out.new.items ≡ out.old.items ++ some) }
    ensures width { wrapper.new.width ≡ wrapper.old.width }
{
    match blank {
        Some(blank) => put_in_two_lines(wrapper, out, text, blank),
        None => put_in_line(wrapper, out, text),
    }
}

/// Writes a comment in braces, word by word.
fn put_words(wrapper: &mut LineWrapper, out: &mut Vec<u8>, text: &[u8]) -> Result<(), AllocError>
    ensures text { OnOk result
        (HasPut wrapper.old wrapper.new out.old.items out.new.items
        (comment_tokens false text.now)) }
    ensures kept { (some : List ℕ) × (out.new.items ≡ out.old.items ++ some) }
    ensures width { wrapper.new.width ≡ wrapper.old.width }
{
    let Some(first) = first_word(text) else {
        return wrapper.put(out, b"{}");
    };
    let next = first_word(first.rest);
    put_word(wrapper, out, b"{", first, next.is_none())?;
    put_later(wrapper, out, next)
}

/// Whether the text begins with that of a command.
#[inline]
fn begins_command(text: &[u8]) -> bool
    ensures { result ≡ begins_command text.now }
{
    matches!(text, [b'[', b'%', ..])
}

/// Whether a closing bracket stands in the text before any `[%`.
fn closes(text: &[u8]) -> bool
    ensures { result ≡ closes text.now }
{
    let mut rest = text;
    while let [first, after @ ..] = rest {
        if *first == b']' {
            return true;
        }
        if begins_command(rest) {
            return false;
        }
        rest = after;
    }
    false
}

/// Whether a `[%` stands in the text with no closing bracket after it.
fn leaves_open(text: &[u8]) -> bool
    ensures { result ≡ leaves_open text.now }
{
    let mut rest = text;
    let mut is_open = false;
    while let [first, after @ ..] = rest {
        is_open = begins_command(rest) | (is_open & (*first != b']'));
        rest = after;
    }
    is_open
}

/// Whether white space after the word that was found stands in a command, where the word begins in
/// one or not.
fn is_in_command(inside: bool, found: &Found<'_>) -> bool
    ensures { result ≡ in_command inside found.now.word.now (joined (words_in found.now.rest.now)) }
{
    if leaves_open(found.word) {
        return closes(found.rest);
    }
    inside && !found.word.contains(&b']')
}

/// Writes the words that are tied to what is written, and answers the word after them: the first of
/// these words is tied where it stands inside a command.
fn push_tied<'a>(
    out: &mut Vec<u8>,
    first_inside: bool,
    first: Option<Found<'a>>,
) -> Result<Option<Found<'a>>, AllocError>
    requires { IsFoundBare first }
    ensures text { IfOk result (λ next.
        HasTied out.old.items out.new.items first_inside (found_words first.entry)
        (found_words next)) }
    ensures shorter { IfOk result (λ next. found_size next ≤ found_size first.entry) }
    ensures bare { IfOk result IsFoundBare }
    ensures kept { (some : List ℕ) × (out.new.items ≡ out.old.items ++ some) }
{
    let mut next = first;
    let mut inside = first_inside;
    while inside && let Some(found) = next {
        inside = is_in_command(true, &found);
        next = first_word(found.rest);
        let (front, word) = guarded(found.word);
        out.push(b' ')?;
        push_word(out, front, Found { word, ..found }, next.is_none())?;
    }
    Ok(next)
}

/// Writes a word that was found, after what it begins with, and the words that are tied to it, as
/// one token; and answers the word after them.
fn put_tied<'a>(
    wrapper: &mut LineWrapper,
    out: &mut Vec<u8>,
    front: &[u8],
    found: Found<'a>,
    inside: bool,
) -> Result<Option<Found<'a>>, AllocError>
    requires { found.bare ≡ true → IsBare found.word.now }
    ensures text { IfOk result (λ next.
        PutsTied wrapper.old wrapper.new out.old.items out.new.items inside (front.now
        ++ unbraced found.entry.word.now) (words_in found.entry.rest.now) (found_words next)) }
    ensures shorter { IfOk result (λ next. found_size next ≤ length found.entry.rest.now) }
    ensures bare { IfOk result IsFoundBare }
    ensures kept { (some : List ℕ) × (out.new.items ≡ out.old.items ++ some) }
    ensures width { wrapper.new.width ≡ wrapper.old.width }
{
    let from = out.len();
    let next = first_word(found.rest);
    push_word(out, front, found, next.is_none())?;
    let after = push_tied(out, inside, next)?;
    wrapper.part(out, from)?;
    Ok(after)
}

/// Writes the words after the first one, with each command as one token.
fn put_later_whole(
    wrapper: &mut LineWrapper,
    out: &mut Vec<u8>,
    first: Option<Found<'_>>,
) -> Result<(), AllocError>
    requires { IsFoundBare first }
    ensures text { OnOk result
        (HasPut wrapper.old wrapper.new out.old.items out.new.items
        (tied_words false (found_words first.entry))) }
    ensures kept { (some : List ℕ) × (out.new.items ≡ out.old.items ++ some) }
    ensures width { wrapper.new.width ≡ wrapper.old.width }
{
    let mut next = first;
    while let Some(found) = next {
        let inside = is_in_command(false, &found);
        let (front, word) = guarded(found.word);
        next = put_tied(wrapper, out, front, Found { word, ..found }, inside)?;
    }
    Ok(())
}

/// Writes a comment in braces, word by word, with each command as one token.
#[inline(never)]
fn put_whole(wrapper: &mut LineWrapper, out: &mut Vec<u8>, text: &[u8]) -> Result<(), AllocError>
    ensures text { OnOk result
        (HasPut wrapper.old wrapper.new out.old.items out.new.items
        (comment_tokens true text.now)) }
    ensures kept { (some : List ℕ) × (out.new.items ≡ out.old.items ++ some) }
    ensures width { wrapper.new.width ≡ wrapper.old.width }
{
    let Some(first) = first_word(text) else {
        return wrapper.put(out, b"{}");
    };
    let inside = is_in_command(false, &first);
    let next = put_tied(wrapper, out, b"{", first, inside)?;
    put_later_whole(wrapper, out, next)
}

/// Adds the text without its commands, with a space in the place of each, and without the sign of
/// those that have no end.
fn push_without_commands(out: &mut Vec<u8>, text: &[u8]) -> Result<(), AllocError>
    ensures { OnOk result (out.new.items ≡ out.old.items ++ without_commands text.now) }
{
    let mut rest = text;
    let mut inside = false;
    while let [first, after @ ..] = rest {
        if inside {
            inside = *first != b']';
        } else if !begins_command(rest) {
            out.push(*first)?;
        } else if closes(after) {
            out.push(b' ')?;
            inside = true;
        } else {
            out.push(b'(')?;
        }
        rest = after;
    }
    Ok(())
}

/// Writes what is left of a comment without its commands, if that has words, and answers whether it
/// has. It is made in `left`.
#[inline(never)]
pub(crate) fn put_left(
    wrapper: &mut LineWrapper,
    out: &mut Vec<u8>,
    left: &mut Vec<u8>,
    text: &[u8],
) -> Result<bool, AllocError>
    ensures shown { IfOk result (λ shown. shown ≡ is_written LeftOut text.now) }
    ensures text { OnOk result
        (HasPut wrapper.old wrapper.new out.old.items out.new.items
        (kept (is_written LeftOut text.now)
        (shown_tokens LeftOut text.now))) }
    ensures kept { (some : List ℕ) × (out.new.items ≡ out.old.items ++ some) }
    ensures width { wrapper.new.width ≡ wrapper.old.width }
{
    left.clear();
    push_without_commands(left, text)?;
    if first_word(left).is_none() {
        return Ok(false);
    }
    put_comment(wrapper, out, left, false)?;
    Ok(true)
}

/// Writes a comment in braces: each of its words is a token, or each command with its words, where
/// commands are kept whole. Where it stands in one line as it is, or in two, it is written at once.
pub(crate) fn put_comment(
    wrapper: &mut LineWrapper,
    out: &mut Vec<u8>,
    text: &[u8],
    commands: bool,
) -> Result<(), AllocError>
    ensures text { OnOk result
        (HasPut wrapper.old wrapper.new out.old.items out.new.items
        (comment_tokens commands text.now)) }
    ensures kept { (some : List ℕ) × (out.new.items ≡ out.old.items ++ some) }
    ensures width { wrapper.new.width ≡ wrapper.old.width }
{
    let words = trimmed(text);
    if words.len() >= 64 {
        if wrapper.takes(words.len() + 2) && is_spaced(words) {
            return put_spaced(wrapper, out, words);
        }
    } else if let Some(blanks) = blanks_of(words)
        && let Some(room) = wrapper.room()
    {
        if words.len() + 1 < room {
            return put_spaced(wrapper, out, words);
        }
        if !commands && wrapper.holds(words.len() + 2) {
            return put_broken(wrapper, out, words, last_bit(blanks, room));
        }
    }
    if commands {
        return put_whole(wrapper, out, words);
    }
    put_words(wrapper, out, words)
}
