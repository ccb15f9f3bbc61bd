//! The place where the bytes of a block agree with no game any more.

ghost use Rattle.std.specs.Prelude.{◌≡◌, ◌+◌, ◌<◌, ◌≤◌, ◌↔◌, length, take, drop, true, IsTrue};
ghost use Rattle.pgn_text.specs.Private.ErrorPosition.{FrontWithin, IsReached};
ghost use Rattle.pgn_text.specs.Public.Bytes.{is_check_sign};
ghost use Rattle.pgn_text.specs.Public.Limits.{depth_limit};
ghost use Rattle.pgn_text.specs.Private.PartFronts.{Longest, IsPartFront, IsTagFront, IsWordFront};
ghost use Rattle.pgn_text.specs.Private.PartFronts.{NoneFollows, front_length, is_glyph_front};
ghost use Rattle.pgn_text.specs.Private.PartFronts.{next_in, no_byte};
ghost use Rattle.pgn_text.specs.Public.Parts.{standing_of};
ghost use Rattle.pgn_text.specs.Public.StopPlaces.{StandsWithin, tag_name_of};
ghost use Rattle.pgn_text.specs.Public.Stops.{IsErrorPosition};
ghost use Rattle.pgn_text.specs.Private.Tokens.{state_of};
ghost use Rattle.pgn_text.specs.declared.error.error_position.InTag.TheVariants.{BeforeName};

use crate::game::progress::Progress;
use crate::lex::class::{ByteClass, is_in, is_plain, run};
use crate::lex::place::part_at;

const BYTE_ORDER_MARK: [u8; 3] = [0xEF, 0xBB, 0xBF];

/// How many bytes the text and the word have in common from their starts.
fn common(text: &[u8], word: &[u8]) -> usize
    ensures { result ≡ front_length no_byte word.now text.now }
{
    let mut count = 0usize;
    while count < text.len() && count < word.len() && text[count] == word[count] {
        count += 1;
    }
    count
}

/// How many of the text's first bytes are a front of the castling word and of check signs after it.
fn castling_stop(text: &[u8], word: &[u8]) -> usize
    ensures { result ≡ front_length is_check_sign word.now text.now }
{
    let mut count = common(text, word);
    if count < word.len() {
        return count;
    }
    while count < text.len() && matches!(text[count], b'+' | b'#') {
        count += 1;
    }
    count
}

/// How many of the text's first bytes a word that begins with no letter may have; `closed` says
/// that a result may stand here.
fn word_stop(text: &[u8], closed: bool) -> usize
    ensures { Longest (IsWordFront closed) text.now result }
{
    let numbers = run(ByteClass::Digit, text).0.len().max(common(text, b"--"));
    let castling = castling_stop(text, b"0-0").max(castling_stop(text, b"0-0-0"));
    let moves = numbers.max(castling);
    if !closed {
        return moves;
    }
    let wins = common(text, b"1-0").max(common(text, b"0-1"));
    moves.max(wins.max(common(text, b"1/2-1/2")))
}

/// Where in a tag a place is, after its bracket.
#[derive(Clone, Copy)]
enum InTag {
    /// Before the name.
    BeforeName,
    /// In the name.
    Name,
    /// After white space that follows the name.
    AfterName,
    /// In the string.
    Contents,
    /// After a backslash in the string.
    AfterBackslash,
    /// After the string.
    AfterString,
    /// After the closing bracket.
    Closed,
}

impl InTag {
    /// Where the place after one byte more is, if a tag may have it there.
    fn next(self, byte: u8) -> Option<Self>
        ensures { result ≡ next_in self byte }
    {
        let white = is_in(ByteClass::White, byte);
        let name = is_in(ByteClass::Name, byte);
        match self {
            InTag::BeforeName if white => Some(InTag::BeforeName),
            InTag::BeforeName | InTag::Name if name => Some(InTag::Name),
            InTag::Name | InTag::AfterName if white => Some(InTag::AfterName),
            InTag::Name | InTag::AfterName if byte == b'"' => Some(InTag::Contents),
            InTag::Contents if byte == b'\\' => Some(InTag::AfterBackslash),
            InTag::Contents if byte == b'"' => Some(InTag::AfterString),
            InTag::Contents | InTag::AfterBackslash if is_plain(byte) => Some(InTag::Contents),
            InTag::AfterString if white => Some(InTag::AfterString),
            InTag::AfterString if byte == b']' => Some(InTag::Closed),
            _ => None,
        }
    }
}

/// How many of the text's first bytes a tag may have after its bracket.
fn tag_stop(text: &[u8]) -> usize
    ensures { Longest (IsTagFront BeforeName) text.now result }
{
    let mut place = InTag::BeforeName;
    let mut at = 0;
    while at < text.len() {
        let Some(next) = place.next(text[at]) else {
            return at;
        };
        place = next;
        at += 1;
    }
    at
}

/// How many of the text's first bytes a NAG may have after its dollar sign.
fn glyph_stop(text: &[u8]) -> usize
    ensures { Longest (λ front. is_glyph_front front ≡ true) text.now result }
{
    let mut number = 0u16;
    let mut count = 0;
    while count < 3 && count < text.len() && is_in(ByteClass::Digit, text[count]) {
        number = 10 * number + u16::from(text[count] - b'0');
        if number > 255 {
            return count;
        }
        count += 1;
    }
    count
}

/// How many bytes at the place of the block one part may have that the game may go on with, where
/// no whole part does.
fn part_stop(block: &[u8], at: usize, file_start: bool, progress: Progress) -> usize
    requires place { at ≤ length block.now }
    requires stuck { NoneFollows depth_limit (standing_of file_start (take at block.now))
        (state_of progress)
        (drop at block.now) }
    ensures { Longest
        (IsPartFront depth_limit (standing_of file_start (take at block.now)) (state_of progress))
        (drop at block.now) result }
{
    let text = &block[at..];
    let Some((first, rest)) = text.split_first() else {
        return 0;
    };
    match *first {
        b'{' => text.len(),
        b'[' => {
            if progress.in_tags {
                1 + tag_stop(rest)
            } else {
                0
            }
        }
        b'$' => 1 + glyph_stop(rest),
        0xEF => {
            if file_start && at == 0 {
                common(text, &BYTE_ORDER_MARK)
            } else {
                0
            }
        }
        byte if is_in(ByteClass::Word, byte) => word_stop(text, progress.is_closed()),
        _ => 0,
    }
}

/// How far the parts of a game go.
enum Reached {
    /// To the end of the game, at the place.
    GameTo(usize),
    /// To the place, from which no whole part leads on.
    Stuck(usize, Progress),
}

/// How far the parts of a game go from the place of the block, with the gap before it.
fn walk(block: &[u8], begin: usize, file_start: bool) -> Reached
    requires { begin ≤ length block.now }
    ensures { IsReached depth_limit file_start block.now begin result }
{
    let mut progress = Progress::start();
    let mut at = begin;
    while let Some((token, end)) = part_at(block, at, file_start) {
        if token.is_result() {
            if progress.is_closed() {
                return Reached::GameTo(end);
            }
            break;
        }
        let mut next = progress;
        if !next.step(token) {
            break;
        }
        progress = next;
        at = end;
    }
    Reached::Stuck(at, progress)
}

/// What the place where a text stops agreeing with games stands in.
#[derive(Clone, Copy, Debug, PartialEq, Eq)]
pub enum Within {
    /// A comment in braces that does not end, with the place of its brace in the block.
    Comment(usize),
    /// A tag, which begins at the place of the block, before its string.
    TagName(usize),
    /// A tag, which begins at the place of the block, in its string or after it.
    TagValue(usize),
    /// The tags of a game, or what stands before them.
    Tags,
    /// A variation.
    Variation,
    /// The movetext outside all variations.
    MainLine,
    /// Nothing: a game ends there.
    Game,
}

/// What the bytes after the last whole part, which ends at the place `at`, stand in.
fn front_within(front: &[u8], at: usize, progress: Progress) -> Within
    ensures { FrontWithin (state_of progress) front.now at result }
{
    match front.first() {
        Some(b'{') => return Within::Comment(at),
        Some(b'[') if front.contains(&b'"') => return Within::TagValue(at),
        Some(b'[') => return Within::TagName(at),
        _ => {}
    }
    if !progress.is_closed() {
        Within::Variation
    } else if progress.in_tags {
        Within::Tags
    } else {
        Within::MainLine
    }
}

/// The name of the tag whose bracket stands at the place of the block, as far as it goes.
pub fn tag_name_at(block: &[u8], at: usize) -> &[u8]
    requires { at < length block.now }
    ensures { result.now ≡ tag_name_of (drop (at + 1) block.now) }
{
    let (_, after) = run(ByteClass::White, &block[at + 1..]);
    run(ByteClass::Name, after).0
}

/// A place where a text stops agreeing with games.
#[derive(Clone, Copy, Debug, PartialEq, Eq)]
pub struct Stop {
    /// The place in the block.
    pub place: usize,
    /// What it stands in.
    pub within: Within,
}

/// The place of the block up to which its bytes from `begin` on are the front of a gap and a game,
/// no more of them are, and what it stands in.
pub fn locate_error(block: &[u8], begin: usize, file_start: bool) -> Stop
    requires { begin ≤ length block.now }
    ensures place { IsErrorPosition depth_limit file_start block.now begin result.place }
    ensures within { StandsWithin file_start block.now begin result.place result.within }
{
    match walk(block, begin, file_start) {
        Reached::GameTo(place) => Stop {
            place,
            within: Within::Game,
        },
        Reached::Stuck(at, progress) => {
            let place = at + part_stop(block, at, file_start, progress);
            Stop {
                place,
                within: front_within(&block[at..place], at, progress),
            }
        }
    }
}

/// The place of the block up to which its bytes from `begin` on are the front of a gap and a game;
/// no more of them are.
pub fn error_position_of(block: &[u8], begin: usize, file_start: bool) -> usize
    requires { begin ≤ length block.now }
    ensures { IsErrorPosition depth_limit file_start block.now begin result }
{
    locate_error(block, begin, file_start).place
}
