//! A game as it stands in a block.

ghost use Rattle.std.specs.Prelude.{◌≡◌, ◌≤◌, ◌⊎◌, ℕ, List, [], Option, None, length, take, drop};
ghost use Rattle.std.specs.Prelude.{map, IfOk, MatchOption, ◌<◌, get_or, Bool, IfSome, IsTrue};
ghost use Rattle.std.specs.Prelude.{option_map, true};
ghost use Rattle.std.specs.Cmp.Lexicographic.{slice_cmp};
ghost use Rattle.std.specs.List.{list_all};
ghost use Rattle.std.specs.List.Sorted.{IsStrictlySortedBy};
ghost use Rattle.std.specs.Ordering.{nat_cmp};
ghost use Rattle.pgn_text.specs.Public.Bytes.{is_letter, is_name_byte};
ghost use Rattle.pgn_text.specs.Public.Elements.{item_of, tags_of};
ghost use Rattle.pgn_text.specs.Public.GameTexts.{GameText, HoldStrings, IsGameText, IsPaired};
ghost use Rattle.pgn_text.specs.Public.GameTexts.{IsResult};
ghost use Rattle.pgn_text.specs.Public.GameTexts.{ShowsGame, IsRetagged, tag_names};
ghost use Rattle.pgn_text.specs.Public.Games.{Item};
ghost use Rattle.pgn_text.specs.Public.Limits.{depth_limit};
ghost use Rattle.pgn_text.specs.Private.Movetext.{AddsElements, PlainTo};
ghost use Rattle.pgn_text.specs.Public.Parts.{Part};
ghost use Rattle.pgn_text.specs.Public.Pieces.{NoGame};
ghost use Rattle.pgn_text.specs.Public.Strings.{IsContents};
ghost use Rattle.pgn_text.specs.Private.Readings.{IsReading, IsStep};
ghost use Rattle.pgn_text.specs.Private.Tokens.{state_of, token_of};
ghost use Rattle.pgn_text.specs.Private.Walk.{GameTo, GameRead, NoGapPartAt};

pub(crate) mod game_builder;
pub(crate) mod pieces;
pub(crate) mod progress;

use crate::game::game_builder::GameBuilder;
use crate::game::progress::Progress;
use crate::lex::class::{ByteClass, is_in, run_end};
use crate::lex::movetext::plain_end;
use crate::lex::place::{comment_at, number_at, part_at};
use crate::lex::scan::glyph_at;
use crate::lex::tag::tag_at;
use crate::lex::token::Token;
use std::alloc::{AllocError, Global};
use std::collections::BTreeMap;
use std::convert::Infallible;
use std::marker::Model;

/// An element of a game. Each slice is a slice of the block.
#[derive(Clone, Copy, Debug, PartialEq, Eq)]
pub enum Element<'a> {
    /// A move, as its word stands.
    Move(&'a [u8]),
    /// A NAG's number; a run of `!` and `?` gives a NAG for each two, and one for a last mark
    /// alone.
    Glyph(u8),
    /// A comment's bytes, without its braces, or its semicolon and line feed.
    Comment(&'a [u8]),
    /// The begin of a variation.
    Open,
    /// The end of a variation.
    Close,
}

/// A game as it stands in a block.
#[derive(Drop)]
pub struct RawGame<'a> {
    at: usize,
    text: &'a [u8],
    tags: BTreeMap<&'a [u8], &'a [u8]>,
    elements: Vec<Element<'a>>,
    result: &'a [u8],
}

impl<'a> Model for RawGame<'a> {
    ghost Value = { GameText };

    ghost view = { λ game. record {
      at = game.at;
      text = game.text.now;
      tags = tags_of game.tags;
      elements =
          map item_of game.elements.items;
      result = game.result.now;
    } };

    ghost invariant = { λ game.
        IsGameText (record {
          at = game.at;
          text = game.text.now;
          tags =
              tags_of game.tags;
          elements = map item_of game.elements.items;
          result = game.result.now;
        }) };
}

/// The same tags in a map of its own, which need not live as long as they do.
fn own_tags<'a: 'b, 'b>(
    alloc: Global,
    tags: BTreeMap<&'a [u8], &'a [u8]>,
) -> Result<BTreeMap<&'b [u8], &'b [u8]>, AllocError>
    requires { IsStrictlySortedBy (slice_cmp nat_cmp) (tag_names (tags_of tags)) }
    ensures { IfOk result (λ own. tags_of own ≡ tags_of tags.entry) }
{
    let mut rest = tags;
    let mut own = BTreeMap::new(alloc);
    while let Some((name, contents)) = rest.pop_first() {
        own.insert(name, contents)?;
    }
    Ok(own)
}

impl<'a> RawGame<'a> {
    /// A game with this result, and without text, tags and elements: it may be given tags.
    pub fn of_result(alloc: Global, ending: &'a [u8]) -> Self
        requires { IsResult ending.now }
        ensures { result ≡ record {
          at = 0;
          text = [];
          tags = [];
          elements = [];
          result = ending.now;
        } }
    {
        RawGame {
            at: 0,
            text: b"",
            tags: BTreeMap::new(alloc),
            elements: Vec::new(alloc),
            result: ending,
        }
    }

    /// The place of the game's first byte in the block.
    pub fn at(&self) -> usize
        ensures { result ≡ self.now.at }
    {
        self.at
    }

    /// The game's bytes as they stand in the block, from its first to its last.
    pub fn text(&self) -> &'a [u8]
        ensures { result.now ≡ self.now.text }
    {
        self.text
    }

    /// The contents of the tags' strings as they stand in the block, by the tags' names; of a
    /// repeated tag the first.
    pub fn tags(&self) -> &BTreeMap<&'a [u8], &'a [u8]>
        ensures tags { tags_of result.now ≡ self.now.tags }
        ensures ordered { IsStrictlySortedBy (slice_cmp nat_cmp) (tag_names self.now.tags) }
        ensures strings { HoldStrings self.now.tags }
    {
        &self.tags
    }

    /// The moves, NAGs, comments and variation ends in their order.
    pub fn elements(&self) -> &[Element<'a>]
        ensures elements { map item_of result.now ≡ self.now.elements }
        ensures paired { IsPaired 0 self.now.elements }
    {
        self.elements.as_slice()
    }

    /// Each game that is handed out has its tags in the order of their names, which are made of the
    /// bytes of names, each the contents of a string; its variations are paired, and its result is
    /// one of the four.
    pub fn invariant(&self)
        ensures { IsGameText self.now }
    {
        let _ = &self.tags;
    }

    /// The result, as it stands.
    pub fn result(&self) -> &'a [u8]
        ensures { result.now ≡ self.now.result }
    {
        self.result
    }

    /// The game without its elements: what stands before its movetext, and its result.
    fn head<'b>(&'b self, alloc: Global) -> Result<RawGame<'b>, AllocError>
        ensures { IfOk result (λ head. head ≡ record self.now { elements = [] }) }
    {
        Ok(RawGame {
            at: self.at,
            text: self.text,
            tags: own_tags(alloc, self.tags.clone()?)?,
            elements: Vec::new(alloc),
            result: self.result,
        })
    }

    /// The game with so many elements alone, its first, which end each variation that they begin.
    /// Its tags may be given contents that live as long as this borrow.
    pub fn beginning<'b>(&'b self, alloc: Global, count: usize) -> Result<RawGame<'b>, AllocError>
        requires within { count ≤ length self.now.elements }
        requires paired { IsPaired 0 (take count self.now.elements) }
        ensures { IfOk result (λ own.
            own ≡ record self.entry.now { elements = take count self.entry.now.elements }) }
    {
        let mut own = self.head(alloc)?;
        own.elements.extend_from_slice(&self.elements[..count])?;
        Ok(own)
    }

    /// The game with these elements in place of its own, which end each variation that they begin.
    /// Its tags may be given contents that live as long as this borrow.
    pub fn with_elements<'b>(
        &'b self,
        alloc: Global,
        elements: Vec<Element<'b>>,
    ) -> Result<RawGame<'b>, AllocError>
        requires { IsPaired 0 (map item_of elements.items) }
        ensures { IfOk result (λ own.
            own ≡ record self.entry.now { elements = map item_of elements.entry.items }) }
    {
        let mut own = self.head(alloc)?;
        own.elements = elements;
        Ok(own)
    }

    /// The game with this result in place of its own; its Result tag stays as it is.
    pub fn with_result(mut self, ending: &'a [u8]) -> Self
        requires { IsResult ending.now }
        ensures { result ≡ record self.entry { result = ending.entry.now } }
    {
        self.result = ending;
        self
    }

    /// The game with these contents under the name in place of its own, or with no tag of that
    /// name.
    pub fn retagged(
        mut self,
        name: &'a [u8],
        contents: Option<&'a [u8]>,
    ) -> Result<Self, AllocError>
        requires name { IsTrue (list_all is_name_byte name.now) }
        requires contents { IfSome contents (λ text. IsContents text.now) }
        ensures { IfOk result
            (IsRetagged name.now (option_map (λ text. text.now) contents.entry) self.entry) }
    {
        match contents {
            Some(contents) => {
                self.tags.insert(name, contents)?;
            }
            None => {
                self.tags.remove(name);
            }
        }
        Ok(self)
    }
}

/// What is kept of the parts of a game.
trait TokenVisitor<'a>: Drop {
    type Error;

    ghost use Rattle.std.specs.Prelude.{ℕ, ◌≤◌, List, ◌++◌, Option, OnOk, IfOk, length};
    ghost use Rattle.std.specs.Option.{option_or};
    ghost use Rattle.pgn_text.specs.Public.Games.{Item};
    ghost use Rattle.pgn_text.specs.Private.Reading.{items_of_kept, named_kept};
    ghost use Rattle.pgn_text.specs.Private.Tokens.{token_of};
    ghost use Rattle.pgn_text.specs.Private.Movetext.{AddsElements, PlainTo};

    // Holds where these tags and elements were kept.
    ghost kept: { Self → (List ℕ → Option (List ℕ)) → List Item → Type 0 };

    fn keep(&mut self, token: Token<'a>) -> Result<(), Self::Error>
        ensures { OnOk result ((tags : List ℕ → Option (List ℕ)) (items : List Item)
            → kept self.old tags items
            → kept self.new (λ wanted.
            option_or (tags wanted) (named_kept wanted (token_of token.entry))) (items
            ++ items_of_kept (token_of token.entry))) };

    /// Keeps the moves of plain movetext from the place of the block on, and answers the place up
    /// to which it stands; more of it may follow.
    fn keep_plain(&mut self, block: &'a [u8], at: usize) -> Result<usize, Self::Error>
        requires { at ≤ length block.now }
        ensures { IfOk result (λ end. (moves : List Item) × PlainTo block.now at moves end
            × AddsElements (kept self.old) (kept self.new) moves) };
}

/// Keeps nothing: for what asks only where a game ends.
#[derive(Drop)]
struct DiscardTokens {}

impl<'a> TokenVisitor<'a> for DiscardTokens {
    type Error = Infallible;

    ghost kept = { λ visitor tags items. Unit {0} };

    #[inline(always)]
    fn keep(&mut self, _token: Token<'a>) -> Result<(), Infallible> {
        Ok(())
    }

    #[inline(always)]
    fn keep_plain(&mut self, block: &'a [u8], at: usize) -> Result<usize, Infallible> {
        Ok(plain_end(block, at))
    }
}

impl<'a> TokenVisitor<'a> for GameBuilder<'a> {
    ghost use Rattle.pgn_text.specs.Private.GameBuilders.{IsBuilderOf};

    type Error = AllocError;

    ghost kept = { IsBuilderOf };

    #[inline(always)]
    fn keep(&mut self, token: Token<'a>) -> Result<(), AllocError> {
        self.add(token)
    }

    #[inline(always)]
    fn keep_plain(&mut self, block: &'a [u8], at: usize) -> Result<usize, AllocError> {
        self.add_plain(block, at)
    }
}

/// What stands at a place of a game.
enum Reading {
    /// A part that may stand there, and the place after it.
    Part(usize),
    /// A move, and the place after it.
    Move(usize),
    /// A move number, and the place after it.
    Number(usize),
    /// The result that ends the game, and the place after it.
    Result(usize),
    /// Nothing that may stand there.
    Stuck,
}

/// Keeps the part and steps after it, if it may stand there.
#[inline(always)]
fn step_after<'a, K: TokenVisitor<'a>>(
    token: Token<'a>,
    end: usize,
    progress: &mut Progress,
    visitor: &mut K,
) -> Result<Reading, K::Error>
    ensures { IfOk result (λ reading.
        IsStep (K.kept visitor.old) (K.kept visitor.new) depth_limit (token_of token.entry) end
        (state_of progress.old) (state_of progress.new) reading) }
{
    if !progress.step(token) {
        return Ok(Reading::Stuck);
    }
    visitor.keep(token)?;
    Ok(Reading::Part(end))
}

/// Reads the brace comment at the place of the block.
#[inline(always)]
fn read_comment<'a, K: TokenVisitor<'a>>(
    block: &'a [u8],
    at: usize,
    progress: &mut Progress,
    visitor: &mut K,
) -> Result<Reading, K::Error>
    requires place { at < length block.now }
    requires brace { get_or block.now at 0 ≡ 123 }
    ensures { IfOk result (λ reading. (file_start : Bool)
        → IsReading (K.kept visitor.old) (K.kept visitor.new) depth_limit file_start block.now at
        (state_of progress.old) (state_of progress.new) reading) }
{
    match comment_at(block, at) {
        Some((comment, end)) => step_after(Token::Comment(comment), end, progress, visitor),
        None => Ok(Reading::Stuck),
    }
}

/// Reads the tag at the place of the block.
#[inline(always)]
fn read_tag<'a, K: TokenVisitor<'a>>(
    block: &'a [u8],
    at: usize,
    progress: &mut Progress,
    visitor: &mut K,
) -> Result<Reading, K::Error>
    requires place { at < length block.now }
    requires bracket { get_or block.now at 0 ≡ 91 }
    ensures { IfOk result (λ reading. (file_start : Bool)
        → IsReading (K.kept visitor.old) (K.kept visitor.new) depth_limit file_start block.now at
        (state_of progress.old) (state_of progress.new) reading) }
{
    match tag_at(block, at + 1) {
        Some((name, contents, end)) => step_after(
            Token::Tag { name, contents },
            end,
            progress,
            visitor,
        ),
        None => Ok(Reading::Stuck),
    }
}

/// Reads the NAG at the place of the block.
#[inline(always)]
fn read_glyph<'a, K: TokenVisitor<'a>>(
    block: &'a [u8],
    at: usize,
    progress: &mut Progress,
    visitor: &mut K,
) -> Result<Reading, K::Error>
    requires place { at < length block.now }
    requires dollar { get_or block.now at 0 ≡ 36 }
    ensures { IfOk result (λ reading. (file_start : Bool)
        → IsReading (K.kept visitor.old) (K.kept visitor.new) depth_limit file_start block.now at
        (state_of progress.old) (state_of progress.new) reading) }
{
    match glyph_at(block, at + 1) {
        Some((number, end)) => step_after(Token::Glyph(number), end, progress, visitor),
        None => Ok(Reading::Stuck),
    }
}

/// Reads the part at the place of the block, of whatever kind.
#[inline(always)]
fn read_other<'a, K: TokenVisitor<'a>>(
    block: &'a [u8],
    at: usize,
    file_start: bool,
    progress: &mut Progress,
    visitor: &mut K,
) -> Result<Reading, K::Error>
    requires { at ≤ length block.now }
    ensures { IfOk result (λ reading.
        IsReading (K.kept visitor.old) (K.kept visitor.new) depth_limit file_start block.now at
        (state_of progress.old) (state_of progress.new) reading) }
{
    let Some((token, end)) = part_at(block, at, file_start) else {
        return Ok(Reading::Stuck);
    };
    if !token.is_result() {
        return step_after(token, end, progress, visitor);
    }
    if progress.is_closed() {
        Ok(Reading::Result(end))
    } else {
        Ok(Reading::Stuck)
    }
}

/// Reads the move at the place of the block, and answers the place after it.
#[inline(always)]
fn read_move<'a, K: TokenVisitor<'a>>(
    block: &'a [u8],
    at: usize,
    progress: &mut Progress,
    visitor: &mut K,
) -> Result<usize, K::Error>
    requires place { at < length block.now }
    requires letter { is_letter (get_or block.now at 0) ≡ true }
    ensures { IfOk result (λ end. (file_start : Bool)
        → IsReading (K.kept visitor.old) (K.kept visitor.new) depth_limit file_start block.now at
        (state_of progress.old) (state_of progress.new) (Reading.Move end)) }
{
    let end = run_end(ByteClass::Word, block, at + 1);
    progress.pass_move();
    visitor.keep(Token::Move(&block[at..end]))?;
    Ok(end)
}

/// Reads the part at the place of the block; the frequent kinds by their first byte.
#[inline(always)]
fn read_part<'a, K: TokenVisitor<'a>>(
    block: &'a [u8],
    at: usize,
    file_start: bool,
    progress: &mut Progress,
    visitor: &mut K,
) -> Result<Reading, K::Error>
    requires { at < length block.now }
    ensures { IfOk result (λ reading.
        IsReading (K.kept visitor.old) (K.kept visitor.new) depth_limit file_start block.now at
        (state_of progress.old) (state_of progress.new) reading) }
{
    let byte = block[at];
    if byte == b'{' {
        return read_comment(block, at, progress, visitor);
    }
    if is_in(ByteClass::Letter, byte) {
        let end = read_move(block, at, progress, visitor)?;
        return Ok(Reading::Move(end));
    }
    if is_in(ByteClass::White, byte) {
        return step_after(Token::Gap, at + 1, progress, visitor);
    }
    if let Some(end) = number_at(block, at) {
        progress.enter_movetext();
        visitor.keep(Token::Number)?;
        return Ok(Reading::Number(end));
    }
    if is_in(ByteClass::Mark, byte) {
        let end = run_end(ByteClass::Mark, block, at + 1);
        return step_after(Token::Marks(&block[at..end]), end, progress, visitor);
    }
    match byte {
        b'.' => step_after(Token::Dot, at + 1, progress, visitor),
        b'(' => step_after(Token::Open, at + 1, progress, visitor),
        b')' => step_after(Token::Close, at + 1, progress, visitor),
        b'[' => read_tag(block, at, progress, visitor),
        b'$' => read_glyph(block, at, progress, visitor),
        _ => read_other(block, at, file_start, progress, visitor),
    }
}

/// The place from which to read on after a move: after plain movetext, whose moves are kept.
#[inline(always)]
fn pass_plain<'a, K: TokenVisitor<'a>>(
    block: &'a [u8],
    at: usize,
    visitor: &mut K,
) -> Result<usize, K::Error>
    requires { at ≤ length block.now }
    ensures { IfOk result (λ end. (moves : List Item) × PlainTo block.now at moves end
        × AddsElements (K.kept visitor.old) (K.kept visitor.new) moves) }
{
    if at < block.len() && is_in(ByteClass::Name, block[at]) {
        visitor.keep_plain(block, at)
    } else {
        Ok(at)
    }
}

/// Reads the game at the place of the block, if one begins there: the places of its result and
/// after it.
#[inline(always)]
fn read_parts<'a, K: TokenVisitor<'a>>(
    block: &'a [u8],
    begin: usize,
    file_start: bool,
    visitor: &mut K,
) -> Result<Option<(usize, usize)>, K::Error>
    requires place { begin ≤ length block.now }
    requires outside { NoGapPartAt file_start block.now begin }
    ensures { IfOk result (λ read.
        MatchOption read
        (NoGame depth_limit file_start (take begin block.now) (drop begin block.now)) (λ found.
        (tags : List ℕ → Option (List ℕ)) × (items : List Item)
        × GameRead depth_limit file_start block.now begin found.0 found.1 tags items
        × (K.kept visitor.old (λ wanted. None) [] → K.kept visitor.new tags items))) }
{
    // (Gaps and periods are passed by branches, one a byte, which are mostly foreseen: a place that
    // is computed of bytes has to be waited for.)
    let mut progress = Progress::start();
    let mut at = begin;
    while at < block.len() {
        match read_part(block, at, file_start, &mut progress, visitor)? {
            Reading::Part(end) => at = run_end(ByteClass::White, block, end),
            Reading::Move(end) => {
                at = pass_plain(block, run_end(ByteClass::White, block, end), visitor)?;
            }
            Reading::Number(end) => {
                let dots = run_end(ByteClass::Period, block, end);
                at = run_end(ByteClass::White, block, dots);
                if at < block.len() && is_in(ByteClass::Letter, block[at]) {
                    let last = read_move(block, at, &mut progress, visitor)?;
                    at = pass_plain(block, run_end(ByteClass::White, block, last), visitor)?;
                }
            }
            Reading::Result(end) => return Ok(Some((at, end))),
            Reading::Stuck => return Ok(None),
        }
    }
    Ok(None)
}

/// The game at the place of the block, and the place after it, if a game begins there.
pub(crate) fn read_game<'a>(
    alloc: Global,
    block: &'a [u8],
    begin: usize,
    file_start: bool,
) -> Result<Option<(RawGame<'a>, usize)>, AllocError>
    requires place { begin ≤ length block.now }
    requires outside { NoGapPartAt file_start block.now begin }
    ensures { IfOk result (λ read.
        MatchOption read
        (NoGame depth_limit file_start (take begin block.now) (drop begin block.now)) (λ found.
        (parts : List Part) × GameTo depth_limit file_start block.now begin parts found.1
        × ShowsGame found.0 begin parts)) }
{
    let mut game_builder = GameBuilder::new(alloc)?;
    let Some((at, end)) = read_parts(block, begin, file_start, &mut game_builder)? else {
        return Ok(None);
    };
    let GameBuilder { tags, elements } = game_builder;
    let game = RawGame {
        at: begin,
        text: &block[begin..end],
        tags,
        elements,
        result: &block[at..end],
    };
    Ok(Some((game, end)))
}

/// The place after the game that begins at the place of the block, if one begins there.
pub(crate) fn game_end(block: &[u8], begin: usize, file_start: bool) -> Option<usize>
    requires place { begin ≤ length block.now }
    requires outside { NoGapPartAt file_start block.now begin }
    ensures { MatchOption result
        (NoGame depth_limit file_start (take begin block.now) (drop begin block.now)) (λ end.
        (parts : List Part) × GameTo depth_limit file_start block.now begin parts end) }
{
    match read_parts(block, begin, file_start, &mut DiscardTokens {}) {
        Ok(Some((_, end))) => Some(end),
        Ok(None) => None,
        Err(never) => match never {},
    }
}
