//! At which word of a game its replay ends, and why.
ghost use Rattle.std.specs.Prelude.{◌≡◌, ◌+◌, ◌<◌, ◌≤◌, ◌↔◌, ℕ, map, None, MatchOption};
ghost use Rattle.std.specs.Prelude.{MatchResult, IfOk, IfSome, IsTrue, OnOk};
ghost use Rattle.pgn_text.specs.Public.Elements.{item_of};
ghost use Rattle.pgn_text.specs.Public.GameTexts.{IsPaired, tag_in};
ghost use Rattle.pgn_game.specs.Public.Starts.{fen_tag, IsBadStart};
ghost use Rattle.pgn_game.specs.Public.Faults.{Fault, BadStart, NamesSeveral, IsFault};
ghost use Rattle.pgn_game.specs.Public.Faults.{HasLineFault, IsRefusedTurn};
ghost use Rattle.pgn_game.specs.Public.Refusals.{AreNamed, IsWhy, IsRefusedAt, IsRefusedFrom};
ghost use Rattle.pgn_game.specs.Private.RefusalWalks.{AddsFrom, IsCounted, GoesOn, IsRefusedHere};
ghost use Rattle.pgn_game.specs.Public.Replays.{fault_of};

use crate::replays::line_stack::LineStack;
use crate::replays::replayer::Lines;
use crate::replays::walk::{DiscardSteps, Level, step};
use crate::turns::fault::GameFault;
use crate::turns::replayed::GamePosition;
use crate::turns::saying::is_null_move;
use crate::turns::starting::starting_position;
use chess::{Move, Refusal, SanError, Square, named_from, resolve, why_unnamed};
use pgn_text::{Element, RawGame};
use std::alloc::{AllocError, Global};

/// Why a word is refused.
#[derive(Clone, Copy, Debug, PartialEq, Eq)]
pub enum Why {
    /// It is a pass in a variation, of a side in check.
    PassInCheck,
    /// It names several legal moves.
    Ambiguous,
    /// It names none.
    Illegal(Refusal),
}

/// The first word of a game, in the order of the text, that is refused.
#[derive(Drop)]
pub struct Refused<'a> {
    /// The index of its element among those of the game.
    pub element: usize,
    /// The word as it stands.
    pub word: &'a [u8],
    /// The position in which it is refused.
    pub position: GamePosition,
    /// Why it is refused.
    pub why: Why,
}

/// Why the word, which says nothing that can be played in the position, is refused; in a variation
/// or not.
fn why_refused(position: &GamePosition, inside: bool, word: &[u8]) -> Why
    requires { (plies : ℕ) × (fault : Fault)
        × IsRefusedTurn inside position.now plies word.now fault }
    ensures { IsWhy inside position.now word.now result }
{
    if is_null_move(inside, word) {
        return Why::PassInCheck;
    }
    if is_ambiguous(position, word) {
        return Why::Ambiguous;
    }
    Why::Illegal(why_unnamed(position, word))
}

/// Whether the word names several legal moves.
fn is_ambiguous(position: &GamePosition, word: &[u8]) -> bool
    ensures { IsTrue result ↔ NamesSeveral position.now word.now }
{
    matches!(resolve(position, word), Err(SanError::Several))
}

/// Whether memory was refused.
fn is_out_of_memory(fault: GameFault<'_>) -> bool
    ensures { IsTrue result ↔ (fault_of fault.entry ≡ None) }
{
    matches!(fault, GameFault::OutOfMemory)
}

/// Whether the element is played, where these lines are replayed and so many variations are open;
/// counts those that are open after it.
fn is_played(lines: Lines, element: Element<'_>, depth: &mut usize) -> bool
    requires { depth.old < usize.MAX }
    ensures counted { IsCounted lines (item_of element.entry) depth.old depth.new result }
    ensures within { depth.new ≤ depth.old + 1 }
{
    match (lines, element) {
        (Lines::All, _) => true,
        (Lines::Main, Element::Move(_)) => *depth == 0,
        (Lines::Main, Element::Open) => {
            *depth += 1;
            false
        }
        (Lines::Main, Element::Close) => {
            *depth = depth.saturating_sub(1);
            false
        }
        (Lines::Main, _) => false,
    }
}

/// Goes on by the element, or answers why its word is refused; it has this index.
fn go_on<'a>(
    stack: &mut LineStack<Level>,
    element: Element<'a>,
    index: usize,
) -> Result<Option<Refused<'a>>, AllocError>
    requires { stack.old.line.plies < usize.MAX }
    ensures { IfOk result (λ found.
        MatchOption found (GoesOn stack.old (item_of element.entry) stack.new)
        (IsRefusedHere stack.old (item_of element.entry) index)) }
{
    let inside = stack.is_inside();
    let position = stack.line.now.copy();
    let Err(fault) = step(stack, element, &mut DiscardSteps) else {
        return Ok(None);
    };
    match element {
        Element::Move(word) if !is_out_of_memory(fault) => {
            let why = why_refused(&position, inside, word);
            Ok(Some(Refused {
                element: index,
                word,
                position,
                why,
            }))
        }
        _ => Err(AllocError),
    }
}

/// The first word of these lines of the elements, played from the position, that is refused.
fn first_refused<'a>(
    alloc: Global,
    start: &GamePosition,
    elements: &[Element<'a>],
    lines: Lines,
) -> Result<Option<Refused<'a>>, AllocError>
    requires { IsPaired 0 (map item_of elements.now) }
    ensures { IfOk result (λ found. MatchOption found
        ((fault : Fault) → HasLineFault lines start.now (map item_of elements.now) fault → ⊥)
        (IsRefusedFrom lines start.now (map item_of elements.now))) }
{
    let mut stack = LineStack::new(alloc, Level::first(start));
    let mut depth = 0usize;
    for index in 0..elements.len() {
        let element = elements[index];
        if is_played(lines, element, &mut depth) {
            if let Some(refused) = go_on(&mut stack, element, index)? {
                return Ok(Some(refused));
            }
        }
    }
    Ok(None)
}

/// The first word of these lines of the game that is refused, where its start is not: none, where
/// the lines can be replayed. This plays the game once more, and is for a game whose fault is
/// known.
pub fn refused_word<'a>(
    alloc: Global,
    raw: &RawGame<'a>,
    lines: Lines,
) -> Result<Option<Refused<'a>>, GameFault<'a>>
    ensures { MatchResult result
        (λ found. MatchOption found
        ((fault : Fault) → IsFault lines (tag_in fen_tag raw.now.tags) raw.now.elements fault → ⊥)
        (IsRefusedAt lines (tag_in fen_tag raw.now.tags) raw.now.elements))
        (λ fault. IfSome (fault_of fault) (λ reported. IsBadStart (tag_in fen_tag raw.now.tags)
        × (reported ≡ BadStart))) }
{
    let start = starting_position(alloc, raw.tags())?;
    Ok(first_refused(alloc, &start, raw.elements(), lines)?)
}

/// Adds the legal move that the word names from the square, if there is one.
fn push_named(
    moves: &mut Vec<Move>,
    position: &GamePosition,
    word: &[u8],
    from: Square,
) -> Result<(), AllocError>
    ensures { OnOk result (AddsFrom position.now word.now from moves.old.items moves.new.items) }
{
    let Some(m) = named_from(position, word, from) else {
        return Ok(());
    };
    moves.push(m)?;
    Ok(())
}

/// The legal moves that the word names in the position, in the order of the squares from which they
/// go: a1, b1 to h1, a2 and so on.
pub fn named_moves(
    alloc: Global,
    position: &GamePosition,
    word: &[u8],
) -> Result<Vec<Move>, AllocError>
    ensures { IfOk result (λ moves. AreNamed position.now word.now moves.items) }
{
    let mut moves = Vec::new(alloc);
    for index in 0u8..64 {
        push_named(&mut moves, position, word, Square::of_index(index))?;
    }
    Ok(moves)
}
