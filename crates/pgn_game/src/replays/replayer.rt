//! Replay of a game.
ghost use Rattle.std.specs.Prelude.{MatchResult, IfSome, IsTrue, map};
ghost use Rattle.pgn_text.specs.Public.Elements.{item_of};
ghost use Rattle.pgn_text.specs.Public.GameTexts.{tag_in};
ghost use Rattle.pgn_game.specs.Public.Starts.{fen_tag};
ghost use Rattle.pgn_game.specs.Public.Faults.{IsFault};
ghost use Rattle.pgn_game.specs.Private.LineWalks.{IsFlat};
ghost use Rattle.pgn_game.specs.Public.Beginnings.{IsGameBeginning};
ghost use Rattle.pgn_game.specs.Public.Replays.{IsReplay, IsSoundGame, HasPlies, fault_of};
ghost use Rattle.pgn_game.specs.declared.replays.replayer.Lines.TheVariants.{All, Main};

use crate::replays::all_lines::play_all_lines;
use crate::replays::main_line::{count_main_line, play_beginning, play_main_line};
use crate::replays::walk::check_all_lines;
use crate::turns::fault::GameFault;
use crate::turns::replayed::Replayed;
use crate::turns::starting::starting_position;
use pgn_text::{Element, RawGame};
use std::alloc::Global;

/// Which lines of a game are replayed.
#[derive(Clone, Copy, Debug, PartialEq, Eq)]
pub enum Lines {
    /// The main line; what stands in variations is not looked at.
    Main,
    /// All lines: each variation is played from the position before the move that it stands for,
    /// and `--` and `Z0` are a pass in it.
    All,
}

/// Plays the lines of the game from its start: the position of its FEN tag, or the initial one.
/// Each move is the only legal move that its word names, and no pass is made in check. At the first
/// word in the order of the text that can't be played so, the game is refused for it; the word's
/// ply is counted along its own line, where the first move of a variation has the ply of the move
/// that it stands for.
pub fn replay<'a>(alloc: Global, raw: &RawGame<'a>, lines: Lines) -> Result<Replayed, GameFault<'a>>
    ensures { MatchResult result
        (λ replayed. IsReplay lines (tag_in fen_tag raw.now.tags) raw.now.elements replayed)
        (λ fault.
        IfSome (fault_of fault) (IsFault lines (tag_in fen_tag raw.now.tags) raw.now.elements)) }
{
    let start = starting_position(alloc, raw.tags())?;
    match lines {
        Lines::Main => play_main_line(alloc, start, raw.elements()),
        Lines::All => play_all_lines(alloc, &start, raw.elements()),
    }
}

/// Plays these lines of the game and keeps nothing of them: whether they are sound, or the fault of
/// a replay of them.
pub fn check_lines<'a>(alloc: Global, raw: &RawGame<'a>, lines: Lines) -> Result<(), GameFault<'a>>
    ensures { MatchResult result
        (λ _. IsSoundGame lines (tag_in fen_tag raw.now.tags) raw.now.elements)
        (λ fault.
        IfSome (fault_of fault) (IsFault lines (tag_in fen_tag raw.now.tags) raw.now.elements)) }
{
    let start = starting_position(alloc, raw.tags())?;
    match lines {
        Lines::Main => {
            count_main_line(start, raw.elements())?;
            Ok(())
        }
        Lines::All => check_all_lines(alloc, &start, raw.elements()),
    }
}

/// Whether none of the elements begins a variation.
pub(crate) fn is_flat(elements: &[Element<'_>]) -> bool
    ensures { IsTrue result → IsFlat (map item_of elements.now) }
{
    for element in elements {
        if matches!(element, Element::Open) {
            return false;
        }
    }
    true
}

/// Whether all lines are sound of a game whose main line is; or the fault of a replay of them.
/// Without variations nothing is played.
pub fn check_variations<'a>(alloc: Global, raw: &RawGame<'a>) -> Result<(), GameFault<'a>>
    requires { IsSoundGame Main (tag_in fen_tag raw.now.tags) raw.now.elements }
    ensures { MatchResult result
        (λ _. IsSoundGame All (tag_in fen_tag raw.now.tags) raw.now.elements)
        (λ fault.
        IfSome (fault_of fault) (IsFault All (tag_in fen_tag raw.now.tags) raw.now.elements)) }
{
    raw.invariant();
    if is_flat(raw.elements()) {
        return Ok(());
    }
    check_lines(alloc, raw, Lines::All)
}

/// Plays the main line of the game up to so many plies, or to its end, and keeps the positions so
/// far.
pub fn replay_beginning<'a>(
    alloc: Global,
    raw: &RawGame<'a>,
    most: usize,
) -> Result<Replayed, GameFault<'a>>
    ensures { MatchResult result
        (IsGameBeginning (tag_in fen_tag raw.now.tags) raw.now.elements most)
        (λ fault.
        IfSome (fault_of fault) (IsFault Main (tag_in fen_tag raw.now.tags) raw.now.elements)) }
{
    let start = starting_position(alloc, raw.tags())?;
    play_beginning(alloc, start, raw.elements(), most)
}

/// Counts the plies of the main line of the game, or reports its fault: just as a replay of the
/// main line, but no position is kept.
#[inline(never)]
pub fn count_plies<'a>(alloc: Global, raw: &RawGame<'a>) -> Result<usize, GameFault<'a>>
    ensures { MatchResult result
        (HasPlies (tag_in fen_tag raw.now.tags) raw.now.elements)
        (λ fault.
        IfSome (fault_of fault) (IsFault Main (tag_in fen_tag raw.now.tags) raw.now.elements)) }
{
    let start = starting_position(alloc, raw.tags())?;
    count_main_line(start, raw.elements())
}
