//! The plies at which some of several alternatives is met, told while a main line is played once.
ghost use Rattle.std.specs.Prelude.{◌≡◌, ◌↔◌, ◌⊎◌, ◌++◌, ◌∷◌, ◌≤◌, ◌<◌, [], ℕ, List, IsTrue};
ghost use Rattle.std.specs.Prelude.{IfSome, IfOk};
ghost use Rattle.std.specs.Prelude.{OnOk, MatchResult, map, length, get_or, false};
ghost use Rattle.chess.specs.Public.Moves.{IsLegal};
ghost use Rattle.pgn_text.specs.Public.GameTexts.{tag_in};
ghost use Rattle.pgn_game.specs.Public.Faults.{IsFault};
ghost use Rattle.pgn_game.specs.Public.Replays.{Replay, IsReplay, fault_of};
ghost use Rattle.pgn_game.specs.Public.Starts.{fen_tag};
ghost use Rattle.pgn_game.specs.declared.replays.replayer.Lines.TheVariants.{Main};
ghost use Rattle.pgn_criteria.specs.Public.Conditions.{Conditions};
ghost use Rattle.pgn_criteria.specs.Public.Meeting.{Heading, AreMet};
ghost use Rattle.pgn_criteria.specs.Public.Turns.{IsTurn};
ghost use Rattle.pgn_criteria.specs.Private.Stages.{AllOfGame, EachIs, FitsAt};
ghost use Rattle.pgn_criteria.specs.Private.Told.{AreBits, AreTold, EachColumn, IsTold, column};

use crate::alternative::Alternative;
use crate::played::keep_spans;
use crate::turns::{Turn, fits_turn};
use pgn_game::{GameFault, MainLine};
use pgn_text::RawGame;
use std::alloc::{AllocError, Global};

/// Adds one more number, with a bit for each alternative: whether what it says of the position, and
/// of the moves before and after it, is so.
pub(crate) fn add_bits(
    fits: &mut Vec<u64>,
    alternatives: &[&Alternative],
    turn: Turn<'_>,
) -> Result<(), AllocError>
    requires few { length alternatives.now ≤ 64 }
    requires last { IfSome turn.last.now (IsLegal turn.before.now) }
    requires next { IfSome turn.next.now (IsLegal turn.position.now) }
    ensures { OnOk result ((own : ℕ) × (fits.new.items ≡ fits.old.items ++ own ∷ [])
        × ((replay : Replay) (ply : ℕ)
        → IsTurn replay ply turn.entry.before.now turn.entry.last.now
        turn.entry.position.now turn.entry.next.now
        → AreBits alternatives.now (λ a. FitsAt replay a.now ply) own)) }
{
    let mut own = 0u64;
    let mut place = 0usize;
    for alternative in alternatives {
        if fits_turn(alternative, turn) {
            own |= 1 << place;
        }
        place += 1;
    }
    fits.push(own)?;
    Ok(())
}

/// Plays the main line of the game, and answers for each of its plies the bits of alternatives; or
/// the fault of the main line. No position is kept, and there is room for so many plies from the
/// first.
fn bits_of_plies<'a>(
    alternatives: &[&Alternative],
    alloc: Global,
    game: &RawGame<'a>,
    plies: usize,
) -> Result<Vec<u64>, GameFault<'a>>
    requires few { length alternatives.now ≤ 64 }
    ensures { MatchResult result
        (λ fits. (replay : Replay)
        × IsReplay Main (tag_in fen_tag game.now.tags) game.now.elements replay
        × (length fits.items ≡ length replay.positions)
        × EachColumn alternatives.now (λ a told. AreTold (FitsAt replay a.now) told) fits.items)
        (λ fault.
        IfSome (fault_of fault) (IsFault Main (tag_in fen_tag game.now.tags) game.now.elements)) }
{
    let mut line = MainLine::begin(alloc, game)?;
    let mut fits = Vec::with_capacity(alloc, plies.saturating_add(1))?;
    let mut before = line.position().copy();
    let mut here = line.position().copy();
    let mut last = None;
    loop {
        let next = line.advance_from(&mut here)?;
        let turn = Turn {
            before: &before,
            last: &last,
            position: &here,
            next: &next,
        };
        add_bits(&mut fits, alternatives, turn)?;
        if next.is_none() {
            return Ok(fits);
        }
        before.copy_from(&here);
        last = next;
    }
}

/// Whether each of them has this bit.
fn column_of(alloc: Global, fits: &[u64], place: usize) -> Result<Vec<bool>, AllocError>
    requires { place < 64 }
    ensures { IfOk result (λ told. told.items ≡ column place fits.now) }
{
    let mut told = Vec::with_capacity(alloc, fits.len())?;
    for own in fits {
        told.push((*own >> place) & 1 == 1)?;
    }
    Ok(told)
}

/// Adds the plies that are told.
pub(crate) fn add_told(met: &mut [bool], told: &[bool])
    ensures { (ply : ℕ) → ply < length met.old → IsTrue (get_or met.new ply false)
        ↔ (IsTrue (get_or met.old ply false) ⊎ IsTold told.now ply) }
{
    // (no branch, so that the compiler takes many plies at once)
    for ply in 0..met.len().min(told.len()) {
        met[ply] = met[ply] | told[ply];
    }
}

/// Adds the plies at which some of the alternatives is met, of which what they say of the game is
/// so: of each ply of its main line these are the bits of the alternatives.
pub(crate) fn add_columns(
    met: &mut [bool],
    alternatives: &[&Alternative],
    alloc: Global,
    fits: &[u64],
) -> Result<(), AllocError>
    requires few { length alternatives.now ≤ 64 }
    ensures { OnOk result ((replay : Replay)
        → EachColumn alternatives.now (λ a told. AreTold (FitsAt replay a.now) told) fits.now
        → (heading : Heading) (before : List Conditions)
        → EachIs (AllOfGame heading replay) (map (λ a. a.now) alternatives.now)
        → AreMet heading replay before met.old
        → AreMet heading replay (before ++ map (λ a. a.now) alternatives.now) met.new) }
{
    let mut place = 0usize;
    for alternative in alternatives {
        let mut told = column_of(alloc, fits, place)?;
        keep_spans(&mut told, alternative);
        add_told(met, &told);
        place += 1;
    }
    Ok(())
}

/// Adds the plies of the game at which some of the alternatives is met, of which what they say of
/// the game is so; or answers the fault of the main line.
pub(crate) fn add_met<'a>(
    met: &mut [bool],
    alternatives: &[&Alternative],
    alloc: Global,
    game: &RawGame<'a>,
) -> Result<(), GameFault<'a>>
    requires few { length alternatives.now ≤ 64 }
    ensures { MatchResult result
        (λ _. (replay : Replay)
        × IsReplay Main (tag_in fen_tag game.now.tags) game.now.elements replay
        × ((heading : Heading) (before : List Conditions)
        → EachIs (AllOfGame heading replay) (map (λ a. a.now) alternatives.now)
        → AreMet heading replay before met.old
        → AreMet heading replay (before ++ map (λ a. a.now) alternatives.now) met.new))
        (λ fault.
        IfSome (fault_of fault) (IsFault Main (tag_in fen_tag game.now.tags) game.now.elements)) }
{
    let fits = bits_of_plies(alternatives, alloc, game, met.len())?;
    add_columns(met, alternatives, alloc, &fits)?;
    Ok(())
}
