//! The plies of a packed game that meet criteria, found while its line is played by the codes of
//! its plies.
ghost use Rattle.std.specs.Prelude.{◌≡◌, ◌≤◌, ◌++◌, List, length, map, MatchResult};
ghost use Rattle.chess.specs.declared.moves.Move.{Move};
ghost use Rattle.pgn_text.specs.Public.GameTexts.{GameText};
ghost use Rattle.pgn_game.specs.Public.CodeLines.{IsCodedLine, IsLegalLine};
ghost use Rattle.pgn_game.specs.Public.PackedGames.{PackedGame, IsPacked, FitsRecord};
ghost use Rattle.pgn_game.specs.Public.PackReading.{IsRawOfGame, raw_of};
ghost use Rattle.pgn_game.specs.Public.Replays.{Replay};
ghost use Rattle.pgn_criteria.specs.Public.Conditions.{Conditions};
ghost use Rattle.pgn_criteria.specs.Public.Meeting.{Heading, AreMet, heading_of};
ghost use Rattle.pgn_criteria.specs.Private.Stages.{AllOfGame, EachIs, FitsAt};
ghost use Rattle.pgn_criteria.specs.Private.Told.{AreTold, EachColumn};

use crate::alternative::Alternative;
use crate::meets::Criteria;
use crate::met::no_plies;
use crate::search::front_of;
use crate::told::{add_bits, add_columns};
use crate::turns::Turn;
use pgn_game::GamePosition;
use pgn_game::pack::{CodesError, RawRecord, next_coded, replay_codes};
use std::alloc::Global;

/// Plays the line from the position by the bytes of its codes, and answers for each of its plies
/// the bits of alternatives. No position is kept. Fails with `NoLine` where the bytes are those of
/// no line of legal moves.
fn bits_of_codes(
    alternatives: &[&Alternative],
    alloc: Global,
    start: &GamePosition,
    plies: &[u8],
) -> Result<Vec<u64>, CodesError>
    requires few { length alternatives.now ≤ 64 }
    ensures { MatchResult result
        (λ fits. (line : Replay) → IsLegalLine start.now line
        → IsCodedLine start.now plies.now line.played
        → EachColumn alternatives.now (λ a told. AreTold (FitsAt line a.now) told) fits.items)
        (λ error. error ≡ CodesError.NoLine → (moves : List Move)
        → IsCodedLine start.now plies.now moves → ⊥) }
{
    let mut fits = Vec::with_capacity(alloc, plies.len() / 3 + 1)?;
    let mut before = start.copy();
    let mut here = start.copy();
    let mut last = None;
    let mut left = plies;
    loop {
        let next = next_coded(&here, left)?;
        let turn = Turn {
            before: &before,
            last: &last,
            position: &here,
            next: &next,
        };
        add_bits(&mut fits, alternatives, turn)?;
        let Some(m) = &next else {
            return Ok(fits);
        };
        let [_, _, _, rest @ ..] = left else {
            unreachable!();
        };
        before.copy_from(&here);
        here = before.play(*m);
        last = next;
        left = rest;
    }
}

/// Adds the plies of the line from the position at which some of the alternatives is met, of which
/// what they say of the game is so.
fn add_coded(
    met: &mut [bool],
    alternatives: &[&Alternative],
    alloc: Global,
    start: &GamePosition,
    plies: &[u8],
) -> Result<(), CodesError>
    requires few { length alternatives.now ≤ 64 }
    ensures { MatchResult result
        (λ _. (line : Replay) → IsLegalLine start.now line
        → IsCodedLine start.now plies.now line.played
        → (heading : Heading) (before : List Conditions)
        → EachIs (AllOfGame heading line) (map (λ a. a.now) alternatives.now)
        → AreMet heading line before met.old
        → AreMet heading line (before ++ map (λ a. a.now) alternatives.now) met.new)
        (λ error. error ≡ CodesError.NoLine → (moves : List Move)
        → IsCodedLine start.now plies.now moves → ⊥) }
{
    let fits = bits_of_codes(alternatives, alloc, start, plies)?;
    add_columns(met, alternatives, alloc, &fits)?;
    Ok(())
}

/// For each ply of the line from the position, whether it meets some of the alternatives, of which
/// what they say of the game is so.
fn met_by_codes(
    left: &[&Alternative],
    alloc: Global,
    start: &GamePosition,
    plies: &[u8],
) -> Result<Vec<bool>, CodesError>
    ensures { MatchResult result
        (λ met. (line : Replay) → IsLegalLine start.now line
        → IsCodedLine start.now plies.now line.played
        → (heading : Heading) → EachIs (AllOfGame heading line) (map (λ a. a.now) left.now)
        → AreMet heading line (map (λ a. a.now) left.now) met.items)
        (λ error. error ≡ CodesError.NoLine → (moves : List Move)
        → IsCodedLine start.now plies.now moves → ⊥) }
{
    let mut met = no_plies(alloc, plies.len() / 3)?;
    let mut at = 0;
    while left.len() - at > 64 {
        add_coded(&mut met, &left[at..at + 64], alloc, start, plies)?;
        at += 64;
    }
    add_coded(&mut met, &left[at..], alloc, start, plies)?;
    Ok(met)
}

impl Criteria {
    /// For each ply of a packed game that starts there, from 0 to its last, whether its position
    /// meets the criteria. Its line is played by the codes of its plies, and no position is kept
    /// but those before the first moves of which conditions speak. Fails with `NoLine` where the
    /// codes are those of no line of legal moves.
    pub fn met_coded<'a>(
        &'a self,
        alloc: Global,
        record: &RawRecord<'a>,
        start: &GamePosition,
    ) -> Result<Vec<bool>, CodesError>
        requires { IsRawOfGame record.now }
        ensures { MatchResult result
            (λ met. (game : GameText) (replay : Replay) (packed : PackedGame)
            → IsPacked packed.name packed.number packed.offset game replay packed
            → FitsRecord packed → raw_of packed ≡ record.now → (line : Replay)
            → IsLegalLine start.now line → IsCodedLine start.now record.now.plies line.played
            → AreMet (heading_of game) line self.now met.items)
            (λ error. error ≡ CodesError.NoLine → (moves : List Move)
            → IsCodedLine start.now record.now.plies moves → ⊥) }
    {
        let plies = record.plies();
        let beginning = replay_codes(alloc, start.copy(), front_of(plies, self.most_words()))?;
        let left = self.left_of_begun(alloc, record, plies.len() / 3, &beginning)?;
        met_by_codes(&left, alloc, start, plies)
    }
}
