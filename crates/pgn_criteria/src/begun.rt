//! The alternatives that hold of a game as a whole, as its heading, the number of its plies and its
//! first moves tell.
ghost use Rattle.std.specs.Prelude.{◌≡◌, ◌↔◌, ℕ, IsTrue, IfOk, length, map};
ghost use Rattle.pgn_game.specs.Public.Replays.{Replay};
ghost use Rattle.pgn_criteria.specs.Public.Meeting.{Meets};
ghost use Rattle.pgn_criteria.specs.Private.Counted.{AllOfBegun, AskWords, AsksWords, SaysOfBegun};
ghost use Rattle.pgn_criteria.specs.Private.Stages.{AllClaims, AllOfGame, AreLegal, EachIs};
ghost use Rattle.pgn_criteria.specs.Private.Stages.{FitTheSame, IsGood, game_seen, stated};

use crate::alternative::Alternative;
use crate::by_record::is_of_counted;
use crate::condition::{GameClaim, Stated};
use crate::headed::Headed;
use crate::meets::{Criteria, larger};
use crate::moves::fits_moves;
use crate::words::count_words;
use pgn_game::Replayed;
use std::alloc::{AllocError, Global};

/// Whether the condition is so of a game of so many plies that begins as this replay does.
fn is_of_begun<'a, H: Headed<'a>>(
    condition: &'a Stated<GameClaim<Vec<u8>>>,
    game: &H,
    plies: usize,
    beginning: &Replayed,
) -> bool
    requires valid { H.valid game.now }
    requires good { IsGood (game_seen (λ text. text.items) condition.now.claim) }
    requires legal { AreLegal beginning.now }
    ensures { IsTrue result
        ↔ SaysOfBegun (H.heading game.now) plies beginning.now condition.now.is_denied
        (game_seen (λ text. text.items) condition.now.claim) }
{
    match &condition.claim {
        GameClaim::Moves(words) => fits_moves(words, beginning) != condition.is_denied,
        _ => is_of_counted(condition, game, plies),
    }
}

/// Whether the conditions are so of a game of so many plies that begins as this replay does.
fn are_of_begun<'a, H: Headed<'a>>(
    conditions: &'a [Stated<GameClaim<Vec<u8>>>],
    game: &H,
    plies: usize,
    beginning: &Replayed,
) -> bool
    requires valid { H.valid game.now }
    requires good { AllClaims IsGood
        (map (stated (game_seen (λ text. text.items))) conditions.now) }
    requires legal { AreLegal beginning.now }
    ensures { IsTrue result
        ↔ AllOfBegun (H.heading game.now) plies beginning.now
        (map (stated (game_seen (λ text. text.items))) conditions.now) }
{
    for condition in conditions {
        if !is_of_begun(condition, game, plies, beginning) {
            return false;
        }
    }
    true
}

/// How many first moves of a game the claim asks for by their texts.
fn words_asked(claim: &GameClaim<Vec<u8>>) -> usize
    ensures { AsksWords result (game_seen (λ text. text.items) claim.now) }
{
    match claim {
        GameClaim::Moves(words) => count_words(words),
        _ => 0,
    }
}

/// How many first moves of a game the conditions ask for at most by their texts.
fn most_asked(conditions: &[Stated<GameClaim<Vec<u8>>>]) -> usize
    ensures { AllClaims (AsksWords result)
        (map (stated (game_seen (λ text. text.items))) conditions.now) }
{
    let mut most = 0;
    for condition in conditions {
        most = larger(most, words_asked(&condition.claim));
    }
    most
}

impl Criteria {
    /// How many first moves of a game the criteria ask for at most by their texts.
    pub(crate) fn most_words(&self) -> usize
        ensures { EachIs (AskWords result) self.now }
    {
        let mut most = 0;
        for alternative in &self.alternatives {
            most = larger(most, most_asked(&alternative.games));
        }
        most
    }

    /// The alternatives of which what they say of the game is so: it has so many plies, and begins
    /// as this replay does.
    pub(crate) fn left_of_begun<'a, H: Headed<'a>>(
        &'a self,
        alloc: Global,
        game: &H,
        plies: usize,
        beginning: &Replayed,
    ) -> Result<Vec<&'a Alternative>, AllocError>
        requires valid { H.valid game.now }
        requires legal { AreLegal beginning.now }
        ensures { IfOk result (λ left. (most : ℕ) (replay : Replay)
            → EachIs (AskWords most) self.now → length replay.played ≡ plies
            → FitTheSame most beginning.now replay
            → EachIs (AllOfGame (H.heading game.now) replay) (map (λ a. a.now) left.items)
            × ((ply : ℕ) → Meets (H.heading game.now) replay ply (map (λ a. a.now) left.items)
            ↔ Meets (H.heading game.now) replay ply self.now)) }
    {
        let mut left = Vec::new(alloc);
        for alternative in &self.alternatives {
            if are_of_begun(&alternative.games, game, plies, beginning) {
                left.push(alternative)?;
            }
        }
        Ok(left)
    }
}
