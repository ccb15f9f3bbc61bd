//! The plies of a game that is replayed which meet criteria, found at once.
ghost use Rattle.std.specs.Prelude.{◌≡◌, ◌∷◌, ◌++◌, ◌+◌, [], List, IfOk, length};
ghost use Rattle.pgn_text.specs.Public.GameTexts.{tag_in};
ghost use Rattle.pgn_game.specs.Public.Replays.{Replay, IsSomeReplay};
ghost use Rattle.pgn_game.specs.Public.Starts.{fen_tag};
ghost use Rattle.pgn_criteria.specs.Public.Conditions.{Conditions};
ghost use Rattle.pgn_criteria.specs.Public.Meeting.{Heading, heading_of, AreMet};
ghost use Rattle.pgn_criteria.specs.Private.Stages.{AllGood, AreGood, AreLegal};

use crate::alternative::Alternative;
use crate::headed::Headed;
use crate::meets::Criteria;
use crate::spans::add_plies;
use pgn_game::Replayed;
use pgn_text::RawGame;
use std::alloc::{AllocError, Global};

/// For each ply of the main line the answer that it does not meet what there is none of.
pub(crate) fn no_plies(alloc: Global, plies: usize) -> Result<Vec<bool>, AllocError>
    ensures each { IfOk result (λ met. length met.items ≡ plies + 1) }
    ensures none { IfOk result (λ met. (heading : Heading) (replay : Replay)
        → length replay.positions ≡ plies + 1 → AreMet heading replay [] met.items) }
{
    let mut met = vec![in alloc; false; plies]?;
    met.push(false)?;
    Ok(met)
}

/// Adds the plies at which all conditions of one more alternative hold.
fn add_alternative<'a, H: Headed<'a>>(
    met: &mut [bool],
    alternative: &'a Alternative,
    game: &H,
    replayed: &Replayed,
)
    requires valid { H.valid game.now }
    requires good { AreGood alternative.now }
    requires legal { AreLegal replayed.now }
    ensures { (before : List Conditions) → AreMet (H.heading game.now) replayed.now before met.old
        → AreMet (H.heading game.now) replayed.now (before ++ alternative.now ∷ []) met.new }
{
    if alternative.is_of_game(game, replayed) {
        add_plies(met, alternative, replayed);
    }
}

/// For each ply of the main line whether all conditions of some alternative hold there.
fn met_by<'a, H: Headed<'a>>(
    alternatives: &'a [Alternative],
    alloc: Global,
    game: &H,
    replayed: &Replayed,
) -> Result<Vec<bool>, AllocError>
    requires valid { H.valid game.now }
    requires good { AllGood alternatives.now }
    requires legal { AreLegal replayed.now }
    ensures { IfOk result (λ met.
        AreMet (H.heading game.now) replayed.now alternatives.now met.items) }
{
    let mut met = no_plies(alloc, replayed.plies())?;
    for alternative in alternatives {
        add_alternative(&mut met, alternative, game, replayed);
    }
    Ok(met)
}

impl Criteria {
    /// For each ply of the main line, from 0 to its last, whether its position meets the criteria.
    /// The replay is to be that of the game, of its main line or of all its lines. Conditions on
    /// tags and on the first moves are decided once. The time that it takes grows as the number of
    /// plies does, however long the runs are that `for` asks for.
    pub fn met_plies<'a>(
        &'a self,
        alloc: Global,
        game: &RawGame<'a>,
        replayed: &Replayed,
    ) -> Result<Vec<bool>, AllocError>
        requires of_game { IsSomeReplay (tag_in fen_tag game.now.tags) game.now.elements
            replayed.now }
        ensures { IfOk result (λ met.
            AreMet (heading_of game.now) replayed.now self.now met.items) }
    {
        pgn_game::laws::one_legal_move();
        met_by(&self.alternatives, alloc, game, replayed)
    }
}
