//! Criteria and games in memory: each function is an example of a call of this crate.

use crate::meets::Criteria;
use pgn_game::{GameFault, Lines, replay};
use pgn_text::RawGame;
use std::alloc::{AllocError, Global};

/// The least ply of a game that meets criteria; none where it has none, or cannot be replayed.
pub fn first_met<'a>(
    alloc: Global,
    criteria: &'a Criteria,
    game: &RawGame<'a>,
) -> Result<Option<usize>, AllocError> {
    match replay(alloc, game, Lines::Main) {
        Ok(replayed) => Ok(criteria.first(game, &replayed, 0, u32::MAX)),
        Err(GameFault::OutOfMemory) => Err(AllocError),
        Err(_) => Ok(None),
    }
}

/// Whether a game has a position after so many plies that meets criteria.
pub fn is_met<'a>(
    alloc: Global,
    criteria: &'a Criteria,
    game: &RawGame<'a>,
    plies: usize,
) -> Result<bool, AllocError> {
    match replay(alloc, game, Lines::Main) {
        Ok(replayed) => Ok(plies <= replayed.plies() && criteria.meets(game, &replayed, plies)),
        Err(GameFault::OutOfMemory) => Err(AllocError),
        Err(_) => Ok(false),
    }
}
