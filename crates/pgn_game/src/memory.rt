//! Games in memory: each function is an example of calls of this crate.

use crate::exports::exporter::export;
use crate::exports::style::Style;
use crate::exports::variations::Variations;
use crate::pack::{GameOrigin, put_record};
use crate::replays::replayer::{Lines, check_lines, replay};
use crate::turns::fault::GameFault;
use crate::turns::line_move::LineMove;
use crate::turns::replayed::Replayed;
use pgn_text::{Piece, RawGame, games};
use std::alloc::{AllocError, Global};

/// The exports of the games of a block that can be replayed.
pub fn exported(alloc: Global, block: &[u8], style: &Style) -> Result<Vec<u8>, AllocError> {
    let mut out = Vec::new(alloc);
    for piece in games(alloc, block, true) {
        if let Piece::Game(game) = piece? {
            match replay(alloc, &game, Lines::All) {
                Ok(replayed) => export(alloc, &game, &replayed, style, &mut out)?,
                Err(GameFault::OutOfMemory) => return Err(AllocError),
                Err(_) => {}
            }
        }
    }
    Ok(out)
}

/// Appends the first own ply of the variation that begins in front of what is left, if one does.
fn push_own_ply(plies: &mut Vec<usize>, left: &Variations<'_, '_>) -> Result<(), AllocError> {
    if let Some(variation) = left.here()? {
        plies.push(variation.own_ply)?;
    }
    Ok(())
}

/// The first own plies of the variations of a game, in the order of the text; or the first fault of
/// its lines.
pub fn own_plies<'a>(alloc: Global, game: &RawGame<'a>) -> Result<Vec<usize>, GameFault<'a>> {
    check_lines(alloc, game, Lines::All)?;
    let mut plies = Vec::new(alloc);
    let mut left = Variations::of_game(alloc, game);
    push_own_ply(&mut plies, &left)?;
    while left.go_on()? {
        push_own_ply(&mut plies, &left)?;
    }
    Ok(plies)
}

/// The turn that follows so many others in the order of the text, if there is one.
pub fn turn_after(replayed: &Replayed, count: usize) -> Option<LineMove> {
    if count < replayed.turns() {
        Some(replayed.turn(count))
    } else {
        None
    }
}

/// The record of the game that comes from there, made of a replay of these lines; or the fault of
/// the lines.
pub fn record_of<'a>(
    alloc: Global,
    origin: &GameOrigin,
    game: &RawGame<'a>,
    lines: Lines,
) -> Result<Vec<u8>, GameFault<'a>> {
    let replayed = replay(alloc, game, lines)?;
    let mut out = Vec::new(alloc);
    put_record(origin, game, &replayed, &mut out)?;
    Ok(out)
}
