//! A game from a position of its main line on.
ghost use Rattle.std.specs.Prelude.{◌≡◌, ◌↔◌, IfOk, IsTrue, map};
ghost use Rattle.chess.specs.Public.Positions.{State};
ghost use Rattle.pgn_text.specs.Public.Elements.{item_of};
ghost use Rattle.pgn_text.specs.Public.GameTexts.{IsPaired};
ghost use Rattle.pgn_text.specs.Public.Strings.{IsContents};
ghost use Rattle.pgn_game.specs.Public.Edits.{IsEditedBy};
ghost use Rattle.pgn_game.specs.Public.LaterPlies.{IsLater, IsPositionAt, MayBeStart, later_plies};
ghost use Rattle.pgn_game.specs.Public.LaterPlies.{start_tags};

use crate::replays::replayer::replay_beginning;
use crate::turns::replayed::GamePosition;
use pgn_text::{Element, RawGame};
use std::alloc::{AllocError, Global};

/// The elements after so many moves of the main line: the comments in front of the next one, and
/// all from that move on.
fn later_elements<'a>(
    alloc: Global,
    elements: &[Element<'a>],
    plies: usize,
) -> Result<Vec<Element<'a>>, AllocError>
    ensures { IfOk result (λ own.
        map item_of own.items ≡ later_plies plies 0 (map item_of elements.now)) }
{
    let mut later = Vec::new(alloc);
    let mut left = plies;
    let mut depth = 0usize;
    let mut place = 0;
    for element in elements {
        match *element {
            Element::Move(_) if depth == 0 => {
                if left == 0 {
                    later.extend_from_slice(&elements[place..])?;
                    return Ok(later);
                }
                left -= 1;
            }
            Element::Comment(_) if depth == 0 && left == 0 => later.push(*element)?,
            Element::Open => depth += 1,
            Element::Close => depth = depth.saturating_sub(1),
            _ => {}
        }
        place += 1;
    }
    Ok(later)
}

/// Whether a game may begin with the position: the two counts in its text have seven digits at
/// most.
fn may_be_start(position: &GamePosition) -> bool
    ensures { IsTrue result ↔ MayBeStart position.now }
{
    position.clock() <= 9_999_999 && position.number() <= 9_999_999
}

/// The game with these elements, and with tags that give its start: this text in FEN.
fn begun<'b>(
    alloc: Global,
    game: &'b RawGame<'_>,
    elements: Vec<Element<'b>>,
    fen: &'b [u8],
) -> Result<RawGame<'b>, AllocError>
    requires paired { IsPaired 0 (map item_of elements.items) }
    requires fen { IsContents fen.now }
    ensures { IfOk result (IsEditedBy (start_tags fen.now)
        (record game.entry.now { elements = map item_of elements.entry.items })) }
{
    let own = game.with_elements(alloc, elements)?;
    let own = own.retagged(b"FEN", Some(fen))?;
    own.retagged(b"SetUp", Some(b"1"))
}

/// The game from the position on that stands after so many plies of its main line, whose text is
/// written to the vector. The game stays as it is where that is its own start, or where the counts
/// of the position have more digits than a text in FEN may have.
pub fn later_game<'b>(
    alloc: Global,
    game: &'b RawGame<'_>,
    ply: usize,
    fen: &'b mut Vec<u8>,
) -> Result<RawGame<'b>, AllocError>
    requires { (P : State) × IsPositionAt game.now ply P }
    ensures { IfOk result (IsLater ply game.entry.now) }
{
    let replayed = match replay_beginning(alloc, game, ply) {
        Ok(replayed) => replayed,
        Err(fault) => return Err(fault.refused()),
    };
    game.invariant();
    let position = replayed.position(replayed.plies());
    position.invariant();
    if ply == 0 || !may_be_start(position) {
        return game.beginning(alloc, game.elements().len());
    }
    *fen = Vec::from_slice(alloc, position.fen().as_bytes())?;
    let elements = later_elements(alloc, game.elements(), ply)?;
    let own = begun(alloc, game, elements, fen)?;
    own.invariant();
    Ok(own)
}
