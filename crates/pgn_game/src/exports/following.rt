//! The movetext of a game, written while the line of its opening is found.
ghost use Rattle.std.specs.Prelude.{◌≡◌, [], IfErr, IfOk, IfSome, None};
ghost use Rattle.pgn_text.specs.Public.GameTexts.{tag_in};
ghost use Rattle.pgn_game.specs.Public.Exports.{IsMovetext, lines_with};
ghost use Rattle.pgn_game.specs.Public.Faults.{HasLineFault};
ghost use Rattle.pgn_game.specs.Public.Openings.{HasLineOf, ends_of};
ghost use Rattle.pgn_game.specs.Public.Replays.{fault_of};
ghost use Rattle.pgn_game.specs.Public.Starts.{IsStart, fen_tag};
ghost use Rattle.pgn_game.specs.Private.Following.{FindsLine, Follows};

use crate::exports::movetext::{MovetextWriter, walk_lines};
use crate::exports::style::Style;
use crate::openings::Openings;
use crate::replays::walk::StepVisitor;
use crate::turns::fault::GameFault;
use crate::turns::line_move::LineMove;
use crate::turns::replayed::GamePosition;
use pgn_text::{Element, RawGame};
use std::alloc::{AllocError, Global};

/// A visitor that also follows the main line: the place of the line of its opening, as far as it
/// was played.
#[derive(Drop)]
struct Follower<'o, V> {
    inner: V,
    openings: &'o Openings,
    place: Option<usize>,
}

impl<'o, V: StepVisitor> Follower<'o, V> {
    /// At the start.
    fn new(inner: V, openings: &'o Openings, start: &GamePosition) -> Self
        ensures inner { result.inner ≡ inner }
        ensures openings { result.openings.now ≡ openings.now }
        ensures place { FindsLine (ends_of openings.now) None start.now result.place }
    {
        Follower {
            inner,
            openings,
            place: openings.line_after(None, start),
        }
    }
}

impl<'o, V: StepVisitor> StepVisitor for Follower<'o, V> {
    ghost does = { Follows V.does };

    ghost text = { λ follower. V.text follower.inner };

    fn turn<'a>(
        &mut self,
        position: &mut GamePosition,
        inside: bool,
        word: &'a [u8],
        ply: usize,
    ) -> Result<LineMove, GameFault<'a>> {
        let turn = self.inner.turn(position, inside, word, ply)?;
        if !inside {
            self.place = self.openings.line_after(self.place, position);
        }
        Ok(turn)
    }

    fn beside(&mut self, element: Element<'_>) -> Result<(), AllocError> {
        self.inner.beside(element)
    }
}

/// The movetext of a game that was played, and the place of the line of its opening, or none.
#[derive(Drop)]
pub struct Followed {
    pub movetext: Vec<u8>,
    pub place: Option<usize>,
}

/// The movetext of the game in the style, played from this start while it is written, and the place
/// of the line of its opening; or the first fault of a line that is written.
pub(crate) fn follow_movetext<'a>(
    alloc: Global,
    game: &RawGame<'a>,
    start: &GamePosition,
    style: &Style,
    openings: &Openings,
) -> Result<Followed, GameFault<'a>>
    requires { IsStart (tag_in fen_tag game.now.tags) start.now }
    ensures text { IfOk result (λ followed.
        IsMovetext style.now start.now game.now followed.movetext.items) }
    ensures line { IfOk result (λ followed. HasLineOf openings.now game.now followed.place) }
    ensures fault { IfErr result (λ fault.
        IfSome (fault_of fault)
        (HasLineFault (lines_with style.now.variations) start.now game.now.elements)) }
{
    let room = Vec::with_capacity(alloc, game.text().len())?;
    let writer = MovetextWriter::new(alloc, room, style);
    let mut follower = Follower::new(writer, openings, start);
    walk_lines(alloc, game, start, style.variations, &mut follower)?;
    let Follower { inner, place, .. } = follower;
    let MovetextWriter {
        out: mut movetext,
        mut wrapper,
        ..
    } = inner;
    wrapper.put_last(&mut movetext, game.result())?;
    Ok(Followed { movetext, place })
}
