//! A game written in the export format.
ghost use Rattle.std.specs.Prelude.{◌≡◌, ◌++◌, ◌∷◌, ℕ, List, [], IfErr, IfOk, IfSome, None, OnErr};
ghost use Rattle.std.specs.Prelude.{OnOk, map};
ghost use Rattle.chess.specs.Public.Positions.{State};
ghost use Rattle.pgn_text.specs.Public.GameTexts.{GameText, IsGameText, tag_in};
ghost use Rattle.pgn_game.specs.Public.Exports.{IsReplayFor, IsExport, IsMovetext, lines_with};
ghost use Rattle.pgn_game.specs.Public.Faults.{HasLineFault, IsFault};
ghost use Rattle.pgn_game.specs.Public.Openings.{HasLineOf, IsClassified};
ghost use Rattle.pgn_game.specs.Public.Replays.{IsSoundGame, fault_of};
ghost use Rattle.pgn_game.specs.Public.Starts.{IsStart, fen_tag};
ghost use Rattle.pgn_game.specs.Public.TagLines.{AreTagLines};

use crate::exports::following::{Followed, follow_movetext};
use crate::exports::movetext::put_movetext;
use crate::exports::style::Style;
use crate::exports::tag_lines::put_tags;
use crate::openings::Openings;
use crate::turns::fault::GameFault;
use crate::turns::replayed::{GamePosition, Replayed};
use crate::turns::starting::starting_position;
use pgn_text::RawGame;
use std::alloc::{AllocError, Global};

/// Ends a line.
fn put_end(out: &mut Vec<u8>) -> Result<(), AllocError>
    ensures ended { OnOk result (out.new.items ≡ out.old.items ++ 10 ∷ []) }
    ensures kept { (some : List ℕ) × (out.new.items ≡ out.old.items ++ some) }
{
    out.push(b'\n')?;
    Ok(())
}

/// Appends the export of the game, which is played from this start; where a line is faulty or
/// memory is refused, some bytes of it.
fn put_export<'a>(
    alloc: Global,
    game: &RawGame<'a>,
    start: &GamePosition,
    style: &Style,
    out: &mut Vec<u8>,
) -> Result<(), GameFault<'a>>
    requires { IsStart (tag_in fen_tag game.now.tags) start.now }
    ensures text { OnOk result ((text : List ℕ) × IsExport style.now game.now text
        × (out.new.items ≡ out.old.items ++ text)) }
    ensures fault { IfErr result (λ fault.
        IfSome (fault_of fault)
        (HasLineFault (lines_with style.now.variations) start.now game.now.elements)) }
    ensures kept { (some : List ℕ) × (out.new.items ≡ out.old.items ++ some) }
{
    put_tags(game, &[], style, out)?;
    put_end(out)?;
    put_movetext(alloc, game, start, style, out)?;
    Ok(put_end(out)?)
}

/// Appends the export of the game, which is played from this start; where a line is faulty or
/// memory is refused, nothing is appended.
fn put_or_leave<'a>(
    alloc: Global,
    game: &RawGame<'a>,
    start: &GamePosition,
    style: &Style,
    out: &mut Vec<u8>,
) -> Result<(), GameFault<'a>>
    requires { IsStart (tag_in fen_tag game.now.tags) start.now }
    ensures text { OnOk result ((text : List ℕ) × IsExport style.now game.now text
        × (out.new.items ≡ out.old.items ++ text)) }
    ensures fault { IfErr result (λ fault.
        IfSome (fault_of fault)
        (HasLineFault (lines_with style.now.variations) start.now game.now.elements)) }
    ensures left { OnErr result (out.new.items ≡ out.old.items) }
{
    let length = out.len();
    let put = put_export(alloc, game, start, style, out);
    if put.is_err() {
        out.truncate(length);
    }
    put
}

/// Appends the export of the game in the style, played while it is written: its tags, one a line,
/// an empty line, its movetext in lines, and an empty line. Where a line that is written is faulty,
/// the first fault is answered; then, and where memory is refused, nothing is appended.
pub fn export_played<'a>(
    alloc: Global,
    game: &RawGame<'a>,
    style: &Style,
    out: &mut Vec<u8>,
) -> Result<(), GameFault<'a>>
    ensures text { OnOk result ((text : List ℕ) × IsExport style.now game.now text
        × (out.new.items ≡ out.old.items ++ text)) }
    ensures sound { OnOk result
        (IsSoundGame (lines_with style.now.variations) (tag_in fen_tag game.now.tags)
        game.now.elements) }
    ensures fault { IfErr result (λ fault.
        IfSome (fault_of fault)
        (IsFault (lines_with style.now.variations) (tag_in fen_tag game.now.tags)
        game.now.elements)) }
    ensures left { OnErr result (out.new.items ≡ out.old.items) }
{
    let start = starting_position(alloc, game.tags())?;
    put_or_leave(alloc, game, &start, style, out)
}

/// The movetext of the game in the style, played while it is written. Where a line that is written
/// is faulty, the first fault is answered.
pub(crate) fn play_movetext<'a>(
    alloc: Global,
    game: &RawGame<'a>,
    style: &Style,
) -> Result<Vec<u8>, GameFault<'a>>
    ensures text { IfOk result (λ movetext. (start : State)
        × IsStart (tag_in fen_tag game.now.tags) start
        × IsMovetext style.now start game.now movetext.items) }
    ensures fault { IfErr result (λ fault.
        IfSome (fault_of fault)
        (IsFault (lines_with style.now.variations) (tag_in fen_tag game.now.tags)
        game.now.elements)) }
{
    let start = starting_position(alloc, game.tags())?;
    let mut movetext = Vec::with_capacity(alloc, game.text().len())?;
    put_movetext(alloc, game, &start, style, &mut movetext)?;
    Ok(movetext)
}

/// Appends the tags of the game, with those first that are asked for first, an empty line, this
/// movetext and an empty line; where memory is refused, some bytes of these.
pub(crate) fn put_parts(
    game: &RawGame,
    order: &[Vec<u8>],
    movetext: &[u8],
    style: &Style,
    out: &mut Vec<u8>,
) -> Result<(), AllocError>
    ensures text { OnOk result ((head : List ℕ)
        × AreTagLines (map (λ name. name.items) order.now) style.now game.now.tags game.now.result
        head
        × (out.new.items ≡ out.old.items ++ (head ++ 10 ∷ (movetext.now ++ 10 ∷ [])))) }
    ensures kept { (some : List ℕ) × (out.new.items ≡ out.old.items ++ some) }
{
    put_tags(game, order, style, out)?;
    put_end(out)?;
    out.extend_from_slice(movetext)?;
    put_end(out)
}

/// Appends the tags of the game, with those first that are asked for first, an empty line, this
/// movetext and an empty line; where memory is refused, nothing is appended.
pub(crate) fn put_parts_or_leave(
    game: &RawGame,
    order: &[Vec<u8>],
    movetext: &[u8],
    style: &Style,
    out: &mut Vec<u8>,
) -> Result<(), AllocError>
    ensures text { OnOk result ((head : List ℕ)
        × AreTagLines (map (λ name. name.items) order.now) style.now game.now.tags game.now.result
        head
        × (out.new.items ≡ out.old.items ++ (head ++ 10 ∷ (movetext.now ++ 10 ∷ [])))) }
    ensures left { OnErr result (out.new.items ≡ out.old.items) }
{
    let before = out.len();
    let put = put_parts(game, order, movetext, style, out);
    if put.is_err() {
        out.truncate(before);
    }
    put
}

/// Plays the game as an export in the style would, and answers its movetext and the place of the
/// line of its opening. Where a line that is written is faulty, the first fault is answered.
pub fn follow_export<'a>(
    alloc: Global,
    game: &RawGame<'a>,
    style: &Style,
    openings: &Openings,
) -> Result<Followed, GameFault<'a>>
    ensures text { IfOk result (λ followed. (start : State)
        × IsStart (tag_in fen_tag game.now.tags) start
        × IsMovetext style.now start game.now followed.movetext.items) }
    ensures line { IfOk result (λ followed. HasLineOf openings.now game.now followed.place) }
    ensures sound { OnOk result
        (IsSoundGame (lines_with style.now.variations) (tag_in fen_tag game.now.tags)
        game.now.elements) }
    ensures fault { IfErr result (λ fault.
        IfSome (fault_of fault)
        (IsFault (lines_with style.now.variations) (tag_in fen_tag game.now.tags)
        game.now.elements)) }
{
    let start = starting_position(alloc, game.tags())?;
    follow_movetext(alloc, game, &start, style, openings)
}

/// Appends the export of the game as it counts: with the tags of its opening, where it was played
/// by [`follow_export`]. Where memory is refused, nothing is appended.
pub fn export_followed<'a>(
    game: RawGame<'a>,
    followed: &Followed,
    style: &Style,
    openings: &'a Openings,
    out: &mut Vec<u8>,
) -> Result<(), AllocError>
    requires text { (start : State) × IsStart (tag_in fen_tag game.tags) start
        × IsMovetext style.now start game followed.now.movetext.items }
    requires line { HasLineOf openings.now game followed.now.place }
    ensures text { OnOk result ((own : GameText) × IsClassified openings.now game.entry own
        × IsGameText own × (text : List ℕ) × IsExport style.now own text
        × (out.new.items ≡ out.old.items ++ text)) }
    ensures left { OnErr result (out.new.items ≡ out.old.items) }
{
    let own = openings.named_by(game, followed.place)?;
    own.invariant();
    put_parts_or_leave(&own, &[], &followed.movetext, style, out)
}

/// Appends the export of the game in the style: its tags, one a line, an empty line, its movetext
/// in lines, and an empty line. The replay is one of the game, and of all its lines where the style
/// keeps variations. Where memory is refused, nothing is appended.
pub fn export<'a>(
    alloc: Global,
    game: &RawGame<'a>,
    replayed: &Replayed,
    style: &Style,
    out: &mut Vec<u8>,
) -> Result<(), AllocError>
    requires { IsReplayFor style.now (tag_in fen_tag game.now.tags) game.now.elements replayed.now }
    ensures text { OnOk result ((text : List ℕ) × IsExport style.now game.now text
        × (out.new.items ≡ out.old.items ++ text)) }
    ensures left { OnErr result (out.new.items ≡ out.old.items) }
{
    match put_or_leave(alloc, game, replayed.position(0), style, out) {
        Ok(()) => Ok(()),
        Err(fault) => Err(fault.refused()),
    }
}
