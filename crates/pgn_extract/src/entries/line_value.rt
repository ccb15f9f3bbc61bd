//! What rows show of a main line that is kept: its move before a ply, and all of them.
ghost use Rattle.std.specs.Prelude.{◌≡◌, ◌≤◌, ◌++◌, [], List, ℕ, MatchOption, OnOk, IfSome, length};
ghost use Rattle.std.specs.List.{slice_get};
ghost use Rattle.chess.specs.Public.Moves.{IsLegal, after};
ghost use Rattle.chess.specs.Public.Positions.{State};
ghost use Rattle.chess.specs.Public.San.{IsSan};
ghost use Rattle.pgn_game.specs.Public.CodeLines.{AreLegalMoves};
ghost use Rattle.pgn_game.specs.Public.GameLines.{IsMoveText};
ghost use Rattle.pgn_game.specs.declared.exports.notation.Notation.TheVariants.{San, Uci};
ghost use Rattle.pgn_extract.specs.Private.KeptLines.{IsReached, line_of, replay_of};
ghost use Rattle.pgn_extract.specs.Private.RowTexts.{IsPlainValue};
ghost use Rattle.pgn_extract.specs.Public.Rows.{IsLastCell, AreMovesCell};
ghost use Rattle.pgn_extract.specs.Public.Rows.{IsLineCell};

use crate::entries::kept::Kept;
use crate::output::texts::{push_blank, push_number};
use crate::rows::column::LineColumn;
use crate::rows::uci::push_uci;
use chess::{Move, play_san, san};
use pgn_game::{GamePosition, Notation};
use std::alloc::AllocError;

/// Appends the standard text of a move of the position.
fn push_san(text: &mut Vec<u8>, position: &GamePosition, m: Move) -> Result<(), AllocError>
    requires { IsLegal position.now m }
    ensures { OnOk result ((value : List ℕ) × IsPlainValue value × IsSan position.now m value
        × (text.new.items ≡ text.old.items ++ value)) }
{
    position.invariant();
    text.extend_from_slice(san(position, m).as_bytes())?;
    Ok(())
}

/// Appends the move that is played in the position after so many plies, in a notation, and nothing
/// where none is.
pub(crate) fn push_played(
    text: &mut Vec<u8>,
    position: &GamePosition,
    played: &[Move],
    ply: usize,
    notation: Notation,
) -> Result<(), AllocError>
    requires within { ply ≤ length played.now }
    requires legal { IfSome (slice_get played.now ply) (IsLegal position.now) }
    ensures { OnOk result ((value : List ℕ) × IsPlainValue value
        × MatchOption (slice_get played.now ply) (value ≡ [])
        (λ m. IsMoveText notation position.now m value)
        × (text.new.items ≡ text.old.items ++ value)) }
{
    if ply == played.len() {
        return Ok(());
    }
    let m = played[ply];
    match notation {
        Notation::San => push_san(text, position, m),
        Notation::Uci => push_uci(text, m),
    }
}

/// Appends the move that led to the ply, in a notation, and nothing at the start.
fn push_last(text: &mut Vec<u8>, line: &Kept, notation: Notation) -> Result<(), AllocError>
    requires { IsReached line.now }
    ensures { OnOk result ((value : List ℕ) × IsPlainValue value
        × IsLastCell notation (line_of line.now) line.now.ply value
        × (text.new.items ≡ text.old.items ++ value)) }
{
    if line.ply == 0 {
        return Ok(());
    }
    push_played(
        text,
        line.last_position(),
        &line.played,
        line.ply - 1,
        notation,
    )
}

/// Plays a move, and appends its standard text.
fn play_move(text: &mut Vec<u8>, here: &mut GamePosition, m: Move) -> Result<(), AllocError>
    requires { IsLegal here.old m }
    ensures text { OnOk result ((value : List ℕ) × IsPlainValue value × IsSan here.old m value
        × (text.new.items ≡ text.old.items ++ value)) }
    ensures played { here.new ≡ after here.old m }
{
    here.invariant();
    text.extend_from_slice(play_san(here, m).as_bytes())?;
    Ok(())
}

/// Appends the standard texts of all moves, with blanks between.
fn push_sans(text: &mut Vec<u8>, start: &GamePosition, played: &[Move]) -> Result<(), AllocError>
    requires { AreLegalMoves start.now played.now }
    ensures { OnOk result ((value : List ℕ) × IsPlainValue value
        × AreMovesCell San (replay_of start.now played.now) value
        × (text.new.items ≡ text.old.items ++ value)) }
{
    if played.is_empty() {
        return Ok(());
    }
    let mut here = start.copy();
    play_move(text, &mut here, played[0])?;
    for ply in 1..played.len() {
        push_blank(text)?;
        play_move(text, &mut here, played[ply])?;
    }
    Ok(())
}

/// Appends all moves as `--uci` writes them, with blanks between.
fn push_squares(text: &mut Vec<u8>, played: &[Move]) -> Result<(), AllocError>
    requires { (start : State) × AreLegalMoves start played.now }
    ensures { OnOk result ((value : List ℕ) × IsPlainValue value
        × ((start : State) → AreLegalMoves start played.now
        → AreMovesCell Uci (replay_of start played.now) value)
        × (text.new.items ≡ text.old.items ++ value)) }
{
    if played.is_empty() {
        return Ok(());
    }
    push_uci(text, played[0])?;
    for ply in 1..played.len() {
        push_blank(text)?;
        push_uci(text, played[ply])?;
    }
    Ok(())
}

/// Appends all moves in a notation, with blanks between.
fn push_moves(text: &mut Vec<u8>, line: &Kept, notation: Notation) -> Result<(), AllocError>
    requires { AreLegalMoves line.now.start line.now.played.items }
    ensures { OnOk result ((value : List ℕ) × IsPlainValue value
        × AreMovesCell notation (line_of line.now) value
        × (text.new.items ≡ text.old.items ++ value)) }
{
    match notation {
        Notation::San => push_sans(text, &line.start, &line.played),
        Notation::Uci => push_squares(text, &line.played),
    }
}

/// Appends what a column shows of the main line at the ply that is reached.
pub(crate) fn push_line_value(
    text: &mut Vec<u8>,
    line: &Kept,
    column: LineColumn,
) -> Result<(), AllocError>
    requires { IsReached line.now }
    ensures { OnOk result ((value : List ℕ) × IsPlainValue value
        × IsLineCell column (line_of line.now) line.now.ply value
        × (text.new.items ≡ text.old.items ++ value)) }
{
    match column {
        LineColumn::Plies => push_number(text, line.played.len()),
        LineColumn::Last(notation) => push_last(text, line, notation),
        LineColumn::Moves(notation) => push_moves(text, line, notation),
    }
}
