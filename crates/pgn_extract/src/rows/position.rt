//! What columns show of a position: the men on the board, the sign of a check, the material.
ghost use Rattle.std.specs.Prelude.{◌≡◌, ◌++◌, ℕ, List, OnOk};
ghost use Rattle.pgn_criteria.specs.Public.Materials.{count_of as men_count};
ghost use Rattle.pgn_extract.specs.Private.PositionSigns.{sign_text};
ghost use Rattle.pgn_extract.specs.Public.PositionCells.{IsMenText, IsCheckText, counted_letter};
ghost use Rattle.pgn_extract.specs.Public.PositionCells.{side_men_text, material_text};

use crate::output::texts::push_number;
use crate::rows::list::split_run;
use chess::{Kind, Man, Side};
use pgn_game::GamePosition;
use std::alloc::AllocError;

/// Appends the men on the board, as the first field of the text in FEN has them.
pub(crate) fn push_men(text: &mut Vec<u8>, position: &GamePosition) -> Result<(), AllocError>
    ensures { OnOk result ((men : List ℕ) × IsMenText position.now men
        × (text.new.items ≡ text.old.items ++ men)) }
{
    let fen = position.fen();
    text.extend_from_slice(split_run(fen.as_bytes(), b' ').0)
}

/// The sign of a check, of mate or of stalemate, and nothing where there is none.
fn sign_of(is_check: bool, has_move: bool) -> &'static [u8]
    ensures { result.now ≡ sign_text is_check has_move }
{
    if has_move {
        if is_check { b"+" } else { b"" }
    } else {
        if is_check { b"#" } else { b"=" }
    }
}

/// The sign that the position has.
pub(crate) fn check_sign(position: &GamePosition) -> &'static [u8]
    ensures { IsCheckText position.now result.now }
{
    sign_of(position.in_check(), position.has_move())
}

/// Appends the letter of so many men of a kind, with their number after it where there are two or
/// more.
fn push_counted(text: &mut Vec<u8>, letter: u8, count: u32) -> Result<(), AllocError>
    ensures { OnOk result (text.new.items ≡ text.old.items ++ counted_letter letter count) }
{
    if count == 0 {
        return Ok(());
    }
    text.push(letter)?;
    if count == 1 {
        return Ok(());
    }
    push_number(text, count as usize)
}

/// How many men of the kind the side has.
fn count_of(position: &GamePosition, side: Side, kind: Kind) -> u32
    ensures { result ≡ men_count position.now.men (record { side = side; kind = kind }) }
{
    position.squares_of(Man { side, kind }).count()
}

/// Appends the men that the side has, from its king to its pawns.
fn push_side(text: &mut Vec<u8>, position: &GamePosition, side: Side) -> Result<(), AllocError>
    ensures { OnOk result (text.new.items
        ≡ text.old.items ++ side_men_text position.now.men side) }
{
    push_counted(text, b'K', count_of(position, side, Kind::King))?;
    push_counted(text, b'Q', count_of(position, side, Kind::Queen))?;
    push_counted(text, b'R', count_of(position, side, Kind::Rook))?;
    push_counted(text, b'B', count_of(position, side, Kind::Bishop))?;
    push_counted(text, b'N', count_of(position, side, Kind::Knight))?;
    push_counted(text, b'P', count_of(position, side, Kind::Pawn))
}

/// Appends the men that White has and those that Black has.
pub(crate) fn push_material(text: &mut Vec<u8>, position: &GamePosition) -> Result<(), AllocError>
    ensures { OnOk result (text.new.items
        ≡ text.old.items ++ material_text position.now.men) }
{
    push_side(text, position, Side::White)?;
    text.extend_from_slice(b" v ")?;
    push_side(text, position, Side::Black)
}
