//! What the text of a move may begin and end with, known from the move before its text is written.
ghost use Rattle.std.specs.Prelude.{◌≡◌, Some};
ghost use Rattle.chess.specs.Public.Placements.{man_at};
ghost use Rattle.chess.specs.Public.Positions.{State};
ghost use Rattle.chess.specs.declared.board.man.Man.{Man};
ghost use Rattle.pgn_criteria.specs.Private.MoveEnds.{BeginsWith, EndsWith, HasByte, RulesOut};
ghost use Rattle.pgn_criteria.specs.Public.MoveTexts.{IsLike};

use chess::{Kind, Move, kind_letter};
use pgn_game::GamePosition;

/// Whether the text of the move of a man of that kind may begin with the byte: his letter, or the
/// file of a pawn.
pub(crate) fn may_begin_by(kind: Kind, m: &Move, byte: u8) -> bool
    ensures { (P : State) (man : Man) → man_at P.men m.now.from ≡ Some man → man.kind ≡ kind
        → RulesOut result P m.now (BeginsWith byte) }
{
    if m.castle.is_some() {
        return byte == b'O';
    }
    match kind {
        Kind::Pawn => byte == 96 + m.from.file() || byte == 96 + m.to.file(),
        kind => byte == kind_letter(kind),
    }
}

/// Whether the text of the move may begin with the byte, by the man that moves.
fn may_begin_with(position: &GamePosition, m: &Move, byte: u8) -> bool
    ensures { RulesOut result position.now m.now (BeginsWith byte) }
{
    match position.at(m.from) {
        Some(man) => may_begin_by(man.kind, m, byte),
        None => false,
    }
}

/// Whether the text of the move may end with the byte: the rank that it goes to, or the letter of
/// the man that a pawn becomes.
pub(crate) fn may_end_with(m: &Move, byte: u8) -> bool
    ensures { (P : State) → RulesOut result P m.now (EndsWith byte) }
{
    if m.castle.is_some() {
        return byte == b'O';
    }
    match m.promote {
        Some(kind) => byte == kind_letter(kind) || byte == 48 + m.to.rank(),
        None => byte == 48 + m.to.rank(),
    }
}

/// Whether the text of the move may have the sign of a capture, by `Position::is_capture`.
fn may_take(position: &GamePosition, m: &Move) -> bool
    ensures { RulesOut result position.now m.now (HasByte 120) }
{
    let _on_board = (m.from.file(), m.to.file());
    position.is_capture(m)
}

/// Whether the text of the move may be like the word, by its first and its last byte, and by the
/// sign of a capture.
pub(crate) fn may_be_like(position: &GamePosition, m: &Move, word: &[u8]) -> bool
    ensures { RulesOut result position.now m.now (IsLike word.now) }
{
    if let [.., last] = word {
        if *last != b'*' && !may_end_with(m, *last) {
            return false;
        }
    }
    if word.contains(&b'x') && !may_take(position, m) {
        return false;
    }
    match word {
        [first, ..] => *first == b'*' || may_begin_with(position, m, *first),
        [] => true,
    }
}
