//! Why a text names no legal move, and the moves that it names, square by square (PGN 8.2.3).
ghost use Rattle.chess.specs.Public.San.{IsNamed};
ghost use Rattle.chess.specs.Public.Refusals.{IsRefusal, IsFrom};
ghost use Rattle.chess.specs.Private.SanWords.{said_by, IsCastlingOn, IsMoveSaid};
ghost use Rattle.chess.specs.Private.RefusalWords.{IsCastlingRefusal, IsSaidRefusal, IsFitting};
ghost use Rattle.chess.specs.declared.moves.Move.{Move};

use crate::board::{Board, Kind, Square, Wing};
use crate::move_text::read::candidates::candidate_origins;
use crate::move_text::read::castling_move;
use crate::move_text::read::parse::{ParsedSan, castling, parse_san};
use crate::moves::Move;
use crate::moves::castling::king_leaves;
use crate::moves::pseudo_legal::promotes;
use crate::position::Position;

/// Why a text names no legal move.
#[derive(Clone, Copy, Debug, PartialEq, Eq)]
pub enum Refusal {
    /// It speaks of no move, in whatever position.
    NoMoveText,
    /// It is castling, but the right is lost, or a man stands between king and rook.
    NoCastling,
    /// It is castling, and nothing but an attack bars it.
    CastlingAttacked,
    /// No man that it speaks of can go there, but one would if it became something else, or
    /// nothing.
    WrongPromotion,
    /// No man that it speaks of can go there, whatever it becomes.
    NoneCan,
    /// Some man can go there, but its king is attacked then.
    LeavesKingAttacked,
}

/// Why the text, which names no legal move, names none.
pub fn why_unnamed<B: Board>(position: &Position<B>, text: &[u8]) -> Refusal
    requires { (m : Move) → IsNamed position.now text.now m → ⊥ }
    ensures { IsRefusal position.now text.now result }
{
    if let Some(wing) = castling(text) {
        return castling_refusal(position, wing);
    }
    let Some(said) = parse_san(text) else {
        return Refusal::NoMoveText;
    };
    position.invariant();
    said_refusal(position, &said)
}

/// Why castling on the wing is not legal.
fn castling_refusal<B: Board>(position: &Position<B>, wing: Wing) -> Refusal
    ensures { IsCastlingRefusal position.now wing result }
{
    if position.is_pseudo_legal(&castling_move(position.side(), wing)) {
        return Refusal::CastlingAttacked;
    }
    Refusal::NoCastling
}

/// Why no legal move agrees with what is said.
fn said_refusal<B: Board>(position: &Position<B>, said: &ParsedSan) -> Refusal
    ensures { IsSaidRefusal position.now (said_by said.now) result }
{
    if candidate_origins(position, said).has_some() {
        return Refusal::LeavesKingAttacked;
    }
    let fitting = ParsedSan {
        promote: fitting_promotion(position, said),
        ..*said
    };
    if candidate_origins(position, &fitting).has_some() {
        return Refusal::WrongPromotion;
    }
    Refusal::NoneCan
}

/// A promotion, or none, that the rules ask of the man spoken of on the square that it comes to.
fn fitting_promotion<B: Board>(position: &Position<B>, said: &ParsedSan) -> Option<Kind>
    ensures { IsFitting position.now (said_by said.now) result }
{
    let queen = Some(Kind::Queen);
    if said.kind() == Kind::Pawn && promotes(position.side(), said.target, queen) {
        return queen;
    }
    None
}

/// The legal move from the square that the text names: there is one at most.
pub fn named_from<B: Board>(position: &Position<B>, text: &[u8], from: Square) -> Option<Move>
    ensures { IsFrom (IsNamed position.now text.now) from result }
{
    if let Some(wing) = castling(text) {
        return castled_from(position, wing, from);
    }
    let Some(said) = parse_san(text) else {
        return None;
    };
    moved_from(position, &said, from)
}

/// Castling on the wing, if it is legal and the king leaves the square.
fn castled_from<B: Board>(position: &Position<B>, wing: Wing, from: Square) -> Option<Move>
    ensures { IsFrom (IsCastlingOn position.now wing) from result }
{
    let side = position.side();
    if !king_leaves(side).is(from) {
        return None;
    }
    if !position.is_legal(castling_move(side, wing)) {
        return None;
    }
    Some(castling_move(side, wing))
}

/// The move from the square that agrees with what is said, if it is legal.
fn moved_from<B: Board>(position: &Position<B>, said: &ParsedSan, from: Square) -> Option<Move>
    ensures { IsFrom (IsMoveSaid position.now (said_by said.now)) from result }
{
    let candidates = candidate_origins(position, said);
    if !candidates.has(from) {
        return None;
    }
    if !position.is_legal(said.from(from)) {
        return None;
    }
    Some(said.from(from))
}
