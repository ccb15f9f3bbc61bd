//! Moves named by their texts (PGN 8.2.3).
ghost use Rattle.std.specs.Prelude.{◌≡◌, ◌≢◌, ◌↔◌, IfOk, IsErrOf, MatchOption};
ghost use Rattle.chess.specs.Public.San.{IsNamed, IsOnlyNamed, kind_said};
ghost use Rattle.chess.specs.Private.SanWords.{castling_on, said_by, move_from, CanGoSaid, IsNext};
ghost use Rattle.chess.specs.Private.SanWords.{HasNone, IsCastlingOn, IsMoveSaid, IsCandidate};
ghost use Rattle.chess.specs.Public.Sets.{HoldsExactly};
ghost use Rattle.chess.specs.Private.SanAnswers.{IsAnswer};
ghost use Rattle.chess.specs.declared.moves.Move.{Move};
ghost use Rattle.chess.specs.declared.move_text.SanError.{SanError};

use crate::board::{Board, Kind, Man, Side, Square, SquareSet, Wing};
use crate::move_text::SanError;
use crate::moves::Move;
use crate::moves::castling::{king_arrives, king_leaves};
use crate::position::Position;

pub(crate) mod candidates;
pub(crate) mod parse;

use candidates::{candidate_origins, candidate_pawns, candidate_pieces};
use parse::{ParsedSan, castling, parse_san, read_frequent};

/// The only legal move that the text names. No memory is needed.
pub fn resolve<B: Board>(position: &Position<B>, text: &[u8]) -> Result<Move, SanError>
    ensures ok { IfOk result (λ m. IsOnlyNamed position.now text.now m) }
    ensures none { IsErrOf result SanError.None
        ↔ ((m : Move) → IsNamed position.now text.now m → ⊥) }
    ensures several { IsErrOf result SanError.Several
        ↔ ((m n : Move) × IsNamed position.now text.now m × IsNamed position.now text.now n
        × (m ≢ n)) }
{
    only_named(position, text)
}

/// The only legal move that the text names: what `resolve` answers, as one fact of the answer. The
/// most frequent forms are recognized by their length.
pub(crate) fn only_named<B: Board>(position: &Position<B>, text: &[u8]) -> Result<Move, SanError>
    ensures { IsAnswer (IsNamed position.now text.now) result }
{
    if let Some(said) = read_frequent(text) {
        return moved(position, &said);
    }
    // (the answer is taken apart, so that the frequent forms keep theirs in no memory)
    let m = named_read(position, text)?;
    Ok(m)
}

/// The only legal move that the text names, of whatever form it is.
#[inline(never)]
fn named_read<B: Board>(position: &Position<B>, text: &[u8]) -> Result<Move, SanError>
    ensures { IsAnswer (IsNamed position.now text.now) result }
{
    if let Some(wing) = castling(text) {
        return castled(position, wing);
    }
    let Some(said) = parse_san(text) else {
        return Err(SanError::None);
    };
    moved_among(position, &said)
}

/// Castling on the wing, if it is legal.
fn castled<B: Board>(position: &Position<B>, wing: Wing) -> Result<Move, SanError>
    ensures { IsAnswer (IsCastlingOn position.now wing) result }
{
    let side = position.side();
    if !position.is_legal(castling_move(side, wing)) {
        return Err(SanError::None);
    }
    Ok(castling_move(side, wing))
}

/// The side's castling on the wing.
pub(crate) fn castling_move(side: Side, wing: Wing) -> Move
    ensures { result ≡ castling_on side wing }
{
    Move {
        from: king_leaves(side),
        to: king_arrives(side, wing),
        promote: None,
        castle: Some(wing),
    }
}

/// The only legal move that agrees with what is said: pawns and pieces apart, so that each has code
/// of its own.
#[inline(always)]
pub(crate) fn moved<B: Board>(position: &Position<B>, said: &ParsedSan) -> Result<Move, SanError>
    ensures { IsAnswer (IsMoveSaid position.now (said_by said.now)) result }
{
    if said.kind() == Kind::Pawn {
        let candidates = candidate_pawns(position, said);
        return moved_by(position, said, candidates);
    }
    let candidates = candidate_pieces(position, said);
    moved_by(position, said, candidates)
}

/// The only legal move that agrees with what is said, where the men are known that may make it: one
/// alone is only asked whether his king is then attacked.
#[inline(always)]
fn moved_by<B: Board>(
    position: &Position<B>,
    said: &ParsedSan,
    mut candidates: SquareSet,
) -> Result<Move, SanError>
    requires { HoldsExactly (IsCandidate position.now (said_by said.now)) candidates }
    ensures { IsAnswer (IsMoveSaid position.now (said_by said.now)) result }
{
    let Some(from) = candidates.take_first() else {
        return Err(SanError::None);
    };
    if candidates.has_some() {
        let m = moved_among(position, said)?;
        return Ok(m);
    }
    let man = Man {
        side: position.side(),
        kind: said.kind(),
    };
    let m = said.from(from);
    if position.exposes_king(man, &m) {
        return Err(SanError::None);
    }
    Ok(m)
}

/// The only legal move that agrees with what is said, where several men may make it whether or not
/// their king is then attacked.
#[cold]
fn moved_among<B: Board>(position: &Position<B>, said: &ParsedSan) -> Result<Move, SanError>
    ensures { IsAnswer (IsMoveSaid position.now (said_by said.now)) result }
{
    let Some((from, rest)) = next_origin(position, said, candidate_origins(position, said)) else {
        return Err(SanError::None);
    };
    if next_origin(position, said, rest).is_some() {
        return Err(SanError::Several);
    }
    Ok(said.from(from))
}

/// The first square of the set from which the move that is said is legal, and the squares after it.
fn next_origin<B: Board>(
    position: &Position<B>,
    said: &ParsedSan,
    squares: SquareSet,
) -> Option<(Square, SquareSet)>
    ensures { MatchOption result (HasNone (CanGoSaid position.now (said_by said.now)) squares)
        (λ found. IsNext (CanGoSaid position.now (said_by said.now)) squares found.1 found.0) }
{
    let mut left = squares;
    while let Some(from) = left.take_first() {
        if position.is_legal(said.from(from)) {
            return Some((from, left));
        }
    }
    None
}

impl ParsedSan {
    /// The kind of man that is spoken of: a pawn without a letter.
    pub(crate) fn kind(&self) -> Kind
        ensures { result ≡ kind_said self.now.letter }
    {
        match self.letter {
            Some(kind) => kind,
            None => Kind::Pawn,
        }
    }

    /// The move from the square that is spoken of.
    pub(crate) fn from(&self, from: Square) -> Move
        ensures { result ≡ move_from (said_by self.now) from }
    {
        Move {
            from,
            to: self.target,
            promote: self.promote,
            castle: None,
        }
    }
}
