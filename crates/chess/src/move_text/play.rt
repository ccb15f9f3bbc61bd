//! Moves played by their texts (PGN 8.2.3).
ghost use Rattle.std.specs.Prelude.{◌≡◌, ◌≢◌, ◌↔◌, IfOk, OnErr, IsErrOf, Some};
ghost use Rattle.chess.specs.Public.Moves.{after, IsLegal};
ghost use Rattle.chess.specs.Public.San.{IsNamed, IsOnlyNamed, IsSan, kind_said};
ghost use Rattle.chess.specs.Private.SanAnswers.{IsAnswer, IsPlayed};
ghost use Rattle.chess.specs.Private.SanWords.{said_by, IsAsked, IsMoveSaid, IsReadSaid};
ghost use Rattle.chess.specs.Private.SanWords.{IsCandidate};
ghost use Rattle.chess.specs.Public.Sets.{HoldsExactly};
ghost use Rattle.chess.specs.Public.Squares.{Place};
ghost use Rattle.chess.specs.declared.board.man.Kind.TheVariants.{Pawn};
ghost use Rattle.chess.specs.declared.moves.Move.{Move};
ghost use Rattle.chess.specs.declared.move_text.SanError.{SanError};

use crate::board::{Board, Kind, Man, SquareSet};
use crate::move_text::SanError;
use crate::move_text::read::candidates::{candidate_pieces, candidate_steppers, candidate_takers};
use crate::move_text::read::parse::{
    ParsedSan, before_check_sign, begins_castling, parse_san, pawn_takes, plainly_said,
};
use crate::move_text::read::{moved, only_named};
use crate::move_text::writer::{MoveWriter, Unwritten};
use crate::moves::Move;
use crate::position::Position;
use arrayvec::ArrayString;

/// Plays the only legal move that the text names, and reports it; where it names none or several,
/// the position is as it was. No memory is needed.
#[inline(always)]
pub fn play_word<B: Board>(position: &mut Position<B>, text: &[u8]) -> Result<Move, SanError>
    ensures ok { IfOk result (λ m. IsOnlyNamed position.old text.now m) }
    ensures none { IsErrOf result SanError.None
        ↔ ((m : Move) → IsNamed position.old text.now m → ⊥) }
    ensures several { IsErrOf result SanError.Several
        ↔ ((m n : Move) × IsNamed position.old text.now m × IsNamed position.old text.now n
        × (m ≢ n)) }
    ensures played { IfOk result (λ m. position.new ≡ after position.old m) }
    ensures kept { OnErr result (position.new ≡ position.old) }
{
    only_played(position, text, &mut Unwritten)
}

/// Plays the only legal move that the text names, and writes its standard text: what `play_word`
/// and `san` answer. No memory is needed.
#[inline(always)]
pub fn play_word_san<B: Board>(
    position: &mut Position<B>,
    text: &[u8],
    san: &mut ArrayString<8>,
) -> Result<Move, SanError>
    ensures ok { IfOk result (λ m. IsOnlyNamed position.old text.now m) }
    ensures none { IsErrOf result SanError.None
        ↔ ((m : Move) → IsNamed position.old text.now m → ⊥) }
    ensures several { IsErrOf result SanError.Several
        ↔ ((m n : Move) × IsNamed position.old text.now m × IsNamed position.old text.now n
        × (m ≢ n)) }
    ensures played { IfOk result (λ m. position.new ≡ after position.old m) }
    ensures kept { OnErr result (position.new ≡ position.old) }
    ensures san { IfOk result (λ m. IsSan position.old m san.new.bytes) }
{
    only_played(position, text, san)
}

/// Plays the only legal move that the text names: the most frequent forms are recognized by their
/// length and played at once, steps and captures of pawns and moves of pieces each by code of its
/// own. (It is called, as it would be too large to stand in each caller.)
#[inline(never)]
fn only_played<B: Board, W: MoveWriter<B>>(
    position: &mut Position<B>,
    text: &[u8],
    writer: &mut W,
) -> Result<Move, SanError>
    ensures answer { IsAnswer (IsNamed position.old text.now) result }
    ensures played { IsPlayed position.old position.new result }
    ensures written { IfOk result (λ m. W.has writer.new position.old m) }
{
    match before_check_sign(text) {
        [file, rank] => {
            if let Some(said) = plainly_said(None, *file, *rank) {
                let candidates = candidate_steppers(position, &said);
                return play_candidate(position, text, &said, candidates, writer);
            }
        }
        [letter, file, rank] => {
            if let Some(said) = plainly_said(Some(*letter), *file, *rank)
                && said.kind() != Kind::Pawn
            {
                let candidates = candidate_pieces(position, &said);
                return play_candidate(position, text, &said, candidates, writer);
            }
        }
        [from, sign, file, rank] if *sign == b'x' => {
            if let Some(said) = pawn_takes(*from, *file, *rank)
                && said.changes_file()
            {
                let candidates = candidate_takers(position, &said);
                return play_candidate(position, text, &said, candidates, writer);
            }
            if let Some(said) = plainly_said(Some(*from), *file, *rank)
                && said.kind() != Kind::Pawn
            {
                let candidates = candidate_pieces(position, &said);
                return play_candidate(position, text, &said, candidates, writer);
            }
        }
        _ => {}
    }
    // (the answer is taken apart, so that the frequent forms keep theirs in no memory)
    let m = play_read(position, text, writer)?;
    Ok(m)
}

/// Plays the only legal move that the text names, of whatever form it is.
#[inline(never)]
fn play_read<B: Board, W: MoveWriter<B>>(
    position: &mut Position<B>,
    text: &[u8],
    writer: &mut W,
) -> Result<Move, SanError>
    ensures answer { IsAnswer (IsNamed position.old text.now) result }
    ensures played { IsPlayed position.old position.new result }
    ensures written { IfOk result (λ m. W.has writer.new position.old m) }
{
    if begins_castling(text) {
        return play_found(position, text, writer);
    }
    let Some(said) = parse_san(text) else {
        return Err(SanError::None);
    };
    let found = moved(position, &said);
    if let Ok(m) = &found {
        writer.play(position, m);
    }
    found
}

/// Plays the only legal move that the text names, where the men are known that may make it, and of
/// a piece nothing is said but its kind and target: one man alone is moved at once.
#[inline(always)]
fn play_candidate<B: Board, W: MoveWriter<B>>(
    position: &mut Position<B>,
    text: &[u8],
    said: &ParsedSan,
    mut candidates: SquareSet,
    writer: &mut W,
) -> Result<Move, SanError>
    requires read { IsReadSaid text.now (Some said.now) }
    requires candidates { HoldsExactly (IsCandidate position.old (said_by said.now)) candidates }
    requires asked { kind_said said.now.letter ≢ Pawn → (s : Place) → IsAsked (said_by said.now) s }
    ensures answer { IsAnswer (IsNamed position.old text.now) result }
    ensures played { IsPlayed position.old position.new result }
    ensures written { IfOk result (λ m. W.has writer.new position.old m) }
{
    let Some(from) = candidates.take_first() else {
        return Err(SanError::None);
    };
    if candidates.has_some() {
        let m = play_found(position, text, writer)?;
        return Ok(m);
    }
    let man = Man {
        side: position.side(),
        kind: said.kind(),
    };
    let m = said.from(from);
    position.invariant();
    let takes = position.takes(man, &m);
    if !position.try_move(man, &m) {
        return Err(SanError::None);
    }
    writer.write(&m, man, takes, position);
    Ok(m)
}

/// Plays the only legal move that the text names, which is looked for first.
#[cold]
fn play_found<B: Board, W: MoveWriter<B>>(
    position: &mut Position<B>,
    text: &[u8],
    writer: &mut W,
) -> Result<Move, SanError>
    ensures answer { IsAnswer (IsNamed position.old text.now) result }
    ensures played { IsPlayed position.old position.new result }
    ensures written { IfOk result (λ m. W.has writer.new position.old m) }
{
    let m = only_named(position, text)?;
    writer.play(position, &m);
    Ok(m)
}
