//! The move that a word names.
ghost use Rattle.std.specs.Prelude.{◌≡◌, ◌+◌, ℕ, MatchResult, IfSome};
ghost use Rattle.chess.specs.Public.Moves.{after};
ghost use Rattle.chess.specs.Public.Positions.{State};
ghost use Rattle.chess.specs.Public.San.{IsOnlyNamed, IsSan};
ghost use Rattle.pgn_game.specs.Public.Faults.{IsRefusedWord, NamesNone, NamesSeveral};
ghost use Rattle.pgn_game.specs.Public.Replays.{fault_of};
ghost use Rattle.chess.specs.declared.move_text.SanError.{SanError};

use crate::turns::fault::GameFault;
use crate::turns::replayed::GamePosition;
use arrayvec::ArrayString;
use chess::{Move, SanError, play_word, play_word_san};

/// The fault of this ply, whose word names no legal move or several.
pub(crate) fn refused<'a>(error: SanError, word: &'a [u8], ply: usize) -> GameFault<'a>
    ensures { (now : State) (plies : ℕ) → ply ≡ plies + 1
        → (error ≡ SanError.None → NamesNone now word.now)
        → (error ≡ SanError.Several → NamesSeveral now word.now)
        → IfSome (fault_of result) (IsRefusedWord now plies word.now) }
{
    match error {
        SanError::None => GameFault::Illegal { word, ply },
        SanError::Several => GameFault::Ambiguous { word, ply },
    }
}

/// Plays the only legal move that the word names, and answers it; or answers the fault of this ply.
#[inline(always)]
pub(crate) fn play_named<'a>(
    position: &mut GamePosition,
    word: &'a [u8],
    ply: usize,
) -> Result<Move, GameFault<'a>>
    ensures { MatchResult result
        (λ m. IsOnlyNamed position.old word.now m × (position.new ≡ after position.old m))
        (λ fault. (plies : ℕ) → ply ≡ plies + 1
        → IfSome (fault_of fault) (IsRefusedWord position.old plies word.now)) }
{
    match play_word(position, word) {
        Ok(m) => Ok(m),
        Err(error) => Err(refused(error, word, ply)),
    }
}

/// Plays the only legal move that the word names, answers it and writes its standard text; or
/// answers the fault of this ply.
#[inline(always)]
pub(crate) fn play_named_san<'a>(
    position: &mut GamePosition,
    word: &'a [u8],
    ply: usize,
    san: &mut ArrayString<8>,
) -> Result<Move, GameFault<'a>>
    ensures { MatchResult result
        (λ m. IsOnlyNamed position.old word.now m × (position.new ≡ after position.old m)
        × IsSan position.old m san.new.bytes)
        (λ fault. (plies : ℕ) → ply ≡ plies + 1
        → IfSome (fault_of fault) (IsRefusedWord position.old plies word.now)) }
{
    match play_word_san(position, word, san) {
        Ok(m) => Ok(m),
        Err(error) => Err(refused(error, word, ply)),
    }
}
