//! The next move of a line that is told by the codes of its plies.
ghost use Rattle.std.specs.Prelude.{◌≡◌, ◌↔◌, List, MatchResult, IsTrue};
ghost use Rattle.chess.specs.declared.moves.Move.{Move};
ghost use Rattle.chess.specs.Public.Moves.{IsLegal};
ghost use Rattle.pgn_game.specs.Public.CodeLines.{IsCodedLine, IsNextCoded};

use crate::pack::error::CodesError;
use crate::pack::replaying::told_move;
use crate::turns::replayed::GamePosition;
use chess::Move;

/// Whether the move is legal.
#[inline(always)]
fn is_legal(position: &GamePosition, m: &Move) -> bool
    ensures { IsTrue result ↔ IsLegal position.now m.now }
{
    position.is_legal(*m)
}

/// The next move of the line that goes on from the position by the bytes of its codes, none at its
/// end. No memory is taken. Fails with `NoLine` where they are the bytes of no line of legal moves.
pub fn next_coded(position: &GamePosition, plies: &[u8]) -> Result<Option<Move>, CodesError>
    ensures { MatchResult result (IsNextCoded position.now plies.now)
        (λ error. (error ≡ CodesError.NoLine)
        × ((moves : List Move) → IsCodedLine position.now plies.now moves → ⊥)) }
{
    let [a, b, d, ..] = plies else {
        if plies.is_empty() {
            return Ok(None);
        }
        return Err(CodesError::NoLine);
    };
    let m = told_move(position, *a, *b, *d);
    if !is_legal(position, &m) {
        return Err(CodesError::NoLine);
    }
    Ok(Some(m))
}
