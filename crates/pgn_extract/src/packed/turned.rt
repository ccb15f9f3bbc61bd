//! The line of a packed game that is played by the codes of its plies, where criteria speak of its
//! moves at each ply.
ghost use Rattle.std.specs.Prelude.{◌≡◌, ◌+◌, ◌<◌, ◌^◌, List, None, length, refl, IfErr, IfOk};
ghost use Rattle.std.specs.Prelude.{IfSome};
ghost use Rattle.chess.specs.Public.Moves.{IsLegal};
ghost use Rattle.chess.specs.declared.moves.Move.{Move};
ghost use Rattle.pgn_game.specs.Public.CodeLines.{IsCodedLine, IsNextCoded};
ghost use Rattle.pgn_extract.specs.Private.TurnedLines.{IsTurnedWith};

use crate::entries::line::Line;
use crate::packed::PackedFault;
use crate::rows::column::PlyColumn;
use chess::Move;
use pgn_criteria::{Turn, TurnSearch};
use pgn_game::GamePosition;
use pgn_game::pack::next_coded;
use std::alloc::AllocError;
use std::mem;

/// The next move of a line that goes on from the position by the bytes of its codes, none at its
/// end.
#[inline(always)]
pub(crate) fn next_of(position: &GamePosition, plies: &[u8]) -> Result<Option<Move>, PackedFault>
    ensures ok { IfOk result (IsNextCoded position.now plies.now) }
    ensures err { IfErr result (λ fault. (moves : List Move)
        → IsCodedLine position.now plies.now moves → ⊥) }
{
    match next_coded(position, plies) {
        Ok(next) => Ok(next),
        Err(_) => Err(PackedFault::NoGame),
    }
}

/// A line of which a position is reached: what each ply is asked, the position and the moves beside
/// it, and the codes of the plies that are left from there.
#[derive(Drop)]
pub(crate) struct Turned<'a, 'p> {
    pub(crate) search: TurnSearch<'a>,
    pub(crate) before: GamePosition,
    pub(crate) last: Option<Move>,
    pub(crate) here: GamePosition,
    pub(crate) next: Option<Move>,
    pub(crate) left: &'p [u8],
    pub(crate) ply: usize,
    ghost fits: { ply + length left.now < 2 ^ 64 },
}

impl<'a, 'p> Line for Turned<'a, 'p> {
    type Fault = PackedFault;

    ghost At = { λ own aim game before P. IsTurnedWith (record {
      search = own.search;
      from = own.before;
      last = own.last;
      here = own.here;
      next = own.next;
      left = own.left.now;
      ply = own.ply;
    }) aim game before P };

    ghost Valid = { λ own.
        IfSome own.last (IsLegal own.before) × IfSome own.next (IsLegal own.here) };

    ghost Shows = { λ column. Unit {0} };

    ghost size = { λ own. length own.left.now };

    ghost fault_of = { λ _. None };

    #[inline(always)]
    fn ply(&self) -> usize {
        self.ply
    }

    #[inline(always)]
    fn is_met(&self) -> bool {
        self.search.is_met(Turn {
            before: &self.before,
            last: &self.last,
            position: &self.here,
            next: &self.next,
        })
    }

    #[inline(always)]
    fn push_value(&self, _: &mut Vec<u8>, _: PlyColumn) -> Result<(), PackedFault> {
        Ok(())
    }

    #[inline(always)]
    fn advance(&mut self, is_open: bool) -> Result<bool, PackedFault> {
        if !is_open {
            return Ok(false);
        }
        let Some(m) = self.next else {
            return Ok(false);
        };
        let [_, _, _, left @ ..] = self.left else {
            return Ok(false);
        };
        self.before.copy_from(&self.here);
        self.here = self.before.play(m);
        self.last = mem::replace(&mut self.next, None);
        self.next = next_of(&self.here, left)?;
        self.left = left;
        self.ply += 1;
        Ok(true)
    }

    ghost stands = { λ own aim game before P at. at.stands };

    ghost memory = { λ error fault from. refl };
}
