//! The line of a packed game whose criteria speak of no men and of no moves: the marks of its plies
//! tell which are met, and no man is moved.
ghost use Rattle.std.specs.Prelude.{◌≡◌, ◌+◌, ◌/◌, None, length, refl};
ghost use Rattle.pgn_criteria.specs.Public.Prefilters.{codes_in};
ghost use Rattle.pgn_extract.specs.Private.WalkedLines.{IsMarkedWith};

use crate::entries::line::Line;
use crate::rows::column::PlyColumn;
use chess::Side;
use pgn_criteria::MarkSet;
use std::alloc::AllocError;

/// A line that stands only at positions with the marks: the side to move there, the codes that are
/// left, and how many plies are played and are there in all.
#[derive(Drop)]
pub(crate) struct Marked<'p> {
    pub(crate) marks: MarkSet,
    pub(crate) side: Side,
    pub(crate) left: &'p [u8],
    pub(crate) ply: usize,
    pub(crate) plies: usize,
    ghost sized: { ply + length left.now / 3 ≡ plies },
}

impl<'p> Line for Marked<'p> {
    type Fault = AllocError;

    ghost At = { λ own aim game before P.
        IsMarkedWith own.marks.flags own.side (codes_in own.left.now) own.ply aim game before P };

    ghost Valid = { λ own. Unit {0} };

    ghost Shows = { λ column. Unit {0} };

    ghost size = { λ own. length own.left.now };

    ghost fault_of = { λ _. None };

    #[inline(always)]
    fn ply(&self) -> usize {
        self.ply
    }

    #[inline(always)]
    fn is_met(&self) -> bool {
        true
    }

    #[inline(always)]
    fn push_value(&self, _: &mut Vec<u8>, _: PlyColumn) -> Result<(), AllocError> {
        Ok(())
    }

    #[inline(always)]
    fn advance(&mut self, is_open: bool) -> Result<bool, AllocError> {
        if !is_open {
            return Ok(false);
        }
        let Some((side, left)) = self.marks.next(self.side, self.left) else {
            return Ok(false);
        };
        self.side = side;
        self.left = left;
        self.ply = self.plies - left.len() / 3;
        Ok(true)
    }

    ghost stands = { λ own aim game before P at. at.to.stands };

    ghost memory = { λ error fault from. refl };
}
