//! The line of a packed game that is walked by the codes of its plies.
ghost use Rattle.std.specs.Prelude.{◌≡◌, ◌+◌, ◌<◌, ◌^◌, None, length, refl};
ghost use Rattle.pgn_criteria.specs.Public.Prefilters.{codes_in};
ghost use Rattle.pgn_extract.specs.Private.WalkedLines.{IsWalkedWith};

use crate::entries::line::Line;
use crate::rows::column::PlyColumn;
use chess::Bits;
use pgn_criteria::{Search, Walk};
use std::alloc::AllocError;

/// A line of which a walk shows the position that is reached, what each position is asked, and the
/// codes of the plies that are left.
#[derive(Drop)]
pub(crate) struct Walked<'a, 'p> {
    pub(crate) walk: Walk<Bits>,
    pub(crate) search: Search<'a>,
    pub(crate) left: &'p [u8],
    pub(crate) ply: usize,
    ghost fits: { ply + length left.now < 2 ^ 64 },
}

impl<'a, 'p> Line for Walked<'a, 'p> {
    type Fault = AllocError;

    ghost At = { λ own aim game before P.
        IsWalkedWith own.walk (codes_in own.left.now) own.ply own.search aim game before P };

    ghost Valid = { λ own. Unit {0} };

    ghost Shows = { λ column. Unit {0} };

    ghost size = { λ own. length own.left.now };

    ghost fault_of = { λ _. None };

    #[inline(always)]
    fn ply(&self) -> usize {
        self.ply
    }

    #[inline(always)]
    fn is_met(&self) -> bool {
        self.search.is_met(&self.walk)
    }

    #[inline(always)]
    fn push_value(&self, _: &mut Vec<u8>, _: PlyColumn) -> Result<(), AllocError> {
        Ok(())
    }

    #[inline(always)]
    fn advance(&mut self, is_open: bool) -> Result<bool, AllocError> {
        if !is_open {
            return Ok(false);
        }
        let [a, b, d, left @ ..] = self.left else {
            return Ok(false);
        };
        self.walk.step(*a, *b, *d);
        self.left = left;
        self.ply += 1;
        Ok(true)
    }

    ghost stands = { λ own aim game before P at. at.to.stands };

    ghost memory = { λ error fault from. refl };
}
