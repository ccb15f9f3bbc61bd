//! Where reading the pieces of a block begins.

ghost use Rattle.std.specs.Prelude.{◌≡◌, false};

use super::{Games, Marks};
use std::alloc::Global;

/// The pieces of a block, in their order; `file_start` says that the block is at the start of the
/// file, where a byte order mark is passed over.
pub fn games<'a>(alloc: Global, block: &'a [u8], file_start: bool) -> Games<'a>
    ensures { result
        ≡ record { block = block.now; file_start = file_start; at = 0; failed = false } }
{
    Games::new(alloc, block, file_start)
}

/// The places of the pieces of a block, in their order; `file_start` says that the block is at the
/// start of the file.
pub fn marks<'a>(block: &'a [u8], file_start: bool) -> Marks<'a>
    ensures { result
        ≡ record { block = block.now; file_start = file_start; at = 0; failed = false } }
{
    Marks::new(block, file_start)
}
