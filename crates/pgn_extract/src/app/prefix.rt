//! The first bytes of an input.
ghost use Rattle.std.specs.Prelude.{◌≤◌, length, IfOk};

use std::alloc::Global;
use std::io;
use std::io::Read;

/// Reads at most so many bytes of the input, and fewer only where it has no more.
pub fn read_prefix<R: Read>(alloc: Global, input: &mut R, most: usize) -> io::Result<Vec<u8>>
    ensures { IfOk result (λ prefix. length prefix.items ≤ most) }
{
    let mut prefix = vec![in alloc; 0u8; most]?;
    let mut held = 0;
    while held < prefix.len() {
        match input.read(&mut prefix[held..]) {
            Ok(0) => break,
            Ok(count) => held += count,
            Err(error) => return Err(error),
        }
    }
    prefix.truncate(held);
    Ok(prefix)
}
