//! The bytes before the run's begin.
ghost use Rattle.std.specs.Prelude.{◌≡◌, ◌↔◌, ◌^◌, ◌≤◌, false, true, IsErrOf, IfOk, IfErr};
ghost use Rattle.pgn_extract.specs.Private.Blockwise.{Drops, DropsSome};

use crate::output::outcome::RunError;
use pgn_text::{Skip, Tally};
use std::io::Read;

/// The most bytes that one read drops.
const CHUNK: usize = 8192;

/// Reads and drops the first `count` bytes of the input, or all where there are fewer.
pub fn drop_first<R: Read>(input: &mut Tally<R>, count: u64) -> Result<(), RunError>
    requires { input.old.faulted ≡ false }
    ensures ok { IfOk result (λ _. Drops (R.remaining input.old.inner) (R.remaining input.new.inner)
        input.old.moved input.new.moved count) }
    ensures err { IfErr result (λ error. (error ≡ RunError.Read)
        × DropsSome (R.remaining input.old.inner) (R.remaining input.new.inner)
        input.old.moved input.new.moved count) }
    ensures fault { IsErrOf result RunError.Read ↔ (input.new.faulted ≡ true) }
{
    let mut left = count;
    let mut buf = [0u8; CHUNK];
    while left > 0 {
        let room = left.min(CHUNK as u64) as usize;
        match input.read(&mut buf[..room]) {
            Ok(0) => return Ok(()),
            Ok(dropped) => left -= dropped as u64,
            Err(_) => return Err(RunError::Read),
        }
    }
    Ok(())
}

/// Passes over the first `count` bytes of the input where it can, and drops the others; or all
/// where there are fewer.
pub fn skip_first<R: Skip>(input: &mut Tally<R>, count: u64) -> Result<(), RunError>
    requires { input.old.faulted ≡ false }
    ensures ok { IfOk result (λ _. Drops (R.remaining input.old.inner) (R.remaining input.new.inner)
        input.old.moved input.new.moved count) }
    ensures err { IfErr result (λ error. (error ≡ RunError.Read)
        × DropsSome (R.remaining input.old.inner) (R.remaining input.new.inner)
        input.old.moved input.new.moved count) }
    ensures fault { IsErrOf result RunError.Read ↔ (input.new.faulted ≡ true) }
{
    match input.skip(count) {
        Ok(passed) => drop_first(input, count - passed),
        Err(_) => Err(RunError::Read),
    }
}
