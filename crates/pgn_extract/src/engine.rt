//! The run over an input: block by block, each reported before the next is read.
ghost use Rattle.std.specs.Prelude.{◌≡◌, ◌^◌, ◌≤◌, false, true, IfOk, IfErr, OnOk};
ghost use Rattle.std.specs.Io.KnownBytes.{Keeps};
ghost use Rattle.pgn_text.specs.Public.Limits.{largest_offset};
ghost use Rattle.pgn_extract.specs.Private.RunParts.{Broken, Finished, WriteFaultsAre};
ghost use Rattle.pgn_extract.specs.Public.Runs.{FaultsAre, IsReady, IsRun, io_of, job_of, passage};

mod exporting;
mod piecewise;
mod report;
mod skip;

use crate::engine::piecewise::{Work, put_block};
use crate::engine::report::Report;
use crate::engine::skip::{drop_first, skip_first};
use crate::explain::notes::first_line;
use crate::output::outcome::{RunError, Summary, of_read};
use crate::output::write_all::finish;
use crate::settings::{Mode, Settings};
use pgn_text::{Blocks, Skip, Tally};
use std::alloc::Global;
use std::io::{Read, Write};

/// Flushes both writers.
fn finish_both<O: Write, E: Write>(out: &mut Tally<O>, err: &mut Tally<E>) -> Result<(), RunError>
    requires sound { (out.old.faulted ≡ false) × (err.old.faulted ≡ false) }
    ensures kept { Keeps (O.contents out.old.inner) (O.contents out.new.inner)
        × Keeps (E.contents err.old.inner) (E.contents err.new.inner) }
    ensures flushed { OnOk result ((out.new.flushed ≡ true) × (err.new.flushed ≡ true)) }
    ensures only { IfErr result (λ error. error ≡ RunError.Write) }
    ensures faults { WriteFaultsAre result (passage O.contents out.old out.new)
        (passage E.contents err.old err.new) }
{
    finish(out)?;
    finish(err)
}

/// Writes what is reported of the pieces of the blocks that are left, and flushes the writers.
fn run_blocks<R: Read, O: Write, E: Write>(
    alloc: Global,
    input: &mut Tally<R>,
    out: &mut Tally<O>,
    err: &mut Tally<E>,
    settings: &Settings,
) -> Result<Summary, RunError>
    requires sound { (input.old.faulted ≡ false) × (out.old.faulted ≡ false)
        × (err.old.faulted ≡ false) }
    requires number { settings.now.number ≤ 2 ^ 62 }
    requires offset { settings.now.offset ≤ largest_offset }
    ensures done { IfOk result
        (Finished (job_of settings.now)
        (io_of R.remaining O.contents E.contents input.old input.new out.old out.new err.old
        err.new)) }
    ensures stopped { IfErr result
        (Broken (job_of settings.now)
        (io_of R.remaining O.contents E.contents input.old input.new out.old out.new err.old
        err.new)) }
    ensures faults { FaultsAre result
        (io_of R.remaining O.contents E.contents input.old input.new out.old out.new err.old
        err.new) }
{
    let first = settings.number;
    let mut blocks = Blocks::new(alloc, settings.offset);
    let mut report = Report::new(alloc, first_line(settings));
    let mut games = 0;
    let mut faulty = 0;
    let mut unplayed = 0u64;
    loop {
        match blocks.next(input) {
            Ok(Some(block)) => {
                let work = Work::new(alloc, settings, first + games, block);
                match put_block(out, err, &mut report, work) {
                    Ok(own) => {
                        games += own.games;
                        faulty += own.faulty;
                        unplayed = unplayed.saturating_add(own.unplayed);
                    }
                    Err(error) => return Err(error),
                }
            }
            Ok(None) => match finish_both(out, err) {
                Ok(()) => {
                    return Ok(Summary {
                        games,
                        faulty,
                        unplayed,
                        met: report.met,
                    });
                }
                Err(error) => return Err(error),
            },
            Err(error) => return Err(of_read(error)),
        }
    }
}

/// Reads the input, and writes what the settings ask for to `out` and the lines of faulty games to
/// `err`. The input may be any reader; the bytes before the settings' offset are read and dropped.
pub fn run<R: Read, O: Write, E: Write>(
    alloc: Global,
    input: &mut Tally<R>,
    out: &mut Tally<O>,
    err: &mut Tally<E>,
    settings: &Settings,
) -> Result<Summary, RunError>
    requires { IsReady (job_of settings.now) input.old out.old err.old }
    ensures { IsRun (job_of settings.now)
        (io_of R.remaining O.contents E.contents input.old input.new out.old out.new err.old
        err.new) result }
{
    match drop_first(input, settings.offset) {
        Ok(()) => run_blocks(alloc, input, out, err, settings),
        Err(error) => Err(error),
    }
}

/// Does what `run` does, and passes over the bytes before the settings' offset where the reader
/// can: a file is not read up to there.
pub fn run_skipping<R: Skip, O: Write, E: Write>(
    alloc: Global,
    input: &mut Tally<R>,
    out: &mut Tally<O>,
    err: &mut Tally<E>,
    settings: &Settings,
) -> Result<Summary, RunError>
    requires { IsReady (job_of settings.now) input.old out.old err.old }
    ensures { IsRun (job_of settings.now)
        (io_of R.remaining O.contents E.contents input.old input.new out.old out.new err.old
        err.new) result }
{
    match skip_first(input, settings.offset) {
        Ok(()) => run_blocks(alloc, input, out, err, settings),
        Err(error) => Err(error),
    }
}
