//! A task whose output is a pack: its records become segments.
ghost use Rattle.std.specs.Prelude.{◌≡◌, ◌≤◌, ◌^◌, false, option_and_then, option_map, IfOk, OnOk};
ghost use Rattle.std.specs.Io.Buffered.{writer_contents};
ghost use Rattle.std.specs.Io.KnownBytes.{Keeps};
ghost use Rattle.pgn_text.specs.Public.Limits.{largest_offset};
ghost use Rattle.pgn_game.specs.Public.SegmentWriting.{records_of, segment_records};
ghost use Rattle.pgn_extract.specs.Private.Packing.{WritesTask, record_passage};
ghost use Rattle.pgn_extract.specs.Public.Runs.{passage};

use crate::app::files::{Files, Task, Total, run_files, run_input};
use crate::app::header::put_header;
use crate::output::outcome::RunError;
use crate::output::through::Through;
use pgn_game::pack::SegmentWriter;
use pgn_text::Tally;
use std::io::{BufWriter, Write};
use std::mem;

/// How many bytes of records are gathered for a segment.
const SEGMENT: usize = 1 << 20;

/// Runs over the input, or without one over all files.
fn run_inputs<F: Files, O: Write, E: Write>(
    task: &mut Task<'_>,
    files: &mut F,
    input: Option<F::Input>,
    out: &mut Tally<O>,
    err: &mut Tally<E>,
) -> Result<Total, RunError>
where
    F::Input: Drop,
    requires sound { (out.old.faulted ≡ false) × (err.old.faulted ≡ false) }
    requires number { (1 ≤ task.old.settings.number) × (task.old.settings.number ≤ 2 ^ 62) }
    requires offset { task.old.settings.offset ≤ largest_offset }
    ensures written { OnOk result (WritesTask task.old (F.known files.old)
        (option_map F.Input.remaining input)
        (passage O.contents out.old out.new) (passage E.contents err.old err.new)) }
    ensures sound { OnOk result (err.new.faulted ≡ false) }
{
    match input {
        Some(input) => Ok(Total::of(run_input(task, input, out, err)?)),
        None => run_files(task, files, out, err),
    }
}

/// Runs so, after the header of rows.
pub fn run_task<F: Files, O: Write, E: Write>(
    task: &mut Task<'_>,
    files: &mut F,
    input: Option<F::Input>,
    no_header: bool,
    out: &mut Tally<O>,
    err: &mut Tally<E>,
) -> Result<Total, RunError>
where
    F::Input: Drop,
    requires sound { (out.old.faulted ≡ false) × (err.old.faulted ≡ false) }
    requires number { (1 ≤ task.old.settings.number) × (task.old.settings.number ≤ 2 ^ 62) }
    requires offset { task.old.settings.offset ≤ largest_offset }
    ensures sound { OnOk result (err.new.faulted ≡ false) }
{
    put_header(task.alloc, out, &task.settings, no_header)?;
    run_inputs(task, files, input, out, err)
}

/// Ends a pack, and answers the writer of its segments: what is gathered becomes the last one.
fn end_pack<W: Write + Drop>(records: Tally<BufWriter<SegmentWriter<W>>>) -> Result<W, RunError>
    ensures { IfOk result (λ inner.
        Keeps (writer_contents (segment_records W.contents) records.inner)
        (option_and_then records_of (W.contents inner))) }
{
    if records.faulted() {
        // What is gathered after a write that failed stays unwritten.
        mem::forget(records);
        return Err(RunError::Write);
    }
    match records.into_inner().into_inner() {
        Ok(mut segments) => match segments.flush() {
            Ok(()) => Ok(segments.into_inner()),
            Err(_) => Err(RunError::Write),
        },
        Err(error) => {
            mem::forget(error);
            Err(RunError::Write)
        }
    }
}

/// Runs so, and makes segments of the records that are written: where no run fails, the records in
/// the segments of the writer that is answered grew by just these.
fn pack_into<F: Files, W: Write + Drop, E: Write>(
    task: &mut Task<'_>,
    files: &mut F,
    input: Option<F::Input>,
    writer: W,
    err: &mut Tally<E>,
) -> Result<(Total, W), RunError>
where
    F::Input: Drop,
    requires sound { err.old.faulted ≡ false }
    requires number { (1 ≤ task.old.settings.number) × (task.old.settings.number ≤ 2 ^ 62) }
    requires offset { task.old.settings.offset ≤ largest_offset }
    ensures records { IfOk result (λ ended. WritesTask task.old (F.known files.old)
        (option_map F.Input.remaining input)
        (record_passage (W.contents writer) (W.contents ended.1))
        (passage E.contents err.old err.new)) }
    ensures sound { OnOk result (err.new.faulted ≡ false) }
{
    let segments = SegmentWriter::new(task.alloc, writer);
    let gathered = match BufWriter::with_capacity(task.alloc, SEGMENT, segments) {
        Ok(gathered) => gathered,
        Err(_) => return Err(RunError::OutOfMemory),
    };
    let mut records = Tally::new(gathered);
    let ended = run_inputs(task, files, input, &mut records, err);
    let writer = end_pack(records);
    Ok((ended?, writer?))
}

/// Runs over the input, or without one over all files, and makes segments of the records that they
/// write.
pub fn pack_task<F: Files, O: Write, E: Write>(
    task: &mut Task<'_>,
    files: &mut F,
    input: Option<F::Input>,
    out: &mut Tally<O>,
    err: &mut Tally<E>,
) -> Result<Total, RunError>
where
    F::Input: Drop,
    requires sound { err.old.faulted ≡ false }
    requires number { (1 ≤ task.old.settings.number) × (task.old.settings.number ≤ 2 ^ 62) }
    requires offset { task.old.settings.offset ≤ largest_offset }
    ensures sound { OnOk result (err.new.faulted ≡ false) }
{
    let (total, _) = pack_into(task, files, input, Through::new(out), err)?;
    Ok(total)
}
