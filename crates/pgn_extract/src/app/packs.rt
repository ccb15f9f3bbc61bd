//! The packs of the command line, searched one after another.
ghost use Rattle.std.specs.Prelude.{◌≡◌, ◌≢◌, ℕ, List, [], false, true, IfErr, IfSome, OnOk};
ghost use Rattle.pgn_extract.specs.Private.PackStops.{StopsAmongPacks, StopsAtPack, StopsInPack};
ghost use Rattle.pgn_extract.specs.Public.Aims.{aim_of};
ghost use Rattle.pgn_extract.specs.Public.Listing.{has_annotations};
ghost use Rattle.pgn_extract.specs.Public.Requests.{asked_header};
ghost use Rattle.pgn_extract.specs.Public.Runs.{Adds, Stream, passage, stream_of};
ghost use Rattle.pgn_extract.specs.Private.SegmentSearching.{SearchesPack};
ghost use Rattle.pgn_extract.specs.Public.Several.{Unknown, AreKnown};
ghost use Rattle.pgn_extract.specs.Private.SeveralPacks.{SearchesPath, SearchesPaths, pack_paths};
ghost use Rattle.pgn_extract.specs.declared.packed.searching.Searched.{Searched};

use crate::app::endings::{flush_rest, line_of, report_bytes, report_line};
use crate::app::files::{Files, Total, put_unopened};
use crate::app::header::put_header;
use crate::app::status::FAILED;
use crate::app::{end_runs, messages};
use crate::marks::Met;
use crate::output::file_name::FileName;
use crate::output::outcome::{RunError, Summary};
use crate::output::texts::push_number;
use crate::output::write_all::finish;
use crate::packed::pack_search::{PackCause, PackStop, search_segments};
use crate::packed::searching::SearchError;
use crate::settings::Settings;
use pgn_game::pack::{FRONT, SegmentError, SegmentsError};
use pgn_text::Tally;
use std::alloc::{AllocError, Global};
use std::io::{Read, Write};

/// The packs that are searched, and what is looked for in them.
#[derive(Drop)]
pub struct PackTask<'a> {
    /// The memory that it takes.
    pub alloc: Global,
    /// What is looked for.
    pub settings: Settings,
    /// Whether rows have no header.
    pub no_header: bool,
    /// The paths of the packs; none for standard input.
    pub paths: &'a [&'a str],
    /// Whether a summary is asked for.
    pub summary: bool,
    /// Whether the place of a bad record is.
    pub explain: bool,
}

/// Why the search of packs ended early.
#[derive(Clone, Copy)]
enum PackFailure<'a> {
    /// The search of the pack with this name did.
    Search(&'a str, PackStop),
    /// What goes to standard error did.
    Report(RunError),
}

/// Searches the pack that the input gives.
fn search_input<'a, I: Read, O: Write>(
    task: &PackTask<'_>,
    name: &'a str,
    input: I,
    out: &mut Tally<O>,
) -> Result<Summary, PackFailure<'a>>
where
    I: Drop,
    requires sound { out.old.faulted ≡ false }
    requires held { has_annotations task.now.settings.line ≡ false }
    ensures searched { OnOk result (IfSome (I.remaining input) (λ whole. (searched : Searched)
        × SearchesPack (aim_of task.now.settings) whole
        (O.contents out.old.inner) (O.contents out.new.inner) searched)) }
    ensures stopped { IfErr result (λ failure. IfSome (I.remaining input)
        (λ whole. StopsInPack failure (aim_of task.now.settings) name.now whole
        (passage O.contents out.old out.new))) }
    ensures sound { OnOk result (out.new.faulted ≡ false) }
{
    let mut input = Tally::new(input);
    match search_segments(task.alloc, &mut input, out, &task.settings) {
        Ok(searched) => Ok(Summary {
            games: searched.records,
            faulty: 0,
            unplayed: 0,
            met: Met::NONE,
        }),
        Err(stop) => Err(PackFailure::Search(name, stop)),
    }
}

/// Searches the pack at the path. One that cannot be opened is named.
fn search_path<'a, F: Files, O: Write, E: Write>(
    task: &PackTask<'_>,
    files: &mut F,
    path: &'a str,
    out: &mut Tally<O>,
    err: &mut Tally<E>,
) -> Result<Option<Summary>, PackFailure<'a>>
where
    F::Input: Drop,
    requires sound { (out.old.faulted ≡ false) × (err.old.faulted ≡ false) }
    requires held { has_annotations task.now.settings.line ≡ false }
    ensures searched { OnOk result (F.known files.old path.now ≢ Unknown
        → SearchesPath (aim_of task.now.settings) path.now (F.known files.old path.now)
        (passage O.contents out.old out.new) (passage E.contents err.old err.new)) }
    ensures stopped { IfErr result (λ failure. F.known files.old path.now ≢ Unknown
        → StopsAtPack failure (aim_of task.now.settings) path.now (F.known files.old path.now)
        (passage O.contents out.old out.new) (passage E.contents err.old err.new)) }
    ensures known { (own : List ℕ) → F.known files.new own ≡ F.known files.old own }
    ensures sound { OnOk result ((out.new.faulted ≡ false) × (err.new.faulted ≡ false)) }
{
    match files.open(path) {
        Ok(input) => match search_input(task, path, input, out) {
            Ok(own) => Ok(Some(own)),
            Err(failure) => Err(failure),
        },
        Err(error) => match put_unopened(task.alloc, err, path, &error) {
            Ok(()) => Ok(None),
            Err(error) => Err(PackFailure::Report(error)),
        },
    }
}

/// Searches the packs in their order. One that cannot be opened is named, and the others are
/// searched.
fn search_paths<'a, F: Files, O: Write, E: Write>(
    task: &PackTask<'a>,
    files: &mut F,
    out: &mut Tally<O>,
    err: &mut Tally<E>,
) -> Result<Total, PackFailure<'a>>
where
    F::Input: Drop,
    requires sound { (out.old.faulted ≡ false) × (err.old.faulted ≡ false) }
    requires held { has_annotations task.now.settings.line ≡ false }
    ensures searched { OnOk result (AreKnown (F.known files.old) (pack_paths task.now)
        → SearchesPaths (aim_of task.now.settings) (F.known files.old) (pack_paths task.now)
        (passage O.contents out.old out.new) (passage E.contents err.old err.new)) }
    ensures stopped { IfErr result (λ failure. AreKnown (F.known files.old) (pack_paths task.now)
        → StopsAmongPacks (aim_of task.now.settings) (F.known files.old) (pack_paths task.now)
        failure (passage O.contents out.old out.new) (passage E.contents err.old err.new)) }
    ensures sound { OnOk result ((out.new.faulted ≡ false) × (err.new.faulted ≡ false)) }
{
    let mut total = Total::NONE;
    for path in task.paths {
        match search_path(task, files, path, out, err) {
            Ok(own) => total.add(own),
            Err(failure) => return Err(failure),
        }
    }
    Ok(total)
}

/// Writes the header, where one is asked for, and flushes: a pack may have no lines.
fn begin_lines<O: Write>(task: &PackTask<'_>, out: &mut Tally<O>) -> Result<(), RunError>
    requires { out.old.faulted ≡ false }
    ensures header { OnOk result (Adds (passage O.contents out.old out.new)
        (asked_header task.now.settings task.now.no_header)) }
    ensures sound { OnOk result (out.new.faulted ≡ false) }
{
    put_header(task.alloc, out, &task.settings, task.no_header)?;
    finish(out)
}

/// Searches the packs that are asked for, and answers the status. Where it is not that of a
/// failure, each pack was searched to its end, and nothing else was written to the output.
pub fn search_packs<F: Files, O: Write, E: Write>(
    task: &PackTask<'_>,
    files: &mut F,
    out: &mut Tally<O>,
    err: &mut Tally<E>,
) -> u8
where
    F::Input: Drop,
    requires sound { (out.old.faulted ≡ false) × (err.old.faulted ≡ false) }
    requires held { has_annotations task.now.settings.line ≡ false }
    ensures searched { result ≢ 3 → pack_paths task.now ≢ []
        → AreKnown (F.known files.old) (pack_paths task.now)
        → (out_there : Stream) × (err_there : Stream)
        × Adds (record { old = stream_of O.contents out.old; new = out_there })
        (asked_header task.now.settings task.now.no_header)
        × SearchesPaths (aim_of task.now.settings) (F.known files.old) (pack_paths task.now)
        (record { old = out_there; new = stream_of O.contents out.new })
        (record { old = stream_of E.contents err.old; new = err_there }) }
{
    if let Err(error) = begin_lines(task, out) {
        flush_rest(out);
        report_line(err, line_of(error));
        return FAILED;
    }
    let ended = if task.paths.is_empty() {
        search_input(task, messages::STANDARD_INPUT, files.standard(), out).map(Total::of)
    } else {
        search_paths(task, files, out, err)
    };
    match ended {
        Ok(total) => end_runs(task.alloc, err, task.summary, false, &total),
        Err(failure) => {
            flush_rest(out);
            report_pack(task, err, &failure);
            FAILED
        }
    }
}

/// Reports why the search of packs failed. A fault in that is ignored.
fn report_pack<E: Write>(task: &PackTask<'_>, err: &mut Tally<E>, failure: &PackFailure<'_>) {
    let (name, stop) = match failure {
        PackFailure::Search(name, stop) => (name, stop),
        PackFailure::Report(error) => return report_line(err, line_of(*error)),
    };
    if let Some(line) = line_of_cause(stop.cause) {
        return report_line(err, line);
    }
    match bad_pack(task.alloc, name, stop, task.explain) {
        Ok(note) => report_bytes(err, &note),
        Err(AllocError) => report_line(err, messages::OUT_OF_MEMORY),
    }
}

/// The line that reports a search that failed at no fault of its pack.
fn line_of_cause(cause: PackCause) -> Option<&'static str> {
    match cause {
        PackCause::Segments(SegmentsError::Read) | PackCause::Records(SearchError::Read) => {
            Some(messages::READ_FAILED)
        }
        PackCause::Records(SearchError::Write) => Some(messages::WRITE_FAILED),
        PackCause::Segments(SegmentsError::OutOfMemory)
        | PackCause::Records(SearchError::OutOfMemory) => Some(messages::OUT_OF_MEMORY),
        PackCause::Segments(SegmentsError::InputTooLong)
        | PackCause::Records(SearchError::InputTooLong) => Some(messages::INPUT_TOO_LONG),
        PackCause::Segments(SegmentsError::Bad(_)) | PackCause::Records(SearchError::BadPack(_)) =>
            { None }
    }
}

/// What names a pack with a fault: one of another layout says so.
fn beginning_of(stop: &PackStop) -> &'static str {
    match stop.cause {
        PackCause::Segments(SegmentsError::Bad(SegmentError::OtherLayout)) => messages::OTHER_PACK,
        PackCause::Segments(_) if stop.is_older => messages::OLDER_PACK,
        _ => messages::BAD_PACK,
    }
}

/// After how many bytes of the pack its fault stands, and what it is.
fn fault_of(stop: &PackStop) -> (u64, &'static [u8]) {
    match stop.cause {
        PackCause::Records(SearchError::BadPack(at)) => {
            let place = stop.place.saturating_add(FRONT as u64).saturating_add(at);
            (place, b" is no record of a game\n")
        }
        _ => (stop.place, b" is no whole segment\n"),
    }
}

/// The line of a pack with a fault, and below it, where that is to be explained, after how many
/// bytes.
fn bad_pack(
    alloc: Global,
    name: &str,
    stop: &PackStop,
    explain: bool,
) -> Result<Vec<u8>, AllocError> {
    let name = FileName::of_path(alloc, name)?;
    let mut note = Vec::from_slice(alloc, beginning_of(stop).as_bytes())?;
    note.extend_from_slice(name.bytes())?;
    note.push(b'\n')?;
    if explain {
        let (place, fault) = fault_of(stop);
        note.extend_from_slice(b"  at byte ")?;
        push_number(&mut note, place as usize)?;
        note.extend_from_slice(fault)?;
    }
    Ok(note)
}
