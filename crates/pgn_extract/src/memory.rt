//! Runs over memory: what each clause of `run` says where all bytes are known.
ghost use Rattle.std.specs.Prelude.{◌≡◌, ◌≢◌, ◌↔◌, ◌⊎◌, ◌≤◌, ◌<◌, ◌^◌, ◌+◌, ◌++◌, ℕ, true, false};
ghost use Rattle.std.specs.Prelude.{List, [], Option, codes, drop, length, take, count_by, IfErr};
ghost use Rattle.std.specs.Prelude.{IfOk, OnOk, IsErrOf};
ghost use Rattle.pgn_text.specs.Public.Complete.{AreCompletePieces};
ghost use Rattle.pgn_text.specs.Public.Limits.{block_limit, depth_limit, largest_offset};
ghost use Rattle.pgn_text.specs.Public.Marks.{MarkedPiece, AreMarkedPieces};
ghost use Rattle.pgn_game.specs.Public.PackedGames.{PackedGame, pack_bytes, record_bytes};
ghost use Rattle.pgn_game.specs.Public.PackStreams.{HasNoRecord};
ghost use Rattle.pgn_extract.specs.Public.Aims.{aim_of};
ghost use Rattle.pgn_extract.specs.Public.Exports.{AreExports};
ghost use Rattle.pgn_extract.specs.Public.Index.{index};
ghost use Rattle.pgn_extract.specs.Public.Listing.{Entry, AreEntries, entries_at_least, listing};
ghost use Rattle.pgn_extract.specs.Public.Listing.{has_annotations};
ghost use Rattle.pgn_extract.specs.Public.Resuming.{IsMarkAmong, verdicts_at_least};
ghost use Rattle.pgn_extract.specs.Public.Runs.{ArePieces, job_of};
ghost use Rattle.pgn_extract.specs.Public.Searching.{ArePackLines, HasNoGame, IsIndexOfSoundGames};
ghost use Rattle.pgn_extract.specs.Public.Searching.{IsPackOf, of_all, named};
ghost use Rattle.pgn_extract.specs.Public.Several.{IsReport, NamesUnopened};
ghost use Rattle.pgn_extract.specs.Public.Verdicts.{Verdict, AreVerdicts, IsSameReport};
ghost use Rattle.pgn_extract.specs.Public.Verdicts.{fault_lines, is_faulty, output_text};
ghost use Rattle.pgn_extract.specs.Public.GivenMarks.{game_id};

use crate::app::files::{Files, Task, run_files};
use crate::engine::run;
use crate::laws::complete_runs;
use crate::output::outcome::{RunError, Summary};
use crate::packed::searching::{SearchError, Searched, search};
use crate::settings::{Mode, Settings};
use pgn_text::Tally;
use std::alloc::Global;
use std::io;
use std::io::ErrorKind;

/// What a run over a text wrote to the output and to standard error.
#[derive(Drop)]
pub struct Written {
    pub out: Vec<u8>,
    pub err: Vec<u8>,
}

/// Two texts as the files `first.pgn` and `second.pgn`. At every other path there is no file.
#[derive(Drop)]
pub struct TwoFiles<'a> {
    pub first: &'a [u8],
    pub second: &'a [u8],
}

impl<'a> Files for TwoFiles<'a> {
    ghost use Rattle.pgn_extract.specs.Private.TwoFiles.{known_of_two};

    type Input = &'a [u8];

    ghost known = { λ files path. known_of_two files.first.now files.second.now path };

    fn open(&mut self, path: &str) -> io::Result<&'a [u8]> {
        match path {
            "first.pgn" => Ok(self.first),
            "second.pgn" => Ok(self.second),
            _ => Err(io::Error::from(ErrorKind::NotFound)),
        }
    }

    fn standard(&mut self) -> &'a [u8] {
        b""
    }

    fn show_progress(&mut self, _asked: bool) {}
}

/// The index of a text.
pub fn index_text(alloc: Global, text: &[u8], settings: &Settings) -> Result<Written, RunError>
    requires number { (1 ≤ settings.now.number) × (settings.now.number ≤ 2 ^ 62) }
    requires offset { settings.now.offset ≤ largest_offset }
    requires mode { settings.now.mode ≡ Mode.Index }
    ensures { IfOk result (λ written. (pieces : List MarkedPiece)
        × AreMarkedPieces block_limit depth_limit settings.now.offset
        (drop settings.now.offset text.now) pieces
        × (written.out.items
        ≡ index settings.now.chosen settings.now.name settings.now.number pieces)) }
{
    run_over(alloc, text, settings)
}

/// The listing of a text: exactly the pairs of game and ply that are looked for, each once, in
/// their order.
pub fn list_text(alloc: Global, text: &[u8], settings: &Settings) -> Result<Written, RunError>
    requires number { (1 ≤ settings.now.number) × (settings.now.number ≤ 2 ^ 62) }
    requires offset { settings.now.offset ≤ largest_offset }
    requires mode { settings.now.mode ≡ Mode.List }
    ensures { IfOk result (λ written. (pieces : List MarkedPiece) × (entries : List Entry)
        × AreMarkedPieces block_limit depth_limit settings.now.offset
        (drop settings.now.offset text.now) pieces
        × AreEntries (aim_of settings.now) settings.now.number pieces entries
        × (written.out.items ≡ listing settings.now.name entries)) }
{
    run_over(alloc, text, settings)
}

/// What the export writes of a text: the exports of its games that have an entry, or what else the
/// settings select.
pub fn export_text(alloc: Global, text: &[u8], settings: &Settings) -> Result<Written, RunError>
    requires number { (1 ≤ settings.now.number) × (settings.now.number ≤ 2 ^ 62) }
    requires offset { settings.now.offset ≤ largest_offset }
    requires mode { settings.now.mode ≡ Mode.Export }
    ensures { IfOk result (λ written. (pieces : List MarkedPiece)
        × AreMarkedPieces block_limit depth_limit settings.now.offset
        (drop settings.now.offset text.now) pieces
        × AreExports (aim_of settings.now) settings.now.number pieces written.out.items) }
{
    run_over(alloc, text, settings)
}

/// Runs over a text.
fn run_over(alloc: Global, text: &[u8], settings: &Settings) -> Result<Written, RunError>
    requires number { (1 ≤ settings.now.number) × (settings.now.number ≤ 2 ^ 62) }
    requires offset { settings.now.offset ≤ largest_offset }
    ensures indexes { IfOk result (λ written. settings.now.mode ≡ Mode.Index
        → (pieces : List MarkedPiece)
        × AreMarkedPieces block_limit depth_limit settings.now.offset
        (drop settings.now.offset text.now) pieces
        × (written.out.items
        ≡ index settings.now.chosen settings.now.name settings.now.number pieces)) }
    ensures lists { IfOk result (λ written. settings.now.mode ≡ Mode.List
        → (pieces : List MarkedPiece) × (entries : List Entry)
        × AreMarkedPieces block_limit depth_limit settings.now.offset
        (drop settings.now.offset text.now) pieces
        × AreEntries (aim_of settings.now) settings.now.number pieces entries
        × (written.out.items ≡ listing settings.now.name entries)) }
    ensures exports { IfOk result (λ written. settings.now.mode ≡ Mode.Export
        → (pieces : List MarkedPiece)
        × AreMarkedPieces block_limit depth_limit settings.now.offset
        (drop settings.now.offset text.now) pieces
        × AreExports (aim_of settings.now) settings.now.number pieces written.out.items) }
{
    let mut input = Tally::new(text);
    let mut out = Tally::new(Vec::new(alloc));
    let mut err = Tally::new(Vec::new(alloc));
    complete_runs();
    match run(alloc, &mut input, &mut out, &mut err, settings) {
        Ok(_) => Ok(Written {
            out: out.into_inner(),
            err: err.into_inner(),
        }),
        Err(error) => Err(error),
    }
}

/// Runs over a reader and writers in memory, which may hold bytes already. What was reported stands
/// in their new bytes, and is counted.
pub fn report_text<'a>(
    alloc: Global,
    input: &mut Tally<&'a [u8]>,
    out: &mut Tally<Vec<u8>>,
    err: &mut Tally<Vec<u8>>,
    settings: &Settings,
) -> Result<Summary, RunError>
    requires sound { (input.old.faulted ≡ false) × (out.old.faulted ≡ false)
        × (err.old.faulted ≡ false) }
    requires fresh { input.old.moved ≡ 0 }
    requires number { (1 ≤ settings.now.number) × (settings.now.number ≤ 2 ^ 62) }
    requires offset { settings.now.offset ≤ largest_offset }
    ensures reported { IfOk result (λ summary. (pieces : List MarkedPiece)
        × (verdicts : List Verdict)
        × AreMarkedPieces block_limit depth_limit settings.now.offset
        (drop settings.now.offset input.old.inner.now) pieces
        × AreVerdicts (aim_of settings.now) settings.now.number pieces verdicts
        × (out.new.inner.items ≡ out.old.inner.items ++ output_text verdicts)
        × (err.new.inner.items ≡ err.old.inner.items ++ fault_lines verdicts)
        × (summary.games ≡ length pieces) × (summary.faulty ≡ count_by is_faulty verdicts)) }
    ensures size { OnOk result (length input.old.inner.now ≤ largest_offset) }
    ensures flushed { OnOk result ((out.new.flushed ≡ true) × (err.new.flushed ≡ true)) }
    ensures sound { OnOk result ((out.new.faulted ≡ false) × (err.new.faulted ≡ false)) }
    ensures read { IsErrOf result RunError.Read ↔ (input.new.faulted ≡ true) }
    ensures write { IsErrOf result RunError.Write
        ↔ ((out.new.faulted ≡ true) ⊎ (err.new.faulted ≡ true)) }
{
    run(alloc, input, out, err, settings)
}

/// Begins at a mark of a text. What is reported is what a run over the whole text reports of the
/// games from there on; and of a listing just the lines of their entries.
pub fn resume_text<'a>(
    alloc: Global,
    input: &mut Tally<&'a [u8]>,
    out: &mut Tally<Vec<u8>>,
    err: &mut Tally<Vec<u8>>,
    settings: &Settings,
) -> Result<Summary, RunError>
    requires sound { (input.old.faulted ≡ false) × (out.old.faulted ≡ false)
        × (err.old.faulted ≡ false) }
    requires fresh { input.old.moved ≡ 0 }
    requires number { (1 ≤ settings.now.number) × (settings.now.number ≤ 2 ^ 62) }
    requires offset { settings.now.offset ≤ largest_offset }
    ensures rest { OnOk result ((pieces : List MarkedPiece)
        → AreMarkedPieces block_limit depth_limit 0 input.old.inner.now pieces
        → IsMarkAmong (game_id settings.now.number settings.now.offset) pieces
        → (all : List Verdict) → AreVerdicts (aim_of settings.now) 1 pieces all
        → (own : List Verdict)
        × IsSameReport (aim_of settings.now) own (verdicts_at_least settings.now.number 1 all)
        × (out.new.inner.items ≡ out.old.inner.items ++ output_text own)
        × (err.new.inner.items ≡ err.old.inner.items ++ fault_lines own)) }
    ensures listed { OnOk result (settings.now.mode ≡ Mode.List → (pieces : List MarkedPiece)
        → AreMarkedPieces block_limit depth_limit 0 input.old.inner.now pieces
        → IsMarkAmong (game_id settings.now.number settings.now.offset) pieces
        → (entries : List Entry) → AreEntries (aim_of settings.now) 1 pieces entries
        → out.new.inner.items ≡ out.old.inner.items
        ++ listing settings.now.name (entries_at_least settings.now.number entries)) }
{
    complete_runs();
    run(alloc, input, out, err, settings)
}

/// Runs over memory that may give out. After each error the writers hold what is said of it.
pub fn report_some<'a>(
    alloc: Global,
    input: &mut Tally<&'a [u8]>,
    out: &mut Tally<Vec<u8>>,
    err: &mut Tally<Vec<u8>>,
    settings: &Settings,
) -> Result<Summary, RunError>
    requires sound { (input.old.faulted ≡ false) × (out.old.faulted ≡ false)
        × (err.old.faulted ≡ false) }
    requires fresh { input.old.moved ≡ 0 }
    requires number { (1 ≤ settings.now.number) × (settings.now.number ≤ 2 ^ 62) }
    requires offset { settings.now.offset ≤ largest_offset }
    // A read failed: the pieces of the complete blocks that were read are reported, and nothing
    // else.
    ensures read { IfErr result (λ error. error ≡ RunError.Read
        → (pieces : List MarkedPiece) × (verdicts : List Verdict)
        × AreCompletePieces block_limit depth_limit settings.now.offset
        (drop settings.now.offset (take input.new.moved input.old.inner.now)) pieces
        × AreVerdicts (aim_of settings.now) settings.now.number pieces verdicts
        × (out.new.inner.items ≡ out.old.inner.items ++ output_text verdicts)
        × (err.new.inner.items ≡ err.old.inner.items ++ fault_lines verdicts)) }
    // A write failed: each writer took a beginning of what is to be reported.
    ensures write { IfErr result (λ error. error ≡ RunError.Write
        → (pieces : List MarkedPiece) × (verdicts : List Verdict) × (n : ℕ) × (m : ℕ)
        × AreMarkedPieces block_limit depth_limit settings.now.offset
        (drop settings.now.offset input.old.inner.now) pieces
        × AreVerdicts (aim_of settings.now) settings.now.number pieces verdicts
        × (out.new.inner.items ≡ out.old.inner.items ++ take n (output_text verdicts))
        × (err.new.inner.items ≡ err.old.inner.items ++ take m (fault_lines verdicts))) }
    // Memory ran out: so did each.
    ensures memory { IfErr result (λ error. error ≡ RunError.OutOfMemory
        → (pieces : List MarkedPiece) × (verdicts : List Verdict) × (n : ℕ) × (m : ℕ)
        × AreMarkedPieces block_limit depth_limit settings.now.offset
        (drop settings.now.offset input.old.inner.now) pieces
        × AreVerdicts (aim_of settings.now) settings.now.number pieces verdicts
        × (out.new.inner.items ≡ out.old.inner.items ++ take n (output_text verdicts))
        × (err.new.inner.items ≡ err.old.inner.items ++ take m (fault_lines verdicts))) }
    // The input is longer than can be read: the complete blocks up to there are reported, and
    // nothing else.
    ensures too_long { IfErr result (λ error. error ≡ RunError.InputTooLong
        → largest_offset < length input.old.inner.now) }
    ensures cut { IfErr result (λ error. error ≡ RunError.InputTooLong
        → (pieces : List MarkedPiece) × (verdicts : List Verdict)
        × AreCompletePieces block_limit depth_limit settings.now.offset
        (drop settings.now.offset (take largest_offset input.old.inner.now)) pieces
        × AreVerdicts (aim_of settings.now) settings.now.number pieces verdicts
        × (out.new.inner.items ≡ out.old.inner.items ++ output_text verdicts)
        × (err.new.inner.items ≡ err.old.inner.items ++ fault_lines verdicts)) }
    ensures alone { (out.new.faulted ≡ true) × (err.new.faulted ≡ true) → ⊥ }
{
    run(alloc, input, out, err, settings)
}

/// What the search of a pack in memory writes: whatever text the bytes are the pack of, its
/// listing, or the index of its sound games. Bytes that are no pack are refused at the first record
/// of no game.
pub fn search_pack(alloc: Global, bytes: &[u8], settings: &Settings) -> Result<Vec<u8>, SearchError>
    requires { has_annotations settings.now.line ≡ false }
    ensures listed { IfOk result (λ out. settings.now.mode ≡ Mode.List
        → (name : Option (List ℕ)) (number : ℕ) (pieces : List MarkedPiece)
        → IsPackOf name number pieces bytes.now → (entries : List Entry)
        → AreEntries (named name (of_all (aim_of settings.now))) number pieces entries
        → out.items ≡ listing name entries) }
    ensures indexed { IfOk result (λ out. settings.now.mode ≡ Mode.Index
        → (name : Option (List ℕ)) (number : ℕ) (pieces : List MarkedPiece)
        → IsPackOf name number pieces bytes.now
        → IsIndexOfSoundGames name number pieces out.items) }
    ensures bad { IfErr result (λ error. (at : ℕ) → error ≡ SearchError.BadPack at
        → (before : List PackedGame) × (rest : List ℕ)
        × (bytes.now ≡ pack_bytes before ++ rest) × (at ≡ length (pack_bytes before)) × (rest ≢ [])
        × HasNoGame rest) }
{
    let mut input = Tally::new(bytes);
    let mut out = Tally::new(Vec::new(alloc));
    match search(alloc, &mut input, &mut out, settings) {
        Ok(_) => Ok(out.into_inner()),
        Err(error) => Err(error),
    }
}

/// Searches a pack in memory, after which the writer may hold bytes already. What is found of the
/// records stands in its new bytes.
pub fn search_records<'a>(
    alloc: Global,
    input: &mut Tally<&'a [u8]>,
    out: &mut Tally<Vec<u8>>,
    settings: &Settings,
) -> Result<Searched, SearchError>
    requires sound { (input.old.faulted ≡ false) × (out.old.faulted ≡ false) }
    requires held { has_annotations settings.now.line ≡ false }
    // Each record is counted, and its lines are written.
    ensures searched { IfOk result (λ searched. (records : List PackedGame) × (text : List ℕ)
        × (input.old.inner.now ≡ pack_bytes records)
        × ArePackLines (aim_of settings.now) records text × (searched.records ≡ length records)
        × (out.new.inner.items ≡ out.old.inner.items ++ text)) }
    // A record of no game: the lines of those before it are written, and nothing else.
    ensures bad { IfErr result (λ error. (at : ℕ) → error ≡ SearchError.BadPack at
        → (before : List PackedGame) × (rest : List ℕ) × (text : List ℕ)
        × (input.old.inner.now ≡ pack_bytes before ++ rest) × (at ≡ length (pack_bytes before))
        × HasNoGame rest
        × ArePackLines (aim_of settings.now) before text
        × (out.new.inner.items ≡ out.old.inner.items ++ text)) }
    // A read failed: the lines of all records that were read are.
    ensures read { IfErr result (λ error. error ≡ SearchError.Read
        → (taken : List ℕ) × (before : List PackedGame) × (rest : List ℕ) × (text : List ℕ)
        × (input.old.inner.now ≡ taken ++ input.new.inner.now) × (taken ≡ pack_bytes before ++ rest)
        × HasNoRecord rest
        × ArePackLines (aim_of settings.now) before text
        × (out.new.inner.items ≡ out.old.inner.items ++ text)) }
    // A record ends past the largest offset: those of the records before it are.
    ensures limit { IfErr result (λ error. error ≡ SearchError.InputTooLong
        → (before : List PackedGame) × (next : PackedGame) × (rest : List ℕ) × (text : List ℕ)
        × (input.old.inner.now ≡ pack_bytes before ++ (record_bytes next ++ rest))
        × (largest_offset < length (pack_bytes before) + length (record_bytes next))
        × ArePackLines (aim_of settings.now) before text
        × (out.new.inner.items ≡ out.old.inner.items ++ text)) }
    // A write failed: a beginning of their lines is written.
    ensures write { IfErr result (λ error. error ≡ SearchError.Write
        → (before : List PackedGame) × (rest : List ℕ) × (text : List ℕ) × (n : ℕ)
        × (input.old.inner.now ≡ pack_bytes before ++ rest)
        × ArePackLines (aim_of settings.now) before text
        × (out.new.inner.items ≡ out.old.inner.items ++ take n text)) }
    ensures flushed { OnOk result (out.new.flushed ≡ true) }
    ensures faulted { IsErrOf result SearchError.Write ↔ (out.new.faulted ≡ true) }
{
    search(alloc, input, out, settings)
}

/// Runs over two files in memory, up to an offset in each, with a path between them at which there
/// is none. Written is what each file alone gives, and the line that names the path.
pub fn report_files(
    alloc: Global,
    files: &mut TwoFiles<'_>,
    settings: Settings,
    end: u64,
) -> Result<Written, RunError>
    requires number { (1 ≤ settings.number) × (settings.number ≤ 2 ^ 62) }
    requires offset { settings.offset ≤ largest_offset }
    ensures written { IfOk result (λ written. (one : List ℕ) × (faults : List ℕ) × (line : List ℕ)
        × (two : List ℕ) × (others : List ℕ)
        × IsReport (job_of settings) (take end files.old.first.now) one faults
        × NamesUnopened (codes "none.pgn") line
        × IsReport (job_of settings) (take end files.old.second.now) two others
        × (written.out.items ≡ one ++ two) × (written.err.items ≡ faults ++ line ++ others)) }
    ensures too_long { IfErr result (λ error. error ≡ RunError.InputTooLong
        → (largest_offset < length (take end files.old.first.now))
        ⊎ (largest_offset < length (take end files.old.second.now))) }
{
    let mut out = Tally::new(Vec::new(alloc));
    let mut err = Tally::new(Vec::new(alloc));
    let mut task = Task {
        alloc,
        settings,
        paths: &["first.pgn", "none.pgn", "second.pgn"],
        with_names: false,
        summary: false,
        end,
    };
    match run_files(&mut task, files, &mut out, &mut err) {
        Ok(_) => Ok(Written {
            out: out.into_inner(),
            err: err.into_inner(),
        }),
        Err(error) => Err(error),
    }
}

/// Lists the same two files: the listing of the first, and then that of the second.
pub fn list_files(
    alloc: Global,
    files: &mut TwoFiles<'_>,
    settings: Settings,
    end: u64,
) -> Result<Written, RunError>
    requires number { (1 ≤ settings.number) × (settings.number ≤ 2 ^ 62) }
    requires offset { settings.offset ≤ largest_offset }
    requires mode { settings.mode ≡ Mode.List }
    ensures { IfOk result (λ written. (pieces : List MarkedPiece) × (entries : List Entry)
        × (others : List MarkedPiece) × (more : List Entry)
        × ArePieces (job_of settings) (take end files.old.first.now) pieces
        × AreEntries (aim_of settings) settings.number pieces entries
        × ArePieces (job_of settings) (take end files.old.second.now) others
        × AreEntries (aim_of settings) settings.number others more
        × (written.out.items ≡ listing settings.name entries ++ listing settings.name more)) }
{
    report_files(alloc, files, settings, end)
}
