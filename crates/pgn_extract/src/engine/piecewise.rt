//! The pieces of one block, reported in turn: what is gathered is written once it is large, between
//! the lines of a game too, and at the block's end.
ghost use Rattle.std.specs.Prelude.{◌≡◌, ◌⊎◌, ℕ, ◌+◌, ◌^◌, ◌<◌, ◌≤◌, false, List, length, IfOk};
ghost use Rattle.std.specs.Prelude.{IfErr, OnErr, OnOk};
ghost use Rattle.pgn_text.specs.Public.GameTexts.{tag_in};
ghost use Rattle.pgn_text.specs.Public.Left.{piece_place};
ghost use Rattle.pgn_text.specs.Public.Limits.{block_limit, largest_offset};
ghost use Rattle.pgn_text.specs.Public.Windows.{Shows};
ghost use Rattle.pgn_game.specs.Public.LineGames.{AreLineTexts};
ghost use Rattle.pgn_game.specs.Public.Replays.{IsSoundGame};
ghost use Rattle.pgn_game.specs.Public.Starts.{fen_tag};
ghost use Rattle.pgn_game.specs.declared.replays.replayer.Lines.TheVariants.{All};
ghost use Rattle.pgn_extract.specs.Private.Blockwise.{ExportsLines, IsShown, line_layout};
ghost use Rattle.pgn_extract.specs.Private.RunParts.{AddsFront, BeginsPiece, BeginsPieces};
ghost use Rattle.pgn_extract.specs.Private.RunParts.{BeginsText, GathersPieces, PassesOn};
ghost use Rattle.pgn_extract.specs.Private.RunParts.{PassesPiece, PassesText, WriteFaultsAre};
ghost use Rattle.pgn_extract.specs.Private.RunParts.{WritesPieces};
ghost use Rattle.pgn_extract.specs.Public.Aims.{aim_of};
ghost use Rattle.pgn_extract.specs.Public.Exports.{line_begin};
ghost use Rattle.pgn_extract.specs.Public.Runs.{Adds, job_at, passage};
ghost use Rattle.pgn_extract.specs.declared.settings.Mode.TheVariants.{Index};

use crate::engine::exporting::{exports_lines, line_form, push_line_begin};
use crate::engine::report::{BlockContext, Report, add_mark, report_too_long};
use crate::entries::GameContext;
use crate::explain::notes::line_after;
use crate::marks::GameId;
use crate::output::outcome::{RunError, Summary};
use crate::output::write_all::write_all;
use crate::settings::{Mode, Settings};
use pgn_game::{LineWriter, Lines, check_lines};
use pgn_text::{Block, Body, Piece, RawGame, Tally, games, marks};
use std::alloc::Global;
use std::io::Write;

/// A block whose pieces are to be reported.
#[derive(Clone, Copy)]
pub struct Work<'a> {
    /// The memory that they take.
    pub alloc: Global,
    /// What is to be reported of them.
    pub settings: &'a Settings,
    /// The number of the first one.
    pub number: u64,
    /// The block.
    pub block: Block<'a>,
}

impl<'a> Work<'a> {
    /// A block whose first piece has the number.
    pub fn new(alloc: Global, settings: &'a Settings, number: u64, block: Block<'a>) -> Self
        ensures settings { result.settings ≡ settings.entry }
        ensures number { result.number ≡ number }
        ensures block { result.block ≡ block.entry }
    {
        Work {
            alloc,
            settings,
            number,
            block,
        }
    }
}

/// Writes a report, its output first.
#[inline(always)]
fn put_report<O: Write, E: Write>(
    out: &mut Tally<O>,
    err: &mut Tally<E>,
    report: &Report,
) -> Result<(), RunError>
    requires sound { (out.old.faulted ≡ false) × (err.old.faulted ≡ false) }
    ensures ok { OnOk result (Adds (passage O.contents out.old out.new) report.now.output.items
        × Adds (passage E.contents err.old err.new) report.now.faults.items) }
    ensures err { OnErr result
        (AddsFront (passage O.contents out.old out.new) report.now.output.items
        × AddsFront (passage E.contents err.old err.new) report.now.faults.items) }
    ensures only { IfErr result (λ error. error ≡ RunError.Write) }
    ensures faults { WriteFaultsAre result (passage O.contents out.old out.new)
        (passage E.contents err.old err.new) }
{
    write_all(out, &report.output)?;
    write_all(err, &report.faults)
}

/// Writes the texts of a report, and makes them empty; it counts on.
#[cold]
fn put_texts<O: Write, E: Write>(
    out: &mut Tally<O>,
    err: &mut Tally<E>,
    report: &mut Report,
) -> Result<(), RunError>
    requires sound { (out.old.faulted ≡ false) × (err.old.faulted ≡ false) }
    ensures ok { OnOk result
        (PassesOn report.old report.new (passage O.contents out.old out.new)
        (passage E.contents err.old err.new)) }
    ensures err { OnErr result
        (AddsFront (passage O.contents out.old out.new) report.old.output.items
        × AddsFront (passage E.contents err.old err.new) report.old.faults.items) }
    ensures only { IfErr result (λ error. error ≡ RunError.Write) }
    ensures faults { WriteFaultsAre result (passage O.contents out.old out.new)
        (passage E.contents err.old err.new) }
{
    put_report(out, err, report)?;
    report.clear_texts();
    Ok(())
}

/// Does so if they are large.
#[inline(always)]
fn put_large<O: Write, E: Write>(
    out: &mut Tally<O>,
    err: &mut Tally<E>,
    report: &mut Report,
) -> Result<(), RunError>
    requires sound { (out.old.faulted ≡ false) × (err.old.faulted ≡ false) }
    ensures ok { OnOk result
        (PassesOn report.old report.new (passage O.contents out.old out.new)
        (passage E.contents err.old err.new)) }
    ensures err { OnErr result
        (AddsFront (passage O.contents out.old out.new) report.old.output.items
        × AddsFront (passage E.contents err.old err.new) report.old.faults.items) }
    ensures only { IfErr result (λ error. error ≡ RunError.Write) }
    ensures faults { WriteFaultsAre result (passage O.contents out.old out.new)
        (passage E.contents err.old err.new) }
{
    if report.is_large() {
        put_texts(out, err, report)
    } else {
        Ok(())
    }
}

/// Reports the index of the bytes of a block.
fn report_marks<'a, O: Write, E: Write>(
    out: &mut Tally<O>,
    err: &mut Tally<E>,
    report: &mut Report,
    work: Work<'a>,
    bytes: &'a [u8],
) -> Result<(), RunError>
    requires sound { (out.old.faulted ≡ false) × (err.old.faulted ≡ false) }
    requires mode { work.settings.now.mode ≡ Index }
    requires number { work.number ≤ 2 ^ 63 }
    requires offset { work.block.offset ≤ largest_offset }
    requires size { length bytes.now ≤ block_limit }
    ensures done { OnOk result
        (GathersPieces (job_at work.entry.settings.now work.entry.number work.entry.block.offset)
        report.new
        (passage O.contents out.old out.new) (passage E.contents err.old err.new) bytes.now) }
    ensures stopped { OnErr result
        (BeginsPieces (job_at work.entry.settings.now work.entry.number work.entry.block.offset)
        (passage O.contents out.old out.new) (passage E.contents err.old err.new) bytes.now) }
    ensures only { IfErr result (λ error. (error ≡ RunError.Write)
        ⊎ (error ≡ RunError.OutOfMemory)) }
    ensures faults { WriteFaultsAre result (passage O.contents out.old out.new)
        (passage E.contents err.old err.new) }
{
    let offset = work.block.offset;
    report.clear();
    for mark in marks(bytes, offset == 0) {
        let context = BlockContext {
            alloc: work.alloc,
            settings: work.settings,
            id: GameId {
                number: work.number + report.games,
                offset,
            },
            bytes,
        };
        add_mark(report, context, mark)?;
        put_large(out, err, report)?;
    }
    Ok(())
}

/// Writes the lines of a game, each for itself: what is gathered is written between them once it is
/// large.
fn put_lines<'a, O: Write, E: Write>(
    out: &mut Tally<O>,
    err: &mut Tally<E>,
    report: &mut Report,
    context: GameContext<'a>,
    game: &RawGame<'a>,
) -> Result<(), RunError>
    requires sound { (out.old.faulted ≡ false) × (err.old.faulted ≡ false) }
    requires lines { IsSoundGame All (tag_in fen_tag game.now.tags) game.now.elements }
    ensures done { OnOk result ((text : List ℕ)
        × AreLineTexts (line_layout context.entry.settings.now.form
        (aim_of context.entry.settings.now)
        (line_begin context.entry.settings.now.name context.entry.own)) game.now text
        × PassesText report.old report.new (passage O.contents out.old out.new)
        (passage E.contents err.old err.new) text) }
    ensures stopped { OnErr result ((text : List ℕ)
        × AreLineTexts (line_layout context.entry.settings.now.form
        (aim_of context.entry.settings.now)
        (line_begin context.entry.settings.now.name context.entry.own)) game.now text
        × BeginsText report.old (passage O.contents out.old out.new)
        (passage E.contents err.old err.new) text) }
    ensures only { IfErr result (λ error. (error ≡ RunError.Write)
        ⊎ (error ≡ RunError.OutOfMemory)) }
    ensures faults { WriteFaultsAre result (passage O.contents out.old out.new)
        (passage E.contents err.old err.new) }
{
    game.invariant();
    let mut before = Vec::new(context.alloc);
    push_line_begin(&mut before, context)?;
    let form = line_form(context.settings, &before);
    let mut left = LineWriter::begin(context.alloc, game, form, &mut report.output)?;
    while left.put_next(&mut report.output)? {
        put_large(out, err, report)?;
    }
    Ok(())
}

/// Reports on a game, each line of which is written for itself.
fn put_game<'a, O: Write, E: Write>(
    out: &mut Tally<O>,
    err: &mut Tally<E>,
    report: &mut Report,
    context: BlockContext<'a>,
    game: RawGame<'a>,
) -> Result<(), RunError>
    requires sound { (out.old.faulted ≡ false) × (err.old.faulted ≡ false) }
    requires lines { ExportsLines (aim_of context.settings.now) }
    requires place { game.at ≤ length context.bytes.now }
    requires room { context.id.offset + length context.bytes.now < 2 ^ 64 }
    requires counts { (report.old.games + 1 < 2 ^ 64) × (report.old.faulty + 1 < 2 ^ 64) }
    ensures done { OnOk result
        (PassesPiece (aim_of context.entry.settings.now) report.old report.new context.entry.id
        context.entry.bytes.now (Piece.Game game.entry) (passage O.contents out.old out.new)
        (passage E.contents err.old err.new)) }
    ensures stopped { OnErr result
        (BeginsPiece (aim_of context.entry.settings.now) report.old context.entry.id
        context.entry.bytes.now (Piece.Game game.entry) (passage O.contents out.old out.new)
        (passage E.contents err.old err.new)) }
    ensures only { IfErr result (λ error. (error ≡ RunError.Write)
        ⊎ (error ≡ RunError.OutOfMemory)) }
    ensures faults { WriteFaultsAre result (passage O.contents out.old out.new)
        (passage E.contents err.old err.new) }
{
    game.invariant();
    let BlockContext {
        alloc,
        settings,
        id,
        ..
    } = context;
    let own = GameId {
        offset: id.offset + game.at() as u64,
        ..id
    };
    report.games += 1;
    if report.passes_over(settings, own) {
        return Ok(());
    }
    let place = report.place(context);
    let context = GameContext {
        alloc,
        settings,
        own,
    };
    match check_lines(alloc, &game, Lines::All) {
        Ok(()) => put_lines(out, err, report, context, &game),
        Err(fault) => Ok(report.add_fault(context, place, &game, fault)?),
    }
}

/// Reports on one piece of a block. Lines that are written for themselves are written as they are
/// made; all else is gathered.
#[inline(always)]
fn put_piece<'a, O: Write, E: Write>(
    out: &mut Tally<O>,
    err: &mut Tally<E>,
    report: &mut Report,
    context: BlockContext<'a>,
    piece: Piece<'a>,
) -> Result<(), RunError>
    requires sound { (out.old.faulted ≡ false) × (err.old.faulted ≡ false) }
    requires place { piece_place piece ≤ length context.bytes.now }
    requires room { context.id.offset + length context.bytes.now < 2 ^ 64 }
    requires counts { (report.old.games + 1 < 2 ^ 64) × (report.old.faulty + 1 < 2 ^ 64) }
    ensures done { OnOk result
        (PassesPiece (aim_of context.entry.settings.now) report.old report.new context.entry.id
        context.entry.bytes.now piece.entry (passage O.contents out.old out.new)
        (passage E.contents err.old err.new)) }
    ensures stopped { OnErr result
        (BeginsPiece (aim_of context.entry.settings.now) report.old context.entry.id
        context.entry.bytes.now piece.entry (passage O.contents out.old out.new)
        (passage E.contents err.old err.new)) }
    ensures only { IfErr result (λ error. (error ≡ RunError.Write)
        ⊎ (error ≡ RunError.OutOfMemory)) }
    ensures faults { WriteFaultsAre result (passage O.contents out.old out.new)
        (passage E.contents err.old err.new) }
{
    if !exports_lines(context.settings) {
        return Ok(report.add_piece(context, piece)?);
    }
    match piece {
        Piece::Game(game) => put_game(out, err, report, context, game),
        Piece::Unreadable { at } => Ok(report.add_piece(context, Piece::Unreadable { at })?),
    }
}

/// Reports on the games among the bytes of a block.
fn report_games<'a, O: Write, E: Write>(
    out: &mut Tally<O>,
    err: &mut Tally<E>,
    report: &mut Report,
    work: Work<'a>,
    bytes: &'a [u8],
) -> Result<(), RunError>
    requires sound { (out.old.faulted ≡ false) × (err.old.faulted ≡ false) }
    requires number { work.number ≤ 2 ^ 63 }
    requires offset { work.block.offset ≤ largest_offset }
    requires size { length bytes.now ≤ block_limit }
    ensures done { OnOk result
        (GathersPieces (job_at work.entry.settings.now work.entry.number work.entry.block.offset)
        report.new
        (passage O.contents out.old out.new) (passage E.contents err.old err.new) bytes.now) }
    ensures stopped { OnErr result
        (BeginsPieces (job_at work.entry.settings.now work.entry.number work.entry.block.offset)
        (passage O.contents out.old out.new) (passage E.contents err.old err.new) bytes.now) }
    ensures only { IfErr result (λ error. (error ≡ RunError.Write)
        ⊎ (error ≡ RunError.OutOfMemory)) }
    ensures faults { WriteFaultsAre result (passage O.contents out.old out.new)
        (passage E.contents err.old err.new) }
{
    let offset = work.block.offset;
    report.clear();
    for piece in games(work.alloc, bytes, offset == 0) {
        let piece = piece?;
        let context = BlockContext {
            alloc: work.alloc,
            settings: work.settings,
            id: GameId {
                number: work.number + report.games,
                offset,
            },
            bytes,
        };
        put_piece(out, err, report, context, piece)?;
        put_large(out, err, report)?;
    }
    Ok(())
}

/// Reports on a block: the report has what is not yet written of it, and nothing else.
#[inline(never)]
fn report_block<'a, O: Write, E: Write>(
    out: &mut Tally<O>,
    err: &mut Tally<E>,
    report: &mut Report,
    work: Work<'a>,
) -> Result<(), RunError>
    requires sound { (out.old.faulted ≡ false) × (err.old.faulted ≡ false) }
    requires number { work.number ≤ 2 ^ 63 }
    requires offset { work.block.offset ≤ largest_offset }
    requires size { IsShown block_limit work.block.body }
    ensures done { OnOk result ((bytes : List ℕ) → Shows block_limit work.entry.block.body bytes
        → GathersPieces (job_at work.entry.settings.now work.entry.number work.entry.block.offset)
        report.new (passage O.contents out.old out.new) (passage E.contents err.old err.new)
        bytes) }
    ensures stopped { OnErr result ((bytes : List ℕ) → Shows block_limit work.entry.block.body bytes
        → BeginsPieces (job_at work.entry.settings.now work.entry.number work.entry.block.offset)
        (passage O.contents out.old out.new) (passage E.contents err.old err.new) bytes) }
    ensures only { IfErr result (λ error. (error ≡ RunError.Write)
        ⊎ (error ≡ RunError.OutOfMemory)) }
    ensures faults { WriteFaultsAre result (passage O.contents out.old out.new)
        (passage E.contents err.old err.new) }
{
    let Block { offset, body } = work.block;
    match body {
        Body::Bytes(bytes) => match work.settings.mode {
            Mode::Index => report_marks(out, err, report, work, bytes),
            Mode::List | Mode::EachLine | Mode::Export => report_games(
                out, err, report, work, bytes,
            ),
        },
        Body::TooLong(size) => {
            let id = GameId {
                number: work.number,
                offset,
            };
            Ok(report_too_long(report, work.settings, id, size)?)
        }
    }
}

/// Writes what is reported of the pieces of one block, which is gathered in the report.
pub fn put_block<'a, O: Write, E: Write>(
    out: &mut Tally<O>,
    err: &mut Tally<E>,
    report: &mut Report,
    work: Work<'a>,
) -> Result<Summary, RunError>
    requires sound { (out.old.faulted ≡ false) × (err.old.faulted ≡ false) }
    requires number { work.number ≤ 2 ^ 63 }
    requires offset { work.block.offset ≤ largest_offset }
    requires size { IsShown block_limit work.block.body }
    ensures done { IfOk result (λ summary. (bytes : List ℕ)
        → Shows block_limit work.entry.block.body bytes
        → WritesPieces (job_at work.entry.settings.now work.entry.number work.entry.block.offset)
        (passage O.contents out.old out.new) (passage E.contents err.old err.new) bytes summary) }
    ensures stopped { OnErr result ((bytes : List ℕ) → Shows block_limit work.entry.block.body bytes
        → BeginsPieces (job_at work.entry.settings.now work.entry.number work.entry.block.offset)
        (passage O.contents out.old out.new) (passage E.contents err.old err.new) bytes) }
    ensures only { IfErr result (λ error. (error ≡ RunError.Write)
        ⊎ (error ≡ RunError.OutOfMemory)) }
    ensures faults { WriteFaultsAre result (passage O.contents out.old out.new)
        (passage E.contents err.old err.new) }
{
    report_block(out, err, report, work)?;
    put_report(out, err, report)?;
    report.line = line_after(report.line, work.block);
    Ok(Summary {
        games: report.games,
        faulty: report.faulty,
        unplayed: report.unplayed,
        met: report.met,
    })
}
