//! The entries of a packed game whose rows show more than marks and plies, or whose criteria are
//! not told by its codes: its line is played and kept, and then looked through.
ghost use Rattle.std.specs.Prelude.{◌≡◌, ◌<◌, false, Some, OnOk, IfOk, IfErr, IfSome, length};
ghost use Rattle.chess.specs.Public.Moves.{IsLegal, after};
ghost use Rattle.pgn_text.specs.Public.GameTexts.{tag_in};
ghost use Rattle.pgn_game.specs.Public.Starts.{fen_tag};
ghost use Rattle.pgn_game.specs.Public.PackReading.{IsRawOfGame};
ghost use Rattle.pgn_extract.specs.Public.Aims.{Aim, aim_of};
ghost use Rattle.pgn_extract.specs.Private.KeptPacked.{IsStartOf};
ghost use Rattle.pgn_extract.specs.Public.Listing.{has_annotations};
ghost use Rattle.pgn_extract.specs.Public.Rows.{IsOpeningBy};
ghost use Rattle.pgn_extract.specs.Private.Packed.{EachOfRecord, HasNoText, ListsRecord};
ghost use Rattle.pgn_extract.specs.Private.Packed.{StandsInRecord};
ghost use Rattle.pgn_extract.specs.Private.KeptLines.{IsKeptWith, IsReached, line_of};
ghost use Rattle.pgn_criteria.specs.Public.Meeting.{AreMet, heading_of};

use crate::entries::kept::{Kept, add_met, add_move, keep_first};
use crate::entries::line_maker::LineMaker;
use crate::entries::played::{Anything, Known, Question};
use crate::entries::row_game::RowGame;
use crate::packed::turned::next_of;
use crate::packed::{PackedFault, RecordContext, met_by_codes, push_found, search_of, start_fault};
use chess::Move;
use pgn_criteria::Criteria;
use pgn_game::pack::{CodesError, RawRecord};
use pgn_game::{GamePosition, Opening, Openings, given_position};
use pgn_text::is_contents;
use std::alloc::Global;

/// The position that the contents of the record's FEN tag spell.
fn start_given(
    alloc: Global,
    raw: &RawRecord<'_>,
    contents: &[u8],
) -> Result<GamePosition, PackedFault>
    requires { EachOfRecord raw.now (λ game replay packed. tag_in fen_tag game.tags
        ≡ Some contents.now) }
    ensures ok { IfOk result (IsStartOf raw.now) }
    ensures err { IfErr result (λ fault. fault ≡ PackedFault.NoGame → HasNoText raw.now) }
{
    if !is_contents(contents) {
        return Err(PackedFault::NoGame);
    }
    match given_position(alloc, contents) {
        Ok(start) => Ok(start),
        Err(fault) => Err(start_fault(fault)),
    }
}

/// The position from which the game of the record starts.
pub(crate) fn start_of(alloc: Global, raw: &RawRecord<'_>) -> Result<GamePosition, PackedFault>
    ensures ok { IfOk result (IsStartOf raw.now) }
    ensures err { IfErr result (λ fault. fault ≡ PackedFault.NoGame → HasNoText raw.now) }
{
    match raw.tag(b"FEN") {
        Some(contents) => start_given(alloc, raw, contents),
        None => Ok(GamePosition::start()),
    }
}

/// The opening of the line of the record by these lines, or none. It is one of the lines.
pub(crate) fn record_opening(
    alloc: Global,
    raw: &RawRecord<'_>,
    openings: &Openings,
) -> Result<Option<Opening>, PackedFault>
    ensures ok { IfOk result (λ opening. EachOfRecord raw.now (λ game replay packed.
        IsOpeningBy (Some openings.now) replay.positions opening)) }
    ensures within { IfOk result (λ found. IfSome found (λ opening.
        opening.line < length openings.now)) }
    ensures err { IfErr result (λ fault. fault ≡ PackedFault.NoGame → HasNoText raw.now) }
{
    match start_of(alloc, raw) {
        Ok(start) => Ok(openings.opening_of_codes(start, raw.plies())),
        Err(fault) => Err(fault),
    }
}

/// Goes on to the position after the move.
#[inline(always)]
fn go_on(here: &mut GamePosition, m: &Move)
    requires { IsLegal here.old m.now }
    ensures { here.new ≡ after here.old m.now }
{
    *here = here.play(*m);
}

/// Keeps the line of the record: it is played by the codes of its plies, and each position is asked
/// this as it is reached.
fn keep_record<Q: Question>(
    alloc: Global,
    raw: &RawRecord<'_>,
    question: &Q,
) -> Result<Kept, PackedFault>
    ensures valid { IfOk result IsReached }
    ensures ok { IfOk result (λ line. (aim : Aim) → EachOfRecord raw.now (λ game replay packed.
        Q.Asks question.now aim.criteria game)
        → StandsInRecord (λ own game before P.
        IsKeptWith (line_of line) line.met.items line.ply own game before P)
        aim raw.now) }
    ensures err { IfErr result (λ fault. fault ≡ PackedFault.NoGame → HasNoText raw.now) }
{
    let mut here = match start_of(alloc, raw) {
        Ok(start) => start,
        Err(fault) => return Err(fault),
    };
    let mut left = raw.plies();
    let plies = left.len() / 3;
    let mut played = Vec::with_capacity(alloc, plies)?;
    let mut met = Vec::with_capacity(alloc, plies + 1)?;
    let mut first = Vec::new(alloc);
    let start = here.copy();
    loop {
        keep_first(&mut first, played.len(), &here)?;
        add_met(&mut met, question.is_met(played.len(), &here))?;
        let next = match next_of(&here, left) {
            Ok(next) => next,
            Err(fault) => return Err(fault),
        };
        let Some(m) = next else {
            return Ok(Kept::begin(start, played, met, first));
        };
        let [_, _, _, rest @ ..] = left else {
            unreachable!();
        };
        add_move(&mut played, &m)?;
        go_on(&mut here, &m);
        left = rest;
    }
}

/// For each ply of a packed game, whether it meets the criteria. Its line is played where the codes
/// of its plies do not tell.
fn met_of<'a>(
    context: RecordContext<'a, '_, 'a>,
    criteria: &'a Criteria,
) -> Result<Vec<bool>, PackedFault>
    requires shows { IsRawOfGame context.record.now }
    ensures met { IfOk result (λ met. EachOfRecord context.entry.record.now (λ game replay packed.
        AreMet (heading_of game) replay criteria.now met.items)) }
    ensures err { IfErr result (λ fault. fault ≡ PackedFault.NoGame
        → HasNoText context.entry.record.now) }
{
    match met_by_codes(context, criteria) {
        Ok(Some(met)) => return Ok(met),
        Ok(None) => {}
        Err(fault) => return Err(fault),
    }
    let RecordContext { alloc, record, .. } = context;
    let start = match start_of(alloc, record) {
        Ok(start) => start,
        Err(fault) => return Err(fault),
    };
    match criteria.met_coded(alloc, record, &start) {
        Ok(met) => Ok(met),
        Err(CodesError::NoLine) => Err(PackedFault::NoGame),
        Err(CodesError::OutOfMemory) => Err(PackedFault::OutOfMemory),
    }
}

/// The line of the record with what is known of each of its positions by the criteria.
fn kept_met<'a>(
    context: RecordContext<'a, '_, 'a>,
    criteria: &'a Criteria,
) -> Result<Kept, PackedFault>
    requires criteria { context.settings.now.criteria ≡ Some criteria.now }
    requires shows { IsRawOfGame context.record.now }
    ensures valid { IfOk result IsReached }
    ensures ok { IfOk result (λ line. (aim : Aim)
        → aim.criteria ≡ context.entry.settings.now.criteria
        → StandsInRecord (λ own game before P.
        IsKeptWith (line_of line) line.met.items line.ply own game before P)
        aim context.entry.record.now) }
    ensures err { IfErr result (λ fault. fault ≡ PackedFault.NoGame
        → HasNoText context.entry.record.now) }
{
    let RecordContext { alloc, record, .. } = context;
    match search_of(context, criteria) {
        Ok(Some(search)) => return keep_record(alloc, record, &search),
        Ok(None) => {}
        Err(fault) => return Err(fault),
    }
    match met_of(context, criteria) {
        Ok(met) => keep_record(alloc, record, &Known { met }),
        Err(fault) => Err(fault),
    }
}

/// The line of the record with what is known of each of its positions.
fn kept_line<'a>(context: RecordContext<'a, '_, 'a>) -> Result<Kept, PackedFault>
    requires shows { IsRawOfGame context.record.now }
    ensures valid { IfOk result IsReached }
    ensures ok { IfOk result (λ line. (aim : Aim)
        → aim.criteria ≡ context.entry.settings.now.criteria
        → StandsInRecord (λ own game before P.
        IsKeptWith (line_of line) line.met.items line.ply own game before P)
        aim context.entry.record.now) }
    ensures err { IfErr result (λ fault. fault ≡ PackedFault.NoGame
        → HasNoText context.entry.record.now) }
{
    match &context.settings.criteria {
        Some(criteria) => kept_met(context, criteria),
        None => keep_record(context.alloc, context.record, &Anything),
    }
}

/// Adds the lines of the entries of a packed game, whatever they show. The moves of its line are
/// kept meanwhile.
pub(crate) fn push_kept_record<'a>(
    text: &mut Vec<u8>,
    context: RecordContext<'a, '_, 'a>,
) -> Result<(), PackedFault>
    requires held { has_annotations context.settings.now.line ≡ false }
    requires shows { IsRawOfGame context.record.now }
    ensures ok { OnOk result (ListsRecord (aim_of context.entry.settings.now)
        context.entry.record.now text.old.items text.new.items) }
    ensures err { IfErr result (λ fault. fault ≡ PackedFault.NoGame
        → (text.new.items ≡ text.old.items) × HasNoText context.entry.record.now) }
{
    let line = match kept_line(context) {
        Ok(line) => line,
        Err(fault) => return Err(fault),
    };
    let RecordContext {
        alloc,
        settings,
        record,
    } = context;
    let lines = LineMaker::of_game(alloc, &settings.line, RowGame::in_pack(settings, record))?;
    push_found(text, context, lines, line)?;
    Ok(())
}
