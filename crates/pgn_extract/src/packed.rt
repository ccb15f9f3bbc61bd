//! The entries of a packed game: a walk over the codes of its plies shows its positions.
ghost use Rattle.std.specs.Prelude.{◌≡◌, ◌≢◌, ◌<◌, ◌++◌, true, false, Some, None, codes, length};
ghost use Rattle.std.specs.Prelude.{MatchOption, OnOk, IfOk, IfErr, IfSome};
ghost use Rattle.pgn_text.specs.Public.GameTexts.{tag_in};
ghost use Rattle.pgn_game.specs.Public.Faults.{Fault};
ghost use Rattle.pgn_game.specs.Public.Replays.{fault_of};
ghost use Rattle.pgn_game.specs.Public.Starts.{fen_tag};
ghost use Rattle.pgn_game.specs.Public.PackReading.{IsRawOfGame};
ghost use Rattle.pgn_extract.specs.Public.Aims.{Aim, aim_of};
ghost use Rattle.pgn_extract.specs.Private.Finding.{AsksFor, named_mark};
ghost use Rattle.pgn_extract.specs.Public.Index.{mark_line, titled};
ghost use Rattle.pgn_extract.specs.Public.Listing.{has_annotations};
ghost use Rattle.pgn_extract.specs.Private.Lines.{is_bare};
ghost use Rattle.pgn_criteria.specs.Public.Meeting.{AreMet, heading_of};
ghost use Rattle.pgn_criteria.specs.Public.Prefilters.{codes_in};
ghost use Rattle.pgn_extract.specs.Private.Packed.{raw_id, PutsRecord, LeavesRecord, EachOfRecord};
ghost use Rattle.pgn_extract.specs.Private.KeptPacked.{IsStartOf};
ghost use Rattle.pgn_extract.specs.Private.Packed.{HasNoText, ShowsInitial, StartsThere};
ghost use Rattle.pgn_extract.specs.Private.Packed.{StartsWith, bare_aim, aim_making, HasNoEntry};
ghost use Rattle.pgn_extract.specs.Private.Lines.{IsEnoughFor, MakesLines};
ghost use Rattle.pgn_extract.specs.Private.Packed.{NoneInRecord, StandsInRecord, ListsRecord};
ghost use Rattle.pgn_extract.specs.Private.Packed.{ListsCounted};
ghost use Rattle.pgn_extract.specs.Public.Rows.{IsOpeningBy};
ghost use Rattle.pgn_extract.specs.Private.WalkedLines.{AreMetWith, IsMarkedWith};

pub(crate) mod kept_packed;
mod marked;
pub(crate) mod pack_search;
pub(crate) mod searching;
mod turned;
mod walked;

use crate::entries::finding::Finder;
use crate::entries::line::Line;
use crate::entries::line_maker::LineMaker;
use crate::entries::listing::push_lines;
use crate::entries::told::Told;
use crate::marks::GameId;
use crate::output::texts::{MARK_ROOM, push_mark};
use crate::packed::kept_packed::{push_kept_record, record_opening, start_of};
use crate::packed::marked::Marked;
use crate::packed::turned::{Turned, next_of};
use crate::packed::walked::Walked;
use crate::settings::{Fields, Mode, Settings};
use chess::{Bits, Board, Side};
use pgn_criteria::{Criteria, MarkSet, Search, Seen, TurnSearch, Walk};
use pgn_game::pack::{CodesError, RawRecord, read};
use pgn_game::{GameFault, GamePosition, Opening, Openings, given_position};
use pgn_text::is_contents;
use std::alloc::{AllocError, Global};

/// Why the lines of a packed game are not added.
#[derive(Clone, Copy)]
pub enum PackedFault {
    /// It is the record of no game: its FEN tag spells no position, or its codes tell no line of
    /// legal moves.
    NoGame,
    /// Memory was refused.
    OutOfMemory,
}

impl From<AllocError> for PackedFault {
    ghost use Rattle.pgn_extract.specs.declared.packed.PackedFault.TheVariants.{OutOfMemory};

    ghost from_gives = { λ _ fault. fault ≡ OutOfMemory };

    fn from(_: AllocError) -> Self {
        PackedFault::OutOfMemory
    }
}

/// Appends the name of the record's file and a colon, and nothing where it has no name.
fn push_record_title(text: &mut Vec<u8>, record: &RawRecord<'_>) -> Result<(), AllocError>
    ensures { OnOk result (text.new.items ≡ text.old.items ++ titled (codes ":") record.now.name) }
{
    match record.name() {
        Some(name) => {
            text.extend_from_slice(name)?;
            text.extend_from_slice(b":")
        }
        None => Ok(()),
    }
}

/// Appends the mark that the lines of the record begin with, after the name of its file where it
/// has one.
pub(crate) fn push_record_mark(text: &mut Vec<u8>, record: &RawRecord<'_>) -> Result<(), AllocError>
    ensures { OnOk result (text.new.items ≡ text.old.items
        ++ named_mark record.now.name (raw_id record.now)) }
{
    push_record_title(text, record)?;
    let id = GameId {
        number: record.number(),
        offset: record.offset(),
    };
    push_mark(text, id)
}

/// The fault of a record for that of its FEN tag.
pub(crate) fn start_fault(fault: GameFault<'_>) -> PackedFault
    ensures { result ≡ PackedFault.NoGame → (own : Fault) × (fault_of fault.entry ≡ Some own) }
{
    match fault {
        GameFault::OutOfMemory => PackedFault::OutOfMemory,
        GameFault::BadPosition => PackedFault::NoGame,
        GameFault::Illegal { .. } => PackedFault::NoGame,
        GameFault::Ambiguous { .. } => PackedFault::NoGame,
    }
}

/// Begins the walk at the position that the contents of the record's FEN tag spell.
fn begin_at(
    alloc: Global,
    walk: &mut Walk<Bits>,
    record: &RawRecord<'_>,
    contents: &[u8],
) -> Result<(), PackedFault>
    requires { EachOfRecord record.now (λ game replay packed. tag_in fen_tag game.tags
        ≡ Some contents.now) }
    ensures ok { OnOk result (StartsThere record.now walk.new) }
    ensures err { IfErr result (λ fault. fault ≡ PackedFault.NoGame → HasNoText record.now) }
{
    if !is_contents(contents) {
        return Err(PackedFault::NoGame);
    }
    match given_position(alloc, contents) {
        Ok(position) => {
            let board = position.board();
            *walk = Walk::new(board, position.side(), record.in_check(), record.is_stuck());
            Ok(())
        }
        Err(fault) => Err(start_fault(fault)),
    }
}

/// Begins the walk where the game of the record starts, if that is another position than the
/// initial one, which it shows.
#[inline(always)]
fn begin(alloc: Global, walk: &mut Walk<Bits>, record: &RawRecord<'_>) -> Result<(), PackedFault>
    requires { ShowsInitial record.now walk.old }
    ensures ok { OnOk result (StartsThere record.now walk.new) }
    ensures err { IfErr result (λ fault. fault ≡ PackedFault.NoGame → HasNoText record.now) }
{
    match record.tag(b"FEN") {
        Some(contents) => begin_at(alloc, walk, record, contents),
        None => Ok(()),
    }
}

/// What is asked of a packed game, and its record.
#[derive(Clone, Copy)]
pub(crate) struct RecordContext<'s, 'r, 'a> {
    /// The memory that it takes.
    pub(crate) alloc: Global,
    /// What is asked.
    pub(crate) settings: &'s Settings,
    /// Its record.
    pub(crate) record: &'r RawRecord<'a>,
}

/// Goes through the line of a packed game, and adds the lines of its entries, as they are made.
#[inline(never)]
fn push_found<L: Line + Drop>(
    text: &mut Vec<u8>,
    context: RecordContext<'_, '_, '_>,
    lines: LineMaker<'_>,
    start: L,
) -> Result<(), L::Fault>
    requires valid { L.Valid start }
    requires shows { IsEnoughFor L.Shows lines }
    requires makes { EachOfRecord context.record.now (λ game replay packed.
        MakesLines lines context.record.now.name context.settings.now.openings
        (raw_id context.record.now) game) }
    requires stands { StandsInRecord (L.At start) (aim_making context.settings.now lines)
        context.record.now }
    ensures { OnOk result (ListsRecord (aim_making context.entry.settings.now lines.entry)
        context.entry.record.now text.old.items text.new.items) }
{
    let RecordContext {
        alloc,
        settings,
        record,
    } = context;
    let mut mark = Vec::with_capacity(alloc, MARK_ROOM)?;
    push_record_mark(&mut mark, record)?;
    let finder = Finder {
        settings,
        least: settings.min_ply as usize,
        first: settings.first,
        lines,
        mark,
        is_sound: true,
    };
    let mut line = start;
    finder.find(&mut line, text, true)
}

/// The side to move where the game of the record starts.
fn side_at_start(alloc: Global, record: &RawRecord<'_>) -> Result<Side, PackedFault>
    ensures ok { IfOk result (StartsWith record.now) }
    ensures err { IfErr result (λ fault. fault ≡ PackedFault.NoGame → HasNoText record.now) }
{
    let Some(contents) = record.tag(b"FEN") else {
        return Ok(Side::White);
    };
    let (check, stuck) = (record.in_check(), record.is_stuck());
    let mut walk = Walk::new(Bits::initial(), Side::White, check, stuck);
    match begin_at(alloc, &mut walk, record, contents) {
        Ok(()) => Ok(walk.to_move()),
        Err(fault) => Err(fault),
    }
}

/// The line of the game at its first position with one of the marks, if it has one. At its start
/// that side is to move.
#[inline(always)]
fn first_marked<'p>(marks: MarkSet, turn: Side, record: &RawRecord<'p>) -> Option<Marked<'p>>
    requires starts { StartsWith record.now turn }
    ensures { (aim : Aim) → is_bare aim.line ≡ true
        → EachOfRecord record.now (λ game replay packed.
        AreMetWith marks.flags (heading_of game) aim.criteria)
        → MatchOption result (NoneInRecord aim record.now)
        (λ line. StandsInRecord (λ own game before P.
        IsMarkedWith line.marks.flags line.side (codes_in line.left.now) line.ply own game before P)
        aim record.now) }
{
    let all = record.plies();
    let plies = all.len() / 3;
    if marks.has(turn, record.in_check(), record.is_stuck()) {
        return Some(Marked {
            marks,
            side: turn,
            left: all,
            ply: 0,
            plies,
        });
    }
    let Some((side, left)) = marks.next(turn, all) else {
        return None;
    };
    Some(Marked {
        marks,
        side,
        left,
        ply: plies - left.len() / 3,
        plies,
    })
}

/// Adds the mark and the ply of each entry of a packed game whose positions meet the criteria where
/// they have these marks.
fn push_marked(
    text: &mut Vec<u8>,
    context: RecordContext<'_, '_, '_>,
    marks: MarkSet,
) -> Result<(), PackedFault>
    requires met { EachOfRecord context.record.now (λ game replay packed.
        AreMetWith marks.flags (heading_of game) context.settings.now.criteria) }
    ensures ok { OnOk result (ListsRecord (bare_aim context.entry.settings.now)
        context.entry.record.now text.old.items text.new.items) }
    ensures err { IfErr result (λ fault. fault ≡ PackedFault.NoGame
        → (text.new.items ≡ text.old.items) × HasNoText context.entry.record.now) }
{
    let turn = match side_at_start(context.alloc, context.record) {
        Ok(turn) => turn,
        Err(fault) => return Err(fault),
    };
    let Some(line) = first_marked(marks, turn, context.record) else {
        return Ok(());
    };
    push_found(text, context, LineMaker::Fields(Fields::NONE, None), line)?;
    Ok(())
}

/// Adds the mark and the ply of each entry of a packed game that is walked, and asked this in place
/// of the criteria.
#[inline(always)]
fn push_walked<'a>(
    text: &mut Vec<u8>,
    context: RecordContext<'a, '_, 'a>,
    search: Search<'a>,
) -> Result<(), PackedFault>
    requires asks { EachOfRecord context.record.now (λ game replay packed.
        AsksFor (bare_aim context.settings.now) game search) }
    ensures ok { OnOk result (ListsRecord (bare_aim context.entry.settings.now)
        context.entry.record.now text.old.items text.new.items) }
    ensures err { IfErr result (λ fault. fault ≡ PackedFault.NoGame
        → (text.new.items ≡ text.old.items) × HasNoText context.entry.record.now) }
{
    let RecordContext { alloc, record, .. } = context;
    let (check, stuck) = (record.in_check(), record.is_stuck());
    let mut walk = Walk::new(Bits::initial(), Side::White, check, stuck);
    if let Err(fault) = begin(alloc, &mut walk, record) {
        return Err(fault);
    }
    if !search.may_be_met(&walk, record.plies()) {
        return Ok(());
    }
    let line = Walked {
        walk,
        search,
        left: record.plies(),
        ply: 0,
    };
    push_found(text, context, LineMaker::Fields(Fields::NONE, None), line)?;
    Ok(())
}

/// What criteria ask of the positions of a packed game that starts there, where they speak of its
/// first moves; `None` where they speak of the moves at each ply, or of several plies.
fn begun_search<'a>(
    context: RecordContext<'a, '_, 'a>,
    criteria: &'a Criteria,
    start: GamePosition,
) -> Result<Option<Search<'a>>, PackedFault>
    requires criteria { context.settings.now.criteria ≡ Some criteria.now }
    requires shows { IsRawOfGame context.record.now }
    requires start { IsStartOf context.record.now start }
    ensures ok { IfOk result (λ told. IfSome told (λ search.
        EachOfRecord context.entry.record.now (λ game replay packed.
        AsksFor (bare_aim context.entry.settings.now) game search))) }
    ensures err { IfErr result (λ fault. fault ≡ PackedFault.NoGame
        → HasNoText context.entry.record.now) }
{
    match criteria.watch_begun(context.alloc, context.record, start) {
        Ok(told) => Ok(told),
        Err(CodesError::NoLine) => Err(PackedFault::NoGame),
        Err(CodesError::OutOfMemory) => Err(PackedFault::OutOfMemory),
    }
}

/// What criteria ask of the positions of a packed game; `None` where they speak of the moves at
/// each ply, or of several plies.
#[inline(always)]
fn search_of<'a>(
    context: RecordContext<'a, '_, 'a>,
    criteria: &'a Criteria,
) -> Result<Option<Search<'a>>, PackedFault>
    requires criteria { context.settings.now.criteria ≡ Some criteria.now }
    requires shows { IsRawOfGame context.record.now }
    ensures ok { IfOk result (λ told. IfSome told (λ search.
        EachOfRecord context.entry.record.now (λ game replay packed.
        AsksFor (bare_aim context.entry.settings.now) game search))) }
    ensures err { IfErr result (λ fault. fault ≡ PackedFault.NoGame
        → HasNoText context.entry.record.now) }
{
    let RecordContext { alloc, record, .. } = context;
    if let Some(search) = criteria.watch_counted(alloc, record)? {
        return Ok(Some(search));
    }
    match start_of(alloc, record) {
        Ok(start) => begun_search(context, criteria, start),
        Err(fault) => Err(fault),
    }
}

/// Adds the mark and the ply of each entry of a packed game by criteria. Answers `false`, and adds
/// nothing, where its line has to be replayed, since they speak of its moves or of several plies.
fn push_seen<'a>(
    text: &mut Vec<u8>,
    context: RecordContext<'a, '_, 'a>,
    criteria: &'a Criteria,
) -> Result<bool, PackedFault>
    requires criteria { context.settings.now.criteria ≡ Some criteria.now }
    requires shows { IsRawOfGame context.record.now }
    ensures seen { IfOk result (λ seen. seen ≡ true
        → ListsRecord (bare_aim context.entry.settings.now)
        context.entry.record.now text.old.items text.new.items) }
    ensures unseen { IfOk result (λ seen. seen ≡ false → text.new.items ≡ text.old.items) }
    ensures err { IfErr result (λ fault. fault ≡ PackedFault.NoGame
        → (text.new.items ≡ text.old.items) × HasNoText context.entry.record.now) }
{
    if let Some(marks) = criteria.marks_packed(context.record) {
        return match push_marked(text, context, marks) {
            Ok(()) => Ok(true),
            Err(fault) => Err(fault),
        };
    }
    let found = match search_of(context, criteria) {
        Ok(found) => found,
        Err(fault) => return Err(fault),
    };
    let Some(search) = found else {
        return Ok(false);
    };
    match push_walked(text, context, search) {
        Ok(()) => Ok(true),
        Err(fault) => Err(fault),
    }
}

/// Whether a packed game may have an entry by criteria on its moves or on several plies: not where
/// its record tells of none with no move played.
#[inline(never)]
fn may_be_played<'a>(
    context: RecordContext<'a, '_, 'a>,
    criteria: &'a Criteria,
) -> Result<bool, PackedFault>
    requires criteria { context.settings.now.criteria ≡ Some criteria.now }
    requires shows { IsRawOfGame context.record.now }
    ensures none { IfOk result (λ may. may ≡ false
        → HasNoEntry (bare_aim context.entry.settings.now) context.entry.record.now) }
    ensures err { IfErr result (λ fault. fault ≡ PackedFault.NoGame
        → HasNoText context.entry.record.now) }
{
    let RecordContext { alloc, record, .. } = context;
    let (check, stuck) = (record.in_check(), record.is_stuck());
    let mut walk = Walk::new(Bits::initial(), Side::White, check, stuck);
    if let Err(fault) = begin(alloc, &mut walk, record) {
        return Err(fault);
    }
    Ok(criteria.may_meet_packed(record, &walk))
}

/// Adds the mark and the ply of each entry of a packed game that is played, of which each ply is
/// asked this in place of the criteria.
fn push_asked<'a>(
    text: &mut Vec<u8>,
    context: RecordContext<'a, '_, 'a>,
    search: TurnSearch<'a>,
) -> Result<(), PackedFault>
    requires asks { EachOfRecord context.record.now (λ game replay packed.
        AsksFor (bare_aim context.settings.now) game search) }
    ensures { OnOk result (ListsRecord (bare_aim context.entry.settings.now)
        context.entry.record.now text.old.items text.new.items) }
{
    let here = match start_of(context.alloc, context.record) {
        Ok(start) => start,
        Err(fault) => return Err(fault),
    };
    let left = context.record.plies();
    let next = next_of(&here, left)?;
    let line = Turned {
        search,
        before: here.copy(),
        last: None,
        here,
        next,
        left,
        ply: 0,
    };
    push_found(text, context, LineMaker::Fields(Fields::NONE, None), line)
}

/// Adds the mark and the ply of each entry of a packed game by criteria, while it is played.
/// Answers `false`, and adds nothing, where they speak of its first moves or of several plies, or
/// where a code tells no legal move.
fn push_turned<'a>(
    text: &mut Vec<u8>,
    context: RecordContext<'a, '_, 'a>,
    criteria: &'a Criteria,
) -> Result<bool, PackedFault>
    requires criteria { context.settings.now.criteria ≡ Some criteria.now }
    requires shows { IsRawOfGame context.record.now }
    ensures seen { IfOk result (λ seen. seen ≡ true
        → ListsRecord (bare_aim context.entry.settings.now)
        context.entry.record.now text.old.items text.new.items) }
    ensures unseen { IfOk result (λ seen. seen ≡ false → text.new.items ≡ text.old.items) }
    ensures err { IfErr result (λ fault. fault ≡ PackedFault.NoGame → ⊥) }
{
    let Some(search) = criteria.watch_turns(context.alloc, context.record)? else {
        return Ok(false);
    };
    let mut found = Vec::new(context.alloc);
    match push_asked(&mut found, context, search) {
        Ok(()) => {
            text.extend_from_slice(&found)?;
            Ok(true)
        }
        Err(PackedFault::NoGame) => Ok(false),
        Err(PackedFault::OutOfMemory) => Err(PackedFault::OutOfMemory),
    }
}

/// For each ply of a packed game, whether it meets the criteria. It is `None` where the codes of
/// its plies do not tell what they say.
fn met_by_codes<'a>(
    context: RecordContext<'a, '_, 'a>,
    criteria: &'a Criteria,
) -> Result<Option<Vec<bool>>, PackedFault>
    requires shows { IsRawOfGame context.record.now }
    ensures some { IfOk result (λ told. IfSome told (λ met. 0 < length met.items)) }
    ensures met { IfOk result (λ told. IfSome told (λ met.
        EachOfRecord context.entry.record.now (λ game replay packed.
        AreMet (heading_of game) replay criteria.now met.items))) }
    ensures err { IfErr result (λ fault. fault ≡ PackedFault.NoGame
        → HasNoText context.entry.record.now) }
{
    let RecordContext { alloc, record, .. } = context;
    let (check, stuck) = (record.in_check(), record.is_stuck());
    let mut walk = Walk::new(Bits::initial(), Side::White, check, stuck);
    if let Err(fault) = begin(alloc, &mut walk, record) {
        return Err(fault);
    }
    let told = criteria.met_walked(alloc, record, &walk)?;
    Ok(told)
}

/// Adds the mark and the ply of each entry of a packed game by criteria, which is walked. Answers
/// `false`, and adds nothing, where the codes of its plies do not tell what they say.
fn push_told<'a>(
    text: &mut Vec<u8>,
    context: RecordContext<'a, '_, 'a>,
    criteria: &'a Criteria,
) -> Result<bool, PackedFault>
    requires criteria { context.settings.now.criteria ≡ Some criteria.now }
    requires shows { IsRawOfGame context.record.now }
    ensures seen { IfOk result (λ seen. seen ≡ true
        → ListsRecord (bare_aim context.entry.settings.now)
        context.entry.record.now text.old.items text.new.items) }
    ensures unseen { IfOk result (λ seen. seen ≡ false → text.new.items ≡ text.old.items) }
    ensures err { IfErr result (λ fault. fault ≡ PackedFault.NoGame
        → (text.new.items ≡ text.old.items) × HasNoText context.entry.record.now) }
{
    let told = match met_by_codes(context, criteria) {
        Ok(told) => told,
        Err(fault) => return Err(fault),
    };
    let Some(met) = told else {
        return Ok(false);
    };
    let line = Told { met, ply: 0 };
    push_found(text, context, LineMaker::Fields(Fields::NONE, None), line)?;
    Ok(true)
}

/// The same where all entries are asked for. A game of which the first alone is asked is better
/// played up to there, so that `false` is answered.
fn push_told_whole<'a>(
    text: &mut Vec<u8>,
    context: RecordContext<'a, '_, 'a>,
    criteria: &'a Criteria,
) -> Result<bool, PackedFault>
    requires criteria { context.settings.now.criteria ≡ Some criteria.now }
    requires shows { IsRawOfGame context.record.now }
    ensures seen { IfOk result (λ seen. seen ≡ true
        → ListsRecord (bare_aim context.entry.settings.now)
        context.entry.record.now text.old.items text.new.items) }
    ensures unseen { IfOk result (λ seen. seen ≡ false → text.new.items ≡ text.old.items) }
    ensures err { IfErr result (λ fault. fault ≡ PackedFault.NoGame
        → (text.new.items ≡ text.old.items) × HasNoText context.entry.record.now) }
{
    if context.settings.first {
        return Ok(false);
    }
    push_told(text, context, criteria)
}

/// Adds the mark and the ply of each entry of a packed game by criteria on its moves or on several
/// plies, if it may have one. It is walked where the codes of its plies tell what they say, played
/// where they speak of single plies, and kept where they speak of moves at several plies.
fn push_played<'a>(
    text: &mut Vec<u8>,
    context: RecordContext<'a, '_, 'a>,
    criteria: &'a Criteria,
) -> Result<(), PackedFault>
    requires held { has_annotations context.settings.now.line ≡ false }
    requires bare { is_bare context.settings.now.line ≡ true }
    requires criteria { context.settings.now.criteria ≡ Some criteria.now }
    requires shows { IsRawOfGame context.record.now }
    ensures ok { OnOk result (ListsRecord (aim_of context.entry.settings.now)
        context.entry.record.now text.old.items text.new.items) }
    ensures err { IfErr result (λ fault. fault ≡ PackedFault.NoGame
        → (text.new.items ≡ text.old.items) × HasNoText context.entry.record.now) }
{
    match may_be_played(context, criteria) {
        Ok(true) => {}
        Ok(false) => return Ok(()),
        Err(fault) => return Err(fault),
    }
    match push_told_whole(text, context, criteria) {
        Ok(true) => return Ok(()),
        Ok(false) => {}
        Err(fault) => return Err(fault),
    }
    match push_turned(text, context, criteria) {
        Ok(true) => return Ok(()),
        Ok(false) => {}
        Err(fault) => return Err(fault),
    }
    match push_told(text, context, criteria) {
        Ok(true) => Ok(()),
        Ok(false) => push_kept_record(text, context),
        Err(fault) => Err(fault),
    }
}

/// Whether a packed game may have an entry by criteria: not where its positions tell of none.
fn may_have_entry<'a>(
    context: RecordContext<'a, '_, 'a>,
    criteria: &'a Criteria,
) -> Result<bool, PackedFault>
    requires criteria { context.settings.now.criteria ≡ Some criteria.now }
    requires shows { IsRawOfGame context.record.now }
    ensures none { IfOk result (λ may. may ≡ false
        → HasNoEntry (bare_aim context.entry.settings.now) context.entry.record.now) }
    ensures err { IfErr result (λ fault. fault ≡ PackedFault.NoGame
        → HasNoText context.entry.record.now) }
{
    let mut found = Vec::new(context.alloc);
    let is_seen = match push_seen(&mut found, context, criteria) {
        Ok(is_seen) => is_seen,
        Err(fault) => return Err(fault),
    };
    if !is_seen {
        return may_be_played(context, criteria);
    }
    Ok(!found.is_empty())
}

/// Adds the lines of the entries of a packed game by criteria. Where more than marks and plies is
/// shown, its line is replayed only if it has an entry.
fn push_met<'a>(
    text: &mut Vec<u8>,
    context: RecordContext<'a, '_, 'a>,
    criteria: &'a Criteria,
) -> Result<(), PackedFault>
    requires held { has_annotations context.settings.now.line ≡ false }
    requires criteria { context.settings.now.criteria ≡ Some criteria.now }
    requires shows { IsRawOfGame context.record.now }
    ensures ok { OnOk result (ListsRecord (aim_of context.entry.settings.now)
        context.entry.record.now text.old.items text.new.items) }
    ensures err { IfErr result (λ fault. fault ≡ PackedFault.NoGame
        → (text.new.items ≡ text.old.items) × HasNoText context.entry.record.now) }
{
    if context.settings.line.is_bare() {
        return match push_seen(text, context, criteria) {
            Ok(true) => Ok(()),
            Ok(false) => push_played(text, context, criteria),
            Err(fault) => Err(fault),
        };
    }
    match may_have_entry(context, criteria) {
        Ok(true) => push_kept_record(text, context),
        Ok(false) => Ok(()),
        Err(fault) => Err(fault),
    }
}

/// Adds the lines of the entries of a packed game, where there are no criteria. Where they are
/// marks and plies, it is not replayed.
fn push_plain(text: &mut Vec<u8>, context: RecordContext<'_, '_, '_>) -> Result<(), PackedFault>
    requires held { has_annotations context.settings.now.line ≡ false }
    requires criteria { context.settings.now.criteria ≡ None }
    requires shows { IsRawOfGame context.record.now }
    ensures ok { OnOk result (ListsRecord (aim_of context.entry.settings.now)
        context.entry.record.now text.old.items text.new.items) }
    ensures err { IfErr result (λ fault. fault ≡ PackedFault.NoGame
        → (text.new.items ≡ text.old.items) × HasNoText context.entry.record.now) }
{
    let RecordContext {
        alloc,
        settings,
        record,
    } = context;
    if !settings.line.is_bare() {
        return push_kept_record(text, context);
    }
    let mut mark = Vec::with_capacity(alloc, MARK_ROOM)?;
    push_record_mark(&mut mark, record)?;
    push_lines(text, alloc, settings, &mark, record.plies().len() / 3)?;
    Ok(())
}

/// Adds the lines of the entries of a packed game. Where it is found to be the record of no game,
/// nothing is added.
fn push_entries<'a>(
    text: &mut Vec<u8>,
    context: RecordContext<'a, '_, 'a>,
) -> Result<(), PackedFault>
    requires held { has_annotations context.settings.now.line ≡ false }
    requires shows { IsRawOfGame context.record.now }
    ensures ok { OnOk result (ListsRecord (aim_of context.entry.settings.now)
        context.entry.record.now text.old.items text.new.items) }
    ensures err { IfErr result (λ fault. fault ≡ PackedFault.NoGame
        → (text.new.items ≡ text.old.items) × HasNoText context.entry.record.now) }
{
    match &context.settings.criteria {
        Some(criteria) => push_met(text, context, criteria),
        None => push_plain(text, context),
    }
}

/// Adds the lines of the entries of the packed game with this record, which is that of another one
/// with the tags of its opening. Where that is found to be the record of no game, nothing is added.
fn push_named<'a>(
    text: &mut Vec<u8>,
    context: RecordContext<'a, '_, 'a>,
    openings: &'a Openings,
    opening: Opening,
) -> Result<(), PackedFault>
    requires held { has_annotations context.settings.now.line ≡ false }
    requires shows { IsRawOfGame context.record.now }
    requires openings { context.settings.now.openings ≡ Some openings.now }
    requires within { opening.line < length openings.now }
    requires found { EachOfRecord context.record.now (λ game replay packed.
        IsOpeningBy (Some openings.now) replay.positions (Some opening)) }
    ensures ok { OnOk result (ListsCounted (aim_of context.entry.settings.now)
        context.entry.record.now text.old.items text.new.items) }
    ensures err { IfErr result (λ fault. fault ≡ PackedFault.NoGame
        → (text.new.items ≡ text.old.items) × HasNoText context.entry.record.now) }
{
    let RecordContext {
        alloc,
        settings,
        record,
    } = context;
    let bytes = match openings.named_record(alloc, record, opening.line) {
        Ok(Some(bytes)) => bytes,
        Ok(None) => return Err(PackedFault::NoGame),
        Err(_) => return Err(PackedFault::OutOfMemory),
    };
    let Ok((own, _)) = read(&bytes) else {
        unreachable!();
    };
    let context = RecordContext {
        alloc,
        settings,
        record: &own,
    };
    push_entries(text, context)
}

/// Adds the lines of the entries of a packed game as it counts by these lines of openings: with the
/// tags of its opening, which is found first. Where it is found to be the record of no game,
/// nothing is added.
fn push_counted<'a>(
    text: &mut Vec<u8>,
    context: RecordContext<'a, '_, 'a>,
    openings: &'a Openings,
) -> Result<(), PackedFault>
    requires held { has_annotations context.settings.now.line ≡ false }
    requires shows { IsRawOfGame context.record.now }
    requires openings { context.settings.now.openings ≡ Some openings.now }
    ensures ok { OnOk result (ListsCounted (aim_of context.entry.settings.now)
        context.entry.record.now text.old.items text.new.items) }
    ensures err { IfErr result (λ fault. fault ≡ PackedFault.NoGame
        → (text.new.items ≡ text.old.items) × HasNoText context.entry.record.now) }
{
    match record_opening(context.alloc, context.record, openings) {
        Ok(Some(opening)) => push_named(text, context, openings, opening),
        Ok(None) => push_entries(text, context),
        Err(fault) => Err(fault),
    }
}

/// Adds the line of a packed game in the index. Its plies are not read.
fn push_record_line(text: &mut Vec<u8>, record: &RawRecord<'_>) -> Result<(), AllocError>
    ensures { OnOk result (text.new.items ≡ text.old.items
        ++ mark_line record.now.name (raw_id record.now)) }
{
    push_record_mark(text, record)?;
    text.push(b'\n')?;
    Ok(())
}

/// Adds the lines of a packed game: in the index its mark, else those of its entries. Where it is
/// found to be the record of no game, nothing is added.
pub fn push_packed<'a>(
    text: &mut Vec<u8>,
    alloc: Global,
    settings: &'a Settings,
    record: &RawRecord<'a>,
) -> Result<(), PackedFault>
    requires held { has_annotations settings.now.line ≡ false }
    requires shows { IsRawOfGame record.now }
    ensures ok { OnOk result
        (PutsRecord (aim_of settings.now) record.now text.old.items text.new.items) }
    ensures err { IfErr result (λ fault. fault ≡ PackedFault.NoGame
        → LeavesRecord record.now text.old.items text.new.items) }
{
    let context = RecordContext {
        alloc,
        settings,
        record,
    };
    match settings.mode {
        Mode::Index => {
            push_record_line(text, record)?;
            Ok(())
        }
        Mode::List | Mode::EachLine | Mode::Export => match &settings.openings {
            Some(openings) => push_counted(text, context, openings),
            None => push_entries(text, context),
        },
    }
}
