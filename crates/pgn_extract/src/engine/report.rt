//! What is reported of the pieces of one block, piece by piece.
ghost use Rattle.std.specs.Prelude.{◌≡◌, ℕ, List, None, Some, true, MatchResult, IfSome, ◌+◌, ◌^◌};
ghost use Rattle.std.specs.Prelude.{◌<◌, ◌≤◌, [], ◌∷◌, length, codes, not, OnOk};
ghost use Rattle.pgn_text.specs.Public.Left.{piece_place};
ghost use Rattle.pgn_text.specs.Public.LeftMarks.{mark_place};
ghost use Rattle.pgn_extract.specs.Public.Aims.{aim_of};
ghost use Rattle.pgn_extract.specs.Public.Choices.{is_chosen};
ghost use Rattle.pgn_extract.specs.Private.Blockwise.{Reports, AddsVerdict, AddsGame, AddsOutput};
ghost use Rattle.pgn_extract.specs.Private.Blockwise.{AddsCounted, ExportsAll};
ghost use Rattle.pgn_extract.specs.Private.Blockwise.{AddsPiece, AddsReplayed, AddsSearched};
ghost use Rattle.pgn_extract.specs.Private.Blockwise.{IsBlockVerdict};
ghost use Rattle.pgn_extract.specs.Private.Blockwise.{IsMarkReport, StopsIn, too_long_piece};
ghost use Rattle.pgn_extract.specs.Private.Finding.{AddsEntries};
ghost use Rattle.pgn_extract.specs.Public.Index.{fault_text};
ghost use Rattle.pgn_extract.specs.Private.Lines.{is_bare};
ghost use Rattle.pgn_extract.specs.Public.GameReports.{cause_text};
ghost use Rattle.pgn_extract.specs.Public.Notes.{IsNote};
ghost use Rattle.pgn_extract.specs.Public.Verdicts.{Verdict, FaultyGame, replayed_lines};
ghost use Rattle.pgn_game.specs.declared.replays.replayer.Lines.TheVariants.{Main};
ghost use Rattle.pgn_game.specs.Public.Faults.{Fault};
ghost use Rattle.pgn_game.specs.Public.Replays.{HasPlies, fault_of};
ghost use Rattle.pgn_game.specs.Public.Starts.{fen_tag};
ghost use Rattle.pgn_text.specs.Public.GameTexts.{tag_in};

use crate::engine::exporting::{exports_all, push_faulty, put_selected, written_lines};
use crate::entries::each_line::push_each_line;
use crate::entries::listing::push_plies;
use crate::entries::{GameContext, Search, is_ruled_out, lists_none, push_entries};
use crate::explain::move_notes::{GamePlace, push_game_note};
use crate::explain::notes::{Origin, Spot, push_stop_note, push_too_long_note};
use crate::explain::players::push_players;
use crate::marks::{GameId, Met};
use crate::output::texts::{push_fault_line, push_game_fault, push_mark_line};
use crate::settings::{Mode, Settings};
use pgn_game::{
    Classified, GameFault, Lines, Openings, count_plies, export_followed, follow_export,
};
use pgn_text::{Piece, PieceStart, RawGame};
use std::alloc::{AllocError, Global};

/// So many bytes of both texts together are large: a report that has them is written before its
/// block ends.
const LARGE: usize = 1 << 20;

/// What is reported of pieces in a row, and their counts. One is made for a run, and filled anew
/// for each block.
#[derive(Drop)]
pub struct Report {
    /// What goes to the output.
    pub output: Vec<u8>,
    /// What goes to standard error.
    pub faults: Vec<u8>,
    /// How many pieces there are.
    pub games: u64,
    /// How many of them are faulty.
    pub faulty: u64,
    /// How many of them were not played.
    pub unplayed: u64,
    /// Which of the marks of the run's settings are met, in this block and those before it.
    pub met: Met,
    /// The line on which the pieces begin, counted from 1, where it is known.
    pub line: Option<u32>,
    /// The place of the block up to which lines are counted.
    spot: Spot,
}

impl Report {
    /// The report on no pieces, which begin on this line.
    pub fn new(alloc: Global, line: Option<u32>) -> Self
        ensures output { result.output.items ≡ [] }
        ensures faults { result.faults.items ≡ [] }
        ensures counts { (result.games ≡ 0) × (result.faulty ≡ 0) }
    {
        Report {
            output: Vec::new(alloc),
            faults: Vec::new(alloc),
            games: 0,
            faulty: 0,
            unplayed: 0,
            met: Met::NONE,
            line,
            spot: Spot::first(),
        }
    }

    /// Makes it the report on no pieces; the room that it has stays.
    pub fn clear(&mut self)
        ensures output { self.new.output.items ≡ [] }
        ensures faults { self.new.faults.items ≡ [] }
        ensures counts { (self.new.games ≡ 0) × (self.new.faulty ≡ 0) }
    {
        self.output.clear();
        self.faults.clear();
        self.games = 0;
        self.faulty = 0;
        self.unplayed = 0;
        self.spot = Spot::first();
    }

    /// Whether its texts are so long that they are better written before more is added.
    pub fn is_large(&self) -> bool {
        self.output.len() + self.faults.len() >= LARGE
    }

    /// Whether the piece is passed over; else its mark is met.
    pub fn passes_over(&mut self, settings: &Settings, id: GameId) -> bool
        ensures passed { result ≡ not (is_chosen (aim_of settings.now).chosen id) }
        ensures output { self.new.output ≡ self.old.output }
        ensures faults { self.new.faults ≡ self.old.faults }
        ensures counts { (self.new.games ≡ self.old.games) × (self.new.faulty ≡ self.old.faulty) }
    {
        let Some(marks) = &settings.chosen else {
            return false;
        };
        let Some(place) = marks.place(id) else {
            return true;
        };
        self.met.meet(place);
        false
    }

    /// Where a game of the block stands.
    pub fn place<'a>(&self, context: BlockContext<'a>) -> GamePlace<'a>
        ensures offset { result.origin.offset ≡ context.entry.id.offset }
        ensures block { result.block.now ≡ context.entry.bytes.now }
    {
        let BlockContext { id, bytes, .. } = context;
        GamePlace {
            origin: Origin {
                offset: id.offset,
                line: self.line,
            },
            block: bytes,
            spot: self.spot,
        }
    }

    /// Makes its texts empty; the counts stay, and so does the room.
    pub fn clear_texts(&mut self)
        ensures output { self.new.output.items ≡ [] }
        ensures faults { self.new.faults.items ≡ [] }
        ensures counts { (self.new.games ≡ self.old.games) × (self.new.faulty ≡ self.old.faulty) }
    {
        self.output.clear();
        self.faults.clear();
    }
}

/// The lines of a game that are replayed.
fn replayed_lines(settings: &Settings) -> Lines {
    match settings.mode {
        Mode::Index | Mode::List => Lines::Main,
        Mode::EachLine => Lines::All,
        Mode::Export => written_lines(settings),
    }
}

/// The bytes of a block, and what is to be reported of a piece of it.
#[derive(Clone, Copy)]
pub struct BlockContext<'a> {
    /// The memory that it takes.
    pub alloc: Global,
    /// What is asked.
    pub settings: &'a Settings,
    /// The number of the piece, and the offset of the first of the bytes.
    pub id: GameId,
    /// The bytes.
    pub bytes: &'a [u8],
}

/// Appends the lines of the plies of a game within the bounds, which are counted; or answers the
/// fault of its main line.
fn push_counted<'a>(
    text: &mut Vec<u8>,
    context: GameContext<'a>,
    game: &RawGame<'a>,
) -> Result<(), GameFault<'a>>
    requires criteria { context.settings.now.criteria ≡ None }
    requires plain { is_bare context.settings.now.line ≡ true }
    ensures { MatchResult result
        (λ _. AddsEntries (aim_of context.entry.settings.now) context.entry.own game.now
        text.old.items text.new.items)
        (λ fault. IfSome (fault_of fault) (StopsIn Main game.now text.old.items text.new.items)) }
{
    match count_plies(context.alloc, game) {
        Ok(plies) => {
            push_plies(text, context, plies)?;
            Ok(())
        }
        Err(fault) => Err(fault),
    }
}

/// Appends the lines of the entries of a game, or answers the fault of its main line.
fn push_listed<'a>(
    text: &mut Vec<u8>,
    context: GameContext<'a>,
    game: &RawGame<'a>,
) -> Result<(), GameFault<'a>>
    ensures { MatchResult result
        (λ _. AddsEntries (aim_of context.entry.settings.now) context.entry.own game.now
        text.old.items text.new.items)
        (λ fault. IfSome (fault_of fault) (StopsIn Main game.now text.old.items text.new.items)) }
{
    if context.settings.line.is_bare() && context.settings.criteria.is_none() {
        return push_counted(text, context, game);
    }
    push_entries(
        text,
        context,
        game,
        Search::of_game(context.settings, false),
    )
}

/// Appends the lines of the entries of a game that is sound, and whose main line has so many plies.
fn push_of_sound<'a>(
    text: &mut Vec<u8>,
    context: GameContext<'a>,
    game: &RawGame<'a>,
    plies: usize,
) -> Result<(), AllocError>
    requires { HasPlies (tag_in fen_tag game.now.tags) game.now.elements plies }
    ensures { OnOk result
        (AddsEntries (aim_of context.entry.settings.now) context.entry.own game.now
        text.old.items text.new.items) }
{
    if context.settings.line.is_bare() && context.settings.criteria.is_none() {
        return push_plies(text, context, plies);
    }
    match push_entries(text, context, game, Search::of_game(context.settings, true)) {
        Ok(()) => Ok(()),
        Err(fault) => Err(fault.refused()),
    }
}

/// Appends what goes to the output of a sound game; or answers the first fault of the lines that
/// are replayed, and some bytes may be appended.
fn push_sound<'a>(
    text: &mut Vec<u8>,
    context: GameContext<'a>,
    game: &RawGame<'a>,
) -> Result<(), GameFault<'a>>
    ensures { MatchResult result
        (λ _. AddsOutput (aim_of context.entry.settings.now) context.entry.own game.now
        text.old.items text.new.items)
        (λ fault. IfSome (fault_of fault)
        (StopsIn
        (replayed_lines context.entry.settings.now.mode (aim_of context.entry.settings.now))
        game.now text.old.items text.new.items)) }
{
    match context.settings.mode {
        Mode::Index => push_listed(text, context, game),
        Mode::List => push_listed(text, context, game),
        Mode::EachLine => push_each_line(text, context, game),
        Mode::Export => put_selected(text, context, game),
    }
}

impl Report {
    /// Adds the line of a game that can't be replayed.
    pub fn add_fault<'a>(
        &mut self,
        context: GameContext<'a>,
        game_place: GamePlace<'a>,
        game: &RawGame<'a>,
        fault: GameFault<'_>,
    ) -> Result<(), AllocError>
        requires faulty { self.old.faulty + 1 < 2 ^ 64 }
        requires room { game_place.origin.offset + length game_place.block.now < 2 ^ 64 }
        ensures { OnOk result ((own : Fault) × (note : List ℕ) × (fault_of fault.entry ≡ Some own)
            × IsNote context.entry.settings.now.explain note
            × AddsVerdict self.old self.new
            (FaultyGame []
            (fault_text context.entry.settings.now.name context.entry.own (cause_text own))
            note) 0) }
    {
        let GameContext {
            alloc,
            settings,
            own,
        } = context;
        push_game_fault(&mut self.faults, &settings.name, own, fault)?;
        self.faulty += 1;
        if !settings.explain {
            return Ok(());
        }
        self.spot = self
            .spot
            .go_on(game_place.block, game.at().min(game_place.block.len()));
        let game_place = GamePlace {
            spot: self.spot,
            ..game_place
        };
        let lines = replayed_lines(settings);
        push_game_note(alloc, &mut self.faults, game_place, game, lines)?;
        push_players(alloc, &mut self.faults, game.text())
    }

    /// Adds what is reported of a game by its replay: what goes to the output where it is sound,
    /// else the line of its fault.
    fn add_replayed<'a>(
        &mut self,
        context: GameContext<'a>,
        game_place: GamePlace<'a>,
        game: &RawGame<'a>,
    ) -> Result<(), AllocError>
        requires faulty { self.old.faulty + 1 < 2 ^ 64 }
        requires room { game_place.origin.offset + length game_place.block.now < 2 ^ 64 }
        ensures { OnOk result
            (AddsReplayed context.entry.settings.now.mode (aim_of context.entry.settings.now)
            self.old self.new
            context.entry.own game.now) }
    {
        let length = self.output.len();
        match push_sound(&mut self.output, context, game) {
            Ok(()) => Ok(()),
            Err(fault) => {
                let GameContext { settings, .. } = context;
                let text = game.text();
                self.output.truncate(length);
                push_faulty(&mut self.output, settings.mode, settings.select, text)?;
                self.add_fault(context, game_place, game, fault)
            }
        }
    }

    /// Adds what is reported of a game in a mode that looks for entries: nothing where its tags and
    /// result rule it out, else what its replay gives.
    fn add_searched<'a>(
        &mut self,
        context: GameContext<'a>,
        game_place: GamePlace<'a>,
        game: &RawGame<'a>,
    ) -> Result<(), AllocError>
        requires faulty { self.old.faulty + 1 < 2 ^ 64 }
        requires room { game_place.origin.offset + length game_place.block.now < 2 ^ 64 }
        ensures { OnOk result
            (AddsSearched context.entry.settings.now.mode (aim_of context.entry.settings.now)
            self.old self.new
            context.entry.own game.now) }
    {
        if is_ruled_out(context.settings, game) {
            self.unplayed = self.unplayed.saturating_add(1);
            return Ok(());
        }
        self.add_replayed(context, game_place, game)
    }

    /// Adds the export of a game with the tags of its opening, which is found while the game is
    /// played and written; or the line of its fault.
    fn add_followed<'a>(
        &mut self,
        context: GameContext<'a>,
        game_place: GamePlace<'a>,
        game: RawGame<'a>,
        openings: &'a Openings,
    ) -> Result<(), AllocError>
        requires faulty { self.old.faulty + 1 < 2 ^ 64 }
        requires room { game_place.origin.offset + length game_place.block.now < 2 ^ 64 }
        requires all { ExportsAll (aim_of context.settings.now) }
        requires lines { (aim_of context.settings.now).openings ≡ Some openings.now }
        ensures { OnOk result
            (AddsCounted context.entry.settings.now.mode (aim_of context.entry.settings.now)
            self.old self.new
            context.entry.own game.entry) }
    {
        game.invariant();
        let style = &context.settings.style;
        match follow_export(context.alloc, &game, style, openings) {
            Ok(followed) => export_followed(game, &followed, style, openings, &mut self.output),
            Err(fault) => self.add_fault(context, game_place, &game, fault),
        }
    }

    /// Adds the lines of the entries of a sound game, whose main line has so many plies. Where its
    /// tags and its result keep it from having one, it is not searched.
    fn add_listed<'a>(
        &mut self,
        context: GameContext<'a>,
        game: &RawGame<'a>,
        plies: usize,
    ) -> Result<(), AllocError>
        requires mode { context.settings.now.mode ≡ Mode.List }
        requires sound { HasPlies (tag_in fen_tag game.now.tags) game.now.elements plies }
        ensures { OnOk result
            (AddsSearched context.entry.settings.now.mode (aim_of context.entry.settings.now)
            self.old self.new
            context.entry.own game.now) }
    {
        if lists_none(context.settings, game) {
            return Ok(());
        }
        push_of_sound(&mut self.output, context, game, plies)
    }

    /// Adds what is reported of a game as it counts: where lines of openings are given, with the
    /// tags of its opening.
    fn add_counted<'a>(
        &mut self,
        context: GameContext<'a>,
        game_place: GamePlace<'a>,
        game: RawGame<'a>,
    ) -> Result<(), AllocError>
        requires faulty { self.old.faulty + 1 < 2 ^ 64 }
        requires room { game_place.origin.offset + length game_place.block.now < 2 ^ 64 }
        ensures { OnOk result
            (AddsCounted context.entry.settings.now.mode (aim_of context.entry.settings.now)
            self.old self.new
            context.entry.own game.entry) }
    {
        let Some(openings) = &context.settings.openings else {
            return self.add_searched(context, game_place, &game);
        };
        if exports_all(context.settings) {
            return self.add_followed(context, game_place, game, openings);
        }
        let Classified { game, plies } = openings.classified(context.alloc, game)?;
        game.invariant();
        match plies {
            Some(plies) if context.settings.mode == Mode::List => {
                self.add_listed(context, &game, plies)
            }
            _ => self.add_searched(context, game_place, &game),
        }
    }

    /// Adds what is reported of a game.
    fn add_game<'a>(
        &mut self,
        context: GameContext<'a>,
        game_place: GamePlace<'a>,
        game: RawGame<'a>,
    ) -> Result<(), AllocError>
        requires faulty { self.old.faulty + 1 < 2 ^ 64 }
        requires room { game_place.origin.offset + length game_place.block.now < 2 ^ 64 }
        ensures { OnOk result
            (AddsGame (aim_of context.entry.settings.now) self.old self.new context.entry.own
            game.entry) }
    {
        game.invariant();
        let GameContext { settings, own, .. } = context;
        match settings.mode {
            Mode::Index => push_mark_line(&mut self.output, &settings.name, own),
            Mode::List => self.add_counted(context, game_place, game),
            Mode::EachLine => self.add_counted(context, game_place, game),
            Mode::Export => self.add_counted(context, game_place, game),
        }
    }

    /// Adds the line of bytes at the place of the block that are no game, and the bytes themselves
    /// where they are selected.
    #[cold]
    fn add_unreadable(&mut self, context: BlockContext<'_>, at: usize) -> Result<(), AllocError>
        requires place { at ≤ length context.bytes.now }
        requires room { context.id.offset + length context.bytes.now < 2 ^ 64 }
        requires faulty { self.old.faulty + 1 < 2 ^ 64 }
        ensures { OnOk result ((verdict : Verdict)
            × IsBlockVerdict (aim_of context.entry.settings.now) context.entry.id
            context.entry.bytes.now at verdict
            × AddsVerdict self.old self.new verdict 0) }
    {
        let BlockContext {
            alloc,
            settings,
            id,
            bytes,
        } = context;
        push_faulty(
            &mut self.output,
            settings.mode,
            settings.select,
            &bytes[at..],
        )?;
        let own = GameId {
            offset: id.offset + at as u64,
            ..id
        };
        push_fault_line(&mut self.faults, &settings.name, own, b"unreadable")?;
        self.faulty += 1;
        if !settings.explain {
            return Ok(());
        }
        let origin = Origin {
            offset: id.offset,
            line: self.line,
        };
        push_stop_note(&mut self.faults, origin, bytes, at)?;
        push_players(alloc, &mut self.faults, &bytes[at..])
    }

    /// Adds what is reported of one piece of the block.
    pub fn add_piece<'a>(
        &mut self,
        context: BlockContext<'a>,
        piece: Piece<'a>,
    ) -> Result<(), AllocError>
        requires place { piece_place piece ≤ length context.bytes.now }
        requires room { context.id.offset + length context.bytes.now < 2 ^ 64 }
        requires counts { (self.old.games + 1 < 2 ^ 64) × (self.old.faulty + 1 < 2 ^ 64) }
        ensures { OnOk result
            (AddsPiece (aim_of context.entry.settings.now) self.old self.new context.entry.id
            context.entry.bytes.now piece.entry) }
    {
        self.games += 1;
        let BlockContext {
            alloc,
            settings,
            id,
            ..
        } = context;
        match piece {
            Piece::Game(game) => {
                let own = GameId {
                    offset: id.offset + game.at() as u64,
                    ..id
                };
                if self.passes_over(settings, own) {
                    return Ok(());
                }
                let game_place = self.place(context);
                let context = GameContext {
                    alloc,
                    settings,
                    own,
                };
                self.add_game(context, game_place, game)
            }
            Piece::Unreadable { at } => {
                let rest = GameId {
                    offset: id.offset + at as u64,
                    ..id
                };
                if self.passes_over(settings, rest) {
                    return Ok(());
                }
                self.add_unreadable(context, at)
            }
        }
    }
}

/// Reports on a block of this size, over the limit.
pub fn report_too_long(
    report: &mut Report,
    settings: &Settings,
    id: GameId,
    size: u64,
) -> Result<(), AllocError>
    ensures { OnOk result
        (Reports (aim_of settings.now) report.new id.number (too_long_piece id.offset ∷ [])) }
{
    report.clear();
    report.games = 1;
    if report.passes_over(settings, id) {
        return Ok(());
    }
    push_fault_line(&mut report.faults, &settings.name, id, b"too long")?;
    report.faulty = 1;
    if !settings.explain {
        return Ok(());
    }
    push_too_long_note(&mut report.faults, size)
}

/// Adds what the index has of one piece of the block.
pub fn add_mark(
    index: &mut Report,
    context: BlockContext<'_>,
    mark: PieceStart,
) -> Result<(), AllocError>
    requires place { mark_place mark ≤ length context.bytes.now }
    requires room { context.id.offset + length context.bytes.now < 2 ^ 64 }
    requires counts { (index.old.games + 1 < 2 ^ 64) × (index.old.faulty + 1 < 2 ^ 64) }
    ensures { OnOk result ((verdict : Verdict)
        × IsMarkReport (aim_of context.entry.settings.now) context.entry.id context.entry.bytes.now
        mark verdict
        × AddsVerdict index.old index.new verdict 1) }
{
    index.games += 1;
    match mark {
        PieceStart::Game(at) => {
            let own = GameId {
                offset: context.id.offset + at as u64,
                ..context.id
            };
            if index.passes_over(context.settings, own) {
                return Ok(());
            }
            push_mark_line(&mut index.output, &context.settings.name, own)
        }
        PieceStart::Unreadable(at) => {
            let own = GameId {
                offset: context.id.offset + at as u64,
                ..context.id
            };
            if index.passes_over(context.settings, own) {
                return Ok(());
            }
            index.add_unreadable(context, at)
        }
    }
}
