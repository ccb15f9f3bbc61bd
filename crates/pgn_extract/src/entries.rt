//! The entries of a game, found while its main line is played, or once it is kept.
ghost use Rattle.std.specs.Prelude.{◌≡◌, ◌≤◌, ◌↔◌, ℕ, true, IsTrue, MatchResult, IfOk, IfSome};
ghost use Rattle.std.specs.Prelude.{◌-◌, None, Some, MatchOption, max};
ghost use Rattle.pgn_text.specs.Public.GameTexts.{tag_in};
ghost use Rattle.pgn_game.specs.Public.Faults.{IsFault};
ghost use Rattle.pgn_game.specs.Public.Replays.{IsSoundGame, fault_of};
ghost use Rattle.pgn_game.specs.Public.Starts.{fen_tag};
ghost use Rattle.pgn_game.specs.declared.replays.replayer.Lines.TheVariants.{Main};
ghost use Rattle.pgn_criteria.specs.Public.Meeting.{heading_of};
ghost use Rattle.pgn_extract.specs.Public.Aims.{HasNoChance, IsRuledOut, aim_of};
ghost use Rattle.pgn_extract.specs.Private.Finding.{AddsEntries, StopsAtFault, IsChosen};
ghost use Rattle.pgn_extract.specs.Private.Finding.{ListsNone};
ghost use Rattle.pgn_extract.specs.Private.Lines.{IsFinderOf, aim_at};

pub(crate) mod annotations;
pub(crate) mod each_line;
mod fields;
pub(crate) mod finding;
pub(crate) mod kept;
pub(crate) mod line;
pub(crate) mod line_maker;
mod line_value;
pub(crate) mod listing;
pub(crate) mod played;
pub(crate) mod row_game;
pub(crate) mod row_maker;
mod sink;
mod ten_lines;
pub(crate) mod told;

use crate::entries::finding::Finder;
use crate::entries::kept::find_asked;
use crate::entries::line_maker::LineMaker;
use crate::entries::played::{Anything, find_again, find_played};
use crate::entries::row_game::RowGame;
use crate::entries::told::find_told;
use crate::marks::{GameId, LineId};
use crate::output::texts::{MARK_ROOM, push_named_mark};
use crate::settings::{Fields, Mode, Select, Settings};
use pgn_criteria::Criteria;
use pgn_game::{GameFault, count_plies};
use pgn_text::RawGame;
use std::alloc::{AllocError, Global};

/// What is asked of a game, and which one it is.
#[derive(Clone, Copy)]
pub struct GameContext<'a> {
    /// The memory that it takes.
    pub alloc: Global,
    /// What is asked.
    pub settings: &'a Settings,
    /// Which game it is.
    pub own: GameId,
}

/// What is looked for in a game, or in a line of one as a game, of whose plies those before the
/// least one are left out.
#[derive(Clone, Copy)]
pub struct Search {
    /// Which line of the game, where each of its lines is listed.
    pub(crate) line: Option<LineId>,
    /// The least ply of an entry.
    pub(crate) least: usize,
    /// Whether it is known that its main line is sound.
    pub(crate) is_sound: bool,
}

impl Search {
    /// Of the main line of a game.
    pub fn of_game(settings: &Settings, is_sound: bool) -> Self
        ensures { result ≡ record {
          line = None;
          least = settings.now.min_ply;
          is_sound = is_sound;
        } }
    {
        Search {
            line: None,
            least: settings.min_ply as usize,
            is_sound,
        }
    }

    /// Of the line of a game with this number, from its first own ply on.
    pub fn of_line(settings: &Settings, number: usize, own_ply: usize, is_sound: bool) -> Self
        ensures { result ≡ record {
          line = Some (record { number = number; from = own_ply - 1 });
          least = max settings.now.min_ply own_ply;
          is_sound = is_sound;
        } }
    {
        Search {
            line: Some(LineId {
                number,
                from: own_ply.saturating_sub(1),
            }),
            least: own_ply.max(settings.min_ply as usize),
            is_sound,
        }
    }
}

/// What is looked for in a game.
fn finder_of<'a>(
    context: GameContext<'a>,
    game: &RawGame<'a>,
    search: Search,
) -> Result<Finder<'a>, AllocError>
    ensures { IfOk result
        (IsFinderOf context.entry.settings.now context.entry.own game.now search) }
{
    let GameContext {
        alloc,
        settings,
        own,
    } = context;
    let mut mark = Vec::with_capacity(alloc, MARK_ROOM)?;
    push_named_mark(&mut mark, &settings.name, own)?;
    let row_game = RowGame::in_text(context, search.line, game);
    Ok(Finder {
        settings,
        least: search.least,
        first: settings.first,
        lines: LineMaker::of_game(alloc, &settings.line, row_game)?,
        mark,
        is_sound: search.is_sound,
    })
}

/// Adds the lines of the entries of a game, or of a line of one as a game, or answers its fault.
/// Each position is asked as it is reached, and none is kept. Where a row shows something of the
/// whole main line, that is played first, and its moves are kept. Criteria that speak of single
/// moves or of several plies are asked first which plies meet them; where a line shows more than
/// these, the main line is played again. One that is known to be sound is not played to its end
/// once no more is looked for.
pub fn push_entries<'a>(
    text: &mut Vec<u8>,
    context: GameContext<'a>,
    game: &RawGame<'a>,
    search: Search,
) -> Result<(), GameFault<'a>>
    requires { search.is_sound ≡ true
        → IsSoundGame Main (tag_in fen_tag game.now.tags) game.now.elements }
    ensures { MatchResult result
        (λ _. AddsEntries (aim_at (aim_of context.entry.settings.now) search.line
        search.least) context.entry.own game.now text.old.items text.new.items)
        (λ fault. IfSome (fault_of fault) (StopsAtFault game.now text.old.items text.new.items)) }
{
    let GameContext {
        alloc,
        settings,
        ..
    } = context;
    let mut finder = finder_of(context, game, search)?;
    let Some(criteria) = &settings.criteria else {
        return find_asked(&finder, alloc, game, Anything, text);
    };
    let Some(question) = criteria.watch(alloc, game)? else {
        if settings.line.is_bare() {
            return find_told(&finder, alloc, criteria, game, text);
        }
        return find_again(&mut finder, alloc, criteria, game, text);
    };
    find_asked(&finder, alloc, game, question, text)
}

/// The least of so many plies within the bounds; none where none is.
fn first_within(settings: &Settings, plies: usize) -> Option<usize>
    ensures { MatchOption result
        ((ply : ℕ) → ply ≤ plies → settings.now.min_ply ≤ ply → ply ≤ settings.now.max_ply → ⊥)
        (λ first. (first ≡ settings.now.min_ply) × (first ≤ plies)
        × (first ≤ settings.now.max_ply)) }
{
    let first = settings.min_ply as usize;
    if settings.min_ply <= settings.max_ply && first <= plies {
        return Some(first);
    }
    None
}

/// Whether by its tags and its result a game can have no entry: they meet those conditions of no
/// alternative.
fn has_no_chance<'a>(criteria: &'a Option<Criteria>, game: &RawGame<'a>) -> bool
    ensures { IsTrue result ↔ HasNoChance criteria.now (heading_of game.now) }
{
    match criteria {
        Some(criteria) => !criteria.may_be_of(game),
        None => false,
    }
}

/// Whether the listing has no line of a game, whatever its moves are: its tags and its result keep
/// it from having an entry.
pub fn lists_none<'a>(settings: &'a Settings, game: &RawGame<'a>) -> bool
    ensures { IsTrue result ↔ ListsNone (aim_of settings.now) (heading_of game.now) }
{
    settings.mode == Mode::List && has_no_chance(&settings.criteria, game)
}

/// Whether a game is not to be played: tags come first, and its tags and result keep it from having
/// an entry, where only games with one are looked for.
pub fn is_ruled_out<'a>(settings: &'a Settings, game: &RawGame<'a>) -> bool
    ensures { IsTrue result ↔ IsRuledOut (aim_of settings.now) (heading_of game.now) }
{
    settings.tags_first
        && settings.select == Select::Matching
        && has_no_chance(&settings.criteria, game)
}

/// The ply of the first entry of a game, none where it has none; or the fault of its main line.
pub fn first_entry<'a>(
    alloc: Global,
    settings: &'a Settings,
    game: &RawGame<'a>,
) -> Result<Option<usize>, GameFault<'a>>
    ensures { MatchResult result
        (IsChosen (aim_of settings.now) game.now)
        (λ fault.
        IfSome (fault_of fault) (IsFault Main (tag_in fen_tag game.now.tags) game.now.elements)) }
{
    let Some(criteria) = &settings.criteria else {
        return Ok(first_within(settings, count_plies(alloc, game)?));
    };
    let question = criteria.watch(alloc, game)?;
    let finder = Finder {
        settings,
        least: settings.min_ply as usize,
        first: true,
        lines: LineMaker::Fields(Fields::NONE, None),
        mark: Vec::new(alloc),
        is_sound: false,
    };
    let mut first = None;
    match question {
        Some(question) => find_played(&finder, alloc, game, question, &mut first)?,
        None => find_told(&finder, alloc, criteria, game, &mut first)?,
    }
    Ok(first)
}
