//! The game that rows are of, where it stands: in a text or in a pack.
ghost use Rattle.std.specs.Prelude.{◌≡◌, true, Some, None, option_map, IfOk, IfSome};
ghost use Rattle.pgn_extract.specs.Private.Finding.{IsOfGame};
ghost use Rattle.pgn_extract.specs.Private.Packed.{EachOfRecord, raw_id};
ghost use Rattle.pgn_extract.specs.Private.RowGames.{IsGameIn, IsInRecord};
ghost use Rattle.pgn_extract.specs.Private.RowGames.{name_of, openings_of, is_text};
ghost use Rattle.pgn_extract.specs.Public.Rows.{IsOpeningBy};
ghost use Rattle.pgn_game.specs.Public.Replays.{Replay};
ghost use Rattle.pgn_text.specs.Public.GameTexts.{GameText, tag_in};
ghost use Rattle.pgn_text.specs.Public.Strings.{IsContents};

use crate::entries::GameContext;
use crate::marks::{GameId, LineId};
use crate::packed::PackedFault;
use crate::packed::kept_packed::record_opening;
use crate::settings::Settings;
use pgn_game::pack::RawRecord;
use pgn_game::{GameFault, Opening, Openings};
use pgn_text::{RawGame, is_contents};
use std::alloc::{AllocError, Global};

/// Where the tags, the result and the opening of a game are read.
#[derive(Clone, Copy)]
pub(crate) enum GameSource<'g, 'a> {
    /// In its text, with the lines of openings, where they are given.
    Text(&'g RawGame<'a>, Option<&'g Openings>),
    /// In its record, with these lines.
    Record(&'g RawRecord<'a>, Option<&'g Openings>),
}

/// A game whose entries have rows.
#[derive(Clone, Copy)]
pub(crate) struct RowGame<'g, 'a> {
    /// The name of its file, where lines have one.
    pub(crate) name: Option<&'g [u8]>,
    /// Which game it is.
    pub(crate) id: GameId,
    /// Which line of it, where each of its lines is listed.
    pub(crate) line: Option<LineId>,
    /// Where its tags, its result and its opening are read.
    pub(crate) source: GameSource<'g, 'a>,
}

/// The lines of openings that are given.
fn given_openings(settings: &Settings) -> Option<&Openings>
    ensures { option_map (λ openings. openings.now) result ≡ settings.now.openings }
{
    match &settings.openings {
        Some(openings) => Some(openings),
        None => None,
    }
}

impl<'g, 'a> RowGame<'g, 'a> {
    /// A game in a text, or a line of one as a game.
    pub(crate) fn in_text(
        context: GameContext<'g>,
        line: Option<LineId>,
        game: &'g RawGame<'a>,
    ) -> Self
        ensures name { name_of result ≡ context.entry.settings.now.name }
        ensures id { result.id ≡ context.entry.own }
        ensures line { result.line ≡ line }
        ensures openings { openings_of result.source ≡ context.entry.settings.now.openings }
        ensures source { IsGameIn result.source game.now }
        ensures text { is_text result.source ≡ true }
    {
        RowGame {
            name: match &context.settings.name {
                Some(name) => Some(name.bytes()),
                None => None,
            },
            id: context.own,
            line,
            source: GameSource::Text(game, given_openings(context.settings)),
        }
    }

    /// A game in a pack.
    pub(crate) fn in_pack(settings: &'g Settings, record: &'g RawRecord<'a>) -> Self
        ensures name { name_of result ≡ record.now.name }
        ensures id { result.id ≡ raw_id record.now }
        ensures line { result.line ≡ None }
        ensures openings { openings_of result.source ≡ settings.now.openings }
        ensures source { EachOfRecord record.now (λ game replay packed.
            IsGameIn result.source game) }
    {
        RowGame {
            name: record.name(),
            id: GameId {
                number: record.number(),
                offset: record.offset(),
            },
            line: None,
            source: GameSource::Record(record, given_openings(settings)),
        }
    }
}

/// The text where it is the contents of a string.
fn if_contents(text: &[u8]) -> Option<&[u8]>
    ensures taken { IfSome result (λ contents. (contents.now ≡ text.now) × IsContents text.now) }
    ensures left { IsContents text.now → option_map (λ contents. contents.now) result
        ≡ Some text.now }
{
    if is_contents(text) { Some(text) } else { None }
}

/// The opening of a game by these lines; none where its main line is faulty.
fn opening_by(
    alloc: Global,
    game: &RawGame<'_>,
    openings: &Openings,
) -> Result<Option<Opening>, AllocError>
    ensures { IfOk result (λ opening. (replay : Replay) → IsOfGame game.now replay
        → IsOpeningBy (Some openings.now) replay.positions opening) }
{
    match openings.opening_of(alloc, game) {
        Ok(line) => Ok(line.opening),
        Err(GameFault::OutOfMemory) => Err(AllocError),
        Err(GameFault::BadPosition) => Ok(None),
        Err(GameFault::Illegal { .. }) => Ok(None),
        Err(GameFault::Ambiguous { .. }) => Ok(None),
    }
}

/// The opening of a packed game by the lines that are given; none without lines, or where it is the
/// record of no game.
fn opening_in(
    alloc: Global,
    raw: &RawRecord<'_>,
    openings: Option<&Openings>,
) -> Result<Option<Opening>, AllocError>
    ensures { IfOk result (λ opening. (game : GameText) → IsInRecord raw.now game
        → (replay : Replay) → IsOfGame game replay
        → IsOpeningBy (option_map (λ lines. lines.now) openings.entry) replay.positions opening) }
{
    let Some(lines) = openings else {
        return Ok(None);
    };
    match record_opening(alloc, raw, lines) {
        Ok(opening) => Ok(opening),
        Err(PackedFault::NoGame) => Ok(None),
        Err(PackedFault::OutOfMemory) => Err(AllocError),
    }
}

impl<'g, 'a> GameSource<'g, 'a> {
    /// The contents of the tag with this name, if the game has one.
    pub(crate) fn tag(self, name: &[u8]) -> Option<&'a [u8]>
        ensures is { (game : GameText) → IsGameIn self.entry game
            → option_map (λ contents. contents.now) result ≡ tag_in name.now game.tags }
        ensures contents { IfSome result (λ contents. IsContents contents.now) }
    {
        match self {
            GameSource::Text(game, _) => game.tags().get(name).copied(),
            GameSource::Record(raw, _) => if_contents(raw.tag(name)?),
        }
    }

    /// The result that ends the game.
    pub(crate) fn result(self) -> &'a [u8]
        ensures { (game : GameText) → IsGameIn self.entry game → result.now ≡ game.result }
    {
        match self {
            GameSource::Text(game, _) => game.result(),
            GameSource::Record(raw, _) => raw.result(),
        }
    }

    /// The opening of the game by the lines that are given; none without lines, or where its main
    /// line is faulty.
    pub(crate) fn opening(self, alloc: Global) -> Result<Option<Opening>, AllocError>
        ensures { IfOk result (λ opening. (game : GameText) → IsGameIn self.entry game
            → (replay : Replay) → IsOfGame game replay
            → IsOpeningBy (openings_of self.entry) replay.positions opening) }
    {
        match self {
            GameSource::Text(game, Some(openings)) => opening_by(alloc, game, openings),
            GameSource::Text(_, None) => Ok(None),
            GameSource::Record(raw, openings) => opening_in(alloc, raw, openings),
        }
    }
}
