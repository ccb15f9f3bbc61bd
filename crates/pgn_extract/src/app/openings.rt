//! The file of `--openings`: its lines, and why it is refused.
ghost use Rattle.std.specs.Prelude.{◌≡◌, ◌∷◌, [], ℕ, Option, IfOk, is_some, unwrap_or};
ghost use Rattle.memchr.specs.Find.{FindsNeedle};
ghost use Rattle.pgn_text.specs.Public.Blocks.{event_line};
ghost use Rattle.pgn_text.specs.Public.GameTexts.{tag_in};
ghost use Rattle.pgn_text.specs.Public.Strings.{IsContents};
ghost use Rattle.pgn_game.specs.Public.Openings.{HasContents, named_of};
ghost use Rattle.pgn_extract.specs.Private.OpeningFiles.{IsOwnLine, AreLinesOfFile};

use crate::app::messages;
use crate::marks::GameId;
use crate::output::file_name::FileName;
use crate::output::texts::{push_fault_line, push_game_fault};
use memchr::memmem;
use pgn_game::{GameFault, Lines, OpeningLine, Openings, replay};
use pgn_text::{Piece, RawGame, games};
use std::alloc::{AllocError, Global};

/// The most bytes that a file of openings has.
pub(crate) const MOST_BYTES: usize = 1 << 24;

/// The most lines that it has.
const MOST_LINES: u64 = 65_536;

/// Why a file of openings is refused.
#[derive(Drop)]
pub(crate) enum BadOpenings {
    /// With this line.
    Line(&'static str),
    /// With this line, which names one of its games.
    Named(Vec<u8>),
    OutOfMemory,
}

impl From<AllocError> for BadOpenings {
    ghost use Rattle.pgn_extract.specs.declared.app.openings.BadOpenings.TheVariants.{OutOfMemory};

    ghost from_gives = { λ _ refusal. refusal ≡ OutOfMemory };

    fn from(_error: AllocError) -> BadOpenings {
        BadOpenings::OutOfMemory
    }
}

/// The contents of the string of a tag of the game; empty where it has none.
fn contents(alloc: Global, game: &RawGame<'_>, name: &[u8]) -> Result<Vec<u8>, AllocError>
    ensures contents { IfOk result (λ own. IsContents own.items) }
    ensures own { IfOk result (λ own.
        own.items ≡ unwrap_or (tag_in name.now game.now.tags) []) }
{
    match game.tags().get(name).copied() {
        Some(contents) => Vec::from_slice(alloc, contents),
        None => Ok(Vec::new(alloc)),
    }
}

/// The line that a game of the file is; or the fault of its main line.
fn line_of<'a>(alloc: Global, game: &RawGame<'a>) -> Result<OpeningLine, GameFault<'a>>
    ensures contents { IfOk result (λ line. HasContents (named_of line)) }
    ensures own { IfOk result (λ line. IsOwnLine game.now (named_of line)) }
{
    let replayed = replay(alloc, game, Lines::Main)?;
    Ok(OpeningLine {
        end: replayed.position(replayed.plies()).copy(),
        code: contents(alloc, game, b"ECO")?,
        name: contents(alloc, game, b"Opening")?,
        variation: contents(alloc, game, b"Variation")?,
    })
}

/// Whether an event line begins in the text after its first byte. There a new game begins, whatever
/// is open before it: so a brace or a result was lost.
fn has_event_line(text: &[u8]) -> bool
    ensures { (found : Option ℕ) × FindsNeedle text.now (10 ∷ event_line) 0 found
        × (result ≡ is_some found) }
{
    memmem::find(text, b"\n[Event \"").is_some()
}

/// The refusal of a game of the file, with the file's name, the game's mark and its fault.
fn bad_game(alloc: Global, path: &str, id: GameId, fault: GameFault<'_>) -> BadOpenings {
    match bad_game_line(alloc, path, id, fault) {
        Ok(line) => BadOpenings::Named(line),
        Err(AllocError) => BadOpenings::OutOfMemory,
    }
}

/// Its line.
fn bad_game_line(
    alloc: Global,
    path: &str,
    id: GameId,
    fault: GameFault<'_>,
) -> Result<Vec<u8>, AllocError> {
    let name = Some(FileName::of_path(alloc, path)?);
    let mut line = Vec::from_slice(alloc, messages::BAD_OPENINGS.as_bytes())?;
    push_game_fault(&mut line, &name, id, fault)?;
    Ok(line)
}

/// The refusal of bytes of the file that are no game.
fn unreadable(alloc: Global, path: &str, id: GameId) -> Result<BadOpenings, AllocError> {
    let name = Some(FileName::of_path(alloc, path)?);
    let mut line = Vec::from_slice(alloc, messages::BAD_OPENINGS.as_bytes())?;
    push_fault_line(&mut line, &name, id, b"unreadable")?;
    Ok(BadOpenings::Named(line))
}

/// The openings of a file with these bytes: each of its games is a line, with the tags ECO, Opening
/// and Variation. The first game that cannot be read or played is named.
pub(crate) fn read_openings(alloc: Global, path: &str, text: &[u8]) -> Result<Openings, BadOpenings>
    ensures { IfOk result (λ openings. AreLinesOfFile text.now openings) }
{
    if text.len() > MOST_BYTES {
        return Err(BadOpenings::Line(messages::OPENINGS_TOO_LONG));
    }
    let mut openings = Openings::new(alloc)?;
    let mut number = 0u64;
    for piece in games(alloc, text, true) {
        if number == MOST_LINES {
            return Err(BadOpenings::Line(messages::TOO_MANY_OPENINGS));
        }
        number = number.saturating_add(1);
        let piece = piece?;
        if let Piece::Game(game) = &piece
            && has_event_line(game.text())
        {
            let offset = game.at() as u64;
            return Err(unreadable(alloc, path, GameId { number, offset })?);
        }
        let line = match piece {
            Piece::Game(game) => match line_of(alloc, &game) {
                Ok(line) => line,
                Err(fault) => {
                    let offset = game.at() as u64;
                    return Err(bad_game(alloc, path, GameId { number, offset }, fault));
                }
            },
            Piece::Unreadable { at } => {
                let offset = at as u64;
                return Err(unreadable(alloc, path, GameId { number, offset })?);
            }
        };
        openings = openings.with(line)?;
    }
    if number == 0 {
        return Err(BadOpenings::Line(messages::NO_OPENINGS));
    }
    Ok(openings)
}
