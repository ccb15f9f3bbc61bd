//! The notes after the lines of games that cannot be replayed: at which word, and why.
ghost use Rattle.std.specs.Prelude.{◌≡◌, ℕ, List, ◌+◌, ◌^◌, ◌<◌, ◌≤◌, ◌++◌, [], ◌∷◌, length, true};
ghost use Rattle.std.specs.Prelude.{OnOk};
ghost use Rattle.pgn_text.specs.Public.Bytes.{is_not_line_feed};
ghost use Rattle.pgn_extract.specs.Public.Notes.{IsNote, indented};
ghost use Rattle.pgn_extract.specs.Private.MoveNotes.{KeepsLine};

use crate::explain::notes::{Origin, Spot, push_spot};
use chess::{Refusal, san};
use pgn_game::{GameFault, GamePosition, Lines, Refused, Why, named_moves, refused_word};
use pgn_text::{RawGame, element_place, tag_place};
use std::alloc::{AllocError, Global};

/// Where a game stands.
#[derive(Clone, Copy)]
pub struct GamePlace<'a> {
    /// Where its block begins in the file.
    pub origin: Origin,
    /// Its block.
    pub block: &'a [u8],
    /// A place of the block from which on lines are counted: a place of an earlier game.
    pub spot: Spot,
}

/// The byte as it is shown: a line feed as a blank.
fn shown(byte: u8) -> u8
    ensures { is_not_line_feed result ≡ true }
{
    if byte == b'\n' { b' ' } else { byte }
}

/// Appends the bytes as they are shown: so a line stays one line, whatever it says.
pub(crate) fn push_shown(line: &mut Vec<u8>, bytes: &[u8]) -> Result<(), AllocError>
    ensures { OnOk result (KeepsLine line.old.items line.new.items) }
{
    for byte in bytes {
        line.push(shown(*byte))?;
    }
    Ok(())
}

/// Appends the line to the text, indented.
pub(crate) fn push_line(text: &mut Vec<u8>, line: &[u8]) -> Result<(), AllocError>
    ensures { OnOk result (text.new.items ≡ text.old.items ++ indented (line.now ∷ [])) }
{
    text.extend_from_slice(b"  ")?;
    text.extend_from_slice(line)?;
    text.push(b'\n')?;
    Ok(())
}

/// Appends the standard texts of the moves that the word names.
fn push_names(
    alloc: Global,
    line: &mut Vec<u8>,
    position: &GamePosition,
    word: &[u8],
) -> Result<(), AllocError>
    ensures { OnOk result (KeepsLine line.old.items line.new.items) }
{
    let moves = named_moves(alloc, position, word)?;
    let mut label: &[u8] = b" names ";
    for index in 0..moves.len() {
        push_shown(line, label)?;
        let text = san(position, moves[index]);
        push_shown(line, text.as_str().as_bytes())?;
        label = b", ";
    }
    Ok(())
}

/// The man that a move text speaks of, by its letter.
fn man_said(word: &[u8]) -> &'static [u8] {
    match word.first() {
        Some(b'K') => b"king",
        Some(b'Q') => b"queen",
        Some(b'R') => b"rook",
        Some(b'B') => b"bishop",
        Some(b'N') => b"knight",
        _ => b"pawn",
    }
}

/// Appends why the word names no legal move.
fn push_refusal(line: &mut Vec<u8>, word: &[u8], refusal: Refusal) -> Result<(), AllocError>
    ensures { OnOk result (KeepsLine line.old.items line.new.items) }
{
    match refusal {
        Refusal::NoMoveText => push_shown(line, b" is no move"),
        Refusal::NoCastling => {
            push_shown(
                line,
                b": the right is lost, or men stand between king and rook",
            )
        }
        Refusal::CastlingAttacked => push_shown(line, b": an attack bars castling"),
        Refusal::WrongPromotion => push_shown(line, b": its promotion is missing or wrong"),
        Refusal::LeavesKingAttacked => push_shown(line, b": leaves its king attacked"),
        Refusal::NoneCan => {
            push_shown(line, b": no ")?;
            push_shown(line, man_said(word))?;
            push_shown(line, b" can move there")
        }
    }
}

/// Appends the word that is refused, and why.
fn push_why(alloc: Global, line: &mut Vec<u8>, refused: &Refused<'_>) -> Result<(), AllocError>
    ensures { OnOk result (KeepsLine line.old.items line.new.items) }
{
    push_shown(line, b": ")?;
    push_shown(line, refused.word)?;
    match refused.why {
        Why::PassInCheck => push_shown(line, b": no side in check can pass"),
        Why::Ambiguous => push_names(alloc, line, &refused.position, refused.word),
        Why::Illegal(refusal) => push_refusal(line, refused.word, refusal),
    }
}

/// Appends the note on a word that is refused, of the game that begins at the place of the block.
fn push_refused_note(
    alloc: Global,
    text: &mut Vec<u8>,
    game_place: GamePlace<'_>,
    begin: usize,
    refused: &Refused<'_>,
) -> Result<(), AllocError>
    requires place { begin ≤ length game_place.block.now }
    requires room { game_place.origin.offset + length game_place.block.now < 2 ^ 64 }
    ensures { OnOk result ((note : List ℕ) × IsNote true note
        × (text.new.items ≡ text.old.items ++ note)) }
{
    let GamePlace {
        origin,
        block,
        spot,
    } = game_place;
    let place = element_place(block, begin, origin.offset == 0, refused.element);
    let mut line = Vec::new(alloc);
    push_spot(&mut line, origin, spot.go_on(block, place))?;
    push_why(alloc, &mut line, refused)?;
    push_line(text, line.as_slice())
}

/// Appends the note on a FEN tag that gives no position, of the game that begins at the place of
/// the block.
fn push_start_note(
    alloc: Global,
    text: &mut Vec<u8>,
    game_place: GamePlace<'_>,
    begin: usize,
) -> Result<(), AllocError>
    requires place { begin ≤ length game_place.block.now }
    requires room { game_place.origin.offset + length game_place.block.now < 2 ^ 64 }
    ensures { OnOk result ((note : List ℕ) × IsNote true note
        × (text.new.items ≡ text.old.items ++ note)) }
{
    let GamePlace {
        origin,
        block,
        spot,
    } = game_place;
    let place = tag_place(block, begin, origin.offset == 0, b"FEN");
    let mut line = Vec::new(alloc);
    push_spot(&mut line, origin, spot.go_on(block, place))?;
    push_shown(&mut line, b": this tag gives no position")?;
    push_line(text, line.as_slice())
}

/// Appends the note on a game of which these lines cannot be replayed: at which word or tag, and
/// why. The game is replayed once more.
pub fn push_game_note(
    alloc: Global,
    text: &mut Vec<u8>,
    game_place: GamePlace<'_>,
    game: &RawGame<'_>,
    lines: Lines,
) -> Result<(), AllocError>
    requires room { game_place.origin.offset + length game_place.block.now < 2 ^ 64 }
    ensures { OnOk result ((note : List ℕ) × IsNote true note
        × (text.new.items ≡ text.old.items ++ note)) }
{
    let begin = game.at().min(game_place.block.len());
    match refused_word(alloc, game, lines) {
        Ok(Some(refused)) => push_refused_note(alloc, text, game_place, begin, &refused),
        Ok(None) => Ok(()),
        Err(GameFault::BadPosition) => push_start_note(alloc, text, game_place, begin),
        Err(_) => Err(AllocError),
    }
}
