//! A line of a game on one line of text: the position that it starts from, and its moves.
ghost use Rattle.std.specs.Prelude.{◌≡◌, ◌<◌, ◌≤◌, ◌+◌, ◌++◌, ◌∷◌, ℕ, List, Option, [], map, IfErr};
ghost use Rattle.std.specs.Prelude.{IfSome, OnOk};
ghost use Rattle.pgn_text.specs.Public.Elements.{item_of};
ghost use Rattle.pgn_text.specs.Public.GameTexts.{tag_in};
ghost use Rattle.pgn_game.specs.Public.Faults.{IsFault, IsMoveFault, IsRefusedTurn, IsRefusedWord};
ghost use Rattle.pgn_game.specs.Public.GameLines.{AreTurnTexts, IsGameLine, IsLineText};
ghost use Rattle.pgn_game.specs.Public.GameLines.{IsStartText, promotion_letter};
ghost use Rattle.pgn_game.specs.Public.GameLines.{uci_text, unspaced};
ghost use Rattle.pgn_game.specs.Private.LinePaths.{IsSoundLine};
ghost use Rattle.pgn_game.specs.Private.LineTexts.{AreSaid, AreWritten, PutsElement, PutsMove};
ghost use Rattle.pgn_game.specs.Private.LineTexts.{PutsTurn, words_in};
ghost use Rattle.pgn_game.specs.Public.MainLines.{main_words};
ghost use Rattle.pgn_game.specs.Public.Replays.{fault_of};
ghost use Rattle.pgn_game.specs.Public.Starts.{IsStart, fen_tag};
ghost use Rattle.pgn_game.specs.Private.Walks.{IsStuck};
ghost use Rattle.pgn_game.specs.declared.exports.notation.Notation.TheVariants.{San, Uci};
ghost use Rattle.pgn_game.specs.declared.replays.replayer.Lines.TheVariants.{Main};

use crate::exports::notation::Notation;
use crate::exports::tokens::play_turn_san;
use crate::replays::main_line::MainWalk;
use crate::replays::walk::play_turn;
use crate::turns::fault::GameFault;
use crate::turns::line_move::LineMove;
use crate::turns::naming::{play_named, play_named_san};
use crate::turns::replayed::GamePosition;
use crate::turns::starting::starting_position;
use arrayvec::ArrayString;
use chess::{Kind, Move};
use pgn_text::{Element, RawGame};
use std::alloc::{AllocError, Global};

/// Appends bytes with `_` in place of each space.
fn push_unspaced(out: &mut Vec<u8>, bytes: &[u8]) -> Result<(), AllocError>
    ensures text { OnOk result (out.new.items ≡ out.old.items ++ map unspaced bytes.now) }
    ensures kept { (some : List ℕ) × (out.new.items ≡ out.old.items ++ some) }
{
    for byte in bytes {
        out.push(if *byte == b' ' { b'_' } else { *byte })?;
    }
    Ok(())
}

/// Appends the text of the position from which a game starts: `-` for the initial one.
fn push_start(out: &mut Vec<u8>, start: &GamePosition) -> Result<(), AllocError>
    requires { (fen : Option (List ℕ)) × IsStart fen start.now }
    ensures text { OnOk result ((text : List ℕ) × IsStartText start.now text
        × (out.new.items ≡ out.old.items ++ text)) }
    ensures kept { (some : List ℕ) × (out.new.items ≡ out.old.items ++ some) }
{
    let fen = start.fen();
    let initial: &[u8] = b"rnbqkbnr/pppppppp/8/8/8/8/PPPPPPPP/RNBQKBNR w KQkq - 0 1";
    if fen.as_bytes() == initial {
        return out.extend_from_slice(b"-");
    }
    push_unspaced(out, fen.as_bytes())
}

/// Appends the standard text of a move after a space.
fn push_text(out: &mut Vec<u8>, text: &[u8]) -> Result<(), AllocError>
    ensures text { OnOk result (out.new.items ≡ out.old.items ++ 32 ∷ text.now) }
    ensures kept { (some : List ℕ) × (out.new.items ≡ out.old.items ++ some) }
{
    out.push(b' ')?;
    out.extend_from_slice(text)
}

/// The letter of what a pawn becomes, in lower case.
fn promotion_letter(kind: Kind) -> u8
    ensures { result ∷ [] ≡ promotion_letter (Some kind) }
{
    match kind {
        Kind::King => b'k',
        Kind::Queen => b'q',
        Kind::Rook => b'r',
        Kind::Bishop => b'b',
        Kind::Knight => b'n',
        Kind::Pawn => b'p',
    }
}

/// Appends the two squares of a move, and what a pawn becomes, after a space.
fn push_squares(out: &mut Vec<u8>, m: Move) -> Result<(), AllocError>
    ensures text { OnOk result (out.new.items ≡ out.old.items ++ 32 ∷ uci_text m) }
    ensures kept { (some : List ℕ) × (out.new.items ≡ out.old.items ++ some) }
{
    let squares = [
        b' ',
        b'a' - 1 + m.from.file(),
        b'0' + m.from.rank(),
        b'a' - 1 + m.to.file(),
        b'0' + m.to.rank(),
    ];
    out.extend_from_slice(&squares)?;
    if let Some(kind) = m.promote {
        out.push(promotion_letter(kind))?;
    }
    Ok(())
}

/// Plays the move that the word names, and appends its standard text after a space; or answers the
/// fault of its ply.
fn push_san<'a>(out: &mut Vec<u8>, walk: &mut MainWalk, word: &'a [u8]) -> Result<(), GameFault<'a>>
    requires { walk.old.plies < usize.MAX }
    ensures text { OnOk result
        (PutsMove San walk.old walk.new word.now out.old.items out.new.items) }
    ensures fault { IfErr result (λ fault.
        IfSome (fault_of fault) (IsRefusedWord walk.old.position walk.old.plies word.now)) }
    ensures within { (walk.new.plies ≤ walk.old.plies + 1) × (walk.new.depth ≡ walk.old.depth) }
    ensures kept { (some : List ℕ) × (out.new.items ≡ out.old.items ++ some) }
{
    walk.plies += 1;
    let mut san = ArrayString::new();
    play_named_san(&mut walk.position, word, walk.plies, &mut san)?;
    push_text(out, san.as_bytes())?;
    Ok(())
}

/// Plays the move that the word names, and appends its squares after a space; or answers the fault
/// of its ply.
fn push_uci<'a>(out: &mut Vec<u8>, walk: &mut MainWalk, word: &'a [u8]) -> Result<(), GameFault<'a>>
    requires { walk.old.plies < usize.MAX }
    ensures text { OnOk result
        (PutsMove Uci walk.old walk.new word.now out.old.items out.new.items) }
    ensures fault { IfErr result (λ fault.
        IfSome (fault_of fault) (IsRefusedWord walk.old.position walk.old.plies word.now)) }
    ensures within { (walk.new.plies ≤ walk.old.plies + 1) × (walk.new.depth ≡ walk.old.depth) }
    ensures kept { (some : List ℕ) × (out.new.items ≡ out.old.items ++ some) }
{
    walk.plies += 1;
    let m = play_named(&mut walk.position, word, walk.plies)?;
    push_squares(out, m)?;
    Ok(())
}

/// Plays the move that the word names, and appends its text after a space; or answers the fault of
/// its ply.
fn push_move<'a>(
    out: &mut Vec<u8>,
    walk: &mut MainWalk,
    word: &'a [u8],
    notation: Notation,
) -> Result<(), GameFault<'a>>
    requires { walk.old.plies < usize.MAX }
    ensures text { OnOk result
        (PutsMove notation walk.old walk.new word.now out.old.items out.new.items) }
    ensures fault { IfErr result (λ fault.
        IfSome (fault_of fault) (IsRefusedWord walk.old.position walk.old.plies word.now)) }
    ensures within { (walk.new.plies ≤ walk.old.plies + 1) × (walk.new.depth ≡ walk.old.depth) }
    ensures kept { (some : List ℕ) × (out.new.items ≡ out.old.items ++ some) }
{
    match notation {
        Notation::San => push_san(out, walk, word),
        Notation::Uci => push_uci(out, walk, word),
    }
}

/// Plays the element and appends its text, if it is a move of the main line.
fn push_element<'a>(
    out: &mut Vec<u8>,
    walk: &mut MainWalk,
    element: Element<'a>,
    notation: Notation,
) -> Result<(), GameFault<'a>>
    requires room { (walk.old.plies < usize.MAX) × (walk.old.depth < usize.MAX) }
    ensures within { (walk.new.plies ≤ walk.old.plies + 1) × (walk.new.depth ≤ walk.old.depth + 1) }
    ensures text { OnOk result
        (PutsElement notation walk.old walk.new (item_of element.entry) out.old.items
        out.new.items) }
    ensures stuck { IfErr result (IsStuck walk.old (item_of element.entry)) }
    ensures kept { (some : List ℕ) × (out.new.items ≡ out.old.items ++ some) }
{
    match element {
        Element::Move(word) if walk.depth == 0 => push_move(out, walk, word, notation),
        Element::Open => {
            walk.depth += 1;
            Ok(())
        }
        Element::Close => {
            walk.depth = walk.depth.saturating_sub(1);
            Ok(())
        }
        _ => Ok(()),
    }
}

/// Plays the main line of the elements from the position, and appends its moves, each after a
/// space.
fn push_moves<'a>(
    out: &mut Vec<u8>,
    start: GamePosition,
    elements: &[Element<'a>],
    notation: Notation,
) -> Result<(), GameFault<'a>>
    ensures text { OnOk result ((text : List ℕ)
        × AreWritten notation start (main_words (map item_of elements.now) 0) text
        × (out.new.items ≡ out.old.items ++ text)) }
    ensures fault { IfErr result (λ fault.
        IfSome (fault_of fault) (IsMoveFault start 0 (main_words (map item_of elements.now) 0))) }
    ensures kept { (some : List ℕ) × (out.new.items ≡ out.old.items ++ some) }
{
    let mut walk = MainWalk::new(start);
    for element in elements {
        push_element(out, &mut walk, *element, notation)?;
    }
    Ok(())
}

/// Plays the main line of the game, and appends it while it is played: the position that it starts
/// from, `-` for the initial one, and then each move after a space. No line feed is appended. Where
/// the main line is faulty or memory is refused, some bytes of it may stand in the vector.
pub fn push_line<'a>(
    alloc: Global,
    game: &RawGame<'a>,
    notation: Notation,
    out: &mut Vec<u8>,
) -> Result<(), GameFault<'a>>
    ensures text { OnOk result ((text : List ℕ)
        × IsGameLine notation (tag_in fen_tag game.now.tags) game.now.elements text
        × (out.new.items ≡ out.old.items ++ text)) }
    ensures fault { IfErr result (λ fault.
        IfSome (fault_of fault) (IsFault Main (tag_in fen_tag game.now.tags) game.now.elements)) }
    ensures kept { (some : List ℕ) × (out.new.items ≡ out.old.items ++ some) }
{
    let start = starting_position(alloc, game.tags())?;
    push_start(out, &start)?;
    push_moves(out, start, game.elements(), notation)
}

/// Plays what the word says in the position, in a variation or not, and appends its standard text
/// after a space; or answers its fault.
fn push_turn_san<'a>(
    out: &mut Vec<u8>,
    position: &mut GamePosition,
    inside: bool,
    word: &'a [u8],
) -> Result<(), GameFault<'a>>
    ensures text { OnOk result (PutsTurn San inside position.old position.new word.now
        out.old.items out.new.items) }
    ensures fault { IfErr result (λ fault.
        IfSome (fault_of fault) (IsRefusedTurn inside position.old 0 word.now)) }
    ensures kept { (some : List ℕ) × (out.new.items ≡ out.old.items ++ some) }
{
    let mut san = ArrayString::new();
    play_turn_san(position, inside, word, 1, &mut san)?;
    push_text(out, san.as_bytes())?;
    Ok(())
}

/// Plays what the word says in the position, in a variation or not, and appends the squares of a
/// move or the null move after a space; or answers its fault.
fn push_turn_uci<'a>(
    out: &mut Vec<u8>,
    position: &mut GamePosition,
    inside: bool,
    word: &'a [u8],
) -> Result<(), GameFault<'a>>
    ensures text { OnOk result (PutsTurn Uci inside position.old position.new word.now
        out.old.items out.new.items) }
    ensures fault { IfErr result (λ fault.
        IfSome (fault_of fault) (IsRefusedTurn inside position.old 0 word.now)) }
    ensures kept { (some : List ℕ) × (out.new.items ≡ out.old.items ++ some) }
{
    match play_turn(position, inside, word, 1)? {
        LineMove::Played(m) => Ok(push_squares(out, m)?),
        LineMove::Passed => Ok(push_text(out, b"0000")?),
    }
}

/// Plays what the word says in the position, in a variation or not, and appends its text after a
/// space; or answers its fault.
fn push_turn<'a>(
    out: &mut Vec<u8>,
    position: &mut GamePosition,
    inside: bool,
    word: &'a [u8],
    notation: Notation,
) -> Result<(), GameFault<'a>>
    ensures text { OnOk result (PutsTurn notation inside position.old position.new word.now
        out.old.items out.new.items) }
    ensures fault { IfErr result (λ fault.
        IfSome (fault_of fault) (IsRefusedTurn inside position.old 0 word.now)) }
    ensures kept { (some : List ℕ) × (out.new.items ≡ out.old.items ++ some) }
{
    match notation {
        Notation::San => push_turn_san(out, position, inside, word),
        Notation::Uci => push_turn_uci(out, position, inside, word),
    }
}

/// Plays the words among the elements from the position, in a variation or not, each of which says
/// a turn, and appends these, each after a space.
fn push_turns<'a>(
    out: &mut Vec<u8>,
    start: GamePosition,
    inside: bool,
    elements: &[Element<'a>],
    notation: Notation,
) -> Result<(), AllocError>
    requires { AreSaid inside start (words_in (map item_of elements.now)) }
    ensures text { OnOk result ((text : List ℕ)
        × AreTurnTexts notation inside start (words_in (map item_of elements.now)) text
        × (out.new.items ≡ out.old.items ++ text)) }
    ensures kept { (some : List ℕ) × (out.new.items ≡ out.old.items ++ some) }
{
    let mut position = start;
    for element in elements {
        let Element::Move(word) = *element else {
            continue;
        };
        if let Err(fault) = push_turn(out, &mut position, inside, word, notation) {
            return Err(fault.refused());
        }
    }
    Ok(())
}

/// Appends a game that is one line, which is a variation or not and sound: the position that it
/// starts from, as [`push_line`] does, and then each turn after a space. Where memory is refused,
/// some bytes of it are appended.
pub(crate) fn push_line_text(
    alloc: Global,
    line: &RawGame<'_>,
    inside: bool,
    notation: Notation,
    out: &mut Vec<u8>,
) -> Result<(), AllocError>
    requires { IsSoundLine inside (tag_in fen_tag line.now.tags) line.now.elements }
    ensures text { OnOk result ((text : List ℕ)
        × IsLineText notation inside (tag_in fen_tag line.now.tags)
        (main_words line.now.elements 0) text
        × (out.new.items ≡ out.old.items ++ text)) }
    ensures kept { (some : List ℕ) × (out.new.items ≡ out.old.items ++ some) }
{
    let first = match starting_position(alloc, line.tags()) {
        Ok(start) => start,
        Err(fault) => return Err(fault.refused()),
    };
    push_start(out, &first)?;
    push_turns(out, first, inside, line.elements(), notation)
}
