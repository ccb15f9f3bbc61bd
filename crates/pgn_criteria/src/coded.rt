//! Moves as the codes of their plies tell them, and whether their texts are like a word. No move is
//! asked to be legal, and none is played.
ghost use Rattle.std.specs.List.{list_any, slice_get};
ghost use Rattle.std.specs.Prelude.{None, ◌≢◌, ◌==◌};
ghost use Rattle.std.specs.Prelude.{◌≡◌, ◌↔◌, ◌++◌, ◌∷◌, ◌<◌, if◌then◌else◌, [], ℕ, List, IfSome};
ghost use Rattle.std.specs.Prelude.{Bool, true, false, IsTrue};
ghost use Rattle.chess.specs.Public.Moves.{IsLegal};
ghost use Rattle.chess.specs.Public.Positions.{State};
ghost use Rattle.chess.specs.Public.San.{IsSan, castling_text};
ghost use Rattle.chess.specs.declared.board.man.Kind.TheVariants.{Pawn};
ghost use Rattle.chess.specs.declared.moves.Move.{Move};
ghost use Rattle.pgn_game.specs.Public.CodeLines.{AreLegalMoves};
ghost use Rattle.pgn_game.specs.Public.PlyCodes.{AreCodes, IsCode, code_of};
ghost use Rattle.pgn_criteria.specs.Public.MoveTexts.{IsLike, without_check_signs};
ghost use Rattle.pgn_criteria.specs.Public.Prefilters.{codes_in};
ghost use Rattle.pgn_criteria.specs.Public.Walks.{IsSightOf};
ghost use Rattle.pgn_criteria.specs.Private.CodedTexts.{IsCodedOf, IsPlain, Likes};
ghost use Rattle.pgn_criteria.specs.Private.CodedTexts.{body_of, origin_of, pawn_body, piece_body};
ghost use Rattle.pgn_criteria.specs.Private.MoveEnds.{IsMoveLike, IsSomeLike, RulesOut};

use crate::move_ends::{may_begin_by, may_end_with};
use crate::moves::is_like;
use crate::seen::Seen;
use crate::walk::Walk;
use chess::{Kind, Mailbox, Man, Move, Square, Wing, kind_letter};
use pgn_game::pack::{numbered_castle, numbered_man};

/// A move as the code of its ply and the men before it tell it.
#[derive(Clone, Copy)]
pub(crate) struct CodedMove {
    m: Move,
    /// The man that moves.
    man: Man,
    /// Whether it takes a man.
    takes: bool,
}

/// The move that the three bytes tell of a ply.
#[inline(always)]
fn coded_move(walk: &Walk<Mailbox>, a: u8, b: u8, d: u8) -> CodedMove
    ensures { (P : State) (m : Move) → IsSightOf P walk.now → IsLegal P m
        → IsCode P m (code_of a b d) → IsCodedOf result P m }
{
    let number = b / 64 + 4 * (d / 64);
    let arrives = numbered_man(number);
    let from = Square::of_index(a % 64);
    let man = match walk.man_on(from) {
        Some(man) => man,
        None => arrives,
    };
    let promote = if man.kind == Kind::Pawn && arrives.kind != Kind::Pawn {
        Some(arrives.kind)
    } else {
        None
    };
    CodedMove {
        m: Move {
            from,
            to: Square::of_index(b % 64),
            promote,
            castle: numbered_castle(number),
        },
        man,
        takes: walk.has_man(Square::of_index(d % 64)),
    }
}

/// The byte if that is so, else a sign of check, which is no byte of the text without such signs.
#[inline(always)]
fn byte_if(is: bool, byte: u8) -> u8
    ensures { 43 < byte → (rest : List ℕ) → without_check_signs (result ∷ rest)
        ≡ (if is then byte ∷ [] else []) ++ without_check_signs rest }
{
    if is { byte } else { b'+' }
}

/// The text of castling, filled with signs of check.
fn castling_bytes(wing: Wing) -> [u8; 6]
    ensures { without_check_signs result ≡ castling_text wing }
{
    match wing {
        Wing::KingSide => [b'O', b'-', b'O', b'+', b'+', b'+'],
        Wing::QueenSide => [b'O', b'-', b'O', b'-', b'O', b'+'],
    }
}

/// The text of a pawn's move, filled with signs of check.
#[inline(always)]
fn pawn_bytes(m: &Move, takes: bool) -> [u8; 6]
    ensures { without_check_signs result ≡ pawn_body m.now takes }
{
    let (file, rank) = (96 + m.to.file(), 48 + m.to.rank());
    let (from, cross) = (byte_if(takes, 96 + m.from.file()), byte_if(takes, b'x'));
    match m.promote {
        Some(kind) => [from, cross, file, rank, b'=', kind_letter(kind)],
        None => [from, cross, file, rank, b'+', b'+'],
    }
}

/// The text of a piece's move, filled with signs of check. The piece is distinguished by its file
/// and by its rank, as that is asked.
#[inline(always)]
fn piece_bytes(coded: &CodedMove, by_file: bool, by_rank: bool) -> [u8; 6]
    ensures { without_check_signs result
        ≡ piece_body coded.now (origin_of by_file by_rank coded.now.m.from) }
{
    let CodedMove { m, man, takes } = coded;
    [
        kind_letter(man.kind),
        byte_if(by_file, 96 + m.from.file()),
        byte_if(by_rank, 48 + m.from.rank()),
        byte_if(*takes, b'x'),
        96 + m.to.file(),
        48 + m.to.rank(),
    ]
}

/// The text of the move without its sign of check, and filled with such signs.
#[inline(always)]
fn text_bytes(coded: &CodedMove, by_file: bool, by_rank: bool) -> [u8; 6]
    ensures { without_check_signs result
        ≡ body_of coded.now (origin_of by_file by_rank coded.now.m.from) }
{
    if let Some(wing) = coded.m.castle {
        return castling_bytes(wing);
    }
    match coded.man.kind {
        Kind::Pawn => pawn_bytes(&coded.m, coded.takes),
        _ => piece_bytes(coded, by_file, by_rank),
    }
}

/// Whether the text with what so distinguishes the man is like the word.
fn is_text_like(coded: &CodedMove, by_file: bool, by_rank: bool, word: &[u8]) -> bool
    ensures { IsTrue result
        ↔ IsLike word.now (body_of coded.now (origin_of by_file by_rank coded.now.m.from)) }
{
    is_like(word, text_bytes(coded, by_file, by_rank).as_slice())
}

/// Whether the text of the move may be like the word, by its first and its last byte.
#[inline(always)]
fn may_be_like(coded: &CodedMove, word: &[u8]) -> bool
    ensures { (P : State) (m : Move) → IsCodedOf coded.now P m
        → RulesOut result P m (IsLike word.now) }
{
    if let [.., last] = word {
        if *last != b'*' && !may_end_with(&coded.m, *last) {
            return false;
        }
    }
    match word {
        [first, ..] => *first == b'*' || may_begin_by(coded.man.kind, &coded.m, *first),
        [] => true,
    }
}

/// Whether the word has the sign of a capture.
#[inline(always)]
fn has_cross(word: &[u8]) -> bool
    ensures { result ≡ list_any (λ y. y == 120) word.now }
{
    word.iter().any(|byte| *byte == b'x')
}

/// Whether the text of the ply whose third byte this is may be like the word, by the sign of a
/// capture.
#[inline(always)]
fn may_take(walk: &Walk<Mailbox>, d: u8, word: &[u8]) -> bool
    ensures { (P : State) (m : Move) (a b : ℕ) → IsSightOf P walk.now → IsLegal P m
        → IsCode P m (code_of a b d) → RulesOut result P m (IsLike word.now) }
{
    walk.has_man(Square::of_index(d % 64)) || !has_cross(word)
}

/// Whether the move is one in whose text nothing distinguishes the man: castling, or a pawn's move.
#[inline(always)]
fn is_bare(coded: &CodedMove) -> bool
    ensures plain { IsTrue result → (P : State) (m : Move) → IsCodedOf coded.now P m
        → IsPlain coded.now P m }
    ensures officer { result ≡ false
        → (coded.now.m.castle ≡ None) × (coded.now.man.kind ≢ Pawn) }
{
    if coded.m.castle.is_some() {
        return true;
    }
    match coded.man.kind {
        Kind::Pawn => true,
        _ => false,
    }
}

/// Whether the text is like the word, or is not, whatever distinguishes the man in it.
fn are_alike(coded: &CodedMove, word: &[u8], is: bool) -> bool
    ensures { IsTrue result → Likes coded.now word.now false false is → (f r : Bool)
        → Likes coded.now word.now f r is }
{
    is_text_like(coded, true, false, word) == is
        && is_text_like(coded, false, true, word) == is
        && is_text_like(coded, true, true, word) == is
}

/// Whether the word begins with a star and is like what stands in the text of a piece's move after
/// all that distinguishes the piece.
#[inline(always)]
fn is_tail_like(coded: &CodedMove, word: &[u8]) -> bool
    ensures { IsTrue result → coded.now.m.castle ≡ None → coded.now.man.kind ≢ Pawn → (f r : Bool)
        → Likes coded.now word.now f r true }
{
    let [first, ..] = word else {
        return false;
    };
    if *first != b'*' {
        return false;
    }
    let tail = [
        byte_if(coded.takes, b'x'),
        96 + coded.m.to.file(),
        48 + coded.m.to.rank(),
    ];
    is_like(word, tail.as_slice())
}

/// Whether the word ends with a star and is like the letter that the text of a piece's move begins
/// with.
#[inline(always)]
fn is_head_like(coded: &CodedMove, word: &[u8]) -> bool
    ensures { IsTrue result → coded.now.m.castle ≡ None → coded.now.man.kind ≢ Pawn → (f r : Bool)
        → Likes coded.now word.now f r true }
{
    let [.., last] = word else {
        return false;
    };
    if *last != b'*' {
        return false;
    }
    let head = [kind_letter(coded.man.kind)];
    is_like(word, head.as_slice())
}

/// Whether the text of the move is like the word. It is `None` where that depends on what
/// distinguishes the man from others, which the Laws decide.
#[inline(always)]
fn told_text_like(walk: &Walk<Mailbox>, coded: &CodedMove, word: &[u8]) -> Option<bool>
    ensures { IfSome result (λ is. (P : State) (m : Move) (text : List ℕ) → IsSightOf P walk.now
        → IsCodedOf coded.now P m → IsSan P m text
        → IsTrue is ↔ IsLike word.now (without_check_signs text)) }
{
    if is_bare(coded) {
        return Some(is_text_like(coded, false, false, word));
    }
    if is_tail_like(coded, word) {
        return Some(true);
    }
    if is_head_like(coded, word) {
        return Some(true);
    }
    let is = is_text_like(coded, false, false, word);
    if are_alike(coded, word, is) {
        return Some(is);
    }
    if walk.is_alone(coded.man, coded.m.from, coded.m.to) {
        return Some(is);
    }
    None
}

/// Whether the standard text, without its signs of check and mate, of the move that the three bytes
/// tell is like the word. It is `None` where that is not told.
#[inline(never)]
fn told_like(walk: &Walk<Mailbox>, a: u8, b: u8, d: u8, word: &[u8]) -> Option<bool>
    ensures { IfSome result (λ is. (P : State) (m : Move) → IsSightOf P walk.now → IsLegal P m
        → IsCode P m (code_of a b d) → IsTrue is ↔ IsMoveLike P m word.now) }
{
    chess::laws::a_text();
    walk.invariant();
    told_text_like(walk, &coded_move(walk, a, b, d), word)
}

/// Whether a line that goes on by these codes has a next move, whose standard text without its
/// signs of check and mate is like the word. It is `None` where that is not told.
#[inline(always)]
pub(crate) fn told_some_like(walk: &Walk<Mailbox>, left: &[u8], word: &[u8]) -> Option<bool>
    ensures { IfSome result (λ is. (P : State) (moves : List Move) → IsSightOf P walk.now
        → AreLegalMoves P moves → AreCodes P moves (codes_in left.now)
        → IsTrue is ↔ IsSomeLike P (slice_get moves 0) word.now) }
{
    match left {
        [a, b, d, ..] => {
            if !may_take(walk, *d, word) {
                return Some(false);
            }
            // (the move is told once more where that may be so, so that here it needs no memory)
            if !may_be_like(&coded_move(walk, *a, *b, *d), word) {
                return Some(false);
            }
            told_like(walk, *a, *b, *d, word)
        }
        _ => Some(false),
    }
}
