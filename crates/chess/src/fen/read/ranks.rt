//! The men of a text in Forsyth-Edwards notation (PGN 16.1.3.1).
ghost use Rattle.std.specs.Prelude.{◌≡◌, ◌⊎◌, ◌<◌, ◌≤◌, ℕ, List, Option, None, length, replicate};
ghost use Rattle.std.specs.Prelude.{MatchOption, IfSome};
ghost use Rattle.chess.specs.Public.Squares.{Place};
ghost use Rattle.chess.specs.Public.Placements.{Placement, man_at};
ghost use Rattle.chess.specs.Public.Letters.{man_letter};
ghost use Rattle.chess.specs.Public.Fen.{IsSquares, SpellsRank, SpellRanks, SpellsMen, parted_at};
ghost use Rattle.chess.specs.Public.Fen.{row};
ghost use Rattle.chess.specs.Private.FenWords.{IsRow, IsByteOf};
ghost use Rattle.chess.specs.declared.board.man.Man.{Man};

use crate::board::{Board, Man, Side, Square};
use crate::fen::read::fields::next_rank;
use crate::letters::kind_of;

/// The man of the letter: White's in upper case, Black's in lower case.
fn man_of(letter: u8) -> Option<Man>
    ensures { MatchOption result ((man : Man) → man_letter man ≡ letter
        → ⊥) (λ man. man_letter man ≡ letter) }
{
    if let Some(kind) = kind_of(letter) {
        return Some(Man {
            side: Side::White,
            kind,
        });
    }
    if letter < 32 {
        return None;
    }
    Some(Man {
        side: Side::Black,
        kind: kind_of(letter - 32)?,
    })
}

/// What stands on each of the squares that the byte spells, and how many they are.
fn squares_spelled(byte: u8) -> Option<(Option<Man>, usize)>
    ensures { MatchOption result ((own : List (Option Man)) → IsSquares byte own
        → ⊥) (λ found. IsByteOf byte found.0 found.1) }
{
    if b'1' <= byte && byte <= b'8' {
        return Some((None, (byte - b'0') as usize));
    }
    Some((Some(man_of(byte)?), 1))
}

/// The eight squares that the text of a rank spells, from the a-file on.
fn read_row(text: &[u8]) -> Option<[Option<Man>; 8]>
    ensures { MatchOption result ((squares : List (Option Man)) → SpellsRank text.now squares
        → length squares ≡ 8 → ⊥)
        (λ squares. SpellsRank text.now squares × (length squares ≡ 8)) }
{
    let mut squares = [None; 8];
    let mut file = 0;
    let mut rest = text;
    while let [byte, after @ ..] = rest {
        let (man, count) = squares_spelled(*byte)?;
        if file + count > 8 {
            return None;
        }
        squares[file] = man;
        file += count;
        rest = after;
    }
    if file < 8 { None } else { Some(squares) }
}

/// Puts the men of a rank on their squares.
fn put_row<B: Board>(board: &mut B, rank: u8, squares: &[Option<Man>; 8])
    requires low { 1 ≤ rank }
    requires high { rank ≤ 8 }
    ensures row { row (B.men board.new) rank ≡ squares.now }
    ensures others { (s : Place) → (s.rank ≡ rank → ⊥)
        → man_at (B.men board.new) s ≡ man_at (B.men board.old) s }
{
    for index in 0usize..8 {
        board.put(Square::at(index as u8 + 1, rank), squares[index]);
    }
}

/// Puts the men on the ranks that the text spells, from this rank down to rank 1.
fn put_ranks<B: Board>(mut board: B, rank: u8, text: &[u8]) -> Option<B>
    requires low { 1 ≤ rank }
    requires high { rank ≤ 8 }
    ensures spelled { MatchOption result ((p : Placement)
        → SpellRanks p rank (parted_at 47 text.now) → ⊥)
        (λ b. SpellRanks (B.men b) rank (parted_at 47 text.now)) }
    ensures above { IfSome result (λ b. (s : Place) → rank < s.rank
        → man_at (B.men b) s ≡ man_at (B.men board) s) }
{
    let (first, rest) = next_rank(text);
    let squares = read_row(first)?;
    put_row(&mut board, rank, &squares);
    let Some(rest) = rest else {
        return if rank == 1 { Some(board) } else { None };
    };
    if rank == 1 {
        return None;
    }
    put_ranks(board, rank - 1, rest)
}

/// The board with the men that the text spells.
pub(crate) fn read_men<B: Board>(text: &[u8]) -> Option<B>
    ensures { MatchOption result ((p : Placement) → SpellsMen text.now p
        → ⊥) (λ b. SpellsMen text.now (B.men b)) }
{
    put_ranks(B::empty(), 8, text)
}
