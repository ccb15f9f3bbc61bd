//! The board over bitboards.
ghost use Rattle.std.specs.Prelude.{◌≡◌, ◌↔◌, ◌⊎◌, ◌<◌, IsTrue, None, replicate};
ghost use Rattle.chess.specs.Public.Squares.{IsOnBoard, index_of};
ghost use Rattle.chess.specs.Public.Placements.{Placement, with_man, man_at, IsOccupiedBy, IsEmpty};
ghost use Rattle.chess.specs.Public.Placements.{number_of_kind, row_of};
ghost use Rattle.chess.specs.Public.Attacks.{IsAttacked};
ghost use Rattle.chess.specs.Public.Sets.{IsBitboardOf};
ghost use Rattle.chess.specs.Private.Bitboards.{AreApart, AreLeft, IsCleared};
ghost use Rattle.chess.specs.Private.Bitboards.{IsBitSet, IsSlid, IsMan, IsRunner, IsAttackedBy};
ghost use Rattle.chess.specs.Private.Bitboards.{IsAttackedStraight, IsAttackedDiagonal, words_men};
ghost use Rattle.chess.specs.Private.Bitboards.{man_in, man_of_row};
ghost use Rattle.chess.specs.Private.PseudoAttacks.{IsPseudoAttack};
ghost use Rattle.chess.specs.Public.Start.{initial_men};
ghost use Rattle.chess.specs.Shared.CellFacts.{on_board-men_of};
ghost use Rattle.chess.specs.declared.board.man.Kind.TheVariants.{King, Knight, Pawn};

use crate::board::attack_tables::{attackers_of, has_unblocked, pseudo_attacks_on};
use crate::board::step_attacks::{attacks_from, bitboard_of};
use crate::board::{Board, Kind, Man, Side, Square, SquareSet};

/// A board of twelve bitboards: the squares of each of White's kinds, in the order of `Kind`, then
/// of Black's. A square's bit is its place in the order a1, b1 to h1, a2 and so on.
#[derive(Clone, Copy, Debug)]
pub struct Bits {
    words: [u64; 12],
    ghost apart: { AreApart words },
}

impl Board for Bits {
    ghost men = { λ b. words_men b.words };

    fn empty() -> Self {
        Bits { words: no_words() }
    }

    fn initial() -> Self {
        Bits {
            words: initial_words(),
        }
    }

    fn at(&self, square: Square) -> Option<Man> {
        man_on(&self.words, square)
    }

    fn put(&mut self, square: Square, man: Option<Man>) {
        place(&mut self.words, square, man);
    }

    #[inline(always)]
    fn move_piece(&mut self, man: Option<Man>, from: Square, capture_square: Square, to: Square) {
        move_piece_words(&mut self.words, man, from, capture_square, to);
    }

    #[inline(always)]
    fn is_empty(&self, square: Square) -> bool {
        occupied(&self.words) & bitboard_of(square) == 0
    }

    #[inline(always)]
    fn is_occupied_by(&self, side: Side, square: Square) -> bool {
        // Mostly no man stands there at all.
        let bit = bitboard_of(square);
        if occupied(&self.words) & bit == 0 {
            return false;
        }
        occupied_by(&self.words, side) & bit != 0
    }

    #[inline(always)]
    fn attacked(&self, square: Square, side: Side) -> bool {
        is_attacked(&self.words, square, side, u64::MAX, occupied(&self.words))
    }

    #[inline(always)]
    fn attacked_after(
        &self,
        square: Square,
        man: Man,
        from: Square,
        capture_square: Square,
        to: Square,
    ) -> bool {
        let left = !(bitboard_of(capture_square) | bitboard_of(from) | bitboard_of(to));
        let occupied = (occupied(&self.words) & left) | bitboard_of(to);
        is_attacked(&self.words, square, man.side.opposite(), left, occupied)
    }

    fn reach(&self, square: Square) -> SquareSet {
        match man_on(&self.words, square) {
            Some(man) => SquareSet::of_bitboard(attacks_from(man, square, unoccupied(&self.words))),
            None => SquareSet::new(),
        }
    }

    fn squares_of(&self, man: Man) -> SquareSet {
        SquareSet::of_bitboard(squares_with(&self.words, man.side, man.kind))
    }

    #[inline(always)]
    fn attackers_from(&self, man: Man, target: Square, among: SquareSet) -> SquareSet {
        let own = squares_with(&self.words, man.side, man.kind) & among.bitboard();
        attackers_of(man, target, own, occupied(&self.words))
    }

    ghost on_board = { λ b s man here. on_board-men_of (man_in b.words) s man here };
}

/// Bitboards without squares.
fn no_words() -> [u64; 12]
    ensures words { result ≡ replicate 12 0 }
    ensures apart { AreApart result }
{
    [0; 12]
}

/// The bitboards of the men where they stand as games usually begin.
fn initial_words() -> [u64; 12]
    ensures men { words_men result ≡ initial_men }
    ensures apart { AreApart result }
{
    [
        0x10,
        0x08,
        0x81,
        0x24,
        0x42,
        0xff00,
        0x1000_0000_0000_0000,
        0x0800_0000_0000_0000,
        0x8100_0000_0000_0000,
        0x2400_0000_0000_0000,
        0x4200_0000_0000_0000,
        0x00ff_0000_0000_0000,
    ]
}

/// The number of a man's bitboard.
#[inline(always)]
pub(crate) fn row(man: Man) -> usize
    ensures row { result ≡ row_of man }
    ensures below { result < 12 }
{
    6 * (man.side as usize) + man.kind as usize
}

/// The number of a kind in the order of `Kind`.
#[inline(always)]
pub(crate) fn number_of(kind: Kind) -> u8
    ensures number { result ≡ number_of_kind kind }
    ensures below { result < 6 }
{
    kind as u8
}

/// The man of a bitboard.
fn man_of(row: u8) -> Man
    requires { row < 12 }
    ensures { result ≡ man_of_row row }
{
    let side = if row < 6 { Side::White } else { Side::Black };
    let kind = match row % 6 {
        0 => Kind::King,
        1 => Kind::Queen,
        2 => Kind::Rook,
        3 => Kind::Bishop,
        4 => Kind::Knight,
        _ => Kind::Pawn,
    };
    Man { side, kind }
}

/// The man on a square, or none.
fn man_on(words: &[u64; 12], square: Square) -> Option<Man>
    requires { AreApart words.now }
    ensures { result ≡ man_at (words_men words.now) square }
{
    let bit = bitboard_of(square);
    for row in 0u8..12 {
        if words[row as usize] & bit != 0 {
            return Some(man_of(row));
        }
    }
    None
}

/// Takes the squares of the bitboard out of each of the twelve.
#[inline(always)]
fn clear(words: &mut [u64; 12], squares: u64)
    ensures { IsCleared words.old words.new squares }
{
    for row in 0usize..12 {
        words[row] &= !squares;
    }
}

/// Puts the square into the bitboard of the man.
#[inline(always)]
fn set(words: &mut [u64; 12], square: Square, man: Man)
    ensures { IsBitSet words.old words.new (row_of man) (index_of square) }
{
    words[row(man)] |= bitboard_of(square);
}

/// Puts the man, or none, on the square. No other square changes.
fn place(words: &mut [u64; 12], square: Square, man: Option<Man>)
    requires { AreApart words.old }
    ensures apart { AreApart words.new }
    ensures men { words_men words.new ≡ with_man (words_men words.old) square man }
{
    clear(words, bitboard_of(square));
    let Some(man) = man else {
        return;
    };
    set(words, square, man);
}

/// Takes the men off two squares, and puts the man, or none, on a third. No other square changes. A
/// man who takes none goes by his own bitboard alone.
#[inline(always)]
fn move_piece_words(
    words: &mut [u64; 12],
    man: Option<Man>,
    from: Square,
    capture_square: Square,
    to: Square,
)
    requires { AreApart words.old }
    ensures apart { AreApart words.new }
    ensures men { words_men words.new
        ≡ with_man
        (with_man (with_man (words_men words.old) capture_square None) from None) to man }
{
    if let Some(man) = man
        && occupied(words) & (bitboard_of(capture_square) | bitboard_of(to)) == 0
        && squares_with(words, man.side, man.kind) & bitboard_of(from) != 0
    {
        slide(words, man, from, to);
        return;
    }
    replace(words, man, from, capture_square, to);
}

/// Moves the man from the one square to the other: each square of the two is in his bitboard where
/// it was not.
#[inline(always)]
fn slide(words: &mut [u64; 12], man: Man, from: Square, to: Square)
    ensures { IsSlid words.old words.new (row_of man) (index_of from) (index_of to) }
{
    words[row(man)] ^= bitboard_of(from) | bitboard_of(to);
}

/// Takes the men off two squares, and puts the man, or none, on a third. No other square changes.
#[inline(never)]
fn replace(
    words: &mut [u64; 12],
    man: Option<Man>,
    from: Square,
    capture_square: Square,
    to: Square,
)
    requires { AreApart words.old }
    ensures apart { AreApart words.new }
    ensures men { words_men words.new
        ≡ with_man
        (with_man (with_man (words_men words.old) capture_square None) from None) to man }
{
    clear(
        words,
        bitboard_of(capture_square) | bitboard_of(from) | bitboard_of(to),
    );
    let Some(man) = man else {
        return;
    };
    set(words, to, man);
}

/// The squares on which men stand.
#[inline(always)]
fn occupied(words: &[u64; 12]) -> u64
    requires { AreApart words.now }
    ensures { IsBitboardOf (λ s. ¬ IsEmpty (words_men words.now) s) result }
{
    let mut all = 0u64;
    for row in 0usize..12 {
        all |= words[row];
    }
    all
}

/// The squares on which men of the side stand.
#[inline(always)]
fn occupied_by(words: &[u64; 12], side: Side) -> u64
    requires { AreApart words.now }
    ensures { IsBitboardOf (IsOccupiedBy (words_men words.now) side) result }
{
    squares_with(words, side, Kind::King)
        | squares_with(words, side, Kind::Queen)
        | squares_with(words, side, Kind::Rook)
        | squares_with(words, side, Kind::Bishop)
        | squares_with(words, side, Kind::Knight)
        | squares_with(words, side, Kind::Pawn)
}

/// The squares without men.
fn unoccupied(words: &[u64; 12]) -> u64
    requires { AreApart words.now }
    ensures { IsBitboardOf (IsEmpty (words_men words.now)) result }
{
    !occupied(words)
}

/// The squares of a man.
#[inline(always)]
fn squares_with(words: &[u64; 12], side: Side, kind: Kind) -> u64
    requires { AreApart words.now }
    ensures { IsBitboardOf (IsMan (words_men words.now) side kind) result }
{
    words[row(Man { side, kind })]
}

/// The squares of the side's queens and of another kind of its men.
#[inline(always)]
fn squares_of_runners(words: &[u64; 12], side: Side, kind: Kind) -> u64
    requires { AreApart words.now }
    ensures { IsBitboardOf (IsRunner (words_men words.now) side kind) result }
{
    squares_with(words, side, Kind::Queen) | squares_with(words, side, kind)
}

/// The squares of a man, of those left, from which it attacks the square on the empty board.
#[inline(always)]
fn seers(words: &[u64; 12], man: Man, square: Square, left: u64) -> u64
    requires { AreApart words.now }
    ensures { (p : Placement) → AreLeft (words_men words.now) p man.side left
        → IsBitboardOf (λ s. IsMan p man.side man.kind s
        × IsPseudoAttack man.side man.kind s square) result }
{
    left & squares_with(words, man.side, man.kind) & pseudo_attacks_on(man, square)
}

/// The squares of the side's queens, and of another kind of its men, of those left, from which that
/// kind attacks the square on the empty board.
#[inline(always)]
fn sliders_in_line(words: &[u64; 12], square: Square, side: Side, kind: Kind, left: u64) -> u64
    requires { AreApart words.now }
    ensures { (p : Placement) → AreLeft (words_men words.now) p side left
        → IsBitboardOf (λ s. IsRunner p side kind s × IsPseudoAttack side kind s square) result }
{
    left & squares_of_runners(words, side, kind) & pseudo_attacks_on(Man { side, kind }, square)
}

/// Whether a knight, a king or a pawn of the side, of those left, attacks the square.
#[inline(always)]
fn is_attacked_nearby(words: &[u64; 12], square: Square, side: Side, left: u64) -> bool
    requires { AreApart words.now }
    ensures { (p : Placement) → AreLeft (words_men words.now) p side left
        → IsTrue result
        ↔ (IsAttackedBy p side Knight square
        ⊎ (IsAttackedBy p side King square ⊎ IsAttackedBy p side Pawn square)) }
{
    let knights = seers(
        words,
        Man {
            side,
            kind: Kind::Knight,
        },
        square,
        left,
    );
    let kings = seers(
        words,
        Man {
            side,
            kind: Kind::King,
        },
        square,
        left,
    );
    let pawns = seers(
        words,
        Man {
            side,
            kind: Kind::Pawn,
        },
        square,
        left,
    );
    SquareSet::of_bitboard(knights | kings | pawns).has_some()
}

/// Whether a queen, a rook or a bishop of the side, of those left, attacks the square along a line.
#[inline(always)]
fn is_attacked_along_line(
    words: &[u64; 12],
    square: Square,
    side: Side,
    left: u64,
    occupied: u64,
) -> bool
    requires { AreApart words.now }
    ensures { (p : Placement) → AreLeft (words_men words.now) p side left
        → IsBitboardOf (λ s. ¬ IsEmpty p s) occupied
        → IsTrue result ↔ (IsAttackedStraight p side square ⊎ IsAttackedDiagonal p side square) }
{
    let seen = sliders_in_line(words, square, side, Kind::Rook, left)
        | sliders_in_line(words, square, side, Kind::Bishop, left);
    if seen == 0 {
        return false;
    }
    has_unblocked(seen, square, occupied)
}

/// Whether some man of the side, of those left, attacks the square, where men stand on the occupied
/// squares.
#[inline(always)]
fn is_attacked(words: &[u64; 12], square: Square, side: Side, left: u64, occupied: u64) -> bool
    requires { AreApart words.now }
    ensures { (p : Placement) → AreLeft (words_men words.now) p side left
        → IsBitboardOf (λ s. ¬ IsEmpty p s) occupied
        → IsTrue result ↔ IsAttacked p side square }
{
    if is_attacked_nearby(words, square, side, left) {
        return true;
    }
    is_attacked_along_line(words, square, side, left, occupied)
}
