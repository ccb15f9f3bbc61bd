//! Bitboards, sets of squares in 64 bits: steps, and the squares that men attack.
ghost use Rattle.std.specs.Prelude.{◌≡◌};
ghost use Rattle.chess.specs.Public.Squares.{Place, IsOnBoard};
ghost use Rattle.chess.specs.Public.Placements.{Placement, IsEmpty};
ghost use Rattle.chess.specs.Public.Attacks.{IsOnRay, IsNear, IsJump, IsPawnAttack, Reaches};
ghost use Rattle.chess.specs.Public.Sets.{IsBitboardOf};
ghost use Rattle.chess.specs.Private.Bitboards.{IsNextBitboard, IsStraightRun};
ghost use Rattle.chess.specs.Private.Bitboards.{IsDiagonalRun, square_bitboard, step_bitboard};
ghost use Rattle.chess.specs.Private.Bitboards.{two_steps_bitboard, beside_bitboard};
ghost use Rattle.chess.specs.Private.Bitboards.{upright_bitboard, forward_way};

use crate::board::{Direction, Kind, Man, Side, Square};

/// All squares but those of the h-file.
const NOT_FILE_H: u64 = 0x7F7F_7F7F_7F7F_7F7F;

/// All squares but those of the a-file.
const NOT_FILE_A: u64 = 0xFEFE_FEFE_FEFE_FEFE;

/// The bitboard of one square.
#[inline(always)]
pub(crate) fn bitboard_of(square: Square) -> u64
    ensures bitboard { result ≡ square_bitboard square }
    ensures on_board { IsOnBoard square }
{
    1u64 << square.index()
}

/// The squares one step ahead of those of the bitboard; none over the edge of the board.
fn step(bitboard: u64, way: Direction) -> u64
    ensures bitboard { result ≡ step_bitboard way bitboard }
    ensures next { (s : Place) → IsOnBoard s → bitboard ≡ square_bitboard s
        → IsNextBitboard way s result }
{
    match way {
        Direction::North => bitboard << 8,
        Direction::South => bitboard >> 8,
        Direction::East => (bitboard & NOT_FILE_H) << 1,
        Direction::West => (bitboard & NOT_FILE_A) >> 1,
        Direction::NorthEast => (bitboard & NOT_FILE_H) << 9,
        Direction::NorthWest => (bitboard & NOT_FILE_A) << 7,
        Direction::SouthEast => (bitboard & NOT_FILE_H) >> 7,
        Direction::SouthWest => (bitboard & NOT_FILE_A) >> 9,
    }
}

/// The squares two steps ahead of those of the bitboard.
fn two_steps(bitboard: u64, way: Direction) -> u64
    ensures { result ≡ two_steps_bitboard way bitboard }
{
    step(step(bitboard, way), way)
}

/// The squares to the left and to the right of those of the bitboard.
fn beside(bitboard: u64) -> u64
    ensures { result ≡ beside_bitboard bitboard }
{
    step(bitboard, Direction::East) | step(bitboard, Direction::West)
}

/// The squares above and below those of the bitboard.
fn upright(bitboard: u64) -> u64
    ensures { result ≡ upright_bitboard bitboard }
{
    step(bitboard, Direction::North) | step(bitboard, Direction::South)
}

/// The squares that a king attacks (Laws 3.8.1).
fn near(square: Square) -> u64
    ensures { IsBitboardOf (IsNear square) result }
{
    let here = bitboard_of(square);
    let row = here | beside(here);
    (row | upright(row)) ^ here
}

/// The squares that a knight attacks (Laws 3.6).
fn jumps(square: Square) -> u64
    ensures { IsBitboardOf (IsJump square) result }
{
    let here = bitboard_of(square);
    let far = two_steps(here, Direction::North) | two_steps(here, Direction::South);
    let wide = two_steps(here, Direction::East) | two_steps(here, Direction::West);
    beside(far) | upright(wide)
}

/// The way on which pawns of the side go.
fn forward(side: Side) -> Direction
    ensures { result ≡ forward_way side }
{
    match side {
        Side::White => Direction::North,
        Side::Black => Direction::South,
    }
}

/// The squares that a pawn of the side attacks (Laws 3.7.3).
fn pawn_attacks(square: Square, side: Side) -> u64
    ensures { IsBitboardOf (IsPawnAttack side square) result }
{
    beside(step(bitboard_of(square), forward(side)))
}

/// The squares of a ray: at most seven steps, and none beyond the first man.
fn fill(square: Square, empty: u64, way: Direction) -> u64
    ensures { (p : Placement) → IsBitboardOf (IsEmpty p) empty
        → IsBitboardOf (IsOnRay p way square) result }
{
    let mut last = bitboard_of(square);
    let mut seen = 0u64;
    for _steps in 0u8..7 {
        last = step(last, way);
        seen |= last;
        if empty & last == 0 {
            return seen;
        }
    }
    seen
}

/// The squares that a rook attacks.
fn straight_runs(square: Square, empty: u64) -> u64
    ensures { (p : Placement) → IsBitboardOf (IsEmpty p) empty
        → IsBitboardOf (IsStraightRun p square) result }
{
    let north = fill(square, empty, Direction::North);
    let south = fill(square, empty, Direction::South);
    let east = fill(square, empty, Direction::East);
    let west = fill(square, empty, Direction::West);
    (north | south) | (east | west)
}

/// The squares that a bishop attacks.
fn diagonal_runs(square: Square, empty: u64) -> u64
    ensures { (p : Placement) → IsBitboardOf (IsEmpty p) empty
        → IsBitboardOf (IsDiagonalRun p square) result }
{
    let north_east = fill(square, empty, Direction::NorthEast);
    let north_west = fill(square, empty, Direction::NorthWest);
    let south_east = fill(square, empty, Direction::SouthEast);
    let south_west = fill(square, empty, Direction::SouthWest);
    (north_east | north_west) | (south_east | south_west)
}

/// The squares that a man like this attacks (Laws 3.2 to 3.8).
pub(crate) fn attacks_from(man: Man, square: Square, empty: u64) -> u64
    ensures { (p : Placement) → IsBitboardOf (IsEmpty p) empty
        → IsBitboardOf (Reaches p man.side man.kind square) result }
{
    match man.kind {
        Kind::King => near(square),
        Kind::Queen => straight_runs(square, empty) | diagonal_runs(square, empty),
        Kind::Rook => straight_runs(square, empty),
        Kind::Bishop => diagonal_runs(square, empty),
        Kind::Knight => jumps(square),
        Kind::Pawn => pawn_attacks(square, man.side),
    }
}
