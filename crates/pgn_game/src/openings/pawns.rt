//! The pawns of a game, moved by the codes of its plies alone.
ghost use Rattle.std.specs.Prelude.{◌≡◌, ◌<◌, ◌%◌, ◌^◌, ◌||◌, ◌&&◌, not, false, ℕ};
ghost use Rattle.chess.specs.Public.Placements.{Placement};
ghost use Rattle.chess.specs.Public.Sets.{has_bit};
ghost use Rattle.pgn_game.specs.Private.PawnWalks.{HavePawns, IsPair};
ghost use Rattle.pgn_game.specs.Private.PawnWalks.{is_of_ply, is_of_rook, is_touched};
ghost use Rattle.pgn_game.specs.Public.PlyCodes.{code_of, moved};

/// The bitboard of the square with that index.
#[inline(always)]
fn square_bit(index: u8) -> u64
    requires { index < 64 }
    ensures { result ≡ 2 ^ index }
{
    1u64 << index
}

/// The squares that a rook leaves and comes to where the king with that number castles: none for
/// the number of another man.
#[inline(always)]
fn rook_bits(number: u8) -> u64
    ensures { (i : ℕ) → i < 64 → has_bit result i ≡ is_of_rook number i }
{
    match number {
        12 => 0xa0,
        13 => 0x09,
        14 => 0xa000_0000_0000_0000,
        15 => 0x0900_0000_0000_0000,
        _ => 0,
    }
}

/// The squares that the three bytes of a ply name.
#[inline(always)]
fn ply_bits(a: u8, b: u8, d: u8) -> u64
    ensures { (i : ℕ) → i < 64
        → has_bit result i ≡ is_of_ply (a % 64) (b % 64) (d % 64) i }
{
    square_bit(b % 64) | (square_bit(a % 64) | square_bit(d % 64))
}

/// The squares from which a man is taken, or where one is put, by the ply of these bytes.
#[inline(always)]
fn touched_bits(a: u8, b: u8, d: u8, number: u8) -> u64
    ensures { (i : ℕ) → i < 64
        → has_bit result i ≡ is_touched (a % 64) (b % 64) (d % 64) number i }
{
    ply_bits(a, b, d) | rook_bits(number)
}

/// A bitboard without the touched squares, and with the square that is come to where one of its men
/// comes.
#[inline(always)]
fn bits_after(old: u64, touched: u64, to: u64, comes: bool) -> u64
    ensures { (i : ℕ) → i < 64
        → has_bit result i
        ≡ ((comes && has_bit to i) || (has_bit old i && not (has_bit touched i))) }
{
    let own = if comes { to } else { 0 };
    own | (old & !touched)
}

/// Whether the ply that the three bytes tell may change the bitboards of pawns: where it may not,
/// they are those after it. A pawn that comes has the number 5 or 11, and a king that castles one
/// from 12 on.
#[inline(always)]
pub(crate) fn may_change(pawns: [u64; 2], a: u8, b: u8, d: u8) -> bool
    ensures { result ≡ false → (men : Placement) → HavePawns men pawns
        → HavePawns (moved men (code_of a b d)) pawns }
{
    let number = b / 64 + 4 * (d / 64);
    number == 5 || number >= 11 || ply_bits(a, b, d) & (pawns[0] | pawns[1]) != 0
}

/// The bitboards of White's pawns and of Black's after the ply that the three bytes tell.
#[inline(always)]
pub(crate) fn pawns_after(pawns: [u64; 2], a: u8, b: u8, d: u8) -> [u64; 2]
    ensures moved { (men : Placement) → HavePawns men pawns
        → HavePawns (moved men (code_of a b d)) result }
    ensures pair { IsPair result }
{
    let number = b / 64 + 4 * (d / 64);
    let touched = touched_bits(a, b, d, number);
    let to = square_bit(b % 64);
    [
        bits_after(pawns[0], touched, to, number == 5),
        bits_after(pawns[1], touched, to, number == 11),
    ]
}
