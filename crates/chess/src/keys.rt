//! The key of a position, and its pawns: what tables of positions are looked up by.
ghost use Rattle.std.specs.Prelude.{◌≡◌, ◌↔◌, ◌<◌, ◌^◌, ◌≤◌, IsTrue, Some};
ghost use Rattle.chess.specs.Public.Keys.{IsKey, IsUsed, IsBitboardOfMan, ArePawns, number_of_rest};
ghost use Rattle.chess.specs.Public.Keys.{number_of_en_passant};
ghost use Rattle.chess.specs.Public.Moves.{CanTakeEnPassant};

use crate::board::{Board, CastlingRights, Kind, Man, Side, Square, SquareSet};
use crate::position::Position;

/// The number of an en passant square: its index and one, or 0 where there is none.
#[inline(always)]
fn number_of_en_passant(square: Option<Square>) -> u64
    ensures number { result ≡ number_of_en_passant square }
    ensures small { result ≤ 64 }
{
    match square {
        Some(square) => square.index() as u64 + 1,
        None => 0,
    }
}

/// The number of the side to move, the rights and the en passant square.
#[inline(always)]
fn number_of_rest(turn: Side, rights: CastlingRights, en_passant: Option<Square>) -> u64
    ensures { result ≡ number_of_rest turn rights en_passant }
{
    let square = number_of_en_passant(en_passant);
    let black = rights.black_king_side as u64 + 2 * (rights.black_queen_side as u64 + 2 * square);
    let white = rights.white_king_side as u64 + 2 * (rights.white_queen_side as u64 + 2 * black);
    turn as u64 + 2 * white
}

impl<B: Board> Position<B> {
    /// The bitboard of the squares on which that man stands.
    #[inline(always)]
    fn bitboard_of(&self, side: Side, kind: Kind) -> u64
        ensures men { IsBitboardOfMan self.now.men (record { side = side; kind = kind }) result }
        ensures fit { result < 2 ^ 64 }
    {
        self.squares_of(Man { side, kind }).bitboard()
    }

    /// Whether some move takes a pawn en passant, where that is the en passant square. Mostly no
    /// pawn attacks it, and then no move is tried.
    #[inline(never)]
    fn can_take_on(&self, square: Square) -> bool
        requires { self.now.en_passant ≡ Some square }
        ensures { IsTrue result ↔ CanTakeEnPassant self.now }
    {
        self.invariant();
        let pawn = Man {
            side: self.side(),
            kind: Kind::Pawn,
        };
        let mut left = self.attackers_from(pawn, square, SquareSet::all());
        while let Some(from) = left.take_first() {
            if self.can_go_plainly(from, square) {
                return true;
            }
        }
        false
    }

    /// The en passant square where some move takes a pawn there, else none.
    #[inline(always)]
    fn used_en_passant(&self) -> Option<Square>
        ensures { IsUsed self.now result }
    {
        let Some(square) = self.en_passant() else {
            return None;
        };
        if self.can_take_on(square) {
            return Some(square);
        }
        None
    }

    /// The key of the position: another one has the same key exactly where the two are the same but
    /// for their counts. The en passant square counts where some move takes a pawn there alone; a
    /// right that cannot be used counts as it stands.
    pub fn key(&self) -> [u64; 13]
        ensures { IsKey self.now result }
    {
        [
            self.bitboard_of(Side::White, Kind::King),
            self.bitboard_of(Side::White, Kind::Queen),
            self.bitboard_of(Side::White, Kind::Rook),
            self.bitboard_of(Side::White, Kind::Bishop),
            self.bitboard_of(Side::White, Kind::Knight),
            self.bitboard_of(Side::White, Kind::Pawn),
            self.bitboard_of(Side::Black, Kind::King),
            self.bitboard_of(Side::Black, Kind::Queen),
            self.bitboard_of(Side::Black, Kind::Rook),
            self.bitboard_of(Side::Black, Kind::Bishop),
            self.bitboard_of(Side::Black, Kind::Knight),
            self.bitboard_of(Side::Black, Kind::Pawn),
            number_of_rest(self.turn, self.rights, self.used_en_passant()),
        ]
    }

    /// The bitboards of White's pawns and of Black's.
    #[inline(always)]
    pub fn pawns(&self) -> [u64; 2]
        ensures { ArePawns self.now result }
    {
        [
            self.bitboard_of(Side::White, Kind::Pawn),
            self.bitboard_of(Side::Black, Kind::Pawn),
        ]
    }
}
