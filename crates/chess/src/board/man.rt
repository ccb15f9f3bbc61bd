//! Men: their sides and kinds.
ghost use Rattle.std.specs.Prelude.{◌≡◌, ◌↔◌, ◌<◌, IsTrue};
ghost use Rattle.chess.specs.Public.Attacks.{IsForward};
ghost use Rattle.chess.specs.Public.Placements.{opposite};
ghost use Rattle.chess.specs.Public.Positions.{has_right};

/// A side.
#[derive(Clone, Copy, Debug, PartialEq, Eq)]
pub enum Side {
    White,
    Black,
}

/// The other sides of White and Black, as a table: what is worked out from it needs no branch.
static OPPOSITES: [Side; 2] = [Side::Black, Side::White];

impl Side {
    /// The other side.
    #[inline(always)]
    pub fn opposite(self) -> Side
        ensures { result ≡ opposite self }
    {
        OPPOSITES[self as usize]
    }

    /// Whether the second rank is the next one forward for a pawn of the side.
    pub(crate) fn is_forward(self, from: u8, to: u8) -> bool
        requires from { from < 255 }
        requires to { to < 255 }
        ensures { IsTrue result ↔ IsForward self from to }
    {
        match self {
            Side::White => to == from + 1,
            Side::Black => from == to + 1,
        }
    }
}

/// A kind of man (Laws 2.2).
#[derive(Clone, Copy, Debug, PartialEq, Eq)]
pub enum Kind {
    King,
    Queen,
    Rook,
    Bishop,
    Knight,
    Pawn,
}

/// A man: a piece or a pawn of a side.
#[derive(Clone, Copy, Debug, PartialEq, Eq)]
pub struct Man {
    pub side: Side,
    pub kind: Kind,
}

/// The castling side: the wing on which a king castles (Laws 3.8.2).
#[derive(Clone, Copy, Debug, PartialEq, Eq)]
pub enum Wing {
    KingSide,
    QueenSide,
}

/// The rights to castle that are still held (Laws 3.8.2.1). A right is held only while its king and
/// its rook stand at home.
#[derive(Clone, Copy, Debug, PartialEq, Eq)]
pub struct CastlingRights {
    pub white_king_side: bool,
    pub white_queen_side: bool,
    pub black_king_side: bool,
    pub black_queen_side: bool,
}

impl CastlingRights {
    /// Whether the side holds the right to castle on the wing.
    pub fn has(self, side: Side, wing: Wing) -> bool
        ensures { result ≡ has_right self side wing }
    {
        match (side, wing) {
            (Side::White, Wing::KingSide) => self.white_king_side,
            (Side::White, Wing::QueenSide) => self.white_queen_side,
            (Side::Black, Wing::KingSide) => self.black_king_side,
            (Side::Black, Wing::QueenSide) => self.black_queen_side,
        }
    }

    /// Whether some right is held.
    #[inline(always)]
    pub(crate) fn has_some(self) -> bool
        ensures { IsTrue result
            ↔ ((side : Side) × (wing : Wing) × IsTrue (has_right self side wing)) }
    {
        self.white_king_side | self.white_queen_side | self.black_king_side | self.black_queen_side
    }
}
