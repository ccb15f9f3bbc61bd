//! Positions, over any board.
ghost use Rattle.std.specs.Prelude.{◌≡◌, ◌↔◌, IsTrue};
ghost use Rattle.chess.specs.Public.Placements.{man_at, IsOccupiedBy, IsEmpty};
ghost use Rattle.chess.specs.Public.Attacks.{IsAttacked};
ghost use Rattle.chess.specs.Public.Positions.{State, IsSound, IsOnlyKing, IsCheck, has_right};
ghost use Rattle.chess.specs.Public.Moves.{is_square};
ghost use Rattle.chess.specs.Public.Sets.{IsReachOf, IsSquaresOf, HoldsExactly, IsAttacker};

use crate::board::{Board, CastlingRights, Man, Side, Square, SquareSet, Wing};
use std::marker::Model;

/// A position. Contracts see the men, the side to move, the castling rights, the en passant square
/// and the two counts; every position keeps the facts of `IsSound`.
#[derive(Drop)]
pub struct Position<B: Board> {
    pub(crate) board: B,
    pub(crate) turn: Side,
    pub(crate) rights: CastlingRights,
    pub(crate) en_passant: Option<Square>,
    pub(crate) halfmove_clock: u32,
    pub(crate) fullmove_number: u32,
    pub(crate) white_king: Square,
    pub(crate) black_king: Square,
}

impl<B: Board> Model for Position<B> {
    ghost use Rattle.chess.specs.Public.Positions.{State};
    ghost use Rattle.chess.specs.Shared.Codes.{IsKept};
    ghost use Rattle.chess.specs.Shared.Codes.{coded_state};

    ghost Value = { State };

    ghost coded = { coded_state };

    ghost view = { λ p. record {
      men = B.men p.board;
      turn = p.turn;
      rights = p.rights;
      en_passant = p.en_passant;
      halfmove_clock = p.halfmove_clock;
      fullmove_number = p.fullmove_number;
    } };

    ghost invariant = { λ p. IsKept (record {
      men = B.men p.board;
      turn = p.turn;
      rights = p.rights;
      en_passant = p.en_passant;
      halfmove_clock = p.halfmove_clock;
      fullmove_number = p.fullmove_number;
    }) p.white_king p.black_king };
}

impl<B: Board> Position<B> {
    /// The side to move.
    pub fn side(&self) -> Side
        ensures { result ≡ self.now.turn }
    {
        self.turn
    }

    /// The castling rights.
    pub fn rights(&self) -> CastlingRights
        ensures { result ≡ self.now.rights }
    {
        self.rights
    }

    /// The en passant square, if there is one.
    pub fn en_passant(&self) -> Option<Square>
        ensures { result ≡ self.now.en_passant }
    {
        self.en_passant
    }

    /// The fullmove number: usually 1 at first, and one more after each move of Black.
    pub fn number(&self) -> u32
        ensures { result ≡ self.now.fullmove_number }
    {
        self.fullmove_number
    }

    /// The man on a square, or none.
    pub fn at(&self, square: Square) -> Option<Man>
        ensures { result ≡ man_at self.now.men square }
    {
        self.board.at(square)
    }

    /// Exactly the same position. No memory is needed.
    pub fn copy(&self) -> Self
        ensures { result ≡ self.now }
    {
        Position {
            board: self.board,
            turn: self.turn,
            rights: self.rights,
            en_passant: self.en_passant,
            halfmove_clock: self.halfmove_clock,
            fullmove_number: self.fullmove_number,
            white_king: self.white_king,
            black_king: self.black_king,
        }
    }

    /// Makes it exactly the other position. No memory is needed.
    #[inline(always)]
    pub fn copy_from(&mut self, other: &Self)
        ensures { self.new ≡ other.now }
    {
        self.board = other.board;
        self.turn = other.turn;
        self.rights = other.rights;
        self.en_passant = other.en_passant;
        self.halfmove_clock = other.halfmove_clock;
        self.fullmove_number = other.fullmove_number;
        self.white_king = other.white_king;
        self.black_king = other.black_king;
    }

    /// Every position keeps the facts of `IsSound`, however it was come by: a caller that asks
    /// knows them. Nothing is done.
    pub fn invariant(&self)
        ensures { IsSound self.now }
    {
        let _ = &self.board;
    }

    /// Whether the side to move is in check.
    #[inline(always)]
    pub fn in_check(&self) -> bool
        ensures { IsTrue result ↔ IsCheck self.now.men self.now.turn }
    {
        let side = self.side();
        self.attacked(self.king(side), side.opposite())
    }

    /// The square of the side's king.
    #[inline(always)]
    pub(crate) fn king(&self, side: Side) -> Square
        ensures { IsOnlyKing self.now.men side result }
    {
        match side {
            Side::White => self.white_king,
            Side::Black => self.black_king,
        }
    }

    /// Whether some man of the side attacks the square.
    #[inline(always)]
    pub(crate) fn attacked(&self, square: Square, side: Side) -> bool
        ensures { IsTrue result ↔ IsAttacked self.now.men side square }
    {
        self.board.attacked(square, side)
    }

    /// The squares that the man on the square attacks; the empty set where there is none.
    pub(crate) fn attacks_from(&self, square: Square) -> SquareSet
        ensures { IsReachOf self.now.men square result }
    {
        self.board.reach(square)
    }

    /// The squares on which that man stands.
    #[inline(always)]
    pub fn squares_of(&self, man: Man) -> SquareSet
        ensures { IsSquaresOf self.now.men man result }
    {
        self.board.squares_of(man)
    }

    /// Those of the squares on which that man stands and attacks the target.
    #[inline(always)]
    pub(crate) fn attackers_from(&self, man: Man, target: Square, among: SquareSet) -> SquareSet
        ensures { HoldsExactly (IsAttacker self.now.men man target among) result }
    {
        self.board.attackers_from(man, target, among)
    }

    /// Whether no man stands on the square.
    #[inline(always)]
    pub(crate) fn is_empty(&self, square: Square) -> bool
        ensures { IsTrue result ↔ IsEmpty self.now.men square }
    {
        self.board.is_empty(square)
    }

    /// Whether a man of the side stands on the square.
    #[inline(always)]
    pub(crate) fn is_occupied_by(&self, side: Side, square: Square) -> bool
        ensures { IsTrue result ↔ IsOccupiedBy self.now.men side square }
    {
        self.board.is_occupied_by(side, square)
    }

    /// Whether the side holds the right to castle on the wing.
    pub(crate) fn has_right(&self, side: Side, wing: Wing) -> bool
        ensures { result ≡ has_right self.now.rights side wing }
    {
        self.rights.has(side, wing)
    }

    /// Whether that is the en passant square.
    pub(crate) fn is_en_passant_target(&self, square: Square) -> bool
        ensures fact { IsTrue result ↔ (self.now.en_passant ≡ Some square) }
        ensures test { result ≡ is_square self.now.en_passant square }
    {
        self.en_passant == Some(square)
    }

    /// The halfmove clock.
    pub fn clock(&self) -> u32
        ensures { result ≡ self.now.halfmove_clock }
    {
        self.halfmove_clock
    }

    /// The board.
    pub fn board(&self) -> B
        ensures { B.men result ≡ self.now.men }
    {
        self.board
    }
}
