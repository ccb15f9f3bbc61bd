//! A walk over plies of which each is told by three bytes: the men are moved by them, with no
//! question to the Laws.
ghost use Rattle.std.specs.Prelude.{◌≡◌, IsTrue, is_some};
ghost use Rattle.chess.specs.Public.Placements.{man_at};
ghost use Rattle.chess.specs.Public.Positions.{rook_from, rook_to};
ghost use Rattle.pgn_game.specs.Public.PlyCodes.{code_of};
ghost use Rattle.pgn_criteria.specs.Public.Walks.{Sight, stepped};
ghost use Rattle.pgn_criteria.specs.Private.CodedTexts.{IsAloneIn};

use crate::seen::Seen;
use chess::{Board, Kind, Mailbox, Man, Side, Square, SquareSet, Wing};
use pgn_game::pack::{numbered_castle, numbered_man};
use std::marker::Model;

/// What is seen of a position: its men, the side to move, whether it is in check, and whether it
/// has no move.
#[derive(Drop)]
pub struct Walk<B: Board> {
    board: B,
    turn: Side,
    check: bool,
    stuck: bool,
}

impl<B: Board> Model for Walk<B> {
    ghost use Rattle.pgn_criteria.specs.Private.SightCodes.{coded_sight};
    ghost use Rattle.pgn_criteria.specs.Public.Walks.{Sight};

    ghost Value = { Sight };

    ghost coded = { coded_sight };

    ghost view = { λ w.
        record { men = B.men w.board; turn = w.turn; check = w.check; stuck = w.stuck } };
}

/// The corner of the rook of that wing.
pub(crate) fn rook_leaves(side: Side, wing: Wing) -> Square
    ensures { result ≡ rook_from side wing }
{
    match (side, wing) {
        (Side::White, Wing::KingSide) => Square::of_index(7),
        (Side::White, Wing::QueenSide) => Square::of_index(0),
        (Side::Black, Wing::KingSide) => Square::of_index(63),
        (Side::Black, Wing::QueenSide) => Square::of_index(56),
    }
}

/// The square to which that rook castles.
pub(crate) fn rook_arrives(side: Side, wing: Wing) -> Square
    ensures { result ≡ rook_to side wing }
{
    match (side, wing) {
        (Side::White, Wing::KingSide) => Square::of_index(5),
        (Side::White, Wing::QueenSide) => Square::of_index(3),
        (Side::Black, Wing::KingSide) => Square::of_index(61),
        (Side::Black, Wing::QueenSide) => Square::of_index(59),
    }
}

/// A board of another kind with the same men.
fn board_like<B: Board, C: Board>(board: &B) -> C
    ensures { C.men result ≡ B.men board.now }
{
    let mut own = C::empty();
    for index in 0u8..64 {
        let square = Square::of_index(index);
        let man = if board.is_empty(square) {
            None
        } else {
            board.at(square)
        };
        own.put(square, man);
    }
    own
}

impl<B: Board> Walk<B> {
    /// A walk that begins with this board, this side to move and these marks of it.
    pub fn new(board: B, turn: Side, check: bool, stuck: bool) -> Self
        ensures { result ≡ record { men = B.men board; turn = turn; check = check; stuck = stuck } }
    {
        Walk {
            board,
            turn,
            check,
            stuck,
        }
    }

    /// Exactly the same walk.
    pub(crate) fn copy(&self) -> Self
        ensures { result ≡ self.now }
    {
        Walk {
            board: self.board,
            turn: self.turn,
            check: self.check,
            stuck: self.stuck,
        }
    }

    /// The same walk over a board of cells.
    pub(crate) fn by_cells(&self) -> Walk<Mailbox>
        ensures { result ≡ self.now }
    {
        Walk {
            board: board_like(&self.board),
            turn: self.turn,
            check: self.check,
            stuck: self.stuck,
        }
    }

    /// Whether a man stands on the square.
    #[inline(always)]
    pub(crate) fn has_man(&self, square: Square) -> bool
        ensures { result ≡ is_some (man_at self.now.men square) }
    {
        !self.board.is_empty(square)
    }

    /// Whether there is no other such man than the one on `from` who attacks `to`, and of kings no
    /// other at all.
    pub(crate) fn is_alone(&self, man: Man, from: Square, to: Square) -> bool
        ensures { IsTrue result → IsAloneIn self.now.men man from to }
    {
        Seen::invariant(self);
        let mut others = self.board.squares_of(man);
        others.remove(from);
        match man.kind {
            Kind::King => others.is_empty(),
            _ => self.board.attackers_from(man, to, others).is_empty(),
        }
    }

    /// Goes on by the ply that the three bytes tell. Each three bytes tell one.
    #[inline(always)]
    pub fn step(&mut self, a: u8, b: u8, d: u8)
        ensures { self.new ≡ stepped self.old (code_of a b d) }
    {
        let from = Square::of_index(a % 64);
        let to = Square::of_index(b % 64);
        let taken = Square::of_index(d % 64);
        let number = b / 64 + 4 * (d / 64);
        let man = numbered_man(number);
        self.board.move_piece(Some(man), from, taken, to);
        if let Some(wing) = numbered_castle(number) {
            let rook = Man {
                side: man.side,
                kind: Kind::Rook,
            };
            self.board.put(rook_leaves(man.side, wing), None);
            self.board.put(rook_arrives(man.side, wing), Some(rook));
        }
        self.turn = self.turn.opposite();
        self.check = a / 64 % 2 == 1;
        self.stuck = a / 128 == 1;
    }
}

impl<B: Board> Seen for Walk<B> {
    ghost men = { λ w. w.men };

    ghost turn = { λ w. w.turn };

    ghost checked = { λ w. IsTrue w.check };

    ghost stuck = { λ w. IsTrue w.stuck };

    #[inline(always)]
    fn invariant(&self) {
        let _ = &self.board;
    }

    #[inline(always)]
    fn man_on(&self, square: Square) -> Option<Man> {
        self.board.at(square)
    }

    #[inline(always)]
    fn squares_with(&self, man: Man) -> SquareSet {
        self.board.squares_of(man)
    }

    #[inline(always)]
    fn to_move(&self) -> Side {
        self.turn
    }

    #[inline(always)]
    fn is_checked(&self) -> bool {
        self.check
    }

    #[inline(always)]
    fn is_stuck(&self) -> bool {
        self.stuck
    }
}
