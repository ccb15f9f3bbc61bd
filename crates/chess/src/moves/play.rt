//! The position after a move (Laws 3.7, 3.8; PGN 16.1.3.3 to 16.1.3.6).
ghost use Rattle.std.specs.Prelude.{◌≡◌, ◌↔◌, ◌⊎◌, IsTrue, None, Some, if◌then◌else◌};
ghost use Rattle.chess.specs.Public.Squares.{same_square};
ghost use Rattle.chess.specs.Public.Positions.{IsSound, IsOnlyKing, IsCheck, king_from, rook_from};
ghost use Rattle.chess.specs.Public.Moves.{is_pawn, is_en_passant, capture_square, arriving};
ghost use Rattle.chess.specs.Public.Moves.{men_after, keeps_right, rights_after, en_passant_after};
ghost use Rattle.chess.specs.Public.Moves.{one_more, halfmove_clock_after, fullmove_number_after};
ghost use Rattle.chess.specs.Public.Moves.{after, IsPseudoLegal, IsLegal};
ghost use Rattle.chess.specs.Public.Placements.{man_at, opposite};
ghost use Rattle.chess.specs.Public.San.{is_capture};
ghost use Rattle.chess.specs.Shared.Codes.{IsFollowed};
ghost use Rattle.chess.specs.declared.board.man.Side.TheVariants.{White, Black};

use crate::board::{Board, CastlingRights, Kind, Man, Side, Square, Wing};
use crate::moves::Move;
use crate::moves::castling::{king_leaves, rook_arrives, rook_leaves};
use crate::position::Position;

/// Whether the two are the same square: `Square::is`, answered as the definition of the men after a
/// move asks it.
fn same(a: Square, b: Square) -> bool
    ensures { result ≡ same_square a b }
{
    a.is(b)
}

/// The squares from which kings and rooks castle: a1, e1, h1, a8, e8, h8.
const HOMES: u64 = 0x9100_0000_0000_0091;

/// Whether a king or a rook castles from there.
#[inline(always)]
fn is_home(square: Square) -> bool
    ensures { (side : Side) (wing : Wing) → (square ≡ king_from side)
        ⊎ (square ≡ rook_from side wing) → IsTrue result }
{
    (HOMES >> square.index()) & 1 == 1
}

/// Whether the right is still held after the move.
fn keeps_right(rights: CastlingRights, m: &Move, side: Side, wing: Wing) -> bool
    ensures { result ≡ keeps_right rights m.now side wing }
{
    rights.has(side, wing)
        && !same(m.from, king_leaves(side))
        && !same(m.from, rook_leaves(side, wing))
        && !same(m.to, rook_leaves(side, wing))
}

/// The castling rights that are left after the move.
#[cold]
fn rights_left(rights: CastlingRights, m: Move) -> CastlingRights
    ensures { result ≡ rights_after rights m }
{
    CastlingRights {
        white_king_side: keeps_right(rights, &m, Side::White, Wing::KingSide),
        white_queen_side: keeps_right(rights, &m, Side::White, Wing::QueenSide),
        black_king_side: keeps_right(rights, &m, Side::Black, Wing::KingSide),
        black_queen_side: keeps_right(rights, &m, Side::Black, Wing::QueenSide),
    }
}

/// Takes away the castling rights that the move ends: none, where it touches no square of castling,
/// or none is held.
#[inline(always)]
fn end_rights(rights: &mut CastlingRights, m: &Move)
    ensures { rights.new ≡ rights_after rights.old m.now }
{
    // (that rights are left is asked first, since it seldom changes)
    if rights.has_some() {
        if is_home(m.from) || is_home(m.to) {
            *rights = rights_left(*rights, *m);
        }
    }
}

/// Notes where the kings stand after the move of that man: he alone moves, if he is one.
#[inline(always)]
fn follow_kings(white_king: &mut Square, black_king: &mut Square, man: Man, m: &Move)
    ensures white { IsFollowed man m.now.to White white_king.old white_king.new }
    ensures black { IsFollowed man m.now.to Black black_king.old black_king.new }
{
    if man.kind != Kind::King {
        return;
    }
    match man.side {
        Side::White => *white_king = m.to,
        Side::Black => *black_king = m.to,
    }
}

/// A count goes up by one, and stays at the largest number.
pub(crate) fn one_more(count: u32) -> u32
    ensures { result ≡ one_more count }
{
    count.saturating_add(1)
}

/// Whether that is a pawn.
fn is_pawn(man: Option<Man>) -> bool
    ensures { result ≡ is_pawn man }
{
    match man {
        Some(man) => man.kind == Kind::Pawn,
        None => false,
    }
}

impl<B: Board> Position<B> {
    /// Whether the move of that man is a capture en passant.
    #[inline(always)]
    fn is_en_passant(&self, man: Option<Man>, m: &Move) -> bool
        requires { man ≡ man_at self.now.men m.now.from }
        ensures { result ≡ is_en_passant self.now m.now }
    {
        self.is_en_passant_target(m.to) && m.from.file() != m.to.file() && is_pawn(man)
    }

    /// The square of the man that the move of that man takes, if it takes one.
    #[inline(always)]
    fn capture_square_of(&self, man: Option<Man>, m: &Move) -> Square
        requires { man ≡ man_at self.now.men m.now.from }
        ensures { result ≡ capture_square self.now m.now }
    {
        if self.is_en_passant(man, m) {
            return Square::at(m.to.file(), m.from.rank());
        }
        m.to
    }

    /// Whether the move of that man takes a man, also en passant.
    #[inline(always)]
    pub(crate) fn takes(&self, man: Man, m: &Move) -> bool
        requires { man_at self.now.men m.now.from ≡ Some man }
        ensures { result ≡ is_capture self.now m.now }
    {
        !self.is_empty(self.capture_square_of(Some(man), m))
    }

    /// Whether the move takes a man, also en passant.
    pub fn is_capture(&self, m: &Move) -> bool
        ensures { result ≡ is_capture self.now m.now }
    {
        if self.is_en_passant_target(m.to) {
            return !self.is_empty(self.capture_square_of(self.at(m.from), m));
        }
        !self.is_empty(m.to)
    }

    /// The man that arrives: the one that moves, or what the pawn becomes.
    #[inline(always)]
    fn arriving(&self, man: Option<Man>, m: &Move) -> Option<Man>
        requires { man ≡ man_at self.now.men m.now.from }
        ensures { result ≡ arriving self.now m.now.promote m.now.from }
    {
        match m.promote {
            None => man,
            Some(kind) => Some(Man {
                side: self.side(),
                kind,
            }),
        }
    }

    /// The board after the move.
    pub(crate) fn board_after(&self, m: &Move) -> B
        ensures { B.men result ≡ men_after self.now m.now }
    {
        self.board_after_of(self.at(m.from), m)
    }

    /// The board after the move of that man.
    #[inline(always)]
    fn board_after_of(&self, man: Option<Man>, m: &Move) -> B
        requires { man ≡ man_at self.now.men m.now.from }
        ensures { B.men result ≡ men_after self.now m.now }
    {
        let side = self.side();
        let mut board = self.board();
        board.move_piece(
            self.arriving(man, m),
            m.from,
            self.capture_square_of(man, m),
            m.to,
        );
        if let Some(wing) = m.castle {
            board.put(rook_leaves(side, wing), None);
            board.put(
                rook_arrives(side, wing),
                Some(Man {
                    side,
                    kind: Kind::Rook,
                }),
            );
        }
        board
    }

    /// The en passant square after the move of that man.
    #[inline(always)]
    fn en_passant_after(&self, man: Option<Man>, m: &Move) -> Option<Square>
        requires { man ≡ man_at self.now.men m.now.from }
        ensures { result ≡ en_passant_after self.now m.now }
    {
        let (from, to) = (m.from.rank(), m.to.rank());
        if is_pawn(man) && from.abs_diff(to) == 2 {
            return Some(Square::at(m.from.file(), (from + to) / 2));
        }
        None
    }

    /// The halfmove clock after the move of that man.
    #[inline(always)]
    fn halfmove_clock_after(&self, man: Option<Man>, m: &Move) -> u32
        requires { man ≡ man_at self.now.men m.now.from }
        ensures { result ≡ halfmove_clock_after self.now m.now }
    {
        if is_pawn(man) || !self.is_empty(m.to) {
            return 0;
        }
        one_more(self.clock())
    }

    /// The halfmove clock after the move of that man, which takes a man or not.
    #[inline(always)]
    fn clock_after(&self, man: Man, m: &Move, takes: bool) -> u32
        requires man { man_at self.now.men m.now.from ≡ Some man }
        requires takes { takes ≡ is_capture self.now m.now }
        ensures { result ≡ halfmove_clock_after self.now m.now }
    {
        if man.kind == Kind::Pawn || takes {
            return 0;
        }
        one_more(self.clock())
    }

    /// The fullmove number after a move.
    pub(crate) fn fullmove_number_after(&self) -> u32
        ensures { result ≡ fullmove_number_after self.now.turn self.now.fullmove_number }
    {
        // (0 for White, 1 for Black, so that no jump hangs on the side)
        self.number().saturating_add(self.side() as u32)
    }

    /// The side to move after a move.
    fn turn_after(&self) -> Side
        ensures { result ≡ opposite self.now.turn }
    {
        self.side().opposite()
    }

    /// The square of the side's king after the move.
    pub(crate) fn king_after(&self, m: &Move, side: Side) -> Square
        requires { IsPseudoLegal self.now m.now }
        ensures { IsOnlyKing (men_after self.now m.now) side result }
    {
        self.invariant();
        let king = self.king(side);
        if king.is(m.from) { m.to } else { king }
    }

    /// Makes a legal move in place.
    pub(crate) fn make(&mut self, m: &Move)
        requires { IsLegal self.old m.now }
        ensures { self.new ≡ after self.old m.now }
    {
        let man = self.at(m.from).unwrap();
        self.make_with(man, m, self.takes(man, m));
    }

    /// Makes a legal move of that man in place, which takes a man or not.
    #[inline(always)]
    pub(crate) fn make_with(&mut self, man: Man, m: &Move, takes: bool)
        requires man { man_at self.old.men m.now.from ≡ Some man }
        requires takes { takes ≡ is_capture self.old m.now }
        requires legal { IsLegal self.old m.now }
        ensures { self.new ≡ after self.old m.now }
    {
        if m.castle.is_some() {
            self.make_castling(m);
            return;
        }
        self.advance(man, m, takes);
    }

    /// Makes a legal move in place, also one that moves two men.
    #[cold]
    fn make_castling(&mut self, m: &Move)
        requires { IsLegal self.old m.now }
        ensures { self.new ≡ after self.old m.now }
    {
        let man = self.at(m.from);
        let board = self.board_after_of(man, m);
        self.settle(man, m, board);
    }

    /// Makes a legal move of that man in place, where the board after it is given.
    #[inline(always)]
    fn settle(&mut self, man: Option<Man>, m: &Move, board: B)
        requires man { man ≡ man_at self.old.men m.now.from }
        requires legal { IsLegal self.old m.now }
        requires board { B.men board ≡ men_after self.old m.now }
        ensures { self.new ≡ after self.old m.now }
    {
        self.invariant();
        let turn = self.turn_after();
        let en_passant = self.en_passant_after(man, m);
        let halfmove_clock = self.halfmove_clock_after(man, m);
        let fullmove_number = self.fullmove_number_after();
        let white_king = self.king_after(m, Side::White);
        let black_king = self.king_after(m, Side::Black);
        self.board = board;
        self.turn = turn;
        end_rights(&mut self.rights, m);
        self.en_passant = en_passant;
        self.halfmove_clock = halfmove_clock;
        self.fullmove_number = fullmove_number;
        self.white_king = white_king;
        self.black_king = black_king;
    }

    /// What that man, who moves, is on arrival: himself, or what the pawn becomes.
    #[inline(always)]
    fn becoming(&self, man: Man, m: &Move) -> Man
        requires { man_at self.now.men m.now.from ≡ Some man }
        ensures { Some result ≡ arriving self.now m.now.promote m.now.from }
    {
        match m.promote {
            None => man,
            Some(kind) => Man {
                side: self.side(),
                kind,
            },
        }
    }

    /// Whether the own king is attacked after the move of that man, which is no castling.
    #[inline(always)]
    pub(crate) fn exposes_king(&self, man: Man, m: &Move) -> bool
        requires man { man_at self.now.men m.now.from ≡ Some man }
        requires pseudo_legal { IsPseudoLegal self.now m.now }
        requires plain { m.now.castle ≡ None }
        ensures { IsTrue result ↔ IsCheck (men_after self.now m.now) self.now.turn }
    {
        self.invariant();
        let king = self.king_after(m, self.side());
        let capture_square = self.capture_square_of(Some(man), m);
        let arriving = self.becoming(man, m);
        self.board
            .attacked_after(king, arriving, m.from, capture_square, m.to)
    }

    /// Makes the move of that man in place if it leaves the own king unattacked.
    #[inline(always)]
    pub(crate) fn try_move(&mut self, man: Man, m: &Move) -> bool
        requires man { man_at self.old.men m.now.from ≡ Some man }
        requires pseudo_legal { IsPseudoLegal self.old m.now }
        requires plain { m.now.castle ≡ None }
        ensures legal { IsTrue result ↔ IsLegal self.old m.now }
        ensures moved { self.new ≡ (if result then after self.old m.now else self.old) }
    {
        if self.exposes_king(man, m) {
            return false;
        }
        self.advance(man, m, self.takes(man, m));
        true
    }

    /// Makes a legal move of that man, which is no castling, in place.
    #[inline(always)]
    fn advance(&mut self, man: Man, m: &Move, takes: bool)
        requires man { man_at self.old.men m.now.from ≡ Some man }
        requires takes { takes ≡ is_capture self.old m.now }
        requires legal { IsLegal self.old m.now }
        requires plain { m.now.castle ≡ None }
        ensures { self.new ≡ after self.old m.now }
    {
        self.invariant();
        let turn = self.turn_after();
        let en_passant = self.en_passant_after(Some(man), m);
        let halfmove_clock = self.clock_after(man, m, takes);
        let fullmove_number = self.fullmove_number_after();
        let capture_square = self.capture_square_of(Some(man), m);
        let arriving = self.becoming(man, m);
        self.board
            .move_piece(Some(arriving), m.from, capture_square, m.to);
        self.turn = turn;
        end_rights(&mut self.rights, m);
        self.en_passant = en_passant;
        self.halfmove_clock = halfmove_clock;
        self.fullmove_number = fullmove_number;
        follow_kings(&mut self.white_king, &mut self.black_king, man, m);
    }

    /// The position after a legal move.
    pub fn play(&self, m: Move) -> Self
        requires { IsLegal self.now m }
        ensures position { result ≡ after self.now m }
        ensures sound { IsSound result }
    {
        let mut next = self.copy();
        next.make(&m);
        next.invariant();
        next
    }
}
