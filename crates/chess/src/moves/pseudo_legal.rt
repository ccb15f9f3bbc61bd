//! Pseudo-legal moves: how the men go, whether or not the own king is then attacked.
ghost use Rattle.std.specs.Prelude.{◌↔◌, IsTrue};
ghost use Rattle.chess.specs.Public.Attacks.{Reaches};
ghost use Rattle.chess.specs.Public.Moves.{IsSingleStep, IsDoubleStep, IsPawnCapture, IsPawnMove};
ghost use Rattle.chess.specs.Public.Moves.{IsPromotion, Promotes, Castles, IsKingMove, Goes};
ghost use Rattle.chess.specs.Public.Moves.{IsPseudoLegal};
ghost use Rattle.chess.specs.Private.MoveWords.{IsMover, IsOpen, IsPlainMove, IsSquareAhead};

use crate::board::{Board, Direction, Kind, Man, Side, Square, SquareSet, Wing};
use crate::moves::Move;
use crate::moves::castling::{at_home, king_arrives, king_leaves, rank_of_pawns, rank_of_pieces};
use crate::position::Position;

/// The square straight ahead of a pawn of the side, if it is on the board.
pub(crate) fn square_ahead(side: Side, from: Square) -> Option<Square>
    ensures { IsSquareAhead side from result }
{
    // (both ranks are told before the side is asked, so that no jump hangs on it)
    let (up, down) = (from.rank() + 1, from.rank() - 1);
    let rank = match side {
        Side::White => up,
        Side::Black => down,
    };
    Square::new(from.file(), rank)
}

/// Whether a pawn may become that.
fn is_promotion(promote: Option<Kind>) -> bool
    ensures { IsTrue result ↔ IsPromotion promote }
{
    match promote {
        Some(Kind::Queen) | Some(Kind::Rook) | Some(Kind::Bishop) | Some(Kind::Knight) => true,
        _ => false,
    }
}

/// Whether the promotion, or none, is right for a pawn of the side that comes to the square.
pub(crate) fn promotes(side: Side, to: Square, promote: Option<Kind>) -> bool
    ensures { IsTrue result ↔ Promotes side to promote }
{
    if to.rank() == rank_of_pieces(side.opposite()) {
        return is_promotion(promote);
    }
    promote.is_none()
}

impl<B: Board> Position<B> {
    /// Whether the man of that kind that stands on `from` attacks `to`.
    fn attacks(&self, kind: Kind, from: Square, to: Square) -> bool
        requires { IsMover self.now kind from }
        ensures { IsTrue result ↔ Reaches self.now.men self.now.turn kind from to }
    {
        let man = Man {
            side: self.side(),
            kind,
        };
        self.attackers_from(man, to, SquareSet::all()).has(from)
    }

    /// Whether a pawn steps so, one square forward.
    fn is_single_step(&self, from: Square, to: Square) -> bool
        ensures { IsTrue result ↔ IsSingleStep self.now from to }
    {
        from.file() == to.file()
            && self.side().is_forward(from.rank(), to.rank())
            && self.is_empty(to)
    }

    /// Whether a pawn steps so, two squares forward.
    fn is_double_step(&self, from: Square, to: Square) -> bool
        ensures { IsTrue result ↔ IsDoubleStep self.now from to }
    {
        if from.file() != to.file() || from.rank() != rank_of_pawns(self.side()) {
            return false;
        }
        let Some(between) = square_ahead(self.side(), from) else {
            return false;
        };
        self.side().is_forward(between.rank(), to.rank())
            && self.is_empty(between)
            && self.is_empty(to)
    }

    /// Whether the pawn on `from` takes so.
    fn is_pawn_capture(&self, from: Square, to: Square) -> bool
        requires { IsMover self.now Kind.Pawn from }
        ensures { IsTrue result ↔ IsPawnCapture self.now from to }
    {
        self.attacks(Kind::Pawn, from, to)
            && (self.is_occupied_by(self.side().opposite(), to) || self.is_en_passant_target(to))
    }

    /// Whether the pawn on `from` goes to the other square by its own rules.
    fn is_pawn_move(&self, from: Square, to: Square) -> bool
        requires { IsMover self.now Kind.Pawn from }
        ensures { IsTrue result ↔ IsPawnMove self.now from to }
    {
        self.is_single_step(from, to)
            || self.is_double_step(from, to)
            || self.is_pawn_capture(from, to)
    }

    /// Whether all squares between king and rook are empty.
    fn is_open(&self, wing: Wing) -> bool
        ensures { IsTrue result ↔ IsOpen self.now wing }
    {
        let side = self.side();
        match wing {
            Wing::KingSide => self.is_empty(at_home(side, 6)) && self.is_empty(at_home(side, 7)),
            Wing::QueenSide => {
                self.is_empty(at_home(side, 2))
                    && self.is_empty(at_home(side, 3))
                    && self.is_empty(at_home(side, 4))
            }
        }
    }

    /// Whether the move is castling on the wing, as far as the right and the squares between king
    /// and rook go.
    fn castles(&self, wing: Wing, m: &Move) -> bool
        ensures { IsTrue result ↔ Castles self.now wing m.now }
    {
        let side = self.side();
        m.from.is(king_leaves(side))
            && m.to.is(king_arrives(side, wing))
            && self.has_right(side, wing)
            && self.is_open(wing)
    }

    /// Whether the king on `m.from` makes the move by its own rules: a step or castling.
    fn is_king_move(&self, m: &Move) -> bool
        requires { IsMover self.now Kind.King m.now.from }
        ensures { IsTrue result ↔ IsKingMove self.now m.now m.now.castle }
    {
        match m.castle {
            None => self.attacks(Kind::King, m.from, m.to),
            Some(wing) => self.castles(wing, m),
        }
    }

    /// Whether the man on `m.from`, which is neither king nor pawn, makes the move by its own
    /// rules.
    fn is_plain_move(&self, kind: Kind, m: &Move) -> bool
        requires { IsMover self.now kind m.now.from }
        ensures { IsTrue result ↔ IsPlainMove self.now m.now kind }
    {
        m.castle.is_none() && m.promote.is_none() && self.attacks(kind, m.from, m.to)
    }

    /// Whether the man of that kind on `m.from` makes the move by its own rules.
    fn goes(&self, kind: Kind, m: &Move) -> bool
        requires { IsMover self.now kind m.now.from }
        ensures { IsTrue result ↔ Goes self.now m.now kind }
    {
        match kind {
            Kind::Pawn => {
                m.castle.is_none()
                    && promotes(self.side(), m.to, m.promote)
                    && self.is_pawn_move(m.from, m.to)
            }
            Kind::King => m.promote.is_none() && self.is_king_move(m),
            Kind::Queen | Kind::Rook | Kind::Bishop | Kind::Knight => self.is_plain_move(kind, m),
        }
    }

    /// Whether the move is pseudo-legal.
    pub(crate) fn is_pseudo_legal(&self, m: &Move) -> bool
        ensures { IsTrue result ↔ IsPseudoLegal self.now m.now }
    {
        let Some(man) = self.at(m.from) else {
            return false;
        };
        if man.side != self.side() || self.is_occupied_by(self.side(), m.to) {
            return false;
        }
        m.from.invariant();
        m.to.invariant();
        self.goes(man.kind, m)
    }
}
