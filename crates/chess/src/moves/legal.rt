//! Legal moves (Laws 3.9.2, 3.8.2.2), the squares that they reach, and whether there is one.
ghost use Rattle.std.specs.Prelude.{◌≡◌, ◌≤◌, ◌↔◌, IsTrue, Some, None};
ghost use Rattle.chess.specs.Public.Attacks.{IsForward, IsNear, IsAttackedFrom};
ghost use Rattle.chess.specs.Public.Positions.{IsCheck, IsOnlyKing};
ghost use Rattle.chess.specs.Public.Moves.{IsSingleStep, Promotes, IsBarred, IsUnbarred, men_after};
ghost use Rattle.chess.specs.Public.Moves.{IsPseudoLegal, IsLegal, CanGo, HasMove};
ghost use Rattle.chess.specs.Private.MoveWords.{IsMover, CanGoPlainly, CanPromote, CanCastle};
ghost use Rattle.chess.specs.Private.MoveWords.{CanLeave, CanMove, HasEach, IsPawnGoal};
ghost use Rattle.chess.specs.Private.MoveWords.{IsCastlingGoal};
ghost use Rattle.chess.specs.Public.Sets.{HoldsExactly};

use crate::board::{Board, Kind, Man, Side, Square, SquareSet, Wing, squares_near};
use crate::moves::Move;
use crate::moves::castling::{king_arrives, king_leaves, rank_of_pieces, rook_arrives};
use crate::moves::pseudo_legal::{promotes, square_ahead};
use crate::position::Position;

impl<B: Board> Position<B> {
    /// Whether the move is legal.
    pub fn is_legal(&self, m: Move) -> bool
        ensures { IsTrue result ↔ IsLegal self.now m }
    {
        if !self.is_pseudo_legal(&m) {
            return false;
        }
        self.is_unbarred(m.castle) && !self.leaves_check(&m)
    }

    /// The squares to which some legal move goes from the square.
    pub fn targets(&self, square: Square) -> SquareSet
        ensures { HoldsExactly (λ t. CanGo self.now square t) result }
    {
        let mut left = self.candidates(square);
        let mut found = SquareSet::new();
        while let Some(to) = left.take_first() {
            found.insert_if(to, self.can_go(square, to));
        }
        found
    }

    /// Whether the side to move has a legal move. A step of one pawn is tried first, then those of
    /// the king: they are soon seen.
    pub fn has_move(&self) -> bool
        ensures { IsTrue result ↔ HasMove self.now }
    {
        if self.pawn_steps() {
            return true;
        }
        if self.king_escapes() {
            return true;
        }
        self.has_any_move()
    }

    /// Whether a man of some kind has a legal move: the men of each kind are asked.
    #[cold]
    fn has_any_move(&self) -> bool
        ensures { IsTrue result ↔ HasMove self.now }
    {
        if self.can_move(Kind::Pawn) {
            return true;
        }
        if self.can_move(Kind::Knight) {
            return true;
        }
        if self.can_move(Kind::Bishop) {
            return true;
        }
        if self.can_move(Kind::Rook) {
            return true;
        }
        if self.can_move(Kind::Queen) {
            return true;
        }
        if self.can_move(Kind::King) {
            return true;
        }
        false
    }

    /// The rank ahead of the pawn on the square. There is one, since no pawn stands on its last
    /// rank.
    #[inline(always)]
    fn rank_ahead(&self, from: Square) -> u8
        requires { IsMover self.now Kind.Pawn from }
        ensures rank { IsForward self.now.turn from.rank result }
        ensures low { 1 ≤ result }
        ensures high { result ≤ 8 }
    {
        self.invariant();
        match self.side() {
            Side::White => from.rank() + 1,
            Side::Black => from.rank() - 1,
        }
    }

    /// The square straight ahead of the pawn on the square.
    #[inline(always)]
    fn ahead_of_pawn(&self, from: Square) -> Square
        requires { IsMover self.now Kind.Pawn from }
        ensures file { result.file ≡ from.file }
        ensures rank { IsForward self.now.turn from.rank result.rank }
    {
        Square::at(from.file(), self.rank_ahead(from))
    }

    /// Whether a step of the pawn on the one square to the other, where it stays a pawn, leaves the
    /// own king unattacked.
    #[inline(always)]
    fn can_step(&self, from: Square, to: Square) -> bool
        requires pawn { IsMover self.now Kind.Pawn from }
        requires step { IsSingleStep self.now from to }
        requires stays { Promotes self.now.turn to None }
        ensures { IsTrue result
            → IsLegal self.now (record { from = from; to = to; promote = None; castle = None }) }
    {
        from.invariant();
        to.invariant();
        let man = Man {
            side: self.side(),
            kind: Kind::Pawn,
        };
        let m = Move {
            from,
            to,
            promote: None,
            castle: None,
        };
        !self.exposes_king(man, &m)
    }

    /// Whether the first pawn of the side to move that has an empty square ahead, and stays a pawn
    /// there, steps legally.
    #[inline(always)]
    fn pawn_steps(&self) -> bool
        ensures { IsTrue result → HasMove self.now }
    {
        let mut left = self.squares_of(Man {
            side: self.side(),
            kind: Kind::Pawn,
        });
        while let Some(from) = left.take_first() {
            let to = self.ahead_of_pawn(from);
            if self.is_empty(to) && promotes(self.side(), to, None) {
                return self.can_step(from, to);
            }
        }
        false
    }

    /// Whether the king of the side to move steps legally to the square, which is next to its own.
    #[inline(always)]
    fn king_steps(&self, king: Square, to: Square) -> bool
        requires king { IsOnlyKing self.now.men self.now.turn king }
        requires near { IsNear king to }
        ensures { IsTrue result
            → IsLegal self.now (record { from = king; to = to; promote = None; castle = None }) }
    {
        king.invariant();
        to.invariant();
        let side = self.side();
        if self.is_occupied_by(side, to) {
            return false;
        }
        let man = Man {
            side,
            kind: Kind::King,
        };
        let m = Move {
            from: king,
            to,
            promote: None,
            castle: None,
        };
        !self.exposes_king(man, &m)
    }

    /// Whether the king of the side to move steps legally to some square.
    #[inline(never)]
    fn king_escapes(&self) -> bool
        ensures { IsTrue result → HasMove self.now }
    {
        let king = self.king(self.side());
        let mut left = squares_near(king);
        while let Some(to) = left.take_first() {
            if self.king_steps(king, to) {
                return true;
            }
        }
        false
    }

    /// Whether castling on the wing is barred by an attack.
    fn is_barred(&self, wing: Wing) -> bool
        ensures { IsTrue result ↔ IsBarred self.now wing }
    {
        let side = self.side();
        let enemy = side.opposite();
        self.attacked(king_leaves(side), enemy)
            || self.attacked(rook_arrives(side, wing), enemy)
            || self.attacked(king_arrives(side, wing), enemy)
    }

    /// Whether the move is no castling that is barred.
    fn is_unbarred(&self, castle: Option<Wing>) -> bool
        ensures { IsTrue result ↔ IsUnbarred self.now castle }
    {
        match castle {
            None => true,
            Some(wing) => !self.is_barred(wing),
        }
    }

    /// Whether the own king is attacked after the move.
    fn leaves_check(&self, m: &Move) -> bool
        requires { IsPseudoLegal self.now m.now }
        ensures { IsTrue result ↔ IsCheck (men_after self.now m.now) self.now.turn }
    {
        if m.castle.is_none() {
            return self.exposes_king(self.at(m.from).unwrap(), m);
        }
        let side = self.side();
        let king = self.king_after(m, side);
        self.board_after(m).attacked(king, side.opposite())
    }

    /// Whether some legal move goes from the one square to the other.
    pub(crate) fn can_go(&self, from: Square, to: Square) -> bool
        ensures { IsTrue result ↔ CanGo self.now from to }
    {
        if self.can_go_plainly(from, to) {
            return true;
        }
        if self.can_promote(from, to) {
            return true;
        }
        self.can_castle(from, to)
    }

    /// Whether a legal move without promotion and castling goes from the one square to the other.
    pub(crate) fn can_go_plainly(&self, from: Square, to: Square) -> bool
        ensures { IsTrue result ↔ CanGoPlainly self.now from to }
    {
        self.is_legal(Move {
            from,
            to,
            promote: None,
            castle: None,
        })
    }

    /// Whether a pawn may go so and become a piece of that kind.
    fn can_become(&self, from: Square, to: Square, kind: Kind) -> bool
        ensures { IsTrue result
            ↔ IsLegal self.now (record {
              from = from;
              to = to;
              promote = Some kind;
              castle = None;
            }) }
    {
        self.is_legal(Move {
            from,
            to,
            promote: Some(kind),
            castle: None,
        })
    }

    /// Whether a legal move that promotes goes from the one square to the other.
    fn can_promote(&self, from: Square, to: Square) -> bool
        ensures { IsTrue result ↔ CanPromote self.now from to }
    {
        if to.rank() != rank_of_pieces(self.side().opposite()) {
            return false;
        }
        if self.can_become(from, to, Kind::Queen) {
            return true;
        }
        if self.can_become(from, to, Kind::Rook) {
            return true;
        }
        if self.can_become(from, to, Kind::Bishop) {
            return true;
        }
        self.can_become(from, to, Kind::Knight)
    }

    /// Whether castling on the wing is legal and takes the king from the one square to the other.
    fn can_castle_on(&self, from: Square, to: Square, wing: Wing) -> bool
        ensures { IsTrue result
            ↔ IsLegal self.now (record {
              from = from;
              to = to;
              promote = None;
              castle = Some wing;
            }) }
    {
        self.is_legal(Move {
            from,
            to,
            promote: None,
            castle: Some(wing),
        })
    }

    /// Whether castling is legal and takes the king from the one square to the other.
    fn can_castle(&self, from: Square, to: Square) -> bool
        ensures { IsTrue result ↔ CanCastle self.now from to }
    {
        if !from.is(king_leaves(self.side())) {
            return false;
        }
        self.can_castle_on(from, to, Wing::KingSide)
            || self.can_castle_on(from, to, Wing::QueenSide)
    }

    /// Squares among which are all those to which a legal move goes from the square.
    pub(crate) fn candidates(&self, from: Square) -> SquareSet
        ensures { HasEach (λ t. CanGo self.now from t) result }
    {
        let Some(man) = self.at(from) else {
            return SquareSet::new();
        };
        match man.kind {
            Kind::Pawn => self.pawn_candidates(from),
            Kind::King => self.king_candidates(from),
            Kind::Queen | Kind::Rook | Kind::Bishop | Kind::Knight => self.attacks_from(from),
        }
    }

    /// The squares that the man on the square attacks, and those one and two ranks forward.
    fn pawn_candidates(&self, from: Square) -> SquareSet
        ensures attacks { HasEach (λ t. IsAttackedFrom self.now.men from t) result }
        ensures steps { HasEach (λ t. IsPawnGoal self.now from t) result }
    {
        from.invariant();
        let mut squares = self.attacks_from(from);
        let side = self.side();
        let Some(next) = square_ahead(side, from) else {
            return squares;
        };
        squares.insert(next);
        let Some(second) = square_ahead(side, next) else {
            return squares;
        };
        squares.insert(second);
        squares
    }

    /// The squares that the man on the square attacks, and those to which the king castles.
    fn king_candidates(&self, from: Square) -> SquareSet
        ensures attacks { HasEach (λ t. IsAttackedFrom self.now.men from t) result }
        ensures castling { HasEach (λ t. IsCastlingGoal self.now t) result }
    {
        let mut squares = self.attacks_from(from);
        let side = self.side();
        squares.insert(king_arrives(side, Wing::KingSide));
        squares.insert(king_arrives(side, Wing::QueenSide));
        squares
    }

    /// Whether some legal move leaves the square.
    fn can_leave(&self, from: Square) -> bool
        ensures { IsTrue result ↔ CanLeave self.now from }
    {
        let mut left = self.candidates(from);
        while let Some(to) = left.take_first() {
            if self.can_go(from, to) {
                return true;
            }
        }
        false
    }

    /// Whether a man of that kind, of the side to move, has a legal move.
    fn can_move(&self, kind: Kind) -> bool
        ensures { IsTrue result ↔ CanMove self.now kind }
    {
        let mut left = self.squares_of(Man {
            side: self.side(),
            kind,
        });
        while let Some(from) = left.take_first() {
            if self.can_leave(from) {
                return true;
            }
        }
        false
    }
}
