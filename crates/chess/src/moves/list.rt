//! The list of all legal moves.
ghost use Rattle.std.specs.Prelude.{◌≡◌, OnOk, OnErr, take, length, Some, None};
ghost use Rattle.chess.specs.Public.Moves.{IsLegal};
ghost use Rattle.chess.specs.Public.MoveLists.{appended, AreLegal, HasEachLegal, AreDistinct};
ghost use Rattle.chess.specs.Private.MoveListWords.{Lists, Grows, IsThatLegal, Leaves, LeavesFor};
ghost use Rattle.chess.specs.Private.MoveListWords.{PromotesOn, CastlesFrom};

use crate::board::{Board, Kind, Square, SquareSet, Wing};
use crate::moves::Move;
use crate::moves::castling::{king_leaves, rank_of_pieces};
use crate::position::Position;
use std::alloc::AllocError;
use std::vec::Vec;

impl<B: Board> Position<B> {
    /// Appends each legal move once, and no other move. What stood in the list before is kept; at
    /// an error, which comes where memory runs out, the list is as it was.
    pub fn legal_moves(&self, moves: &mut Vec<Move>) -> Result<(), AllocError>
        ensures kept { OnOk result (take (length moves.old.items) moves.new.items
            ≡ moves.old.items) }
        ensures sound { OnOk result (AreLegal self.now (appended moves.old.items moves.new.items)) }
        ensures complete { OnOk result
            (HasEachLegal self.now (appended moves.old.items moves.new.items)) }
        ensures once { OnOk result (AreDistinct (appended moves.old.items moves.new.items)) }
        ensures failed { OnErr result (moves.new.items ≡ moves.old.items) }
    {
        let before = moves.len();
        if let Err(error) = self.push_moves(moves) {
            moves.truncate(before);
            return Err(error);
        }
        Ok(())
    }

    /// Appends the legal moves, by their squares of origin in order.
    fn push_moves(&self, moves: &mut Vec<Move>) -> Result<(), AllocError>
        ensures ok { OnOk result (Lists (λ m. IsLegal self.now m) moves.old.items moves.new.items) }
        ensures err { OnErr result (Grows moves.old.items moves.new.items) }
    {
        let mut left = SquareSet::all();
        while let Some(from) = left.take_first() {
            self.push_moves_from(from, moves)?;
        }
        Ok(())
    }

    /// Appends the legal moves from the square, by their targets in order.
    fn push_moves_from(&self, from: Square, moves: &mut Vec<Move>) -> Result<(), AllocError>
        ensures ok { OnOk result (Lists (Leaves self.now from) moves.old.items moves.new.items) }
        ensures err { OnErr result (Grows moves.old.items moves.new.items) }
    {
        if !self.is_occupied_by(self.side(), from) {
            return Ok(());
        }
        let mut left = self.candidates(from);
        while let Some(to) = left.take_first() {
            self.push_moves_between(from, to, moves)?;
        }
        Ok(())
    }

    /// Appends the legal moves from the one square to the other.
    fn push_moves_between(
        &self,
        from: Square,
        to: Square,
        moves: &mut Vec<Move>,
    ) -> Result<(), AllocError>
        ensures ok { OnOk result
            (Lists (LeavesFor self.now from to) moves.old.items moves.new.items) }
        ensures err { OnErr result (Grows moves.old.items moves.new.items) }
    {
        self.push_if_legal(
            &Move {
                from,
                to,
                promote: None,
                castle: None,
            },
            moves,
        )?;
        self.push_promotions(from, to, moves)?;
        self.push_castlings(from, to, moves)?;
        Ok(())
    }

    /// Appends the legal moves from the one square to the other in which a pawn becomes a piece.
    fn push_promotions(
        &self,
        from: Square,
        to: Square,
        moves: &mut Vec<Move>,
    ) -> Result<(), AllocError>
        ensures ok { OnOk result
            (Lists (PromotesOn self.now from to) moves.old.items moves.new.items) }
        ensures err { OnErr result (Grows moves.old.items moves.new.items) }
    {
        if to.rank() != rank_of_pieces(self.side().opposite()) {
            return Ok(());
        }
        self.push_promotion(from, to, Kind::Queen, moves)?;
        self.push_promotion(from, to, Kind::Rook, moves)?;
        self.push_promotion(from, to, Kind::Bishop, moves)?;
        self.push_promotion(from, to, Kind::Knight, moves)?;
        Ok(())
    }

    /// Appends the move in which a pawn becomes a piece of that kind, if it is legal.
    fn push_promotion(
        &self,
        from: Square,
        to: Square,
        kind: Kind,
        moves: &mut Vec<Move>,
    ) -> Result<(), AllocError>
        ensures ok { OnOk result
            (Lists
            (IsThatLegal self.now (record {
              from = from;
              to = to;
              promote = Some kind;
              castle = None;
            }))
            moves.old.items moves.new.items) }
        ensures err { OnErr result (Grows moves.old.items moves.new.items) }
    {
        self.push_if_legal(
            &Move {
                from,
                to,
                promote: Some(kind),
                castle: None,
            },
            moves,
        )
    }

    /// Appends the legal castlings that take the king from the one square to the other.
    fn push_castlings(
        &self,
        from: Square,
        to: Square,
        moves: &mut Vec<Move>,
    ) -> Result<(), AllocError>
        ensures ok { OnOk result
            (Lists (CastlesFrom self.now from to) moves.old.items moves.new.items) }
        ensures err { OnErr result (Grows moves.old.items moves.new.items) }
    {
        if !from.is(king_leaves(self.side())) {
            return Ok(());
        }
        self.push_castling(from, to, Wing::KingSide, moves)?;
        self.push_castling(from, to, Wing::QueenSide, moves)?;
        Ok(())
    }

    /// Appends the castling on the wing, if it is legal and takes the king from the one square to
    /// the other.
    fn push_castling(
        &self,
        from: Square,
        to: Square,
        wing: Wing,
        moves: &mut Vec<Move>,
    ) -> Result<(), AllocError>
        ensures ok { OnOk result
            (Lists
            (IsThatLegal self.now (record {
              from = from;
              to = to;
              promote = None;
              castle = Some wing;
            }))
            moves.old.items moves.new.items) }
        ensures err { OnErr result (Grows moves.old.items moves.new.items) }
    {
        self.push_if_legal(
            &Move {
                from,
                to,
                promote: None,
                castle: Some(wing),
            },
            moves,
        )
    }

    /// Appends the move if it is legal.
    fn push_if_legal(&self, m: &Move, moves: &mut Vec<Move>) -> Result<(), AllocError>
        ensures ok { OnOk result
            (Lists (IsThatLegal self.now m.now) moves.old.items moves.new.items) }
        ensures err { OnErr result (Grows moves.old.items moves.new.items) }
    {
        if self.is_legal(*m) {
            moves.push(*m)?;
        }
        Ok(())
    }
}
