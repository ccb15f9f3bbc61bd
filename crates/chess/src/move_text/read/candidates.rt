//! The men that may make the move that a text says, whether or not their king is then attacked.
ghost use Rattle.std.specs.Prelude.{◌≡◌, ◌≢◌, ◌↔◌, IfSome, IsTrue, MatchOption, true};
ghost use Rattle.chess.specs.Public.Squares.{Place, IsOnBoard};
ghost use Rattle.chess.specs.Public.San.{kind_said};
ghost use Rattle.chess.specs.Private.SanWords.{said_by, IsAsked, ChangesFile, IsCandidate};
ghost use Rattle.chess.specs.Private.MoveWords.{IsMover, IsStepper, IsTaker, CanStepOver};
ghost use Rattle.chess.specs.Public.Sets.{is_in, HoldsExactly};
ghost use Rattle.chess.specs.declared.board.man.Kind.TheVariants.{Pawn};

use crate::board::{Board, Kind, Man, Square, SquareSet};
use crate::move_text::read::parse::ParsedSan;
use crate::moves::castling::rank_of_pawns;
use crate::moves::pseudo_legal::{promotes, square_ahead};
use crate::position::Position;

/// The squares of the men that may make the move that is said, whether or not their king is then
/// attacked.
#[inline(always)]
pub(crate) fn candidate_origins<B: Board>(position: &Position<B>, said: &ParsedSan) -> SquareSet
    ensures { HoldsExactly (IsCandidate position.now (said_by said.now)) result }
{
    if said.kind() == Kind::Pawn {
        return candidate_pawns(position, said);
    }
    candidate_pieces(position, said)
}

/// The squares of the pieces that may make the move that is said.
#[inline(always)]
pub(crate) fn candidate_pieces<B: Board>(position: &Position<B>, said: &ParsedSan) -> SquareSet
    requires { kind_said said.now.letter ≢ Pawn }
    ensures { HoldsExactly (IsCandidate position.now (said_by said.now)) result }
{
    let man = Man {
        side: position.side(),
        kind: said.kind(),
    };
    if said.promote.is_some() || position.is_occupied_by(man.side, said.target) {
        return SquareSet::new();
    }
    said.target.invariant();
    position.attackers_from(man, said.target, said.origins())
}

/// The squares of the pawns that may make the move that is said.
#[inline(always)]
pub(crate) fn candidate_pawns<B: Board>(position: &Position<B>, said: &ParsedSan) -> SquareSet
    requires { kind_said said.now.letter ≡ Pawn }
    ensures { HoldsExactly (IsCandidate position.now (said_by said.now)) result }
{
    if said.changes_file() {
        return candidate_takers(position, said);
    }
    candidate_steppers(position, said)
}

/// The squares of the pawns that may take as it is said.
#[inline(always)]
pub(crate) fn candidate_takers<B: Board>(position: &Position<B>, said: &ParsedSan) -> SquareSet
    requires pawn { kind_said said.now.letter ≡ Pawn }
    requires takes { ChangesFile (said_by said.now) }
    ensures { HoldsExactly (IsCandidate position.now (said_by said.now)) result }
{
    if !promotes(position.side(), said.target, said.promote) {
        return SquareSet::new();
    }
    position.invariant();
    said.target.invariant();
    position.takers(said.target, said.origins())
}

/// The squares of the pawns that may step as it is said.
#[inline(always)]
pub(crate) fn candidate_steppers<B: Board>(position: &Position<B>, said: &ParsedSan) -> SquareSet
    requires pawn { kind_said said.now.letter ≡ Pawn }
    requires steps { ¬ ChangesFile (said_by said.now) }
    ensures { HoldsExactly (IsCandidate position.now (said_by said.now)) result }
{
    if !promotes(position.side(), said.target, said.promote) {
        return SquareSet::new();
    }
    position.invariant();
    said.target.invariant();
    position.steppers(said.target).common(said.origins())
}

impl<B: Board> Position<B> {
    /// Whether a pawn of the side to move stands on the square.
    #[inline(always)]
    fn has_pawn(&self, square: Square) -> bool
        ensures { IsTrue result ↔ IsMover self.now Pawn square }
    {
        let pawn = Man {
            side: self.side(),
            kind: Kind::Pawn,
        };
        square.invariant();
        self.squares_of(pawn).has(square)
    }

    /// Those of the squares whose pawns may take on the square.
    #[inline(always)]
    fn takers(&self, to: Square, among: SquareSet) -> SquareSet
        ensures { HoldsExactly (λ s. (is_in among s ≡ true) × IsTaker self.now to s) result }
    {
        let pawn = Man {
            side: self.side(),
            kind: Kind::Pawn,
        };
        if !self.is_occupied_by(pawn.side.opposite(), to) && !self.is_en_passant_target(to) {
            return SquareSet::new();
        }
        self.attackers_from(pawn, to, among)
    }

    /// The square of the pawn that may step to the square, as a set: there is one at most.
    #[inline(always)]
    fn steppers(&self, to: Square) -> SquareSet
        ensures { HoldsExactly (IsStepper self.now to) result }
    {
        let mut found = SquareSet::new();
        if let Some(from) = self.stepper(to) {
            found.insert(from);
        }
        found
    }

    /// The square of the only pawn that may step to the square.
    #[inline(always)]
    fn stepper(&self, to: Square) -> Option<Square>
        ensures { MatchOption result ((s : Place) → IsOnBoard s → IsStepper self.now to s → ⊥)
            (λ from. IsOnBoard from × IsStepper self.now to from
            × ((s : Place) → IsOnBoard s → IsStepper self.now to s → s ≡ from)) }
    {
        if !self.is_empty(to) {
            return None;
        }
        to.invariant();
        let back = self.side().opposite();
        let Some(one) = square_ahead(back, to) else {
            return None;
        };
        if self.has_pawn(one) {
            return Some(one);
        }
        let Some(two) = square_ahead(back, one) else {
            return None;
        };
        if self.can_step_over(one, two) {
            return Some(two);
        }
        None
    }

    /// Whether a pawn on that square may step over the next one.
    #[inline(always)]
    fn can_step_over(&self, passed: Square, from: Square) -> bool
        ensures { IsTrue result ↔ CanStepOver self.now passed from }
    {
        from.rank() == rank_of_pawns(self.side()) && self.is_empty(passed) && self.has_pawn(from)
    }
}

impl ParsedSan {
    /// The squares of the file and the rank that are said.
    #[inline(always)]
    fn origins(&self) -> SquareSet
        ensures { HoldsExactly (IsAsked (said_by self.now)) result }
    {
        squares_of_file(self.file).common(squares_of_rank(self.rank))
    }

    /// Whether another file is said than the target's.
    #[inline(always)]
    pub(crate) fn changes_file(&self) -> bool
        ensures { IsTrue result ↔ ChangesFile (said_by self.now) }
    {
        match self.file {
            Some(file) => file != self.target.file(),
            None => false,
        }
    }
}

/// The squares of the file, if one is given.
#[inline(always)]
fn squares_of_file(file: Option<u8>) -> SquareSet
    ensures { HoldsExactly (λ s. IfSome file (λ n. s.file ≡ n)) result }
{
    match file {
        Some(file) => SquareSet::of_file(file),
        None => SquareSet::all(),
    }
}

/// The squares of the rank, if one is given.
#[inline(always)]
fn squares_of_rank(rank: Option<u8>) -> SquareSet
    ensures { HoldsExactly (λ s. IfSome rank (λ n. s.rank ≡ n)) result }
{
    match rank {
        Some(rank) => SquareSet::of_rank(rank),
        None => SquareSet::all(),
    }
}
