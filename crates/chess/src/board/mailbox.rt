//! The plain board: 64 cells, and attacks as the Laws say them.
ghost use Rattle.std.specs.Prelude.{◌≡◌, ◌↔◌, ◌<◌, ◌≤◌, IsTrue, Some, None, length, replicate};
ghost use Rattle.chess.specs.declared.board.direction.Direction.{Direction};
ghost use Rattle.chess.specs.Public.Squares.{IsStraight, gap};
ghost use Rattle.chess.specs.Public.Placements.{man_at};
ghost use Rattle.chess.specs.Public.Attacks.{IsOnRay, IsClearFor, IsNear, IsJump, IsPawnAttack};
ghost use Rattle.chess.specs.Public.Attacks.{Reaches, IsForward};
ghost use Rattle.chess.specs.Private.PseudoAttacks.{IsAttackedFrom};
ghost use Rattle.chess.specs.Public.Sets.{HoldsExactly, IsAttacker};
ghost use Rattle.chess.specs.Private.Cells.{cells_men, cell_of};
ghost use Rattle.chess.specs.Shared.CellFacts.{on_board-men_of};

use crate::board::initial::initial_man;
use crate::board::{Board, Direction, Kind, Man, Side, Square, SquareSet};

/// A board of 64 cells, in the order a1, b1 to h1, a2 and so on.
#[derive(Clone, Copy, Debug)]
pub struct Mailbox {
    cells: [Option<Man>; 64],
    ghost full: { length cells ≡ 64 },
}

impl Board for Mailbox {
    ghost men = { λ b. cells_men b.cells };

    fn empty() -> Self {
        Mailbox { cells: no_cells() }
    }

    fn initial() -> Self {
        let mut board = Mailbox::empty();
        for index in 0u8..64 {
            let square = Square::of_index(index);
            board.put(square, initial_man(square));
        }
        board
    }

    fn at(&self, square: Square) -> Option<Man> {
        self.man(square)
    }

    fn put(&mut self, square: Square, man: Option<Man>) {
        self.cells[square.index() as usize] = man;
    }

    fn move_piece(&mut self, man: Option<Man>, from: Square, capture_square: Square, to: Square) {
        self.put(capture_square, None);
        self.put(from, None);
        self.put(to, man);
    }

    fn is_empty(&self, square: Square) -> bool {
        self.man(square).is_none()
    }

    fn is_occupied_by(&self, side: Side, square: Square) -> bool {
        match self.man(square) {
            Some(man) => man.side == side,
            None => false,
        }
    }

    fn attacked(&self, square: Square, side: Side) -> bool {
        for index in 0u8..64 {
            if self.is_attacked_from(Square::of_index(index), square, side) {
                return true;
            }
        }
        false
    }

    fn attacked_after(
        &self,
        square: Square,
        man: Man,
        from: Square,
        capture_square: Square,
        to: Square,
    ) -> bool {
        let mut after = *self;
        after.move_piece(Some(man), from, capture_square, to);
        after.attacked(square, man.side.opposite())
    }

    fn reach(&self, square: Square) -> SquareSet {
        match self.man(square) {
            Some(man) => self.attacks_from(man, square),
            None => SquareSet::new(),
        }
    }

    fn squares_of(&self, man: Man) -> SquareSet {
        let mut set = SquareSet::new();
        for index in 0u8..64 {
            let square = Square::of_index(index);
            set.insert_if(square, self.holds(square, man));
        }
        set
    }

    fn attackers_from(&self, man: Man, target: Square, among: SquareSet) -> SquareSet {
        let mut set = SquareSet::new();
        for index in 0u8..64 {
            let square = Square::of_index(index);
            set.insert_if(square, self.is_attacker(man, square, target, &among));
        }
        set
    }

    ghost on_board = { λ b s man here. on_board-men_of (cell_of b.cells) s man here };
}

/// Cells that hold no man.
fn no_cells() -> [Option<Man>; 64]
    ensures cells { result ≡ replicate 64 None }
    ensures full { length result ≡ 64 }
{
    [None; 64]
}

/// How far two numbers are apart.
fn distance(a: u8, b: u8) -> u8
    ensures { result ≡ gap a b }
{
    if a < b { b - a } else { a - b }
}

/// Whether the square is a neighbouring one (Laws 3.8.1).
fn is_near(from: Square, to: Square) -> bool
    ensures { IsTrue result ↔ IsNear from to }
{
    let files = distance(from.file(), to.file());
    let ranks = distance(from.rank(), to.rank());
    files <= 1 && ranks <= 1 && (files == 1 || ranks == 1)
}

/// Whether the square is a knight's jump away (Laws 3.6).
fn is_jump(from: Square, to: Square) -> bool
    ensures { IsTrue result ↔ IsJump from to }
{
    let files = distance(from.file(), to.file());
    let ranks = distance(from.rank(), to.rank());
    (files == 1 && ranks == 2) || (files == 2 && ranks == 1)
}

/// Whether a pawn of the side attacks the square (Laws 3.7.3).
fn is_pawn_attack(side: Side, from: Square, to: Square) -> bool
    ensures { IsTrue result ↔ IsPawnAttack side from to }
{
    distance(from.file(), to.file()) == 1 && side.is_forward(from.rank(), to.rank())
}

impl Mailbox {
    /// The man on a square, or none.
    fn man(&self, square: Square) -> Option<Man>
        ensures { result ≡ man_at (cells_men self.now.cells) square }
    {
        let place = square.index() as usize;
        self.cells[place]
    }

    /// Whether that man stands on the square.
    fn holds(&self, square: Square, man: Man) -> bool
        ensures { IsTrue result ↔ (man_at (cells_men self.now.cells) square ≡ Some man) }
    {
        self.man(square) == Some(man)
    }

    /// Whether that man stands on the square, one of those given, and attacks the target.
    fn is_attacker(&self, man: Man, square: Square, target: Square, among: &SquareSet) -> bool
        ensures { IsTrue result
            ↔ IsAttacker (cells_men self.now.cells) man target among.now square }
    {
        among.has(square) && self.holds(square, man) && self.does_attack(man, square, target)
    }

    /// Whether no man stands on the squares that are fewer than so many steps ahead.
    fn is_clear(&self, way: Direction, from: Square, steps: u8) -> bool
        requires { steps ≤ 8 }
        ensures { IsTrue result ↔ IsClearFor (cells_men self.now.cells) way from steps }
    {
        for step in 1..steps {
            let Some(square) = way.ahead(from, step) else {
                continue;
            };
            if self.man(square).is_some() {
                return false;
            }
        }
        true
    }

    /// Whether the second square is on a ray from the first along the way.
    fn runs(&self, way: Direction, from: Square, to: Square) -> bool
        ensures { IsTrue result ↔ IsOnRay (cells_men self.now.cells) way from to }
    {
        let files = distance(from.file(), to.file());
        let ranks = distance(from.rank(), to.rank());
        let steps = if files < ranks { ranks } else { files };
        if steps == 0 || way.ahead(from, steps) != Some(to) {
            return false;
        }
        self.is_clear(way, from, steps)
    }

    /// Whether the square is on a straight ray.
    fn runs_straight(&self, from: Square, to: Square) -> bool
        ensures { IsTrue result
            ↔ ((way : Direction) × IsStraight way
            × IsOnRay (cells_men self.now.cells) way from to) }
    {
        if from.file() == to.file() {
            return if from.rank() < to.rank() {
                self.runs(Direction::North, from, to)
            } else {
                self.runs(Direction::South, from, to)
            };
        }
        if from.rank() != to.rank() {
            return false;
        }
        if from.file() < to.file() {
            self.runs(Direction::East, from, to)
        } else {
            self.runs(Direction::West, from, to)
        }
    }

    /// Whether the square is on a diagonal ray.
    fn runs_diagonally(&self, from: Square, to: Square) -> bool
        ensures { IsTrue result
            ↔ ((way : Direction) × (¬ IsStraight way)
            × IsOnRay (cells_men self.now.cells) way from to) }
    {
        if distance(from.file(), to.file()) != distance(from.rank(), to.rank()) {
            return false;
        }
        match (from.file() < to.file(), from.rank() < to.rank()) {
            (true, true) => self.runs(Direction::NorthEast, from, to),
            (false, true) => self.runs(Direction::NorthWest, from, to),
            (true, false) => self.runs(Direction::SouthEast, from, to),
            (false, false) => self.runs(Direction::SouthWest, from, to),
        }
    }

    /// Whether a man like this on the first square attacks the second.
    fn does_attack(&self, man: Man, from: Square, to: Square) -> bool
        ensures { IsTrue result ↔ Reaches (cells_men self.now.cells) man.side man.kind from to }
    {
        match man.kind {
            Kind::King => is_near(from, to),
            Kind::Queen => self.runs_straight(from, to) || self.runs_diagonally(from, to),
            Kind::Rook => self.runs_straight(from, to),
            Kind::Bishop => self.runs_diagonally(from, to),
            Kind::Knight => is_jump(from, to),
            Kind::Pawn => is_pawn_attack(man.side, from, to),
        }
    }

    /// The squares that a man like this attacks from the square.
    fn attacks_from(&self, man: Man, from: Square) -> SquareSet
        ensures { HoldsExactly (Reaches (cells_men self.now.cells) man.side man.kind from) result }
    {
        let mut set = SquareSet::new();
        for index in 0u8..64 {
            let target = Square::of_index(index);
            set.insert_if(target, self.does_attack(man, from, target));
        }
        set
    }

    /// Whether a man of the side on the first square attacks the second.
    fn is_attacked_from(&self, from: Square, to: Square, side: Side) -> bool
        ensures { IsTrue result ↔ IsAttackedFrom (cells_men self.now.cells) side from to }
    {
        match self.man(from) {
            Some(man) => man.side == side && self.does_attack(man, from, to),
            None => false,
        }
    }
}
