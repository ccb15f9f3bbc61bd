//! What patterns ask of squares that they name, laid out once.
ghost use Rattle.std.specs.Prelude.{◌≡◌, ◌↔◌, ◌≤◌, ◌<◌, ◌+◌, ◌∷◌, List, Option, IsTrue, IfOk};
ghost use Rattle.std.specs.Prelude.{IfSome, OnOk, MatchOption, length, drop, true};
ghost use Rattle.chess.specs.Public.Fen.{row};
ghost use Rattle.chess.specs.Public.Placements.{Placement, man_at};
ghost use Rattle.chess.specs.Public.Sets.{is_in, no_places, HoldsExactly};
ghost use Rattle.chess.specs.Public.Squares.{IsOnBoard};
ghost use Rattle.chess.specs.declared.board.man.Kind.{Kind};
ghost use Rattle.chess.specs.declared.board.man.Side.{Side};
ghost use Rattle.pgn_criteria.specs.Private.Items.{IsOf};
ghost use Rattle.pgn_criteria.specs.declared.rank.SquareTest.TheVariants.{Not, Other};
ghost use Rattle.pgn_criteria.specs.Private.Layouts.{IsRest, EachFrom, AllStand, Laid, Lays};
ghost use Rattle.pgn_criteria.specs.Private.Layouts.{KindWithin, NoneOf};
ghost use Rattle.pgn_criteria.specs.Public.Mirrors.{beside, flipped_men};
ghost use Rattle.pgn_criteria.specs.Public.Patterns.{CanBeSplit, FitsPattern};
ghost use Rattle.pgn_criteria.specs.Private.Items.{items_of};

use crate::cut::next_part;
use crate::rank::{Item, Kinds, Men, SquareTest, is_of, next_item, size_of};
use crate::seen::Seen;
use chess::{Kind, Man, Side, Square, SquareSet};
use std::alloc::{AllocError, Global};

/// The square on the same rank and as far from the other edge.
fn square_beside(square: Square) -> Square
    ensures square { result ≡ beside square }
    ensures on_board { IsOnBoard square }
{
    let Some(other) = Square::new(9 - square.file(), square.rank()) else {
        return square;
    };
    other
}

/// A square, and what must stand on it.
#[derive(Drop)]
pub(crate) struct Asked {
    pub(crate) class: SquareTest,
    pub(crate) square: Square,
}

impl Asked {
    /// The same, asked of the square beside.
    fn beside(&self) -> Self
        ensures class { result.class ≡ self.now.class }
        ensures square { result.square ≡ beside self.now.square }
        ensures on_board { IsOnBoard self.now.square }
    {
        Asked {
            class: self.class,
            square: square_beside(self.square),
        }
    }

    /// Whether that stands on the square.
    #[inline(always)]
    fn is_met<S: Seen>(&self, position: &S) -> bool
        ensures { IsTrue result
            ↔ IsOf self.now.class (man_at (S.men position.now) self.now.square) }
    {
        position.invariant();
        match self.class {
            SquareTest::This(man) => position.squares_with(man).has(self.square),
            SquareTest::Not(man) => !position.squares_with(man).has(self.square),
            class => is_of(class, position.man_on(self.square)),
        }
    }
}

/// Squares with what must stand on them, squares with a man who must not, and squares that must be
/// empty.
#[derive(Drop)]
pub(crate) struct Layout {
    asked: Vec<Asked>,
    barred: Vec<Asked>,
    empty: SquareSet,
}

/// Whether on each of the squares stands what must stand there.
#[inline(always)]
fn all_stand<S: Seen>(all: &[Asked], position: &S) -> bool
    ensures { IsTrue result ↔ AllStand (S.men position.now) all.now }
{
    for asked in all {
        if !asked.is_met(position) {
            return false;
        }
    }
    true
}

/// What asks of men whose files are turned what these ask of the men.
fn all_beside(alloc: Global, all: &[Asked]) -> Result<Vec<Asked>, AllocError>
    ensures { IfOk result (λ own. (men : Placement)
        → AllStand men own.items ↔ AllStand (flipped_men men) all.now) }
{
    let mut own = Vec::new(alloc);
    for asked in all {
        own.push(asked.beside())?;
    }
    Ok(own)
}

/// The squares beside those of the set.
fn squares_beside(squares: &SquareSet) -> SquareSet
    ensures { HoldsExactly (λ s. is_in squares.now (beside s) ≡ true) result }
{
    let mut turned = SquareSet::new();
    for rank in 1u8..=8 {
        for file in 1u8..=8 {
            if let Some(square) = Square::new(file, rank)
                && squares.has(square_beside(square))
            {
                turned.insert(square);
            }
        }
    }
    turned
}

impl Layout {
    /// No squares.
    pub(crate) fn new(alloc: Global) -> Self
        ensures { (men : Placement) → Laid men result }
    {
        Layout {
            asked: Vec::new(alloc),
            barred: Vec::new(alloc),
            empty: SquareSet::new(),
        }
    }

    /// Adds a square on which a man of the side must not stand, if that is so.
    fn bar(
        &mut self,
        is_barred: bool,
        side: Side,
        kind: Kind,
        square: Square,
    ) -> Result<(), AllocError>
        ensures { OnOk result
            (Lays (λ p. IsTrue is_barred
            → IsOf (Not (record { side = side; kind = kind })) (man_at p square)) (λ p.
            Unit {0}) self.old self.new true) }
    {
        if is_barred {
            let class = SquareTest::Not(Man { side, kind });
            self.barred.push(Asked { class, square })?;
        }
        Ok(())
    }

    /// Adds a square on which no man of these kinds must stand.
    fn bar_kinds(&mut self, side: Side, kinds: Kinds, square: Square) -> Result<(), AllocError>
        ensures { OnOk result
            (Lays (λ p. NoneOf side kinds (man_at p square)) (λ p.
            Unit {0}) self.old self.new true) }
    {
        self.bar(kinds.pawn, side, Kind::Pawn, square)?;
        self.bar(kinds.knight, side, Kind::Knight, square)?;
        self.bar(kinds.bishop, side, Kind::Bishop, square)?;
        self.bar(kinds.rook, side, Kind::Rook, square)?;
        self.bar(kinds.queen, side, Kind::Queen, square)?;
        self.bar(kinds.king, side, Kind::King, square)?;
        Ok(())
    }

    /// Adds a square on which none of the men must stand.
    fn bar_men(&mut self, men: Men, square: Square) -> Result<(), AllocError>
        ensures { OnOk result
            (Lays (λ p. IsOf (Other men) (man_at p square)) (λ p.
            Unit {0}) self.old self.new true) }
    {
        self.bar_kinds(Side::White, men.white, square)?;
        self.bar_kinds(Side::Black, men.black, square)?;
        Ok(())
    }

    /// Adds a square and what must stand on it.
    fn add(&mut self, class: SquareTest, square: Square) -> Result<(), AllocError>
        ensures { OnOk result
            (Lays (λ p. IsOf class (man_at p square)) (λ p. Unit {0}) self.old self.new true) }
    {
        match class {
            SquareTest::Any => Ok(()),
            SquareTest::Empty => {
                self.empty.insert(square);
                Ok(())
            }
            SquareTest::Other(men) => self.bar_men(men, square),
            _ => {
                self.asked.push(Asked { class, square })?;
                Ok(())
            }
        }
    }

    /// Adds so many squares of the class, which stand after so many of the rank.
    fn add_run(
        &mut self,
        class: SquareTest,
        count: u8,
        before: u8,
        rank: u8,
    ) -> Result<(), AllocError>
        requires room { before + count ≤ 8 }
        requires low { 1 ≤ rank }
        requires high { rank ≤ 8 }
        ensures { OnOk result
            (Lays (λ p. EachFrom p class rank before 0 count) (λ p.
            Unit {0}) self.old self.new true) }
    {
        for step in 0..count {
            if let Some(square) = Square::new(before + step + 1, rank) {
                self.add(class, square)?;
            }
        }
        Ok(())
    }

    /// Adds what the first of some items asks, where so many squares of the rank are taken. Answers
    /// the items after it, and how many squares are taken then, if that is known.
    fn add_item<'a>(
        &mut self,
        items: &'a [u8],
        taken: u8,
        rank: u8,
    ) -> Result<Option<(&'a [u8], u8)>, AllocError>
        requires within { taken ≤ 8 }
        requires low { 1 ≤ rank }
        requires high { rank ≤ 8 }
        ensures { IfOk result (λ next.
            MatchOption next (self.new ≡ self.old) (λ next. (next.1 ≤ 8)
            × (length next.0.now < length items.now)
            × Lays (λ p. CanBeSplit (items_of items.now) (drop taken (row p rank))) (λ p.
            CanBeSplit (items_of next.0.now) (drop next.1 (row p rank)))
            self.old self.new true)) }
    {
        match next_item(items) {
            Some((Item::Run(class, count), after)) => {
                if 8 - taken < count {
                    return Ok(None);
                }
                self.add_run(class, count, taken, rank)?;
                Ok(Some((after, taken + count)))
            }
            Some((Item::Many, after)) => {
                let Some(size) = size_of(after) else {
                    return Ok(None);
                };
                if 8 - size < taken {
                    return Ok(None);
                }
                Ok(Some((after, 8 - size)))
            }
            None => Ok(None),
        }
    }

    /// Adds what the items of a rank ask. Answers whether it is all that they ask.
    fn add_rank(&mut self, items: &[u8], rank: u8) -> Result<bool, AllocError>
        requires low { 1 ≤ rank }
        requires high { rank ≤ 8 }
        ensures { IfOk result
            (Lays (λ p. CanBeSplit (items_of items.now) (row p rank)) (λ p.
            Unit {0}) self.old self.new) }
    {
        let mut taken = 0u8;
        let mut rest = items;
        while !rest.is_empty() {
            let Some((after, next)) = self.add_item(rest, taken, rank)? else {
                return Ok(false);
            };
            taken = next;
            rest = after;
        }
        Ok(taken == 8)
    }

    /// Adds what a pattern asks. Answers whether it is all that it asks.
    pub(crate) fn add_pattern(&mut self, pattern: &[u8]) -> Result<bool, AllocError>
        ensures { IfOk result
            (Lays (λ p. FitsPattern p pattern.now) (λ p. Unit {0}) self.old self.new) }
    {
        let mut rest = pattern;
        let mut is_all = true;
        for step in 0u8..8 {
            let (items, after) = next_part(b'/', rest);
            is_all = self.add_rank(items, 8 - step)? && is_all;
            let Some(after) = after else {
                return Ok(is_all && step == 7);
            };
            rest = after;
        }
        Ok(false)
    }

    /// What is laid out for men whose files are turned.
    pub(crate) fn turned(&self, alloc: Global) -> Result<Self, AllocError>
        ensures { IfOk result (λ own. (men : Placement)
            → Laid men own ↔ Laid (flipped_men men) self.now) }
    {
        let asked = all_beside(alloc, &self.asked)?;
        let barred = all_beside(alloc, &self.barred)?;
        let empty = squares_beside(&self.empty);
        Ok(Layout {
            asked,
            barred,
            empty,
        })
    }

    /// The squares on which certain men must stand.
    pub(crate) fn asked(&self) -> &[Asked]
        ensures { result.now ≡ self.now.asked.items }
    {
        &self.asked
    }

    /// The squares on which certain men must not stand.
    pub(crate) fn barred(&self) -> &[Asked]
        ensures { result.now ≡ self.now.barred.items }
    {
        &self.barred
    }

    /// Whether no square has to be empty.
    pub(crate) fn asks_no_empty(&self) -> bool
        ensures { IsTrue result ↔ (self.now.empty ≡ no_places) }
    {
        self.empty.is_empty()
    }

    /// The squares that men may stand on.
    pub(crate) fn free(&self) -> SquareSet
        ensures { IsRest self.now.empty result }
    {
        let mut free = SquareSet::new();
        for rank in 1u8..=8 {
            for file in 1u8..=8 {
                if let Some(square) = Square::new(file, rank)
                    && !self.empty.has(square)
                {
                    free.insert(square);
                }
            }
        }
        free
    }

    /// Whether the men stand as is laid out, where the set is that of the squares that they may
    /// stand on.
    #[inline(always)]
    pub(crate) fn is_met<S: Seen>(&self, free: &SquareSet, position: &S) -> bool
        requires { IsRest self.now.empty free.now }
        ensures { IsTrue result ↔ Laid (S.men position.now) self.now }
    {
        if !all_stand(&self.asked, position) || !all_stand(&self.barred, position) {
            return false;
        }
        position.invariant();
        self.empty.is_empty() || are_within(position, free)
    }
}

/// What is laid out, and the squares that men may stand on then.
#[derive(Drop)]
pub(crate) struct Look {
    layout: Layout,
    free: SquareSet,
}

impl Look {
    /// A look at what is laid out.
    pub(crate) fn new(layout: Layout) -> Self
        ensures layout { result.layout ≡ layout }
        ensures free { IsRest result.layout.empty result.free }
    {
        let free = layout.free();
        Look { layout, free }
    }

    /// What is laid out.
    pub(crate) fn layout(&self) -> &Layout
        ensures { result.now ≡ self.now.layout }
    {
        &self.layout
    }

    /// Whether the men stand as is laid out.
    #[inline(always)]
    pub(crate) fn is_met<S: Seen>(&self, position: &S) -> bool
        requires { IsRest self.now.layout.empty self.now.free }
        ensures { IsTrue result ↔ Laid (S.men position.now) self.now.layout }
    {
        self.layout.is_met(&self.free, position)
    }
}

/// Whether that man stands on squares of the set alone.
fn is_within<S: Seen>(position: &S, side: Side, kind: Kind, free: &SquareSet) -> bool
    ensures { IsTrue result ↔ KindWithin (S.men position.now) free.now side kind }
{
    position.invariant();
    position.squares_with(Man { side, kind }).is_within(free)
}

/// Whether the side's men stand on squares of the set alone.
fn is_side_within<S: Seen>(position: &S, side: Side, free: &SquareSet) -> bool
    ensures { IsTrue result ↔ ((kind : Kind) → KindWithin (S.men position.now) free.now side kind) }
{
    is_within(position, side, Kind::Pawn, free)
        && is_within(position, side, Kind::Knight, free)
        && is_within(position, side, Kind::Bishop, free)
        && is_within(position, side, Kind::Rook, free)
        && is_within(position, side, Kind::Queen, free)
        && is_within(position, side, Kind::King, free)
}

/// Whether all men stand on squares of the set.
fn are_within<S: Seen>(position: &S, free: &SquareSet) -> bool
    ensures { IsTrue result
        ↔ ((side : Side) (kind : Kind) → KindWithin (S.men position.now) free.now side kind) }
{
    is_side_within(position, Side::White, free) && is_side_within(position, Side::Black, free)
}
