//! The prefilter of packed games: a man who has to stand on known squares, or may not. Games in
//! which he never stands so are passed over.
ghost use Rattle.std.specs.Prelude.{◌≡◌, IsTrue, IfSome, Some, false, option_map};
ghost use Rattle.chess.specs.Public.Placements.{Placement, man_at};
ghost use Rattle.chess.specs.Public.Squares.{IsOnBoard};
ghost use Rattle.pgn_criteria.specs.Private.Items.{IsOf};
ghost use Rattle.pgn_criteria.specs.Private.Layouts.{AllStand, Laid};
ghost use Rattle.pgn_criteria.specs.Public.Prefilters.{codes_in};
ghost use Rattle.pgn_criteria.specs.Private.PrefilterTests.{FitsPrefilter, LaidEither, Nowhere};
ghost use Rattle.pgn_criteria.specs.Private.PrefilterTests.{StaysAs, StaysAt, StaysOn};
ghost use Rattle.pgn_criteria.specs.declared.rank.SquareTest.TheVariants.{This};

use crate::layout::{Asked, Layout};
use crate::prefilter_test::{PrefilterTest, is_met_somewhere};
use crate::rank::{SquareTest, is_of};
use crate::seen::Seen;
use chess::{Bits, Board, Man, Square, SquareSet};
use pgn_game::pack::numbered_man;

/// The squares on which a man has to stand, and those on which he may.
#[derive(Drop)]
pub(crate) struct StandingSquares {
    wanted: SquareSet,
    free: SquareSet,
}

impl PrefilterTest for StandingSquares {
    ghost stands = { StaysOn };

    #[inline(always)]
    fn is_met(&self, squares: &SquareSet, _taken: &SquareSet) -> bool {
        self.wanted.is_within(squares) && squares.is_within(&self.free)
    }
}

/// How a man has to stand, and the squares on which others may.
#[derive(Drop)]
pub(crate) struct PrefilterSite {
    stand: StandingSquares,
    clear: SquareSet,
}

impl PrefilterTest for PrefilterSite {
    ghost stands = { StaysAt };

    #[inline(always)]
    fn is_met(&self, squares: &SquareSet, taken: &SquareSet) -> bool {
        self.stand.is_met(squares, taken) && taken.is_within(&self.clear)
    }
}

/// A man, and where he has to stand: in this way, or in another one if there is one.
#[derive(Drop)]
pub(crate) struct Prefilter {
    man: Man,
    straight: PrefilterSite,
    turned: Option<PrefilterSite>,
    /// Whether no square has to be empty.
    is_bare: bool,
}

impl PrefilterTest for Prefilter {
    ghost stands = { StaysAs };

    #[inline(always)]
    fn is_met(&self, squares: &SquareSet, taken: &SquareSet) -> bool {
        if self.straight.is_met(squares, taken) {
            return true;
        }
        match &self.turned {
            Some(turned) => turned.is_met(squares, taken),
            None => false,
        }
    }
}

impl Asked {
    /// Whether the man has to stand on the square.
    fn names(&self, man: Man) -> bool
        ensures { IsTrue result → self.now.class ≡ This man }
    {
        match self.class {
            SquareTest::This(own) => own == man,
            _ => false,
        }
    }

    /// Whether the man may not stand on the square.
    fn bars(&self, man: Man) -> bool
        ensures { IsTrue result → IsOf self.now.class (Some man) → ⊥ }
    {
        !is_of(self.class, Some(man))
    }

    /// The square.
    fn place(&self) -> Square
        ensures square { result ≡ self.now.square }
        ensures on_board { IsOnBoard result }
    {
        let _file = self.square.file();
        self.square
    }
}

impl StandingSquares {
    /// Adds what is asked of a square, as far as it is said of the man.
    fn add(&mut self, man: Man, asked: &Asked)
        ensures { (men : Placement) → IsOf asked.now.class (man_at men asked.now.square)
            → StaysOn self.old man men → StaysOn self.new man men }
    {
        if asked.names(man) {
            self.wanted.insert(asked.place());
        } else if asked.bars(man) {
            self.free.remove(asked.place());
        }
    }

    /// Adds what is asked of squares.
    fn add_all(&mut self, man: Man, all: &[Asked])
        ensures { (men : Placement) → AllStand men all.now → StaysOn self.old man men
            → StaysOn self.new man men }
    {
        for asked in all {
            self.add(man, asked);
        }
    }

    /// How the man stands where the men stand as is laid out.
    fn new(man: Man, layout: &Layout) -> Self
        ensures { (men : Placement) → Laid men layout.now → StaysOn result man men }
    {
        let mut stand = StandingSquares {
            wanted: SquareSet::new(),
            free: layout.free(),
        };
        stand.add_all(man, layout.asked());
        stand.add_all(man, layout.barred());
        stand
    }
}

impl PrefilterSite {
    /// How the man stands where the men stand as is laid out, and where others do.
    fn new(man: Man, layout: &Layout) -> Self
        ensures { (men : Placement) → Laid men layout.now → StaysAt result man men }
    {
        PrefilterSite {
            stand: StandingSquares::new(man, layout),
            clear: layout.free(),
        }
    }
}

impl Prefilter {
    /// How the man stands where the men stand as one of these lays out.
    fn new(man: Man, straight: &Layout, turned: Option<&Layout>) -> Self
        ensures { (men : Placement)
            → LaidEither men straight.now (option_map (λ layout. layout.now) turned.entry)
            → FitsPrefilter result men }
    {
        let other = match turned {
            Some(layout) => Some(PrefilterSite::new(man, layout)),
            None => None,
        };
        Prefilter {
            man,
            straight: PrefilterSite::new(man, straight),
            turned: other,
            is_bare: straight.asks_no_empty(),
        }
    }

    /// Whether the man stands as he has to, as far as his own squares tell it.
    #[inline(always)]
    pub(crate) fn may_be_met<S: Seen>(&self, position: &S) -> bool
        ensures { result ≡ false → FitsPrefilter self.now (S.men position.now) → ⊥ }
    {
        let squares = position.squares_with(self.man);
        self.is_met(&squares, &SquareSet::new())
    }

    /// Whether the man may stand as he has to, before the plies or after one of them.
    #[inline(always)]
    pub(crate) fn lets_through<S: Seen>(&self, start: &S, plies: &[u8]) -> bool
        ensures { result ≡ false
            → Nowhere (FitsPrefilter self.now) (S.men start.now) (codes_in plies.now) }
    {
        let squares = start.squares_with(self.man);
        match &self.turned {
            None if self.is_bare => is_met_somewhere(
                &self.straight.stand,
                self.man,
                squares,
                plies,
            ),
            _ => is_met_somewhere(self, self.man, squares, plies),
        }
    }
}

/// The man who has to stand on most squares, and of these the one who may stand on fewest. The men
/// stand as one of these lays out. He is one who does not stand so as games usually begin, if there
/// is one.
pub(crate) fn prefilter_of(straight: &Layout, turned: Option<&Layout>) -> Option<Prefilter>
    ensures { IfSome result (λ prefilter. (men : Placement)
        → LaidEither men straight.now (option_map (λ layout. layout.now) turned.entry)
        → FitsPrefilter prefilter men) }
{
    let initial = Bits::initial();
    let mut best: Option<Prefilter> = None;
    let mut most = 0;
    let mut least = 64;
    for number in 0u8..12 {
        let man = numbered_man(number);
        let prefilter = Prefilter::new(man, straight, turned);
        let wanted = prefilter.straight.stand.wanted.count();
        let free = prefilter.straight.stand.free.count();
        let is_tighter = wanted > most || wanted == most && free < least;
        if is_tighter && !prefilter.is_met(&initial.squares_of(man), &SquareSet::new()) {
            most = wanted;
            least = free;
            best = Some(prefilter);
        }
    }
    best
}
