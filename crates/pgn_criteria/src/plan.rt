//! What the patterns of an alternative ask of squares, laid out once, in whichever way they are
//! asked.
ghost use Rattle.std.specs.Prelude.{◌≡◌, ◌↔◌, [], IsTrue, IfOk, IfSome};
ghost use Rattle.chess.specs.Public.Placements.{Placement};
ghost use Rattle.pgn_criteria.specs.Private.Layouts.{IsRest, Laid};
ghost use Rattle.pgn_criteria.specs.Private.Planning.{AreSound, AreSoundWays, IsSoundPlan};
ghost use Rattle.pgn_criteria.specs.Private.Planning.{AllEither, NoneLaid, Planned, Plans};
ghost use Rattle.pgn_criteria.specs.Public.Mirrors.{FitsEitherWay};
ghost use Rattle.pgn_criteria.specs.Public.Patterns.{FitsPattern};
ghost use Rattle.pgn_criteria.specs.Private.PrefilterTests.{FitsPrefilter, IsPrefilterOf};

use crate::layout::{Layout, Look};
use crate::prefilter::{Prefilter, prefilter_of};
use crate::seen::Seen;
use chess::SquareSet;
use std::alloc::{AllocError, Global};

/// A look at what a pattern asks, and one at what it asks of the men with their files turned.
#[derive(Drop)]
pub(crate) struct Ways {
    straight: Look,
    turned: Look,
}

/// What patterns ask: those that are to fit, those that are to fit the one way or the other, and
/// those that are not to fit.
#[derive(Drop)]
pub(crate) struct Plan {
    layout: Layout,
    ways: Vec<Ways>,
    denied: Vec<Look>,
}

/// What the pattern asks, if it can be laid out.
fn layout_of(alloc: Global, pattern: &[u8]) -> Result<Option<Layout>, AllocError>
    ensures { IfOk result (λ found.
        IfSome found (λ layout. (p : Placement) → Laid p layout ↔ FitsPattern p pattern.now)) }
{
    let mut layout = Layout::new(alloc);
    if !layout.add_pattern(pattern)? {
        return Ok(None);
    }
    Ok(Some(layout))
}

impl Plan {
    /// Nothing is asked.
    pub(crate) fn new(alloc: Global) -> Self
        ensures sound { IsSoundPlan result }
        ensures nothing { (men : Placement) → Planned men result }
    {
        Plan {
            layout: Layout::new(alloc),
            ways: Vec::new(alloc),
            denied: Vec::new(alloc),
        }
    }

    /// Adds a pattern that is to fit. Answers whether all that it asks is planned.
    pub(crate) fn add_pattern(&mut self, pattern: &[u8]) -> Result<bool, AllocError>
        ensures { IfOk result
            (Plans (λ p. FitsPattern p pattern.now) (λ p. Unit {0}) self.old self.new) }
    {
        self.layout.add_pattern(pattern)
    }

    /// Adds a pattern that is to fit as it stands, or with the files turned. Answers whether all
    /// that it asks is planned.
    pub(crate) fn add_ways(&mut self, alloc: Global, pattern: &[u8]) -> Result<bool, AllocError>
        ensures { IfOk result
            (Plans (λ p. FitsEitherWay p pattern.now) (λ p. Unit {0}) self.old self.new) }
    {
        let Some(straight) = layout_of(alloc, pattern)? else {
            return Ok(false);
        };
        let turned = straight.turned(alloc)?;
        self.ways.push(Ways {
            straight: Look::new(straight),
            turned: Look::new(turned),
        })?;
        Ok(true)
    }

    /// Adds a pattern that is not to fit. Answers whether all that this asks is planned.
    pub(crate) fn add_denied(&mut self, alloc: Global, pattern: &[u8]) -> Result<bool, AllocError>
        ensures { IfOk result
            (Plans (λ p. FitsPattern p pattern.now → ⊥) (λ p. Unit {0}) self.old self.new) }
    {
        let Some(layout) = layout_of(alloc, pattern)? else {
            return Ok(false);
        };
        self.denied.push(Look::new(layout))?;
        Ok(true)
    }

    /// Adds a pattern that is to fit neither as it stands nor with the files turned. Answers
    /// whether all that this asks is planned.
    pub(crate) fn add_no_way(&mut self, alloc: Global, pattern: &[u8]) -> Result<bool, AllocError>
        ensures { IfOk result
            (Plans (λ p. FitsEitherWay p pattern.now → ⊥) (λ p. Unit {0}) self.old self.new) }
    {
        let Some(straight) = layout_of(alloc, pattern)? else {
            return Ok(false);
        };
        let turned = straight.turned(alloc)?;
        self.denied.push(Look::new(straight))?;
        self.denied.push(Look::new(turned))?;
        Ok(true)
    }

    /// A man who has to stand on known squares, or may not, where the men stand as is planned.
    pub(crate) fn prefilter(&self) -> Option<Prefilter>
        ensures { IfSome result (IsPrefilterOf self.now) }
    {
        match prefilter_of(&self.layout, None) {
            Some(prefilter) => Some(prefilter),
            None => prefilter_of_ways(&self.ways),
        }
    }

    /// The squares that men may stand on where the patterns that are to fit do.
    pub(crate) fn free(&self) -> SquareSet
        ensures { IsRest self.now.layout.empty result }
    {
        self.layout.free()
    }

    /// Whether the men stand as is planned, where the set is that of the squares that they may
    /// stand on.
    #[inline(always)]
    pub(crate) fn is_met<S: Seen>(&self, free: &SquareSet, position: &S) -> bool
        requires sound { IsSoundPlan self.now }
        requires free { IsRest self.now.layout.empty free.now }
        ensures { IsTrue result ↔ Planned (S.men position.now) self.now }
    {
        self.layout.is_met(free, position) && (self.is_flat() || self.is_met_beyond(position))
    }

    /// Whether patterns that are to fit as they stand are all that is planned.
    #[inline(always)]
    pub(crate) fn is_flat(&self) -> bool
        ensures { IsTrue result → (self.now.ways.items ≡ []) × (self.now.denied.items ≡ []) }
    {
        self.ways.is_empty() && self.denied.is_empty()
    }

    /// Whether the men stand as the other patterns want it.
    #[inline(never)]
    fn is_met_beyond<S: Seen>(&self, position: &S) -> bool
        requires { IsSoundPlan self.now }
        ensures { IsTrue result
            ↔ (AllEither (S.men position.now) self.now.ways.items
            × NoneLaid (S.men position.now) self.now.denied.items) }
    {
        all_either(&self.ways, position) && none_laid(&self.denied, position)
    }
}

/// A man who has to stand on known squares, or may not. The men stand the one way or the other, of
/// each of these.
fn prefilter_of_ways(all: &[Ways]) -> Option<Prefilter>
    ensures { IfSome result (λ prefilter. (men : Placement) → AllEither men all.now
        → FitsPrefilter prefilter men) }
{
    for ways in all {
        if let Some(prefilter) = prefilter_of(ways.straight.layout(), Some(ways.turned.layout())) {
            return Some(prefilter);
        }
    }
    None
}

/// Whether the men stand the one way or the other, of each of these.
#[inline(always)]
fn all_either<S: Seen>(all: &[Ways], position: &S) -> bool
    requires { AreSoundWays all.now }
    ensures { IsTrue result ↔ AllEither (S.men position.now) all.now }
{
    for ways in all {
        if !ways.straight.is_met(position) && !ways.turned.is_met(position) {
            return false;
        }
    }
    true
}

/// Whether the men stand as none of these lays out.
#[inline(always)]
fn none_laid<S: Seen>(all: &[Look], position: &S) -> bool
    requires { AreSound all.now }
    ensures { IsTrue result ↔ NoneLaid (S.men position.now) all.now }
{
    for look in all {
        if look.is_met(position) {
            return false;
        }
    }
    true
}
