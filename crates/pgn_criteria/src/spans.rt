//! What `for` and `count` say of the plies at which the other conditions of an alternative fit.
ghost use Rattle.std.specs.Prelude.{◌≡◌, ◌↔◌, ◌⊎◌, ◌+◌, ◌≤◌, ◌<◌, if◌then◌else◌, ℕ, map, length};
ghost use Rattle.std.specs.Prelude.{get_or, false, IsTrue, IfSome};
ghost use Rattle.pgn_criteria.specs.Private.Stages.{AreLegal, FitsAt, FitsAbout, IsRun, AreSoMany};
ghost use Rattle.pgn_criteria.specs.Private.Stages.{AreNoCounts, SpanStands, SpansStand};
ghost use Rattle.pgn_criteria.specs.Private.Stages.{IsFirstBefore};

use crate::alternative::Alternative;
use crate::compare::compares;
use crate::condition::SpanClaim;
use crate::meets::fits_at;
use pgn_game::Replayed;

/// Whether none of them is `count`.
pub(crate) fn are_no_counts(claims: &[SpanClaim]) -> bool
    ensures { IsTrue result ↔ AreNoCounts claims.now }
{
    for claim in claims {
        if let SpanClaim::Count { .. } = claim {
            return false;
        }
    }
    true
}

/// Whether the claim is met at a ply that begins a run of so many plies that fit, where so many fit
/// in all.
fn span_stands(claim: &SpanClaim, run: u128, many: u128) -> bool
    ensures { IsTrue result ↔ SpanStands run many claim.now }
{
    match claim {
        SpanClaim::For(count) => *count as u128 <= run,
        SpanClaim::Count { comparison, count } => compares(*comparison, many, *count as u128),
    }
}

/// Whether `for` and `count` are met at a ply that begins a run of so many plies that fit, where so
/// many fit in all.
pub(crate) fn spans_stand(claims: &[SpanClaim], run: u128, many: u128) -> bool
    ensures { IsTrue result ↔ SpansStand run many claims.now }
{
    for claim in claims {
        if !span_stands(claim, run, many) {
            return false;
        }
    }
    true
}

/// How many plies one after the other fit, from this one on.
fn run_from(alternative: &Alternative, replayed: &Replayed, plies: usize) -> u128
    requires { AreLegal replayed.now }
    ensures { IsRun (FitsAt replayed.now alternative.now) plies result }
{
    if plies > replayed.plies() {
        return 0;
    }
    let mut run = 0u128;
    let mut at = plies;
    while fits_at(alternative, replayed, at) {
        run += 1;
        if at == replayed.plies() {
            return run;
        }
        at += 1;
    }
    run
}

/// 1 for what is so, and 0 for what is not.
pub(crate) fn one_if(is: bool) -> u128
    ensures { result ≡ (if is then 1 else 0) }
{
    if is { 1 } else { 0 }
}

/// How many plies of the game fit.
fn count_fitting(alternative: &Alternative, replayed: &Replayed) -> u128
    requires { AreLegal replayed.now }
    ensures { AreSoMany (FitsAt replayed.now alternative.now) result }
{
    let mut many = 0u128;
    let mut plies = replayed.plies();
    loop {
        many += one_if(fits_at(alternative, replayed, plies));
        if plies == 0 {
            return many;
        }
        plies -= 1;
    }
}

/// How many plies of the game fit, where that is asked for.
fn many_of(alternative: &Alternative, replayed: &Replayed) -> u128
    requires { AreLegal replayed.now }
    ensures { AreNoCounts alternative.now.spans
        ⊎ AreSoMany (FitsAt replayed.now alternative.now) result }
{
    if alternative.is_free_of_counts() {
        return 0;
    }
    count_fitting(alternative, replayed)
}

/// How many plies one after the other fit, from this one on: so many, if that is known already.
fn run_on(alternative: &Alternative, replayed: &Replayed, plies: usize, known: Option<u128>) -> u128
    requires legal { AreLegal replayed.now }
    requires known { IfSome known (IsRun (FitsAt replayed.now alternative.now) plies) }
    ensures { IsRun (FitsAt replayed.now alternative.now) plies result }
{
    match known {
        Some(run) => run,
        None => run_from(alternative, replayed, plies),
    }
}

/// Whether all that the conditions say is so of a ply that begins a run of so many plies that fit,
/// where so many fit in all.
pub(crate) fn stands_about(alternative: &Alternative, run: u128, many: u128) -> bool
    ensures { IsTrue result ↔ ((0 < run) × SpansStand run many alternative.now.spans) }
{
    run > 0 && alternative.spans_stand(run, many)
}

/// Whether all that the conditions say of plies is so of this one.
pub(crate) fn fits_about(alternative: &Alternative, replayed: &Replayed, plies: usize) -> bool
    requires legal { AreLegal replayed.now }
    requires within { plies ≤ length replayed.now.played }
    ensures { IsTrue result ↔ FitsAbout replayed.now alternative.now plies }
{
    if alternative.is_free_of_spans() {
        return fits_at(alternative, replayed, plies);
    }
    let run = run_from(alternative, replayed, plies);
    let many = many_of(alternative, replayed);
    stands_about(alternative, run, many)
}

/// The least ply from one on and before another at which all that the conditions say of plies is
/// so. Each ply is tried at most twice.
pub(crate) fn first_about(
    alternative: &Alternative,
    replayed: &Replayed,
    from: usize,
    end: usize,
) -> Option<usize>
    requires { AreLegal replayed.now }
    ensures { IsFirstBefore (FitsAbout replayed.now alternative.now) from end result }
{
    let many = many_of(alternative, replayed);
    let mut known = None;
    let mut plies = from;
    while plies < end && plies <= replayed.plies() {
        let run = run_on(alternative, replayed, plies, known);
        if stands_about(alternative, run, many) {
            return Some(plies);
        }
        known = run.checked_sub(1);
        plies += 1;
    }
    None
}

/// Adds the plies at which all that the conditions say of plies is so. Each ply is tried at most
/// twice, however long the runs are.
pub(crate) fn add_plies(met: &mut [bool], alternative: &Alternative, replayed: &Replayed)
    requires { AreLegal replayed.now }
    ensures { (ply : ℕ) → ply < length met.old → IsTrue (get_or met.new ply false)
        ↔ (IsTrue (get_or met.old ply false) ⊎ FitsAbout replayed.now alternative.now ply) }
{
    let many = many_of(alternative, replayed);
    let mut known = None;
    for ply in 0..met.len() {
        let run = run_on(alternative, replayed, ply, known);
        met[ply] = met[ply] || stands_about(alternative, run, many);
        known = run.checked_sub(1);
    }
}
