//! The plies of a packed game that meet criteria, told on a walk over the codes of its plies.
ghost use Rattle.std.specs.List.{slice_get};
ghost use Rattle.std.specs.Prelude.{◌≡◌, ◌↔◌, ◌⊎◌, ◌+◌, ◌/◌, ◌<◌, ℕ, Bool, List, length, get_or};
ghost use Rattle.std.specs.Prelude.{true, false, map, IsTrue, IfOk, IfSome};
ghost use Rattle.chess.specs.Public.Placements.{Placement};
ghost use Rattle.chess.specs.Public.Positions.{State};
ghost use Rattle.chess.specs.declared.moves.Move.{Move};
ghost use Rattle.pgn_game.specs.Public.CodeLines.{AreLegalMoves};
ghost use Rattle.pgn_game.specs.Public.PlyCodes.{AreCodes};
ghost use Rattle.pgn_game.specs.Public.PackedGames.{PackedGame, IsPacked, FitsRecord};
ghost use Rattle.pgn_game.specs.Public.PackReading.{IsRawOfGame, raw_of};
ghost use Rattle.pgn_game.specs.Public.Replays.{Replay};
ghost use Rattle.pgn_text.specs.Public.GameTexts.{GameText};
ghost use Rattle.pgn_criteria.specs.Public.Meeting.{AreMet, heading_of};
ghost use Rattle.pgn_criteria.specs.Public.Prefilters.{IsPlayedBy, codes_in};
ghost use Rattle.pgn_criteria.specs.Public.Walks.{IsSightOf};
ghost use Rattle.pgn_criteria.specs.Private.Counted.{IsBesidePlies};
ghost use Rattle.pgn_criteria.specs.Private.Marks.{AreMarksOf};
ghost use Rattle.pgn_criteria.specs.Private.SeenPlies.{TellsSeen};
ghost use Rattle.pgn_criteria.specs.Private.Stages.{AllClaims, AllOfSeen, FitsAbout, move_seen};
ghost use Rattle.pgn_criteria.specs.Private.Stages.{stated};
ghost use Rattle.pgn_criteria.specs.Private.Told.{AllAbout, IsAbout, IsBeside, IsTold, SaysAbout};

use crate::alternative::Alternative;
use crate::by_marks::MarkSet;
use crate::coded::told_some_like;
use crate::condition::{MoveClaim, Stated};
use crate::meets::Criteria;
use crate::met::no_plies;
use crate::played::{About, keep_spans};
use crate::seen::Seen;
use crate::told::add_told;
use crate::walk::Walk;
use chess::{Bits, Mailbox};
use pgn_game::pack::RawRecord;
use std::alloc::{AllocError, Global};

/// Whether the marks of positions meet what the alternative says of positions, before the plies and
/// after each of them: the set has those that do.
fn marked_plies(
    alloc: Global,
    alternative: &Alternative,
    marks: MarkSet,
    start: &Walk<Bits>,
    plies: &[u8],
) -> Result<Vec<bool>, AllocError>
    requires { (men : Placement) → AreMarksOf marks.flags (λ turn check stuck.
        AllOfSeen men turn (IsTrue check) (IsTrue stuck) alternative.now.positions) }
    ensures { IfOk result (λ told.
        TellsSeen alternative.now.positions start.now (codes_in plies.now) told.items) }
{
    let mut told = Vec::with_capacity(alloc, plies.len() / 3 + 1)?;
    let mut turn = start.to_move();
    let mut is = marks.has(turn, start.is_checked(), start.is_stuck());
    let mut left = plies;
    loop {
        told.push(is)?;
        let [a, _, _, rest @ ..] = left else {
            return Ok(told);
        };
        turn = turn.opposite();
        is = marks.has_told(turn, *a);
        left = rest;
    }
}

/// Whether what is seen meets what the alternative says of positions, before the plies and after
/// each of them.
fn seen_plies(
    alloc: Global,
    alternative: &Alternative,
    start: &Walk<Bits>,
    plies: &[u8],
) -> Result<Vec<bool>, AllocError>
    ensures { IfOk result (λ told.
        TellsSeen alternative.now.positions start.now (codes_in plies.now) told.items) }
{
    if alternative.is_free_of_positions() {
        return Ok(vec![in alloc; true; plies.len() / 3 + 1]?);
    }
    if let Some(flags) = alternative.position_marks() {
        return marked_plies(alloc, alternative, MarkSet { flags }, start, plies);
    }
    let mut told = Vec::with_capacity(alloc, plies.len() / 3 + 1)?;
    let mut walk = start.copy();
    let mut left = plies;
    loop {
        told.push(alternative.is_met(&walk))?;
        let [a, b, d, rest @ ..] = left else {
            return Ok(told);
        };
        walk.step(*a, *b, *d);
        left = rest;
    }
}

/// Whether the condition is so, if it speaks of the next move or of the last one: of the first by
/// these codes, of a line that the walk shows before it. It is `None` where that is not told.
#[inline(always)]
fn told_about(
    condition: &Stated<MoveClaim<Vec<u8>>>,
    about: About,
    walk: &Walk<Mailbox>,
    left: &[u8],
) -> Option<bool>
    ensures { IfSome result (λ is. (P : State) (moves : List Move) (replay : Replay) (ply : ℕ)
        → IsSightOf P walk.now → AreLegalMoves P moves → AreCodes P moves (codes_in left.now)
        → IsAbout about replay ply P (slice_get moves 0)
        → IsTrue is ↔ SaysAbout about replay ply condition.now.is_denied
        (move_seen (λ text. text.items) condition.now.claim)) }
{
    match about {
        About::Here => None,
        About::Next => match &condition.claim {
            MoveClaim::Next(word) => Some(told_some_like(walk, left, word)? != condition.is_denied),
            _ => Some(true),
        },
        About::Last => match &condition.claim {
            MoveClaim::Played(word) => {
                Some(told_some_like(walk, left, word)? != condition.is_denied)
            }
            _ => Some(true),
        },
    }
}

/// Whether that was so, and all conditions are that speak of the next move, or of the last one. It
/// is `None` where that is not told.
#[inline(always)]
fn stays(
    was: bool,
    conditions: &[Stated<MoveClaim<Vec<u8>>>],
    about: About,
    walk: &Walk<Mailbox>,
    left: &[u8],
) -> Option<bool>
    ensures { IfSome result (λ is. (P : State) (moves : List Move) (replay : Replay) (ply : ℕ)
        → IsSightOf P walk.now → AreLegalMoves P moves → AreCodes P moves (codes_in left.now)
        → IsAbout about replay ply P (slice_get moves 0)
        → IsTrue is ↔ (IsTrue was × AllAbout about replay ply
        (map (stated (move_seen (λ text. text.items))) conditions.now))) }
{
    if !was {
        return Some(false);
    }
    for condition in conditions {
        if !told_about(condition, about, walk, left)? {
            return Some(false);
        }
    }
    Some(true)
}

/// Whether the claim speaks of that.
fn speaks_of(claim: &MoveClaim<Vec<u8>>, about: About) -> bool
    ensures { result ≡ false → (replay : Replay) (ply : ℕ) (denied : Bool)
        → SaysAbout about replay ply denied (move_seen (λ text. text.items) claim.now) }
{
    match (about, claim) {
        (About::Here, MoveClaim::Setup(_)) => true,
        (About::Next, MoveClaim::Next(_)) => true,
        (About::Last, MoveClaim::Played(_)) => true,
        _ => false,
    }
}

/// The conditions, or where none speaks of that, none of them.
fn about_that(
    conditions: &[Stated<MoveClaim<Vec<u8>>>],
    about: About,
) -> &[Stated<MoveClaim<Vec<u8>>>]
    ensures { (replay : Replay) (ply : ℕ)
        → AllAbout about replay ply (map (stated (move_seen (λ text. text.items))) result.now)
        ↔ AllAbout about replay ply
        (map (stated (move_seen (λ text. text.items))) conditions.now) }
{
    for condition in conditions {
        if speaks_of(&condition.claim, about) {
            return conditions;
        }
    }
    &conditions[..0]
}

/// Leaves of the plies that are told those at which is so what the conditions say of the moves
/// after and before them. Answers `false` where that is not told.
fn keep_moves(
    told: &mut [bool],
    conditions: &[Stated<MoveClaim<Vec<u8>>>],
    start: &Walk<Bits>,
    plies: &[u8],
) -> bool
    requires { length told.old ≡ length plies.now / 3 + 1 }
    ensures { result ≡ true → (P : State) (replay : Replay) → IsSightOf P start.now
        → IsPlayedBy P (codes_in plies.now) replay → (ply : ℕ) → IsTold told.new ply
        ↔ (IsTold told.old ply × IsBeside replay ply
        (map (stated (move_seen (λ text. text.items))) conditions.now)) }
{
    if conditions.is_empty() {
        return true;
    }
    let on = about_that(conditions, About::Next);
    let back = about_that(conditions, About::Last);
    let mut walk = start.by_cells();
    let mut left = plies;
    let mut ply = 0usize;
    let Some(is) = stays(told[0], back, About::Last, &walk, &[]) else {
        return false;
    };
    told[0] = is;
    loop {
        let Some(is) = stays(told[ply], on, About::Next, &walk, left) else {
            return false;
        };
        told[ply] = is;
        let [a, b, d, rest @ ..] = left else {
            return true;
        };
        ply += 1;
        let Some(is) = stays(told[ply], back, About::Last, &walk, left) else {
            return false;
        };
        told[ply] = is;
        walk.step(*a, *b, *d);
        left = rest;
    }
}

/// Adds the plies at which all conditions of the alternative hold that it has on plies. Answers
/// `false`, and adds nothing, where that is not known.
fn add_walked(
    alloc: Global,
    met: &mut [bool],
    alternative: &Alternative,
    start: &Walk<Bits>,
    plies: &[u8],
) -> Result<bool, AllocError>
    ensures { IfOk result (λ is. is ≡ true → AllClaims IsBesidePlies alternative.now.moves
        → (P : State) (replay : Replay)
        → IsSightOf P start.now → IsPlayedBy P (codes_in plies.now) replay → (ply : ℕ)
        → ply < length met.old → IsTrue (get_or met.new ply false)
        ↔ (IsTrue (get_or met.old ply false) ⊎ FitsAbout replay alternative.now ply)) }
{
    let mut told = seen_plies(alloc, alternative, start, plies)?;
    if !keep_moves(&mut told, &alternative.moves, start, plies) {
        return Ok(false);
    }
    keep_spans(&mut told, alternative);
    add_told(met, &told);
    Ok(true)
}

impl Criteria {
    /// For each ply of a packed game, from 0 to its last, whether its position meets the criteria.
    /// The walk begins where the game does. No move is asked to be legal, and none is played. What
    /// `next` and `played` say is told from the codes of the plies. It is `None` where an
    /// alternative of which tags, result and the number of plies hold has `moves` or `position`,
    /// and where a word is like the text of a move or not by what distinguishes the man from
    /// others.
    pub fn met_walked<'a>(
        &'a self,
        alloc: Global,
        record: &RawRecord<'a>,
        start: &Walk<Bits>,
    ) -> Result<Option<Vec<bool>>, AllocError>
        requires { IsRawOfGame record.now }
        ensures each { IfOk result (λ told. IfSome told (λ met.
            length met.items ≡ length record.now.plies / 3 + 1)) }
        ensures met { IfOk result (λ told. IfSome told (λ met.
            (game : GameText) (replay : Replay) (packed : PackedGame)
            → IsPacked packed.name packed.number packed.offset game replay packed
            → FitsRecord packed → raw_of packed ≡ record.now → (P : State)
            → IsSightOf P start.now → IsPlayedBy P (codes_in record.now.plies) replay
            → AreMet (heading_of game) replay self.now met.items)) }
    {
        let plies = record.plies();
        let count = plies.len() / 3;
        let mut met = no_plies(alloc, count)?;
        for alternative in &self.alternatives {
            if alternative.is_of_counted(record, count) {
                if !alternative.is_of_seen() {
                    return Ok(None);
                }
                if !add_walked(alloc, &mut met, alternative, start, plies)? {
                    return Ok(None);
                }
            }
        }
        Ok(Some(met))
    }
}
