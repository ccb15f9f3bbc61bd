//! The plies of a game that meet criteria, found while its main line is played.
ghost use Rattle.std.specs.Prelude.{◌≡◌, ◌↔◌, ◌++◌, ◌∷◌, [], ℕ, Bool, Some, IsTrue, IfSome};
ghost use Rattle.std.specs.Prelude.{IfOk, OnOk, MatchResult, map, length};
ghost use Rattle.std.specs.List.{slice_get};
ghost use Rattle.chess.specs.Public.Moves.{IsLegal};
ghost use Rattle.pgn_text.specs.Public.GameTexts.{tag_in};
ghost use Rattle.pgn_game.specs.Public.Faults.{IsFault};
ghost use Rattle.pgn_game.specs.Public.MainLines.{main_words};
ghost use Rattle.pgn_game.specs.Public.Replays.{Replay, IsReplay, fault_of};
ghost use Rattle.pgn_game.specs.Public.Starts.{fen_tag};
ghost use Rattle.pgn_game.specs.declared.replays.replayer.Lines.TheVariants.{Main};
ghost use Rattle.pgn_criteria.specs.Public.Meeting.{Heading, heading_of, AreMet, Meets};
ghost use Rattle.pgn_criteria.specs.Private.Counted.{IsBesidePlies};
ghost use Rattle.pgn_criteria.specs.Private.Stages.{AllClaims, AllOfGame, AreSoMany, EachIs};
ghost use Rattle.pgn_criteria.specs.Private.Stages.{FitsAbout};
ghost use Rattle.pgn_criteria.specs.Private.Stages.{FitsAt, move_seen, stated};
ghost use Rattle.pgn_criteria.specs.Private.Told.{AllAbout, AreTold, FitsBefore, IsAbout, IsSetup};
ghost use Rattle.pgn_criteria.specs.Private.Told.{IsTold, SaysAbout};
ghost use Rattle.pgn_criteria.specs.Private.MoveEnds.{IsSomeLike};
ghost use Rattle.pgn_criteria.specs.declared.played.About.TheVariants.{Next, Last};

use crate::alternative::Alternative;
use crate::condition::{MoveClaim, Stated};
use crate::meets::Criteria;
use crate::met::no_plies;
use crate::moves::is_move_like;
use crate::setup::is_alike;
use crate::spans::{one_if, stands_about};
use crate::told::add_met;
use chess::Move;
use pgn_game::{GameFault, GamePosition, MainLine, count_main_moves, replay_beginning};
use pgn_text::RawGame;
use std::alloc::{AllocError, Global};

/// Of what conditions on moves speak at a ply.
#[derive(Clone, Copy)]
pub(crate) enum About {
    /// Of its position.
    Here,
    /// Of the move that is played from its position.
    Next,
    /// Of the move that led to it, from the position before.
    Last,
}

/// Whether each of them is `position`.
fn are_setups(conditions: &[Stated<MoveClaim<Vec<u8>>>]) -> bool
    ensures { IsTrue result
        ↔ AllClaims IsSetup (map (stated (move_seen (λ text. text.items))) conditions.now) }
{
    for condition in conditions {
        if !matches!(condition.claim, MoveClaim::Setup(_)) {
            return false;
        }
    }
    true
}

/// Whether none of them is `position`.
pub(crate) fn are_beside_plies(conditions: &[Stated<MoveClaim<Vec<u8>>>]) -> bool
    ensures { IsTrue result ↔ AllClaims IsBesidePlies
        (map (stated (move_seen (λ text. text.items))) conditions.now) }
{
    for condition in conditions {
        if matches!(condition.claim, MoveClaim::Setup(_)) {
            return false;
        }
    }
    true
}

/// Whether there is a move from the position, whose standard text without its signs of check and
/// mate is like the word.
fn is_some_like(position: &GamePosition, m: &Option<Move>, word: &[u8]) -> bool
    requires { IfSome m.now (IsLegal position.now) }
    ensures { IsTrue result ↔ IsSomeLike position.now m.now word.now }
{
    match m {
        Some(m) => is_move_like(position, *m, word),
        None => false,
    }
}

/// Whether the condition is so, if it speaks of that: of the position, or of the move from there.
fn is_about(
    condition: &Stated<MoveClaim<Vec<u8>>>,
    about: About,
    position: &GamePosition,
    m: &Option<Move>,
) -> bool
    requires { IfSome m.now (IsLegal position.now) }
    ensures { (replay : Replay) (ply : ℕ) → IsAbout about replay ply position.now m.now
        → IsTrue result ↔ SaysAbout about replay ply condition.now.is_denied
        (move_seen (λ text. text.items) condition.now.claim) }
{
    match about {
        About::Here => match &condition.claim {
            MoveClaim::Setup(setup) => is_alike(setup, position) != condition.is_denied,
            _ => true,
        },
        About::Next => match &condition.claim {
            MoveClaim::Next(word) => is_some_like(position, m, word) != condition.is_denied,
            _ => true,
        },
        About::Last => match &condition.claim {
            MoveClaim::Played(word) => is_some_like(position, m, word) != condition.is_denied,
            _ => true,
        },
    }
}

/// Whether all conditions are so that speak of that: of the position, or of the move from there.
pub(crate) fn are_about(
    conditions: &[Stated<MoveClaim<Vec<u8>>>],
    about: About,
    position: &GamePosition,
    m: &Option<Move>,
) -> bool
    requires { IfSome m.now (IsLegal position.now) }
    ensures { (replay : Replay) (ply : ℕ) → IsAbout about replay ply position.now m.now
        → IsTrue result ↔ AllAbout about replay ply
        (map (stated (move_seen (λ text. text.items))) conditions.now) }
{
    for condition in conditions {
        if !is_about(condition, about, position, m) {
            return false;
        }
    }
    true
}

/// Whether the position meets what the conditions say of it, where it is known whether the move
/// that led to it does.
#[inline(always)]
pub(crate) fn fits_before(
    alternative: &Alternative,
    is_reached: bool,
    position: &GamePosition,
) -> bool
    ensures { (replay : Replay) (ply : ℕ) → slice_get replay.positions ply ≡ Some position.now
        → (IsTrue is_reached ↔ AllAbout Last replay ply alternative.now.moves)
        → IsTrue result ↔ FitsBefore replay alternative.now ply }
{
    if !is_reached {
        return false;
    }
    if !alternative.is_met(position) {
        return false;
    }
    are_about(&alternative.moves, About::Here, position, &None)
}

/// Adds whether one more ply fits.
#[inline(always)]
fn add_ply(fits: &mut Vec<bool>, is: bool) -> Result<(), AllocError>
    ensures { OnOk result (fits.new.items ≡ fits.old.items ++ is ∷ []) }
{
    fits.push(is)?;
    Ok(())
}

/// Adds whether one more ply fits, of which it is known whether what the conditions say of its
/// position, and of the move that led to it, is so.
fn add_turn(
    fits: &mut Vec<bool>,
    alternative: &Alternative,
    is_met: bool,
    position: &GamePosition,
    next: &Option<Move>,
) -> Result<(), AllocError>
    requires { IfSome next.now (IsLegal position.now) }
    ensures { OnOk result ((is : Bool) × (fits.new.items ≡ fits.old.items ++ is ∷ [])
        × ((replay : Replay) (ply : ℕ) → IsAbout Next replay ply position.now next.now
        → (IsTrue is_met ↔ FitsBefore replay alternative.now ply)
        → IsTrue is ↔ FitsAt replay alternative.now ply)) }
{
    if !is_met {
        add_ply(fits, false)?;
        return Ok(());
    }
    add_ply(
        fits,
        are_about(&alternative.moves, About::Next, position, next),
    )?;
    Ok(())
}

/// Plays the main line of the game, and answers for each of its plies whether what the conditions
/// say of it is so; or the fault of the main line. No position is kept, and there is room for so
/// many plies from the first.
#[inline(never)]
fn fitting_plies<'a>(
    alloc: Global,
    alternative: &Alternative,
    game: &RawGame<'a>,
    plies: usize,
) -> Result<Vec<bool>, GameFault<'a>>
    ensures { MatchResult result
        (λ fits. (replay : Replay)
        × IsReplay Main (tag_in fen_tag game.now.tags) game.now.elements replay
        × (length fits.items ≡ length replay.positions)
        × AreTold (FitsAt replay alternative.now) fits.items)
        (λ fault.
        IfSome (fault_of fault) (IsFault Main (tag_in fen_tag game.now.tags) game.now.elements)) }
{
    let moves = &alternative.moves;
    let is_of_positions = are_setups(moves);
    let mut line = MainLine::begin(alloc, game)?;
    let mut fits = Vec::with_capacity(alloc, plies.saturating_add(1))?;
    let mut here = line.position().copy();
    let mut is_reached = are_about(moves, About::Last, &here, &None);
    loop {
        let is_met = fits_before(alternative, is_reached, line.position());
        if is_of_positions {
            add_ply(&mut fits, is_met)?;
            if !line.advance()? {
                return Ok(fits);
            }
            continue;
        }
        let next = line.advance_from(&mut here)?;
        add_turn(&mut fits, alternative, is_met, &here, &next)?;
        if next.is_none() {
            return Ok(fits);
        }
        is_reached = are_about(moves, About::Last, &here, &next);
    }
}

/// How many plies are told.
fn count_told(told: &[bool]) -> u128
    ensures { AreSoMany (IsTold told.now) result }
{
    let mut many = 0u128;
    let mut ply = told.len();
    while ply > 0 {
        ply -= 1;
        many += one_if(told[ply]);
    }
    many
}

/// Leaves of the plies that fit those at which `for` and `count` are met.
pub(crate) fn keep_spans(fits: &mut [bool], alternative: &Alternative)
    ensures { (replay : Replay) → AreTold (FitsAt replay alternative.now) fits.old
        → AreTold (FitsAbout replay alternative.now) fits.new }
{
    if alternative.is_free_of_spans() {
        return;
    }
    let many = count_told(fits);
    if many == 0 {
        return;
    }
    let mut run = 0u128;
    let mut ply = fits.len();
    while ply > 0 {
        ply -= 1;
        run = if fits[ply] { run + 1 } else { 0 };
        fits[ply] = stands_about(alternative, run, many);
    }
}

/// For each ply of the main line of the game, which has so many, whether it meets some of the
/// alternatives, of which what they say of the game is so; or the fault of the main line. No
/// position is kept.
fn met_by_left<'a>(
    left: &[&Alternative],
    alloc: Global,
    game: &RawGame<'a>,
    plies: usize,
) -> Result<Vec<bool>, GameFault<'a>>
    requires { plies ≡ length (main_words game.now.elements 0) }
    ensures { MatchResult result
        (λ met. (replay : Replay)
        × IsReplay Main (tag_in fen_tag game.now.tags) game.now.elements replay
        × ((heading : Heading) → EachIs (AllOfGame heading replay) (map (λ a. a.now) left.now)
        → AreMet heading replay (map (λ a. a.now) left.now) met.items))
        (λ fault.
        IfSome (fault_of fault) (IsFault Main (tag_in fen_tag game.now.tags) game.now.elements)) }
{
    if let [only] = left {
        let mut met = fitting_plies(alloc, only, game, plies)?;
        keep_spans(&mut met, only);
        return Ok(met);
    }
    let mut met = no_plies(alloc, plies)?;
    let mut at = 0;
    while left.len() - at > 64 {
        add_met(&mut met, &left[at..at + 64], alloc, game)?;
        at += 64;
    }
    add_met(&mut met, &left[at..], alloc, game)?;
    Ok(met)
}

impl Criteria {
    /// For each ply of the main line of the game, from 0 to its last, whether its position meets
    /// the criteria; or the fault of the main line. No position is kept but those before the first
    /// moves of which conditions speak.
    pub fn met_of_game<'a>(
        &'a self,
        alloc: Global,
        game: &RawGame<'a>,
    ) -> Result<Vec<bool>, GameFault<'a>>
        ensures { MatchResult result
            (λ met. (replay : Replay)
            × IsReplay Main (tag_in fen_tag game.now.tags) game.now.elements replay
            × AreMet (heading_of game.now) replay self.now met.items)
            (λ fault.
            IfSome (fault_of fault)
            (IsFault Main (tag_in fen_tag game.now.tags) game.now.elements)) }
    {
        let plies = count_main_moves(game.elements());
        let beginning = replay_beginning(alloc, game, self.most_words())?;
        let left = self.left_of_begun(alloc, game, plies, &beginning)?;
        met_by_left(&left, alloc, game, plies)
    }
}
