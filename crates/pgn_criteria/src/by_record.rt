//! Packed games of which the record alone tells that they meet no criteria, with no move played: by
//! the number of their plies, and by where men arrive.
ghost use Rattle.std.specs.Prelude.{◌≡◌, ◌↔◌, ℕ, IsTrue, IfSome, map, false};
ghost use Rattle.std.specs.List.{AllByRecursion};
ghost use Rattle.chess.specs.Public.Positions.{State};
ghost use Rattle.pgn_game.specs.Public.PlyCodes.{code_of};
ghost use Rattle.pgn_game.specs.Public.Replays.{Replay};
ghost use Rattle.pgn_criteria.specs.Public.Meeting.{AllTaken, IsSoOfMoves};
ghost use Rattle.pgn_criteria.specs.Public.MoveTexts.{GoesOnBy};
ghost use Rattle.pgn_criteria.specs.Public.Prefilters.{IsPlayedBy, codes_in};
ghost use Rattle.pgn_criteria.specs.Private.Arrivals.{BeginsBy, EndsWithSquare, IsArrival};
ghost use Rattle.pgn_criteria.specs.Private.Arrivals.{IsFirstByte, IsSuchPly, Tells};
ghost use Rattle.pgn_criteria.specs.Private.Counted.{AllOfCounted, IsFreeOfWords, SaysOfCounted};
ghost use Rattle.pgn_criteria.specs.Private.Stages.{AllClaims, IsGood, game_seen, move_seen};
ghost use Rattle.pgn_criteria.specs.Private.Stages.{stated};

use crate::compare::compares;
use crate::condition::{GameClaim, MoveClaim, Stated};
use crate::headed::Headed;
use crate::meets::is_of_heading;
use chess::{Kind, kind_letter};
use pgn_game::pack::{numbered_castle, numbered_man};

/// Whether the tags, the result and the number of the plies of the game meet the condition, if that
/// speaks of them; else always.
pub(crate) fn is_of_counted<'a, H: Headed<'a>>(
    condition: &'a Stated<GameClaim<Vec<u8>>>,
    game: &H,
    plies: usize,
) -> bool
    requires valid { H.valid game.now }
    requires good { IsGood (game_seen (λ text. text.items) condition.now.claim) }
    ensures { IsTrue result
        ↔ SaysOfCounted (H.heading game.now) plies condition.now.is_denied
        (game_seen (λ text. text.items) condition.now.claim) }
{
    match &condition.claim {
        GameClaim::Plies { comparison, count } => {
            compares(*comparison, plies as u128, *count as u128) != condition.is_denied
        }
        _ => is_of_heading(condition, game),
    }
}

/// Whether the tags, the result and the number of the plies of the game meet the conditions that
/// speak of them.
pub(crate) fn are_of_counted<'a, H: Headed<'a>>(
    conditions: &'a [Stated<GameClaim<Vec<u8>>>],
    game: &H,
    plies: usize,
) -> bool
    requires valid { H.valid game.now }
    requires good { AllClaims IsGood
        (map (stated (game_seen (λ text. text.items))) conditions.now) }
    ensures { IsTrue result
        ↔ AllOfCounted (H.heading game.now) plies
        (map (stated (game_seen (λ text. text.items))) conditions.now) }
{
    for condition in conditions {
        if !is_of_counted(condition, game, plies) {
            return false;
        }
    }
    true
}

/// Whether the claim does not speak of the texts of moves.
fn is_free_of_words(claim: &GameClaim<Vec<u8>>) -> bool
    ensures { IsTrue result ↔ IsFreeOfWords (game_seen (λ text. text.items) claim.now) }
{
    match claim {
        GameClaim::Moves(_) => false,
        _ => true,
    }
}

/// Whether none of the conditions on the game speaks of the texts of its moves.
pub(crate) fn are_free_of_words(conditions: &[Stated<GameClaim<Vec<u8>>>]) -> bool
    ensures { IsTrue result
        ↔ AllClaims IsFreeOfWords (map (stated (game_seen (λ text. text.items))) conditions.now) }
{
    for condition in conditions {
        if !is_free_of_words(&condition.claim) {
            return false;
        }
    }
    true
}

/// A man who arrives: the number of the square, and the byte that the text of his move begins with,
/// where that is known.
#[derive(Clone, Copy)]
pub(crate) struct Arrival {
    square: u8,
    first: Option<u8>,
}

/// What a ply is by each move whose text is like a word.
#[derive(Clone, Copy)]
pub(crate) enum Sought {
    /// A man arrives by it.
    Arrival(Arrival),
    /// It castles.
    Castling,
}

/// The number of the square that a word ends with, if it ends with one.
fn last_square(word: &[u8]) -> Option<u8>
    ensures { IfSome result (EndsWithSquare word.now) }
{
    let [.., file, rank] = word else {
        return None;
    };
    if *file < b'a' || *file > b'h' || *rank < b'1' || *rank > b'8' {
        return None;
    }
    Some(8 * (*rank - b'1') + (*file - b'a'))
}

/// The byte that a word begins with, if it is no star.
fn first_byte(word: &[u8]) -> Option<u8>
    ensures { IfSome result (IsFirstByte word.now) }
{
    match word {
        [first, ..] if *first != b'*' => Some(*first),
        _ => None,
    }
}

/// What each move whose text is like the word does, as far as its first byte and the square at its
/// end tell.
fn sought_by(word: &[u8]) -> Option<Sought>
    ensures { IfSome result (Tells word.now) }
{
    if let Some(square) = last_square(word) {
        return Some(Sought::Arrival(Arrival {
            square,
            first: first_byte(word),
        }));
    }
    match word {
        [first, ..] if *first == b'O' => Some(Sought::Castling),
        _ => None,
    }
}

/// Whether the text of the move with these three bytes may begin with the byte, where it does not
/// castle.
fn may_begin_with(first: u8, a: u8, b: u8, d: u8) -> bool
    ensures { result ≡ false
        → BeginsBy (code_of a b d) (code_of a b d).man.kind first → ⊥ }
{
    match numbered_man(b / 64 + 4 * (d / 64)).kind {
        Kind::Pawn => first == 97 + a % 8 || first == 97 + b % 8,
        kind => first == kind_letter(kind),
    }
}

/// Whether he may arrive by the ply of three bytes.
#[inline(always)]
fn may_arrive(asked: Arrival, a: u8, b: u8, d: u8) -> bool
    ensures { result ≡ false → IsArrival asked (code_of a b d) → ⊥ }
{
    if b % 64 != asked.square {
        return false;
    }
    match asked.first {
        Some(first) => may_begin_with(first, a, b, d),
        None => true,
    }
}

/// Whether the ply of three bytes may be such.
#[inline(always)]
fn may_be(sought: Sought, a: u8, b: u8, d: u8) -> bool
    ensures { result ≡ false → IsSuchPly sought (code_of a b d) → ⊥ }
{
    match sought {
        Sought::Arrival(asked) => may_arrive(asked, a, b, d),
        Sought::Castling => numbered_castle(b / 64 + 4 * (d / 64)).is_some(),
    }
}

/// Whether one of the plies may be such.
fn is_shown(sought: Sought, plies: &[u8]) -> bool
    ensures { result ≡ false
        → AllByRecursion (λ code. IsSuchPly sought code → ⊥) (codes_in plies.now) }
{
    let mut rest = plies;
    while let [a, b, d, after @ ..] = rest {
        if may_be(sought, *a, *b, *d) {
            return true;
        }
        rest = after;
    }
    false
}

/// Whether a move whose text is like the word may be among the plies.
fn word_is_shown(word: &[u8], plies: &[u8]) -> bool
    ensures { result ≡ false → (P : State) (replay : Replay)
        → IsPlayedBy P (codes_in plies.now) replay → (ply : ℕ)
        → GoesOnBy replay ply word.now → ⊥ }
{
    match sought_by(word) {
        Some(sought) => is_shown(sought, plies),
        None => true,
    }
}

/// Whether the move that the claim asks for may be among the plies.
fn claim_is_shown(claim: &MoveClaim<Vec<u8>>, plies: &[u8]) -> bool
    ensures { result ≡ false → (P : State) (replay : Replay)
        → IsPlayedBy P (codes_in plies.now) replay → (ply : ℕ)
        → IsSoOfMoves replay ply (move_seen (λ text. text.items) claim.now) → ⊥ }
{
    match claim {
        MoveClaim::Next(word) => word_is_shown(word, plies),
        MoveClaim::Played(word) => word_is_shown(word, plies),
        MoveClaim::Setup(_) => true,
    }
}

/// Whether all moves that the conditions ask for may be among the plies.
pub(crate) fn words_are_shown(conditions: &[Stated<MoveClaim<Vec<u8>>>], plies: &[u8]) -> bool
    ensures { result ≡ false → (P : State) (replay : Replay)
        → IsPlayedBy P (codes_in plies.now) replay → (ply : ℕ)
        → AllTaken (IsSoOfMoves replay ply)
        (map (stated (move_seen (λ text. text.items))) conditions.now) → ⊥ }
{
    for condition in conditions {
        if !condition.is_denied && !claim_is_shown(&condition.claim, plies) {
            return false;
        }
    }
    true
}
