//! Why lines of criteria that are accepted mislead: what they say is never so, or they compare
//! bytes where a number or a date is meant.
ghost use Rattle.std.specs.Prelude.{IfSome};
ghost use Rattle.pgn_criteria.specs.Private.Doubts.{IsNever};
ghost use Rattle.pgn_criteria.specs.Private.Stages.{position_seen};

use crate::alternative::Alternative;
use crate::condition::{
    Condition, GameClaim, MoveClaim, PositionClaim, PositionCondition, SpanClaim, Stated,
};
use crate::cut::next_part;
use crate::line::{Meaning, meaning_of};
use crate::meets::Criteria;
use std::alloc::{AllocError, Global};

mod men;
mod tags;
mod words;

use men::{has_misfit, let_no_kings};
use tags::tag_doubt;
use words::{can_be_move, can_be_moves};

/// A line of criteria that misleads.
#[derive(Clone, Copy, Debug, PartialEq, Eq)]
pub struct Doubt {
    /// Its number, counted from 1.
    pub line: usize,
    /// Why it misleads.
    pub why: &'static str,
}

const KINGS: &str = "material: each side has exactly one K, so no position has these men";

const RANK: &str = "fen: a rank has eight squares, and a rank here takes more or fewer";

const MOVES: &str =
    "moves: a word that is no move; moves are written as e4, Nf3, exd5, e8=Q, O-O and O-O-O";

const NEXT: &str =
    "next: a word that is no move; moves are written as e4, Nf3, exd5, e8=Q, O-O and O-O-O";

const PLAYED: &str =
    "played: a word that is no move; moves are written as e4, Nf3, exd5, e8=Q, O-O and O-O-O";

const STUCK: &str = "stalemate: no position is stalemate and check, or stalemate and mate";

const ROW: &str =
    "for: each move changes who is to move, so turn holds at no two positions in a row";

/// Why what a claim says of men is never so, where that is seen.
fn men_doubt(claim: &PositionClaim<&[u8]>) -> Option<&'static str>
    ensures { IfSome result (λ why. IsNever (position_seen (λ bytes. bytes.now) claim.now)) }
{
    match claim {
        PositionClaim::Fen(pattern) if has_misfit(pattern) => Some(RANK),
        PositionClaim::Flip(pattern) if has_misfit(pattern) => Some(RANK),
        PositionClaim::Material { white, black } if let_no_kings(white, black) => Some(KINGS),
        _ => None,
    }
}

/// Whether the condition sets who is to move, and the claim asks for two positions in a row or
/// more.
fn is_row<T>(condition: &PositionCondition<T>, span: &SpanClaim) -> bool {
    let PositionClaim::Turn(_) = condition.claim else {
        return false;
    };
    match span {
        SpanClaim::For(count) => !condition.is_either && *count > 1,
        SpanClaim::Count { .. } => false,
    }
}

/// Whether the one condition asks for stalemate, and the other for check or mate.
fn is_stuck_in_check<T, U>(stalemate: &PositionCondition<T>, check: &PositionCondition<U>) -> bool {
    let PositionClaim::Stalemate = stalemate.claim else {
        return false;
    };
    match check.claim {
        PositionClaim::Check | PositionClaim::Mate => !stalemate.is_denied && !check.is_denied,
        _ => false,
    }
}

/// How many conditions of an alternative stand before a line.
#[derive(Clone, Copy)]
struct Before {
    /// Of those on a position.
    positions: usize,
    /// Of those on the plies at which the others hold.
    spans: usize,
}

impl Before {
    /// None.
    fn nothing() -> Self {
        Before {
            positions: 0,
            spans: 0,
        }
    }

    /// With this one too.
    fn with<T>(self, condition: &Condition<T>) -> Self {
        match condition {
            Condition::Position(_) => Before {
                positions: self.positions.saturating_add(1),
                spans: self.spans,
            },
            Condition::Span(_) => Before {
                positions: self.positions,
                spans: self.spans.saturating_add(1),
            },
            _ => self,
        }
    }
}

/// Why a condition on a position misleads, by itself or beside those of its alternative before it.
fn position_doubt(
    own: &Alternative,
    before: Before,
    condition: &PositionCondition<&[u8]>,
) -> Option<&'static str> {
    if let Some(why) = men_doubt(&condition.claim) {
        return Some(why);
    }
    for span in own.spans.iter().take(before.spans) {
        if is_row(condition, span) {
            return Some(ROW);
        }
    }
    for other in own.plain.conditions.iter().take(before.positions) {
        if is_stuck_in_check(condition, other) || is_stuck_in_check(other, condition) {
            return Some(STUCK);
        }
    }
    None
}

/// Why a claim on several plies misleads beside the conditions of its alternative before it.
fn span_doubt(own: &Alternative, before: Before, claim: &SpanClaim) -> Option<&'static str> {
    for condition in own.plain.conditions.iter().take(before.positions) {
        if is_row(condition, claim) {
            return Some(ROW);
        }
    }
    None
}

/// Why a condition on the game misleads: it has a word that is no move's standard text, or compares
/// bytes of a tag where a number or a date is meant.
fn game_doubt(own: &Alternative, condition: &Stated<GameClaim<&[u8]>>) -> Option<&'static str> {
    match &condition.claim {
        GameClaim::Moves(words) if !can_be_moves(words) => Some(MOVES),
        _ => tag_doubt(&own.games, condition),
    }
}

/// Why what a claim says of a move is never so, where that is seen: its word is no move's standard
/// text.
fn move_doubt(claim: &MoveClaim<&[u8]>) -> Option<&'static str> {
    match claim {
        MoveClaim::Next(word) if !can_be_move(word) => Some(NEXT),
        MoveClaim::Played(word) if !can_be_move(word) => Some(PLAYED),
        _ => None,
    }
}

/// Why a condition of an alternative misleads, by itself or beside others.
fn doubt_of(
    own: &Alternative,
    before: Before,
    condition: &Condition<&[u8]>,
) -> Option<&'static str> {
    match condition {
        Condition::Game(condition) => game_doubt(own, condition),
        Condition::Position(condition) => position_doubt(own, before, condition),
        Condition::Move(condition) => move_doubt(&condition.claim),
        Condition::Span(claim) => span_doubt(own, before, claim),
    }
}

impl Criteria {
    /// The lines that mislead, in their order. The text is the one that the criteria were read
    /// from.
    pub fn doubts(&self, alloc: Global, text: &[u8]) -> Result<Vec<Doubt>, AllocError> {
        let mut doubts = Vec::new(alloc);
        let mut alternative = 0usize;
        let mut before = Before::nothing();
        let mut rest = text;
        for lines in 0..text.len().saturating_add(1) {
            let (line, after) = next_part(b'\n', rest);
            match meaning_of(line) {
                Some(Meaning::Or) => {
                    alternative = alternative.saturating_add(1);
                    before = Before::nothing();
                }
                Some(Meaning::Asks(condition)) => {
                    if let Some(why) = self.doubt_in(alternative, before, &condition) {
                        let line = lines.saturating_add(1);
                        doubts.push(Doubt { line, why })?;
                    }
                    before = before.with(&condition);
                }
                _ => {}
            }
            let Some(after) = after else {
                return Ok(doubts);
            };
            rest = after;
        }
        Ok(doubts)
    }

    /// Why this condition of the alternative misleads.
    fn doubt_in(
        &self,
        alternative: usize,
        before: Before,
        condition: &Condition<&[u8]>,
    ) -> Option<&'static str> {
        let own = self.alternatives.get(alternative)?;
        doubt_of(own, before, condition)
    }
}
