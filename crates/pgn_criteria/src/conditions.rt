//! The conditions of an alternative while it is read, by what they are on.
ghost use Rattle.std.specs.Prelude.{◌≡◌, ◌∷◌, [], IfOk, OnOk};
ghost use Rattle.pgn_criteria.specs.Public.Conditions.{no_conditions, with_condition};
ghost use Rattle.pgn_criteria.specs.Private.Reading.{joined};
ghost use Rattle.pgn_criteria.specs.Private.Stages.{value_seen, game_seen, position_seen};
ghost use Rattle.pgn_criteria.specs.Private.Stages.{move_seen, stated, seen, condition_seen};

use crate::condition::{
    Condition, GameClaim, MoveClaim, PositionClaim, PositionCondition, SpanClaim, Stated,
    ValueClaim,
};
use std::alloc::{AllocError, Global};
use std::marker::Model;

/// Conditions by kind. Contracts see them by their bytes.
#[derive(Drop)]
pub(crate) struct Conditions {
    pub(crate) games: Vec<Stated<GameClaim<Vec<u8>>>>,
    pub(crate) positions: Vec<PositionCondition<Vec<u8>>>,
    pub(crate) moves: Vec<Stated<MoveClaim<Vec<u8>>>>,
    pub(crate) spans: Vec<SpanClaim>,
}

impl Model for Conditions {
    ghost use Rattle.std.specs.Prelude.{map};
    ghost use Rattle.pgn_criteria.specs.Public.Conditions.{Conditions as Asked};
    ghost use Rattle.pgn_criteria.specs.Private.Stages.{game_seen, move_seen, stated, seen};
    ghost use Rattle.std.specs.Coded.{codes};
    ghost use Rattle.chess.specs.Shared.Codes.{coded_state};

    ghost Value = { Asked };

    ghost coded = { Prim.hlevel (codes, coded_state) };

    ghost view = { λ c. record {
      games = map (stated (game_seen (λ text. text.items))) c.games.items;
      positions = map (seen (λ text. text.items)) c.positions.items;
      moves = map (stated (move_seen (λ text. text.items))) c.moves.items;
      spans = c.spans.items;
    } };
}

/// The claim on a tag's value with texts of its own.
fn owned_value(alloc: Global, claim: ValueClaim<&[u8]>) -> Result<ValueClaim<Vec<u8>>, AllocError>
    ensures { IfOk result (λ own. value_seen (λ text. text.items) own
        ≡ value_seen (λ bytes. bytes.now) claim.entry) }
{
    match claim {
        ValueClaim::Text { relation, contents } => Ok(ValueClaim::Text {
            relation,
            contents: contents.to_vec(alloc)?,
        }),
        ValueClaim::Number { comparison, number } => Ok(ValueClaim::Number { comparison, number }),
        ValueClaim::Date { comparison, days } => Ok(ValueClaim::Date { comparison, days }),
    }
}

/// The claim on the game with texts of its own.
fn owned_game(alloc: Global, claim: GameClaim<&[u8]>) -> Result<GameClaim<Vec<u8>>, AllocError>
    ensures { IfOk result (λ own. game_seen (λ text. text.items) own
        ≡ game_seen (λ bytes. bytes.now) claim.entry) }
{
    match claim {
        GameClaim::Tag { names, value } => Ok(GameClaim::Tag {
            names: names.to_vec(alloc)?,
            value: owned_value(alloc, value)?,
        }),
        GameClaim::Moves(words) => Ok(GameClaim::Moves(words.to_vec(alloc)?)),
        GameClaim::Plies { comparison, count } => Ok(GameClaim::Plies { comparison, count }),
        GameClaim::Result(result) => Ok(GameClaim::Result(result.to_vec(alloc)?)),
    }
}

/// The claim on a position with texts of its own.
fn owned_position(
    alloc: Global,
    claim: PositionClaim<&[u8]>,
) -> Result<PositionClaim<Vec<u8>>, AllocError>
    ensures { IfOk result (λ own. position_seen (λ text. text.items) own
        ≡ position_seen (λ bytes. bytes.now) claim.entry) }
{
    match claim {
        PositionClaim::Fen(pattern) => Ok(PositionClaim::Fen(pattern.to_vec(alloc)?)),
        PositionClaim::Flip(pattern) => Ok(PositionClaim::Flip(pattern.to_vec(alloc)?)),
        PositionClaim::Material { white, black } => Ok(PositionClaim::Material { white, black }),
        PositionClaim::Turn(side) => Ok(PositionClaim::Turn(side)),
        PositionClaim::Check => Ok(PositionClaim::Check),
        PositionClaim::Mate => Ok(PositionClaim::Mate),
        PositionClaim::Stalemate => Ok(PositionClaim::Stalemate),
    }
}

/// The claim on moves with texts of its own.
fn owned_move(alloc: Global, claim: MoveClaim<&[u8]>) -> Result<MoveClaim<Vec<u8>>, AllocError>
    ensures { IfOk result (λ own. move_seen (λ text. text.items) own
        ≡ move_seen (λ bytes. bytes.now) claim.entry) }
{
    match claim {
        MoveClaim::Next(word) => Ok(MoveClaim::Next(word.to_vec(alloc)?)),
        MoveClaim::Played(word) => Ok(MoveClaim::Played(word.to_vec(alloc)?)),
        MoveClaim::Setup(setup) => Ok(MoveClaim::Setup(setup)),
    }
}

impl Conditions {
    /// None.
    pub(crate) fn new(alloc: Global) -> Self
        ensures { result ≡ no_conditions }
    {
        Conditions {
            games: Vec::new(alloc),
            positions: Vec::new(alloc),
            moves: Vec::new(alloc),
            spans: Vec::new(alloc),
        }
    }

    /// Adds the condition to those of its kind.
    pub(crate) fn add(
        &mut self,
        alloc: Global,
        condition: Condition<&[u8]>,
    ) -> Result<(), AllocError>
        ensures { OnOk result (self.new
            ≡ joined self.old
            (with_condition (condition_seen (λ bytes. bytes.now) condition.entry) no_conditions)) }
    {
        match condition {
            Condition::Game(own) => {
                let claim = owned_game(alloc, own.claim)?;
                self.games.push(Stated {
                    is_denied: own.is_denied,
                    claim,
                })?;
            }
            Condition::Position(own) => {
                let claim = owned_position(alloc, own.claim)?;
                self.positions.push(PositionCondition {
                    is_either: own.is_either,
                    is_denied: own.is_denied,
                    claim,
                })?;
            }
            Condition::Move(own) => {
                let claim = owned_move(alloc, own.claim)?;
                self.moves.push(Stated {
                    is_denied: own.is_denied,
                    claim,
                })?;
            }
            Condition::Span(claim) => self.spans.push(claim)?,
        }
        Ok(())
    }
}
