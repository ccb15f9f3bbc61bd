//! Conditions that are tried at the mirror of a position.
ghost use Rattle.std.specs.Prelude.{◌≡◌, ◌↔◌, ◌++◌, map, IsTrue, IfOk, OnOk};
ghost use Rattle.chess.specs.Public.Fen.{parted_at};
ghost use Rattle.chess.specs.Public.Placements.{Placement};
ghost use Rattle.pgn_criteria.specs.Public.Mirrors.{mirrored_men, can_be_mirrored};
ghost use Rattle.pgn_criteria.specs.Private.Turning.{other_letter, turned};
ghost use Rattle.pgn_criteria.specs.Public.Patterns.{FitsPattern, IsPattern};
ghost use Rattle.pgn_criteria.specs.Private.Stages.{AreFixed, IsMirrorOf, IsMirrored, AreMirrored};
ghost use Rattle.pgn_criteria.specs.Private.Stages.{seen, position_seen};

use crate::condition::{PositionClaim, PositionCondition};
use crate::cut::next_part;
use std::alloc::{AllocError, Global};

/// The letter in the other case, so that the man is one of the other side; any other byte is
/// itself.
fn other_letter(byte: u8) -> u8
    ensures { result ≡ other_letter byte }
{
    match byte {
        b'A'..=b'Z' => byte + 32,
        b'a'..=b'z' => byte - 32,
        _ => byte,
    }
}

/// Adds the items of a rank with the men of the other side.
fn add_rank(text: &mut Vec<u8>, rank: &[u8]) -> Result<(), AllocError>
    ensures { OnOk result (text.new.items ≡ text.old.items ++ map other_letter rank.now) }
{
    for byte in rank {
        text.push(other_letter(*byte))?;
    }
    Ok(())
}

/// Adds the ranks in the other order, with the men of the other side.
fn add_ranks(text: &mut Vec<u8>, ranks: &[u8]) -> Result<(), AllocError>
    ensures { OnOk result (text.new.items ≡ text.old.items ++ turned (parted_at 47 ranks.now)) }
{
    let (rank, after) = next_part(b'/', ranks);
    let Some(after) = after else {
        return add_rank(text, rank);
    };
    add_ranks(text, after)?;
    text.push(b'/')?;
    add_rank(text, rank)
}

/// The pattern that the men fit whose mirror fits this one.
pub(crate) fn mirrored_pattern(alloc: Global, pattern: &[u8]) -> Result<Vec<u8>, AllocError>
    ensures fits { IfOk result (λ own. (men : Placement)
        → FitsPattern men own.items ↔ FitsPattern (mirrored_men men) pattern.now) }
    ensures again { IsPattern pattern.now → IfOk result (λ own. IsPattern own.items) }
{
    let mut text = Vec::new(alloc);
    add_ranks(&mut text, pattern)?;
    Ok(text)
}

/// Whether the claim can be made of the mirror of a position.
pub(crate) fn can_be_mirrored<T>(claim: &PositionClaim<T>) -> bool
    ensures { result ≡ can_be_mirrored claim.now }
{
    match claim {
        PositionClaim::Check | PositionClaim::Mate | PositionClaim::Stalemate => false,
        _ => true,
    }
}

/// The claim with texts of its own.
fn own_claim(
    alloc: Global,
    claim: &PositionClaim<Vec<u8>>,
) -> Result<PositionClaim<Vec<u8>>, AllocError>
    ensures { IfOk result (λ own. position_seen (λ text. text.items) own
        ≡ position_seen (λ text. text.items) claim.now) }
{
    match claim {
        PositionClaim::Fen(pattern) => Ok(PositionClaim::Fen(pattern.to_vec(alloc)?)),
        PositionClaim::Flip(pattern) => Ok(PositionClaim::Flip(pattern.to_vec(alloc)?)),
        PositionClaim::Material { white, black } => Ok(PositionClaim::Material {
            white: *white,
            black: *black,
        }),
        PositionClaim::Turn(side) => Ok(PositionClaim::Turn(*side)),
        PositionClaim::Check => Ok(PositionClaim::Check),
        PositionClaim::Mate => Ok(PositionClaim::Mate),
        PositionClaim::Stalemate => Ok(PositionClaim::Stalemate),
    }
}

/// The claim that is so of a position where this one is so of its mirror.
fn mirrored_claim(
    alloc: Global,
    claim: &PositionClaim<Vec<u8>>,
) -> Result<PositionClaim<Vec<u8>>, AllocError>
    requires { IsTrue (can_be_mirrored claim.now) }
    ensures { IfOk result (λ own.
        IsMirrorOf (position_seen (λ text. text.items) own)
        (position_seen (λ text. text.items) claim.now)) }
{
    match claim {
        PositionClaim::Fen(pattern) => Ok(PositionClaim::Fen(mirrored_pattern(alloc, pattern)?)),
        PositionClaim::Flip(pattern) => Ok(PositionClaim::Flip(mirrored_pattern(alloc, pattern)?)),
        PositionClaim::Material { white, black } => Ok(PositionClaim::Material {
            white: *black,
            black: *white,
        }),
        PositionClaim::Turn(side) => Ok(PositionClaim::Turn(side.opposite())),
        _ => own_claim(alloc, claim),
    }
}

/// The condition that holds at a position where this one holds at its mirror, or without `either`
/// at the position itself.
fn mirrored(
    alloc: Global,
    condition: &PositionCondition<Vec<u8>>,
) -> Result<PositionCondition<Vec<u8>>, AllocError>
    ensures { IfOk result (λ own.
        IsMirrored (seen (λ text. text.items) own) (seen (λ text. text.items) condition.now)) }
{
    let is_denied = condition.is_denied;
    let claim = if condition.is_either && can_be_mirrored(&condition.claim) {
        mirrored_claim(alloc, &condition.claim)?
    } else {
        own_claim(alloc, &condition.claim)?
    };
    Ok(PositionCondition {
        is_either: false,
        is_denied,
        claim,
    })
}

/// The conditions that hold at a position where these hold with all that have `either` tried at its
/// mirror.
pub(crate) fn all_mirrored(
    alloc: Global,
    conditions: &[PositionCondition<Vec<u8>>],
) -> Result<Vec<PositionCondition<Vec<u8>>>, AllocError>
    ensures { IfOk result (λ own.
        AreMirrored (map (seen (λ text. text.items)) own.items)
        (map (seen (λ text. text.items)) conditions.now)) }
{
    let mut own = Vec::new(alloc);
    for condition in conditions {
        own.push(mirrored(alloc, condition)?)?;
    }
    Ok(own)
}

/// Whether none of the conditions has `either`.
pub(crate) fn are_fixed(conditions: &[PositionCondition<Vec<u8>>]) -> bool
    ensures { IsTrue result ↔ AreFixed (map (seen (λ text. text.items)) conditions.now) }
{
    for condition in conditions {
        if condition.is_either {
            return false;
        }
    }
    true
}
