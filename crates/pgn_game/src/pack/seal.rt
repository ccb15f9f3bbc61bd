//! Bytes with eight more that make the number of all a multiple of the modulus.
ghost use Rattle.std.specs.Prelude.{◌≡◌, ◌≤◌, ◌++◌, OnOk, IfOk, ◌+◌, ℕ, List, length, drop};
ghost use Rattle.pgn_game.specs.Private.SegmentSteps.{Gives};
ghost use Rattle.pgn_game.specs.Public.Segments.{check_of, largest_body, sealed};
ghost use Rattle.pgn_game.specs.Public.Segments.{unsealed_at};

use crate::pack::error::SegmentError;
use crate::pack::residue::{MODULUS, residue};
use std::alloc::AllocError;

/// What makes the number of all a multiple of the modulus, where it follows the bytes as
/// eight more.
pub fn check_of(bytes: &[u8]) -> u64
    ensures { result ≡ check_of bytes.now }
{
    MODULUS - residue(bytes) * 8 % MODULUS
}

/// Appends the bytes and their seal.
pub fn push_sealed(bytes: &[u8], out: &mut Vec<u8>) -> Result<(), AllocError>
    ensures { OnOk result (out.new.items ≡ out.old.items ++ sealed bytes.now) }
{
    out.extend_from_slice(bytes)?;
    out.extend_from_slice(&check_of(bytes).to_be_bytes())?;
    Ok(())
}

/// So many bytes in front that are sealed, and what stands after their seal; the fault, where the
/// seal is broken.
#[tactic(auto, unfolding(crate::specs::Public::Segments::unsealed_at))]
pub fn unsealed_at(
    fault: SegmentError,
    size: usize,
    bytes: &[u8],
) -> Result<(&[u8], &[u8]), SegmentError>
    requires { size ≤ largest_body }
    ensures exact { Gives (λ x. (x.0.now, x.1.now)) result (unsealed_at fault size bytes.now) }
    ensures long { IfOk result (λ x. length x.0.now ≡ size) }
    ensures rest { IfOk result (λ x. x.1.now ≡ drop (size + 8) bytes.now) }
{
    if bytes.len() < size + 8 {
        return Err(SegmentError::CutShort);
    }
    let (sealed, rest) = bytes.split_at(size);
    let (check, rest) = rest.split_at(8);
    let check = u64::from_be_bytes([
        check[0], check[1], check[2], check[3], check[4], check[5], check[6], check[7],
    ]);
    if check == check_of(sealed) {
        Ok((sealed, rest))
    } else {
        Err(fault)
    }
}
