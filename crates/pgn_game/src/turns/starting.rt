//! The position from which a game starts.
ghost use Rattle.std.specs.Prelude.{◌≡◌, Some, MatchResult, IfOk, IfSome};
ghost use Rattle.pgn_text.specs.Public.Elements.{tags_of};
ghost use Rattle.pgn_text.specs.Public.GameTexts.{HoldStrings, tag_in};
ghost use Rattle.pgn_text.specs.Public.Strings.{IsContents};
ghost use Rattle.pgn_game.specs.Public.Starts.{fen_tag, IsStart, IsBadStart, IsValueOf};
ghost use Rattle.pgn_game.specs.Public.Faults.{BadStart};
ghost use Rattle.pgn_game.specs.Public.Replays.{fault_of};

use crate::turns::fault::GameFault;
use crate::turns::replayed::GamePosition;
use pgn_text::value;
use std::alloc::{AllocError, Global};
use std::collections::BTreeMap;

/// The value of a string with these contents.
fn value_of(alloc: Global, contents: &[u8]) -> Result<Vec<u8>, AllocError>
    requires { IsContents contents.now }
    ensures { IfOk result (λ text. IsValueOf contents.now text.items) }
{
    value(contents).collect(alloc)
}

/// The position from which a game with these contents of its FEN tag starts.
pub fn given_position<'a>(alloc: Global, contents: &[u8]) -> Result<GamePosition, GameFault<'a>>
    requires { IsContents contents.now }
    ensures { MatchResult result
        (IsStart (Some contents.now))
        (λ fault. IfSome (fault_of fault) (λ reported. IsBadStart (Some contents.now)
        × (reported ≡ BadStart))) }
{
    let text = value_of(alloc, contents)?;
    match GamePosition::from_fen(text.as_slice()) {
        Ok(position) => Ok(position),
        Err(_) => Err(GameFault::BadPosition),
    }
}

/// The position from which a game with these tags starts.
pub(crate) fn starting_position<'a>(
    alloc: Global,
    tags: &BTreeMap<&[u8], &[u8]>,
) -> Result<GamePosition, GameFault<'a>>
    requires { HoldStrings (tags_of tags.now) }
    ensures { MatchResult result
        (IsStart (tag_in fen_tag (tags_of tags.now)))
        (λ fault. IfSome (fault_of fault) (λ reported.
        IsBadStart (tag_in fen_tag (tags_of tags.now)) × (reported ≡ BadStart))) }
{
    let name: &[u8] = b"FEN";
    match tags.get(&name) {
        Some(contents) => given_position(alloc, *contents),
        None => Ok(GamePosition::start()),
    }
}
