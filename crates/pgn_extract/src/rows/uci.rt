//! Moves as `--uci` writes them.
ghost use Rattle.std.specs.Prelude.{◌≡◌, ◌++◌, ◌∷◌, [], OnOk, Some};
ghost use Rattle.pgn_game.specs.Public.GameLines.{promotion_letter, uci_text};

use chess::{Kind, Move};
use std::alloc::AllocError;

/// The letter of what a pawn becomes, in lower case.
fn promotion_letter(kind: Kind) -> u8
    ensures { result ∷ [] ≡ promotion_letter (Some kind) }
{
    match kind {
        Kind::King => b'k',
        Kind::Queen => b'q',
        Kind::Rook => b'r',
        Kind::Bishop => b'b',
        Kind::Knight => b'n',
        Kind::Pawn => b'p',
    }
}

/// Appends the two squares of a move, and what a pawn becomes.
pub(crate) fn push_uci(text: &mut Vec<u8>, m: Move) -> Result<(), AllocError>
    ensures { OnOk result (text.new.items ≡ text.old.items ++ uci_text m) }
{
    let squares = [
        b'a' - 1 + m.from.file(),
        b'0' + m.from.rank(),
        b'a' - 1 + m.to.file(),
        b'0' + m.to.rank(),
    ];
    text.extend_from_slice(&squares)?;
    if let Some(kind) = m.promote {
        text.push(promotion_letter(kind))?;
    }
    Ok(())
}
