//! Why a game can't be replayed.
ghost use Rattle.std.specs.Prelude.{◌≡◌, None};
ghost use Rattle.pgn_game.specs.Public.Replays.{fault_of};
ghost use Rattle.pgn_game.specs.declared.turns.fault.GameFault.TheVariants.{OutOfMemory};

use std::alloc::AllocError;

/// Why a game can't be replayed. A word is a slice of the block that the game stands in.
#[derive(Clone, Copy, Debug, PartialEq, Eq)]
pub enum GameFault<'a> {
    /// The value of the FEN tag is refused.
    BadPosition,
    /// The word names no legal move.
    Illegal {
        /// The word as it stands.
        word: &'a [u8],
        /// The number of this ply in its line, from 1.
        ply: usize,
    },
    /// The word names several legal moves.
    Ambiguous {
        /// The word as it stands.
        word: &'a [u8],
        /// The number of this ply in its line, from 1.
        ply: usize,
    },
    /// Memory was refused.
    OutOfMemory,
}

impl<'a> From<AllocError> for GameFault<'a> {
    ghost from_gives = { λ _ fault. fault ≡ OutOfMemory };

    fn from(_: AllocError) -> Self {
        GameFault::OutOfMemory
    }
}

impl GameFault<'_> {
    /// The error of a fault that is no line's: that memory is refused.
    pub fn refused(self) -> AllocError
        requires { fault_of self ≡ None }
    {
        match self {
            GameFault::OutOfMemory => AllocError,
            GameFault::BadPosition => unreachable!(),
            GameFault::Illegal { .. } => unreachable!(),
            GameFault::Ambiguous { .. } => unreachable!(),
        }
    }
}
