//! How a run ends.
ghost use Rattle.std.specs.Prelude.{◌≡◌};
ghost use Rattle.pgn_extract.specs.Private.Blockwise.{run_error_of};
ghost use Rattle.pgn_extract.specs.declared.output.outcome.RunError.TheVariants.{OutOfMemory};

use crate::marks::Met;
use pgn_text::ReadError;
use std::alloc::AllocError;
use thiserror::Error;

/// What a run met.
#[derive(Clone, Copy, Debug, PartialEq, Eq)]
pub struct Summary {
    /// The pieces: games, and bytes that are none.
    pub games: u64,
    /// The faulty ones among them.
    pub faulty: u64,
    /// The games that were not played, since their tags and results left no entry to look for.
    pub unplayed: u64,
    /// Which of the marks it met, where it reports only the pieces with marks.
    pub met: Met,
}

/// Why a run ended early.
#[derive(Clone, Copy, Debug, PartialEq, Eq, Error)]
pub enum RunError {
    /// The input failed.
    #[error("a read failed")]
    Read,
    /// The output or standard error failed.
    #[error("a write failed")]
    Write,
    /// Memory ran out.
    #[error("out of memory")]
    OutOfMemory,
    /// The input goes past the largest offset.
    #[error("the input is too long")]
    InputTooLong,
}

impl From<AllocError> for RunError {
    ghost from_gives = { λ _ error. error ≡ OutOfMemory };

    fn from(_: AllocError) -> Self {
        RunError::OutOfMemory
    }
}

/// The error of a run for the error of its reader.
pub fn of_read(error: ReadError) -> RunError
    ensures { result ≡ run_error_of error }
{
    match error {
        ReadError::Read | ReadError::Failed => RunError::Read,
        ReadError::OutOfMemory => RunError::OutOfMemory,
        ReadError::InputTooLong => RunError::InputTooLong,
    }
}
