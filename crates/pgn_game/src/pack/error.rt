//! Why bytes are no record, why a game has none, and why bytes are the codes of no line.
ghost use Rattle.std.specs.Prelude.{◌≡◌};
ghost use Rattle.pgn_game.specs.declared.pack.error.PackError.TheVariants.{OutOfMemory};
ghost use Rattle.pgn_game.specs.declared.pack.error.CodesError.TheVariants as codes_error;

use std::alloc::AllocError;
use thiserror::Error;

/// What is wrong with the bytes of a record: the first fault from left to right.
#[derive(Clone, Copy, Debug, PartialEq, Eq, Error)]
pub enum RecordError {
    /// A field goes past the end of the record, or the record past the end of the bytes.
    #[error("the record is cut short")]
    CutShort,
    /// The record says that it is larger than the record of any game.
    #[error("the record is too large")]
    TooLarge,
    /// A tag stands twice, or before one whose name is smaller.
    #[error("the tags are out of order")]
    TagOrder,
    /// The bytes of its plies are no multiple of three.
    #[error("a ply is cut short")]
    PartOfPly,
    /// Its number is 0, its offset past the largest one, or a control character in its file's name.
    #[error("no game has this number, offset or file name")]
    NoOrigin,
}

/// What is wrong with the segment in front of bytes: the first fault from left to right.
#[derive(Clone, Copy, Debug, PartialEq, Eq, Error)]
pub enum SegmentError {
    /// It goes past the end of the bytes.
    #[error("the segment is cut short")]
    CutShort,
    /// Its front is whole, and that of another layout.
    #[error("the segment has another layout")]
    OtherLayout,
    /// Its front was changed.
    #[error("the front of the segment is damaged")]
    DamagedFront,
    /// Its front says that it is larger than the segments that are written.
    #[error("the segment is too large")]
    TooLarge,
    /// Its body was changed.
    #[error("the body of the segment is damaged")]
    DamagedBody,
}

/// Why the record of a game is not appended.
#[derive(Clone, Copy, Debug, PartialEq, Eq, Error)]
pub enum PackError {
    /// It would be larger than the records that are read.
    #[error("the game is too large for a record")]
    TooLarge,
    /// Its number is 0, its offset past the largest one, or a control character in its file's name.
    #[error("no game has this number, offset or file name")]
    NoOrigin,
    /// Memory was refused.
    #[error("out of memory")]
    OutOfMemory,
}

impl From<AllocError> for PackError {
    ghost from_gives = { λ _ error. error ≡ OutOfMemory };

    fn from(_: AllocError) -> Self {
        PackError::OutOfMemory
    }
}

/// Why a line is not replayed from the bytes of its codes.
#[derive(Clone, Copy, Debug, PartialEq, Eq, Error)]
pub enum CodesError {
    /// They are the bytes of no line of legal moves.
    #[error("the plies are no line of legal moves")]
    NoLine,
    /// Memory was refused.
    #[error("out of memory")]
    OutOfMemory,
}

impl From<AllocError> for CodesError {
    ghost from_gives = { λ _ error. error ≡ codes_error.OutOfMemory };

    fn from(_: AllocError) -> Self {
        CodesError::OutOfMemory
    }
}
