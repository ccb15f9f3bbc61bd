//! Games as records of fixed form. The men of each position follow from one without the rules of
//! chess.
//!
//! A record, with its numbers big-endian:
//!
//! ```text
//! 4 bytes     how many bytes follow
//! 8 and 8     the number of the game, and the offset of its first byte in the text
//! 4           32 times the number of its tags, 16 more where it has a name, 4 times the number of
//! its result (0 `*`, 1 `1-0`,
//! 2 `0-1`, 3 `1/2-1/2`), 1 more where its start is check, and 2 more where it has no legal move
//! there
//! the name    4 bytes of length and the name of its file, where it has one
//! each tag    4 bytes of length and its name, 4 bytes of length and the contents of its string
//! each ply    3 bytes, up to the end of the record
//! ```
//!
//! A pack is a row of segments. A segment:
//!
//! ```text
//! 8 bytes     PGNPACK2: the number of the layout stands last
//! 4 and 4     how many bytes of records it has, and how many in all after its front
//! 8           the seal of its front
//! records     one after another, and whatever later layouts put after them
//! 8           the seal of what stands after its front
//! ```

mod error;
mod fields;
mod heading;
mod next_code;
mod origin;
mod ply;
mod pushing;
mod reading;
mod records;
mod replaying;
mod residue;
mod seal;
mod segment;
mod segment_writer;
mod segments;
mod writing;

pub use error::{CodesError, PackError, RecordError, SegmentError};
pub use next_code::next_coded;
pub use origin::GameOrigin;
pub use pushing::push_record;
pub use reading::{RawRecord, read};
pub use records::{Records, RecordsError};
pub(crate) use replaying::told_move;
pub use replaying::{numbered_castle, numbered_man, replay_codes};
pub use segment_writer::SegmentWriter;
pub use segments::{FRONT, Segments, SegmentsError};
pub(crate) use writing::put_headed;
pub use writing::put_record;
