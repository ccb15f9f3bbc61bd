//! What a run writes and how it ends: the texts of lines, the names of files, writing through a
//! tally.

pub(crate) mod file_name;
pub(crate) mod outcome;
pub(crate) mod texts;
pub(crate) mod through;
pub(crate) mod write_all;
