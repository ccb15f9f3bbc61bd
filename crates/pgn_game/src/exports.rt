//! Games written: in the export format, or a line on one line of text.

mod comment;
pub mod edits;
pub(crate) mod exporter;
pub mod following;
pub(crate) mod game_line;
pub mod later;
pub mod line_form;
mod line_wrapper;
pub mod lines;
mod movetext;
pub(crate) mod notation;
pub(crate) mod style;
mod sweep;
pub(crate) mod tag_lines;
mod tokens;
pub mod variations;
