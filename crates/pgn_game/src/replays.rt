//! Games replayed: the main line alone, or all lines in one walk.

mod all_lines;
pub(crate) mod line_stack;
pub(crate) mod main_line;
pub(crate) mod played_line;
pub(crate) mod replayer;
pub(crate) mod walk;
