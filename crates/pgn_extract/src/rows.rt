//! Rows of columns: which columns there are, the formats, and how a list of columns is read.
pub(crate) mod column;
pub(crate) mod commands;
pub(crate) mod csv;
pub(crate) mod format;
pub(crate) mod json;
pub(crate) mod list;
pub(crate) mod position;
pub(crate) mod tsv;
pub(crate) mod uci;
