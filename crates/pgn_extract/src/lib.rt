//! `pgn-extract` as a library: `run` writes the exports, the listing or the index of a file of
//! chess games, and `program` is the command-line tool over arguments and files that are handed in.
//!
//! The listing of a text in memory, as lines `N@O P`; the contract of `list_text` is the listing
//! theorem:
//!
//! ```text
//! fn listed(alloc: Global, text: &[u8], settings: &Settings) -> Result<Vec<u8>, RunError> {
//!     let Written { out, err: _ } = list_text(alloc, text, settings)?;
//!     Ok(out)
//! }
//! ```
//!
//! The module `memory` has such a proved example for each fact of the contract of `run`.
#![tactic(auto)]

mod app;
mod engine;
mod entries;
mod explain;
pub mod laws;
mod marks;
pub mod memory;
mod output;
mod packed;
mod rows;
mod settings;

pub use app::command::Request;
pub use app::edits::{EditFault, read_edits};
pub use app::files::{Files, Stream, Task, Total, run_files, run_input};
pub use app::header::{RefusedColumns, put_header, read_row};
pub use app::order::{Given, Order, accept, has_names, settings_of};
pub use app::{messages, program, status};
pub use engine::{run, run_skipping};
pub use explain::kinds::{HEAD, folder_note, kind_note};
pub use marks::{GameId, Marks, Met};
pub use output::file_name::FileName;
pub use output::outcome::{RunError, Summary};
pub use packed::searching::{SearchError, Searched, search};
pub use rows::column::{
    AnnotationColumn, Column, Format, GameColumn, PlyColumn, PositionColumn, Row,
};
pub use rows::list::{ColumnsError, MOST_COLUMNS, parse_columns};
pub use settings::{EntryLine, Fields, Form, Mode, Select, Settings};
