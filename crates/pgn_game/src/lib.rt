//! Games played and written: the lines of a game as they stand in a file, from its start on, and
//! its export.
//!
//! The module `memory` has examples of calls, as the exports of the games of a block.
#![tactic(auto)]

mod explain;
mod exports;
pub mod laws;
pub mod memory;
mod openings;
pub mod pack;
mod replays;
mod turns;

pub use explain::{Refused, Why, named_moves, refused_word};
pub use exports::edits::{TagEdit, TagEdits, export_edited};
pub use exports::exporter::{export, export_followed, export_played, follow_export};
pub use exports::following::Followed;
pub use exports::game_line::push_line;
pub use exports::later::later_game;
pub use exports::line_form::LineForm;
pub use exports::lines::{LineWriter, export_lines};
pub use exports::notation::Notation;
pub use exports::style::{Commands, Style, lines_with};
pub use exports::tag_lines::push_contents;
pub use exports::variations::{Variation, Variations};
pub use openings::{Classified, FollowedLine, Opening, OpeningLine, Openings};
pub use replays::main_line::count_main_moves;
pub use replays::played_line::MainLine;
pub use replays::replayer::{
    Lines, check_lines, check_variations, count_plies, replay, replay_beginning,
};
pub use turns::fault::GameFault;
pub use turns::line_move::LineMove;
pub use turns::replayed::{GamePosition, Replayed};
pub use turns::starting::given_position;
