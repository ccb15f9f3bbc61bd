//! How a game is written.
ghost use Rattle.std.specs.Prelude.{◌≡◌};
ghost use Rattle.pgn_game.specs.Public.Exports.{lines_with};

use crate::replays::replayer::Lines;

/// What becomes of the commands of a comment, as `[%clk 0:01:00]`.
#[derive(Clone, Copy, Debug, PartialEq, Eq)]
pub enum Commands {
    /// Their words are tokens as all others.
    InWords,
    /// Each is one token: no line ends within it.
    Whole,
    /// They are left out, and with them a comment that has nothing else.
    LeftOut,
}

/// How a game is written: what is kept of it, and how long its lines may be.
#[derive(Clone, Copy, Debug, PartialEq, Eq)]
pub struct Style {
    /// Comments are kept.
    pub comments: bool,
    /// What becomes of the commands of a comment.
    pub commands: Commands,
    /// NAGs are kept.
    pub glyphs: bool,
    /// Variations are kept, with all that stands in them.
    pub variations: bool,
    /// Of the tags beside the roster only SetUp and FEN are kept, where the game has a FEN tag.
    pub roster_only: bool,
    /// The largest number of bytes in a line of the movetext that has several tokens.
    pub width: u16,
}

/// The lines of a game that are written in the style.
pub fn lines_with(style: &Style) -> Lines
    ensures { result ≡ lines_with style.now.variations }
{
    if style.variations {
        Lines::All
    } else {
        Lines::Main
    }
}
