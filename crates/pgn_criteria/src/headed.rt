//! What conditions ask of a game beside its moves: its tags and its result.
ghost use Rattle.std.specs.Prelude.{◌≡◌, ℕ, List, Some, MatchOption};
ghost use Rattle.pgn_text.specs.Public.Strings.{IsContents};
ghost use Rattle.pgn_criteria.specs.Public.Meeting.{Heading, heading_of};
ghost use Rattle.pgn_game.specs.Public.PackReading.{IsRawOfGame};
ghost use Rattle.pgn_criteria.specs.Private.Records.{heading_of_raw};

use crate::meets::contents_of;
use pgn_game::pack::RawRecord;
use pgn_text::{RawGame, is_contents};

/// What stands about the moves of a game, wherever it is read from.
pub trait Headed<'a> {
    /// The tags and the result.
    ghost heading: { Self → Heading };

    /// What is known of it.
    ghost valid: { Self → Type 0 };

    /// The contents of the string of the tag with that name, if there is one and they are contents
    /// of a string.
    fn tag(&self, name: &'a [u8]) -> Option<&'a [u8]>
        requires { valid self.now }
        ensures { MatchOption result
            ((contents : List ℕ) → (heading self.now).named name.now ≡ Some contents
            → IsContents contents → ⊥)
            (λ contents. ((heading self.now).named name.now ≡ Some contents.now)
            × IsContents contents.now) };

    /// The result.
    fn result(&self) -> &'a [u8]
        ensures { result.now ≡ (heading self.now).result };
}

impl<'a> Headed<'a> for RawGame<'a> {
    ghost heading = { λ game. heading_of game };

    ghost valid = { λ game. Unit {0} };

    fn tag(&self, name: &'a [u8]) -> Option<&'a [u8]> {
        contents_of(self.tags(), name)
    }

    fn result(&self) -> &'a [u8] {
        RawGame::result(self)
    }
}

impl<'a> Headed<'a> for RawRecord<'a> {
    ghost heading = { λ raw. heading_of_raw raw };

    ghost valid = { λ raw. IsRawOfGame raw };

    fn tag(&self, name: &'a [u8]) -> Option<&'a [u8]> {
        match RawRecord::tag(self, name) {
            Some(contents) => {
                if is_contents(contents) {
                    Some(contents)
                } else {
                    None
                }
            }
            None => None,
        }
    }

    fn result(&self) -> &'a [u8] {
        RawRecord::result(self)
    }
}
