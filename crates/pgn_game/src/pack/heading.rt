//! The tags and the result that a record keeps, as a game that can be given other tags.
ghost use Rattle.std.specs.Prelude.{◌≡◌, ◌/◌, ◌%◌, IfOk};
ghost use Rattle.pgn_game.specs.Public.PackedGames.{PackedGame, FitsRecord, numbered_result};
ghost use Rattle.pgn_game.specs.Public.PackReading.{raw_of};
ghost use Rattle.pgn_game.specs.Private.RecordHeads.{IsHeadOf};

use crate::pack::fields::tag_at;
use crate::pack::reading::RawRecord;
use pgn_text::{RawGame, are_name_bytes, is_contents};
use std::alloc::{AllocError, Global};

impl<'a> RawRecord<'a> {
    /// The result token that ends the game, for as long as the record's bytes live.
    fn ending(&self) -> &'a [u8]
        ensures { result.now ≡ numbered_result (self.now.head / 4 % 4) }
    {
        self.result()
    }

    /// The tags and the result of the game that is packed, as a game without elements; none where
    /// no game of a text has such tags.
    pub(crate) fn head(&self, alloc: Global) -> Result<Option<RawGame<'a>>, AllocError>
        ensures { IfOk result (λ head. (game : PackedGame) → FitsRecord game
            → self.now ≡ raw_of game → IsHeadOf game head) }
    {
        let mut head = RawGame::of_result(alloc, self.ending());
        let mut rest = self.tail();
        for _ in 0..self.tag_count() {
            let Ok(((name, contents), after)) = tag_at(rest) else {
                return Ok(None);
            };
            if !head.tags().contains_key(name) {
                if !are_name_bytes(name) || !is_contents(contents) {
                    return Ok(None);
                }
                head = head.retagged(name, Some(contents))?;
            }
            rest = after;
        }
        Ok(Some(head))
    }
}
