//! The record of a game as it stands in a text.
ghost use Rattle.std.specs.Prelude.{◌≡◌, ◌++◌, ℕ, List, IfErr, IfSome, OnErr, OnOk};
ghost use Rattle.pgn_text.specs.Public.GameTexts.{tag_in};
ghost use Rattle.pgn_game.specs.Public.Faults.{IsFault};
ghost use Rattle.pgn_game.specs.Public.PackedGames.{FitsRecord, IsRecordOf, name_of};
ghost use Rattle.pgn_game.specs.Public.Replays.{fault_of};
ghost use Rattle.pgn_game.specs.Public.Starts.{fen_tag};
ghost use Rattle.pgn_game.specs.declared.turns.fault.GameFault.TheVariants.{OutOfMemory};
ghost use Rattle.pgn_game.specs.declared.replays.replayer.Lines.TheVariants.{Main};

use crate::pack::error::PackError;
use crate::pack::origin::GameOrigin;
use crate::pack::ply::{Marks, coded_move};
use crate::pack::writing::put_fields;
use crate::replays::main_line::{MainWalk, count_main_moves};
use crate::turns::fault::GameFault;
use crate::turns::starting::starting_position;
use pgn_text::RawGame;
use std::alloc::Global;

impl<'a> From<PackError> for GameFault<'a> {
    ghost from_gives = { λ _ fault. fault ≡ OutOfMemory };

    fn from(_: PackError) -> Self {
        GameFault::OutOfMemory
    }
}

/// Appends the record of the game while its main line is played: no position is kept but two. Where
/// the line is faulty, memory is refused or the record would be too large, some bytes of it are
/// appended.
fn put_played<'a>(
    alloc: Global,
    origin: &GameOrigin,
    game: &RawGame<'a>,
    out: &mut Vec<u8>,
) -> Result<(), GameFault<'a>>
    ensures record { OnOk result ((bytes : List ℕ)
        × (own : IsRecordOf (name_of origin.now) origin.now.number origin.now.offset game.now bytes)
        × FitsRecord own.packed × (out.new.items ≡ out.old.items ++ bytes)) }
    ensures fault { IfErr result (λ fault.
        IfSome (fault_of fault) (IsFault Main (tag_in fen_tag game.now.tags) game.now.elements)) }
    ensures kept { (some : List ℕ) × (out.new.items ≡ out.old.items ++ some) }
{
    let start = starting_position(alloc, game.tags())?;
    let elements = game.elements();
    let count = count_main_moves(elements);
    put_fields(origin, game, count, Marks::of(&start, count > 0), out)?;
    let mut walk = MainWalk::new(start);
    for element in elements {
        let before = walk.position.copy();
        if let Some(m) = walk.step(*element)? {
            let marks = Marks::of(&walk.position, walk.plies < count);
            out.extend_from_slice(&coded_move(&before, &m, marks))?;
        }
    }
    Ok(())
}

/// Plays the main line of the game, and appends the record of the game, which comes from there; or
/// answers the fault of its main line. Where memory is refused or the record would be too large,
/// memory is said to be refused: no game of a block has such a record, except one with a name of
/// more than 4096 bytes. In each of these cases nothing is appended.
pub fn push_record<'a>(
    alloc: Global,
    origin: &GameOrigin,
    game: &RawGame<'a>,
    out: &mut Vec<u8>,
) -> Result<(), GameFault<'a>>
    ensures record { OnOk result ((bytes : List ℕ)
        × (own : IsRecordOf (name_of origin.now) origin.now.number origin.now.offset game.now bytes)
        × FitsRecord own.packed × (out.new.items ≡ out.old.items ++ bytes)) }
    ensures fault { IfErr result (λ fault.
        IfSome (fault_of fault) (IsFault Main (tag_in fen_tag game.now.tags) game.now.elements)) }
    ensures left { OnErr result (out.new.items ≡ out.old.items) }
{
    let length = out.len();
    let put = put_played(alloc, origin, game, out);
    if put.is_err() {
        out.truncate(length);
    }
    put
}
