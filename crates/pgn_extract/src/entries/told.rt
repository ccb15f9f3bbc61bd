//! The entries of a game of whose plies it is told whether they are met, and nothing else is kept.
ghost use Rattle.std.specs.Prelude.{◌≡◌, ◌<◌, ◌+◌, ◌-◌, List, ℕ};
ghost use Rattle.std.specs.Prelude.{Option, IfErr, IfSome, Some, None, true, OnOk, length, refl};
ghost use Rattle.pgn_text.specs.Public.GameTexts.{tag_in};
ghost use Rattle.pgn_game.specs.Public.Faults.{IsFault};
ghost use Rattle.pgn_game.specs.Public.Openings.{NamedLine};
ghost use Rattle.pgn_game.specs.Public.Replays.{Replay, fault_of};
ghost use Rattle.pgn_game.specs.Public.Starts.{fen_tag};
ghost use Rattle.pgn_game.specs.declared.replays.replayer.Lines.TheVariants.{Main};
ghost use Rattle.pgn_extract.specs.Public.Aims.{GameId};
ghost use Rattle.pgn_extract.specs.Private.KeptLines.{IsKeptWith};
ghost use Rattle.pgn_extract.specs.Private.Lines.{aim_with, HandsOn, MakesLines, is_bare};
ghost use Rattle.pgn_extract.specs.Private.Lines.{made_line};
ghost use Rattle.pgn_extract.specs.declared.rows.column.PlyColumn.TheVariants.{Ply};

use crate::entries::finding::Finder;
use crate::entries::line::Line;
use crate::entries::sink::Sink;
use crate::output::texts::push_number;
use crate::rows::column::PlyColumn;
use pgn_criteria::Criteria;
use pgn_game::GameFault;
use pgn_text::RawGame;
use std::alloc::{AllocError, Global};

/// A main line of which it is known at each ply whether it is met.
#[derive(Drop)]
pub(crate) struct Told {
    pub(crate) met: Vec<bool>,
    pub(crate) ply: usize,
    ghost within: { ply < length met.items },
}

impl Line for Told {
    type Fault = AllocError;

    ghost At = { λ own aim game before P. (kept : Replay)
        × IsKeptWith kept own.met.items own.ply aim game before P };

    ghost Valid = { λ own. Unit {0} };

    ghost Shows = { λ column. column ≡ Ply };

    ghost size = { λ own. length own.met.items - own.ply };

    ghost fault_of = { λ _. None };

    #[inline(always)]
    fn ply(&self) -> usize {
        self.ply
    }

    #[inline(always)]
    fn is_met(&self) -> bool {
        self.met[self.ply]
    }

    fn push_value(&self, text: &mut Vec<u8>, column: PlyColumn) -> Result<(), AllocError> {
        match column {
            PlyColumn::Ply => push_number(text, self.ply),
            _ => unreachable!(),
        }
    }

    #[inline(always)]
    fn advance(&mut self, is_open: bool) -> Result<bool, AllocError> {
        let next = self.ply + 1;
        if !is_open || next == self.met.len() {
            return Ok(false);
        }
        self.ply = next;
        Ok(true)
    }

    ghost stands = { λ own aim game before P at. at.1.stands };

    ghost memory = { λ error fault from. refl };
}

/// Hands on the entries of the game by criteria, which are asked first which plies meet them.
#[inline(never)]
pub(crate) fn find_told<'a, S: Sink>(
    finder: &Finder<'_>,
    alloc: Global,
    criteria: &'a Criteria,
    game: &RawGame<'a>,
    sink: &mut S,
) -> Result<(), GameFault<'a>>
    requires takes { S.Takes finder.now.lines }
    requires bare { is_bare (made_line finder.now.lines) ≡ true }
    requires criteria { finder.now.settings.now.criteria ≡ Some criteria.now }
    ensures found { OnOk result ((name : Option (List ℕ))
        (openings : Option (List NamedLine)) (id : GameId)
        → MakesLines finder.now.lines name openings id game.now
        → HandsOn (aim_with finder.now name openings) id game.now
        (λ got. S.Gets finder.now.mark.items sink.old got sink.new)) }
    ensures fault { IfErr result (λ fault. IfSome (fault_of fault)
        (λ own. IsFault Main (tag_in fen_tag game.now.tags) game.now.elements own
        × S.Grew sink.old sink.new)) }
{
    let met = criteria.met_of_game(alloc, game)?;
    let mut line = Told { met, ply: 0 };
    finder.find(&mut line, sink, true)?;
    Ok(())
}
