//! The entries of a main line, handed to a sink.
ghost use Rattle.std.specs.Prelude.{◌≡◌, ℕ, List, false, Option, OnOk, IfErr, IfOk, IfSome};
ghost use Rattle.chess.specs.Public.Positions.{State};
ghost use Rattle.pgn_text.specs.Public.GameTexts.{GameText};
ghost use Rattle.pgn_game.specs.Public.Openings.{NamedLine};
ghost use Rattle.pgn_extract.specs.Public.Aims.{GameId};
ghost use Rattle.pgn_extract.specs.Private.Lines.{Where, HasFault, IsNeverMet, Asks, aim_with};
ghost use Rattle.pgn_extract.specs.Private.Lines.{HandsOn, Fails, NoneBefore, MakesLines};
ghost use Rattle.pgn_extract.specs.Private.Lines.{IsEnoughFor};

use crate::entries::line::Line;
use crate::entries::line_maker::LineMaker;
use crate::entries::sink::Sink;
use crate::settings::Settings;

/// What is looked for in a main line: plies from a least one up to the bound of settings that meet
/// the criteria, or only the first of them; what is shown of each entry, and what its line begins
/// with. The main line may be known to be sound.
#[derive(Drop)]
pub(crate) struct Finder<'s> {
    pub(crate) settings: &'s Settings,
    pub(crate) least: usize,
    pub(crate) first: bool,
    pub(crate) lines: LineMaker<'s>,
    pub(crate) mark: Vec<u8>,
    pub(crate) is_sound: bool,
}

impl<'s> Finder<'s> {
    /// Hands on the entry where the line stands, if it is one. Answers whether a later one may be.
    #[inline(always)]
    fn ask<L: Line, S: Sink>(&self, line: &L, sink: &mut S, is_open: bool) -> Result<bool, L::Fault>
        requires takes { S.Takes self.now.lines }
        requires valid { L.Valid line.now }
        requires shows { IsEnoughFor L.Shows self.now.lines }
        ensures asked { IfOk result (Asks (S.Gets self.now.mark.items) self.now (L.At line.now)
            sink.old sink.new is_open) }
        ensures fault { IfErr result (λ fault. IfSome (L.fault_of fault)
            (λ own. Where (L.At line.now) (HasFault own) × S.Grew sink.old sink.new)) }
        ensures kept { OnOk result (S.Grew sink.old sink.new) }
    {
        let ply = line.ply();
        if !is_open || ply > self.settings.max_ply as usize {
            return Ok(false);
        }
        if ply < self.least || !line.is_met() {
            return Ok(true);
        }
        sink.put(&self.mark, line, &self.lines)?;
        Ok(!self.first)
    }

    /// Goes on through the line from where it stands, before which none is wanted, and hands on its
    /// entries. Where it is not open, nothing is met.
    #[inline(always)]
    pub(crate) fn find<L: Line, S: Sink>(
        &self,
        line: &mut L,
        sink: &mut S,
        is_open: bool,
    ) -> Result<(), L::Fault>
        requires takes { S.Takes self.now.lines }
        requires valid { L.Valid line.old }
        requires shows { IsEnoughFor L.Shows self.now.lines }
        requires open { is_open ≡ false → Where (L.At line.old) IsNeverMet }
        ensures found { OnOk result ((name : Option (List ℕ)) (openings : Option (List NamedLine))
            (id : GameId) (game : GameText) (before : List State) (P : State)
            → L.At line.old (aim_with self.now name openings) game before P
            → NoneBefore (aim_with self.now name openings) game before
            → MakesLines self.now.lines name openings id game
            → HandsOn (aim_with self.now name openings) id game
            (λ got. S.Gets self.now.mark.items sink.old got sink.new)) }
        ensures fault { IfErr result (λ fault. IfSome (L.fault_of fault)
            (λ own. Fails (L.At line.old) self.now own
            × S.Grew sink.old sink.new)) }
        ensures kept { OnOk result (S.Grew sink.old sink.new) }
    {
        let mut still = is_open;
        loop {
            still = self.ask(line, sink, still)?;
            if !line.advance(still)? {
                return Ok(());
            }
        }
    }
}
