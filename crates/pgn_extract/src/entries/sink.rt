//! What is done with the entries that are found.
ghost use Rattle.std.specs.Prelude.{◌≡◌, ◌∷◌, ◌++◌, [], ℕ, List, None, true, OnOk, IfErr, IfSome};
ghost use Rattle.std.specs.Prelude.{length};
ghost use Rattle.std.specs.Prelude.{refl};
ghost use Rattle.pgn_extract.specs.Public.Listing.{Entry};
ghost use Rattle.pgn_extract.specs.Private.Lines.{is_bare};
ghost use Rattle.pgn_extract.specs.Private.Lines.{Where, HasFault, marked_lines};
ghost use Rattle.pgn_extract.specs.Private.Lines.{first_ply, line_made, made_line, IsEnoughFor};
ghost use Rattle.pgn_extract.specs.Private.Sinks.{PutsHere, first_more, first_none, lines_none};
ghost use Rattle.pgn_extract.specs.Private.Sinks.{lines_more};
ghost use Rattle.pgn_extract.specs.Private.Sinks.{grows_none, grows_more};

use crate::entries::fields::push_fields;
use crate::entries::line::Line;
use crate::entries::line_maker::LineMaker;
use crate::output::texts::{end_line, push_line_number, push_ply};

/// What entries are handed to.
pub(crate) trait Sink {
    ghost use Rattle.pgn_extract.specs.declared.entries.line_maker.LineMaker.{LineMaker};

    /// Of entries whose lines begin with this mark, these were handed to it since.
    ghost Gets: { List ℕ → Self → List Entry → Self → Type 0 };

    /// It took something since, or nothing.
    ghost Grew: { Self → Self → Type 0 };

    /// It takes entries with these lines.
    ghost Takes: { LineMaker → Type 0 };

    /// Takes the entry where the line stands.
    fn put<L: Line>(&mut self, mark: &[u8], line: &L, lines: &LineMaker<'_>) -> Result<(), L::Fault>
        requires takes { Takes lines.now }
        requires valid { L.Valid line.now }
        requires shows { IsEnoughFor L.Shows lines.now }
        ensures put { OnOk result
            (PutsHere (Gets mark.now self.old) (L.At line.now) lines.now self.new) }
        ensures fault { IfErr result (λ fault. IfSome (L.fault_of fault)
            (λ own. Where (L.At line.now) (HasFault own) × Grew self.old self.new)) }
        ensures kept { OnOk result (Grew self.old self.new) };

    /// At first none was handed on.
    ghost none: { (mark : List ℕ) (sink : Self) → Gets mark sink [] sink };

    /// What is handed on later follows.
    ghost more: { (mark : List ℕ) (a b c : Self) (xs ys : List Entry)
        → Gets mark a xs b → Gets mark b ys c → Gets mark a (xs ++ ys) c };

    /// It may take nothing.
    ghost stays: { (sink : Self) → Grew sink sink };

    /// What is taken later is taken since.
    ghost grows: { (a b c : Self) → Grew a b → Grew b c → Grew a c };
}

/// The lines of entries, one after the other.
impl Sink for Vec<u8> {
    ghost Gets = { λ mark old entries new. new.items ≡ old.items ++ marked_lines mark entries };

    ghost Grew = { λ old new. (some : List ℕ) × (new.items ≡ old.items ++ some) };

    ghost Takes = { λ lines. Unit {0} };

    #[inline(always)]
    fn put<L: Line>(
        &mut self,
        mark: &[u8],
        line: &L,
        lines: &LineMaker<'_>,
    ) -> Result<(), L::Fault> {
        match lines {
            LineMaker::Fields(fields, own) => {
                push_ply(self, mark, line.ply())?;
                push_line_number(self, *own)?;
                push_fields(self, line, *fields)?;
                end_line(self)?;
                Ok(())
            }
            LineMaker::Rows(rows) => rows.push_row(self, line),
        }
    }

    ghost none = { λ mark sink. lines_none mark sink.items };

    ghost more = { λ mark a b c xs ys first then.
        lines_more mark a.items b.items c.items xs ys first then };

    ghost stays = { λ sink. grows_none sink.items };

    ghost grows = { λ a b c first then. grows_more a.items b.items c.items first then };
}

/// The ply of the first one.
impl Sink for Option<usize> {
    ghost Gets = { λ mark old entries new. new ≡ first_ply old entries };

    ghost Grew = { λ old new. Unit {0} };

    ghost Takes = { λ lines. (is_bare (made_line lines) ≡ true) × (line_made lines ≡ None) };

    #[inline(always)]
    fn put<L: Line>(&mut self, _: &[u8], line: &L, _: &LineMaker<'_>) -> Result<(), L::Fault> {
        if self.is_none() {
            *self = Some(line.ply());
        }
        Ok(())
    }

    ghost none = { λ mark sink. first_none sink };

    ghost more = { λ mark a b c xs ys first then. first_more a b c xs ys first then };

    ghost stays = { λ sink. tt };

    ghost grows = { λ a b c first then. tt };
}
