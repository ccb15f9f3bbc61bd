//! A line of a game and those around it.
ghost use Rattle.std.specs.Prelude.{◌≡◌, ◌∷◌, [], OnOk};
ghost use Rattle.pgn_game.specs.Private.LineWalks.{is_inside};
ghost use Rattle.pgn_game.specs.Private.Steps.{IsBack, around};

use std::alloc::{AllocError, Global};
use std::mem;

/// The line that is gone along, and those around it, the innermost last.
#[derive(Drop)]
pub(crate) struct LineStack<T> {
    pub(crate) line: T,
    outer: Vec<T>,
}

impl<T: Drop> LineStack<T> {
    /// The main line alone.
    pub(crate) fn new(alloc: Global, line: T) -> Self
        ensures line { result.line ≡ line }
        ensures around { around result ≡ [] }
    {
        LineStack {
            line,
            outer: Vec::new(alloc),
        }
    }

    /// Whether the line is a variation.
    #[inline(always)]
    pub(crate) fn is_inside(&self) -> bool
        ensures { result ≡ is_inside (around self.now) }
    {
        !self.outer.is_empty()
    }

    /// Begins a variation of the line.
    pub(crate) fn push(&mut self, variation: T) -> Result<(), AllocError>
        ensures line { OnOk result (self.new.line ≡ variation) }
        ensures around { OnOk result (around self.new ≡ self.old.line ∷ around self.old) }
    {
        let line = mem::replace(&mut self.line, variation);
        self.outer.push(line)?;
        Ok(())
    }

    /// Ends a variation; the main line has no end.
    pub(crate) fn pop(&mut self)
        ensures { IsBack self.old.line (around self.old) self.new.line (around self.new) }
    {
        if let Some(line) = self.outer.pop() {
            self.line = line;
        }
    }
}
