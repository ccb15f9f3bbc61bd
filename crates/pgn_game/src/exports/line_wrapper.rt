//! Tokens in lines.
ghost use Rattle.std.specs.Prelude.{◌≡◌, ◌+◌, ◌≤◌, ◌++◌, ◌∷◌, ℕ, List, [], length, nat_le, false};
ghost use Rattle.std.specs.Prelude.{true, OnOk, IsTrue, IfSome, ◌-◌};
ghost use Rattle.pgn_game.specs.Private.LineWrappers.{HasPut, after_tokens};

use std::alloc::AllocError;

/// Writes tokens one after another, in lines of a width: a token goes into the line that is begun
/// where it is within the width after a space, and else begins the next line.
#[derive(Drop)]
pub(crate) struct LineWrapper {
    width: usize,
    begun: bool,
    column: usize,
}

impl LineWrapper {
    /// Before the first token.
    pub(crate) fn new(width: u16) -> Self
        ensures width { result.width ≡ width }
        ensures begun { result.begun ≡ false }
        ensures column { result.column ≡ 0 }
    {
        LineWrapper {
            width: usize::from(width),
            begun: false,
            column: 0,
        }
    }

    /// Whether a token of so many bytes is within the width after a space.
    #[inline(always)]
    fn fits(&self, size: usize) -> bool
        ensures { result ≡ nat_le (self.now.column + 1 + size) self.now.width }
    {
        size < self.width.saturating_sub(self.column)
    }

    /// Whether a line is begun that takes a token of so many bytes within the width.
    #[inline(always)]
    pub(crate) fn takes(&self, size: usize) -> bool
        ensures { IsTrue result → (self.now.begun ≡ true)
            × (self.now.column + 1 + size ≤ self.now.width) }
    {
        self.begun && self.column < self.width && size < self.width - self.column
    }

    /// How many bytes the line that is begun, if one is, has within the width after a space.
    #[inline(always)]
    pub(crate) fn room(&self) -> Option<usize>
        ensures { IfSome result (λ room. (self.now.begun ≡ true)
            × (room ≡ self.now.width - (self.now.column + 1))) }
    {
        if !self.begun {
            return None;
        }
        Some(self.width.saturating_sub(self.column).saturating_sub(1))
    }

    /// Whether so many bytes are within the width.
    #[inline(always)]
    pub(crate) fn holds(&self, size: usize) -> bool
        ensures { IsTrue result → size ≤ self.now.width }
    {
        size <= self.width
    }

    /// Begins a token of so many bytes in the line that is begun, whose width it is within: they
    /// are to follow.
    #[inline(always)]
    pub(crate) fn start_within(&mut self, out: &mut Vec<u8>, size: usize) -> Result<(), AllocError>
        requires { self.old.column + 1 + size ≤ self.old.width }
        ensures text { OnOk result (out.new.items ≡ out.old.items ++ 32 ∷ []) }
        ensures kept { (some : List ℕ) × (out.new.items ≡ out.old.items ++ some) }
        ensures line { (self.new.begun ≡ self.old.begun)
            × (self.new.column ≡ self.old.column + 1 + size)
            × (self.new.width ≡ self.old.width) }
    {
        self.column += 1 + size;
        out.push(b' ')?;
        Ok(())
    }

    /// Begins a token of so many bytes in the next line: they are to follow.
    #[inline(always)]
    pub(crate) fn start_line(&mut self, out: &mut Vec<u8>, size: usize) -> Result<(), AllocError>
        ensures text { OnOk result (out.new.items ≡ out.old.items ++ 10 ∷ []) }
        ensures kept { (some : List ℕ) × (out.new.items ≡ out.old.items ++ some) }
        ensures line { (self.new.begun ≡ self.old.begun) × (self.new.column ≡ size)
            × (self.new.width ≡ self.old.width) }
    {
        self.column = size;
        out.push(b'\n')?;
        Ok(())
    }

    /// The token that was begun goes on in a line of its own, where it has so many bytes.
    #[inline(always)]
    pub(crate) fn go_on_in_next(&mut self, size: usize)
        ensures { (self.new.begun ≡ self.old.begun) × (self.new.column ≡ size)
            × (self.new.width ≡ self.old.width) }
    {
        self.column = size;
    }

    /// Begins a token of so many bytes after the others: they are to follow.
    #[inline(always)]
    pub(crate) fn start(&mut self, out: &mut Vec<u8>, size: usize) -> Result<(), AllocError>
        ensures text { OnOk result ((token : List ℕ) → length token ≡ size
            → HasPut self.old self.new out.old.items (out.new.items ++ token) (token ∷ [])) }
        ensures kept { (some : List ℕ) × (out.new.items ≡ out.old.items ++ some) }
        ensures width { self.new.width ≡ self.old.width }
    {
        if !self.begun {
            self.begun = true;
            self.column = size;
            return Ok(());
        }
        if self.fits(size) {
            self.column += 1 + size;
            out.push(b' ')?;
            return Ok(());
        }
        self.column = size;
        out.push(b'\n')?;
        Ok(())
    }

    /// Writes a token after the others.
    #[inline(always)]
    pub(crate) fn put(&mut self, out: &mut Vec<u8>, token: &[u8]) -> Result<(), AllocError>
        ensures text { OnOk result
            (HasPut self.old self.new out.old.items out.new.items (token.now ∷ [])) }
        ensures kept { (some : List ℕ) × (out.new.items ≡ out.old.items ++ some) }
        ensures width { self.new.width ≡ self.old.width }
    {
        self.start(out, token.len())?;
        out.extend_from_slice(token)?;
        Ok(())
    }

    /// Begins the token that stands at the end of the text, from this place on: what parts it from
    /// the others goes in front of it.
    pub(crate) fn part(&mut self, out: &mut Vec<u8>, from: usize) -> Result<(), AllocError>
        requires { from ≤ length out.old.items }
        ensures text { OnOk result ((before token : List ℕ) → length before ≡ from
            → out.old.items ≡ before ++ token
            → HasPut self.old self.new before out.new.items (token ∷ [])) }
        ensures kept { (before token : List ℕ) → length before ≡ from
            → out.old.items ≡ before ++ token → (some : List ℕ) × (out.new.items ≡ before ++ some) }
        ensures width { self.new.width ≡ self.old.width }
    {
        let size = out.len() - from;
        if !self.begun {
            self.begun = true;
            self.column = size;
            return Ok(());
        }
        if self.fits(size) {
            self.column += 1 + size;
            out.insert(from, b' ')?;
            return Ok(());
        }
        self.column = size;
        out.insert(from, b'\n')?;
        Ok(())
    }

    /// Writes the last token after the others, and ends its line.
    pub(crate) fn put_last(&mut self, out: &mut Vec<u8>, token: &[u8]) -> Result<(), AllocError>
        ensures text { OnOk result (out.new.items ≡ out.old.items
            ++ after_tokens self.old.width self.old.begun self.old.column (token.now ∷ [])) }
        ensures kept { (some : List ℕ) × (out.new.items ≡ out.old.items ++ some) }
    {
        self.put(out, token)?;
        self.finish(out)
    }

    /// Ends the last line, if there is one.
    fn finish(&self, out: &mut Vec<u8>) -> Result<(), AllocError>
        ensures text { OnOk result (out.new.items
            ≡ out.old.items ++ after_tokens self.now.width self.now.begun self.now.column []) }
        ensures kept { (some : List ℕ) × (out.new.items ≡ out.old.items ++ some) }
    {
        if self.begun {
            out.push(b'\n')?;
        }
        Ok(())
    }
}
