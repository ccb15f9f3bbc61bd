//! What has to be remembered of the parts of a game that were read.

ghost use Rattle.std.specs.Prelude.{◌≡◌, ◌↔◌, false, true, IsTrue};
ghost use Rattle.pgn_text.specs.Public.Limits.{depth_limit};
ghost use Rattle.pgn_text.specs.Private.Reading.{KeptOpen, KeptClose, step_kept};

use crate::io::limits::MAX_DEPTH;
use crate::lex::token::Token;

/// How far a game has been read.
#[derive(Clone, Copy)]
pub(crate) struct Progress {
    /// Only tags and what a gap may have so far.
    pub(crate) in_tags: bool,
    /// How many variations are open.
    pub(crate) depth: usize,
    /// A move stands before this place in its own line.
    pub(crate) has_move: bool,
}

impl Progress {
    ghost use Rattle.pgn_text.specs.Private.Steps.{start as start_state, in_movetext, Steps};
    ghost use Rattle.pgn_text.specs.Private.Tokens.{state_of, token_of};

    /// Before the first part.
    pub(crate) fn start() -> Self
        ensures { state_of result ≡ start_state }
    {
        Progress {
            in_tags: true,
            depth: 0,
            has_move: false,
        }
    }

    /// Whether no variation is open.
    #[inline(always)]
    pub(crate) fn is_closed(self) -> bool
        ensures { IsTrue result ↔ (self.depth ≡ 0) }
    {
        self.depth == 0
    }

    /// Goes on after a part of the movetext that is no move.
    #[inline(always)]
    pub(crate) fn enter_movetext(&mut self)
        ensures { state_of self.new ≡ in_movetext (state_of self.old) }
    {
        self.in_tags = false;
    }

    /// Goes on after a move.
    #[inline(always)]
    pub(crate) fn pass_move(&mut self)
        ensures { state_of self.new
            ≡ record { in_tags = false; depth = self.old.depth; has_move = true } }
    {
        self.in_tags = false;
        self.has_move = true;
    }

    /// Goes on in a variation, if one may begin here.
    #[inline(always)]
    pub(crate) fn open(&mut self) -> bool
        ensures { Steps result (state_of self.new)
            (step_kept depth_limit (state_of self.old) KeptOpen) }
    {
        if self.has_move && self.depth < MAX_DEPTH {
            self.in_tags = false;
            self.depth += 1;
            self.has_move = false;
            true
        } else {
            false
        }
    }

    /// Goes on after a variation, if one may end here.
    #[inline(always)]
    pub(crate) fn close(&mut self) -> bool
        ensures { Steps result (state_of self.new)
            (step_kept depth_limit (state_of self.old) KeptClose) }
    {
        if self.depth > 0 {
            self.in_tags = false;
            self.depth -= 1;
            self.has_move = true;
            true
        } else {
            false
        }
    }

    /// Goes on after the part, if it may stand here. A result is no such part.
    #[inline(always)]
    pub(crate) fn step(&mut self, token: Token<'_>) -> bool
        ensures { Steps result (state_of self.new)
            (step_kept depth_limit (state_of self.old) (token_of token.entry)) }
    {
        match token {
            Token::Gap | Token::Comment(_) => true,
            Token::Tag { .. } => self.in_tags,
            Token::Move(_) => {
                self.pass_move();
                true
            }
            Token::Number | Token::Dot | Token::Glyph(_) | Token::Marks(_) => {
                self.enter_movetext();
                true
            }
            Token::Open => self.open(),
            Token::Close => self.close(),
            Token::Result | Token::Stray => false,
        }
    }
}
