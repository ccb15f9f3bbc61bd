//! The movetext of a game, written at each step of a walk over its lines.
ghost use Rattle.std.specs.Prelude.{◌≡◌, ◌++◌, ◌∷◌, ℕ, List, [], codes, decimal, false, map, true};
ghost use Rattle.std.specs.Prelude.{IfErr, IfOk, IfSome, MatchResult, OnOk, ◌||◌};
ghost use Rattle.pgn_text.specs.Public.Elements.{item_of};
ghost use Rattle.chess.specs.Public.Positions.{State};
ghost use Rattle.pgn_text.specs.Public.GameTexts.{IsPaired, tag_in};
ghost use Rattle.pgn_game.specs.Public.Comments.{is_written, shown_tokens};
ghost use Rattle.pgn_game.specs.Public.Exports.{kept, lines_with, number_tokens, IsMovetext};
ghost use Rattle.pgn_game.specs.Public.Exports.{IsLineMovetext};
ghost use Rattle.pgn_game.specs.Public.Faults.{HasLineFault};
ghost use Rattle.pgn_game.specs.Public.Replays.{fault_of};
ghost use Rattle.pgn_game.specs.Public.Starts.{IsStart, fen_tag};
ghost use Rattle.pgn_game.specs.Private.LineWalks.{first_level};
ghost use Rattle.pgn_game.specs.Private.MovetextWalks.{IsFaultOfLine, IsNew, Puts, WritesStep};
ghost use Rattle.pgn_game.specs.Private.Steps.{Step, Visits, Walks, shown_items};

use crate::exports::comment::{put_comment, put_left};
use crate::exports::line_wrapper::LineWrapper;
use crate::exports::style::{Commands, Style};
use crate::exports::tokens::{play_turn_san, put_glyph, put_number};
use crate::replays::line_stack::LineStack;
use crate::replays::walk::{Level, StepVisitor, first_line, walk};
use crate::turns::fault::GameFault;
use crate::turns::line_move::LineMove;
use crate::turns::replayed::GamePosition;
use crate::turns::starting::starting_position;
use arrayvec::ArrayString;
use chess::Side;
use pgn_text::{Element, RawGame};
use std::alloc::{AllocError, Global};
use std::mem;

/// The movetext as far as it is written, after what stood in front of it; and whether the next move
/// stands apart from the turn before it: as the first of its line, or with a comment or a variation
/// between them.
#[derive(Drop)]
pub(crate) struct MovetextWriter {
    pub(crate) out: Vec<u8>,
    pub(crate) wrapper: LineWrapper,
    apart: bool,
    style: Style,
    /// What is left of the last comment whose commands are left out.
    left: Vec<u8>,
}

impl MovetextWriter {
    /// Before the first token, which is to follow these bytes.
    pub(crate) fn new(alloc: Global, out: Vec<u8>, style: &Style) -> Self
        ensures { IsNew style.now out.items result }
    {
        MovetextWriter {
            out,
            wrapper: LineWrapper::new(style.width),
            apart: true,
            style: *style,
            left: Vec::new(alloc),
        }
    }

    /// Writes a turn of the side after the number of its move.
    #[inline(always)]
    fn put_turn(&mut self, side: Side, number: u32, text: &[u8]) -> Result<(), AllocError>
        ensures text { OnOk result (Puts self.old self.new (number_tokens side number self.old.apart
            ++ text.now ∷ []) false) }
        ensures kept { (some : List ℕ) × (self.new.out.items ≡ self.old.out.items ++ some) }
    {
        put_number(&mut self.wrapper, &mut self.out, side, number, self.apart)?;
        self.apart = false;
        self.wrapper.put(&mut self.out, text)
    }

    /// Writes a parenthesis; the next move stands apart after it.
    fn put_parenthesis(&mut self, text: &[u8]) -> Result<(), AllocError>
        ensures text { OnOk result (Puts self.old self.new (text.now ∷ []) true) }
        ensures kept { (some : List ℕ) × (self.new.out.items ≡ self.old.out.items ++ some) }
    {
        self.apart = true;
        self.wrapper.put(&mut self.out, text)
    }

    /// Writes a comment, or what is left of it without its commands; the next move stands apart
    /// after what is written.
    fn put_remark(&mut self, text: &[u8]) -> Result<(), AllocError>
        ensures text { OnOk result (Puts self.old self.new
            (kept (is_written self.old.style.commands text.now)
            (shown_tokens self.old.style.commands text.now))
            (self.old.apart || is_written self.old.style.commands text.now)) }
        ensures kept { (some : List ℕ) × (self.new.out.items ≡ self.old.out.items ++ some) }
    {
        let is_whole = match self.style.commands {
            Commands::InWords => false,
            Commands::Whole => true,
            Commands::LeftOut => {
                self.apart |= put_left(&mut self.wrapper, &mut self.out, &mut self.left, text)?;
                return Ok(());
            }
        };
        self.apart = true;
        put_comment(&mut self.wrapper, &mut self.out, text, is_whole)
    }
}

impl StepVisitor for MovetextWriter {
    ghost does = { WritesStep };

    ghost text = { λ writer. writer.out.items };

    #[inline(always)]
    fn turn<'a>(
        &mut self,
        position: &mut GamePosition,
        inside: bool,
        word: &'a [u8],
        ply: usize,
    ) -> Result<LineMove, GameFault<'a>> {
        let (side, number) = (position.side(), position.number());
        let mut san = ArrayString::new();
        let turn = play_turn_san(position, inside, word, ply, &mut san)?;
        self.put_turn(side, number, san.as_bytes())?;
        Ok(turn)
    }

    #[inline(always)]
    fn beside(&mut self, element: Element<'_>) -> Result<(), AllocError> {
        match element {
            Element::Move(_) => Ok(()),
            Element::Glyph(number) => {
                if !self.style.glyphs {
                    return Ok(());
                }
                put_glyph(&mut self.wrapper, &mut self.out, number)
            }
            Element::Comment(text) => {
                if !self.style.comments {
                    return Ok(());
                }
                self.put_remark(text)
            }
            Element::Open => self.put_parenthesis(b"("),
            Element::Close => self.put_parenthesis(b")"),
        }
    }
}

/// Plays the lines of the game from this start, with variations or without, and takes the visitor
/// along their steps.
pub(crate) fn walk_lines<'a, V: StepVisitor>(
    alloc: Global,
    game: &RawGame<'a>,
    start: &GamePosition,
    variations: bool,
    visitor: &mut V,
) -> Result<(), GameFault<'a>>
    ensures walked { MatchResult result
        (λ _. (steps : List Step)
        × Walks (shown_items variations 0 game.now.elements) (first_level start.now) [] steps
        × Visits V.does visitor.old steps visitor.new)
        (λ fault.
        IfSome (fault_of fault)
        (HasLineFault (lines_with variations) start.now game.now.elements)) }
    ensures paired { IsPaired 0 game.now.elements }
    ensures kept { (some : List ℕ) × (V.text visitor.new ≡ V.text visitor.old ++ some) }
{
    let mut stack = LineStack::new(alloc, Level::first(start));
    walk(&mut stack, game.elements(), variations, visitor)
}

/// Plays the lines of the game that the style keeps from this start, and writes its movetext in
/// lines of the style's width: its moves, with what the style keeps beside them, and its result.
/// Where a line is faulty or memory runs out, some of it may stand in the vector.
pub(crate) fn put_movetext<'a>(
    alloc: Global,
    game: &RawGame<'a>,
    start: &GamePosition,
    style: &Style,
    out: &mut Vec<u8>,
) -> Result<(), GameFault<'a>>
    ensures text { OnOk result ((movetext : List ℕ)
        × IsMovetext style.now start.now game.now movetext
        × (out.new.items ≡ out.old.items ++ movetext)) }
    ensures fault { IfErr result (λ fault.
        IfSome (fault_of fault)
        (HasLineFault (lines_with style.now.variations) start.now game.now.elements)) }
    ensures kept { (some : List ℕ) × (out.new.items ≡ out.old.items ++ some) }
{
    let mut writer = MovetextWriter::new(alloc, mem::replace(out, Vec::new(alloc)), style);
    let walked = walk_lines(alloc, game, start, style.variations, &mut writer);
    let MovetextWriter {
        out: text,
        mut wrapper,
        ..
    } = writer;
    *out = text;
    walked?;
    Ok(wrapper.put_last(out, game.result())?)
}

/// The movetext in the style of a game that is one line, which is a variation or not; or the first
/// fault of it.
pub(crate) fn play_line<'a>(
    alloc: Global,
    line: &RawGame<'a>,
    inside: bool,
    style: &Style,
) -> Result<Vec<u8>, GameFault<'a>>
    ensures text { IfOk result (λ movetext. (start : State)
        × IsStart (tag_in fen_tag line.now.tags) start
        × IsLineMovetext inside style.now start line.now movetext.items) }
    ensures fault { IfErr result (λ fault.
        IfSome (fault_of fault)
        (IsFaultOfLine inside style.now.variations (tag_in fen_tag line.now.tags)
        line.now.elements)) }
{
    let start = starting_position(alloc, line.tags())?;
    let mut stack = first_line(alloc, &start, inside)?;
    let mut writer = MovetextWriter::new(alloc, Vec::new(alloc), style);
    walk(&mut stack, line.elements(), style.variations, &mut writer)?;
    let MovetextWriter {
        out: mut movetext,
        mut wrapper,
        ..
    } = writer;
    wrapper.put_last(&mut movetext, line.result())?;
    Ok(movetext)
}
