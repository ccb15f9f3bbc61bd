//! The main line of a game, played ply by ply.
ghost use Rattle.std.specs.Prelude.{◌≡◌, ◌++◌, ℕ, List, MatchResult, IfErr, IfSome, OnOk};
ghost use Rattle.pgn_text.specs.Public.GameTexts.{tag_in};
ghost use Rattle.pgn_game.specs.Public.Starts.{fen_tag};
ghost use Rattle.pgn_game.specs.Public.Faults.{IsFault, IsMoveFault};
ghost use Rattle.pgn_game.specs.Public.PlayedLines.{IsBegun, HasAdvanced, HasGoneOn};
ghost use Rattle.pgn_game.specs.Public.PlayedLines.{IsNextText};
ghost use Rattle.pgn_game.specs.Public.Replays.{fault_of};
ghost use Rattle.pgn_game.specs.declared.replays.replayer.Lines.TheVariants.{Main};

use crate::replays::main_line::{MainWalk, next_word};
use crate::turns::fault::GameFault;
use crate::turns::naming::play_named_san;
use crate::turns::replayed::GamePosition;
use crate::turns::starting::starting_position;
use arrayvec::ArrayString;
use chess::Move;
use pgn_text::{Element, RawGame};
use std::alloc::Global;
use std::marker::Model;

/// The main line of a game while it is played, ply by ply. No position is kept but the one that is
/// reached. Contracts see that position, the plies that lead to it, and the words of the moves that
/// are still to be played.
#[derive(Drop)]
pub struct MainLine<'g, 'a> {
    walk: MainWalk,
    rest: &'g [Element<'a>],
}

impl<'g, 'a> Model for MainLine<'g, 'a> {
    ghost use Rattle.std.specs.Prelude.{◌+◌, ◌<◌, ◌^◌, length, map};
    ghost use Rattle.pgn_text.specs.Public.Elements.{item_of};
    ghost use Rattle.pgn_game.specs.Private.Codes.{coded_played_line};
    ghost use Rattle.pgn_game.specs.Public.MainLines.{main_words};
    ghost use Rattle.pgn_game.specs.Public.PlayedLines.{PlayedLine};

    ghost Value = { PlayedLine };

    ghost coded = { coded_played_line };

    ghost view = { λ line. record {
      position = line.walk.position;
      plies = line.walk.plies;
      words = main_words (map item_of line.rest.now) line.walk.depth;
    } };

    ghost invariant = { λ line. record {
      plies : line.walk.plies + length line.rest.now < 2 ^ 64;
      depth : line.walk.depth + length line.rest.now < 2 ^ 64;
    } };
}

impl<'g, 'a> MainLine<'g, 'a> {
    /// The main line of the game at its start, before its first move.
    pub fn begin(alloc: Global, raw: &'g RawGame<'a>) -> Result<Self, GameFault<'a>>
        ensures { MatchResult result
            (λ line. IsBegun (tag_in fen_tag raw.now.tags) raw.now.elements line)
            (λ fault.
            IfSome (fault_of fault)
            (IsFault Main (tag_in fen_tag raw.now.tags) raw.now.elements)) }
    {
        let start = starting_position(alloc, raw.tags())?;
        Ok(MainLine {
            walk: MainWalk::new(start),
            rest: raw.elements(),
        })
    }

    /// The position that is reached.
    #[inline(always)]
    pub fn position(&self) -> &GamePosition
        ensures { result.now ≡ self.now.position }
    {
        &self.walk.position
    }

    /// How many plies lead to it.
    #[inline(always)]
    pub fn plies(&self) -> usize
        ensures { result ≡ self.now.plies }
    {
        self.walk.plies
    }

    /// Plays the next move and answers it; none at the end.
    #[inline(always)]
    fn next_move(&mut self) -> Result<Option<Move>, GameFault<'a>>
        ensures { MatchResult result
            (HasGoneOn self.old self.new)
            (λ fault.
            IfSome (fault_of fault)
            (IsMoveFault self.old.position self.old.plies self.old.words)) }
    {
        while let [element, rest @ ..] = self.rest {
            self.rest = rest;
            if let Some(m) = self.walk.step(*element)? {
                return Ok(Some(m));
            }
        }
        Ok(None)
    }

    /// Plays the next move: true after a move, false at the end. A word that can't be played gives
    /// the game's fault, and nothing is said of the line then.
    #[inline(always)]
    pub fn advance(&mut self) -> Result<bool, GameFault<'a>>
        ensures { MatchResult result
            (HasAdvanced self.old self.new)
            (λ fault.
            IfSome (fault_of fault)
            (IsMoveFault self.old.position self.old.plies self.old.words)) }
    {
        Ok(self.next_move()?.is_some())
    }

    /// Plays the next move and answers it, none at the end; `before` becomes the position in which
    /// the line stood, by `Position::copy_from`. A word that can't be played gives the game's
    /// fault, and nothing is said of the line then.
    #[inline(always)]
    pub fn advance_from(&mut self, before: &mut GamePosition) -> Result<Option<Move>, GameFault<'a>>
        ensures before { before.new ≡ self.old.position }
        ensures went { MatchResult result
            (HasGoneOn self.old self.new)
            (λ fault.
            IfSome (fault_of fault)
            (IsMoveFault self.old.position self.old.plies self.old.words)) }
    {
        before.copy_from(&self.walk.position);
        self.next_move()
    }

    /// Appends the standard text of the next move, or `-` where there is none; the line stays as it
    /// is. At a word that can't be played, the game has its fault.
    pub fn push_next(&self, out: &mut Vec<u8>) -> Result<(), GameFault<'a>>
        ensures text { OnOk result ((text : List ℕ)
            × IsNextText self.now.position self.now.words text
            × (out.new.items ≡ out.old.items ++ text)) }
        ensures fault { IfErr result (λ fault.
            IfSome (fault_of fault) (IsMoveFault self.now.position self.now.plies self.now.words)) }
        ensures kept { (some : List ℕ) × (out.new.items ≡ out.old.items ++ some) }
    {
        let Some(word) = next_word(self.rest, self.walk.depth) else {
            out.extend_from_slice(b"-")?;
            return Ok(());
        };
        let mut next = self.walk.position.copy();
        let mut text = ArrayString::new();
        play_named_san(&mut next, word, self.walk.plies + 1, &mut text)?;
        out.extend_from_slice(text.as_bytes())?;
        Ok(())
    }
}
