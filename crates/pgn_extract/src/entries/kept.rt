//! The entries of a game whose rows show what is known of its whole main line: that is played and
//! its moves are kept, and then it is looked through.
ghost use Rattle.std.specs.Prelude.{◌≡◌, ◌<◌, ◌+◌, ◌-◌, ◌⊎◌, ◌++◌, ◌∷◌, [], List, ℕ, true};
ghost use Rattle.std.specs.Prelude.{MatchResult, Option, IfErr, IfOk, IfSome, None, Some, OnOk};
ghost use Rattle.std.specs.Prelude.{length, refl};
ghost use Rattle.std.specs.List.{slice_get};
ghost use Rattle.chess.specs.Public.Positions.{State};
ghost use Rattle.pgn_game.specs.Public.CodeLines.{AreLegalMoves, positions_from};
ghost use Rattle.pgn_text.specs.Public.GameTexts.{tag_in};
ghost use Rattle.pgn_game.specs.Public.Faults.{IsFault};
ghost use Rattle.pgn_game.specs.Public.Replays.{IsSoundGame, fault_of};
ghost use Rattle.pgn_game.specs.Public.Openings.{NamedLine};
ghost use Rattle.pgn_game.specs.Public.Starts.{fen_tag};
ghost use Rattle.pgn_game.specs.declared.replays.replayer.Lines.TheVariants.{Main};
ghost use Rattle.pgn_extract.specs.Public.Aims.{Aim, GameId, aim_of};
ghost use Rattle.pgn_extract.specs.Private.Finding.{StopsAtFault};
ghost use Rattle.pgn_extract.specs.Private.KeptLines.{AreFirst, IsKeptWith};
ghost use Rattle.pgn_extract.specs.Private.KeptLines.{IsReached, line_of};
ghost use Rattle.pgn_extract.specs.Private.Lines.{aim_with, HandsOn, MakesLines, marked_lines};

use crate::entries::finding::Finder;
use crate::entries::line::Line;
use crate::entries::line_value::{push_line_value, push_played};
use crate::entries::played::{Question, find_played, push_position_value};
use crate::output::texts::push_number;
use crate::rows::column::PlyColumn;
use chess::Move;
use pgn_criteria::Criteria;
use pgn_game::{GameFault, GamePosition, Lines, MainLine, Notation, Replayed, replay};
use pgn_text::RawGame;
use std::alloc::{AllocError, Global};

/// So many positions of a main line are kept; a later one is played from the one before it.
pub(crate) const MOST: usize = 4096;

/// A main line of which the moves are kept, and the first positions, with what is known of each:
/// whether it is met. A ply of it is reached: where it is past the first positions, its own is kept
/// and the one before that.
#[derive(Drop)]
pub(crate) struct Kept {
    pub(crate) start: GamePosition,
    pub(crate) played: Vec<Move>,
    pub(crate) met: Vec<bool>,
    pub(crate) first: Vec<GamePosition>,
    pub(crate) before: GamePosition,
    pub(crate) here: GamePosition,
    pub(crate) ply: usize,
}

/// Adds whether one more position is met.
#[inline(always)]
pub(crate) fn add_met(met: &mut Vec<bool>, is: bool) -> Result<(), AllocError>
    ensures { OnOk result (met.new.items ≡ met.old.items ++ is ∷ []) }
{
    met.push(is)?;
    Ok(())
}

/// Adds one more move.
#[inline(always)]
pub(crate) fn add_move(played: &mut Vec<Move>, m: &Move) -> Result<(), AllocError>
    ensures { OnOk result (played.new.items ≡ played.old.items ++ m.now ∷ []) }
{
    played.push(*m)?;
    Ok(())
}

/// Adds the position after so many plies, where it is one of the first and follows those before it.
#[inline(always)]
pub(crate) fn keep_first(
    first: &mut Vec<GamePosition>,
    ply: usize,
    position: &GamePosition,
) -> Result<(), AllocError>
    ensures { OnOk result ((n : ℕ) (P : State) → slice_get first.new.items n ≡ Some P
        → (slice_get first.old.items n ≡ Some P) ⊎ ((n ≡ ply) × (P ≡ position.now))) }
{
    if ply < MOST && first.len() == ply {
        first.push(position.copy())?;
    }
    Ok(())
}

/// The moves of the line, of which the first positions are added.
fn moves_of(
    alloc: Global,
    replayed: &Replayed,
    first: &mut Vec<GamePosition>,
) -> Result<Vec<Move>, AllocError>
    requires { first.old.items ≡ [] }
    ensures moves { IfOk result (λ moves. moves.items ≡ replayed.now.played) }
    ensures size { IfOk result (λ moves. length replayed.now.positions
        ≡ length moves.items + 1) }
    ensures first { OnOk result (AreFirst first.new.items replayed.now.positions) }
{
    let plies = replayed.plies();
    let mut moves = Vec::with_capacity(alloc, plies)?;
    for ply in 0..plies {
        keep_first(first, ply, replayed.position(ply))?;
        moves.push(replayed.played(ply))?;
    }
    Ok(moves)
}

impl Kept {
    /// The line from the position by these moves, before the first of them. These are the first of
    /// its positions.
    pub(crate) fn begin(
        start: GamePosition,
        played: Vec<Move>,
        met: Vec<bool>,
        first: Vec<GamePosition>,
    ) -> Self
        requires sized { length met.items ≡ length played.items + 1 }
        requires legal { AreLegalMoves start played.items }
        requires first { AreFirst first.items (positions_from start played.items) }
        ensures reached { IsReached result }
        ensures line { (result.start ≡ start) × (result.played.items ≡ played.items)
            × (result.met.items ≡ met.items) × (result.ply ≡ 0) }
    {
        let before = start.copy();
        let here = start.copy();
        Kept {
            start,
            played,
            met,
            first,
            before,
            here,
            ply: 0,
        }
    }

    /// The position at the ply that is reached.
    #[inline(always)]
    pub(crate) fn position(&self) -> &GamePosition
        requires { IsReached self.now }
        ensures { slice_get (line_of self.now).positions self.now.ply ≡ Some result.now }
    {
        if self.ply < self.first.len() {
            return &self.first[self.ply];
        }
        &self.here
    }

    /// The position before it.
    #[inline(always)]
    pub(crate) fn last_position(&self) -> &GamePosition
        requires reached { IsReached self.now }
        requires some { 0 < self.now.ply }
        ensures { slice_get (line_of self.now).positions (self.now.ply - 1) ≡ Some result.now }
    {
        if self.ply - 1 < self.first.len() {
            return &self.first[self.ply - 1];
        }
        &self.before
    }

    /// Plays the next move.
    #[inline(never)]
    fn play_next(&mut self)
        requires reached { IsReached self.old }
        requires more { self.old.ply < length self.old.played.items }
        ensures reached { IsReached self.new }
        ensures line { (line_of self.new ≡ line_of self.old)
            × (self.new.met.items ≡ self.old.met.items) × (self.new.ply ≡ self.old.ply + 1) }
    {
        let from = self.position().copy();
        self.here = from.play(self.played[self.ply]);
        self.before = from;
        self.ply += 1;
    }

    /// The main line of the game, of which all positions are asked once they are known; or its
    /// fault.
    fn of_short_game<'a>(
        alloc: Global,
        criteria: &'a Criteria,
        game: &RawGame<'a>,
    ) -> Result<Self, GameFault<'a>>
        ensures { MatchResult result
            (λ line. IsReached line × ((aim : Aim) → aim.criteria ≡ Some criteria.now
            → (P : State) × IsKeptWith (line_of line) line.met.items line.ply aim game.now [] P))
            (λ fault.
            IfSome (fault_of fault)
            (IsFault Main (tag_in fen_tag game.now.tags) game.now.elements)) }
    {
        let replayed = replay(alloc, game, Lines::Main)?;
        let met = criteria.met_plies(alloc, game, &replayed)?;
        let mut first = Vec::new(alloc);
        let played = moves_of(alloc, &replayed, &mut first)?;
        Ok(Kept::begin(replayed.position(0).copy(), played, met, first))
    }

    /// The main line of the game, of which each position is asked this as it is reached; or its
    /// fault.
    pub(crate) fn of_game<'a, Q: Question>(
        alloc: Global,
        game: &RawGame<'a>,
        question: &Q,
    ) -> Result<Self, GameFault<'a>>
        ensures { MatchResult result
            (λ line. IsReached line × ((aim : Aim) → Q.Asks question.now aim.criteria game.now
            → (P : State) × IsKeptWith (line_of line) line.met.items line.ply aim game.now [] P))
            (λ fault.
            IfSome (fault_of fault)
            (IsFault Main (tag_in fen_tag game.now.tags) game.now.elements)) }
    {
        let mut line = MainLine::begin(alloc, game)?;
        let most = game.elements().len();
        let mut played = Vec::with_capacity(alloc, most)?;
        let mut met = Vec::with_capacity(alloc, most.saturating_add(1))?;
        let mut first = Vec::new(alloc);
        let start = line.position().copy();
        let mut before = line.position().copy();
        loop {
            keep_first(&mut first, line.plies(), line.position())?;
            add_met(&mut met, question.is_met(line.plies(), line.position()))?;
            let next = line.advance_from(&mut before)?;
            let Some(m) = next else {
                return Ok(Kept::begin(start, played, met, first));
            };
            add_move(&mut played, &m)?;
        }
    }
}

impl Line for Kept {
    type Fault = AllocError;

    ghost At = { λ own aim game before P.
        IsKeptWith (line_of own) own.met.items own.ply aim game before P };

    ghost Valid = { λ own. IsReached own };

    ghost Shows = { λ column. Unit {0} };

    ghost size = { λ own. length own.met.items - own.ply };

    ghost fault_of = { λ _. None };

    #[inline(always)]
    fn ply(&self) -> usize {
        self.ply
    }

    #[inline(always)]
    fn is_met(&self) -> bool {
        self.met[self.ply]
    }

    fn push_value(&self, text: &mut Vec<u8>, column: PlyColumn) -> Result<(), AllocError> {
        match column {
            PlyColumn::Ply => push_number(text, self.ply),
            PlyColumn::OfPosition(own) => push_position_value(text, self.position(), own),
            PlyColumn::Next => {
                push_played(text, self.position(), &self.played, self.ply, Notation::San)
            }
            PlyColumn::NextUci => {
                push_played(text, self.position(), &self.played, self.ply, Notation::Uci)
            }
            PlyColumn::OfLine(own) => push_line_value(text, self, own),
        }
    }

    #[inline(always)]
    fn advance(&mut self, is_open: bool) -> Result<bool, AllocError> {
        let next = self.ply + 1;
        if !is_open || next == self.met.len() {
            return Ok(false);
        }
        if next >= self.first.len() {
            self.play_next();
            return Ok(true);
        }
        self.ply = next;
        Ok(true)
    }

    ghost stands = { λ own aim game before P at. at.stands };

    ghost memory = { λ error fault from. refl };
}

/// Plays the main line of the game and keeps its moves, and adds the lines of its entries.
#[inline(never)]
fn find_kept<'a, Q: Question>(
    finder: &Finder<'_>,
    alloc: Global,
    game: &RawGame<'a>,
    question: &Q,
    text: &mut Vec<u8>,
) -> Result<(), GameFault<'a>>
    requires asks { Q.Asks question.now (aim_of finder.now.settings.now).criteria game.now }
    ensures found { OnOk result ((name : Option (List ℕ))
        (openings : Option (List NamedLine)) (id : GameId)
        → MakesLines finder.now.lines name openings id game.now
        → HandsOn (aim_with finder.now name openings) id game.now
        (λ got. text.new.items ≡ text.old.items ++ marked_lines finder.now.mark.items got)) }
    ensures fault { IfErr result (λ fault.
        IfSome (fault_of fault) (StopsAtFault game.now text.old.items text.new.items)) }
{
    let mut line = Kept::of_game(alloc, game, question)?;
    finder.find(&mut line, text, true)?;
    Ok(())
}

/// Replays and keeps the main line of a short game, and adds the lines of its entries.
#[inline(never)]
pub(crate) fn find_replayed<'a>(
    finder: &Finder<'_>,
    alloc: Global,
    criteria: &'a Criteria,
    game: &RawGame<'a>,
    text: &mut Vec<u8>,
) -> Result<(), GameFault<'a>>
    requires criteria { finder.now.settings.now.criteria ≡ Some criteria.now }
    ensures found { OnOk result ((name : Option (List ℕ))
        (openings : Option (List NamedLine)) (id : GameId)
        → MakesLines finder.now.lines name openings id game.now
        → HandsOn (aim_with finder.now name openings) id game.now
        (λ got. text.new.items ≡ text.old.items ++ marked_lines finder.now.mark.items got)) }
    ensures fault { IfErr result (λ fault.
        IfSome (fault_of fault) (StopsAtFault game.now text.old.items text.new.items)) }
{
    let mut line = Kept::of_short_game(alloc, criteria, game)?;
    Ok(finder.find(&mut line, text, true)?)
}

/// Plays the main line of the game, and adds the lines of its entries. Its moves are kept only
/// where a row shows something of the whole line.
pub(crate) fn find_asked<'a, Q: Question>(
    finder: &Finder<'_>,
    alloc: Global,
    game: &RawGame<'a>,
    question: Q,
    text: &mut Vec<u8>,
) -> Result<(), GameFault<'a>>
    requires asks { Q.Asks question (aim_of finder.now.settings.now).criteria game.now }
    requires sound { finder.now.is_sound ≡ true
        → IsSoundGame Main (tag_in fen_tag game.now.tags) game.now.elements }
    ensures found { OnOk result ((name : Option (List ℕ))
        (openings : Option (List NamedLine)) (id : GameId)
        → MakesLines finder.now.lines name openings id game.now
        → HandsOn (aim_with finder.now name openings) id game.now
        (λ got. text.new.items ≡ text.old.items ++ marked_lines finder.now.mark.items got)) }
    ensures fault { IfErr result (λ fault.
        IfSome (fault_of fault) (StopsAtFault game.now text.old.items text.new.items)) }
{
    if finder.lines.needs_line() {
        return find_kept(finder, alloc, game, &question, text);
    }
    find_played(finder, alloc, game, question, text)
}
