//! A main line whose positions are asked while it is played.
ghost use Rattle.std.specs.Prelude.{◌≡◌, ◌↔◌, ◌++◌, ℕ, List, true, false, Option, IsTrue, IfErr};
ghost use Rattle.std.specs.Prelude.{IfSome, None, Some, get_or};
ghost use Rattle.std.specs.Prelude.{◌≤◌, OnOk, codes, length};
ghost use Rattle.std.proofs.Common.{ap};
ghost use Rattle.chess.specs.Public.San.{IsOnlyNamed};
ghost use Rattle.chess.specs.declared.moves.Move.{Move};
ghost use Rattle.pgn_text.specs.Public.GameTexts.{tag_in};
ghost use Rattle.pgn_game.specs.Public.Faults.{IsFault};
ghost use Rattle.pgn_game.specs.Public.Openings.{NamedLine};
ghost use Rattle.pgn_game.specs.Public.Starts.{fen_tag};
ghost use Rattle.pgn_game.specs.declared.replays.replayer.Lines.TheVariants.{Main};
ghost use Rattle.pgn_extract.specs.Public.Aims.{GameId, aim_of};
ghost use Rattle.pgn_extract.specs.Private.Lines.{aim_with, HandsOn, MakesLines, keeps_line};
ghost use Rattle.pgn_extract.specs.Private.Lines.{marked_lines};
ghost use Rattle.pgn_criteria.specs.Public.Conditions.{Conditions};
ghost use Rattle.pgn_game.specs.Public.Replays.{IsSoundGame, Replay, fault_of};
ghost use Rattle.pgn_extract.specs.Private.Finding.{StopsAtFault, StopsInLine};
ghost use Rattle.pgn_extract.specs.Private.Finding.{IsDashLeftOut, IsNextValue, IsNextUci};
ghost use Rattle.pgn_extract.specs.Private.RowTexts.{IsPlainValue, needs_line};
ghost use Rattle.pgn_extract.specs.Public.Rows.{IsPositionCell};
ghost use Rattle.pgn_extract.specs.Private.PlayedLines.{AsksOf, IsPlayedWith, NoneFrom, TellsAt};
ghost use Rattle.pgn_extract.specs.Private.PlayedLines.{TellsOf};

use crate::entries::finding::Finder;
use crate::entries::kept::{MOST, find_asked, find_replayed};
use crate::entries::line::Line;
use crate::entries::sink::Sink;
use crate::output::texts::push_number;
use crate::rows::column::{PlyColumn, PositionColumn};
use crate::rows::position::{check_sign, push_material, push_men};
use crate::rows::uci::push_uci;
use chess::{Move, Side, resolve};
use pgn_criteria::{Criteria, Search};
use pgn_game::{GameFault, GamePosition, MainLine};
use pgn_text::RawGame;
use std::alloc::{AllocError, Global};

/// What each position is asked.
pub(crate) trait Question: Drop {
    ghost use Rattle.pgn_text.specs.Public.GameTexts.{GameText};

    /// It asks of this game what the criteria ask.
    ghost Asks: { Self → Option (List Conditions) → GameText → Type 0 };

    /// Whether a position may meet them after so many plies or more: not where none does.
    fn is_open(&self, plies: usize) -> bool
        ensures { result ≡ false → (criteria : Option (List Conditions)) (game : GameText)
            → Asks self.now criteria game → NoneFrom plies criteria game };

    /// Whether the position after so many plies meets them.
    fn is_met(&self, plies: usize, position: &GamePosition) -> bool
        ensures { (criteria : Option (List Conditions)) (game : GameText)
            → Asks self.now criteria game → TellsAt result plies position.now criteria game };
}

impl<'a> Question for Search<'a> {
    ghost Asks = { λ search criteria game. AsksOf search criteria game };

    #[inline(always)]
    fn is_open(&self, _: usize) -> bool {
        !self.is_empty()
    }

    #[inline(always)]
    fn is_met(&self, _: usize, position: &GamePosition) -> bool {
        Search::is_met(self, position)
    }
}

/// Every position is looked for.
#[derive(Drop)]
pub(crate) struct Anything;

impl Question for Anything {
    ghost Asks = { λ _ criteria game. criteria ≡ None };

    #[inline(always)]
    fn is_open(&self, _: usize) -> bool {
        true
    }

    #[inline(always)]
    fn is_met(&self, _: usize, _: &GamePosition) -> bool {
        true
    }
}

/// The plies that meet the criteria are known, up to the last of them.
#[derive(Drop)]
pub(crate) struct Known {
    pub(crate) met: Vec<bool>,
}

impl Question for Known {
    ghost Asks = { λ known criteria game. TellsOf known.met.items criteria game };

    #[inline(always)]
    fn is_open(&self, plies: usize) -> bool {
        plies < self.met.len()
    }

    #[inline(always)]
    fn is_met(&self, plies: usize, _: &GamePosition) -> bool {
        if plies < self.met.len() {
            return self.met[plies];
        }
        false
    }
}

/// Appends what a column shows of a position.
pub(crate) fn push_position_value(
    text: &mut Vec<u8>,
    position: &GamePosition,
    column: PositionColumn,
) -> Result<(), AllocError>
    ensures { OnOk result ((value : List ℕ) × IsPlainValue value
        × IsPositionCell column position.now value
        × (text.new.items ≡ text.old.items ++ value)) }
{
    position.invariant();
    match column {
        PositionColumn::Fen => {
            text.extend_from_slice(position.fen().as_bytes())?;
            Ok(())
        }
        PositionColumn::Turn => match position.side() {
            Side::White => text.extend_from_slice(b"w"),
            Side::Black => text.extend_from_slice(b"b"),
        },
        PositionColumn::Number => push_number(text, position.number() as usize),
        PositionColumn::Men => push_men(text, position),
        PositionColumn::Check => text.extend_from_slice(check_sign(position)),
        PositionColumn::Material => push_material(text, position),
    }
}

/// Whether the text is that of no move.
fn is_dash(text: &[u8]) -> bool
    ensures { IsTrue result ↔ (text.now ≡ codes "-") }
{
    text == b"-".as_slice()
}

/// Takes the text of no move away, where it stands from a place on.
fn leave_dash_out(text: &mut Vec<u8>, from: usize)
    requires { from ≤ length text.old.items }
    ensures { (start own : List ℕ) → text.old.items ≡ start ++ own → length start ≡ from
        → (value : List ℕ) × IsDashLeftOut own value × (text.new.items ≡ start ++ value) }
{
    if is_dash(&text[from..]) {
        text.truncate(from);
    }
}

/// Appends the text of the next move, and nothing where there is none. A move that cannot be played
/// is answered as a fault.
fn push_next_value<'a>(text: &mut Vec<u8>, line: &MainLine<'_, 'a>) -> Result<(), GameFault<'a>>
    ensures shown { OnOk result ((value : List ℕ) × IsPlainValue value
        × IsNextValue line.now value
        × (text.new.items ≡ text.old.items ++ value)) }
    ensures fault { IfErr result (λ fault.
        IfSome (fault_of fault) (StopsInLine line.now text.old.items text.new.items)) }
{
    line.position().invariant();
    let from = text.len();
    line.push_next(text)?;
    leave_dash_out(text, from);
    Ok(())
}

/// The move of which this is the text.
fn move_of(position: &GamePosition, text: &[u8]) -> Move
    requires { (m : Move) × IsOnlyNamed position.now text.now m }
    ensures { IsOnlyNamed position.now text.now result }
{
    match resolve(position, text) {
        Ok(m) => m,
        Err(_) => unreachable!(),
    }
}

/// Appends the next move as `--uci` writes it, and nothing where there is none. A move that cannot
/// be played is answered as a fault.
fn push_next_uci<'a>(text: &mut Vec<u8>, line: &MainLine<'_, 'a>) -> Result<(), GameFault<'a>>
    ensures shown { OnOk result ((value : List ℕ) × IsPlainValue value
        × IsNextUci line.now.position line.now.words value
        × (text.new.items ≡ text.old.items ++ value)) }
    ensures fault { IfErr result (λ fault.
        IfSome (fault_of fault) (StopsInLine line.now text.old.items text.new.items)) }
{
    line.position().invariant();
    let from = text.len();
    line.push_next(text)?;
    if is_dash(&text[from..]) {
        text.truncate(from);
        return Ok(());
    }
    let m = move_of(line.position(), &text[from..]);
    text.truncate(from);
    push_uci(text, m)?;
    Ok(())
}

/// A main line while it is played, which may be known to be sound.
#[derive(Drop)]
pub(crate) struct Played<'g, 'a, Q: Question> {
    pub(crate) line: MainLine<'g, 'a>,
    pub(crate) question: Q,
    pub(crate) is_sound: bool,
}

impl<'g, 'a, Q: Question> Line for Played<'g, 'a, Q> {
    type Fault = GameFault<'a>;

    ghost At = { λ own aim game before P.
        IsPlayedWith own.is_sound own.line (Q.Asks own.question) aim game before P };

    ghost Valid = { λ own. Unit {0} };

    ghost Shows = { λ column. needs_line column ≡ false };

    ghost size = { λ own. length own.line.words };

    ghost fault_of = { λ fault. fault_of fault };

    #[inline(always)]
    fn ply(&self) -> usize {
        self.line.plies()
    }

    #[inline(always)]
    fn is_met(&self) -> bool {
        self.question
            .is_met(self.line.plies(), self.line.position())
    }

    fn push_value(&self, text: &mut Vec<u8>, column: PlyColumn) -> Result<(), GameFault<'a>> {
        match column {
            PlyColumn::Ply => {
                push_number(text, self.line.plies())?;
                Ok(())
            }
            PlyColumn::OfPosition(own) => {
                push_position_value(text, self.line.position(), own)?;
                Ok(())
            }
            PlyColumn::Next => push_next_value(text, &self.line),
            PlyColumn::NextUci => push_next_uci(text, &self.line),
            PlyColumn::OfLine(_) => unreachable!(),
        }
    }

    #[inline(always)]
    fn advance(&mut self, is_open: bool) -> Result<bool, GameFault<'a>> {
        if self.is_sound && (!is_open || !self.question.is_open(self.line.plies())) {
            return Ok(false);
        }
        self.line.advance()
    }

    ghost stands = { λ own aim game before P at. at.stands };

    ghost memory = { λ error fault from. ap fault_of from };
}

/// Plays the main line of the game, and hands on its entries.
#[inline(never)]
pub(crate) fn find_played<'a, Q: Question, S: Sink>(
    finder: &Finder<'_>,
    alloc: Global,
    game: &RawGame<'a>,
    question: Q,
    sink: &mut S,
) -> Result<(), GameFault<'a>>
    requires takes { S.Takes finder.now.lines }
    requires shows { keeps_line finder.now.lines ≡ false }
    requires asks { Q.Asks question (aim_of finder.now.settings.now).criteria game.now }
    requires sound { finder.now.is_sound ≡ true
        → IsSoundGame Main (tag_in fen_tag game.now.tags) game.now.elements }
    ensures found { OnOk result ((name : Option (List ℕ))
        (openings : Option (List NamedLine)) (id : GameId)
        → MakesLines finder.now.lines name openings id game.now
        → HandsOn (aim_with finder.now name openings) id game.now
        (λ got. S.Gets finder.now.mark.items sink.old got sink.new)) }
    ensures fault { IfErr result (λ fault. IfSome (fault_of fault)
        (λ own. IsFault Main (tag_in fen_tag game.now.tags) game.now.elements own
        × S.Grew sink.old sink.new)) }
{
    let is_open = question.is_open(0);
    let line = MainLine::begin(alloc, game)?;
    let mut line = Played {
        line,
        question,
        is_sound: finder.is_sound,
    };
    finder.find(&mut line, sink, is_open)
}

/// Leaves out what is told of the plies after the last that is met.
fn end_met(met: &mut Vec<bool>)
    ensures { (ply : ℕ) → get_or met.new.items ply false ≡ get_or met.old.items ply false }
{
    let mut end = met.len();
    while end > 0 && !met[end - 1] {
        end -= 1;
    }
    met.truncate(end);
}

/// Asks which plies of the game meet the criteria, and plays its main line again up to the last of
/// them, if there is one, to add the lines of its entries. No position is kept, unless the game is
/// short and a row shows something of the whole line.
#[inline(never)]
pub(crate) fn find_again<'a>(
    finder: &mut Finder<'_>,
    alloc: Global,
    criteria: &'a Criteria,
    game: &RawGame<'a>,
    text: &mut Vec<u8>,
) -> Result<(), GameFault<'a>>
    requires criteria { finder.old.settings.now.criteria ≡ Some criteria.now }
    ensures found { OnOk result ((name : Option (List ℕ))
        (openings : Option (List NamedLine)) (id : GameId)
        → MakesLines finder.old.lines name openings id game.now
        → HandsOn (aim_with finder.old name openings) id game.now
        (λ got. text.new.items ≡ text.old.items ++ marked_lines finder.old.mark.items got)) }
    ensures fault { IfErr result (λ fault.
        IfSome (fault_of fault) (StopsAtFault game.now text.old.items text.new.items)) }
{
    if finder.lines.needs_line() && game.elements().len() <= MOST {
        return find_replayed(finder, alloc, criteria, game, text);
    }
    let mut met = criteria.met_of_game(alloc, game)?;
    end_met(&mut met);
    if met.is_empty() {
        return Ok(());
    }
    finder.is_sound = true;
    find_asked(finder, alloc, game, Known { met }, text)
}
