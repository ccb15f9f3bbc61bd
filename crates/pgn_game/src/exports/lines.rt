//! Each line of a game written, as a game of its own or on a line of text.
ghost use Rattle.std.specs.Prelude.{◌≡◌, ◌++◌, ◌∷◌, ◌<◌, Bool, true, false, ℕ, List, [], IfErr};
ghost use Rattle.std.specs.Prelude.{IfOk, IfSome, OnErr, OnOk, length, map, option_map};
ghost use Rattle.std.specs.List.{AllByRecursion};
ghost use Rattle.chess.specs.Public.Positions.{State};
ghost use Rattle.pgn_text.specs.Public.Elements.{item_of};
ghost use Rattle.pgn_text.specs.Public.Games.{Item, MoveText, VariationOpen};
ghost use Rattle.pgn_text.specs.Public.GameTexts.{GameText, tag_in};
ghost use Rattle.pgn_game.specs.Public.AllLines.{Line, spelled};
ghost use Rattle.pgn_game.specs.Public.Edits.{IsEditedLine, order_of};
ghost use Rattle.pgn_game.specs.Public.Exports.{IsLineExport, IsLineMovetext};
ghost use Rattle.pgn_game.specs.Public.Faults.{IsFault};
ghost use Rattle.pgn_game.specs.Public.LineGames.{AreLineTexts, AreTextsOf, IsTextOfLine};
ghost use Rattle.pgn_game.specs.Public.LineGames.{WritesFirst, layout_of, line_items, lines_of};
ghost use Rattle.pgn_game.specs.Public.LineGames.{unfinished};
ghost use Rattle.pgn_game.specs.Public.Replays.{IsSoundGame, fault_of};
ghost use Rattle.pgn_game.specs.Public.Starts.{IsStart, fen_tag};
ghost use Rattle.pgn_game.specs.Private.Editing.{plies_up_to};
ghost use Rattle.pgn_game.specs.Private.LinePaths.{IsNested, IsRetaggedLine, IsSoundLine, begun_at};
ghost use Rattle.pgn_game.specs.Private.LinePaths.{begun_by, first_track, gone_along, last_ply_of};
ghost use Rattle.pgn_game.specs.Private.LinePaths.{own_front, track_of, tracks_around};
ghost use Rattle.pgn_game.specs.Private.LinePaths.{variations_left};
ghost use Rattle.pgn_game.specs.Private.Steps.{IsBack};
ghost use Rattle.pgn_game.specs.declared.replays.replayer.Lines.TheVariants.{All};

use crate::exports::edits::TagEdits;
use crate::exports::exporter::put_parts;
use crate::exports::game_line::push_line_text;
use crate::exports::line_form::LineForm;
use crate::exports::movetext::play_line;
use crate::exports::style::Style;
use crate::replays::replayer::{Lines, check_lines};
use crate::turns::fault::GameFault;
use itoa::Buffer;
use pgn_text::{Element, RawGame};
use std::alloc::{AllocError, Global};
use std::marker::Model;
use std::mem;

/// A line as far as it was gone along, and those around it.
#[derive(Drop)]
pub(crate) struct Path<'a> {
    /// The moves that lead to the last move of the line; where it has none, to the line.
    before: Vec<&'a [u8]>,
    /// The last move of the line.
    last: Option<&'a [u8]>,
    /// The lines around it, the innermost last.
    outer: Vec<Fork<'a>>,
}

/// A line in which a variation is gone along: how many moves lead to its last move, for which the
/// variation stands, and that move.
#[derive(Drop)]
struct Fork<'a> {
    length: usize,
    last: Option<&'a [u8]>,
}

impl<'a> Path<'a> {
    /// At the start of the main line.
    pub(crate) fn new(alloc: Global) -> Self
        ensures track { track_of result ≡ first_track }
        ensures around { tracks_around result ≡ [] }
        ensures nested { IsNested result }
    {
        Path {
            before: Vec::new(alloc),
            last: None,
            outer: Vec::new(alloc),
        }
    }

    /// Goes on by a move.
    fn play(&mut self, word: &'a [u8]) -> Result<(), AllocError>
        requires { IsNested self.old }
        ensures track { OnOk result
            (track_of self.new ≡ gone_along (MoveText word.now) (track_of self.old)) }
        ensures around { OnOk result (tracks_around self.new ≡ tracks_around self.old) }
        ensures nested { IsNested self.new }
    {
        let Some(last) = mem::replace(&mut self.last, Some(word)) else {
            return Ok(());
        };
        self.before.push(last)?;
        Ok(())
    }

    /// Begins a variation, which stands for the last move.
    fn open(&mut self) -> Result<(), AllocError>
        requires { IsNested self.old }
        ensures track { OnOk result
            (track_of self.new ≡ gone_along VariationOpen (track_of self.old)) }
        ensures around { OnOk result
            (tracks_around self.new ≡ track_of self.old ∷ tracks_around self.old) }
        ensures nested { IsNested self.new }
    {
        let fork = Fork {
            length: self.before.len(),
            last: self.last,
        };
        self.outer.push(fork)?;
        self.last = None;
        Ok(())
    }

    /// Ends a variation; the main line has no end.
    fn close(&mut self)
        requires { IsNested self.old }
        ensures back { IsBack (track_of self.old) (tracks_around self.old) (track_of self.new)
            (tracks_around self.new) }
        ensures nested { IsNested self.new }
    {
        if let Some(fork) = self.outer.pop() {
            self.before.truncate(fork.length);
            self.last = fork.last;
        }
    }

    /// Goes on by an element.
    pub(crate) fn step(&mut self, element: Element<'a>) -> Result<(), AllocError>
        requires { IsNested self.old }
        ensures left { OnOk result ((items : List Item)
            → variations_left (item_of element.entry ∷ items) (track_of self.old)
            (tracks_around self.old)
            ≡ begun_by (item_of element.entry) items (track_of self.old)
            ++ variations_left items (track_of self.new) (tracks_around self.new)) }
        ensures nested { IsNested self.new }
    {
        match element {
            Element::Move(word) => self.play(word),
            Element::Open => self.open(),
            Element::Close => {
                self.close();
                Ok(())
            }
            _ => Ok(()),
        }
    }

    /// How many moves lead to the last move of the line.
    pub(crate) fn length(&self) -> usize
        ensures { result ≡ length (track_of self.now).before }
    {
        self.before.len()
    }

    /// The elements of the game of a variation that begins in front of these: the moves that lead
    /// to it, and its own elements.
    pub(crate) fn branch(
        &self,
        alloc: Global,
        elements: &[Element<'a>],
    ) -> Result<Vec<Element<'a>>, AllocError>
        ensures { IfOk result (λ own. map item_of own.items
            ≡ map (λ word. MoveText word) (track_of self.now).before
            ++ own_front (map item_of elements.now) 0) }
    {
        let mut branch = Vec::with_capacity(alloc, self.before.len())?;
        for word in &self.before {
            branch.push(Element::Move(*word))?;
        }
        push_own(&mut branch, elements)?;
        Ok(branch)
    }
}

/// Appends the elements up to the end of the line, but for those of its variations.
fn push_own<'a>(own: &mut Vec<Element<'a>>, elements: &[Element<'a>]) -> Result<(), AllocError>
    ensures { OnOk result (map item_of own.new.items
        ≡ map item_of own.old.items ++ own_front (map item_of elements.now) 0) }
{
    let mut depth = 0usize;
    for element in elements {
        match *element {
            Element::Open => depth += 1,
            Element::Close => {
                if depth == 0 {
                    return Ok(());
                }
                depth -= 1;
            }
            _ => {
                if depth == 0 {
                    own.push(*element)?;
                }
            }
        }
    }
    Ok(())
}

/// The game without its elements and without a result.
fn unfinished_head<'b>(alloc: Global, game: &'b RawGame<'_>) -> Result<RawGame<'b>, AllocError>
    ensures { IfOk result (λ head. head ≡ record (unfinished game.entry.now) { elements = [] }) }
{
    game.invariant();
    let head = game.beginning(alloc, 0)?.retagged(b"Result", None)?;
    let head = head.with_result(b"*");
    head.invariant();
    Ok(head)
}

/// How the lines of a game are exported.
#[derive(Drop)]
struct LineExport<'s> {
    alloc: Global,
    edits: Option<&'s TagEdits>,
    style: &'s Style,
}

impl LineExport<'_> {
    /// Leaves the elements of a line out that stand after the last ply that is written.
    fn cut(&self, elements: &mut Vec<Element<'_>>)
        ensures { map item_of elements.new.items
            ≡ plies_up_to (last_ply_of (option_map (λ edits. edits.now) self.now.edits))
            (map item_of elements.old.items) }
    {
        if let Some(edits) = self.edits {
            edits.cut(elements);
        }
    }

    /// Appends the export of a line that ends after its last ply, with its movetext; where memory
    /// is refused, some bytes of it.
    fn put_played(
        &self,
        line: &RawGame<'_>,
        movetext: &[u8],
        out: &mut Vec<u8>,
    ) -> Result<(), AllocError>
        ensures text { OnOk result ((inside : Bool) (start : State)
            → IsStart (tag_in fen_tag line.now.tags) start
            → IsLineMovetext inside self.now.style.now start line.now movetext.now
            → (own : GameText) × (text : List ℕ)
            × IsRetaggedLine (option_map (λ edits. edits.now) self.now.edits) line.now own
            × IsLineExport inside (order_of (option_map (λ edits. edits.now) self.now.edits))
            self.now.style.now own text
            × (out.new.items ≡ out.old.items ++ text)) }
        ensures kept { (some : List ℕ) × (out.new.items ≡ out.old.items ++ some) }
    {
        let Some(edits) = self.edits else {
            return put_parts(line, &[], movetext, self.style, out);
        };
        let mut buffer = Buffer::new();
        let head = edits.counted_head(self.alloc, line, &mut buffer)?;
        head.invariant();
        line.invariant();
        put_parts(&head, edits.order(), movetext, self.style, out)
    }

    /// Appends the export of the game with these elements of a sound line, which is a variation or
    /// not; where memory is refused, some bytes of it.
    fn put_line(
        &self,
        game: &RawGame<'_>,
        inside: bool,
        elements: Vec<Element<'_>>,
        out: &mut Vec<u8>,
    ) -> Result<(), AllocError>
        requires { IsSoundLine inside (tag_in fen_tag game.now.tags) (map item_of elements.items) }
        ensures text { OnOk result ((text : List ℕ)
            × IsEditedLine inside (option_map (λ edits. edits.now) self.now.edits)
            self.now.style.now
            (record game.entry.now { elements = map item_of elements.entry.items }) text
            × (out.new.items ≡ out.old.items ++ text)) }
        ensures kept { (some : List ℕ) × (out.new.items ≡ out.old.items ++ some) }
    {
        let mut elements = elements;
        self.cut(&mut elements);
        let line = game.with_elements(self.alloc, elements)?;
        match play_line(self.alloc, &line, inside, self.style) {
            Ok(movetext) => self.put_played(&line, &movetext, out),
            Err(fault) => Err(fault.refused()),
        }
    }
}

/// How the lines of a game are written, and what gives memory for it.
#[derive(Drop)]
struct LinePrinter<'s> {
    alloc: Global,
    form: LineForm<'s>,
}

impl LinePrinter<'_> {
    /// Appends the text of the game with these elements of a sound line, which is a variation or
    /// not; where memory is refused, some bytes of it.
    fn put_line(
        &self,
        game: &RawGame<'_>,
        inside: bool,
        elements: Vec<Element<'_>>,
        out: &mut Vec<u8>,
    ) -> Result<(), AllocError>
        requires { IsSoundLine inside (tag_in fen_tag game.now.tags) (map item_of elements.items) }
        ensures text { OnOk result ((text : List ℕ)
            × IsTextOfLine (layout_of self.now.form) inside
            (record game.entry.now { elements = map item_of elements.entry.items }) text
            × (out.new.items ≡ out.old.items ++ text)) }
        ensures kept { (some : List ℕ) × (out.new.items ≡ out.old.items ++ some) }
    {
        let alloc = self.alloc;
        match self.form {
            LineForm::Export { edits, style } => {
                let export = LineExport {
                    alloc,
                    edits,
                    style,
                };
                export.put_line(game, inside, elements, out)
            }
            LineForm::Turns { notation, before } => {
                let line = game.with_elements(alloc, elements)?;
                out.extend_from_slice(before)?;
                push_line_text(alloc, &line, inside, notation, out)?;
                out.extend_from_slice(b"\n")
            }
        }
    }

    /// Appends the text of the variation that begins in front of what is left of the elements, if
    /// one does; where memory is refused, some bytes of it.
    fn put_begun<'e>(
        &self,
        head: &RawGame<'_>,
        path: &Path<'e>,
        rest: &[Element<'e>],
        out: &mut Vec<u8>,
    ) -> Result<(), AllocError>
        requires sound { AllByRecursion
            (λ line. IsSoundLine true (tag_in fen_tag head.now.tags) (line_items line))
            (begun_at (map item_of rest.now) (track_of path.now)) }
        ensures text { OnOk result ((game : GameText)
            → head.now ≡ record (unfinished game) { elements = [] }
            → (text : List ℕ)
            × AreTextsOf (layout_of self.now.form) game
            (begun_at (map item_of rest.now) (track_of path.now)) text
            × (out.new.items ≡ out.old.items ++ text)) }
        ensures kept { (some : List ℕ) × (out.new.items ≡ out.old.items ++ some) }
    {
        let [element, after @ ..] = rest else {
            return Ok(());
        };
        match element {
            Element::Open => {
                let branch = path.branch(self.alloc, after)?;
                self.put_line(head, true, branch, out)
            }
            _ => Ok(()),
        }
    }
}

/// A game whose main line is written, and whose variations are to be. Contracts see how it is
/// written, and which of its lines are left.
#[derive(Drop)]
pub struct LineWriter<'g, 'a> {
    printer: LinePrinter<'g>,
    game: &'g RawGame<'a>,
    /// The game without its elements and without a result.
    head: RawGame<'g>,
    path: Path<'a>,
    rest: &'g [Element<'a>],
}

impl<'g, 'a> Model for LineWriter<'g, 'a> {
    ghost use Rattle.std.specs.Prelude.{◌≡◌, [], true, length, map};
    ghost use Rattle.std.specs.List.{AllByRecursion};
    ghost use Rattle.pgn_text.specs.Public.Elements.{item_of};
    ghost use Rattle.pgn_text.specs.Public.GameTexts.{tag_in};
    ghost use Rattle.pgn_game.specs.Public.LineGames.{LinesLeft, layout_of, line_items};
    ghost use Rattle.pgn_game.specs.Public.LineGames.{unfinished};
    ghost use Rattle.pgn_game.specs.Public.Starts.{fen_tag};
    ghost use Rattle.pgn_game.specs.Private.LinePaths.{IsNested, IsSoundLine, track_of};
    ghost use Rattle.pgn_game.specs.Private.LinePaths.{tracks_around, variations_left};

    ghost Value = { LinesLeft };

    ghost view = { λ own. record {
      layout = layout_of own.printer.form;
      game = own.game.now;
      lines = variations_left (map item_of own.rest.now) (track_of own.path)
          (tracks_around own.path);
      steps = length own.rest.now;
    } };

    ghost invariant = { λ own. record {
      head : own.head ≡ record (unfinished own.game.now) { elements = [] };
      sound : AllByRecursion
          (λ line. IsSoundLine true (tag_in fen_tag own.head.tags) (line_items line))
          (variations_left (map item_of own.rest.now) (track_of own.path)
          (tracks_around own.path));
      nested : IsNested own.path;
    } };
}

impl<'g, 'a> LineWriter<'g, 'a> {
    /// Appends the text of the main line of a game whose lines are sound. Where memory is refused,
    /// some bytes of it are appended.
    pub fn begin(
        alloc: Global,
        game: &'g RawGame<'a>,
        form: LineForm<'g>,
        out: &mut Vec<u8>,
    ) -> Result<Self, AllocError>
        requires { IsSoundGame All (tag_in fen_tag game.now.tags) game.now.elements }
        ensures text { IfOk result (λ left. (line : Line) × (text : List ℕ)
            × (game.now.elements ≡ spelled line)
            × WritesFirst (layout_of form.entry) game.now (lines_of line) left.lines text
            × (out.new.items ≡ out.old.items ++ text)) }
        ensures how { IfOk result (λ left.
            (left.layout ≡ layout_of form.entry) × (left.game ≡ game.now)) }
        ensures kept { (some : List ℕ) × (out.new.items ≡ out.old.items ++ some) }
    {
        let printer = LinePrinter { alloc, form };
        let mut main = Vec::new(alloc);
        push_own(&mut main, game.elements())?;
        printer.put_line(game, false, main, out)?;
        Ok(LineWriter {
            printer,
            game,
            head: unfinished_head(alloc, game)?,
            path: Path::new(alloc),
            rest: game.elements(),
        })
    }

    /// Goes on by an element, and appends the text of the variation that begins with it, if one
    /// does: true where there is an element, false where no line is left. Where memory is refused,
    /// some bytes of the text are appended.
    pub fn put_next(&mut self, out: &mut Vec<u8>) -> Result<bool, AllocError>
        ensures text { OnOk result ((text : List ℕ)
            × WritesFirst self.old.layout self.old.game self.old.lines self.new.lines text
            × (out.new.items ≡ out.old.items ++ text)) }
        ensures left { IfOk result (λ more. (more ≡ true → self.new.steps < self.old.steps)
            × (more ≡ false → self.new.lines ≡ [])) }
        ensures how { (self.new.layout ≡ self.old.layout) × (self.new.game ≡ self.old.game) }
        ensures kept { (some : List ℕ) × (out.new.items ≡ out.old.items ++ some) }
    {
        let rest = self.rest;
        self.rest = &[];
        let [element, after @ ..] = rest else {
            return Ok(false);
        };
        self.printer.put_begun(&self.head, &self.path, rest, out)?;
        self.path.step(*element)?;
        self.rest = after;
        Ok(true)
    }
}

/// Appends the texts of the lines of the game; where memory is refused, some bytes of them.
fn put_lines(
    alloc: Global,
    game: &RawGame<'_>,
    form: LineForm<'_>,
    out: &mut Vec<u8>,
) -> Result<(), AllocError>
    requires { IsSoundGame All (tag_in fen_tag game.now.tags) game.now.elements }
    ensures text { OnOk result ((text : List ℕ) × AreLineTexts (layout_of form.entry) game.now text
        × (out.new.items ≡ out.old.items ++ text)) }
    ensures kept { (some : List ℕ) × (out.new.items ≡ out.old.items ++ some) }
{
    let mut left = LineWriter::begin(alloc, game, form, out)?;
    while left.put_next(out)? {}
    Ok(())
}

/// Appends each line of the game in the form: the main line, and then the variations in the order
/// of the text, each with the moves that lead to it, as a game with the game's tags and without a
/// result. Where a line of the game is faulty, its first fault is answered; then, and where memory
/// is refused, nothing is appended.
pub fn export_lines<'a>(
    alloc: Global,
    game: &RawGame<'a>,
    form: LineForm<'_>,
    out: &mut Vec<u8>,
) -> Result<(), GameFault<'a>>
    ensures text { OnOk result ((text : List ℕ) × AreLineTexts (layout_of form.entry) game.now text
        × (out.new.items ≡ out.old.items ++ text)) }
    ensures sound { OnOk result
        (IsSoundGame All (tag_in fen_tag game.now.tags) game.now.elements) }
    ensures fault { IfErr result (λ fault.
        IfSome (fault_of fault) (IsFault All (tag_in fen_tag game.now.tags) game.now.elements)) }
    ensures left { OnErr result (out.new.items ≡ out.old.items) }
{
    check_lines(alloc, game, Lines::All)?;
    let length = out.len();
    let put = put_lines(alloc, game, form, out);
    if put.is_err() {
        out.truncate(length);
    }
    Ok(put?)
}
