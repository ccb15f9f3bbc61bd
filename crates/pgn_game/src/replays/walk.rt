//! One walk over the lines of a game, with a visitor of its steps.
ghost use Rattle.std.specs.Prelude.{◌≡◌, Bool, ◌+◌, ◌≤◌, ◌<◌, ◌∷◌, ◌++◌, ℕ, List, [], map};
ghost use Rattle.std.specs.Prelude.{MatchResult, IfErr, IfOk, IfSome, OnOk};
ghost use Rattle.pgn_text.specs.Public.Elements.{item_of};
ghost use Rattle.pgn_text.specs.Public.GameTexts.{IsPaired};
ghost use Rattle.pgn_text.specs.Public.Games.{Item};
ghost use Rattle.pgn_game.specs.Public.AllLines.{ArePlayed, IsTurn, after_turn};
ghost use Rattle.pgn_game.specs.Public.Faults.{Fault, HaveFault, IsRefusedTurn};
ghost use Rattle.pgn_game.specs.Public.Replays.{fault_of};
ghost use Rattle.pgn_game.specs.declared.replays.walk.Level.{Level};
ghost use Rattle.pgn_game.specs.Private.LineWalks.{begun, first_level, gone_on, is_inside};
ghost use Rattle.pgn_game.specs.Private.LineWalks.{lines_around};
ghost use Rattle.pgn_game.specs.Private.Steps.{Beside, IsNoMove, LeadsAt, Step, StopsAt, Turned};
ghost use Rattle.pgn_game.specs.Private.Steps.{Visits, Walks, WalksOn, around, shown_if};
ghost use Rattle.pgn_game.specs.Private.Steps.{shown_items, IsWithin};

use crate::replays::line_stack::LineStack;
use crate::turns::fault::GameFault;
use crate::turns::line_move::LineMove;
use crate::turns::naming::play_named;
use crate::turns::replayed::GamePosition;
use crate::turns::saying::is_null_move;
use pgn_text::Element;
use std::alloc::{AllocError, Global};

/// A line as far as it was played: the position before its last turn and the one after it, and the
/// plies that lead to the latter. Before the first turn both are the position that the line is
/// played from.
#[derive(Drop)]
pub(crate) struct Level {
    pub(crate) before: GamePosition,
    pub(crate) now: GamePosition,
    pub(crate) plies: usize,
}

impl Level {
    /// The main line before its first turn.
    pub(crate) fn first(start: &GamePosition) -> Self
        ensures { result ≡ first_level start.now }
    {
        Level {
            before: start.copy(),
            now: start.copy(),
            plies: 0,
        }
    }
}

/// A line before its first turn: the main line, or a variation as the first line of a walk.
pub(crate) fn first_line(
    alloc: Global,
    start: &GamePosition,
    inside: bool,
) -> Result<LineStack<Level>, AllocError>
    ensures line { IfOk result (λ stack. stack.line ≡ first_level start.now) }
    ensures around { IfOk result (λ stack. around stack ≡ lines_around inside start.now) }
{
    let mut stack = LineStack::new(alloc, Level::first(start));
    if inside {
        stack.push(Level::first(start))?;
    }
    Ok(stack)
}

/// What is done at the steps of a walk, in the order of the text.
pub(crate) trait StepVisitor {
    ghost does: { Self → Step → Self → Type 0 };

    /// The bytes that it has written, which only become more.
    ghost text: { Self → List ℕ };

    /// Takes the turn that the word says, in a variation or not; or answers the fault of this ply.
    fn turn<'a>(
        &mut self,
        position: &mut GamePosition,
        inside: bool,
        word: &'a [u8],
        ply: usize,
    ) -> Result<LineMove, GameFault<'a>>
        ensures turned { MatchResult result
            (λ turn. IsTurn inside position.old word.now turn
            × (position.new ≡ after_turn position.old turn)
            × does self.old (Turned inside position.old turn) self.new)
            (λ fault. (plies : ℕ) → ply ≡ plies + 1
            → IfSome (fault_of fault) (IsRefusedTurn inside position.old plies word.now)) }
        ensures kept { (some : List ℕ) × (text self.new ≡ text self.old ++ some) };

    /// Another element.
    fn beside(&mut self, element: Element<'_>) -> Result<(), AllocError>
        ensures does { OnOk result (does self.old (Beside (item_of element.entry)) self.new) }
        ensures kept { (some : List ℕ) × (text self.new ≡ text self.old ++ some) };
}

/// Goes on by a word.
fn turn<'a, V: StepVisitor>(
    stack: &mut LineStack<Level>,
    word: &'a [u8],
    visitor: &mut V,
) -> Result<(), GameFault<'a>>
    requires room { stack.old.line.plies < usize.MAX }
    ensures turned { OnOk result ((turn : LineMove)
        × IsTurn (is_inside (around stack.old)) stack.old.line.now word.now turn
        × (stack.new.line ≡ gone_on stack.old.line turn) × (around stack.new ≡ around stack.old)
        × V.does visitor.old (Turned (is_inside (around stack.old)) stack.old.line.now turn)
        visitor.new) }
    ensures stuck { IfErr result (λ fault.
        IfSome (fault_of fault)
        (IsRefusedTurn (is_inside (around stack.old)) stack.old.line.now stack.old.line.plies
        word.now)) }
    ensures kept { (some : List ℕ) × (V.text visitor.new ≡ V.text visitor.old ++ some) }
{
    let inside = stack.is_inside();
    let ply = stack.line.plies + 1;
    stack.line.before.copy_from(&stack.line.now);
    visitor.turn(&mut stack.line.now, inside, word, ply)?;
    stack.line.plies = ply;
    Ok(())
}

/// Begins a variation, which stands for the last turn: it is played from the position before it.
fn open(stack: &mut LineStack<Level>) -> Result<(), AllocError>
    ensures line { OnOk result (stack.new.line ≡ begun stack.old.line) }
    ensures around { OnOk result (around stack.new ≡ stack.old.line ∷ around stack.old) }
{
    let variation = Level {
        before: stack.line.before.copy(),
        now: stack.line.before.copy(),
        plies: stack.line.plies.saturating_sub(1),
    };
    stack.push(variation)
}

/// Goes on by an element that is no move.
fn beside<V: StepVisitor>(
    stack: &mut LineStack<Level>,
    element: Element<'_>,
    visitor: &mut V,
) -> Result<(), AllocError>
    requires { IsNoMove (item_of element) }
    ensures does { OnOk result (V.does visitor.old (Beside (item_of element.entry)) visitor.new) }
    ensures walks { OnOk result ((items : List Item) (more : List Step)
        → WalksOn stack.new items more
        → WalksOn stack.old (item_of element.entry
        ∷ items) (Beside (item_of element.entry) ∷ more)) }
    ensures sticks { OnOk result ((items : List Item) (fault : Fault)
        → StopsAt stack.new items fault → StopsAt stack.old (item_of element.entry ∷ items) fault) }
    ensures leads { OnOk result ((items : List Item) (inside : Bool) (last : Level)
        → LeadsAt stack.new items inside last
        → LeadsAt stack.old (item_of element.entry ∷ items) inside last) }
    ensures within { OnOk result ((n : ℕ) → IsWithin n stack.old → IsWithin n stack.new) }
    ensures kept { (some : List ℕ) × (V.text visitor.new ≡ V.text visitor.old ++ some) }
{
    match element {
        Element::Open => open(stack)?,
        Element::Close => stack.pop(),
        _ => {}
    }
    visitor.beside(element)
}

/// Goes on by an element.
pub(crate) fn step<'a, V: StepVisitor>(
    stack: &mut LineStack<Level>,
    element: Element<'a>,
    visitor: &mut V,
) -> Result<(), GameFault<'a>>
    requires room { stack.old.line.plies < usize.MAX }
    ensures walks { OnOk result ((step : Step) × V.does visitor.old step visitor.new
        × ((items : List Item) (more : List Step) → WalksOn stack.new items more
        → WalksOn stack.old (item_of element.entry ∷ items) (step ∷ more))) }
    ensures sticks { OnOk result ((items : List Item) (fault : Fault)
        → StopsAt stack.new items fault → StopsAt stack.old (item_of element.entry ∷ items) fault) }
    ensures leads { OnOk result ((items : List Item) (inside : Bool) (last : Level)
        → LeadsAt stack.new items inside last
        → LeadsAt stack.old (item_of element.entry ∷ items) inside last) }
    ensures stuck { IfErr result (λ fault. (items : List Item)
        → IfSome (fault_of fault) (StopsAt stack.old (item_of element.entry ∷ items))) }
    ensures within { OnOk result ((n : ℕ) → IsWithin n stack.old → IsWithin (n + 1) stack.new) }
    ensures kept { (some : List ℕ) × (V.text visitor.new ≡ V.text visitor.old ++ some) }
{
    match element {
        Element::Move(word) => turn(stack, word, visitor),
        _ => Ok(beside(stack, element, visitor)?),
    }
}

/// Which elements are gone over: all where variations are, else those that stand in no variation;
/// and how many variations are open.
#[derive(Drop)]
struct Shown {
    variations: bool,
    depth: usize,
}

impl Shown {
    /// Whether the element is gone over.
    fn shows(&mut self, element: Element) -> bool
        requires room { self.old.depth < usize.MAX }
        ensures shown { (items : List Item)
            → shown_items self.old.variations self.old.depth (item_of element.entry ∷ items)
            ≡ shown_if result (item_of element.entry)
            (shown_items self.new.variations self.new.depth items) }
        ensures depth { self.new.depth ≤ self.old.depth + 1 }
    {
        if self.variations {
            return true;
        }
        match element {
            Element::Open => {
                self.depth += 1;
                false
            }
            Element::Close => {
                self.depth = self.depth.saturating_sub(1);
                false
            }
            _ => self.depth == 0,
        }
    }
}

/// Goes over the elements: all, or where variations are left out those that stand in none.
pub(crate) fn walk<'a, V: StepVisitor>(
    stack: &mut LineStack<Level>,
    elements: &[Element<'a>],
    variations: bool,
    visitor: &mut V,
) -> Result<(), GameFault<'a>>
    requires begun { IsWithin 0 stack.old }
    ensures walked { MatchResult result
        (λ _. (steps : List Step)
        × WalksOn stack.old (shown_items variations 0 (map item_of elements.now)) steps
        × Visits V.does visitor.old steps visitor.new)
        (λ fault.
        IfSome (fault_of fault)
        (StopsAt stack.old (shown_items variations 0 (map item_of elements.now)))) }
    ensures kept { (some : List ℕ) × (V.text visitor.new ≡ V.text visitor.old ++ some) }
{
    let mut shown = Shown {
        variations,
        depth: 0,
    };
    for element in elements {
        if !shown.shows(*element) {
            continue;
        }
        step(stack, *element, visitor)?;
    }
    Ok(())
}

/// Plays what the word says in the position, in a variation or not; or answers the fault of this
/// ply.
pub(crate) fn play_turn<'a>(
    position: &mut GamePosition,
    inside: bool,
    word: &'a [u8],
    ply: usize,
) -> Result<LineMove, GameFault<'a>>
    ensures { MatchResult result
        (λ turn. IsTurn inside position.old word.now turn
        × (position.new ≡ after_turn position.old turn))
        (λ fault. (plies : ℕ) → ply ≡ plies + 1
        → IfSome (fault_of fault) (IsRefusedTurn inside position.old plies word.now)) }
{
    if is_null_move(inside, word) {
        return match position.pass() {
            Some(next) => {
                *position = next;
                Ok(LineMove::Passed)
            }
            None => Err(GameFault::Illegal { word, ply }),
        };
    }
    let m = play_named(position, word, ply)?;
    Ok(LineMove::Played(m))
}

/// Keeps nothing.
#[derive(Drop)]
pub(crate) struct DiscardSteps;

impl StepVisitor for DiscardSteps {
    ghost does = { λ old step new. new ≡ old };

    ghost text = { λ visitor. [] };

    fn turn<'a>(
        &mut self,
        position: &mut GamePosition,
        inside: bool,
        word: &'a [u8],
        ply: usize,
    ) -> Result<LineMove, GameFault<'a>> {
        play_turn(position, inside, word, ply)
    }

    fn beside(&mut self, _element: Element<'_>) -> Result<(), AllocError> {
        Ok(())
    }
}

/// Plays all lines of the elements from the position, and keeps none of their positions.
pub(crate) fn check_all_lines<'a>(
    alloc: Global,
    start: &GamePosition,
    elements: &[Element<'a>],
) -> Result<(), GameFault<'a>>
    requires { IsPaired 0 (map item_of elements.now) }
    ensures { MatchResult result
        (λ _. (turns : List LineMove) × ArePlayed start.now (map item_of elements.now) turns)
        (λ fault. IfSome (fault_of fault) (HaveFault start.now (map item_of elements.now))) }
{
    let mut stack = LineStack::new(alloc, Level::first(start));
    walk(&mut stack, elements, true, &mut DiscardSteps)
}
