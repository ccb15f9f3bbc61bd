//! The main line, played element by element.
ghost use Rattle.std.specs.Prelude.{◌≡◌, ◌+◌, ◌<◌, ◌≤◌, ◌^◌, ◌++◌, ℕ, List, [], ◌∷◌, length, map};
ghost use Rattle.std.specs.Prelude.{MatchOption, MatchResult, IfErr, IfOk, IfSome, OnOk};
ghost use Rattle.chess.specs.Public.Positions.{State};
ghost use Rattle.pgn_text.specs.Public.Elements.{item_of};
ghost use Rattle.pgn_text.specs.Public.Games.{Item};
ghost use Rattle.pgn_game.specs.Public.MainLines.{main_words, IsMainLine};
ghost use Rattle.pgn_game.specs.Public.Faults.{IsMoveFault};
ghost use Rattle.pgn_game.specs.Public.Beginnings.{IsBeginning};
ghost use Rattle.pgn_game.specs.Public.Replays.{fault_of, HasPlies};
ghost use Rattle.pgn_game.specs.Private.Walks.{HasStepped, IsStuck, KeepsLine, HasLinePlies};

use crate::turns::fault::GameFault;
use crate::turns::naming::play_named;
use crate::turns::replayed::{GamePosition, Replayed};
use chess::Move;
use pgn_text::Element;
use std::alloc::{AllocError, Global};

/// The position that the main line leads to as far as it is played, how many plies lead to it, and
/// how many variations are open.
#[derive(Drop)]
pub(crate) struct MainWalk {
    pub(crate) position: GamePosition,
    pub(crate) plies: usize,
    pub(crate) depth: usize,
}

impl MainWalk {
    /// Before the first element.
    pub(crate) fn new(start: GamePosition) -> Self
        ensures { (result.position ≡ start) × (result.plies ≡ 0) × (result.depth ≡ 0) }
    {
        MainWalk {
            position: start,
            plies: 0,
            depth: 0,
        }
    }

    /// Plays the element, if it is a move of the main line, and answers the move.
    #[inline(always)]
    pub(crate) fn step<'a>(&mut self, element: Element<'a>) -> Result<Option<Move>, GameFault<'a>>
        requires room { (self.old.plies < usize.MAX) × (self.old.depth < usize.MAX) }
        ensures within { (self.new.plies ≤ self.old.plies + 1)
            × (self.new.depth ≤ self.old.depth + 1) }
        ensures stepped { MatchResult result
            (HasStepped self.old self.new (item_of element.entry))
            (IsStuck self.old (item_of element.entry)) }
    {
        if let Element::Move(word) = element
            && self.depth == 0
        {
            self.plies += 1;
            let m = play_named(&mut self.position, word, self.plies)?;
            return Ok(Some(m));
        }
        match element {
            Element::Open => self.depth += 1,
            Element::Close => self.depth = self.depth.saturating_sub(1),
            _ => {}
        }
        Ok(None)
    }
}

/// The word of the next move of the main line, where so many variations are open before the
/// elements.
pub(crate) fn next_word<'a>(elements: &[Element<'a>], outer: usize) -> Option<&'a [u8]>
    requires { outer + length elements.now < 2 ^ 64 }
    ensures { MatchOption result
        (main_words (map item_of elements.now) outer ≡ [])
        (λ word. (more : List (List ℕ))
        × (main_words (map item_of elements.now) outer ≡ word.now ∷ more)) }
{
    let mut depth = outer;
    for element in elements {
        match *element {
            Element::Move(word) if depth == 0 => return Some(word),
            Element::Open => depth += 1,
            Element::Close => depth = depth.saturating_sub(1),
            _ => {}
        }
    }
    None
}

/// How many moves stand in no variation: the plies of the main line, if it is sound.
pub fn count_main_moves(elements: &[Element<'_>]) -> usize
    ensures { result ≡ length (main_words (map item_of elements.now) 0) }
{
    let mut plies = 0;
    let mut depth = 0usize;
    for element in elements {
        if matches!(element, Element::Move(_)) {
            plies += usize::from(depth == 0);
            continue;
        }
        depth += usize::from(matches!(element, Element::Open));
        depth = depth.saturating_sub(usize::from(matches!(element, Element::Close)));
    }
    plies
}

/// The main line as far as it is played, with all its positions and moves.
#[derive(Drop)]
struct LineKeeper {
    walk: MainWalk,
    positions: Vec<GamePosition>,
    played: Vec<Move>,
}

/// The number of moves, those of variations too.
fn count_moves(elements: &[Element]) -> usize {
    elements
        .iter()
        .filter(|element| matches!(element, Element::Move(_)))
        .count()
}

impl LineKeeper {
    /// Before the first of the elements: there is room for all their moves.
    fn new(alloc: Global, start: GamePosition, elements: &[Element]) -> Result<Self, AllocError>
        ensures positions { IfOk result (λ line. line.positions.items ≡ start ∷ []) }
        ensures played { IfOk result (λ line. line.played.items ≡ []) }
        ensures walk { IfOk result (λ line. (line.walk.position ≡ start) × (line.walk.plies ≡ 0)
            × (line.walk.depth ≡ 0)) }
    {
        let moves = count_moves(elements);
        let mut positions = Vec::with_capacity(alloc, moves.saturating_add(1))?;
        let played = Vec::with_capacity(alloc, moves)?;
        positions.push(start.copy())?;
        Ok(LineKeeper {
            walk: MainWalk::new(start),
            positions,
            played,
        })
    }

    /// Keeps the move that was played, and the position after it.
    fn keep(&mut self, m: Move) -> Result<(), AllocError>
        ensures positions { OnOk result (self.new.positions.items
            ≡ self.old.positions.items ++ self.old.walk.position ∷ []) }
        ensures played { OnOk result (self.new.played.items ≡ self.old.played.items ++ m ∷ []) }
        ensures walk { self.new.walk ≡ self.old.walk }
    {
        self.positions.push(self.walk.position.copy())?;
        self.played.push(m)?;
        Ok(())
    }

    /// What is kept, as a replay.
    fn replayed(self, alloc: Global) -> Replayed
        requires { length self.positions.items ≡ length self.played.items + 1 }
        ensures positions { result.positions ≡ self.positions.items }
        ensures played { result.played ≡ self.played.items }
        ensures turns { result.turns ≡ [] }
    {
        let LineKeeper {
            positions,
            played,
            ..
        } = self;
        Replayed {
            positions,
            played,
            turns: Vec::new(alloc),
        }
    }

    /// Plays the element, if it is a move of the main line.
    fn step<'a>(&mut self, element: Element<'a>) -> Result<(), GameFault<'a>>
        requires room { (self.old.walk.plies < usize.MAX) × (self.old.walk.depth < usize.MAX) }
        ensures within { (self.new.walk.plies ≤ self.old.walk.plies + 1)
            × (self.new.walk.depth ≤ self.old.walk.depth + 1) }
        ensures kept { OnOk result ((start : State) (words : List (List ℕ)) (items : List Item)
            → KeepsLine start words self.old (item_of element.entry ∷ items)
            → KeepsLine start words self.new items) }
        ensures stuck { IfErr result (IsStuck self.old.walk (item_of element.entry)) }
    {
        if let Some(m) = self.walk.step(element)? {
            self.keep(m)?;
        }
        Ok(())
    }
}

/// Plays the main line of the elements from the position.
pub(crate) fn play_main_line<'a>(
    alloc: Global,
    start: GamePosition,
    elements: &[Element<'a>],
) -> Result<Replayed, GameFault<'a>>
    ensures { MatchResult result
        (λ replayed.
        IsMainLine start (main_words (map item_of elements.now) 0) replayed.positions
        replayed.played × (replayed.turns ≡ []))
        (λ fault.
        IfSome (fault_of fault) (IsMoveFault start 0 (main_words (map item_of elements.now) 0))) }
{
    let mut line = LineKeeper::new(alloc, start, elements)?;
    for element in elements {
        line.step(*element)?;
    }
    Ok(line.replayed(alloc))
}

/// Plays the main line of the elements from the position up to so many plies, or to its end.
pub(crate) fn play_beginning<'a>(
    alloc: Global,
    start: GamePosition,
    elements: &[Element<'a>],
    most: usize,
) -> Result<Replayed, GameFault<'a>>
    ensures { MatchResult result
        (IsBeginning start (main_words (map item_of elements.now) 0) most)
        (λ fault.
        IfSome (fault_of fault) (IsMoveFault start 0 (main_words (map item_of elements.now) 0))) }
{
    let mut beginning = LineKeeper::new(alloc, start, &[])?;
    for element in elements {
        if beginning.played.len() >= most {
            return Ok(beginning.replayed(alloc));
        }
        beginning.step(*element)?;
    }
    Ok(beginning.replayed(alloc))
}

/// Counts the plies of the main line of the elements, played from the position.
pub(crate) fn count_main_line<'a>(
    start: GamePosition,
    elements: &[Element<'a>],
) -> Result<usize, GameFault<'a>>
    ensures { MatchResult result
        (HasLinePlies start (main_words (map item_of elements.now) 0))
        (λ fault.
        IfSome (fault_of fault) (IsMoveFault start 0 (main_words (map item_of elements.now) 0))) }
{
    let mut walk = MainWalk::new(start);
    for element in elements {
        walk.step(*element)?;
    }
    Ok(walk.plies)
}
