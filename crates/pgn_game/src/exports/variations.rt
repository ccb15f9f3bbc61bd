//! The variations of a game, each as a main line whose positions can be looked for.
ghost use Rattle.std.specs.Prelude.{◌≡◌, ◌⊎◌, ◌++◌, ◌∷◌, ◌<◌, ◌^◌, true, false, [], IfOk};
ghost use Rattle.std.specs.Prelude.{MatchOption, OnOk, map};
ghost use Rattle.pgn_text.specs.Public.Elements.{item_of};
ghost use Rattle.pgn_text.specs.Public.GameTexts.{tag_in};
ghost use Rattle.pgn_game.specs.Public.AllLines.{Line, spelled};
ghost use Rattle.pgn_game.specs.Public.LineGames.{LineGame, variations_in};
ghost use Rattle.pgn_game.specs.Public.Replays.{IsSoundGame};
ghost use Rattle.pgn_game.specs.Public.SearchedLines.{as_searched, own_ply, passes, up_to_pass};
ghost use Rattle.pgn_game.specs.Public.Starts.{fen_tag};
ghost use Rattle.pgn_game.specs.Private.LineWalks.{IsFlat};
ghost use Rattle.pgn_game.specs.Private.PassPlaces.{pass_place};
ghost use Rattle.pgn_game.specs.declared.replays.replayer.Lines.TheVariants.{All, Main};

use crate::exports::lines::Path;
use crate::replays::replayer::is_flat;
use crate::turns::saying::is_null_move;
use pgn_text::{Element, RawGame};
use std::alloc::{AllocError, Global};
use std::marker::Model;

/// Whether the element is a pass, where it stands in a variation.
fn is_pass(element: Element<'_>) -> bool
    ensures { result ≡ passes (item_of element.entry) }
{
    match element {
        Element::Move(word) => is_null_move(true, word),
        _ => false,
    }
}

/// How many elements stand before the first pass; all where there is none.
fn pass_place(elements: &[Element<'_>]) -> usize
    ensures { result ≡ pass_place (map item_of elements.now) }
{
    let mut place = 0usize;
    for element in elements {
        if is_pass(*element) {
            return place;
        }
        place += 1;
    }
    place
}

/// Leaves the first pass out, and what stands after it.
fn cut_at_pass(elements: &mut Vec<Element<'_>>)
    ensures { map item_of elements.new.items ≡ up_to_pass (map item_of elements.old.items) }
{
    elements.truncate(pass_place(elements));
}

/// A variation as the main line of a game.
#[derive(Drop)]
pub struct Variation<'g> {
    /// The game with the moves that lead to the variation and with its own, up to its first pass.
    pub game: RawGame<'g>,
    /// The ply of its first move, which no line around it has.
    pub own_ply: usize,
}

/// The variations of a sound game that are left, in the order of the text.
#[derive(Drop)]
pub struct Variations<'g, 'a> {
    alloc: Global,
    game: &'g RawGame<'a>,
    path: Path<'a>,
    rest: &'g [Element<'a>],
}

impl<'g, 'a> Model for Variations<'g, 'a> {
    ghost use Rattle.std.specs.Prelude.{[], length, map};
    ghost use Rattle.std.specs.List.{AllByRecursion};
    ghost use Rattle.pgn_text.specs.Public.Elements.{item_of};
    ghost use Rattle.pgn_text.specs.Public.GameTexts.{tag_in};
    ghost use Rattle.pgn_game.specs.Public.LineGames.{line_items};
    ghost use Rattle.pgn_game.specs.Public.SearchedLines.{VariationsLeft};
    ghost use Rattle.pgn_game.specs.Public.Starts.{fen_tag};
    ghost use Rattle.pgn_game.specs.Private.LinePaths.{IsNested, IsSoundLine, begun_at, track_of};
    ghost use Rattle.pgn_game.specs.Private.LinePaths.{tracks_around, variations_left};
    ghost use Rattle.std.specs.Prelude.{true};

    ghost Value = { VariationsLeft };

    ghost view = { λ own. record {
      game = own.game.now;
      begun = begun_at (map item_of own.rest.now) (track_of own.path);
      lines = variations_left (map item_of own.rest.now) (track_of own.path)
          (tracks_around own.path);
      steps = length own.rest.now;
    } };

    ghost invariant = { λ own. record {
      sound : AllByRecursion
          (λ line. IsSoundLine true (tag_in fen_tag own.game.now.tags) (line_items line))
          (variations_left (map item_of own.rest.now) (track_of own.path)
          (tracks_around own.path));
      nested : IsNested own.path;
    } };
}

/// The elements of a game in which a variation stands; none where none does.
fn varied<'g, 'a>(elements: &'g [Element<'a>]) -> &'g [Element<'a>]
    ensures { (map item_of result.now ≡ map item_of elements.now)
        ⊎ ((map item_of result.now ≡ []) × IsFlat (map item_of elements.now)) }
{
    if is_flat(elements) { &[] } else { elements }
}

impl<'g, 'a> Variations<'g, 'a> {
    /// Those of a game whose lines are sound. A game without one is only looked through.
    pub fn of_game(alloc: Global, game: &'g RawGame<'a>) -> Self
        requires { IsSoundGame All (tag_in fen_tag game.now.tags) game.now.elements }
        ensures lines { (line : Line) × (game.now.elements ≡ spelled line)
            × (result.lines ≡ variations_in [] [] line) }
        ensures game { result.game ≡ game.now }
        ensures steps { result.steps < 2 ^ 64 }
    {
        Variations {
            alloc,
            game,
            path: Path::new(alloc),
            rest: varied(game.elements()),
        }
    }

    /// The variation that begins in front of what is left, if one does: its line is sound.
    pub fn here(&self) -> Result<Option<Variation<'g>>, AllocError>
        ensures { IfOk result (λ found. MatchOption found (self.now.begun ≡ [])
            (λ own. (line : LineGame) × (self.now.begun ≡ line ∷ [])
            × (own.game ≡ as_searched self.now.game line) × (own.own_ply ≡ own_ply line)
            × (0 < self.now.steps)
            × IsSoundGame Main (tag_in fen_tag own.game.tags) own.game.elements)) }
    {
        let [element, after @ ..] = self.rest else {
            return Ok(None);
        };
        match element {
            Element::Open => {
                let mut elements = self.path.branch(self.alloc, after)?;
                cut_at_pass(&mut elements);
                Ok(Some(Variation {
                    game: self.game.with_elements(self.alloc, elements)?,
                    own_ply: self.path.length() + 1,
                }))
            }
            _ => Ok(None),
        }
    }

    /// Goes on by an element: true where there is one, false where nothing is left.
    pub fn go_on(&mut self) -> Result<bool, AllocError>
        ensures left { OnOk result (self.old.lines ≡ self.old.begun ++ self.new.lines) }
        ensures ends { IfOk result (λ more. (more ≡ true → self.new.steps < self.old.steps)
            × (more ≡ false → self.new.lines ≡ [])) }
        ensures game { self.new.game ≡ self.old.game }
    {
        let rest = self.rest;
        self.rest = &[];
        let [element, after @ ..] = rest else {
            return Ok(false);
        };
        self.path.step(*element)?;
        self.rest = after;
        Ok(true)
    }
}
