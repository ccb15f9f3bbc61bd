//! The entries of each line of a game: of its main line, and of its variations.
ghost use Rattle.std.specs.Prelude.{◌≡◌, ◌++◌, ◌+◌, ◌⊎◌, ◌<◌, ◌^◌, ℕ, List, [], IfOk, IfSome};
ghost use Rattle.std.specs.Prelude.{MatchResult, OnOk, length};
ghost use Rattle.pgn_text.specs.Public.GameTexts.{tag_in};
ghost use Rattle.pgn_game.specs.Public.Faults.{IsFault};
ghost use Rattle.pgn_game.specs.Public.Replays.{IsSoundGame, fault_of};
ghost use Rattle.pgn_game.specs.Public.Starts.{fen_tag};
ghost use Rattle.pgn_game.specs.Public.AllLines.{Line, spelled};
ghost use Rattle.pgn_game.specs.Public.LineGames.{variations_in};
ghost use Rattle.pgn_game.specs.declared.replays.replayer.Lines.TheVariants.{All, Main};
ghost use Rattle.pgn_extract.specs.Public.Aims.{aim_of};
ghost use Rattle.pgn_extract.specs.Public.LineListing.{AreLineListings, ListsEachLine};
ghost use Rattle.pgn_extract.specs.Private.Blockwise.{AddsSound, StopsIn};

use crate::entries::{GameContext, Search, push_entries};
use pgn_game::{GameFault, Lines, Variations, check_lines, check_variations};
use pgn_text::RawGame;
use std::alloc::{AllocError, Global};

/// Adds the lines of the entries of the variation that begins in front of what is left, if one
/// does. So many are before it; answers how many are before the next.
fn push_here<'g>(
    text: &mut Vec<u8>,
    context: GameContext<'g>,
    left: &Variations<'g, '_>,
    count: usize,
) -> Result<usize, AllocError>
    requires room { count + left.now.steps < 2 ^ 64 }
    ensures count { IfOk result (λ next. next ≡ count + length left.now.begun) }
    ensures room { IfOk result (λ next. next ≡ count
        ⊎ ((next ≡ count + 1) × (0 < left.now.steps))) }
    ensures text { OnOk result ((own : List ℕ)
        × AreLineListings (aim_of context.entry.settings.now) context.entry.own left.now.game
        (count + 1) left.now.begun own
        × (text.new.items ≡ text.old.items ++ own)) }
{
    let Some(variation) = left.here()? else {
        return Ok(count);
    };
    let number = count + 1;
    let search = Search::of_line(context.settings, number, variation.own_ply, true);
    match push_entries(text, context, &variation.game, search) {
        Ok(()) => Ok(number),
        Err(fault) => Err(fault.refused()),
    }
}

/// Adds the lines of the entries of the variations of a game whose lines are sound.
fn push_variations(
    text: &mut Vec<u8>,
    context: GameContext<'_>,
    game: &RawGame<'_>,
) -> Result<(), AllocError>
    requires sound { IsSoundGame All (tag_in fen_tag game.now.tags) game.now.elements }
    ensures { OnOk result ((line : Line) × (own : List ℕ) × (game.now.elements ≡ spelled line)
        × AreLineListings (aim_of context.entry.settings.now) context.entry.own game.now 1
        (variations_in [] [] line) own
        × (text.new.items ≡ text.old.items ++ own)) }
{
    let mut left = Variations::of_game(context.alloc, game);
    let mut count = 0usize;
    loop {
        count = push_here(text, context, &left, count)?;
        if !left.go_on()? {
            return Ok(());
        }
    }
}

/// The first fault of the lines of a game whose main line has this one.
#[cold]
fn first_fault<'a>(alloc: Global, game: &RawGame<'a>, fault: GameFault<'a>) -> GameFault<'a>
    requires { IfSome (fault_of fault)
        (IsFault Main (tag_in fen_tag game.now.tags) game.now.elements) }
    ensures { IfSome (fault_of result)
        (IsFault All (tag_in fen_tag game.now.tags) game.now.elements) }
{
    match check_lines(alloc, game, Lines::All) {
        Err(first) => first,
        Ok(()) => fault,
    }
}

/// Adds the lines of the entries of each line of a game, or answers the first fault of its lines.
pub fn push_each_line<'a>(
    text: &mut Vec<u8>,
    context: GameContext<'a>,
    game: &RawGame<'a>,
) -> Result<(), GameFault<'a>>
    ensures { MatchResult result
        (λ _. AddsSound All game.now
        (λ _. ListsEachLine (aim_of context.entry.settings.now) context.entry.own game.now)
        text.old.items text.new.items)
        (λ fault. IfSome (fault_of fault) (StopsIn All game.now text.old.items text.new.items)) }
{
    let alloc = context.alloc;
    let mut own = Vec::new(alloc);
    let search = Search::of_line(context.settings, 0, 0, false);
    if let Err(fault) = push_entries(&mut own, context, game, search) {
        return Err(first_fault(alloc, game, fault));
    }
    check_variations(alloc, game)?;
    push_variations(&mut own, context, game)?;
    text.extend_from_slice(&own)?;
    Ok(())
}
