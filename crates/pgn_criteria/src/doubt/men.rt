//! Men that no position has.
ghost use Rattle.std.specs.Prelude.{◌≡◌, ◌↔◌, ◌≤◌, ℕ, List, Option, length, false, IsTrue};
ghost use Rattle.chess.specs.Public.Placements.{Placement};
ghost use Rattle.chess.specs.Public.Positions.{king_of};
ghost use Rattle.chess.specs.declared.board.man.Man.{Man};
ghost use Rattle.chess.specs.declared.board.man.Side.{Side};
ghost use Rattle.pgn_criteria.specs.Private.Items.{Reads, items_of};
ghost use Rattle.pgn_criteria.specs.Public.Materials.{Allows, FitsMaterial, count_of};
ghost use Rattle.pgn_criteria.specs.Public.Patterns.{CanBeSplit, FitsPattern, IsStretch};

use crate::cut::next_part;
use crate::material::{Limits, allows};
use crate::rank::{Item, next_item, size_of};

/// Whether the limits let a side have one king.
fn lets_one_king(limits: &Limits) -> bool
    ensures { IsTrue result ↔ Allows limits.now.king 1 }
{
    allows(limits.king, 1)
}

/// Whether the limits of a side bar the one king that it has in every position.
pub(super) fn let_no_kings(white: &Limits, black: &Limits) -> bool
    ensures { IsTrue result → (men : Placement) → ((side : Side) → count_of men (king_of side) ≡ 1)
        → FitsMaterial men white.now black.now → ⊥ }
{
    if !lets_one_king(white) {
        return true;
    }
    if !lets_one_king(black) {
        return true;
    }
    false
}

/// How many squares the item takes at least.
fn least_of(item: Item) -> u8
    ensures { (text : List ℕ) (own : List (Option Man)) → Reads text item → IsStretch text own
        → result ≤ length own }
{
    match item {
        Item::Run(_, count) => count,
        Item::Many => 0,
    }
}

/// How many squares the items take at least. An item that takes any number takes none.
fn least_in(items: &[u8]) -> u8
    ensures { (own : List (Option Man)) → CanBeSplit (items_of items.now) own
        → result ≤ length own }
{
    let mut least = 0u8;
    let mut rest = items;
    while !rest.is_empty() {
        let Some((item, after)) = next_item(rest) else {
            return least;
        };
        let count = least_of(item);
        least = least.saturating_add(count);
        rest = after;
    }
    least
}

/// Whether the items of a rank may take its eight squares, as far as their number says.
fn may_take_eight(items: &[u8]) -> bool
    ensures { result ≡ false → (own : List (Option Man)) → CanBeSplit (items_of items.now) own
        → length own ≡ 8 → ⊥ }
{
    match size_of(items) {
        Some(size) => size == 8,
        None => least_in(items) <= 8,
    }
}

/// Whether a rank of the pattern takes more or fewer than eight squares, whatever stands on them.
pub(super) fn has_misfit(pattern: &[u8]) -> bool
    ensures { IsTrue result → (men : Placement) → FitsPattern men pattern.now → ⊥ }
{
    let mut rest = pattern;
    for step in 0u8..8 {
        let (rank, after) = next_part(b'/', rest);
        if !may_take_eight(rank) {
            return true;
        }
        let Some(after) = after else {
            return false;
        };
        rest = after;
    }
    false
}
