//! Which piece it is, and the marks of those that are reported.
ghost use Rattle.std.specs.Prelude.{◌≡◌, map, is_some};
ghost use Rattle.pgn_extract.specs.Private.MarkOrder.{given_of};
ghost use Rattle.pgn_extract.specs.Public.Choices.{is_among};
ghost use Rattle.pgn_extract.specs.declared.marks.GameId.{GameId};

use std::marker::Model;

/// Which game it is, or which piece.
#[derive(Clone, Copy, Debug, PartialEq, Eq)]
pub struct GameId {
    /// Its number among the pieces, counted from 1.
    pub number: u64,
    /// The offset of its first byte.
    pub offset: u64,
}

/// Which line of its game entries are of, where each line of a game is listed.
#[derive(Clone, Copy, Debug, PartialEq, Eq)]
pub struct LineId {
    /// Its number among the lines of the game, of which the main line has 0.
    pub number: usize,
    /// How many plies it shares with the line that it leaves; the main line has 0.
    pub from: usize,
}

/// Marks in their order, each once: pairs of a number and an offset.
#[derive(Debug, Drop)]
pub struct Marks {
    pairs: Vec<(u64, u64)>,
}

impl Model for Marks {
    ghost use Rattle.std.specs.Prelude.{List, map};
    ghost use Rattle.pgn_extract.specs.Private.MarkOrder.{AreInOrder, given_of};
    ghost use Rattle.pgn_extract.specs.declared.marks.GameId.{GameId};

    ghost Value = { List GameId };

    ghost view = { λ marks. map given_of marks.pairs.items };

    ghost invariant = { λ marks. AreInOrder marks.pairs.items };
}

impl Marks {
    /// The marks that these pairs are, whatever their order.
    pub(crate) fn of_pairs(mut pairs: Vec<(u64, u64)>) -> Marks
        ensures { (id : GameId) → is_among result id ≡ is_among (map given_of pairs.items) id }
    {
        pairs.sort_unstable();
        pairs.dedup();
        Marks { pairs }
    }

    /// Where among them the mark of this piece stands.
    pub(crate) fn place(&self, id: GameId) -> Option<usize>
        ensures { is_some result ≡ is_among self.now id }
    {
        match self.pairs.binary_search(&(id.number, id.offset)) {
            Ok(place) => Some(place),
            Err(_) => None,
        }
    }

    /// How many they are.
    pub(crate) fn len(&self) -> usize {
        self.pairs.len()
    }

    /// The mark at the place, if there is one.
    pub(crate) fn at(&self, place: usize) -> Option<GameId> {
        let (number, offset) = *self.pairs.get(place)?;
        Some(GameId { number, offset })
    }
}

/// Which marks a run met, where it meets their pieces in their order.
#[derive(Clone, Copy, Debug, PartialEq, Eq)]
pub struct Met {
    /// How many it met.
    pub count: usize,
    /// The place of the first that it passed over.
    missed: Option<usize>,
}

impl Met {
    /// None is met.
    pub const NONE: Met = Met {
        count: 0,
        missed: None,
    };

    /// The one at this place is met.
    pub(crate) fn meet(&mut self, place: usize) {
        if place != self.count && self.missed.is_none() {
            self.missed = Some(self.count);
        }
        self.count = self.count.saturating_add(1);
    }

    /// The place of the first that is not met, which is past the last where each is.
    pub(crate) fn first_missed(&self) -> usize {
        self.missed.unwrap_or(self.count)
    }
}
