//! What holds of every text, whatever reads it. Each law is the contract of a function that does
//! nothing.

ghost use Rattle.pgn_criteria.specs.Public.Laws.{TextHasOneMeaning, TextHasOneAnswer};
ghost use Rattle.pgn_criteria.specs.Public.Laws.{MemoryIsTheOnlyFault, EachPositionMeetsOrDoesNot};
ghost use Rattle.pgn_criteria.specs.Public.Laws.{MirrorIsUndone, FlipIsUndone, SidesAreAlike};
ghost use Rattle.pgn_criteria.specs.Public.Laws.{StepShowsNextPosition};

/// A text spells at most one list of alternatives. None is both accepted and refused, and none is
/// refused for two reasons or lines. Memory runs out only where the text is neither too long nor
/// bad.
pub fn one_meaning()
    ensures meaning { TextHasOneMeaning }
    ensures answer { TextHasOneAnswer }
    ensures memory { MemoryIsTheOnlyFault }
{}

/// Each position of a sound game meets criteria or does not.
pub fn met_or_not()
    ensures { EachPositionMeetsOrDoesNot }
{}

/// The mirror of a mirror is the position itself, and files that are turned twice stand as before.
/// Conditions that all have `either` hold of a position exactly where they hold of its mirror.
pub fn mirrors()
    ensures mirror { MirrorIsUndone }
    ensures flip { FlipIsUndone }
    ensures alike { SidesAreAlike }
{}

/// Where a walk shows a position, a step by the code of a pseudo-legal move shows the position
/// after the move.
pub fn walks()
    ensures { StepShowsNextPosition }
{}
