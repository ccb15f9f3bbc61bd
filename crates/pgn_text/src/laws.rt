//! What holds of every text, whatever reads it. Each law is the contract of a function that does
//! nothing.

ghost use Rattle.pgn_text.specs.Public.StopLaws.{EachTextStopsOnce, FrontsOfGameFronts};
ghost use Rattle.pgn_text.specs.Public.StopLaws.{StopsAfterGame, StopsAfterChange};
ghost use Rattle.pgn_text.specs.Public.StopLaws.{UnreadableStopsAlone};
ghost use Rattle.pgn_text.specs.Public.Laws.{AtMostOneGame, GameHasAGameText, GameTextIsOne};
ghost use Rattle.pgn_text.specs.Public.Laws.{TextHasOneParting, BlockHasOneList, TextHasOneList};
ghost use Rattle.pgn_text.specs.Public.Laws.{ResumesAnywhere, FrontHasThePiecesBefore};
ghost use Rattle.pgn_text.specs.Public.Laws.{BlockKeepsPieces, TextKeepsPieces};
ghost use Rattle.pgn_text.specs.Public.TextLaws.{PieceBeginsInItsText, PiecesJoinAtEventLines};
ghost use Rattle.pgn_text.specs.Public.TextLaws.{PiecesPartAtEventLines};
ghost use Rattle.pgn_text.specs.Public.AnswerLaws.{OneElementPlace, OneTagPlace, StandsInOneThing};
ghost use Rattle.pgn_text.specs.Public.AnswerLaws.{CommentIsOpen, EndsWhereNothingIsLeft};
ghost use Rattle.pgn_text.specs.Public.AnswerLaws.{EndsAfterAnError, FailsBeforeNoEventLine};
ghost use Rattle.pgn_text.specs.Public.AnswerLaws.{DoneWithTheBlock};

/// A text has one reading: one parting into blocks, one list of pieces in each block, and so one
/// list of pieces with their offsets; and at any place of a block at most one game begins.
pub fn one_reading()
    ensures one_game { AtMostOneGame }
    ensures one_parting { TextHasOneParting }
    ensures one_list { BlockHasOneList }
    ensures one_marked_list { TextHasOneList }
{}

/// The parts of a game make one game text: its tags by their names, of each name the first, its
/// elements and its result.
pub fn one_game_text()
    ensures some { GameHasAGameText }
    ensures one { GameTextIsOne }
{}

/// Each piece of a text begins within it, and before it stand no more pieces than bytes.
pub fn mark_bounds()
    ensures { PieceBeginsInItsText }
{}

/// An event line parts the pieces of a text: those before it and those from it on do not depend on
/// each other, so that unreadable bytes cost no game of another block.
pub fn event_lines()
    ensures join { PiecesJoinAtEventLines }
    ensures part { PiecesPartAtEventLines }
{}

/// A reading that begins again at a piece of a text gives that piece and those after it, with the
/// same offsets.
pub fn resumption()
    ensures { ResumesAnywhere }
{}

/// The text in front of a piece has exactly the pieces before that one, so that a text can be read
/// in parts that are cut at its pieces.
pub fn fronts()
    ensures { FrontHasThePiecesBefore }
{}

/// A block or a text whose pieces are all games keeps its pieces, and so its marks, under larger
/// limits.
pub fn old_marks()
    ensures block { BlockKeepsPieces }
    ensures text { TextKeepsPieces }
{}

/// Each text agrees with games up to one place: after its game, if it begins with one, and never
/// before a change that was made in one. Bytes of a block that are no game agree with games as far
/// by themselves as in the block.
pub fn one_stop()
    ensures once { EachTextStopsOnce }
    ensures fronts { FrontsOfGameFronts }
    ensures game { StopsAfterGame }
    ensures change { StopsAfterChange }
    ensures alone { UnreadableStopsAlone }
{}

/// An element of a game stands at one place, and so does the first tag of a name.
pub fn one_place()
    ensures element { OneElementPlace }
    ensures tag { OneTagPlace }
{}

/// A place where a text stops agreeing with games stands in one thing.
pub fn one_context()
    ensures one { StandsInOneThing }
    ensures comment { CommentIsOpen }
{}

/// The pieces of a block end where none is left, or after an error.
pub fn ends_of_pieces()
    ensures nothing_left { EndsWhereNothingIsLeft }
    ensures after_error { EndsAfterAnError }
{}

/// A failed read and the largest offset end no block that is held whole.
pub fn failures()
    ensures { FailsBeforeNoEventLine }
{}

/// After a block no byte that was done with before is held again, and the block is done with.
pub fn done_with()
    ensures { DoneWithTheBlock }
{}
