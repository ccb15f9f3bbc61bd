//! What holds of every text and position, whatever reads it. Each law is the contract of a function
//! that does nothing.

ghost use Rattle.chess.specs.Public.Laws.{KeysTellPositions, SamePositionsHaveSamePawns};
ghost use Rattle.chess.specs.Public.Laws.{TextSpellsOnePosition, TextHasOneAnswer};
ghost use Rattle.chess.specs.Public.Laws.{SoundPositionsAreRead, FenIsReadBack, PositionHasOneText};
ghost use Rattle.chess.specs.Public.Laws.{EachPositionHasAText, InitialPositionIsOne};
ghost use Rattle.chess.specs.Public.Laws.{InitialPositionIsSound, MovesKeepPositionsSound};
ghost use Rattle.chess.specs.Public.Laws.{SanNamesItsMove, MoveHasOneText, EachMoveHasAText};
ghost use Rattle.chess.specs.Public.Laws.{EachTextNamesOneNoneOrSeveral, SpelledMenAreOnBoard};
ghost use Rattle.chess.specs.Public.Laws.{MenStayOnBoard, EachTextIsReadOrRefused};
ghost use Rattle.chess.specs.Public.Laws.{TextHasOneRefusal};

/// A text spells at most one position in FEN, and none that is refused.
pub fn one_position()
    ensures one { TextSpellsOnePosition }
    ensures apart { TextHasOneAnswer }
{}

/// A position has one text in FEN: the one that `fen` writes. Of a sound position it is read back,
/// so that `from_fen` answers the position that `fen` has written; and a text is read exactly where
/// the position that it spells is sound.
pub fn fen_is_read_back()
    ensures one { PositionHasOneText }
    ensures some { EachPositionHasAText }
    ensures back { FenIsReadBack }
    ensures sound { SoundPositionsAreRead }
{}

/// The initial position has its men where the Laws put them, and no other position is initial.
pub fn one_initial_position()
    ensures { InitialPositionIsOne }
{}

/// The initial position is sound, and each position after a legal move from a sound one.
pub fn positions_are_sound()
    ensures initial { InitialPositionIsSound }
    ensures after { MovesKeepPositionsSound }
{}

/// The text of a legal move in standard algebraic notation names that move and no other, so that
/// `resolve` reads what `san` writes.
pub fn san_is_read_back()
    ensures { SanNamesItsMove }
{}

/// A move has at most one text in standard algebraic notation: the one that `san` writes.
pub fn one_text()
    ensures { MoveHasOneText }
{}

/// A legal move has a text in standard algebraic notation, in each position whose men stand on the
/// board alone.
pub fn a_text()
    ensures { EachMoveHasAText }
{}

/// Each text names one legal move alone, or none, or several, in each position whose men stand on
/// the board alone, as they do in each sound position, in each that FEN spells, and after each
/// legal move in such a position. A text that names none is refused for one reason. And each text
/// is read as FEN, or refused.
pub fn an_answer()
    ensures word { EachTextNamesOneNoneOrSeveral }
    ensures spelled { SpelledMenAreOnBoard }
    ensures after { MenStayOnBoard }
    ensures refusal { TextHasOneRefusal }
    ensures fen { EachTextIsReadOrRefused }
{}

/// Two sound positions have the same key exactly where they are the same but for their counts, and
/// positions that are the same have the same pawns.
pub fn keys_tell_positions()
    ensures keys { KeysTellPositions }
    ensures pawns { SamePositionsHaveSamePawns }
{}
