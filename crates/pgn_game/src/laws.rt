//! What holds of every game, whatever replays it, and of every pack. Each law is the contract of a
//! function that does nothing.

ghost use Rattle.pgn_game.specs.Public.Comments.{NoCommandIsLeft, OtherTextsAreLeft};
ghost use Rattle.pgn_game.specs.Public.Comments.{CommandIsASpace, LoneSignIsBroken};
ghost use Rattle.pgn_game.specs.Public.Exports.{MovetextHasOneList};
ghost use Rattle.pgn_game.specs.Public.Refusals.{OneLineIsReached, RefusedWordIsTheFault};
ghost use Rattle.pgn_game.specs.Public.TextLines.{TokensHaveAText, TokensHaveOneText};
ghost use Rattle.pgn_game.specs.Public.GameLines.{SoundGameHasALine, GameHasOneLine, LineIsTheGame};
ghost use Rattle.pgn_game.specs.Public.GameLines.{GameLineHasItsWords};
ghost use Rattle.pgn_game.specs.Public.Laws.{EachMoveIsNamed, MainLineIsTheLine, EachMoveHasATurn};
ghost use Rattle.pgn_game.specs.Public.Laws.{EachMainMoveIsAPly, FirstPliesAreABeginning};
ghost use Rattle.pgn_game.specs.Public.Laws.{LaterPliesAreReplayed, LaterPliesAreTheRest};
ghost use Rattle.pgn_game.specs.Public.Laws.{EachElementIsOfOneLine, EachPlyIsOfOneLine};
ghost use Rattle.pgn_game.specs.Public.Laws.{LinesHaveOneText};
ghost use Rattle.pgn_game.specs.Public.Laws.{SameNamesInOrder};
ghost use Rattle.pgn_game.specs.Public.Laws.{GameHasOneReplay, GameHasOneBeginning};
ghost use Rattle.pgn_game.specs.Public.Laws.{GameHasOneOpening, OpeningIsOneOrNone, OpeningIsThere};
ghost use Rattle.pgn_game.specs.Public.Laws.{GameHasOneFault, SoundGameHasNoFault, GameHasAnAnswer};
ghost use Rattle.pgn_game.specs.Public.Laws.{MovetextHasTokens, GameHasAnExport, GameHasOneExport};
ghost use Rattle.pgn_game.specs.Public.Laws.{NoLineIsMisread, ExportIsReadAsOne};
ghost use Rattle.pgn_game.specs.Public.Laws.{ThreeBytesAreACode, CodeIsReadBack, MoveHasOneCode};
ghost use Rattle.pgn_game.specs.Public.Laws.{CodeOfAMoveFits, CodeMovesAsItsMove, GameHasOneRecord};
ghost use Rattle.pgn_game.specs.Public.Laws.{GameHasOneSpelling, SoundGameHasARecord};
ghost use Rattle.pgn_game.specs.Public.Laws.{GameOfABlockFits, HeadIsReadBack, RecordHasOneReading};
ghost use Rattle.pgn_game.specs.Public.Laws.{PackHasOneReading};
ghost use Rattle.pgn_game.specs.Public.Residues.{ChangeIsNoticed};
ghost use Rattle.pgn_game.specs.Public.Segments.{SegmentIsRead, ReadIsASegment, DamageIsNoticed};
ghost use Rattle.pgn_game.specs.Public.Segments.{PacksJoin};
ghost use Rattle.pgn_game.specs.Public.SegmentWriting.{RecordsOfAPack, RecordsAreOfAPack};

/// Whichever lines are replayed, each move of the main line is the only legal move that its word
/// names in the position before it.
pub fn one_legal_move()
    ensures { EachMoveIsNamed }
{}

/// The main line, of which the moves that stand in no variation are, is the line that the elements
/// spell as a tree, without its variations; replayed, it has a ply for each of them.
pub fn one_main_line()
    ensures line { MainLineIsTheLine }
    ensures plies { EachMainMoveIsAPly }
{}

/// The elements of a game up to a ply are a beginning of all its elements, with so many moves of
/// the main line; and with some of its tags asked for first, a game has the same tags.
pub fn edited_games()
    ensures plies { FirstPliesAreABeginning }
    ensures order { SameNamesInOrder }
{}

/// The elements of a game after so many plies have the other moves of its main line; and a replay
/// of the game gives one of them, from the position that stands there on.
pub fn later_games()
    ensures rest { LaterPliesAreTheRest }
    ensures replayed { LaterPliesAreReplayed }
{}

/// Each move, NAG and comment of a game is one line's own, and no other's, and so is the ply that a
/// move leads to; and in a layout a game has one text of its lines at most.
pub fn lines_of_a_game()
    ensures each { EachElementIsOfOneLine }
    ensures plies { EachPlyIsOfOneLine }
    ensures one { LinesHaveOneText }
{}

/// Where all lines are replayed, there is one turn for each move text.
pub fn a_turn_each()
    ensures { EachMoveHasATurn }
{}

/// Of the main line, and of all lines, a game has at most one replay and at most one fault, and not
/// both.
pub fn one_answer()
    ensures replay { GameHasOneReplay }
    ensures fault { GameHasOneFault }
    ensures not_both { SoundGameHasNoFault }
{}

/// A game has at most one beginning of so many plies.
pub fn one_beginning()
    ensures { GameHasOneBeginning }
{}

/// By the lines of a file of openings a game has at most one opening, and it has one exactly where
/// a line ends in a position of it. Of each game there is one answer, an opening or none.
pub fn one_opening()
    ensures one { GameHasOneOpening }
    ensures answer { OpeningIsOneOrNone }
    ensures there { OpeningIsThere }
{}

/// Of the main line, and of all lines, a game has a replay or a fault, where its FEN tag holds the
/// contents of a string and its parentheses stand in pairs, as in each game of a text. Of no other
/// contents is there a value that could be read or refused.
pub fn an_answer()
    ensures { GameHasAnAnswer }
{}

/// The elements in front of one lead to one position alone; and whatever word stands there and is
/// refused in that position is the fault of the game, whatever stands after it.
pub fn one_place_reached()
    ensures line { OneLineIsReached }
    ensures fault { RefusedWordIsTheFault }
{}

/// Tokens have a text in lines of each width, and only one.
pub fn one_text()
    ensures some { TokensHaveAText }
    ensures one { TokensHaveOneText }
{}

/// In a style the movetext of a game that starts from a position has one list of tokens at most.
pub fn one_movetext()
    ensures { MovetextHasOneList }
{}

/// In each style the movetext of a game that is replayed has a list of tokens; with variations,
/// where all lines are replayed.
pub fn a_movetext()
    ensures { MovetextHasTokens }
{}

/// In each style a game that is replayed has an export, and only one; with variations, where all
/// lines are replayed.
pub fn one_export()
    ensures some { GameHasAnExport }
    ensures one { GameHasOneExport }
{}

/// In each notation a game whose main line is sound has a line, and only one; and two games have
/// the same line exactly where they start in the same position and have the same moves. It is the
/// text of the words of the main line.
pub fn one_game_line()
    ensures some { SoundGameHasALine }
    ensures one { GameHasOneLine }
    ensures same { LineIsTheGame }
    ensures words { GameLineHasItsWords }
{}

/// No line of a movetext is read as an escape or as an event line, whatever its comments say; and
/// the export of a game begins with an event line, no other of its lines is one, and none is an
/// escape.
pub fn no_line_misread()
    ensures movetext { NoLineIsMisread }
    ensures export { ExportIsReadAsOne }
{}

/// Without its commands a comment has no `[%`, and one that has none is left as it is. A command
/// becomes a space; a `[%` that begins none loses its bracket.
pub fn no_command_left()
    ensures none { NoCommandIsLeft }
    ensures others { OtherTextsAreLeft }
    ensures command { CommandIsASpace }
    ensures lone { LoneSignIsBroken }
{}

/// Each three bytes spell one code of a ply, and the code has this spelling alone.
pub fn one_code()
    ensures some { ThreeBytesAreACode }
    ensures one { CodeIsReadBack }
{}

/// A move that a man may make has one code at most, which has a spelling, and which moves the men
/// as the move does.
pub fn code_of_a_move()
    ensures one { MoveHasOneCode }
    ensures fits { CodeOfAMoveFits }
    ensures moves { CodeMovesAsItsMove }
{}

/// A game that is replayed has one record at most under a name, a number and an offset; and a game
/// whose main line is sound has a record, and only one.
pub fn one_record()
    ensures replayed { GameHasOneRecord }
    ensures some { SoundGameHasARecord }
    ensures one { GameHasOneSpelling }
{}

/// A game of a block always fits in a record, under a name that is no longer than a path.
pub fn room_in_a_record()
    ensures { GameOfABlockFits }
{}

/// The head of a record shows its game; in front of bytes stands the record of one game at most;
/// and bytes are the pack of one list of games at most.
pub fn one_pack()
    ensures head { HeadIsReadBack }
    ensures record { RecordHasOneReading }
    ensures pack { PackHasOneReading }
{}

/// What was written as a segment is read back exactly, and nothing else is read as one. A segment
/// that is changed within seven bytes in a row is none any more, whatever follows it.
pub fn segments()
    ensures read { SegmentIsRead }
    ensures written { ReadIsASegment }
    ensures noticed { DamageIsNoticed }
    ensures change { ChangeIsNoticed }
{}

/// Packs that are joined are the pack of all their segments, and the records of a pack are those of
/// its segments.
pub fn joined_packs()
    ensures join { PacksJoin }
    ensures records { RecordsOfAPack }
    ensures segments { RecordsAreOfAPack }
{}
