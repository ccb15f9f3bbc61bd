//! What holds of every text, whatever lists or reports it. Each law is the contract of a function
//! that does nothing.

ghost use Rattle.pgn_extract.specs.Public.RowLaws.{CsvIsReadBack, CsvHasOneReading, CsvIsReadOnce};
ghost use Rattle.pgn_extract.specs.Public.RowLaws.{TsvIsReadBack, TsvHasOneReading, TsvIsReadOnce};
ghost use Rattle.pgn_extract.specs.Public.RowLaws.{StringIsReadBack, StringHasOneReading};
ghost use Rattle.pgn_extract.specs.Public.RowLaws.{StringIsReadOnce, TableIsReadBack};
ghost use Rattle.pgn_extract.specs.Public.RowLaws.{TableIsReadOnce};
ghost use Rattle.pgn_extract.specs.Public.ObjectLaws.{ObjectHasOneReading, ObjectIsReadBack};
ghost use Rattle.pgn_extract.specs.Public.ObjectLaws.{ObjectIsReadOnce, ObjectIsUtf8};
ghost use Rattle.pgn_extract.specs.Public.ObjectLaws.{LinesAreReadBack, LinesAreReadOnce};
ghost use Rattle.pgn_extract.specs.Public.ObjectLaws.{NamesAreAsAsked};
ghost use Rattle.pgn_extract.specs.Public.Searching.{PackedTextIsAPack};
ghost use Rattle.pgn_extract.specs.Public.Laws.{PiecesHaveOneListing, EachPieceHasAMark};
ghost use Rattle.pgn_extract.specs.Public.Laws.{TextHasAReport, TextHasOneReport};
ghost use Rattle.pgn_extract.specs.Public.Laws.{ExportsAreWritten, TextHasOneExport};
ghost use Rattle.pgn_extract.specs.Public.Laws.{PackIsListedAsItsText, NamesAreShown};
ghost use Rattle.pgn_extract.specs.Public.Laws.{FirstChangesNoExport, PieceIsInOneExport};
ghost use Rattle.pgn_extract.specs.Public.Laws.{NoteNamesTheStop, NoNotes};
ghost use Rattle.pgn_extract.specs.Public.Laws.{PartsJoin, PartsAreReported};
ghost use Rattle.pgn_extract.specs.Public.Laws.{TagsFirstChangesNoOutput};
ghost use Rattle.pgn_extract.specs.Public.Laws.{RunIndexes, RunExports, RunListsLines, RunResumes};

/// The pieces of each text have entries, and these are one list: the plies of its sound games that
/// are within the bounds and whose position meets the criteria, or the least such of each game,
/// each once, in the order of the games and their plies.
pub fn one_listing()
    ensures { PiecesHaveOneListing }
{}

/// Each piece of a text has a mark, which is one of the marks, within the text, and one at which a
/// run can begin.
pub fn marks()
    ensures { EachPieceHasAMark }
{}

/// The pieces of each text are reported in some way, whatever is to be reported, and in only one.
pub fn one_report()
    ensures some { TextHasAReport }
    ensures one { TextHasOneReport }
{}

/// What a run writes in the export's mode is the exports of the games among the pieces of the text,
/// and these are one text.
pub fn one_export()
    ensures written { ExportsAreWritten }
    ensures one { TextHasOneExport }
{}

/// The exports are the same whether the first entry of each game is asked for or all.
pub fn first_changes_no_export()
    ensures { FirstChangesNoExport }
{}

/// The same goes to the output whether tags come first or not.
pub fn tags_first_change_no_output()
    ensures { TagsFirstChangesNoOutput }
{}

/// Each piece is in just one of three exports, as it stands: of the games with an entry, of those
/// without one, and of the faulty ones.
pub fn each_piece_in_one_export()
    ensures { PieceIsInOneExport }
{}

/// The note on bytes that are no game names just the byte at which they stop agreeing with games;
/// and what is no note.
pub fn notes()
    ensures one { NoteNamesTheStop }
    ensures none { NoNotes }
{}

/// What is reported of a text is what is reported of its parts, one after the other, where it is
/// cut at one of its pieces. The text begins at any offset and its pieces are numbered from any
/// number, so it may be cut again.
pub fn parts()
    ensures join { PartsJoin }
    ensures reported { PartsAreReported }
{}

/// Where each sound game of a text is packed, what the export writes is the pack of the text. So a
/// search that lists what such a run wrote writes the listing of the text. Both ask that the name
/// of the file is shown as it is, as each name of a path is.
pub fn packs()
    ensures pack { PackedTextIsAPack }
    ensures listing { PackIsListedAsItsText }
    ensures names { NamesAreShown }
{}

/// What a complete run wrote in the modes but `List`, and where it began at a mark. All of it
/// follows from what `run` ensures at `Ok`.
pub fn complete_runs()
    ensures indexes { RunIndexes }
    ensures lines { RunListsLines }
    ensures exports { RunExports }
    ensures resumes { RunResumes }
{}

/// A row of values with commas or tabs between is read as it was written, whatever stands after it,
/// and in no other way; a text begins with one row at most. So is a string of JSON, and so are rows
/// one below another: no value of a tag makes a cell, a row or a number of its own.
pub fn one_row()
    ensures csv_read { CsvIsReadBack }
    ensures csv_reading { CsvHasOneReading }
    ensures csv_once { CsvIsReadOnce }
    ensures tsv_read { TsvIsReadBack }
    ensures tsv_reading { TsvHasOneReading }
    ensures tsv_once { TsvIsReadOnce }
    ensures string_read { StringIsReadBack }
    ensures string_reading { StringHasOneReading }
    ensures string_once { StringIsReadOnce }
    ensures table_read { TableIsReadBack }
    ensures table_once { TableIsReadOnce }
{}

/// A row that is written as an object of JSON is read as the names and the values of its columns,
/// in their order, and in no other way; a text begins with one object at most. Its line is UTF-8.
/// So are rows read one below another, an object in each line: no value of a tag makes a member, a
/// number or a line.
pub fn one_object()
    ensures read { ObjectIsReadBack }
    ensures reading { ObjectHasOneReading }
    ensures once { ObjectIsReadOnce }
    ensures names { NamesAreAsAsked }
    ensures utf8 { ObjectIsUtf8 }
    ensures lines_read { LinesAreReadBack }
    ensures lines_once { LinesAreReadOnce }
{}
