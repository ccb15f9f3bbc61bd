//! Which games are exported, and how.
ghost use Rattle.std.specs.Prelude.{◌≡◌, ◌↔◌, ◌++◌, ℕ, List, MatchResult, IfErr, IfSome, OnOk};
ghost use Rattle.std.specs.Prelude.{IsTrue, OnErr, option_map};
ghost use Rattle.pgn_text.specs.Public.GameTexts.{GameText, tag_in};
ghost use Rattle.pgn_game.specs.Public.Edits.{IsEditedExport};
ghost use Rattle.pgn_game.specs.Public.Exports.{lines_with};
ghost use Rattle.pgn_game.specs.Public.Faults.{IsFault};
ghost use Rattle.pgn_game.specs.Public.GameLines.{IsGameLine};
ghost use Rattle.pgn_game.specs.Public.LineGames.{AreLineTexts, layout_of};
ghost use Rattle.pgn_game.specs.Public.PackedGames.{IsRecordOf};
ghost use Rattle.pgn_game.specs.Public.Replays.{IsSoundGame, Replay, fault_of};
ghost use Rattle.pgn_game.specs.Public.Starts.{fen_tag};
ghost use Rattle.pgn_game.specs.declared.replays.replayer.Lines.TheVariants.{All, Main};
ghost use Rattle.pgn_extract.specs.Public.Aims.{aim_of};
ghost use Rattle.pgn_extract.specs.Private.Blockwise.{AddsText, ExportsAll, ExportsLines};
ghost use Rattle.pgn_extract.specs.Private.Blockwise.{IsOfLines, PutsText, StopsIn, TakesAll};
ghost use Rattle.pgn_extract.specs.Private.Blockwise.{line_layout};
ghost use Rattle.pgn_extract.specs.Public.Exports.{HasEntry, IsSelected, as_it_stands, faulty_text};
ghost use Rattle.pgn_extract.specs.Public.Exports.{line_begin, line_with, written_lines};
ghost use Rattle.pgn_extract.specs.Public.Exports.{IsFirstOrNone, IsTextOf};
ghost use Rattle.pgn_extract.specs.Private.Finding.{IsChosen, IsOfGame};
ghost use Rattle.pgn_criteria.specs.Public.Meeting.{heading_of};
ghost use Rattle.pgn_extract.specs.declared.settings.Form.TheVariants.{AsItStands, FromEntry};

use crate::entries::{GameContext, first_entry};
use crate::output::texts::push_named_mark;
use crate::settings::{Form, Mode, Select, Settings};
use pgn_game::pack::{GameOrigin, push_record};
use pgn_game::{
    GameFault, LineForm, Lines, Notation, TagEdits, check_lines, check_variations, export_edited,
    export_lines, export_played, later_game, lines_with, push_line,
};
use pgn_text::RawGame;
use std::alloc::{AllocError, Global};

/// Which lines of a game must be sound: all that are written.
pub fn written_lines(settings: &Settings) -> Lines
    ensures { result ≡ written_lines (aim_of settings.now) }
{
    match settings.form {
        Form::Standard | Form::FromEntry | Form::AsItStands => lines_with(&settings.style),
        Form::EachLine | Form::LineOfEach(_) => Lines::All,
        Form::Line(_) | Form::Record => Lines::Main,
    }
}

/// Appends bytes as they stand, and two line feeds.
fn push_as_is(text: &mut Vec<u8>, bytes: &[u8]) -> Result<(), AllocError>
    ensures { OnOk result (text.new.items ≡ text.old.items ++ as_it_stands bytes.now) }
{
    text.extend_from_slice(bytes)?;
    text.extend_from_slice(b"\n\n")
}

/// Appends what is written of a faulty piece with these bytes: they, where the export selects the
/// faulty ones.
pub fn push_faulty(
    text: &mut Vec<u8>,
    mode: Mode,
    select: Select,
    bytes: &[u8],
) -> Result<(), AllocError>
    ensures { OnOk result (text.new.items ≡ text.old.items ++ faulty_text mode select bytes.now) }
{
    match mode {
        Mode::Index | Mode::List | Mode::EachLine => Ok(()),
        Mode::Export => match select {
            Select::Matching | Select::Others => Ok(()),
            Select::Faulty => push_as_is(text, bytes),
        },
    }
}

/// Whether a sound game is selected that has an entry or has none.
fn is_selected(settings: &Settings, has: bool) -> bool
    ensures { (game : GameText) (replay : Replay)
        → (IsTrue has ↔ HasEntry (aim_of settings.now) (heading_of game) replay)
        → IsTrue result
        ↔ IsSelected settings.now.select (HasEntry (aim_of settings.now) (heading_of game) replay) }
{
    match settings.select {
        Select::Matching => has,
        Select::Others => !has,
        Select::Faulty => false,
    }
}

/// Whether each sound game is written, whatever its moves: ply 0 is looked for, and nothing else is
/// asked.
pub fn takes_all(settings: &Settings) -> bool
    ensures { IsTrue result → TakesAll (aim_of settings.now) }
{
    settings.criteria.is_none() && settings.min_ply == 0 && settings.select == Select::Matching
}

/// Whether each sound game is exported in the standard's form, unedited and whatever its moves.
pub fn exports_all(settings: &Settings) -> bool
    ensures { IsTrue result → ExportsAll (aim_of settings.now) }
{
    let is_plain = settings.form == Form::Standard && settings.edits.is_none();
    settings.mode == Mode::Export && is_plain && takes_all(settings)
}

/// Whether each line of a game is written for itself.
fn is_of_lines(settings: &Settings) -> bool
    ensures { IsTrue result → IsOfLines settings.now.form }
{
    match settings.form {
        Form::EachLine => true,
        Form::LineOfEach(_) => true,
        Form::Standard | Form::FromEntry | Form::AsItStands => false,
        Form::Line(_) | Form::Record => false,
    }
}

/// Whether each line of each sound game is written for itself, whatever its moves.
pub fn exports_lines(settings: &Settings) -> bool
    ensures { IsTrue result → ExportsLines (aim_of settings.now) }
{
    let is_plain = is_of_lines(settings) && settings.openings.is_none();
    settings.mode == Mode::Export && is_plain && takes_all(settings)
}

/// The edits of the games that are written, if there are some.
pub fn edits_of(settings: &Settings) -> Option<&TagEdits>
    ensures { option_map (λ edits. edits.now) result ≡ settings.now.edits }
{
    match &settings.edits {
        Some(edits) => Some(edits),
        None => None,
    }
}

/// Appends what each line of a game begins with, where it stands on a line of text.
pub fn push_line_begin(text: &mut Vec<u8>, context: GameContext<'_>) -> Result<(), AllocError>
    ensures { OnOk result (text.new.items ≡ text.old.items
        ++ line_begin context.entry.settings.now.name context.entry.own) }
{
    push_named_mark(text, &context.settings.name, context.own)?;
    text.extend_from_slice(b" ")
}

/// How the lines of a game are written: on lines of text after these bytes, or as exports.
pub fn line_form<'s>(settings: &'s Settings, before: &'s [u8]) -> LineForm<'s>
    ensures { layout_of result
        ≡ line_layout settings.now.form (aim_of settings.now) before.now }
{
    let edits = edits_of(settings);
    let style = &settings.style;
    match settings.form {
        Form::LineOfEach(notation) => LineForm::Turns { notation, before },
        Form::Standard | Form::FromEntry | Form::EachLine => LineForm::Export { edits, style },
        Form::AsItStands | Form::Line(_) | Form::Record => LineForm::Export { edits, style },
    }
}

/// The first fault of the lines that are written of a game whose main line has this fault.
fn first_fault<'a>(
    alloc: Global,
    settings: &Settings,
    game: &RawGame<'a>,
    fault: GameFault<'a>,
) -> GameFault<'a>
    requires { IfSome (fault_of fault)
        (IsFault Main (tag_in fen_tag game.now.tags) game.now.elements) }
    ensures { IfSome (fault_of result)
        (IsFault (written_lines (aim_of settings.now)) (tag_in fen_tag game.now.tags)
        game.now.elements) }
{
    match written_lines(settings) {
        Lines::Main => fault,
        Lines::All => match check_lines(alloc, game, Lines::All) {
            Ok(()) => fault,
            Err(first) => first,
        },
    }
}

/// Whether the lines that are written are sound, of a game whose main line is; or their first
/// fault.
fn check_written<'a>(
    alloc: Global,
    settings: &Settings,
    game: &RawGame<'a>,
) -> Result<(), GameFault<'a>>
    requires { IsSoundGame Main (tag_in fen_tag game.now.tags) game.now.elements }
    ensures { MatchResult result
        (λ _. IsSoundGame (written_lines (aim_of settings.now)) (tag_in fen_tag game.now.tags)
        game.now.elements)
        (λ fault.
        IfSome (fault_of fault)
        (IsFault (written_lines (aim_of settings.now)) (tag_in fen_tag game.now.tags)
        game.now.elements)) }
{
    match written_lines(settings) {
        Lines::Main => Ok(()),
        Lines::All => check_variations(alloc, game),
    }
}

/// Appends the line of a game, with its moves in this notation; where its main line is faulty or
/// memory is refused, some bytes of it.
fn push_game_line<'a>(
    text: &mut Vec<u8>,
    context: GameContext<'_>,
    notation: Notation,
    game: &RawGame<'a>,
) -> Result<(), GameFault<'a>>
    ensures text { OnOk result ((line : List ℕ)
        × IsGameLine notation (tag_in fen_tag game.now.tags) game.now.elements line
        × (text.new.items ≡ text.old.items
        ++ line_with context.entry.settings.now.name context.entry.own line)) }
    ensures fault { IfErr result (λ fault.
        IfSome (fault_of fault) (StopsIn Main game.now text.old.items text.new.items)) }
{
    push_named_mark(text, &context.settings.name, context.own)?;
    text.extend_from_slice(b" ")?;
    push_line(context.alloc, game, notation, text)?;
    text.extend_from_slice(b"\n")?;
    Ok(())
}

/// The name that lines begin with, if they have one.
fn shown_name(settings: &Settings) -> Option<&[u8]>
    ensures { option_map (λ name. name.now) result ≡ settings.now.name }
{
    match &settings.name {
        Some(name) => Some(name.bytes()),
        None => None,
    }
}

/// Appends the record of a game; or answers the fault of its main line.
fn push_game_record<'a>(
    text: &mut Vec<u8>,
    context: GameContext<'_>,
    game: &RawGame<'a>,
) -> Result<(), GameFault<'a>>
    ensures { MatchResult result
        (λ _. (bytes : List ℕ) × IsRecordOf context.entry.settings.now.name context.entry.own.number
        context.entry.own.offset game.now bytes × (text.new.items ≡ text.old.items ++ bytes))
        (λ fault. IfSome (fault_of fault) (StopsIn Main game.now text.old.items text.new.items)) }
{
    let origin = GameOrigin {
        name: shown_name(context.settings),
        number: context.own.number,
        offset: context.own.offset,
    };
    push_record(context.alloc, &origin, game, text)
}

/// Appends a game as it stands, if the lines that are written are sound; or answers their first
/// fault.
fn put_as_is<'a>(
    alloc: Global,
    text: &mut Vec<u8>,
    settings: &Settings,
    game: &RawGame<'a>,
) -> Result<(), GameFault<'a>>
    ensures { MatchResult result
        (λ _. IsSoundGame (written_lines (aim_of settings.now)) (tag_in fen_tag game.now.tags)
        game.now.elements
        × (text.new.items ≡ text.old.items ++ as_it_stands game.now.text))
        (λ fault. IfSome (fault_of fault)
        (StopsIn (written_lines (aim_of settings.now)) game.now text.old.items text.new.items)) }
{
    match check_lines(alloc, game, written_lines(settings)) {
        Ok(()) => {
            push_as_is(text, game.text())?;
            Ok(())
        }
        Err(fault) => Err(fault),
    }
}

/// Appends the export of a game with the edits, played while it is written. Where one of the lines
/// that are written is faulty, the first fault is answered; then, and where memory is refused,
/// nothing is appended.
fn put_export<'a>(
    alloc: Global,
    text: &mut Vec<u8>,
    settings: &Settings,
    game: &RawGame<'a>,
) -> Result<(), GameFault<'a>>
    ensures text { OnOk result ((own : List ℕ)
        × IsEditedExport settings.now.edits settings.now.style game.now own
        × (text.new.items ≡ text.old.items ++ own)) }
    ensures sound { OnOk result
        (IsSoundGame (lines_with settings.now.style.variations) (tag_in fen_tag game.now.tags)
        game.now.elements) }
    ensures fault { IfErr result (λ fault.
        IfSome (fault_of fault)
        (IsFault (lines_with settings.now.style.variations) (tag_in fen_tag game.now.tags)
        game.now.elements)) }
    ensures left { OnErr result (text.new.items ≡ text.old.items) }
{
    match &settings.edits {
        Some(edits) => export_edited(alloc, game, edits, &settings.style, text),
        None => export_played(alloc, game, &settings.style, text),
    }
}

/// Appends the export of a game with the edits from its first entry on, if the lines that would be
/// written of the whole game are sound; or answers their first fault. Then, and where memory is
/// refused, nothing is appended.
fn put_later<'a>(
    text: &mut Vec<u8>,
    context: GameContext<'a>,
    game: &RawGame<'a>,
    first: Option<usize>,
) -> Result<(), GameFault<'a>>
    requires { (replay : Replay) → IsOfGame game.now replay
        → IsFirstOrNone (aim_of context.settings.now) (heading_of game.now) replay first }
    ensures text { OnOk result ((own : List ℕ)
        × IsTextOf FromEntry (aim_of context.entry.settings.now) context.entry.own game.now own
        × (text.new.items ≡ text.old.items ++ own)) }
    ensures sound { OnOk result
        (IsSoundGame (lines_with context.entry.settings.now.style.variations)
        (tag_in fen_tag game.now.tags) game.now.elements) }
    ensures fault { IfErr result (λ fault.
        IfSome (fault_of fault)
        (IsFault (lines_with context.entry.settings.now.style.variations)
        (tag_in fen_tag game.now.tags) game.now.elements)) }
    ensures left { OnErr result (text.new.items ≡ text.old.items) }
{
    let GameContext {
        alloc,
        settings,
        ..
    } = context;
    let Some(ply) = first else {
        return put_export(alloc, text, settings, game);
    };
    check_lines(alloc, game, lines_with(&settings.style))?;
    let mut fen = Vec::new(alloc);
    let own = later_game(alloc, game, ply, &mut fen)?;
    match put_export(alloc, text, settings, &own) {
        Ok(()) => Ok(()),
        Err(fault) => Err(fault.refused().into()),
    }
}

/// Appends the lines of a game, each as a game of its own or on a line of text. Where a line is
/// faulty, the first fault is answered; then, and where memory is refused, nothing is appended.
fn put_lines<'a>(
    text: &mut Vec<u8>,
    context: GameContext<'_>,
    game: &RawGame<'a>,
) -> Result<(), GameFault<'a>>
    ensures text { OnOk result ((own : List ℕ)
        × AreLineTexts (line_layout context.entry.settings.now.form
        (aim_of context.entry.settings.now)
        (line_begin context.entry.settings.now.name context.entry.own)) game.now own
        × (text.new.items ≡ text.old.items ++ own)) }
    ensures sound { OnOk result
        (IsSoundGame All (tag_in fen_tag game.now.tags) game.now.elements) }
    ensures fault { IfErr result (λ fault.
        IfSome (fault_of fault) (IsFault All (tag_in fen_tag game.now.tags) game.now.elements)) }
    ensures left { OnErr result (text.new.items ≡ text.old.items) }
{
    let mut before = Vec::new(context.alloc);
    push_line_begin(&mut before, context)?;
    export_lines(
        context.alloc,
        game,
        line_form(context.settings, &before),
        text,
    )
}

/// Appends the text of a game whose first entry stands at this ply, played while it is written: its
/// export, whole, from that entry on or line by line, its line or lines, its record, or the game as
/// it stands. Where one of the lines that are written is faulty, the first fault is answered, and
/// some bytes of the text may be appended.
fn put_text<'a>(
    text: &mut Vec<u8>,
    context: GameContext<'a>,
    game: &RawGame<'a>,
    first: Option<usize>,
) -> Result<(), GameFault<'a>>
    requires { (replay : Replay) → IsOfGame game.now replay
        → IsFirstOrNone (aim_of context.settings.now) (heading_of game.now) replay first }
    ensures { MatchResult result
        (λ _. PutsText (aim_of context.entry.settings.now) context.entry.own game.now text.old.items
        text.new.items)
        (λ fault. IfSome (fault_of fault)
        (StopsIn (written_lines (aim_of context.entry.settings.now)) game.now text.old.items
        text.new.items)) }
{
    let settings = context.settings;
    match settings.form {
        Form::Standard => put_export(context.alloc, text, settings, game),
        Form::FromEntry => put_later(text, context, game, first),
        Form::EachLine => put_lines(text, context, game),
        Form::LineOfEach(_) => put_lines(text, context, game),
        Form::AsItStands => put_as_is(context.alloc, text, settings, game),
        Form::Line(notation) => push_game_line(text, context, notation, game),
        Form::Record => push_game_record(text, context, game),
    }
}

/// Whether games are written as they stand.
fn is_as_it_stands(settings: &Settings) -> bool
    ensures { IsTrue result ↔ settings.now.form ≡ AsItStands }
{
    match settings.form {
        Form::AsItStands => true,
        Form::Standard | Form::FromEntry | Form::EachLine => false,
        Form::Line(_) | Form::LineOfEach(_) | Form::Record => false,
    }
}

/// Appends the text of a game whose main line is sound and whose first entry stands at this ply, if
/// it is selected; or answers the first fault of the lines that are written.
fn put_chosen<'a>(
    text: &mut Vec<u8>,
    context: GameContext<'a>,
    game: &RawGame<'a>,
    first: Option<usize>,
) -> Result<(), GameFault<'a>>
    requires { IsChosen (aim_of context.settings.now) game.now first }
    ensures { MatchResult result
        (λ _. AddsText (aim_of context.entry.settings.now) context.entry.own game.now text.old.items
        text.new.items)
        (λ fault. IfSome (fault_of fault)
        (StopsIn (written_lines (aim_of context.entry.settings.now)) game.now text.old.items
        text.new.items)) }
{
    let settings = context.settings;
    if !is_selected(settings, first.is_some()) {
        return check_written(context.alloc, settings, game);
    }
    if is_as_it_stands(settings) {
        check_written(context.alloc, settings, game)?;
        push_as_is(text, game.text())?;
        return Ok(());
    }
    put_text(text, context, game, first)
}

/// Appends the text of a game, if the lines that are written are sound and it is selected by its
/// entries; or answers their first fault.
fn put_by_entry<'a>(
    text: &mut Vec<u8>,
    context: GameContext<'a>,
    game: &RawGame<'a>,
) -> Result<(), GameFault<'a>>
    ensures { MatchResult result
        (λ _. AddsText (aim_of context.entry.settings.now) context.entry.own game.now text.old.items
        text.new.items)
        (λ fault. IfSome (fault_of fault)
        (StopsIn (written_lines (aim_of context.entry.settings.now)) game.now text.old.items
        text.new.items)) }
{
    let settings = context.settings;
    match first_entry(context.alloc, settings, game) {
        Ok(first) => put_chosen(text, context, game, first),
        Err(fault) => Err(first_fault(context.alloc, settings, game, fault)),
    }
}

/// Appends the text of a game, if the lines that are written are sound and it is selected: its
/// export, its line, its record, or the game as it stands. Where one of these lines is faulty, the
/// first fault is answered, and some bytes of the text may be appended.
pub fn put_selected<'a>(
    text: &mut Vec<u8>,
    context: GameContext<'a>,
    game: &RawGame<'a>,
) -> Result<(), GameFault<'a>>
    ensures { MatchResult result
        (λ _. AddsText (aim_of context.entry.settings.now) context.entry.own game.now text.old.items
        text.new.items)
        (λ fault. IfSome (fault_of fault)
        (StopsIn (written_lines (aim_of context.entry.settings.now)) game.now text.old.items
        text.new.items)) }
{
    let settings = context.settings;
    if takes_all(settings) {
        return put_text(text, context, game, Some(0));
    }
    match settings.select {
        Select::Faulty => check_lines(context.alloc, game, written_lines(settings)),
        Select::Matching | Select::Others => put_by_entry(text, context, game),
    }
}
