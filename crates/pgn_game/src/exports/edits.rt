//! Edits of the tags of a game that is written.
ghost use Rattle.std.specs.Prelude.{◌≡◌, ◌++◌, ◌∷◌, [], ℕ, IfErr, IfOk, IfSome, List, OnErr, OnOk};
ghost use Rattle.std.specs.Prelude.{Some, length, map, option_map, take, ◌≤◌};
ghost use Rattle.pgn_text.specs.Public.Elements.{item_of};
ghost use Rattle.pgn_text.specs.Public.GameTexts.{GameText, tag_in};
ghost use Rattle.pgn_game.specs.Public.Edits.{AreEditable, IsEditable, IsEditedBy};
ghost use Rattle.pgn_game.specs.Public.Edits.{IsEditedExport, IsTagged, all_edits, edit_of};
ghost use Rattle.pgn_game.specs.Public.Edits.{first_plies};
ghost use Rattle.pgn_game.specs.Private.Editing.{plies_up_to};
ghost use Rattle.pgn_game.specs.Public.Exports.{IsOrderedExport, lines_with};
ghost use Rattle.pgn_game.specs.Public.Faults.{IsFault};
ghost use Rattle.pgn_game.specs.Public.Replays.{IsSoundGame, fault_of};
ghost use Rattle.pgn_game.specs.Public.Starts.{fen_tag};

use crate::exports::exporter::{play_movetext, put_parts_or_leave};
use crate::exports::style::{Style, lines_with};
use crate::replays::main_line::count_main_moves;
use crate::replays::replayer::check_lines;
use crate::turns::fault::GameFault;
use itoa::Buffer;
use pgn_text::{Element, RawGame};
use std::alloc::{AllocError, Global};
use std::marker::Model;

/// An edit: the name of a tag, and the contents that its string is to have. Without contents the
/// tag is left out; one of the roster is then written as a tag that the game has not.
#[derive(Drop)]
pub struct TagEdit {
    pub name: Vec<u8>,
    pub contents: Option<Vec<u8>>,
}

/// Edits of a game that is written: those of its tags, whether PlyCount is to hold how many plies
/// it has, the last ply that is written, and the names of the tags that stand first after the
/// roster.
#[derive(Drop)]
pub struct TagEdits {
    edits: Vec<TagEdit>,
    counts_plies: bool,
    last_ply: Option<u32>,
    order: Vec<Vec<u8>>,
}

impl Model for TagEdits {
    ghost use Rattle.std.specs.Prelude.{map};
    ghost use Rattle.pgn_game.specs.Public.Edits.{AreEditable, Edits, edit_of};
    ghost use Rattle.pgn_game.specs.Private.Editing.{coded_edits};

    ghost Value = { Edits };

    ghost coded = { coded_edits };

    ghost view = { λ own. record {
      tags = map edit_of own.edits.items;
      counts_plies = own.counts_plies;
      last_ply = own.last_ply;
      order = map (λ name. name.items) own.order.items;
    } };

    ghost invariant = { λ own. AreEditable (map edit_of own.edits.items) };
}

impl TagEdit {
    /// The contents, if it has some.
    fn contents(&self) -> Option<&[u8]>
        ensures { option_map (λ text. text.now) result ≡ (edit_of self.now).contents }
    {
        match &self.contents {
            Some(contents) => Some(contents),
            None => None,
        }
    }
}

impl TagEdits {
    /// No edits, but that of PlyCount where plies are counted, and that nothing is written from the
    /// move after the last ply on, if one is given.
    pub fn new(alloc: Global, counts_plies: bool, last_ply: Option<u32>) -> Self
        ensures { result ≡ record {
          tags = [];
          counts_plies = counts_plies;
          last_ply = last_ply;
          order = [];
        } }
    {
        TagEdits {
            edits: Vec::new(alloc),
            counts_plies,
            last_ply,
            order: Vec::new(alloc),
        }
    }

    /// The edits with these names of the tags that stand first after the roster, in their order.
    pub fn ordered(mut self, order: Vec<Vec<u8>>) -> Self
        ensures { result ≡ record self { order = map (λ name. name.items) order.items } }
    {
        self.order = order;
        self
    }

    /// The edits with one more, which is made after the others, and before that of PlyCount.
    pub fn with(mut self, edit: TagEdit) -> Result<Self, AllocError>
        requires { IsEditable (edit_of edit) }
        ensures { IfOk result (λ own. own ≡ record self { tags = self.tags ++ edit_of edit ∷ [] }) }
    {
        self.edits.push(edit)?;
        Ok(self)
    }

    /// The names of the tags that stand first after the roster.
    pub(crate) fn order(&self) -> &[Vec<u8>]
        ensures { map (λ name. name.items) result.now ≡ self.now.order }
    {
        &self.order
    }

    /// Leaves the elements out that stand after the last ply that is written.
    pub(crate) fn cut(&self, elements: &mut Vec<Element<'_>>)
        ensures { map item_of elements.new.items
            ≡ plies_up_to self.now.last_ply (map item_of elements.old.items) }
    {
        if let Some(last_ply) = self.last_ply {
            elements.truncate(end_of_plies(elements, last_ply));
        }
    }

    /// The head of the game after the edits but for that of PlyCount.
    fn head_of<'b>(
        &'b self,
        alloc: Global,
        game: &'b RawGame<'_>,
    ) -> Result<RawGame<'b>, AllocError>
        ensures edited { IfOk result (λ head.
            IsEditedBy self.entry.now.tags (record game.entry.now { elements = [] }) head) }
        ensures able { OnOk result (AreEditable self.entry.now.tags) }
    {
        let mut head = game.beginning(alloc, 0)?;
        for edit in &self.edits {
            head = head.retagged(&edit.name, edit.contents())?;
        }
        Ok(head)
    }

    /// The head of the game after all edits, with the digits of its plies in the buffer where they
    /// are counted. It starts where it did.
    pub(crate) fn counted_head<'b>(
        &'b self,
        alloc: Global,
        game: &'b RawGame<'_>,
        buffer: &'b mut Buffer,
    ) -> Result<RawGame<'b>, AllocError>
        ensures edited { IfOk result (λ head.
            IsEditedBy (all_edits self.entry.now game.entry.now)
            (record game.entry.now { elements = [] }) head) }
        ensures able { OnOk result (AreEditable (all_edits self.entry.now game.entry.now)) }
        ensures start { IfOk result (λ head.
            tag_in fen_tag head.tags ≡ tag_in fen_tag game.entry.now.tags) }
    {
        let head = self.head_of(alloc, game)?;
        if !self.counts_plies {
            return Ok(head);
        }
        let plies = buffer.format(count_main_moves(game.elements()));
        head.retagged(b"PlyCount", Some(plies.as_bytes()))
    }
}

/// How many elements stand in front of the move of the main line that has so many before it; all,
/// where there is none.
fn end_of_plies(elements: &[Element<'_>], plies: u32) -> usize
    ensures { result ≡ length (first_plies plies 0 (map item_of elements.now)) }
{
    let mut left = plies;
    let mut depth = 0usize;
    let mut end = 0;
    for element in elements {
        match *element {
            Element::Move(_) if depth == 0 => {
                if left == 0 {
                    return end;
                }
                left -= 1;
            }
            Element::Open => depth += 1,
            Element::Close => depth = depth.saturating_sub(1),
            _ => {}
        }
        end += 1;
    }
    end
}

/// Appends the export of the game after the edits of its tags in the style, played while it is
/// written. Where a line that is written is faulty, the first fault is answered; then, and where
/// memory is refused, nothing is appended.
fn export_tagged<'a>(
    alloc: Global,
    game: &RawGame<'a>,
    edits: &TagEdits,
    style: &Style,
    out: &mut Vec<u8>,
) -> Result<(), GameFault<'a>>
    ensures text { OnOk result ((own : GameText) × (text : List ℕ)
        × IsTagged edits.now game.now own × IsOrderedExport edits.now.order style.now own text
        × (out.new.items ≡ out.old.items ++ text)) }
    ensures sound { OnOk result
        (IsSoundGame (lines_with style.now.variations) (tag_in fen_tag game.now.tags)
        game.now.elements) }
    ensures fault { IfErr result (λ fault.
        IfSome (fault_of fault)
        (IsFault (lines_with style.now.variations) (tag_in fen_tag game.now.tags)
        game.now.elements)) }
    ensures left { OnErr result (out.new.items ≡ out.old.items) }
{
    let movetext = play_movetext(alloc, game, style)?;
    let mut buffer = Buffer::new();
    let head = edits.counted_head(alloc, game, &mut buffer)?;
    head.invariant();
    game.invariant();
    Ok(put_parts_or_leave(&head, &edits.order, &movetext, style, out)?)
}

/// Appends the export of the game after the edits in the style, played while it is written. Where a
/// line that would be written without edits is faulty, the first fault is answered; then, and where
/// memory is refused, nothing is appended.
pub fn export_edited<'a>(
    alloc: Global,
    game: &RawGame<'a>,
    edits: &TagEdits,
    style: &Style,
    out: &mut Vec<u8>,
) -> Result<(), GameFault<'a>>
    ensures text { OnOk result ((text : List ℕ)
        × IsEditedExport (Some edits.now) style.now game.now text
        × (out.new.items ≡ out.old.items ++ text)) }
    ensures sound { OnOk result
        (IsSoundGame (lines_with style.now.variations) (tag_in fen_tag game.now.tags)
        game.now.elements) }
    ensures fault { IfErr result (λ fault.
        IfSome (fault_of fault)
        (IsFault (lines_with style.now.variations) (tag_in fen_tag game.now.tags)
        game.now.elements)) }
    ensures left { OnErr result (out.new.items ≡ out.old.items) }
{
    let Some(last_ply) = edits.last_ply else {
        return export_tagged(alloc, game, edits, style, out);
    };
    check_lines(alloc, game, lines_with(style))?;
    game.invariant();
    let end = end_of_plies(game.elements(), last_ply);
    let short = game.beginning(alloc, end)?;
    match export_tagged(alloc, &short, edits, style, out) {
        Ok(()) => Ok(()),
        Err(fault) => Err(fault.refused().into()),
    }
}
