//! The edits of games that the arguments ask for.
ghost use Rattle.std.specs.Prelude.{◌≡◌, ◌↔◌, ℕ, IfErr, IfOk, IsTrue, List, MatchResult, bytes_eq};
ghost use Rattle.std.specs.Prelude.{map};
ghost use Rattle.std.specs.List.{list_any};
ghost use Rattle.pgn_game.specs.Public.Edits.{IsEditable, edit_of};
ghost use Rattle.pgn_extract.specs.Public.AskedEdits.{AreAskedEdits, AreRefused, IsDropFault};
ghost use Rattle.pgn_extract.specs.Public.AskedEdits.{IsDropped, IsOfStart, IsParted, IsSet};
ghost use Rattle.pgn_extract.specs.Public.AskedEdits.{IsAskedOrder, IsOrder, IsOrderFault};
ghost use Rattle.pgn_extract.specs.Public.AskedEdits.{IsSetFault, has_edits};

use crate::app::command::Request;
use crate::output::file_name::shown_bytes;
use crate::rows::list::{is_tag_name, next_name, split_run};
use pgn_game::{TagEdit, TagEdits, push_contents};
use pgn_text::is_contents;
use std::alloc::{AllocError, Global};

/// Why an edit is refused.
#[derive(Debug, Drop)]
pub enum EditFault<'a> {
    /// The text has no sign of equality.
    NoValue(&'a [u8]),
    /// What is to be the name is no name of a tag.
    NoName(&'a [u8]),
    /// The tag says where a game starts.
    Start(&'a [u8]),
    /// The Result tag says how a game ends.
    Result,
    /// No string has the value that the tag with this name is to have.
    BadValue(&'a [u8]),
    /// What is to stand first is no name of a tag.
    NoOrder(&'a [u8]),
    /// The name is to stand first twice.
    Twice(&'a [u8]),
    /// Memory ran out.
    OutOfMemory,
}

impl<'a> From<AllocError> for EditFault<'a> {
    ghost use Rattle.pgn_extract.specs.declared.app.edits.EditFault.TheVariants.{OutOfMemory};

    ghost from_gives = { λ _ fault. fault ≡ OutOfMemory };

    fn from(_: AllocError) -> Self {
        EditFault::OutOfMemory
    }
}

/// The line of a refusal that names a part of an argument.
fn named_line(alloc: Global, before: &str, name: &[u8], after: &str) -> Result<String, AllocError> {
    let shown = shown_bytes(alloc, name)?;
    match format!(in alloc; "pgn-extract: {before}{shown}{after}\n") {
        Ok(line) => Ok(line),
        Err(_) => Err(AllocError),
    }
}

/// The line that refuses an edit; memory may have run out before.
pub fn edit_line(alloc: Global, fault: &EditFault<'_>) -> Result<String, AllocError> {
    let (before, name, after): (&str, &[u8], &str) = match fault {
        EditFault::NoValue(text) => ("--set takes TAG=VALUE, not \"", *text, "\""),
        EditFault::NoName(name) => (
            "--set and --drop take the name of a tag, not \"",
            *name,
            "\"",
        ),
        EditFault::Start(name) => (
            "--set and --drop: ",
            *name,
            " says where a game starts, so it stays",
        ),
        EditFault::Result => (
            "--set: ",
            b"Result",
            " says how a game ends; --fix-results writes it",
        ),
        EditFault::BadValue(name) => ("--set: the value of ", *name, " has a control character"),
        EditFault::NoOrder(name) => (
            "--order takes names of tags with commas between them, not \"",
            *name,
            "\"",
        ),
        EditFault::Twice(name) => ("--order names the tag ", *name, " twice"),
        EditFault::OutOfMemory => return Err(AllocError),
    };
    named_line(alloc, before, name, after)
}

/// Whether edits are asked for.
pub fn is_edited(request: &Request<'_>) -> bool
    ensures { result ≡ has_edits request.now }
{
    let has_texts = !request.sets.is_empty() || !request.drops.is_empty();
    let has_parts = request.to_ply.is_some() || request.order.is_some();
    request.fix_results || request.plycount || has_parts || has_texts
}

/// Whether the tag says where a game starts.
fn is_of_start(name: &[u8]) -> bool
    ensures { IsTrue result ↔ IsOfStart name.now }
{
    name == b"FEN".as_slice() || name == b"SetUp".as_slice()
}

/// The edit that leaves out the tag with this name.
fn drop_of<'a>(alloc: Global, name: &'a [u8]) -> Result<TagEdit, EditFault<'a>>
    ensures { MatchResult result
        (λ edit. IsDropped name.now (edit_of edit) × IsEditable (edit_of edit))
        (λ fault. IsDropFault name.now fault) }
{
    if !is_tag_name(name) {
        return Err(EditFault::NoName(name));
    }
    if is_of_start(name) {
        return Err(EditFault::Start(name));
    }
    Ok(TagEdit {
        name: Vec::from_slice(alloc, name)?,
        contents: None,
    })
}

/// The edit that gives the tag with this name the value.
fn valued<'a>(alloc: Global, name: &'a [u8], value: &[u8]) -> Result<TagEdit, EditFault<'a>>
    ensures { (text : List ℕ) → IsParted text name.now value.now → MatchResult result
        (λ edit. IsSet text (edit_of edit) × IsEditable (edit_of edit))
        (λ fault. IsSetFault text fault) }
{
    if name == b"Result".as_slice() {
        return Err(EditFault::Result);
    }
    let mut edit = drop_of(alloc, name)?;
    let mut contents = Vec::new(alloc);
    push_contents(value, &mut contents)?;
    if !is_contents(&contents) {
        return Err(EditFault::BadValue(name));
    }
    edit.contents = Some(contents);
    Ok(edit)
}

/// The edit that a text of a name, a sign of equality and a value asks for.
fn set_of<'a>(alloc: Global, text: &'a [u8]) -> Result<TagEdit, EditFault<'a>>
    ensures { MatchResult result
        (λ edit. IsSet text.now (edit_of edit) × IsEditable (edit_of edit))
        (λ fault. IsSetFault text.now fault) }
{
    let (name, rest) = split_run(text, b'=');
    match rest {
        [_, value @ ..] => valued(alloc, name, value),
        [] => Err(EditFault::NoValue(text)),
    }
}

/// Whether the name is one of these.
fn is_among(names: &[Vec<u8>], name: &[u8]) -> bool
    ensures { result ≡ list_any (λ other. bytes_eq other.items name.now) names.now }
{
    names.iter().any(|other| other.as_slice() == name)
}

/// The names of tags that a text lists, with commas between them.
fn read_order<'a>(alloc: Global, text: &'a [u8]) -> Result<Vec<Vec<u8>>, EditFault<'a>>
    ensures { MatchResult result
        (λ order. IsOrder text.now (map (λ name. name.items) order.items))
        (λ fault. IsOrderFault text.now fault) }
{
    let mut order = Vec::new(alloc);
    let mut rest = text;
    loop {
        let (name, after) = next_name(rest);
        if !is_tag_name(name) {
            return Err(EditFault::NoOrder(name));
        }
        if is_among(&order, name) {
            return Err(EditFault::Twice(name));
        }
        let own = Vec::from_slice(alloc, name)?;
        if order.push(own).is_err() {
            return Err(EditFault::OutOfMemory);
        }
        let Some(after) = after else {
            return Ok(order);
        };
        rest = after;
    }
}

/// The names of the tags that are to stand first, if some are.
fn asked_order<'a>(alloc: Global, request: &Request<'a>) -> Result<Vec<Vec<u8>>, EditFault<'a>>
    ensures asked { IfOk result
        (λ order. IsAskedOrder request.now (map (λ name. name.items) order.items)) }
    ensures refused { IfErr result (λ fault. AreRefused request.now fault) }
{
    match request.order {
        Some(text) => read_order(alloc, text.as_bytes()),
        None => Ok(Vec::new(alloc)),
    }
}

/// The edits that are asked for, if some are; or why one of them is refused.
pub fn read_edits<'a>(
    alloc: Global,
    request: &Request<'a>,
) -> Result<Option<TagEdits>, EditFault<'a>>
    ensures asked { IfOk result (λ edits. AreAskedEdits request.now edits) }
    ensures refused { IfErr result (λ fault. AreRefused request.now fault) }
{
    if !is_edited(request) {
        return Ok(None);
    }
    let order = asked_order(alloc, request)?;
    let mut edits = TagEdits::new(alloc, request.plycount, request.to_ply).ordered(order);
    for name in &request.drops {
        edits = edits.with(drop_of(alloc, name.as_bytes())?)?;
    }
    for text in &request.sets {
        edits = edits.with(set_of(alloc, text.as_bytes())?)?;
    }
    if request.fix_results {
        let name = Vec::from_slice(alloc, b"Result")?;
        edits = edits.with(TagEdit {
            name,
            contents: None,
        })?;
    }
    Ok(Some(edits))
}
