//! Which plies are listed where no criteria are given.
ghost use Rattle.std.specs.Prelude.{◌≡◌, ◌↔◌, ℕ, ◌^◌, ◌<◌, ◌≤◌, None, true, OnOk};
ghost use Rattle.pgn_extract.specs.Public.Aims.{aim_of};
ghost use Rattle.pgn_extract.specs.Private.Blockwise.{IsPlainEntry, AddsPlies, AddsLines};
ghost use Rattle.pgn_extract.specs.Private.Lines.{is_bare};

use crate::entries::GameContext;
use crate::entries::ten_lines::push_range;
use crate::output::texts::{MARK_ROOM, push_named_mark};
use crate::settings::Settings;
use std::alloc::{AllocError, Global};

/// The ply after the last one that is listed of a main line with so many plies, where there are no
/// criteria.
fn end_ply(settings: &Settings, plies: usize) -> usize
    ensures fits { result ≤ 2 ^ 32 }
    ensures exactly { (ply : ℕ) → IsPlainEntry (aim_of settings.now) plies ply
        ↔ (settings.now.min_ply ≤ ply) × (ply < result) }
{
    let most = if settings.first {
        settings.min_ply.min(settings.max_ply)
    } else {
        settings.max_ply
    };
    plies.min(most as usize) + 1
}

/// Appends the lines of the entries of a game whose main line has so many plies, where there are no
/// criteria.
pub fn push_plies(
    text: &mut Vec<u8>,
    context: GameContext<'_>,
    plies: usize,
) -> Result<(), AllocError>
    requires criteria { context.settings.now.criteria ≡ None }
    requires plain { is_bare context.settings.now.line ≡ true }
    ensures { OnOk result
        (AddsPlies (aim_of context.entry.settings.now) context.entry.own plies text.old.items
        text.new.items) }
{
    let GameContext {
        alloc,
        settings,
        own,
    } = context;
    let mut mark = Vec::with_capacity(alloc, MARK_ROOM)?;
    push_named_mark(&mut mark, &settings.name, own)?;
    push_lines(text, alloc, settings, &mark, plies)
}

/// Appends the lines of the entries of a game with this mark whose main line has so many plies,
/// where there are no criteria.
pub fn push_lines(
    text: &mut Vec<u8>,
    alloc: Global,
    settings: &Settings,
    mark: &[u8],
    plies: usize,
) -> Result<(), AllocError>
    requires criteria { settings.now.criteria ≡ None }
    requires plain { is_bare settings.now.line ≡ true }
    ensures { OnOk result
        (AddsLines (aim_of settings.now) mark.now plies text.old.items text.new.items) }
{
    let least = settings.min_ply as usize;
    push_range(text, alloc, mark, least, end_ply(settings, plies))?;
    Ok(())
}
