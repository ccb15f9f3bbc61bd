//! The search of a pack: its records are read one after another, and the lines of each are written.
ghost use Rattle.std.specs.Prelude.{◌≡◌, ◌↔◌, ◌⊎◌, ℕ, ◌+◌, ◌≤◌, false, true, List, [], IfOk, IfErr};
ghost use Rattle.std.specs.Prelude.{OnOk, IsErrOf};
ghost use Rattle.std.specs.Io.KnownBytes.{Appends};
ghost use Rattle.pgn_extract.specs.Public.Aims.{aim_of};
ghost use Rattle.pgn_extract.specs.Public.Listing.{has_annotations};
ghost use Rattle.pgn_extract.specs.Public.Outcomes.{AppendsFront};
ghost use Rattle.pgn_extract.specs.Public.Searching.{IsSearch};
ghost use Rattle.pgn_extract.specs.Private.SearchSteps.{PutsRest, PutsSome, search_error_of};

use crate::output::outcome::RunError;
use crate::output::write_all::{finish, write_all};
use crate::packed::{PackedFault, push_packed};
use crate::settings::Settings;
use pgn_game::pack::{Records, RecordsError};
use pgn_text::Tally;
use std::alloc::Global;
use std::io::{Read, Write};
use thiserror::Error;

/// How many bytes of lines are gathered before they are written.
const LARGE: usize = 1 << 20;

/// What a search met.
#[derive(Clone, Copy, Debug, PartialEq, Eq)]
pub struct Searched {
    /// The records of the pack.
    pub records: u64,
}

/// Why a search ended early.
#[derive(Clone, Copy, Debug, PartialEq, Eq, Error)]
pub enum SearchError {
    /// The input failed.
    #[error("a read failed")]
    Read,
    /// The output failed.
    #[error("a write failed")]
    Write,
    /// Memory ran out.
    #[error("out of memory")]
    OutOfMemory,
    /// The pack goes past the largest offset.
    #[error("the pack is too long")]
    InputTooLong,
    /// So many bytes stand before something that is no record.
    #[error("no record after {0} bytes")]
    BadPack(u64),
}

/// The error of a search for that of its records.
fn of_records(error: RecordsError, place: u64) -> SearchError
    ensures { result ≡ search_error_of error place }
{
    match error {
        RecordsError::Read => SearchError::Read,
        RecordsError::OutOfMemory => SearchError::OutOfMemory,
        RecordsError::InputTooLong => SearchError::InputTooLong,
        RecordsError::BadPack => SearchError::BadPack(place),
    }
}

/// Writes what is gathered.
fn put_text<O: Write>(out: &mut Tally<O>, text: &[u8]) -> Result<(), SearchError>
    requires { out.old.faulted ≡ false }
    ensures ok { OnOk result
        (Appends (O.contents out.old.inner) (O.contents out.new.inner) text.now) }
    ensures err { IfErr result (λ error. (error ≡ SearchError.Write)
        × AppendsFront (O.contents out.old.inner) (O.contents out.new.inner) text.now) }
    ensures fault { IsErrOf result SearchError.Write ↔ (out.new.faulted ≡ true) }
{
    match write_all(out, text) {
        Ok(()) => Ok(()),
        Err(_) => Err(SearchError::Write),
    }
}

/// Writes what is gathered if it is large, and makes it empty then.
#[inline(always)]
fn put_large<O: Write>(out: &mut Tally<O>, text: &mut Vec<u8>) -> Result<(), SearchError>
    requires { out.old.faulted ≡ false }
    ensures ok { OnOk result
        (PutsSome (O.contents out.old.inner) (O.contents out.new.inner) text.old.items
        text.new.items) }
    ensures err { IfErr result (λ error. (error ≡ SearchError.Write)
        × AppendsFront (O.contents out.old.inner) (O.contents out.new.inner) text.old.items) }
    ensures fault { IsErrOf result SearchError.Write ↔ (out.new.faulted ≡ true) }
{
    if text.len() < LARGE {
        return Ok(());
    }
    put_text(out, text)?;
    text.clear();
    Ok(())
}

/// Writes the last of what is gathered, and flushes.
fn end<O: Write>(out: &mut Tally<O>, text: &[u8]) -> Result<(), SearchError>
    requires { out.old.faulted ≡ false }
    ensures ok { OnOk result (Appends (O.contents out.old.inner) (O.contents out.new.inner) text.now
        × (out.new.flushed ≡ true)) }
    ensures err { IfErr result (λ error. (error ≡ SearchError.Write)
        × AppendsFront (O.contents out.old.inner) (O.contents out.new.inner) text.now) }
    ensures fault { IsErrOf result SearchError.Write ↔ (out.new.faulted ≡ true) }
{
    put_text(out, text)?;
    match finish(out) {
        Ok(()) => Ok(()),
        Err(_) => Err(SearchError::Write),
    }
}

/// Writes the last of what is gathered before a search stops with the error. A write that fails is
/// the error then.
fn put_rest<O: Write>(out: &mut Tally<O>, text: &[u8], error: SearchError) -> SearchError
    requires { out.old.faulted ≡ false }
    ensures { PutsRest error (O.contents out.old.inner) (O.contents out.new.inner) out.new.faulted
        text.now result }
{
    match put_text(out, text) {
        Ok(()) => error,
        Err(failed) => failed,
    }
}

/// Writes the listing of a pack, which is that of the text that was packed; or in the index the
/// marks of its records.
pub fn search<R: Read, O: Write>(
    alloc: Global,
    input: &mut Tally<R>,
    out: &mut Tally<O>,
    settings: &Settings,
) -> Result<Searched, SearchError>
    requires sound { (input.old.faulted ≡ false) × (out.old.faulted ≡ false) }
    requires held { has_annotations settings.now.line ≡ false }
    ensures stands { IsSearch (aim_of settings.now) (R.remaining input.old.inner)
        (R.remaining input.new.inner)
        (O.contents out.old.inner) (O.contents out.new.inner) result }
    ensures flushed { OnOk result (out.new.flushed ≡ true) }
    ensures read { IsErrOf result SearchError.Read
        ↔ ((input.new.faulted ≡ true) × (out.new.faulted ≡ false)) }
    ensures write { IsErrOf result SearchError.Write ↔ (out.new.faulted ≡ true) }
{
    let mut records = Records::new(alloc);
    let mut text = Vec::new(alloc);
    let mut count = 0;
    loop {
        match records.step(input) {
            Ok(true) => match push_packed(&mut text, alloc, settings, &records.record()) {
                Ok(()) => {
                    count += 1;
                    put_large(out, &mut text)?;
                }
                Err(PackedFault::NoGame) => {
                    let error = SearchError::BadPack(records.place());
                    return Err(put_rest(out, &text, error));
                }
                Err(PackedFault::OutOfMemory) => return Err(SearchError::OutOfMemory),
            },
            Ok(false) => {
                end(out, &text)?;
                return Ok(Searched { records: count });
            }
            Err(error) => {
                let error = of_records(error, records.place());
                return Err(put_rest(out, &text, error));
            }
        }
    }
}
