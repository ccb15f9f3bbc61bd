//! The search of a pack: the records of each segment are searched, once all of it is read and found
//! whole.
ghost use Rattle.std.specs.Prelude.{◌≡◌, false, OnOk};
ghost use Rattle.pgn_extract.specs.Public.Aims.{aim_of};
ghost use Rattle.pgn_extract.specs.Public.Listing.{has_annotations};
ghost use Rattle.pgn_extract.specs.Private.SegmentSearching.{IsPackSearch};

use crate::packed::searching::{SearchError, Searched, search};
use crate::settings::Settings;
use pgn_game::pack::{Segments, SegmentsError};
use pgn_text::Tally;
use std::alloc::Global;
use std::io::{Read, Write};

/// What stopped the search of a pack.
#[derive(Clone, Copy, Debug, PartialEq, Eq)]
pub enum PackCause {
    /// No further segment was read.
    Segments(SegmentsError),
    /// The search of the records of a segment stopped.
    Records(SearchError),
}

/// Why the search of a pack ended early, and how many bytes stand before the segment there.
#[derive(Clone, Copy, Debug, PartialEq, Eq)]
pub struct PackStop {
    pub cause: PackCause,
    pub place: u64,
    /// Whether the pack begins as those of older programs do.
    pub is_older: bool,
}

/// A stop in front of the segment that is not held, or in the one that is.
fn stop_at(cause: PackCause, segments: &Segments) -> PackStop
    ensures cause { result.cause ≡ cause }
    ensures place { result.place ≡ segments.now.place }
{
    PackStop {
        cause,
        place: segments.place(),
        is_older: segments.is_older(),
    }
}

/// Writes the listing of a pack, which is that of the text that was packed; or in the index the
/// marks of its records. Nothing of a segment that is damaged or cut is searched.
pub fn search_segments<R: Read, O: Write>(
    alloc: Global,
    input: &mut Tally<R>,
    out: &mut Tally<O>,
    settings: &Settings,
) -> Result<Searched, PackStop>
    requires sound { (input.old.faulted ≡ false) × (out.old.faulted ≡ false) }
    requires held { has_annotations settings.now.line ≡ false }
    ensures stands { IsPackSearch (aim_of settings.now) (R.remaining input.old.inner)
        (O.contents out.old.inner) (O.contents out.new.inner) result }
    ensures sound { OnOk result (out.new.faulted ≡ false) }
{
    let mut segments = Segments::new(alloc);
    let mut count = 0;
    loop {
        match segments.step(input) {
            Ok(true) => {}
            Ok(false) => break,
            Err(error) => return Err(stop_at(PackCause::Segments(error), &segments)),
        }
        let mut records = Tally::new(segments.records());
        match search(alloc, &mut records, out, settings) {
            Ok(searched) => count += searched.records,
            Err(error) => return Err(stop_at(PackCause::Records(error), &segments)),
        }
    }
    Ok(Searched { records: count })
}
