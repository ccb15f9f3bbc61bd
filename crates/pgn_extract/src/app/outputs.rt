//! No output is one of the files that are read.

use crate::app::command::Request;
use crate::app::files::{Files, Stream};
use crate::app::{Refusal, messages};
use crate::explain::refusal_notes::written_note;
use std::alloc::Global;

/// The first of the files that are to be read to which the stream goes.
fn written_file<'a, F: Files>(files: &F, request: &Request<'a>, stream: Stream) -> Option<&'a str> {
    if let Some(path) = request.criteria
        && files.is_written(stream, Some(path))
    {
        return Some(path);
    }
    if let Some(path) = request.openings
        && files.is_written(stream, Some(path))
    {
        return Some(path);
    }
    if let Some(path) = request.at
        && files.is_written(stream, Some(path))
    {
        return Some(path);
    }
    for &path in &request.files {
        if files.is_written(stream, Some(path)) {
            return Some(path);
        }
    }
    if request.files.is_empty() && files.is_written(stream, None) {
        return Some(messages::STANDARD_INPUT);
    }
    None
}

/// Refuses to run where an output is one of the files that are to be read, which would be lost.
/// What were said of standard error would stand in the file.
pub fn refuse_outputs<F: Files>(
    alloc: Global,
    files: &F,
    request: &Request<'_>,
) -> Result<(), Refusal> {
    if written_file(files, request, Stream::Reports).is_some() {
        return Err(Refusal::Line(""));
    }
    match written_file(files, request, Stream::Output) {
        Some(path) => Err(Refusal::Note(written_note(alloc, path)?)),
        None => Ok(()),
    }
}
