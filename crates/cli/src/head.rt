//! What an input is, by its first bytes.
use crate::progress::StatusLine;
use pgn_extract::{HEAD, kind_note, messages};
use std::alloc::Global;

/// The first bytes of an input, until they say what it is.
#[derive(Drop)]
pub struct Head<'a> {
    line: &'a StatusLine,
    alloc: Global,
    /// Its path; none is that of standard input.
    name: Option<String>,
    /// Whether a pack is wanted.
    packed: bool,
    first: [u8; HEAD],
    held: usize,
}

impl<'a> Head<'a> {
    /// That of an input with this name of which nothing is read.
    pub fn new(alloc: Global, line: &'a StatusLine, name: Option<String>, packed: bool) -> Self {
        Head {
            line,
            alloc,
            name,
            packed,
            first: [0; HEAD],
            held: 0,
        }
    }

    /// Looks at bytes that were read, and answers whether more are wanted. The note goes to
    /// standard error at once; a fault in that is ignored, since the note is no part of what is
    /// reported.
    pub fn add(&mut self, bytes: &[u8]) -> bool {
        for &byte in bytes {
            let Some(place) = self.first.get_mut(self.held) else {
                break;
            };
            *place = byte;
            self.held = self.held.saturating_add(1);
        }
        let first = &self.first[..self.held.min(HEAD)];
        let name = match &self.name {
            Some(name) => name.as_str(),
            None => messages::STANDARD_INPUT,
        };
        match kind_note(self.alloc, name, first, self.packed) {
            Ok(None) => self.held < HEAD,
            Ok(Some(note)) => {
                self.line.report(&note);
                false
            }
            Err(_) => false,
        }
    }
}
