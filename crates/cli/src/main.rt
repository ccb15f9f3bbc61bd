//! The program `pgn-extract`: gathers the arguments, hands over the real files, and ends with the
//! status that `pgn_extract::program` answers.
#![tactic(auto)]

mod files;
mod head;
mod progress;

use files::RealFiles;
use pgn_extract::status::{FAILED, REFUSED};
use pgn_extract::{messages, program};
use pgn_text::Tally;
use progress::{Beside, StatusLine};
use std::alloc::Global;
use std::io::{BufWriter, ErrorKind};
use std::process::ExitCode;
use std::{env, io, mem, rt};

/// How many bytes of output are gathered before they are written.
const OUTPUT_BUFFER: usize = 65_536;

/// Ends with a line on standard error; a fault in writing it is ignored.
fn end_with(rt: &impl Eprint, line: &str, status: u8) -> ExitCode {
    let _ = rt.eprint(line);
    ExitCode::from(status)
}

/// The arguments, the program's name first.
fn gather_arguments(rt: &HostRuntime, alloc: Global) -> io::Result<Vec<String>> {
    Ok(env::args(rt)?.collect(alloc)?)
}

fn main(rt: HostRuntime) -> ExitCode {
    let alloc = rt.alloc();
    let arguments = match gather_arguments(&rt, alloc) {
        Ok(arguments) => arguments,
        Err(error) if error.kind() == ErrorKind::OutOfMemory => {
            return end_with(&rt, messages::OUT_OF_MEMORY, FAILED);
        }
        Err(_) => return end_with(&rt, messages::ARGUMENTS_ARE_NO_TEXT, REFUSED),
    };
    let line = StatusLine::new(rt);
    let stdout = Beside::new(rt.stdout(), &line);
    let Ok(buffered) = BufWriter::with_capacity(alloc, OUTPUT_BUFFER, stdout) else {
        return end_with(&rt, messages::OUT_OF_MEMORY, FAILED);
    };
    let mut out = Tally::new(buffered);
    let mut err = Tally::new(Beside::new(rt.stderr(), &line));
    let mut files = RealFiles::new(rt, &line);
    let status = program(alloc, arguments, &mut files, &mut out, &mut err);
    line.clear();
    if out.faulted() {
        // What is gathered after a write that failed stays unwritten.
        mem::forget(out);
    }
    ExitCode::from(status)
}
