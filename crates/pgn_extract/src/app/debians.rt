//! Options of Debian's `pgn-extract` that are none here, with what to use in their place.

/// Each option, and what does its work here.
const OPTIONS: [(&str, &str); 23] = [
    ("-o", "redirect the output: > FILE"),
    ("--output", "redirect the output: > FILE"),
    ("-a", "append to a file: >> FILE"),
    ("--append", "append to a file: >> FILE"),
    ("-D", "pgn-unique FILE leaves out duplicates"),
    ("--noduplicates", "pgn-unique FILE leaves out duplicates"),
    ("-d", "pgn-unique --report FILE names duplicates"),
    ("--duplicates", "pgn-unique --report FILE names duplicates"),
    ("-s", "nothing but bad games is reported: leave it out"),
    ("--quiet", "nothing but bad games is reported: leave it out"),
    ("-e", "use --openings FILE"),
    ("-7", "use --roster"),
    ("--seven", "use --roster"),
    ("-W", "use --moves, --uci, or --list --fen"),
    ("--json", "use --moves or --list --fen, on lines"),
    ("--fixresulttags", "use --fix-results"),
    ("--splitvariants", "use --lines"),
    ("-t", "use --criteria FILE, or --where LINE"),
    ("-T", "use --where with a line tag"),
    ("-x", "use --criteria FILE with a line fen"),
    ("-y", "use --where with a line material"),
    ("-r", "use --list > /dev/null"),
    ("--checkfile", "use pgn-unique FILE.."),
];

/// What stands before the argument that `clap` does not know, in the text of its error.
const UNKNOWN: &str = "error: unexpected argument '";

/// The option that this text of an error refuses, and what to use here, if it is one of these.
pub fn debians_option(text: &str) -> Option<(&'static str, &'static str)> {
    let (refused, _) = text.strip_prefix(UNKNOWN)?.split_once("' ")?;
    for &(name, instead) in &OPTIONS {
        if refused == name {
            return Some((name, instead));
        }
    }
    None
}
