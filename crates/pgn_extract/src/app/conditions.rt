//! The text of criteria, gathered from a file and from arguments.
ghost use Rattle.std.specs.Prelude.{◌≡◌, OnOk, map};
ghost use Rattle.std.specs.List.{list_all};
ghost use Rattle.pgn_extract.specs.Private.AskedCriteria.{with_lines};
ghost use Rattle.pgn_extract.specs.Public.Requests.{is_one_line};

use std::alloc::AllocError;

/// Whether an argument is one line: it has neither a line feed nor a carriage return.
fn is_one_line(argument: &str) -> bool
    ensures { result ≡ is_one_line argument.now }
{
    argument
        .as_bytes()
        .iter()
        .all(|byte| *byte != b'\n' && *byte != b'\r')
}

/// Whether each argument is one line.
pub fn are_lines(arguments: &[&str]) -> bool
    ensures { result ≡ list_all (λ argument. is_one_line argument.now) arguments.now }
{
    arguments.iter().all(|argument| is_one_line(argument))
}

/// Appends arguments as lines, each with a line feed at its end. The last line of the text gets one
/// too, where it lacks it.
pub fn push_lines(text: &mut Vec<u8>, arguments: &[&str]) -> Result<(), AllocError>
    ensures { OnOk result
        (text.new.items ≡ with_lines text.old.items (map (λ line. line.now) arguments.now)) }
{
    if !arguments.is_empty() && !text.is_empty() && text[text.len() - 1] != b'\n' {
        text.push(b'\n')?;
    }
    for argument in arguments {
        text.extend_from_slice(argument.as_bytes())?;
        text.push(b'\n')?;
    }
    Ok(())
}
