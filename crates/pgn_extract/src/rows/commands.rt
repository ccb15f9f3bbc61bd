//! The commands of comments, as `[%clk 0:01:00]`.
ghost use Rattle.std.specs.Prelude.{◌≡◌};
ghost use Rattle.pgn_extract.specs.Private.Commands.{before_bracket, command_value};

use crate::rows::list::split_run;

/// What stands before the first closing bracket, and nothing where there is none.
fn before_bracket(text: &[u8]) -> &[u8]
    ensures { result.now ≡ before_bracket text.now }
{
    let (run, rest) = split_run(text, b']');
    if rest.is_empty() { b"" } else { run }
}

/// The value of the first command of the text that begins so, and nothing where there is none.
pub(crate) fn command_value<'t>(opening: &[u8], text: &'t [u8]) -> &'t [u8]
    ensures { result.now ≡ command_value opening.now text.now }
{
    let mut rest = text;
    loop {
        if let Some(after) = rest.strip_prefix(opening) {
            return before_bracket(after);
        }
        match rest {
            [_, more @ ..] => rest = more,
            [] => return b"",
        }
    }
}
