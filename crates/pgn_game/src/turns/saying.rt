//! Whether a word says a pass where it stands.
ghost use Rattle.std.specs.Prelude.{◌≡◌, ◌&&◌};
ghost use Rattle.pgn_game.specs.Public.AllLines.{is_pass};

/// Whether the word is a pass: in a variation `--` and `Z0` are, in the main line no word is.
pub(crate) fn is_null_move(inside: bool, word: &[u8]) -> bool
    ensures { result ≡ (inside && is_pass word.now) }
{
    inside && (word == b"--".as_slice() || word == b"Z0".as_slice())
}
