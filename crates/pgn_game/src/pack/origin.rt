//! Which game it is.
ghost use Rattle.std.specs.Prelude.{◌≡◌, option_map};
ghost use Rattle.pgn_game.specs.Public.PackedGames.{begins_control, is_shown, is_shown_name};
ghost use Rattle.pgn_game.specs.Public.PackedGames.{is_origin};

use pgn_text::LARGEST_OFFSET;

/// What the record of a game says beside the game: where it comes from.
#[derive(Clone, Copy)]
pub struct GameOrigin<'a> {
    /// The name of its file, where lines have one.
    pub name: Option<&'a [u8]>,
    /// Its number.
    pub number: u64,
    /// The offset of its first byte in the text that it comes from.
    pub offset: u64,
}

/// Whether a control character stands in front of the bytes: one of ASCII, or of U+0080 to U+009F
/// in UTF-8.
fn begins_control(bytes: &[u8]) -> bool
    ensures { result ≡ begins_control bytes.now }
{
    match bytes {
        [] => false,
        [b'\xC2', next, ..] => *next <= 0x9F,
        [first, ..] => *first <= 0x1F || *first == 0x7F,
    }
}

/// Whether lines show the name as it is: nowhere in it stands a control character.
fn is_shown(name: &[u8]) -> bool
    ensures { result ≡ is_shown name.now }
{
    let mut rest = name;
    while let [_, after @ ..] = rest {
        if begins_control(rest) {
            return false;
        }
        rest = after;
    }
    true
}

/// The same of the name of a game's file, where lines have one.
fn is_shown_name(name: Option<&[u8]>) -> bool
    ensures { result ≡ is_shown_name (option_map (λ name. name.now) name.entry) }
{
    match name {
        Some(name) => is_shown(name),
        None => true,
    }
}

/// Whether a run may meet a game with this number, at this offset, of a file with this name.
pub(crate) fn is_origin(number: u64, offset: u64, name: Option<&[u8]>) -> bool
    ensures { result ≡ is_origin number offset (option_map (λ name. name.now) name.entry) }
{
    number >= 1 && offset <= LARGEST_OFFSET && is_shown_name(name)
}
