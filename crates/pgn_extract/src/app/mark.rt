//! The mark of a game, `N@O`: its number and the offset in the file of its first byte.
ghost use Rattle.std.specs.Prelude.{◌≡◌, ◌≤◌, ◌<◌, ◌^◌, ◌==◌, length, position, IfSome};
ghost use Rattle.pgn_extract.specs.Public.GivenMarks.{IsGameMark, mark_in, number_in};

use crate::marks::GameId;
use pgn_text::LARGEST_OFFSET;

/// The mark of a file's first game, if the file begins with it: where a run begins by default.
pub const FIRST: GameId = GameId {
    number: 1,
    offset: 0,
};

/// 2^62, the largest number and the largest offset of a mark.
pub const MAX: u64 = LARGEST_OFFSET;

/// The most decimal digits that each number of a mark may have.
const MAX_DIGITS: usize = 19;

/// Reads `N@O` as it is given to `--from`: each number has 1 to 19 decimal digits, N is from 1 to
/// 2^62 and O from 0 to 2^62. `None` for any other text.
pub fn read_mark(text: &[u8]) -> Option<GameId>
    ensures mark { result ≡ mark_in text.now }
    ensures bound { IfSome result (λ mark. IsGameMark mark) }
{
    let Some(at) = place_of_sign(text) else {
        return None;
    };
    let Some(number) = read_number(&text[..at]) else {
        return None;
    };
    let Some(offset) = read_number(&text[at + 1..]) else {
        return None;
    };
    if number == 0 {
        return None;
    }
    Some(GameId { number, offset })
}

/// Where the first `@` stands.
fn place_of_sign(text: &[u8]) -> Option<usize>
    ensures place { result ≡ position (λ b. b == 64) text.now }
    ensures within { IfSome result (λ at. at < length text.now) }
{
    text.iter().position(|byte| *byte == b'@')
}

/// A whole number of 1 to 19 decimal digits that is at most 2^62, and `None` for any other text.
fn read_number(digits: &[u8]) -> Option<u64>
    ensures value { result ≡ number_in digits.now }
    ensures bound { IfSome result (λ number. number ≤ 2 ^ 62) }
{
    if digits.is_empty() || digits.len() > MAX_DIGITS {
        return None;
    }
    let mut value = 0u64;
    let mut rest = digits;
    while let [digit, after @ ..] = rest {
        if *digit < b'0' || *digit > b'9' {
            return None;
        }
        value = 10 * value + (*digit - b'0') as u64;
        rest = after;
    }
    if value <= MAX { Some(value) } else { None }
}
