//! What bytes leave as one number.
ghost use Rattle.std.specs.Prelude.{◌≡◌, ◌+◌, ◌*◌, ◌%◌, ◌^◌, ◌<◌};
ghost use Rattle.pgn_game.specs.Public.Residues.{modulus, residue};

/// What is left of each number: 2 ^ 61 - 1. So 2 ^ 64 leaves 8, and a number moves by three bits to
/// the left in a round of 61.
pub(crate) const MODULUS: u64 = 2_305_843_009_213_693_951;

/// What is left, where so much is left of what stands in front of the eight bytes of a word.
fn after_word(left: u64, word: u64) -> u64
    requires { left < modulus }
    ensures value { result ≡ (left * 2 ^ 64 + word) % modulus }
    ensures below { result < modulus }
{
    let sum = left / 288_230_376_151_711_744 + left % 288_230_376_151_711_744 * 8 + word % MODULUS;
    if sum < MODULUS { sum } else { sum - MODULUS }
}

/// What is left, where so much is left of what stands in front of a byte.
fn after_byte(left: u64, byte: u8) -> u64
    requires { left < modulus }
    ensures value { result ≡ (left * 256 + byte) % modulus }
    ensures below { result < modulus }
{
    let sum = left / 9_007_199_254_740_992 + left % 9_007_199_254_740_992 * 256 + u64::from(byte);
    if sum < MODULUS { sum } else { sum - MODULUS }
}

/// What the bytes leave as one number, eight at a time.
pub fn residue(bytes: &[u8]) -> u64
    ensures { result ≡ residue bytes.now }
{
    let mut left = 0;
    let mut rest = bytes;
    while rest.len() >= 8 {
        let (word, after) = rest.split_at(8);
        let word = u64::from_be_bytes([
            word[0], word[1], word[2], word[3], word[4], word[5], word[6], word[7],
        ]);
        left = after_word(left, word);
        rest = after;
    }
    for byte in rest {
        left = after_byte(left, *byte);
    }
    left
}
