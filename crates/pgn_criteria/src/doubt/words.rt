//! Words that are no move's standard text.
use crate::words::next_word;

/// Whether the byte stands in the standard text of some move, without its check sign.
fn is_move_text_byte(byte: u8) -> bool {
    matches!(
        byte,
        b'a'..=b'h' | b'1'..=b'8' | b'K' | b'Q' | b'R' | b'B' | b'N' | b'O' | b'x' | b'=' | b'-'
    )
}

/// Whether the bytes name a square.
fn is_square(file: u8, rank: u8) -> bool {
    matches!(file, b'a'..=b'h') && matches!(rank, b'1'..=b'8')
}

/// Whether the byte is the letter of a man that a pawn can become.
fn is_promoted(letter: u8) -> bool {
    matches!(letter, b'Q' | b'R' | b'B' | b'N')
}

/// Whether the rank is one where a pawn becomes another man.
fn is_last(rank: u8) -> bool {
    rank == b'1' || rank == b'8'
}

/// Whether the text may stand between the letter of a man and the square that it goes to.
fn is_origin(text: &[u8]) -> bool {
    let from = match text {
        [before @ .., b'x'] => before,
        _ => text,
    };
    match from {
        [] | [b'a'..=b'h'] | [b'1'..=b'8'] => true,
        [file, rank] => is_square(*file, *rank),
        _ => false,
    }
}

/// Whether the word is of the form of a pawn's move.
fn is_of_pawn(word: &[u8]) -> bool {
    match word {
        [file, rank] => is_square(*file, *rank) && !is_last(*rank),
        [b'a'..=b'h', b'x', file, rank] => is_square(*file, *rank) && !is_last(*rank),
        [file, rank, b'=', letter] => {
            is_square(*file, *rank) && is_last(*rank) && is_promoted(*letter)
        }
        [b'a'..=b'h', b'x', file, rank, b'=', letter] => {
            is_square(*file, *rank) && is_last(*rank) && is_promoted(*letter)
        }
        _ => false,
    }
}

/// Whether the word is of the form of a move's standard text.
fn is_move_text(word: &[u8]) -> bool {
    match word {
        b"O-O" | b"O-O-O" => true,
        [b'K' | b'Q' | b'R' | b'B' | b'N', from @ .., file, rank] => {
            is_square(*file, *rank) && is_origin(from)
        }
        _ => is_of_pawn(word),
    }
}

/// Whether a word, in which `*` stands for any bytes, may be a move's standard text. Of one with
/// `*` only its other bytes are asked.
pub(super) fn can_be_move(word: &[u8]) -> bool {
    if !word.contains(&b'*') {
        return is_move_text(word);
    }
    word.iter()
        .all(|byte| *byte == b'*' || is_move_text_byte(*byte))
}

/// Whether each of the words may be a move's standard text.
pub(super) fn can_be_moves(words: &[u8]) -> bool {
    let mut rest = words;
    for _ in 0..words.len() {
        let Some((word, after)) = next_word(rest) else {
            return true;
        };
        if !can_be_move(word) {
            return false;
        }
        rest = after;
    }
    true
}
