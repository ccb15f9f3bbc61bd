//! Tokens of a movetext: numbers of moves, NAGs and turns.
ghost use Rattle.std.specs.Prelude.{◌≡◌, ◌+◌, ◌++◌, ◌∷◌, ℕ, List, [], decimal, IfSome, MatchResult};
ghost use Rattle.std.specs.Prelude.{OnOk};
ghost use Rattle.pgn_game.specs.Public.AllLines.{IsTurn, after_turn};
ghost use Rattle.pgn_game.specs.Public.Exports.{number_tokens, IsTurnText};
ghost use Rattle.pgn_game.specs.Public.Faults.{IsRefusedTurn};
ghost use Rattle.pgn_game.specs.Private.LineWrappers.{HasPut};
ghost use Rattle.pgn_game.specs.Public.Replays.{fault_of};

use crate::exports::line_wrapper::LineWrapper;
use crate::replays::walk::play_turn;
use crate::turns::fault::GameFault;
use crate::turns::line_move::LineMove;
use crate::turns::naming::play_named_san;
use crate::turns::replayed::GamePosition;
use crate::turns::saying::is_null_move;
use arrayvec::ArrayString;
use chess::Side;
use itoa::Buffer;
use std::alloc::AllocError;

/// Writes digits with bytes after them, as one token.
#[inline(always)]
fn put_digits(
    wrapper: &mut LineWrapper,
    out: &mut Vec<u8>,
    digits: &[u8],
    end: &[u8],
) -> Result<(), AllocError>
    ensures text { OnOk result
        (HasPut wrapper.old wrapper.new out.old.items out.new.items ((digits.now ++ end.now)
        ∷ [])) }
    ensures kept { (some : List ℕ) × (out.new.items ≡ out.old.items ++ some) }
    ensures width { wrapper.new.width ≡ wrapper.old.width }
{
    wrapper.start(out, digits.len() + end.len())?;
    out.extend_from_slice(digits)?;
    out.extend_from_slice(end)?;
    Ok(())
}

/// Writes a number with bytes after it, as one token: most numbers of moves have one digit or two.
#[inline(always)]
fn put_count(
    wrapper: &mut LineWrapper,
    out: &mut Vec<u8>,
    number: u32,
    end: &[u8],
) -> Result<(), AllocError>
    ensures text { OnOk result
        (HasPut wrapper.old wrapper.new out.old.items out.new.items
        ((decimal number ++ end.now) ∷ [])) }
    ensures kept { (some : List ℕ) × (out.new.items ≡ out.old.items ++ some) }
    ensures width { wrapper.new.width ≡ wrapper.old.width }
{
    if number < 10 {
        return put_digits(wrapper, out, &[b'0' + number as u8], end);
    }
    if number < 100 {
        let digits = [b'0' + (number / 10) as u8, b'0' + (number % 10) as u8];
        return put_digits(wrapper, out, &digits, end);
    }
    let mut buffer = Buffer::new();
    put_digits(wrapper, out, buffer.format(number).as_bytes(), end)
}

/// Writes a number with a point after it, as one token.
#[inline(always)]
fn put_point(wrapper: &mut LineWrapper, out: &mut Vec<u8>, number: u32) -> Result<(), AllocError>
    ensures text { OnOk result
        (HasPut wrapper.old wrapper.new out.old.items out.new.items
        ((decimal number ++ 46 ∷ []) ∷ [])) }
    ensures kept { (some : List ℕ) × (out.new.items ≡ out.old.items ++ some) }
    ensures width { wrapper.new.width ≡ wrapper.old.width }
{
    if number < 10 {
        return wrapper.put(out, &[b'0' + number as u8, b'.']);
    }
    if number < 100 {
        let digits = [b'0' + (number / 10) as u8, b'0' + (number % 10) as u8, b'.'];
        return wrapper.put(out, &digits);
    }
    put_count(wrapper, out, number, b".")
}

/// Writes the number of a move of the side, if it is to have one: White's always, Black's where it
/// stands apart from the move before it.
#[inline(always)]
pub(crate) fn put_number(
    wrapper: &mut LineWrapper,
    out: &mut Vec<u8>,
    side: Side,
    number: u32,
    apart: bool,
) -> Result<(), AllocError>
    ensures text { OnOk result
        (HasPut wrapper.old wrapper.new out.old.items out.new.items
        (number_tokens side number apart)) }
    ensures kept { (some : List ℕ) × (out.new.items ≡ out.old.items ++ some) }
    ensures width { wrapper.new.width ≡ wrapper.old.width }
{
    match side {
        Side::White => put_point(wrapper, out, number),
        Side::Black => {
            if apart {
                return put_count(wrapper, out, number, b"...");
            }
            Ok(())
        }
    }
}

/// Writes a NAG.
pub(crate) fn put_glyph(
    wrapper: &mut LineWrapper,
    out: &mut Vec<u8>,
    number: u8,
) -> Result<(), AllocError>
    ensures text { OnOk result
        (HasPut wrapper.old wrapper.new out.old.items out.new.items ((36 ∷ decimal number)
        ∷ [])) }
    ensures kept { (some : List ℕ) × (out.new.items ≡ out.old.items ++ some) }
    ensures width { wrapper.new.width ≡ wrapper.old.width }
{
    let mut buffer = Buffer::new();
    let digits = buffer.format(number).as_bytes();
    wrapper.start(out, 1 + digits.len())?;
    out.push(b'$')?;
    out.extend_from_slice(digits)?;
    Ok(())
}

/// Plays what the word says in the position, in a variation or not, and writes its standard text;
/// or answers the fault of this ply.
#[inline(always)]
pub(crate) fn play_turn_san<'a>(
    position: &mut GamePosition,
    inside: bool,
    word: &'a [u8],
    ply: usize,
    san: &mut ArrayString<8>,
) -> Result<LineMove, GameFault<'a>>
    ensures { MatchResult result
        (λ turn. IsTurn inside position.old word.now turn
        × (position.new ≡ after_turn position.old turn)
        × IsTurnText position.old turn san.new.bytes)
        (λ fault. (plies : ℕ) → ply ≡ plies + 1
        → IfSome (fault_of fault) (IsRefusedTurn inside position.old plies word.now)) }
{
    if is_null_move(inside, word) {
        san.clear();
        san.push_str("--");
        return play_turn(position, inside, word, ply);
    }
    let m = play_named_san(position, word, ply, san)?;
    Ok(LineMove::Played(m))
}
