//! A line replayed from the codes of its plies.
ghost use Rattle.std.specs.Prelude.{◌≡◌, ◌<◌, ◌∷◌, ◌++◌, [], List, length, IfOk, MatchResult, OnOk};
ghost use Rattle.chess.specs.declared.moves.Move.{Move};
ghost use Rattle.pgn_game.specs.Public.CodeLines.{IsCodedLine, IsCodedReplay};
ghost use Rattle.pgn_game.specs.Private.CodeWords.{promoted, told_move};
ghost use Rattle.pgn_game.specs.Public.PlyCodes.{code_of, numbered_man, numbered_castle};

use crate::pack::error::CodesError;
use crate::pack::ply::is_pawn;
use crate::turns::replayed::{GamePosition, Replayed};
use chess::{Kind, Man, Move, Side, Square, Wing};
use std::alloc::{AllocError, Global};

/// The sides, short enough for a table.
const W: Side = Side::White;

const B: Side = Side::Black;

/// The sides of men by their numbers, from 12 on of kings who castle: by a table, as the kinds, so
/// that no jump depends on the number. The proof of `numbered_man` compares all 16.
static SIDES: [Side; 16] = [W, W, W, W, W, W, B, B, B, B, B, B, W, W, B, B];

/// The kinds of men by their numbers.
static KINDS: [Kind; 16] = [
    Kind::King,
    Kind::Queen,
    Kind::Rook,
    Kind::Bishop,
    Kind::Knight,
    Kind::Pawn,
    Kind::King,
    Kind::Queen,
    Kind::Rook,
    Kind::Bishop,
    Kind::Knight,
    Kind::Pawn,
    Kind::King,
    Kind::King,
    Kind::King,
    Kind::King,
];

/// The man with that number.
#[inline(always)]
pub fn numbered_man(number: u8) -> Man
    requires { number < 16 }
    ensures { result ≡ numbered_man number }
{
    Man {
        side: SIDES[number as usize],
        kind: KINDS[number as usize],
    }
}

/// The wing on which the man with that number castles, if he does.
#[inline(always)]
pub fn numbered_castle(number: u8) -> Option<Wing>
    ensures { result ≡ numbered_castle number }
{
    if number < 12 {
        return None;
    }
    if number % 2 == 0 {
        return Some(Wing::KingSide);
    }
    Some(Wing::QueenSide)
}

/// What the man that leaves becomes, where another arrives in place of a pawn.
fn promoted(leaving: Option<Man>, man: Man) -> Option<Kind>
    ensures { result ≡ promoted leaving man }
{
    if is_pawn(leaving) && !is_pawn(Some(man)) {
        return Some(man.kind);
    }
    None
}

/// The move that the three bytes tell in the position, if they are the code of one.
pub(crate) fn told_move(position: &GamePosition, a: u8, b: u8, d: u8) -> Move
    ensures { result ≡ told_move position.now (code_of a b d) }
{
    let from = Square::of_index(a % 64);
    let number = b / 64 + 4 * (d / 64);
    Move {
        from,
        to: Square::of_index(b % 64),
        promote: promoted(position.at(from), numbered_man(number)),
        castle: numbered_castle(number),
    }
}

/// A line as far as it is replayed: the positions before the one that is reached, and the moves
/// after each.
#[derive(Drop)]
struct CodedLine {
    before: Vec<GamePosition>,
    played: Vec<Move>,
}

impl CodedLine {
    /// Before the first of so many plies.
    fn new(alloc: Global, count: usize) -> Result<Self, AllocError>
        ensures before { IfOk result (λ line. line.before.items ≡ []) }
        ensures played { IfOk result (λ line. line.played.items ≡ []) }
    {
        let before = Vec::with_capacity(alloc, count.saturating_add(1))?;
        let played = Vec::with_capacity(alloc, count)?;
        Ok(CodedLine { before, played })
    }

    /// Keeps the position, and the move that is played there.
    fn keep(&mut self, position: GamePosition, m: Move) -> Result<(), AllocError>
        ensures before { OnOk result (self.new.before.items
            ≡ self.old.before.items ++ position ∷ []) }
        ensures played { OnOk result (self.new.played.items ≡ self.old.played.items ++ m ∷ []) }
    {
        self.before.push(position)?;
        self.played.push(m)?;
        Ok(())
    }

    /// What is kept, with the position that is reached, as a replay.
    fn replayed(self, alloc: Global, here: GamePosition) -> Result<Replayed, AllocError>
        requires { length self.before.items ≡ length self.played.items }
        ensures { IfOk result (λ replayed. replayed
            ≡ record {
              positions = self.before.items ++ here ∷ [];
              played =
                  self.played.items;
              turns = [];
            }) }
    {
        let CodedLine { before, played } = self;
        let mut positions = before;
        positions.push(here)?;
        Ok(Replayed {
            positions,
            played,
            turns: Vec::new(alloc),
        })
    }
}

/// Replays the line from the position by the bytes of its codes. Each move that a code tells is
/// asked to be legal; what a code says of the man that is taken, and its marks, are not compared.
/// Fails with `NoLine` where the bytes are those of no line of legal moves.
pub fn replay_codes(
    alloc: Global,
    start: GamePosition,
    plies: &[u8],
) -> Result<Replayed, CodesError>
    ensures { MatchResult result
        (IsCodedReplay start plies.now)
        (λ error. error ≡ CodesError.NoLine → (moves : List Move)
        → IsCodedLine start plies.now moves → ⊥) }
{
    if plies.len() % 3 != 0 {
        return Err(CodesError::NoLine);
    }
    let count = plies.len() / 3;
    let mut line = CodedLine::new(alloc, count)?;
    let mut here = start;
    for ply in 0..count {
        let m = told_move(
            &here,
            plies[3 * ply],
            plies[3 * ply + 1],
            plies[3 * ply + 2],
        );
        if !here.is_legal(m) {
            return Err(CodesError::NoLine);
        }
        let next = here.play(m);
        line.keep(here, m)?;
        here = next;
    }
    Ok(line.replayed(alloc, here)?)
}
