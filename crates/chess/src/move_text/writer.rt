//! What is written of a move that is played by its text: nothing, or its standard text.
ghost use Rattle.chess.specs.Public.Positions.{State};
ghost use Rattle.chess.specs.declared.moves.Move.{Move};

use crate::board::{Board, Man};
use crate::move_text::write::{play_san, write_plain};
use crate::moves::Move;
use crate::position::Position;
use arrayvec::ArrayString;

/// What is written of the move that a text names, while it is played.
pub(crate) trait MoveWriter<B: Board> {
    ghost use Rattle.std.specs.Prelude.{◌≡◌, ◌≢◌, None, Some};
    ghost use Rattle.chess.specs.Public.Moves.{IsLegal, after};
    ghost use Rattle.chess.specs.Public.Placements.{man_at};
    ghost use Rattle.chess.specs.Public.San.{HasRival, is_capture};
    ghost use Rattle.chess.specs.declared.board.man.Kind.TheVariants.{Pawn};

    // Holds where all is written that is to be written of the move in the position.
    ghost has: { Self → State → Move → Type 0 };

    /// Writes a move, no castling, of a man who has no rival. It was played, and led to that
    /// position.
    fn write(&mut self, m: &Move, man: Man, takes: bool, next: &Position<B>)
        ensures { (P : State) → m.now.castle ≡ None → man_at P.men m.now.from ≡ Some man
            → takes ≡ is_capture P m.now
            → (man.kind ≢ Pawn → ¬ HasRival P m.now (λ s. Unit {0})) → next.now ≡ after P m.now
            → has self.new P m.now };

    /// Plays a legal move, and writes it.
    fn play(&mut self, position: &mut Position<B>, m: &Move)
        requires { IsLegal position.old m.now }
        ensures played { position.new ≡ after position.old m.now }
        ensures written { has self.new position.old m.now };
}

/// Writes nothing.
#[derive(Drop)]
pub(crate) struct Unwritten;

impl<B: Board> MoveWriter<B> for Unwritten {
    ghost has = { λ writer P m. Unit {0} };

    #[inline(always)]
    fn write(&mut self, _m: &Move, _man: Man, _takes: bool, _next: &Position<B>) {}

    #[inline(always)]
    fn play(&mut self, position: &mut Position<B>, m: &Move) {
        position.make(m);
    }
}

/// Writes the standard text.
impl<B: Board> MoveWriter<B> for ArrayString<8> {
    ghost use Rattle.chess.specs.Public.San.{IsSan};

    ghost has = { λ text P m. IsSan P m text.bytes };

    #[inline(always)]
    fn write(&mut self, m: &Move, man: Man, takes: bool, next: &Position<B>) {
        write_plain(self, m, man, takes, next);
    }

    #[inline(always)]
    fn play(&mut self, position: &mut Position<B>, m: &Move) {
        *self = play_san(position, *m);
    }
}
