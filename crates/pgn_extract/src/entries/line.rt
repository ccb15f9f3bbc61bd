//! A main line whose positions are asked one after the other.
ghost use Rattle.std.specs.Prelude.{◌≡◌, ◌++◌, ◌<◌, ℕ, List, Option, None, true, length};
ghost use Rattle.std.specs.Prelude.{MatchResult, IfErr, IfSome, OnOk};
ghost use Rattle.std.specs.declared.alloc.AllocError.{AllocError};
ghost use Rattle.chess.specs.Public.Positions.{State};
ghost use Rattle.pgn_text.specs.Public.GameTexts.{GameText};
ghost use Rattle.pgn_game.specs.Public.Faults.{Fault as OwnFault};
ghost use Rattle.pgn_extract.specs.Public.Aims.{Aim};
ghost use Rattle.pgn_extract.specs.Private.Lines.{Stands, Where, MeetsHere, HasFault};
ghost use Rattle.pgn_extract.specs.Private.Lines.{GoesTo, ShowsValue};
ghost use Rattle.pgn_extract.specs.Private.RowTexts.{IsPlainValue};

use crate::rows::column::PlyColumn;
use std::alloc::AllocError;

/// A main line, and a question that each position is asked as it is reached.
pub(crate) trait Line {
    ghost use Rattle.pgn_extract.specs.declared.rows.column.PlyColumn.{PlyColumn};

    /// Why it does not go on.
    type Fault: From<AllocError>;

    /// It asks what the aim asks, of this game, of which it passed these positions and reached this
    /// one.
    ghost At: { Self → Aim → GameText → List State → State → Type 0 };

    /// Of whatever game it is, what is shown can be written, and it can go on.
    ghost Valid: { Self → Type 0 };

    /// It shows these columns.
    ghost Shows: { PlyColumn → Type 0 };

    /// How many steps may follow.
    ghost size: { Self → ℕ };

    /// The fault of the game that this is, if it is one and not want of memory.
    ghost fault_of: { Self.Fault → Option OwnFault };

    /// How many plies lead to the position that is reached.
    fn ply(&self) -> usize
        ensures { Where (At self.now) (λ aim game before P. result ≡ length before) };

    /// Whether the position meets what is asked.
    fn is_met(&self) -> bool
        requires valid { Valid self.now }
        ensures { Where (At self.now) (MeetsHere result) };

    /// Appends what a column shows of it. A next move that cannot be played is answered as a fault.
    fn push_value(&self, text: &mut Vec<u8>, column: PlyColumn) -> Result<(), Self::Fault>
        requires valid { Valid self.now }
        requires shows { Shows column }
        ensures shown { OnOk result ((value : List ℕ) × IsPlainValue value
            × Where (At self.now) (ShowsValue column value)
            × (text.new.items ≡ text.old.items ++ value)) }
        ensures fault { IfErr result (λ fault. IfSome (fault_of fault)
            (λ own. Where (At self.now) (HasFault own) × (some : List ℕ)
            × (text.new.items ≡ text.old.items ++ some))) };

    /// Goes on to the next position that may meet what is asked, or answers that there is none. It
    /// may also answer so where no more is asked for.
    fn advance(&mut self, is_open: bool) -> Result<bool, Self::Fault>
        requires valid { Valid self.old }
        ensures moved { MatchResult result
            (λ more. Where (At self.old) (GoesTo (At self.new) is_open more))
            (λ fault. IfSome (fault_of fault) (λ own. Where (At self.old) (HasFault own))) }
        ensures ends { OnOk result (result ≡ Ok true → size self.new < size self.old) }
        ensures valid { Valid self.new };

    /// Each replay of the game has these positions, and then others.
    ghost stands: { (line : Self) (aim : Aim) (game : GameText) (before : List State) (P : State)
        → At line aim game before P → Stands game before P };

    /// Want of memory is no fault of the game.
    ghost memory: { (error : AllocError) (fault : Self.Fault)
        → Self.Fault.from_gives error fault → fault_of fault ≡ None };
}
