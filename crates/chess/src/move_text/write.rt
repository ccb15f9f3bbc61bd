//! The text of a move in standard algebraic notation (PGN 8.2.3).
ghost use Rattle.std.specs.Prelude.{◌≡◌, ◌≢◌, ◌↔◌, ◌+◌, ◌≤◌, ◌<◌, ◌++◌, None, Some, IsTrue, true};
ghost use Rattle.arrayvec.specs.ArrayString.{array_string_len};
ghost use Rattle.chess.specs.Public.Placements.{man_at};
ghost use Rattle.chess.specs.Public.Positions.{State};
ghost use Rattle.chess.specs.declared.board.man.Kind.TheVariants.{Pawn};
ghost use Rattle.chess.specs.declared.moves.Move.{Move};
ghost use Rattle.chess.specs.Public.Moves.{IsLegal, after};
ghost use Rattle.chess.specs.Public.San.{IsSan, IsOnlyNamed, IsRival, HasRival, IsDisambiguation};
ghost use Rattle.chess.specs.Public.San.{IsPieceText, IsBody, IsCheckSign, castling_text};
ghost use Rattle.chess.specs.Public.San.{is_capture, capture_text, pawn_text, promotion_text};
ghost use Rattle.chess.specs.Public.Sets.{HoldsExactly};
ghost use Rattle.chess.specs.Private.MoveWords.{HasEach};
ghost use Rattle.chess.specs.Private.SanTextWords.{Appends, AreOf, HasSquare};

use crate::board::{Board, Kind, Man, Square, SquareSet, Wing};
use crate::letters::{kind_letter, push_byte, push_square};
use crate::moves::Move;
use crate::position::Position;
use arrayvec::ArrayString;

/// The text of a legal move in standard algebraic notation; it names that move and no other. No
/// memory is needed.
pub fn san<B: Board>(position: &Position<B>, m: Move) -> ArrayString<8>
    requires { IsLegal position.now m }
    ensures text { IsSan position.now m result.bytes }
    ensures names { IsOnlyNamed position.now result.bytes m }
{
    let mut after = position.copy();
    play_san(&mut after, m)
}

/// Plays a legal move and answers its text in standard algebraic notation: the text that `san`
/// answers in the position before it. No memory is needed.
pub fn play_san<B: Board>(position: &mut Position<B>, m: Move) -> ArrayString<8>
    requires { IsLegal position.old m }
    ensures text { IsSan position.old m result.bytes }
    ensures names { IsOnlyNamed position.old result.bytes m }
    ensures played { position.new ≡ after position.old m }
{
    position.invariant();
    play_written(position, m)
}

/// Plays a legal move and answers its text: what `play_san` does, before it is known that the text
/// names that move alone.
fn play_written<B: Board>(position: &mut Position<B>, m: Move) -> ArrayString<8>
    requires { IsLegal position.old m }
    ensures text { IsSan position.old m result.bytes }
    ensures played { position.new ≡ after position.old m }
{
    let mut out = ArrayString::new();
    let man = mover(position, &m);
    let takes = position.takes(man, &m);
    push_body(&mut out, position, &m, man, takes);
    position.make_with(man, &m, takes);
    push_check_sign(&mut out, position);
    out
}

/// Writes the text of a move, no castling, of a man who has no rival, with the mark of the position
/// after it.
#[inline(always)]
pub(crate) fn write_plain<B: Board>(
    out: &mut ArrayString<8>,
    m: &Move,
    man: Man,
    takes: bool,
    next: &Position<B>,
)
    ensures { (P : State) → m.now.castle ≡ None → man_at P.men m.now.from ≡ Some man
        → takes ≡ is_capture P m.now
        → (man.kind ≢ Pawn → ¬ HasRival P m.now (λ s. Unit {0})) → next.now ≡ after P m.now
        → IsSan P m.now out.new.bytes }
{
    out.clear();
    push_plain(out, m, man, takes);
    push_check_sign(out, next);
}

/// Appends the text of a move, no castling, of a man who has no rival, without its check sign.
#[inline(always)]
fn push_plain(out: &mut ArrayString<8>, m: &Move, man: Man, takes: bool)
    requires { array_string_len out.old ≤ 1 }
    ensures text { (P : State) → takes ≡ is_capture P m.now
        → (man.kind ≢ Pawn → ¬ HasRival P m.now (λ s. Unit {0}))
        → Appends (IsBody P m.now None man.kind) out.old.bytes out.new.bytes }
    ensures short { array_string_len out.new ≤ array_string_len out.old + 7 }
{
    match man.kind {
        Kind::Pawn => push_pawn_move(out, m, takes),
        _ => {
            push_byte(out, kind_letter(man.kind));
            push_cross(out, takes);
            push_square(out, m.to);
        }
    }
}

/// Whether the man that moves is of that kind.
#[inline(always)]
fn is_mover<B: Board>(position: &Position<B>, m: &Move, kind: Kind) -> bool
    ensures { IsTrue result
        ↔ (man_at position.now.men m.now.from
        ≡ Some (record { side = position.now.turn; kind = kind })) }
{
    let man = Man {
        side: position.side(),
        kind,
    };
    m.from.invariant();
    position.squares_of(man).has(m.from)
}

/// The kind of the man that moves: those that move most are asked first.
#[inline(always)]
fn kind_of_mover<B: Board>(position: &Position<B>, m: &Move) -> Kind
    requires { IsLegal position.now m.now }
    ensures { man_at position.now.men m.now.from
        ≡ Some (record { side = position.now.turn; kind = result }) }
{
    if is_mover(position, m, Kind::Pawn) {
        return Kind::Pawn;
    }
    if is_mover(position, m, Kind::Knight) {
        return Kind::Knight;
    }
    if is_mover(position, m, Kind::Bishop) {
        return Kind::Bishop;
    }
    if is_mover(position, m, Kind::Rook) {
        return Kind::Rook;
    }
    if is_mover(position, m, Kind::Queen) {
        return Kind::Queen;
    }
    Kind::King
}

/// The man that moves.
#[inline(always)]
fn mover<B: Board>(position: &Position<B>, m: &Move) -> Man
    requires { IsLegal position.now m.now }
    ensures { man_at position.now.men m.now.from ≡ Some result }
{
    Man {
        side: position.side(),
        kind: kind_of_mover(position, m),
    }
}

/// Appends the mark of the position after a move: `+` for check, `#` for mate.
fn push_check_sign<B: Board>(out: &mut ArrayString<8>, after: &Position<B>)
    requires { array_string_len out.old < 8 }
    ensures { Appends (IsCheckSign after.now) out.old.bytes out.new.bytes }
{
    if !after.in_check() {
        return;
    }
    if after.has_move() {
        push_byte(out, b'+');
        return;
    }
    push_byte(out, b'#');
}

/// Appends the text of a move without its check sign.
fn push_body<B: Board>(
    out: &mut ArrayString<8>,
    position: &Position<B>,
    m: &Move,
    man: Man,
    takes: bool,
)
    requires mover { man_at position.now.men m.now.from ≡ Some man }
    requires takes { takes ≡ is_capture position.now m.now }
    requires room { array_string_len out.old ≤ 1 }
    ensures text { Appends (IsBody position.now m.now m.now.castle man.kind) out.old.bytes
        out.new.bytes }
    ensures short { array_string_len out.new ≤ array_string_len out.old + 7 }
{
    if let Some(wing) = m.castle {
        push_castling(out, wing);
        return;
    }
    if man.kind == Kind::Pawn {
        push_pawn_move(out, m, takes);
        return;
    }
    push_piece_move(out, position, m, man, takes);
}

/// Appends the text of castling.
fn push_castling(out: &mut ArrayString<8>, wing: Wing)
    requires { array_string_len out.old ≤ 3 }
    ensures text { out.new.bytes ≡ out.old.bytes ++ castling_text wing }
    ensures short { array_string_len out.new ≤ array_string_len out.old + 5 }
{
    match wing {
        Wing::KingSide => out.push_str("O-O"),
        Wing::QueenSide => out.push_str("O-O-O"),
    }
}

/// Appends a pawn's move.
fn push_pawn_move(out: &mut ArrayString<8>, m: &Move, takes: bool)
    requires { array_string_len out.old ≤ 2 }
    ensures text { (P : State) → takes ≡ is_capture P m.now
        → out.new.bytes ≡ out.old.bytes ++ pawn_text P m.now }
    ensures short { array_string_len out.new ≤ array_string_len out.old + 6 }
{
    if takes {
        push_byte(out, b'a' - 1 + m.from.file());
        push_byte(out, b'x');
    }
    push_square(out, m.to);
    push_promotion(out, m.promote);
}

/// Appends what a pawn becomes, if it becomes anything.
fn push_promotion(out: &mut ArrayString<8>, promote: Option<Kind>)
    requires { array_string_len out.old ≤ 6 }
    ensures text { out.new.bytes ≡ out.old.bytes ++ promotion_text true promote }
    ensures short { array_string_len out.new ≤ array_string_len out.old + 2 }
{
    if let Some(kind) = promote {
        push_byte(out, b'=');
        push_byte(out, kind_letter(kind));
    }
}

/// Appends the move of a piece.
fn push_piece_move<B: Board>(
    out: &mut ArrayString<8>,
    position: &Position<B>,
    m: &Move,
    man: Man,
    takes: bool,
)
    requires mover { man_at position.now.men m.now.from ≡ Some man }
    requires takes { takes ≡ is_capture position.now m.now }
    requires room { array_string_len out.old ≤ 2 }
    ensures text { Appends (IsPieceText position.now m.now man.kind) out.old.bytes out.new.bytes }
    ensures short { array_string_len out.new ≤ array_string_len out.old + 6 }
{
    push_byte(out, kind_letter(man.kind));
    push_origin(out, position, m, man);
    push_cross(out, takes);
    push_square(out, m.to);
}

/// Appends `x` for a capture.
fn push_cross(out: &mut ArrayString<8>, takes: bool)
    requires { array_string_len out.old < 8 }
    ensures text { (P : State) (m : Move) → takes ≡ is_capture P m
        → out.new.bytes ≡ out.old.bytes ++ capture_text P m }
    ensures short { array_string_len out.new ≤ array_string_len out.old + 1 }
{
    if takes {
        push_byte(out, b'x');
    }
}

/// Appends what distinguishes the man from its rivals: nothing where there is none; the file where
/// no rival stands on it; else the rank where no rival stands on it; else both (PGN 8.2.3.4).
fn push_origin<B: Board>(out: &mut ArrayString<8>, position: &Position<B>, m: &Move, man: Man)
    requires mover { man_at position.now.men m.now.from ≡ Some man }
    requires room { array_string_len out.old ≤ 6 }
    ensures text { Appends (IsDisambiguation position.now m.now) out.old.bytes out.new.bytes }
    ensures short { array_string_len out.new ≤ array_string_len out.old + 2 }
{
    let rivals = rivals(position, m, man);
    if !rivals.has_some() {
        return;
    }
    if !has_on_file(&rivals, m.from) {
        push_byte(out, b'a' - 1 + m.from.file());
        return;
    }
    if !has_on_rank(&rivals, m.from) {
        push_byte(out, b'0' + m.from.rank());
        return;
    }
    push_square(out, m.from);
}

/// The squares of the other men of the same kind and side that have a legal move to the same
/// square.
fn rivals<B: Board>(position: &Position<B>, m: &Move, man: Man) -> SquareSet
    requires { man_at position.now.men m.now.from ≡ Some man }
    ensures { HoldsExactly (IsRival position.now m.now) result }
{
    let mut left = men_alike(position, m, man);
    let mut found = SquareSet::new();
    while let Some(from) = left.take_first() {
        found.insert_if(from, is_rival(position, m, from));
    }
    found
}

/// Squares of men of the same kind and side, among which are those of all rivals: a piece goes
/// nowhere but where it attacks.
fn men_alike<B: Board>(position: &Position<B>, m: &Move, man: Man) -> SquareSet
    requires { man_at position.now.men m.now.from ≡ Some man }
    ensures each { HasEach (IsRival position.now m.now) result }
    ensures alike { AreOf position.now.men man result }
{
    position.invariant();
    let mut among = SquareSet::all();
    among.remove(m.from);
    match man.kind {
        Kind::Pawn => position.squares_of(man),
        _ => position.attackers_from(man, m.to, among),
    }
}

/// Whether a man like the one that moves is another one and has a legal move to the same square.
fn is_rival<B: Board>(position: &Position<B>, m: &Move, from: Square) -> bool
    requires { man_at position.now.men from ≡ man_at position.now.men m.now.from }
    ensures { IsTrue result ↔ IsRival position.now m.now from }
{
    if from.is(m.from) {
        return false;
    }
    position.can_go(from, m.to)
}

/// Whether a square of the set is on the file of that square.
fn has_on_file(squares: &SquareSet, square: Square) -> bool
    ensures { IsTrue result ↔ HasSquare squares.now (λ s. s.file ≡ square.file) }
{
    for rank in 1u8..9 {
        if squares.has(Square::at(square.file(), rank)) {
            return true;
        }
    }
    false
}

/// Whether a square of the set is on the rank of that square.
fn has_on_rank(squares: &SquareSet, square: Square) -> bool
    ensures { IsTrue result ↔ HasSquare squares.now (λ s. s.rank ≡ square.rank) }
{
    for file in 1u8..9 {
        if squares.has(Square::at(file, square.rank())) {
            return true;
        }
    }
    false
}
