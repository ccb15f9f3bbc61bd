//! The position that a text spells in Forsyth-Edwards notation (PGN 16.1).
ghost use Rattle.std.specs.Prelude.{◌≡◌, ◌∷◌, [], List, ℕ, IfOk, MatchOption};
ghost use Rattle.std.specs.Prelude.{MatchResult};
ghost use Rattle.chess.specs.Public.Positions.{State, IsSound};
ghost use Rattle.chess.specs.Public.Fen.{fields_of, SpellsPosition, ReadsFen, IsRefused};
ghost use Rattle.chess.specs.Public.FirstFields.{GivesPosition};
ghost use Rattle.chess.specs.Private.FilledFields.{filled, given_of};

use crate::board::{Board, CastlingRights, Side, Square};
use crate::fen::FenError;
use crate::position::Position;

mod fields;
mod parse;
mod ranks;
mod validate;

use fields::next_field;
use parse::{read_counts, read_en_passant, read_rights, read_side};
use ranks::read_men;
use validate::{has_edge_pawn, kept_en_passant, kept_rights, only_king};

/// The first four fields of a text, and what follows them.
#[derive(Clone, Copy)]
struct FirstFields<'a> {
    men: &'a [u8],
    side: &'a [u8],
    rights: &'a [u8],
    en_passant: &'a [u8],
    rest: &'a [u8],
}

/// What a text spells, before anything is known of its men.
#[derive(Drop)]
struct Spelled<B: Board> {
    board: B,
    turn: Side,
    rights: CastlingRights,
    en_passant: Option<Square>,
    halfmove_clock: u32,
    fullmove_number: u32,
}

/// The first four fields of the text, if it has as many.
fn split_fields(text: &[u8]) -> Option<FirstFields>
    ensures { MatchOption result ((a b c d : List ℕ) (more : List (List ℕ))
        → fields_of text.now ≡ a ∷ b ∷ c ∷ d ∷ more → ⊥)
        (λ f. fields_of text.now ≡ f.men.now ∷ f.side.now ∷ f.rights.now ∷ f.en_passant.now
        ∷ fields_of f.rest.now) }
{
    let (men, rest) = next_field(text)?;
    let (side, rest) = next_field(rest)?;
    let (rights, rest) = next_field(rest)?;
    let (en_passant, rest) = next_field(rest)?;
    Some(FirstFields {
        men,
        side,
        rights,
        en_passant,
        rest,
    })
}

/// The first four fields of the text, where this is the side if none is given, and no right and no
/// en passant square are given; and how many of the four are.
fn fill_fields<'a>(text: &'a [u8], side: &'a [u8]) -> Option<(FirstFields<'a>, usize)>
    ensures { MatchOption result (fields_of text.now ≡ []) (λ f.
        (filled side.now (fields_of text.now) ≡ f.0.men.now ∷ f.0.side.now ∷ f.0.rights.now
        ∷ f.0.en_passant.now ∷ fields_of f.0.rest.now) × (f.1 ≡ given_of (fields_of text.now))) }
{
    let none: &'a [u8] = b"-";
    let (men, rest) = next_field(text)?;
    let mut fields = FirstFields {
        men,
        side,
        rights: none,
        en_passant: none,
        rest,
    };
    let Some((side, rest)) = next_field(rest) else {
        return Some((fields, 1));
    };
    fields.side = side;
    fields.rest = rest;
    let Some((rights, rest)) = next_field(rest) else {
        return Some((fields, 2));
    };
    fields.rights = rights;
    fields.rest = rest;
    let Some((en_passant, rest)) = next_field(rest) else {
        return Some((fields, 3));
    };
    fields.en_passant = en_passant;
    fields.rest = rest;
    Some((fields, 4))
}

/// What a text with these fields spells.
fn read_spelled<B: Board>(fields: FirstFields) -> Option<Spelled<B>>
    ensures { let f = fields.entry in (x : List ℕ) → fields_of x
        ≡ f.men.now ∷ f.side.now ∷ f.rights.now ∷ f.en_passant.now ∷ fields_of f.rest.now
        → MatchOption result ((P : State) → SpellsPosition x P
        → ⊥) (λ d. SpellsPosition x (record {
          men = B.men d.board;
          turn = d.turn;
          rights = d.rights;
          en_passant = d.en_passant;
          halfmove_clock = d.halfmove_clock;
          fullmove_number = d.fullmove_number;
        })) }
{
    let board = read_men::<B>(fields.men)?;
    let turn = read_side(fields.side)?;
    let rights = read_rights(fields.rights)?;
    let en_passant = read_en_passant(fields.en_passant)?;
    let (halfmove_clock, fullmove_number) = read_counts(fields.rest)?;
    Some(Spelled {
        board,
        turn,
        rights: kept_rights(&board, rights),
        en_passant: kept_en_passant(&board, turn, en_passant),
        halfmove_clock,
        fullmove_number,
    })
}

impl<B: Board> Position<B> {
    /// The position that a text with these fields spells. There is to be such a text.
    fn from_fields(fields: FirstFields) -> Result<Self, FenError>
        requires { (x : List ℕ) × (fields_of x ≡ fields.men.now ∷ fields.side.now
            ∷ fields.rights.now ∷ fields.en_passant.now ∷ fields_of fields.rest.now) }
        ensures answer { let f = fields.entry in (x : List ℕ) → fields_of x
            ≡ f.men.now ∷ f.side.now ∷ f.rights.now ∷ f.en_passant.now ∷ fields_of f.rest.now
            → MatchResult result (λ p. ReadsFen x p) (λ e. IsRefused x e) }
        ensures sound { IfOk result IsSound }
    {
        let Some(spelled) = read_spelled::<B>(fields) else {
            return Err(FenError::Syntax);
        };
        let Some(white_king) = only_king(&spelled.board, Side::White) else {
            return Err(FenError::Kings);
        };
        let Some(black_king) = only_king(&spelled.board, Side::Black) else {
            return Err(FenError::Kings);
        };
        if has_edge_pawn(&spelled.board) {
            return Err(FenError::Pawns);
        }
        let king = match spelled.turn {
            Side::White => black_king,
            Side::Black => white_king,
        };
        if spelled.board.attacked(king, spelled.turn) {
            return Err(FenError::InCheck);
        }
        Ok(Position {
            board: spelled.board,
            turn: spelled.turn,
            rights: spelled.rights,
            en_passant: spelled.en_passant,
            halfmove_clock: spelled.halfmove_clock,
            fullmove_number: spelled.fullmove_number,
            white_king,
            black_king,
        })
    }

    /// The position that the text spells (PGN 16.1). A right whose king or rook is not at home is
    /// dropped, and an en passant square
    /// that does not fit. The clock and the number may be missing.
    pub fn from_fen(text: &[u8]) -> Result<Self, FenError>
        ensures answer { MatchResult result (λ p. ReadsFen text.now p) (λ e. IsRefused text.now e) }
        ensures sound { IfOk result IsSound }
    {
        match split_fields(text) {
            Some(fields) => Self::from_fields(fields),
            None => Err(FenError::Syntax),
        }
    }

    /// The position that the text gives by its first field alone, or by more, and how many of the
    /// first four it has. Where the side to move is not given, it is White if that may be.
    pub fn from_first_fields(text: &[u8]) -> Option<(Self, usize)>
        ensures { MatchOption result ((P : State) (given : ℕ)
            → GivesPosition text.now given P → ⊥)
            (λ found. GivesPosition text.now found.1 found.0) }
    {
        let (fields, given) = fill_fields(text, b"w")?;
        if let Ok(position) = Self::from_fields(fields) {
            return Some((position, given));
        }
        if given > 1 {
            return None;
        }
        let (fields, given) = fill_fields(text, b"b")?;
        match Self::from_fields(fields) {
            Ok(position) => Some((position, given)),
            Err(_) => None,
        }
    }
}
