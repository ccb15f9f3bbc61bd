//! Lines of a file of openings, and which of them a game came to.
ghost use Rattle.std.specs.Prelude.{◌≡◌, ◌+◌, ◌/◌, ◌<◌, ◌≤◌, ◌^◌, ◌++◌, ◌∷◌, [], List};
ghost use Rattle.std.specs.Prelude.{IfOk, IfSome};
ghost use Rattle.std.specs.Prelude.{MatchResult};
ghost use Rattle.std.specs.Prelude.{None, Some, false, length, map, option_map};
ghost use Rattle.std.specs.List.{slice_get};
ghost use Rattle.chess.specs.Public.Keys.{ArePawns};
ghost use Rattle.chess.specs.Public.Positions.{State};
ghost use Rattle.chess.specs.declared.moves.Move.{Move};
ghost use Rattle.pgn_text.specs.Public.Elements.{item_of};
ghost use Rattle.pgn_text.specs.Public.GameTexts.{tag_in};
ghost use Rattle.pgn_game.specs.Public.Faults.{IsFault, IsMoveFault};
ghost use Rattle.pgn_game.specs.Public.MainLines.{main_words};
ghost use Rattle.pgn_game.specs.Public.Openings.{NamedLine, named_of, ends_of, IsFirstIn};
ghost use Rattle.pgn_game.specs.Public.Openings.{IsOpeningIn, HasOpening, IsTaggedBy, IsClassified};
ghost use Rattle.pgn_game.specs.Public.Openings.{HasContents, HasLineOf, unless_empty};
ghost use Rattle.pgn_game.specs.Public.NamedRecords.{NamesRecord};
ghost use Rattle.pgn_game.specs.Public.CodeLines.{IsCodedLine, positions_from};
ghost use Rattle.pgn_game.specs.Public.PackReading.{raw_of};
ghost use Rattle.pgn_game.specs.Public.PackedGames.{FitsRecord, PackedGame};
ghost use Rattle.pgn_game.specs.Public.Replays.{HasPlies, fault_of};
ghost use Rattle.pgn_game.specs.Public.Starts.{fen_tag};
ghost use Rattle.pgn_game.specs.Private.Filing.{HasOpeningFrom, key_place, mixed, pawns_place};
ghost use Rattle.pgn_game.specs.Private.Following.{FindsLine};
ghost use Rattle.pgn_game.specs.Private.PawnWalks.{EndNoneFrom};
ghost use Rattle.pgn_game.specs.declared.replays.replayer.Lines.TheVariants.{Main};

mod pawns;
mod sieve;

use crate::openings::pawns::{may_change, pawns_after};
use crate::openings::sieve::Sieve;
use crate::pack::{PackError, RawRecord, put_headed, told_move};
use crate::replays::main_line::MainWalk;
use crate::turns::fault::GameFault;
use crate::turns::replayed::GamePosition;
use crate::turns::starting::starting_position;
use pgn_text::{Element, RawGame};
use std::alloc::{AllocError, Global};
use std::collections::HashMap;
use std::marker::Model;

/// A line of a file of openings: its last position, and what it is named, by the contents of the
/// tags ECO, Opening and Variation.
#[derive(Drop)]
pub struct OpeningLine {
    pub end: GamePosition,
    pub code: Vec<u8>,
    pub name: Vec<u8>,
    pub variation: Vec<u8>,
}

/// The opening of a game: the ply at which its line ends, and the place of that line in the file.
#[derive(Clone, Copy, Debug, PartialEq, Eq)]
pub struct Opening {
    pub ply: usize,
    pub line: usize,
}

/// The contents of the string of a tag; none for those that are empty.
fn unless_empty(contents: &[u8]) -> Option<&[u8]>
    ensures { option_map (λ text. text.now) result ≡ unless_empty contents.now }
{
    if contents.is_empty() {
        return None;
    }
    Some(contents)
}

/// One number of two.
#[inline(always)]
fn mixed(sum: u64, word: u64) -> u64
    ensures mixed { result ≡ mixed sum word }
    ensures within { result < 2 ^ 64 }
{
    sum.wrapping_add(word).wrapping_mul(0x9e37_79b9_7f4a_7c15)
}

/// The place in a sieve of the two bitboards of pawns: any place would do, and this one differs for
/// most pawns.
#[inline(always)]
fn pawns_place(pawns: [u64; 2]) -> usize
    ensures place { result ≡ pawns_place pawns }
    ensures within { result < 2 ^ 32 }
{
    (mixed(mixed(0, pawns[0]), pawns[1]) >> 32) as usize
}

/// The place in a sieve of a key, by the bitboards of all men but pawns: any place would do here
/// too.
#[inline(always)]
fn key_place(key: &[u64; 13]) -> usize
    ensures place { result ≡ key_place key.now }
    ensures within { result < 2 ^ 32 }
{
    let white = mixed(mixed(mixed(mixed(key[0], key[1]), key[2]), key[3]), key[4]);
    let black = mixed(mixed(mixed(mixed(key[6], key[7]), key[8]), key[9]), key[10]);
    (mixed(white, black) >> 32) as usize
}

/// A game as it counts, and the number of plies of its main line where that is sound.
#[derive(Drop)]
pub struct Classified<'a> {
    pub game: RawGame<'a>,
    pub plies: Option<usize>,
}

/// A main line that was played: its opening, or none, and the number of its plies.
#[derive(Clone, Copy, Debug, PartialEq, Eq)]
pub struct FollowedLine {
    pub opening: Option<Opening>,
    pub plies: usize,
}

/// The lines of a file of openings, which are found by their last positions.
#[derive(Drop)]
pub struct Openings {
    lines: Vec<OpeningLine>,
    /// The first line that ends in a position, by its key.
    places: HashMap<[u64; 13], usize>,
    /// The places of the pawns with which lines end: they are asked first, since most positions
    /// have others.
    pawns: Sieve,
    /// The places of the keys of their last positions, which are asked next.
    keys: Sieve,
}

impl Model for Openings {
    ghost use Rattle.std.specs.Prelude.{List, map};
    ghost use Rattle.std.specs.Coded.{coded_list};
    ghost use Rattle.pgn_game.specs.Public.Openings.{NamedLine, named_of, ends_of};
    ghost use Rattle.pgn_game.specs.Private.Filing.{coded_named, AreFiled, AreSieved};
    ghost use Rattle.pgn_game.specs.Private.Filing.{HaveContents};

    ghost Value = { List NamedLine };

    ghost coded = { coded_list coded_named };

    ghost view = { λ o. map named_of o.lines.items };

    ghost invariant = { λ o. record {
      filed : AreFiled (ends_of (map named_of o.lines.items)) o.places;
      sieved : AreSieved (ends_of (map named_of o.lines.items)) o.pawns o.keys;
      contents : HaveContents (map named_of o.lines.items);
    } };
}

impl Openings {
    /// No lines.
    pub fn new(alloc: Global) -> Result<Self, AllocError>
        ensures { IfOk result (λ o. o ≡ []) }
    {
        Ok(Openings {
            lines: Vec::new(alloc),
            places: HashMap::new(alloc),
            pawns: Sieve::new(alloc)?,
            keys: Sieve::new(alloc)?,
        })
    }

    /// The lines with one more, after the others. What it is named are contents of strings.
    pub fn with(mut self, line: OpeningLine) -> Result<Self, AllocError>
        requires { HasContents (named_of line) }
        ensures { IfOk result (λ o. o ≡ self ++ named_of line ∷ []) }
    {
        chess::laws::keys_tell_positions();
        line.end.invariant();
        self.pawns.put(pawns_place(line.end.pawns()));
        let key = line.end.key();
        self.keys.put(key_place(&key));
        if !self.places.contains_key(&key) {
            self.places.insert(key, self.lines.len())?;
        }
        self.lines.push(line)?;
        Ok(self)
    }

    /// The first line that ends in the position, which has pawns with which some line ends; or
    /// none.
    #[inline(never)]
    fn find_by_key(&self, position: &GamePosition) -> Option<usize>
        ensures { IsFirstIn (ends_of self.now) position.now result }
    {
        position.invariant();
        let key = position.key();
        if !self.keys.has(key_place(&key)) {
            return None;
        }
        self.places.get(&key).copied()
    }

    /// Whether some line may end with pawns on these bitboards: where it may not, none does.
    #[inline(always)]
    fn may_end_with(&self, pawns: [u64; 2]) -> bool
        ensures { result ≡ false → (P : State) → ArePawns P pawns
            → IsFirstIn (ends_of self.now) P None }
    {
        self.pawns.has(pawns_place(pawns))
    }

    /// The first line that ends in the position, or none.
    #[inline(always)]
    pub fn find(&self, position: &GamePosition) -> Option<usize>
        ensures { IsFirstIn (ends_of self.now) position.now result }
    {
        if !self.may_end_with(position.pawns()) {
            return None;
        }
        self.find_by_key(position)
    }

    /// The opening of a game that comes to the position after so many plies, where it had that one
    /// before, or none.
    #[inline(always)]
    pub fn after(
        &self,
        found: Option<Opening>,
        ply: usize,
        position: &GamePosition,
    ) -> Option<Opening>
        ensures { (seen : List State) → length seen ≡ ply
            → IsOpeningIn (ends_of self.now) seen found
            → IsOpeningIn (ends_of self.now) (seen ++ position.now ∷ []) result }
    {
        match self.find(position) {
            Some(line) => Some(Opening { ply, line }),
            None => found,
        }
    }

    /// The place of the line of the opening of a game that comes to the position, where it was that
    /// one before, or none.
    #[inline(always)]
    pub(crate) fn line_after(&self, found: Option<usize>, position: &GamePosition) -> Option<usize>
        ensures { FindsLine (ends_of self.now) found position.now result }
    {
        match self.find(position) {
            Some(line) => Some(line),
            None => found,
        }
    }

    /// How many positions of the line that the bytes of codes tell lead up to the last with pawns
    /// with which some line ends: 0 where there is none. Nothing but the pawns is moved.
    #[inline(always)]
    fn count_with_pawns(&self, start: &GamePosition, plies: &[u8]) -> usize
        ensures within { result ≤ length plies.now / 3 + 1 }
        ensures none { (moves : List Move) → IsCodedLine start.now plies.now moves
            → EndNoneFrom (ends_of self.now) (positions_from start.now moves) result }
    {
        let mut pawns = start.pawns();
        let mut may_end = self.may_end_with(pawns);
        let mut count = may_end as usize;
        for ply in 0..plies.len() / 3 {
            let (a, b, d) = (plies[3 * ply], plies[3 * ply + 1], plies[3 * ply + 2]);
            if may_change(pawns, a, b, d) {
                let next = pawns_after(pawns, a, b, d);
                may_end = self.may_end_with(next);
                pawns = next;
            }
            if may_end {
                count = ply + 2;
            }
        }
        count
    }

    /// The opening of the line that the bytes of codes tell from the position, or none. Each move
    /// that a code tells is asked to be legal, up to the last position whose pawns those of some
    /// line may be; no position is kept.
    pub fn opening_of_codes(&self, start: GamePosition, plies: &[u8]) -> Option<Opening>
        ensures found { (moves : List Move) → IsCodedLine start plies.now moves
            → IsOpeningIn (ends_of self.now) (positions_from start moves) result }
        ensures within { IfSome result (λ opening. opening.line < length self.now) }
    {
        let mut here = start;
        let count = self.count_with_pawns(&here, plies);
        if count == 0 {
            return None;
        }
        let mut found = self.after(None, 0, &here);
        for ply in 0..count - 1 {
            let (a, b, d) = (plies[3 * ply], plies[3 * ply + 1], plies[3 * ply + 2]);
            let m = &told_move(&here, a, b, d);
            if !here.is_legal(*m) {
                return found;
            }
            let next = here.play(*m);
            found = self.after(found, ply + 1, &next);
            here = next;
        }
        found
    }

    /// The main line that is played from this start, with its opening; or its fault.
    #[inline(always)]
    fn follow<'a>(
        &self,
        start: GamePosition,
        elements: &[Element<'a>],
    ) -> Result<FollowedLine, GameFault<'a>>
        ensures { MatchResult result
            (λ line. HasOpeningFrom (ends_of self.now) start
            (main_words (map item_of elements.now) 0) line.opening line.plies)
            (λ fault.
            IfSome (fault_of fault)
            (IsMoveFault start 0 (main_words (map item_of elements.now) 0))) }
    {
        let mut walk = MainWalk::new(start);
        let mut found = self.after(None, 0, &walk.position);
        for element in elements {
            if walk.step(*element)?.is_some() {
                found = self.after(found, walk.plies, &walk.position);
            }
        }
        Ok(FollowedLine {
            opening: found,
            plies: walk.plies,
        })
    }

    /// The main line of the game, with its opening; or its fault.
    #[inline(always)]
    pub fn opening_of<'a>(
        &self,
        alloc: Global,
        game: &RawGame<'a>,
    ) -> Result<FollowedLine, GameFault<'a>>
        ensures { MatchResult result
            (λ line. HasOpening self.now game.now line.opening
            × HasPlies (tag_in fen_tag game.now.tags) game.now.elements line.plies)
            (λ fault.
            IfSome (fault_of fault)
            (IsFault Main (tag_in fen_tag game.now.tags) game.now.elements)) }
    {
        let start = starting_position(alloc, game.tags())?;
        self.follow(start, game.elements())
    }

    /// The game with the tags of the line at that place.
    fn named<'a>(&'a self, game: RawGame<'a>, place: usize) -> Result<RawGame<'a>, AllocError>
        requires { place < length self.now }
        ensures { IfOk result (λ own. (line : NamedLine) × (slice_get self.now place ≡ Some line)
            × HasContents line × IsTaggedBy (Some line) game.entry own) }
    {
        let line = &self.lines[place];
        let game = game.retagged(b"Variation", unless_empty(&line.variation))?;
        let game = game.retagged(b"Opening", unless_empty(&line.name))?;
        game.retagged(b"ECO", unless_empty(&line.code))
    }

    /// The record of a packed game with the tags of the line at that place; none where no game of
    /// a text has the tags of the record.
    pub fn named_record<'a>(
        &'a self,
        alloc: Global,
        raw: &RawRecord<'a>,
        place: usize,
    ) -> Result<Option<Vec<u8>>, PackError>
        requires { place < length self.now }
        ensures { IfOk result (λ bytes. (game : PackedGame) → FitsRecord game
            → raw.now ≡ raw_of game
            → NamesRecord self.now place game (option_map (λ own. own.items) bytes)) }
    {
        let Some(head) = raw.head(alloc)? else {
            return Ok(None);
        };
        let head = self.named(head, place)?;
        head.invariant();
        let mut bytes = Vec::new(alloc);
        put_headed(raw, &head, &mut bytes)?;
        Ok(Some(bytes))
    }

    /// The game as it counts, the line of whose opening is at that place: with its tags, or as it
    /// stands where there is none.
    pub(crate) fn named_by<'a>(
        &'a self,
        game: RawGame<'a>,
        place: Option<usize>,
    ) -> Result<RawGame<'a>, AllocError>
        requires { HasLineOf self.now game place }
        ensures { IfOk result (IsClassified self.now game.entry) }
    {
        match place {
            Some(place) => self.named(game, place),
            None => Ok(game),
        }
    }

    /// The game as it counts: with the tags of its opening, or as it stands where it has none; and
    /// the number of plies of its main line where that is sound.
    pub fn classified<'a>(
        &'a self,
        alloc: Global,
        game: RawGame<'a>,
    ) -> Result<Classified<'a>, AllocError>
        ensures counts { IfOk result (λ classified.
            IsClassified self.now game.entry classified.game) }
        ensures plies { IfOk result (λ classified. IfSome classified.plies
            (HasPlies (tag_in fen_tag game.entry.tags) game.entry.elements)) }
    {
        match self.opening_of(alloc, &game) {
            Ok(line) => {
                let plies = Some(line.plies);
                let game = match line.opening {
                    Some(opening) => self.named(game, opening.line)?,
                    None => game,
                };
                Ok(Classified { game, plies })
            }
            Err(GameFault::OutOfMemory) => Err(AllocError),
            Err(GameFault::BadPosition) => Ok(Classified { game, plies: None }),
            Err(GameFault::Illegal { .. }) => Ok(Classified { game, plies: None }),
            Err(GameFault::Ambiguous { .. }) => Ok(Classified { game, plies: None }),
        }
    }
}
