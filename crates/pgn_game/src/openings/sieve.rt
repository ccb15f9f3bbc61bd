//! The places of a sieve: two bits a place, of 65,536 in all, so that they lie in 8 kB, and few
//! other places have both.
ghost use Rattle.std.specs.Prelude.{◌≡◌, ◌<◌, ◌^◌, ℕ, true};
ghost use Rattle.pgn_game.specs.Private.Filing.{has_place, is_set};

use std::alloc::{AllocError, Global};
use std::marker::Model;

/// How many words of 64 bits there are.
const WORDS: usize = 1 << 10;

/// Some of the places from 0 to 4,294,967,295, and a few more by chance.
#[derive(Drop)]
pub(crate) struct Sieve {
    words: Vec<u64>,
}

impl Model for Sieve {
    ghost use Rattle.std.specs.Prelude.{◌≡◌, ◌^◌, ℕ, List, length};

    ghost Value = { List ℕ };

    ghost view = { λ s. s.words.items };

    ghost invariant = { λ s. length s.words.items ≡ 2 ^ 10 };
}

impl Sieve {
    /// No place.
    pub(crate) fn new(alloc: Global) -> Result<Self, AllocError> {
        Ok(Sieve {
            words: vec![in alloc; 0; WORDS]?,
        })
    }

    /// Sets a bit.
    fn set(&mut self, n: usize)
        requires { n < 2 ^ 16 }
        ensures here { is_set self.new n ≡ true }
        ensures kept { (other : ℕ) → is_set self.old other ≡ true → is_set self.new other ≡ true }
    {
        self.words[n / 64] |= 1u64 << (n % 64);
    }

    /// Whether the bit is set.
    #[inline(always)]
    fn is_set(&self, n: usize) -> bool
        requires { n < 2 ^ 16 }
        ensures { result ≡ is_set self.now n }
    {
        (self.words[n / 64] >> (n % 64)) & 1 == 1
    }

    /// Puts a place in.
    pub(crate) fn put(&mut self, place: usize)
        requires { place < 2 ^ 32 }
        ensures here { has_place self.new place ≡ true }
        ensures kept { (other : ℕ) → has_place self.old other ≡ true
            → has_place self.new other ≡ true }
    {
        self.set(place % (1 << 16));
        self.set(place >> 16);
    }

    /// Whether the place may be in: so it is wherever it was put in.
    #[inline(always)]
    pub(crate) fn has(&self, place: usize) -> bool
        requires { place < 2 ^ 32 }
        ensures { result ≡ has_place self.now place }
    {
        self.is_set(place % (1 << 16)) && self.is_set(place >> 16)
    }
}
