//! Sets of locations.

ghost use Rattle.std.specs.Prelude.{◌≡◌, ◌≢◌, ◌<◌, ℕ, true, false};
ghost use Rattle.ags_recheck.specs.Locations.{has_location};

use std::marker::Model;

/// A set of locations, a bit for each.
#[derive(Drop)]
pub struct Locations {
    words: [u64; 64],
}

impl Model for Locations {
    ghost use Rattle.std.specs.Prelude.{◌≡◌, ℕ, List, length};

    ghost Value = { List ℕ };

    ghost view = { λ locations. locations.words };

    ghost invariant = { λ locations. length locations.words ≡ 64 };
}

impl Locations {
    /// The set of no location.
    pub(crate) fn new() -> Locations
        ensures { (location : ℕ) → has_location result location ≡ false }
    {
        Locations { words: [0; 64] }
    }

    /// Whether the set has a location.
    pub(crate) fn has(&self, location: u16) -> bool
        requires { location < 4096 }
        ensures { result ≡ has_location self.now location }
    {
        let word = self.words[(location / 64) as usize];
        (word >> (location % 64)) & 1 == 1
    }

    /// Puts a location into the set.
    pub(crate) fn note(&mut self, location: u16)
        requires { location < 4096 }
        ensures here { has_location self.new location ≡ true }
        ensures others { (other : ℕ) → other ≢ location → has_location self.new other ≡ has_location self.old other }
    {
        let position = (location / 64) as usize;
        self.words[position] = self.words[position] | (1 << (location % 64));
    }

    /// Empties the set.
    pub(crate) fn clear(&mut self)
        ensures { (location : ℕ) → has_location self.new location ≡ false }
    {
        self.words.fill(0);
    }
}
