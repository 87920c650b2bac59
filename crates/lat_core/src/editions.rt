//! Editions of the lattice.

ghost use Rattle.std.specs.Prelude.{◌≡◌, length, Contains, SomeIff};
ghost use Rattle.lat_core.specs.Editions.{edition_of};

use ff_poly::{CHARACTERISTICS, Prime};

/// What a version of the lattice allows: its characteristics, and the greatest degree of a field.
#[derive(Clone, Copy, PartialEq, Eq, Debug)]
pub enum Edition {
    /// The 11 characteristics to 31, and degrees to 24.
    One,
    /// All 18 characteristics, and degrees to 48.
    Two,
}

impl Edition {
    /// How many characteristics it has: those are the first of the table.
    pub fn primes(self) -> u32
        ensures { result ≡ length (edition_of self).primes }
    {
        match self {
            Edition::One => 11,
            Edition::Two => 18,
        }
    }

    /// The greatest degree of a field.
    pub fn top(self) -> u32
        ensures { result ≡ (edition_of self).top }
    {
        match self {
            Edition::One => 24,
            Edition::Two => 48,
        }
    }

    /// The characteristics, in their order.
    pub fn characteristics(self) -> &'static [u32]
        ensures { result.now ≡ (edition_of self).primes }
    {
        match self {
            Edition::One => &CHARACTERISTICS[..11],
            Edition::Two => &CHARACTERISTICS,
        }
    }

    /// The number as a characteristic; None exactly where it is none of the edition.
    pub fn characteristic(self, p: u32) -> Option<Prime>
        ensures { SomeIff result (Contains (edition_of self).primes p) p }
    {
        if !self.characteristics().contains(&p) {
            return None;
        }
        Prime::of(p)
    }
}
