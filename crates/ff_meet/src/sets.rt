//! Sets of degrees.
ghost use Rattle.std.specs.Prelude.{◌≡◌, ℕ, ◌+◌, ◌<◌, ◌≤◌, ◌↔◌, List, Bool, false, length, All, Contains, IsTrue, slice_index_or};
ghost use Rattle.ff_meet.specs.Degrees.{Holds, InClosure, IsDegreeSet};
ghost use Rattle.ff_meet.specs.PrivateCommon.{IsCommon};

use crate::gcds::gcd;
use ff_poly::MAX_DEGREE;
use std::marker::Model;

// Degrees are places of a table.
const PLACES: usize = MAX_DEGREE + 1;

/// A set of numbers from 1 to `MAX_DEGREE`.
#[derive(Clone, Copy)]
pub struct DegreeSet {
    held: [bool; PLACES],
}

impl Model for DegreeSet {
    ghost use Rattle.std.specs.Prelude.{List, Bool};
    ghost use Rattle.ff_meet.specs.Degrees.{IsDegreeSet};

    ghost Value = { List Bool };

    ghost view = { λ a. a.held };

    ghost invariant = { λ a. IsDegreeSet a.held };

    ghost inverse = { λ s. record { held = s } };
}

impl DegreeSet {
    /// The set of these degrees, each from 1 to `MAX_DEGREE`.
    pub fn of(degrees: &[u32]) -> DegreeSet
        requires { All (λ d. (0 < d) × (d ≤ MAX_DEGREE)) degrees.now }
        ensures { (d : ℕ) → Holds result d ↔ Contains degrees.now d }
    {
        let mut held = nothing();
        for d in degrees {
            held[*d as usize] = true;
        }
        DegreeSet { held }
    }

    /// Whether the set holds `d`.
    pub fn holds(&self, d: u32) -> bool
        ensures { IsTrue result ↔ Holds self.now d }
    {
        (d as usize) < PLACES && self.held[d as usize]
    }

    /// The least set that holds the degrees of this one, and with any two of its own their greatest
    /// common divisor.
    pub fn closure(&self) -> DegreeSet
        ensures { (d : ℕ) → Holds result d ↔ InClosure self.now d }
    {
        // A degree stands in it where it is the greatest common divisor of the members that it
        // divides.
        let _held = &self.held;
        let mut held = nothing();
        for d in 1..PLACES {
            held[d] = self.common(d) == d;
        }
        DegreeSet { held }
    }

    /// The degrees of the closure that this set doesn't hold.
    pub fn missing(&self) -> DegreeSet
        ensures { (d : ℕ) → Holds result d ↔ (InClosure self.now d × (Holds self.now d → ⊥)) }
    {
        let closure = self.closure();
        let mut held = nothing();
        for d in 1..PLACES {
            held[d] = closure.held[d] && !self.held[d];
        }
        DegreeSet { held }
    }

    // The greatest common divisor of the members that d divides; 0 where it divides none.
    fn common(&self, d: usize) -> usize
        requires { (0 < d) × (d ≤ MAX_DEGREE) }
        ensures { IsCommon self.now d result }
    {
        let mut common = 0;
        for e in 1..PLACES {
            if self.held[e] && e % d == 0 {
                common = gcd(common, e);
            }
        }
        common
    }
}

// A table that holds no degree.
fn nothing() -> [bool; PLACES]
    ensures count { length result ≡ MAX_DEGREE + 1 }
    ensures none { (d : ℕ) → Holds result d → ⊥ }
{
    [false; PLACES]
}
