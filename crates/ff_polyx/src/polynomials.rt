//! Polynomials over a finite field.
ghost use Rattle.std.specs.Prelude.{◌≡◌, ◌↔◌, ◌≤◌, [], length, take, All, IsTrue};
ghost use Rattle.alg_model.specs.Polynomials.{trim};
ghost use Rattle.alg_model.specs.Factors.{IsPolynomial};
ghost use Rattle.alg_model.specs.Maps.{field_values};

use ff_field::{Field, Value};
use ff_lists::BoundedList;
use ff_poly::MAX_POLYX;
use std::marker::Model;

/// A polynomial over a finite field, of at most `MAX_POLYX` coefficients.
///
/// It doesn't know its field: each call takes the field, and requires that the polynomials are over
/// it.
#[derive(Drop)]
pub struct PolyX {
    coefficients: BoundedList<Value, MAX_POLYX>,
}

impl Model for PolyX {
    ghost use Rattle.std.specs.Prelude.{ℕ, List};

    ghost Value = { List (List ℕ) };

    ghost view = { λ a. a.coefficients };
}

impl Default for PolyX {
    /// The zero polynomial.
    fn default() -> PolyX
        ensures { result ≡ [] }
    {
        PolyX {
            coefficients: BoundedList::new(),
        }
    }
}

impl PolyX {
    /// The polynomial with the coefficients `c`, lowest first; zeros at the end are dropped.
    pub fn of_values(field: &Field, c: &[Value]) -> PolyX
        requires room { length c.now ≤ MAX_POLYX }
        requires values { All (field_values field.now).Valid c.now }
        ensures coefficients { result ≡ trim (field_values field.now).ops c.now }
        ensures valid { IsPolynomial (field_values field.now) result }
    {
        let _prime = field.prime();
        PolyX {
            coefficients: BoundedList::of(&c[..trimmed_len(field, c)]),
        }
    }

    /// The coefficients, lowest first; of a polynomial over a field the last one isn't zero there.
    pub fn coefficients(&self) -> &[Value]
        ensures value { result.now ≡ self.now }
        ensures whole { length self.now ≤ MAX_POLYX }
    {
        self.coefficients.items()
    }

    /// An equal polynomial.
    pub fn copy(&self) -> PolyX
        ensures { result ≡ self.now }
    {
        PolyX {
            coefficients: self.coefficients.copy(),
        }
    }

    /// Whether this is the zero polynomial.
    pub fn is_zero(&self) -> bool
        ensures { IsTrue result ↔ (self.now ≡ []) }
    {
        self.coefficients().is_empty()
    }
}

// How many coefficients are left without the zeros at the end.
fn trimmed_len(field: &Field, c: &[Value]) -> usize
    requires { All (field_values field.now).Valid c.now }
    ensures fits { result ≤ length c.now }
    ensures trimmed { take result c.now ≡ trim (field_values field.now).ops c.now }
{
    let _prime = field.prime();
    let mut n = c.len();
    while n > 0 {
        if !field.is_zero(&c[n - 1]) {
            return n;
        }
        n -= 1;
    }
    0
}
