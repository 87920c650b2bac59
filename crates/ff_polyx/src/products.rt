//! Products of polynomials.
ghost use Rattle.std.specs.Prelude.{◌≡◌, ℕ, ◌+◌, ◌≤◌, length, slice_index_or, All};
ghost use Rattle.alg_model.specs.Polynomials.{product, poly_product};
ghost use Rattle.alg_model.specs.Factors.{IsPolynomial};
ghost use Rattle.alg_model.specs.Maps.{field_values};

use crate::PolyX;
use crate::places::{add_multiple, padded};
use ff_field::{Field, Value};
use ff_poly::MAX_POLYX;

impl PolyX {
    /// The product `a * b`.
    ///
    /// The factors have together at most `MAX_POLYX + 1` coefficients, so that their product has at
    /// most `MAX_POLYX`.
    pub fn mul(field: &Field, a: &PolyX, b: &PolyX) -> PolyX
        requires first { IsPolynomial (field_values field.now) a.now }
        requires second { IsPolynomial (field_values field.now) b.now }
        requires room { length a.now + length b.now ≤ MAX_POLYX + 1 }
        ensures product { result ≡ poly_product (field_values field.now).ops a.now b.now }
        ensures valid { IsPolynomial (field_values field.now) result }
    {
        let _prime = field.prime();
        let (first, second) = (a.coefficients(), b.coefficients());
        let len = (first.len() + second.len()).saturating_sub(1);
        let mut places = padded(field, &[], len);
        add_product(field, places.as_mut_slice(), first, second);
        PolyX::of_values(field, places.as_slice())
    }
}

// Adds a * b to places that are zero.
fn add_product(field: &Field, places: &mut [Value], a: &[Value], b: &[Value])
    requires room { length a.now + length b.now ≤ length places.old + 1 }
    requires places { All (field_values field.now).Valid places.old }
    requires first { All (field_values field.now).Valid a.now }
    requires second { All (field_values field.now).Valid b.now }
    requires blank { let o = (field_values field.now).ops in
        (k : ℕ) → slice_index_or places.old k o.zero ≡ o.zero }
    ensures len { length places.new ≡ length places.old }
    ensures values { All (field_values field.now).Valid places.new }
    ensures product { let o = (field_values field.now).ops in
        (k : ℕ) → slice_index_or places.new k o.zero
        ≡ slice_index_or (product o a.now b.now) k o.zero }
{
    let _prime = field.prime();
    let mut i = a.len();
    while i > 0 {
        i -= 1;
        add_multiple(field, places, i, &a[i], b);
    }
}
