//! Division with remainder.
ghost use Rattle.std.specs.Prelude.{◌≡◌, ◌≢◌, ℕ, ◌+◌, ◌-◌, ◌<◌, ◌≤◌, [], length, slice_index_or, All};
ghost use Rattle.alg_model.specs.Polynomials.{sum, product, trim};
ghost use Rattle.alg_model.specs.Factors.{IsPolynomial, IsDivision};
ghost use Rattle.alg_model.specs.Maps.{field_values};

use crate::PolyX;
use crate::places::{add_multiple, padded};
use ff_field::{Field, Value};

impl PolyX {
    /// The quotient and the remainder of `a` by `d`, which isn't 0: the remainder has fewer
    /// coefficients than `d`.
    ///
    /// The division of polynomials from the highest place down (Knuth, The Art of Computer
    /// Programming 2, section 4.6.1, algorithm D).
    pub fn divrem(field: &Field, a: &PolyX, d: &PolyX) -> (PolyX, PolyX)
        requires dividend { IsPolynomial (field_values field.now) a.now }
        requires divisor { IsPolynomial (field_values field.now) d.now }
        requires not_zero { d.now ≢ [] }
        ensures division { IsDivision (field_values field.now) a.now d.now result.0 result.1 }
    {
        let _prime = field.prime();
        let (dividend, divisor) = (a.coefficients(), d.coefficients());
        let mut rest = padded(field, dividend, dividend.len());
        let steps = (dividend.len() + 1).saturating_sub(divisor.len());
        let mut quotient = padded(field, &[], steps);
        divide(field, rest.as_mut_slice(), quotient.as_mut_slice(), divisor);
        (
            PolyX::of_values(field, quotient.as_slice()),
            PolyX::of_values(field, rest.as_slice()),
        )
    }
}

// Takes multiples of d off the places in rest, the highest first, and notes their factors in
// quotient.
fn divide(field: &Field, rest: &mut [Value], quotient: &mut [Value], d: &[Value])
    requires divisor { 0 < length d.now }
    requires leading { slice_index_or d.now (length d.now - 1) (field_values field.now).ops.zero
        ≢ (field_values field.now).ops.zero }
    requires values { All (field_values field.now).Valid d.now }
    requires steps { length quotient.old ≡ length rest.old + 1 - length d.now }
    requires rest { All (field_values field.now).Valid rest.old }
    requires quotient { All (field_values field.now).Valid quotient.old }
    requires blank { let o = (field_values field.now).ops in
        (k : ℕ) → slice_index_or quotient.old k o.zero ≡ o.zero }
    ensures quotient_len { length quotient.new ≡ length quotient.old }
    ensures rest_len { length rest.new ≡ length rest.old }
    ensures quotient { All (field_values field.now).Valid quotient.new }
    ensures rest { All (field_values field.now).Valid rest.new }
    ensures smaller { let o = (field_values field.now).ops in
        (k : ℕ) → length d.now ≤ k + 1 → slice_index_or rest.new k o.zero ≡ o.zero }
    ensures division { let o = (field_values field.now).ops in
        trim o (sum o (product o quotient.new d.now) rest.new) ≡ trim o rest.old }
{
    let _prime = field.prime();
    let degree = d.len() - 1;
    let inverse = field.inverse(&d[degree]);
    let mut at = quotient.len();
    while at > 0 {
        at -= 1;
        let factor = field.mul(&rest[at + degree], &inverse);
        add_multiple(field, rest, at, &field.neg(&factor), d);
        quotient[at] = factor;
    }
}
