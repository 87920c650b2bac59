//! Parts of a polynomial that has as many roots as its degree: those of the roots at which another
//! polynomial has one value.
ghost use Rattle.std.specs.Prelude.{◌≡◌, ◌≢◌, ◌⊎◌, ℕ, ◌<◌, List, [], length, slice_index_or};
ghost use Rattle.alg_model.specs.Factors.{IsPolynomial, IsMonic, IsGreatestCommonDivisor};
ghost use Rattle.alg_model.specs.Maps.{field_values, constant};
ghost use Rattle.alg_fields.specs.Fixed.{less_constant};
ghost use Rattle.alg_splitting.specs.PrivateSearch.{Splits, IsConstantAtRoots};

use ff_field::{Field, Value};
use ff_polyx::PolyX;

// The root of a monic polynomial of degree 1.
pub(crate) fn linear_root(field: &Field, part: &PolyX) -> Value
    requires polynomial { IsPolynomial (field_values field.now) part.now }
    requires linear { length part.now ≡ 2 }
    ensures value { let o = (field_values field.now).ops in
        result ≡ o.neg (slice_index_or part.now 0 o.zero) }
    ensures valid { (field_values field.now).Valid result }
{
    let coefficients = part.coefficients();
    field.neg(&coefficients[0])
}

// The part of the roots at which the other polynomial is the constant c.
#[inline(never)]
pub(crate) fn part_at(field: &Field, part: &PolyX, trace: &PolyX, c: u8) -> PolyX
    requires part { IsPolynomial (field_values field.now) part.now }
    requires trace { IsPolynomial (field_values field.now) trace.now }
    requires residue { c < field.now.characteristic }
    ensures { IsGreatestCommonDivisor (field_values field.now) part.now
        (less_constant (field_values field.now).ops trace.now (constant field.now c)) result }
{
    let constant = PolyX::of_values(field, &[field.of_residue(c)]);
    PolyX::gcd(field, part, &PolyX::sub(field, trace, &constant))
}

// The first of these parts that has a root; where the other polynomial is a constant, the part
// itself.
#[inline(never)]
pub(crate) fn first_part(field: &Field, part: &PolyX, trace: &PolyX) -> PolyX
    requires splits { Splits field.now part.now }
    requires not_constant { 1 < length part.now }
    requires trace { IsPolynomial (field_values field.now) trace.now }
    requires constants { IsConstantAtRoots field.now part.now trace.now }
    ensures not_constant { 1 < length result }
    ensures part { ((length trace.now < 2) × (result ≡ part.now))
        ⊎ ((c : ℕ) × (c < field.now.characteristic)
        × IsGreatestCommonDivisor (field_values field.now) part.now
        (less_constant (field_values field.now).ops trace.now (constant field.now c)) result) }
{
    let _prime = field.prime();
    if trace.coefficients().len() < 2 {
        return part.copy();
    }
    for c in 0..field.prime().number() {
        let next = part_at(field, part, trace, c);
        if next.coefficients().len() > 1 {
            return next;
        }
    }
    unreachable!()
}
