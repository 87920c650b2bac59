//! Powers modulo a polynomial.
ghost use Rattle.std.specs.Prelude.{◌≡◌, ℕ, ◌+◌, ◌<◌, ◌≤◌, List, length};
ghost use Rattle.alg_model.specs.Polynomials.{poly_product, poly_power};
ghost use Rattle.alg_model.specs.Factors.{IsPolynomial, IsDivision};
ghost use Rattle.alg_model.specs.Maps.{field_values};

use crate::PolyX;
use ff_field::Field;
use ff_poly::MAX_DEGREE;

impl PolyX {
    /// The remainder of the `e`-th power of `a` by `f`, whose degree is 1 to `MAX_DEGREE`; the
    /// power for `e = 0` is 1.
    ///
    /// By squaring, from the highest binary digit of `e` down (Knuth, The Art of Computer
    /// Programming 2, section 4.6.3).
    pub fn powmod(field: &Field, a: &PolyX, e: u64, f: &PolyX) -> PolyX
        requires base { IsPolynomial (field_values field.now) a.now }
        requires modulus { IsPolynomial (field_values field.now) f.now }
        requires not_constant { 1 < length f.now }
        requires room { length f.now ≤ MAX_DEGREE + 1 }
        ensures power { (q : List (List ℕ)) × IsDivision (field_values field.now)
            (poly_power (field_values field.now).ops a.now e) f.now q result }
    {
        let _prime = field.prime();
        let (_, base) = PolyX::divrem(field, a, f);
        power_of_reduced(field, &base, e, f)
    }
}

// The remainder of the power by f of what is shorter than f.
fn power_of_reduced(field: &Field, a: &PolyX, e: u64, f: &PolyX) -> PolyX
    requires base { IsPolynomial (field_values field.now) a.now }
    requires modulus { IsPolynomial (field_values field.now) f.now }
    requires not_constant { 1 < length f.now }
    requires room { length f.now ≤ MAX_DEGREE + 1 }
    requires reduced { length a.now < length f.now }
    ensures power { (q : List (List ℕ)) × IsDivision (field_values field.now)
        (poly_power (field_values field.now).ops a.now e) f.now q result }
{
    let _prime = field.prime();
    if e == 0 {
        return PolyX::of_values(field, &[field.one()]);
    }
    let root = power_of_reduced(field, a, e / 2, f);
    let square = mul_mod(field, &root, &root, f);
    if e % 2 == 1 {
        mul_mod(field, &square, a, f)
    } else {
        square
    }
}

// The remainder by f of a product of two that are shorter than f.
fn mul_mod(field: &Field, a: &PolyX, b: &PolyX, f: &PolyX) -> PolyX
    requires first { IsPolynomial (field_values field.now) a.now }
    requires second { IsPolynomial (field_values field.now) b.now }
    requires modulus { IsPolynomial (field_values field.now) f.now }
    requires room { length f.now ≤ MAX_DEGREE + 1 }
    requires first_reduced { length a.now < length f.now }
    requires second_reduced { length b.now < length f.now }
    ensures product { (q : List (List ℕ)) × IsDivision (field_values field.now)
        (poly_product (field_values field.now).ops a.now b.now) f.now q result }
{
    let (_, rest) = PolyX::divrem(field, &PolyX::mul(field, a, b), f);
    rest
}
