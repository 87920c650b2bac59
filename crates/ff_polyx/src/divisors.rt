//! Greatest common divisors.
ghost use Rattle.std.specs.Prelude.{◌≡◌, ◌≢◌, []};
ghost use Rattle.alg_model.specs.Factors.{IsPolynomial, IsGreatestCommonDivisor};
ghost use Rattle.alg_model.specs.Maps.{field_values};

use crate::PolyX;
use ff_field::Field;

impl PolyX {
    /// The greatest common divisor of `a` and `b`: monic, and 0 exactly where both are 0.
    ///
    /// Euclid's algorithm (Knuth, The Art of Computer Programming 2, section 4.6.1, algorithm E).
    pub fn gcd(field: &Field, a: &PolyX, b: &PolyX) -> PolyX
        requires first { IsPolynomial (field_values field.now) a.now }
        requires second { IsPolynomial (field_values field.now) b.now }
        ensures gcd { IsGreatestCommonDivisor (field_values field.now) a.now b.now result }
    {
        let _prime = field.prime();
        let mut first = a.copy();
        let mut second = b.copy();
        'euclid: while !second.is_zero() {
            let (_, rest) = PolyX::divrem(field, &first, &second);
            first = second;
            second = rest;
        }
        made_monic(field, &first)
    }
}

// a times the inverse of its last coefficient, which is the greatest common divisor with 0; 0 as it
// is.
fn made_monic(field: &Field, a: &PolyX) -> PolyX
    requires { IsPolynomial (field_values field.now) a.now }
    ensures { IsGreatestCommonDivisor (field_values field.now) a.now [] result }
{
    let _prime = field.prime();
    let coefficients = a.coefficients();
    if coefficients.is_empty() {
        return a.copy();
    }
    let inverse = field.inverse(&coefficients[coefficients.len() - 1]);
    PolyX::mul(field, &PolyX::of_values(field, &[inverse]), a)
}
