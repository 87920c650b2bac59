//! Sums and differences of polynomials.
ghost use Rattle.std.specs.Prelude.{◌≡◌};
ghost use Rattle.alg_model.specs.Polynomials.{poly_sum, poly_difference};
ghost use Rattle.alg_model.specs.Factors.{IsPolynomial};
ghost use Rattle.alg_model.specs.Maps.{field_values};

use crate::PolyX;
use crate::places::{add_multiple, padded};
use ff_field::Field;

impl PolyX {
    /// The sum `a + b`.
    pub fn add(field: &Field, a: &PolyX, b: &PolyX) -> PolyX
        requires first { IsPolynomial (field_values field.now) a.now }
        requires second { IsPolynomial (field_values field.now) b.now }
        ensures sum { result ≡ poly_sum (field_values field.now).ops a.now b.now }
        ensures valid { IsPolynomial (field_values field.now) result }
    {
        let _prime = field.prime();
        let (first, second) = (a.coefficients(), b.coefficients());
        let mut places = padded(field, first, first.len().max(second.len()));
        add_multiple(field, places.as_mut_slice(), 0, &field.one(), second);
        PolyX::of_values(field, places.as_slice())
    }

    /// The difference `a - b`.
    pub fn sub(field: &Field, a: &PolyX, b: &PolyX) -> PolyX
        requires first { IsPolynomial (field_values field.now) a.now }
        requires second { IsPolynomial (field_values field.now) b.now }
        ensures difference { result ≡ poly_difference (field_values field.now).ops a.now b.now }
        ensures valid { IsPolynomial (field_values field.now) result }
    {
        let _prime = field.prime();
        let (first, second) = (a.coefficients(), b.coefficients());
        let mut places = padded(field, first, first.len().max(second.len()));
        let minus_one = field.neg(&field.one());
        add_multiple(field, places.as_mut_slice(), 0, &minus_one, second);
        PolyX::of_values(field, places.as_slice())
    }
}
