//! Sums and differences of polynomials.
ghost use Rattle.std.specs.Prelude.{◌≡◌};
ghost use Rattle.alg_model.specs.Coefficients.{mod_ops};
ghost use Rattle.alg_model.specs.Polynomials.{poly_sum, poly_difference};

use crate::Poly;
use crate::places::{add_multiple, places_of, poly_of_places};

impl Poly {
    /// The sum.
    pub fn add(&self, b: &Poly) -> Poly
        requires { self.now.prime ≡ b.now.prime }
        ensures prime { result.prime ≡ self.now.prime }
        ensures sum { result.coefficients
            ≡ poly_sum (mod_ops self.now.prime) self.now.coefficients b.now.coefficients }
    {
        let p = self.prime();
        let (first, second) = (self.coefficients(), b.coefficients());
        let mut places = places_of(first);
        add_multiple(p, &mut places, 0, 1, second);
        let len = first.len().max(second.len());
        poly_of_places(p, &places[..len])
    }

    /// The difference.
    pub fn sub(&self, b: &Poly) -> Poly
        requires { self.now.prime ≡ b.now.prime }
        ensures prime { result.prime ≡ self.now.prime }
        ensures difference { result.coefficients
            ≡ poly_difference (mod_ops self.now.prime) self.now.coefficients b.now.coefficients }
    {
        let p = self.prime();
        let (first, second) = (self.coefficients(), b.coefficients());
        let mut places = places_of(first);
        add_multiple(p, &mut places, 0, p.number() - 1, second);
        let longest = first.len().max(second.len());
        poly_of_places(p, &places[..longest])
    }
}
