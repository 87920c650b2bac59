//! Derivatives of polynomials.
ghost use Rattle.std.specs.Prelude.{◌≡◌, ℕ, ◌+◌, ◌*◌, ◌%◌, ◌<◌, ◌≤◌, All, length, slice_index};
ghost use Rattle.alg_model.specs.Coefficients.{mod_ops};
ghost use Rattle.alg_model.specs.Polynomials.{derivative};

use crate::places::{blank_places, poly_of_places};
use crate::{MAX_POLY, Poly, Prime};

impl Poly {
    /// The derivative.
    pub fn derivative(&self) -> Poly
        ensures prime { result.prime ≡ self.now.prime }
        ensures derivative { result.coefficients
            ≡ derivative (mod_ops self.now.prime) self.now.coefficients }
    {
        let coefficients = self.coefficients();
        let p = self.prime();
        let places = derivative_places(p, coefficients);
        let len = coefficients.len().saturating_sub(1);
        poly_of_places(p, &places[..len])
    }
}

// The coefficients of the derivative.
fn derivative_places(p: Prime, c: &[u8]) -> [u8; MAX_POLY]
    requires room { length c.now ≤ MAX_POLY }
    requires residues { All (λ x. x < p) c.now }
    ensures len { length result ≡ MAX_POLY }
    ensures residues { All (λ x. x < p) result }
    ensures places { (k : ℕ) → slice_index result k ≡ ((k + 1) * slice_index c.now (k + 1)) % p }
{
    let _number = p.number();
    let mut places = blank_places();
    for k in 1..c.len() {
        places[k - 1] = p.reduced(k as u16 * c[k] as u16) as u8;
    }
    places
}
