//! Powers modulo a polynomial.
ghost use Rattle.std.specs.Prelude.{◌≡◌, ℕ, ◌+◌, ◌/◌, ◌<◌, ◌≤◌, List, length};
ghost use Rattle.alg_model.specs.Coefficients.{mod_ops, residues};
ghost use Rattle.alg_model.specs.Polynomials.{poly_product, poly_power};
ghost use Rattle.alg_model.specs.Factors.{IsDivision};

use crate::{MAX_POLY, Poly};

impl Poly {
    /// The remainder of the `e`-th power by `f`, whose degree is 1 to `MAX_POLY / 2`; the power for
    /// `e = 0` is 1.
    ///
    /// By squaring, from the highest binary digit of `e` down (Knuth, The Art of Computer
    /// Programming 2, section 4.6.3).
    pub fn powmod(&self, e: u64, f: &Poly) -> Poly
        requires same_prime { self.now.prime ≡ f.now.prime }
        requires not_constant { 1 < length f.now.coefficients }
        requires room { length f.now.coefficients ≤ MAX_POLY / 2 + 1 }
        ensures prime { result.prime ≡ self.now.prime }
        ensures power { (q : List ℕ) × IsDivision (residues self.now.prime)
            (poly_power (mod_ops self.now.prime) self.now.coefficients e) f.now.coefficients q
            result.coefficients }
    {
        let (_, base) = self.divrem(f);
        base.power_of_reduced(e, f)
    }

    // The remainder of the power by f of what is shorter than f.
    fn power_of_reduced(&self, e: u64, f: &Poly) -> Poly
        requires same_prime { self.now.prime ≡ f.now.prime }
        requires not_constant { 1 < length f.now.coefficients }
        requires room { length f.now.coefficients ≤ MAX_POLY / 2 + 1 }
        requires reduced { length self.now.coefficients < length f.now.coefficients }
        ensures prime { result.prime ≡ self.now.prime }
        ensures power { (q : List ℕ) × IsDivision (residues self.now.prime)
            (poly_power (mod_ops self.now.prime) self.now.coefficients e) f.now.coefficients q
            result.coefficients }
    {
        let p = self.prime();
        let _same = f.prime();
        if e == 0 {
            return Poly::trimmed(p, &[1]);
        }
        let root = self.power_of_reduced(e / 2, f);
        let square = root.mul_mod(&root, f);
        if e % 2 == 1 {
            square.mul_mod(self, f)
        } else {
            square
        }
    }

    // The remainder by f of a product of two that are shorter than f.
    fn mul_mod(&self, b: &Poly, f: &Poly) -> Poly
        requires same_prime { (self.now.prime ≡ b.now.prime) × (self.now.prime ≡ f.now.prime) }
        requires room { length f.now.coefficients ≤ MAX_POLY / 2 + 1 }
        requires first { length self.now.coefficients < length f.now.coefficients }
        requires second { length b.now.coefficients < length f.now.coefficients }
        ensures prime { result.prime ≡ self.now.prime }
        ensures product { (q : List ℕ) × IsDivision (residues self.now.prime)
            (poly_product (mod_ops self.now.prime) self.now.coefficients b.now.coefficients)
            f.now.coefficients q
            result.coefficients }
    {
        let (_, rest) = self.mul(b).divrem(f);
        rest
    }
}
