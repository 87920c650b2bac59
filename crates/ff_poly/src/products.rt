//! Products of polynomials.
ghost use Rattle.std.specs.Prelude.{◌≡◌, ℕ, ◌+◌, ◌%◌, ◌<◌, ◌≤◌, All, length, slice_index};
ghost use Rattle.ff_poly.specs.Polynomial.{IsPoly};
ghost use Rattle.alg_model.specs.Coefficients.{mod_ops};
ghost use Rattle.alg_model.specs.Polynomials.{product, poly_product};

use crate::places::poly_of_places;
use crate::rows::{add_shifted, blank_row, padded};
use crate::{MAX_POLY, Poly, Prime};
use ff_residues::Sums;

impl Poly {
    /// The product.
    ///
    /// The factors have together at most `MAX_POLY + 1` coefficients, so that their product has at
    /// most `MAX_POLY`.
    pub fn mul(&self, b: &Poly) -> Poly
        requires same_prime { self.now.prime ≡ b.now.prime }
        requires room { length self.now.coefficients + length b.now.coefficients ≤ MAX_POLY + 1 }
        ensures prime { result.prime ≡ self.now.prime }
        ensures product { result.coefficients
            ≡ poly_product (mod_ops self.now.prime) self.now.coefficients b.now.coefficients }
    {
        product_of(self.prime(), self.coefficients(), b.coefficients())
    }
}

// The product of the polynomials with these coefficients, in rows as wide as it needs.
fn product_of(p: Prime, a: &[u8], b: &[u8]) -> Poly
    requires room { length a.now + length b.now ≤ MAX_POLY + 1 }
    requires fits { (length a.now ≤ MAX_POLY) × (length b.now ≤ MAX_POLY) }
    requires first { All (λ x. x < p) a.now }
    requires second { All (λ x. x < p) b.now }
    ensures prime { result.prime ≡ p }
    ensures whole { IsPoly result }
    ensures product { result.coefficients ≡ poly_product (mod_ops p) a.now b.now }
{
    let total = a.len() + b.len();
    if total <= 16 {
        product_in::<16, 32>(p, a, b)
    } else if total <= 32 {
        product_in::<32, 64>(p, a, b)
    } else if total <= 64 {
        product_in::<64, 128>(p, a, b)
    } else {
        product_in::<128, 256>(p, a, b)
    }
}

// The same in rows of W numbers.
fn product_in<const W: usize, const D: usize>(p: Prime, a: &[u8], b: &[u8]) -> Poly
    requires width { W ≤ MAX_POLY }
    requires sizes { D ≡ W + W }
    requires room { length a.now + length b.now ≤ W + 1 }
    requires fits { (length a.now ≤ W) × (length b.now ≤ W) }
    requires first { All (λ x. x < p) a.now }
    requires second { All (λ x. x < p) b.now }
    ensures prime { result.prime ≡ p }
    ensures whole { IsPoly result }
    ensures product { result.coefficients ≡ poly_product (mod_ops p) a.now b.now }
{
    let places = product_places::<W, D>(p, a, b);
    let len = (a.len() + b.len()).saturating_sub(1);
    poly_of_places(p, &places[..len])
}

// The coefficients of the product.
#[inline(always)]
fn product_places<const W: usize, const D: usize>(p: Prime, a: &[u8], b: &[u8]) -> [u8; W]
    requires width { W ≤ MAX_POLY }
    requires sizes { D ≡ W + W }
    requires room { length a.now + length b.now ≤ W + 1 }
    requires fits { (length a.now ≤ W) × (length b.now ≤ W) }
    requires first { All (λ x. x < p) a.now }
    requires second { All (λ x. x < p) b.now }
    ensures len { length result ≡ W }
    ensures residues { All (λ x. x < p) result }
    ensures places { (k : ℕ)
        → slice_index result k % p ≡ slice_index (product (mod_ops p) a.now b.now) k }
{
    let _number = p.number();
    let padded = padded::<W, D>(p, b);
    let mut sums = Sums::of(p, &blank_row::<W>());
    for (i, x) in a.iter().enumerate() {
        add_shifted(p, &mut sums, *x, &padded, i);
    }
    sums.row()
}
