//! Lists of residues as slices.
ghost use Rattle.std.specs.Prelude.{◌≡◌, ℕ, ◌+◌, ◌*◌, ◌%◌, ◌<◌, ◌≤◌, List, length, slice_index, All};
ghost use Rattle.alg_model.specs.Coefficients.{mod_ops};
ghost use Rattle.alg_model.specs.Polynomials.{trim};
ghost use Rattle.ff_poly.specs.Polynomial.{IsPoly};

use crate::{MAX_POLY, Poly, Prime};

/// No coefficients yet.
pub(crate) fn blank_places() -> [u8; MAX_POLY]
    ensures len { length result ≡ MAX_POLY }
    ensures blank { (k : ℕ) → slice_index result k ≡ 0 }
    ensures residues { (p : ℕ) → 0 < p → All (λ x. x < p) result }
{
    [0; MAX_POLY]
}

/// The coefficients `c`, with zeros after them.
pub(crate) fn places_of(c: &[u8]) -> [u8; MAX_POLY]
    requires { length c.now ≤ MAX_POLY }
    ensures len { length result ≡ MAX_POLY }
    ensures places { (k : ℕ) → slice_index result k ≡ slice_index c.now k }
    ensures residues { (p : ℕ) → 0 < p → All (λ x. x < p) c.now → All (λ x. x < p) result }
{
    let mut places = blank_places();
    for (i, x) in c.iter().enumerate() {
        places[i] = *x;
    }
    places
}

/// Adds `factor * x^at * b` to `places`.
#[inline(always)]
pub(crate) fn add_multiple(p: Prime, places: &mut [u8], at: usize, factor: u8, b: &[u8])
    requires room { at + length b.now ≤ length places.old }
    requires places { All (λ x. x < p) places.old }
    requires residues { All (λ x. x < p) b.now }
    requires factor { factor < p }
    ensures residues { All (λ x. x < p) places.new }
    ensures below { (k : ℕ) → k < at → slice_index places.new k ≡ slice_index places.old k }
    ensures above { (k : ℕ) → slice_index places.new (at + k)
        ≡ (slice_index places.old (at + k) + factor * slice_index b.now k) % p }
{
    let _number = p.number();
    for j in 0..b.len() {
        places[at + j] = p.reduced(places[at + j] as u16 + factor as u16 * b[j] as u16) as u8;
    }
}

/// The polynomial with the places as coefficients.
pub(crate) fn poly_of_places(p: Prime, places: &[u8]) -> Poly
    requires room { length places.now ≤ MAX_POLY }
    requires residues { All (λ x. x < p) places.now }
    ensures prime { result.prime ≡ p }
    ensures whole { IsPoly result }
    ensures residues { (k : ℕ) → slice_index result.coefficients k ≡ slice_index places.now k % p }
    ensures coefficients { (f : List ℕ) → ((k : ℕ) → slice_index places.now k % p ≡ slice_index f k)
        → result.coefficients ≡ trim (mod_ops p) f }
{
    let _number = p.number();
    Poly::trimmed(p, places)
}
