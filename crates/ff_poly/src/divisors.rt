//! Greatest common divisors, and how they combine two polynomials.
ghost use Rattle.std.specs.Prelude.{◌≡◌, ◌≢◌, ℕ, ◌+◌, ◌-◌, ◌<◌, ◌≤◌, max, List, [], ◌∷◌, length, take, All};
ghost use Rattle.alg_model.specs.Coefficients.{mod_ops, residues};
ghost use Rattle.alg_model.specs.Polynomials.{trim, poly_sum, poly_difference, poly_product, leading};
ghost use Rattle.alg_model.specs.Factors.{IsPolynomial, IsDivision, IsGreatestCommonDivisor};
ghost use Rattle.ff_poly.specs.PrivateDivisors.{IsNormalizer, IsRowOf};
ghost use Rattle.ff_poly.specs.Polynomial.{IsPoly};
ghost use Rattle.ff_poly.specs.Cofactors.{IsCofactor};

use crate::cofactors::{bezout_of, cofactor_of, divided};
use crate::polynomials::trimmed_len;
use crate::rows::row_of;
use crate::{MAX_POLY, Poly, Prime};

/// The greatest common divisor `g` of two polynomials `a` and `b`, with `u * a + w * b = g`.
#[derive(Drop)]
pub struct Bezout {
    /// The greatest common divisor.
    pub g: Poly,

    /// The factor of the first polynomial.
    pub u: Poly,

    /// The factor of the second polynomial.
    pub w: Poly,
}

impl Poly {
    /// The greatest common divisor: monic, and 0 exactly where both are 0.
    ///
    /// Euclid's algorithm (Knuth, The Art of Computer Programming 2, section 4.6.1, algorithm E).
    pub fn gcd(&self, b: &Poly) -> Poly
        requires { self.now.prime ≡ b.now.prime }
        ensures prime { result.prime ≡ self.now.prime }
        ensures gcd { IsGreatestCommonDivisor (residues self.now.prime) self.now.coefficients
            b.now.coefficients
            result.coefficients }
    {
        gcd_of(self.prime(), self.coefficients(), b.coefficients())
    }

    /// The greatest common divisor of this as `a` and of `b`, and how they combine to it: `u * a +
    /// w * b = g`.
    ///
    /// The extended algorithm of Euclid: each remainder is kept with its own `u` and `w`. They are
    /// short: `u` has no more coefficients than `b` has beyond those of `g`, or it is a constant,
    /// and so has `w` for `a`.
    pub fn bezout(&self, b: &Poly) -> Bezout
        requires same_prime { self.now.prime ≡ b.now.prime }
        requires not_both_zero { 0 < length self.now.coefficients + length b.now.coefficients }
        ensures primes { (result.g.prime ≡ self.now.prime) × (result.u.prime ≡ self.now.prime)
            × (result.w.prime ≡ self.now.prime) }
        ensures gcd { IsGreatestCommonDivisor (residues self.now.prime) self.now.coefficients
            b.now.coefficients
            result.g.coefficients }
        ensures identity { let o = mod_ops self.now.prime in
            poly_sum o (poly_product o result.u.coefficients self.now.coefficients)
            (poly_product o result.w.coefficients b.now.coefficients) ≡ result.g.coefficients }
        ensures first_short { length result.u.coefficients
            ≤ max 1 (length b.now.coefficients - length result.g.coefficients) }
        ensures second_short { length result.w.coefficients
            ≤ max 1 (length self.now.coefficients - length result.g.coefficients) }
    {
        bezout_of(self.prime(), self.coefficients(), b.coefficients())
    }

    /// The factor `u` of this as `a` for which `u * a + w * b = g`, with some `w` and the greatest
    /// common divisor `g` of `a` and `b`.
    ///
    /// As `bezout`, without the factor of `b`: where `g` is 1, `u` is the inverse of `a` modulo `b`.
    pub fn cofactor(&self, b: &Poly) -> Poly
        requires same_prime { self.now.prime ≡ b.now.prime }
        requires not_both_zero { 0 < length self.now.coefficients + length b.now.coefficients }
        ensures prime { result.prime ≡ self.now.prime }
        ensures cofactor { IsCofactor self.now.prime self.now.coefficients b.now.coefficients
            result.coefficients }
    {
        cofactor_of(self.prime(), self.coefficients(), b.coefficients())
    }

    // This times the inverse of its last coefficient, which is the greatest common divisor with 0;
    // 0 as it is.
    fn made_monic(&self) -> Poly
        ensures prime { result.prime ≡ self.now.prime }
        ensures gcd { IsGreatestCommonDivisor (residues self.now.prime) self.now.coefficients []
            result.coefficients }
    {
        if self.coefficients().is_empty() {
            return self.copy();
        }
        self.normalizer().mul(self)
    }

    // The constant by which this is to be multiplied to become monic.
    pub(crate) fn normalizer(&self) -> Poly
        requires { self.now.coefficients ≢ [] }
        ensures prime { result.prime ≡ self.now.prime }
        ensures whole { IsPoly self.now }
        ensures short { length result.coefficients ≤ 1 }
        ensures normalizer { IsNormalizer self.now.prime self.now.coefficients result.coefficients }
    {
        let p = self.prime();
        let coefficients = self.coefficients();
        let inverse = p.inv(coefficients[coefficients.len() - 1]);
        Poly::trimmed(p, &[inverse])
    }
}

// The greatest common divisor of the polynomials with these coefficients, in rows as wide as the
// longer.
fn gcd_of(p: Prime, a: &[u8], b: &[u8]) -> Poly
    requires room { (length a.now ≤ MAX_POLY) × (length b.now ≤ MAX_POLY) }
    requires first { IsPolynomial (residues p) a.now }
    requires second { IsPolynomial (residues p) b.now }
    ensures prime { result.prime ≡ p }
    ensures gcd { IsGreatestCommonDivisor (residues p) a.now b.now result.coefficients }
{
    let len = a.len().max(b.len());
    if len <= 16 {
        gcd_in::<16, 32>(p, a, b)
    } else if len <= 32 {
        gcd_in::<32, 64>(p, a, b)
    } else if len <= 64 {
        gcd_in::<64, 128>(p, a, b)
    } else {
        gcd_in::<128, 256>(p, a, b)
    }
}

// The same in two rows of W numbers.
fn gcd_in<const W: usize, const D: usize>(p: Prime, a: &[u8], b: &[u8]) -> Poly
    requires width { W ≤ MAX_POLY }
    requires sizes { D ≡ W + W }
    requires room { (length a.now ≤ W) × (length b.now ≤ W) }
    requires first { IsPolynomial (residues p) a.now }
    requires second { IsPolynomial (residues p) b.now }
    ensures prime { result.prime ≡ p }
    ensures gcd { IsGreatestCommonDivisor (residues p) a.now b.now result.coefficients }
{
    let _number = p.number();
    let mut first = row_of::<W>(a);
    let mut second = row_of::<W>(b);
    let (mut m, mut n) = (a.len(), b.len());
    'euclid: while n > 0 {
        let (_, rest) = divided::<W, D>(p, &first, m, &second, n);
        first = second;
        m = n;
        n = trimmed_len(&rest);
        second = rest;
    }
    Poly::trimmed(p, &first).made_monic()
}

impl Bezout {
    // The monic multiple, with the same multiple of what it is made of.
    pub(crate) fn made_monic(&self) -> Bezout
        requires primes { (self.now.u.prime ≡ self.now.g.prime)
            × (self.now.w.prime ≡ self.now.g.prime) }
        requires not_zero { self.now.g.coefficients ≢ [] }
        requires room { (length self.now.u.coefficients ≤ MAX_POLY)
            × (length self.now.w.coefficients ≤ MAX_POLY) }
        ensures primes { (result.g.prime ≡ self.now.g.prime) × (result.u.prime ≡ self.now.g.prime)
            × (result.w.prime ≡ self.now.g.prime) }
        ensures multiple { let o = mod_ops self.now.g.prime in
            (k : List ℕ) × IsNormalizer self.now.g.prime self.now.g.coefficients k × (length k ≤ 1)
            × (result.g.coefficients ≡ poly_product o k self.now.g.coefficients)
            × (result.u.coefficients ≡ poly_product o k self.now.u.coefficients)
            × (result.w.coefficients ≡ poly_product o k self.now.w.coefficients) }
    {
        let k = self.g.normalizer();
        Bezout {
            g: k.mul(&self.g),
            u: k.mul(&self.u),
            w: k.mul(&self.w),
        }
    }
}
