//! How remainders of Euclid's algorithm combine two polynomials, in rows.
ghost use Rattle.std.specs.Prelude.{◌≡◌, ℕ, ◌+◌, ◌-◌, ◌%◌, ◌<◌, ◌≤◌, max, List, length, slice_index, take, All};
ghost use Rattle.alg_model.specs.Coefficients.{mod_ops, residues};
ghost use Rattle.alg_model.specs.Polynomials.{trim, product, poly_sum, poly_difference, poly_product};
ghost use Rattle.alg_model.specs.Factors.{IsPolynomial, IsDivision, IsGreatestCommonDivisor};
ghost use Rattle.ff_poly.specs.PrivateDivisors.{IsRowOf};
ghost use Rattle.ff_poly.specs.Cofactors.{IsCofactor};

use crate::division::divide;
use crate::polynomials::trimmed_len;
use crate::rows::{add_shifted, blank_row, padded, row_of};
use crate::{Bezout, MAX_POLY, Poly, Prime};
use ff_residues::Sums;

// Quotient and remainder of the first polynomial, of m coefficients, by the second, of n.
#[inline(always)]
pub(crate) fn divided<const W: usize, const D: usize>(
    p: Prime,
    first: &[u8; W],
    m: usize,
    second: &[u8; W],
    n: usize,
) -> ([u8; W], [u8; W])
    requires width { W ≤ MAX_POLY }
    requires sizes { D ≡ W + W }
    requires first { IsRowOf W p first.now m }
    requires second { IsRowOf W p second.now n }
    requires not_zero { 0 < n }
    ensures len { (length result.0 ≡ W) × (length result.1 ≡ W) }
    ensures residues { All (λ x. x < p) result.0 × All (λ x. x < p) result.1 }
    ensures short { (k : ℕ) → m + 1 - n ≤ k → slice_index result.0 k ≡ 0 }
    ensures division { IsDivision (residues p) (take m first.now) (take n second.now)
        (trim (mod_ops p) result.0) (trim (mod_ops p) result.1) }
{
    let _number = p.number();
    let mut rest = *first;
    let mut quotient = blank_row::<W>();
    divide::<W, D>(
        p,
        &mut rest,
        &mut quotient,
        &second[..n],
        (m + 1).saturating_sub(n),
    );
    (quotient, rest)
}

// The row less the product of the polynomials with these coefficients, all of whose places stand
// in it.
#[inline(always)]
fn less_product<const W: usize, const D: usize>(
    p: Prime,
    row: &[u8; W],
    factors: &[u8],
    c: &[u8; W],
) -> [u8; W]
    requires width { W ≤ MAX_POLY }
    requires sizes { D ≡ W + W }
    requires row { All (λ x. x < p) row.now }
    requires few { length factors.now ≤ W }
    requires factors { All (λ x. x < p) factors.now }
    requires residues { All (λ x. x < p) c.now }
    requires past { (k : ℕ) → W ≤ k → slice_index (product (mod_ops p) factors.now c.now) k ≡ 0 }
    ensures len { length result ≡ W }
    ensures residues { All (λ x. x < p) result }
    ensures places { (k : ℕ)
        → (slice_index (product (mod_ops p) factors.now c.now) k + slice_index result k) % p
        ≡ slice_index row.now k % p }
{
    let _number = p.number();
    let padded = padded::<W, D>(p, c);
    let mut sums = Sums::of(p, row);
    for (i, x) in factors.iter().enumerate() {
        add_shifted(p, &mut sums, p.neg(*x), &padded, i);
    }
    sums.row()
}

// What the next remainder is made of: what the one before the last is made of, less the quotient
// times what the last one is made of.
#[inline(always)]
fn next_factor<const W: usize, const D: usize>(
    p: Prime,
    u: &[u8; W],
    quotient: &[u8; W],
    steps: usize,
    v: &[u8; W],
) -> [u8; W]
    requires width { W ≤ MAX_POLY }
    requires sizes { D ≡ W + W }
    requires first { All (λ x. x < p) u.now }
    requires second { All (λ x. x < p) v.now }
    requires quotient { All (λ x. x < p) quotient.now }
    requires few { steps ≤ W }
    requires short { (k : ℕ) → steps ≤ k → slice_index quotient.now k ≡ 0 }
    requires room { steps + length (trim (mod_ops p) v.now) ≤ W + 1 }
    ensures len { length result ≡ W }
    ensures residues { All (λ x. x < p) result }
    ensures difference { let o = mod_ops p in trim o result
        ≡ poly_difference o (trim o u.now) (poly_product o (trim o quotient.now) (trim o v.now)) }
{
    let _number = p.number();
    less_product::<W, D>(p, u, &quotient[..steps], v)
}

// The factor of the first polynomial for the greatest common divisor, in rows as wide as the
// longer.
pub(crate) fn cofactor_of(p: Prime, a: &[u8], b: &[u8]) -> Poly
    requires room { (length a.now ≤ MAX_POLY) × (length b.now ≤ MAX_POLY) }
    requires first { IsPolynomial (residues p) a.now }
    requires second { IsPolynomial (residues p) b.now }
    requires not_both_zero { 0 < length a.now + length b.now }
    ensures prime { result.prime ≡ p }
    ensures cofactor { IsCofactor p a.now b.now result.coefficients }
{
    let len = a.len().max(b.len());
    if len <= 16 {
        cofactor_in::<16, 32>(p, a, b)
    } else if len <= 32 {
        cofactor_in::<32, 64>(p, a, b)
    } else if len <= 64 {
        cofactor_in::<64, 128>(p, a, b)
    } else {
        cofactor_in::<128, 256>(p, a, b)
    }
}

// The same in rows of W numbers.
fn cofactor_in<const W: usize, const D: usize>(p: Prime, a: &[u8], b: &[u8]) -> Poly
    requires width { W ≤ MAX_POLY }
    requires sizes { D ≡ W + W }
    requires room { (length a.now ≤ W) × (length b.now ≤ W) }
    requires first { IsPolynomial (residues p) a.now }
    requires second { IsPolynomial (residues p) b.now }
    requires not_both_zero { 0 < length a.now + length b.now }
    ensures prime { result.prime ≡ p }
    ensures cofactor { IsCofactor p a.now b.now result.coefficients }
{
    let _number = p.number();
    let (mut first, mut u) = (row_of::<W>(a), row_of::<W>(&[1]));
    let (mut second, mut v) = (row_of::<W>(b), blank_row::<W>());
    let (mut m, mut n) = (a.len(), b.len());
    'euclid: while n > 0 {
        let (quotient, rest) = divided::<W, D>(p, &first, m, &second, n);
        let next = next_factor::<W, D>(p, &u, &quotient, (m + 1).saturating_sub(n), &v);
        first = second;
        u = v;
        m = n;
        n = trimmed_len(&rest);
        second = rest;
        v = next;
    }
    let normalizer = Poly::trimmed(p, &first).normalizer();
    normalizer.mul(&Poly::trimmed(p, &u))
}

// The greatest common divisor and the factors of both, in rows as wide as the longer.
pub(crate) fn bezout_of(p: Prime, a: &[u8], b: &[u8]) -> Bezout
    requires room { (length a.now ≤ MAX_POLY) × (length b.now ≤ MAX_POLY) }
    requires first { IsPolynomial (residues p) a.now }
    requires second { IsPolynomial (residues p) b.now }
    requires not_both_zero { 0 < length a.now + length b.now }
    ensures primes { (result.g.prime ≡ p) × (result.u.prime ≡ p) × (result.w.prime ≡ p) }
    ensures gcd { IsGreatestCommonDivisor (residues p) a.now b.now result.g.coefficients }
    ensures identity { let o = mod_ops p in
        poly_sum o (poly_product o result.u.coefficients a.now)
        (poly_product o result.w.coefficients b.now) ≡ result.g.coefficients }
    ensures first_short { length result.u.coefficients
        ≤ max 1 (length b.now - length result.g.coefficients) }
    ensures second_short { length result.w.coefficients
        ≤ max 1 (length a.now - length result.g.coefficients) }
{
    let len = a.len().max(b.len());
    if len <= 16 {
        bezout_in::<16, 32>(p, a, b)
    } else if len <= 32 {
        bezout_in::<32, 64>(p, a, b)
    } else if len <= 64 {
        bezout_in::<64, 128>(p, a, b)
    } else {
        bezout_in::<128, 256>(p, a, b)
    }
}

// The same in rows of W numbers.
fn bezout_in<const W: usize, const D: usize>(p: Prime, a: &[u8], b: &[u8]) -> Bezout
    requires width { W ≤ MAX_POLY }
    requires sizes { D ≡ W + W }
    requires room { (length a.now ≤ W) × (length b.now ≤ W) }
    requires first { IsPolynomial (residues p) a.now }
    requires second { IsPolynomial (residues p) b.now }
    requires not_both_zero { 0 < length a.now + length b.now }
    ensures primes { (result.g.prime ≡ p) × (result.u.prime ≡ p) × (result.w.prime ≡ p) }
    ensures gcd { IsGreatestCommonDivisor (residues p) a.now b.now result.g.coefficients }
    ensures identity { let o = mod_ops p in
        poly_sum o (poly_product o result.u.coefficients a.now)
        (poly_product o result.w.coefficients b.now) ≡ result.g.coefficients }
    ensures first_short { length result.u.coefficients
        ≤ max 1 (length b.now - length result.g.coefficients) }
    ensures second_short { length result.w.coefficients
        ≤ max 1 (length a.now - length result.g.coefficients) }
{
    let _number = p.number();
    let (mut first, mut u, mut s) = (row_of::<W>(a), row_of::<W>(&[1]), blank_row::<W>());
    let (mut second, mut v, mut t) = (row_of::<W>(b), blank_row::<W>(), row_of::<W>(&[1]));
    let (mut m, mut n) = (a.len(), b.len());
    'euclid: while n > 0 {
        let steps = (m + 1).saturating_sub(n);
        let (quotient, rest) = divided::<W, D>(p, &first, m, &second, n);
        let next_u = next_factor::<W, D>(p, &u, &quotient, steps, &v);
        let next_s = next_factor::<W, D>(p, &s, &quotient, steps, &t);
        first = second;
        (u, s) = (v, t);
        m = n;
        n = trimmed_len(&rest);
        second = rest;
        (v, t) = (next_u, next_s);
    }
    Bezout {
        g: Poly::trimmed(p, &first),
        u: Poly::trimmed(p, &u),
        w: Poly::trimmed(p, &s),
    }
    .made_monic()
}
