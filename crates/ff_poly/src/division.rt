//! Division with remainder.
ghost use Rattle.std.specs.Prelude.{◌≡◌, ◌≢◌, ℕ, ◌+◌, ◌-◌, ◌*◌, ◌%◌, ◌<◌, ◌≤◌, [], length, slice_index, All};
ghost use Rattle.alg_model.specs.Coefficients.{mod_ops, residues};
ghost use Rattle.alg_model.specs.Factors.{IsPolynomial, IsDivision};
ghost use Rattle.alg_model.specs.Polynomials.{product};
ghost use Rattle.ff_poly.specs.Polynomial.{IsPoly};

use crate::places::poly_of_places;
use crate::rows::{add_shifted, blank_row, padded, row_of};
use crate::{MAX_POLY, Poly, Prime};
use ff_residues::Sums;

impl Poly {
    /// The quotient and the remainder by `d`, which isn't 0: the remainder has fewer coefficients
    /// than `d`.
    ///
    /// The division of polynomials from the highest place down (Knuth, The Art of Computer
    /// Programming 2, section 4.6.1, algorithm D).
    pub fn divrem(&self, d: &Poly) -> (Poly, Poly)
        requires same_prime { self.now.prime ≡ d.now.prime }
        requires not_zero { d.now.coefficients ≢ [] }
        ensures quotient { result.0.prime ≡ self.now.prime }
        ensures remainder { result.1.prime ≡ self.now.prime }
        ensures division { IsDivision (residues self.now.prime) self.now.coefficients
            d.now.coefficients
            result.0.coefficients result.1.coefficients }
        ensures whole { IsPoly self.now × IsPoly d.now }
        ensures short { length result.0.coefficients
            ≤ length self.now.coefficients + 1 - length d.now.coefficients }
    {
        let (dividend, divisor) = (self.coefficients(), d.coefficients());
        if dividend.len() < divisor.len() {
            return (Poly::trimmed(self.prime(), &[]), self.copy());
        }
        division_of(self.prime(), dividend, divisor)
    }
}

// Quotient and remainder of the polynomials with these coefficients, in rows as wide as the first.
fn division_of(p: Prime, f: &[u8], d: &[u8]) -> (Poly, Poly)
    requires room { length f.now ≤ MAX_POLY }
    requires longer { length d.now ≤ length f.now }
    requires divisor { 0 < length d.now }
    requires leading { slice_index d.now (length d.now - 1) ≢ 0 }
    requires dividend { IsPolynomial (residues p) f.now }
    requires residues { All (λ x. x < p) d.now }
    ensures quotient { result.0.prime ≡ p }
    ensures remainder { result.1.prime ≡ p }
    ensures division { IsDivision (residues p) f.now d.now result.0.coefficients
        result.1.coefficients }
{
    let len = f.len();
    if len <= 16 {
        division_in::<16, 32>(p, f, d)
    } else if len <= 32 {
        division_in::<32, 64>(p, f, d)
    } else if len <= 64 {
        division_in::<64, 128>(p, f, d)
    } else {
        division_in::<128, 256>(p, f, d)
    }
}

// The same in rows of W numbers.
fn division_in<const W: usize, const D: usize>(p: Prime, f: &[u8], d: &[u8]) -> (Poly, Poly)
    requires width { W ≤ MAX_POLY }
    requires sizes { D ≡ W + W }
    requires room { length f.now ≤ W }
    requires longer { length d.now ≤ length f.now }
    requires divisor { 0 < length d.now }
    requires leading { slice_index d.now (length d.now - 1) ≢ 0 }
    requires dividend { IsPolynomial (residues p) f.now }
    requires residues { All (λ x. x < p) d.now }
    ensures quotient { result.0.prime ≡ p }
    ensures remainder { result.1.prime ≡ p }
    ensures division { IsDivision (residues p) f.now d.now result.0.coefficients
        result.1.coefficients }
{
    let _number = p.number();
    let mut rest = row_of::<W>(f);
    let mut quotient = blank_row::<W>();
    divide::<W, D>(p, &mut rest, &mut quotient, d, f.len() - (d.len() - 1));
    (
        Poly::trimmed(p, &quotient),
        poly_of_places(p, &rest[..d.len() - 1]),
    )
}

// Takes multiples of d off the places in rest, `steps` many and the highest first, and notes their
// factors in quotient.
#[inline(always)]
pub(crate) fn divide<const W: usize, const D: usize>(
    p: Prime,
    rest: &mut [u8; W],
    quotient: &mut [u8; W],
    d: &[u8],
    steps: usize,
)
    requires width { W ≤ MAX_POLY }
    requires sizes { D ≡ W + W }
    requires divisor { (0 < length d.now) × (length d.now ≤ W) }
    requires leading { slice_index d.now (length d.now - 1) ≢ 0 }
    requires residues { All (λ x. x < p) d.now }
    requires room { steps + length d.now ≤ W + 1 }
    requires rest { All (λ x. x < p) rest.old }
    requires within { (k : ℕ) → steps + length d.now ≤ k + 1 → slice_index rest.old k ≡ 0 }
    requires blank { (k : ℕ) → slice_index quotient.old k ≡ 0 }
    ensures len { length rest.new ≡ W }
    ensures long { length quotient.new ≡ W }
    ensures residues { All (λ x. x < p) quotient.new }
    ensures short { (k : ℕ) → steps ≤ k → slice_index quotient.new k ≡ 0 }
    ensures rest { All (λ x. x < p) rest.new }
    ensures smaller { (k : ℕ) → length d.now ≤ k + 1 → slice_index rest.new k ≡ 0 }
    ensures division { (k : ℕ)
        → (slice_index (product (mod_ops p) quotient.new d.now) k + slice_index rest.new k) % p
        ≡ slice_index rest.old k % p }
{
    let _number = p.number();
    let degree = d.len() - 1;
    let inverse = p.inv(d[degree]);
    let padded = padded::<W, D>(p, d);
    let mut sums = Sums::of(p, rest);
    let mut at = steps;
    while at > 0 {
        at -= 1;
        let factor = p.mul(sums.at(at + degree), inverse);
        add_shifted(p, &mut sums, p.neg(factor), &padded, at);
        quotient[at] = factor;
    }
    *rest = sums.row();
}
