//! Linear factors, by the values at all residues side by side.
ghost use Rattle.std.specs.Prelude.{◌≡◌, ◌≢◌, ℕ, ◌+◌, ◌*◌, ◌%◌, ◌<◌, ◌≤◌, length, slice_index, All, IfSome};
ghost use Rattle.std.specs.Ordering.{nat_cmp};
ghost use Rattle.alg_model.specs.Coefficients.{residues, mod_ops};
ghost use Rattle.alg_model.specs.Polynomials.{evaluate};
ghost use Rattle.alg_model.specs.Factors.{IsIrreducible, IsLeastFactor};
ghost use Rattle.ff_factor.specs.PrivateSplitting.{IsLeastNegativeRoot};

use ff_poly::{Poly, Prime};

/// The least factor of `f`: `x + c` for the first `c` where `f(-c) = 0`, if `f` is of degree above
/// 1. That there is none where it answers `None`, no clause says.
pub(crate) fn linear_factor(f: &Poly) -> Option<Poly>
    ensures prime { IfSome result (λ g. g.prime ≡ f.now.prime) }
    ensures least { IfSome result
        (λ g. IsLeastFactor (residues f.now.prime) nat_cmp f.now.coefficients g.coefficients) }
    ensures irreducible { IfSome result (λ g. IsIrreducible (residues f.now.prime) g.coefficients) }
{
    let p = f.prime();
    if f.coefficients().len() <= 2 {
        return None;
    }
    match least_negative_root(p, f.coefficients()) {
        Some(c) => Some(Poly::trimmed(p, &[c, 1])),
        None => None,
    }
}

// The first c with f(-c) = 0, in as many lanes as there are residues, rounded up.
fn least_negative_root(p: Prime, f: &[u8]) -> Option<u8>
    requires { All (λ x. x < p) f.now }
    ensures { IfSome result (IsLeastNegativeRoot p f.now) }
{
    let number = p.number();
    if number <= 8 {
        first_zero(p, f, &values::<8>(p, f))
    } else if number <= 16 {
        first_zero(p, f, &values::<16>(p, f))
    } else if number <= 32 {
        first_zero(p, f, &values::<32>(p, f))
    } else {
        first_zero(p, f, &values::<64>(p, f))
    }
}

// The first c where the value at -c is 0.
fn first_zero(p: Prime, f: &[u8], values: &[u16]) -> Option<u8>
    requires lanes { p ≤ length values.now }
    requires values { (k : ℕ) → k < p
        → slice_index values.now k ≡ evaluate (mod_ops p) f.now ((mod_ops p).neg k) }
    ensures { IfSome result (IsLeastNegativeRoot p f.now) }
{
    for c in 0..p.number() {
        if values[c as usize] == 0 {
            return Some(c);
        }
    }
    None
}

// The values of f at 0, -1, -2, .., by Horner's rule.
fn values<const W: usize>(p: Prime, f: &[u8]) -> [u16; W]
    requires lanes { (p ≤ W) × (W ≤ 64) }
    requires residues { All (λ x. x < p) f.now }
    ensures lanes { length result ≡ W }
    ensures values { (k : ℕ) → k < p
        → slice_index result k ≡ evaluate (mod_ops p) f.now ((mod_ops p).neg k) }
{
    let points = negatives::<W>(p);
    let mut values = [0; W];
    let mut n = f.len();
    while n > 0 {
        n -= 1;
        multiply_and_add(p, &mut values, &points, f[n] as u16);
    }
    values
}

// The negatives of the residues, and zeros after them.
fn negatives<const W: usize>(p: Prime) -> [u16; W]
    requires lanes { (p ≤ W) × (W ≤ 64) }
    ensures lanes { length result ≡ W }
    ensures residues { All (λ x. x < p) result }
    ensures negatives { (k : ℕ) → k < p → slice_index result k ≡ (mod_ops p).neg k }
{
    let mut points = [0; W];
    for c in 0..p.number() {
        points[c as usize] = p.neg(c) as u16;
    }
    points
}

// Multiplies each value by its point, and adds a.
#[inline(always)]
fn multiply_and_add<const W: usize>(p: Prime, values: &mut [u16; W], points: &[u16; W], a: u16)
    requires width { W ≤ 64 }
    requires values { All (λ x. x < p) values.old }
    requires points { All (λ x. x < p) points.now }
    requires addend { a < p }
    ensures lanes { length values.new ≡ length values.old }
    ensures residues { All (λ x. x < p) values.new }
    ensures places { (k : ℕ) → k < W
        → slice_index values.new k ≡ (slice_index values.old k * slice_index points.now k + a) % p }
{
    let _number = p.number();
    for l in 0..W {
        values[l] = p.reduced(values[l] * points[l] + a);
    }
}
