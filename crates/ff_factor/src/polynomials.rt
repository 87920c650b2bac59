//! Polynomials made from residues.
ghost use Rattle.std.specs.Prelude.{◌≡◌, ℕ, ◌*◌, ◌<◌, ◌≤◌, [], ◌∷◌, length, All, slice_index};
ghost use Rattle.alg_model.specs.Coefficients.{mod_ops};
ghost use Rattle.alg_model.specs.Polynomials.{trim};

use arrayvec::ArrayVec;
use ff_poly::{MAX_POLY, Poly, Prime};

/// The polynomial `x`.
pub(crate) fn variable(p: Prime) -> Poly
    ensures prime { result.prime ≡ p }
    ensures coefficients { result.coefficients ≡ 0 ∷ 1 ∷ [] }
{
    let _number = p.number();
    Poly::trimmed(p, &[0, 1])
}

/// The constant polynomial `c`.
pub(crate) fn constant(p: Prime, c: u8) -> Poly
    requires { c < p }
    ensures prime { result.prime ≡ p }
    ensures coefficients { result.coefficients ≡ trim (mod_ops p) (c ∷ []) }
{
    Poly::trimmed(p, &[c])
}

/// The polynomial with the constant coefficient 0 and then these coefficients.
pub(crate) fn without_constant(p: Prime, c: &[u8]) -> Poly
    requires room { length c.now < MAX_POLY }
    requires residues { All (λ x. x < p) c.now }
    ensures prime { result.prime ≡ p }
    ensures coefficients { result.coefficients ≡ trim (mod_ops p) (0 ∷ c.now) }
{
    let _number = p.number();
    let numbers = after_zero(c);
    Poly::trimmed(p, numbers.as_slice())
}

// The number 0 and then these numbers.
fn after_zero(c: &[u8]) -> ArrayVec<u8, MAX_POLY>
    requires { length c.now < MAX_POLY }
    ensures { result.items ≡ 0 ∷ c.now }
{
    let mut numbers = ArrayVec::new();
    numbers.push(0);
    match numbers.try_extend_from_slice(c) {
        Ok(()) => numbers,
        Err(_) => unreachable!(),
    }
}

/// The numbers at 0, `step`, `2 * step`, and so on.
pub(crate) fn every(c: &[u8], step: usize) -> ArrayVec<u8, MAX_POLY>
    requires room { length c.now ≤ MAX_POLY }
    requires step { (0 < step) × (step < 64) }
    ensures room { length result.items ≤ MAX_POLY }
    ensures places { (k : ℕ) → slice_index result.items k ≡ slice_index c.now (k * step) }
{
    let mut numbers = ArrayVec::new();
    let mut at = 0;
    while at < c.len() {
        numbers.push(c[at]);
        at += step;
    }
    numbers
}
