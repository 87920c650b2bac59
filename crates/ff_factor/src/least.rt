//! The least irreducible polynomial of a degree.
ghost use Rattle.std.specs.Prelude.{◌≡◌, ◌+◌, ◌^◌, ◌<◌, ◌≤◌, ◌↔◌, [], ◌∷◌, ◌++◌, length, replicate, All, IsTrue};
ghost use Rattle.alg_model.specs.Coefficients.{residues};
ghost use Rattle.alg_model.specs.Factors.{IsMonic, IsIrreducible};
ghost use Rattle.alg_model.specs.Roots.{IsLeastIrreducible};
ghost use Rattle.ff_factor.specs.PrivateCounting.{number};

use crate::linear::linear_factor;
use crate::splitting::{Finding, split};
use arrayvec::ArrayVec;
use ff_lists::fixed;
use ff_poly::{MAX_DEGREE, MAX_POLY, Poly, Prime};

/// The first monic irreducible polynomial of degree `d` in the order of polynomials.
///
/// `d` is 1 to `MAX_DEGREE`. The polynomials are judged one after the other, from `x^d` on.
pub fn least_irreducible(p: Prime, d: u32) -> Poly
    requires { (0 < d) × (d ≤ MAX_DEGREE) }
    ensures prime { result.prime ≡ p }
    ensures least { IsLeastIrreducible p d result.coefficients }
{
    let _number = p.number();
    let mut lower = zeros(d as usize);
    let mut candidate = monic(p, lower.as_slice());
    while !is_irreducible(&candidate) {
        step(p, &mut lower);
        candidate = monic(p, lower.as_slice());
    }
    candidate
}

// n zeros.
fn zeros(n: usize) -> ArrayVec<u8, MAX_DEGREE>
    requires { n ≤ MAX_DEGREE }
    ensures { result.items ≡ replicate n 0 }
{
    let mut numbers = ArrayVec::new();
    for _k in 0..n {
        numbers.push(0);
    }
    numbers
}

// The monic polynomial with these lower coefficients.
fn monic(p: Prime, lower: &[u8]) -> Poly
    requires room { length lower.now ≤ MAX_DEGREE }
    requires residues { All (λ x. x < p) lower.now }
    ensures prime { result.prime ≡ p }
    ensures coefficients { result.coefficients ≡ lower.now ++ 1 ∷ [] }
{
    let _number = p.number();
    let mut numbers = fixed::<MAX_POLY>(lower);
    numbers.push(1);
    Poly::trimmed(p, numbers.as_slice())
}

// Whether f is irreducible.
fn is_irreducible(f: &Poly) -> bool
    requires monic { IsMonic (residues f.now.prime) f.now.coefficients }
    requires not_constant { 1 < length f.now.coefficients }
    requires degree { length f.now.coefficients ≤ MAX_DEGREE + 1 }
    ensures { IsTrue result ↔ IsIrreducible (residues f.now.prime) f.now.coefficients }
{
    match linear_factor(f) {
        Some(_) => false,
        None => is_not_split(f),
    }
}

// The same where no linear factor is looked for.
fn is_not_split(f: &Poly) -> bool
    requires monic { IsMonic (residues f.now.prime) f.now.coefficients }
    requires not_constant { 1 < length f.now.coefficients }
    requires degree { length f.now.coefficients ≤ MAX_DEGREE + 1 }
    ensures { IsTrue result ↔ IsIrreducible (residues f.now.prime) f.now.coefficients }
{
    match split(f) {
        Finding::Irreducible(_) => true,
        Finding::Divisor(_) => false,
    }
}

// The same for the residues of a list.
fn step(p: Prime, lower: &mut ArrayVec<u8, MAX_DEGREE>)
    requires residues { All (λ x. x < p) lower.old.items }
    requires not_last { number p lower.old.items + 1 < p ^ length lower.old.items }
    ensures residues { All (λ x. x < p) lower.new.items }
    ensures len { length lower.new.items ≡ length lower.old.items }
    ensures next { number p lower.new.items ≡ number p lower.old.items + 1 }
{
    advance(p, lower.as_mut_slice());
}

// Makes the residues, as the digits of a number, those of the number after it.
fn advance(p: Prime, digits: &mut [u8])
    requires residues { All (λ x. x < p) digits.old }
    requires not_last { number p digits.old + 1 < p ^ length digits.old }
    ensures residues { All (λ x. x < p) digits.new }
    ensures len { length digits.new ≡ length digits.old }
    ensures next { number p digits.new ≡ number p digits.old + 1 }
{
    let last = p.number() - 1;
    for i in 0..digits.len() {
        if digits[i] < last {
            digits[i] += 1;
            return;
        }
        digits[i] = 0;
    }
    unreachable!()
}
