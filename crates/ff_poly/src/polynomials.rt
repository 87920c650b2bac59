//! Polynomials over the residues modulo a prime.
ghost use Rattle.std.specs.Prelude.{◌≡◌, ℕ, ◌<◌, ◌≤◌, ◌↔◌, [], length, take, All, IsTrue, IsSome, IfSome};
ghost use Rattle.std.specs.Ordering.{nat_cmp};
ghost use Rattle.alg_model.specs.Coefficients.{residues, mod_ops};
ghost use Rattle.alg_model.specs.Polynomials.{trim};
ghost use Rattle.alg_model.specs.Factors.{order_by};

use crate::{MAX_POLY, Prime};
use arrayvec::ArrayVec;
use ff_lists::{Copies, fixed};
use std::cmp::Ordering;
use std::marker::Model;

/// A polynomial over the residues modulo a prime, of at most `MAX_POLY` coefficients.
#[derive(Drop)]
pub struct Poly {
    prime: Prime,
    coefficients: ArrayVec<u8, MAX_POLY>,
}

impl Model for Poly {
    ghost use Rattle.ff_poly.specs.Polynomial.{Polynomial, IsPoly};

    ghost Value = { Polynomial };

    ghost view = { λ a. record { prime = a.prime; coefficients = a.coefficients.items } };

    ghost invariant = { λ a. IsPoly
        (record { prime = a.prime; coefficients = a.coefficients.items }) };
}

impl Default for Poly {
    /// The zero polynomial over the first characteristic.
    fn default() -> Poly
        ensures prime { result.prime ≡ 2 }
        ensures zero { result.coefficients ≡ [] }
    {
        Poly::trimmed(Prime::default(), &[])
    }
}

impl Copies for Poly {
    fn copy(&self) -> Self {
        Poly::copy(self)
    }
}

impl Poly {
    ghost use Rattle.ff_poly.specs.Polynomial.{IsPoly};

    /// The polynomial with the coefficients `c`, lowest first; zeros at the end are dropped.
    ///
    /// `None` where `c` has more than `MAX_POLY` numbers or one that isn't below `p`.
    pub fn of_slice(p: Prime, c: &[u8]) -> Option<Poly>
        ensures some { IsSome result ↔ ((length c.now ≤ MAX_POLY) × All (λ x. x < p) c.now) }
        ensures made { IfSome result (λ f. (f.prime ≡ p)
            × (f.coefficients ≡ trim (mod_ops p) c.now)) }
    {
        if c.len() > MAX_POLY || !are_residues(p, c) {
            return None;
        }
        Some(Poly::trimmed(p, c))
    }

    /// The polynomial with the residues `c` as coefficients, lowest first; zeros at the end are
    /// dropped.
    ///
    /// There are at most `MAX_POLY`, each below `p`.
    pub fn trimmed(p: Prime, c: &[u8]) -> Poly
        requires room { length c.now ≤ MAX_POLY }
        requires residues { All (λ x. x < p) c.now }
        ensures prime { result.prime ≡ p }
        ensures whole { IsPoly result }
        ensures coefficients { result.coefficients ≡ trim (mod_ops p) c.now }
    {
        let _number = p.number();
        Poly {
            prime: p,
            coefficients: fixed(&c[..trimmed_len(c)]),
        }
    }

    /// The prime.
    pub fn prime(&self) -> Prime
        ensures value { result ≡ self.now.prime }
        ensures whole { IsPoly self.now }
    {
        self.prime
    }

    /// The coefficients, lowest first; the last one isn't 0.
    pub fn coefficients(&self) -> &[u8]
        ensures value { result.now ≡ self.now.coefficients }
        ensures whole { IsPoly self.now }
    {
        self.coefficients.as_slice()
    }

    /// Whether this is the zero polynomial.
    pub fn is_zero(&self) -> bool
        ensures { IsTrue result ↔ (self.now.coefficients ≡ []) }
    {
        self.coefficients().is_empty()
    }

    /// The same polynomial.
    pub fn copy(&self) -> Self
        ensures same { result ≡ self.now }
        ensures whole { IsPoly self.now }
    {
        Poly {
            prime: self.prime,
            coefficients: fixed(self.coefficients.as_slice()),
        }
    }

    /// The order of polynomials: the number of coefficients first, then from the highest place
    /// down.
    pub fn compare(&self, b: &Poly) -> Ordering
        requires { self.now.prime ≡ b.now.prime }
        ensures { result ≡ order_by nat_cmp self.now.coefficients b.now.coefficients }
    {
        let (first, second) = (self.coefficients(), b.coefficients());
        match first.len().cmp(&second.len()) {
            Ordering::Equal => compare_places(first, second),
            unequal => unequal,
        }
    }
}

// Whether each number is below p.
fn are_residues(p: Prime, c: &[u8]) -> bool
    ensures { IsTrue result ↔ All (λ x. x < p) c.now }
{
    let p = p.number();
    c.iter().all(|x| *x < p)
}

// How many coefficients are left without the zeros at the end.
pub(crate) fn trimmed_len(c: &[u8]) -> usize
    ensures fits { result ≤ length c.now }
    ensures trimmed { (p : ℕ) → take result c.now ≡ trim (mod_ops p) c.now }
{
    let mut n = c.len();
    while n > 0 {
        if c[n - 1] != 0 {
            return n;
        }
        n -= 1;
    }
    0
}

/// Compares two lists of one length from the highest place down, at the first difference.
pub fn compare_places(a: &[u8], b: &[u8]) -> Ordering
    requires { length a.now ≡ length b.now }
    ensures { result ≡ order_by nat_cmp a.now b.now }
{
    let mut n = a.len();
    while n > 0 {
        if a[n - 1] != b[n - 1] {
            return a[n - 1].cmp(&b[n - 1]);
        }
        n -= 1;
    }
    Ordering::Equal
}
