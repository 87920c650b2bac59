//! The factorization of a polynomial into irreducible ones.
ghost use Rattle.std.specs.Prelude.{◌≡◌, ◌≢◌, ℕ, ◌+◌, ◌<◌, ◌≤◌, [], length, All, slice_index_or};
ghost use Rattle.std.specs.List.Sorted.{IsSorted};
ghost use Rattle.std.specs.Ordering.{nat_cmp};
ghost use Rattle.alg_model.specs.Coefficients.{residues, IsCharacteristic};
ghost use Rattle.alg_model.specs.Factors.{IsMonic, IsIrreducible, IsProperFactor, order_by};
ghost use Rattle.alg_divisors.specs.Factorization.{IsFactorization};
ghost use Rattle.ff_poly.specs.Polynomial.{Polynomial};
ghost use Rattle.ff_factor.specs.FactorLists.{AreOver, coefficients_of};
ghost use Rattle.ff_factor.specs.PrivateSplitting.{Collects, IsCofactor};

use crate::linear::linear_factor;
use crate::splitting::{Finding, split};
use ff_lists::BoundedList;
use ff_poly::{MAX_DEGREE, Poly};
use std::cmp::Ordering;

/// At most `MAX_DEGREE` polynomials.
pub type FactorList = BoundedList<Poly, MAX_DEGREE>;

// Puts an irreducible polynomial before the first that comes after it.
fn add(list: &mut FactorList, f: &Poly)
    requires monic { IsMonic (residues f.now.prime) f.now.coefficients }
    requires irreducible { IsIrreducible (residues f.now.prime) f.now.coefficients }
    requires room { length list.old < MAX_DEGREE }
    requires primes { AreOver f.now.prime list.old }
    ensures { Collects f.now list.old list.new }
{
    let place = place_of(list.items(), f);
    list.insert(place, f.copy());
}

/// The monic irreducible factors of `f`, with repeats, in the order of polynomials.
///
/// `f` is monic, of degree 1 to `MAX_DEGREE`.
pub fn factors(f: &Poly) -> FactorList
    requires monic { IsMonic (residues f.now.prime) f.now.coefficients }
    requires not_constant { 1 < length f.now.coefficients }
    requires degree { length f.now.coefficients ≤ MAX_DEGREE + 1 }
    ensures primes { AreOver f.now.prime result }
    ensures factorization { IsFactorization (residues f.now.prime) f.now.coefficients (coefficients_of result) }
    ensures sorted { IsSorted (order_by nat_cmp) (coefficients_of result) }
{
    let _prime = f.prime();
    let mut list = FactorList::new();
    collect(f, &mut list);
    list
}

// Puts the irreducible factors of f into the list.
pub(crate) fn collect(f: &Poly, list: &mut FactorList)
    requires monic { IsMonic (residues f.now.prime) f.now.coefficients }
    requires not_constant { 1 < length f.now.coefficients }
    requires room { length list.old + length f.now.coefficients ≤ MAX_DEGREE + 1 }
    requires primes { AreOver f.now.prime list.old }
    ensures { Collects f.now list.old list.new }
{
    if let Some(factor) = linear_factor(f) {
        let rest = cofactor(f, &factor);
        add(list, &factor);
        collect(&rest, list);
        return;
    }
    match split(f) {
        Finding::Irreducible(_) => add(list, f),
        Finding::Divisor(divisor) => {
            let quotient = cofactor(f, &divisor);
            collect(&divisor, list);
            collect(&quotient, list);
        }
    }
}

// The quotient of f by a proper factor.
pub(crate) fn cofactor(f: &Poly, factor: &Poly) -> Poly
    requires monic { IsMonic (residues f.now.prime) f.now.coefficients }
    requires prime { factor.now.prime ≡ f.now.prime }
    requires factor { IsProperFactor (residues f.now.prime) f.now.coefficients
        factor.now.coefficients }
    ensures characteristic { IsCharacteristic f.now.prime }
    ensures prime { result.prime ≡ f.now.prime }
    ensures cofactor { IsCofactor (residues f.now.prime) f.now.coefficients factor.now.coefficients
        result.coefficients }
{
    let _prime = f.prime();
    let (quotient, _) = f.divrem(factor);
    quotient
}

// The place of the first of these polynomials that comes after g, or their number.
fn place_of(polynomials: &[Poly], g: &Poly) -> usize
    requires { AreOver g.now.prime polynomials.now }
    ensures within { result ≤ length polynomials.now }
    ensures before { (k : ℕ) (d : Polynomial) → k < result
        → order_by nat_cmp g.now.coefficients (slice_index_or polynomials.now k d).coefficients ≢
        Ordering.Less }
    ensures after { (d : Polynomial) → result < length polynomials.now
        → order_by nat_cmp g.now.coefficients (slice_index_or polynomials.now result d).coefficients
        ≡ Ordering.Less }
{
    for (i, h) in polynomials.iter().enumerate() {
        if g.compare(h) == Ordering::Less {
            return i;
        }
    }
    polynomials.len()
}
