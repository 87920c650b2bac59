//! Whether a polynomial is irreducible.
ghost use Rattle.std.specs.Prelude.{◌≡◌, ◌+◌, ◌<◌, ◌≤◌, length};
ghost use Rattle.std.specs.Ordering.{nat_cmp};
ghost use Rattle.alg_model.specs.Coefficients.{residues};
ghost use Rattle.alg_model.specs.Factors.{IsMonic, IsProperFactor, IsLeastFactor};
ghost use Rattle.ff_factor.specs.Certificates.{IsVerdict};

use crate::factorization::{cofactor, collect};
use crate::linear::linear_factor;
use crate::splitting::{Finding, split};
use crate::{Cert, FactorList};
use ff_poly::{MAX_DEGREE, Poly};

/// The judgement on a polynomial.
#[derive(Drop)]
pub enum Verdict {
    /// It is irreducible, as the certificate shows.
    Irreducible(Cert),

    /// It is the product of its least factor and of the cofactor.
    Reducible {
        /// The first, in the order of polynomials, of the monic divisors of degree above 0 and
        /// below that of the polynomial.
        factor: Poly,

        /// The quotient by it.
        cofactor: Poly,
    },
}

/// Judges whether `f` is irreducible.
///
/// `f` is monic, of degree 1 to `MAX_DEGREE`. A factor of degree 1 is the least one outright. Else
/// a reducible one is factored by Berlekamp's method (Berlekamp 1970; Knuth, The Art of Computer
/// Programming 2, section 4.6.2, algorithm B).
pub fn judge(f: &Poly) -> Verdict
    requires monic { IsMonic (residues f.now.prime) f.now.coefficients }
    requires not_constant { 1 < length f.now.coefficients }
    requires degree { length f.now.coefficients ≤ MAX_DEGREE + 1 }
    ensures { IsVerdict f.now result }
{
    if let Some(factor) = linear_factor(f) {
        return reducible(f, factor);
    }
    match split(f) {
        Finding::Irreducible(cert) => Verdict::Irreducible(cert),
        Finding::Divisor(divisor) => reducible(f, least_factor(f, &divisor)),
    }
}

// The verdict on f, which has this least factor.
fn reducible(f: &Poly, factor: Poly) -> Verdict
    requires monic { IsMonic (residues f.now.prime) f.now.coefficients }
    requires prime { factor.prime ≡ f.now.prime }
    requires least { IsLeastFactor (residues f.now.prime) nat_cmp f.now.coefficients
        factor.coefficients }
    ensures { IsVerdict f.now result }
{
    let cofactor = cofactor(f, &factor);
    Verdict::Reducible { factor, cofactor }
}

// The least factor of f, which has this proper factor.
fn least_factor(f: &Poly, divisor: &Poly) -> Poly
    requires monic { IsMonic (residues f.now.prime) f.now.coefficients }
    requires degree { length f.now.coefficients ≤ MAX_DEGREE + 1 }
    requires prime { divisor.now.prime ≡ f.now.prime }
    requires divisor { IsProperFactor (residues f.now.prime) f.now.coefficients
        divisor.now.coefficients }
    ensures prime { result.prime ≡ f.now.prime }
    ensures least { IsLeastFactor (residues f.now.prime) nat_cmp f.now.coefficients
        result.coefficients }
{
    let _prime = f.prime();
    let quotient = cofactor(f, divisor);
    let mut factors = FactorList::new();
    collect(divisor, &mut factors);
    collect(&quotient, &mut factors);
    factors.items()[0].copy()
}
