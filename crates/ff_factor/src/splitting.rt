//! A proper factor of a polynomial, or a certificate that there is none.
ghost use Rattle.std.specs.Prelude.{◌≡◌, ◌≢◌, ℕ, ◌+◌, ◌-◌, ◌≤◌, ◌<◌, List, [], ◌∷◌, length, All, slice_index_or};
ghost use Rattle.alg_model.specs.Coefficients.{residues, mod_ops, IsCharacteristic};
ghost use Rattle.alg_model.specs.Polynomials.{poly_sum, poly_product, derivative};
ghost use Rattle.alg_model.specs.Factors.{IsMonic, IsProperFactor, IsIrreducible, IsGreatestCommonDivisor};
ghost use Rattle.alg_model.specs.Matrices.{matrix_product, identity_matrix, combination, zero_column, IsColumn, IsIndependent};
ghost use Rattle.alg_model.specs.Values.{degree};
ghost use Rattle.ff_poly.specs.Polynomial.{IsPoly};
ghost use Rattle.ff_matrix.specs.Echelons.{IsEchelonOf};
ghost use Rattle.alg_fields.specs.Fixed.{IsFixed, less_constant};
ghost use Rattle.ff_factor.specs.Certificates.{Certifies, berlekamp_matrix};
ghost use Rattle.ff_factor.specs.PrivateSplitting.{IsFinding, IsNonzeroKernelColumn};

use crate::Cert;
use crate::columns::matrix_in_turn;
use crate::polynomials::{constant, every, without_constant};
use ff_lists::Copies;
use ff_matrix::{Column, Echelon, Matrix};
use ff_poly::{MAX_DEGREE, Poly};

/// What is found out about a polynomial.
#[derive(Drop)]
pub(crate) enum Finding {
    /// It is irreducible.
    Irreducible(Cert),

    /// A proper factor.
    Divisor(Poly),
}

/// A proper factor of `f`, or a certificate that there is none (Berlekamp 1970).
///
/// Where some `v` that is no constant has `v^p = v` modulo `f`, it has a factor in common with `f`
/// when the right constant is taken off, as `f` divides the product of all `v - c`. Where only
/// constants have it, `f` is a power of an irreducible polynomial.
#[inline(never)]
pub(crate) fn split(f: &Poly) -> Finding
    requires monic { IsMonic (residues f.now.prime) f.now.coefficients }
    requires not_constant { 1 < length f.now.coefficients }
    requires degree { length f.now.coefficients ≤ MAX_DEGREE + 1 }
    ensures { IsFinding f.now result }
{
    let matrix = matrix_in_turn(f);
    let echelon = matrix.echelon();
    match echelon.left_inverse() {
        Some(left) => split_power(f, left),
        None => Finding::Divisor(split_by_column(f, &kernel_column(&matrix, &echelon))),
    }
}

// A proper factor of f, or a certificate that there is none, where the matrix of v -> v^p - v has
// this left inverse.
//
// A polynomial with derivative 0 is a power p, and what it has in common with another derivative is
// a factor.
fn split_power(f: &Poly, left: Matrix) -> Finding
    requires monic { IsMonic (residues f.now.prime) f.now.coefficients }
    requires not_constant { 1 < length f.now.coefficients }
    requires degree { length f.now.coefficients ≤ MAX_DEGREE + 1 }
    requires prime { left.prime ≡ f.now.prime }
    requires columns { length left.matrix.columns ≡ degree f.now.coefficients }
    requires left_inverse { let o = mod_ops f.now.prime in
        matrix_product o left.matrix (berlekamp_matrix o f.now.prime f.now.coefficients)
        ≡ identity_matrix o (degree f.now.coefficients - 1) }
    ensures { IsFinding f.now result }
{
    let derivative = f.derivative();
    if derivative.is_zero() {
        return Finding::Divisor(power_root(f));
    }
    let bezout = f.bezout(&derivative);
    if bezout.g.coefficients().len() > 1 {
        return Finding::Divisor(bezout.g);
    }
    Finding::Irreducible(certificate(f, bezout.u, bezout.w, left))
}

// The polynomial whose power p is f, where f has derivative 0.
fn power_root(f: &Poly) -> Poly
    requires monic { IsMonic (residues f.now.prime) f.now.coefficients }
    requires not_constant { 1 < length f.now.coefficients }
    requires derivative { derivative (mod_ops f.now.prime) f.now.coefficients ≡ [] }
    ensures prime { result.prime ≡ f.now.prime }
    ensures factor { IsProperFactor (residues f.now.prime) f.now.coefficients result.coefficients }
{
    let p = f.prime();
    let numbers = every(f.coefficients(), p.number() as usize);
    Poly::trimmed(p, numbers.as_slice())
}

// The certificate of these parts.
fn certificate(f: &Poly, u: Poly, w: Poly, left: Matrix) -> Cert
    requires monic { IsMonic (residues f.now.prime) f.now.coefficients }
    requires not_constant { 1 < length f.now.coefficients }
    requires primes { (u.prime ≡ f.now.prime) × (w.prime ≡ f.now.prime)
        × (left.prime ≡ f.now.prime) }
    requires short { (length u.coefficients ≤ MAX_DEGREE) × (length w.coefficients ≤ MAX_DEGREE) }
    requires separable { let o = mod_ops f.now.prime in
        poly_sum o (poly_product o u.coefficients f.now.coefficients)
        (poly_product o w.coefficients (derivative o f.now.coefficients)) ≡ 1 ∷ [] }
    requires columns { length left.matrix.columns ≡ degree f.now.coefficients }
    requires left_inverse { let o = mod_ops f.now.prime in
        matrix_product o left.matrix (berlekamp_matrix o f.now.prime f.now.coefficients)
        ≡ identity_matrix o (degree f.now.coefficients - 1) }
    ensures certifies { Certifies f.now result }
    ensures irreducible { IsIrreducible (residues f.now.prime) f.now.coefficients }
{
    let _prime = f.prime();
    let _first = u.prime();
    let _second = w.prime();
    let _third = left.prime();
    Cert { u, w, left }
}

// A column that isn't zero and that the matrix with this form sends to zero.
fn kernel_column(m: &Matrix, echelon: &Echelon) -> Column
    requires echelon { IsEchelonOf m.now echelon.now }
    requires dependent { IsIndependent (residues m.now.prime) m.now.matrix.rows m.now.matrix.columns
        → ⊥ }
    ensures { IsNonzeroKernelColumn m.now.prime m.now.matrix result }
{
    let _prime = m.prime();
    let basis = echelon.kernel();
    basis.items()[0].copy()
}

// A proper factor of f, from what the matrix of v -> v^p - v sends to zero.
fn split_by_column(f: &Poly, column: &Column) -> Poly
    requires monic { IsMonic (residues f.now.prime) f.now.coefficients }
    requires not_constant { 1 < length f.now.coefficients }
    requires column { IsNonzeroKernelColumn f.now.prime
        (berlekamp_matrix (mod_ops f.now.prime) f.now.prime f.now.coefficients) column.now }
    ensures prime { result.prime ≡ f.now.prime }
    ensures factor { IsProperFactor (residues f.now.prime) f.now.coefficients result.coefficients }
{
    let fixed = without_constant(f.prime(), column.numbers());
    split_by_fixed(f, &fixed)
}

// A proper factor of f: its greatest common divisor with v - c for the first c where that isn't 1.
fn split_by_fixed(f: &Poly, v: &Poly) -> Poly
    requires prime { v.now.prime ≡ f.now.prime }
    requires not_constant { 1 < length v.now.coefficients }
    requires shorter { length v.now.coefficients < length f.now.coefficients }
    requires fixed { IsFixed (residues f.now.prime) f.now.prime f.now.coefficients
        v.now.coefficients }
    ensures prime { result.prime ≡ f.now.prime }
    ensures factor { IsProperFactor (residues f.now.prime) f.now.coefficients result.coefficients }
{
    let p = f.prime().number();
    let _prime = v.prime();
    for c in 0..p {
        let common = common_factor(f, v, c);
        if common.coefficients().len() > 1 {
            return common;
        }
    }
    unreachable!()
}

// The greatest common divisor of f and v - c.
fn common_factor(f: &Poly, v: &Poly, c: u8) -> Poly
    requires prime { v.now.prime ≡ f.now.prime }
    requires residue { c < f.now.prime }
    ensures whole { IsPoly f.now × IsPoly v.now }
    ensures prime { result.prime ≡ f.now.prime }
    ensures gcd { IsGreatestCommonDivisor (residues f.now.prime) f.now.coefficients
        (less_constant (mod_ops f.now.prime) v.now.coefficients c) result.coefficients }
{
    let _prime = v.prime();
    f.gcd(&v.sub(&constant(f.prime(), c)))
}
