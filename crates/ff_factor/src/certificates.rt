//! Certificates of irreducibility.
ghost use Rattle.std.specs.Prelude.{◌≡◌, ◌↔◌, ℕ, ◌+◌, ◌-◌, ◌<◌, ◌≤◌, ◌==◌, if◌then◌else◌, [], ◌∷◌, length, IsTrue};
ghost use Rattle.alg_model.specs.Coefficients.{residues, mod_ops};
ghost use Rattle.alg_model.specs.Polynomials.{poly_sum, poly_product, derivative};
ghost use Rattle.alg_model.specs.Factors.{IsMonic, IsIrreducible};
ghost use Rattle.alg_model.specs.Values.{degree};
ghost use Rattle.alg_model.specs.Matrices.{entry, matrix_product, identity_matrix};
ghost use Rattle.ff_poly.specs.Polynomial.{Polynomial, IsPoly};
ghost use Rattle.ff_matrix.specs.ModularMatrix.{IsModularMatrix};
ghost use Rattle.ff_factor.specs.Certificates.{Certifies, berlekamp_matrix};
ghost use Rattle.ff_factor.specs.Certificates.{HasShape};

use crate::columns::matrix_by_powers;
use ff_matrix::Matrix;
use ff_poly::{MAX_DEGREE, Poly};

/// A certificate that a polynomial `f` of degree `n` is irreducible (Berlekamp 1970), where `check`
/// finds that it holds; any three parts make a `Cert`.
///
/// It shows then that `f` has no repeated factor, by `u * f + w * f' = 1`, and that only constants
/// are their own power `p` modulo `f`: a product of two coprime factors would have other such
/// polynomials too.
#[derive(Drop)]
pub struct Cert {
    /// The factor of `f`, of at most `MAX_DEGREE` coefficients.
    pub u: Poly,

    /// The factor of the derivative of `f`, of at most `MAX_DEGREE` coefficients.
    pub w: Poly,

    /// A left inverse, of `n - 1` rows and `n` columns, of the columns 1 to `n - 1` of the matrix
    /// of `v -> v^p - v` modulo `f` on the powers of `x`.
    pub left: Matrix,
}

impl Cert {
    /// An equal certificate.
    pub fn copy(&self) -> Cert
        ensures { result ≡ self.now }
    {
        Cert {
            u: self.u.copy(),
            w: self.w.copy(),
            left: self.left.copy(),
        }
    }
}

/// A polynomial with a certificate is irreducible.
pub fn certificates_are_sound()
    ensures { (f : Polynomial) (cert : Cert) → IsPoly f → IsMonic (residues f.prime) f.coefficients
        → 1 < length f.coefficients
        → IsPoly cert.u → IsPoly cert.w → IsModularMatrix cert.left → Certifies f cert
        → IsIrreducible (residues f.prime) f.coefficients }
{}

/// Whether a certificate holds for `f`, so that `f` is irreducible. What it says is worked out here
/// anew.
///
/// `f` is monic, of degree 1 to `MAX_DEGREE`.
pub fn check(f: &Poly, cert: &Cert) -> bool
    requires monic { IsMonic (residues f.now.prime) f.now.coefficients }
    requires not_constant { 1 < length f.now.coefficients }
    requires degree { length f.now.coefficients ≤ MAX_DEGREE + 1 }
    ensures { IsTrue result ↔ Certifies f.now cert.now }
{
    has_shape(f, cert) && is_separable(f, &cert.u, &cert.w) && is_left_inverse(f, &cert.left)
}

// Whether the parts are over the prime of f and of the right sizes.
fn has_shape(f: &Poly, cert: &Cert) -> bool
    requires { 1 < length f.now.coefficients }
    ensures { IsTrue result ↔ HasShape f.now cert.now }
{
    let p = f.prime().number();
    cert.u.prime().number() == p
        && cert.w.prime().number() == p
        && cert.left.prime().number() == p
        && cert.u.coefficients().len() <= MAX_DEGREE
        && cert.w.coefficients().len() <= MAX_DEGREE
        && cert.left.columns() == f.coefficients().len() - 1
}

// Whether u * f + w * f' = 1.
fn is_separable(f: &Poly, u: &Poly, w: &Poly) -> bool
    requires primes { (u.now.prime ≡ f.now.prime) × (w.now.prime ≡ f.now.prime) }
    requires short { (length u.now.coefficients ≤ MAX_DEGREE)
        × (length w.now.coefficients ≤ MAX_DEGREE) }
    requires not_constant { 1 < length f.now.coefficients }
    requires degree { length f.now.coefficients ≤ MAX_DEGREE + 1 }
    ensures { let o = mod_ops f.now.prime in IsTrue result
        ↔ (poly_sum o (poly_product o u.now.coefficients f.now.coefficients)
        (poly_product o w.now.coefficients (derivative o f.now.coefficients)) ≡ 1 ∷ []) }
{
    let derivative = f.derivative();
    is_one(&u.mul(f).add(&w.mul(&derivative)))
}

// Whether f is 1.
fn is_one(f: &Poly) -> bool
    ensures { IsTrue result ↔ (f.now.coefficients ≡ 1 ∷ []) }
{
    let coefficients = f.coefficients();
    coefficients.len() == 1 && coefficients[0] == 1
}

// Whether left times the columns 1 to n - 1 of the matrix of v -> v^p - v is the identity.
fn is_left_inverse(f: &Poly, left: &Matrix) -> bool
    requires monic { IsMonic (residues f.now.prime) f.now.coefficients }
    requires not_constant { 1 < length f.now.coefficients }
    requires degree { length f.now.coefficients ≤ MAX_DEGREE + 1 }
    requires prime { left.now.prime ≡ f.now.prime }
    requires columns { length left.now.matrix.columns ≡ degree f.now.coefficients }
    ensures { let o = mod_ops f.now.prime in IsTrue result ↔ (matrix_product o left.now.matrix
        (berlekamp_matrix o f.now.prime f.now.coefficients)
        ≡ identity_matrix o (degree f.now.coefficients - 1)) }
{
    let product = left.mul(&matrix_by_powers(f));
    is_identity(&product, f.coefficients().len() - 2)
}

// Whether m is the identity of n rows.
fn is_identity(m: &Matrix, n: usize) -> bool
    ensures { IsTrue result ↔ (m.now.matrix ≡ identity_matrix (mod_ops m.now.prime) n) }
{
    if m.rows() != n {
        return false;
    }
    m.columns() == n && has_unit_columns(m)
}

// Whether each column has a 1 in the row of its own number and zeros elsewhere.
fn has_unit_columns(m: &Matrix) -> bool
    ensures { IsTrue result
        ↔ ((k : ℕ) → k < length m.now.matrix.columns → (r : ℕ) → r < m.now.matrix.rows
        → entry (mod_ops m.now.prime) m.now.matrix r k ≡ (if r == k then 1 else 0)) }
{
    for k in 0..m.columns() {
        if !is_unit_column(m, k) {
            return false;
        }
    }
    true
}

// Whether column k has a 1 in row k and zeros elsewhere.
fn is_unit_column(m: &Matrix, k: usize) -> bool
    requires { k < length m.now.matrix.columns }
    ensures { IsTrue result ↔ ((r : ℕ) → r < m.now.matrix.rows
        → entry (mod_ops m.now.prime) m.now.matrix r k ≡ (if r == k then 1 else 0)) }
{
    for r in 0..m.rows() {
        let unit = if r == k { 1 } else { 0 };
        if m.at(r, k) != unit {
            return false;
        }
    }
    true
}
