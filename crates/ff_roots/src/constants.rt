//! Polynomials over the field whose coefficients lie in the prime field.
ghost use Rattle.std.specs.Prelude.{◌≡◌, ◌≢◌, ◌↔◌, ℕ, ◌+◌, ◌<◌, ◌≤◌, List, length, replicate, IsNone, IfSome, IsTrue};
ghost use Rattle.alg_model.specs.Coefficients.{residues};
ghost use Rattle.alg_model.specs.Factors.{IsPolynomial, IsMonic, IsIrreducible};
ghost use Rattle.alg_model.specs.Maps.{field_values, constant, constants};
ghost use Rattle.alg_model.specs.Roots.{IsRoot};

use arrayvec::ArrayVec;
use ff_factor::{Verdict, judge};
use ff_field::{Field, Value};
use ff_poly::{MAX_DEGREE, MAX_POLYX, Poly};
use ff_polyx::PolyX;

// The monic irreducible polynomial over the prime field of which g is a multiple by a value, or
// `None` where there is none.
#[inline(never)]
pub(crate) fn irreducible_of(field: &Field, g: &PolyX) -> Option<Poly>
    requires polynomial { IsPolynomial (field_values field.now) g.now }
    requires not_constant { 1 < length g.now }
    requires degree { length g.now ≤ MAX_DEGREE + 1 }
    ensures prime { IfSome result (λ f. f.prime ≡ field.now.characteristic) }
    ensures monic { IfSome result (λ f. IsMonic (residues f.prime) f.coefficients) }
    ensures irreducible { IfSome result (λ f. IsIrreducible (residues f.prime) f.coefficients) }
    ensures degree { IfSome result (λ f. length f.coefficients ≤ MAX_DEGREE + 1) }
    ensures roots { IfSome result (λ f. (v : List ℕ)
        → IsRoot field.now (constants field.now f.coefficients) v ↔ IsRoot field.now g.now v) }
{
    let _prime = field.prime();
    let f = constants_of(field, &monic_of(field, g))?;
    match judge(&f) {
        Verdict::Irreducible(_) => Some(f),
        Verdict::Reducible {
            factor: _,
            cofactor: _,
        } => None,
    }
}

// The monic multiple by a value: the greatest common divisor with 0.
fn monic_of(field: &Field, g: &PolyX) -> PolyX
    requires polynomial { IsPolynomial (field_values field.now) g.now }
    requires not_constant { 1 < length g.now }
    ensures polynomial { IsPolynomial (field_values field.now) result }
    ensures monic { IsMonic (field_values field.now) result }
    ensures len { length result ≡ length g.now }
    ensures roots { (v : List ℕ) → IsRoot field.now result v ↔ IsRoot field.now g.now v }
{
    let _prime = field.prime();
    PolyX::gcd(field, g, &PolyX::of_values(field, &[]))
}

// The polynomial over the prime field that this is over the field, or `None` where a coefficient
// isn't in the prime field.
fn constants_of(field: &Field, g: &PolyX) -> Option<Poly>
    requires { IsPolynomial (field_values field.now) g.now }
    ensures none { IsNone result → (f : List ℕ) → constants field.now f ≢ g.now }
    ensures prime { IfSome result (λ f. f.prime ≡ field.now.characteristic) }
    ensures polynomial { IfSome result (λ f. IsPolynomial (residues field.now.characteristic)
        f.coefficients) }
    ensures value { IfSome result (λ f. constants field.now f.coefficients ≡ g.now) }
{
    let p = field.prime();
    let mut residues: ArrayVec<u8, MAX_POLYX> = ArrayVec::new();
    for c in g.coefficients() {
        residues.push(residue_of(field, c)?);
    }
    Some(Poly::trimmed(p, residues.as_slice()))
}

// The residue that this value is, or `None` where it isn't in the prime field.
fn residue_of(field: &Field, v: &Value) -> Option<u8>
    requires { (field_values field.now).Valid v.now }
    ensures none { IsNone result → (c : ℕ) → constant field.now c ≢ v.now }
    ensures value { IfSome result (λ c. constant field.now c ≡ v.now) }
    ensures residue { IfSome result (λ c. c < field.now.characteristic) }
{
    let _degree = field.degree();
    let digits = v.digits();
    if are_zeros(&digits[1..]) {
        Some(digits[0])
    } else {
        None
    }
}

// Whether all numbers are 0.
fn are_zeros(c: &[u8]) -> bool
    ensures { IsTrue result ↔ (c.now ≡ replicate (length c.now) 0) }
{
    c.iter().all(|x| *x == 0)
}
