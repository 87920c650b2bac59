//! Reducibility by trial division: every monic polynomial of smaller degree is tried, in the order
//! of polynomials.
ghost use Rattle.std.specs.Prelude.{◌≡◌, ℕ, ◌+◌, ◌*◌, ◌-◌, ◌^◌, ◌<◌, ◌≤◌, ◌≢◌, ◌↔◌, [], length, All, IsTrue, IfSome, IfNone};
ghost use Rattle.std.specs.Ordering.{nat_cmp};
ghost use Rattle.alg_model.specs.Coefficients.{residues};
ghost use Rattle.alg_model.specs.Factors.{IsPolynomial, IsMonic, Divides, IsIrreducible, IsLeastFactor};
ghost use Rattle.alg_model.specs.Values.{degree};
ghost use Rattle.lattice_tests.specs.Numbering.{number_of};

use arrayvec::ArrayVec;
use ff_poly::{Poly, Prime};

/// The greatest number of residues, `p ^ degree`, of a polynomial that is tried.
pub const TRIAL_LIMIT: u32 = 4096;

// The digits of TRIAL_LIMIT in base 2.
const DIGITS: usize = 13;

// The digits of `number` in base p, lowest first, with zeros at the end.
fn digits_of(p: Prime, number: u32) -> ArrayVec<u8, DIGITS>
    requires { number ≤ TRIAL_LIMIT }
    ensures residues { All (λ a. a < p) result.items }
    ensures value { number_of p result.items ≡ number }
{
    let base = u32::from(p.number());
    let mut digits = ArrayVec::new();
    let mut rest = number;
    for _place in 0..DIGITS {
        digits.push((rest % base) as u8);
        rest /= base;
    }
    digits
}

// The polynomial of this number.
fn polynomial_of(p: Prime, number: u32) -> Poly
    requires { number ≤ TRIAL_LIMIT }
    ensures prime { result.prime ≡ p }
    ensures value { number_of p result.coefficients ≡ number }
{
    Poly::trimmed(p, digits_of(p, number).as_slice())
}

// Whether g divides f.
fn divides(g: &Poly, f: &Poly) -> bool
    requires same { g.now.prime ≡ f.now.prime }
    requires not_zero { g.now.coefficients ≢ [] }
    ensures { IsTrue result ↔ Divides (residues f.now.prime) g.now.coefficients f.now.coefficients }
{
    let _ = (f.prime(), g.prime());
    let (_, remainder) = f.divrem(g);
    remainder.coefficients().is_empty()
}

// Whether the last coefficient is 1.
pub(crate) fn is_monic(f: &Poly) -> bool
    ensures { IsTrue result ↔ IsMonic (residues f.now.prime) f.now.coefficients }
{
    let coefficients = f.coefficients();
    !coefficients.is_empty() && coefficients[coefficients.len() - 1] == 1
}

// Whether g is a monic divisor of f.
fn is_monic_divisor(g: &Poly, f: &Poly) -> bool
    requires same { g.now.prime ≡ f.now.prime }
    requires not_zero { g.now.coefficients ≢ [] }
    ensures exact { IsTrue result ↔ (IsMonic (residues f.now.prime) g.now.coefficients
        × Divides (residues f.now.prime) g.now.coefficients f.now.coefficients) }
    ensures polynomial { IsPolynomial (residues f.now.prime) g.now.coefficients }
{
    let _ = g.prime();
    is_monic(g) && divides(g, f)
}

// The number of the first polynomial of this degree: p^degree.
fn power_of(p: Prime, degree: usize) -> u32
    requires { p ^ degree ≤ TRIAL_LIMIT }
    ensures { result ≡ p ^ degree }
{
    let base = u32::from(p.number());
    let mut power = 1u32;
    for _place in 0..degree {
        power *= base;
    }
    power
}

// Whether p^degree is at most TRIAL_LIMIT.
fn has_few_residues(p: Prime, degree: usize) -> bool
    ensures { IsTrue result ↔ (p ^ degree ≤ TRIAL_LIMIT) }
{
    let base = u32::from(p.number());
    let mut count = 1u32;
    for _place in 0..degree {
        count *= base;
        if count > TRIAL_LIMIT {
            return false;
        }
    }
    true
}

/// Whether a polynomial has at most `TRIAL_LIMIT` residues, so that its factors can be tried.
pub fn can_try(f: &Poly) -> bool
    ensures { IsTrue result ↔ (f.now.prime ^ degree f.now.coefficients ≤ TRIAL_LIMIT) }
{
    has_few_residues(f.prime(), f.coefficients().len().saturating_sub(1))
}

/// The least factor of a polynomial of degree 1 or more with at most `TRIAL_LIMIT` residues; `None`
/// where it is irreducible.
///
/// Every polynomial of smaller degree is tried, in the order of their numbers in base p.
pub fn least_factor(f: &Poly) -> Option<Poly>
    requires not_constant { 1 < length f.now.coefficients }
    requires small { f.now.prime ^ degree f.now.coefficients ≤ TRIAL_LIMIT }
    ensures irreducible { IfNone result (IsIrreducible (residues f.now.prime) f.now.coefficients) }
    ensures prime { IfSome result (λ g. g.prime ≡ f.now.prime) }
    ensures factor { IfSome result
        (λ g. IsLeastFactor (residues f.now.prime) nat_cmp f.now.coefficients g.coefficients) }
{
    let p = f.prime();
    let end = power_of(p, f.coefficients().len() - 1);
    for number in u32::from(p.number())..end {
        let g = polynomial_of(p, number);
        if is_monic_divisor(&g, f) {
            return Some(g);
        }
    }
    None
}
