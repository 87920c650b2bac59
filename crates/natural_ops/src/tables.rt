//! Operations as tables of polynomials.
ghost use Rattle.std.specs.Prelude.{◌≡◌, map, take, All};
ghost use Rattle.alg_model.specs.Coefficients.{primes};
ghost use Rattle.ff_poly.specs.Polynomial.{Polynomial, IsPoly};
ghost use Rattle.natural_ops.specs.Operations.{IsOpTable};

use ff_poly::{PRIMES, Poly};
use std::marker::Model;

/// An operation on the values of finite fields: a polynomial for each characteristic. Its value at
/// `a` in a field of characteristic `p` is the sum of `c_i * a^i` for the coefficients `c_i` of the
/// polynomial of `p`.
///
/// Contracts see the list of the polynomials.
#[derive(Drop)]
pub struct OpTable {
    polys: [Poly; PRIMES],
}

impl Model for OpTable {
    ghost use Rattle.std.specs.Prelude.{List};
    ghost use Rattle.ff_poly.specs.Polynomial.{Polynomial};
    ghost use Rattle.natural_ops.specs.Operations.{IsOpTable};

    ghost Value = { List Polynomial };

    ghost view = { λ a. a.polys };

    ghost invariant = { λ a. IsOpTable a.polys };
}

impl OpTable {
    /// The operation with these polynomials, the k-th over the k-th characteristic.
    pub fn of(polys: [Poly; PRIMES]) -> OpTable
        requires { map {A = Polynomial} (λ f. f.prime) polys ≡ primes }
        ensures { result ≡ polys }
    {
        are_polynomials(&polys);
        OpTable { polys }
    }

    /// The polynomials, in the order of the characteristics.
    pub fn polys(&self) -> &[Poly; PRIMES]
        ensures value { result.now ≡ self.now }
        ensures whole { IsOpTable self.now }
    {
        &self.polys
    }
}

// Each is a polynomial over the residues modulo its prime.
fn are_polynomials(polys: &[Poly])
    ensures { All IsPoly polys.now }
{
    for k in 0..polys.len() {
        let _prime = polys[k].prime();
    }
}
