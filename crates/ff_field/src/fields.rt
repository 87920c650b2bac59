//! Finite fields.
ghost use Rattle.std.specs.Prelude.{◌≡◌, ◌+◌, ◌<◌, ◌≤◌, length};
ghost use Rattle.alg_model.specs.Coefficients.{residues};
ghost use Rattle.alg_model.specs.Factors.{IsMonic, IsIrreducible};
ghost use Rattle.alg_model.specs.Maps.{degree_of};
ghost use Rattle.ff_field.specs.SmallFields.{IsSmallField};
ghost use Rattle.ff_field.specs.PrivateTables.{IsFrobenius, IsTraceRow};

use crate::frobenius::frobenius_columns;
use crate::modulus::Modulus;
use crate::traces::trace_row;
use ff_poly::{MAX_DEGREE, Poly, Prime};
use std::marker::Model;

/// A finite field: the residues of polynomials over a prime field modulo a monic irreducible
/// polynomial of degree 1 to `MAX_DEGREE` (Lidl and Niederreiter, Finite Fields, chapter 2).
#[derive(Drop)]
pub struct Field {
    modulus: Modulus,
    frobenius: [[u8; MAX_DEGREE]; MAX_DEGREE],
    traces: [u8; MAX_DEGREE],
}

impl Model for Field {
    ghost use Rattle.alg_model.specs.Maps as maps;
    ghost use Rattle.ff_field.specs.PrivateTables.{IsKept};

    ghost Value = { maps.Field };

    ghost view = { λ a. a.modulus };

    ghost invariant = { λ a. IsKept a.modulus a.frobenius a.traces };
}

impl Field {
    /// The field of the residues modulo `f`, which is monic, irreducible and of degree 1 to
    /// `MAX_DEGREE`.
    pub fn new(f: Poly) -> Field
        requires monic { IsMonic (residues f.prime) f.coefficients }
        requires irreducible { IsIrreducible (residues f.prime) f.coefficients }
        requires degree { length f.coefficients ≤ MAX_DEGREE + 1 }
        ensures characteristic { result.characteristic ≡ f.prime }
        ensures polynomial { result.polynomial ≡ f.coefficients }
        ensures whole { IsSmallField result }
    {
        let modulus = Modulus::new(f);
        let frobenius = frobenius_columns(&modulus);
        let traces = trace_row(&modulus, &frobenius);
        Field {
            modulus,
            frobenius,
            traces,
        }
    }

    /// The characteristic.
    pub fn prime(&self) -> Prime
        ensures value { result ≡ self.now.characteristic }
        ensures whole { IsSmallField self.now }
    {
        self.modulus.prime()
    }

    /// The polynomial, whose degree is that of the field.
    pub fn poly(&self) -> &Poly
        ensures prime { result.now.prime ≡ self.now.characteristic }
        ensures coefficients { result.now.coefficients ≡ self.now.polynomial }
        ensures whole { IsSmallField self.now }
    {
        self.modulus.poly()
    }

    /// The degree over the prime field: how many digits a value has.
    pub fn degree(&self) -> u32
        ensures value { result ≡ degree_of self.now }
        ensures positive { 0 < result }
        ensures whole { IsSmallField self.now }
    {
        self.modulus.degree()
    }

    // The polynomial, with what takes the place of divisions by it.
    pub(crate) fn modulus(&self) -> &Modulus
        ensures { result.now ≡ self.now }
    {
        &self.modulus
    }

    // The images of 1, x, x^2, .. under Frobenius.
    pub(crate) fn frobenius(&self) -> &[[u8; MAX_DEGREE]; MAX_DEGREE]
        ensures { IsFrobenius self.now result.now }
    {
        &self.frobenius
    }

    // The traces of 1, x, x^2, ..
    pub(crate) fn traces(&self) -> &[u8; MAX_DEGREE]
        ensures { IsTraceRow self.now result.now }
    {
        &self.traces
    }

    /// An equal field.
    pub fn copy(&self) -> Field
        ensures same { result ≡ self.now }
        ensures whole { IsSmallField self.now }
    {
        Field {
            modulus: self.modulus.copy(),
            frobenius: self.frobenius,
            traces: self.traces,
        }
    }
}
