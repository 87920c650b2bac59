//! Frobenius as a matrix.
ghost use Rattle.std.specs.Prelude.{◌≡◌, ℕ, ◌<◌, ◌≤◌, All, length, slice_index};
ghost use Rattle.alg_model.specs.Coefficients.{power};
ghost use Rattle.alg_model.specs.Maps.{field_values, degree_of};
ghost use Rattle.ff_residues.specs.SumRows.{IsRowOf};
ghost use Rattle.ff_field.specs.PrivateTables.{IsFrobenius};

use crate::modulus::Modulus;
use crate::tables::{repeated, zeros};
use crate::{Field, Value};
use ff_poly::{MAX_DEGREE, Prime};
use ff_residues::Sums;

// The images of 1, x, x^2, ..: the powers of x^p.
pub(crate) fn frobenius_columns(modulus: &Modulus) -> [[u8; MAX_DEGREE]; MAX_DEGREE]
    ensures { IsFrobenius modulus.now result }
{
    let p = modulus.prime();
    let root = modulus.pow(&modulus.generator(), p.number() as u64);
    let mut table = repeated::<MAX_DEGREE>(zeros());
    let mut value = modulus.one();
    for i in 0..modulus.degree() as usize {
        table[i] = row_of(p, value.digits());
        value = modulus.mul(&value, &root);
    }
    table
}

// The digits, with zeros after them.
fn row_of(p: Prime, digits: &[u8]) -> [u8; MAX_DEGREE]
    requires room { length digits.now ≤ MAX_DEGREE }
    requires residues { All (λ x. x < p) digits.now }
    ensures row { IsRowOf p MAX_DEGREE result }
    ensures places { (k : ℕ) → slice_index result k ≡ slice_index digits.now k }
{
    let _number = p.number();
    let mut row = zeros::<MAX_DEGREE>();
    for k in 0..digits.len() {
        row[k] = digits[k];
    }
    row
}

impl Field {
    /// Frobenius: the power `a^p` for the characteristic `p`. It keeps sums and residues, so that
    /// it is a matrix, which the field keeps.
    pub fn frob(&self, a: &Value) -> Value
        requires { (field_values self.now).Valid a.now }
        ensures value { result ≡ power (field_values self.now).ops a.now self.now.characteristic }
        ensures valid { (field_values self.now).Valid result }
    {
        let n = self.degree();
        if n <= 8 {
            self.image::<8>(a)
        } else if n <= 16 {
            self.image::<16>(a)
        } else if n <= 24 {
            self.image::<24>(a)
        } else if n <= 32 {
            self.image::<32>(a)
        } else if n <= 40 {
            self.image::<40>(a)
        } else {
            self.image::<48>(a)
        }
    }

    // The same for at most W digits.
    fn image<const W: usize>(&self, a: &Value) -> Value
        requires width { W ≤ MAX_DEGREE }
        requires fits { degree_of self.now ≤ W }
        requires valid { (field_values self.now).Valid a.now }
        ensures value { result ≡ power (field_values self.now).ops a.now self.now.characteristic }
        ensures valid { (field_values self.now).Valid result }
    {
        let n = self.degree() as usize;
        let row = self.image_row::<W>(a.digits());
        Value::padded(&row[..n], n)
    }

    // The places of the power.
    #[inline(always)]
    fn image_row<const W: usize>(&self, a: &[u8]) -> [u8; W]
        requires width { W ≤ MAX_DEGREE }
        requires fits { degree_of self.now ≤ W }
        requires valid { (field_values self.now).Valid a.now }
        ensures len { length result ≡ W }
        ensures places { (k : ℕ) → k < degree_of self.now → slice_index result k
            ≡ slice_index (power (field_values self.now).ops a.now self.now.characteristic) k }
    {
        let _degree = self.degree();
        let mut sums = Sums::<W>::zeros(self.prime());
        sums.add_rows(a, self.frobenius());
        sums.row()
    }
}
