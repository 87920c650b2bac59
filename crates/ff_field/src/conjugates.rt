//! Trace and norm over the prime field.
ghost use Rattle.std.specs.Prelude.{◌≡◌, ◌/◌, ◌%◌, ◌^◌, ◌<◌};
ghost use Rattle.alg_model.specs.Coefficients.{power};
ghost use Rattle.alg_model.specs.Maps.{field_values, constant};
ghost use Rattle.alg_model.specs.Conjugates.{trace, norm, conjugates, product_all};

use crate::traces::scalar_product;
use crate::{Field, Value};

impl Field {
    /// The trace of `a`: the sum of its conjugates `a, a^p, a^(p^2), ..`, as many as the degree. It
    /// is a constant, given as a residue.
    ///
    /// It keeps sums and multiples by residues, so that it is the scalar product of the digits with
    /// the traces of 1, x, x^2, .., which the field keeps.
    pub fn trace(&self, a: &Value) -> u8
        requires { (field_values self.now).Valid a.now }
        ensures value { constant self.now result ≡ trace self.now a.now }
        ensures residue { result < self.now.characteristic }
    {
        let _degree = self.degree();
        scalar_product(self.prime(), a.digits(), self.traces())
    }

    /// The norm of `a`: the product of its conjugates. It is a constant, given as a residue.
    pub fn norm(&self, a: &Value) -> u8
        requires { (field_values self.now).Valid a.now }
        ensures value { constant self.now result ≡ norm self.now a.now }
        ensures residue { result < self.now.characteristic }
    {
        let product = self.product_of_conjugates(a, self.degree());
        product.digits()[0]
    }

    // The product of the first m conjugates: that of the first half of them times its conjugate, which
    // is the product of the others, and one more for an odd m.
    fn product_of_conjugates(&self, a: &Value, m: u32) -> Value
        requires { (field_values self.now).Valid a.now }
        ensures value { result ≡ product_all (field_values self.now).ops
            (conjugates (field_values self.now).ops self.now.characteristic m a.now) }
        ensures valid { (field_values self.now).Valid result }
    {
        let _prime = self.prime();
        if m == 0 {
            return self.one();
        }
        if m == 1 {
            return a.copy();
        }
        let half = self.product_of_conjugates(a, m / 2);
        let both = self.mul(&half, &self.conjugate(&half, m / 2));
        if m % 2 == 1 {
            self.mul(a, &self.frob(&both))
        } else {
            both
        }
    }

    // The power `a^(p^k)`: Frobenius k times.
    fn conjugate(&self, a: &Value, k: u32) -> Value
        requires { (field_values self.now).Valid a.now }
        ensures value { result
            ≡ power (field_values self.now).ops a.now (self.now.characteristic ^ k) }
        ensures valid { (field_values self.now).Valid result }
    {
        let _prime = self.prime();
        let mut value = a.copy();
        'powers: for _i in 0..k {
            value = self.frob(&value);
        }
        value
    }
}
