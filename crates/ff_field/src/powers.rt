//! Powers of values.
ghost use Rattle.std.specs.Prelude.{◌≡◌, ◌/◌};
ghost use Rattle.alg_model.specs.Coefficients.{power};
ghost use Rattle.alg_model.specs.Maps.{field_values};

use crate::modulus::Modulus;
use crate::{Field, Value};

impl Field {
    /// The power `a^e`; it is one for `e = 0`.
    pub fn pow(&self, a: &Value, e: u64) -> Value
        requires { (field_values self.now).Valid a.now }
        ensures value { result ≡ power (field_values self.now).ops a.now e }
        ensures valid { (field_values self.now).Valid result }
    {
        self.modulus().pow(a, e)
    }
}

impl Modulus {
    // The power `a^e`; it is one for `e = 0`.
    //
    // By squaring, from the highest binary digit of `e` down (Knuth, The Art of Computer
    // Programming 2, section 4.6.3).
    pub(crate) fn pow(&self, a: &Value, e: u64) -> Value
        requires { (field_values self.now).Valid a.now }
        ensures value { result ≡ power (field_values self.now).ops a.now e }
        ensures valid { (field_values self.now).Valid result }
    {
        let _prime = self.prime();
        if e == 0 {
            return self.one();
        }
        let root = self.pow(a, e / 2);
        let square = self.mul(&root, &root);
        if e % 2 == 1 {
            self.mul(&square, a)
        } else {
            square
        }
    }
}
