//! Inverses of values.
ghost use Rattle.std.specs.Prelude.{◌≡◌, ◌≢◌, ◌↔◌, IsSome, IfSome};
ghost use Rattle.alg_model.specs.Maps.{field_values};

use crate::{Field, Value};

impl Field {
    /// The inverse of `a`, or `None` where `a` is zero.
    pub fn inv(&self, a: &Value) -> Option<Value>
        requires { (field_values self.now).Valid a.now }
        ensures some { IsSome result ↔ (a.now ≢ (field_values self.now).ops.zero) }
        ensures inverse { IfSome result (λ b. (field_values self.now).ops.mul a.now b
            ≡ (field_values self.now).ops.one) }
        ensures valid { IfSome result (λ b. (field_values self.now).Valid b) }
    {
        if self.is_zero(a) {
            return None;
        }
        Some(self.inverse(a))
    }

    /// The inverse of `a`, which isn't zero.
    ///
    /// The polynomial f of the field is irreducible, so that its greatest common divisor with the
    /// polynomial of `a` is 1. Euclid's extended algorithm gives it as u a + w f, and u is the
    /// inverse modulo f.
    pub fn inverse(&self, a: &Value) -> Value
        requires valid { (field_values self.now).Valid a.now }
        requires not_zero { a.now ≢ (field_values self.now).ops.zero }
        ensures inverse { (field_values self.now).ops.mul a.now result
            ≡ (field_values self.now).ops.one }
        ensures valid { (field_values self.now).Valid result }
    {
        let cofactor = self.poly_of(a).cofactor(self.poly());
        let _prime = cofactor.prime();
        self.reduced(&cofactor)
    }
}
