//! Evaluation of polynomials.
ghost use Rattle.std.specs.Prelude.{◌≡◌, All};
ghost use Rattle.alg_model.specs.Polynomials.{evaluate};
ghost use Rattle.alg_model.specs.Factors.{IsPolynomial};
ghost use Rattle.alg_model.specs.Maps.{field_values};

use crate::PolyX;
use ff_field::{Field, Value};

impl PolyX {
    /// The value of `a` at `v`, by Horner's rule.
    pub fn eval(field: &Field, a: &PolyX, v: &Value) -> Value
        requires polynomial { IsPolynomial (field_values field.now) a.now }
        requires point { (field_values field.now).Valid v.now }
        ensures value { result ≡ evaluate (field_values field.now).ops a.now v.now }
        ensures valid { (field_values field.now).Valid result }
    {
        value_of(field, a.coefficients(), v)
    }
}

// The value of the polynomial with the coefficients f at v.
fn value_of(field: &Field, f: &[Value], v: &Value) -> Value
    requires values { All (field_values field.now).Valid f.now }
    requires point { (field_values field.now).Valid v.now }
    ensures value { result ≡ evaluate (field_values field.now).ops f.now v.now }
    ensures valid { (field_values field.now).Valid result }
{
    let _prime = field.prime();
    let mut value = field.zero();
    let mut n = f.len();
    while n > 0 {
        n -= 1;
        value = field.add(&f[n], &field.mul(v, &value));
    }
    value
}
