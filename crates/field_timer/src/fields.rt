//! The field and the values that are worked on.
ghost use Rattle.std.specs.Prelude.{◌≡◌, ◌+◌, ◌<◌, ◌≤◌, length, All, IfSome};
ghost use Rattle.alg_model.specs.Coefficients.{residues};
ghost use Rattle.alg_model.specs.Factors.{IsMonic};
ghost use Rattle.alg_model.specs.Maps.{field_values};

use arrayvec::ArrayVec;
use ff_factor::{Verdict, judge};
use ff_field::{Field, Value};
use ff_poly::{MAX_DEGREE, Poly, Prime};

/// How many values are worked on in turn.
pub const VALUES: usize = 8;

// The exponent of the first value over the generator: the golden ratio in 63 binary digits.
const EXPONENT: u64 = 5_700_357_409_661_599_242;

// The monic polynomial of degree 1 to MAX_DEGREE with these coefficients.
fn monic(p: u32, c: &[u8]) -> Option<Poly>
    ensures monic { IfSome result (λ f. IsMonic (residues f.prime) f.coefficients) }
    ensures not_constant { IfSome result (λ f. 1 < length f.coefficients) }
    ensures degree { IfSome result (λ f. length f.coefficients ≤ MAX_DEGREE + 1) }
{
    let f = Poly::of_slice(Prime::of(p)?, c)?;
    let coefficients = f.coefficients();
    let len = coefficients.len();
    if len > 1 && len <= MAX_DEGREE + 1 && coefficients[len - 1] == 1 {
        Some(f)
    } else {
        None
    }
}

/// The field of this characteristic with this polynomial, or None where there is none.
pub fn field_of(p: u32, c: &[u8]) -> Option<Field> {
    let f = monic(p, c)?;
    match judge(&f) {
        Verdict::Irreducible(_) => Some(Field::new(f)),
        Verdict::Reducible {
            factor: _,
            cofactor: _,
        } => None,
    }
}

/// A value whose digits follow no pattern: a high power of the generator.
pub fn some_value(field: &Field) -> Value
    ensures { (field_values field.now).Valid result }
{
    field.pow(&field.generator(), EXPONENT)
}

/// The powers a, a^2, .. of a value a.
pub fn powers_of(field: &Field, a: &Value) -> ArrayVec<Value, VALUES>
    requires value { (field_values field.now).Valid a.now }
    ensures count { length result.items ≡ VALUES }
    ensures valid { All (field_values field.now).Valid result.items }
{
    let mut values = ArrayVec::new();
    let mut value = a.copy();
    for _k in 0..VALUES {
        values.push(value.copy());
        value = field.mul(&value, a);
    }
    values
}

/// Values whose digits follow no pattern.
pub fn some_values(field: &Field) -> ArrayVec<Value, VALUES>
    ensures count { length result.items ≡ VALUES }
    ensures valid { All (field_values field.now).Valid result.items }
{
    powers_of(field, &some_value(field))
}
