//! Values by their digits.
ghost use Rattle.alg_model.specs.Maps.{field_values};

use ff_field::{Field, Value};
use std::process::Abort;

/// The value with these digits, lowest first.
pub(crate) fn value_of(rt: &impl Abort, field: &Field, c: &[u8]) -> Value
    ensures { (field_values field.now).Valid result }
{
    Value::of_slice(field, c).expect(rt, "digits")
}
