//! The operations that are timed.
ghost use Rattle.std.specs.Prelude.{◌<◌, length, All};
ghost use Rattle.alg_model.specs.Maps.{field_values};

use ff_factor::least_irreducible;
use ff_field::{Field, Value};
use ff_poly::Poly;

/// An operation of a field.
#[derive(Clone, Copy)]
pub enum Operation {
    /// None: what is timed beside it.
    Nothing,

    /// The making of a field.
    Make,

    /// The product of two values.
    Product,

    /// The inverse of a value.
    Inverse,

    /// The image of a value under Frobenius.
    Frobenius,

    /// The trace of a value.
    Trace,

    /// The norm of a value.
    Norm,

    /// The least irreducible polynomial of the field's degree.
    Irreducible,
}

impl Operation {
    /// The operation of this name.
    pub fn of(name: &str) -> Option<Operation> {
        match name {
            "nothing" => Some(Operation::Nothing),
            "make" => Some(Operation::Make),
            "product" => Some(Operation::Product),
            "inverse" => Some(Operation::Inverse),
            "frobenius" => Some(Operation::Frobenius),
            "trace" => Some(Operation::Trace),
            "norm" => Some(Operation::Norm),
            "irreducible" => Some(Operation::Irreducible),
            _ => None,
        }
    }

    // A number that stands for the operation's result.
    fn apply(self, field: &Field, a: &Value, b: &Value) -> u8
        requires first { (field_values field.now).Valid a.now }
        requires second { (field_values field.now).Valid b.now }
    {
        match self {
            Operation::Nothing => lowest_digit(a),
            Operation::Make => degree_of_another(field),
            Operation::Product => lowest_digit(&field.mul(a, b)),
            Operation::Inverse => match field.inv(a) {
                Some(inverse) => lowest_digit(&inverse),
                None => 0,
            },
            Operation::Frobenius => lowest_digit(&field.frob(a)),
            Operation::Trace => field.trace(a),
            Operation::Norm => field.norm(a),
            Operation::Irreducible => first_of(least_irreducible_of(field).coefficients()),
        }
    }
}

// The lowest digit of a value.
pub(crate) fn lowest_digit(a: &Value) -> u8 {
    match a.digits().first() {
        Some(digit) => *digit,
        None => 0,
    }
}

// The first of some residues.
pub(crate) fn first_of(residues: &[u8]) -> u8 {
    match residues.first() {
        Some(residue) => *residue,
        None => 0,
    }
}

// The least irreducible polynomial of the field's characteristic and degree.
fn least_irreducible_of(field: &Field) -> Poly {
    least_irreducible(field.prime(), field.degree())
}

// Makes the field anew, and gives its degree.
fn degree_of_another(field: &Field) -> u8 {
    let another = Field::new(field.poly().copy());
    another.degree() as u8
}

/// Does the operation so often, on the values in turn, and gives the sum of the numbers that stand
/// for its results.
pub fn checksum(field: &Field, values: &[Value], operation: Operation, count: u32) -> u32
    requires some { 0 < length values.now }
    requires valid { All (field_values field.now).Valid values.now }
{
    let n = values.len();
    let mut sum: u32 = 0;
    for i in 0..count as usize {
        let number = operation.apply(field, &values[i % n], &values[(i + 1) % n]);
        sum = sum.wrapping_add(number as u32);
    }
    sum
}
