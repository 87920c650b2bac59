//! Values of a field.
ghost use Rattle.std.specs.Prelude.{◌≡◌, ◌↔◌, ◌-◌, ◌<◌, ◌≤◌, ◌++◌, length, replicate, All};
ghost use Rattle.std.specs.Prelude.{IsTrue, IsOk, IfOk, IfErr, IfSome};
ghost use Rattle.std.specs.Ordering.{nat_cmp};
ghost use Rattle.alg_model.specs.Coefficients.{mod_ops};
ghost use Rattle.alg_model.specs.Factors.{order_by};
ghost use Rattle.alg_model.specs.Values.{padded};
ghost use Rattle.alg_model.specs.Maps.{field_values, degree_of};
ghost use Rattle.ff_field.specs.SmallFields.{IsFirstTooLarge, IsValueFault};

use crate::Field;
use arrayvec::ArrayVec;
use ff_lists::{Copies, fixed};
use ff_poly::{MAX_DEGREE, Prime, compare_places};
use std::cmp::Ordering;
use std::marker::Model;

/// The digits of a value of a field, lowest first: at most `MAX_DEGREE` numbers. Of which fields it
/// is a value, their number and their size decide. Of `default` no clause says what it gives.
#[derive(Default, Drop)]
pub struct Value {
    digits: ArrayVec<u8, MAX_DEGREE>,
}

impl Model for Value {
    ghost use Rattle.std.specs.Prelude.{ℕ, List};

    ghost Value = { List ℕ };

    ghost view = { λ a. a.digits.items };
}

/// Why numbers are no digits of a value of a field.
#[derive(Clone, Copy, PartialEq, Eq, Debug)]
pub enum ValueFault {
    /// There are more numbers than the degree: how many there are.
    TooMany(usize),

    /// A number isn't below the characteristic: the first place of such a one.
    TooLarge(u32),
}

impl Value {
    /// The value of the field with the digits `c`, lowest first; zeros are added at the end up to
    /// the degree.
    ///
    /// `TooMany` where `c` has more numbers than the degree, and else `TooLarge` where a number
    /// isn't below the characteristic.
    pub fn of_slice(field: &Field, c: &[u8]) -> Result<Value, ValueFault>
        ensures ok { IsOk result ↔ ((length c.now ≤ degree_of field.now)
            × All (λ x. x < field.now.characteristic) c.now) }
        ensures made { IfOk result (λ v. v
            ≡ padded (mod_ops field.now.characteristic) (degree_of field.now) c.now) }
        ensures valid { IfOk result (λ v. (field_values field.now).Valid v) }
        ensures fault { IfErr result (λ e. IsValueFault field.now c.now e) }
    {
        let n = field.degree() as usize;
        if c.len() > n {
            return Err(ValueFault::TooMany(c.len()));
        }
        match first_too_large(field.prime(), c) {
            Some(place) => Err(ValueFault::TooLarge(place as u32)),
            None => Ok(Value::padded(c, n)),
        }
    }

    /// The value with exactly these digits, lowest first. Of which field it is a value, their
    /// number and their size decide.
    pub fn of_digits(c: &[u8]) -> Value
        requires { length c.now ≤ MAX_DEGREE }
        ensures { result ≡ c.now }
    {
        Value { digits: fixed(c) }
    }

    // The numbers c, and zeros after them up to n places.
    pub(crate) fn padded(c: &[u8], n: usize) -> Value
        requires fits { n ≤ MAX_DEGREE }
        requires room { length c.now ≤ n }
        ensures { result ≡ c.now ++ replicate (n - length c.now) 0 }
    {
        let mut digits = fixed(c);
        'zeros: for _k in c.len()..n {
            digits.push(0);
        }
        Value { digits }
    }

    /// The digits, lowest first.
    pub fn digits(&self) -> &[u8]
        ensures value { result.now ≡ self.now }
        ensures whole { length self.now ≤ MAX_DEGREE }
    {
        self.digits.as_slice()
    }

    /// An equal value.
    pub fn copy(&self) -> Value
        ensures { result ≡ self.now }
    {
        Value {
            digits: fixed(self.digits.as_slice()),
        }
    }
}

impl Copies for Value {
    fn copy(&self) -> Self {
        Value::copy(self)
    }
}

// The place of the first number that isn't below p.
fn first_too_large(p: Prime, c: &[u8]) -> Option<usize>
    ensures none { (result ≡ None) ↔ All (λ x. x < p) c.now }
    ensures some { IfSome result (λ place. IsFirstTooLarge p c.now place) }
{
    let p = p.number();
    c.iter().position(|x| *x >= p)
}

impl Field {
    /// Whether `a` is zero.
    pub fn is_zero(&self, a: &Value) -> bool
        requires { (field_values self.now).Valid a.now }
        ensures { IsTrue result ↔ (a.now ≡ (field_values self.now).ops.zero) }
    {
        let _degree = self.degree();
        a.digits().iter().all(|x| *x == 0)
    }

    /// The order of values: from the highest place down, at the first difference.
    pub fn compare(&self, a: &Value, b: &Value) -> Ordering
        requires first { (field_values self.now).Valid a.now }
        requires second { (field_values self.now).Valid b.now }
        ensures { result ≡ order_by nat_cmp a.now b.now }
    {
        compare_places(a.digits(), b.digits())
    }
}
