//! Constants of a field, sums and products.
ghost use Rattle.std.specs.Prelude.{◌≡◌, ℕ, ◌+◌, ◌-◌, ◌%◌, ◌<◌, ◌≤◌, length, slice_index, All};
ghost use Rattle.alg_model.specs.Coefficients.{mod_ops};
ghost use Rattle.alg_model.specs.Polynomials.{trim};
ghost use Rattle.alg_model.specs.Values.{remainder};
ghost use Rattle.alg_model.specs.Maps.{field_values, generator, constant};
ghost use Rattle.ff_field.specs.SmallFields.{IsSmallField};

use crate::tables::zeros;
use crate::{Field, Value};
use ff_poly::{MAX_DEGREE, Poly, Prime};

impl Field {
    /// Zero.
    pub fn zero(&self) -> Value
        ensures value { result ≡ (field_values self.now).ops.zero }
        ensures valid { (field_values self.now).Valid result }
    {
        Value::padded(&[], self.degree() as usize)
    }

    /// One.
    pub fn one(&self) -> Value
        ensures value { result ≡ (field_values self.now).ops.one }
        ensures valid { (field_values self.now).Valid result }
    {
        let _number = self.prime().number();
        self.of_residue(1)
    }

    /// The generator: the class of `x`.
    pub fn generator(&self) -> Value
        ensures value { result ≡ generator self.now }
        ensures valid { (field_values self.now).Valid result }
    {
        self.modulus().generator()
    }

    /// A residue as a value of the field: the constant.
    pub fn of_residue(&self, c: u8) -> Value
        requires { c < self.now.characteristic }
        ensures value { result ≡ constant self.now c }
        ensures valid { (field_values self.now).Valid result }
    {
        Value::padded(&[c], self.degree() as usize)
    }

    /// The sum `a + b`.
    pub fn add(&self, a: &Value, b: &Value) -> Value
        requires first { (field_values self.now).Valid a.now }
        requires second { (field_values self.now).Valid b.now }
        ensures value { result ≡ (field_values self.now).ops.add a.now b.now }
        ensures valid { (field_values self.now).Valid result }
    {
        let n = self.degree() as usize;
        let row = sum_row(self.prime(), a.digits(), b.digits());
        Value::padded(&row[..n], n)
    }

    /// The difference `a - b`.
    pub fn sub(&self, a: &Value, b: &Value) -> Value
        requires first { (field_values self.now).Valid a.now }
        requires second { (field_values self.now).Valid b.now }
        ensures value { result
            ≡ (field_values self.now).ops.add a.now ((field_values self.now).ops.neg b.now) }
        ensures valid { (field_values self.now).Valid result }
    {
        self.add(a, &self.neg(b))
    }

    /// The negative `-a`.
    pub fn neg(&self, a: &Value) -> Value
        requires { (field_values self.now).Valid a.now }
        ensures value { result ≡ (field_values self.now).ops.neg a.now }
        ensures valid { (field_values self.now).Valid result }
    {
        let n = self.degree() as usize;
        let row = negative_row(self.prime(), a.digits());
        Value::padded(&row[..n], n)
    }

    /// The product `a * b`.
    pub fn mul(&self, a: &Value, b: &Value) -> Value
        requires first { (field_values self.now).Valid a.now }
        requires second { (field_values self.now).Valid b.now }
        ensures value { result ≡ (field_values self.now).ops.mul a.now b.now }
        ensures valid { (field_values self.now).Valid result }
    {
        self.modulus().mul(a, b)
    }

    // The polynomial with the digits of a value as coefficients.
    pub(crate) fn poly_of(&self, a: &Value) -> Poly
        requires { (field_values self.now).Valid a.now }
        ensures prime { result.prime ≡ self.now.characteristic }
        ensures coefficients { result.coefficients
            ≡ trim (mod_ops self.now.characteristic) a.now }
        ensures short { length result.coefficients ≤ length a.now }
        ensures whole { IsSmallField self.now }
    {
        Poly::trimmed(self.prime(), a.digits())
    }

    // The value of a polynomial: its remainder by that of the field.
    pub(crate) fn reduced(&self, g: &Poly) -> Value
        requires { g.now.prime ≡ self.now.characteristic }
        ensures value { result ≡ remainder (mod_ops self.now.characteristic) self.now.polynomial
            g.now.coefficients }
        ensures valid { (field_values self.now).Valid result }
    {
        self.modulus().reduced(g)
    }
}

// The sum, place by place, with zeros after it.
pub(crate) fn sum_row(p: Prime, a: &[u8], b: &[u8]) -> [u8; MAX_DEGREE]
    requires room { length a.now ≤ MAX_DEGREE }
    requires same { length a.now ≡ length b.now }
    requires first { All (λ x. x < p) a.now }
    requires second { All (λ x. x < p) b.now }
    ensures len { length result ≡ MAX_DEGREE }
    ensures residues { All (λ x. x < p) result }
    ensures places { (k : ℕ) → k < length a.now
        → slice_index result k ≡ (slice_index a.now k + slice_index b.now k) % p }
{
    let _number = p.number();
    let mut row = zeros::<MAX_DEGREE>();
    for k in 0..a.len() {
        row[k] = p.add(a[k], b[k]);
    }
    row
}

// The negative, place by place, with zeros after it.
fn negative_row(p: Prime, a: &[u8]) -> [u8; MAX_DEGREE]
    requires room { length a.now ≤ MAX_DEGREE }
    requires residues { All (λ x. x < p) a.now }
    ensures len { length result ≡ MAX_DEGREE }
    ensures places { (k : ℕ) → k < length a.now
        → slice_index result k ≡ (p - slice_index a.now k) % p }
{
    let mut row = zeros::<MAX_DEGREE>();
    for k in 0..a.len() {
        row[k] = p.neg(a[k]);
    }
    row
}
