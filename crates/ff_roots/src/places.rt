//! Lists of values as slices.
ghost use Rattle.std.specs.Prelude.{◌≡◌, ℕ, List, ◌+◌, ◌*◌, ◌%◌, ◌<◌, ◌≤◌, All, length, replicate, slice_index};
ghost use Rattle.alg_model.specs.Polynomials.{evaluate};
ghost use Rattle.alg_model.specs.Maps.{field_values, constant, constants};

use arrayvec::ArrayVec;
use ff_field::{Field, Value};
use ff_poly::{MAX_DEGREE, Prime};

// n zeros.
pub(crate) fn zeros(field: &Field, n: usize) -> ArrayVec<Value, MAX_DEGREE>
    requires { n ≤ MAX_DEGREE }
    ensures { result.items ≡ replicate n (field_values field.now).ops.zero }
{
    let mut places = ArrayVec::new();
    'zeros: for _k in 0..n {
        places.push(field.zero());
    }
    places
}

// Adds the multiples of a value by residues to places.
pub(crate) fn add_residue_multiples(field: &Field, places: &mut [Value], v: &Value, residues: &[u8])
    requires places { All (field_values field.now).Valid places.old }
    requires value { (field_values field.now).Valid v.now }
    requires residues { All (λ x. x < field.now.characteristic) residues.now }
    requires room { length residues.now ≤ length places.old }
    ensures len { length places.new ≡ length places.old }
    ensures places { All (field_values field.now).Valid places.new }
    ensures sum { let o = (field_values field.now).ops in
        (w : List ℕ) → (field_values field.now).Valid w
        → evaluate o places.new w ≡ o.add (evaluate o places.old w)
        (o.mul v.now (evaluate o (constants field.now residues.now) w)) }
{
    let _prime = field.prime();
    for l in 0..residues.len() {
        places[l] = with_multiple(field, &places[l], v, residues[l]);
    }
}

// The sum a + c v for a residue c.
fn with_multiple(field: &Field, a: &Value, v: &Value, c: u8) -> Value
    requires first { (field_values field.now).Valid a.now }
    requires second { (field_values field.now).Valid v.now }
    requires residue { c < field.now.characteristic }
    ensures value { let o = (field_values field.now).ops in
        result ≡ o.add a.now (o.mul v.now (constant field.now c)) }
    ensures valid { (field_values field.now).Valid result }
{
    let n = field.degree() as usize;
    if c == 0 {
        return a.copy();
    }
    let row = row_with_multiple(field.prime(), a.digits(), v.digits(), c);
    Value::of_digits(&row[..n])
}

// The same, digit by digit, with zeros after it.
fn row_with_multiple(p: Prime, a: &[u8], v: &[u8], c: u8) -> [u8; MAX_DEGREE]
    requires room { length a.now ≤ MAX_DEGREE }
    requires same { length a.now ≡ length v.now }
    requires first { All (λ x. x < p) a.now }
    requires second { All (λ x. x < p) v.now }
    requires residue { c < p }
    ensures len { length result ≡ MAX_DEGREE }
    ensures places { (k : ℕ) → k < length a.now
        → slice_index result k ≡ (slice_index a.now k + c * slice_index v.now k) % p }
{
    let _number = p.number();
    let mut row = blank_row();
    for k in 0..a.len() {
        row[k] = p.reduced(a[k] as u16 + c as u16 * v[k] as u16) as u8;
    }
    row
}

// Zeros.
#[inline(always)]
fn blank_row() -> [u8; MAX_DEGREE]
    ensures { length result ≡ MAX_DEGREE }
{
    [0; MAX_DEGREE]
}

// Adds the multiples of a value by values to places.
pub(crate) fn add_multiples(field: &Field, places: &mut [Value], v: &Value, values: &[Value])
    requires places { All (field_values field.now).Valid places.old }
    requires value { (field_values field.now).Valid v.now }
    requires values { All (field_values field.now).Valid values.now }
    requires room { length values.now ≤ length places.old }
    ensures len { length places.new ≡ length places.old }
    ensures places { All (field_values field.now).Valid places.new }
    ensures sum { let o = (field_values field.now).ops in
        (w : List ℕ) → (field_values field.now).Valid w
        → evaluate o places.new w ≡ o.add (evaluate o places.old w)
        (o.mul v.now (evaluate o values.now w)) }
{
    let _prime = field.prime();
    for l in 0..values.len() {
        let multiple = field.mul(v, &values[l]);
        places[l] = field.add(&places[l], &multiple);
    }
}
