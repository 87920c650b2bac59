//! Lists of values as slices.
ghost use Rattle.std.specs.Prelude.{◌≡◌, ◌≢◌, ℕ, ◌+◌, ◌-◌, ◌<◌, ◌≤◌, ◌++◌, length, replicate};
ghost use Rattle.std.specs.Prelude.{slice_index_or, All};
ghost use Rattle.alg_model.specs.Maps.{field_values};

use arrayvec::ArrayVec;
use ff_field::{Field, Value};
use ff_poly::MAX_POLYX;

/// The values `c`, and zeros after them up to `n` places.
pub(crate) fn padded(field: &Field, c: &[Value], n: usize) -> ArrayVec<Value, MAX_POLYX>
    requires fits { n ≤ MAX_POLYX }
    requires room { length c.now ≤ n }
    ensures { result.items
        ≡ c.now ++ replicate (n - length c.now) (field_values field.now).ops.zero }
{
    let mut places = ArrayVec::new();
    'copies: for x in c {
        places.push(x.copy());
    }
    'zeros: for _k in c.len()..n {
        places.push(field.zero());
    }
    places
}

/// Adds `factor * x^at * b` to `places`.
pub(crate) fn add_multiple(
    field: &Field,
    places: &mut [Value],
    at: usize,
    factor: &Value,
    b: &[Value],
)
    requires room { at + length b.now ≤ length places.old }
    requires places { All (field_values field.now).Valid places.old }
    requires factor { (field_values field.now).Valid factor.now }
    requires values { All (field_values field.now).Valid b.now }
    ensures len { length places.new ≡ length places.old }
    ensures values { All (field_values field.now).Valid places.new }
    ensures below { (k : ℕ) → k < at
        → slice_index_or places.new k (field_values field.now).ops.zero
        ≡ slice_index_or places.old k (field_values field.now).ops.zero }
    ensures above { let o = (field_values field.now).ops in
        (k : ℕ) → slice_index_or places.new (at + k) o.zero
        ≡ o.add (slice_index_or places.old (at + k) o.zero)
        (o.mul factor.now (slice_index_or b.now k o.zero)) }
{
    let _prime = field.prime();
    for j in 0..b.len() {
        let multiple = field.mul(factor, &b[j]);
        places[at + j] = field.add(&places[at + j], &multiple);
    }
}
