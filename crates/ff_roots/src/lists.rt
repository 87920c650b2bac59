//! Lists of roots in their order.
ghost use Rattle.std.specs.Prelude.{◌≡◌, ◌≢◌, ℕ, List, ◌<◌, ◌≤◌, All, Contains, length, slice_index_or};
ghost use Rattle.std.specs.Ordering.{nat_cmp};
ghost use Rattle.alg_model.specs.Factors.{order_by};
ghost use Rattle.alg_model.specs.Maps.{field_values};
ghost use Rattle.ff_roots.specs.PrivateCollecting.{IsRising, Collects};

use ff_field::{Field, Value};
use ff_lists::BoundedList;
use ff_poly::MAX_DEGREE;
use std::cmp::Ordering;

/// At most `MAX_DEGREE` values. The calls that give roots put the least first; the type keeps no
/// order.
pub type RootList = BoundedList<Value, MAX_DEGREE>;

// Puts a value that isn't in the list before the first that comes after it.
pub(crate) fn add_root(field: &Field, list: &mut RootList, v: &Value)
    requires list { IsRising field.now list.old }
    requires value { (field_values field.now).Valid v.now }
    requires new { ¬ Contains list.old v.now }
    requires room { length list.old < MAX_DEGREE }
    ensures { Collects field.now (λ w. w ≡ v.now) 1 list.old list.new }
{
    let place = place_of(field, list.items(), v);
    list.insert(place, v.copy());
}

// The place of the first of these values that comes after v, or their number.
fn place_of(field: &Field, values: &[Value], v: &Value) -> usize
    requires values { All (field_values field.now).Valid values.now }
    requires value { (field_values field.now).Valid v.now }
    ensures within { result ≤ length values.now }
    ensures before { (k : ℕ) (d : List ℕ) → k < result
        → order_by nat_cmp v.now (slice_index_or values.now k d) ≢ Ordering.Less }
    ensures after { (d : List ℕ) → result < length values.now
        → order_by nat_cmp v.now (slice_index_or values.now result d) ≡ Ordering.Less }
{
    for (i, x) in values.iter().enumerate() {
        if field.compare(v, x) == Ordering::Less {
            return i;
        }
    }
    values.len()
}
