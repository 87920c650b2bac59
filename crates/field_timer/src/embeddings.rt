//! The operations with an embedding that are timed.
ghost use Rattle.std.specs.Prelude.{◌≡◌, length, All, IfSome};
ghost use Rattle.field_timer.specs.declared.fields.TheConstants.{VALUES};
ghost use Rattle.alg_model.specs.Maps.{field_values};

use crate::fields::{VALUES, powers_of, some_value, some_values};
use crate::operations::{first_of, lowest_digit};
use ff_embed::Embedding;
use ff_field::{Field, Value};
use ff_minpoly::{over_in, over_prime};
use ff_polyx::PolyX;
use ff_roots::conjugate_roots;

/// An operation with an embedding of one field, the source, in another, the target.
#[derive(Clone, Copy)]
pub enum MapOperation {
    /// None: what is timed beside it.
    Nothing,

    /// All images that the generator may have: the roots of the source's polynomial.
    Roots,

    /// The image of a value.
    Apply,

    /// The value that has this image.
    Preimage,

    /// The minimal polynomial of a value of the target over the prime field.
    Minimal,

    /// The minimal polynomial of a value of the target over the source.
    Relative,
}

impl MapOperation {
    /// The operation of this name.
    pub fn of(name: &str) -> Option<MapOperation> {
        match name {
            "nothing" => Some(MapOperation::Nothing),
            "roots" => Some(MapOperation::Roots),
            "apply" => Some(MapOperation::Apply),
            "preimage" => Some(MapOperation::Preimage),
            "minimal" => Some(MapOperation::Minimal),
            "relative" => Some(MapOperation::Relative),
            _ => None,
        }
    }

    // A number that stands for the operation's result: a is a value of the source, b the image of
    // one, c any value of the target.
    fn apply(
        self,
        source: &Field,
        target: &Field,
        map: &Embedding,
        a: &Value,
        b: &Value,
        c: &Value,
    ) -> u8
        requires source { source.now ≡ map.now.source }
        requires target { target.now ≡ map.now.target }
        requires first { (field_values map.now.source).Valid a.now }
        requires second { (field_values map.now.target).Valid b.now }
        requires third { (field_values map.now.target).Valid c.now }
    {
        match self {
            MapOperation::Nothing => lowest_digit(a),
            MapOperation::Roots => roots_of(source, target, map),
            MapOperation::Apply => lowest_digit(&map.apply(a)),
            MapOperation::Preimage => match map.preimage(b) {
                Some(value) => lowest_digit(&value),
                None => 0,
            },
            MapOperation::Minimal => first_of(over_prime(target, c).coefficients()),
            MapOperation::Relative => digit_of_first(&over_in(source, target, map, c)),
        }
    }
}

// The lowest digit of the first coefficient.
fn digit_of_first(f: &PolyX) -> u8 {
    match f.coefficients().first() {
        Some(coefficient) => lowest_digit(coefficient),
        None => 0,
    }
}

// How many roots the source's polynomial has in the target.
fn roots_of(source: &Field, target: &Field, map: &Embedding) -> u8
    requires source { source.now ≡ map.now.source }
    requires target { target.now ≡ map.now.target }
{
    let _prime = map.prime();
    conjugate_roots(target, source.poly()).items().len() as u8
}

/// The embedding of the source in the target by the least root, or None where there is none.
pub fn least_embedding(source: &Field, target: &Field) -> Option<Embedding>
    ensures source { IfSome result (λ e. e.source ≡ source.now) }
    ensures target { IfSome result (λ e. e.target ≡ target.now) }
{
    if source.prime().number() != target.prime().number() {
        return None;
    }
    let roots = conjugate_roots(target, source.poly());
    let root = Value::of_slice(target, roots.items().first()?.digits()).ok()?;
    Embedding::of_root(source, target, &root)
}

/// Does the operation so often, on values in turn, and gives the sum of the numbers that stand for
/// its results.
pub fn map_checksum(map: &Embedding, operation: MapOperation, count: u32) -> u32 {
    let (source, target) = (map.source(), map.target());
    let first = some_value(&source);
    let values = powers_of(&source, &first);
    let images = powers_of(&target, &map.apply(&first));
    let others = some_values(&target);
    let samples = (values.as_slice(), images.as_slice(), others.as_slice());
    repeated(&source, &target, map, samples, operation, count)
}

// The sum of the numbers for these values.
fn repeated(
    source: &Field,
    target: &Field,
    map: &Embedding,
    samples: (&[Value], &[Value], &[Value]),
    operation: MapOperation,
    count: u32,
) -> u32
    requires source { source.now ≡ map.now.source }
    requires target { target.now ≡ map.now.target }
    requires first { All (field_values map.now.source).Valid samples.0.now }
    requires second { All (field_values map.now.target).Valid samples.1.now }
    requires third { All (field_values map.now.target).Valid samples.2.now }
    requires first_count { length samples.0.now ≡ VALUES }
    requires second_count { length samples.1.now ≡ VALUES }
    requires third_count { length samples.2.now ≡ VALUES }
{
    let (values, images, others) = samples;
    let mut sum: u32 = 0;
    for i in 0..count as usize {
        let k = i % VALUES;
        let number = operation.apply(source, target, map, &values[k], &images[k], &others[k]);
        sum = sum.wrapping_add(number as u32);
    }
    sum
}
