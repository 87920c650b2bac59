//! Minimal polynomials.
ghost use Rattle.std.specs.Prelude.{◌≡◌, ℕ, ◌+◌, ◌*◌, ◌<◌, ◌≤◌, length, slice_index, All};
ghost use Rattle.alg_model.specs.Maps.{field_values, degree_of, IsEmbedding};
ghost use Rattle.alg_model.specs.Roots.{IsMinimal, IsMinimalOver};
ghost use Rattle.ff_embed.specs.SmallEmbeddings.{IsSmallEmbedding};
ghost use Rattle.ff_minpoly.specs.PrivateRelations.{IsMonicOf};

use crate::relations::relation;
use arrayvec::ArrayVec;
use ff_embed::Embedding;
use ff_field::{Field, Value};
use ff_lists::fixed;
use ff_poly::{MAX_DEGREE, MAX_POLY, MAX_POLYX, Poly};
use ff_polyx::PolyX;

/// The minimal polynomial of a value over the prime field: the monic polynomial of least degree
/// that vanishes there.
///
/// The powers 1, a, a^2, .. go through one elimination, which stops at the first that is a
/// combination of the lower ones (von zur Gathen and Gerhard, Modern Computer Algebra, 12.3).
pub fn over_prime(field: &Field, a: &Value) -> Poly
    requires { (field_values field.now).Valid a.now }
    ensures prime { result.prime ≡ field.now.characteristic }
    ensures minimal { IsMinimal field.now a.now result.coefficients }
{
    let p = field.prime();
    let _number = p.number();
    let mut block = [field.one()];
    let digits = relation(field, &mut block, a);
    let mut coefficients = fixed::<MAX_POLY>(digits.as_slice());
    coefficients.push(1);
    Poly::trimmed(p, coefficients.as_slice())
}

/// The minimal polynomial of a value of the target of `map` over the source of `map`: the monic
/// polynomial of least degree that vanishes there.
///
/// The products of the images of 1, x, x^2, .. with 1, a, a^2, .. go through one elimination over
/// the prime field, which stops at the first power of `a` that is a combination of the products
/// with the lower powers.
pub fn over(map: &Embedding, a: &Value) -> PolyX
    requires { (field_values map.now.target).Valid a.now }
    ensures { IsMinimalOver map.now.source map.now.target map.now.images a.now result }
{
    over_in(&map.source(), &map.target(), map, a)
}

/// The same as `over`, with the two fields of `map`, whose tables are then not made anew.
pub fn over_in(source: &Field, target: &Field, map: &Embedding, a: &Value) -> PolyX
    requires source { source.now ≡ map.now.source }
    requires target { target.now ≡ map.now.target }
    requires value { (field_values map.now.target).Valid a.now }
    ensures { IsMinimalOver map.now.source map.now.target map.now.images a.now result }
{
    let mut images = images_of(map);
    by_images(source, target, images.as_mut_slice(), a)
}

// The images of 1, x, x^2, ...
fn images_of(map: &Embedding) -> ArrayVec<Value, MAX_DEGREE>
    ensures images { result.items ≡ map.now.images }
    ensures whole { IsSmallEmbedding map.now }
{
    let _prime = map.prime();
    let mut images = ArrayVec::new();
    for k in 0..map.source_degree() as usize {
        images.push(map.power_image(k));
    }
    images
}

// The minimal polynomial of a over `source`, where its generator's powers have these images in
// `target`; their products take the place of the images.
fn by_images(source: &Field, target: &Field, images: &mut [Value], a: &Value) -> PolyX
    requires embedding { IsEmbedding source.now target.now images.old }
    requires value { (field_values target.now).Valid a.now }
    ensures { IsMinimalOver source.now target.now images.old a.now result }
{
    let (_source, _target) = (source.prime(), target.prime());
    let digits = relation(target, images, a);
    of_digits(source, digits.as_slice())
}

// The monic polynomial whose coefficients below the leading one have these digits.
fn of_digits(field: &Field, digits: &[u8]) -> PolyX
    requires residues { All (λ x. x < field.now.characteristic) digits.now }
    requires count { (r : ℕ) × (length digits.now ≡ r * degree_of field.now) }
    requires room { length digits.now ≤ MAX_DEGREE }
    ensures { IsMonicOf field.now digits.now result }
{
    let d = field.degree() as usize;
    let mut coefficients = ArrayVec::<Value, MAX_POLYX>::new();
    for j in 0..digits.len() / d {
        coefficients.push(value_at(digits, j * d, d));
    }
    coefficients.push(field.one());
    PolyX::of_values(field, coefficients.as_slice())
}

// The value whose d digits stand from `start` on.
fn value_at(digits: &[u8], start: usize, d: usize) -> Value
    requires within { start + d ≤ length digits.now }
    requires room { d ≤ MAX_DEGREE }
    ensures count { length result ≡ d }
    ensures places { (i : ℕ) → i < d → slice_index result i ≡ slice_index digits.now (start + i) }
    ensures residues { (p : ℕ) → All (λ x. x < p) digits.now → All (λ x. x < p) result }
{
    Value::of_digits(&digits[start..start + d])
}
