//! The embedding that a root gives.
ghost use Rattle.std.specs.Prelude.{◌≡◌, ◌↔◌, ◌<◌, ◌≤◌, All, IsSome, IfSome};
ghost use Rattle.alg_model.specs.Polynomials.{evaluate};
ghost use Rattle.alg_model.specs.Maps.{field_values, degree_of, constants, powers};
ghost use Rattle.alg_model.specs.Roots.{IsRoot};
ghost use Rattle.ff_embed.specs.SmallEmbeddings.{IsSmallEmbedding};

use crate::Embedding;
use crate::columns::Columns;
use ff_field::{Field, Value};
use ff_poly::MAX_DEGREE;

impl Embedding {
    /// The embedding that sends the generator of `from` to `v`, by the powers of `v`; `None`
    /// exactly where `v` is no root of the polynomial of `from`.
    ///
    /// Both fields have one characteristic, and `v` is a value of `into`.
    pub fn of_root(from: &Field, into: &Field, v: &Value) -> Option<Embedding>
        requires characteristic { from.now.characteristic ≡ into.now.characteristic }
        requires valid { (field_values into.now).Valid v.now }
        ensures some { IsSome result
            ↔ IsRoot into.now (constants into.now from.now.polynomial) v.now }
        ensures source { IfSome result (λ e. e.source ≡ from.now) }
        ensures target { IfSome result (λ e. e.target ≡ into.now) }
        ensures images { IfSome result (λ e. e.images
            ≡ powers into.now v.now (degree_of from.now)) }
        ensures whole { IfSome result IsSmallEmbedding }
    {
        if !into.is_zero(&value_at(into, from.poly().coefficients(), v)) {
            return None;
        }
        Some(by_powers(from, into, v))
    }
}

// The embedding by the powers of a root.
fn by_powers(from: &Field, into: &Field, v: &Value) -> Embedding
    requires characteristic { from.now.characteristic ≡ into.now.characteristic }
    requires root { IsRoot into.now (constants into.now from.now.polynomial) v.now }
    ensures source { result.source ≡ from.now }
    ensures target { result.target ≡ into.now }
    ensures images { result.images ≡ powers into.now v.now (degree_of from.now) }
    ensures whole { IsSmallEmbedding result }
{
    let _target = into.degree();
    let images = power_columns(into, v, from.degree() as usize);
    let inverse = images.left_inverse();
    let _prime = inverse.prime();
    Embedding::of_parts(from.poly().copy(), into.poly().copy(), images, inverse)
}

// The value at v of the polynomial whose coefficients are these residues, by Horner's rule.
fn value_at(field: &Field, f: &[u8], v: &Value) -> Value
    requires residues { All (λ c. c < field.now.characteristic) f.now }
    requires point { (field_values field.now).Valid v.now }
    ensures value { result
        ≡ evaluate (field_values field.now).ops (constants field.now f.now) v.now }
    ensures valid { (field_values field.now).Valid result }
{
    let _prime = field.prime();
    let mut value = field.zero();
    let mut k = f.len();
    while k > 0 {
        k -= 1;
        value = field.add(&field.of_residue(f[k]), &field.mul(v, &value));
    }
    value
}

// The columns 1, v, v^2, .., n of them.
fn power_columns(field: &Field, v: &Value, n: usize) -> Columns
    requires room { n ≤ MAX_DEGREE }
    requires valid { (field_values field.now).Valid v.now }
    ensures prime { result.prime ≡ field.now.characteristic }
    ensures rows { result.matrix.rows ≡ degree_of field.now }
    ensures columns { result.matrix.columns ≡ powers field.now v.now n }
{
    let mut columns = Columns::new(field.prime(), field.degree() as usize);
    let mut power = field.one();
    'powers: for _k in 0..n {
        columns.push(power.digits());
        power = field.mul(&power, v);
    }
    columns
}
