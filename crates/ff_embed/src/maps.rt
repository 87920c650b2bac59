//! What an embedding gives for a value, and which values it comes from.
ghost use Rattle.std.specs.Prelude.{◌≡◌, ◌↔◌, ◌<◌, [], IsSome, IfSome, slice_index_or};
ghost use Rattle.alg_model.specs.Maps.{field_values, degree_of, generator, apply, identity_map};
ghost use Rattle.ff_embed.specs.SmallEmbeddings.{IsSmallEmbedding, IsInImage};

use crate::Embedding;
use crate::columns::Columns;
use ff_field::{Field, Value};

impl Embedding {
    /// The identity of a field.
    pub fn identity(field: &Field) -> Embedding
        ensures source { result.source ≡ field.now }
        ensures target { result.target ≡ field.now }
        ensures images { result.images ≡ identity_map field.now }
        ensures whole { IsSmallEmbedding result }
    {
        let (p, n) = (field.prime(), field.degree() as usize);
        Embedding::of_parts(
            field.poly().copy(),
            field.poly().copy(),
            Columns::identity(p, n),
            Columns::identity(p, n),
        )
    }

    /// The image of the generator.
    pub fn image(&self) -> Value
        ensures value { result
            ≡ apply self.now.target self.now.images (generator self.now.source) }
        ensures valid { (field_values self.now.target).Valid result }
    {
        if self.source_degree() == 1 {
            return self.apply(&self.source().generator());
        }
        Value::of_digits(self.images().column(1))
    }

    /// The image of the generator's power `x^k`, for `k` below the degree.
    pub fn power_image(&self, k: usize) -> Value
        requires { k < degree_of self.now.source }
        ensures value { result ≡ slice_index_or self.now.images k [] }
        ensures valid { (field_values self.now.target).Valid result }
    {
        Value::of_digits(self.images().column(k))
    }

    /// The image of a value: the matrix times its digits.
    pub fn apply(&self, a: &Value) -> Value
        requires { (field_values self.now.source).Valid a.now }
        ensures value { result ≡ apply self.now.target self.now.images a.now }
        ensures valid { (field_values self.now.target).Valid result }
    {
        self.images().apply(a.digits())
    }

    /// A value of which `b` is the image; `None` exactly where `b` isn't in the image. There is at
    /// most one, as `alg_galois` proves of embeddings.
    pub fn preimage(&self, b: &Value) -> Option<Value>
        requires { (field_values self.now.target).Valid b.now }
        ensures some { IsSome result ↔ IsInImage self.now b.now }
        ensures value { IfSome result (λ a. apply self.now.target self.now.images a ≡ b.now) }
        ensures valid { IfSome result (λ a. (field_values self.now.source).Valid a) }
    {
        let a = self.inverse().apply(b.digits());
        if self.apply(&a).digits() == b.digits() {
            Some(a)
        } else {
            None
        }
    }
}
