//! Embeddings as they are stored, in the room that their degrees ask for.
ghost use Rattle.std.specs.Prelude.{◌≡◌, ◌↔◌, ◌<◌, IfOk, IfSome, IsSome};
ghost use Prim.Native.Nat.{◌∣◌};
ghost use Rattle.alg_model.specs.Maps.{field_values, degree_of, generator, apply, comp};
ghost use Rattle.ff_embed.specs.SmallEmbeddings.{IsSmallEmbedding, IsInImage};

use crate::Embedding;
use crate::stored_columns::StoredColumns;
use ff_field::Value;
use ff_poly::Poly;
use std::alloc::{AllocError, Global};
use std::marker::Model;

/// An embedding that is stored: an `Embedding` has room for the greatest degrees, and this one
/// takes memory for the digits that its matrices have. Contracts see it as the embedding.
#[derive(Drop)]
pub struct StoredEmbedding {
    source: Poly,
    target: Poly,
    images: StoredColumns,
    inverse: StoredColumns,
}

impl Model for StoredEmbedding {
    ghost use Rattle.ff_embed.specs.SmallEmbeddings.{FieldMap};
    ghost use Rattle.ff_embed.specs.PrivateMaps.{IsKept};

    ghost Value = { FieldMap };

    ghost view = { λ a. record {
      source = record { characteristic = a.source.prime; polynomial = a.source.coefficients };
      target = record { characteristic = a.target.prime; polynomial = a.target.coefficients };
      images = a.images.matrix.columns;
    } };

    ghost invariant = { λ a. IsKept (record {
      source = record { characteristic = a.source.prime; polynomial = a.source.coefficients };
      target = record { characteristic = a.target.prime; polynomial = a.target.coefficients };
      images = a.images.matrix.columns;
    }) a.images a.inverse };
}

impl StoredEmbedding {
    ghost use Rattle.ff_embed.specs.PrivateMaps.{IsMap, IsKept, IsUndone};

    // The embedding between the fields of these polynomials with this matrix, which the other one
    // undoes.
    fn of_parts(
        source: Poly,
        target: Poly,
        images: StoredColumns,
        inverse: StoredColumns,
    ) -> StoredEmbedding
        requires { IsKept (record {
          source = record { characteristic = source.prime; polynomial = source.coefficients };
          target = record { characteristic = target.prime; polynomial = target.coefficients };
          images = images.matrix.columns;
        }) images inverse }
        ensures source { result.source
            ≡ record { characteristic = source.prime; polynomial = source.coefficients } }
        ensures target { result.target
            ≡ record { characteristic = target.prime; polynomial = target.coefficients } }
        ensures images { result.images ≡ images.matrix.columns }
        ensures whole { IsSmallEmbedding result }
    {
        StoredEmbedding {
            source,
            target,
            images,
            inverse,
        }
    }

    /// The same embedding, in memory of its own.
    pub fn of(alloc: Global, map: &Embedding) -> Result<StoredEmbedding, AllocError>
        ensures same { IfOk result (λ stored. stored ≡ map.now) }
    {
        Ok(StoredEmbedding {
            source: map.source_poly().copy(),
            target: map.target_poly().copy(),
            images: StoredColumns::of(alloc, map.images())?,
            inverse: StoredColumns::of(alloc, map.inverse())?,
        })
    }

    /// The same embedding, in memory of its own.
    pub fn copy(&self) -> Result<StoredEmbedding, AllocError>
        ensures same { IfOk result (λ stored. stored ≡ self.now) }
    {
        Ok(StoredEmbedding {
            source: self.source.copy(),
            target: self.target.copy(),
            images: self.images.copy()?,
            inverse: self.inverse.copy()?,
        })
    }

    /// The same embedding, in fixed room.
    pub fn embedding(&self) -> Embedding
        ensures same { result ≡ self.now }
        ensures whole { IsSmallEmbedding self.now }
    {
        Embedding::of_parts(
            self.source.copy(),
            self.target.copy(),
            self.images.columns(),
            self.inverse.columns(),
        )
    }

    /// The degree of the field that it starts from.
    pub fn source_degree(&self) -> u32
        ensures value { result ≡ degree_of self.now.source }
        ensures positive { 0 < result }
        ensures whole { IsSmallEmbedding self.now }
    {
        (self.source.coefficients().len() - 1) as u32
    }

    /// The polynomial of the field that it starts from.
    pub fn source_poly(&self) -> &Poly
        ensures prime { result.now.prime ≡ self.now.source.characteristic }
        ensures coefficients { result.now.coefficients ≡ self.now.source.polynomial }
        ensures whole { IsSmallEmbedding self.now }
    {
        &self.source
    }

    /// The polynomial of the field that it ends in.
    pub fn target_poly(&self) -> &Poly
        ensures prime { result.now.prime ≡ self.now.target.characteristic }
        ensures coefficients { result.now.coefficients ≡ self.now.target.polynomial }
        ensures whole { IsSmallEmbedding self.now }
    {
        &self.target
    }

    // The matrix: the images of 1, x, x^2, ...
    fn images(&self) -> &StoredColumns
        ensures prime { result.now.prime ≡ self.now.target.characteristic }
        ensures rows { result.now.matrix.rows ≡ degree_of self.now.target }
        ensures columns { result.now.matrix.columns ≡ self.now.images }
        ensures whole { IsSmallEmbedding self.now }
    {
        &self.images
    }

    // A matrix that undoes it.
    fn inverse(&self) -> &StoredColumns
        ensures prime { result.now.prime ≡ self.now.source.characteristic }
        ensures rows { result.now.matrix.rows ≡ degree_of self.now.source }
        ensures back { IsMap self.now.target self.now.source result.now.matrix.columns }
        ensures undone { IsUndone self.now result.now.matrix.columns }
        ensures whole { IsSmallEmbedding self.now }
    {
        &self.inverse
    }

    /// The image of the generator.
    pub fn image(&self) -> Value
        ensures value { result
            ≡ apply self.now.target self.now.images (generator self.now.source) }
        ensures valid { (field_values self.now.target).Valid result }
    {
        if self.source_degree() == 1 {
            return self.embedding().image();
        }
        Value::of_digits(self.images.column(1))
    }

    /// The image of a value: the matrix times its digits.
    pub fn apply(&self, a: &Value) -> Value
        requires { (field_values self.now.source).Valid a.now }
        ensures value { result ≡ apply self.now.target self.now.images a.now }
        ensures valid { (field_values self.now.target).Valid result }
    {
        self.images().apply(a.digits())
    }

    /// A value of which `b` is the image; `None` exactly where `b` isn't in the image.
    pub fn preimage(&self, b: &Value) -> Option<Value>
        requires { (field_values self.now.target).Valid b.now }
        ensures some { IsSome result ↔ IsInImage self.now b.now }
        ensures value { IfSome result (λ a. apply self.now.target self.now.images a ≡ b.now) }
        ensures valid { IfSome result (λ a. (field_values self.now.source).Valid a) }
    {
        let a = self.inverse().apply(b.digits());
        if self.apply(&a).digits() == b.digits() {
            Some(a)
        } else {
            None
        }
    }

    /// This embedding followed by `next`, which begins where this ends.
    pub fn compose(
        &self,
        alloc: Global,
        next: &StoredEmbedding,
    ) -> Result<StoredEmbedding, AllocError>
        requires { next.now.source ≡ self.now.target }
        ensures source { IfOk result (λ e. e.source ≡ self.now.source) }
        ensures target { IfOk result (λ e. e.target ≡ next.now.target) }
        ensures images { IfOk result (λ e.
            e.images ≡ comp next.now.target self.now.images next.now.images) }
        ensures whole { IfOk result IsSmallEmbedding }
    {
        let images = next.images().mul(alloc, self.images())?;
        let inverse = self.inverse().mul(alloc, next.inverse())?;
        Ok(StoredEmbedding::of_parts(
            self.source_poly().copy(),
            next.target_poly().copy(),
            images,
            inverse,
        ))
    }

    /// The one map from the source of `i_to_f` to that of `j_to_f` which, followed by `j_to_f`, is
    /// `i_to_f`. Both end in one field, and the degree of the first source divides that of the
    /// second.
    pub fn through(
        alloc: Global,
        i_to_f: &StoredEmbedding,
        j_to_f: &StoredEmbedding,
    ) -> Result<StoredEmbedding, AllocError>
        requires target { i_to_f.now.target ≡ j_to_f.now.target }
        requires divides { degree_of i_to_f.now.source ∣ degree_of j_to_f.now.source }
        ensures source { IfOk result (λ e. e.source ≡ i_to_f.now.source) }
        ensures target { IfOk result (λ e. e.target ≡ j_to_f.now.source) }
        ensures images { IfOk result (λ e.
            comp j_to_f.now.target e.images j_to_f.now.images ≡ i_to_f.now.images) }
        ensures whole { IfOk result IsSmallEmbedding }
    {
        let images = j_to_f.inverse().mul(alloc, i_to_f.images())?;
        let inverse = i_to_f.inverse().mul(alloc, j_to_f.images())?;
        Ok(StoredEmbedding::of_parts(
            i_to_f.source_poly().copy(),
            j_to_f.source_poly().copy(),
            images,
            inverse,
        ))
    }
}
