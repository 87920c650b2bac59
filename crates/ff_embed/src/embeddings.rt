//! Embeddings of finite fields.
ghost use Rattle.std.specs.Prelude.{◌≡◌, ◌<◌};
ghost use Rattle.alg_model.specs.Maps.{degree_of};
ghost use Rattle.ff_embed.specs.SmallEmbeddings.{IsSmallEmbedding};

use crate::columns::Columns;
use ff_field::Field;
use ff_poly::{Poly, Prime};
use std::marker::Model;

/// An embedding of a finite field in another one: a map that sends one to one and keeps sums and
/// products (Lidl and Niederreiter, Finite Fields, chapter 2).
///
/// It keeps the polynomials of both fields, its matrix, whose columns are the images of
/// `1, x, x^2, ..`, and a matrix that undoes it. A field's tables aren't kept: `source` and
/// `target` make them anew.
#[derive(Drop)]
pub struct Embedding {
    source: Poly,
    target: Poly,
    images: Columns,
    inverse: Columns,
}

impl Model for Embedding {
    ghost use Rattle.ff_embed.specs.SmallEmbeddings.{FieldMap};
    ghost use Rattle.ff_embed.specs.PrivateMaps.{IsKept};

    ghost Value = { FieldMap };

    ghost view = { λ a. record {
      source = record { characteristic = a.source.prime; polynomial = a.source.coefficients };
      target = record { characteristic = a.target.prime; polynomial = a.target.coefficients };
      images = a.images.matrix.columns;
    } };

    ghost invariant = { λ a. IsKept (record {
      source = record { characteristic = a.source.prime; polynomial = a.source.coefficients };
      target = record { characteristic = a.target.prime; polynomial = a.target.coefficients };
      images = a.images.matrix.columns;
    }) a.images a.inverse };
}

impl Embedding {
    ghost use Rattle.ff_embed.specs.PrivateMaps.{IsMap, IsKept, IsUndone};

    // The embedding between the fields of these polynomials with this matrix, which the other one
    // undoes.
    pub(crate) fn of_parts(
        source: Poly,
        target: Poly,
        images: Columns,
        inverse: Columns,
    ) -> Embedding
        requires { IsKept (record {
          source = record { characteristic = source.prime; polynomial = source.coefficients };
          target = record { characteristic = target.prime; polynomial = target.coefficients };
          images = images.matrix.columns;
        }) images inverse }
        ensures source { result.source
            ≡ record { characteristic = source.prime; polynomial = source.coefficients } }
        ensures target { result.target
            ≡ record { characteristic = target.prime; polynomial = target.coefficients } }
        ensures images { result.images ≡ images.matrix.columns }
        ensures whole { IsSmallEmbedding result }
    {
        Embedding {
            source,
            target,
            images,
            inverse,
        }
    }

    /// The field that it starts from. Its tables are made anew.
    pub fn source(&self) -> Field
        ensures value { result ≡ self.now.source }
        ensures whole { IsSmallEmbedding self.now }
    {
        Field::new(self.source.copy())
    }

    /// The field that it ends in. Its tables are made anew.
    pub fn target(&self) -> Field
        ensures value { result ≡ self.now.target }
        ensures whole { IsSmallEmbedding self.now }
    {
        Field::new(self.target.copy())
    }

    /// The characteristic of both fields.
    pub fn prime(&self) -> Prime
        ensures source { result ≡ self.now.source.characteristic }
        ensures target { result ≡ self.now.target.characteristic }
        ensures whole { IsSmallEmbedding self.now }
    {
        self.source.prime()
    }

    /// The degree of the field that it starts from.
    pub fn source_degree(&self) -> u32
        ensures value { result ≡ degree_of self.now.source }
        ensures positive { 0 < result }
        ensures whole { IsSmallEmbedding self.now }
    {
        (self.source.coefficients().len() - 1) as u32
    }

    /// The degree of the field that it ends in.
    pub fn target_degree(&self) -> u32
        ensures value { result ≡ degree_of self.now.target }
        ensures positive { 0 < result }
        ensures whole { IsSmallEmbedding self.now }
    {
        (self.target.coefficients().len() - 1) as u32
    }

    /// The polynomial of the field that it starts from.
    pub fn source_poly(&self) -> &Poly
        ensures prime { result.now.prime ≡ self.now.source.characteristic }
        ensures coefficients { result.now.coefficients ≡ self.now.source.polynomial }
        ensures whole { IsSmallEmbedding self.now }
    {
        &self.source
    }

    /// The polynomial of the field that it ends in.
    pub fn target_poly(&self) -> &Poly
        ensures prime { result.now.prime ≡ self.now.target.characteristic }
        ensures coefficients { result.now.coefficients ≡ self.now.target.polynomial }
        ensures whole { IsSmallEmbedding self.now }
    {
        &self.target
    }

    // The matrix: the images of 1, x, x^2, ...
    pub(crate) fn images(&self) -> &Columns
        ensures prime { result.now.prime ≡ self.now.target.characteristic }
        ensures rows { result.now.matrix.rows ≡ degree_of self.now.target }
        ensures columns { result.now.matrix.columns ≡ self.now.images }
        ensures whole { IsSmallEmbedding self.now }
    {
        &self.images
    }

    // A matrix that undoes it.
    pub(crate) fn inverse(&self) -> &Columns
        ensures prime { result.now.prime ≡ self.now.source.characteristic }
        ensures rows { result.now.matrix.rows ≡ degree_of self.now.source }
        ensures back { IsMap self.now.target self.now.source result.now.matrix.columns }
        ensures undone { IsUndone self.now result.now.matrix.columns }
        ensures whole { IsSmallEmbedding self.now }
    {
        &self.inverse
    }

    /// An equal embedding.
    pub fn copy(&self) -> Embedding
        ensures same { result ≡ self.now }
        ensures whole { IsSmallEmbedding self.now }
    {
        Embedding {
            source: self.source.copy(),
            target: self.target.copy(),
            images: self.images.copy(),
            inverse: self.inverse.copy(),
        }
    }
}
