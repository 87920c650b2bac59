//! Named fields, and maps between fields by their numbers.

ghost use Rattle.std.specs.Prelude.{◌≡◌};

use crate::names::FieldName;
use ff_embed::Embedding;
use ff_field::Field;
use std::marker::Model;

/// A field of a lattice, with its name.
#[derive(Drop)]
pub struct FieldRow {
    pub name: FieldName,
    pub field: Field,
}

impl Model for FieldRow {
    ghost use Rattle.alg_model.specs.Lattices.{Row};

    ghost Value = { Row };

    ghost view = { λ row. record { name = row.name; field = row.field } };
}

impl FieldRow {
    /// An equal row. Takes no memory.
    pub fn copy(&self) -> Self
        ensures { result ≡ self.now }
    {
        FieldRow {
            name: self.name.copy(),
            field: self.field.copy(),
        }
    }
}

/// A map of a lattice: the numbers of its fields, and the embedding.
#[derive(Drop)]
pub struct MapRow {
    pub from: u32,
    pub into: u32,
    pub map: Embedding,
}

impl MapRow {
    /// An equal one. Takes no memory.
    pub fn copy(&self) -> Self
        ensures { result ≡ self.now }
    {
        MapRow {
            from: self.from,
            into: self.into,
            map: self.map.copy(),
        }
    }
}
