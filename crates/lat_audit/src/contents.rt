//! What a dump holds.

ghost use Rattle.std.specs.Prelude.{◌≡◌};
ghost use Rattle.lat_audit.specs.PrivateReadings.{IsFieldPoly};

use ff_field::Value;
use ff_poly::Poly;
use lat_core::FieldName;
use std::marker::Model;

// A name and a monic polynomial, which may have factors.
#[derive(Drop)]
pub(crate) struct NamedPoly {
    name: FieldName,
    poly: Poly,
}

impl Model for NamedPoly {
    ghost use Rattle.alg_model.specs.Lattices.{Row};
    ghost use Rattle.lat_audit.specs.PrivateReadings.{IsFieldPoly};

    ghost Value = { Row };

    ghost view = { λ row. record {
      name = row.name;
      field = record {
        characteristic = row.poly.prime;
        polynomial = row.poly.coefficients;
      };
    } };

    ghost invariant = { λ row. IsFieldPoly row.poly.prime row.poly.coefficients };
}

impl NamedPoly {
    pub(crate) fn new(name: FieldName, poly: Poly) -> NamedPoly
        requires { IsFieldPoly poly.prime poly.coefficients }
        ensures name { result.name ≡ name }
        ensures characteristic { result.field.characteristic ≡ poly.prime }
        ensures polynomial { result.field.polynomial ≡ poly.coefficients }
    {
        NamedPoly { name, poly }
    }

    pub(crate) fn name(&self) -> &FieldName
        ensures { result.now ≡ self.now.name }
    {
        &self.name
    }

    pub(crate) fn poly(&self) -> &Poly
        ensures characteristic { result.now.prime ≡ self.now.field.characteristic }
        ensures polynomial { result.now.coefficients ≡ self.now.field.polynomial }
        ensures whole { IsFieldPoly self.now.field.characteristic self.now.field.polynomial }
    {
        &self.poly
    }
}

// The numbers of two fields, and where the generator of the first one goes.
#[derive(Drop)]
pub(crate) struct Image {
    from: u32,
    into: u32,
    value: Value,
}

impl Model for Image {
    ghost use Rattle.lat_audit.specs.Readings as readings;

    ghost Value = { readings.Image };

    ghost view = { λ image. ((image.from, image.into), image.value) };
}

impl Image {
    pub(crate) fn new(from: u32, into: u32, value: Value) -> Image
        ensures { result ≡ ((from, into), value) }
    {
        Image { from, into, value }
    }

    // The numbers of the fields.
    pub(crate) fn pair(&self) -> (u32, u32)
        ensures { result ≡ self.now.0 }
    {
        (self.from, self.into)
    }

    pub(crate) fn value(&self) -> &Value
        ensures { result.now ≡ self.now.1 }
    {
        &self.value
    }
}

// What a dump holds: named polynomials, and images for pairs of their numbers.
#[derive(Drop)]
pub(crate) struct Content {
    pub(crate) rows: Vec<NamedPoly>,
    pub(crate) images: Vec<Image>,
}
