//! Operations as closures.
ghost use Rattle.std.specs.Prelude.{◌≡◌, ℕ, List};
ghost use Rattle.alg_model.specs.Maps as maps;
ghost use Rattle.alg_model.specs.Maps.{field_values};
ghost use Rattle.natural_ops.specs.Operations.{IsOpTable, value_at, Realizes};

use crate::OpTable;
use ff_field::{Field, Value};
use std::marker::Model;

/// What is run on a field and a value of it, and gives a value of that field. Each closure of this
/// form is one; there are no others.
pub trait Operation: Drop {
    // at which fields and values it may run, and what it may give there
    ghost can_run: { Self → maps.Field → List ℕ → Type 0 };

    ghost gives: { Self → maps.Field → List ℕ → List ℕ → Type 0 };

    /// What it gives at a value of a field.
    fn run(&self, field: &Field, a: &Value) -> Value
        requires { can_run self.now field.now a.now }
        ensures { gives self.now field.now a.now result };
}

impl<F: Fn(&Field, &Value) -> Value> Operation for F {
    ghost use denote.Ref.{Bor};

    ghost can_run = { λ f K a. (x : Bor maps.Field) (y : Bor (List ℕ)) → x.now ≡ K → y.now ≡ a
        → F.pre f x y };

    ghost gives = { λ f K a b. (x : Bor maps.Field) × (y : Bor (List ℕ)) × (x.now ≡ K)
        × (y.now ≡ a) × F.post f x y b };

    fn run(&self, field: &Field, a: &Value) -> Value {
        self(field, a)
    }
}

/// An operation, with a closure that gives its values. It keeps the fact that it does.
///
/// Contracts see its table.
#[derive(Drop)]
pub struct NaturalOp<F: Operation> {
    table: OpTable,
    call: F,
}

impl<F: Operation> Model for NaturalOp<F> {
    ghost use Rattle.std.specs.Prelude.{List};
    ghost use Rattle.ff_poly.specs.Polynomial.{Polynomial};
    ghost use Rattle.natural_ops.specs.Operations.{Realizes};

    ghost Value = { List Polynomial };

    ghost view = { λ a. a.table };

    ghost invariant = { λ a. Realizes F.can_run F.gives a.table a.call };
}

impl<F: Operation> NaturalOp<F> {
    /// The operation of this table, whose values `call` gives: it runs at each value of each
    /// field, and gives the value of the table's polynomial there.
    pub fn new(table: OpTable, call: F) -> NaturalOp<F>
    where
        F: Fn(&Field, &Value) -> Value,
        requires { Realizes F.can_run F.gives table call }
        ensures { result ≡ table }
    {
        NaturalOp { table, call }
    }

    /// Its table.
    pub fn table(&self) -> &OpTable
        ensures value { result.now ≡ self.now }
        ensures whole { IsOpTable self.now }
    {
        let _polys = self.table.polys();
        &self.table
    }

    /// The operation's value at a value of a field, as the closure gives it.
    pub fn apply(&self, field: &Field, a: &Value) -> Value
        requires { (field_values field.now).Valid a.now }
        ensures value { result ≡ value_at self.now field.now a.now }
        ensures valid { (field_values field.now).Valid result }
        ensures whole { IsOpTable self.now }
    {
        let _prime = field.prime();
        let _polys = self.table.polys();
        self.call.run(field, a)
    }
}

/// The three operations of a program, by their names.
#[derive(Drop)]
pub struct Ops<F: Operation, G: Operation, H: Operation> {
    pub first: NaturalOp<F>,
    pub second: NaturalOp<G>,
    pub third: NaturalOp<H>,
}
