//! Laws of the fields: a function that does nothing, whose clauses are the laws.
ghost use Rattle.ff_field.specs.Theorems.{SmallFieldIsFinite, SmallFieldIsField};

/// What a `Field` is seen as is a finite field, and its values form a field.
pub fn fields_are_finite()
    ensures finite { SmallFieldIsFinite }
    ensures field { SmallFieldIsField }
{}
