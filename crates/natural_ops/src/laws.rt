//! Laws of operations: a function that does nothing, whose clauses are the laws.
ghost use Rattle.natural_ops.specs.Theorems.{OperationGivesValue, OperationCommutes};

/// An operation's value is a value of the field, and an embedding sends the value at `a` to the
/// value at the image of `a`.
pub fn operations_commute()
    ensures value { OperationGivesValue }
    ensures commute { OperationCommutes }
{}
