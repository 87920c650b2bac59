//! Laws of the tables: a function that does nothing, whose clauses are the laws.
ghost use Rattle.program_ops.specs.Theorems.{SquareValue, ArtinSchreierValue, SuccessorValue};

/// At each value `a` of a finite field the three tables give `a * a`, `a^p - a` and `a + 1`, in the
/// operations of the field, for its characteristic `p`.
pub fn tables_have_their_values()
    ensures square { SquareValue }
    ensures artin_schreier { ArtinSchreierValue }
    ensures successor { SuccessorValue }
{}
