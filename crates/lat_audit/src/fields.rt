//! The fields of a dump.

ghost use Rattle.std.specs.Prelude.{◌≡◌, ◌≤◌, length, IsTrue, ◌↔◌, MatchResult};
ghost use Rattle.alg_model.specs.Coefficients.{residues};
ghost use Rattle.alg_model.specs.Factors.{IsIrreducible};
ghost use Rattle.lat_core.specs.declared.TheConstants.{MAX_FIELDS};
ghost use Rattle.lat_audit.specs.Verdicts.{None, IsReducible};
ghost use Rattle.lat_audit.specs.PrivateReadings.{IsFieldPoly};
ghost use Rattle.lat_audit.specs.PrivateFaults.{FieldFault};

use crate::contents::NamedPoly;
use crate::faults::Fault;
use ff_factor::{Verdict, check, judge};
use ff_field::Field;
use ff_poly::Poly;
use lat_core::FieldRow;
use std::alloc::Global;

// Whether a polynomial is irreducible. The certificate of the judgement is checked on its own.
fn is_irreducible(poly: &Poly) -> bool
    requires { IsFieldPoly poly.now.prime poly.now.coefficients }
    ensures { IsTrue result ↔ IsIrreducible (residues poly.now.prime) poly.now.coefficients }
{
    match judge(poly) {
        Verdict::Irreducible(certificate) => check(poly, &certificate),
        Verdict::Reducible { .. } => false,
    }
}

// The field of a row, whose polynomial is irreducible.
fn field_row(row: &NamedPoly) -> FieldRow
    requires { IsIrreducible (residues row.now.field.characteristic) row.now.field.polynomial }
    ensures { result ≡ row.now }
{
    FieldRow {
        name: row.name().copy(),
        field: Field::new(row.poly().copy()),
    }
}

// The fields of the rows, or the number of the first one whose polynomial has a factor.
pub(crate) fn judge_fields(alloc: Global, rows: &[NamedPoly]) -> Result<Vec<FieldRow>, Fault>
    requires { length rows.now ≤ MAX_FIELDS }
    ensures { MatchResult result
        (λ fields. (fields.items ≡ rows.now) × None (IsReducible rows.now))
        (FieldFault rows.now) }
{
    let mut fields = Vec::new(alloc);
    for (number, row) in rows.iter().enumerate() {
        if !is_irreducible(row.poly()) {
            return Err(Fault::Field(number as u32));
        }
        fields.push(field_row(row))?;
    }
    Ok(fields)
}
