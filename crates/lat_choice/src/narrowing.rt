//! A polynomial over the target of an embedding: at the roots that it has in common with that of the
//! source the map agrees with the common subfields that are needed, and sends what is prescribed.
ghost use Rattle.std.specs.Prelude.{◌≡◌, ℕ, ◌+◌, ◌<◌, List, length, All, None};
ghost use Rattle.std.specs.Option.{option_copied};
ghost use Rattle.alg_model.specs.Polynomials as polynomials;
ghost use Rattle.alg_model.specs.Factors.{IsPolynomial};
ghost use Rattle.alg_model.specs.Maps as maps;
ghost use Rattle.alg_model.specs.Maps.{field_values};
ghost use Rattle.alg_model.specs.Lattices.{field_at, Stored};
ghost use Rattle.alg_compatible.specs.Theorems.{AreFields};
ghost use Rattle.alg_choices.specs.Theorems.{AreAlike};
ghost use Rattle.alg_choices.specs.Fitting.{IsCommonSubfield, Narrows, AreGiven};
ghost use Rattle.alg_choices.specs.Restrictions as restrictions;
ghost use Rattle.alg_choices.specs.Restrictions.{IsRestriction};
ghost use Rattle.lat_core.specs.Step.{prescribed_values};
ghost use Rattle.lat_choice.specs.PrivateNeeded.{IsNeeded};

use crate::needed::is_needed;
use arrayvec::ArrayVec;
use ff_field::{Field, Value};
use ff_minpoly::restricted_in;
use ff_poly::MAX_POLYX;
use ff_polyx::PolyX;
use lat_core::{Lattice, Sending};

// A polynomial whose common roots with that of `from` are the values at which the map agrees with the
// common subfields that are needed.
pub(crate) fn narrowed(lattice: &Lattice, from: u32, into: u32) -> PolyX
    requires fields { AreFields lattice.now from into }
    requires alike { AreAlike lattice.now from into }
    ensures polynomial { IsPolynomial (field_values (field_at lattice.now.rows into)) result }
    ensures narrows { let L = lattice.now in
        Narrows L from into (IsNeeded L from into) (length L.rows) None result }
{
    let mut polynomial = PolyX::default();
    for d in 0..lattice.fields() {
        if is_needed(lattice, from, into, d) {
            polynomial = narrowed_by(lattice, from, into, d, &polynomial);
        }
    }
    polynomial
}

// The same, where g is so for the needed fields below d, for those up to d, which is needed.
#[inline(never)]
fn narrowed_by(lattice: &Lattice, from: u32, into: u32, d: u32, g: &PolyX) -> PolyX
    requires fields { AreFields lattice.now from into }
    requires alike { AreAlike lattice.now from into }
    requires within { d < length lattice.now.rows }
    requires needed { IsNeeded lattice.now from into d }
    requires polynomial { IsPolynomial (field_values (field_at lattice.now.rows into)) g.now }
    requires narrows { let L = lattice.now in
        Narrows L from into (IsNeeded L from into) d None g.now }
    ensures polynomial { IsPolynomial (field_values (field_at lattice.now.rows into)) result }
    ensures narrows { let L = lattice.now in
        Narrows L from into (IsNeeded L from into) (d + 1) None result }
{
    let target = lattice.field(into);
    PolyX::gcd(&target.field, g, &restriction(lattice, from, into, d))
}

// The polynomial of the values at which the map agrees with the maps of a common subfield.
fn restriction(lattice: &Lattice, from: u32, into: u32, d: u32) -> PolyX
    requires fields { AreFields lattice.now from into }
    requires within { d < length lattice.now.rows }
    requires common { IsCommonSubfield lattice.now from into d }
    ensures polynomial { IsPolynomial (field_values (field_at lattice.now.rows into)) result }
    ensures restricts { let L = lattice.now in (m n : List (List ℕ)) → Stored L d from m
        → Stored L d into n
        → IsRestriction (field_at L.rows from) (field_at L.rows into) m n result }
{
    let (subfield, source, target) = (lattice.field(d), lattice.field(from), lattice.field(into));
    let (sub, whole) = (lattice.map(d, from).unwrap(), lattice.map(d, into).unwrap());
    restricted_in(
        &subfield.field,
        &source.field,
        &target.field,
        &sub.embedding(),
        &whole.embedding(),
    )
}

// The same as g, for the values at which the map sends what is prescribed, too.
pub(crate) fn sending_too(
    lattice: &Lattice,
    from: u32,
    into: u32,
    sending: Option<&Sending>,
    g: PolyX,
) -> PolyX
    requires fields { AreFields lattice.now from into }
    requires alike { AreAlike lattice.now from into }
    requires given { AreGiven lattice.now from into (prescribed_values (option_copied sending)) }
    requires polynomial { IsPolynomial (field_values (field_at lattice.now.rows into)) g }
    requires narrows { let L = lattice.now in
        Narrows L from into (IsNeeded L from into) (length L.rows) None g }
    ensures polynomial { IsPolynomial (field_values (field_at lattice.now.rows into)) result }
    ensures narrows { let L = lattice.now in
        Narrows L from into (IsNeeded L from into) (length L.rows)
        (prescribed_values (option_copied sending.entry)) result }
{
    let target = lattice.field(into);
    match sending {
        None => g,
        Some(pair) => {
            let prescribed = prescription(&target.field, &pair.value.value, &pair.image.value);
            PolyX::gcd(&target.field, &g, &prescribed)
        }
    }
}

// The polynomial of the values v such that sending the generator to v sends a to b.
fn prescription(field: &Field, a: &Value, b: &Value) -> PolyX
    requires residues { All (λ x. x < field.now.characteristic) a.now }
    requires value { (field_values field.now).Valid b.now }
    ensures value { result ≡ restrictions.prescription field.now a.now b.now }
    ensures valid { IsPolynomial (field_values field.now) result }
{
    let constant = PolyX::of_values(field, &[b.copy()]);
    PolyX::sub(field, &with_digits(field, a), &constant)
}

// The polynomial over the field whose coefficients are the digits of a.
fn with_digits(field: &Field, a: &Value) -> PolyX
    requires { All (λ x. x < field.now.characteristic) a.now }
    ensures coefficients { result
        ≡ polynomials.trim (field_values field.now).ops (maps.constants field.now a.now) }
    ensures valid { IsPolynomial (field_values field.now) result }
{
    let _prime = field.prime();
    let mut values: ArrayVec<Value, MAX_POLYX> = ArrayVec::new();
    for x in a.digits() {
        values.push(field.of_residue(*x));
    }
    PolyX::of_values(field, values.as_slice())
}
