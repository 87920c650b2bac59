//! Powers of Frobenius modulo a polynomial, and traces from them.
ghost use Rattle.std.specs.Prelude.{◌≡◌, ℕ, ◌+◌, ◌<◌, ◌≤◌, List, [], length};
ghost use Rattle.alg_model.specs.Factors.{IsPolynomial};
ghost use Rattle.alg_model.specs.Maps.{field_values, degree_of};
ghost use Rattle.alg_splitting.specs.PrivateSearch as search;
ghost use Rattle.alg_splitting.specs.PrivateSearch.{IsFrobeniusModulo, IsTraceAtRoots};
ghost use Rattle.ff_roots.specs.PrivatePowers.{ArePowers};

use crate::places::{add_multiples, zeros};
use ff_field::{Field, Value};
use ff_lists::BoundedList;
use ff_poly::MAX_DEGREE;
use ff_polyx::PolyX;

// At most `MAX_DEGREE` polynomials.
pub(crate) type PowerList = BoundedList<PolyX, MAX_DEGREE>;

// The polynomial y.
pub(crate) fn variable(field: &Field) -> PolyX
    ensures value { result ≡ search.variable field.now }
    ensures valid { IsPolynomial (field_values field.now) result }
{
    let _prime = field.prime();
    PolyX::of_values(field, &[field.zero(), field.one()])
}

// Collects y, y^p, y^(p^2), .. modulo g, as many as the degree of the field; gives the next one.
#[inline(never)]
pub(crate) fn frobenius_powers(field: &Field, g: &PolyX, powers: &mut PowerList) -> PolyX
    requires polynomial { IsPolynomial (field_values field.now) g.now }
    requires not_constant { 1 < length g.now }
    requires room { length g.now ≤ MAX_DEGREE + 1 }
    requires none { powers.old ≡ [] }
    ensures powers { ArePowers field.now g.now (degree_of field.now) powers.new }
    ensures valid { IsPolynomial (field_values field.now) result }
    ensures next { IsFrobeniusModulo field.now g.now (degree_of field.now) result }
{
    let p = field.prime();
    let (_, first) = PolyX::divrem(field, &variable(field), g);
    let mut power = first;
    'powers: for _i in 0..field.degree() {
        let next = PolyX::powmod(field, &power, p.number() as u64, g);
        powers.push(power);
        power = next;
    }
    power
}

// The polynomial that takes at each root of g the trace of `factor` times the root.
#[inline(never)]
pub(crate) fn trace_of(field: &Field, powers: &[PolyX], g: &PolyX, factor: &Value) -> PolyX
    requires polynomial { IsPolynomial (field_values field.now) g.now }
    requires not_constant { 1 < length g.now }
    requires room { length g.now ≤ MAX_DEGREE + 1 }
    requires powers { ArePowers field.now g.now (degree_of field.now) powers.now }
    requires factor { (field_values field.now).Valid factor.now }
    ensures polynomial { IsPolynomial (field_values field.now) result }
    ensures trace { IsTraceAtRoots field.now g.now factor.now result }
{
    let _prime = field.prime();
    let mut places = zeros(field, g.coefficients().len() - 1);
    let mut multiple = factor.copy();
    'conjugates: for i in 0..powers.len() {
        add_multiples(
            field,
            places.as_mut_slice(),
            &multiple,
            powers[i].coefficients(),
        );
        multiple = field.frob(&multiple);
    }
    PolyX::of_values(field, places.as_slice())
}
