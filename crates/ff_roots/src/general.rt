//! Roots of any polynomial over the field.
ghost use Rattle.std.specs.Prelude.{◌≡◌, ◌≢◌, ◌↔◌, ◌⊎◌, ℕ, ◌+◌, ◌-◌, ◌<◌, ◌≤◌, List, [], length, Contains, IsNone, IfSome};
ghost use Rattle.alg_model.specs.Coefficients.{power};
ghost use Rattle.alg_model.specs.Factors.{IsPolynomial};
ghost use Rattle.alg_model.specs.Maps.{field_values, degree_of, generator};
ghost use Rattle.alg_model.specs.Roots.{IsRoot, IsLeastRoot};
ghost use Rattle.alg_model.specs.Values.{degree};
ghost use Rattle.alg_splitting.specs.RootLists.{IsRootList};
ghost use Rattle.alg_splitting.specs.PrivateSearch.{Splits, IsNarrowed};
ghost use Rattle.ff_roots.specs.PrivateCollecting.{IsRising, Collects};
ghost use Rattle.ff_roots.specs.PrivatePowers.{ArePowers};

use crate::RootList;
use crate::conjugates::conjugate_roots;
use crate::constants::irreducible_of;
use crate::frobenius::{PowerList, frobenius_powers, trace_of, variable};
use crate::lists::add_root;
use crate::parts::{linear_root, part_at};
use ff_field::{Field, Value};
use ff_poly::MAX_DEGREE;
use ff_polyx::PolyX;

/// All values at which `g` vanishes, each once, least first.
///
/// `g` isn't 0, and its degree is at most `MAX_DEGREE`. Where it is a multiple by a value of an
/// irreducible polynomial over the prime field, its roots are found as `conjugate_roots` does.
pub fn roots(field: &Field, g: &PolyX) -> RootList
    requires polynomial { IsPolynomial (field_values field.now) g.now }
    requires not_zero { g.now ≢ [] }
    requires degree { length g.now ≤ MAX_DEGREE + 1 }
    ensures { IsRootList field.now g.now result }
{
    let _prime = field.prime();
    let mut list = RootList::new();
    if g.coefficients().len() < 2 {
        return list;
    }
    if let Some(f) = irreducible_of(field, g) {
        return conjugate_roots(field, &f);
    }
    collect_roots(field, g, &mut list);
    list
}

/// The least value at which `g` vanishes, or `None` where there is none.
///
/// `g` isn't 0, and its degree is at most `MAX_DEGREE`.
pub fn one_root(field: &Field, g: &PolyX) -> Option<Value>
    requires polynomial { IsPolynomial (field_values field.now) g.now }
    requires not_zero { g.now ≢ [] }
    requires degree { length g.now ≤ MAX_DEGREE + 1 }
    ensures none { IsNone result ↔ ((v : List ℕ) → ¬ IsRoot field.now g.now v) }
    ensures least { IfSome result (IsLeastRoot field.now g.now) }
{
    let list = roots(field, g);
    let items = list.items();
    if items.is_empty() {
        return None;
    }
    let first = 0;
    Some(items[first].copy())
}

// Collects the roots of a polynomial that isn't constant.
#[inline(never)]
fn collect_roots(field: &Field, g: &PolyX, list: &mut RootList)
    requires polynomial { IsPolynomial (field_values field.now) g.now }
    requires not_constant { 1 < length g.now }
    requires degree { length g.now ≤ MAX_DEGREE + 1 }
    requires none { list.old ≡ [] }
    ensures rising { IsRising field.now list.new }
    ensures members { (v : List ℕ) → Contains list.new v ↔ IsRoot field.now g.now v }
{
    let _prime = field.prime();
    let mut powers = PowerList::new();
    let last = frobenius_powers(field, g, &mut powers);
    let part = PolyX::gcd(field, g, &PolyX::sub(field, &last, &variable(field)));
    collect(field, powers.items(), g, &part, 0, &field.one(), list);
}

// Collects the roots of a part of g, which agree in the traces of x^j times them for j below k,
// where x is the generator; `factor` is x^k.
//
// The roots at which the trace of x^k times them is a residue c are those of a smaller part, for
// each c one; its cofactor has the others.
fn collect(
    field: &Field,
    powers: &[PolyX],
    g: &PolyX,
    part: &PolyX,
    k: u32,
    factor: &Value,
    list: &mut RootList,
)
    requires polynomial { IsPolynomial (field_values field.now) g.now }
    requires not_constant { 1 < length g.now }
    requires degree { length g.now ≤ MAX_DEGREE + 1 }
    requires powers { ArePowers field.now g.now (degree_of field.now) powers.now }
    requires splits { Splits field.now part.now }
    requires narrowed { 1 < length part.now → IsNarrowed field.now g.now k part.now }
    requires depth { k ≤ degree_of field.now }
    requires factor { factor.now ≡ power (field_values field.now).ops (generator field.now) k }
    requires value { (field_values field.now).Valid factor.now }
    requires list { IsRising field.now list.old }
    requires new { (v : List ℕ) → IsRoot field.now part.now v → ¬ Contains list.old v }
    requires room { length list.old + length part.now ≤ MAX_DEGREE + 1 }
    ensures { Collects field.now (IsRoot field.now part.now) (degree part.now) list.old list.new }
{
    let _prime = field.prime();
    let len = part.coefficients().len();
    if len < 2 {
        return;
    }
    if len == 2 {
        add_root(field, list, &linear_root(field, part));
        return;
    }
    let (_, trace) = PolyX::divrem(field, &trace_of(field, powers, g, factor), part);
    let next_factor = field.mul(factor, &field.generator());
    let mut rest = part.copy();
    'residues: for c in 0..field.prime().number() {
        if rest.coefficients().len() < 2 {
            return;
        }
        let next = part_at(field, &rest, &trace, c);
        collect(field, powers, g, &next, k + 1, &next_factor, list);
        let (quotient, _) = PolyX::divrem(field, &rest, &next);
        rest = quotient;
    }
}
