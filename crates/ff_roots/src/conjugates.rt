//! Roots of irreducible polynomials over the prime field.
ghost use Rattle.std.specs.Prelude.{◌≡◌, ◌↔◌, ◌⊎◌, ℕ, ◌+◌, ◌<◌, ◌≤◌, List, length, AllPairs, Contains};
ghost use Rattle.alg_model.specs.Coefficients.{residues};
ghost use Rattle.alg_model.specs.Factors.{IsPolynomial, IsMonic, IsIrreducible, Divides};
ghost use Rattle.alg_model.specs.Maps.{field_values, constants};
ghost use Rattle.alg_model.specs.Roots.{IsRoot, IsBefore};
ghost use Rattle.alg_splitting.specs.RootLists.{IsRootList};
ghost use Rattle.alg_splitting.specs.PrivateSearch.{Splits, IsTraceAtRoots};
ghost use Rattle.ff_roots.specs.PrivateCollecting.{IsRising};

use crate::RootList;
use crate::lists::add_root;
use crate::parts::{first_part, linear_root};
use crate::places::{add_residue_multiples, zeros};
use arrayvec::ArrayVec;
use ff_field::{Field, Value};
use ff_poly::{MAX_DEGREE, MAX_POLYX, Poly};
use ff_polyx::PolyX;

/// All roots in the field of `f`, each once, least first. `f` is monic and irreducible over the
/// prime field, of degree 1 to `MAX_DEGREE`.
pub fn conjugate_roots(field: &Field, f: &Poly) -> RootList
    requires prime { f.now.prime ≡ field.now.characteristic }
    requires monic { IsMonic (residues f.now.prime) f.now.coefficients }
    requires irreducible { IsIrreducible (residues f.now.prime) f.now.coefficients }
    requires degree { length f.now.coefficients ≤ MAX_DEGREE + 1 }
    ensures { IsRootList field.now (constants field.now f.now.coefficients) result }
{
    let _prime = field.prime();
    common_roots(field, f, &PolyX::of_values(field, &[]))
}

/// All values, least first, that are roots both of `f`, which is monic and irreducible over the
/// prime field, of degree 1 to `MAX_DEGREE`, and of `g`, any polynomial over the field.
///
/// One root is found by traces: at a root r of f, the sum of c^(p^i) y^(p^i) over i below the
/// degree of the field is the trace of c r, a residue, and the traces with c = 1, x, x^2, .. part
/// any two values. The others are its powers r^p, r^(p^2), .. (Lidl and Niederreiter, Finite
/// Fields, section 4.3).
pub fn common_roots(field: &Field, f: &Poly, g: &PolyX) -> RootList
    requires prime { f.now.prime ≡ field.now.characteristic }
    requires monic { IsMonic (residues f.now.prime) f.now.coefficients }
    requires irreducible { IsIrreducible (residues f.now.prime) f.now.coefficients }
    requires degree { length f.now.coefficients ≤ MAX_DEGREE + 1 }
    requires polynomial { IsPolynomial (field_values field.now) g.now }
    ensures rising { AllPairs IsBefore result }
    ensures exactly { (v : List ℕ) → Contains result v
        ↔ (IsRoot field.now (constants field.now f.now.coefficients) v × IsRoot field.now g.now v) }
{
    let source = Field::new(f.copy());
    if field.degree() % source.degree() != 0 {
        return RootList::new();
    }
    let part = PolyX::gcd(field, &polynomial_of(field, source.poly()), g);
    if part.coefficients().len() < 2 {
        return RootList::new();
    }
    let root = root_of_part(field, &source, &part);
    common_conjugates(field, &source, &root, g)
}

// The polynomial with residues as coefficients, over the field.
fn polynomial_of(field: &Field, f: &Poly) -> PolyX
    requires prime { f.now.prime ≡ field.now.characteristic }
    requires degree { length f.now.coefficients ≤ MAX_DEGREE + 1 }
    ensures value { result ≡ constants field.now f.now.coefficients }
    ensures valid { IsPolynomial (field_values field.now) result }
{
    let _prime = field.prime();
    let mut values: ArrayVec<Value, MAX_POLYX> = ArrayVec::new();
    for c in f.coefficients() {
        values.push(field.of_residue(*c));
    }
    PolyX::of_values(field, values.as_slice())
}

// A root of a divisor of the polynomial of `source` over the field, where that has all its roots.
fn root_of_part(field: &Field, source: &Field, whole: &PolyX) -> Value
    requires prime { source.now.characteristic ≡ field.now.characteristic }
    requires splits { Splits field.now whole.now }
    requires monic { IsMonic (field_values field.now) whole.now }
    requires not_constant { 1 < length whole.now }
    requires divides { Divides (field_values field.now) whole.now
        (constants field.now source.now.polynomial) }
    ensures { IsRoot field.now whole.now result }
{
    let _prime = field.prime();
    let mut part = whole.copy();
    let mut factor = field.one();
    'narrowing: for _k in 0..field.degree() {
        if part.coefficients().len() == 2 {
            return linear_root(field, &part);
        }
        let trace = conjugate_trace(field, source, &factor);
        let (_, rest) = PolyX::divrem(field, &trace, &part);
        part = first_part(field, &part, &rest);
        factor = field.mul(&factor, &field.generator());
    }
    linear_root(field, &part)
}

// The polynomial that takes at each root of the polynomial of `source` the trace of `factor` times
// the root.
#[inline(never)]
fn conjugate_trace(field: &Field, source: &Field, factor: &Value) -> PolyX
    requires prime { source.now.characteristic ≡ field.now.characteristic }
    requires factor { (field_values field.now).Valid factor.now }
    ensures polynomial { IsPolynomial (field_values field.now) result }
    ensures trace { IsTraceAtRoots field.now (constants field.now source.now.polynomial) factor.now
        result }
{
    let _prime = field.prime();
    let mut places = zeros(field, source.degree() as usize);
    let mut multiple = factor.copy();
    let mut power = source.generator();
    'conjugates: for _i in 0..field.degree() {
        add_residue_multiples(field, places.as_mut_slice(), &multiple, power.digits());
        multiple = field.frob(&multiple);
        power = source.frob(&power);
    }
    PolyX::of_values(field, places.as_slice())
}

// Those of v, v^p, .., of which there are as many as the degree of `source`, at which g vanishes.
fn common_conjugates(field: &Field, source: &Field, v: &Value, g: &PolyX) -> RootList
    requires prime { source.now.characteristic ≡ field.now.characteristic }
    requires root { IsRoot field.now (constants field.now source.now.polynomial) v.now }
    requires polynomial { IsPolynomial (field_values field.now) g.now }
    ensures list { IsRising field.now result }
    ensures members { (w : List ℕ) → Contains result w
        ↔ (IsRoot field.now (constants field.now source.now.polynomial) w
        × IsRoot field.now g.now w) }
{
    let _prime = field.prime();
    let mut list = RootList::new();
    let mut conjugate = v.copy();
    'conjugates: for _t in 0..source.degree() {
        add_common(field, g, &conjugate, &mut list);
        conjugate = field.frob(&conjugate);
    }
    list
}

// Puts a value that isn't in the list into it, if g vanishes there.
fn add_common(field: &Field, g: &PolyX, v: &Value, list: &mut RootList)
    requires polynomial { IsPolynomial (field_values field.now) g.now }
    requires value { (field_values field.now).Valid v.now }
    requires list { IsRising field.now list.old }
    requires new { ¬ Contains list.old v.now }
    requires room { length list.old < MAX_DEGREE }
    ensures list { IsRising field.now list.new }
    ensures count { length list.new ≤ length list.old + 1 }
    ensures members { (w : List ℕ) → Contains list.new w
        ↔ (Contains list.old w ⊎ ((w ≡ v.now) × IsRoot field.now g.now w)) }
{
    if field.is_zero(&PolyX::eval(field, g, v)) {
        add_root(field, list, v);
    }
}
