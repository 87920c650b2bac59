//! The operations of a program at values that were worked out by hand: over 3 modulo 1 + x^2, where
//! x * x is -1, over 2 modulo 1 + x + x^2, and over 7.
ghost use Rattle.std.specs.Prelude.{◌≡◌, [], ◌∷◌, ◌++◌, All, length, replicate, slice_set, ◌<◌, ◌≤◌, ◌+◌, ◌-◌};
ghost use Rattle.alg_model.specs.Coefficients.{IsCharacteristic, residues};
ghost use Rattle.alg_model.specs.Factors.{IsMonic};
ghost use Rattle.ff_poly.specs.Polynomial.{Polynomial};
ghost use Rattle.natural_ops.specs.Operations.{IsOpTable, Realizes};

use crate::{NaturalOp, OpTable, Operation};
use ff_factor::{Verdict, judge};
use ff_field::{Field, Value};
use ff_poly::{MAX_DEGREE, Poly, Prime};
use std::process::Abort;
use std::sync::atomic::{AtomicU64, Ordering};

// x^2
fn square(p: u32) -> Poly
    requires { IsCharacteristic p }
    ensures prime { result.prime ≡ p }
    ensures coefficients { result.coefficients ≡ 0 ∷ 0 ∷ 1 ∷ [] }
{
    match Prime::of(p) {
        Some(p) => {
            let _number = p.number();
            Poly::trimmed(p, &[0, 0, 1])
        }
        None => unreachable!(),
    }
}

// a * a
fn squares() -> OpTable
    ensures form { All (λ (f : Polynomial). f.coefficients ≡ 0 ∷ 0 ∷ 1 ∷ []) result }
    ensures whole { IsOpTable result }
{
    let table = OpTable::of([
        square(2),
        square(3),
        square(5),
        square(7),
        square(11),
        square(13),
        square(17),
        square(19),
        square(23),
        square(29),
        square(31),
        square(37),
        square(41),
        square(43),
        square(47),
        square(53),
        square(59),
        square(61),
    ]);
    let _polys = table.polys();
    table
}

// 1 + x
fn successor(p: u32) -> Poly
    requires { IsCharacteristic p }
    ensures prime { result.prime ≡ p }
    ensures coefficients { result.coefficients ≡ 1 ∷ 1 ∷ [] }
{
    match Prime::of(p) {
        Some(p) => {
            let _number = p.number();
            Poly::trimmed(p, &[1, 1])
        }
        None => unreachable!(),
    }
}

// a + 1
fn successors() -> OpTable
    ensures form { All (λ (f : Polynomial). f.coefficients ≡ 1 ∷ 1 ∷ []) result }
    ensures whole { IsOpTable result }
{
    let table = OpTable::of([
        successor(2),
        successor(3),
        successor(5),
        successor(7),
        successor(11),
        successor(13),
        successor(17),
        successor(19),
        successor(23),
        successor(29),
        successor(31),
        successor(37),
        successor(41),
        successor(43),
        successor(47),
        successor(53),
        successor(59),
        successor(61),
    ]);
    let _polys = table.polys();
    table
}

fn zeros() -> [u8; 64]
    ensures { result ≡ replicate 64 0 }
{
    [0; 64]
}

// The coefficients of -x + x^p, and zeros after them.
fn frobenius_places(p: u8) -> [u8; 64]
    requires above_one { 1 < p }
    requires room { p < 64 }
    ensures { result ≡ slice_set (slice_set (replicate 64 0) p 1) 1 (p - 1) }
{
    let mut c = zeros();
    c[p as usize] = 1;
    c[1] = p - 1;
    c
}

// -x + x^p
fn frobenius_less(p: u32) -> Poly
    requires { IsCharacteristic p }
    ensures prime { result.prime ≡ p }
    ensures coefficients { result.coefficients
        ≡ 0 ∷ (p - 1) ∷ replicate (p - 2) 0 ++ 1 ∷ [] }
{
    match Prime::of(p) {
        Some(p) => {
            let number = p.number();
            let c = frobenius_places(number);
            Poly::trimmed(p, &c[..number as usize + 1])
        }
        None => unreachable!(),
    }
}

// a^p - a
fn frobenius_differences() -> OpTable
    ensures form { All (λ (f : Polynomial). f.coefficients
        ≡ 0 ∷ (f.prime - 1) ∷ replicate (f.prime - 2) 0 ++ 1 ∷ []) result }
    ensures whole { IsOpTable result }
{
    let table = OpTable::of([
        frobenius_less(2),
        frobenius_less(3),
        frobenius_less(5),
        frobenius_less(7),
        frobenius_less(11),
        frobenius_less(13),
        frobenius_less(17),
        frobenius_less(19),
        frobenius_less(23),
        frobenius_less(29),
        frobenius_less(31),
        frobenius_less(37),
        frobenius_less(41),
        frobenius_less(43),
        frobenius_less(47),
        frobenius_less(53),
        frobenius_less(59),
        frobenius_less(61),
    ]);
    let _polys = table.polys();
    table
}

// The polynomial with these coefficients, which is monic and isn't constant.
fn monic(rt: &impl Abort, p: u32, c: &[u8]) -> Poly
    ensures monic { IsMonic (residues result.prime) result.coefficients }
    ensures not_constant { 1 < length result.coefficients }
    ensures degree { length result.coefficients ≤ MAX_DEGREE + 1 }
{
    let prime = Prime::of(p).expect(rt, "a characteristic");
    let f = Poly::of_slice(prime, c).expect(rt, "residues, and few enough");
    let coefficients = f.coefficients();
    let len = coefficients.len();
    assert!(rt; len > 1 && len <= MAX_DEGREE + 1);
    assert!(rt; coefficients[len - 1] == 1);
    f
}

// The field of this characteristic and polynomial.
fn field_of(rt: &impl Abort, p: u32, c: &[u8]) -> Field {
    let f = monic(rt, p, c);
    match judge(&f) {
        Verdict::Irreducible(_) => Field::new(f),
        Verdict::Reducible {
            factor: _,
            cofactor: _,
        } => panic!(rt; "irreducible"),
    }
}

// Whether the operation gives these digits at those of `a`.
fn gives<F: Fn(&Field, &Value) -> Value + Operation>(
    rt: &impl Abort,
    table: OpTable,
    call: F,
    field: &Field,
    a: &[u8],
    value: &[u8],
)
where
    requires { Realizes F.can_run F.gives table call }
{
    let operation = NaturalOp::new(table, call);
    let a = Value::of_slice(field, a).expect(rt, "digits");
    assert!(rt; operation.apply(field, &a).digits() == value);
}

#[test]
fn square_of_values(rt: HostRuntime) {
    let field = field_of(&rt, 3, &[1, 0, 1]);
    gives(
        &rt,
        squares(),
        |field, a| field.mul(a, a),
        &field,
        &[0, 1],
        &[2, 0],
    );
}

#[test]
fn frobenius_differences_of_values(rt: HostRuntime) {
    let field = field_of(&rt, 3, &[1, 0, 1]);
    gives(
        &rt,
        frobenius_differences(),
        |field, a| field.sub(&field.frob(a), a),
        &field,
        &[0, 1],
        &[0, 1],
    );
}

#[test]
fn successors_of_values(rt: HostRuntime) {
    let field = field_of(&rt, 2, &[1, 1, 1]);
    gives(
        &rt,
        successors(),
        |field, a| field.add(a, &field.one()),
        &field,
        &[1, 1],
        &[0, 1],
    );
}

#[test]
fn stored_call_is_used(rt: HostRuntime) {
    let calls = AtomicU64::new(0);
    let field = field_of(&rt, 7, &[0, 1]);
    gives(
        &rt,
        squares(),
        |field, a| {
            calls.fetch_add(1, Ordering::SeqCst);
            field.mul(a, a)
        },
        &field,
        &[3],
        &[2],
    );
    assert!(rt; calls.load(Ordering::SeqCst) == 1);
}
