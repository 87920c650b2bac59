//! The three operations, handed in as a program hands them in, at values that were worked out by
//! hand: over 2 modulo 1 + x + x^2, over 3 and over 7 modulo 1 + x^2, and over 7 itself.
ghost use Rattle.std.specs.Prelude.{◌≡◌, ◌+◌, ◌<◌, ◌≤◌, length};
ghost use Rattle.alg_model.specs.Coefficients.{residues};
ghost use Rattle.alg_model.specs.Factors.{IsMonic};
ghost use Rattle.natural_ops.specs.Operations.{Realizes};

use crate::{artin_schreier_table, square_table, successor_table};
use ff_factor::{Verdict, judge};
use ff_field::{Field, Value};
use ff_poly::{MAX_DEGREE, Poly, Prime};
use natural_ops::{NaturalOp, OpTable, Operation, Ops};
use std::process::Abort;

struct Case {
    p: u32,
    polynomial: &'static [u8],
    a: &'static [u8],
    square: &'static [u8],
    difference: &'static [u8],
    successor: &'static [u8],
}

const CASES: [Case; 5] = [
    Case {
        p: 2,
        polynomial: &[1, 1, 1],
        a: &[0, 1],
        square: &[1, 1],
        difference: &[1, 0],
        successor: &[1, 1],
    },
    Case {
        p: 3,
        polynomial: &[1, 0, 1],
        a: &[0, 1],
        square: &[2, 0],
        difference: &[0, 1],
        successor: &[1, 1],
    },
    Case {
        p: 3,
        polynomial: &[1, 0, 1],
        a: &[1, 1],
        square: &[0, 2],
        difference: &[0, 1],
        successor: &[2, 1],
    },
    Case {
        p: 7,
        polynomial: &[1, 0, 1],
        a: &[2, 1],
        square: &[3, 4],
        difference: &[0, 5],
        successor: &[3, 1],
    },
    Case {
        p: 7,
        polynomial: &[0, 1],
        a: &[3],
        square: &[2],
        difference: &[0],
        successor: &[4],
    },
];

// The monic polynomial with these coefficients.
fn monic(rt: &impl Abort, p: u32, c: &[u8]) -> Poly
    ensures prime { result.prime ≡ p }
    ensures monic { IsMonic (residues result.prime) result.coefficients }
    ensures not_constant { 1 < length result.coefficients }
    ensures degree { length result.coefficients ≤ MAX_DEGREE + 1 }
{
    let prime = Prime::of(p).expect(rt, "a characteristic");
    let f = Poly::of_slice(prime, c).expect(rt, "residues, and few enough");
    let coefficients = f.coefficients();
    let len = coefficients.len();
    assert!(rt; len > 1 && len <= MAX_DEGREE + 1);
    assert!(rt; coefficients[len - 1] == 1);
    f
}

// The field of this characteristic and polynomial.
fn field_of(rt: &impl Abort, p: u32, c: &[u8]) -> Field {
    let f = monic(rt, p, c);
    match judge(&f) {
        Verdict::Irreducible(_) => Field::new(f),
        Verdict::Reducible {
            factor: _,
            cofactor: _,
        } => panic!(rt; "irreducible"),
    }
}

// Whether the operations give the digits of the case.
fn applied<F: Operation, G: Operation, H: Operation>(
    rt: &impl Abort,
    ops: &Ops<F, G, H>,
    case: &Case,
) {
    let field = field_of(rt, case.p, case.polynomial);
    let a = Value::of_slice(&field, case.a).expect(rt, "digits");
    assert!(rt; ops.first.apply(&field, &a).digits() == case.square);
    assert!(rt; ops.second.apply(&field, &a).digits() == case.difference);
    assert!(rt; ops.third.apply(&field, &a).digits() == case.successor);
}

// Makes operations of tables and closures, each of which realizes its table, and applies them.
fn gives<F, G, H>(rt: &impl Abort, first: (OpTable, F), second: (OpTable, G), third: (OpTable, H))
where
    F: Fn(&Field, &Value) -> Value + Operation,
    G: Fn(&Field, &Value) -> Value + Operation,
    H: Fn(&Field, &Value) -> Value + Operation,
    requires first { Realizes F.can_run F.gives first.0 first.1 }
    requires second { Realizes G.can_run G.gives second.0 second.1 }
    requires third { Realizes H.can_run H.gives third.0 third.1 }
{
    let ops = Ops {
        first: NaturalOp::new(first.0, first.1),
        second: NaturalOp::new(second.0, second.1),
        third: NaturalOp::new(third.0, third.1),
    };
    for case in &CASES {
        applied(rt, &ops, case);
    }
}

#[test]
fn operations_of_a_program(rt: HostRuntime) {
    gives(
        &rt,
        (square_table(), |field, a| field.mul(a, a)),
        (
            artin_schreier_table(),
            |field, a| { field.add(&field.frob(a), &field.neg(a)) },
        ),
        (successor_table(), |field, a| field.add(a, &field.one())),
    );
}
