//! Arithmetic of fields: examples that were computed with PARI, and some by hand over 2 modulo
//! 1 + x + x^4, and over 5 modulo 3 + x, where x is 2.
ghost use Rattle.std.specs.Prelude.{◌≡◌, ◌+◌, ◌<◌, ◌≤◌, length};
ghost use Rattle.alg_model.specs.Coefficients.{residues};
ghost use Rattle.alg_model.specs.Factors.{IsMonic};
ghost use Rattle.alg_model.specs.Maps.{field_values};

use ff_factor::{Verdict, judge};
use ff_field::{Field, Value, ValueFault};
use ff_poly::{MAX_DEGREE, Poly, Prime};
use std::cmp::Ordering;
use std::process::Abort;

struct Example {
    p: u32,
    polynomial: &'static [u8],
    first: &'static [u8],
    second: &'static [u8],
    sum: &'static [u8],
    difference: &'static [u8],
    negative: &'static [u8],
    product: &'static [u8],
    inverse: &'static [u8],
    exponent: u64,
    power: &'static [u8],
    frobenius: &'static [u8],
    trace: u8,
    norm: u8,
}

// What is of one value is of the first.
const EXAMPLES: [Example; 6] = [
    Example {
        p: 2,
        polynomial: &[1, 1],
        first: &[1],
        second: &[0],
        sum: &[1],
        difference: &[1],
        negative: &[1],
        product: &[0],
        inverse: &[1],
        exponent: 8782988613388472268,
        power: &[1],
        frobenius: &[1],
        trace: 1,
        norm: 1,
    },
    Example {
        p: 61,
        polynomial: &[17, 1],
        first: &[44],
        second: &[34],
        sum: &[17],
        difference: &[10],
        negative: &[17],
        product: &[32],
        inverse: &[43],
        exponent: 6249443855774008937,
        power: &[7],
        frobenius: &[44],
        trace: 44,
        norm: 44,
    },
    Example {
        p: 3,
        polynomial: &[2, 1, 1],
        first: &[2, 2],
        second: &[2, 1],
        sum: &[1, 0],
        difference: &[0, 1],
        negative: &[1, 1],
        product: &[0, 1],
        inverse: &[0, 2],
        exponent: 7939587521979461142,
        power: &[1, 2],
        frobenius: &[0, 1],
        trace: 2,
        norm: 2,
    },
    Example {
        p: 2,
        polynomial: &[
            1, 1, 0, 1, 0, 0, 0, 1, 1, 0, 0, 1, 0, 1, 0, 1, 1, 1, 1, 0, 0, 1, 1, 1, 1,
        ],
        first: &[
            0, 1, 1, 1, 1, 1, 1, 0, 0, 1, 0, 1, 0, 0, 1, 1, 1, 1, 1, 0, 0, 1, 1, 0,
        ],
        second: &[
            1, 1, 1, 1, 1, 0, 0, 1, 1, 0, 1, 0, 1, 1, 0, 0, 1, 1, 0, 0, 0, 0, 0, 1,
        ],
        sum: &[
            1, 0, 0, 0, 0, 1, 1, 1, 1, 1, 1, 1, 1, 1, 1, 1, 0, 0, 1, 0, 0, 1, 1, 1,
        ],
        difference: &[
            1, 0, 0, 0, 0, 1, 1, 1, 1, 1, 1, 1, 1, 1, 1, 1, 0, 0, 1, 0, 0, 1, 1, 1,
        ],
        negative: &[
            0, 1, 1, 1, 1, 1, 1, 0, 0, 1, 0, 1, 0, 0, 1, 1, 1, 1, 1, 0, 0, 1, 1, 0,
        ],
        product: &[
            1, 1, 0, 1, 1, 1, 0, 1, 1, 0, 1, 1, 0, 0, 0, 0, 0, 0, 0, 0, 1, 1, 0, 0,
        ],
        inverse: &[
            1, 1, 0, 0, 1, 0, 1, 1, 0, 1, 0, 0, 1, 1, 1, 1, 0, 0, 1, 1, 0, 1, 1, 0,
        ],
        exponent: 7494689323702135121,
        power: &[
            0, 1, 0, 0, 1, 1, 0, 1, 0, 1, 1, 0, 0, 0, 0, 1, 0, 0, 0, 0, 0, 0, 0, 0,
        ],
        frobenius: &[
            1, 1, 1, 0, 0, 1, 1, 1, 0, 1, 1, 1, 0, 0, 0, 0, 0, 0, 1, 1, 0, 1, 0, 0,
        ],
        trace: 1,
        norm: 1,
    },
    Example {
        p: 31,
        polynomial: &[
            24, 22, 6, 4, 20, 25, 7, 10, 26, 7, 19, 1, 11, 13, 1, 14, 21, 14, 5, 7, 19, 0, 19, 10,
            1,
        ],
        first: &[
            28, 29, 12, 6, 18, 16, 24, 21, 22, 15, 2, 6, 4, 20, 15, 3, 9, 24, 2, 18, 15, 30, 8, 25,
        ],
        second: &[
            7, 28, 21, 20, 26, 2, 18, 14, 19, 29, 29, 20, 10, 11, 9, 28, 22, 5, 27, 17, 5, 10, 26,
            27,
        ],
        sum: &[
            4, 26, 2, 26, 13, 18, 11, 4, 10, 13, 0, 26, 14, 0, 24, 0, 0, 29, 29, 4, 20, 9, 3, 21,
        ],
        difference: &[
            21, 1, 22, 17, 23, 14, 6, 7, 3, 17, 4, 17, 25, 9, 6, 6, 18, 19, 6, 1, 10, 20, 13, 29,
        ],
        negative: &[
            3, 2, 19, 25, 13, 15, 7, 10, 9, 16, 29, 25, 27, 11, 16, 28, 22, 7, 29, 13, 16, 1, 23, 6,
        ],
        product: &[
            27, 19, 12, 3, 6, 12, 25, 30, 15, 8, 19, 4, 17, 22, 8, 20, 1, 10, 30, 24, 11, 23, 4, 3,
        ],
        inverse: &[
            21, 22, 5, 10, 15, 20, 11, 6, 29, 2, 3, 26, 29, 0, 29, 7, 28, 3, 18, 14, 21, 20, 5, 23,
        ],
        exponent: 8688327061115909841,
        power: &[
            28, 15, 24, 2, 4, 22, 18, 27, 9, 0, 27, 27, 24, 20, 1, 6, 0, 8, 18, 7, 24, 5, 7, 3,
        ],
        frobenius: &[
            22, 20, 10, 19, 19, 18, 27, 0, 8, 5, 20, 0, 13, 20, 21, 23, 24, 24, 4, 28, 8, 8, 19, 12,
        ],
        trace: 28,
        norm: 6,
    },
    Example {
        p: 61,
        polynomial: &[
            41, 7, 40, 44, 54, 38, 11, 15, 16, 19, 0, 17, 14, 4, 29, 41, 24, 24, 42, 33, 43, 50,
            24, 45, 32, 43, 53, 21, 48, 54, 49, 49, 29, 36, 53, 57, 55, 12, 15, 4, 21, 36, 39, 3,
            16, 34, 17, 48, 1,
        ],
        first: &[
            52, 47, 18, 56, 9, 49, 15, 14, 51, 56, 7, 17, 60, 23, 30, 55, 39, 5, 35, 24, 53, 34,
            16, 11, 11, 40, 42, 48, 18, 7, 35, 50, 19, 54, 17, 32, 53, 44, 40, 39, 12, 34, 0, 25,
            6, 45, 54, 0,
        ],
        second: &[
            23, 60, 35, 43, 36, 44, 43, 18, 51, 24, 26, 48, 19, 30, 39, 58, 52, 10, 14, 36, 52, 11,
            8, 37, 42, 19, 6, 55, 1, 24, 8, 25, 50, 55, 27, 37, 5, 15, 22, 7, 36, 24, 44, 12, 30,
            42, 38, 58,
        ],
        sum: &[
            14, 46, 53, 38, 45, 32, 58, 32, 41, 19, 33, 4, 18, 53, 8, 52, 30, 15, 49, 60, 44, 45,
            24, 48, 53, 59, 48, 42, 19, 31, 43, 14, 8, 48, 44, 8, 58, 59, 1, 46, 48, 58, 44, 37,
            36, 26, 31, 58,
        ],
        difference: &[
            29, 48, 44, 13, 34, 5, 33, 57, 0, 32, 42, 30, 41, 54, 52, 58, 48, 56, 21, 49, 1, 23, 8,
            35, 30, 21, 36, 54, 17, 44, 27, 25, 30, 60, 51, 56, 48, 29, 18, 32, 37, 10, 17, 13, 37,
            3, 16, 3,
        ],
        negative: &[
            9, 14, 43, 5, 52, 12, 46, 47, 10, 5, 54, 44, 1, 38, 31, 6, 22, 56, 26, 37, 8, 27, 45,
            50, 50, 21, 19, 13, 43, 54, 26, 11, 42, 7, 44, 29, 8, 17, 21, 22, 49, 27, 0, 36, 55,
            16, 7, 0,
        ],
        product: &[
            2, 37, 29, 58, 20, 8, 1, 26, 20, 44, 15, 26, 38, 12, 26, 24, 37, 60, 37, 49, 12, 6, 51,
            10, 5, 54, 1, 23, 42, 26, 9, 1, 2, 37, 34, 21, 47, 14, 8, 58, 55, 46, 4, 53, 22, 15,
            32, 40,
        ],
        inverse: &[
            21, 8, 44, 57, 24, 18, 1, 53, 55, 3, 27, 22, 31, 9, 23, 58, 7, 13, 60, 9, 6, 5, 22, 17,
            10, 30, 29, 58, 18, 16, 1, 20, 3, 14, 36, 60, 20, 1, 50, 50, 31, 16, 17, 5, 0, 10, 48,
            8,
        ],
        exponent: 3039346800545254175,
        power: &[
            25, 11, 35, 12, 55, 49, 32, 13, 1, 45, 56, 40, 40, 8, 30, 10, 13, 7, 53, 15, 32, 18,
            43, 8, 27, 0, 24, 25, 1, 50, 56, 2, 1, 8, 44, 24, 30, 10, 18, 39, 41, 57, 40, 23, 22,
            9, 58, 57,
        ],
        frobenius: &[
            37, 59, 51, 18, 17, 49, 40, 7, 6, 0, 39, 15, 36, 40, 10, 53, 8, 59, 12, 15, 23, 0, 36,
            52, 15, 31, 33, 3, 22, 53, 50, 52, 41, 3, 18, 27, 16, 6, 45, 47, 18, 18, 21, 9, 21, 17,
            6, 10,
        ],
        trace: 60,
        norm: 16,
    },
];

/// The monic polynomial with these coefficients.
pub(crate) fn monic(rt: &impl Abort, p: u32, c: &[u8]) -> Poly
    ensures prime { result.prime ≡ p }
    ensures monic { IsMonic (residues result.prime) result.coefficients }
    ensures not_constant { 1 < length result.coefficients }
    ensures degree { length result.coefficients ≤ MAX_DEGREE + 1 }
{
    let prime = Prime::of(p).expect(rt, "a characteristic");
    let f = Poly::of_slice(prime, c).expect(rt, "residues, and few enough");
    let coefficients = f.coefficients();
    let len = coefficients.len();
    assert!(rt; len > 1 && len <= MAX_DEGREE + 1);
    assert!(rt; coefficients[len - 1] == 1);
    f
}

/// The field with this characteristic and this polynomial.
pub(crate) fn field_of(rt: &impl Abort, p: u32, c: &[u8]) -> Field
    ensures { result.characteristic ≡ p }
{
    let f = monic(rt, p, c);
    match judge(&f) {
        Verdict::Irreducible(_) => Field::new(f),
        Verdict::Reducible {
            factor: _,
            cofactor: _,
        } => panic!(rt; "irreducible"),
    }
}

/// The value with these digits.
pub(crate) fn value_of(rt: &impl Abort, field: &Field, c: &[u8]) -> Value
    ensures { (field_values field.now).Valid result }
{
    Value::of_slice(field, c).expect(rt, "digits")
}

#[test]
fn sums_and_products(rt: HostRuntime) {
    for row in &EXAMPLES {
        let field = field_of(&rt, row.p, row.polynomial);
        let a = value_of(&rt, &field, row.first);
        let b = value_of(&rt, &field, row.second);
        assert_eq!(rt; field.add(&a, &b).digits(), row.sum);
        assert_eq!(rt; field.sub(&a, &b).digits(), row.difference);
        assert_eq!(rt; field.neg(&a).digits(), row.negative);
        assert_eq!(rt; field.mul(&a, &b).digits(), row.product);
    }
}

#[test]
fn inverses_and_powers(rt: HostRuntime) {
    for row in &EXAMPLES {
        let field = field_of(&rt, row.p, row.polynomial);
        let a = value_of(&rt, &field, row.first);
        let inverse = field.inv(&a).expect(&rt, "not zero");
        assert_eq!(rt; inverse.digits(), row.inverse);
        assert!(rt; field.inv(&field.zero()).is_none());
        assert_eq!(rt; field.pow(&a, row.exponent).digits(), row.power);
        assert_eq!(rt; field.frob(&a).digits(), row.frobenius);
    }
}

#[test]
fn traces_and_norms(rt: HostRuntime) {
    for row in &EXAMPLES {
        let field = field_of(&rt, row.p, row.polynomial);
        let a = value_of(&rt, &field, row.first);
        assert_eq!(rt; field.trace(&a), row.trace);
        assert_eq!(rt; field.norm(&a), row.norm);
    }
}

#[test]
fn the_generator_of_sixteen(rt: HostRuntime) {
    let field = field_of(&rt, 2, &[1, 1, 0, 0, 1]);
    let g = field.generator();
    assert_eq!(rt; g.digits(), [0, 1, 0, 0].as_slice());
    let inverse = field.inv(&g).expect(&rt, "not zero");
    assert_eq!(rt; inverse.digits(), [1, 0, 0, 1].as_slice());
    assert_eq!(rt; field.pow(&g, 5).digits(), [0, 1, 1, 0].as_slice());
    assert!(rt; field.is_zero(&field.add(&g, &g)));
    assert!(rt; !field.is_zero(&g.copy()));
    assert_eq!(rt; field.mul(&g, &g).digits(), [0, 0, 1, 0].as_slice());
    assert_eq!(rt; field.trace(&g), 0);
    assert_eq!(rt; field.norm(&g), 1);
    assert_eq!(rt; field.pow(&field.zero(), 0).digits(), field.one().digits());
}

#[test]
fn parts_and_order(rt: HostRuntime) {
    let field = field_of(&rt, 3, &[2, 2, 1]).copy();
    assert_eq!(rt; field.degree(), 2);
    assert_eq!(rt; field.poly().coefficients(), [2, 2, 1].as_slice());
    assert!(rt; field.prime().number() == 3);
    let two = field.of_residue(2);
    assert_eq!(rt; two.digits(), [2, 0].as_slice());
    let g = field.generator();
    assert_eq!(rt; field.compare(&two, &g), Ordering::Less);
    assert_eq!(rt; field.compare(&g, &two), Ordering::Greater);
    assert_eq!(rt; field.compare(&g, &g.copy()), Ordering::Equal);
}

#[test]
fn refusals(rt: HostRuntime) {
    let field = field_of(&rt, 3, &[2, 2, 1]);
    assert_eq!(rt; value_of(&rt, &field, &[2]).digits(), [2, 0].as_slice());
    assert!(rt; is_refused(&field, &[9, 9, 9], ValueFault::TooMany(3)));
    assert!(rt; is_refused(&field, &[0, 3], ValueFault::TooLarge(1)));
    assert!(rt; is_refused(&field, &[3, 4], ValueFault::TooLarge(0)));
}

#[test]
fn parts_at_degree_one(rt: HostRuntime) {
    let field = field_of(&rt, 5, &[3, 1]).copy();
    assert_eq!(rt; (field.degree(), field.prime().number()), (1, 5));
    assert_eq!(rt; field.poly().coefficients(), [3, 1].as_slice());
    assert_eq!(rt; field.zero().digits(), [0].as_slice());
    assert_eq!(rt; field.one().digits(), [1].as_slice());
    assert_eq!(rt; field.generator().digits(), [2].as_slice());
    let four = field.of_residue(4);
    assert_eq!(rt; four.copy().digits(), [4].as_slice());
    assert_eq!(rt; field.compare(&field.generator(), &four), Ordering::Less);
    assert!(rt; field.is_zero(&field.zero()) && !field.is_zero(&four));
    assert!(rt; is_refused(&field, &[1, 1], ValueFault::TooMany(2)));
    assert!(rt; is_refused(&field, &[5], ValueFault::TooLarge(0)));
}

#[test]
fn arithmetic_at_degree_one(rt: HostRuntime) {
    let field = field_of(&rt, 5, &[3, 1]);
    let a = value_of(&rt, &field, &[3]);
    let b = field.of_residue(4);
    assert_eq!(rt; field.add(&a, &b).digits(), [2].as_slice());
    assert_eq!(rt; field.sub(&a, &b).digits(), [4].as_slice());
    assert_eq!(rt; field.neg(&a).digits(), [2].as_slice());
    assert_eq!(rt; field.mul(&a, &b).digits(), [2].as_slice());
    let inverse = field.inv(&b).expect(&rt, "not zero");
    assert_eq!(rt; inverse.digits(), [4].as_slice());
    assert!(rt; field.inv(&field.zero()).is_none());
    assert_eq!(rt; field.pow(&a, 3).digits(), [2].as_slice());
    assert_eq!(rt; field.pow(&field.zero(), 0).digits(), [1].as_slice());
    assert_eq!(rt; field.frob(&a).digits(), [3].as_slice());
    assert_eq!(rt; (field.trace(&a), field.norm(&a)), (3, 3));
}

// Whether the numbers are refused as digits for this reason.
fn is_refused(field: &Field, c: &[u8], fault: ValueFault) -> bool {
    match Value::of_slice(field, c) {
        Ok(_) => false,
        Err(found) => found == fault,
    }
}
