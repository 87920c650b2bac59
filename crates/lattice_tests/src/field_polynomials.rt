//! Polynomials over fields: examples that were computed with PARI.
ghost use Rattle.std.specs.Prelude.{◌≤◌, length};
ghost use Rattle.alg_model.specs.Factors.{IsPolynomial};
ghost use Rattle.alg_model.specs.Maps.{field_values};

use crate::field_values::{field_of, value_of};
use arrayvec::ArrayVec;
use ff_field::{Field, Value};
use ff_polyx::PolyX;
use std::process::Abort;

pub(crate) type Digits = &'static [&'static [u8]];

struct Example {
    p: u32,
    polynomial: &'static [u8],
    first: Digits,
    second: Digits,
    sum: Digits,
    difference: Digits,
    product: Digits,
    quotient: Digits,
    rest: Digits,
    third: Digits,
    common: Digits,
    exponent: u64,
    power: Digits,
    point: &'static [u8],
    value: &'static [u8],
}

// Quotient and rest are of the first by the second, `common` is the greatest common divisor of both
// times the third, the power is of the first modulo the third, and the value that of the first.
const EXAMPLES: [Example; 3] = [
    Example {
        p: 2,
        polynomial: &[1, 1, 0, 0, 1],
        first: &[&[1, 0, 1, 1], &[0, 1, 0, 0], &[1, 1, 1, 0], &[0, 0, 1, 1]],
        second: &[&[0, 1, 1, 0], &[1, 0, 0, 1], &[0, 1, 0, 0]],
        sum: &[&[1, 1, 0, 1], &[1, 1, 0, 1], &[1, 0, 1, 0], &[0, 0, 1, 1]],
        difference: &[&[1, 1, 0, 1], &[1, 1, 0, 1], &[1, 0, 1, 0], &[0, 0, 1, 1]],
        product: &[
            &[0, 0, 0, 1],
            &[1, 1, 0, 0],
            &[1, 0, 0, 1],
            &[0, 0, 0, 0],
            &[0, 0, 0, 1],
            &[1, 1, 0, 1],
        ],
        quotient: &[&[0, 1, 0, 0], &[0, 1, 1, 0]],
        rest: &[&[1, 0, 0, 0], &[0, 0, 1, 0]],
        third: &[&[1, 1, 0, 0], &[0, 0, 1, 0], &[1, 0, 0, 1]],
        common: &[&[0, 1, 1, 0], &[0, 0, 0, 1], &[1, 0, 0, 0]],
        exponent: 1000003,
        power: &[&[1, 0, 1, 0], &[0, 1, 0, 0]],
        point: &[0, 1, 0, 1],
        value: &[1, 1, 1, 1],
    },
    Example {
        p: 31,
        polynomial: &[28, 1, 0, 1],
        first: &[&[3, 30, 7], &[12, 0, 5], &[0, 21, 1], &[9, 9, 2]],
        second: &[&[5, 6, 0], &[30, 1, 17], &[2, 0, 8]],
        sum: &[&[8, 5, 7], &[11, 1, 22], &[2, 21, 9], &[9, 9, 2]],
        difference: &[&[29, 24, 7], &[13, 30, 19], &[29, 21, 24], &[9, 9, 2]],
        product: &[
            &[17, 2, 29],
            &[24, 10, 11],
            &[3, 8, 10],
            &[1, 3, 9],
            &[30, 0, 27],
            &[17, 25, 29],
        ],
        quotient: &[&[5, 8, 27], &[18, 26, 3]],
        rest: &[&[19, 29, 10], &[4, 26, 10]],
        third: &[&[4, 0, 29], &[1, 22, 0], &[13, 2, 6]],
        common: &[&[6, 29, 4], &[12, 25, 18], &[1, 0, 0]],
        exponent: 123456789012345,
        power: &[&[19, 14, 7], &[6, 8, 11]],
        point: &[7, 0, 11],
        value: &[18, 19, 23],
    },
    Example {
        p: 61,
        polynomial: &[2, 60, 1],
        first: &[&[60, 1], &[33, 7], &[0, 58], &[12, 45]],
        second: &[&[5, 60], &[0, 19], &[44, 3]],
        sum: &[&[4, 0], &[33, 26], &[44, 0], &[12, 45]],
        difference: &[&[55, 2], &[33, 49], &[17, 55], &[12, 45]],
        product: &[
            &[58, 5],
            &[19, 56],
            &[44, 60],
            &[27, 51],
            &[16, 27],
            &[14, 16],
        ],
        quotient: &[&[57, 2], &[39, 40]],
        rest: &[&[15, 50], &[17, 46]],
        third: &[&[9, 0], &[28, 51], &[37, 1]],
        common: &[&[44, 47], &[38, 18], &[1, 0]],
        exponent: 9876543210987654321,
        power: &[&[48, 59], &[23, 12]],
        point: &[50, 13],
        value: &[56, 2],
    },
];

/// The polynomial with these coefficients, at most 8.
pub(crate) fn poly_of(rt: &impl Abort, field: &Field, digits: Digits) -> PolyX
    ensures valid { IsPolynomial (field_values field.now) result }
    ensures short { length result ≤ 8 }
{
    let mut values: ArrayVec<Value, 8> = ArrayVec::new();
    for c in digits {
        assert!(rt; values.len() < 8);
        values.push(value_of(rt, field, c));
    }
    PolyX::of_values(field, values.as_slice())
}

// Whether the coefficients have these digits.
pub(crate) fn has_digits(f: &PolyX, digits: Digits) -> bool {
    let coefficients = f.coefficients();
    if coefficients.len() != digits.len() {
        return false;
    }
    for i in 0..digits.len() {
        if coefficients[i].digits() != digits[i] {
            return false;
        }
    }
    true
}

#[test]
fn sums_and_products(rt: HostRuntime) {
    for row in &EXAMPLES {
        let field = field_of(&rt, row.p, row.polynomial);
        let a = poly_of(&rt, &field, row.first);
        let b = poly_of(&rt, &field, row.second);
        assert!(rt; has_digits(&PolyX::add(&field, &a, &b), row.sum));
        assert!(rt; has_digits(&PolyX::sub(&field, &a, &b), row.difference));
        assert!(rt; has_digits(&PolyX::mul(&field, &a, &b), row.product));
        assert!(rt; PolyX::sub(&field, &a, &a.copy()).is_zero());
    }
}

#[test]
fn divisions_and_divisors(rt: HostRuntime) {
    for row in &EXAMPLES {
        let field = field_of(&rt, row.p, row.polynomial);
        let a = poly_of(&rt, &field, row.first);
        let b = poly_of(&rt, &field, row.second);
        let f = poly_of(&rt, &field, row.third);
        assert!(rt; !b.is_zero());
        let (quotient, rest) = PolyX::divrem(&field, &a, &b);
        assert!(rt; has_digits(&quotient, row.quotient));
        assert!(rt; has_digits(&rest, row.rest));
        let common = PolyX::gcd(
            &field,
            &PolyX::mul(&field, &a, &f),
            &PolyX::mul(&field, &b, &f),
        );
        assert!(rt; has_digits(&common, row.common));
    }
}

#[test]
fn powers_values_and_images(rt: HostRuntime) {
    for row in &EXAMPLES {
        let field = field_of(&rt, row.p, row.polynomial);
        let a = poly_of(&rt, &field, row.first);
        let f = poly_of(&rt, &field, row.third);
        assert!(rt; f.coefficients().len() > 1);
        let power = PolyX::powmod(&field, &a, row.exponent, &f);
        assert!(rt; has_digits(&power, row.power));
        let v = value_of(&rt, &field, row.point);
        assert_eq!(rt; PolyX::eval(&field, &a, &v).digits(), row.value);
        let zero = PolyX::map_by(&field, &a, |_c| field.zero());
        assert!(rt; zero.is_zero());
    }
}
