//! Minimal polynomials over the prime field and over subfields, and the polynomials of the
//! embeddings that agree with a given one: the fields with 4 and 16 elements by hand, and examples
//! that were computed with PARI.
ghost use Rattle.alg_model.specs.Factors.{IsPolynomial};
ghost use Rattle.alg_model.specs.Maps.{field_values};

use crate::embeddings::embedded;
use crate::field_polynomials::{Digits, has_digits, poly_of};
use crate::field_values::{field_of, value_of};
use ff_field::Field;
use ff_minpoly::{over, over_prime, restricted};
use ff_polyx::PolyX;
use std::process::Abort;

struct Example {
    p: u32,
    polynomial: &'static [u8],
    value: &'static [u8],
    minimal: &'static [u8],
}

const EXAMPLES: [Example; 6] = [
    Example {
        p: 3,
        polynomial: &[2, 1],
        value: &[2],
        minimal: &[1, 1],
    },
    Example {
        p: 31,
        polynomial: &[2, 1, 1],
        value: &[12, 12],
        minimal: &[9, 19, 1],
    },
    Example {
        p: 61,
        polynomial: &[
            1, 30, 45, 15, 21, 25, 47, 58, 35, 8, 49, 23, 13, 34, 22, 11, 27, 28, 5, 59, 42, 22,
            17, 11, 1,
        ],
        value: &[
            56, 41, 1, 3, 40, 17, 26, 0, 10, 26, 48, 20, 38, 40, 16, 56, 15, 20, 17, 45, 34, 44,
            50, 51,
        ],
        minimal: &[
            46, 50, 51, 8, 34, 60, 42, 39, 46, 14, 14, 32, 11, 47, 54, 34, 18, 59, 18, 8, 46, 29,
            50, 45, 1,
        ],
    },
    Example {
        p: 31,
        polynomial: &[
            1, 0, 14, 3, 9, 30, 10, 8, 29, 9, 16, 3, 9, 26, 0, 21, 0, 14, 2, 13, 26, 26, 17, 11, 1,
        ],
        value: &[
            9, 30, 0, 28, 9, 10, 10, 11, 16, 26, 27, 23, 17, 21, 1, 20, 0, 26, 16, 18, 17, 25, 16,
            8,
        ],
        minimal: &[15, 23, 28, 16, 2, 22, 20, 25, 1],
    },
    Example {
        p: 3,
        polynomial: &[
            1, 0, 1, 2, 0, 0, 2, 0, 0, 2, 2, 0, 0, 2, 0, 2, 1, 0, 0, 1, 0, 0, 1, 0, 2, 0, 0, 0, 0,
            0, 1, 1, 0, 1, 2, 0, 0, 2, 0, 0, 2, 0, 1, 0, 0, 2, 2, 0, 1,
        ],
        value: &[
            2, 0, 1, 0, 0, 0, 0, 2, 1, 0, 1, 1, 1, 2, 0, 0, 1, 2, 1, 0, 0, 0, 2, 2, 0, 2, 1, 0, 1,
            1, 0, 0, 0, 1, 0, 2, 2, 2, 2, 1, 2, 2, 0, 1, 2, 2, 2, 0,
        ],
        minimal: &[
            1, 0, 2, 1, 0, 1, 2, 0, 2, 2, 2, 0, 1, 0, 0, 2, 2, 2, 1, 2, 1, 2, 0, 0, 0, 0, 2, 2, 1,
            0, 2, 2, 1, 1, 0, 0, 2, 1, 1, 2, 2, 0, 1, 1, 1, 0, 0, 0, 1,
        ],
    },
    Example {
        p: 61,
        polynomial: &[
            43, 58, 36, 38, 43, 35, 21, 3, 57, 51, 40, 24, 29, 8, 37, 36, 3, 53, 43, 39, 26, 25,
            27, 47, 15, 13, 7, 32, 5, 43, 12, 33, 12, 55, 15, 49, 46, 45, 44, 36, 27, 54, 37, 47,
            20, 53, 19, 19, 1,
        ],
        value: &[
            42, 31, 36, 23, 16, 36, 31, 21, 21, 32, 3, 42, 50, 14, 14, 45, 31, 42, 54, 28, 34, 32,
            36, 32, 57, 1, 4, 51, 59, 10, 59, 20, 58, 4, 18, 9, 20, 6, 5, 58, 7, 23, 58, 50, 7, 13,
            45, 47,
        ],
        minimal: &[13, 26, 36, 22, 59, 27, 2, 16, 48, 59, 16, 0, 1],
    },
];

// The root is the image of the generator of the field below.
struct SubfieldExample {
    p: u32,
    from: &'static [u8],
    into: &'static [u8],
    root: &'static [u8],
    value: &'static [u8],
    minimal: Digits,
}

const SUBFIELD_EXAMPLES: [SubfieldExample; 3] = [
    SubfieldExample {
        p: 31,
        from: &[2, 1, 1],
        into: &[
            1, 0, 14, 3, 9, 30, 10, 8, 29, 9, 16, 3, 9, 26, 0, 21, 0, 14, 2, 13, 26, 26, 17, 11, 1,
        ],
        root: &[
            10, 1, 2, 29, 28, 1, 14, 17, 19, 13, 23, 12, 29, 6, 21, 3, 23, 21, 17, 11, 18, 25, 6, 8,
        ],
        value: &[
            11, 1, 30, 4, 4, 29, 6, 0, 28, 3, 6, 8, 8, 17, 2, 5, 16, 8, 12, 15, 24, 24, 17, 7,
        ],
        minimal: &[&[10, 30], &[16, 6], &[9, 23], &[1, 0]],
    },
    SubfieldExample {
        p: 61,
        from: &[
            1, 30, 45, 15, 21, 25, 47, 58, 35, 8, 49, 23, 13, 34, 22, 11, 27, 28, 5, 59, 42, 22,
            17, 11, 1,
        ],
        into: &[
            43, 58, 36, 38, 43, 35, 21, 3, 57, 51, 40, 24, 29, 8, 37, 36, 3, 53, 43, 39, 26, 25,
            27, 47, 15, 13, 7, 32, 5, 43, 12, 33, 12, 55, 15, 49, 46, 45, 44, 36, 27, 54, 37, 47,
            20, 53, 19, 19, 1,
        ],
        root: &[
            54, 46, 40, 35, 18, 2, 55, 49, 42, 44, 40, 49, 4, 2, 8, 16, 30, 43, 32, 57, 39, 49, 6,
            43, 32, 21, 12, 49, 32, 26, 46, 26, 13, 15, 18, 3, 23, 0, 12, 40, 18, 22, 40, 58, 9,
            37, 11, 2,
        ],
        value: &[
            18, 14, 52, 56, 39, 4, 38, 33, 49, 41, 2, 27, 33, 16, 55, 41, 30, 40, 10, 13, 4, 50,
            53, 0, 1, 41, 0, 16, 30, 27, 24, 40, 38, 44, 10, 13, 20, 50, 53, 55, 30, 12, 1, 50, 36,
            23, 17, 52,
        ],
        minimal: &[
            &[
                19, 32, 58, 11, 58, 32, 16, 38, 20, 52, 30, 1, 34, 30, 7, 11, 0, 1, 45, 16, 28, 1,
                11, 20,
            ],
            &[
                41, 12, 15, 35, 45, 44, 37, 15, 6, 24, 17, 33, 25, 42, 23, 0, 37, 32, 46, 49, 28,
                2, 15, 17,
            ],
            &[
                1, 0, 0, 0, 0, 0, 0, 0, 0, 0, 0, 0, 0, 0, 0, 0, 0, 0, 0, 0, 0, 0, 0, 0,
            ],
        ],
    },
    SubfieldExample {
        p: 3,
        from: &[1, 1, 1, 1, 1, 1, 1],
        into: &[
            1, 0, 2, 2, 1, 2, 2, 1, 1, 1, 2, 1, 2, 0, 1, 2, 1, 0, 0, 2, 1, 1, 1, 0, 1,
        ],
        root: &[
            1, 0, 1, 2, 1, 1, 1, 2, 1, 2, 0, 2, 2, 1, 2, 1, 2, 1, 1, 2, 2, 0, 0, 1,
        ],
        value: &[
            0, 0, 1, 1, 1, 2, 0, 2, 0, 1, 2, 1, 1, 2, 2, 2, 2, 0, 1, 0, 0, 0, 2, 1,
        ],
        minimal: &[
            &[1, 0, 1, 0, 2, 2],
            &[1, 1, 0, 1, 2, 0],
            &[1, 1, 1, 2, 1, 0],
            &[1, 1, 0, 2, 2, 2],
            &[1, 0, 0, 0, 0, 0],
        ],
    },
];

#[test]
fn over_the_prime_field(rt: HostRuntime) {
    for row in &EXAMPLES {
        let field = field_of(&rt, row.p, row.polynomial);
        let minimal = over_prime(&field, &value_of(&rt, &field, row.value));
        assert!(rt; minimal.prime().number() == field.prime().number());
        assert_eq!(rt; minimal.coefficients(), row.minimal);
    }
}

#[test]
fn over_a_subfield(rt: HostRuntime) {
    for row in &SUBFIELD_EXAMPLES {
        let from = field_of(&rt, row.p, row.from);
        let into = field_of(&rt, row.p, row.into);
        let map = embedded(&rt, &from, &into, row.root);
        let value = value_of(&rt, &map.target(), row.value);
        assert!(rt; has_digits(&over(&map, &value), row.minimal));
    }
}

#[test]
fn four_elements_in_sixteen(rt: HostRuntime) {
    let k = field_of(&rt, 2, &[1, 1, 1]);
    let l = field_of(&rt, 2, &[1, 1, 0, 0, 1]);
    let image = value_of(&rt, &l, &[0, 1, 1, 0]);
    assert_eq!(rt; over_prime(&l, &image).coefficients(), [1, 1, 1].as_slice());
    let map = embedded(&rt, &k, &l, &[0, 1, 1, 0]);
    let generator = map.target().generator();
    assert!(rt; has_digits(&over(&map, &generator), &[&[0, 1], &[1, 0], &[1, 0]]));
}

// The polynomial over the third of the fields below, with the roots that are tested there.
const RESTRICTION: Digits = &[&[0, 1, 0, 1], &[1, 0, 0, 0], &[1, 0, 0, 0]];

#[test]
fn two_fields_over_one_of_four_elements(rt: HostRuntime) {
    let k = field_of(&rt, 2, &[1, 1, 1]);
    let l = field_of(&rt, 2, &[1, 1, 0, 0, 1]);
    let m = field_of(&rt, 2, &[1, 0, 0, 1, 1]);
    let sub = embedded(&rt, &k, &l, &[0, 1, 1, 0]);
    let into = embedded(&rt, &k, &m, &[0, 1, 0, 1]);
    assert!(rt; has_digits(&restricted(&sub, &into), RESTRICTION));
    let polynomial = poly_of(&rt, &m, RESTRICTION);
    assert!(rt; is_root(&rt, &m, &polynomial, &[0, 0, 1, 1]));
    assert!(rt; is_root(&rt, &m, &polynomial, &[1, 0, 1, 1]));
    assert!(rt; !is_root(&rt, &m, &polynomial, &[0, 1, 0, 0]));
}

// Whether the polynomial is zero at the value with these digits.
fn is_root(rt: &impl Abort, field: &Field, polynomial: &PolyX, digits: &[u8]) -> bool
    requires { IsPolynomial (field_values field.now) polynomial.now }
{
    let value = PolyX::eval(field, polynomial, &value_of(rt, field, digits));
    field.is_zero(&value)
}
