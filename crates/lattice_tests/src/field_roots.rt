//! Roots of polynomials in fields: examples that were computed with PARI, some by hand, and a search
//! through all values to compare with.
ghost use Rattle.std.specs.Prelude.{◌≢◌, ◌<◌, ◌≤◌, [], length};
ghost use Rattle.alg_model.specs.Factors.{IsPolynomial};
ghost use Rattle.alg_model.specs.Maps.{field_values};

use crate::field_polynomials::{Digits, poly_of};
use crate::field_values::{field_of, monic, value_of};
use arrayvec::ArrayVec;
use ff_factor::{Verdict, judge};
use ff_field::{Field, Value};
use ff_polyx::PolyX;
use ff_roots::{RootList, common_roots, conjugate_roots, one_root, roots};
use std::process::Abort;

struct Example {
    p: u32,
    field: &'static [u8],
    polynomial: &'static [u8],
    count: usize,
    least: &'static [u8],
    greatest: &'static [u8],
}

// A polynomial over a field with few values, and how many roots it has.
struct Counted {
    p: u32,
    field: &'static [u8],
    size: u32,
    polynomial: Digits,
    count: usize,
}

// Irreducible polynomials over the prime field, and multiples of such.
const IRREDUCIBLE: [Counted; 9] = [
    Counted {
        p: 2,
        field: &[1, 1, 1],
        size: 4,
        polynomial: &[&[1], &[1], &[1]],
        count: 2,
    },
    Counted {
        p: 2,
        field: &[1, 1, 0, 1],
        size: 8,
        polynomial: &[&[1], &[1], &[1]],
        count: 0,
    },
    Counted {
        p: 2,
        field: &[1, 1, 0, 0, 1],
        size: 16,
        polynomial: &[&[1], &[1], &[1]],
        count: 2,
    },
    Counted {
        p: 2,
        field: &[1, 1, 0, 0, 0, 0, 1],
        size: 64,
        polynomial: &[&[1], &[1], &[1]],
        count: 2,
    },
    Counted {
        p: 2,
        field: &[1, 1, 0, 0, 0, 0, 1],
        size: 64,
        polynomial: &[&[1], &[0], &[0], &[1], &[0], &[0], &[1]],
        count: 6,
    },
    Counted {
        p: 3,
        field: &[1, 2, 0, 1],
        size: 27,
        polynomial: &[&[2], &[1], &[0], &[2]],
        count: 3,
    },
    Counted {
        p: 3,
        field: &[1, 2, 0, 1],
        size: 27,
        polynomial: &[&[0, 1], &[0, 2], &[0], &[0, 1]],
        count: 3,
    },
    Counted {
        p: 5,
        field: &[2, 0, 1],
        size: 25,
        polynomial: &[&[2], &[0], &[1]],
        count: 2,
    },
    Counted {
        p: 5,
        field: &[2, 0, 1],
        size: 25,
        polynomial: &[&[3], &[1]],
        count: 1,
    },
];

// Reducible polynomials over the prime field.
const REDUCIBLE: [Counted; 6] = [
    Counted {
        p: 2,
        field: &[1, 1, 0, 0, 1],
        size: 16,
        polynomial: &[&[1], &[0], &[1], &[0], &[1]],
        count: 2,
    },
    Counted {
        p: 2,
        field: &[1, 1, 0, 0, 0, 0, 1],
        size: 64,
        polynomial: &[&[1], &[0], &[0], &[1]],
        count: 3,
    },
    Counted {
        p: 2,
        field: &[1, 1, 0, 0, 0, 0, 1],
        size: 64,
        polynomial: &[&[1], &[1], &[1], &[1], &[1], &[1], &[1]],
        count: 6,
    },
    Counted {
        p: 3,
        field: &[1, 2, 0, 1],
        size: 27,
        polynomial: &[&[1], &[0], &[2], &[0], &[1]],
        count: 0,
    },
    Counted {
        p: 5,
        field: &[2, 0, 1],
        size: 25,
        polynomial: &[&[4], &[0], &[0], &[0], &[1]],
        count: 4,
    },
    Counted {
        p: 5,
        field: &[2, 0, 1],
        size: 25,
        polynomial: &[&[2], &[1], &[2], &[1]],
        count: 2,
    },
];

// Polynomials with a coefficient outside the prime field.
const OUTSIDE: [Counted; 6] = [
    Counted {
        p: 2,
        field: &[1, 1, 1],
        size: 4,
        polynomial: &[&[0, 1], &[1], &[1]],
        count: 0,
    },
    Counted {
        p: 2,
        field: &[1, 1, 0, 0, 1],
        size: 16,
        polynomial: &[&[0, 1], &[1], &[1]],
        count: 2,
    },
    Counted {
        p: 2,
        field: &[1, 1, 0, 0, 1],
        size: 16,
        polynomial: &[&[1], &[1], &[0, 1, 1]],
        count: 2,
    },
    Counted {
        p: 2,
        field: &[1, 1, 0, 0, 0, 0, 1],
        size: 64,
        polynomial: &[&[1, 1], &[0], &[0], &[1]],
        count: 3,
    },
    Counted {
        p: 3,
        field: &[1, 2, 0, 1],
        size: 27,
        polynomial: &[&[0, 1], &[2], &[0], &[1]],
        count: 3,
    },
    Counted {
        p: 5,
        field: &[2, 0, 1],
        size: 25,
        polynomial: &[&[3], &[0, 2], &[1]],
        count: 1,
    },
];

// Irreducible polynomials over the prime field, of degree 1, 2, 24 and 48.
const EXAMPLES: [Example; 5] = [
    Example {
        p: 31,
        field: &[
            28, 24, 7, 9, 0, 30, 1, 18, 14, 24, 6, 22, 16, 14, 15, 4, 7, 6, 16, 25, 21, 21, 15, 18,
            1,
        ],
        polynomial: &[5, 1],
        count: 1,
        least: &[
            26, 0, 0, 0, 0, 0, 0, 0, 0, 0, 0, 0, 0, 0, 0, 0, 0, 0, 0, 0, 0, 0, 0, 0,
        ],
        greatest: &[
            26, 0, 0, 0, 0, 0, 0, 0, 0, 0, 0, 0, 0, 0, 0, 0, 0, 0, 0, 0, 0, 0, 0, 0,
        ],
    },
    Example {
        p: 31,
        field: &[
            28, 24, 7, 9, 0, 30, 1, 18, 14, 24, 6, 22, 16, 14, 15, 4, 7, 6, 16, 25, 21, 21, 15, 18,
            1,
        ],
        polynomial: &[1, 26, 1],
        count: 2,
        least: &[
            22, 11, 16, 29, 21, 15, 8, 26, 1, 0, 2, 21, 14, 12, 25, 22, 19, 16, 3, 5, 12, 15, 20, 4,
        ],
        greatest: &[
            14, 20, 15, 2, 10, 16, 23, 5, 30, 0, 29, 10, 17, 19, 6, 9, 12, 15, 28, 26, 19, 16, 11,
            27,
        ],
    },
    Example {
        p: 61,
        field: &[
            14, 27, 43, 19, 20, 38, 49, 33, 11, 50, 48, 49, 52, 2, 55, 20, 2, 23, 33, 20, 47, 57,
            18, 11, 18, 50, 26, 7, 33, 3, 53, 16, 47, 9, 4, 24, 31, 15, 22, 36, 54, 46, 29, 52, 51,
            2, 42, 20, 1,
        ],
        polynomial: &[36, 1],
        count: 1,
        least: &[
            25, 0, 0, 0, 0, 0, 0, 0, 0, 0, 0, 0, 0, 0, 0, 0, 0, 0, 0, 0, 0, 0, 0, 0, 0, 0, 0, 0, 0,
            0, 0, 0, 0, 0, 0, 0, 0, 0, 0, 0, 0, 0, 0, 0, 0, 0, 0, 0,
        ],
        greatest: &[
            25, 0, 0, 0, 0, 0, 0, 0, 0, 0, 0, 0, 0, 0, 0, 0, 0, 0, 0, 0, 0, 0, 0, 0, 0, 0, 0, 0, 0,
            0, 0, 0, 0, 0, 0, 0, 0, 0, 0, 0, 0, 0, 0, 0, 0, 0, 0, 0,
        ],
    },
    Example {
        p: 61,
        field: &[
            14, 27, 43, 19, 20, 38, 49, 33, 11, 50, 48, 49, 52, 2, 55, 20, 2, 23, 33, 20, 47, 57,
            18, 11, 18, 50, 26, 7, 33, 3, 53, 16, 47, 9, 4, 24, 31, 15, 22, 36, 54, 46, 29, 52, 51,
            2, 42, 20, 1,
        ],
        polynomial: &[
            2, 54, 57, 36, 19, 58, 22, 58, 8, 8, 51, 40, 27, 3, 15, 44, 36, 46, 0, 1, 25, 9, 60,
            44, 1,
        ],
        count: 24,
        least: &[
            33, 0, 2, 50, 48, 51, 5, 52, 36, 54, 20, 15, 44, 47, 50, 10, 43, 5, 49, 50, 4, 32, 31,
            41, 45, 59, 37, 12, 56, 40, 36, 25, 9, 10, 32, 32, 56, 59, 15, 17, 47, 38, 58, 50, 52,
            18, 6, 2,
        ],
        greatest: &[
            45, 4, 14, 10, 35, 30, 26, 53, 15, 49, 36, 26, 12, 14, 32, 30, 37, 42, 43, 26, 60, 25,
            19, 36, 5, 41, 60, 16, 18, 25, 48, 50, 55, 19, 36, 23, 2, 20, 51, 38, 59, 15, 29, 50,
            29, 40, 34, 57,
        ],
    },
    Example {
        p: 61,
        field: &[
            14, 27, 43, 19, 20, 38, 49, 33, 11, 50, 48, 49, 52, 2, 55, 20, 2, 23, 33, 20, 47, 57,
            18, 11, 18, 50, 26, 7, 33, 3, 53, 16, 47, 9, 4, 24, 31, 15, 22, 36, 54, 46, 29, 52, 51,
            2, 42, 20, 1,
        ],
        polynomial: &[
            3, 43, 23, 10, 28, 46, 31, 2, 27, 15, 22, 37, 43, 5, 34, 11, 60, 59, 54, 4, 44, 41, 23,
            38, 4, 35, 25, 17, 16, 20, 20, 49, 34, 24, 6, 21, 57, 28, 28, 24, 4, 52, 6, 55, 2, 13,
            46, 5, 1,
        ],
        count: 48,
        least: &[
            4, 2, 37, 41, 48, 30, 10, 27, 51, 43, 10, 48, 52, 0, 34, 14, 52, 56, 4, 54, 4, 45, 30,
            12, 14, 55, 18, 21, 42, 20, 11, 60, 56, 55, 4, 30, 39, 50, 20, 12, 45, 47, 40, 33, 30,
            4, 30, 0,
        ],
        greatest: &[
            28, 11, 51, 56, 18, 16, 27, 42, 16, 47, 31, 52, 30, 46, 8, 6, 32, 60, 48, 24, 36, 9,
            41, 35, 13, 8, 52, 23, 3, 45, 31, 57, 36, 18, 31, 13, 25, 2, 3, 32, 8, 28, 46, 50, 50,
            6, 30, 60,
        ],
    },
];

// y^2 + y + 1 and y^4 + y + 1.
const QUADRATIC: Digits = &[&[1], &[1], &[1]];

const QUARTIC: Digits = &[&[1], &[1], &[0], &[0], &[1]];

// Whether the list has these values, in this order.
fn has_values(list: &RootList, values: &[&[u8]]) -> bool {
    let items = list.items();
    if items.len() != values.len() {
        return false;
    }
    for i in 0..values.len() {
        if items[i].digits() != values[i] {
            return false;
        }
    }
    true
}

// The polynomial with these coefficients, which isn't zero.
fn some_poly(rt: &impl Abort, field: &Field, digits: Digits) -> PolyX
    ensures valid { IsPolynomial (field_values field.now) result }
    ensures not_zero { result ≢ [] }
    ensures short { length result ≤ 8 }
{
    let f = poly_of(rt, field, digits);
    assert!(rt; !f.is_zero());
    f
}

#[test]
fn roots_of_irreducible_polynomials(rt: HostRuntime) {
    for row in &EXAMPLES {
        let field = field_of(&rt, row.p, row.field);
        let f = monic(&rt, row.p, row.polynomial);
        match judge(&f) {
            Verdict::Irreducible(_) => {
                let list = conjugate_roots(&field, &f);
                let items = list.items();
                assert_eq!(rt; items.len(), row.count);
                assert!(rt; items.len() > 0);
                assert_eq!(rt; items[0].digits(), row.least);
                assert_eq!(rt; items[items.len() - 1].digits(), row.greatest);
            }
            Verdict::Reducible {
                factor: _,
                cofactor: _,
            } => panic!(rt; "irreducible"),
        }
    }
}

#[test]
fn roots_over_two(rt: HostRuntime) {
    let first = field_of(&rt, 2, &[1, 1, 0, 0, 1]);
    let list = roots(&first, &some_poly(&rt, &first, QUADRATIC));
    assert!(rt; has_values(&list, &[&[0, 1, 1, 0], &[1, 1, 1, 0]]));
    let second = field_of(&rt, 2, &[1, 0, 0, 1, 1]);
    let list = roots(&second, &some_poly(&rt, &second, QUADRATIC));
    assert!(rt; has_values(&list, &[&[0, 1, 0, 1], &[1, 1, 0, 1]]));
    let list = roots(&second, &some_poly(&rt, &second, QUARTIC));
    assert!(rt;
        has_values(
            &list,
            &[&[0, 1, 1, 0], &[1, 1, 1, 0], &[0, 0, 1, 1], &[1, 0, 1, 1]],
        )
    );
    let third = field_of(&rt, 2, &[1, 1, 0, 1]);
    assert!(rt; one_root(&third, &some_poly(&rt, &third, QUADRATIC)).is_none());
    let constant = some_poly(&rt, &third, &[&[0, 1]]);
    assert!(rt; roots(&third, &constant).items().is_empty());
}

#[test]
fn roots_in_common(rt: HostRuntime) {
    let field = field_of(&rt, 2, &[1, 1, 0, 0, 1]);
    let f = monic(&rt, 2, &[1, 1, 0, 0, 1]);
    match judge(&f) {
        Verdict::Irreducible(_) => {
            let all = conjugate_roots(&field, &f);
            assert!(rt;
                has_values(
                    &all,
                    &[&[0, 1, 0, 0], &[1, 1, 0, 0], &[0, 0, 1, 0], &[1, 0, 1, 0]],
                )
            );
            // (y + x) (y + x^2) (y + 1)
            let g = some_poly(
                &rt,
                &field,
                &[&[0, 0, 0, 1], &[0, 1, 1, 1], &[1, 1, 1, 0], &[1]],
            );
            let list = common_roots(&field, &f, &g);
            assert!(rt; has_values(&list, &[&[0, 1, 0, 0], &[0, 0, 1, 0]]));
            let one = some_poly(&rt, &field, &[&[1], &[1]]);
            assert!(rt; common_roots(&field, &f, &one).items().is_empty());
        }
        Verdict::Reducible {
            factor: _,
            cofactor: _,
        } => panic!(rt; "irreducible"),
    }
}

// The value whose digits are those of a number to the base p, for a field of degree at most 6.
fn numbered(rt: &impl Abort, field: &Field, number: u32) -> Value
    ensures { (field_values field.now).Valid result }
{
    let p = field.prime().number() as u32;
    let n = field.degree() as usize;
    assert!(rt; n <= 6 && p > 0);
    let mut digits = [0; 6];
    let mut rest = number;
    for i in 0..n {
        digits[i] = (rest % p) as u8;
        rest /= p;
    }
    value_of(rt, field, &digits[..n])
}

// Whether the roots are those of a search through all values, of which there are `size`.
fn agrees_with_search(rt: &impl Abort, field: &Field, size: u32, g: &PolyX) -> bool
    requires polynomial { IsPolynomial (field_values field.now) g.now }
    requires not_zero { g.now ≢ [] }
    requires degree { length g.now ≤ 49 }
{
    let list = roots(field, g);
    let items = list.items();
    let mut found = 0;
    for number in 0..size {
        let v = numbered(rt, field, number);
        if field.is_zero(&PolyX::eval(field, g, &v)) {
            if found >= items.len() || items[found].digits() != v.digits() {
                return false;
            }
            found += 1;
        }
    }
    found == items.len()
}

// A polynomial of degree 5 over the field.
fn quintic(rt: &impl Abort, field: &Field, seed: u32) -> PolyX
    requires { seed < 100 }
    ensures valid { IsPolynomial (field_values field.now) result }
    ensures short { length result ≤ 8 }
{
    let mut values: ArrayVec<Value, 8> = ArrayVec::new();
    'coefficients: for j in 0..5 {
        values.push(numbered(rt, field, seed * 31 + j * 7 + 1));
    }
    values.push(field.one());
    PolyX::of_values(field, values.as_slice())
}

// y^size - y, which vanishes at all values where there are `size`.
fn of_all_values(field: &Field, size: usize) -> PolyX
    requires { (1 < size) × (size ≤ 30) }
    ensures valid { IsPolynomial (field_values field.now) result }
    ensures short { length result ≤ 32 }
{
    let mut values: ArrayVec<Value, 32> = ArrayVec::new();
    values.push(field.zero());
    values.push(field.neg(&field.one()));
    'zeros: for _k in 2..size {
        values.push(field.zero());
    }
    values.push(field.one());
    PolyX::of_values(field, values.as_slice())
}

// Twelve polynomials of degree 5, and y^size - y.
fn compare_with_search(rt: &impl Abort, field: &Field, size: u32)
    requires { (1 < size) × (size ≤ 30) }
{
    for seed in 0..12 {
        let g = quintic(rt, field, seed);
        assert!(rt; !g.is_zero());
        assert!(rt; agrees_with_search(rt, field, size, &g));
    }
    let g = of_all_values(field, size as usize);
    assert!(rt; !g.is_zero());
    assert!(rt; agrees_with_search(rt, field, size, &g));
    assert_eq!(rt; roots(field, &g).items().len(), size as usize);
}

#[test]
fn roots_by_search(rt: HostRuntime) {
    compare_with_search(&rt, &field_of(&rt, 2, &[1, 1, 0, 0, 1]), 16);
    compare_with_search(&rt, &field_of(&rt, 3, &[1, 2, 0, 1]), 27);
    compare_with_search(&rt, &field_of(&rt, 5, &[2, 0, 1]), 25);
}

// Whether each polynomial has the roots that a search finds, and so many.
fn compare_counted(rt: &impl Abort, rows: &[Counted]) {
    for row in rows {
        let field = field_of(rt, row.p, row.field);
        let g = some_poly(rt, &field, row.polynomial);
        assert!(rt; agrees_with_search(rt, &field, row.size, &g));
        assert_eq!(rt; roots(&field, &g).items().len(), row.count);
    }
}

#[test]
fn roots_over_the_prime_field(rt: HostRuntime) {
    compare_counted(&rt, &IRREDUCIBLE);
    compare_counted(&rt, &REDUCIBLE);
    let field = field_of(&rt, 2, &[1, 1, 0, 0, 0, 0, 1]);
    let list = roots(&field, &some_poly(&rt, &field, QUADRATIC));
    assert!(rt; has_values(&list, &[&[0, 1, 0, 1, 1, 1], &[1, 1, 0, 1, 1, 1]]));
}

#[test]
fn roots_outside_the_prime_field(rt: HostRuntime) {
    compare_counted(&rt, &OUTSIDE);
}
