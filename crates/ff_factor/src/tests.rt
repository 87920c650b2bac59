//! Examples: factorizations that were computed with SymPy, and those of degree 48 with PARI.
ghost use Rattle.std.specs.Prelude.{◌+◌, ◌<◌, ◌≤◌, length};
ghost use Rattle.alg_model.specs.Coefficients.{residues};
ghost use Rattle.alg_model.specs.Factors.{IsMonic};

use super::*;
use ff_matrix::{Column, Matrix};
use ff_poly::{MAX_DEGREE, Poly, Prime};
use std::process::Abort;

// The monic polynomial with these coefficients.
fn monic(rt: &impl Abort, p: u32, c: &[u8]) -> Poly
    ensures monic { IsMonic (residues result.prime) result.coefficients }
    ensures not_constant { 1 < length result.coefficients }
    ensures degree { length result.coefficients ≤ MAX_DEGREE + 1 }
{
    let prime = Prime::of(p).expect(rt, "a characteristic");
    let f = Poly::of_slice(prime, c).expect(rt, "residues, and few enough");
    let coefficients = f.coefficients();
    let len = coefficients.len();
    assert!(rt; len > 1 && len <= MAX_DEGREE + 1);
    assert!(rt; coefficients[len - 1] == 1);
    f
}

struct Factorization {
    p: u32,
    polynomial: &'static [u8],
    factors: &'static [&'static [u8]],
}

const FACTORIZATIONS: [Factorization; 10] = [
    Factorization {
        p: 31,
        polynomial: &[
            27, 18, 0, 21, 21, 4, 7, 3, 20, 10, 13, 10, 28, 22, 17, 30, 27, 21, 15, 13, 1, 9, 29,
            4, 1,
        ],
        factors: &[
            &[27, 11, 1],
            &[14, 19, 1],
            &[15, 14, 11, 1],
            &[
                22, 14, 25, 26, 9, 18, 12, 28, 22, 25, 19, 10, 17, 22, 28, 22, 25, 1,
            ],
        ],
    },
    Factorization {
        p: 3,
        polynomial: &[
            0, 0, 0, 2, 1, 1, 0, 1, 2, 2, 2, 1, 0, 2, 2, 1, 0, 2, 2, 1, 2, 2, 0, 2, 1,
        ],
        factors: &[
            &[0, 1],
            &[0, 1],
            &[0, 1],
            &[2, 0, 0, 1, 1],
            &[1, 1, 2, 1, 2, 1, 2, 0, 1],
            &[1, 1, 2, 2, 2, 0, 0, 0, 1, 1],
        ],
    },
    Factorization {
        p: 2,
        polynomial: &[
            1, 0, 0, 0, 0, 1, 0, 1, 1, 0, 0, 0, 0, 0, 0, 0, 0, 1, 1, 1, 0, 1, 0, 0, 1,
        ],
        factors: &[
            &[1, 1, 0, 0, 1],
            &[
                1, 1, 1, 1, 0, 0, 1, 1, 0, 0, 1, 0, 0, 0, 1, 1, 1, 0, 0, 0, 1,
            ],
        ],
    },
    Factorization {
        p: 2,
        polynomial: &[1, 0, 0, 0, 1, 0, 0, 0, 1],
        factors: &[&[1, 1, 1], &[1, 1, 1], &[1, 1, 1], &[1, 1, 1]],
    },
    Factorization {
        p: 31,
        polynomial: &[
            21, 22, 10, 2, 9, 11, 26, 9, 15, 22, 10, 5, 15, 15, 22, 5, 1, 8, 30, 0, 30, 23, 11, 27,
            1,
        ],
        factors: &[&[
            21, 22, 10, 2, 9, 11, 26, 9, 15, 22, 10, 5, 15, 15, 22, 5, 1, 8, 30, 0, 30, 23, 11, 27,
            1,
        ]],
    },
    Factorization {
        p: 61,
        polynomial: &[
            1, 52, 60, 33, 17, 47, 7, 13, 15, 22, 51, 59, 8, 2, 13, 52, 36, 54, 6, 32, 20, 51, 38,
            59, 39, 54, 10, 34, 6, 51, 51, 39, 43, 58, 8, 21, 16, 5, 11, 58, 17, 51, 8, 58, 57, 30,
            23, 10, 1,
        ],
        factors: &[&[
            1, 52, 60, 33, 17, 47, 7, 13, 15, 22, 51, 59, 8, 2, 13, 52, 36, 54, 6, 32, 20, 51, 38,
            59, 39, 54, 10, 34, 6, 51, 51, 39, 43, 58, 8, 21, 16, 5, 11, 58, 17, 51, 8, 58, 57, 30,
            23, 10, 1,
        ]],
    },
    Factorization {
        p: 61,
        polynomial: &[
            52, 1, 4, 22, 55, 3, 45, 47, 4, 32, 3, 55, 7, 53, 25, 20, 6, 2, 45, 53, 46, 27, 51, 56,
            23, 3, 10, 40, 50, 3, 11, 60, 3, 2, 12, 12, 60, 18, 35, 54, 54, 11, 22, 22, 52, 8, 40,
            21, 1,
        ],
        factors: &[
            &[
                29, 55, 24, 54, 45, 14, 42, 18, 20, 41, 37, 49, 45, 53, 53, 9, 20, 12, 48, 18, 21,
                8, 38, 10, 1,
            ],
            &[
                6, 16, 9, 35, 32, 9, 16, 8, 38, 23, 12, 15, 32, 35, 10, 5, 35, 11, 1, 52, 50, 52,
                14, 11, 1,
            ],
        ],
    },
    Factorization {
        p: 59,
        polynomial: &[
            8, 17, 24, 53, 50, 11, 57, 43, 6, 19, 11, 36, 8, 31, 36, 36, 23, 16, 48, 27, 7, 56, 40,
            33, 22, 2, 32, 38, 56, 0, 4, 12, 10, 35, 18, 7, 37, 57, 43, 57, 23, 23, 21, 51, 44, 30,
            37, 1, 1,
        ],
        factors: &[
            &[3, 1],
            &[58, 1],
            &[58, 1],
            &[10, 37, 1],
            &[6, 56, 21, 41, 21, 48, 6, 1],
            &[42, 29, 35, 1, 11, 18, 46, 1],
            &[
                1, 32, 15, 9, 8, 7, 1, 43, 38, 14, 39, 16, 4, 50, 3, 48, 48, 16, 27, 13, 30, 2, 52,
                44, 17, 55, 15, 23, 29, 1,
            ],
        ],
    },
    Factorization {
        p: 2,
        polynomial: &[
            1, 1, 0, 0, 0, 0, 0, 0, 0, 1, 0, 0, 0, 0, 0, 1, 1, 0, 0, 1, 0, 1, 0, 1, 1, 0, 1, 1, 1,
            0, 1, 0, 1, 0, 0, 0, 1, 0, 0, 0, 1, 1, 0, 0, 1, 1, 0, 1, 1,
        ],
        factors: &[
            &[1, 0, 0, 0, 0, 1, 1, 0, 1, 0, 0, 0, 1],
            &[1, 0, 0, 0, 0, 1, 1, 0, 1, 0, 0, 0, 1],
            &[
                1, 1, 0, 0, 0, 0, 0, 0, 0, 1, 1, 1, 1, 1, 0, 1, 0, 1, 0, 0, 1, 1, 0, 1, 1,
            ],
        ],
    },
    Factorization {
        p: 43,
        polynomial: &[
            14, 14, 20, 15, 42, 29, 2, 31, 20, 6, 33, 40, 5, 23, 19, 10, 12, 38, 37, 24, 3, 31, 20,
            6, 33, 40, 5, 23, 19, 10, 12, 38, 37, 24, 3, 31, 20, 6, 33, 40, 5, 23, 5, 39, 35, 23,
            38, 38, 1,
        ],
        factors: &[
            &[1, 1],
            &[2, 1],
            &[3, 1],
            &[4, 1],
            &[5, 1],
            &[6, 1],
            &[7, 1],
            &[8, 1],
            &[9, 1],
            &[10, 1],
            &[11, 1],
            &[12, 1],
            &[13, 1],
            &[14, 1],
            &[15, 1],
            &[17, 1],
            &[18, 1],
            &[19, 1],
            &[20, 1],
            &[21, 1],
            &[22, 1],
            &[23, 1],
            &[24, 1],
            &[25, 1],
            &[26, 1],
            &[28, 1],
            &[29, 1],
            &[30, 1],
            &[31, 1],
            &[32, 1],
            &[33, 1],
            &[34, 1],
            &[35, 1],
            &[36, 1],
            &[37, 1],
            &[38, 1],
            &[39, 1],
            &[40, 1],
            &[41, 1],
            &[42, 1],
            &[15, 15, 32, 42, 25, 13, 40, 38, 1],
        ],
    },
];

#[test]
fn factorizations(rt: HostRuntime) {
    for case in &FACTORIZATIONS {
        let f = monic(&rt, case.p, case.polynomial);
        let found = factors(&f);
        assert_eq!(rt; found.items().len(), case.factors.len());
        for (factor, expected) in found.items().iter().zip(case.factors) {
            assert_eq!(rt; factor.coefficients(), *expected);
        }
    }
}

#[test]
fn verdicts(rt: HostRuntime) {
    for case in &FACTORIZATIONS {
        let f = monic(&rt, case.p, case.polynomial);
        match judge(&f) {
            Verdict::Irreducible(cert) => {
                assert_eq!(rt; case.factors.len(), 1);
                assert!(rt; check(&f, &cert));
            }
            Verdict::Reducible {
                factor,
                cofactor: _,
            } => {
                assert!(rt; case.factors.len() > 1);
                assert_eq!(rt; factor.coefficients(), case.factors[0]);
            }
        }
    }
}

#[test]
fn wrong_certificates(rt: HostRuntime) {
    let f = monic(&rt, 7, &[3, 1, 1]);
    let g = monic(&rt, 7, &[1, 0, 1]);
    let p = f.prime();
    match judge(&f) {
        Verdict::Irreducible(cert) => {
            assert!(rt; check(&f, &cert));
            assert!(rt; !check(&g, &cert));
            let zero = Poly::of_slice(p, &[]).expect(&rt, "residues");
            let without = Cert {
                u: zero.copy(),
                w: zero,
                left: cert.left.copy(),
            };
            assert!(rt; !check(&f, &without));
            let narrow = Cert {
                u: cert.u,
                w: cert.w,
                left: Matrix::of_columns(p, 0, &[Column::of_slice(&[])]),
            };
            assert!(rt; !check(&f, &narrow));
        }
        Verdict::Reducible { .. } => assert!(rt; false),
    }
}

struct Least {
    p: u32,
    degree: u32,
    // The coefficients from the constant one on; the others but the leading one are 0.
    low: &'static [u8],
}

const LEAST: [Least; 9] = [
    Least {
        p: 2,
        degree: 1,
        low: &[0],
    },
    Least {
        p: 2,
        degree: 4,
        low: &[1, 1],
    },
    Least {
        p: 2,
        degree: 24,
        low: &[1, 1, 0, 1, 1],
    },
    Least {
        p: 2,
        degree: 48,
        low: &[1, 0, 1, 1, 0, 1],
    },
    Least {
        p: 3,
        degree: 5,
        low: &[1, 2],
    },
    Least {
        p: 5,
        degree: 48,
        low: &[3, 2, 0, 1],
    },
    Least {
        p: 31,
        degree: 24,
        low: &[30, 0, 1],
    },
    Least {
        p: 47,
        degree: 48,
        low: &[13, 1],
    },
    Least {
        p: 61,
        degree: 48,
        low: &[2],
    },
];

// The values were found with PARI, by going through the polynomials in their order.
#[test]
fn least_irreducible_polynomials(rt: HostRuntime) {
    for row in &LEAST {
        assert!(rt; row.degree > 0 && row.degree <= 48 && row.low.len() <= 49);
        let p = Prime::of(row.p).expect(&rt, "a characteristic");
        let f = least_irreducible(p, row.degree);
        let mut expected = [0u8; 49];
        expected[..row.low.len()].copy_from_slice(row.low);
        expected[row.degree as usize] = 1;
        assert_eq!(rt; f.coefficients(), &expected[..row.degree as usize + 1]);
    }
}
