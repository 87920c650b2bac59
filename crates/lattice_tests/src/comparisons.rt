//! `judge` against trial division on all polynomials of small degree, with counts after Gauss.

use crate::trial_division::{can_try, is_monic, least_factor};
use ff_factor::{Verdict, check, judge};
use ff_poly::{MAX_DEGREE, Poly, Prime};
use std::process::Abort;

// How many of the monic polynomials of this degree are irreducible.
fn count(rt: &impl Abort, p: u8, degree: usize) -> u32 {
    assert!(rt; degree <= 8);
    let mut c = [0u8; 9];
    c[degree] = 1;
    let mut irreducible = 0u32;
    for _ in 0..10_000u32 {
        irreducible = irreducible.wrapping_add(judged(rt, p as u32, &c[..degree + 1]));
        if !next(p, &mut c[..degree]) {
            return irreducible;
        }
    }
    irreducible
}

// The next list of residues; false after the last.
fn next(p: u8, c: &mut [u8]) -> bool {
    for i in 0..c.len() {
        if c[i] < p.saturating_sub(1) {
            c[i] += 1;
            return true;
        }
        c[i] = 0;
    }
    false
}

// 1 where the polynomial is irreducible, with a certificate that holds; 0 where it is not. Trial
// division finds the same.
fn judged(rt: &impl Abort, p: u32, c: &[u8]) -> u32 {
    let prime = Prime::of(p).expect(rt, "a characteristic");
    let f = Poly::of_slice(prime, c).expect(rt, "residues, and few enough");
    let len = f.coefficients().len();
    assert!(rt; len > 1 && len <= MAX_DEGREE + 1);
    assert!(rt; is_monic(&f));
    assert!(rt; can_try(&f));
    let tried = least_factor(&f);
    match judge(&f) {
        Verdict::Irreducible(cert) => {
            assert!(rt; tried.is_none());
            assert!(rt; check(&f, &cert.copy()));
            1
        }
        Verdict::Reducible {
            factor,
            cofactor: _,
        } => {
            let tried = tried.expect(rt, "a factor");
            assert_eq!(rt; factor.coefficients(), tried.coefficients());
            0
        }
    }
}

#[test]
fn counts_of_irreducible_polynomials(rt: HostRuntime) {
    let counts: [(u8, usize, u32); 13] = [
        (2, 1, 2),
        (2, 2, 1),
        (2, 3, 2),
        (2, 4, 3),
        (2, 5, 6),
        (2, 6, 9),
        (3, 1, 3),
        (3, 2, 3),
        (3, 3, 8),
        (3, 4, 18),
        (5, 1, 5),
        (5, 2, 10),
        (5, 3, 40),
    ];
    for (p, degree, irreducible) in counts {
        assert_eq!(rt; count(&rt, p, degree), irreducible, "at {p} {degree}");
    }
}
