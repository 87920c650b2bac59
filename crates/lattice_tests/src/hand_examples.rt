//! Trial division: factors found by hand.
use crate::trial_division::least_factor;
use ff_poly::{Poly, Prime};
use std::process::Abort;

// The least factor of the polynomial with these coefficients over p is the expected one; none where
// that is empty.
fn expect(rt: &impl Abort, p: u32, coefficients: &[u8], factor: &[u8]) {
    let prime = Prime::of(p).expect(rt, "a characteristic");
    let f = Poly::of_slice(prime, coefficients).expect(rt, "residues");
    assert!(rt; f.coefficients().len() == 3 && prime.number() < 32);
    match least_factor(&f) {
        Some(g) => assert_eq!(rt; g.coefficients(), factor),
        None => assert!(rt; factor.is_empty()),
    }
}

#[test]
fn factors_quadratics(rt: HostRuntime) {
    expect(&rt, 2, &[1, 1, 1], &[]);
    expect(&rt, 2, &[1, 0, 1], &[1, 1]);
    expect(&rt, 5, &[1, 0, 1], &[2, 1]);
    expect(&rt, 31, &[1, 0, 1], &[]);
}
