//! The tables of the operations.
ghost use Rattle.std.specs.Prelude.{◌≡◌, ◌+◌, ◌<◌, ◌≤◌, length, replicate, slice_index, take};
ghost use Rattle.alg_model.specs.Coefficients.{primes};
ghost use Rattle.program_ops.specs.Tables.{polynomial_over, table_with, square, artin_schreier, successor};

use ff_poly::{CHARACTERISTICS, MAX_POLY, PRIMES, Poly, Prime};
use natural_ops::OpTable;
use std::array;

/// The operation `a * a`: the polynomial `x^2` for each characteristic.
pub fn square_table() -> OpTable
    ensures { result ≡ table_with square }
{
    OpTable::of(array::from_fn(
        |k|
            requires { k < PRIMES }
            ensures { result ≡ polynomial_over square (slice_index primes k) }
        { square_polynomial(characteristic(k)) },
    ))
}

/// The operation `a^p - a`: for each characteristic `p` the Artin-Schreier polynomial `x^p - x`.
pub fn artin_schreier_table() -> OpTable
    ensures { result ≡ table_with artin_schreier }
{
    OpTable::of(array::from_fn(
        |k|
            requires { k < PRIMES }
            ensures { result ≡ polynomial_over artin_schreier (slice_index primes k) }
        { artin_schreier_polynomial(characteristic(k)) },
    ))
}

/// The operation `a + 1`: the polynomial `x + 1` for each characteristic.
pub fn successor_table() -> OpTable
    ensures { result ≡ table_with successor }
{
    OpTable::of(array::from_fn(
        |k|
            requires { k < PRIMES }
            ensures { result ≡ polynomial_over successor (slice_index primes k) }
        { successor_polynomial(characteristic(k)) },
    ))
}

// x^2
fn square_polynomial(p: Prime) -> Poly
    ensures { result ≡ polynomial_over square p }
{
    let _number = p.number();
    Poly::trimmed(p, &[0, 0, 1])
}

// x^p - x
fn artin_schreier_polynomial(p: Prime) -> Poly
    ensures { result ≡ polynomial_over artin_schreier p }
{
    let degree = p.number() as usize;
    let row = artin_schreier_row::<MAX_POLY>(p);
    Poly::trimmed(p, &row[..degree + 1])
}

// x + 1
fn successor_polynomial(p: Prime) -> Poly
    ensures { result ≡ polynomial_over successor p }
{
    let _number = p.number();
    Poly::trimmed(p, &[1, 1])
}

// The coefficients of x^p - x, with zeros after them.
fn artin_schreier_row<const W: usize>(p: Prime) -> [u8; W]
    requires { 64 ≤ W }
    ensures len { length result ≡ W }
    ensures coefficients { take (p + 1) result ≡ artin_schreier p }
{
    let degree = p.number();
    let mut row = zeros::<W>();
    row[1] = degree - 1;
    row[degree as usize] = 1;
    row
}

// W zeros.
fn zeros<const W: usize>() -> [u8; W]
    ensures { result ≡ replicate W 0 }
{
    [0; W]
}

// The k-th characteristic.
fn characteristic(k: usize) -> Prime
    requires { k < PRIMES }
    ensures { result ≡ slice_index primes k }
{
    match Prime::of(CHARACTERISTICS[k]) {
        Some(prime) => prime,
        None => unreachable!(),
    }
}
