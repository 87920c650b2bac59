//! The traces of 1, x, x^2, ..
ghost use Rattle.std.specs.Prelude.{◌≡◌, ℕ, [], ◌*◌, ◌%◌, ◌<◌, ◌≤◌, All, length, slice_index, slice_index_or};
ghost use Rattle.ff_residues.specs.SumRows.{IsRowOf, sum_below};
ghost use Rattle.ff_field.specs.PrivateTables.{IsFrobenius, IsTraceRow, scalar_sum};

use crate::arithmetic::sum_row;
use crate::modulus::Modulus;
use crate::tables::zeros;
use ff_poly::{MAX_DEGREE, Prime};

// The traces of 1, x, x^2, ..: the lowest digits of their conjugates, added up. For the conjugates
// in turn these are a row that is multiplied by the matrix of Frobenius.
pub(crate) fn trace_row(
    modulus: &Modulus,
    frobenius: &[[u8; MAX_DEGREE]; MAX_DEGREE],
) -> [u8; MAX_DEGREE]
    requires { IsFrobenius modulus.now frobenius.now }
    ensures { IsTraceRow modulus.now result }
{
    let p = modulus.prime();
    let n = modulus.degree() as usize;
    let mut traces = zeros::<MAX_DEGREE>();
    let mut digits = first_unit(p);
    'conjugates: for _k in 0..n {
        traces = sum_row(p, &traces, &digits);
        digits = next_digits(p, n, &digits, frobenius);
    }
    traces
}

// One and zeros.
fn first_unit(p: Prime) -> [u8; MAX_DEGREE]
    ensures len { length result ≡ MAX_DEGREE }
    ensures residues { All (λ x. x < p) result }
    ensures one { slice_index result 0 ≡ 1 }
    ensures others { (k : ℕ) → 0 < k → slice_index result k ≡ 0 }
{
    let _number = p.number();
    let mut row = zeros::<MAX_DEGREE>();
    row[0] = 1;
    row
}

// The scalar products of the row with the first n rows of the table, n places of each.
fn next_digits(
    p: Prime,
    n: usize,
    row: &[u8; MAX_DEGREE],
    table: &[[u8; MAX_DEGREE]; MAX_DEGREE],
) -> [u8; MAX_DEGREE]
    requires within { n ≤ MAX_DEGREE }
    requires table { All (IsRowOf p MAX_DEGREE) table.now }
    ensures len { length result ≡ MAX_DEGREE }
    ensures residues { All (λ x. x < p) result }
    ensures places { (k : ℕ) → k < n → slice_index result k
        ≡ scalar_sum n row.now (slice_index_or table.now k []) % p }
{
    let _number = p.number();
    let mut next = zeros::<MAX_DEGREE>();
    for k in 0..n {
        next[k] = scalar_product(p, &row[..n], &table[k]);
    }
    next
}

// The scalar product of the first list with as many numbers of the second.
pub(crate) fn scalar_product(p: Prime, a: &[u8], b: &[u8]) -> u8
    requires room { length a.now ≤ MAX_DEGREE }
    requires within { length a.now ≤ length b.now }
    ensures value { result ≡ scalar_sum (length a.now) a.now b.now % p }
    ensures residue { result < p }
{
    let number = p.number() as u32;
    let mut sum: u32 = 0;
    for i in 0..a.len() {
        sum += a[i] as u32 * b[i] as u32;
    }
    (sum % number) as u8
}
