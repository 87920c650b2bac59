//! The remainders of the powers of x, in rows.
ghost use Rattle.std.specs.Prelude.{◌≡◌, ℕ, ◌+◌, ◌-◌, ◌*◌, ◌%◌, ◌<◌, ◌≤◌, All, length, slice_index};
ghost use Rattle.ff_residues.specs.SumRows.{IsRowOf};
ghost use Rattle.ff_field.specs.PrivateTables.{IsRowTable, place_before, times_x_place};

use ff_poly::{MAX_DEGREE, Prime};

// How many places the digits of a value have among zeros: three times the greatest degree.
pub(crate) const SPAN: usize = 144;

// W zeros.
#[inline(always)]
pub(crate) fn zeros<const W: usize>() -> [u8; W]
    requires { W ≤ SPAN }
    ensures len { length result ≡ W }
    ensures blank { (k : ℕ) → slice_index result k ≡ 0 }
{
    [0; W]
}

// The same row N times.
pub(crate) fn repeated<const N: usize>(row: [u8; MAX_DEGREE]) -> [[u8; MAX_DEGREE]; N]
    requires { N ≤ MAX_DEGREE }
    ensures len { length result ≡ N }
    ensures rows { (p : ℕ) → IsRowOf p MAX_DEGREE row → All (IsRowOf p MAX_DEGREE) result }
{
    [row; N]
}

// The remainders by the monic f of degree n of x^n, x^(n + 1), .., n - 1 of them.
pub(crate) fn power_rows(p: Prime, f: &[u8]) -> [[u8; MAX_DEGREE]; MAX_DEGREE]
    requires residues { All (λ x. x < p) f.now }
    requires degree { (1 < length f.now) × (length f.now ≤ MAX_DEGREE + 1) }
    ensures { IsRowTable p f.now result }
{
    let n = f.len() - 1;
    let _number = p.number();
    let mut table = repeated::<MAX_DEGREE>(zeros());
    let mut row = last_unit(p, n);
    for i in 0..n - 1 {
        row = times_x(p, f, &row);
        table[i] = row;
    }
    table
}

// x^(n - 1)
fn last_unit(p: Prime, n: usize) -> [u8; MAX_DEGREE]
    requires { (0 < n) × (n ≤ MAX_DEGREE) }
    ensures row { IsRowOf p MAX_DEGREE result }
    ensures one { slice_index result (n - 1) ≡ 1 }
    ensures others { (k : ℕ) → k < n - 1 → slice_index result k ≡ 0 }
{
    let _number = p.number();
    let mut row = zeros::<MAX_DEGREE>();
    row[n - 1] = 1;
    row
}

// x times a remainder, less a multiple of f.
fn times_x(p: Prime, f: &[u8], row: &[u8; MAX_DEGREE]) -> [u8; MAX_DEGREE]
    requires residues { All (λ x. x < p) f.now }
    requires degree { (1 < length f.now) × (length f.now ≤ MAX_DEGREE + 1) }
    requires row { IsRowOf p MAX_DEGREE row.now }
    ensures row { IsRowOf p MAX_DEGREE result }
    ensures places { (k : ℕ) → k < length f.now - 1
        → slice_index result k ≡ times_x_place p f.now (slice_index row.now) k % p }
{
    let n = f.len() - 1;
    let _number = p.number();
    let factor = p.neg(row[n - 1]);
    let mut next = zeros::<MAX_DEGREE>();
    for k in 0..n {
        next[k] = p.reduced(before(row, k) as u16 + factor as u16 * f[k] as u16) as u8;
    }
    next
}

// The place before this one; zero before the first.
fn before(row: &[u8; MAX_DEGREE], k: usize) -> u8
    requires { k < length row.now }
    ensures { result ≡ place_before (slice_index row.now) k }
{
    if k == 0 { 0 } else { row[k - 1] }
}
