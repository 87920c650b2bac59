//! Rows of constant width, and multiples of polynomials added to them.
ghost use Rattle.std.specs.Prelude.{◌≡◌, ℕ, ◌+◌, ◌*◌, ◌%◌, ◌<◌, ◌≤◌, length, slice_index, All};
ghost use Rattle.ff_poly.specs.PrivateSums.{IsPadded};
ghost use Rattle.ff_residues.specs.SumRows.{residue_at};

use crate::{MAX_POLY, Prime};
use ff_residues::Sums;

/// The greatest width of a row with zeros before its numbers.
pub(crate) const MAX_PADDED: usize = 2 * MAX_POLY;

// W zeros.
#[inline(always)]
pub(crate) fn blank_row<const W: usize>() -> [u8; W]
    requires { W ≤ MAX_PADDED }
    ensures len { length result ≡ W }
    ensures blank { (k : ℕ) → slice_index result k ≡ 0 }
    ensures residues { (p : ℕ) → 0 < p → All (λ x. x < p) result }
{
    [0; W]
}

// The numbers c, and zeros after them.
#[inline(always)]
pub(crate) fn row_of<const W: usize>(c: &[u8]) -> [u8; W]
    requires width { W ≤ MAX_PADDED }
    requires room { length c.now ≤ W }
    ensures len { length result ≡ W }
    ensures places { (k : ℕ) → slice_index result k ≡ slice_index c.now k }
    ensures residues { (p : ℕ) → 0 < p → All (λ x. x < p) c.now → All (λ x. x < p) result }
{
    let mut row = blank_row::<W>();
    for (i, x) in c.iter().enumerate() {
        row[i] = *x;
    }
    row
}

// W zeros, the numbers c, and zeros after them: D places.
#[inline(always)]
pub(crate) fn padded<const W: usize, const D: usize>(p: Prime, c: &[u8]) -> [u8; D]
    requires width { W ≤ MAX_POLY }
    requires sizes { D ≡ W + W }
    requires room { length c.now ≤ W }
    requires residues { All (λ x. x < p) c.now }
    ensures padded { IsPadded W c.now result }
    ensures residues { All (λ x. x < p) result }
{
    let _number = p.number();
    let mut row = blank_row::<D>();
    for (i, x) in c.iter().enumerate() {
        row[W + i] = *x;
    }
    row
}

// Adds `factor * x^at` times the polynomial whose coefficients stand after W zeros.
#[inline(always)]
pub(crate) fn add_shifted<const W: usize, const D: usize>(
    p: Prime,
    sums: &mut Sums<W>,
    factor: u8,
    padded: &[u8; D],
    at: usize,
)
    requires width { W ≤ MAX_POLY }
    requires sizes { D ≡ W + W }
    requires at { at ≤ W }
    requires prime { sums.old.prime ≡ p }
    requires factor { factor < p }
    requires residues { All (λ x. x < p) padded.now }
    requires before { (k : ℕ) → k < W → slice_index padded.now k ≡ 0 }
    ensures prime { sums.new.prime ≡ p }
    ensures below { (k : ℕ) → k < at → residue_at sums.new k ≡ residue_at sums.old k }
    ensures above { (k : ℕ) → at + k < W → residue_at sums.new (at + k)
        ≡ (residue_at sums.old (at + k) + factor * slice_index padded.now (W + k)) % p }
{
    let _number = p.number();
    sums.add(factor, padded, W - at);
}
