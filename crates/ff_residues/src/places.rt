//! Operations on the places of rows.
ghost use Rattle.std.specs.Prelude.{◌≡◌, ℕ, ◌+◌, ◌*◌, ◌%◌, ◌^◌, ◌<◌, ◌≤◌, length, slice_index};

use crate::{MAX_WIDTH, Prime};

// W zeros.
#[inline(always)]
pub(crate) fn blank_row<const W: usize>() -> [u8; W]
    requires { W ≤ MAX_WIDTH }
    ensures len { length result ≡ W }
    ensures blank { (k : ℕ) → slice_index result k ≡ 0 }
{
    [0; W]
}

// W zeros as sums.
#[inline(always)]
pub(crate) fn blank_sums<const W: usize>() -> [u16; W]
    requires { W ≤ MAX_WIDTH }
    ensures len { length result ≡ W }
    ensures blank { (k : ℕ) → slice_index result k ≡ 0 }
{
    [0; W]
}

// The same numbers in wider places.
#[inline(always)]
pub(crate) fn widened<const W: usize>(row: &[u8; W]) -> [u16; W]
    requires { W ≤ MAX_WIDTH }
    ensures len { length result ≡ W }
    ensures same { (k : ℕ) → slice_index result k ≡ slice_index row.now k }
{
    let mut sums = blank_sums::<W>();
    for k in 0..W {
        sums[k] = row[k] as u16;
    }
    sums
}

// The remainders of the sums.
#[inline(always)]
pub(crate) fn narrowed<const W: usize>(p: Prime, sums: &[u16; W]) -> [u8; W]
    requires width { W ≤ MAX_WIDTH }
    requires fits { (k : ℕ) → slice_index sums.now k < 2 ^ 15 }
    ensures len { length result ≡ W }
    ensures remainders { (k : ℕ) → slice_index result k ≡ slice_index sums.now k % p }
{
    let mut row = blank_row::<W>();
    let _number = p.number();
    for k in 0..W {
        row[k] = p.reduced(sums[k]) as u8;
    }
    row
}

// Adds `factor` times the numbers of the list from `start` on.
#[inline(always)]
pub(crate) fn add_products<const W: usize>(
    sums: &mut [u16; W],
    factor: u8,
    list: &[u8],
    start: usize,
)
    requires width { W ≤ MAX_WIDTH }
    requires within { start + W ≤ length list.now }
    requires fits { (k : ℕ) → k < W
        → slice_index sums.old k + factor * slice_index list.now (start + k) < 2 ^ 15 }
    ensures len { length sums.new ≡ W }
    ensures sums { (k : ℕ) → k < W
        → slice_index sums.new k
        ≡ slice_index sums.old k + factor * slice_index list.now (start + k) }
{
    for k in 0..W {
        sums[k] += factor as u16 * list[start + k] as u16;
    }
}

// Reduces all sums.
#[inline(always)]
pub(crate) fn reduce_all<const W: usize>(p: Prime, sums: &mut [u16; W])
    requires width { W ≤ MAX_WIDTH }
    requires fits { (k : ℕ) → slice_index sums.old k < 2 ^ 15 }
    ensures len { length sums.new ≡ W }
    ensures remainders { (k : ℕ) → slice_index sums.new k ≡ slice_index sums.old k % p }
{
    for k in 0..W {
        sums[k] = p.reduced(sums[k]);
    }
}
