//! Operations on the places of a column or a row.
ghost use Rattle.std.specs.Prelude.{◌≡◌, ℕ, ◌<◌, ◌≤◌, length, replicate, slice_index, All};
ghost use Rattle.alg_model.specs.Coefficients.{mod_ops};
ghost use Rattle.alg_model.specs.Polynomials.{scale};

use crate::MAX_WIDTH;
use arrayvec::ArrayVec;
use ff_poly::{MAX_DEGREE, Prime};

// Multiplies each place by the factor.
pub(crate) fn scale_places(p: Prime, row: &mut [u8], factor: u8)
    requires residues { All (λ x. x < p) row.old }
    requires factor { factor < p }
    ensures scaled { row.new ≡ scale (mod_ops p) factor row.old }
    ensures residues { All (λ x. x < p) row.new }
{
    let _number = p.number();
    for i in 0..row.len() {
        row[i] = p.reduced(factor as u16 * row[i] as u16) as u8;
    }
}

// W zeros.
#[inline(always)]
fn zero_row<const W: usize>() -> [u8; W]
    requires { W ≤ MAX_WIDTH }
    ensures len { length result ≡ W }
    ensures zeros { (k : ℕ) → slice_index result k ≡ 0 }
{
    [0; W]
}

// The numbers c, and zeros after them.
#[inline(always)]
pub(crate) fn row_of<const W: usize>(p: Prime, c: &[u8]) -> [u8; W]
    requires width { W ≤ MAX_WIDTH }
    requires room { length c.now ≤ W }
    requires residues { All (λ x. x < p) c.now }
    ensures len { length result ≡ W }
    ensures places { (k : ℕ) → slice_index result k ≡ slice_index c.now k }
    ensures residues { All (λ x. x < p) result }
{
    let _number = p.number();
    let mut row = zero_row::<W>();
    for (i, x) in c.iter().enumerate() {
        row[i] = *x;
    }
    row
}

// n zeros.
pub(crate) fn zeros(n: usize) -> ArrayVec<u8, MAX_DEGREE>
    requires { n ≤ MAX_DEGREE }
    ensures { result.items ≡ replicate n 0 }
{
    let mut numbers = ArrayVec::new();
    for _k in 0..n {
        numbers.push(0);
    }
    numbers
}
