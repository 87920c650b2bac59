//! Columns of residues one after another: rows that span them, and how each row is combined from
//! them.
ghost use Rattle.std.specs.Prelude.{◌≡◌, ◌≢◌, ℕ, ◌+◌, ◌*◌, ◌%◌, ◌<◌, ◌≤◌, [], ◌∷◌, ◌++◌, length, All, IsNone, IfSome, slice_index, slice_index_or, slice_set};
ghost use Rattle.alg_model.specs.Coefficients.{residues, mod_ops};
ghost use Rattle.alg_model.specs.Matrices.{IsColumn};
ghost use Rattle.ff_residues.specs.SumRows.{residue_at};
ghost use Rattle.ff_minpoly.specs.PrivateSpans.{AreRows, IsTable, IsReduced, IsNormal, IsSpan};

use crate::MAX_ROW;
use arrayvec::ArrayVec;
use ff_lists::{BoundedList, fixed};
use ff_poly::{MAX_DEGREE, Prime};
use ff_residues::Sums;

/// The pivots of the rows, in the order in which the rows came.
pub(crate) type Pivots = BoundedList<u8, MAX_DEGREE>;

// W zeros.
#[inline(always)]
pub(crate) fn blank_row<const W: usize>() -> [u8; W]
    requires { W ≤ MAX_ROW }
    ensures len { length result ≡ W }
    ensures blank { (k : ℕ) → slice_index result k ≡ 0 }
{
    [0; W]
}

// The column, with zeros after it.
#[inline(always)]
fn row_of<const W: usize>(p: Prime, column: &[u8]) -> [u8; W]
    requires width { W ≤ MAX_ROW }
    requires room { length column.now ≤ W }
    requires residues { All (λ x. x < p) column.now }
    ensures row { IsColumn (residues p) W result }
    ensures places { (k : ℕ) → slice_index result k ≡ slice_index column.now k }
{
    let _number = p.number();
    let mut row = blank_row::<W>();
    for k in 0..column.len() {
        row[k] = column[k];
    }
    row
}

// Adds the multiple of the source that makes the residue at this place 0.
#[inline(always)]
fn clear_place<const W: usize>(p: Prime, row: &mut Sums<W>, source: &[u8; W], place: usize)
    requires width { W ≤ MAX_ROW }
    requires place { place < W }
    requires prime { row.old.prime ≡ p }
    requires source { IsColumn (residues p) W source.now }
    ensures prime { row.new.prime ≡ p }
    ensures cleared { (k : ℕ) → k < W → residue_at row.new k
        ≡ (residue_at row.old k + (mod_ops p).neg (residue_at row.old place) * slice_index source.now k)
        % p }
{
    let _number = p.number();
    let factor = p.neg(row.at(place));
    if factor != 0 {
        row.add(factor, source, 0);
    }
}

// The column's row, with the multiples of the rows added that make it zero at their pivots.
pub(crate) fn reduced<const W: usize>(
    p: Prime,
    rows: &[[u8; W]],
    pivots: &[u8],
    column: &[u8],
) -> [u8; W]
    requires width { W ≤ MAX_ROW }
    requires room { length column.now ≤ W }
    requires residues { All (λ x. x < p) column.now }
    requires rows { AreRows W p rows.now }
    requires count { length pivots.now ≤ length rows.now }
    requires pivots { All (λ x. x < length column.now) pivots.now }
    ensures row { IsColumn (residues p) W result }
    ensures reduced { (m : ℕ) (col : ℕ → ℕ → ℕ)
        → IsSpan W p (length column.now) m col rows.now pivots.now
        → IsReduced W p (length column.now) m col pivots.now (slice_index column.now)
        (slice_index result) }
{
    let _number = p.number();
    let mut row = Sums::of(p, &row_of::<W>(p, column));
    for i in 0..pivots.len() {
        clear_place(p, &mut row, &rows[i], pivots[i] as usize);
    }
    row.row()
}

// The first of n places that isn't zero.
pub(crate) fn first_place(row: &[u8], n: usize) -> Option<usize>
    requires { n ≤ length row.now }
    ensures none { IsNone result → (k : ℕ) → k < n → slice_index row.now k ≡ 0 }
    ensures some { IfSome result (λ s. (s < n) × (slice_index row.now s ≢ 0)) }
{
    for s in 0..n {
        if row[s] != 0 {
            return Some(s);
        }
    }
    None
}

// The m coefficients of a row of a column of n places.
pub(crate) fn coefficients(row: &[u8], n: usize, m: usize) -> ArrayVec<u8, MAX_DEGREE>
    requires within { n + m ≤ length row.now }
    requires room { m ≤ MAX_DEGREE }
    ensures count { length result.items ≡ m }
    ensures places { (i : ℕ) → i < m → slice_index result.items i ≡ slice_index row.now (n + i) }
    ensures residues { (p : ℕ) → All (λ x. x < p) row.now → All (λ x. x < p) result.items }
{
    fixed(&row[n..n + m])
}

// Multiplies each place by the factor.
fn scale_places<const W: usize>(p: Prime, row: &mut [u8; W], factor: u8)
    requires width { W ≤ MAX_ROW }
    requires row { IsColumn (residues p) W row.old }
    requires factor { factor < p }
    ensures row { IsColumn (residues p) W row.new }
    ensures scaled { (k : ℕ) → k < W
        → slice_index row.new k ≡ (factor * slice_index row.old k) % p }
{
    let _number = p.number();
    for k in 0..W {
        row[k] = p.reduced(factor as u16 * row[k] as u16) as u8;
    }
}

// The row with one at this place, and then the multiple of it that is one at the pivot.
fn normal_row<const W: usize>(p: Prime, row: &[u8; W], pivot: usize, place: usize) -> [u8; W]
    requires width { W ≤ MAX_ROW }
    requires row { IsColumn (residues p) W row.now }
    requires places { (pivot < W) × (place < W) × (pivot < place) }
    requires not_zero { slice_index row.now pivot ≢ 0 }
    ensures row { IsColumn (residues p) W result }
    ensures normal { IsNormal W p pivot place row.now result }
{
    let _number = p.number();
    let mut normal = *row;
    normal[place] = 1;
    let inverse = p.inv(row[pivot]);
    scale_places(p, &mut normal, inverse);
    normal
}

// Puts the reduced row of one column more behind the rows; `place` is where its coefficient stands.
pub(crate) fn insert<const W: usize>(
    p: Prime,
    rows: &mut [[u8; W]],
    pivots: &mut Pivots,
    row: &[u8; W],
    pivot: usize,
    place: usize,
)
    requires width { W ≤ MAX_ROW }
    requires rows { AreRows W p rows.old }
    requires room { (length pivots.old < length rows.old) × (length pivots.old < MAX_DEGREE) }
    requires row { IsColumn (residues p) W row.now }
    requires places { (pivot < MAX_DEGREE) × (pivot < place) × (place < W) }
    requires not_zero { slice_index row.now pivot ≢ 0 }
    ensures len { length rows.new ≡ length rows.old }
    ensures rows { AreRows W p rows.new }
    ensures pivots { pivots.new ≡ pivots.old ++ pivot ∷ [] }
    ensures inserted { (n m : ℕ) (col : ℕ → ℕ → ℕ) → place ≡ n + m → pivot < n
        → IsSpan W p n m col rows.old pivots.old
        → IsReduced W p n m col pivots.old (col m) (slice_index row.now)
        → IsSpan W p n (m + 1) col rows.new pivots.new }
{
    let _number = p.number();
    let normal = normal_row(p, row, pivot, place);
    rows[pivots.items().len()] = normal;
    pivots.push(pivot as u8);
}

// Takes one column more into account: the one after the first m.
pub(crate) fn add_column<const W: usize>(
    p: Prime,
    rows: &mut [[u8; W]],
    pivots: &mut Pivots,
    column: &[u8],
    m: usize,
)
    requires width { W ≤ MAX_ROW }
    requires room { (length column.now + m < W) × (m < length rows.old) × (m < MAX_DEGREE) }
    requires fits { length column.now ≤ MAX_DEGREE }
    requires residues { All (λ x. x < p) column.now }
    requires table { IsTable W p (length column.now) m rows.old pivots.old }
    ensures len { length rows.new ≡ length rows.old }
    ensures table { IsTable W p (length column.now) (m + 1) rows.new pivots.new }
    ensures added { (col : ℕ → ℕ → ℕ)
        → IsSpan W p (length column.now) m col rows.old pivots.old
        → ((k : ℕ) → k < length column.now → slice_index column.now k ≡ col m k)
        → IsSpan W p (length column.now) (m + 1) col rows.new pivots.new }
{
    let _number = p.number();
    let n = column.len();
    let row = reduced(p, rows, pivots.items(), column);
    if let Some(pivot) = first_place(&row, n) {
        insert(p, rows, pivots, &row, pivot, n + m);
    }
}
