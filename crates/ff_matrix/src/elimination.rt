//! Gauss-Jordan elimination on the rows of a matrix beside the identity.
ghost use Rattle.std.specs.Prelude.{◌≡◌, ◌≢◌, ℕ, ◌+◌, ◌<◌, ◌≤◌, List, [], ◌∷◌, ◌++◌, length, All, IsNone, IfSome, slice_index, slice_index_or, slice_set};
ghost use Rattle.alg_model.specs.Coefficients.{residues, mod_ops, IsCharacteristic};
ghost use Rattle.alg_model.specs.Polynomials.{sum, scale};
ghost use Rattle.alg_model.specs.Matrices.{IsColumn};
ghost use Rattle.ff_matrix.specs.PrivateRows.{AreRows, AreSums, IsCleared, IsPlaced, Eliminates, residue_row, residue_rows};

use crate::places::scale_places;
use crate::{Column, MAX_WIDTH};
use ff_poly::{MAX_DEGREE, Prime};
use ff_residues::Sums;

// The residue in this row and column.
#[inline(always)]
fn residue_in<const W: usize>(rows: &[Sums<W>], row: usize, column: usize) -> u8
    requires width { W ≤ MAX_WIDTH }
    requires row { row < length rows.now }
    requires column { column < W }
    ensures { result ≡ slice_index (slice_index_or (residue_rows W rows.now) row []) column }
{
    rows[row].at(column)
}

// The first row from `first` on with a residue in this column that isn't 0.
fn find_pivot<const W: usize>(rows: &[Sums<W>], first: usize, column: usize) -> Option<usize>
    requires width { W ≤ MAX_WIDTH }
    requires column { column < W }
    ensures none { IsNone result → (i : ℕ) → first ≤ i → i < length rows.now
        → slice_index (slice_index_or (residue_rows W rows.now) i []) column ≡ 0 }
    ensures some { IfSome result (λ s. (first ≤ s) × (s < length rows.now)
        × (slice_index (slice_index_or (residue_rows W rows.now) s []) column ≢ 0)) }
{
    for s in first..rows.len() {
        if residue_in(rows, s, column) != 0 {
            return Some(s);
        }
    }
    None
}

// Adds to the row the multiple of the source that makes its residue in this column 0.
#[inline(always)]
fn clear_row<const W: usize>(p: Prime, row: &mut Sums<W>, source: &[u8; W], column: usize)
    requires width { W ≤ MAX_WIDTH }
    requires column { column < W }
    requires prime { row.old.prime ≡ p }
    requires source { All (λ x. x < p) source.now }
    ensures prime { row.new.prime ≡ p }
    ensures cleared { residue_row W row.new
        ≡ sum (mod_ops p) (scale (mod_ops p)
        ((mod_ops p).neg (slice_index (residue_row W row.old) column)) source.now)
        (residue_row W row.old) }
{
    let _number = p.number();
    let factor = p.neg(row.at(column));
    if factor != 0 {
        row.add(factor, source, 0);
    }
}

// Clears this column in each row but `pivot`.
fn clear_column<const W: usize>(p: Prime, rows: &mut [Sums<W>], pivot: usize, column: usize)
    requires width { W ≤ MAX_WIDTH }
    requires pivot { pivot < length rows.old }
    requires column { column < W }
    requires sums { AreSums p rows.old }
    ensures sums { AreSums p rows.new }
    ensures cleared { IsCleared (mod_ops p) column pivot (residue_rows W rows.old)
        (residue_rows W rows.new) }
{
    let _number = p.number();
    let source = rows[pivot].row();
    for i in 0..rows.len() {
        if i != pivot {
            clear_row(p, &mut rows[i], &source, column);
        }
    }
}

// Puts row s in the place of row r, and the other way round, and makes its residue in this column
// 1, by a multiple of it.
fn place_pivot<const W: usize>(p: Prime, rows: &mut [Sums<W>], r: usize, s: usize, column: usize)
    requires width { W ≤ MAX_WIDTH }
    requires rows { (r < length rows.old) × (s < length rows.old) }
    requires column { column < W }
    requires sums { AreSums p rows.old }
    requires not_zero { slice_index (slice_index_or (residue_rows W rows.old) s []) column ≢ 0 }
    ensures count { length rows.new ≡ length rows.old }
    ensures sums { AreSums p rows.new }
    ensures placed { IsPlaced p column r s (residue_rows W rows.old) (residue_rows W rows.new) }
{
    rows.swap(r, s);
    let mut row = rows[r].row();
    let inverse = p.inv(row[column]);
    scale_places(p, &mut row, inverse);
    rows[r] = Sums::of(p, &row);
}

// Brings one more column to reduced form. The pivots so far are those of the columns before it.
fn reduce_column<const W: usize>(p: Prime, rows: &mut [Sums<W>], pivots: &mut Column, column: usize)
    requires width { W ≤ MAX_WIDTH }
    requires column { (column < W) × (column < MAX_DEGREE) }
    requires pivots { length pivots.old ≤ column }
    requires sums { AreSums p rows.old }
    ensures sums { AreSums p rows.new }
    ensures pivots { length pivots.new ≤ column + 1 }
    ensures reduced { (start : List (List ℕ))
        → Eliminates W p column start (residue_rows W rows.old) pivots.old
        → Eliminates W p (column + 1) start (residue_rows W rows.new) pivots.new }
{
    let first = pivots.numbers().len();
    if let Some(s) = find_pivot(rows, first, column) {
        place_pivot(p, rows, first, s, column);
        clear_column(p, rows, first, column);
        pivots.push(column as u8);
    }
}

// Brings the first columns to reduced row echelon form, and gives the pivot columns.
fn reduce_sums<const W: usize>(p: Prime, rows: &mut [Sums<W>], columns: usize) -> Column
    requires width { W ≤ MAX_WIDTH }
    requires columns { (columns ≤ W) × (columns ≤ MAX_DEGREE) }
    requires sums { AreSums p rows.old }
    ensures sums { AreSums p rows.new }
    ensures count { length rows.new ≡ length rows.old }
    ensures reduced { Eliminates W p columns (residue_rows W rows.old) (residue_rows W rows.new)
        result }
{
    let mut pivots = Column::of_slice(&[]);
    for column in 0..columns {
        reduce_column(p, rows, &mut pivots, column);
    }
    pivots
}

// Makes sums of the rows.
fn widen_rows<const W: usize>(p: Prime, rows: &[[u8; W]], sums: &mut [Sums<W>])
    requires width { W ≤ MAX_WIDTH }
    requires count { length sums.old ≡ length rows.now }
    requires residues { AreRows W p rows.now }
    ensures sums { AreSums p sums.new }
    ensures same { residue_rows W sums.new ≡ rows.now }
{
    let _number = p.number();
    for i in 0..rows.len() {
        sums[i] = Sums::of(p, &rows[i]);
    }
}

// Makes rows of the sums.
fn narrow_rows<const W: usize>(sums: &[Sums<W>], rows: &mut [[u8; W]])
    requires width { W ≤ MAX_WIDTH }
    requires count { length rows.old ≡ length sums.now }
    ensures same { rows.new ≡ residue_rows W sums.now }
{
    for i in 0..sums.len() {
        rows[i] = sums[i].row();
    }
}

// Brings the first columns to reduced row echelon form, in this room, and gives the pivot columns.
pub(crate) fn reduce<const W: usize>(
    p: Prime,
    rows: &mut [[u8; W]],
    sums: &mut [Sums<W>],
    columns: usize,
) -> Column
    requires width { W ≤ MAX_WIDTH }
    requires columns { (columns ≤ W) × (columns ≤ MAX_DEGREE) }
    requires count { length sums.old ≡ length rows.old }
    requires residues { AreRows W p rows.old }
    ensures rows { AreRows W p rows.new }
    ensures reduced { Eliminates W p columns rows.old rows.new result }
{
    let _number = p.number();
    widen_rows(p, rows, sums);
    let pivots = reduce_sums(p, sums, columns);
    narrow_rows(sums, rows);
    pivots
}
