//! The reduced row echelon form of a matrix.
ghost use Rattle.std.specs.Prelude.{◌≡◌, ℕ, ◌+◌, ◌<◌, ◌≤◌, ◌==◌, if◌then◌else◌, length, map, replicate, All, slice_index};
ghost use Rattle.std.specs.List.{range_with_len};
ghost use Rattle.alg_model.specs.Coefficients.{residues, mod_ops};
ghost use Rattle.alg_model.specs.Matrices.{entry, IsColumn};
ghost use Rattle.ff_matrix.specs.Echelons.{IsEchelonOf};
ghost use Rattle.ff_matrix.specs.ModularMatrix.{IsModularMatrix};
ghost use Rattle.ff_matrix.specs.PrivateRows.{AreRows, IsAugmented};

use crate::elimination::reduce;
use crate::{Column, ColumnList, MAX_WIDTH, Matrix};
use ff_poly::{MAX_DEGREE, Prime};
use ff_residues::Sums;

/// The reduced row echelon form of a matrix.
#[derive(Drop)]
pub struct Echelon {
    /// The form.
    pub form: Matrix,
    /// A square matrix with an inverse, whose product with the matrix is the form.
    pub transform: Matrix,
    /// The pivot columns of the form, rising.
    pub pivots: Column,
}

impl Matrix {
    /// The reduced row echelon form, by Gauss-Jordan elimination on the matrix beside the identity
    /// (Hoffman and Kunze, Linear Algebra, 1.4).
    pub fn echelon(&self) -> Echelon
        ensures { IsEchelonOf self.now result }
    {
        let rows = self.rows();
        let width = self.columns() + rows;
        if width <= 16 && rows <= 8 {
            echelon_of::<16, 8>(self)
        } else if width <= 32 && rows <= 16 {
            echelon_of::<32, 16>(self)
        } else if width <= 48 && rows <= 24 {
            echelon_of::<48, 24>(self)
        } else if width <= 64 && rows <= 32 {
            echelon_of::<64, 32>(self)
        } else {
            echelon_of::<MAX_WIDTH, MAX_DEGREE>(self)
        }
    }
}

// The reduced row echelon form, worked out in at most N rows of W numbers.
fn echelon_of<const W: usize, const N: usize>(m: &Matrix) -> Echelon
    requires width { W ≤ MAX_WIDTH }
    requires height { N ≤ MAX_DEGREE }
    requires rows { m.now.matrix.rows ≤ N }
    requires room { length m.now.matrix.columns + m.now.matrix.rows ≤ W }
    ensures { IsEchelonOf m.now result }
{
    let p = m.prime();
    let _number = p.number();
    let rows = m.rows();
    let zeros = blank_row::<W>();
    let mut room = [zeros; N];
    let mut sums = [Sums::of(p, &zeros); N];
    echelon_in(m, &mut room[..rows], &mut sums[..rows])
}

// The same in these rows.
fn echelon_in<const W: usize>(m: &Matrix, rows: &mut [[u8; W]], sums: &mut [Sums<W>]) -> Echelon
    requires width { W ≤ MAX_WIDTH }
    requires room { length m.now.matrix.columns + m.now.matrix.rows ≤ W }
    requires rows { length rows.old ≡ m.now.matrix.rows }
    requires sums { length sums.old ≡ m.now.matrix.rows }
    ensures { IsEchelonOf m.now result }
{
    let (p, columns) = (m.prime(), m.columns());
    augment(m, rows);
    let pivots = reduce(p, rows, sums, columns);
    Echelon {
        form: block(p, rows, 0, columns),
        transform: block(p, rows, columns, rows.len()),
        pivots,
    }
}

// Makes the rows those of the matrix, and beside them those of the identity.
fn augment<const W: usize>(m: &Matrix, rows: &mut [[u8; W]])
    requires width { W ≤ MAX_WIDTH }
    requires room { length m.now.matrix.columns + m.now.matrix.rows ≤ W }
    requires rows { length rows.old ≡ m.now.matrix.rows }
    ensures { IsAugmented W m.now.prime m.now.matrix rows.new }
{
    for i in 0..rows.len() {
        rows[i] = augmented_row(m, i);
    }
}

// Row i of the matrix, and beside it row i of the identity.
fn augmented_row<const W: usize>(m: &Matrix, i: usize) -> [u8; W]
    requires width { W ≤ MAX_WIDTH }
    requires room { length m.now.matrix.columns + m.now.matrix.rows ≤ W }
    requires row { i < m.now.matrix.rows }
    ensures row { IsColumn (residues m.now.prime) W result }
    ensures left { (k : ℕ) → k < length m.now.matrix.columns
        → slice_index result k ≡ entry (mod_ops m.now.prime) m.now.matrix i k }
    ensures right { (k : ℕ) → k < m.now.matrix.rows
        → slice_index result (length m.now.matrix.columns + k) ≡ (if i == k then 1 else 0) }
{
    let columns = m.columns();
    let _rows = m.rows();
    let _number = m.prime().number();
    let mut row = blank_row::<W>();
    for k in 0..columns {
        row[k] = m.at(i, k);
    }
    row[columns + i] = 1;
    row
}

// A row of zeros.
fn blank_row<const W: usize>() -> [u8; W]
    requires { W ≤ MAX_WIDTH }
    ensures { result ≡ replicate W 0 }
{
    [0; W]
}

// The matrix in `count` columns of the rows, from `start` on.
fn block<const W: usize>(p: Prime, rows: &[[u8; W]], start: usize, count: usize) -> Matrix
    requires rows_fit { length rows.now ≤ MAX_DEGREE }
    requires count { count ≤ MAX_DEGREE }
    requires width { W ≤ MAX_WIDTH }
    requires within { start + count ≤ W }
    requires residues { AreRows W p rows.now }
    ensures prime { result.prime ≡ p }
    ensures rows { result.matrix.rows ≡ length rows.now }
    ensures columns { result.matrix.columns
        ≡ map (λ k. map (λ row. slice_index row k) rows.now) (range_with_len start count) }
    ensures whole { IsModularMatrix result }
{
    let mut columns = ColumnList::new();
    for k in 0..count {
        columns.push(column_of(p, rows, start + k));
    }
    Matrix::of_list(p, rows.len(), columns)
}

// Column k of the rows.
fn column_of<const W: usize>(p: Prime, rows: &[[u8; W]], k: usize) -> Column
    requires rows_fit { length rows.now ≤ MAX_DEGREE }
    requires width { W ≤ MAX_WIDTH }
    requires within { k < W }
    requires residues { AreRows W p rows.now }
    ensures value { result ≡ map (λ row. slice_index row k) rows.now }
    ensures column { IsColumn (residues p) (length rows.now) result }
{
    let mut column = Column::of_slice(&[]);
    for row in rows {
        column.push(row[k]);
    }
    column
}
