//! Matrices over the residues modulo a prime.
ghost use Rattle.std.specs.Prelude.{◌≡◌, ◌+◌, ◌<◌, ◌≤◌, length, map, All};
ghost use Rattle.alg_model.specs.Coefficients.{residues, mod_ops};
ghost use Rattle.alg_model.specs.Polynomials.{sum, scale};
ghost use Rattle.ff_matrix.specs.PrivateRows.{residue_row};
ghost use Rattle.alg_model.specs.Matrices.{entry, combination, matrix_apply, matrix_product, IsColumn};

use crate::places::row_of;
use crate::{Column, ColumnList};
use ff_poly::{MAX_DEGREE, Prime};
use ff_residues::Sums;
use std::marker::Model;

/// A matrix over the residues modulo a prime, of at most `MAX_DEGREE` rows and columns.
#[derive(Drop)]
pub struct Matrix {
    prime: Prime,
    rows: usize,
    columns: ColumnList,
}

impl Model for Matrix {
    ghost use Rattle.ff_matrix.specs.ModularMatrix.{ModularMatrix, IsModularMatrix};

    ghost Value = { ModularMatrix };

    ghost view = { λ a. record
        { prime = a.prime; matrix = record { rows = a.rows; columns = a.columns } } };

    ghost invariant = { λ a. IsModularMatrix
        (record { prime = a.prime; matrix = record { rows = a.rows; columns = a.columns } }) };
}

impl Matrix {
    ghost use Rattle.ff_matrix.specs.ModularMatrix.{IsModularMatrix};

    /// The matrix with this number of rows and these columns, whose numbers are below `p`.
    pub fn of_columns(p: Prime, rows: usize, columns: &[Column]) -> Matrix
        requires rows_fit { rows ≤ MAX_DEGREE }
        requires columns_fit { length columns.now ≤ MAX_DEGREE }
        requires residues { All (IsColumn (residues p) rows) columns.now }
        ensures prime { result.prime ≡ p }
        ensures rows { result.matrix.rows ≡ rows }
        ensures columns { result.matrix.columns ≡ columns.now }
        ensures whole { IsModularMatrix result }
    {
        Matrix::of_list(p, rows, ColumnList::of(columns))
    }

    // The same from a list, which it keeps.
    pub(crate) fn of_list(p: Prime, rows: usize, columns: ColumnList) -> Matrix
        requires rows_fit { rows ≤ MAX_DEGREE }
        requires residues { All (IsColumn (residues p) rows) columns }
        ensures prime { result.prime ≡ p }
        ensures rows { result.matrix.rows ≡ rows }
        ensures columns { result.matrix.columns ≡ columns }
        ensures whole { IsModularMatrix result }
    {
        let _number = p.number();
        let _count = columns.items().len();
        Matrix {
            prime: p,
            rows,
            columns,
        }
    }

    /// The prime.
    pub fn prime(&self) -> Prime
        ensures value { result ≡ self.now.prime }
        ensures whole { IsModularMatrix self.now }
    {
        self.prime
    }

    /// The number of rows.
    pub fn rows(&self) -> usize
        ensures value { result ≡ self.now.matrix.rows }
        ensures whole { IsModularMatrix self.now }
    {
        self.rows
    }

    /// The number of columns.
    pub fn columns(&self) -> usize
        ensures value { result ≡ length self.now.matrix.columns }
        ensures whole { IsModularMatrix self.now }
    {
        self.columns.items().len()
    }

    /// The columns, in order.
    pub fn items(&self) -> &[Column]
        ensures value { result.now ≡ self.now.matrix.columns }
        ensures whole { IsModularMatrix self.now }
    {
        self.columns.items()
    }

    /// The entry in row `r` of column `c`.
    pub fn at(&self, r: usize, c: usize) -> u8
        requires row { r < self.now.matrix.rows }
        requires column { c < length self.now.matrix.columns }
        ensures entry { result ≡ entry (mod_ops self.now.prime) self.now.matrix r c }
        ensures residue { result < self.now.prime }
    {
        self.columns.items()[c].numbers()[r]
    }

    /// An equal matrix.
    pub fn copy(&self) -> Matrix
        ensures { result ≡ self.now }
    {
        Matrix {
            prime: self.prime,
            rows: self.rows,
            columns: self.columns.copy(),
        }
    }

    /// What the matrix gives for a column: its columns times the numbers of `c`, added.
    ///
    /// `c` has as many numbers as the matrix has columns, each below its prime.
    pub fn apply(&self, c: &Column) -> Column
        requires { IsColumn (residues self.now.prime) (length self.now.matrix.columns) c.now }
        ensures value { result ≡ matrix_apply (mod_ops self.now.prime) self.now.matrix c.now }
        ensures column { IsColumn (residues self.now.prime) self.now.matrix.rows result }
    {
        combine(self.prime(), self.rows(), self.items(), c.numbers())
    }

    /// The product of two matrices over one prime, the second with as many rows as the first has
    /// columns.
    pub fn mul(&self, b: &Matrix) -> Matrix
        requires primes { b.now.prime ≡ self.now.prime }
        requires sizes { b.now.matrix.rows ≡ length self.now.matrix.columns }
        ensures prime { result.prime ≡ self.now.prime }
        ensures product { result.matrix
            ≡ matrix_product (mod_ops self.now.prime) self.now.matrix b.now.matrix }
    {
        let (p, rows) = (self.prime(), self.rows());
        let columns = apply_all(self, b.items());
        Matrix::of_list(p, rows, columns)
    }
}

// The matrix applied to each of these columns.
fn apply_all(m: &Matrix, columns: &[Column]) -> ColumnList
    requires count { length columns.now ≤ MAX_DEGREE }
    requires columns { All (IsColumn (residues m.now.prime) (length m.now.matrix.columns))
        columns.now }
    ensures value { result ≡ map (matrix_apply (mod_ops m.now.prime) m.now.matrix) columns.now }
    ensures columns { All (IsColumn (residues m.now.prime) m.now.matrix.rows) result }
{
    let mut list = ColumnList::new();
    for column in columns {
        list.push(m.apply(column));
    }
    list
}

// The combination of columns of `rows` numbers with the coefficients c, in rows as wide as they
// need.
fn combine(p: Prime, rows: usize, columns: &[Column], c: &[u8]) -> Column
    requires rows { rows ≤ MAX_DEGREE }
    requires sizes { length columns.now ≡ length c.now }
    requires columns { All (IsColumn (residues p) rows) columns.now }
    requires residues { All (λ x. x < p) c.now }
    ensures value { result ≡ combination (mod_ops p) rows columns.now c.now }
    ensures column { IsColumn (residues p) rows result }
{
    if rows <= 16 {
        combine_in::<16>(p, rows, columns, c)
    } else if rows <= 32 {
        combine_in::<32>(p, rows, columns, c)
    } else {
        combine_in::<MAX_DEGREE>(p, rows, columns, c)
    }
}

// The same in sums of W numbers.
fn combine_in<const W: usize>(p: Prime, rows: usize, columns: &[Column], c: &[u8]) -> Column
    requires width { W ≤ MAX_DEGREE }
    requires rows { rows ≤ W }
    requires sizes { length columns.now ≡ length c.now }
    requires columns { All (IsColumn (residues p) rows) columns.now }
    requires residues { All (λ x. x < p) c.now }
    ensures value { result ≡ combination (mod_ops p) rows columns.now c.now }
    ensures column { IsColumn (residues p) rows result }
{
    let _number = p.number();
    let mut sums = Sums::of(p, &row_of::<W>(p, &[]));
    let mut k = c.len();
    while k > 0 {
        k -= 1;
        add_column(p, &mut sums, rows, columns[k].numbers(), c[k]);
    }
    Column::of_slice(&sums.row()[..rows])
}

// Adds the factor times a column of `rows` numbers.
#[inline(always)]
fn add_column<const W: usize>(p: Prime, sums: &mut Sums<W>, rows: usize, column: &[u8], factor: u8)
    requires width { W ≤ MAX_DEGREE }
    requires rows { rows ≤ W }
    requires prime { sums.old.prime ≡ p }
    requires column { IsColumn (residues p) rows column.now }
    requires factor { factor < p }
    ensures prime { sums.new.prime ≡ p }
    ensures added { residue_row rows sums.new
        ≡ sum (mod_ops p) (scale (mod_ops p) factor column.now) (residue_row rows sums.old) }
{
    let _number = p.number();
    sums.add(factor, &row_of::<W>(p, column), 0);
}
