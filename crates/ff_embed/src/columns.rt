//! Matrices of residues as their columns, in a table of constant width.
ghost use Rattle.std.specs.Prelude.{◌≡◌, ℕ, ◌+◌, ◌%◌, ◌<◌, ◌≤◌, [], ◌∷◌, ◌++◌, All, length, slice_index, slice_index_or};
ghost use Rattle.alg_model.specs.Coefficients.{residues, mod_ops};
ghost use Rattle.alg_model.specs.Matrices.{matrix_apply, matrix_product, identity_matrix, unit_column, IsColumn, IsIndependent};
ghost use Rattle.ff_matrix.specs.ModularMatrix.{IsModularMatrix};
ghost use Rattle.ff_residues.specs.SumRows.{IsRowOf};
ghost use Rattle.ff_embed.specs.PrivateColumns.{AreColumns};

use ff_field::Value;
use ff_matrix::{Column, ColumnList, Matrix};
use ff_poly::{MAX_DEGREE, Prime};
use ff_residues::Sums;
use std::marker::Model;

// A matrix of residues of at most `MAX_DEGREE` rows and columns. Column k stands in row k of the
// table, with zeros after it, so that sums of multiples of columns have a constant width.
#[derive(Drop)]
pub(crate) struct Columns {
    prime: Prime,
    rows: usize,
    count: usize,
    table: [[u8; MAX_DEGREE]; MAX_DEGREE],
}

impl Model for Columns {
    ghost use Rattle.ff_matrix.specs.ModularMatrix.{ModularMatrix};
    ghost use Rattle.ff_embed.specs.PrivateColumns.{columns_in, AreColumns};

    ghost Value = { ModularMatrix };

    ghost view = { λ a. record {
      prime = a.prime;
      matrix = record { rows = a.rows; columns = columns_in a.rows a.count a.table };
    } };

    ghost invariant = { λ a. AreColumns a.prime a.rows a.count a.table };
}

impl Columns {
    // The matrix with this number of rows and no columns.
    pub(crate) fn new(p: Prime, rows: usize) -> Columns
        requires { rows ≤ MAX_DEGREE }
        ensures prime { result.prime ≡ p }
        ensures rows { result.matrix.rows ≡ rows }
        ensures columns { result.matrix.columns ≡ [] }
    {
        let _number = p.number();
        Columns {
            prime: p,
            rows,
            count: 0,
            table: blank_table(),
        }
    }

    // The prime.
    pub(crate) fn prime(&self) -> Prime
        ensures value { result ≡ self.now.prime }
        ensures whole { IsModularMatrix self.now }
    {
        self.prime
    }

    // The number of rows.
    pub(crate) fn rows(&self) -> usize
        ensures value { result ≡ self.now.matrix.rows }
        ensures whole { IsModularMatrix self.now }
    {
        self.rows
    }

    // The number of columns.
    pub(crate) fn columns(&self) -> usize
        ensures value { result ≡ length self.now.matrix.columns }
        ensures whole { IsModularMatrix self.now }
    {
        self.count
    }

    // Column k.
    pub(crate) fn column(&self, k: usize) -> &[u8]
        requires { k < length self.now.matrix.columns }
        ensures value { result.now ≡ slice_index_or self.now.matrix.columns k [] }
        ensures column { IsColumn (residues self.now.prime) self.now.matrix.rows result.now }
    {
        let _count = self.columns();
        let row = &self.table[k];
        &row[..self.rows]
    }

    // Appends a column.
    pub(crate) fn push(&mut self, column: &[u8])
        requires room { length self.old.matrix.columns < MAX_DEGREE }
        requires column { IsColumn (residues self.old.prime) self.old.matrix.rows column.now }
        ensures prime { self.new.prime ≡ self.old.prime }
        ensures rows { self.new.matrix.rows ≡ self.old.matrix.rows }
        ensures columns { self.new.matrix.columns ≡ self.old.matrix.columns ++ column.now ∷ [] }
    {
        self.table[self.count] = row_of(self.prime, column);
        self.count += 1;
    }

    // An equal one.
    pub(crate) fn copy(&self) -> Columns
        ensures same { result ≡ self.now }
    {
        Columns {
            prime: self.prime,
            rows: self.rows,
            count: self.count,
            table: self.table,
        }
    }

    // The identity of n places.
    pub(crate) fn identity(p: Prime, n: usize) -> Columns
        requires { n ≤ MAX_DEGREE }
        ensures prime { result.prime ≡ p }
        ensures matrix { result.matrix ≡ identity_matrix (mod_ops p) n }
    {
        let mut columns = Columns::new(p, n);
        for k in 0..n {
            let row = unit_row(p, k);
            columns.push(&row[..n]);
        }
        columns
    }

    // What the matrix gives for a column: its columns times these numbers, added.
    pub(crate) fn apply(&self, x: &[u8]) -> Value
        requires { IsColumn (residues self.now.prime) (length self.now.matrix.columns) x.now }
        ensures value { result ≡ matrix_apply (mod_ops self.now.prime) self.now.matrix x.now }
        ensures column { IsColumn (residues self.now.prime) self.now.matrix.rows result }
    {
        let n = self.rows();
        if n <= 8 {
            self.combined::<8>(x)
        } else if n <= 16 {
            self.combined::<16>(x)
        } else if n <= 24 {
            self.combined::<24>(x)
        } else if n <= 32 {
            self.combined::<32>(x)
        } else if n <= 40 {
            self.combined::<40>(x)
        } else {
            self.combined::<48>(x)
        }
    }

    // The same for at most W rows.
    fn combined<const W: usize>(&self, x: &[u8]) -> Value
        requires width { W ≤ MAX_DEGREE }
        requires fits { self.now.matrix.rows ≤ W }
        requires column { IsColumn (residues self.now.prime) (length self.now.matrix.columns)
            x.now }
        ensures value { result ≡ matrix_apply (mod_ops self.now.prime) self.now.matrix x.now }
        ensures column { IsColumn (residues self.now.prime) self.now.matrix.rows result }
    {
        let n = self.rows();
        let mut sums = Sums::<W>::zeros(self.prime);
        sums.add_rows(x, &self.table);
        Value::of_digits(&sums.row()[..n])
    }

    // The product of two matrices over one prime, the second with as many rows as the first has
    // columns.
    pub(crate) fn mul(&self, b: &Columns) -> Columns
        requires primes { b.now.prime ≡ self.now.prime }
        requires sizes { b.now.matrix.rows ≡ length self.now.matrix.columns }
        ensures prime { result.prime ≡ self.now.prime }
        ensures product { result.matrix
            ≡ matrix_product (mod_ops self.now.prime) self.now.matrix b.now.matrix }
    {
        let mut columns = Columns::new(self.prime(), self.rows());
        for k in 0..b.columns() {
            columns.push(self.apply(b.column(k)).digits());
        }
        columns
    }

    // A matrix whose product with this one is the identity; the columns are independent.
    pub(crate) fn left_inverse(&self) -> Columns
        requires { IsIndependent (residues self.now.prime) self.now.matrix.rows
            self.now.matrix.columns }
        ensures prime { result.prime ≡ self.now.prime }
        ensures sizes { length result.matrix.columns ≡ self.now.matrix.rows }
        ensures product { matrix_product (mod_ops self.now.prime) result.matrix self.now.matrix
            ≡ identity_matrix (mod_ops self.now.prime) (length self.now.matrix.columns) }
    {
        match self.matrix().left_inverse() {
            Some(inverse) => Columns::of_matrix(&inverse),
            None => unreachable!(),
        }
    }

    // The same matrix, as elimination takes it.
    fn matrix(&self) -> Matrix
        ensures { result ≡ self.now }
    {
        let mut list = ColumnList::new();
        for k in 0..self.columns() {
            list.push(Column::of_slice(self.column(k)));
        }
        Matrix::of_columns(self.prime(), self.rows(), list.items())
    }

    // The same matrix in a table.
    fn of_matrix(m: &Matrix) -> Columns
        ensures { result ≡ m.now }
    {
        let mut columns = Columns::new(m.prime(), m.rows());
        for column in m.items() {
            columns.push(column.numbers());
        }
        columns
    }
}

// A table of zeros.
fn blank_table() -> [[u8; MAX_DEGREE]; MAX_DEGREE]
    ensures len { length result ≡ MAX_DEGREE }
    ensures rows { (p : ℕ) → 0 < p → All (IsRowOf p MAX_DEGREE) result }
{
    [[0; MAX_DEGREE]; MAX_DEGREE]
}

// W zeros.
fn blank_row<const W: usize>() -> [u8; W]
    requires { W ≤ MAX_DEGREE }
    ensures len { length result ≡ W }
    ensures blank { (k : ℕ) → slice_index result k ≡ 0 }
{
    [0; W]
}

// The digits, with zeros after them.
fn row_of(p: Prime, digits: &[u8]) -> [u8; MAX_DEGREE]
    requires room { length digits.now ≤ MAX_DEGREE }
    requires residues { All (λ x. x < p) digits.now }
    ensures row { IsRowOf p MAX_DEGREE result }
    ensures len { length result ≡ MAX_DEGREE }
    ensures places { (k : ℕ) → slice_index result k ≡ slice_index digits.now k }
{
    let _number = p.number();
    let mut row = blank_row::<MAX_DEGREE>();
    for k in 0..digits.len() {
        row[k] = digits[k];
    }
    row
}

// One at place k, and zeros.
fn unit_row(p: Prime, k: usize) -> [u8; MAX_DEGREE]
    requires { k < MAX_DEGREE }
    ensures row { IsRowOf p MAX_DEGREE result }
    ensures unit { result ≡ unit_column (mod_ops p) MAX_DEGREE k }
{
    let _number = p.number();
    let mut row = [0; MAX_DEGREE];
    row[k] = 1;
    row
}
