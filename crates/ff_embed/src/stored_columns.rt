//! Matrices of residues as lists of digits, in as much room as they need.
ghost use Rattle.std.specs.Prelude.{◌≡◌, ℕ, ◌+◌, ◌*◌, ◌%◌, ◌<◌, ◌≤◌, IfOk, All, length, slice_index, slice_index_or, []};
ghost use Rattle.alg_model.specs.Coefficients.{residues, mod_ops};
ghost use Rattle.alg_model.specs.Matrices.{matrix_apply, matrix_product, IsColumn};
ghost use Rattle.ff_matrix.specs.ModularMatrix.{IsModularMatrix};
ghost use Rattle.ff_residues.specs.SumRows.{residue_at, sum_below};
ghost use Rattle.ff_embed.specs.PrivateColumns.{columns_at, IsListed, product_of};

use crate::columns::Columns;
use ff_field::Value;
use ff_poly::{MAX_DEGREE, Prime};
use ff_residues::Sums;
use std::alloc::{AllocError, Global};
use std::marker::Model;

// A matrix of residues of at most `MAX_DEGREE` rows and columns: the digits of its columns, one
// column after the other, and behind them as many zeros as a column has places at most, so that
// a row of constant width can be read from the beginning of each column.
#[derive(Drop)]
pub(crate) struct StoredColumns {
    prime: Prime,
    rows: usize,
    count: usize,
    digits: Vec<u8>,
}

impl Model for StoredColumns {
    ghost use Rattle.ff_matrix.specs.ModularMatrix.{ModularMatrix};
    ghost use Rattle.ff_embed.specs.PrivateColumns.{columns_at, AreDigits};

    ghost Value = { ModularMatrix };

    ghost view = { λ a. record {
      prime = a.prime;
      matrix = record { rows = a.rows; columns = columns_at a.rows a.count a.digits.items };
    } };

    ghost invariant = { λ a. AreDigits a.prime a.rows a.count a.digits.items };
}

// The digits of the columns.
fn digits_of(alloc: Global, columns: &Columns) -> Result<Vec<u8>, AllocError>
    ensures { let m = columns.now in IfOk result (λ digits.
        IsListed m (length m.matrix.columns) digits.items) }
{
    let (rows, count) = (columns.rows(), columns.columns());
    let mut digits = Vec::with_capacity(alloc, rows * count + MAX_DEGREE)?;
    for k in 0..count {
        digits.extend_from_slice(columns.column(k))?;
    }
    Ok(digits)
}

// The digits of the columns of a product.
fn product_digits(
    alloc: Global,
    a: &StoredColumns,
    b: &StoredColumns,
) -> Result<Vec<u8>, AllocError>
    requires primes { b.now.prime ≡ a.now.prime }
    requires sizes { b.now.matrix.rows ≡ length a.now.matrix.columns }
    ensures { IfOk result (λ digits.
        IsListed (product_of a.now b.now) (length b.now.matrix.columns) digits.items) }
{
    let (rows, count) = (a.rows(), b.count());
    let mut digits = Vec::with_capacity(alloc, rows * count + MAX_DEGREE)?;
    for k in 0..count {
        digits.extend_from_slice(a.apply(b.column(k)).digits())?;
    }
    Ok(digits)
}

// The columns of n digits each, each times its factor, and added; the places from n on are of no
// use.
#[inline(always)]
fn added_columns<const W: usize>(p: Prime, x: &[u8], digits: &[u8], n: usize) -> Sums<W>
    requires width { W ≤ MAX_DEGREE }
    requires factors { All (λ c. c < p) x.now }
    requires residues { All (λ c. c < p) digits.now }
    requires within { length x.now * n + W ≤ length digits.now }
    ensures prime { result.prime ≡ p }
    ensures sums { (k : ℕ) → k < W → residue_at result k ≡ sum_below (length x.now)
        (λ i. slice_index x.now i * slice_index digits.now (i * n + k)) % p }
{
    let mut sums = Sums::<W>::zeros(p);
    for i in 0..x.len() {
        sums.add(x[i], digits, i * n);
    }
    sums
}

impl StoredColumns {
    // The matrix of these digits, to which the zeros are added.
    fn of_digits(
        prime: Prime,
        rows: usize,
        count: usize,
        digits: Vec<u8>,
    ) -> Result<StoredColumns, AllocError>
        requires rows { rows ≤ MAX_DEGREE }
        requires columns { count ≤ MAX_DEGREE }
        requires long { length digits.items ≡ count * rows }
        requires residues { All (λ x. x < prime) digits.items }
        ensures prime { IfOk result (λ stored. stored.prime ≡ prime) }
        ensures rows { IfOk result (λ stored. stored.matrix.rows ≡ rows) }
        ensures columns { IfOk result (λ stored.
            stored.matrix.columns ≡ columns_at rows count digits.items) }
    {
        let mut padded = digits;
        padded.extend_from_slice(&[0; MAX_DEGREE])?;
        let _number = prime.number();
        Ok(StoredColumns {
            prime,
            rows,
            count,
            digits: padded,
        })
    }

    // The same matrix.
    pub(crate) fn of(alloc: Global, columns: &Columns) -> Result<StoredColumns, AllocError>
        ensures same { IfOk result (λ stored. stored ≡ columns.now) }
    {
        let digits = digits_of(alloc, columns)?;
        let (rows, count) = (columns.rows(), columns.columns());
        StoredColumns::of_digits(columns.prime(), rows, count, digits)
    }

    // The same matrix, in memory of its own.
    pub(crate) fn copy(&self) -> Result<StoredColumns, AllocError>
        ensures same { IfOk result (λ stored. stored ≡ self.now) }
    {
        Ok(StoredColumns {
            prime: self.prime,
            rows: self.rows,
            count: self.count,
            digits: self.digits.clone()?,
        })
    }

    // The number of rows.
    fn rows(&self) -> usize
        ensures value { result ≡ self.now.matrix.rows }
        ensures whole { IsModularMatrix self.now }
    {
        self.rows
    }

    // The number of columns.
    fn count(&self) -> usize
        ensures value { result ≡ length self.now.matrix.columns }
        ensures whole { IsModularMatrix self.now }
    {
        self.count
    }

    // Column k.
    pub(crate) fn column(&self, k: usize) -> &[u8]
        requires { k < length self.now.matrix.columns }
        ensures value { result.now ≡ slice_index_or self.now.matrix.columns k [] }
        ensures column { IsColumn (residues self.now.prime) self.now.matrix.rows result.now }
    {
        let _count = self.count();
        let start = k * self.rows;
        let digits: &[u8] = self.digits.as_slice();
        &digits[start..start + self.rows]
    }

    // The same matrix in a table.
    pub(crate) fn columns(&self) -> Columns
        ensures same { result ≡ self.now }
    {
        let count = self.count();
        let mut columns = Columns::new(self.prime, self.rows);
        for k in 0..count {
            columns.push(self.column(k));
        }
        columns
    }

    // What the matrix gives for a column: its columns times these numbers, added.
    pub(crate) fn apply(&self, x: &[u8]) -> Value
        requires { IsColumn (residues self.now.prime) (length self.now.matrix.columns) x.now }
        ensures value { result ≡ matrix_apply (mod_ops self.now.prime) self.now.matrix x.now }
        ensures column { IsColumn (residues self.now.prime) self.now.matrix.rows result }
    {
        let n = self.rows();
        if n <= 8 {
            self.combined::<8>(x)
        } else if n <= 16 {
            self.combined::<16>(x)
        } else if n <= 24 {
            self.combined::<24>(x)
        } else if n <= 32 {
            self.combined::<32>(x)
        } else if n <= 40 {
            self.combined::<40>(x)
        } else {
            self.combined::<48>(x)
        }
    }

    // The same for at most W rows.
    fn combined<const W: usize>(&self, x: &[u8]) -> Value
        requires width { W ≤ MAX_DEGREE }
        requires fits { self.now.matrix.rows ≤ W }
        requires column { IsColumn (residues self.now.prime) (length self.now.matrix.columns)
            x.now }
        ensures value { result ≡ matrix_apply (mod_ops self.now.prime) self.now.matrix x.now }
        ensures column { IsColumn (residues self.now.prime) self.now.matrix.rows result }
    {
        let n = self.rows();
        let sums = added_columns::<W>(self.prime, x, self.digits.as_slice(), n);
        Value::of_digits(&sums.row()[..n])
    }

    // The product of two matrices over one prime, the second with as many rows as the first has
    // columns.
    pub(crate) fn mul(&self, alloc: Global, b: &StoredColumns) -> Result<StoredColumns, AllocError>
        requires primes { b.now.prime ≡ self.now.prime }
        requires sizes { b.now.matrix.rows ≡ length self.now.matrix.columns }
        ensures prime { IfOk result (λ product. product.prime ≡ self.now.prime) }
        ensures product { IfOk result (λ product. product.matrix
            ≡ matrix_product (mod_ops self.now.prime) self.now.matrix b.now.matrix) }
    {
        let digits = product_digits(alloc, self, b)?;
        StoredColumns::of_digits(self.prime, self.rows(), b.count(), digits)
    }
}
