//! Kernel, solutions and left inverses, read off the reduced row echelon form.
ghost use Rattle.std.specs.Prelude.{◌≡◌, ◌≢◌, ℕ, ◌+◌, ◌<◌, ◌≤◌, ◌↔◌, List, false, [], length, map, take, All, IsTrue, IsNone, IfSome, slice_index, slice_index_or, replicate};
ghost use Rattle.alg_model.specs.Coefficients.{residues, mod_ops};
ghost use Rattle.alg_model.specs.Matrices.{entry, column_at, matrix_apply, matrix_product, identity_matrix, IsColumn, IsMatrix, IsIndependent, IsKernelBasis};
ghost use Rattle.alg_linear.specs.PrivateGrids.{AreFree};
ghost use Rattle.ff_matrix.specs.Echelons.{IsEchelonOf};
ghost use Rattle.ff_matrix.specs.ModularMatrix.{ModularMatrix, IsModularMatrix};
ghost use Rattle.ff_matrix.specs.PrivateRows.{ArePlaces, IsKernelColumn};

use crate::places::zeros;
use crate::{Column, ColumnList, Echelon, Matrix};
use arrayvec::ArrayVec;
use ff_poly::{MAX_DEGREE, Prime};

impl Matrix {
    /// A basis of all columns that the matrix sends to 0: each such column is a combination of
    /// these in exactly one way.
    pub fn kernel(&self) -> ColumnList
        ensures { IsKernelBasis (residues self.now.prime) self.now.matrix result }
    {
        self.echelon().kernel()
    }

    /// A column that the matrix sends to `b`; `None` exactly where there is none.
    ///
    /// `b` has as many numbers as the matrix has rows, each below its prime.
    pub fn solve(&self, b: &Column) -> Option<Column>
        requires { IsColumn (residues self.now.prime) self.now.matrix.rows b.now }
        ensures some { IfSome result
            (λ x. IsColumn (residues self.now.prime) (length self.now.matrix.columns) x
            × (matrix_apply (mod_ops self.now.prime) self.now.matrix x ≡ b.now)) }
        ensures none { IsNone result
            ↔ ((x : List ℕ) → IsColumn (residues self.now.prime) (length self.now.matrix.columns) x
            → matrix_apply (mod_ops self.now.prime) self.now.matrix x ≡ b.now → ⊥) }
    {
        self.echelon().solve(b)
    }

    /// A matrix whose product with this one is the identity; `None` exactly where the columns are
    /// dependent.
    pub fn left_inverse(&self) -> Option<Matrix>
        ensures some { IfSome result (λ l. (l.prime ≡ self.now.prime)
            × (length l.matrix.columns ≡ self.now.matrix.rows)
            × (matrix_product (mod_ops self.now.prime) l.matrix self.now.matrix
            ≡ identity_matrix (mod_ops self.now.prime) (length self.now.matrix.columns))) }
        ensures none { IsNone result
            ↔ (IsIndependent (residues self.now.prime) self.now.matrix.rows self.now.matrix.columns
            → ⊥) }
    {
        self.echelon().left_inverse()
    }
}

impl Echelon {
    /// A basis of all columns that the matrix with this form sends to 0.
    pub fn kernel(&self) -> ColumnList
        requires { (m : ModularMatrix) × IsEchelonOf m self.now }
        ensures { (m : ModularMatrix) → IsEchelonOf m self.now
            → IsKernelBasis (residues m.prime) m.matrix result }
    {
        let pivots = self.pivots.numbers();
        let free = free_columns(self.form.columns(), pivots);
        kernel_columns(&self.form, pivots, free.numbers())
    }

    /// A column that the matrix with this form sends to `b`; `None` exactly where there is none.
    ///
    /// `b` has as many numbers as the matrix has rows, each below its prime.
    pub fn solve(&self, b: &Column) -> Option<Column>
        requires { (m : ModularMatrix) × IsEchelonOf m self.now
            × IsColumn (residues m.prime) m.matrix.rows b.now }
        ensures some { (m : ModularMatrix) → IsEchelonOf m self.now
            → IfSome result (λ x. IsColumn (residues m.prime) (length m.matrix.columns) x
            × (matrix_apply (mod_ops m.prime) m.matrix x ≡ b.now)) }
        ensures none { (m : ModularMatrix) → IsEchelonOf m self.now
            → IsNone result ↔ ((x : List ℕ)
            → IsColumn (residues m.prime) (length m.matrix.columns) x
            → matrix_apply (mod_ops m.prime) m.matrix x ≡ b.now → ⊥) }
    {
        let columns = self.form.columns();
        let target = self.transform.apply(b);
        let pivots = self.pivots.numbers();
        if has_nonzero(target.numbers(), pivots.len()) {
            return None;
        }
        Some(Column::of_slice(&spread(columns, pivots, target.numbers())))
    }

    /// A matrix whose product with the matrix with this form is the identity; `None` exactly where
    /// the columns are dependent.
    pub fn left_inverse(&self) -> Option<Matrix>
        requires { (m : ModularMatrix) × IsEchelonOf m self.now }
        ensures some { (m : ModularMatrix) → IsEchelonOf m self.now
            → IfSome result (λ l. (l.prime ≡ m.prime) × (length l.matrix.columns ≡ m.matrix.rows)
            × (matrix_product (mod_ops m.prime) l.matrix m.matrix
            ≡ identity_matrix (mod_ops m.prime) (length m.matrix.columns))) }
        ensures none { (m : ModularMatrix) → IsEchelonOf m self.now
            → IsNone result ↔ (IsIndependent (residues m.prime) m.matrix.rows m.matrix.columns
            → ⊥) }
    {
        let columns = self.form.columns();
        if self.pivots.numbers().len() < columns {
            return None;
        }
        Some(top_rows(&self.transform, columns))
    }
}

// The columns below n that are no pivots, rising.
fn free_columns(n: usize, pivots: &[u8]) -> Column
    requires room { n ≤ MAX_DEGREE }
    requires pivots { ArePlaces n pivots.now }
    ensures { AreFree n pivots.now result }
{
    let mut free = Column::of_slice(&[]);
    let mut next = 0;
    for k in 0..n {
        if next < pivots.len() && pivots[next] as usize == k {
            next += 1;
        } else {
            free.push(k as u8);
        }
    }
    free
}

// The basis of the kernel: a column for each of these columns of the form.
fn kernel_columns(form: &Matrix, pivots: &[u8], free: &[u8]) -> ColumnList
    requires places { ArePlaces (length form.now.matrix.columns) pivots.now }
    requires rows_enough { length pivots.now ≤ form.now.matrix.rows }
    requires free { AreFree (length form.now.matrix.columns) pivots.now free.now }
    ensures count { length result ≡ length free.now }
    ensures columns { (t : ℕ) → t < length free.now
        → IsKernelColumn form.now.prime form.now.matrix pivots.now (slice_index free.now t)
        (slice_index_or result t []) }
{
    let _columns = form.columns();
    let mut basis = ColumnList::new();
    for f in free {
        basis.push(kernel_column(form, pivots, *f as usize));
    }
    basis
}

// One at column f, and at the pivots what makes each row of the form zero.
fn kernel_column(form: &Matrix, pivots: &[u8], f: usize) -> Column
    requires places { ArePlaces (length form.now.matrix.columns) pivots.now }
    requires rows_enough { length pivots.now ≤ form.now.matrix.rows }
    requires free { f < length form.now.matrix.columns }
    requires no_pivot { (i : ℕ) → i < length pivots.now → slice_index pivots.now i ≢ f }
    ensures { IsKernelColumn form.now.prime form.now.matrix pivots.now f result }
{
    let p = form.prime();
    let columns = form.columns();
    let _number = p.number();
    let values = negatives(p, form.items()[f].numbers());
    let mut numbers = spread(columns, pivots, values.numbers());
    numbers[f] = 1;
    Column::of_slice(&numbers)
}

// The negative of each number.
fn negatives(p: Prime, numbers: &[u8]) -> Column
    requires room { length numbers.now ≤ MAX_DEGREE }
    requires residues { All (λ x. x < p) numbers.now }
    ensures value { result ≡ map (λ x. (mod_ops p).neg x) numbers.now }
    ensures residues { All (λ x. x < p) result }
{
    let mut column = Column::of_slice(&[]);
    for x in numbers {
        column.push(p.neg(*x));
    }
    column
}

// n places: the values at these, in order, and zeros elsewhere.
fn spread(n: usize, places: &[u8], values: &[u8]) -> ArrayVec<u8, MAX_DEGREE>
    requires room { n ≤ MAX_DEGREE }
    requires places { ArePlaces n places.now }
    requires values { length places.now ≤ length values.now }
    ensures long { length result.items ≡ n }
    ensures at { (i : ℕ) → i < length places.now
        → slice_index result.items (slice_index places.now i) ≡ slice_index values.now i }
    ensures zero { (k : ℕ) → ((i : ℕ) → i < length places.now → slice_index places.now i ≢ k)
        → slice_index result.items k ≡ 0 }
    ensures residues { (p : ℕ) → 0 < p → All (λ x. x < p) values.now
        → All (λ x. x < p) result.items }
{
    let mut numbers = zeros(n);
    for i in 0..places.len() {
        numbers[places[i] as usize] = values[i];
    }
    numbers
}

// Whether a number from `start` on isn't 0.
fn has_nonzero(numbers: &[u8], start: usize) -> bool
    ensures found { IsTrue result
        → (i : ℕ) × (start ≤ i) × (i < length numbers.now) × (slice_index numbers.now i ≢ 0) }
    ensures none { result ≡ false → (i : ℕ) → start ≤ i → i < length numbers.now
        → slice_index numbers.now i ≡ 0 }
{
    for i in start..numbers.len() {
        if numbers[i] != 0 {
            return true;
        }
    }
    false
}

// The first n rows.
fn top_rows(m: &Matrix, n: usize) -> Matrix
    requires { n ≤ m.now.matrix.rows }
    ensures prime { result.prime ≡ m.now.prime }
    ensures rows { result.matrix.rows ≡ n }
    ensures columns { result.matrix.columns ≡ map (take n) m.now.matrix.columns }
    ensures whole { IsModularMatrix result }
{
    let p = m.prime();
    let _rows = m.rows();
    let mut columns = ColumnList::new();
    for column in m.items() {
        columns.push(Column::of_slice(&column.numbers()[..n]));
    }
    Matrix::of_list(p, n, columns)
}
