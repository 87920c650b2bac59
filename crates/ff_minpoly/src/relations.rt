//! The first power of a value that depends on the lower ones.
ghost use Rattle.std.specs.Prelude.{◌≡◌, ℕ, ◌+◌, ◌*◌, ◌<◌, ◌≤◌, [], length, All, slice_index, slice_index_or};
ghost use Rattle.alg_model.specs.Coefficients.{residues};
ghost use Rattle.alg_model.specs.Matrices.{IsColumn};
ghost use Rattle.alg_model.specs.Maps.{field_values, degree_of};
ghost use Rattle.ff_minpoly.specs.PrivateSpans.{AreRows, IsTable, IsSpan};
ghost use Rattle.ff_minpoly.specs.PrivateRelations.{HasRelation, IsRelation};

use crate::MAX_ROW;
use crate::elimination::{
    Pivots, add_column, blank_row, coefficients, first_place, insert, reduced,
};
use arrayvec::ArrayVec;
use ff_field::{Field, Value};
use ff_poly::{MAX_DEGREE, Prime};

// The same row N times.
fn repeated<const W: usize, const N: usize>(row: [u8; W]) -> [[u8; W]; N]
    requires width { W ≤ MAX_ROW }
    requires count { N ≤ MAX_DEGREE }
    requires row { (length row ≡ W) × ((k : ℕ) → slice_index row k ≡ 0) }
    ensures len { length result ≡ N }
    ensures rows { (p : ℕ) → 0 < p → AreRows W p result }
{
    [row; N]
}

// The coefficients of the first relation of the products of the block with 1, a, a^2, ..; the
// block's products take its place.
pub(crate) fn relation(field: &Field, block: &mut [Value], a: &Value) -> ArrayVec<u8, MAX_DEGREE>
    requires value { (field_values field.now).Valid a.now }
    requires values { All (field_values field.now).Valid block.old }
    requires some { 0 < length block.old }
    requires one { slice_index_or block.old 0 [] ≡ (field_values field.now).ops.one }
    requires dependent { HasRelation field.now block.old a.now }
    ensures { IsRelation field.now block.old a.now result.items }
{
    let n = field.degree();
    if n <= 8 {
        relation_of::<16, 8>(field, block, a)
    } else if n <= 16 {
        relation_of::<32, 16>(field, block, a)
    } else if n <= 24 {
        relation_of::<48, 24>(field, block, a)
    } else if n <= 32 {
        relation_of::<64, 32>(field, block, a)
    } else {
        relation_of::<MAX_ROW, MAX_DEGREE>(field, block, a)
    }
}

// The same, worked out in N rows of W numbers.
fn relation_of<const W: usize, const N: usize>(
    field: &Field,
    block: &mut [Value],
    a: &Value,
) -> ArrayVec<u8, MAX_DEGREE>
    requires width { (W ≤ MAX_ROW) × (N + N ≤ W) }
    requires height { N ≤ MAX_DEGREE }
    requires fits { degree_of field.now ≤ N }
    requires value { (field_values field.now).Valid a.now }
    requires values { All (field_values field.now).Valid block.old }
    requires some { 0 < length block.old }
    requires one { slice_index_or block.old 0 [] ≡ (field_values field.now).ops.one }
    requires dependent { HasRelation field.now block.old a.now }
    ensures { IsRelation field.now block.old a.now result.items }
{
    let _number = field.prime().number();
    let mut rows = repeated::<W, N>(blank_row());
    relation_in(field, block, a, &mut rows)
}

// The same in these rows.
fn relation_in<const W: usize>(
    field: &Field,
    block: &mut [Value],
    a: &Value,
    rows: &mut [[u8; W]],
) -> ArrayVec<u8, MAX_DEGREE>
    requires width { (W ≤ MAX_ROW) × (degree_of field.now + degree_of field.now ≤ W) }
    requires height { degree_of field.now ≤ length rows.old }
    requires rows { AreRows W field.now.characteristic rows.old }
    requires value { (field_values field.now).Valid a.now }
    requires values { All (field_values field.now).Valid block.old }
    requires some { 0 < length block.old }
    requires one { slice_index_or block.old 0 [] ≡ (field_values field.now).ops.one }
    requires dependent { HasRelation field.now block.old a.now }
    ensures { IsRelation field.now block.old a.now result.items }
{
    let (p, n, d) = (field.prime(), field.degree() as usize, block.len());
    let mut pivots = Pivots::new();
    for j in 0..n + 1 {
        let row = reduced(p, rows, pivots.items(), block[0].digits());
        let Some(pivot) = first_place(&row, n) else {
            return coefficients(&row, n, j * d);
        };
        insert(p, rows, &mut pivots, &row, pivot, n + j * d);
        add_others(p, rows, &mut pivots, block, n, j * d);
        multiply_all(field, block, a);
    }
    unreachable!()
}

// Takes the columns of the block but the first into account, after the first m columns and the
// block's first.
fn add_others<const W: usize>(
    p: Prime,
    rows: &mut [[u8; W]],
    pivots: &mut Pivots,
    block: &[Value],
    n: usize,
    m: usize,
)
    requires width { W ≤ MAX_ROW }
    requires room { (n + m + length block.now ≤ W) × (m + length block.now ≤ length rows.old)
        × (m + length block.now ≤ MAX_DEGREE) }
    requires fits { n ≤ MAX_DEGREE }
    requires values { All (IsColumn (residues p) n) block.now }
    requires some { 0 < length block.now }
    requires table { IsTable W p n (m + 1) rows.old pivots.old }
    ensures len { length rows.new ≡ length rows.old }
    ensures table { IsTable W p n (m + length block.now) rows.new pivots.new }
    ensures added { (col : ℕ → ℕ → ℕ) → IsSpan W p n (m + 1) col rows.old pivots.old
        → ((i k : ℕ) → i < length block.now → k < n
        → slice_index (slice_index_or block.now i []) k ≡ col (m + i) k)
        → IsSpan W p n (m + length block.now) col rows.new pivots.new }
{
    let _number = p.number();
    for i in 1..block.len() {
        add_column(p, rows, pivots, block[i].digits(), m + i);
    }
}

// Multiplies each value of the block by a.
fn multiply_all(field: &Field, block: &mut [Value], a: &Value)
    requires value { (field_values field.now).Valid a.now }
    requires values { All (field_values field.now).Valid block.old }
    ensures len { length block.new ≡ length block.old }
    ensures values { All (field_values field.now).Valid block.new }
    ensures products { (i : ℕ) → i < length block.old → slice_index_or block.new i []
        ≡ (field_values field.now).ops.mul (slice_index_or block.old i []) a.now }
{
    let _prime = field.prime();
    for i in 0..block.len() {
        block[i] = field.mul(&block[i], a);
    }
}
