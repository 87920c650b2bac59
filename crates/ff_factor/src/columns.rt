//! The matrix of `v -> v^p - v` on the polynomials modulo `f`.
ghost use Rattle.std.specs.Prelude.{◌≡◌, ℕ, ◌+◌, ◌-◌, ◌*◌, ◌^◌, ◌<◌, ◌≤◌, ◌==◌, if◌then◌else◌, [], ◌∷◌, length, replicate, map, All, slice_index};
ghost use Rattle.std.specs.List.{range_with_len};
ghost use Rattle.alg_model.specs.Coefficients.{residues, mod_ops};
ghost use Rattle.alg_model.specs.Factors.{IsMonic};
ghost use Rattle.alg_model.specs.Polynomials.{poly_power};
ghost use Rattle.alg_model.specs.Values.{degree, times_x, remainder};
ghost use Rattle.alg_model.specs.Matrices.{IsColumn};
ghost use Rattle.ff_poly.specs.Polynomial.{IsPoly};
ghost use Rattle.ff_factor.specs.Certificates.{berlekamp_column, berlekamp_matrix};
ghost use Rattle.ff_factor.specs.PrivateSplitting.{IsPowerOfVariable, ArePlacesOfPower};

use crate::polynomials::variable;
use arrayvec::ArrayVec;
use ff_matrix::{Column, Matrix};
use ff_poly::{MAX_DEGREE, Poly, Prime};

// Up to this prime the steps from one power of x^p to the next are fewer than what the matrix
// takes.
const FEW_STEPS: u8 = 13;

/// The columns 1 to `n - 1` of the matrix, for `f` of degree `n`; each power of `x^p` is made from
/// the one before.
pub(crate) fn matrix_in_turn(f: &Poly) -> Matrix
    requires monic { IsMonic (residues f.now.prime) f.now.coefficients }
    requires not_constant { 1 < length f.now.coefficients }
    requires degree { length f.now.coefficients ≤ MAX_DEGREE + 1 }
    ensures prime { result.prime ≡ f.now.prime }
    ensures matrix { result.matrix
        ≡ berlekamp_matrix (mod_ops f.now.prime) f.now.prime f.now.coefficients }
{
    let columns = columns_in_turn(f);
    Matrix::of_columns(f.prime(), f.coefficients().len() - 1, columns.as_slice())
}

// The columns, in the way that is faster for the prime.
fn columns_in_turn(f: &Poly) -> ArrayVec<Column, MAX_DEGREE>
    requires monic { IsMonic (residues f.now.prime) f.now.coefficients }
    requires not_constant { 1 < length f.now.coefficients }
    requires degree { length f.now.coefficients ≤ MAX_DEGREE + 1 }
    ensures columns { result.items
        ≡ (berlekamp_matrix (mod_ops f.now.prime) f.now.prime f.now.coefficients).columns }
{
    if f.prime().number() <= FEW_STEPS {
        columns_by_steps(f)
    } else {
        columns_by_table(f)
    }
}

// The same by p multiplications with x for each column.
fn columns_by_steps(f: &Poly) -> ArrayVec<Column, MAX_DEGREE>
    requires monic { IsMonic (residues f.now.prime) f.now.coefficients }
    requires not_constant { 1 < length f.now.coefficients }
    requires degree { length f.now.coefficients ≤ MAX_DEGREE + 1 }
    ensures columns { result.items
        ≡ (berlekamp_matrix (mod_ops f.now.prime) f.now.prime f.now.coefficients).columns }
{
    let _prime = f.prime();
    let degree = f.coefficients().len() - 1;
    let mut places = places_of_one(degree);
    let mut columns = ArrayVec::new();
    for k in 1..degree {
        multiply_by_power(places.as_mut_slice(), f);
        columns.push(gap_column(f, places.as_slice(), k));
    }
    columns
}

// The columns, from 1, x^p, x^(2 p), .. in turn, by the matrix of the multiplication with x^p.
fn columns_by_table(f: &Poly) -> ArrayVec<Column, MAX_DEGREE>
    requires monic { IsMonic (residues f.now.prime) f.now.coefficients }
    requires not_constant { 1 < length f.now.coefficients }
    requires degree { length f.now.coefficients ≤ MAX_DEGREE + 1 }
    ensures columns { result.items
        ≡ (berlekamp_matrix (mod_ops f.now.prime) f.now.prime f.now.coefficients).columns }
{
    let degree = f.coefficients().len() - 1;
    let table = power_table(f);
    let _prime = f.prime();
    let mut power = Column::of_slice(&places_of_one(degree));
    let mut columns = ArrayVec::new();
    for k in 1..degree {
        power = table.apply(&power);
        columns.push(gap_column(f, power.numbers(), k));
    }
    columns
}

// The matrix of v -> x^p * v modulo f.
fn power_table(f: &Poly) -> Matrix
    requires monic { IsMonic (residues f.now.prime) f.now.coefficients }
    requires not_constant { 1 < length f.now.coefficients }
    requires degree { length f.now.coefficients ≤ MAX_DEGREE + 1 }
    ensures prime { result.prime ≡ f.now.prime }
    ensures rows { result.matrix.rows ≡ degree f.now.coefficients }
    ensures columns { let o = mod_ops f.now.prime in result.matrix.columns
        ≡ map (λ j. remainder o f.now.coefficients (poly_power o (0 ∷ 1 ∷ []) j))
        (range_with_len f.now.prime (degree f.now.coefficients)) }
{
    let columns = power_columns(f);
    Matrix::of_columns(f.prime(), f.coefficients().len() - 1, columns.as_slice())
}

// Its columns, the places of x^p, x^(p + 1), ..
fn power_columns(f: &Poly) -> ArrayVec<Column, MAX_DEGREE>
    requires monic { IsMonic (residues f.now.prime) f.now.coefficients }
    requires not_constant { 1 < length f.now.coefficients }
    requires degree { length f.now.coefficients ≤ MAX_DEGREE + 1 }
    ensures columns { let o = mod_ops f.now.prime in result.items
        ≡ map (λ j. remainder o f.now.coefficients (poly_power o (0 ∷ 1 ∷ []) j))
        (range_with_len f.now.prime (degree f.now.coefficients)) }
{
    let p = f.prime();
    let degree = f.coefficients().len() - 1;
    let mut places = places_of_one(degree);
    multiply_by_power(places.as_mut_slice(), f);
    let mut columns = ArrayVec::new();
    for _j in 0..degree {
        columns.push(Column::of_slice(places.as_slice()));
        multiply_by_variable(places.as_mut_slice(), f.coefficients(), p);
    }
    columns
}

// The n places of 1.
fn places_of_one(n: usize) -> ArrayVec<u8, MAX_DEGREE>
    requires places { 0 < n }
    requires room { n ≤ MAX_DEGREE }
    ensures { result.items ≡ 1 ∷ replicate (n - 1) 0 }
{
    let mut places = ArrayVec::new();
    places.push(1);
    for _k in 1..n {
        places.push(0);
    }
    places
}

// Multiplies by x^p modulo f.
fn multiply_by_power(places: &mut [u8], f: &Poly)
    requires monic { IsMonic (residues f.now.prime) f.now.coefficients }
    requires not_constant { 1 < length f.now.coefficients }
    requires places { length places.old ≡ degree f.now.coefficients }
    requires residues { All (λ x. x < f.now.prime) places.old }
    ensures places { length places.new ≡ length places.old }
    ensures residues { All (λ x. x < f.now.prime) places.new }
    ensures power { (e : ℕ) → ArePlacesOfPower f.now e places.old
        → ArePlacesOfPower f.now (e + f.now.prime) places.new }
{
    let p = f.prime();
    for _k in 0..p.number() {
        multiply_by_variable(places, f.coefficients(), p);
    }
}

// Multiplies by x modulo f: shifts up by one, and adds the multiple of f that takes the top place
// off.
fn multiply_by_variable(places: &mut [u8], f: &[u8], p: Prime)
    requires places { 0 < length places.old }
    requires sizes { length f.now ≡ length places.old + 1 }
    requires divisor { All (λ x. x < p) f.now }
    requires residues { All (λ x. x < p) places.old }
    ensures places { length places.new ≡ length places.old }
    ensures residues { All (λ x. x < p) places.new }
    ensures product { places.new ≡ times_x (mod_ops p) f.now places.old }
{
    let _number = p.number();
    let multiple = p.neg(places[places.len() - 1]) as u16;
    let mut below = 0;
    for i in 0..places.len() {
        let place = places[i] as u16;
        places[i] = p.reduced(multiple * f[i] as u16 + below) as u8;
        below = place;
    }
}

/// The same matrix, each column from a power of its own.
pub(crate) fn matrix_by_powers(f: &Poly) -> Matrix
    requires monic { IsMonic (residues f.now.prime) f.now.coefficients }
    requires not_constant { 1 < length f.now.coefficients }
    requires degree { length f.now.coefficients ≤ MAX_DEGREE + 1 }
    ensures prime { result.prime ≡ f.now.prime }
    ensures matrix { result.matrix
        ≡ berlekamp_matrix (mod_ops f.now.prime) f.now.prime f.now.coefficients }
{
    let columns = columns_by_powers(f);
    Matrix::of_columns(f.prime(), f.coefficients().len() - 1, columns.as_slice())
}

// The columns.
fn columns_by_powers(f: &Poly) -> ArrayVec<Column, MAX_DEGREE>
    requires monic { IsMonic (residues f.now.prime) f.now.coefficients }
    requires not_constant { 1 < length f.now.coefficients }
    requires degree { length f.now.coefficients ≤ MAX_DEGREE + 1 }
    ensures columns { result.items
        ≡ (berlekamp_matrix (mod_ops f.now.prime) f.now.prime f.now.coefficients).columns }
{
    let degree = f.coefficients().len() - 1;
    let mut columns = ArrayVec::new();
    for k in 1..degree {
        let power = power_of_variable(f, k);
        columns.push(gap_column(f, power.coefficients(), k));
    }
    columns
}

/// The remainder of `x^(k p)` by `f`.
pub(crate) fn power_of_variable(f: &Poly, k: usize) -> Poly
    requires monic { IsMonic (residues f.now.prime) f.now.coefficients }
    requires not_constant { 1 < length f.now.coefficients }
    requires degree { length f.now.coefficients ≤ MAX_DEGREE + 1 }
    requires factor { k ≤ MAX_DEGREE }
    ensures { IsPowerOfVariable f.now k result.coefficients }
{
    let p = f.prime();
    variable(p).powmod(k as u64 * p.number() as u64, f)
}

/// The column of `x^(k p) - x^k`, from coefficients of `x^(k p)` modulo `f`.
pub(crate) fn gap_column(f: &Poly, power: &[u8], k: usize) -> Column
    requires monic { IsMonic (residues f.now.prime) f.now.coefficients }
    requires not_constant { 1 < length f.now.coefficients }
    requires degree { length f.now.coefficients ≤ MAX_DEGREE + 1 }
    requires place { k < degree f.now.coefficients }
    requires power { IsPowerOfVariable f.now k power.now }
    ensures value { result
        ≡ berlekamp_column (mod_ops f.now.prime) f.now.prime f.now.coefficients k }
    ensures column { IsColumn (residues f.now.prime) (degree f.now.coefficients) result }
{
    let numbers = gap_numbers(f.prime(), power, k, f.coefficients().len() - 1);
    Column::of_slice(numbers.as_slice())
}

// The n numbers of power, or zeros after them, less 1 at place k.
fn gap_numbers(p: Prime, power: &[u8], k: usize, n: usize) -> ArrayVec<u8, MAX_DEGREE>
    requires room { n ≤ MAX_DEGREE }
    requires residues { All (λ x. x < p) power.now }
    ensures column { IsColumn (residues p) n result.items }
    ensures places { let o = mod_ops p in (i : ℕ) → i < n
        → slice_index result.items i
        ≡ o.add (slice_index power.now i) (o.neg (if i == k then 1 else 0)) }
{
    let _number = p.number();
    let mut numbers = ArrayVec::new();
    for i in 0..n {
        let one = if i == k { 1 } else { 0 };
        numbers.push(p.sub(place(power, i), one));
    }
    numbers
}

// The number at place i, or zero after the last.
fn place(c: &[u8], i: usize) -> u8
    ensures { result ≡ slice_index c.now i }
{
    if i < c.len() { c[i] } else { 0 }
}
