//! Examples whose values were computed outside: reduced row echelon forms by SymPy over GF(p), the
//! rest from them by Python.
ghost use Rattle.std.specs.Prelude.{◌≡◌, ◌<◌, ◌≤◌, ◌↔◌, IsTrue, length, All};
ghost use Rattle.alg_model.specs.Coefficients.{residues};
ghost use Rattle.alg_model.specs.Matrices.{IsColumn};

use super::*;
use arrayvec::ArrayVec;
use ff_poly::{MAX_DEGREE, Prime};
use std::process::Abort;

struct Case {
    p: u32,
    rows: usize,
    columns: usize,
    // The columns one after another, as in `form` and `kernel`.
    entries: &'static [u8],
    form: &'static [u8],
    pivots: &'static [u8],
    kernel: &'static [u8],
    // A combination of the columns, and a column that is none, where there is one.
    reached: &'static [u8],
    missed: &'static [u8],
}

fn are_residues(p: Prime, numbers: &[u8]) -> bool
    ensures { IsTrue result ↔ All (λ x. x < p) numbers.now }
{
    let p = p.number();
    numbers.iter().all(|x| *x < p)
}

fn column(rt: &impl Abort, p: Prime, numbers: &[u8]) -> Column
    ensures { IsColumn (residues p) (length numbers.now) result }
{
    assert!(rt; numbers.len() <= MAX_DEGREE);
    assert!(rt; are_residues(p, numbers));
    Column::of_slice(numbers)
}

// The columns of this length that stand one after another in `entries`.
fn columns(
    rt: &impl Abort,
    p: Prime,
    length: usize,
    count: usize,
    entries: &[u8],
) -> ArrayVec<Column, MAX_DEGREE>
    requires { count ≤ MAX_DEGREE }
    ensures { All (IsColumn (residues p) length) result.items }
{
    let mut list = ArrayVec::new();
    let mut rest = entries;
    for _k in 0..count {
        assert!(rt; length <= rest.len());
        let (first, others) = rest.split_at(length);
        list.push(column(rt, p, first));
        rest = others;
    }
    assert!(rt; rest.is_empty());
    list
}

fn matrix(rt: &impl Abort, case: &Case) -> Matrix {
    let p = Prime::of(case.p).expect(rt, "a characteristic");
    assert!(rt; case.rows <= MAX_DEGREE && case.columns <= MAX_DEGREE);
    let list = columns(rt, p, case.rows, case.columns, case.entries);
    assert!(rt; list.len() <= MAX_DEGREE);
    Matrix::of_columns(p, case.rows, &list)
}

// Asserts that the columns are those that stand one after another in `entries`.
fn same_columns(rt: &impl Abort, list: &[Column], length: usize, entries: &[u8]) {
    let mut rest = entries;
    for column in list {
        assert!(rt; length <= rest.len());
        let (first, others) = rest.split_at(length);
        assert_eq!(rt; column.numbers(), first);
        rest = others;
    }
    assert!(rt; rest.is_empty());
}

#[test]
fn reduced_forms(rt: HostRuntime) {
    for case in &CASES {
        let m = matrix(&rt, case);
        let echelon = m.echelon();
        assert_eq!(rt; echelon.pivots.numbers(), case.pivots);
        same_columns(&rt, echelon.form.items(), case.rows, case.form);
        let product = echelon.transform.mul(&m);
        same_columns(&rt, product.items(), case.rows, case.form);
        same_columns(&rt, m.copy().items(), case.rows, case.entries);
    }
}

#[test]
fn kernels(rt: HostRuntime) {
    for case in &CASES {
        let kernel = matrix(&rt, case).kernel();
        same_columns(&rt, kernel.copy().items(), case.columns, case.kernel);
    }
}

#[test]
fn solutions(rt: HostRuntime) {
    for case in &CASES {
        let m = matrix(&rt, case);
        let reached = column(&rt, m.prime(), case.reached);
        assert!(rt; reached.numbers().len() == m.rows());
        let x = m
            .solve(&reached)
            .expect(&rt, "a combination of the columns");
        assert_eq!(rt; m.apply(&x).numbers(), case.reached);
        if !case.missed.is_empty() {
            let missed = column(&rt, m.prime(), case.missed);
            assert!(rt; missed.numbers().len() == m.rows());
            assert!(rt; m.solve(&missed).is_none());
        }
    }
}

#[test]
fn left_inverses(rt: HostRuntime) {
    for case in &CASES {
        let m = matrix(&rt, case);
        match m.left_inverse() {
            None => assert!(rt; !case.kernel.is_empty()),
            Some(left) => {
                assert!(rt; case.kernel.is_empty());
                let product = left.mul(&m);
                for c in 0..product.columns() {
                    for r in 0..product.rows() {
                        assert!(rt; (product.at(r, c) == 1) == (r == c) && product.at(r, c) < 2);
                    }
                }
            }
        }
    }
}

// Whether the form of m gives no column that m sends to these numbers.
fn is_missed(rt: &impl Abort, m: &Matrix, numbers: &[u8]) -> bool {
    let missed = column(rt, m.prime(), numbers);
    assert!(rt; missed.numbers().len() == m.rows());
    m.echelon().solve(&missed).is_none()
}

#[test]
fn answers_of_one_form(rt: HostRuntime) {
    for case in &CASES {
        let m = matrix(&rt, case);
        let echelon = m.echelon();
        let kernel = echelon.kernel();
        same_columns(&rt, kernel.items(), case.columns, case.kernel);
        let reached = column(&rt, m.prime(), case.reached);
        assert!(rt; reached.numbers().len() == m.rows());
        let x = echelon
            .solve(&reached)
            .expect(&rt, "a combination of the columns");
        assert_eq!(rt; m.apply(&x).numbers(), case.reached);
        if !case.missed.is_empty() {
            assert!(rt; is_missed(&rt, &m, case.missed));
        }
        assert!(rt; echelon.left_inverse().is_none() != case.kernel.is_empty());
    }
}

const CASES: [Case; 10] = [
    Case {
        p: 2,
        rows: 0,
        columns: 3,
        entries: &[],
        form: &[],
        pivots: &[],
        kernel: &[1, 0, 0, 0, 1, 0, 0, 0, 1],
        reached: &[],
        missed: &[],
    },
    Case {
        p: 3,
        rows: 3,
        columns: 0,
        entries: &[],
        form: &[],
        pivots: &[],
        kernel: &[],
        reached: &[0, 0, 0],
        missed: &[2, 2, 0],
    },
    Case {
        p: 2,
        rows: 4,
        columns: 4,
        entries: &[0, 1, 0, 0, 0, 1, 0, 0, 0, 0, 0, 0, 1, 1, 0, 1],
        form: &[1, 0, 0, 0, 1, 0, 0, 0, 0, 0, 0, 0, 0, 1, 0, 0],
        pivots: &[0, 3],
        kernel: &[1, 1, 0, 0, 0, 0, 1, 0],
        reached: &[1, 1, 0, 1],
        missed: &[0, 0, 0, 1],
    },
    Case {
        p: 3,
        rows: 3,
        columns: 5,
        entries: &[0, 2, 1, 1, 0, 1, 1, 0, 2, 0, 0, 1, 0, 0, 1],
        form: &[1, 0, 0, 0, 1, 0, 0, 0, 1, 0, 2, 1, 0, 2, 1],
        pivots: &[0, 1, 2],
        kernel: &[0, 1, 2, 1, 0, 0, 1, 2, 0, 1],
        reached: &[1, 0, 2],
        missed: &[],
    },
    Case {
        p: 3,
        rows: 4,
        columns: 4,
        entries: &[1, 1, 0, 0, 1, 0, 0, 0, 0, 1, 2, 1, 1, 0, 0, 1],
        form: &[1, 0, 0, 0, 0, 1, 0, 0, 0, 0, 1, 0, 0, 0, 0, 1],
        pivots: &[0, 1, 2, 3],
        kernel: &[],
        reached: &[2, 2, 1, 2],
        missed: &[],
    },
    Case {
        p: 31,
        rows: 5,
        columns: 3,
        entries: &[14, 23, 13, 3, 6, 16, 24, 20, 12, 0, 6, 4, 12, 13, 8],
        form: &[1, 0, 0, 0, 0, 0, 1, 0, 0, 0, 0, 0, 1, 0, 0],
        pivots: &[0, 1, 2],
        kernel: &[],
        reached: &[18, 22, 13, 26, 27],
        missed: &[9, 28, 0, 6, 5],
    },
    Case {
        p: 31,
        rows: 5,
        columns: 3,
        entries: &[20, 5, 15, 22, 4, 22, 14, 30, 9, 16, 29, 15, 14, 4, 12],
        form: &[1, 0, 0, 0, 0, 0, 1, 0, 0, 0, 3, 0, 0, 0, 0],
        pivots: &[0, 1],
        kernel: &[28, 0, 1],
        reached: &[6, 26, 27, 4, 4],
        missed: &[2, 2, 6, 18, 20],
    },
    Case {
        p: 31,
        rows: 24,
        columns: 24,
        entries: &[
            25, 7, 10, 4, 12, 17, 18, 10, 22, 8, 2, 30, 18, 14, 24, 28, 1, 9, 6, 11, 20, 20, 21,
            28, 21, 11, 14, 1, 13, 6, 28, 14, 14, 16, 12, 13, 8, 1, 2, 23, 10, 24, 8, 28, 19, 16,
            1, 8, 6, 18, 4, 21, 20, 20, 23, 27, 24, 10, 2, 15, 30, 20, 13, 19, 15, 2, 20, 22, 21,
            13, 15, 2, 26, 10, 17, 19, 13, 13, 19, 15, 7, 0, 12, 24, 9, 18, 12, 1, 10, 14, 16, 29,
            15, 25, 24, 26, 4, 8, 23, 22, 30, 24, 5, 17, 1, 21, 11, 30, 7, 9, 5, 15, 22, 10, 28, 6,
            14, 21, 26, 3, 30, 10, 27, 11, 9, 27, 6, 29, 24, 18, 23, 5, 4, 21, 10, 3, 14, 29, 2,
            18, 20, 14, 15, 22, 29, 6, 16, 10, 24, 8, 2, 12, 28, 10, 30, 8, 16, 3, 2, 25, 3, 14,
            23, 11, 20, 9, 9, 22, 20, 12, 17, 1, 16, 7, 3, 21, 17, 29, 6, 27, 24, 18, 13, 18, 24,
            22, 5, 29, 5, 24, 16, 16, 16, 2, 21, 25, 11, 29, 17, 12, 26, 26, 29, 18, 19, 13, 0, 10,
            27, 26, 10, 10, 15, 28, 26, 29, 6, 8, 16, 23, 28, 6, 25, 13, 25, 28, 4, 22, 1, 21, 5,
            30, 13, 2, 15, 7, 30, 13, 19, 10, 27, 23, 26, 4, 24, 6, 25, 5, 20, 12, 27, 4, 26, 3,
            12, 29, 7, 14, 14, 26, 23, 2, 29, 30, 13, 7, 5, 2, 16, 10, 29, 7, 20, 8, 17, 18, 13,
            15, 24, 10, 14, 6, 27, 9, 27, 15, 17, 25, 12, 20, 19, 28, 16, 17, 29, 23, 21, 17, 22,
            12, 26, 4, 10, 0, 24, 26, 18, 27, 9, 5, 3, 11, 6, 21, 5, 11, 4, 6, 4, 9, 10, 17, 1, 0,
            28, 16, 15, 3, 16, 17, 26, 26, 16, 4, 15, 17, 16, 14, 16, 6, 10, 7, 26, 29, 21, 6, 7,
            28, 12, 12, 15, 27, 28, 19, 6, 27, 9, 22, 4, 9, 21, 3, 8, 25, 24, 2, 25, 12, 22, 11,
            28, 12, 12, 30, 24, 19, 8, 16, 27, 3, 29, 10, 29, 7, 12, 16, 6, 2, 4, 28, 6, 17, 12,
            13, 8, 9, 5, 13, 7, 7, 11, 17, 19, 28, 1, 30, 20, 0, 21, 13, 23, 4, 28, 14, 28, 8, 0,
            18, 29, 15, 18, 25, 21, 22, 17, 8, 12, 18, 4, 7, 17, 14, 8, 29, 5, 20, 10, 15, 18, 15,
            18, 22, 8, 13, 18, 0, 13, 14, 28, 3, 27, 9, 13, 21, 2, 20, 28, 23, 11, 10, 23, 13, 0,
            23, 3, 24, 10, 22, 19, 25, 0, 2, 9, 7, 4, 29, 15, 25, 24, 10, 8, 16, 25, 14, 26, 25,
            13, 18, 18, 3, 17, 21, 19, 26, 8, 30, 9, 12, 1, 26, 15, 11, 29, 24, 9, 4, 27, 17, 25,
            12, 1, 22, 28, 24, 16, 24, 2, 13, 13, 26, 0, 11, 15, 6, 15, 4, 4, 16, 26, 3, 29, 14, 2,
            21, 10, 24, 19, 5, 28, 19, 28, 2, 12, 29, 21, 3, 5, 9, 15, 9, 28, 28, 21, 18, 29, 2,
            17, 23, 19, 25, 25, 24, 29, 3, 9, 1, 8, 24, 9, 10, 7, 22, 13, 9, 2, 21,
        ],
        form: &[
            1, 0, 0, 0, 0, 0, 0, 0, 0, 0, 0, 0, 0, 0, 0, 0, 0, 0, 0, 0, 0, 0, 0, 0, 0, 1, 0, 0, 0,
            0, 0, 0, 0, 0, 0, 0, 0, 0, 0, 0, 0, 0, 0, 0, 0, 0, 0, 0, 0, 0, 1, 0, 0, 0, 0, 0, 0, 0,
            0, 0, 0, 0, 0, 0, 0, 0, 0, 0, 0, 0, 0, 0, 0, 0, 0, 1, 0, 0, 0, 0, 0, 0, 0, 0, 0, 0, 0,
            0, 0, 0, 0, 0, 0, 0, 0, 0, 0, 0, 0, 0, 1, 0, 0, 0, 0, 0, 0, 0, 0, 0, 0, 0, 0, 0, 0, 0,
            0, 0, 0, 0, 0, 0, 0, 0, 0, 1, 0, 0, 0, 0, 0, 0, 0, 0, 0, 0, 0, 0, 0, 0, 0, 0, 0, 0, 0,
            0, 0, 0, 0, 0, 1, 0, 0, 0, 0, 0, 0, 0, 0, 0, 0, 0, 0, 0, 0, 0, 0, 0, 0, 0, 0, 0, 0, 0,
            0, 1, 0, 0, 0, 0, 0, 0, 0, 0, 0, 0, 0, 0, 0, 0, 0, 0, 0, 0, 0, 0, 0, 0, 0, 0, 1, 0, 0,
            0, 0, 0, 0, 0, 0, 0, 0, 0, 0, 0, 0, 0, 0, 0, 0, 0, 0, 0, 0, 0, 0, 1, 0, 0, 0, 0, 0, 0,
            0, 0, 0, 0, 0, 0, 0, 0, 0, 0, 0, 0, 0, 0, 0, 0, 0, 0, 1, 0, 0, 0, 0, 0, 0, 0, 0, 0, 0,
            0, 0, 0, 0, 0, 0, 0, 0, 0, 0, 0, 0, 0, 0, 1, 0, 0, 0, 0, 0, 0, 0, 0, 0, 0, 0, 0, 0, 0,
            0, 0, 0, 0, 0, 0, 0, 0, 0, 0, 1, 0, 0, 0, 0, 0, 0, 0, 0, 0, 0, 0, 0, 0, 0, 0, 0, 0, 0,
            0, 0, 0, 0, 0, 0, 1, 0, 0, 0, 0, 0, 0, 0, 0, 0, 0, 0, 0, 0, 0, 0, 0, 0, 0, 0, 0, 0, 0,
            0, 0, 1, 0, 0, 0, 0, 0, 0, 0, 0, 0, 0, 0, 0, 0, 0, 0, 0, 0, 0, 0, 0, 0, 0, 0, 0, 1, 0,
            0, 0, 0, 0, 0, 0, 0, 0, 0, 0, 0, 0, 0, 0, 0, 0, 0, 0, 0, 0, 0, 0, 0, 1, 0, 0, 0, 0, 0,
            0, 0, 0, 0, 0, 0, 0, 0, 0, 0, 0, 0, 0, 0, 0, 0, 0, 0, 0, 1, 0, 0, 0, 0, 0, 0, 0, 0, 0,
            0, 0, 0, 0, 0, 0, 0, 0, 0, 0, 0, 0, 0, 0, 0, 1, 0, 0, 0, 0, 0, 0, 0, 0, 0, 0, 0, 0, 0,
            0, 0, 0, 0, 0, 0, 0, 0, 0, 0, 0, 1, 0, 0, 0, 0, 0, 0, 0, 0, 0, 0, 0, 0, 0, 0, 0, 0, 0,
            0, 0, 0, 0, 0, 0, 0, 1, 0, 0, 0, 0, 0, 0, 0, 0, 0, 0, 0, 0, 0, 0, 0, 0, 0, 0, 0, 0, 0,
            0, 0, 0, 1, 0, 0, 23, 29, 18, 11, 30, 4, 19, 7, 6, 26, 10, 12, 7, 11, 16, 10, 24, 19,
            24, 0, 29, 8, 0, 0, 0, 26, 12, 5, 23, 26, 0, 9, 18, 9, 1, 23, 15, 24, 27, 15, 13, 28,
            13, 15, 14, 0, 0, 0,
        ],
        pivots: &[
            0, 1, 2, 3, 4, 5, 6, 7, 8, 9, 10, 11, 12, 13, 14, 15, 16, 17, 18, 19, 20, 21,
        ],
        kernel: &[
            8, 2, 13, 20, 1, 27, 12, 24, 25, 5, 21, 19, 24, 20, 15, 21, 7, 12, 7, 0, 2, 23, 1, 0,
            0, 5, 19, 26, 8, 5, 0, 22, 13, 22, 30, 8, 16, 7, 4, 16, 18, 3, 18, 16, 17, 0, 0, 1,
        ],
        reached: &[
            16, 13, 29, 24, 30, 11, 21, 30, 13, 14, 7, 10, 15, 24, 29, 18, 7, 28, 2, 30, 9, 16, 18,
            30,
        ],
        missed: &[
            14, 9, 26, 24, 0, 2, 9, 6, 29, 21, 19, 2, 22, 9, 15, 23, 24, 22, 10, 9, 28, 4, 7, 11,
        ],
    },
    Case {
        p: 2,
        rows: 24,
        columns: 24,
        entries: &[
            1, 0, 1, 0, 1, 0, 0, 0, 0, 0, 1, 0, 0, 1, 0, 1, 1, 0, 1, 1, 0, 0, 0, 1, 1, 0, 0, 1, 0,
            1, 0, 1, 0, 0, 1, 0, 0, 0, 0, 0, 0, 0, 0, 0, 1, 1, 0, 1, 0, 0, 0, 1, 1, 0, 0, 1, 0, 0,
            0, 0, 0, 1, 1, 0, 1, 0, 0, 0, 1, 1, 1, 1, 1, 1, 1, 0, 0, 0, 0, 1, 1, 0, 1, 0, 1, 0, 1,
            1, 0, 0, 1, 0, 0, 0, 0, 0, 1, 1, 1, 0, 0, 0, 0, 1, 1, 0, 1, 0, 1, 1, 1, 1, 0, 0, 0, 0,
            1, 1, 0, 0, 1, 0, 1, 0, 0, 1, 0, 0, 1, 1, 0, 0, 0, 0, 0, 0, 1, 1, 0, 1, 1, 1, 0, 0, 1,
            0, 1, 1, 1, 1, 0, 1, 1, 0, 0, 0, 1, 1, 1, 0, 0, 1, 1, 1, 0, 1, 1, 1, 1, 0, 1, 0, 0, 0,
            1, 1, 1, 1, 1, 0, 0, 0, 0, 1, 1, 1, 0, 0, 0, 0, 0, 0, 1, 0, 1, 1, 0, 0, 1, 0, 0, 0, 1,
            1, 0, 1, 1, 0, 1, 1, 0, 1, 0, 0, 0, 1, 1, 1, 1, 0, 1, 0, 0, 1, 1, 0, 0, 1, 0, 0, 1, 0,
            1, 0, 1, 0, 1, 1, 1, 0, 0, 0, 0, 1, 0, 1, 1, 0, 0, 0, 1, 1, 1, 0, 1, 0, 1, 1, 0, 0, 0,
            1, 1, 1, 1, 1, 1, 1, 1, 1, 1, 0, 0, 0, 1, 1, 0, 0, 1, 0, 1, 1, 1, 0, 1, 0, 1, 1, 0, 0,
            1, 1, 0, 1, 0, 0, 1, 0, 1, 0, 1, 1, 1, 0, 0, 1, 0, 1, 0, 0, 1, 0, 0, 1, 0, 1, 1, 0, 1,
            1, 0, 0, 0, 1, 0, 1, 0, 1, 1, 0, 0, 1, 0, 1, 0, 1, 1, 0, 0, 0, 1, 1, 0, 1, 1, 1, 1, 1,
            0, 0, 0, 0, 0, 0, 0, 1, 1, 1, 0, 1, 1, 1, 1, 1, 0, 0, 0, 0, 1, 1, 0, 1, 1, 1, 0, 1, 0,
            0, 1, 0, 1, 0, 0, 0, 0, 0, 1, 1, 1, 1, 1, 1, 1, 0, 1, 0, 1, 1, 1, 0, 1, 1, 1, 1, 1, 1,
            1, 0, 1, 1, 0, 0, 1, 0, 0, 0, 1, 1, 1, 1, 0, 1, 0, 1, 0, 0, 1, 0, 1, 1, 1, 1, 1, 0, 1,
            1, 1, 1, 0, 1, 1, 1, 0, 0, 0, 1, 1, 0, 0, 0, 0, 0, 0, 1, 0, 1, 1, 1, 0, 0, 1, 0, 1, 1,
            1, 0, 0, 0, 0, 1, 0, 1, 1, 1, 0, 0, 0, 1, 0, 0, 0, 0, 1, 0, 1, 1, 0, 0, 1, 0, 1, 0, 1,
            1, 1, 0, 1, 0, 1, 1, 0, 0, 1, 0, 1, 0, 0, 0, 1, 0, 0, 1, 0, 0, 1, 1, 1, 1, 0, 0, 1, 0,
            0, 0, 0, 0, 1, 0, 1, 0, 1, 1, 0, 1, 1, 0, 0, 1, 0, 0, 0, 1, 0, 1, 0, 1, 0, 1, 0, 0, 0,
            1, 0, 0, 0, 0, 1, 0, 1, 1, 0, 1, 1, 1, 0, 1, 1, 1, 0, 1, 0, 1, 0, 1, 0, 0,
        ],
        form: &[
            1, 0, 0, 0, 0, 0, 0, 0, 0, 0, 0, 0, 0, 0, 0, 0, 0, 0, 0, 0, 0, 0, 0, 0, 0, 1, 0, 0, 0,
            0, 0, 0, 0, 0, 0, 0, 0, 0, 0, 0, 0, 0, 0, 0, 0, 0, 0, 0, 0, 0, 1, 0, 0, 0, 0, 0, 0, 0,
            0, 0, 0, 0, 0, 0, 0, 0, 0, 0, 0, 0, 0, 0, 0, 0, 0, 1, 0, 0, 0, 0, 0, 0, 0, 0, 0, 0, 0,
            0, 0, 0, 0, 0, 0, 0, 0, 0, 0, 0, 0, 0, 1, 0, 0, 0, 0, 0, 0, 0, 0, 0, 0, 0, 0, 0, 0, 0,
            0, 0, 0, 0, 0, 0, 0, 0, 0, 1, 0, 0, 0, 0, 0, 0, 0, 0, 0, 0, 0, 0, 0, 0, 0, 0, 0, 0, 0,
            0, 0, 0, 0, 0, 1, 0, 0, 0, 0, 0, 0, 0, 0, 0, 0, 0, 0, 0, 0, 0, 0, 0, 0, 0, 0, 0, 0, 0,
            0, 1, 0, 0, 0, 0, 0, 0, 0, 0, 0, 0, 0, 0, 0, 0, 0, 0, 0, 0, 0, 0, 0, 0, 0, 0, 1, 0, 0,
            0, 0, 0, 0, 0, 0, 0, 0, 0, 0, 0, 0, 0, 0, 0, 0, 0, 0, 0, 0, 0, 0, 1, 0, 0, 0, 0, 0, 0,
            0, 0, 0, 0, 0, 0, 0, 0, 0, 0, 0, 0, 0, 0, 0, 0, 0, 0, 1, 0, 0, 0, 0, 0, 0, 0, 0, 0, 0,
            0, 0, 0, 0, 0, 0, 0, 0, 0, 0, 0, 0, 0, 0, 1, 0, 0, 0, 0, 0, 0, 0, 0, 0, 0, 0, 0, 0, 0,
            0, 0, 0, 0, 0, 0, 0, 0, 0, 0, 1, 0, 0, 0, 0, 0, 0, 0, 0, 0, 0, 0, 0, 0, 0, 0, 0, 0, 0,
            0, 0, 0, 0, 0, 0, 1, 0, 0, 0, 0, 0, 0, 0, 0, 0, 0, 0, 0, 0, 0, 0, 0, 0, 0, 0, 0, 0, 0,
            0, 0, 1, 0, 0, 0, 0, 0, 0, 0, 0, 0, 0, 0, 0, 0, 0, 0, 0, 0, 0, 0, 0, 0, 0, 0, 0, 1, 0,
            0, 0, 0, 0, 0, 0, 0, 0, 0, 0, 0, 0, 0, 0, 0, 0, 0, 0, 0, 0, 0, 0, 0, 1, 0, 0, 0, 0, 0,
            0, 0, 0, 0, 0, 0, 0, 0, 0, 0, 0, 0, 0, 0, 0, 0, 0, 0, 0, 1, 0, 0, 0, 0, 0, 0, 0, 0, 0,
            0, 0, 0, 0, 0, 0, 0, 0, 0, 0, 0, 0, 0, 0, 0, 1, 0, 0, 0, 0, 0, 0, 0, 0, 0, 0, 0, 0, 0,
            0, 0, 0, 0, 0, 0, 0, 0, 0, 0, 0, 1, 0, 0, 0, 0, 0, 0, 0, 0, 0, 0, 0, 0, 0, 0, 0, 0, 0,
            0, 0, 0, 0, 0, 0, 0, 1, 0, 0, 0, 0, 0, 0, 0, 0, 0, 0, 0, 0, 0, 0, 0, 0, 0, 0, 0, 0, 0,
            0, 0, 0, 1, 0, 0, 1, 0, 0, 1, 1, 1, 0, 1, 1, 0, 1, 1, 0, 1, 1, 1, 1, 0, 1, 1, 1, 0, 0,
            0, 0, 0, 0, 0, 0, 0, 0, 0, 0, 0, 0, 0, 0, 0, 0, 0, 0, 0, 0, 0, 0, 0, 1, 0,
        ],
        pivots: &[
            0, 1, 2, 3, 4, 5, 6, 7, 8, 9, 10, 11, 12, 13, 14, 15, 16, 17, 18, 19, 20, 21, 23,
        ],
        kernel: &[
            1, 0, 0, 1, 1, 1, 0, 1, 1, 0, 1, 1, 0, 1, 1, 1, 1, 0, 1, 1, 1, 0, 1, 0,
        ],
        reached: &[
            1, 1, 1, 0, 0, 0, 0, 1, 1, 0, 1, 1, 1, 0, 1, 0, 1, 0, 1, 0, 1, 0, 0, 0,
        ],
        missed: &[
            1, 1, 0, 0, 1, 0, 1, 0, 1, 0, 0, 1, 1, 0, 1, 1, 1, 0, 1, 0, 1, 0, 1, 1,
        ],
    },
    Case {
        p: 61,
        rows: 12,
        columns: 9,
        entries: &[
            31, 11, 35, 13, 51, 58, 20, 18, 20, 51, 44, 1, 31, 22, 22, 4, 25, 29, 21, 10, 21, 40,
            0, 57, 32, 44, 5, 40, 11, 21, 1, 27, 51, 9, 8, 46, 25, 18, 57, 18, 47, 54, 21, 28, 20,
            39, 23, 48, 52, 40, 40, 11, 50, 45, 39, 16, 26, 26, 14, 8, 11, 3, 34, 23, 30, 0, 34,
            24, 5, 54, 19, 0, 36, 12, 0, 33, 39, 54, 34, 3, 10, 44, 16, 42, 39, 20, 2, 52, 31, 17,
            27, 57, 25, 12, 8, 4, 25, 31, 6, 60, 43, 19, 41, 31, 40, 26, 1, 54,
        ],
        form: &[
            1, 0, 0, 0, 0, 0, 0, 0, 0, 0, 0, 0, 0, 1, 0, 0, 0, 0, 0, 0, 0, 0, 0, 0, 0, 0, 1, 0, 0,
            0, 0, 0, 0, 0, 0, 0, 0, 0, 0, 1, 0, 0, 0, 0, 0, 0, 0, 0, 0, 0, 0, 0, 1, 0, 0, 0, 0, 0,
            0, 0, 0, 0, 0, 0, 0, 1, 0, 0, 0, 0, 0, 0, 0, 0, 5, 0, 7, 0, 0, 0, 0, 0, 0, 0, 0, 0, 0,
            0, 0, 0, 1, 0, 0, 0, 0, 0, 0, 0, 0, 0, 0, 0, 0, 1, 0, 0, 0, 0,
        ],
        pivots: &[0, 1, 2, 3, 4, 5, 7, 8],
        kernel: &[0, 0, 56, 0, 54, 0, 1, 0, 0],
        reached: &[1, 24, 3, 7, 13, 24, 29, 52, 48, 3, 41, 16],
        missed: &[23, 47, 13, 46, 23, 52, 58, 57, 10, 53, 48, 60],
    },
];
