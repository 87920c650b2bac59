//! Remainders beside those of a division; the other values were computed with SymPy and PARI.
ghost use Rattle.std.specs.Prelude.{◌≡◌, ◌<◌, ◌≤◌, All, length};

use super::*;
use std::process::Abort;

// The remainder of x by the characteristic n is that of a division.
fn is_reduced(rt: &impl Abort, n: u32, x: u16) -> bool {
    let p = Prime::of(n).expect(rt, "a characteristic");
    assert!(rt; x < 32_768 && n > 0);
    p.reduced(x) as u32 == x as u32 % n
}

#[test]
fn remainders(rt: HostRuntime) {
    for n in &CHARACTERISTICS {
        for x in &[0, 1, 60, 61, 3_599, 3_600, 16_383, 30_719, 32_766, 32_767] {
            assert!(rt; is_reduced(&rt, *n, *x), "at {n} {x}");
        }
    }
}

#[test]
fn residues(rt: HostRuntime) {
    let p = Prime::of(61).expect(&rt, "a characteristic");
    assert_eq!(rt;
        (p.add(60, 59), p.sub(1, 60), p.mul(60, 59), p.neg(1)),
        (58, 2, 2, 60)
    );
    assert_eq!(rt; (p.inv(1), p.inv(2), p.inv(47), p.inv(60)), (1, 31, 13, 60));
}

#[test]
fn characteristics(rt: HostRuntime) {
    for n in [0, 1, 4, 9, 25, 27, 33, 49, 51, 57, 63, 64, 67, 258] {
        assert!(rt; Prime::of(n).is_none(), "at {n}");
    }
    let p = Prime::of(31).expect(&rt, "a characteristic");
    assert_eq!(rt;
        (p.add(30, 30), p.sub(1, 30), p.mul(30, 29), p.neg(0)),
        (29, 2, 2, 0)
    );
    assert_eq!(rt; (p.inv(1), p.inv(2), p.inv(12), p.inv(30)), (1, 16, 13, 30));
}

// The sums with `count` products more.
fn added(mut sums: Sums<8>, list: &[u8], count: u16) -> Sums<8>
    requires prime { sums.prime ≡ 61 }
    requires list { 9 ≤ length list.now }
    requires residues { All (λ x. x < 61) list.now }
    ensures { result.prime ≡ 61 }
{
    for _i in 0..count {
        sums.add(60, list, 1);
    }
    sums
}

// 20,000 products 60 * 59 modulo 61 and one residue more: by hand, 20,000 * 60 * 59 + 7 =
// 70,800,007 = 61 * 1,160,655 + 52.
#[test]
fn sums(rt: HostRuntime) {
    let p = Prime::of(61).expect(&rt, "a characteristic");
    let sums = added(
        Sums::of(p, &[7; 8]),
        &[59, 59, 0, 59, 59, 59, 59, 59, 59],
        20_000,
    );
    assert_eq!(rt; sums.row(), [52, 7, 52, 52, 52, 52, 52, 52]);
    assert_eq!(rt; (sums.at(0), sums.at(1)), (52, 7));
}

// By hand: 1 + 3 * 1 + 60 * 60 = 3,604 = 61 * 59 + 5, and so on.
#[test]
fn rows_of_sums(rt: HostRuntime) {
    let p = Prime::of(61).expect(&rt, "a characteristic");
    let mut sums = Sums::of(p, &[1; 4]);
    sums.add_rows(&[3, 60], &[[1, 2, 3, 4], [60, 1, 0, 5]]);
    assert_eq!(rt; sums.row(), [5, 6, 10, 8]);
}

// By hand: 1 + 2 * 7 + 3 * 5 = 30, and so on.
#[test]
fn shifted_sums(rt: HostRuntime) {
    let p = Prime::of(61).expect(&rt, "a characteristic");
    let mut sums = Sums::of(p, &[1; 4]);
    sums.add_shifted(&[2, 3], &[5, 7, 11, 13, 0], 1);
    assert_eq!(rt; sums.row(), [30, 44, 60, 40]);
}
