//! Closures that were worked out by hand.
use super::*;

struct Example {
    degrees: &'static [u32],
    missing: &'static [u32],
}

const EXAMPLES: [Example; 5] = [
    Example {
        degrees: &[4, 6, 12],
        missing: &[2],
    },
    Example {
        degrees: &[8, 12, 18],
        missing: &[2, 4, 6],
    },
    Example {
        degrees: &[48],
        missing: &[],
    },
    Example {
        degrees: &[35, 21, 15],
        missing: &[1, 3, 5, 7],
    },
    Example {
        degrees: &[],
        missing: &[],
    },
];

#[test]
fn closures(rt: HostRuntime) {
    for row in &EXAMPLES {
        for d in row.degrees {
            assert!(rt; *d > 0 && *d <= 48);
        }
        let set = DegreeSet::of(row.degrees);
        let (closure, missing) = (set.closure(), set.missing());
        for d in 0..60 {
            let (given, lacks) = (row.degrees.contains(&d), row.missing.contains(&d));
            assert!(rt; set.holds(d) == given, "at {d}");
            assert!(rt; missing.holds(d) == lacks, "at {d}");
            assert!(rt; closure.holds(d) == (given || lacks), "at {d}");
        }
    }
}
