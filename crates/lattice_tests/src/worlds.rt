//! Members below a field of 2^12 elements: roots and maps that were computed with PARI.
ghost use Rattle.std.specs.Prelude.{◌≡◌};

use crate::embeddings::embedded;
use crate::field_values::field_of;
use ff_embed::StoredEmbedding;
use ff_field::Field;
use lat_world::{Member, World};
use std::alloc::Global;
use std::process::Abort;

// The field modulo 1 + x^3 + x^12.
const TARGET: &[u8] = &[1, 0, 0, 1, 0, 0, 0, 0, 0, 0, 0, 0, 1];

struct Subfield {
    polynomial: &'static [u8],
    root: &'static [u8],
}

// Two of degree 4, and one each of degrees 6 and 2.
const SUBFIELDS: [Subfield; 4] = [
    Subfield {
        polynomial: &[1, 1, 0, 0, 1],
        root: &[1, 0, 0, 1],
    },
    Subfield {
        polynomial: &[1, 0, 0, 1, 1],
        root: &[1, 0, 0, 0, 0, 0, 1, 0, 0, 1],
    },
    Subfield {
        polynomial: &[1, 1, 0, 1, 1, 0, 1],
        root: &[1, 1, 0, 0, 0, 0, 0, 1, 0, 0, 1],
    },
    Subfield {
        polynomial: &[1, 1, 1],
        root: &[0, 0, 0, 1, 0, 0, 1],
    },
];

struct Forced {
    from: usize,
    into: usize,
    image: Option<&'static [u8]>,
}

// The images of the generators.
const FORCED: [Forced; 8] = [
    Forced {
        from: 0,
        into: 0,
        image: Some(&[0, 1, 0, 0]),
    },
    Forced {
        from: 1,
        into: 0,
        image: Some(&[1, 1, 0, 1]),
    },
    Forced {
        from: 0,
        into: 1,
        image: Some(&[0, 1, 1, 0]),
    },
    Forced {
        from: 3,
        into: 0,
        image: Some(&[0, 1, 1, 0]),
    },
    Forced {
        from: 3,
        into: 1,
        image: Some(&[1, 1, 0, 1]),
    },
    Forced {
        from: 3,
        into: 2,
        image: Some(&[0, 1, 1, 1, 0, 0]),
    },
    Forced {
        from: 0,
        into: 2,
        image: None,
    },
    Forced {
        from: 0,
        into: 3,
        image: None,
    },
];

// The member of this number, by a root.
fn member(rt: &impl Abort, alloc: Global, number: u32, row: &Subfield, target: &Field) -> Member
    ensures number { result.number ≡ number }
    ensures target { result.map.target ≡ target.now }
{
    let from = field_of(rt, 2, row.polynomial);
    let map = embedded(rt, &from, target, row.root);
    Member {
        number,
        map: StoredEmbedding::of(alloc, &map).expect(rt, "memory"),
    }
}

#[test]
fn forced_maps(rt: HostRuntime) {
    let target = field_of(&rt, 2, TARGET);
    let members = [
        member(&rt, rt.alloc(), 0, &SUBFIELDS[0], &target),
        member(&rt, rt.alloc(), 1, &SUBFIELDS[1], &target),
        member(&rt, rt.alloc(), 2, &SUBFIELDS[2], &target),
        member(&rt, rt.alloc(), 3, &SUBFIELDS[3], &target),
    ];
    let world = World::of(&members);
    for row in &FORCED {
        assert!(rt; row.from < 4 && row.into < 4);
        let forced = world.forced(rt.alloc(), row.from, row.into);
        match (forced.expect(&rt, "memory"), row.image) {
            (Some(map), Some(image)) => assert_eq!(rt; map.image().digits(), image),
            (None, None) => {}
            _ => panic!(rt; "an answer exactly where degrees divide"),
        }
    }
}

#[test]
fn missing_degrees(rt: HostRuntime) {
    let target = field_of(&rt, 2, TARGET);
    let members = [
        member(&rt, rt.alloc(), 0, &SUBFIELDS[0], &target),
        member(&rt, rt.alloc(), 1, &SUBFIELDS[2], &target),
    ];
    let missing = World::of(&members).missing();
    for d in 0..60 {
        assert!(rt; missing.holds(d) == (d == 2), "at {d}");
    }
}
