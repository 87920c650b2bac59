//! Embeddings of fields: the fields with 4, 9 and 16 elements by hand, and examples that were
//! computed with PARI.
ghost use Rattle.std.specs.Prelude.{◌≡◌, IfSome};

use crate::field_values::{field_of, value_of};
use ff_embed::{Embedding, StoredEmbedding};
use ff_field::{Field, Value};
use std::alloc::Global;
use std::mem::size_of;
use std::process::Abort;

struct Example {
    p: u32,
    from: &'static [u8],
    into: &'static [u8],
    root: &'static [u8],
    value: &'static [u8],
    image: &'static [u8],
    outside: &'static [u8],
}

// The root of the first polynomial in the second field is the image of the generator. What stands
// outside the image is the image and the generator of the second field together.
const EXAMPLES: [Example; 3] = [
    Example {
        p: 3,
        from: &[2, 1],
        into: &[1, 0, 1],
        root: &[1, 0],
        value: &[2],
        image: &[2, 0],
        outside: &[2, 1],
    },
    Example {
        p: 31,
        from: &[20, 17, 1],
        into: &[
            19, 9, 19, 3, 27, 27, 23, 0, 22, 5, 30, 12, 2, 8, 16, 8, 9, 8, 28, 2, 2, 20, 4, 2, 1,
        ],
        root: &[
            20, 2, 17, 2, 22, 18, 11, 30, 11, 18, 12, 25, 9, 19, 28, 1, 10, 1, 1, 1, 16, 10, 25, 4,
        ],
        value: &[8, 7],
        image: &[
            24, 14, 26, 14, 30, 2, 15, 24, 15, 2, 22, 20, 1, 9, 10, 7, 8, 7, 7, 7, 19, 8, 20, 28,
        ],
        outside: &[
            24, 15, 26, 14, 30, 2, 15, 24, 15, 2, 22, 20, 1, 9, 10, 7, 8, 7, 7, 7, 19, 8, 20, 28,
        ],
    },
    Example {
        p: 61,
        from: &[
            59, 22, 2, 34, 60, 40, 11, 8, 37, 14, 0, 14, 36, 51, 58, 59, 55, 42, 47, 41, 11, 18,
            10, 45, 1,
        ],
        into: &[
            42, 32, 31, 13, 43, 60, 8, 5, 16, 28, 1, 0, 50, 1, 57, 2, 37, 9, 30, 14, 60, 16, 20,
            55, 49, 21, 41, 6, 50, 60, 4, 2, 29, 57, 11, 15, 1, 25, 36, 43, 60, 3, 14, 18, 34, 41,
            16, 29, 1,
        ],
        root: &[
            5, 32, 52, 52, 49, 31, 60, 16, 42, 56, 40, 59, 18, 2, 37, 5, 13, 1, 16, 45, 49, 39, 40,
            24, 37, 56, 23, 32, 7, 39, 42, 48, 60, 13, 53, 2, 58, 51, 17, 28, 19, 30, 14, 34, 26,
            33, 0, 2,
        ],
        value: &[
            33, 28, 55, 9, 48, 52, 9, 24, 17, 48, 32, 59, 24, 58, 50, 44, 18, 22, 32, 15, 21, 30,
            9, 26,
        ],
        image: &[
            20, 48, 53, 55, 54, 9, 48, 38, 26, 7, 53, 54, 27, 27, 12, 21, 37, 34, 47, 11, 9, 13,
            20, 53, 27, 38, 45, 13, 29, 45, 23, 22, 0, 52, 57, 52, 17, 47, 6, 45, 52, 35, 49, 50,
            43, 22, 9, 47,
        ],
        outside: &[
            20, 49, 53, 55, 54, 9, 48, 38, 26, 7, 53, 54, 27, 27, 12, 21, 37, 34, 47, 11, 9, 13,
            20, 53, 27, 38, 45, 13, 29, 45, 23, 22, 0, 52, 57, 52, 17, 47, 6, 45, 52, 35, 49, 50,
            43, 22, 9, 47,
        ],
    },
];

// The embedding that sends the generator to the value with these digits.
pub(crate) fn embedded(rt: &impl Abort, from: &Field, into: &Field, root: &[u8]) -> Embedding
    ensures source { result.source ≡ from.now }
    ensures target { result.target ≡ into.now }
{
    found(rt, from, into, root).expect(rt, "a root")
}

// The same where it is a root.
fn found(rt: &impl Abort, from: &Field, into: &Field, root: &[u8]) -> Option<Embedding>
    ensures source { IfSome result (λ e. e.source ≡ from.now) }
    ensures target { IfSome result (λ e. e.target ≡ into.now) }
{
    assert!(rt; from.prime().number() == into.prime().number());
    let v = value_of(rt, into, root);
    Embedding::of_root(from, into, &v)
}

// Whether there is a value with these digits.
fn is_value(value: &Option<Value>, digits: &[u8]) -> bool {
    match value {
        Some(v) => v.digits() == digits,
        None => false,
    }
}

// Whether images and preimages are those of the example.
fn has_images(rt: &impl Abort, row: &Example) -> bool {
    let from = field_of(rt, row.p, row.from);
    let into = field_of(rt, row.p, row.into);
    let map = embedded(rt, &from, &into, row.root);
    let value = value_of(rt, &from, row.value);
    let image = map.apply(&value);
    let outside = value_of(rt, &into, row.outside);
    map.image().digits() == row.root
        && image.digits() == row.image
        && is_value(&map.preimage(&image), row.value)
        && map.preimage(&outside).is_none()
}

#[test]
fn images_and_preimages(rt: HostRuntime) {
    for row in &EXAMPLES {
        assert!(rt; has_images(&rt, row));
    }
}

// The embedding of the example as it is stored.
fn stored(rt: &impl Abort, alloc: Global, row: &Example) -> StoredEmbedding {
    let from = field_of(rt, row.p, row.from);
    let into = field_of(rt, row.p, row.into);
    let map = embedded(rt, &from, &into, row.root);
    StoredEmbedding::of(alloc, &map).expect(rt, "memory")
}

#[test]
fn stored_embeddings_are_the_same(rt: HostRuntime) {
    for row in &EXAMPLES {
        let map = stored(&rt, rt.alloc(), row);
        let copy = map.copy().expect(&rt, "memory");
        assert_eq!(rt; map.image().digits(), row.root);
        assert_eq!(rt; copy.embedding().image().digits(), row.root);
    }
}

#[test]
fn parts(rt: HostRuntime) {
    for row in &EXAMPLES {
        let from = field_of(&rt, row.p, row.from);
        let into = field_of(&rt, row.p, row.into);
        let map = embedded(&rt, &from, &into, row.root).copy();
        assert!(rt; map.prime().number() == from.prime().number());
        assert_eq!(rt; map.source_degree() as usize + 1, row.from.len());
        assert_eq!(rt; map.target_degree() as usize + 1, row.into.len());
        assert_eq!(rt; map.source_poly().coefficients(), row.from);
        assert_eq!(rt; map.target_poly().coefficients(), row.into);
        assert_eq!(rt; map.source().poly().coefficients(), row.from);
        assert_eq!(rt; map.target().poly().coefficients(), row.into);
    }
}

#[test]
fn four_in_sixteen(rt: HostRuntime) {
    let k = field_of(&rt, 2, &[1, 1, 1]);
    let l = field_of(&rt, 2, &[1, 1, 0, 0, 1]);
    let map = embedded(&rt, &k, &l, &[0, 1, 1, 0]);
    assert!(rt; found(&rt, &k, &l, &[0, 1, 0, 0]).is_none());
    let image = value_of(&rt, &l, &[0, 1, 1, 0]);
    assert!(rt; is_value(&map.preimage(&image), &[0, 1]));
    let generator = value_of(&rt, &l, &[0, 1, 0, 0]);
    assert!(rt; map.preimage(&generator).is_none());
}

#[test]
fn compositions(rt: HostRuntime) {
    let k = field_of(&rt, 2, &[1, 1, 1]);
    let l = field_of(&rt, 2, &[1, 1, 0, 0, 1]);
    let m = field_of(&rt, 2, &[1, 0, 0, 1, 1]);
    let k_to_l = embedded(&rt, &k, &l, &[0, 1, 1, 0]);
    let l_to_m = embedded(&rt, &l, &m, &[0, 0, 1, 1]);
    let k_to_m = k_to_l.compose(&l_to_m);
    assert_eq!(rt; k_to_m.image().digits(), [0, 1, 0, 1].as_slice());
    assert!(rt; l_to_m.source_degree() % k_to_m.source_degree() == 0);
    let through = Embedding::through(&k_to_m, &l_to_m);
    assert_eq!(rt; through.image().digits(), [0, 1, 1, 0].as_slice());
}

#[test]
fn inverses_and_identities(rt: HostRuntime) {
    let l = field_of(&rt, 2, &[1, 1, 0, 0, 1]);
    let m = field_of(&rt, 2, &[1, 0, 0, 1, 1]);
    let l_to_m = embedded(&rt, &l, &m, &[0, 0, 1, 1]);
    assert!(rt; l_to_m.source_degree() == l_to_m.target_degree());
    assert_eq!(rt; l_to_m.invert().image().digits(), [1, 0, 0, 1].as_slice());
    let a = field_of(&rt, 3, &[1, 0, 1]);
    let b = field_of(&rt, 3, &[2, 1, 1]);
    let a_to_b = embedded(&rt, &a, &b, &[2, 1]);
    assert!(rt; a_to_b.source_degree() == a_to_b.target_degree());
    assert_eq!(rt; a_to_b.invert().image().digits(), [1, 1].as_slice());
    assert_eq!(rt;
        Embedding::identity(&l).image().digits(),
        [0, 1, 0, 0].as_slice()
    );
    let prime_field = field_of(&rt, 2, &[0, 1]);
    assert_eq!(rt;
        Embedding::identity(&prime_field).image().digits(),
        [0].as_slice()
    );
}

#[test]
fn an_embedding_is_small(rt: HostRuntime) {
    assert!(rt; size_of::<Embedding>() <= 5000);
}
