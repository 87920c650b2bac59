//! Verdicts on texts.

use super::*;
use std::alloc::Global;
use std::test::Fail;

// The line of the verdict.
fn shown(alloc: Global, text: &[u8]) -> VerdictLine {
    verdict_line(&audit(alloc, text))
}

#[test]
fn cut_before_end(rt: HostRuntime) -> Result<(), Fail> {
    assert_eq!(rt;
        shown(
            rt.alloc(),
            b"lattice-dump 1
fields 12
field 0 F2 2 0,1
field 1 F3 3 0,1
field 2 F5 5 0,1
field 3 F7 7 0,1
field 4 F11 11 0,1
field 5 F13 13 0,1
field 6 F17 17 0,1
field 7 F19 19 0,1
field 8 F23 23 0,1
field 9 F29 29 0,1
field 10 F31 31 0,1
field 11 K 2 1,1,1
maps 13
map 0 0 0
map 0 11 0,0
map 1 1 0
map 2 2 0
map 3 3 0
map 4 4 0
map 5 5 0
map 6 6 0
map 7 7 0
map 8 8 0
map 9 9 0
map 10 10 0
map 11 11 0,1
"
        )
        .bytes(),
        b"bad text 29\n".as_slice()
    );
    Ok(())
}

#[test]
fn fewer_maps_than_said(rt: HostRuntime) -> Result<(), Fail> {
    assert_eq!(rt;
        shown(
            rt.alloc(),
            b"lattice-dump 1
fields 12
field 0 F2 2 0,1
field 1 F3 3 0,1
field 2 F5 5 0,1
field 3 F7 7 0,1
field 4 F11 11 0,1
field 5 F13 13 0,1
field 6 F17 17 0,1
field 7 F19 19 0,1
field 8 F23 23 0,1
field 9 F29 29 0,1
field 10 F31 31 0,1
field 11 K 2 1,1,1
maps 13
map 0 0 0
map 1 1 0
map 2 2 0
map 3 3 0
map 4 4 0
map 5 5 0
map 6 6 0
map 7 7 0
map 8 8 0
map 9 9 0
map 10 10 0
map 11 11 0,1
end
"
        )
        .bytes(),
        b"bad text 28\n".as_slice()
    );
    Ok(())
}

#[test]
fn identity_turned(rt: HostRuntime) -> Result<(), Fail> {
    assert_eq!(rt;
        shown(
            rt.alloc(),
            b"lattice-dump 1
fields 12
field 0 F2 2 0,1
field 1 F3 3 0,1
field 2 F5 5 0,1
field 3 F7 7 0,1
field 4 F11 11 0,1
field 5 F13 13 0,1
field 6 F17 17 0,1
field 7 F19 19 0,1
field 8 F23 23 0,1
field 9 F29 29 0,1
field 10 F31 31 0,1
field 11 K 2 1,1,1
maps 13
map 0 0 0
map 0 11 0,0
map 1 1 0
map 2 2 0
map 3 3 0
map 4 4 0
map 5 5 0
map 6 6 0
map 7 7 0
map 8 8 0
map 9 9 0
map 10 10 0
map 11 11 1,1
end
"
        )
        .bytes(),
        b"bad rule 2 11 11 11\n".as_slice()
    );
    Ok(())
}

#[test]
fn image_coefficient_too_large(rt: HostRuntime) -> Result<(), Fail> {
    assert_eq!(rt;
        shown(
            rt.alloc(),
            b"lattice-dump 1
fields 12
field 0 F2 2 0,1
field 1 F3 3 0,1
field 2 F5 5 0,1
field 3 F7 7 0,1
field 4 F11 11 0,1
field 5 F13 13 0,1
field 6 F17 17 0,1
field 7 F19 19 0,1
field 8 F23 23 0,1
field 9 F29 29 0,1
field 10 F31 31 0,1
field 11 K 2 1,1,1
maps 13
map 0 0 0
map 0 11 0,2
map 1 1 0
map 2 2 0
map 3 3 0
map 4 4 0
map 5 5 0
map 6 6 0
map 7 7 0
map 8 8 0
map 9 9 0
map 10 10 0
map 11 11 0,1
end
"
        )
        .bytes(),
        b"bad text 17\n".as_slice()
    );
    Ok(())
}

#[test]
fn image_no_root(rt: HostRuntime) -> Result<(), Fail> {
    assert_eq!(rt;
        shown(
            rt.alloc(),
            b"lattice-dump 1
fields 12
field 0 F2 2 0,1
field 1 F3 3 0,1
field 2 F5 5 0,1
field 3 F7 7 0,1
field 4 F11 11 0,1
field 5 F13 13 0,1
field 6 F17 17 0,1
field 7 F19 19 0,1
field 8 F23 23 0,1
field 9 F29 29 0,1
field 10 F31 31 0,1
field 11 K 2 1,1,1
maps 13
map 0 0 0
map 0 11 0,0
map 1 1 0
map 2 2 0
map 3 3 0
map 4 4 0
map 5 5 0
map 6 6 0
map 7 7 0
map 8 8 0
map 9 9 0
map 10 10 0
map 11 11 1,0
end
"
        )
        .bytes(),
        b"bad map 11 11\n".as_slice()
    );
    Ok(())
}

#[test]
fn meeting_field_missing(rt: HostRuntime) -> Result<(), Fail> {
    assert_eq!(rt;
        shown(
            rt.alloc(),
            b"lattice-dump 1
fields 14
field 0 F2 2 0,1
field 1 F3 3 0,1
field 2 F5 5 0,1
field 3 F7 7 0,1
field 4 F11 11 0,1
field 5 F13 13 0,1
field 6 F17 17 0,1
field 7 F19 19 0,1
field 8 F23 23 0,1
field 9 F29 29 0,1
field 10 F31 31 0,1
field 11 Q 2 1,1,0,0,1
field 12 S 2 1,0,0,1,0,0,1
field 13 D 2 1,0,0,1,0,0,0,0,0,0,0,0,1
maps 19
map 0 0 0
map 0 11 0,0,0,0
map 0 12 0,0,0,0,0,0
map 0 13 0,0,0,0,0,0,0,0,0,0,0,0
map 1 1 0
map 2 2 0
map 3 3 0
map 4 4 0
map 5 5 0
map 6 6 0
map 7 7 0
map 8 8 0
map 9 9 0
map 10 10 0
map 11 11 0,1,0,0
map 11 13 0,0,0,1,0,0,0,0,0,0,0,0
map 12 12 0,1,0,0,0,0
map 12 13 0,0,0,0,0,1,0,0,0,0,0,0
map 13 13 0,1,0,0,0,0,0,0,0,0,0,0
end
"
        )
        .bytes(),
        b"bad rule 6 11 12 13\n".as_slice()
    );
    Ok(())
}

#[test]
fn name_twice(rt: HostRuntime) -> Result<(), Fail> {
    assert_eq!(rt;
        shown(
            rt.alloc(),
            b"lattice-dump 1
fields 12
field 0 F2 2 0,1
field 1 F3 3 0,1
field 2 F5 5 0,1
field 3 F7 7 0,1
field 4 F11 11 0,1
field 5 F13 13 0,1
field 6 F17 17 0,1
field 7 F19 19 0,1
field 8 F23 23 0,1
field 9 F29 29 0,1
field 10 F31 31 0,1
field 11 F2 2 1,1,1
maps 13
map 0 0 0
map 0 11 0,0
map 1 1 0
map 2 2 0
map 3 3 0
map 4 4 0
map 5 5 0
map 6 6 0
map 7 7 0
map 8 8 0
map 9 9 0
map 10 10 0
map 11 11 0,1
end
"
        )
        .bytes(),
        b"bad text 14\n".as_slice()
    );
    Ok(())
}

#[test]
fn prime_map_missing(rt: HostRuntime) -> Result<(), Fail> {
    assert_eq!(rt;
        shown(
            rt.alloc(),
            b"lattice-dump 1
fields 12
field 0 F2 2 0,1
field 1 F3 3 0,1
field 2 F5 5 0,1
field 3 F7 7 0,1
field 4 F11 11 0,1
field 5 F13 13 0,1
field 6 F17 17 0,1
field 7 F19 19 0,1
field 8 F23 23 0,1
field 9 F29 29 0,1
field 10 F31 31 0,1
field 11 K 2 1,1,1
maps 12
map 0 0 0
map 1 1 0
map 2 2 0
map 3 3 0
map 4 4 0
map 5 5 0
map 6 6 0
map 7 7 0
map 8 8 0
map 9 9 0
map 10 10 0
map 11 11 0,1
end
"
        )
        .bytes(),
        b"bad rule 3 0 11 11\n".as_slice()
    );
    Ok(())
}

#[test]
fn quadratic(rt: HostRuntime) -> Result<(), Fail> {
    assert_eq!(rt;
        shown(
            rt.alloc(),
            b"lattice-dump 1
fields 12
field 0 F2 2 0,1
field 1 F3 3 0,1
field 2 F5 5 0,1
field 3 F7 7 0,1
field 4 F11 11 0,1
field 5 F13 13 0,1
field 6 F17 17 0,1
field 7 F19 19 0,1
field 8 F23 23 0,1
field 9 F29 29 0,1
field 10 F31 31 0,1
field 11 K 2 1,1,1
maps 13
map 0 0 0
map 0 11 0,0
map 1 1 0
map 2 2 0
map 3 3 0
map 4 4 0
map 5 5 0
map 6 6 0
map 7 7 0
map 8 8 0
map 9 9 0
map 10 10 0
map 11 11 0,1
end
"
        )
        .bytes(),
        b"good\n".as_slice()
    );
    Ok(())
}

#[test]
fn reducible_polynomial(rt: HostRuntime) -> Result<(), Fail> {
    assert_eq!(rt;
        shown(
            rt.alloc(),
            b"lattice-dump 1
fields 12
field 0 F2 2 0,1
field 1 F3 3 0,1
field 2 F5 5 0,1
field 3 F7 7 0,1
field 4 F11 11 0,1
field 5 F13 13 0,1
field 6 F17 17 0,1
field 7 F19 19 0,1
field 8 F23 23 0,1
field 9 F29 29 0,1
field 10 F31 31 0,1
field 11 K 2 1,0,1
maps 13
map 0 0 0
map 0 11 0,0
map 1 1 0
map 2 2 0
map 3 3 0
map 4 4 0
map 5 5 0
map 6 6 0
map 7 7 0
map 8 8 0
map 9 9 0
map 10 10 0
map 11 11 0,1
end
"
        )
        .bytes(),
        b"bad field 11\n".as_slice()
    );
    Ok(())
}

#[test]
fn triangle_broken(rt: HostRuntime) -> Result<(), Fail> {
    assert_eq!(rt;
        shown(
            rt.alloc(),
            b"lattice-dump 1
fields 14
field 0 F2 2 0,1
field 1 F3 3 0,1
field 2 F5 5 0,1
field 3 F7 7 0,1
field 4 F11 11 0,1
field 5 F13 13 0,1
field 6 F17 17 0,1
field 7 F19 19 0,1
field 8 F23 23 0,1
field 9 F29 29 0,1
field 10 F31 31 0,1
field 11 K 2 1,1,1
field 12 L 2 1,1,0,0,1
field 13 M 2 1,0,0,1,1
maps 21
map 0 0 0
map 0 11 0,0
map 0 12 0,0,0,0
map 0 13 0,0,0,0
map 1 1 0
map 2 2 0
map 3 3 0
map 4 4 0
map 5 5 0
map 6 6 0
map 7 7 0
map 8 8 0
map 9 9 0
map 10 10 0
map 11 11 0,1
map 11 12 0,1,1,0
map 11 13 0,1,0,1
map 12 12 0,1,0,0
map 12 13 0,1,1,0
map 13 12 1,1,0,1
map 13 13 0,1,0,0
end
"
        )
        .bytes(),
        b"bad rule 5 11 12 13\n".as_slice()
    );
    Ok(())
}

#[test]
fn with_isomorphism(rt: HostRuntime) -> Result<(), Fail> {
    assert_eq!(rt;
        shown(
            rt.alloc(),
            b"lattice-dump 1
fields 14
field 0 F2 2 0,1
field 1 F3 3 0,1
field 2 F5 5 0,1
field 3 F7 7 0,1
field 4 F11 11 0,1
field 5 F13 13 0,1
field 6 F17 17 0,1
field 7 F19 19 0,1
field 8 F23 23 0,1
field 9 F29 29 0,1
field 10 F31 31 0,1
field 11 K 2 1,1,1
field 12 L 2 1,1,0,0,1
field 13 M 2 1,0,0,1,1
maps 21
map 0 0 0
map 0 11 0,0
map 0 12 0,0,0,0
map 0 13 0,0,0,0
map 1 1 0
map 2 2 0
map 3 3 0
map 4 4 0
map 5 5 0
map 6 6 0
map 7 7 0
map 8 8 0
map 9 9 0
map 10 10 0
map 11 11 0,1
map 11 12 0,1,1,0
map 11 13 0,1,0,1
map 12 12 0,1,0,0
map 12 13 0,0,1,1
map 13 12 1,0,0,1
map 13 13 0,1,0,0
end
"
        )
        .bytes(),
        b"good\n".as_slice()
    );
    Ok(())
}

#[test]
fn with_made_field(rt: HostRuntime) -> Result<(), Fail> {
    assert_eq!(rt;
        shown(
            rt.alloc(),
            b"lattice-dump 1
fields 15
field 0 F2 2 0,1
field 1 F3 3 0,1
field 2 F5 5 0,1
field 3 F7 7 0,1
field 4 F11 11 0,1
field 5 F13 13 0,1
field 6 F17 17 0,1
field 7 F19 19 0,1
field 8 F23 23 0,1
field 9 F29 29 0,1
field 10 F31 31 0,1
field 11 Q 2 1,1,0,0,1
field 12 S 2 1,0,0,1,0,0,1
field 13 D 2 1,0,0,1,0,0,0,0,0,0,0,0,1
field 14 _14 2 1,1,1
maps 24
map 0 0 0
map 0 11 0,0,0,0
map 0 12 0,0,0,0,0,0
map 0 13 0,0,0,0,0,0,0,0,0,0,0,0
map 0 14 0,0
map 1 1 0
map 2 2 0
map 3 3 0
map 4 4 0
map 5 5 0
map 6 6 0
map 7 7 0
map 8 8 0
map 9 9 0
map 10 10 0
map 11 11 0,1,0,0
map 11 13 0,0,0,1,0,0,0,0,0,0,0,0
map 12 12 0,1,0,0,0,0
map 12 13 0,0,0,0,0,1,0,0,0,0,0,0
map 13 13 0,1,0,0,0,0,0,0,0,0,0,0
map 14 11 0,1,1,0
map 14 12 0,0,0,1,0,0
map 14 13 0,0,0,1,0,0,1,0,0,0,0,0
map 14 14 0,1
end
"
        )
        .bytes(),
        b"good\n".as_slice()
    );
    Ok(())
}
