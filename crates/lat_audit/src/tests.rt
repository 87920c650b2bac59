//! Dumps of the opening lattices, written out.

use super::*;
use lat_core::{Edition, Lattice};
use std::test::Fail;

const FIRST: &[u8] = b"lattice-dump 1
fields 11
field 0 F2 2 0,1
field 1 F3 3 0,1
field 2 F5 5 0,1
field 3 F7 7 0,1
field 4 F11 11 0,1
field 5 F13 13 0,1
field 6 F17 17 0,1
field 7 F19 19 0,1
field 8 F23 23 0,1
field 9 F29 29 0,1
field 10 F31 31 0,1
maps 11
map 0 0 0
map 1 1 0
map 2 2 0
map 3 3 0
map 4 4 0
map 5 5 0
map 6 6 0
map 7 7 0
map 8 8 0
map 9 9 0
map 10 10 0
end
";

const SECOND: &[u8] = b"lattice-dump 2
fields 18
field 0 F2 2 0,1
field 1 F3 3 0,1
field 2 F5 5 0,1
field 3 F7 7 0,1
field 4 F11 11 0,1
field 5 F13 13 0,1
field 6 F17 17 0,1
field 7 F19 19 0,1
field 8 F23 23 0,1
field 9 F29 29 0,1
field 10 F31 31 0,1
field 11 F37 37 0,1
field 12 F41 41 0,1
field 13 F43 43 0,1
field 14 F47 47 0,1
field 15 F53 53 0,1
field 16 F59 59 0,1
field 17 F61 61 0,1
maps 18
map 0 0 0
map 1 1 0
map 2 2 0
map 3 3 0
map 4 4 0
map 5 5 0
map 6 6 0
map 7 7 0
map 8 8 0
map 9 9 0
map 10 10 0
map 11 11 0
map 12 12 0
map 13 13 0
map 14 14 0
map 15 15 0
map 16 16 0
map 17 17 0
end
";

#[test]
fn opening_of_the_first_edition(rt: HostRuntime) -> Result<(), Fail> {
    let lattice = Lattice::open(rt.alloc(), Edition::One)?;
    assert!(rt; write_dump(rt.alloc(), &lattice)?.as_slice() == FIRST);
    Ok(())
}

#[test]
fn opening_of_the_second_edition(rt: HostRuntime) -> Result<(), Fail> {
    let lattice = Lattice::open(rt.alloc(), Edition::Two)?;
    assert!(rt; write_dump(rt.alloc(), &lattice)?.as_slice() == SECOND);
    Ok(())
}
