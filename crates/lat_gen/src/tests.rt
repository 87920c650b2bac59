//! Generated scripts against texts that another program worked out.

ghost use Rattle.std.specs.Prelude.{◌<◌, ◌≤◌};
ghost use Rattle.lat_gen.specs.declared.scripts.TheConstants.{MAX_GENERATED_FIELDS, MAX_GENERATED_EMBEDS};

use super::*;
use lat_language::print_script;
use std::alloc::Global;
use std::test::Fail;

fn printed(alloc: Global, seed: u64, fields: u32, embeds: u32) -> Result<Vec<u8>, Fail>
    requires some { 0 < fields }
    requires fields { fields ≤ MAX_GENERATED_FIELDS }
    requires embeds { embeds ≤ MAX_GENERATED_EMBEDS }
{
    let script = script_of(alloc, seed, fields, embeds)?;
    let text = print_script(alloc, &script)?;
    Ok(text)
}

#[test]
fn one_field(rt: HostRuntime) -> Result<(), Fail> {
    let text = b"lattice 1\nfield G0 3 1,0,1\nsession a\nembed G0 into G0\nsession b\nsession c\n\
        session d\n";
    assert_eq!(rt; printed(rt.alloc(), 1, 1, 1)?.as_slice(), text.as_slice());
    Ok(())
}

#[test]
fn greatest_seed(rt: HostRuntime) -> Result<(), Fail> {
    let text = b"lattice 1\nfield G0 2 1,1,1\nfield G1 3 2,1,1\n\
        field G2 2 1,0,0,1,0,0,0,0,0,0,0,0,1\nsession a\nembed G2 into G0\nembed G2 into G2\n\
        session b\nembed G2 into G0\nsession c\nembed G2 into G1\nsession d\nembed G2 into G2\n";
    assert_eq!(rt;
        printed(rt.alloc(), u64::MAX, 3, 5)?.as_slice(),
        text.as_slice()
    );
    Ok(())
}

#[test]
fn many_fields(rt: HostRuntime) -> Result<(), Fail> {
    let first = b"lattice 1\nfield G0 3 1,0,1\nfield G1 3 2,1,1\nfield G2 2 1,1,0,1\n\
        field G3 2 1,1,0,1\nfield G4 2 1,1,0,1\nfield G5 2 1,0,0,1,1\nfield G6 2 1,1,1\n\
        field G7 2 1,0,0,1,0,0,1\nfield G8 2 1,0,0,1,1\nfield G9 3 1,0,1\nfield G10 2 1,0,0,1,1\n";
    assert!(rt; printed(rt.alloc(), 7, 60, 400)?.starts_with(first));
    Ok(())
}
