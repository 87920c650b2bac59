//! Runs of `audit`.
ghost use Rattle.std.specs.Prelude.{◌≤◌};

use super::{QUADRATIC_DUMP, expect, sink, source, words};
use crate::status::{BAD_DUMP, BAD_SCRIPT, DONE, READ_FAILED, WRITE_FAILED};
use lat_audit::MAX_DUMP;
use std::alloc::Global;
use std::process::Abort;
use std::test::Fail;

// Judges the input, which the source gives in such pieces, into a sink of this room.
fn expect_verdict(
    rt: &impl Abort,
    alloc: Global,
    input: &[u8],
    piece: usize,
    room: usize,
    status: u8,
    held: &[u8],
) -> Result<(), Fail>
    requires { 1 ≤ piece }
{
    let audit = words(alloc, &["audit"])?;
    let source = source(alloc, input, piece, &[])?;
    let sink = sink(alloc, room, 100, &[])?;
    expect(rt, &audit, source, sink, alloc, status, held);
    Ok(())
}

#[test]
fn judges_dumps(rt: HostRuntime) -> Result<(), Fail> {
    let alloc = rt.alloc();
    expect_verdict(&rt, alloc, QUADRATIC_DUMP, 100, 100, DONE, b"good\n")?;
    expect_verdict(&rt, alloc, QUADRATIC_DUMP, 1, 5, DONE, b"good\n")?;
    // without the last line
    let cut = &QUADRATIC_DUMP[..393];
    expect_verdict(&rt, alloc, cut, 100, 100, BAD_DUMP, b"bad text 29\n")?;
    expect_verdict(&rt, alloc, b"", 100, 100, BAD_DUMP, b"bad text 1\n")
}

#[test]
fn judges_up_to_the_limit(rt: HostRuntime) -> Result<(), Fail> {
    let alloc = rt.alloc();
    let most = vec![in alloc; b'a'; MAX_DUMP]?;
    expect_verdict(&rt, alloc, &most, 65_536, 100, BAD_DUMP, b"bad text 1\n")?;
    let more = vec![in alloc; b'a'; MAX_DUMP + 1]?;
    let line = b"bad dump longer than 8388608 bytes\n";
    expect_verdict(&rt, alloc, &more, 65_536, 100, BAD_SCRIPT, line)
}

// Nothing is written of a dump that isn't read, and the beginning of a line that isn't written.
#[test]
fn meets_failures(rt: HostRuntime) -> Result<(), Fail> {
    let alloc = rt.alloc();
    let audit = words(alloc, &["audit"])?;
    let failing = source(alloc, QUADRATIC_DUMP, 100, &[2])?;
    let room = sink(alloc, 100, 100, &[])?;
    expect(&rt, &audit, failing, room, alloc, READ_FAILED, b"");
    expect_verdict(&rt, alloc, QUADRATIC_DUMP, 100, 3, WRITE_FAILED, b"goo")?;
    expect_verdict(&rt, alloc, b"end\n", 100, 7, WRITE_FAILED, b"bad tex")
}
