//! Runs over memory: the words, the source and the sink of each, and the status and the bytes that
//! come of it.
ghost use Rattle.std.specs.Prelude.{◌≤◌};

mod audits;
mod shares;

use crate::run_with;
use crate::status::{BAD_SCRIPT, DONE, NO_COMMAND, READ_FAILED, WRITE_FAILED};
use lat_io::{MemorySink, MemorySource, Sink, Source, StdSink, StdSource, read_all};
use program_ops::{artin_schreier_table, square_table, successor_table};
use std::alloc::Global;
use std::process::Abort;
use std::test::Fail;

const QUADRATIC: &[u8] = b"lattice 1\nfield K 2 1,1,1\n";

const QUADRATIC_TEXT: &[u8] = b"ok field 11 @0\nsummary fields 12 maps 13 changes 1\n";

// The dump of the lattice after this declaration.
const QUADRATIC_DUMP: &[u8] = b"lattice-dump 1\nfields 12\nfield 0 F2 2 0,1\nfield 1 F3 3 0,1\n\
    field 2 F5 5 0,1\nfield 3 F7 7 0,1\nfield 4 F11 11 0,1\nfield 5 F13 13 0,1\n\
    field 6 F17 17 0,1\nfield 7 F19 19 0,1\nfield 8 F23 23 0,1\nfield 9 F29 29 0,1\n\
    field 10 F31 31 0,1\nfield 11 K 2 1,1,1\nmaps 13\nmap 0 0 0\nmap 0 11 0,0\n\
    map 1 1 0\nmap 2 2 0\nmap 3 3 0\nmap 4 4 0\nmap 5 5 0\nmap 6 6 0\nmap 7 7 0\n\
    map 8 8 0\nmap 9 9 0\nmap 10 10 0\nmap 11 11 0,1\nend\n";

const USAGE: &[u8] = b"usage: lattice_tool solo|share|dump|audit|gen SEED FIELDS EMBEDS\n";

// The words of a run.
fn words(alloc: Global, texts: &[&str]) -> Result<Vec<String>, Fail> {
    let mut words = Vec::new(alloc);
    for text in texts {
        words.push(String::from_str(alloc, text)?)?;
    }
    Ok(words)
}

// A source of these bytes, in pieces.
fn source(alloc: Global, bytes: &[u8], piece: usize, fails: &[u32]) -> Result<MemorySource, Fail>
    requires { 1 ≤ piece }
{
    let bytes = Vec::from_slice(alloc, bytes)?;
    Ok(MemorySource::new(bytes, piece, Vec::from_slice(alloc, fails)?))
}

// A sink with this room, which takes pieces.
fn sink(alloc: Global, room: usize, piece: usize, fails: &[u32]) -> Result<MemorySink, Fail>
    requires { 1 ≤ piece }
{
    Ok(MemorySink::open(alloc, room, piece, Vec::from_slice(alloc, fails)?)?)
}

// Runs with the operations of the program.
fn run<S: Source, K: Sink>(alloc: Global, words: &[String], source: &mut S, sink: &mut K) -> u8 {
    run_with(
        alloc,
        words,
        source,
        sink,
        (square_table(), |field, a| field.mul(a, a)),
        (
            artin_schreier_table(),
            |field, a| { field.add(&field.frob(a), &field.neg(a)) },
        ),
        (successor_table(), |field, a| field.add(a, &field.one())),
    )
}

// Runs with these words, this source and this sink, which is then to hold the expected bytes.
fn expect(
    rt: &impl Abort,
    words: &[String],
    mut source: MemorySource,
    mut sink: MemorySink,
    alloc: Global,
    status: u8,
    held: &[u8],
) {
    assert_eq!(rt; run(alloc, words, &mut source, &mut sink), status);
    assert_eq!(rt; sink.bytes(), held);
}

// Plays the input with ample room, in pieces of 100 bytes.
fn expect_solo(
    rt: &impl Abort,
    alloc: Global,
    input: &[u8],
    status: u8,
    held: &[u8],
) -> Result<(), Fail> {
    let solo = words(alloc, &["solo"])?;
    let source = source(alloc, input, 100, &[])?;
    let sink = sink(alloc, 1000, 100, &[])?;
    expect(rt, &solo, source, sink, alloc, status, held);
    Ok(())
}

// Runs with words for which nothing is read, into a sink of this room: the source still gives all
// of its bytes.
fn expect_unread(
    rt: &impl Abort,
    alloc: Global,
    texts: &[&str],
    room: usize,
    status: u8,
    held: &[u8],
) -> Result<(), Fail> {
    let words = words(alloc, texts)?;
    let mut source = source(alloc, QUADRATIC, 100, &[])?;
    let mut sink = sink(alloc, room, 100, &[])?;
    assert_eq!(rt; run(alloc, &words, &mut source, &mut sink), status);
    assert_eq!(rt; sink.bytes(), held);
    assert_eq!(rt; read_all(alloc, &mut source, 100)?.as_slice(), QUADRATIC);
    Ok(())
}

// Runs with words that name no task.
fn expect_usage(rt: &impl Abort, alloc: Global, texts: &[&str]) -> Result<(), Fail> {
    expect_unread(rt, alloc, texts, 1000, NO_COMMAND, USAGE)
}

// Plays one declaration from a source in such pieces, whose calls of these numbers fail.
fn expect_read(
    rt: &impl Abort,
    alloc: Global,
    piece: usize,
    fails: &[u32],
    status: u8,
    held: &[u8],
) -> Result<(), Fail>
    requires { 1 ≤ piece }
{
    let solo = words(alloc, &["solo"])?;
    let source = source(alloc, QUADRATIC, piece, fails)?;
    let sink = sink(alloc, 1000, 100, &[])?;
    expect(rt, &solo, source, sink, alloc, status, held);
    Ok(())
}

// Plays one declaration into a sink of this room that takes such pieces, whose calls of these
// numbers fail.
fn expect_write(
    rt: &impl Abort,
    alloc: Global,
    room: usize,
    piece: usize,
    fails: &[u32],
    status: u8,
    held: &[u8],
) -> Result<(), Fail>
    requires { 1 ≤ piece }
{
    let solo = words(alloc, &["solo"])?;
    let source = source(alloc, QUADRATIC, 100, &[])?;
    let sink = sink(alloc, room, piece, fails)?;
    expect(rt, &solo, source, sink, alloc, status, held);
    Ok(())
}

#[test]
fn dumps_lattices(rt: HostRuntime) -> Result<(), Fail> {
    let alloc = rt.alloc();
    let dump = words(alloc, &["dump"])?;
    let quadratic = source(alloc, QUADRATIC, 100, &[])?;
    let room = sink(alloc, 1000, 100, &[])?;
    expect(&rt, &dump, quadratic, room, alloc, DONE, QUADRATIC_DUMP);
    let bad = source(alloc, b"lattice 1\nnone\n", 100, &[])?;
    let room = sink(alloc, 1000, 100, &[])?;
    let line = b"bad script line 2 kind 3\n";
    expect(&rt, &dump, bad, room, alloc, BAD_SCRIPT, line);
    Ok(())
}

#[test]
fn plays_scripts(rt: HostRuntime) -> Result<(), Fail> {
    let alloc = rt.alloc();
    expect_solo(
        &rt,
        alloc,
        b"lattice 1\n",
        DONE,
        b"summary fields 11 maps 11 changes 0\n",
    )?;
    expect_solo(&rt, alloc, QUADRATIC, DONE, QUADRATIC_TEXT)?;
    expect_solo(
        &rt,
        alloc,
        b"lattice 1\nfield K 2 1,0,1,0,1\n",
        DONE,
        b"refused 6 1,1,1 @0\nsummary fields 11 maps 11 changes 1\n",
    )?;
    expect_solo(
        &rt,
        alloc,
        b"lattice 1\nfield K 3 2,0,0,1\n",
        DONE,
        b"refused 6 2,1 @0\nsummary fields 11 maps 11 changes 1\n",
    )
}

#[test]
fn plays_more_scripts(rt: HostRuntime) -> Result<(), Fail> {
    let alloc = rt.alloc();
    expect_solo(
        &rt,
        alloc,
        b"lattice 1\nfield K 5 1,0,1\n",
        DONE,
        b"refused 6 2,1 @0\nsummary fields 11 maps 11 changes 1\n",
    )?;
    expect_solo(
        &rt,
        alloc,
        b"lattice 1\nfield K 2 1,1,1\nfield K 2 1,1,1\nfield K 2 1,1,0,1\n",
        DONE,
        b"ok field 11 @0\nok field 11 already @1\nrefused 5 11 @2\nsummary fields 12 maps 13 changes 3\n",
    )?;
    expect_solo(
        &rt,
        alloc,
        b"lattice 1\nfield K 2",
        BAD_SCRIPT,
        b"bad script line 2 kind 3\n",
    )?;
    expect_solo(&rt, alloc, b"", BAD_SCRIPT, b"bad script line 1 kind 1\n")
}

// An embedding, a value that is moved and one that isn't in the image, and the operations.
const VALUES: &[u8] = b"lattice 1
field K 2 1,1,1
field L 2 1,1,0,0,1
embed K into L
let u L 0,1,1,0
lift v u K
let g L 0,1
lift z g K
apply i second g
apply i first v
minpoly g over K
";

const VALUES_TEXT: &[u8] = b"ok field 11 @0
ok field 12 @1
ok embed 0,1,1,0 made 0 linked 1 @2
ok L 0,1,1,0 @3
ok K 0,1 @3
ok L 0,1,0,0 @3
refused 15 @3
ok L 0,1,1,0 @3
ok K 1,1 @3
ok relpoly 0,1;1,0;1,0 @3
summary fields 13 maps 16 changes 3
";

#[test]
fn plays_values(rt: HostRuntime) -> Result<(), Fail> {
    expect_solo(&rt, rt.alloc(), VALUES, DONE, VALUES_TEXT)
}

// Two sessions by a schedule: a sum becomes possible once the first one has seen the embedding.
const SESSIONS: &[u8] = b"lattice 1
field K 2 1,1,1
field L 2 1,1,0,0,1
session a
let u K 0,1
let v L 0,1
add w u v
sync
add w u v
session b
embed K into L
schedule a a a b
";

const SESSIONS_TEXT: &[u8] = b"ok field 11 @0
ok field 12 @1
session a
ok K 0,1 @2
ok L 0,1,0,0 @2
refused 16 11 12 @2
ok sync @3
ok L 0,0,1,0 @4
session b
ok embed 0,1,1,0 made 0 linked 1 @2
summary fields 13 maps 16 changes 4
";

#[test]
fn plays_sessions(rt: HostRuntime) -> Result<(), Fail> {
    expect_solo(&rt, rt.alloc(), SESSIONS, DONE, SESSIONS_TEXT)
}

#[test]
fn refuses_other_words(rt: HostRuntime) -> Result<(), Fail> {
    let alloc = rt.alloc();
    expect_usage(&rt, alloc, &["--help"])?;
    expect_usage(&rt, alloc, &["-"])?;
    expect_usage(&rt, alloc, &["solo", "x"])?;
    expect_usage(&rt, alloc, &["audit", "1", "1", "1"])?;
    expect_usage(&rt, alloc, &["gen", "1", "1"])?;
    expect_usage(&rt, alloc, &["gen", "1", "1", "1", "1"])?;
    expect_usage(&rt, alloc, &["solo", "1", "1", "1"])?;
    expect_usage(&rt, alloc, &[])?;
    expect_usage(&rt, alloc, &[""])?;
    expect_unread(&rt, alloc, &["--help"], 3, WRITE_FAILED, b"usa")
}

#[test]
fn refuses_other_numbers(rt: HostRuntime) -> Result<(), Fail> {
    let alloc = rt.alloc();
    expect_usage(&rt, alloc, &["gen", "1", "0", "0"])?;
    expect_usage(&rt, alloc, &["gen", "01", "1", "1"])?;
    expect_usage(&rt, alloc, &["gen", "+1", "1", "1"])?;
    expect_usage(&rt, alloc, &["gen", "", "1", "1"])?;
    expect_usage(&rt, alloc, &["gen", "1", "181", "0"])?;
    expect_usage(&rt, alloc, &["gen", "1", "1", "2001"])?;
    expect_usage(&rt, alloc, &["gen", "18446744073709551616", "1", "1"])
}

#[test]
fn plays_generated_scripts(rt: HostRuntime) -> Result<(), Fail> {
    let alloc = rt.alloc();
    let text = b"summary fields 12 maps 13 changes 2\n";
    expect_unread(&rt, alloc, &["gen", "1", "1", "1"], 1000, DONE, text)?;
    expect_unread(
        &rt,
        alloc,
        &["gen", "1", "1", "1"],
        7,
        WRITE_FAILED,
        b"summary",
    )?;
    // the greatest seed: the fields have degrees 2, 2 and 12 and characteristics 2, 3 and 2
    let text = b"summary fields 14 maps 17 changes 3\n";
    let seed = "18446744073709551615";
    expect_unread(&rt, alloc, &["gen", seed, "3", "0"], 1000, DONE, text)
}

#[test]
fn meets_failing_sources(rt: HostRuntime) -> Result<(), Fail> {
    let alloc = rt.alloc();
    expect_read(&rt, alloc, 1, &[], DONE, QUADRATIC_TEXT)?;
    expect_read(&rt, alloc, 100, &[1], READ_FAILED, b"")?;
    expect_read(&rt, alloc, 1, &[3], READ_FAILED, b"")?;
    // after the last byte
    expect_read(&rt, alloc, 100, &[2], READ_FAILED, b"")?;
    // after the end, where nothing is read
    expect_read(&rt, alloc, 100, &[3], DONE, QUADRATIC_TEXT)
}

// After a read fault nothing more is read: what is left begins where the last read that succeeded
// ended.
#[test]
fn reads_no_further_after_a_fault(rt: HostRuntime) -> Result<(), Fail> {
    let alloc = rt.alloc();
    let solo = words(alloc, &["solo"])?;
    let mut source = source(alloc, QUADRATIC, 10, &[2])?;
    let mut sink = sink(alloc, 1000, 100, &[])?;
    assert_eq!(rt; run(alloc, &solo, &mut source, &mut sink), READ_FAILED);
    assert_eq!(rt;
        read_all(alloc, &mut source, 100)?.as_slice(),
        &QUADRATIC[10..]
    );
    Ok(())
}

// The fields 11 to 199 are declared, and for one more there is no room.
#[test]
fn fills_the_lattice(rt: HostRuntime) -> Result<(), Fail> {
    let alloc = rt.alloc();
    let mut script = Vec::from_slice(alloc, b"lattice 1\n")?;
    let mut text = Vec::new(alloc);
    for n in 11..200u32 {
        script.extend_from_slice(format!(in alloc; "field K{n} 2 1,1,1\n")?.as_bytes())?;
        text.extend_from_slice(format!(in alloc; "ok field {} @{}\n", n, n - 11)?.as_bytes())?;
    }
    script.extend_from_slice(b"field L 2 1,1,1\n")?;
    text.extend_from_slice(b"refused 7 200 1 @189\nsummary fields 200 maps 389 changes 190\n")?;
    let solo = words(alloc, &["solo"])?;
    let source = source(alloc, &script, 4096, &[])?;
    let sink = sink(alloc, 4096, 4096, &[])?;
    expect(&rt, &solo, source, sink, alloc, DONE, &text);
    Ok(())
}

#[test]
fn runs_over_std(rt: HostRuntime) -> Result<(), Fail> {
    let alloc = rt.alloc();
    let solo = words(alloc, &["solo"])?;
    let mut written = Vec::new(alloc);
    let mut sink = StdSink::new(&mut written);
    assert_eq!(rt;
        run(alloc, &solo, &mut StdSource::new(QUADRATIC), &mut sink),
        DONE
    );
    assert_eq!(rt; written.as_slice(), QUADRATIC_TEXT);
    Ok(())
}

#[test]
fn meets_failing_sinks(rt: HostRuntime) -> Result<(), Fail> {
    let alloc = rt.alloc();
    expect_write(&rt, alloc, 1000, 1, &[], DONE, QUADRATIC_TEXT)?;
    expect_write(&rt, alloc, 10, 100, &[], WRITE_FAILED, b"ok field 1")?;
    expect_write(&rt, alloc, 1000, 5, &[2], WRITE_FAILED, b"ok fi")
}
