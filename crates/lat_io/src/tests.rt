ghost use Rattle.std.specs.Prelude.{◌≤◌};

use crate::{
    Failed, MAX_LIMIT, MemorySink, MemorySource, ReadFault, Sink, Source, StdSink, StdSource,
    read_all, write_all_of,
};
use std::alloc::Global;
use std::io;
use std::io::{ErrorKind, Read, Write};
use std::process::Abort;
use std::test::Fail;

const TEXT: &[u8] = b"lattice 1\nfield F 2 1,1,1\n";

// Reads TEXT in pieces, and expects all of it or this fault.
fn expect_read(
    rt: &impl Abort,
    alloc: Global,
    piece: usize,
    fails: &[u32],
    limit: usize,
    fault: Option<ReadFault>,
) -> Result<(), Fail>
    requires piece_fits { 1 ≤ piece }
    requires limit_fits { limit ≤ MAX_LIMIT }
{
    let mut source = source(alloc, piece, fails)?;
    match read_all(alloc, &mut source, limit) {
        Ok(bytes) => {
            assert_eq!(rt; bytes.as_slice(), TEXT);
            assert_eq!(rt; fault, None);
        }
        Err(found) => assert_eq!(rt; fault, Some(found)),
    }
    Ok(())
}

fn source(alloc: Global, piece: usize, fails: &[u32]) -> Result<MemorySource, Fail>
    requires { 1 ≤ piece }
{
    let bytes = Vec::from_slice(alloc, TEXT)?;
    Ok(MemorySource::new(bytes, piece, Vec::from_slice(alloc, fails)?))
}

// Writes these bytes to a sink, which is then to hold those that are expected.
fn expect_write(
    rt: &impl Abort,
    sink: &mut MemorySink,
    bytes: &[u8],
    written: Result<(), Failed>,
    held: &[u8],
) {
    assert_eq!(rt; write_all_of(sink, bytes), written);
    assert_eq!(rt; sink.bytes(), held);
}

fn sink(alloc: Global, room: usize, piece: usize, fails: &[u32]) -> Result<MemorySink, Fail>
    requires { 1 ≤ piece }
{
    Ok(MemorySink::open(alloc, room, piece, Vec::from_slice(alloc, fails)?)?)
}

#[test]
fn reads_in_pieces(rt: HostRuntime) -> Result<(), Fail> {
    expect_read(&rt, rt.alloc(), 1, &[], 26, None)?;
    expect_read(&rt, rt.alloc(), 25, &[], 1000, None)?;
    expect_read(&rt, rt.alloc(), 100, &[], MAX_LIMIT, None)
}

#[test]
fn refuses_more_than_the_limit(rt: HostRuntime) -> Result<(), Fail> {
    expect_read(&rt, rt.alloc(), 1, &[], 25, Some(ReadFault::TooLong(26)))?;
    expect_read(&rt, rt.alloc(), 100, &[], 25, Some(ReadFault::TooLong(26)))?;
    expect_read(&rt, rt.alloc(), 100, &[], 0, Some(ReadFault::TooLong(1)))
}

// In pieces of one byte, call 27 would give the end, and no call 28 is made.
#[test]
fn fails_where_a_read_fails(rt: HostRuntime) -> Result<(), Fail> {
    expect_read(&rt, rt.alloc(), 1, &[3], 1000, Some(ReadFault::Failed))?;
    expect_read(&rt, rt.alloc(), 1, &[27], 1000, Some(ReadFault::Failed))?;
    expect_read(&rt, rt.alloc(), 1, &[28], 1000, None)?;
    expect_read(&rt, rt.alloc(), 100, &[1], 1000, Some(ReadFault::Failed))
}

#[test]
fn reads_more_than_one_call_asks_for(rt: HostRuntime) -> Result<(), Fail> {
    let alloc = rt.alloc();
    let bytes = vec![in alloc; 7u8; 10_000]?;
    let mut source = MemorySource::new(bytes, 20_000, Vec::new(alloc));
    assert_eq!(rt; read_all(alloc, &mut source, 10_000)?.len(), 10_000);
    Ok(())
}

// A call that fails takes nothing, so the next goes on where the last one ended.
#[test]
fn goes_on_after_a_fault(rt: HostRuntime) -> Result<(), Fail> {
    let mut source = source(rt.alloc(), 4, &[2])?;
    let mut buf = [0u8; 8];
    assert_eq!(rt; source.read(&mut buf), Ok(4));
    assert_eq!(rt; source.read(&mut buf), Err(Failed));
    assert_eq!(rt; source.read(&mut buf), Ok(4));
    assert_eq!(rt; buf.as_slice(), b"ice \0\0\0\0".as_slice());
    Ok(())
}

// A fault after the end is met by a reader that reads on, and not by `read_all`.
#[test]
fn reads_on_after_the_end(rt: HostRuntime) -> Result<(), Fail> {
    let alloc = rt.alloc();
    let mut source = source(alloc, 100, &[3])?;
    assert_eq!(rt; read_all(alloc, &mut source, 26)?.as_slice(), TEXT);
    let mut buf = [0u8; 8];
    assert_eq!(rt; source.read(&mut buf), Err(Failed));
    assert_eq!(rt; source.read(&mut buf), Ok(0));
    Ok(())
}

// After a fault, what is left begins where the last read that succeeded ended.
#[test]
fn reads_the_rest_after_a_fault(rt: HostRuntime) -> Result<(), Fail> {
    let alloc = rt.alloc();
    let mut source = source(alloc, 4, &[3])?;
    assert_eq!(rt;
        read_all(alloc, &mut source, 26).err(),
        Some(ReadFault::Failed)
    );
    assert_eq!(rt; read_all(alloc, &mut source, 26)?.as_slice(), &TEXT[8..]);
    Ok(())
}

#[test]
fn writes_in_pieces(rt: HostRuntime) -> Result<(), Fail> {
    expect_write(&rt, &mut sink(rt.alloc(), 26, 1, &[])?, TEXT, Ok(()), TEXT);
    expect_write(
        &rt,
        &mut sink(rt.alloc(), 1000, 5, &[])?,
        TEXT,
        Ok(()),
        TEXT,
    );
    expect_write(
        &rt,
        &mut sink(rt.alloc(), 26, 100, &[])?,
        TEXT,
        Ok(()),
        TEXT,
    );
    expect_write(&rt, &mut sink(rt.alloc(), 0, 100, &[])?, &[], Ok(()), &[]);
    Ok(())
}

#[test]
fn fails_where_a_write_fails(rt: HostRuntime) -> Result<(), Fail> {
    let mut full = sink(rt.alloc(), 10, 100, &[])?;
    expect_write(
        &rt,
        &mut full,
        b"ok field 1 F\n",
        Err(Failed),
        b"ok field 1",
    );
    expect_write(&rt, &mut full, &[], Ok(()), b"ok field 1");

    let mut second = sink(rt.alloc(), 1000, 5, &[2])?;
    expect_write(&rt, &mut second, b"ok field 1 F\n", Err(Failed), b"ok fi");
    expect_write(&rt, &mut second, b"eld", Ok(()), b"ok field");
    Ok(())
}

// A reader and a writer that fail at each call, and a writer that takes nothing.
#[derive(Drop)]
struct Broken;

#[derive(Drop)]
struct TakesNone;

impl Read for Broken {
    fn read(&mut self, _buf: &mut [u8]) -> io::Result<usize> {
        Err(io::Error::from(ErrorKind::BrokenPipe))
    }
}

impl Write for Broken {
    fn write(&mut self, _buf: &[u8]) -> io::Result<usize> {
        Err(io::Error::from(ErrorKind::BrokenPipe))
    }

    fn flush(&mut self) -> io::Result<()> {
        Ok(())
    }
}

impl Write for TakesNone {
    fn write(&mut self, _buf: &[u8]) -> io::Result<usize> {
        Ok(0)
    }

    fn flush(&mut self) -> io::Result<()> {
        Ok(())
    }
}

#[test]
fn reads_and_writes_by_std(rt: HostRuntime) -> Result<(), Fail> {
    let alloc = rt.alloc();
    let mut source = StdSource::new(TEXT);
    assert_eq!(rt; read_all(alloc, &mut source, 26)?.as_slice(), TEXT);
    assert_eq!(rt; read_all(alloc, &mut source, 26)?.len(), 0);
    assert_eq!(rt;
        read_all(alloc, &mut StdSource::new(Broken), 26).err(),
        Some(ReadFault::Failed)
    );

    let mut written = Vec::new(alloc);
    write_all_of(&mut StdSink::new(&mut written), TEXT)?;
    assert_eq!(rt; written.as_slice(), TEXT);
    assert_eq!(rt; write_all_of(&mut StdSink::new(Broken), TEXT), Err(Failed));
    assert_eq!(rt;
        write_all_of(&mut StdSink::new(TakesNone), TEXT),
        Err(Failed)
    );
    assert_eq!(rt; write_all_of(&mut StdSink::new(TakesNone), &[]), Ok(()));
    Ok(())
}
