//! Runs of `share`, on threads and without.

use super::{QUADRATIC, QUADRATIC_TEXT, SESSIONS, SESSIONS_TEXT, expect, sink, source, words};
use crate::run_tool_with;
use crate::status::DONE;
use lat_io::{Sink, Source};
use program_ops::{artin_schreier_table, square_table, successor_table};
use std::alloc::Global;
use std::hint::spin_loop;
use std::process::Abort;
use std::sync::Wait;
use std::sync::atomic::{AtomicU64, Ordering};
use std::test::Fail;
use std::thread::Threads;

// How often a call looks for another one.
const TURNS: u32 = 100_000_000;

// The calls of an operation that counts them at two values, and those that looked in vain for one
// at the other value.
#[derive(Drop)]
struct Calls {
    at_generator: AtomicU64,
    at_successor: AtomicU64,
    in_vain: AtomicU64,
}

impl Calls {
    fn new() -> Calls {
        Calls {
            at_generator: AtomicU64::new(0),
            at_successor: AtomicU64::new(0),
            in_vain: AtomicU64::new(0),
        }
    }

    // Counts a call at these digits. A call at 0,1 looks for one at 1,1, and that one, if `both`,
    // for the first.
    fn meet(&self, digits: &[u8], both: bool) {
        match digits {
            [0, 1] => {
                self.at_generator.fetch_add(1, Ordering::SeqCst);
                self.look_for(&self.at_successor);
            }
            [1, 1] => {
                self.at_successor.fetch_add(1, Ordering::SeqCst);
                if both {
                    self.look_for(&self.at_generator);
                }
            }
            _ => {}
        }
    }

    // Looks for a call until there is one, or all turns are used up.
    fn look_for(&self, calls: &AtomicU64) {
        for _ in 0..TURNS {
            if calls.load(Ordering::SeqCst) > 0 {
                return;
            }
            spin_loop();
        }
        self.in_vain.fetch_add(1, Ordering::SeqCst);
    }
}

// Runs on threads, with the operations of the program.
fn run_on_threads<R: Threads + Wait + Sync, S: Source, K: Sink>(
    rt: &R,
    alloc: Global,
    words: &[String],
    source: &mut S,
    sink: &mut K,
) -> u8 {
    run_tool_with(
        rt,
        alloc,
        words,
        source,
        sink,
        (square_table(), |field, a| field.mul(a, a)),
        (
            artin_schreier_table(),
            |field, a| { field.add(&field.frob(a), &field.neg(a)) },
        ),
        (successor_table(), |field, a| field.add(a, &field.one())),
    )
}

// Runs with the word on threads: either text is written.
fn expect_one_of<R: Abort + Threads + Wait + Sync>(
    rt: &R,
    alloc: Global,
    word: &str,
    script: &[u8],
    text: &[u8],
    other: &[u8],
) -> Result<(), Fail> {
    let words = words(alloc, &[word])?;
    let mut source = source(alloc, script, 100, &[])?;
    let mut sink = sink(alloc, 1000, 100, &[])?;
    let status = run_on_threads(rt, alloc, &words, &mut source, &mut sink);
    assert_eq!(rt; status, DONE);
    let held = sink.bytes();
    assert!(rt; held == text || held == other);
    Ok(())
}

// Plays two sessions on threads, with `first` as an operation that squares its value and counts its
// calls at two values: there is one call at each, and none looked in vain for the other.
fn expect_met<R: Abort + Threads + Wait + Sync>(
    rt: &R,
    alloc: Global,
    script: &[u8],
    both: bool,
    text: &[u8],
) -> Result<(), Fail> {
    let words = words(alloc, &["share"])?;
    let mut source = source(alloc, script, 100, &[])?;
    let mut sink = sink(alloc, 1000, 100, &[])?;
    let calls = Calls::new();
    let status = run_tool_with(
        rt,
        alloc,
        &words,
        &mut source,
        &mut sink,
        (
            square_table(),
            |field, a| {
                calls.meet(a.digits(), both);
                field.mul(a, a)
            },
        ),
        (
            artin_schreier_table(),
            |field, a| { field.add(&field.frob(a), &field.neg(a)) },
        ),
        (successor_table(), |field, a| field.add(a, &field.one())),
    );
    assert_eq!(rt; status, DONE);
    assert_eq!(rt; sink.bytes(), text);
    assert_eq!(rt; calls.at_generator.load(Ordering::SeqCst), 1);
    assert_eq!(rt; calls.at_successor.load(Ordering::SeqCst), 1);
    assert_eq!(rt; calls.in_vain.load(Ordering::SeqCst), 0);
    Ok(())
}

// Without threads `share` follows the schedule.
#[test]
fn one_thread_shares_by_the_schedule(rt: HostRuntime) -> Result<(), Fail> {
    let alloc = rt.alloc();
    let share = words(alloc, &["share"])?;
    let source = source(alloc, SESSIONS, 100, &[])?;
    let sink = sink(alloc, 1000, 100, &[])?;
    expect(&rt, &share, source, sink, alloc, DONE, SESSIONS_TEXT);
    Ok(())
}

#[test]
fn threads_play_one_session_as_solo(rt: HostRuntime) -> Result<(), Fail> {
    let alloc = rt.alloc();
    expect_one_of(
        &rt,
        alloc,
        "share",
        QUADRATIC,
        QUADRATIC_TEXT,
        QUADRATIC_TEXT,
    )?;
    expect_one_of(&rt, alloc, "solo", SESSIONS, SESSIONS_TEXT, SESSIONS_TEXT)
}

const READS: &[u8] = b"lattice 1
field K 2 1,1,1
field L 2 1,1,0,0,1
embed K into L
session a
let u K 0,1
lift v u L
session b
map K L
";

const READS_TEXT: &[u8] = b"ok field 11 @0
ok field 12 @1
ok embed 0,1,1,0 made 0 linked 1 @2
session a
ok K 0,1 @3
ok L 0,1,1,0 @3
session b
ok map 0,1,1,0 @3
summary fields 13 maps 16 changes 3
";

#[test]
fn sessions_see_the_prologue(rt: HostRuntime) -> Result<(), Fail> {
    expect_one_of(&rt, rt.alloc(), "share", READS, READS_TEXT, READS_TEXT)
}

// Two sessions that declare one name.
const ONE_NAME: &[u8] = b"lattice 1
session a
field K 2 1,1,1
session b
field K 2 1,1,0,1
schedule a b
";

const FIRST_DECLARES: &[u8] = b"session a
ok field 11 @0
session b
refused 5 11 @1
summary fields 12 maps 13 changes 2
";

const SECOND_DECLARES: &[u8] = b"session a
refused 5 11 @1
session b
ok field 11 @0
summary fields 12 maps 13 changes 2
";

#[test]
fn one_of_two_declares(rt: HostRuntime) -> Result<(), Fail> {
    let alloc = rt.alloc();
    expect_one_of(
        &rt,
        alloc,
        "share",
        ONE_NAME,
        FIRST_DECLARES,
        SECOND_DECLARES,
    )
}

// Two sessions that each square a value of their own.
const SQUARES: &[u8] = b"lattice 1
field K 2 1,1,1
session a
let u K 0,1
apply x first u
session b
let u K 1,1
apply x first u
";

const SQUARES_TEXT: &[u8] = b"ok field 11 @0
session a
ok K 0,1 @1
ok K 1,1 @1
session b
ok K 1,1 @1
ok K 0,1 @1
summary fields 12 maps 13 changes 1
";

// Each call returns only once the other one has begun.
#[test]
fn both_sessions_run(rt: HostRuntime) -> Result<(), Fail> {
    expect_met(&rt, rt.alloc(), SQUARES, true, SQUARES_TEXT)
}

// A session squares 0,1 and then declares a name, which the other one declares before it squares
// 1,1.
const TAKEN: &[u8] = b"lattice 1
field K 2 1,1,1
session a
let u K 0,1
apply x first u
field M 2 1,1,1
session b
field M 2 1,1,0,1
let u K 1,1
apply x first u
";

const TAKEN_TEXT: &[u8] = b"ok field 11 @0
session a
ok K 0,1 @1
ok K 1,1 @1
refused 5 12 @2
session b
ok field 12 @1
ok K 1,1 @2
ok K 0,1 @2
summary fields 13 maps 15 changes 3
";

// The same with the commands of the two sessions exchanged.
const EXCHANGED: &[u8] = b"lattice 1
field K 2 1,1,1
session a
field M 2 1,1,0,1
let u K 1,1
apply x first u
session b
let u K 0,1
apply x first u
field M 2 1,1,1
";

const EXCHANGED_TEXT: &[u8] = b"ok field 11 @0
session a
ok field 12 @1
ok K 1,1 @2
ok K 0,1 @2
session b
ok K 0,1 @1
ok K 1,1 @1
refused 5 12 @2
summary fields 13 maps 15 changes 3
";

// The call at 0,1 returns only once the one at 1,1 has begun, so the declaration behind the first
// comes after the one before the second.
#[test]
fn order_is_taken(rt: HostRuntime) -> Result<(), Fail> {
    let alloc = rt.alloc();
    expect_met(&rt, alloc, TAKEN, false, TAKEN_TEXT)?;
    expect_met(&rt, alloc, EXCHANGED, false, EXCHANGED_TEXT)
}
