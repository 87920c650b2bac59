//! Scripts and lines with results worked out by hand.

use super::*;
use ff_field::Value;
use ff_poly::{Poly, Prime};
use lat_core::{FieldName, Line, NumberList, Outcome, Reply, SessionRefusal, StepRefusal};
use std::alloc::Global;
use std::process::Abort;
use std::test::Fail;

// Line and kind of the fault, or 0, 0, and the numbers of commands before the sessions, of
// sessions, of commands of the last session, and of places of the schedule.
fn reading(rt: &impl Abort, alloc: Global, bytes: &[u8]) -> Result<(u32, u32, [usize; 4]), Fail> {
    assert!(rt; bytes.len() <= MAX_SCRIPT);
    match parse(alloc, bytes) {
        Ok(script) => {
            let sessions = script.sessions.items();
            let last = match sessions.last() {
                None => 0,
                Some(session) => session.commands.items().len(),
            };
            let counts = [
                script.prologue.items().len(),
                sessions.len(),
                last,
                script.schedule.items().len(),
            ];
            Ok((0, 0, counts))
        }
        Err(ScriptFault::Line { number, kind }) => Ok((number, kind, [0; 4])),
        Err(ScriptFault::NoMemory) => Err(Fail::from("no memory")),
    }
}

static FAULTS: [(&[u8], (u32, u32)); 22] = [
    (b"", (1, 1)),
    (b"\n  \n# note\n", (1, 1)),
    (b"lattice 1\r\n", (1, 1)),
    (b"\n#\nfield K 2 1,1,1\n", (3, 1)),
    (b"lattice 3\nlattice 1\n", (1, 1)),
    (b"lattice 1\nlattice 1\n", (2, 3)),
    (b"lattice 1\nfield K 2", (2, 3)),
    (b"lattice 1\nfield K 2 degree 4\n", (2, 3)),
    (b"lattice 1\n\t\n", (2, 3)),
    (b"lattice 1\nlet _12 K 1\n", (2, 3)),
    (b"lattice 1\nembed K into _200\n", (2, 3)),
    (b"lattice 1\npow a b 18446744073709551616\n", (2, 3)),
    (b"lattice 1\nsession _1\n", (2, 3)),
    (b"lattice 1\nschedule\n", (2, 3)),
    (b"lattice 1\nsession a\nsession a\n", (3, 5)),
    (b"lattice 1\n\n# note\nsession a\n  \nsession a\n", (6, 5)),
    (b"lattice 1\nsession a\nsession a\nnone\n", (3, 5)),
    (b"lattice 1\nsession a\nschedule b\n", (3, 7)),
    (b"lattice 1\nschedule a\nsession a\n", (2, 7)),
    (b"lattice 1\nsession a\nschedule a\nsync\n", (4, 8)),
    (b"lattice 1\nsession a\nschedule a\nsession a\n", (4, 8)),
    (b"lattice 1\nsession a\nschedule a\nsession a b\n", (4, 3)),
];

#[test]
fn faults(rt: HostRuntime) -> Result<(), Fail> {
    for (bytes, (line, kind)) in &FAULTS {
        assert_eq!(rt; reading(&rt, rt.alloc(), bytes)?, (*line, *kind, [0; 4]));
    }
    Ok(())
}

#[test]
fn every_command(rt: HostRuntime) -> Result<(), Fail> {
    let all = b"  lattice   1\n\n# note\nfield  K 2 1,1,1\nembed K into _199\n\
        embed into into into sending a to b\nsync\nlet a K 0,1\nadd a a a\nmul a a a\ninv a a\n\
        pow a a 18446744073709551615\nfrob a a\ntrace a a\nnorm a a\nlift a a K\napply a first a\n\
        apply a third a\nshow a\nmap K K\nmeet K L in _0\ncommon K L\nminpoly a\n\
        minpoly a over K\nlist K\ncount";
    assert_eq!(rt;
        reading(&rt, rt.alloc(), all.as_slice())?,
        (0, 0, [23, 0, 0, 0])
    );
    Ok(())
}

#[test]
fn sessions_and_schedule(rt: HostRuntime) -> Result<(), Fail> {
    let bytes = b"lattice 1\nfield K 2 1,1,1\nfield L 2 1,1,0,0,1\nsession a\nlet u K 0,1\n\
        let v L 0,1\nadd w u v\nsync\nadd w u v\nsession b\nembed K into L\nschedule a a\n\
        schedule a b\n";
    assert_eq!(rt;
        reading(&rt, rt.alloc(), bytes.as_slice())?,
        (0, 0, [2, 2, 1, 4])
    );
    let script = parse(rt.alloc(), bytes)?;
    assert_eq!(rt; script.schedule.items(), [0, 0, 0, 1].as_slice());
    let mut names = Vec::new(rt.alloc());
    for session in script.sessions.items() {
        names.extend_from_slice(session.name.bytes())?;
    }
    assert_eq!(rt; names.as_slice(), b"ab".as_slice());
    if let Some(Command::Field { name, p, poly }) = script.prologue.items().first() {
        assert_eq!(rt; name.bytes(), b"K".as_slice());
        assert_eq!(rt; *p, 2);
        assert_eq!(rt; poly.numbers(), [1, 1, 1].as_slice());
    }
    Ok(())
}

// A text with another one at its end.
fn joined(alloc: Global, text: &[u8], end: &[u8]) -> Result<Vec<u8>, Fail> {
    let mut bytes = Vec::from_slice(alloc, text)?;
    bytes.extend_from_slice(end)?;
    Ok(bytes)
}

// The header, and then a line a given number of times.
fn repeated(alloc: Global, line: &[u8], times: usize) -> Result<Vec<u8>, Fail> {
    let mut bytes = Vec::from_slice(alloc, b"lattice 1\n")?;
    for _ in 0..times {
        bytes.extend_from_slice(line)?;
    }
    Ok(bytes)
}

#[test]
fn most_commands(rt: HostRuntime) -> Result<(), Fail> {
    let most = repeated(rt.alloc(), b"sync\n", MAX_COMMANDS)?;
    assert_eq!(rt;
        reading(&rt, rt.alloc(), &most)?,
        (0, 0, [MAX_COMMANDS, 0, 0, 0])
    );
    let one_more = joined(rt.alloc(), &most, b"sync\n")?;
    assert_eq!(rt; reading(&rt, rt.alloc(), &one_more)?, (20_002, 6, [0; 4]));
    let behind = joined(rt.alloc(), &most, b"session a\nschedule a\nsync\n")?;
    assert_eq!(rt; reading(&rt, rt.alloc(), &behind)?, (20_004, 8, [0; 4]));
    Ok(())
}

#[test]
fn longest_lines(rt: HostRuntime) -> Result<(), Fail> {
    let longest = repeated(rt.alloc(), b"#", MAX_LINE)?;
    assert_eq!(rt; reading(&rt, rt.alloc(), &longest)?, (0, 0, [0; 4]));
    let longer = repeated(rt.alloc(), b"#", MAX_LINE + 1)?;
    assert_eq!(rt; reading(&rt, rt.alloc(), &longer)?, (2, 2, [0; 4]));
    // without a header, and where the line would be passed over
    let spaces = [b' '; MAX_LINE + 1];
    assert_eq!(rt; reading(&rt, rt.alloc(), &spaces)?, (1, 2, [0; 4]));
    Ok(())
}

#[test]
fn most_sessions(rt: HostRuntime) -> Result<(), Fail> {
    let most = b"lattice 1\nsession s1\nsession s2\nsession s3\nsession s4\nsession s5\n\
        session s6\nsession s7\nsession s8\nsession s9\nsession s10\nsession s11\nsession s12\n\
        session s13\nsession s14\nsession s15\nsession s16\n";
    assert_eq!(rt;
        reading(&rt, rt.alloc(), most.as_slice())?,
        (0, 0, [0, 16, 0, 0])
    );
    let ends = [
        (b"session s17\n".as_slice(), (18, 4)),
        (b"session s1\n".as_slice(), (18, 4)),
        (b"schedule s1\nsession s17\n".as_slice(), (19, 8)),
    ];
    for (end, (line, kind)) in ends {
        let bytes = joined(rt.alloc(), most, end)?;
        assert_eq!(rt; reading(&rt, rt.alloc(), &bytes)?, (line, kind, [0; 4]));
    }
    Ok(())
}

fn prints(
    rt: &(impl Abort + Alloc<A = Global>),
    outcome: Outcome,
    want: &[u8],
) -> Result<(), Fail> {
    let mut out = Vec::new(rt.alloc());
    let line = Line { outcome, mark: 7 };
    add_line(&mut out, &line)?;
    assert_eq!(rt; out.as_slice(), want);
    Ok(())
}

fn refuses(
    rt: &(impl Abort + Alloc<A = Global>),
    refusal: SessionRefusal,
    want: &[u8],
) -> Result<(), Fail> {
    prints(rt, Outcome::Refused(refusal), want)
}

fn refuses_change(
    rt: &(impl Abort + Alloc<A = Global>),
    refusal: StepRefusal,
    want: &[u8],
) -> Result<(), Fail> {
    prints(rt, Outcome::Changed(Reply::Refused(refusal)), want)
}

fn name(text: &str) -> Result<FieldName, Fail> {
    let name = FieldName::declared(text).ok_or("a name")?;
    Ok(name)
}

#[test]
fn answers(rt: HostRuntime) -> Result<(), Fail> {
    let image = Value::of_digits(&[0, 1, 1, 0]);
    let embedded = Reply::Embedded {
        image,
        made: 1,
        linked: 6,
    };
    prints(
        &rt,
        Outcome::Changed(embedded),
        b"ok embed 0,1,1,0 made 1 linked 6 @7\n",
    )?;
    let declared = Reply::Declared {
        number: 11,
        already: true,
    };
    prints(&rt, Outcome::Changed(declared), b"ok field 11 already @7\n")?;
    prints(&rt, Outcome::Changed(Reply::Synced), b"ok sync @7\n")?;
    let shown = Outcome::Val {
        name: name("K")?,
        value: Value::of_digits(&[0, 0]),
    };
    prints(&rt, shown, b"ok K 0,0 @7\n")?;
    prints(
        &rt,
        Outcome::Image(Value::of_digits(&[1, 30])),
        b"ok map 1,30 @7\n",
    )?;
    prints(&rt, Outcome::Named(FieldName::made(14)), b"ok is _14 @7\n")?;
    prints(
        &rt,
        Outcome::Numbers(NumberList::of(&[0, 11, 12])),
        b"ok list 0 11 12 @7\n",
    )?;
    let p = Prime::of(2).ok_or("2")?;
    let poly = Poly::of_slice(p, &[1, 1, 1]).ok_or("a polynomial")?;
    prints(&rt, Outcome::Poly(poly), b"ok poly 1,1,1 @7\n")?;
    let counted = Outcome::Counted {
        fields: 13,
        maps: 16,
    };
    prints(&rt, counted, b"ok count 13 16 @7\n")
}

#[test]
fn refusals_of_changes(rt: HostRuntime) -> Result<(), Fail> {
    let p = Prime::of(5).ok_or("5")?;
    let factor = Poly::of_slice(p, &[2, 1]).ok_or("a factor")?;
    refuses_change(&rt, StepRefusal::NotInTable(4), b"refused 1 4 @7\n")?;
    refuses_change(&rt, StepRefusal::DegreeOutOfRange(25), b"refused 2 25 @7\n")?;
    refuses_change(
        &rt,
        StepRefusal::CoefficientTooLarge(1),
        b"refused 3 1 @7\n",
    )?;
    refuses_change(&rt, StepRefusal::NotMonic, b"refused 4 @7\n")?;
    refuses_change(&rt, StepRefusal::NameTaken(11), b"refused 5 11 @7\n")?;
    refuses_change(
        &rt,
        StepRefusal::Reducible { factor },
        b"refused 6 2,1 @7\n",
    )?;
    let full = StepRefusal::TooManyFields { have: 200, need: 1 };
    refuses_change(&rt, full, b"refused 7 200 1 @7\n")?;
    refuses_change(
        &rt,
        StepRefusal::UnknownField(name("X")?),
        b"refused 8 X @7\n",
    )?;
    refuses_change(
        &rt,
        StepRefusal::DifferentCharacteristic(2, 3),
        b"refused 9 2 3 @7\n",
    )?;
    refuses_change(
        &rt,
        StepRefusal::DegreeDoesNotDivide(4, 2),
        b"refused 10 4 2 @7\n",
    )?;
    refuses_change(&rt, StepRefusal::WrongField(12), b"refused 11 12 @7\n")?;
    refuses_change(&rt, StepRefusal::NoCompatibleRoot, b"refused 12 @7\n")
}

#[test]
fn refusals_of_sessions(rt: HostRuntime) -> Result<(), Fail> {
    refuses(
        &rt,
        SessionRefusal::CoefficientTooLarge(0),
        b"refused 3 0 @7\n",
    )?;
    refuses(
        &rt,
        SessionRefusal::UnknownField(name("X")?),
        b"refused 8 X @7\n",
    )?;
    refuses(
        &rt,
        SessionRefusal::NotEmbedded { i: 1, j: 12 },
        b"refused 14 1 12 @7\n",
    )?;
    refuses(&rt, SessionRefusal::NotInImage, b"refused 15 @7\n")?;
    refuses(
        &rt,
        SessionRefusal::NoCommonField { a: 11, b: 12 },
        b"refused 16 11 12 @7\n",
    )?;
    refuses(
        &rt,
        SessionRefusal::UnknownVariable(name("z")?),
        b"refused 17 z @7\n",
    )?;
    refuses(&rt, SessionRefusal::ZeroInverse, b"refused 18 @7\n")?;
    refuses(&rt, SessionRefusal::TooManyVariables, b"refused 19 @7\n")?;
    refuses(
        &rt,
        SessionRefusal::TooManyCoefficients(2),
        b"refused 20 2 @7\n",
    )?;
    refuses(&rt, SessionRefusal::HistoryFull(1), b"refused 21 1 @7\n")
}

#[test]
fn other_lines(rt: HostRuntime) -> Result<(), Fail> {
    let mut out = Vec::new(rt.alloc());
    add_session(&mut out, &name("a")?)?;
    add_summary(&mut out, 12, 13, 1)?;
    assert_eq!(rt;
        out.as_slice(),
        b"session a\nsummary fields 12 maps 13 changes 1\n".as_slice()
    );
    assert_eq!(rt;
        bad_line(2, 3).bytes(),
        b"bad script line 2 kind 3\n".as_slice()
    );
    Ok(())
}
