//! `lattice_tool`: the program over the real input, output and words.
#![tactic(auto)]

use lat_io::{StdSink, StdSource};
use lattice_run::{run_tool_with, status};
use program_ops::{artin_schreier_table, square_table, successor_table};
use std::alloc::{AllocError, Global};
use std::process::ExitCode;
use std::{env, io};

// The words after the program's name; None where there is no memory.
fn words_of(alloc: Global, arguments: env::Args) -> Option<Vec<String>> {
    let mut words = Vec::new(alloc);
    for word in arguments.skip(1) {
        words.push(word).ok()?;
    }
    Some(words)
}

// The status where the words aren't handed out.
fn status_of(error: &io::Error) -> u8 {
    if error.kind() == io::ErrorKind::OutOfMemory {
        status::NO_MEMORY
    } else {
        status::NO_WORDS
    }
}

fn main(rt: HostRuntime) -> ExitCode {
    let arguments = match env::args(&rt) {
        Ok(arguments) => arguments,
        Err(error) => return ExitCode::from(status_of(&error)),
    };
    let Some(words) = words_of(rt.alloc(), arguments) else {
        return ExitCode::from(status::NO_MEMORY);
    };
    let mut source = StdSource::new(rt.reader());
    let mut sink = StdSink::new(io::writer(&rt));
    ExitCode::from(run_tool_with(
        &rt,
        rt.alloc(),
        &words,
        &mut source,
        &mut sink,
        (square_table(), |field, a| field.mul(a, a)),
        (
            artin_schreier_table(),
            |field, a| { field.add(&field.frob(a), &field.neg(a)) },
        ),
        (successor_table(), |field, a| field.add(a, &field.one())),
    ))
}
