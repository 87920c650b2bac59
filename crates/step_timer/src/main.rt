//! `step_timer`: plays the `field` and `embed` lines of a script from standard input on one
//! lattice, and prints how many fields, maps and changes there are, so that a script can time it
//! (`bench/time_steps`). Other lines are passed over. With the word `two` the lattice is of the
//! second edition, else of the first one.
#![tactic(auto)]

mod requests;

use lat_core::{Edition, Lattice, NoMemory};
use lat_insert::step;
use requests::request_of;
use std::io::{BufRead, BufReader};
use std::process::ExitCode;
use std::{env, io};

// The edition that the words ask for.
fn edition_of(rt: &HostRuntime) -> io::Result<Edition> {
    for word in env::args(rt)?.skip(1) {
        if word.as_str() == "two" {
            return Ok(Edition::Two);
        }
    }
    Ok(Edition::One)
}

// Plays the request of a line, if it is one; whether it is.
fn play(lattice: &mut Lattice, line: &str) -> Result<bool, NoMemory> {
    match request_of(line) {
        None => Ok(false),
        Some(request) => {
            step(lattice, &request)?;
            Ok(true)
        }
    }
}

// Plays all lines, and prints the counts.
fn run(rt: &HostRuntime, lattice: &mut Lattice) -> io::Result<ExitCode> {
    let mut changes: u32 = 0;
    for line in BufReader::new(rt.alloc(), rt.reader())?.lines(rt.alloc()) {
        match play(lattice, line?.as_str()) {
            Ok(true) => changes = changes.saturating_add(1),
            Ok(false) => {}
            Err(_) => return Ok(ExitCode::from(6)),
        }
    }
    let (fields, maps) = (lattice.fields(), lattice.maps());
    println!(rt; "summary fields {fields} maps {maps} changes {changes}")?;
    Ok(ExitCode::SUCCESS)
}

fn main(rt: HostRuntime) -> io::Result<ExitCode> {
    match Lattice::open(rt.alloc(), edition_of(&rt)?) {
        Ok(mut lattice) => run(&rt, &mut lattice),
        Err(_) => Ok(ExitCode::from(6)),
    }
}
