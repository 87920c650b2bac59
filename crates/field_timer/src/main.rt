//! `field_timer`: repeats one operation of a finite field, or with an embedding of one, and prints
//! a checksum, so that a script can time it beside other systems (`bench/time_field`).
//!
//! Its words are the operation, the characteristic, how often, and the coefficients of the field's
//! polynomial, lowest first; for an embedding then `from` and those of the field that is embedded.
#![tactic(auto)]

mod embeddings;
mod fields;
mod operations;
mod words;

use embeddings::{MapOperation, least_embedding, map_checksum};
use fields::{field_of, some_values};
use operations::{Operation, checksum};
use std::process::ExitCode;
use std::{env, io};
use words::{Task, Work, task_of};

// The words after the program's name.
fn words_of(rt: &HostRuntime) -> io::Result<Vec<String>> {
    let mut words = Vec::new(rt.alloc());
    for word in env::args(rt)?.skip(1) {
        words.push(word)?;
    }
    Ok(words)
}

// The checksum of an operation of a field, or None where there is no such field.
fn field_answer(task: &Task, operation: Operation, c: &[u8]) -> Option<u32> {
    let field = field_of(task.prime, c)?;
    let values = some_values(&field);
    Some(checksum(&field, &values, operation, task.count))
}

// The checksum of an operation with an embedding, or None where there are no such fields or none.
fn map_answer(task: &Task, operation: MapOperation, from: &[u8], into: &[u8]) -> Option<u32> {
    let source = field_of(task.prime, from)?;
    let target = field_of(task.prime, into)?;
    let map = least_embedding(&source, &target)?;
    Some(map_checksum(&map, operation, task.count))
}

// The checksum that is asked for, or None where there is none.
fn answer(task: &Task) -> Option<u32> {
    match &task.work {
        Work::InField { operation, field } => field_answer(task, *operation, field),
        Work::WithMap {
            operation,
            source,
            target,
        } => map_answer(task, *operation, source, target),
    }
}

fn main(rt: HostRuntime) -> io::Result<ExitCode> {
    let words = words_of(&rt)?;
    let sum = match task_of(&words) {
        Some(task) => answer(&task),
        None => None,
    };
    match sum {
        Some(sum) => {
            println!(rt; "{sum}")?;
            Ok(ExitCode::SUCCESS)
        }
        None => Ok(ExitCode::from(2)),
    }
}
