//! The top call.

ghost use Rattle.std.specs.Prelude.{◌≡◌, ◌≤◌, ◌+◌, true, false, map, length, Some, IfSome, MatchResult, string_bytes};
ghost use Rattle.lat_gen.specs.Theorems.{AreSizes};
ghost use Rattle.lat_io.specs.Source.{TakesAtMost};
ghost use Rattle.lat_io.specs.Streams.{stream, Stream};
ghost use Rattle.lat_language.specs.Grammar.{Spells};
ghost use Rattle.lat_session.specs.Outcomes.{Operations, operations_of};
ghost use Rattle.lattice_run.specs.declared.tasks.Output.{Output};
ghost use Rattle.lattice_run.specs.declared.tasks.Output.TheVariants.{SharedTranscript};
ghost use Rattle.lattice_run.specs.declared.tasks.Task.TheVariants.{Play, Audit, Gen};
ghost use Rattle.lattice_run.specs.Tasks.{IsProper, limit};
ghost use Rattle.lattice_run.specs.Answers.{TakesInput};
ghost use Rattle.lattice_run.specs.Headline.{Headline};
ghost use Rattle.lattice_run.specs.PrivateRuns.{Delivers, DeliversOutput, DeliversVerdict};
ghost use Rattle.lattice_run.specs.PrivateRuns.{AnswersInput, ReadsScript, Ran};

use crate::outputs::{played, shared_transcript, summary};
use crate::status::{BAD_DUMP, BAD_SCRIPT, DONE, NO_COMMAND, NO_MEMORY, READ_FAILED, WRITE_FAILED};
use crate::tasks::{Output, Task, task_of};
use lat_audit::{AuditVerdict, MAX_DUMP, audit, dump_too_long_line, verdict_line};
use lat_core::NoMemory;
use lat_io::{Failed, ReadFault, Sink, Source, read_all, write_all_of};
use lat_language::{MAX_SCRIPT, Script, ScriptFault, bad_line, parse, too_long_line, usage_line};
use natural_ops::{Operation, Ops};
use std::alloc::Global;
use std::sync::Wait;
use std::thread::Threads;

/// The most bytes of a script that is read.
pub const MAX_INPUT: usize = MAX_SCRIPT;

// Writes the text, and gives the status, or that of a failed write.
fn deliver<K: Sink>(sink: &mut K, status: u8, text: &[u8]) -> u8
    ensures { Delivers status text.now
        (stream (K.held sink.old) (K.faults sink.old))
        (stream (K.held sink.new) (K.faults sink.new)) result }
{
    match write_all_of(sink, text) {
        Ok(()) => status,
        Err(Failed) => WRITE_FAILED,
    }
}

// Writes the output of a task, if there is one, and gives the status.
fn answer<K: Sink>(sink: &mut K, output: Result<Vec<u8>, NoMemory>) -> u8
    ensures { DeliversOutput (λ text. text.items) output
        (stream (K.held sink.old) (K.faults sink.old))
        (stream (K.held sink.new) (K.faults sink.new)) result }
{
    match output {
        Ok(text) => deliver(sink, DONE, &text),
        Err(NoMemory) => NO_MEMORY,
    }
}

// The script that an input spells, or the status after what is written where it spells none.
fn spelled_script<K: Sink>(alloc: Global, input: &[u8], sink: &mut K) -> Result<Script, u8>
    requires { length input.now ≤ MAX_INPUT }
    ensures { MatchResult result
        (λ script. Spells input.now script
        × (stream (K.held sink.new) (K.faults sink.new)
        ≡ stream (K.held sink.old) (K.faults sink.old)))
        (λ status. (operations : Operations) (wanted : Output)
        → AnswersInput operations wanted input.now
        (stream (K.held sink.old) (K.faults sink.old))
        (stream (K.held sink.new) (K.faults sink.new)) status) }
{
    match parse(alloc, input) {
        Ok(script) => Ok(script),
        Err(ScriptFault::Line { number, kind }) => Err(deliver(
            sink,
            BAD_SCRIPT,
            bad_line(number, kind).bytes(),
        )),
        Err(ScriptFault::NoMemory) => Err(NO_MEMORY),
    }
}

// The script that the source gives, or the status after what is written where it gives none.
fn read_script<S: Source, K: Sink>(
    alloc: Global,
    source: &mut S,
    sink: &mut K,
) -> Result<Script, u8>
    ensures read { MatchResult result
        (λ script. ReadsScript script
        (stream (S.left source.old) (S.faults source.old))
        (stream (S.left source.new) (S.faults source.new))
        × (stream (K.held sink.new) (K.faults sink.new)
        ≡ stream (K.held sink.old) (K.faults sink.old)))
        (λ status. (operations : Operations) (wanted : Output)
        → Ran false operations (Some (Play wanted))
        (stream (S.left source.old) (S.faults source.old))
        (stream (S.left source.new) (S.faults source.new))
        (stream (K.held sink.old) (K.faults sink.old))
        (stream (K.held sink.new) (K.faults sink.new)) status) }
    ensures taken { TakesAtMost (S.left source.old) (S.left source.new) (MAX_INPUT + 1) }
{
    match read_all(alloc, source, MAX_INPUT) {
        Ok(input) => spelled_script(alloc, &input, sink),
        Err(ReadFault::TooLong(_)) => Err(deliver(sink, BAD_SCRIPT, too_long_line())),
        Err(ReadFault::Failed) => Err(READ_FAILED),
        Err(ReadFault::NoMemory) => Err(NO_MEMORY),
    }
}

// Reads a script, and writes the answer.
fn run_input<S: Source, K: Sink, F: Operation, G: Operation, H: Operation>(
    alloc: Global,
    output: Output,
    source: &mut S,
    sink: &mut K,
    ops: &Ops<F, G, H>,
) -> u8
    ensures ran { Ran false (operations_of ops.now.first ops.now.second ops.now.third)
        (Some (Play output))
        (stream (S.left source.old) (S.faults source.old))
        (stream (S.left source.new) (S.faults source.new))
        (stream (K.held sink.old) (K.faults sink.old))
        (stream (K.held sink.new) (K.faults sink.new)) result }
    ensures taken { TakesInput (limit (Some (Play output))) (S.left source.old) (S.left source.new) }
{
    match read_script(alloc, source, sink) {
        Ok(script) => answer(sink, played(alloc, output, &script, ops)),
        Err(status) => status,
    }
}

// Reads a script, plays its sessions on threads, and writes the answer.
fn run_shared<R: Threads + Wait + Sync, S: Source, K: Sink, F, G, H>(
    rt: &R,
    alloc: Global,
    source: &mut S,
    sink: &mut K,
    ops: &Ops<F, G, H>,
) -> u8
where
    F: Operation + Sync,
    G: Operation + Sync,
    H: Operation + Sync,
    ensures ran { Ran true (operations_of ops.now.first ops.now.second ops.now.third)
        (Some (Play SharedTranscript))
        (stream (S.left source.old) (S.faults source.old))
        (stream (S.left source.new) (S.faults source.new))
        (stream (K.held sink.old) (K.faults sink.old))
        (stream (K.held sink.new) (K.faults sink.new)) result }
    ensures taken { TakesInput (limit (Some (Play SharedTranscript)))
        (S.left source.old) (S.left source.new) }
{
    match read_script(alloc, source, sink) {
        Ok(script) => answer(sink, shared_transcript(rt, alloc, &script, ops)),
        Err(status) => status,
    }
}

// Writes the line of a verdict, if there is one, and gives the status.
fn answer_verdict<K: Sink>(sink: &mut K, verdict: &AuditVerdict) -> u8
    ensures { DeliversVerdict verdict.now
        (stream (K.held sink.old) (K.faults sink.old))
        (stream (K.held sink.new) (K.faults sink.new)) result }
{
    match verdict {
        AuditVerdict::Good(_) => deliver(sink, DONE, verdict_line(verdict).bytes()),
        AuditVerdict::NoMemory => NO_MEMORY,
        _ => deliver(sink, BAD_DUMP, verdict_line(verdict).bytes()),
    }
}

// Reads a dump, and writes the verdict.
fn run_audit<S: Source, K: Sink>(alloc: Global, source: &mut S, sink: &mut K) -> u8
    ensures ran { (operations : Operations) → Ran false operations (Some Audit)
        (stream (S.left source.old) (S.faults source.old))
        (stream (S.left source.new) (S.faults source.new))
        (stream (K.held sink.old) (K.faults sink.old))
        (stream (K.held sink.new) (K.faults sink.new)) result }
    ensures taken { TakesInput (limit (Some Audit)) (S.left source.old) (S.left source.new) }
{
    match read_all(alloc, source, MAX_DUMP) {
        Ok(input) => answer_verdict(sink, &audit(alloc, &input)),
        Err(ReadFault::TooLong(_)) => deliver(sink, BAD_SCRIPT, dump_too_long_line()),
        Err(ReadFault::Failed) => READ_FAILED,
        Err(ReadFault::NoMemory) => NO_MEMORY,
    }
}

// Writes the answer of `gen`, whatever the source is.
fn run_gen<K: Sink, F: Operation, G: Operation, H: Operation>(
    alloc: Global,
    seed: u64,
    fields: u32,
    embeds: u32,
    sink: &mut K,
    ops: &Ops<F, G, H>,
) -> u8
    requires { AreSizes fields embeds }
    ensures { (source : Stream) → Ran false
        (operations_of ops.now.first ops.now.second ops.now.third) (Some (Gen seed fields embeds))
        source source
        (stream (K.held sink.old) (K.faults sink.old))
        (stream (K.held sink.new) (K.faults sink.new)) result }
{
    answer(sink, summary(alloc, seed, fields, embeds, ops))
}

// The whole run, for what is asked for, on one thread.
fn run<S: Source, K: Sink, F: Operation, G: Operation, H: Operation>(
    alloc: Global,
    asked: Option<Task>,
    source: &mut S,
    sink: &mut K,
    ops: &Ops<F, G, H>,
) -> u8
    requires { IfSome asked IsProper }
    ensures ran { Ran false (operations_of ops.now.first ops.now.second ops.now.third) asked
        (stream (S.left source.old) (S.faults source.old))
        (stream (S.left source.new) (S.faults source.new))
        (stream (K.held sink.old) (K.faults sink.old))
        (stream (K.held sink.new) (K.faults sink.new)) result }
    ensures taken { TakesInput (limit asked) (S.left source.old) (S.left source.new) }
{
    match asked {
        None => deliver(sink, NO_COMMAND, usage_line()),
        Some(Task::Play { output }) => run_input(alloc, output, source, sink, ops),
        Some(Task::Audit) => run_audit(alloc, source, sink),
        Some(
            Task::Gen {
                seed,
                fields,
                embeds,
            },
        ) => run_gen(alloc, seed, fields, embeds, sink, ops),
    }
}

/// Does the task that the words name, with the operations `ops`: it reads what the task reads from
/// `source`, and appends what is written for it to `sink`. [`Task::Play`] reads a script of at most
/// `MAX_INPUT` bytes to its end, [`Task::Audit`] a dump of at most `lat_audit::MAX_DUMP` bytes, and
/// [`Task::Gen`] reads nothing. The sessions of `share` are played as those of `solo`, by the
/// schedule.
///
/// `words` are the words after the program's name. The answer is one of these statuses:
///
/// - [`DONE`]: `words` are `solo`, `share` or `dump` alone, and the input spells a script, whose
///   transcript, or the dump of whose lattice, was appended; or they are `audit` alone, the input is
///   the dump of a compatible lattice, and `good` was appended; or they are `gen` with a seed and
///   numbers of fields and embeddings, and the summary of the generated script was appended.
/// - [`NO_COMMAND`]: `words` name no task; the usage line was appended, and nothing read.
/// - [`BAD_SCRIPT`]: the input is longer than the task reads, or it is to be played and spells no
///   script; its fault line was appended.
/// - [`READ_FAILED`]: a read failed; nothing was appended.
/// - [`WRITE_FAILED`]: a write failed; the beginning of what was to be appended was.
/// - [`NO_MEMORY`]: want of memory for a task was answered; where it reads, a byte was read; nothing
///   was appended.
/// - [`BAD_DUMP`]: the input is to be judged and is the dump of no compatible lattice; the line of its
///   first fault was appended.
pub fn run_plain<S: Source, K: Sink, F: Operation, G: Operation, H: Operation>(
    alloc: Global,
    words: &[String],
    source: &mut S,
    sink: &mut K,
    ops: &Ops<F, G, H>,
) -> u8
    ensures { Headline false (operations_of ops.now.first ops.now.second ops.now.third)
        (map string_bytes words.now)
        (stream (S.left source.old) (S.faults source.old))
        (stream (S.left source.new) (S.faults source.new))
        (stream (K.held sink.old) (K.faults sink.old))
        (stream (K.held sink.new) (K.faults sink.new)) result }
{
    run(alloc, task_of(words), source, sink, ops)
}

/// Does what [`run_plain`] does, but the sessions of `share` are played beside each other, each on a
/// thread of its own where the system has one for each, and none follows the schedule. If the call
/// returns with [`DONE`] for `share`, the transcript that was appended is that of the sessions in
/// some order. Which order it is, and that the call returns, no clause says.
pub fn run_tool<R: Threads + Wait + Sync, S: Source, K: Sink, F, G, H>(
    rt: &R,
    alloc: Global,
    words: &[String],
    source: &mut S,
    sink: &mut K,
    ops: &Ops<F, G, H>,
) -> u8
where
    F: Operation + Sync,
    G: Operation + Sync,
    H: Operation + Sync,
    ensures { Headline true (operations_of ops.now.first ops.now.second ops.now.third)
        (map string_bytes words.now)
        (stream (S.left source.old) (S.faults source.old))
        (stream (S.left source.new) (S.faults source.new))
        (stream (K.held sink.old) (K.faults sink.old))
        (stream (K.held sink.new) (K.faults sink.new)) result }
{
    let asked = task_of(words);
    if let Some(
        Task::Play {
            output: Output::SharedTranscript,
        },
    ) = asked
    {
        return run_shared(rt, alloc, source, sink, ops);
    }
    run(alloc, asked, source, sink, ops)
}
