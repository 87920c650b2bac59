//! What is written for a task that is done.

ghost use Rattle.std.specs.Prelude.{◌≡◌, ◌^◌, ◌<◌, false, IfOk, OnOk};
ghost use Rattle.alg_model.specs.Lattices.{first_edition};
ghost use Rattle.lat_gen.specs.Generated.{generated};
ghost use Rattle.lat_gen.specs.Theorems.{AreSizes};
ghost use Rattle.lat_session.specs.Outcomes.{operations_of};
ghost use Rattle.lat_playing.specs.Plays.{IsPlayable};
ghost use Rattle.lat_playing.specs.Transcripts.{IsTranscript, IsFair};
ghost use Rattle.lattice_run.specs.Answers.{IsSummary, IsDump, IsPlayed};
ghost use Rattle.lattice_run.specs.PrivateRuns.{AddsSummary};

use crate::tasks::Output;
use lat_audit::write_dump;
use lat_core::{Edition, NoMemory};
use lat_gen::script_of;
use lat_history::Book;
use lat_language::{Script, add_summary};
use lat_playing::{Performance, play_solo};
use lat_sharing::play_shared;
use natural_ops::{Operation, Ops};
use std::alloc::Global;
use std::sync::Wait;
use std::thread::Threads;

// Appends the summary of a book: the counts of the lattice after all changes, and of these.
fn add_book_summary(out: &mut Vec<u8>, book: &Book) -> Result<(), NoMemory>
    ensures { OnOk result (AddsSummary book.now out.old.items out.new.items) }
{
    let lattice = book.lattice();
    add_summary(out, lattice.fields(), lattice.maps(), book.length())?;
    Ok(())
}

// The transcript of a script that is played by its schedule.
fn transcript<F: Operation, G: Operation, H: Operation>(
    alloc: Global,
    script: &Script,
    ops: &Ops<F, G, H>,
) -> Result<Vec<u8>, NoMemory>
    requires { IsPlayable script.now }
    ensures { IfOk result (λ text. IsTranscript first_edition
        (operations_of ops.now.first ops.now.second ops.now.third) script.now text.items) }
{
    let Performance { book, mut lines } = play_solo(alloc, Edition::One, script, ops)?;
    add_book_summary(&mut lines, &book)?;
    Ok(lines)
}

// The transcript of a script whose sessions are played on threads, in some order.
pub(crate) fn shared_transcript<R: Threads + Wait + Sync, F, G, H>(
    rt: &R,
    alloc: Global,
    script: &Script,
    ops: &Ops<F, G, H>,
) -> Result<Vec<u8>, NoMemory>
where
    F: Operation + Sync,
    G: Operation + Sync,
    H: Operation + Sync,
    requires { IsPlayable script.now }
    ensures { IfOk result (λ text. IsFair first_edition
        (operations_of ops.now.first ops.now.second ops.now.third) script.now text.items) }
{
    let Performance { book, mut lines } = play_shared(rt, alloc, Edition::One, script, ops)?;
    add_book_summary(&mut lines, &book)?;
    Ok(lines)
}

// The dump of the lattice after all changes of a script that is played by its schedule.
fn dump<F: Operation, G: Operation, H: Operation>(
    alloc: Global,
    script: &Script,
    ops: &Ops<F, G, H>,
) -> Result<Vec<u8>, NoMemory>
    requires { IsPlayable script.now }
    ensures { IfOk result (λ text. IsDump first_edition
        (operations_of ops.now.first ops.now.second ops.now.third) script.now text.items) }
{
    let Performance { book, lines: _ } = play_solo(alloc, Edition::One, script, ops)?;
    let text = write_dump(alloc, book.lattice())?;
    Ok(text)
}

// What is written of a script that is played by its schedule.
pub(crate) fn played<F: Operation, G: Operation, H: Operation>(
    alloc: Global,
    output: Output,
    script: &Script,
    ops: &Ops<F, G, H>,
) -> Result<Vec<u8>, NoMemory>
    requires { IsPlayable script.now }
    ensures { IfOk result (λ text. IsPlayed false
        (operations_of ops.now.first ops.now.second ops.now.third) output script.now text.items) }
{
    match output {
        Output::Transcript | Output::SharedTranscript => transcript(alloc, script, ops),
        Output::Dump => dump(alloc, script, ops),
    }
}

// The summary of the script that is generated from a seed, which is played by its schedule.
pub(crate) fn summary<F: Operation, G: Operation, H: Operation>(
    alloc: Global,
    seed: u64,
    fields: u32,
    embeds: u32,
    ops: &Ops<F, G, H>,
) -> Result<Vec<u8>, NoMemory>
    requires { AreSizes fields embeds }
    ensures { IfOk result (λ text. IsSummary first_edition
        (operations_of ops.now.first ops.now.second ops.now.third) (generated seed fields embeds)
        text.items) }
{
    let script = script_of(alloc, seed, fields, embeds)?;
    let Performance { book, lines: _ } = play_solo(alloc, Edition::One, &script, ops)?;
    let mut text = Vec::new(alloc);
    add_book_summary(&mut text, &book)?;
    Ok(text)
}
