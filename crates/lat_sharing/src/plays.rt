//! Playing a script on threads.

ghost use Rattle.std.specs.Prelude.{◌≡◌, ◌++◌, length, map, vec_len, All, Ok, IfOk, OnOk};
ghost use Rattle.alg_model.specs.Lattices.{IsEdition};
ghost use Rattle.lat_core.specs.Editions.{edition_of};
ghost use Rattle.lat_session.specs.Commands.{IsProperCommand};
ghost use Rattle.lat_session.specs.Outcomes.{operations_of};
ghost use Rattle.lat_playing.specs.Plays.{IsPlayable, PerformsFairly};
ghost use Rattle.lat_shared.specs.Sharing.{IsPassOf};
ghost use Rattle.lat_sharing.specs.PrivateSharings.{HavePlayed, session_blocks};

use crate::jobs::SessionJob;
use lat_core::{Edition, NoMemory};
use lat_language::{Script, SessionScript, add_session};
use lat_playing::{Performance, perform_prologue};
use lat_shared::{SessionPass, Shared};
use lat_work::run_jobs;
use natural_ops::{Operation, Ops};
use std::alloc::Global;
use std::sync::Wait;
use std::thread::Threads;

// The jobs of sessions, each with its pass.
fn jobs_of<'a, F: Operation, G: Operation, H: Operation>(
    alloc: Global,
    shared: &'a Shared,
    sessions: &'a [SessionScript],
    passes: Vec<SessionPass>,
    ops: &'a Ops<F, G, H>,
) -> Result<Vec<SessionJob<'a, F, G, H>>, NoMemory>
    requires { vec_len passes ≡ length sessions.now }
    ensures passes { IfOk result (λ jobs. map (λ job. job.pass) jobs.items ≡ passes.items) }
    ensures commands { IfOk result (λ jobs. map (λ job. job.commands.now) jobs.items
        ≡ map (λ session. session.commands) sessions.now) }
    ensures shared { IfOk result (λ jobs. All (λ job. job.shared.now ≡ shared.now) jobs.items) }
    ensures operations { IfOk result (λ jobs. All (λ job. job.ops.now ≡ ops.now) jobs.items) }
{
    let mut jobs = Vec::new(alloc);
    for pass in passes {
        let commands = sessions[jobs.len()].commands.items();
        jobs.push(SessionJob {
            alloc,
            shared,
            ops,
            commands,
            pass,
            text: Ok(Vec::new(alloc)),
        })?;
    }
    Ok(jobs)
}

// The passes of jobs that were run, and their texts.
fn results_of<F: Operation, G: Operation, H: Operation>(
    alloc: Global,
    jobs: Vec<SessionJob<F, G, H>>,
) -> Result<(Vec<SessionPass>, Vec<Vec<u8>>), NoMemory>
    ensures passes { IfOk result (λ made. made.0.items ≡ map (λ job. job.pass) jobs.entry.items) }
    ensures texts { IfOk result (λ made. map (λ text. Ok text) made.1.items
        ≡ map (λ job. job.text) jobs.entry.items) }
{
    let mut passes = Vec::new(alloc);
    let mut texts = Vec::new(alloc);
    for job in jobs {
        let SessionJob {
            alloc: _,
            shared: _,
            ops: _,
            commands: _,
            pass,
            text,
        } = job;
        passes.push(pass)?;
        texts.push(text?)?;
    }
    Ok((passes, texts))
}

// Plays the sessions, each on a thread of its own, and gives their passes and their texts.
fn play_sessions<
    R: Threads + Wait + Sync,
    F: Operation + Sync,
    G: Operation + Sync,
    H: Operation + Sync,
>(
    rt: &R,
    alloc: Global,
    shared: &Shared,
    sessions: &[SessionScript],
    passes: Vec<SessionPass>,
    ops: &Ops<F, G, H>,
) -> Result<(Vec<SessionPass>, Vec<Vec<u8>>), NoMemory>
    requires count { vec_len passes ≡ length sessions.now }
    requires edition { IsEdition shared.now.edition }
    requires of_shared { All (IsPassOf shared.now) passes.items }
    requires proper { All (λ session. All IsProperCommand session.commands) sessions.now }
    ensures played { IfOk result (λ made. HavePlayed
        (operations_of ops.now.first ops.now.second ops.now.third) sessions.now passes.items
        made.0.items (map (λ text. text.items) made.1.items)) }
    ensures of_shared { IfOk result (λ made. All (IsPassOf shared.now) made.0.items) }
    ensures numbers { IfOk result (λ made. map (λ pass. pass.number) made.0.items
        ≡ map (λ pass. pass.number) passes.items) }
{
    let mut jobs = jobs_of(alloc, shared, sessions, passes, ops)?;
    run_jobs(rt, &mut jobs);
    results_of(alloc, jobs)
}

// Appends each session's name and its lines.
fn add_blocks(
    out: &mut Vec<u8>,
    sessions: &[SessionScript],
    texts: &[Vec<u8>],
) -> Result<(), NoMemory>
    requires { length texts.now ≡ length sessions.now }
    ensures { OnOk result (out.new.items ≡ out.old.items
        ++ session_blocks sessions.now (map (λ text. text.items) texts.now)) }
{
    for (i, session) in sessions.iter().enumerate() {
        add_session(out, &session.name)?;
        out.extend_from_slice(&texts[i])?;
    }
    Ok(())
}

/// Plays the prologue of a script, and then its sessions over one history, each on a thread of its
/// own where the system has one for each. A session's changes wait for their turn; its reads wait
/// for nobody. If it returns, the history and the lines are those of the sessions in some order.
/// Nothing is said of which order it is, nor that the call returns. The schedule is not read.
///
/// A script is playable where each declared name is one, its commands are at most `MAX_ROOM`, and
/// its sessions at most `MAX_SESSIONS`. Memory for the whole history is taken at the beginning.
pub fn play_shared<
    R: Threads + Wait + Sync,
    F: Operation + Sync,
    G: Operation + Sync,
    H: Operation + Sync,
>(
    rt: &R,
    alloc: Global,
    edition: Edition,
    script: &Script,
    ops: &Ops<F, G, H>,
) -> Result<Performance, NoMemory>
    requires { IsPlayable script.now }
    ensures { IfOk result (PerformsFairly (edition_of edition)
        (operations_of ops.now.first ops.now.second ops.now.third) script.now) }
{
    let Performance { book, mut lines } = perform_prologue(alloc, edition, script, ops)?;
    let sessions = script.sessions.items();
    if sessions.is_empty() {
        return Ok(Performance { book, lines });
    }
    let (shared, passes) = Shared::open(alloc, book, sessions.len() as u32)?;
    let (passes, texts) = play_sessions(rt, alloc, &shared, sessions, passes, ops)?;
    let book = shared.close(passes);
    add_blocks(&mut lines, sessions, &texts)?;
    Ok(Performance { book, lines })
}
