//! Jobs, and running them.

ghost use Rattle.std.specs.Prelude.{◌≡◌, ℕ, ◌<◌, length, All, slice_index_or};

use std::sync::Wait;
use std::thread;
use std::thread::Threads;

/// What is to be done on a thread of its own.
pub trait Job {
    // What holds of a job that can be run.
    ghost can_run: { Self → Type 0 };

    // What a job that was run is, beside what it was before.
    ghost ran: { Self → Self → Type 0 };

    /// Does the job. It may wait for other jobs: whether it returns is not said.
    fn run<R: Wait + Sync>(&mut self, rt: &R)
        requires { can_run self.old }
        ensures { ran self.old self.new };
}

/// Runs each job once, all beside each other where the system has a thread for each, and returns
/// when all have returned. Where it has not, some run one after another, so jobs that wait for each
/// other may never return. Nothing is said of the order in which they begin and end.
pub fn run_jobs<R: Threads + Wait + Sync, J: Job + Send>(rt: &R, jobs: &mut [J])
    requires { All J.can_run jobs.old }
    ensures count { length jobs.new ≡ length jobs.old }
    ensures ran { (k : ℕ) (d : J) → k < length jobs.old
        → J.ran (slice_index_or jobs.old k d) (slice_index_or jobs.new k d) }
{
    let threads = jobs.len();
    if threads > 0 {
        thread::for_each_mut(rt, jobs, threads, &|_, job| job.run(rt));
    }
}
