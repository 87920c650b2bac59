//! Jobs that count, and jobs that wait for each other.

ghost use Rattle.std.specs.Prelude.{◌≡◌, ◌<◌, ◌*◌};

use crate::{Job, run_jobs};
use std::sync::Wait;
use std::test::Fail;

// Doubles a number.
#[derive(Drop)]
struct Doubling {
    number: u32,
}

impl Job for Doubling {
    ghost can_run = { λ job. job.number < 1000 };

    ghost ran = { λ old new. new.number ≡ 2 * old.number };

    fn run<R: Wait + Sync>(&mut self, _rt: &R) {
        self.number *= 2;
    }
}

#[test]
fn each_job_is_run_once(rt: HostRuntime) -> Result<(), Fail> {
    let mut jobs = [
        Doubling { number: 3 },
        Doubling { number: 5 },
        Doubling { number: 7 },
    ];
    run_jobs(&rt, &mut jobs);
    assert!(rt; jobs[0].number == 6 && jobs[1].number == 10 && jobs[2].number == 14);
    Ok(())
}
