//! The calls of a source or a sink over memory: which of them fail, and how many failed.
ghost use Rattle.std.specs.Prelude.{◌≡◌, ◌↔◌, IsTrue, Contains};
ghost use Rattle.lat_io.specs.Faults.{one_more};

use crate::faults::Failed;

/// A count of calls, and which of them fail.
#[derive(Drop)]
pub(crate) struct Calls {
    /// The numbers of the calls that fail. The first call has the number 1.
    pub(crate) fails: Vec<u32>,
    /// The number of the next call. It stays at its last value, which is no number in `fails`.
    pub(crate) next: u64,
    /// How many calls failed.
    pub(crate) faults: u64,
}

impl Calls {
    /// No call so far.
    pub(crate) fn new(fails: Vec<u32>) -> Calls
        ensures fails { result.fails ≡ fails }
        ensures next { result.next ≡ 1 }
        ensures faults { result.faults ≡ 0 }
    {
        Calls {
            fails,
            next: 1,
            faults: 0,
        }
    }

    /// Begins the next call, and says whether it fails.
    pub(crate) fn begin(&mut self) -> bool
        ensures answer { IsTrue result ↔ Contains self.old.fails.items self.old.next }
        ensures after { self.new ≡ record self.old { next = one_more self.old.next } }
    {
        let call = self.next;
        self.next = call.saturating_add(1);
        self.fails.iter().any(|fail| u64::from(*fail) == call)
    }

    /// Counts a call that fails.
    pub(crate) fn fail(&mut self) -> Failed
        ensures after { self.new ≡ record self.old { faults = one_more self.old.faults } }
    {
        self.faults = self.faults.saturating_add(1);
        Failed
    }
}
