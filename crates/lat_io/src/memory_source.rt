//! A source over memory, for tests: it gives its bytes in pieces, and fails where it is told to.
ghost use Rattle.std.specs.Prelude.{◌≡◌, ◌^◌, ◌<◌, ◌≤◌, ◌↔◌, [], length, take, min, Some, IfSome, IfOk, OnErr, IsErr, MatchResult, Contains};
ghost use Rattle.std.specs.Io.KnownBytes.{Keeps, Consumes};
ghost use Rattle.lat_io.specs.Faults.{CountsFault};
ghost use Rattle.lat_io.specs.Memory.{new_feed, gave, missed};

use crate::calls::Calls;
use crate::faults::Failed;
use crate::source::Source;
use std::marker::Model;

/// A source over memory. It tells its bytes.
#[derive(Drop)]
pub struct MemorySource {
    bytes: Vec<u8>,
    // How many of the bytes are gone.
    gone: usize,
    piece: usize,
    calls: Calls,
}

impl Model for MemorySource {
    ghost use Rattle.std.specs.Prelude.{◌≤◌, length, drop};
    ghost use Rattle.lat_io.specs.Memory.{Feed};

    ghost Value = { Feed };

    ghost view = { λ source. record {
      left = drop source.gone source.bytes.items;
      piece = source.piece;
      fails = source.calls.fails.items;
      call = source.calls.next;
      faults = source.calls.faults;
    } };

    ghost invariant = { λ source. (source.gone ≤ length source.bytes.items) × (1 ≤ source.piece) };
}

impl MemorySource {
    /// A source of `bytes`, which gives at most `piece` of them in one call. The calls whose
    /// numbers stand in `fails` fail, and no other; the first call has the number 1. It counts the
    /// calls that failed.
    ///
    /// Requires that `piece` is at least 1.
    pub fn new(bytes: Vec<u8>, piece: usize, fails: Vec<u32>) -> MemorySource
        requires piece_fits { 1 ≤ piece }
        ensures made { result ≡ new_feed bytes.items piece fails.items }
    {
        MemorySource {
            bytes,
            gone: 0,
            piece,
            calls: Calls::new(fails),
        }
    }
}

impl Source for MemorySource {
    ghost left = { λ source. Some source.left };

    ghost faults = { λ source. source.faults };

    /// Fails exactly where the number of this call is among those that fail; else it gives as many
    /// bytes as are left, at most a piece and at most `buf` has room for.
    fn read(&mut self, buf: &mut [u8]) -> Result<usize, Failed>
        ensures within { IfOk result (λ count. count ≤ length buf.new) }
        ensures taken { IfOk result (λ count.
            Consumes (Some self.old.left) (Some self.new.left) (take count buf.new)) }
        ensures end { IfOk result (λ count. 0 < length buf.new →
            IfSome (Some self.old.left) (λ bytes. (count ≡ 0) ↔ (bytes ≡ []))) }
        ensures kept { OnErr result (Keeps (Some self.old.left) (Some self.new.left)) }

        ensures counted { CountsFault result self.old.faults self.new.faults }
        ensures never_falls { self.old.faults ≤ self.new.faults }
        ensures fits { self.new.faults < 2 ^ 64 }

        // Beyond what each source does.
        ensures fails { IsErr result ↔ Contains self.old.fails self.old.call }
        ensures gives { IfOk result (λ count.
            count ≡ min (min self.old.piece (length buf.new)) (length self.old.left)) }
        ensures after { MatchResult result (λ count. self.new ≡ gave self.old count)
            (λ _. self.new ≡ missed self.old) }
    {
        if self.calls.begin() {
            return Err(self.calls.fail());
        }
        let count = give(&self.bytes[self.gone..], self.piece, buf);
        self.gone += count;
        Ok(count)
    }
}

// Copies the first bytes of `left` to the front of `buf`, at most `piece` of them, and says how
// many.
fn give(left: &[u8], piece: usize, buf: &mut [u8]) -> usize
    ensures count { result ≡ min (min piece (length buf.old)) (length left.now) }
    ensures copied { take result buf.new ≡ take result left.now }
{
    let count = piece.min(buf.len()).min(left.len());
    buf[..count].copy_from_slice(&left[..count]);
    count
}
