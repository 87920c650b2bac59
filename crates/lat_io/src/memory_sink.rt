//! A sink over memory, for tests: it takes bytes in pieces up to its room, and fails where it is
//! told to.
ghost use Rattle.std.specs.Prelude.{◌≡◌, ◌-◌, ◌^◌, ◌<◌, ◌≤◌, ◌↔◌, ◌⊎◌, length, take, min, Some, IfOk, OnErr, IsOk, IsErr, MatchResult, Contains};
ghost use Rattle.std.specs.Io.KnownBytes.{Keeps, Appends};
ghost use Rattle.lat_io.specs.Faults.{CountsFault};
ghost use Rattle.lat_io.specs.Memory.{new_store, took, refused};

use crate::calls::Calls;
use crate::faults::{Failed, NoMemory};
use crate::sink::Sink;
use std::alloc::Global;
use std::marker::Model;

/// A sink over memory. It tells its bytes.
#[derive(Drop)]
pub struct MemorySink {
    held: Vec<u8>,
    room: usize,
    piece: usize,
    calls: Calls,
}

impl Model for MemorySink {
    ghost use Rattle.std.specs.Prelude.{◌≤◌, vec_len};
    ghost use Rattle.std.specs.Vec.{vec_capacity};
    ghost use Rattle.lat_io.specs.Memory.{Store};

    ghost Value = { Store };

    ghost view = { λ sink. record {
      held = sink.held.items;
      room = sink.room;
      piece = sink.piece;
      fails = sink.calls.fails.items;
      call = sink.calls.next;
      faults = sink.calls.faults;
    } };

    ghost invariant = { λ sink. (vec_len sink.held ≤ sink.room)
        × (sink.room ≤ vec_capacity sink.held) × (1 ≤ sink.piece) };
}

impl MemorySink {
    /// A sink that holds nothing, with room for `room` bytes, which takes at most `piece` bytes in
    /// one call. The calls whose numbers stand in `fails` fail, the first having the number 1, and
    /// those with bytes where the sink is full. It counts the calls that failed.
    ///
    /// All memory is taken here, `room` bytes at once. Requires that `piece` is at least 1.
    pub fn open(
        alloc: Global,
        room: usize,
        piece: usize,
        fails: Vec<u32>,
    ) -> Result<MemorySink, NoMemory>
        requires piece_fits { 1 ≤ piece }
        ensures made { IfOk result (λ sink. sink ≡ new_store room piece fails.items) }
        ensures without_room { room ≡ 0 → IsOk result }
    {
        let held = Vec::with_capacity(alloc, room)?;
        Ok(MemorySink {
            held,
            room,
            piece,
            calls: Calls::new(fails),
        })
    }

    /// The bytes that the sink holds.
    pub fn bytes(&self) -> &[u8]
        ensures value { result.now ≡ self.now.held }
        ensures within { length self.now.held ≤ self.now.room }
    {
        self.held.as_slice()
    }
}

impl Sink for MemorySink {
    ghost held = { λ sink. Some sink.held };

    ghost faults = { λ sink. sink.faults };

    /// Fails exactly where the number of this call is among those that fail, or there are bytes and
    /// the sink is full; else it takes as many bytes as it is given, at most a piece and at most
    /// its room.
    fn write(&mut self, bytes: &[u8]) -> Result<usize, Failed>
        ensures within { IfOk result (λ count. count ≤ length bytes.now) }
        ensures some { IfOk result (λ count. 0 < length bytes.now → 0 < count) }
        ensures appended { IfOk result (λ count.
            Appends (Some self.old.held) (Some self.new.held) (take count bytes.now)) }
        ensures kept { OnErr result (Keeps (Some self.old.held) (Some self.new.held)) }

        ensures counted { CountsFault result self.old.faults self.new.faults }
        ensures never_falls { self.old.faults ≤ self.new.faults }
        ensures fits { self.new.faults < 2 ^ 64 }

        // Beyond what each sink does.
        ensures fails { IsErr result ↔ (Contains self.old.fails self.old.call
            ⊎ ((0 < length bytes.now) × (length self.old.held ≡ self.old.room))) }
        ensures takes { IfOk result (λ count. count ≡
            min (min self.old.piece (length bytes.now)) (self.old.room - length self.old.held)) }
        ensures after { MatchResult result
            (λ count. self.new ≡ took self.old (take count bytes.now))
            (λ _. self.new ≡ refused self.old) }
    {
        let is_full = !bytes.is_empty() && self.held.len() == self.room;
        if self.calls.begin() || is_full {
            return Err(self.calls.fail());
        }
        let spare = self.room - self.held.len();
        let count = self.piece.min(bytes.len()).min(spare);
        self.held.extend_from_slice(&bytes[..count]).unwrap();
        Ok(count)
    }
}
