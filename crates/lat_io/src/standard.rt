//! Adapters over std's readers and writers: the edge to the real input and output.
ghost use Rattle.std.specs.Prelude.{◌≡◌, ◌^◌, ◌<◌, ◌≤◌, ◌↔◌, [], length, take, IfSome, IfOk, OnErr};
ghost use Rattle.std.specs.Io.KnownBytes.{Keeps, Consumes, Appends};
ghost use Rattle.lat_io.specs.Faults.{CountsFault};

use crate::faults::Failed;
use crate::sink::Sink;
use crate::source::Source;
use std::io::{Read, Write};
use std::marker::Model;

/// A source over a reader of std. It tells the bytes that std knows of the reader: those of a slice
/// or a cursor, but none of standard input, which is known only while the program runs. Each error
/// of the reader is a fault, and is counted.
#[derive(Drop)]
pub struct StdSource<I: Read> {
    reader: I,
    faults: u64,
}

impl<I: Read> Model for StdSource<I> {
    ghost use Rattle.std.specs.Prelude.{◌<◌, ◌^◌};
    ghost use Rattle.lat_io.specs.Streams.{Stream};

    ghost Value = { Stream };

    ghost view = { λ source. record { bytes = I.remaining source.reader; faults = source.faults } };

    ghost invariant = { λ source. source.faults < 2 ^ 64 };
}

impl<I: Read> StdSource<I> {
    /// A source over `reader`, with no fault so far.
    pub fn new(reader: I) -> StdSource<I>
        ensures reader { result.bytes ≡ I.remaining reader }
        ensures faults { result.faults ≡ 0 }
    {
        StdSource { reader, faults: 0 }
    }
}

impl<I: Read> Source for StdSource<I> {
    ghost left = { λ source. source.bytes };

    ghost faults = { λ source. source.faults };

    fn read(&mut self, buf: &mut [u8]) -> Result<usize, Failed>
        ensures within { IfOk result (λ count. count ≤ length buf.new) }
        ensures taken { IfOk result (λ count.
            Consumes self.old.bytes self.new.bytes (take count buf.new)) }
        ensures end { IfOk result (λ count. 0 < length buf.new →
            IfSome self.old.bytes (λ bytes. (count ≡ 0) ↔ (bytes ≡ []))) }
        ensures kept { OnErr result (Keeps self.old.bytes self.new.bytes) }

        // That it fails only where the reader does, no clause can say: std tells nothing of a
        // reader's errors.
        ensures counted { CountsFault result self.old.faults self.new.faults }
        ensures never_falls { self.old.faults ≤ self.new.faults }
        ensures fits { self.new.faults < 2 ^ 64 }
    {
        match self.reader.read(buf) {
            Ok(count) => Ok(count),
            Err(_) => {
                self.faults = self.faults.saturating_add(1);
                Err(Failed)
            }
        }
    }
}

/// A sink over a writer of std. It tells the bytes that std knows of the writer: those of a vector,
/// but none of standard output, which is known only while the program runs. Each error of the
/// writer is a fault, and so is a write that takes none of some bytes.
#[derive(Drop)]
pub struct StdSink<W: Write> {
    writer: W,
    faults: u64,
}

impl<W: Write> Model for StdSink<W> {
    ghost use Rattle.std.specs.Prelude.{◌<◌, ◌^◌};
    ghost use Rattle.lat_io.specs.Streams.{Stream};

    ghost Value = { Stream };

    ghost view = { λ sink. record { bytes = W.contents sink.writer; faults = sink.faults } };

    ghost invariant = { λ sink. sink.faults < 2 ^ 64 };
}

impl<W: Write> StdSink<W> {
    /// A sink over `writer`, with no fault so far.
    pub fn new(writer: W) -> StdSink<W>
        ensures writer { result.bytes ≡ W.contents writer }
        ensures faults { result.faults ≡ 0 }
    {
        StdSink { writer, faults: 0 }
    }
}

impl<W: Write> Sink for StdSink<W> {
    ghost held = { λ sink. sink.bytes };

    ghost faults = { λ sink. sink.faults };

    fn write(&mut self, bytes: &[u8]) -> Result<usize, Failed>
        ensures within { IfOk result (λ count. count ≤ length bytes.now) }
        ensures some { IfOk result (λ count. 0 < length bytes.now → 0 < count) }
        ensures appended { IfOk result (λ count.
            Appends self.old.bytes self.new.bytes (take count bytes.now)) }
        ensures kept { OnErr result (Keeps self.old.bytes self.new.bytes) }

        // That it fails only where the writer does, no clause can say: std tells nothing of a
        // writer's errors.
        ensures counted { CountsFault result self.old.faults self.new.faults }
        ensures never_falls { self.old.faults ≤ self.new.faults }
        ensures fits { self.new.faults < 2 ^ 64 }
    {
        match self.writer.write(bytes) {
            Ok(count) if count > 0 || bytes.is_empty() => Ok(count),
            _ => {
                self.faults = self.faults.saturating_add(1);
                Err(Failed)
            }
        }
    }
}
