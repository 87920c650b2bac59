//! Sinks for bytes, and writing a whole piece to one.
ghost use Rattle.std.specs.Prelude.{◌≡◌, ℕ, List, ◌^◌, ◌<◌, ◌≤◌, length, take, Option, IfOk, OnOk, OnErr, IsOk};
ghost use Rattle.std.specs.Io.KnownBytes.{Keeps, Appends};
ghost use Rattle.lat_io.specs.Faults.{CountsFault};
ghost use Rattle.lat_io.specs.Sink.{AppendsPart};

use crate::faults::Failed;

/// Something that takes bytes, in pieces.
pub trait Sink {
    // The bytes that the sink holds, where it tells them.
    ghost held: { Self → Option (List ℕ) };

    // How many faults there were. At its last value this count stays.
    ghost faults: { Self → ℕ };

    /// Appends the first of `bytes` to what the sink holds, and says how many, at least one where
    /// there are any. On [`Failed`] what it holds stays.
    fn write(&mut self, bytes: &[u8]) -> Result<usize, Failed>
        ensures within { IfOk result (λ count. count ≤ length bytes.now) }
        ensures some { IfOk result (λ count. 0 < length bytes.now → 0 < count) }
        ensures appended { IfOk result (λ count.
            Appends (held self.old) (held self.new) (take count bytes.now)) }
        ensures kept { OnErr result (Keeps (held self.old) (held self.new)) }

        ensures counted { CountsFault result (faults self.old) (faults self.new) }
        ensures never_falls { faults self.old ≤ faults self.new }
        ensures fits { faults self.new < 2 ^ 64 };
}

/// Appends all of `bytes` to what `sink` holds. It takes no memory.
///
/// Gives [`Failed`] exactly where the sink counted a fault in this call, and then it is written no
/// further. A front of `bytes` was appended, and not all of them.
pub fn write_all_of<K: Sink>(sink: &mut K, bytes: &[u8]) -> Result<(), Failed>
    ensures whole { OnOk result (Appends (K.held sink.old) (K.held sink.new) bytes.now) }
    ensures part { OnErr result (AppendsPart (K.held sink.old) (K.held sink.new) bytes.now) }

    ensures counted { CountsFault result (K.faults sink.old) (K.faults sink.new) }
    ensures never_falls { K.faults sink.old ≤ K.faults sink.new }
{
    let mut written = 0;
    while written < bytes.len() {
        written += sink.write(&bytes[written..])?;
    }
    Ok(())
}
