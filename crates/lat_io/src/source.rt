//! Sources of bytes, and reading one to its end.
ghost use Rattle.std.specs.Prelude.{◌≡◌, ℕ, List, [], ◌+◌, ◌^◌, ◌<◌, ◌≤◌, ◌↔◌, length, take, vec_len, Option, IfSome, IfOk, OnErr, IfErr, IsOkUnless, IsErrOf};
ghost use Rattle.std.specs.Option.{ForSome};
ghost use Rattle.std.specs.Io.KnownBytes.{Keeps, Consumes};
ghost use Rattle.lat_io.specs.Faults.{CountsFault, one_more};
ghost use Rattle.lat_io.specs.Source.{ReadWhole, TookBefore};

use crate::faults::{Failed, ReadFault};
use std::alloc::Global;

/// Something that gives bytes, in pieces.
pub trait Source {
    // The bytes that are left, where the source tells them.
    ghost left: { Self → Option (List ℕ) };

    // How many faults there were. At its last value this count stays.
    ghost faults: { Self → ℕ };

    /// Moves the first bytes that are left to the front of `buf`, and says how many. What stands
    /// after them in `buf` is unspecified.
    ///
    /// It gives 0 for a `buf` with room only at the end of the input. On [`Failed`] no byte is
    /// taken.
    fn read(&mut self, buf: &mut [u8]) -> Result<usize, Failed>
        ensures within { IfOk result (λ count. count ≤ length buf.new) }
        ensures taken { IfOk result (λ count.
            Consumes (left self.old) (left self.new) (take count buf.new)) }
        ensures end { IfOk result (λ count. 0 < length buf.new →
            IfSome (left self.old) (λ bytes. (count ≡ 0) ↔ (bytes ≡ []))) }
        ensures kept { OnErr result (Keeps (left self.old) (left self.new)) }

        ensures counted { CountsFault result (faults self.old) (faults self.new) }
        ensures never_falls { faults self.old ≤ faults self.new }
        ensures fits { faults self.new < 2 ^ 64 };
}

/// The largest limit that [`read_all`] takes.
pub const MAX_LIMIT: usize = 8_388_608;

// How many bytes one read asks for.
const PIECE: usize = 4096;

/// Reads `source` to its end, and gives all bytes that it had left, at most `limit` of them.
///
/// Requires that `limit` is at most [`MAX_LIMIT`].
///
/// Gives [`ReadFault::TooLong`] with `limit + 1` exactly where the source gave that many bytes, and
/// then it is read no further; [`ReadFault::Failed`] exactly where the source counted a fault in
/// this call, and then it is read no further; and [`ReadFault::NoMemory`], only where it took a
/// byte. Where it fails, the first bytes of the source are gone.
pub fn read_all<S: Source>(
    alloc: Global,
    source: &mut S,
    limit: usize,
) -> Result<Vec<u8>, ReadFault>
    requires limit_fits { limit ≤ MAX_LIMIT }
    ensures whole { IfOk result (λ bytes.
        ReadWhole (S.left source.old) (S.left source.new) bytes.items) }
    ensures within { IfOk result (λ bytes. vec_len bytes ≤ limit) }
    ensures fault { IfErr result (λ fault.
        TookBefore fault limit (S.left source.old) (S.left source.new)) }

    // It ends at the first fault, and answers each fault that was counted.
    ensures failed { IsErrOf result ReadFault.Failed →
        S.faults source.new ≡ one_more (S.faults source.old) }
    ensures unfailed { ¬ IsErrOf result ReadFault.Failed →
        S.faults source.new ≡ S.faults source.old }
    ensures never_falls { S.faults source.old ≤ S.faults source.new }

    // Where the source tells its bytes and no read fails, their number decides, but for memory.
    ensures short { ¬ IsErrOf result ReadFault.Failed →
        ForSome (S.left source.old) (λ left. length left ≤ limit →
        IsOkUnless result ReadFault.NoMemory) }
    ensures long { ¬ IsErrOf result ReadFault.Failed →
        ForSome (S.left source.old) (λ left. limit < length left →
        ¬ IsErrOf result ReadFault.NoMemory → IsErrOf result (ReadFault.TooLong (limit + 1))) }
{
    let mut bytes = Vec::new(alloc);
    let mut piece = [0u8; PIECE];
    'pieces: loop {
        let room = limit + 1 - bytes.len();
        let asked = room.min(PIECE);
        let count = source.read(&mut piece[..asked])?;
        if count == 0 {
            return Ok(bytes);
        }
        if count == room {
            return Err(ReadFault::TooLong(limit + 1));
        }
        bytes.extend_from_slice(&piece[..count])?;
    }
}
