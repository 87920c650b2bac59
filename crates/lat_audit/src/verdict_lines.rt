//! The lines that are printed of a text that is judged. They take no memory.

ghost use Rattle.std.specs.Prelude.{◌≡◌, ◌+◌, ◌*◌, ◌≤◌, ◌++◌, length, codes, decimal};
ghost use Rattle.lat_language.specs.Texts.{listed_text};
ghost use Rattle.lat_audit.specs.VerdictTexts.{verdict_text, dump_too_long_text};

use crate::verdicts::AuditVerdict;
use arrayvec::ArrayVec;
use itoa::Buffer;
use std::marker::Model;

/// The most bytes of a dump that a program reads.
pub const MAX_DUMP: usize = 8_388_608;

// The most bytes of a number behind a space.
const MAX_LISTED: usize = 11;

// The most numbers of a line, and the most bytes of its words.
const MAX_NUMBERS: usize = 4;

const MAX_WORDS: usize = 9;

// The most bytes of a line: its words, its numbers and a line feed.
const MAX_LINE: usize = MAX_WORDS + MAX_NUMBERS * MAX_LISTED + 1;

/// The line of a verdict, in fixed room.
#[derive(Drop)]
pub struct VerdictLine {
    bytes: ArrayVec<u8, MAX_LINE>,
}

impl Model for VerdictLine {
    ghost use Rattle.std.specs.Prelude.{List, ℕ};

    ghost Value = { List ℕ };

    ghost view = { λ line. line.bytes.items };
}

impl VerdictLine {
    /// The bytes of the line.
    pub fn bytes(&self) -> &[u8]
        ensures { result.now ≡ self.now }
    {
        self.bytes.as_slice()
    }
}

// Appends a text, for which there is room.
fn put(bytes: &mut ArrayVec<u8, MAX_LINE>, text: &[u8])
    requires { length bytes.old.items + length text.now ≤ MAX_LINE }
    ensures { bytes.new.items ≡ bytes.old.items ++ text.now }
{
    bytes.try_extend_from_slice(text).unwrap();
}

// Appends a number behind a space, for which there is room.
fn put_listed(bytes: &mut ArrayVec<u8, MAX_LINE>, number: u32)
    requires { length bytes.old.items + MAX_LISTED ≤ MAX_LINE }
    ensures appended { bytes.new.items ≡ bytes.old.items ++ codes " " ++ decimal number }
    ensures short { length bytes.new.items ≤ length bytes.old.items + MAX_LISTED }
{
    let mut buffer = Buffer::new();
    put(bytes, b" ");
    put(bytes, buffer.format(number).as_bytes());
}

// Appends numbers, each behind a space, for which there is room.
fn put_all(bytes: &mut ArrayVec<u8, MAX_LINE>, numbers: &[u32])
    requires { length bytes.old.items + length numbers.now * MAX_LISTED ≤ MAX_LINE }
    ensures appended { bytes.new.items ≡ bytes.old.items ++ listed_text numbers.now }
    ensures short { length bytes.new.items
        ≤ length bytes.old.items + length numbers.now * MAX_LISTED }
{
    for number in numbers {
        put_listed(bytes, *number);
    }
}

// The line of these words and numbers.
fn line(words: &[u8], numbers: &[u32]) -> VerdictLine
    requires words { length words.now ≤ MAX_WORDS }
    requires numbers { length numbers.now ≤ MAX_NUMBERS }
    ensures { result ≡ words.now ++ listed_text numbers.now ++ codes "\n" }
{
    let mut bytes = ArrayVec::new();
    put(&mut bytes, words);
    put_all(&mut bytes, numbers);
    put(&mut bytes, b"\n");
    VerdictLine { bytes }
}

/// The line of a verdict, with its line feed: `good`, `bad text N` with the number of the line,
/// `bad field I`, `bad map I J` or `bad rule R I J K` with the numbers of the rule and of the fields.
/// It has no bytes where memory was refused. Takes no memory.
pub fn verdict_line(verdict: &AuditVerdict) -> VerdictLine
    ensures { result ≡ verdict_text verdict.now }
{
    match verdict {
        AuditVerdict::Good(_) => line(b"good", &[]),
        AuditVerdict::BadText(number) => line(b"bad text", &[*number]),
        AuditVerdict::BadField(i) => line(b"bad field", &[*i]),
        AuditVerdict::BadMap(i, j) => line(b"bad map", &[*i, *j]),
        AuditVerdict::BadRule(rule, i, j, k) => line(b"bad rule", &[*rule, *i, *j, *k]),
        AuditVerdict::NoMemory => VerdictLine {
            bytes: ArrayVec::new(),
        },
    }
}

/// The line for a text that is longer than `MAX_DUMP` bytes, which names that limit.
pub fn dump_too_long_line() -> &'static [u8]
    ensures { result.now ≡ dump_too_long_text MAX_DUMP }
{
    b"bad dump longer than 8388608 bytes\n"
}
