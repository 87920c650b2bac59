//! The lines that are printed where no script is played. They take no memory.

ghost use Rattle.std.specs.Prelude.{◌≡◌, ◌+◌, ◌≤◌, ◌++◌, length, decimal};
ghost use Rattle.lat_language.specs.declared.scripts.TheConstants.{MAX_SCRIPT};
ghost use Rattle.lat_language.specs.Texts.{bad_line_text, too_long_text, usage_text};

use arrayvec::ArrayVec;
use itoa::Buffer;
use std::marker::Model;

// The most digits of a number.
const MAX_NUMBER: usize = 10;

// The most bytes of the line for a bad script: its words, and two numbers.
const MAX_BAD_LINE: usize = 23 + 2 * MAX_NUMBER;

/// The line for a bad script, in fixed room.
#[derive(Drop)]
pub struct BadLine {
    bytes: ArrayVec<u8, MAX_BAD_LINE>,
}

impl Model for BadLine {
    ghost use Rattle.std.specs.Prelude.{List, ℕ};

    ghost Value = { List ℕ };

    ghost view = { λ line. line.bytes.items };
}

impl BadLine {
    /// The bytes of the line.
    pub fn bytes(&self) -> &[u8]
        ensures { result.now ≡ self.now }
    {
        self.bytes.as_slice()
    }
}

// Appends a text, for which there is room.
fn put(bytes: &mut ArrayVec<u8, MAX_BAD_LINE>, text: &[u8])
    requires { length bytes.old.items + length text.now ≤ MAX_BAD_LINE }
    ensures { bytes.new.items ≡ bytes.old.items ++ text.now }
{
    bytes.try_extend_from_slice(text).unwrap();
}

// Appends a number, for whose digits there is room.
fn put_number(bytes: &mut ArrayVec<u8, MAX_BAD_LINE>, number: u32)
    requires { length bytes.old.items + MAX_NUMBER ≤ MAX_BAD_LINE }
    ensures appended { bytes.new.items ≡ bytes.old.items ++ decimal number }
    ensures short { length bytes.new.items ≤ length bytes.old.items + MAX_NUMBER }
{
    let mut buffer = Buffer::new();
    put(bytes, buffer.format(number).as_bytes());
}

/// The line for a bad script, `bad script line N kind K`. Takes no memory.
pub fn bad_line(number: u32, kind: u32) -> BadLine
    ensures { result ≡ bad_line_text number kind }
{
    let mut bytes = ArrayVec::new();
    put(&mut bytes, b"bad script line ");
    put_number(&mut bytes, number);
    put(&mut bytes, b" kind ");
    put_number(&mut bytes, kind);
    put(&mut bytes, b"\n");
    BadLine { bytes }
}

/// The line for a script that is longer than `MAX_SCRIPT` bytes, which names that limit.
pub fn too_long_line() -> &'static [u8]
    ensures { result.now ≡ too_long_text MAX_SCRIPT }
{
    b"bad script longer than 1048576 bytes\n"
}

/// The line that names the words of the command line.
pub fn usage_line() -> &'static [u8]
    ensures { result.now ≡ usage_text }
{
    b"usage: lattice_tool solo|share|dump|audit|gen SEED FIELDS EMBEDS\n"
}
