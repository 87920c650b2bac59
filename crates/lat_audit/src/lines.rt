//! Appending lines to a text.

ghost use Rattle.std.specs.Prelude.{◌≡◌, ◌++◌, map, decimal, OnOk};
ghost use Rattle.lat_language.specs.Commands.{digits_text};
ghost use Rattle.lat_language.specs.CanonicalText.{line_of};
ghost use Rattle.lat_language.specs.PrivateAppending.{separator};
ghost use Rattle.lat_audit.specs.PrivateDumps.{word_text};

use itoa::Buffer;
use lat_core::NoMemory;

// A word of a line: a text as it stands, a number, or a coefficient list.
#[derive(Clone, Copy)]
pub(crate) enum Word<'a> {
    Text(&'a [u8]),
    Number(u32),
    Numbers(&'a [u8]),
}

fn put_text(out: &mut Vec<u8>, text: &[u8]) -> Result<(), NoMemory>
    ensures { OnOk result (out.new.items ≡ out.old.items ++ text.now) }
{
    out.extend_from_slice(text)?;
    Ok(())
}

fn put_number(out: &mut Vec<u8>, number: u32) -> Result<(), NoMemory>
    ensures { OnOk result (out.new.items ≡ out.old.items ++ decimal number) }
{
    let mut buffer = Buffer::new();
    put_text(out, buffer.format(number).as_bytes())
}

// The byte before the item at this place, if it isn't the first.
#[tactic(auto, using(lat_language::proofs::AppendedTexts::separator_first, lat_language::proofs::AppendedTexts::separator_next))]
fn put_separator(out: &mut Vec<u8>, place: usize, byte: u8) -> Result<(), NoMemory>
    ensures { OnOk result (out.new.items ≡ out.old.items ++ separator byte place) }
{
    if place == 0 {
        return Ok(());
    }
    put_text(out, &[byte])
}

fn put_numbers(out: &mut Vec<u8>, numbers: &[u8]) -> Result<(), NoMemory>
    ensures { OnOk result (out.new.items ≡ out.old.items ++ digits_text numbers.now) }
{
    for (i, number) in numbers.iter().enumerate() {
        put_separator(out, i, b',')?;
        put_number(out, u32::from(*number))?;
    }
    Ok(())
}

fn put(out: &mut Vec<u8>, word: &Word) -> Result<(), NoMemory>
    ensures { OnOk result (out.new.items ≡ out.old.items ++ word_text word.now) }
{
    match word {
        Word::Text(text) => put_text(out, text),
        Word::Number(number) => put_number(out, *number),
        Word::Numbers(numbers) => put_numbers(out, numbers),
    }
}

// Appends the words as a line: separated by one space, and a line feed after them.
pub(crate) fn add_line(out: &mut Vec<u8>, words: &[Word]) -> Result<(), NoMemory>
    ensures { OnOk result (out.new.items ≡ out.old.items ++ line_of (map word_text words.now)) }
{
    for (i, word) in words.iter().enumerate() {
        put_separator(out, i, b' ')?;
        put(out, word)?;
    }
    put_text(out, b"\n")
}
