//! Appending texts.

ghost use Rattle.std.specs.Prelude.{◌≡◌, ◌++◌, map, decimal, OnOk, OnErr};
ghost use Rattle.lat_language.specs.Commands.{digits_text};
ghost use Rattle.lat_language.specs.Texts.{values_text, listed_text};
ghost use Rattle.lat_language.specs.CanonicalText.{line_of};
ghost use Rattle.lat_language.specs.PrivateAppending.{Extends, separator, piece_text, pieces_text};

use ff_field::Value;
use itoa::Buffer;
use lat_core::NoMemory;

// A piece of a line: a text as it stands, a number of 32 or of 64 bits, a coefficient list, several
// of them, or numbers behind a space each.
#[derive(Clone, Copy)]
pub(crate) enum Piece<'a> {
    Text(&'a [u8]),
    Number(u32),
    LongNumber(u64),
    Numbers(&'a [u8]),
    Values(&'a [Value]),
    Listed(&'a [u32]),
}

pub(crate) fn put_text(out: &mut Vec<u8>, text: &[u8]) -> Result<(), NoMemory>
    ensures ok { OnOk result (out.new.items ≡ out.old.items ++ text.now) }
    ensures err { OnErr result (out.new.items ≡ out.old.items) }
{
    out.extend_from_slice(text)?;
    Ok(())
}

fn put_number(out: &mut Vec<u8>, number: u32) -> Result<(), NoMemory>
    ensures ok { OnOk result (out.new.items ≡ out.old.items ++ decimal number) }
    ensures err { OnErr result (out.new.items ≡ out.old.items) }
{
    let mut buffer = Buffer::new();
    put_text(out, buffer.format(number).as_bytes())
}

fn put_long_number(out: &mut Vec<u8>, number: u64) -> Result<(), NoMemory>
    ensures ok { OnOk result (out.new.items ≡ out.old.items ++ decimal number) }
    ensures err { OnErr result (out.new.items ≡ out.old.items) }
{
    let mut buffer = Buffer::new();
    put_text(out, buffer.format(number).as_bytes())
}

#[tactic(auto, using(crate::proofs::AppendedTexts::separator_first, crate::proofs::AppendedTexts::separator_next))]
// The byte before the item at this place, if it isn't the first.
fn put_separator(out: &mut Vec<u8>, place: usize, byte: u8) -> Result<(), NoMemory>
    ensures ok { OnOk result (out.new.items ≡ out.old.items ++ separator byte place) }
    ensures err { OnErr result (out.new.items ≡ out.old.items) }
{
    if place == 0 {
        return Ok(());
    }
    put_text(out, &[byte])
}

#[tactic(auto, using(crate::proofs::AppendedTexts::extends_text, crate::proofs::AppendedTexts::extends_after))]
fn put_numbers(out: &mut Vec<u8>, numbers: &[u8]) -> Result<(), NoMemory>
    ensures ok { OnOk result (out.new.items ≡ out.old.items ++ digits_text numbers.now) }
    ensures err { OnErr result (Extends out.old.items out.new.items) }
{
    for (i, number) in numbers.iter().enumerate() {
        put_separator(out, i, b',')?;
        put_number(out, u32::from(*number))?;
    }
    Ok(())
}

#[tactic(auto, using(crate::proofs::AppendedTexts::extends_text, crate::proofs::AppendedTexts::extends_after))]
fn put_values(out: &mut Vec<u8>, values: &[Value]) -> Result<(), NoMemory>
    ensures ok { OnOk result (out.new.items ≡ out.old.items ++ values_text values.now) }
    ensures err { OnErr result (Extends out.old.items out.new.items) }
{
    for (i, value) in values.iter().enumerate() {
        put_separator(out, i, b';')?;
        put_numbers(out, value.digits())?;
    }
    Ok(())
}

#[tactic(auto, using(crate::proofs::AppendedTexts::extends_text, crate::proofs::AppendedTexts::extends_after))]
fn put_listed(out: &mut Vec<u8>, numbers: &[u32]) -> Result<(), NoMemory>
    ensures ok { OnOk result (out.new.items ≡ out.old.items ++ listed_text numbers.now) }
    ensures err { OnErr result (Extends out.old.items out.new.items) }
{
    for number in numbers {
        put_text(out, b" ")?;
        put_number(out, *number)?;
    }
    Ok(())
}

#[tactic(auto, using(crate::proofs::AppendedTexts::extends_same))]
fn put(out: &mut Vec<u8>, piece: &Piece) -> Result<(), NoMemory>
    ensures ok { OnOk result (out.new.items ≡ out.old.items ++ piece_text piece.now) }
    ensures err { OnErr result (Extends out.old.items out.new.items) }
{
    match piece {
        Piece::Text(text) => put_text(out, text),
        Piece::Number(number) => put_number(out, *number),
        Piece::LongNumber(number) => put_long_number(out, *number),
        Piece::Numbers(numbers) => put_numbers(out, numbers),
        Piece::Values(values) => put_values(out, values),
        Piece::Listed(numbers) => put_listed(out, numbers),
    }
}

#[tactic(auto, using(crate::proofs::AppendedTexts::extends_after))]
fn put_all(out: &mut Vec<u8>, pieces: &[Piece]) -> Result<(), NoMemory>
    ensures ok { OnOk result (out.new.items ≡ out.old.items ++ pieces_text pieces.now) }
    ensures err { OnErr result (Extends out.old.items out.new.items) }
{
    for piece in pieces {
        put(out, piece)?;
    }
    Ok(())
}

#[tactic(auto, using(crate::proofs::AppendedTexts::begins_with))]
// Appends the pieces in their order. Where memory is refused nothing is appended.
pub(crate) fn append(out: &mut Vec<u8>, pieces: &[Piece]) -> Result<(), NoMemory>
    ensures ok { OnOk result (out.new.items ≡ out.old.items ++ pieces_text pieces.now) }
    ensures err { OnErr result (out.new.items ≡ out.old.items) }
{
    let before = out.len();
    let Ok(()) = put_all(out, pieces) else {
        out.truncate(before);
        return Err(NoMemory);
    };
    Ok(())
}

// Appends the pieces as the words of a line: separated by one space, and a line feed after them.
pub(crate) fn append_line(out: &mut Vec<u8>, words: &[Piece]) -> Result<(), NoMemory>
    ensures { OnOk result (out.new.items ≡ out.old.items ++ line_of (map piece_text words.now)) }
{
    for (i, word) in words.iter().enumerate() {
        put_separator(out, i, b' ')?;
        put(out, word)?;
    }
    put_text(out, b"\n")
}
