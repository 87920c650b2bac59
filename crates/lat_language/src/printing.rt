//! Printing a script: its canonical text.

ghost use Rattle.std.specs.Prelude.{◌≡◌, [], ◌∷◌, ◌++◌, length, map, flat_map, codes, IfOk, OnOk};
ghost use Rattle.lat_language.specs.declared.commands.Command.TheVariants.{Field, EmbedSending, Meet};
ghost use Rattle.lat_language.specs.Commands.{op_text, command_words};
ghost use Rattle.lat_language.specs.Grammar.{header_words};
ghost use Rattle.lat_language.specs.CanonicalText.{line_of, name_at, schedule_lines, session_lines, canonical_text};
ghost use Rattle.lat_language.specs.PrivateAppending.{piece_text};

use crate::appending::{Piece, append_line, put_text};
use crate::commands::{Command, Op};
use crate::scripts::{SCHEDULE_NAMES, Script, SessionScript};
use lat_core::{Digits, FieldName, NoMemory};
use std::alloc::Global;

impl Op {
    // How the operation is written.
    fn text(self) -> &'static [u8]
        ensures { result.now ≡ op_text self }
    {
        match self {
            Op::First => b"first",
            Op::Second => b"second",
            Op::Third => b"third",
        }
    }
}

// Appends the header.
fn add_header(out: &mut Vec<u8>) -> Result<(), NoMemory>
    ensures { OnOk result (out.new.items ≡ out.old.items ++ line_of header_words) }
{
    append_line(out, &[Piece::Text(b"lattice"), Piece::Text(b"1")])
}

// Appends a line of a word and a name.
fn add_one<'x>(out: &mut Vec<u8>, verb: &'x [u8], first: &'x FieldName) -> Result<(), NoMemory>
    ensures { OnOk result (out.new.items
        ≡ out.old.items ++ line_of (verb.now ∷ first.now ∷ [])) }
{
    append_line(out, &[Piece::Text(verb), Piece::Text(first.bytes())])
}

// Appends a line of a word and two names.
fn add_two<'x>(
    out: &mut Vec<u8>,
    verb: &'x [u8],
    first: &'x FieldName,
    second: &'x FieldName,
) -> Result<(), NoMemory>
    ensures { OnOk result (out.new.items
        ≡ out.old.items ++ line_of (verb.now ∷ first.now ∷ second.now ∷ [])) }
{
    append_line(
        out,
        &[
            Piece::Text(verb),
            Piece::Text(first.bytes()),
            Piece::Text(second.bytes()),
        ],
    )
}

// Appends a line of a word and three names.
fn add_three<'x>(
    out: &mut Vec<u8>,
    verb: &'x [u8],
    first: &'x FieldName,
    second: &'x FieldName,
    third: &'x FieldName,
) -> Result<(), NoMemory>
    ensures { OnOk result (out.new.items
        ≡ out.old.items ++ line_of (verb.now ∷ first.now ∷ second.now ∷ third.now ∷ [])) }
{
    append_line(
        out,
        &[
            Piece::Text(verb),
            Piece::Text(first.bytes()),
            Piece::Text(second.bytes()),
            Piece::Text(third.bytes()),
        ],
    )
}

// Appends a line of a word, a name, a word and a name.
fn add_joined<'x>(
    out: &mut Vec<u8>,
    verb: &'x [u8],
    first: &'x FieldName,
    joint: &'x [u8],
    second: &'x FieldName,
) -> Result<(), NoMemory>
    ensures { OnOk result (out.new.items
        ≡ out.old.items ++ line_of (verb.now ∷ first.now ∷ joint.now ∷ second.now ∷ [])) }
{
    append_line(
        out,
        &[
            Piece::Text(verb),
            Piece::Text(first.bytes()),
            Piece::Text(joint),
            Piece::Text(second.bytes()),
        ],
    )
}

// Appends a line of a word, two names and one more word.
fn add_ending<'x>(
    out: &mut Vec<u8>,
    verb: &'x [u8],
    first: &'x FieldName,
    second: &'x FieldName,
    last: Piece<'x>,
) -> Result<(), NoMemory>
    ensures { OnOk result (out.new.items
        ≡ out.old.items ++ line_of (verb.now ∷ first.now ∷ second.now ∷ piece_text last.entry ∷ [])) }
{
    append_line(
        out,
        &[
            Piece::Text(verb),
            Piece::Text(first.bytes()),
            Piece::Text(second.bytes()),
            last,
        ],
    )
}

// Appends the line that declares a field.
fn add_field<'x>(
    out: &mut Vec<u8>,
    name: &'x FieldName,
    p: u32,
    poly: &'x Digits,
) -> Result<(), NoMemory>
    ensures { OnOk result (out.new.items
        ≡ out.old.items ++ line_of (command_words (Field name.now p poly.now))) }
{
    append_line(
        out,
        &[
            Piece::Text(b"field"),
            Piece::Text(name.bytes()),
            Piece::Number(p),
            Piece::Numbers(poly.numbers()),
        ],
    )
}

// Appends the line that embeds a field with a prescribed image.
fn add_sending<'x>(
    out: &mut Vec<u8>,
    from: &'x FieldName,
    into: &'x FieldName,
    value: &'x FieldName,
    image: &'x FieldName,
) -> Result<(), NoMemory>
    ensures { OnOk result (out.new.items ≡ out.old.items
        ++ line_of (command_words (EmbedSending from.now into.now value.now image.now))) }
{
    append_line(
        out,
        &[
            Piece::Text(b"embed"),
            Piece::Text(from.bytes()),
            Piece::Text(b"into"),
            Piece::Text(into.bytes()),
            Piece::Text(b"sending"),
            Piece::Text(value.bytes()),
            Piece::Text(b"to"),
            Piece::Text(image.bytes()),
        ],
    )
}

// Appends the line that asks where two fields meet.
fn add_meet<'x>(
    out: &mut Vec<u8>,
    first: &'x FieldName,
    second: &'x FieldName,
    within: &'x FieldName,
) -> Result<(), NoMemory>
    ensures { OnOk result (out.new.items
        ≡ out.old.items ++ line_of (command_words (Meet first.now second.now within.now))) }
{
    append_line(
        out,
        &[
            Piece::Text(b"meet"),
            Piece::Text(first.bytes()),
            Piece::Text(second.bytes()),
            Piece::Text(b"in"),
            Piece::Text(within.bytes()),
        ],
    )
}

// Appends the line of a command.
fn add_command(out: &mut Vec<u8>, command: &Command) -> Result<(), NoMemory>
    ensures { OnOk result (out.new.items ≡ out.old.items ++ line_of (command_words command.now)) }
{
    match command {
        Command::Field { name, p, poly } => add_field(out, name, *p, poly),
        Command::Embed { from, into } => add_joined(out, b"embed", from, b"into", into),
        Command::EmbedSending {
            from,
            into,
            value,
            image,
        } => add_sending(out, from, into, value, image),
        Command::Sync => append_line(out, &[Piece::Text(b"sync")]),
        Command::Let {
            result,
            field,
            digits,
        } => add_ending(out, b"let", result, field, Piece::Numbers(digits.numbers())),
        Command::Add {
            result,
            left,
            right,
        } => add_three(out, b"add", result, left, right),
        Command::Mul {
            result,
            left,
            right,
        } => add_three(out, b"mul", result, left, right),
        Command::Inv { result, value } => add_two(out, b"inv", result, value),
        Command::Pow {
            result,
            value,
            exponent,
        } => add_ending(out, b"pow", result, value, Piece::LongNumber(*exponent)),
        Command::Frob { result, value } => add_two(out, b"frob", result, value),
        Command::Trace { result, value } => add_two(out, b"trace", result, value),
        Command::Norm { result, value } => add_two(out, b"norm", result, value),
        Command::Lift { result, value, to } => add_three(out, b"lift", result, value, to),
        Command::Apply { result, op, value } => add_joined(out, b"apply", result, op.text(), value),
        Command::Show { value } => add_one(out, b"show", value),
        Command::Map { from, into } => add_two(out, b"map", from, into),
        Command::Meet {
            first,
            second,
            within,
        } => add_meet(out, first, second, within),
        Command::Common { first, second } => add_two(out, b"common", first, second),
        Command::MinPoly { value } => add_one(out, b"minpoly", value),
        Command::MinPolyOver { value, over } => add_joined(out, b"minpoly", value, b"over", over),
        Command::List { field } => add_one(out, b"list", field),
        Command::Count => append_line(out, &[Piece::Text(b"count")]),
    }
}

// Appends the lines of commands.
fn add_commands(out: &mut Vec<u8>, commands: &[Command]) -> Result<(), NoMemory>
    ensures { OnOk result (out.new.items
        ≡ out.old.items ++ flat_map line_of (map command_words commands.now)) }
{
    for command in commands {
        add_command(out, command)?;
    }
    Ok(())
}

// Appends the lines of a session.
fn add_session(out: &mut Vec<u8>, session: &SessionScript) -> Result<(), NoMemory>
    ensures { OnOk result (out.new.items
        ≡ out.old.items ++ flat_map line_of (session_lines session.now)) }
{
    add_one(out, b"session", &session.name)?;
    add_commands(out, session.commands.items())
}

// Appends the lines of sessions.
fn add_sessions(out: &mut Vec<u8>, sessions: &[SessionScript]) -> Result<(), NoMemory>
    ensures { OnOk result (out.new.items
        ≡ out.old.items ++ flat_map line_of (flat_map session_lines sessions.now)) }
{
    for session in sessions {
        add_session(out, session)?;
    }
    Ok(())
}

// The name of the session at this place; no bytes where there is no session.
fn name_at_place(sessions: &[SessionScript], place: u8) -> &[u8]
    ensures { result.now ≡ name_at sessions.now place }
{
    match sessions.get(usize::from(place)) {
        Some(session) => session.name.bytes(),
        None => b"",
    }
}

// Appends a line of a schedule.
fn add_schedule_line(
    out: &mut Vec<u8>,
    sessions: &[SessionScript],
    places: &[u8],
) -> Result<(), NoMemory>
    ensures { OnOk result (out.new.items
        ≡ out.old.items ++ line_of (codes "schedule" ∷ map (name_at sessions.now) places.now)) }
{
    put_text(out, b"schedule")?;
    for place in places {
        put_text(out, b" ")?;
        put_text(out, name_at_place(sessions, *place))?;
    }
    put_text(out, b"\n")
}

// Appends the lines of a schedule.
fn add_schedule(
    out: &mut Vec<u8>,
    sessions: &[SessionScript],
    places: &[u8],
) -> Result<(), NoMemory>
    ensures { OnOk result (out.new.items ≡ out.old.items
        ++ flat_map line_of (schedule_lines (map (name_at sessions.now) places.now))) }
{
    for n in 0..places.len().div_ceil(SCHEDULE_NAMES) {
        let start = n * SCHEDULE_NAMES;
        let end = places.len().min(start + SCHEDULE_NAMES);
        add_schedule_line(out, sessions, &places[start..end])?;
    }
    Ok(())
}

/// The canonical text of a script: the header, the prologue's commands, for each session its
/// `session` line and its commands, and the schedule in lines of `SCHEDULE_NAMES` names, of which
/// the last may have fewer. Words are separated by one space, and each line ends with a line feed.
/// A place of the schedule at which no session stands is printed as a name without bytes. An `Err`
/// comes only where memory is refused.
pub fn print_script(alloc: Global, script: &Script) -> Result<Vec<u8>, NoMemory>
    ensures { IfOk result (λ text. text.items ≡ canonical_text script.now) }
{
    let mut out = Vec::new(alloc);
    add_header(&mut out)?;
    add_commands(&mut out, script.prologue.items())?;
    add_sessions(&mut out, script.sessions.items())?;
    let sessions = script.sessions.items();
    add_schedule(&mut out, sessions, script.schedule.items())?;
    Ok(out)
}
