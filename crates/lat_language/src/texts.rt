//! The lines of a transcript.

ghost use Rattle.std.specs.Prelude.{◌≡◌, [], ◌++◌, if◌then◌else◌, codes, decimal, OnOk, OnErr};
ghost use Rattle.lat_language.specs.Commands.{digits_text};
ghost use Rattle.lat_language.specs.PrivateAppending.{Extends};
ghost use Rattle.lat_language.specs.Texts.{step_text, refusal_text, reply_text, outcome_text, line_text, session_text, summary_text};

use crate::appending::{Piece, append};
use lat_core::{FieldName, Line, NoMemory, Outcome, Reply, SessionRefusal, StepRefusal};

// Appends a refusal that is its number alone.
fn add_plain(out: &mut Vec<u8>, text: &[u8]) -> Result<(), NoMemory>
    ensures ok { OnOk result (out.new.items ≡ out.old.items ++ (codes "refused " ++ text.now)) }
    ensures err { OnErr result (out.new.items ≡ out.old.items) }
{
    append(out, &[Piece::Text(b"refused "), Piece::Text(text)])
}

// Appends a refusal with a number.
fn add_one(out: &mut Vec<u8>, text: &[u8], number: u32) -> Result<(), NoMemory>
    ensures ok { OnOk result (out.new.items
        ≡ out.old.items ++ (codes "refused " ++ (text.now ++ decimal number))) }
    ensures err { OnErr result (out.new.items ≡ out.old.items) }
{
    append(
        out,
        &[
            Piece::Text(b"refused "),
            Piece::Text(text),
            Piece::Number(number),
        ],
    )
}

// Appends a refusal with two numbers.
fn add_two(out: &mut Vec<u8>, text: &[u8], first: u32, second: u32) -> Result<(), NoMemory>
    ensures ok { OnOk result (out.new.items ≡ out.old.items
        ++ (codes "refused " ++ (text.now ++ decimal first ++ codes " " ++ decimal second))) }
    ensures err { OnErr result (out.new.items ≡ out.old.items) }
{
    append(
        out,
        &[
            Piece::Text(b"refused "),
            Piece::Text(text),
            Piece::Number(first),
            Piece::Text(b" "),
            Piece::Number(second),
        ],
    )
}

// Appends a refusal with a name.
fn add_name<'x>(out: &mut Vec<u8>, text: &'x [u8], name: &'x FieldName) -> Result<(), NoMemory>
    ensures ok { OnOk result (out.new.items
        ≡ out.old.items ++ (codes "refused " ++ (text.now ++ name.now))) }
    ensures err { OnErr result (out.new.items ≡ out.old.items) }
{
    append(
        out,
        &[
            Piece::Text(b"refused "),
            Piece::Text(text),
            Piece::Text(name.bytes()),
        ],
    )
}

fn add_step_refusal(out: &mut Vec<u8>, refusal: &StepRefusal) -> Result<(), NoMemory>
    ensures ok { OnOk result
        (out.new.items ≡ out.old.items ++ (codes "refused " ++ step_text refusal.now)) }
    ensures err { OnErr result (out.new.items ≡ out.old.items) }
{
    match refusal {
        StepRefusal::NotInTable(p) => add_one(out, b"1 ", *p),
        StepRefusal::DegreeOutOfRange(degree) => add_one(out, b"2 ", *degree),
        StepRefusal::CoefficientTooLarge(place) => add_one(out, b"3 ", *place),
        StepRefusal::NotMonic => add_plain(out, b"4"),
        StepRefusal::NameTaken(number) => add_one(out, b"5 ", *number),
        StepRefusal::Reducible { factor } => append(
            out,
            &[
                Piece::Text(b"refused 6 "),
                Piece::Numbers(factor.coefficients()),
            ],
        ),
        StepRefusal::TooManyFields { have, need } => add_two(out, b"7 ", *have, *need),
        StepRefusal::UnknownField(name) => add_name(out, b"8 ", name),
        StepRefusal::DifferentCharacteristic(p, q) => add_two(out, b"9 ", *p, *q),
        StepRefusal::DegreeDoesNotDivide(m, n) => add_two(out, b"10 ", *m, *n),
        StepRefusal::WrongField(number) => add_one(out, b"11 ", *number),
        StepRefusal::NoCompatibleRoot => add_plain(out, b"12"),
    }
}

fn add_session_refusal(out: &mut Vec<u8>, refusal: &SessionRefusal) -> Result<(), NoMemory>
    ensures ok { OnOk result
        (out.new.items ≡ out.old.items ++ (codes "refused " ++ refusal_text refusal.now)) }
    ensures err { OnErr result (out.new.items ≡ out.old.items) }
{
    match refusal {
        SessionRefusal::CoefficientTooLarge(place) => add_one(out, b"3 ", *place),
        SessionRefusal::UnknownField(name) => add_name(out, b"8 ", name),
        SessionRefusal::NotEmbedded { i, j } => add_two(out, b"14 ", *i, *j),
        SessionRefusal::NotInImage => add_plain(out, b"15"),
        SessionRefusal::NoCommonField { a, b } => add_two(out, b"16 ", *a, *b),
        SessionRefusal::UnknownVariable(name) => add_name(out, b"17 ", name),
        SessionRefusal::ZeroInverse => add_plain(out, b"18"),
        SessionRefusal::TooManyVariables => add_plain(out, b"19"),
        SessionRefusal::TooManyCoefficients(len) => add_one(out, b"20 ", *len),
        SessionRefusal::HistoryFull(len) => add_one(out, b"21 ", *len),
    }
}

// What follows the number of a field that was there before.
fn already_word(already: bool) -> &'static [u8]
    ensures { result.now ≡ (if already then codes " already" else []) }
{
    if already { b" already" } else { b"" }
}

fn add_embedded(out: &mut Vec<u8>, image: &[u8], made: u32, linked: u32) -> Result<(), NoMemory>
    ensures ok { OnOk result (out.new.items ≡ out.old.items ++ (codes "ok embed "
        ++ digits_text image.now ++ codes " made " ++ decimal made ++ codes " linked "
        ++ decimal linked)) }
    ensures err { OnErr result (out.new.items ≡ out.old.items) }
{
    append(
        out,
        &[
            Piece::Text(b"ok embed "),
            Piece::Numbers(image),
            Piece::Text(b" made "),
            Piece::Number(made),
            Piece::Text(b" linked "),
            Piece::Number(linked),
        ],
    )
}

fn add_reply(out: &mut Vec<u8>, reply: &Reply) -> Result<(), NoMemory>
    ensures ok { OnOk result (out.new.items ≡ out.old.items ++ reply_text reply.now) }
    ensures err { OnErr result (out.new.items ≡ out.old.items) }
{
    match reply {
        Reply::Declared { number, already } => append(
            out,
            &[
                Piece::Text(b"ok field "),
                Piece::Number(*number),
                Piece::Text(already_word(*already)),
            ],
        ),
        Reply::Embedded {
            image,
            made,
            linked,
        } => add_embedded(out, image.digits(), *made, *linked),
        Reply::Synced => append(out, &[Piece::Text(b"ok sync")]),
        Reply::Refused(refusal) => add_step_refusal(out, refusal),
    }
}

fn add_outcome(out: &mut Vec<u8>, outcome: &Outcome) -> Result<(), NoMemory>
    ensures ok { OnOk result (out.new.items ≡ out.old.items ++ outcome_text outcome.now) }
    ensures err { OnErr result (out.new.items ≡ out.old.items) }
{
    match outcome {
        Outcome::Changed(reply) => add_reply(out, reply),
        Outcome::Val { name, value } => append(
            out,
            &[
                Piece::Text(b"ok "),
                Piece::Text(name.bytes()),
                Piece::Text(b" "),
                Piece::Numbers(value.digits()),
            ],
        ),
        Outcome::Image(value) => append(
            out,
            &[Piece::Text(b"ok map "), Piece::Numbers(value.digits())],
        ),
        Outcome::Named(name) => append(out, &[Piece::Text(b"ok is "), Piece::Text(name.bytes())]),
        Outcome::Numbers(numbers) => append(
            out,
            &[Piece::Text(b"ok list"), Piece::Listed(numbers.numbers())],
        ),
        Outcome::Poly(poly) => append(
            out,
            &[
                Piece::Text(b"ok poly "),
                Piece::Numbers(poly.coefficients()),
            ],
        ),
        Outcome::RelPoly(poly) => append(
            out,
            &[
                Piece::Text(b"ok relpoly "),
                Piece::Values(poly.coefficients()),
            ],
        ),
        Outcome::Counted { fields, maps } => append(
            out,
            &[
                Piece::Text(b"ok count "),
                Piece::Number(*fields),
                Piece::Text(b" "),
                Piece::Number(*maps),
            ],
        ),
        Outcome::Refused(refusal) => add_session_refusal(out, refusal),
    }
}

// Ends a line with its mark.
fn add_mark(out: &mut Vec<u8>, mark: u32) -> Result<(), NoMemory>
    ensures ok { OnOk result
        (out.new.items ≡ out.old.items ++ (codes " @" ++ decimal mark ++ codes "\n")) }
    ensures err { OnErr result (out.new.items ≡ out.old.items) }
{
    append(
        out,
        &[Piece::Text(b" @"), Piece::Number(mark), Piece::Text(b"\n")],
    )
}

#[tactic(auto, using(crate::proofs::AppendedTexts::extends_same, crate::proofs::AppendedTexts::extends_text))]
fn put_line(out: &mut Vec<u8>, line: &Line) -> Result<(), NoMemory>
    ensures ok { OnOk result (out.new.items ≡ out.old.items ++ line_text line.now) }
    ensures err { OnErr result (Extends out.old.items out.new.items) }
{
    add_outcome(out, &line.outcome)?;
    add_mark(out, line.mark)
}

/// Appends a line of the transcript: the answer to a command, a space, `@`, the mark, and a line
/// feed.
/// Where memory is refused nothing is appended.
#[tactic(auto, using(crate::proofs::AppendedTexts::begins_with))]
pub fn add_line(out: &mut Vec<u8>, line: &Line) -> Result<(), NoMemory>
    ensures ok { OnOk result (out.new.items ≡ out.old.items ++ line_text line.now) }
    ensures err { OnErr result (out.new.items ≡ out.old.items) }
{
    let before = out.len();
    let Ok(()) = put_line(out, line) else {
        out.truncate(before);
        return Err(NoMemory);
    };
    Ok(())
}

/// Appends the line that begins the lines of a session, `session NAME`.
/// Where memory is refused nothing is appended.
pub fn add_session(out: &mut Vec<u8>, name: &FieldName) -> Result<(), NoMemory>
    ensures ok { OnOk result (out.new.items ≡ out.old.items ++ session_text name.now) }
    ensures err { OnErr result (out.new.items ≡ out.old.items) }
{
    append(
        out,
        &[
            Piece::Text(b"session "),
            Piece::Text(name.bytes()),
            Piece::Text(b"\n"),
        ],
    )
}

/// Appends the last line of a transcript, `summary fields F maps M changes N`.
/// Where memory is refused nothing is appended.
pub fn add_summary(out: &mut Vec<u8>, fields: u32, maps: u32, changes: u32) -> Result<(), NoMemory>
    ensures ok { OnOk result (out.new.items ≡ out.old.items ++ summary_text fields maps changes) }
    ensures err { OnErr result (out.new.items ≡ out.old.items) }
{
    append(
        out,
        &[
            Piece::Text(b"summary fields "),
            Piece::Number(fields),
            Piece::Text(b" maps "),
            Piece::Number(maps),
            Piece::Text(b" changes "),
            Piece::Number(changes),
            Piece::Text(b"\n"),
        ],
    )
}
