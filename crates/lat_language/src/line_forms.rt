//! Reading the lines of a script.

ghost use Rattle.std.specs.Prelude.{◌≡◌, ◌↔◌, ℕ, All, IsTrue, List, ◌∷◌, MatchOption};
ghost use Rattle.lat_core.specs.Names.{IsDeclaredName};
ghost use Rattle.lat_language.specs.declared.commands.Command.{Command};
ghost use Rattle.lat_language.specs.Grammar.{words_of, first_byte, IsPassedOver, header_words, SpellsSession, SpellsSchedule};
ghost use Rattle.lat_language.specs.Commands.{SpellsCommand};
ghost use Rattle.lat_language.specs.PrivateReading.{no_operands, one_operand, two_operands, embed_plain, minpoly_over, three_operands, four_operands, embed_sending, operands_of, command_of};

use crate::commands::Command;
use crate::cutting::{first_word, two_words};
use crate::operands::{characteristic, digits, exponent, field_word, fixed, name, operation};
use crate::verbs::Verb;
use lat_core::FieldName;

// The first byte of a line that isn't a space.
fn first_not_space(line: &[u8]) -> Option<u8>
    ensures { result ≡ first_byte line.now }
{
    line.iter().copied().find(|byte| *byte != b' ')
}

// Whether a line has only spaces or is a comment.
pub(crate) fn is_passed_over(line: &[u8]) -> bool
    ensures { IsTrue result ↔ IsPassedOver line.now }
{
    match first_not_space(line) {
        None => true,
        Some(byte) => byte == b'#',
    }
}

// Whether a line is `lattice 1`.
pub(crate) fn is_header(line: &[u8]) -> bool
    ensures { IsTrue result ↔ (words_of line.now ≡ header_words) }
{
    match two_words(line) {
        None => false,
        Some((name, version)) => name == b"lattice".as_slice() && version == b"1".as_slice(),
    }
}

// The command of a verb alone; None exactly where it has operands.
fn without_operands(verb: Verb) -> Option<Command>
    ensures { result ≡ no_operands verb }
{
    match verb {
        Verb::Sync => Some(Command::Sync),
        Verb::Count => Some(Command::Count),
        _ => None,
    }
}

// The command of a verb and an operand; None exactly where it is none.
fn with_one(verb: Verb, a: &[u8]) -> Option<Command>
    ensures { result ≡ one_operand verb a.now }
{
    match verb {
        Verb::Show => Some(Command::Show { value: name(a)? }),
        Verb::MinPoly => Some(Command::MinPoly { value: name(a)? }),
        Verb::List => Some(Command::List {
            field: field_word(a)?,
        }),
        _ => None,
    }
}

// The command of a verb and two operands; None exactly where it is none.
fn with_two(verb: Verb, a: &[u8], b: &[u8]) -> Option<Command>
    ensures { result ≡ two_operands verb a.now b.now }
{
    match verb {
        Verb::Inv => Some(Command::Inv {
            result: name(a)?,
            value: name(b)?,
        }),
        Verb::Frob => Some(Command::Frob {
            result: name(a)?,
            value: name(b)?,
        }),
        Verb::Trace => Some(Command::Trace {
            result: name(a)?,
            value: name(b)?,
        }),
        Verb::Norm => Some(Command::Norm {
            result: name(a)?,
            value: name(b)?,
        }),
        Verb::Map => Some(Command::Map {
            from: field_word(a)?,
            into: field_word(b)?,
        }),
        Verb::Common => Some(Command::Common {
            first: field_word(a)?,
            second: field_word(b)?,
        }),
        _ => None,
    }
}

// `embed FIELD into FIELD`, by the words behind `embed`; None exactly where they are none.
fn embed(a: &[u8], b: &[u8], c: &[u8]) -> Option<Command>
    ensures { result ≡ embed_plain a.now b.now c.now }
{
    fixed(b, b"into")?;
    let from = field_word(a)?;
    let into = field_word(c)?;
    Some(Command::Embed { from, into })
}

// `minpoly VAR over FIELD`, by the words behind `minpoly`; None exactly where they are none.
fn minimal_over(a: &[u8], b: &[u8], c: &[u8]) -> Option<Command>
    ensures { result ≡ minpoly_over a.now b.now c.now }
{
    fixed(b, b"over")?;
    let value = name(a)?;
    let over = field_word(c)?;
    Some(Command::MinPolyOver { value, over })
}

// The command of a verb and three operands; None exactly where it is none.
fn with_three(verb: Verb, a: &[u8], b: &[u8], c: &[u8]) -> Option<Command>
    ensures { result ≡ three_operands verb a.now b.now c.now }
{
    match verb {
        Verb::Field => Some(Command::Field {
            name: name(a)?,
            p: characteristic(b)?,
            poly: digits(c)?,
        }),
        Verb::Embed => embed(a, b, c),
        Verb::Let => Some(Command::Let {
            result: name(a)?,
            field: field_word(b)?,
            digits: digits(c)?,
        }),
        Verb::Add => Some(Command::Add {
            result: name(a)?,
            left: name(b)?,
            right: name(c)?,
        }),
        Verb::Mul => Some(Command::Mul {
            result: name(a)?,
            left: name(b)?,
            right: name(c)?,
        }),
        Verb::Pow => Some(Command::Pow {
            result: name(a)?,
            value: name(b)?,
            exponent: exponent(c)?,
        }),
        Verb::Lift => Some(Command::Lift {
            result: name(a)?,
            value: name(b)?,
            to: field_word(c)?,
        }),
        Verb::Apply => Some(Command::Apply {
            result: name(a)?,
            op: operation(b)?,
            value: name(c)?,
        }),
        Verb::MinPoly => minimal_over(a, b, c),
        _ => None,
    }
}

// The command of a verb and four operands; None exactly where it is none.
fn with_four(verb: Verb, a: &[u8], b: &[u8], c: &[u8], d: &[u8]) -> Option<Command>
    ensures { result ≡ four_operands verb a.now b.now c.now d.now }
{
    let Verb::Meet = verb else {
        return None;
    };
    fixed(c, b"in")?;
    let first = field_word(a)?;
    let second = field_word(b)?;
    let within = field_word(d)?;
    Some(Command::Meet {
        first,
        second,
        within,
    })
}

// `embed FIELD into FIELD sending VAR to VAR`, by the words behind `embed`; None exactly where they
// are none.
fn embed_with_image(
    a: &[u8],
    b: &[u8],
    c: &[u8],
    d: &[u8],
    e: &[u8],
    f: &[u8],
    g: &[u8],
) -> Option<Command>
    ensures { result ≡ embed_sending a.now b.now c.now d.now e.now f.now g.now }
{
    fixed(b, b"into")?;
    fixed(d, b"sending")?;
    fixed(f, b"to")?;
    let from = field_word(a)?;
    let into = field_word(c)?;
    let value = name(e)?;
    let image = name(g)?;
    Some(Command::EmbedSending {
        from,
        into,
        value,
        image,
    })
}

// The command of a verb, three operands and the words behind them; None exactly where it is none.
fn with_more(verb: Verb, a: &[u8], b: &[u8], c: &[u8], rest: &[u8]) -> Option<Command>
    ensures { result ≡ operands_of (a.now ∷ b.now ∷ c.now ∷ words_of rest.now) verb }
{
    let Some((d, rest)) = first_word(rest) else {
        return with_three(verb, a, b, c);
    };
    let Some((e, rest)) = first_word(rest) else {
        return with_four(verb, a, b, c, d);
    };
    let (f, rest) = first_word(rest)?;
    let (g, rest) = first_word(rest)?;
    match (verb, first_word(rest)) {
        (Verb::Embed, None) => embed_with_image(a, b, c, d, e, f, g),
        _ => None,
    }
}

// The command of a verb and the words behind it; None exactly where it is none.
fn with_operands(verb: Verb, rest: &[u8]) -> Option<Command>
    ensures { result ≡ operands_of (words_of rest.now) verb }
{
    let Some((a, rest)) = first_word(rest) else {
        return without_operands(verb);
    };
    let Some((b, rest)) = first_word(rest) else {
        return with_one(verb, a);
    };
    let Some((c, rest)) = first_word(rest) else {
        return with_two(verb, a, b);
    };
    with_more(verb, a, b, c, rest)
}

// The command that the line spells; None exactly where it spells none.
pub(crate) fn command(line: &[u8]) -> Option<Command>
    ensures { result ≡ command_of (words_of line.now) }
{
    let (verb, operands) = first_word(line)?;
    with_operands(Verb::of(verb)?, operands)
}

// The name of the session that the line begins; None exactly where it begins none.
pub(crate) fn session_name(line: &[u8]) -> Option<FieldName>
    ensures { MatchOption result ((name : List ℕ) → ¬ (SpellsSession (words_of line.now) name))
        (SpellsSession (words_of line.now)) }
{
    let (first, name) = two_words(line)?;
    if first == b"session".as_slice() {
        FieldName::declared_bytes(name)
    } else {
        None
    }
}

// Whether each word of a text is a declared name.
fn are_names(text: &[u8]) -> bool
    ensures { IsTrue result ↔ All IsDeclaredName (words_of text.now) }
{
    let mut rest = text;
    while let Some((word, after)) = first_word(rest) {
        if FieldName::declared_bytes(word).is_none() {
            return false;
        }
        rest = after;
    }
    true
}

// The names of the sessions that the line schedules, as the text that holds them; None exactly
// where it schedules none.
pub(crate) fn scheduled_names(line: &[u8]) -> Option<&[u8]>
    ensures { MatchOption result
        ((names : List (List ℕ)) → ¬ (SpellsSchedule (words_of line.now) names))
        (λ names. SpellsSchedule (words_of line.now) (words_of names.now)) }
{
    let (first, names) = first_word(line)?;
    if first != b"schedule".as_slice() {
        return None;
    }
    if first_word(names).is_none() {
        return None;
    }
    if are_names(names) { Some(names) } else { None }
}
