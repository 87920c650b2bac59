//! Generating a script.

ghost use Rattle.std.specs.Prelude.{◌≡◌, ◌<◌, ◌≤◌, ◌*◌, All, length, IfOk};
ghost use Rattle.lat_core.specs.Names.{IsDeclaredName};
ghost use Rattle.lat_gen.specs.Generated.{four_sessions, generated};
ghost use Rattle.lat_gen.specs.PrivateDraws.{declared_fields, embedded_fields};

use crate::commands::{POLYNOMIALS, declare, embed, name};
use crate::draws::Generator;
use lat_core::NoMemory;
use lat_language::{Command, Script, Sequence, SessionScript};
use std::alloc::Global;

/// The most fields that a generated script declares.
pub const MAX_GENERATED_FIELDS: u32 = 180;

/// The most `embed` commands of a generated script.
pub const MAX_GENERATED_EMBEDS: u32 = 2_000;

// How many sessions a generated script has.
const SESSIONS: usize = 4;

// The commands that declare fields, whose polynomials have these numbers.
fn prologue(alloc: Global, polynomials: &[u32]) -> Result<Sequence<Command>, NoMemory>
    requires few { length polynomials.now ≤ MAX_GENERATED_FIELDS }
    requires numbers { All (λ number. number < POLYNOMIALS) polynomials.now }
    ensures { IfOk result (λ commands. commands ≡ declared_fields polynomials.now) }
{
    let mut commands = Sequence::new(alloc);
    for k in 0..polynomials.len() {
        commands.push(declare(k as u32, polynomials[k]))?;
    }
    Ok(commands)
}

// Every fourth embedding, from the one at this position on. The fields of embedding k are at 2k
// and 2k + 1.
fn embeddings(alloc: Global, fields: &[u32], position: usize) -> Result<Sequence<Command>, NoMemory>
    requires { length fields.now ≤ 2 * MAX_GENERATED_EMBEDS }
    ensures { IfOk result (λ commands. commands ≡ embedded_fields fields.now position) }
{
    let mut commands = Sequence::new(alloc);
    for k in 0..fields.len() / 2 {
        if k % SESSIONS == position {
            commands.push(embed(fields[2 * k], fields[2 * k + 1]))?;
        }
    }
    Ok(commands)
}

// The session of this name, at this position.
fn session(
    alloc: Global,
    text: &[u8],
    fields: &[u32],
    position: usize,
) -> Result<SessionScript, NoMemory>
    requires named { IsDeclaredName text.now }
    requires few { length fields.now ≤ 2 * MAX_GENERATED_EMBEDS }
    ensures name { IfOk result (λ session. session.name ≡ text.now) }
    ensures commands { IfOk result (λ session.
        session.commands ≡ embedded_fields fields.now position) }
{
    Ok(SessionScript {
        name: name(text),
        commands: embeddings(alloc, fields, position)?,
    })
}

// The sessions, among which the embeddings of these fields are dealt out in turn.
fn sessions(alloc: Global, fields: &[u32]) -> Result<Sequence<SessionScript>, NoMemory>
    requires { length fields.now ≤ 2 * MAX_GENERATED_EMBEDS }
    ensures { IfOk result (λ sessions. sessions ≡ four_sessions (embedded_fields fields.now)) }
{
    let mut sessions = Sequence::new(alloc);
    sessions.push(session(alloc, b"a", fields, 0)?)?;
    sessions.push(session(alloc, b"b", fields, 1)?)?;
    sessions.push(session(alloc, b"c", fields, 2)?)?;
    sessions.push(session(alloc, b"d", fields, 3)?)?;
    Ok(sessions)
}

/// The script that is generated from a seed: its prologue declares this many fields, each with a
/// polynomial that is drawn from a table of eight, and its four sessions have this many `embed`
/// commands in turn, each of one declared field, drawn, into another. It has no schedule. There is
/// at least one field, and there are at most `MAX_GENERATED_FIELDS` fields and
/// `MAX_GENERATED_EMBEDS` embeddings. The numbers are drawn with a linear congruential generator
/// modulo 2^64. An `Err` comes only where memory is refused.
pub fn script_of(alloc: Global, seed: u64, fields: u32, embeds: u32) -> Result<Script, NoMemory>
    requires some { 0 < fields }
    requires fields { fields ≤ MAX_GENERATED_FIELDS }
    requires embeds { embeds ≤ MAX_GENERATED_EMBEDS }
    ensures { IfOk result (λ script. script ≡ generated seed fields embeds) }
{
    let mut generator = Generator { state: seed };
    let polynomials = generator.draw_below(alloc, POLYNOMIALS, fields)?;
    let embedded = generator.draw_below(alloc, fields, 2 * embeds)?;
    Ok(Script {
        prologue: prologue(alloc, &polynomials)?,
        sessions: sessions(alloc, &embedded)?,
        schedule: Sequence::new(alloc),
    })
}
