//! The verdict on a text.

ghost use Rattle.std.specs.Prelude.{◌≡◌, ◌<◌, length, IfErr, MatchResult};
ghost use Rattle.alg_model.specs.Lattices.{IsCompatible};
ghost use Rattle.lat_audit.specs.declared.faults.Fault.TheVariants.{NoMemory as memory_fault};
ghost use Rattle.lat_audit.specs.declared.verdicts.AuditVerdict.TheVariants.{NoMemory as no_memory};
ghost use Rattle.lat_audit.specs.Dumps.{dump_text};
ghost use Rattle.lat_audit.specs.Readings as readings;
ghost use Rattle.lat_audit.specs.Verdicts.{None, IsReducible, IsWrongImage, IsDumped, Judges};
ghost use Rattle.lat_audit.specs.PrivateContents.{IsContent};
ghost use Rattle.lat_audit.specs.PrivateVerdicts.{verdict_with, ContentFault, TextFault};

use crate::contents::Content;
use crate::faults::Fault;
use crate::fields::judge_fields;
use crate::maps::judge_maps;
use crate::readings::read;
use crate::rules::judge_rules;
use crate::tables::Table;
use lat_core::Lattice;
use std::alloc::Global;

/// The verdict on a text: the lattice whose dump it is, or its first fault.
#[derive(Drop)]
pub enum AuditVerdict {
    /// It is the dump of this compatible lattice.
    Good(Lattice),

    /// The number of the first line, from 1, that isn't of the form that its place asks for or is
    /// missing, or that stands behind the last one.
    BadText(u32),

    /// The number of the first field whose polynomial has a factor.
    BadField(u32),

    /// The numbers of the first two fields for which the image is that of no embedding.
    BadMap(u32, u32),

    /// The number of the first rule that is broken, and the numbers of the first fields at which it
    /// is. Rule 2: the identity of a field is stored. Rule 3: its prime field has a map into it. Rule
    /// 4: an isomorphism has its inverse. Rule 5: compositions are stored. Rule 6: two fields that go
    /// into a third one have their intersection.
    BadRule(u32, u32, u32, u32),

    /// Memory was refused.
    NoMemory,
}

// The fault as a verdict.
fn verdict_of(fault: Fault) -> AuditVerdict
    ensures { result ≡ verdict_with fault }
{
    match fault {
        Fault::Text(line) => AuditVerdict::BadText(line),
        Fault::Field(i) => AuditVerdict::BadField(i),
        Fault::Map(i, j) => AuditVerdict::BadMap(i, j),
        Fault::Rule(rule, i, j, k) => AuditVerdict::BadRule(rule, i, j, k),
        Fault::NoMemory => AuditVerdict::NoMemory,
    }
}

// The compatible lattice of what a dump holds, or its first fault.
fn lattice_of(alloc: Global, content: &Content) -> Result<Lattice, Fault>
    requires { IsContent
        (record { rows = content.now.rows.items; images = content.now.images.items }) }
    ensures { let c : readings.Content
        = record { rows = content.now.rows.items; images = content.now.images.items } in
        MatchResult result (λ L. (L ≡ readings.lattice_of c) × IsCompatible L
        × None (IsReducible c.rows) × None (IsWrongImage c)) (ContentFault c) }
{
    let fields = judge_fields(alloc, content.rows.as_slice())?;
    let maps = judge_maps(alloc, fields.as_slice(), content.images.as_slice())?;
    let table = Table::new(alloc, fields, maps)?;
    judge_rules(&table)?;
    Ok(table.into_lattice(alloc)?)
}

// The compatible lattice whose dump the text is, or its first fault.
fn judge_text(alloc: Global, text: &[u8]) -> Result<Lattice, Fault>
    ensures verdict { MatchResult result
        (λ L. IsDumped L × (text.now ≡ dump_text L)) (TextFault text.now) }
    ensures some { IfErr result (λ fault. fault ≡ memory_fault → 0 < length text.now) }
{
    let content = read(alloc, text)?;
    lattice_of(alloc, &content)
}

/// The verdict on a text, which is meant to be a dump of a lattice of the first edition: the one
/// lattice whose dump it is, or else its first fault: of a line, of a field, of a map, of a rule.
pub fn audit(alloc: Global, text: &[u8]) -> AuditVerdict
    ensures verdict { Judges text.now result }
    ensures some { result ≡ no_memory → 0 < length text.now }
{
    match judge_text(alloc, text) {
        Ok(lattice) => AuditVerdict::Good(lattice),
        Err(fault) => verdict_of(fault),
    }
}
