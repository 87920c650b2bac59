//! The embedding of one field in another.

ghost use Rattle.std.specs.Prelude.{◌≡◌, ◌↔◌, ℕ, List, ◌+◌, ◌<◌, ◌≤◌, length, IsTrue, Some, None, IfSome, IfNone, IfOk, OnErr, MatchOption};
ghost use Rattle.std.specs.FinMap.{get};
ghost use Rattle.alg_model.specs.Maps.{field_values};
ghost use Rattle.alg_model.specs.Lattices.{field_at, IsCompatible};
ghost use Rattle.alg_model.specs.Candidates.{IsSent, IsCandidate, IsChoice, AreMissing};
ghost use Rattle.alg_compatible.specs.Theorems.{AreFields};
ghost use Rattle.lat_core.specs.Step.{IsValueOf, IsWrongTag, prescribed_values, AreEmbeddable, EmbedsField, Embeds};
ghost use Rattle.lat_core.specs.declared.requests.Request.TheVariants.{Embed};
ghost use Rattle.lat_core.specs.declared.replies.Reply.TheVariants.{Refused};
ghost use Rattle.lat_insert.specs.Insertions.{StepAdds};
ghost use Rattle.lat_insert.specs.PrivateEmbedding.{AddsMaps, IsMissingCount, FillsBy};

use crate::room::lacks_room;
use ff_embed::{Embedding, StoredEmbedding};
use ff_field::{Field, Value};
use lat_choice::choice;
use lat_core::{FieldName, Lattice, NoMemory, Reply, Sending, StepRefusal, Tagged};
use lat_fill::{Filled, fill, missing};

// Whether the digits are those of a value of the field.
fn is_value(field: &Field, value: &Value) -> bool
    ensures { IsTrue result ↔ (field_values field.now).Valid value.now }
{
    let p = field.prime().number();
    let digits = value.digits();
    digits.len() == field.degree() as usize && digits.iter().all(|digit| *digit < p)
}

// Whether a tagged value is one of field `number`.
fn is_value_of(lattice: &Lattice, number: u32, tagged: &Tagged) -> bool
    requires { number < length lattice.now.rows }
    ensures { IsTrue result ↔ IsValueOf lattice.now number tagged.now }
{
    tagged.field == number && is_value(&lattice.field(number).field, &tagged.value)
}

// The tag of the first of the prescribed values that isn't one of its field.
fn wrong_tag(lattice: &Lattice, from: u32, into: u32, sending: &Sending) -> Option<u32>
    requires { AreFields lattice.now from into }
    ensures wrong { IfSome result (IsWrongTag lattice.now from into sending.now) }
    ensures right { IfNone result (IsValueOf lattice.now from sending.now.value
        × IsValueOf lattice.now into sending.now.image) }
{
    if !is_value_of(lattice, from, &sending.value) {
        return Some(sending.value.field);
    }
    if !is_value_of(lattice, into, &sending.image) {
        return Some(sending.image.field);
    }
    None
}

// Why the two fields or the prescribed values allow no embedding.
fn objection(
    lattice: &Lattice,
    from: u32,
    into: u32,
    sending: &Option<Sending>,
) -> Option<StepRefusal>
    requires { AreFields lattice.now from into }
    ensures some { IfSome result (λ refusal. EmbedsField lattice.now from into sending.now
        (Refused refusal) lattice.now) }
    ensures none { IfNone result (AreEmbeddable lattice.now from into sending.now) }
{
    let (source, target) = (&lattice.field(from).field, &lattice.field(into).field);
    let (p, q) = (source.prime().number(), target.prime().number());
    if p != q {
        return Some(StepRefusal::DifferentCharacteristic(p as u32, q as u32));
    }
    let (m, n) = (source.degree(), target.degree());
    if n % m != 0 {
        return Some(StepRefusal::DegreeDoesNotDivide(m, n));
    }
    match sending {
        None => None,
        Some(pair) => match wrong_tag(lattice, from, into, pair) {
            None => None,
            Some(number) => Some(StepRefusal::WrongField(number)),
        },
    }
}

// Whether a map sends what is prescribed, if anything is.
fn is_sent(map: &StoredEmbedding, sending: &Option<Sending>) -> bool
    requires { MatchOption sending.now (Unit {0})
        (λ s. (field_values map.now.source).Valid s.value.value) }
    ensures { IsTrue result
        ↔ IsSent map.now.target map.now.images (prescribed_values sending.now) }
{
    match sending {
        None => true,
        Some(pair) => map.apply(&pair.value.value).digits() == pair.image.value.digits(),
    }
}

// The reply where a map is stored for the two fields already, which is then the only candidate;
// None where none is stored.
fn stored_reply(lattice: &Lattice, from: u32, into: u32, sending: &Option<Sending>) -> Option<Reply>
    requires fields { AreFields lattice.now from into }
    requires fit { AreEmbeddable lattice.now from into sending.now }
    ensures stored { IfSome result (λ reply.
        EmbedsField lattice.now from into sending.now reply lattice.now) }
    ensures new { IfNone result (get lattice.now.maps (from, into) ≡ None) }
{
    let _edition = lattice.edition();
    let map = lattice.map(from, into)?;
    if is_sent(map, sending) {
        Some(Reply::Embedded {
            image: map.image(),
            made: 0,
            linked: 0,
        })
    } else {
        Some(Reply::Refused(StepRefusal::NoCompatibleRoot))
    }
}

// How many degrees are missing.
fn missing_count(lattice: &Lattice, from: u32, into: u32) -> u32
    requires { AreFields lattice.now from into }
    ensures { IsMissingCount lattice.now from into result }
{
    missing(lattice, from, into).len() as u32
}

// The lattice filled by the map that sends the generator of field `from` to a candidate.
fn filled_by(lattice: &Lattice, from: u32, into: u32, image: &Value) -> Result<Filled, NoMemory>
    requires fields { AreFields lattice.now from into }
    requires candidate { IsCandidate lattice.now from into None image.now }
    requires room { (degrees : List ℕ) → AreMissing lattice.now from into degrees
        → length lattice.now.rows + length degrees ≤ lattice.now.edition.room }
    ensures { IfOk result (λ filled. FillsBy lattice.now from into image.now filled.lattice
        filled.made filled.linked) }
{
    let (source, target) = (lattice.field(from), lattice.field(into));
    match Embedding::of_root(&source.field, &target.field, image) {
        Some(map) => fill(lattice, from, into, &map),
        None => unreachable!(),
    }
}

// Embeds field `from` in field `into`, for which no map is stored.
fn embed_new(
    lattice: &mut Lattice,
    from: u32,
    into: u32,
    sending: &Option<Sending>,
) -> Result<Reply, NoMemory>
    requires fields { AreFields lattice.old from into }
    requires fit { AreEmbeddable lattice.old from into sending.now }
    requires new { get lattice.old.maps (from, into) ≡ None }
    ensures embedded { IfOk result (λ reply.
        EmbedsField lattice.old from into sending.now reply lattice.new) }
    ensures kept { OnErr result (lattice.new ≡ lattice.old) }
    ensures memory { OnErr result (AddsMaps lattice.old from into sending.now) }
{
    let (have, need) = (lattice.fields(), missing_count(lattice, from, into));
    if lacks_room(lattice, need) {
        return Ok(Reply::Refused(StepRefusal::TooManyFields { have, need }));
    }
    let Some(image) = choice(lattice, from, into, sending.as_ref()) else {
        return Ok(Reply::Refused(StepRefusal::NoCompatibleRoot));
    };
    let filled = filled_by(lattice, from, into, &image)?;
    *lattice = filled.lattice;
    Ok(Reply::Embedded {
        image,
        made: filled.made,
        linked: filled.linked,
    })
}

// Embeds field `from` in field `into`.
fn embed_field(
    lattice: &mut Lattice,
    from: u32,
    into: u32,
    sending: &Option<Sending>,
) -> Result<Reply, NoMemory>
    requires { AreFields lattice.old from into }
    ensures embedded { IfOk result (λ reply.
        EmbedsField lattice.old from into sending.now reply lattice.new) }
    ensures kept { OnErr result (lattice.new ≡ lattice.old) }
    ensures memory { OnErr result (AddsMaps lattice.old from into sending.now) }
{
    if let Some(refusal) = objection(lattice, from, into, sending) {
        return Ok(Reply::Refused(refusal));
    }
    if let Some(reply) = stored_reply(lattice, from, into, sending) {
        return Ok(reply);
    }
    embed_new(lattice, from, into, sending)
}

// Embeds the field of one name in the field of another name. That there is no memory
// is answered only where maps would be added.
pub(crate) fn embed(
    lattice: &mut Lattice,
    from: &FieldName,
    into: &FieldName,
    sending: &Option<Sending>,
) -> Result<Reply, NoMemory>
    ensures embedded { IfOk result (λ reply.
        Embeds lattice.old from.now into.now sending.now reply lattice.new) }
    ensures kept { OnErr result (lattice.new ≡ lattice.old) }
    ensures memory { OnErr result (StepAdds lattice.old
        (Embed from.now into.now sending.now)) }
{
    let Some(source) = lattice.field_named(from) else {
        return Ok(Reply::Refused(StepRefusal::UnknownField(from.copy())));
    };
    let Some(target) = lattice.field_named(into) else {
        return Ok(Reply::Refused(StepRefusal::UnknownField(into.copy())));
    };
    embed_field(lattice, source, target, sending)
}
