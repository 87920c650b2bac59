//! Values in other fields.
ghost use Rattle.std.specs.Prelude.{◌≡◌, MatchResult};
ghost use Rattle.lat_core.specs.Answers.{IsTaggedValue, LiftsTo};

use ff_field::Value;
use lat_core::{Answer, CoerceFault, Lattice, Tagged};

/// The value in the field of the number `to`: along the map that is stored from its own field, else
/// back along the map that is stored from `to`.
///
/// `NotEmbedded` exactly where neither map is stored; `NotInImage` exactly where only the map back
/// is, and it sends no value to this one.
pub fn lift(lattice: &Lattice, value: &Tagged, to: u32) -> Result<Tagged, CoerceFault>
    requires value { IsTaggedValue lattice.now value.now }
    ensures lifted { MatchResult result
        (λ lifted. LiftsTo lattice.now value.now to (Answer.Lifted lifted))
        (λ fault. LiftsTo lattice.now value.now to (Answer.Refused fault)) }
{
    let from = value.field;
    if let Some(map) = lattice.map(from, to) {
        return Ok(tagged(to, map.apply(&value.value)));
    }
    let Some(map) = lattice.map(to, from) else {
        return Err(CoerceFault::NotEmbedded { i: from, j: to });
    };
    match map.preimage(&value.value) {
        None => Err(CoerceFault::NotInImage),
        Some(preimage) => Ok(tagged(to, preimage)),
    }
}

// A value of the field of this number.
fn tagged(field: u32, value: Value) -> Tagged
    ensures tagged { result ≡ record { field = field; value = value } }
{
    Tagged { field, value }
}
