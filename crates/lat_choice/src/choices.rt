//! The choice of an embedding.
ghost use Rattle.std.specs.Prelude.{◌≡◌, ◌↔◌, ℕ, List, AllPairs, Contains, IsNone, IfSome};
ghost use Rattle.std.specs.Option.{option_copied};
ghost use Rattle.alg_model.specs.Roots.{IsBefore};
ghost use Rattle.alg_model.specs.Candidates.{IsCandidate, IsChoice};
ghost use Rattle.alg_compatible.specs.Theorems.{AreFields};
ghost use Rattle.alg_choices.specs.Theorems.{AreAlike};
ghost use Rattle.alg_choices.specs.Fitting.{AreGiven};
ghost use Rattle.lat_core.specs.Step.{prescribed_values};

use crate::narrowing::{narrowed, sending_too};
use ff_field::Value;
use ff_roots::{RootList, common_roots};
use lat_core::{Lattice, Sending};

/// The least value of field `into` to which the generator of field `from` may be sent so that the
/// map agrees with all common subfields, and sends the first value of a prescribed pair to the
/// second; `None` exactly where there is none. There is no answer for want of memory.
///
/// Both are numbers of fields, of one characteristic, and a prescribed pair is a value of `from` and a value
/// of `into`; the numbers with which it is tagged are not looked at. The candidates are the common
/// roots of the polynomial of `from` and of one polynomial over `into` for each common subfield
/// of degree above 1 that goes into no other one that is greater, or of the same degree and of a
/// lower number; and of one for a prescribed pair (Bosma, Cannon and Steel, Lattices of compatibly
/// embedded finite fields, 1997).
pub fn choice(lattice: &Lattice, from: u32, into: u32, sending: Option<&Sending>) -> Option<Value>
    requires fields { AreFields lattice.now from into }
    requires alike { AreAlike lattice.now from into }
    requires given { AreGiven lattice.now from into (prescribed_values (option_copied sending)) }
    ensures none { IsNone result ↔ ((v : List ℕ)
        → ¬ IsCandidate lattice.now from into (prescribed_values (option_copied sending.entry)) v) }
    ensures choice { IfSome result
        (IsChoice lattice.now from into (prescribed_values (option_copied sending.entry))) }
{
    let list = candidates(lattice, from, into, sending);
    let items = list.items();
    if items.is_empty() {
        return None;
    }
    let first = 0;
    Some(items[first].copy())
}

// All values to which the generator may be sent, least first.
fn candidates(lattice: &Lattice, from: u32, into: u32, sending: Option<&Sending>) -> RootList
    requires fields { AreFields lattice.now from into }
    requires alike { AreAlike lattice.now from into }
    requires given { AreGiven lattice.now from into (prescribed_values (option_copied sending)) }
    ensures rising { AllPairs IsBefore result }
    ensures exactly { (v : List ℕ) → Contains result v
        ↔ IsCandidate lattice.now from into (prescribed_values (option_copied sending.entry)) v }
{
    let polynomial = sending_too(lattice, from, into, sending, narrowed(lattice, from, into));
    let (source, target) = (lattice.field(from), lattice.field(into));
    common_roots(&target.field, source.field.poly(), &polynomial)
}
