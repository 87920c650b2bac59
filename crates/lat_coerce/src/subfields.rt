//! Stored subfields.
ghost use Rattle.lat_core.specs.Answers.{IsSubfields};

use crate::lookups::is_stored;
use arrayvec::ArrayVec;
use lat_core::{Lattice, MAX_FIELDS, NumberList};

// The numbers of the stored subfields of a field.
pub(crate) fn subfields(lattice: &Lattice, field: u32) -> NumberList
    ensures exactly { IsSubfields lattice.now field result }
{
    let _edition = lattice.edition();
    let mut numbers = ArrayVec::<u32, MAX_FIELDS>::new();
    for number in 0..lattice.fields() {
        if is_stored(lattice, number, field) {
            numbers.push(number);
        }
    }
    NumberList::of(numbers.as_slice())
}
