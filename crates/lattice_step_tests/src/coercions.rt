//! Questions to the opening lattice, whose answers are seen by hand: 11 prime fields, of which each
//! has a map into itself alone.
ghost use Rattle.std.specs.Prelude.{◌<◌, length};
ghost use Rattle.lat_core.specs.Answers.{IsTaggedValue, Fits};

use crate::values::value_of;
use lat_coerce::{answer, common, lift, meet};
use lat_core::{Answer, CoerceFault, Edition, FieldName, Lattice, Question, Tagged};
use std::process::Abort;
use std::test::Fail;

// A value of a field of the lattice.
fn tagged(rt: &impl Abort, lattice: &Lattice, number: u32, digits: &[u8]) -> Tagged
    requires number { number < length lattice.now.rows }
    ensures value { IsTaggedValue lattice.now result }
{
    Tagged {
        field: number,
        value: value_of(rt, &lattice.field(number).field, digits),
    }
}

#[test]
fn lifts(rt: HostRuntime) -> Result<(), Fail> {
    let lattice = Lattice::open(rt.alloc(), Edition::One)?;
    assert!(rt; lattice.fields() == 11);
    let five = tagged(&rt, &lattice, 3, &[5]);
    match lift(&lattice, &five, 3) {
        Ok(same) => {
            assert_eq!(rt; same.field, 3);
            assert_eq!(rt; same.value.digits(), [5].as_slice());
        }
        Err(_) => panic!(rt; "the identity is stored"),
    }
    match lift(&lattice, &five, 2) {
        Err(CoerceFault::NotEmbedded { i, j }) => assert_eq!(rt; (i, j), (3, 2)),
        _ => panic!(rt; "no map between two characteristics"),
    }
    Ok(())
}

#[test]
fn overfields_and_meets(rt: HostRuntime) -> Result<(), Fail> {
    let lattice = Lattice::open(rt.alloc(), Edition::One)?;
    assert!(rt; matches!(common(&lattice, 4, 4), Ok(4)));
    match common(&lattice, 4, 5) {
        Err(CoerceFault::NoCommonField { a, b }) => assert_eq!(rt; (a, b), (4, 5)),
        _ => panic!(rt; "no field has both characteristics"),
    }
    assert!(rt; matches!(meet(&lattice, 4, 4, 4), Ok(4)));
    match meet(&lattice, 4, 5, 5) {
        Err(CoerceFault::NotEmbedded { i, j }) => assert_eq!(rt; (i, j), (4, 5)),
        _ => panic!(rt; "field 4 has no map into field 5"),
    }
    match meet(&lattice, 5, 4, 5) {
        Err(CoerceFault::NotEmbedded { i, j }) => assert_eq!(rt; (i, j), (4, 5)),
        _ => panic!(rt; "field 4 has no map into field 5"),
    }
    Ok(())
}

// The number of the field that has this name; 100 where there is none.
fn number_of(rt: &impl Abort, lattice: &Lattice, name: &str) -> u32 {
    let name = FieldName::declared(name).expect(rt, "a name");
    match answer(lattice, &Question::FieldNamed(name)) {
        Answer::Known {
            number,
            name: _,
            field: _,
        } => number,
        Answer::Unknown => 100,
        _ => panic!(rt; "a field or none"),
    }
}

#[test]
fn fields_and_counts(rt: HostRuntime) -> Result<(), Fail> {
    let lattice = Lattice::open(rt.alloc(), Edition::One)?;
    assert!(rt; lattice.fields() == 11);
    assert_eq!(rt; number_of(&rt, &lattice, "F31"), 10);
    assert_eq!(rt; number_of(&rt, &lattice, "K"), 100);
    match answer(&lattice, &Question::FieldAt(3)) {
        Answer::Known {
            number,
            name,
            field,
        } => {
            assert_eq!(rt; number, 3);
            assert_eq!(rt; name.bytes(), b"F7".as_slice());
            assert_eq!(rt; field.poly().coefficients(), [0, 1].as_slice());
        }
        _ => panic!(rt; "field 3"),
    }
    match answer(&lattice, &Question::Subfields(3)) {
        Answer::Numbers(numbers) => assert_eq!(rt; numbers.numbers(), [3].as_slice()),
        _ => panic!(rt; "a prime field has one subfield"),
    }
    match answer(&lattice, &Question::Count) {
        Answer::Counted { fields, maps } => assert_eq!(rt; (fields, maps), (11, 11)),
        _ => panic!(rt; "two counts"),
    }
    Ok(())
}

#[test]
fn images_and_numbers(rt: HostRuntime) -> Result<(), Fail> {
    let lattice = Lattice::open(rt.alloc(), Edition::Two)?;
    assert!(rt; lattice.fields() == 18);
    match answer(&lattice, &Question::Map { from: 3, into: 3 }) {
        Answer::Image(image) => assert_eq!(rt; image.digits(), [0].as_slice()),
        _ => panic!(rt; "the identity is stored"),
    }
    match answer(&lattice, &Question::Map { from: 3, into: 4 }) {
        Answer::Refused(CoerceFault::NotEmbedded { i, j }) => assert_eq!(rt; (i, j), (3, 4)),
        _ => panic!(rt; "no map between two characteristics"),
    }
    let five = tagged(&rt, &lattice, 3, &[5]);
    match answer(&lattice, &Question::Lift { value: five, to: 3 }) {
        Answer::Lifted(same) => assert_eq!(rt; same.value.digits(), [5].as_slice()),
        _ => panic!(rt; "the identity is stored"),
    }
    match answer(&lattice, &Question::Common { a: 17, b: 17 }) {
        Answer::Is(number) => assert_eq!(rt; number, 17),
        _ => panic!(rt; "the field itself"),
    }
    match answer(&lattice, &Question::Meet { i: 17, j: 3, k: 17 }) {
        Answer::Refused(CoerceFault::NotEmbedded { i, j }) => assert_eq!(rt; (i, j), (3, 17)),
        _ => panic!(rt; "field 3 has no map into field 17"),
    }
    Ok(())
}

// Over the field itself the minimal polynomial of 5 is x - 5, which is x + 2 modulo 7.
#[test]
fn minimal_polynomials(rt: HostRuntime) -> Result<(), Fail> {
    let lattice = Lattice::open(rt.alloc(), Edition::One)?;
    assert!(rt; lattice.fields() == 11);
    let five = tagged(&rt, &lattice, 3, &[5]);
    match answer(&lattice, &Question::MinPoly(five.copy())) {
        Answer::Poly(f) => assert_eq!(rt; f.coefficients(), [2, 1].as_slice()),
        _ => panic!(rt; "each value has one"),
    }
    match answer(
        &lattice,
        &Question::MinPolyOver {
            value: five.copy(),
            over: 3,
        },
    ) {
        Answer::RelPoly(f) => {
            assert_eq!(rt; f.coefficients().len(), 2);
            assert_eq!(rt; f.coefficients()[0].digits(), [2].as_slice());
            assert_eq!(rt; f.coefficients()[1].digits(), [1].as_slice());
        }
        _ => panic!(rt; "each value has one"),
    }
    match answer(
        &lattice,
        &Question::MinPolyOver {
            value: five,
            over: 0,
        },
    ) {
        Answer::Refused(CoerceFault::NotEmbedded { i, j }) => assert_eq!(rt; (i, j), (0, 3)),
        _ => panic!(rt; "no map between two characteristics"),
    }
    Ok(())
}
