//! Lattices and the messages that change and ask them: each call once, with values by hand.
ghost use Rattle.std.specs.Prelude.{◌≡◌};

use crate::field_values::{field_of, value_of};
use ff_poly::Poly;
use lat_core::{
    Digits, Edition, Entry, FieldName, FieldRow, Lattice, MapRow, NumberList, Reply, Request,
    Sending, SharedRow, StepRefusal, Tagged,
};
use std::process::Abort;
use std::test::Fail;

// The bytes of the name of a field.
fn expect_name(rt: &impl Abort, lattice: &Lattice, name: &str, number: Option<u32>) {
    let name = FieldName::declared(name).expect(rt, "a name");
    assert!(rt; lattice.field_named(&name) == number);
}

#[test]
fn the_opening_lattices(rt: HostRuntime) -> Result<(), Fail> {
    let one = Lattice::open(rt.alloc(), Edition::One)?;
    assert_eq!(rt; one.fields(), 11);
    assert_eq!(rt; one.maps(), 11);
    expect_name(&rt, &one, "F31", Some(10));
    expect_name(&rt, &one, "F61", None);
    let two = Lattice::open(rt.alloc(), Edition::Two)?;
    assert!(rt; two.edition() == Edition::Two);
    assert_eq!(rt; two.fields(), 18);
    assert_eq!(rt; two.maps(), 18);
    expect_name(&rt, &two, "F61", Some(17));
    Ok(())
}

#[test]
fn fields_and_maps(rt: HostRuntime) -> Result<(), Fail> {
    let lattice = Lattice::open(rt.alloc(), Edition::One)?;
    assert!(rt; lattice.fields() == 11);
    let row = lattice.field(3);
    assert_eq!(rt; row.name.bytes(), b"F7".as_slice());
    assert_eq!(rt; row.field.prime().number(), 7);
    assert_eq!(rt; row.field.degree(), 1);
    let identity = lattice.map(3, 3).expect(&rt, "the identity");
    assert_eq!(rt; identity.image().digits(), [0].as_slice());
    assert!(rt; lattice.map(3, 4).is_none());
    assert!(rt; lattice.map(200, 4).is_none());
    let shared: &SharedRow = lattice.row(3);
    assert_eq!(rt; shared.field().name.bytes(), b"F7".as_slice());
    assert!(rt; shared.map_into(3).is_some());
    assert!(rt; shared.map_into(0).is_none());
    Ok(())
}

#[test]
fn copies_and_growth(rt: HostRuntime) -> Result<(), Fail> {
    let alloc = rt.alloc();
    let lattice = Lattice::open(alloc, Edition::Two)?;
    let copy = lattice.copy()?;
    assert_eq!(rt; copy.maps(), 18);
    let fields: Vec<FieldRow> = Vec::new(alloc);
    let maps: Vec<MapRow> = Vec::new(alloc);
    let grown = copy.grown(fields.as_slice(), maps.as_slice())?;
    assert_eq!(rt; grown.fields(), 18);
    assert_eq!(rt; grown.maps(), 18);
    Ok(())
}

#[test]
fn names_and_numbers(rt: HostRuntime) {
    assert!(rt; FieldName::declared("").is_none());
    assert!(rt; FieldName::declared("_14").is_none());
    assert!(rt; FieldName::declared("a-b").is_none());
    assert!(rt; FieldName::declared("a23456789_123456789_123456789_123").is_none());
    let name = FieldName::declared("a23456789_123456789_123456789_12").expect(&rt, "32 bytes");
    assert_eq!(rt; name.bytes().len(), 32);
    assert_eq!(rt; FieldName::made(7).bytes(), b"_7".as_slice());
    assert_eq!(rt; FieldName::made(199).copy().bytes(), b"_199".as_slice());
    assert!(rt; Digits::of(&[]).is_none());
    assert!(rt; Digits::of(&[1; 65]).is_none());
    let digits = Digits::of(&[1, 255]).expect(&rt, "two numbers");
    assert_eq!(rt; digits.copy().numbers(), [1, 255].as_slice());
    assert_eq!(rt; NumberList::of(&[]).copy().numbers().len(), 0);
    assert_eq!(rt; (Edition::One.primes(), Edition::One.top()), (11, 24));
    assert_eq!(rt; (Edition::Two.primes(), Edition::Two.top()), (18, 48));
    assert!(rt; Edition::One.characteristic(37).is_none());
    assert!(rt; Edition::Two.characteristic(37).is_some());
    assert!(rt; Edition::Two.characteristic(4).is_none());
}

// Whether an entry is session 3's embedding of K into L, which was refused for a reducible
// polynomial that this is.
fn is_refused(entry: &Entry, factor: &[u8]) -> bool {
    let Reply::Refused(StepRefusal::Reducible { factor: found }) = &entry.reply else {
        return false;
    };
    let Request::Embed {
        from,
        into,
        sending: Some(sending),
    } = &entry.request
    else {
        return false;
    };
    entry.session == 3
        && found.coefficients() == factor
        && from.bytes() == b"K".as_slice()
        && into.bytes() == b"L".as_slice()
        && sending.image.field == 12
}

#[test]
fn copies_of_entries(rt: HostRuntime) {
    let field = field_of(&rt, 2, &[1, 1, 1]);
    let value = value_of(&rt, &field, &[0, 1]);
    let entry = Entry {
        session: 3,
        request: Request::Embed {
            from: FieldName::declared("K").expect(&rt, "a name"),
            into: FieldName::declared("L").expect(&rt, "a name"),
            sending: Some(Sending {
                value: Tagged {
                    field: 11,
                    value: value.copy(),
                },
                image: Tagged { field: 12, value },
            }),
        },
        reply: Reply::Refused(StepRefusal::Reducible {
            factor: Poly::trimmed(field.prime(), &[1, 1, 1]),
        }),
    };
    assert!(rt; is_refused(&entry.copy(), &[1, 1, 1]));
}
