//! Lists of a small type.
use super::*;

#[derive(Default, Drop)]
struct Number(u8);

impl Copies for Number {
    fn copy(&self) -> Self {
        Number(self.0)
    }
}

#[test]
fn pushes_inserts_and_copies(rt: HostRuntime) {
    let mut list: BoundedList<Number, 4> = BoundedList::new();
    list.push(Number(5));
    list.push(Number(7));
    list.insert(1, Number(6));
    let copy = list.copy();
    assert_eq!(rt; copy.items().len(), 3);
    for (place, expected) in [5u8, 6, 7].iter().enumerate() {
        assert!(rt; place < copy.items().len());
        assert_eq!(rt; copy.items()[place].0, *expected);
    }
}

#[test]
fn keeps_numbers(rt: HostRuntime) {
    let numbers: ArrayVec<u8, 4> = fixed(&[3, 1, 2]);
    assert_eq!(rt; numbers.as_slice(), [3, 1, 2].as_slice());
}
