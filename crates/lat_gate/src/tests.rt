use crate::amounts::{Amount, add, add_beside, close_two, open_two};
use std::test::Fail;

const FIVE: Amount = Amount {
    number: 1,
    amount: 5,
};

const SEVEN: Amount = Amount {
    number: 2,
    amount: 7,
};

#[test]
fn two_passes_by_turns(rt: HostRuntime) -> Result<(), Fail> {
    let (gate, first, second) = open_two(rt.alloc())?;
    let (first, added) = add(&rt, &gate, first, FIVE);
    added?;
    let mut turn = gate.take(&rt, second);
    let found = turn.machine().entries() == [FIVE].as_slice();
    let second = turn.give_back();
    assert!(rt; found);
    let (second, added) = add(&rt, &gate, second, SEVEN);
    added?;
    let amounts = close_two(gate, first, second);
    assert!(rt; amounts.entries() == [FIVE, SEVEN].as_slice());
    Ok(())
}

#[test]
fn two_passes_on_two_threads(rt: HostRuntime) -> Result<(), Fail> {
    let amounts = add_beside(&rt, rt.alloc(), 1000)?;
    let all = amounts.entries();
    assert!(rt; all.len() == 2000);
    assert!(rt; is_counted(all, 1) && is_counted(all, 2));
    Ok(())
}

// The amounts of this number are 0, 1, 2 and so on.
fn is_counted(all: &[Amount], number: u32) -> bool {
    let mut next = 0u64;
    for entry in all {
        if entry.number == number {
            if u64::from(entry.amount) != next {
                return false;
            }
            next += 1;
        }
    }
    next == 1000
}
