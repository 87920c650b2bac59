//! What sessions do with a gate over amounts: the use of a gate in small.
ghost use Rattle.std.specs.Prelude.{◌≡◌, ◌≢◌, ◌<◌, ℕ, List, [], ◌∷◌, IfOk, OnOk, OnErr};
ghost use Rattle.lat_gate.specs.History.{BeginsWith, of_number};
ghost use Rattle.lat_gate.specs.Seats.{dealt};
ghost use Rattle.lat_gate.specs.Passes.{gate_id, known, IsPassOf};
ghost use Rattle.lat_gate.specs.Sessions.{number_of, HasOnly, Adds, Sees, IsSamePass, tally};
ghost use Rattle.lat_gate.specs.declared.amounts.Amount.{Amount};

use super::{Amount, Amounts};
use crate::faults::NoMemory;
use crate::gate::Gate;
use crate::pass::Pass;
use std::alloc::Global;
use std::sync::Wait;
use std::thread::{Threads, join};

/// A gate over no amounts, with the passes 1 and 2.
pub fn open_two(alloc: Global) -> Result<(Gate<Amounts>, Pass<Amounts>, Pass<Amounts>), NoMemory>
    ensures first { IfOk result (λ made. known made.1 ≡ dealt (gate_id made.0) [] [] 2 1) }
    ensures second { IfOk result (λ made. known made.2 ≡ dealt (gate_id made.0) [] [] 2 2) }
{
    let (gate, mut passes) = Gate::open(alloc, Amounts::new(alloc), 2)?;
    let Some(second) = passes.pop() else {
        unreachable!()
    };
    let Some(first) = passes.pop() else {
        unreachable!()
    };
    Ok((gate, first, second))
}

/// Closes a gate with its passes 1 and 2, and gives the amounts.
///
/// Requires that both are of this gate, that it has no other passes, and that each has its number
/// alone. The amounts begin with what each pass has seen. Those of each number are its pass's own, in
/// order; those of other numbers are as at the opening.
pub fn close_two(gate: Gate<Amounts>, first: Pass<Amounts>, second: Pass<Amounts>) -> Amounts
    requires of_gate { IsPassOf gate first × IsPassOf gate second }
    requires two { (known first).passes ≡ 2 }
    requires numbers { HasOnly 1 (known first) × HasOnly 2 (known second) }
    ensures first { (mine : List Amount) → (known first).own ≡ (1, mine) ∷ [] →
        of_number number_of 1 result ≡ mine }
    ensures second { (mine : List Amount) → (known second).own ≡ (2, mine) ∷ [] →
        of_number number_of 2 result ≡ mine }
    ensures others { (n : ℕ) → n ≢ 1 → n ≢ 2 →
        of_number number_of n result ≡ of_number number_of n (known first).opening }
    ensures begins_first { BeginsWith result (known first).seen }
    ensures begins_second { BeginsWith result (known second).seen }
{
    let mut kept = first;
    gate.join(&mut kept, second);
    gate.close(kept)
}

/// Adds one amount, under the number of the pass. It waits until the gate is free.
///
/// Requires that the pass is of this gate and has the entry's number alone. The pass comes back. On
/// `Ok` it has seen a history that ends with the entry, and has the entry behind its own ones; for
/// want of memory the machine is given back as it was.
pub fn add<R: Wait>(
    rt: &R,
    gate: &Gate<Amounts>,
    pass: Pass<Amounts>,
    entry: Amount,
) -> (Pass<Amounts>, Result<(), NoMemory>)
    requires of_gate { IsPassOf gate.now pass }
    requires number { HasOnly entry.number (known pass) }
    ensures ok { OnOk result.1 (Adds (known pass) entry (known result.0)) }
    ensures err { OnErr result.1 (Sees (known pass) (known result.0)) }
{
    let mut turn = gate.take(rt, pass);
    match turn.machine().add(entry) {
        Ok(()) => (turn.publish(), Ok(())),
        Err(NoMemory) => (turn.give_back(), Err(NoMemory)),
    }
}

/// Adds as many amounts as said, 0, 1, 2 and so on, under the number of the pass, which has none yet.
/// Other sessions may add theirs in between. Where one is not added it stops: on `Err` the pass has the first
/// of these amounts, fewer than said.
pub fn add_each<R: Wait>(
    rt: &R,
    gate: &Gate<Amounts>,
    pass: Pass<Amounts>,
    number: u32,
    count: u32,
) -> (Pass<Amounts>, Result<(), NoMemory>)
    requires of_gate { IsPassOf gate.now pass }
    requires number { (known pass).own ≡ (number, []) ∷ [] }
    ensures same { IsSamePass (known pass) (known result.0) }
    ensures number { HasOnly number (known result.0) }
    ensures ok { OnOk result.1 ((known result.0).own ≡ (number, tally number count) ∷ []) }
    ensures err { OnErr result.1 ((done : ℕ) × (done < count)
        × ((known result.0).own ≡ (number, tally number done) ∷ [])) }
{
    let mut pass = pass;
    for amount in 0..count {
        let (next, added) = add(rt, gate, pass, Amount { number, amount });
        pass = next;
        if added.is_err() {
            return (pass, added);
        }
    }
    (pass, Ok(()))
}

/// Two sessions beside each other add as many amounts each as said; then the gate is closed.
///
/// Whatever the order in which they took the machine, the amounts of each are all there, once
/// each and in the order in which it added them, and there are no others.
pub fn add_beside<R: Threads + Wait + Sync>(
    rt: &R,
    alloc: Global,
    count: u32,
) -> Result<Amounts, NoMemory>
    ensures first { IfOk result (λ amounts. of_number number_of 1 amounts ≡ tally 1 count) }
    ensures second { IfOk result (λ amounts. of_number number_of 2 amounts ≡ tally 2 count) }
    ensures others { IfOk result (λ amounts. (n : ℕ) → n ≢ 1 → n ≢ 2 →
        of_number number_of n amounts ≡ []) }
{
    let (gate, first, second) = open_two(alloc)?;
    let ((first, added), (second, also)) = join(
        rt,
        || add_each(rt, &gate, first, 1, count),
        || add_each(rt, &gate, second, 2, count),
    );
    let amounts = close_two(gate, first, second);
    added?;
    also?;
    Ok(amounts)
}
