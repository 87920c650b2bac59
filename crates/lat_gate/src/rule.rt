//! The rule of the table, and what each kind of step on it does and tells. These types are for the
//! proofs alone.
ghost use Rattle.lat_gate.specs.Rule.{Kept};
ghost use Rattle.lat_gate.specs.Steps.{first_view, looked, tried, gave_back, others, first_alone, both, spent};

use crate::machine::Machine;
use crate::view::{Opening, View};
use atomic_table::{Join, Play, Split, TableRule};
use std::marker::PhantomData;

/// The rule of a gate over machines of the type `M`.
pub struct Rule<M> {
    machine: PhantomData<M>,
}

impl<M: Machine> TableRule<Option<M>, View<M::Entry>, Opening<M>> for Rule<M> {
    ghost holds = { λ key. Kept record {
      entries = M.entries;
      number = M.number;
      setting_of = M.setting;
      setting = M.setting key.machine.value;
      opening = M.entries key.machine.value;
      passes = key.passes;
    } };

    ghost first = { λ key. first_view
        (M.setting key.machine.value) (M.entries key.machine.value) key.passes };
}

/// A load of the word.
pub struct Look;

impl<M, E> Play<Option<M>, View<E>> for Look {
    ghost then = { looked };
}

/// A compare-exchange that takes the machine.
pub struct Take;

impl<M: Machine> Play<Option<M>, View<M::Entry>> for Take {
    ghost then = { tried M.entries M.number M.setting };
}

/// A swap that gives the machine back.
pub struct GiveBack;

impl<M: Machine> Play<Option<M>, View<M::Entry>> for GiveBack {
    ghost then = { gave_back M.entries M.number };
}

/// A seat gives its first number to a new seat.
pub struct Deal;

impl<E> Split<View<E>> for Deal {
    ghost left = { others };

    ghost right = { first_alone };
}

/// A seat takes the numbers of another.
pub struct Merge;

impl<E> Join<View<E>> for Merge {
    ghost both = { both };

    ghost spent = { spent };
}
