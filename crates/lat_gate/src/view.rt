//! What the table of a gate knows of each seat. These types are for the proofs alone.
use std::collections::LinkedList;
use std::snapshot::Snapshot;

/// Whether a seat holds the turn, and then with which history the machine was taken.
pub enum Hand<E> {
    Idle,
    Holds(LinkedList<E>),
}

/// What a seat knows. No value of it is made.
pub struct View<E> {
    pub setting: LinkedList<u64>,
    pub opening: LinkedList<E>,
    pub passes: u32,
    pub own: LinkedList<(u32, LinkedList<E>)>,
    pub told: LinkedList<E>,
    pub noted: LinkedList<E>,
    pub hand: Hand<E>,
}

/// What a gate was opened with.
#[derive(Drop)]
pub struct Opening<M> {
    pub machine: Snapshot<M>,
    pub passes: u32,
}
