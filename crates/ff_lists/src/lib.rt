//! Lists of bounded length, in fixed room and without allocation.
#![tactic(auto)]

ghost use Rattle.std.specs.Prelude.{◌≡◌, ◌<◌, ◌≤◌, [], ◌∷◌, ◌++◌, length};
ghost use Rattle.std.specs.List.{insert};

use arrayvec::ArrayVec;
use std::marker::Model;

/// What has an equal one.
pub trait Copies {
    /// An equal one. Takes no memory.
    fn copy(&self) -> Self
        ensures { result ≡ self.now };
}

/// The numbers of `c`, of which there are at most `N`, in a fixed room.
pub fn fixed<const N: usize>(c: &[u8]) -> ArrayVec<u8, N>
    requires { length c.now ≤ N }
    ensures { result.items ≡ c.now }
{
    let mut numbers = ArrayVec::new();
    match numbers.try_extend_from_slice(c) {
        Ok(()) => numbers,
        Err(_) => unreachable!(),
    }
}

/// At most `N` items, in their order.
#[derive(Drop)]
pub struct BoundedList<T: Drop, const N: usize> {
    items: ArrayVec<T, N>,
}

impl<T: Drop, const N: usize> Model for BoundedList<T, N> {
    ghost use Rattle.std.specs.Prelude.{List};

    ghost Value = { List T };

    ghost view = { λ list. list.items.items };
}

impl<T: Default + Drop, const N: usize> BoundedList<T, N> {
    /// The empty list.
    pub fn new() -> Self
        ensures { result ≡ [] }
    {
        BoundedList {
            items: ArrayVec::new(),
        }
    }

    /// The items, in their order.
    pub fn items(&self) -> &[T]
        ensures value { result.now ≡ self.now }
        ensures whole { length self.now ≤ N }
    {
        self.items.as_slice()
    }

    /// Appends an item; there is room for it.
    pub fn push(&mut self, item: T)
        requires { length self.old < N }
        ensures { self.new ≡ self.old ++ item ∷ [] }
    {
        self.items.push(item);
    }

    /// Puts an item at this place, before those that stand from it on; there is room for it.
    pub fn insert(&mut self, place: usize, item: T)
        requires place { place ≤ length self.old }
        requires room { length self.old < N }
        ensures { self.new ≡ insert self.old place item }
    {
        self.items.insert(place, item);
    }
}

impl<T: Copies + Default + Drop, const N: usize> BoundedList<T, N> {
    /// The list of these items, of which there are at most `N`.
    pub fn of(items: &[T]) -> Self
        requires { length items.now ≤ N }
        ensures { result ≡ items.now }
    {
        let mut list = BoundedList::new();
        for item in items {
            list.push(item.copy());
        }
        list
    }

    /// An equal list.
    pub fn copy(&self) -> Self
        ensures { result ≡ self.now }
    {
        BoundedList::of(self.items())
    }
}

#[cfg(test)]
mod tests;
