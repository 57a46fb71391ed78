//! The places of the writes to each variable.

ghost use Rattle.std.specs.Prelude.{◌≡◌, ◌<◌, ℕ, List, [], slice_index_or, length, IfOk, OnOk, IfSome};
ghost use Rattle.orders.specs.Made.{IsMade};
ghost use Rattle.happens_before_reads.specs.Writes.{AreAllWrites, with_place};

use crate::accesses::number_written;
use crate::places::Places;
use orders::Orders;
use ports::Memory;
use std::alloc::Global;

/// For each variable, by its number, the places of the writes to it among all threads' actions, in order.
#[derive(Debug, Drop)]
pub struct Writes {
    pub lists: Vec<Places>,
}

impl Writes {
    /// No place, for each of so many variables.
    fn none(alloc: Global, variables: usize) -> Result<Writes, Memory>
        ensures size { IfOk result (λ writes. length writes.lists.items ≡ variables) }
        ensures none { IfOk result (λ writes. (c : ℕ) (d : List ℕ) → c < length writes.lists.items → slice_index_or writes.lists.items c d ≡ []) }
    {
        let mut lists = Vec::with_capacity(alloc, variables).map_err(|_| Memory)?;
        for _number in 0..variables {
            lists.push(Places::new(alloc)).map_err(|_| Memory)?;
        }
        Ok(Writes { lists })
    }

    /// Adds a place to the list of a variable, if any.
    fn add(&mut self, number: Option<usize>, place: usize) -> Result<(), Memory>
        requires { IfSome number (λ c. c < length self.old.lists.items) }
        ensures { OnOk result (self.new.lists.items ≡ with_place self.old.lists.items number place) }
    {
        if let Some(number) = number {
            self.lists[number].push(place)?;
        }
        Ok(())
    }

    /// The places of all writes.
    pub fn of(alloc: Global, orders: &Orders) -> Result<Writes, Memory>
        requires { IsMade orders.now }
        ensures { IfOk result (λ writes. AreAllWrites orders.now (length orders.now.flat.entries.items) writes.lists.items) }
    {
        let mut writes = Writes::none(alloc, orders.variables.len())?;
        for at in 0..orders.flat.entries.len() {
            let number = number_written(orders, orders.flat.action(at));
            writes.add(number, at)?;
        }
        Ok(writes)
    }

    /// The places of the writes to a variable.
    pub fn places(&self, number: usize) -> &[usize]
        requires { number < length self.now.lists.items }
        ensures { (d : List ℕ) → result.now ≡ slice_index_or self.now.lists.items number d }
    {
        self.lists[number].as_slice()
    }
}
