//! Entries and their places in the synchronization order.

ghost use Rattle.std.specs.Prelude.{◌≡◌, ◌<◌, ◌+◌, ◌↔◌, ℕ, length, IsTrue, IfOk};
ghost use Rattle.action_orders.specs.Actions.{entries};
ghost use Rattle.action_orders.specs.WellFormed.{FormAt};
ghost use Rattle.orders.specs.Flat.{IsAt};
ghost use Rattle.sync_agreement.specs.Latest.{AreLatest};
ghost use Rattle.sync_agreement.specs.Placed.{IsPlaced, IsFew, ComesAfter};

use crate::gate::{Gate, awaited, given};
use crate::latest::{is_behind, raise};
use action_orders::{Action, Entry, Execution};
use clocks::THREADS;
use entry_tables::{IdSet, flat_entries};
use ports::Memory;
use program::Program;
use std::alloc::Global;

/// An execution, with its entries in one list and the places of its synchronization order.
#[derive(Drop)]
pub struct Placed<'a> {
    pub program: &'a Program,
    pub execution: &'a Execution,
    pub entries: Vec<&'a Entry>,
    pub places: IdSet,
}

impl<'a> Placed<'a> {
    /// The tables of an execution.
    pub fn new(
        alloc: Global,
        program: &'a Program,
        execution: &'a Execution,
    ) -> Result<Placed<'a>, Memory>
        requires { (id : ℕ) → FormAt program.now execution.now id }
        ensures of_program { IfOk result (λ placed. placed.program.now ≡ program.now) }
        ensures of_execution { IfOk result (λ placed. placed.execution.now ≡ execution.now) }
        ensures made { IfOk result IsPlaced }
    {
        let entries = flat_entries(alloc, execution)?;
        let places = IdSet::of(alloc, execution.so())?;
        Ok(Placed {
            program,
            execution,
            entries,
            places,
        })
    }

    /// The action at a place of all.
    pub fn action(&self, at: usize) -> &'a Action
        requires made { IsPlaced self.now }
        requires inside { at < length self.now.entries.items }
        ensures at { IsAt self.now.execution.now at result.now }
        ensures few { IsFew result.now }
    {
        let entry = self.entries[at];
        &entry.action
    }

    /// Notes the place in the synchronization order of the action at a place of all, if it has one, by the gate.
    pub fn pass(&self, gate: Gate, latest: &mut [Option<usize>], at: usize)
        requires made { IsPlaced self.now }
        requires inside { at < length self.now.entries.items }
        requires latest { AreLatest self.now.execution.now gate at latest.old }
        ensures { AreLatest self.now.execution.now gate (at + 1) latest.new }
    {
        let action = self.action(at);
        let Some(place) = self.places.place(action.id) else {
            return;
        };
        raise(latest, given(gate, action), place);
    }

    /// The last places of all actions by the gate.
    pub fn latest(&self, gate: Gate) -> [Option<usize>; THREADS]
        requires { IsPlaced self.now }
        ensures { AreLatest self.now.execution.now gate (length (entries self.now.execution.now)) result }
    {
        let mut latest = [None; THREADS];
        for at in 0..self.entries.len() {
            self.pass(gate, &mut latest, at);
        }
        latest
    }

    /// Whether the action at a place of all, if it is in the synchronization order, comes there after all that it has to come
    /// after by the gate, among those whose last places these are.
    pub fn comes_after(&self, gate: Gate, latest: &[Option<usize>], at: usize) -> bool
        requires made { IsPlaced self.now }
        requires inside { at < length self.now.entries.items }
        requires size { length latest.now ≡ 8 }
        ensures { (until : ℕ) → AreLatest self.now.execution.now gate until latest.now → IsTrue result ↔ ComesAfter self.now.execution.now gate until at }
    {
        let action = self.action(at);
        match self.places.place(action.id) {
            Some(place) => is_behind(latest, awaited(gate, action), place),
            None => true,
        }
    }
}
