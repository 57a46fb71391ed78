//! The actions of all threads in one list, with tables from identifiers to places.

ghost use Rattle.std.specs.Prelude.{◌≡◌, ◌<◌, ◌+◌, ◌++◌, ℕ, Option, Some, slice_get, length, map, IsErr, OnOk, IfOk};
ghost use Rattle.action_orders.specs.Actions.{entries};
ghost use Rattle.orders.specs.Lists.{seen};
ghost use Rattle.orders.specs.Flat.{IsOrdered, IsAt, AreEvents};
ghost use Rattle.orders.specs.Tables.{IsFlat, ArePlaces, AreLast, IsLastBefore, action_of};
ghost use Rattle.orders.specs.Symbols.{symbols, IsDistinct};

use crate::channels::{Channels, event_of};
use crate::numbers::{number_of, numbers};
use action_orders::{Action, Entry, Execution};
use clocks::{Event, THREADS};
use indexmap::IndexSet;
use ports::Memory;
use program::Program;
use std::alloc::Global;

/// Adds the entries of one thread.
fn append<'a>(flat: &mut Vec<&'a Entry>, part: &'a [Entry]) -> Result<(), Memory>
    ensures { OnOk result (seen flat.new.items ≡ seen flat.old.items ++ part.now) }
{
    for entry in part {
        flat.push(entry).map_err(|_| Memory)?;
    }
    Ok(())
}

/// The entries of all threads.
fn flat_entries<'a>(alloc: Global, execution: &'a Execution) -> Result<Vec<&'a Entry>, Memory>
    ensures { IfOk result (λ flat. seen flat.items ≡ entries execution.now) }
{
    let mut flat = Vec::new(alloc);
    for part in execution.threads() {
        append(&mut flat, part.entries.as_slice())?;
    }
    Ok(flat)
}

/// The identifiers of entries.
fn ids_of(alloc: Global, entries: &[&Entry]) -> Result<Vec<u64>, Memory>
    ensures { IfOk result (λ ids. ids.items ≡ map (λ n. n.action.id) (seen entries.now)) }
{
    let mut ids = Vec::with_capacity(alloc, entries.len()).map_err(|_| Memory)?;
    for entry in entries {
        ids.push(entry.action.id).map_err(|_| Memory)?;
    }
    Ok(ids)
}

/// The actions of all threads, one thread after another, and tables from identifiers to their places there and in the
/// synchronization order.
#[derive(Drop)]
pub struct Flat<'a> {
    pub program: &'a Program,
    pub execution: &'a Execution,
    pub entries: Vec<&'a Entry>,
    pub ids: IndexSet<u64>,
    pub sync: IndexSet<u64>,
}

impl<'a> Flat<'a> {
    /// The tables of an execution.
    pub fn new(
        alloc: Global,
        program: &'a Program,
        execution: &'a Execution,
    ) -> Result<Flat<'a>, Memory>
        requires { IsOrdered program.now execution.now }
        ensures of_program { IfOk result (λ flat. flat.program.now ≡ program.now) }
        ensures of_execution { IfOk result (λ flat. flat.execution.now ≡ execution.now) }
        ensures made { IfOk result IsFlat }
    {
        let entries = flat_entries(alloc, execution)?;
        let id_list = ids_of(alloc, &entries)?;
        let ids = numbers(alloc, &id_list)?;
        let sync = numbers(alloc, execution.so())?;
        Ok(Flat {
            program,
            execution,
            entries,
            ids,
            sync,
        })
    }

    /// The places of the actions of the synchronization order.
    pub fn sync_places(&self, alloc: Global) -> Result<Vec<usize>, Memory>
        requires ordered { IsOrdered self.now.program.now self.now.execution.now }
        requires flat { IsFlat self.now }
        ensures { IfOk result (λ places. ArePlaces self.now.execution.now places.items) }
    {
        let so = self.execution.so();
        let mut places = Vec::with_capacity(alloc, so.len()).map_err(|_| Memory)?;
        for id in so {
            let Some(place) = number_of(&self.ids, *id) else {
                unreachable!()
            };
            places.push(place).map_err(|_| Memory)?;
        }
        Ok(places)
    }

    /// The action at a place.
    pub fn action(&self, at: usize) -> &'a Action
        requires flat { IsFlat self.now }
        requires inside { at < length self.now.entries.items }
        ensures same { result.now ≡ action_of self.now at }
        ensures at { IsAt self.now.execution.now at result.now }
        ensures few { result.now.thread < 8 }
    {
        let entry = self.entries[at];
        &entry.action
    }

    /// What is last of a thread after the entry at a place of it, where `last` was before.
    fn noted(&self, last: Option<usize>, at: usize) -> Option<usize>
        requires flat { IsFlat self.now }
        requires inside { at < length self.now.entries.items }
        requires last { IsLastBefore self.now.execution.now (action_of self.now at).thread at last }
        ensures { IsLastBefore self.now.execution.now (action_of self.now at).thread (at + 1) result }
    {
        match number_of(&self.sync, self.action(at).id) {
            Some(place) => Some(place),
            None => last,
        }
    }

    /// The events of the synchronization order, by the places of its actions. Their channels are added.
    pub fn events(
        &self,
        alloc: Global,
        channels: &mut Channels<'a>,
        places: &[usize],
    ) -> Result<Vec<Event>, Memory>
        requires ordered { IsOrdered self.now.program.now self.now.execution.now }
        requires flat { IsFlat self.now }
        requires places { ArePlaces self.now.execution.now places.now }
        requires distinct { IsDistinct (symbols channels.old) }
        ensures { IfOk result (λ events. AreEvents self.now.execution.now (symbols channels.new) events.items) }
    {
        let mut events = Vec::with_capacity(alloc, places.len()).map_err(|_| Memory)?;
        for place in places {
            let action = self.action(*place);
            let event = event_of(channels, action)?;
            events.push(event).map_err(|_| Memory)?;
        }
        Ok(events)
    }

    /// For each entry the place in the synchronization order of the last of its thread's at or before it.
    pub fn last_syncs(&self, alloc: Global) -> Result<Vec<Option<usize>>, Memory>
        requires flat { IsFlat self.now }
        ensures { IfOk result (λ before. AreLast self.now.execution.now before.items) }
    {
        let mut last = [None; THREADS];
        let mut before = Vec::with_capacity(alloc, self.entries.len()).map_err(|_| Memory)?;
        for at in 0..self.entries.len() {
            let thread = self.action(at).thread as usize;
            let noted = self.noted(last[thread], at);
            last[thread] = noted;
            before.push(noted).map_err(|_| Memory)?;
        }
        Ok(before)
    }
}
