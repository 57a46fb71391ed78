//! The table of all clocks, and what it answers.

ghost use Rattle.std.specs.Prelude.{◌≡◌, ◌<◌, ◌+◌, ◌^◌, ◌↔◌, length, All, IfOk, IfSome, IfNone, IsTrue};
ghost use Rattle.relations.specs.Path.{Path, Walk};
ghost use Rattle.clocks.specs.Events.{FitsIn, Leads, IsLastKnown, IsUnknown, LiesBetween, IsTakenBefore, IsTakenBetween};
ghost use Rattle.clocks.specs.Table.{IsTable, IsFirstBefore};

use crate::clock::{Clock, THREADS};
use crate::pass::{Event, clocks};
use crate::takers::first_takers;
use ports::Memory;
use std::alloc::Global;

/// The clocks of a list of events. Each answer takes constant time.
#[derive(Debug, Drop)]
pub struct Clocks {
    pub events: Vec<Event>,
    pub clocks: Vec<Clock>,
    pub takers: Vec<Clock>,
}

impl Clocks {
    /// The clocks of all events, where channels are below `channels`. It takes time and memory in proportion to the events
    /// and the channels.
    ///
    /// # Errors
    ///
    /// `Memory` where an allocation fails.
    pub fn new(alloc: Global, events: Vec<Event>, channels: usize) -> Result<Clocks, Memory>
        requires few { channels < 2 ^ 63 }
        requires fits { All (FitsIn (8 + channels)) events.items }
        ensures events { IfOk result (λ table. table.events.items ≡ events.items) }
        ensures channels { IfOk result (λ table. length table.takers.items ≡ channels) }
        ensures made { IfOk result IsTable }
    {
        let clocks = clocks(alloc, &events, channels)?;
        let takers = first_takers(alloc, &events, channels)?;
        Ok(Clocks {
            events,
            clocks,
            takers,
        })
    }

    /// Whether a path leads from the one event to the other.
    pub fn leads(&self, from: usize, to: usize) -> bool
        requires made { IsTable self.now }
        requires first { from < length self.now.events.items }
        requires second { to < length self.now.events.items }
        ensures { IsTrue result ↔ Path (Leads self.now.events.items) from to }
    {
        let thread = self.events[from].thread;
        from < self.clocks[to].known[thread]
    }

    /// The last event of a thread from which a path leads to this one.
    pub fn last_known(&self, thread: usize, to: usize) -> Option<usize>
        requires made { IsTable self.now }
        requires thread { thread < 8 }
        requires second { to < length self.now.events.items }
        ensures found { IfSome result (IsLastKnown self.now.events.items thread to) }
        ensures none { IfNone result (IsUnknown self.now.events.items thread to) }
    {
        let known = self.clocks[to].known[thread];
        if known == 0 {
            return None;
        }
        Some(known - 1)
    }

    /// Whether a path leads from the one event to a third, and one from there to the other.
    pub fn lies_between(&self, from: usize, to: usize) -> bool
        requires made { IsTable self.now }
        requires first { from < length self.now.events.items }
        requires second { to < length self.now.events.items }
        ensures { IsTrue result ↔ LiesBetween self.now.events.items from to }
    {
        for t in 0..THREADS {
            let known = self.clocks[to].known[t];
            if known > 0 && self.leads(from, known - 1) {
                return true;
            }
        }
        false
    }

    /// Whether the two are one event, or a path leads from the one to the other.
    pub fn walks(&self, from: usize, to: usize) -> bool
        requires made { IsTable self.now }
        requires first { from < length self.now.events.items }
        requires second { to < length self.now.events.items }
        ensures { IsTrue result ↔ Walk (Leads self.now.events.items) from to }
    {
        if from == to {
            return true;
        }
        self.leads(from, to)
    }

    /// Whether a thread has an event that takes from the channel, and its first one is this one or leads to it.
    fn first_walks(&self, channel: usize, thread: usize, to: usize) -> bool
        requires made { IsTable self.now }
        requires channel { channel < length self.now.takers.items }
        requires thread { thread < 8 }
        requires second { to < length self.now.events.items }
        ensures { IsTrue result ↔ IsFirstBefore self.now channel thread to }
    {
        let first = self.takers[channel].known[thread];
        first < self.events.len() && self.walks(first, to)
    }

    /// Whether an event that takes from the channel is this one, or a path leads from such an event there.
    pub fn taken_before(&self, channel: usize, to: usize) -> bool
        requires made { IsTable self.now }
        requires channel { channel < length self.now.takers.items }
        requires second { to < length self.now.events.items }
        ensures { IsTrue result ↔ IsTakenBefore self.now.events.items channel to }
    {
        for t in 0..THREADS {
            if self.first_walks(channel, t, to) {
                return true;
            }
        }
        false
    }

    /// Whether an event from which a path leads to this one comes at or after an event that takes from the channel.
    pub fn taken_between(&self, channel: usize, to: usize) -> bool
        requires made { IsTable self.now }
        requires channel { channel < length self.now.takers.items }
        requires second { to < length self.now.events.items }
        ensures { IsTrue result ↔ IsTakenBetween self.now.events.items channel to }
    {
        for t in 0..THREADS {
            let known = self.clocks[to].known[t];
            if known > 0 && self.taken_before(channel, known - 1) {
                return true;
            }
        }
        false
    }
}
