//! The pass that makes all clocks.

ghost use Rattle.std.specs.Prelude.{◌≡◌, ◌<◌, ◌+◌, ◌^◌, ℕ, length, All, IfOk};
ghost use Rattle.clocks.specs.Events.{FitsIn, AreClocks, IsClockOf, IsTight, AreTight, KnowsBefore};

use crate::clock::{Clock, THREADS};
use ports::Memory;
use std::alloc::Global;

/// An event of a thread, with the channel that it takes from, if any, and the channel that it gives to, if any.
#[derive(Clone, Copy, Debug, PartialEq, Eq)]
pub struct Event {
    pub thread: usize,
    pub takes: Option<usize>,
    pub gives: Option<usize>,
}

/// The clock of the event at a place, by what its thread and the channel that it takes from know.
fn clock_of(known: &[Clock], events: &[Event], at: usize) -> Clock
    requires inside { at < length events.now }
    requires knows { KnowsBefore events.now at known.now }
    requires fits { All (FitsIn (length known.now)) events.now }
    requires tight { AreTight events.now known.now }
    ensures exact { IsClockOf events.now at result }
    ensures tight { IsTight events.now result }
{
    let event = events[at];
    let own = known[event.thread];
    match event.takes {
        None => own,
        Some(channel) => own.joined(&known[THREADS + channel]),
    }
}

/// Lets the thread and the channel of the event at a place know of it.
fn tell(known: &mut [Clock], events: &[Event], at: usize, clock: &Clock)
    requires inside { at < length events.now }
    requires knows { KnowsBefore events.now at known.old }
    requires fits { All (FitsIn (length known.old)) events.now }
    requires clock { IsClockOf events.now at clock.now }
    requires tight { AreTight events.now known.old }
    requires tight_clock { IsTight events.now clock.now }
    ensures knows { KnowsBefore events.now (at + 1) known.new }
    ensures tight { AreTight events.now known.new }
{
    let event = events[at];
    let after = clock.with(event.thread, at + 1);
    known[event.thread] = after;
    if let Some(channel) = event.gives {
        known[THREADS + channel] = known[THREADS + channel].joined(&after);
    }
}

/// The clocks of all events, one after another.
fn run(alloc: Global, known: &mut [Clock], events: &[Event]) -> Result<Vec<Clock>, Memory>
    requires knows { KnowsBefore events.now 0 known.old }
    requires fits { All (FitsIn (length known.old)) events.now }
    requires tight { AreTight events.now known.old }
    ensures { IfOk result (λ clocks. AreClocks events.now clocks.items) }
{
    let mut clocks = Vec::with_capacity(alloc, events.len()).map_err(|_| Memory)?;
    for at in 0..events.len() {
        let clock = clock_of(known, events, at);
        tell(known, events, at, &clock);
        clocks.push(clock).map_err(|_| Memory)?;
    }
    Ok(clocks)
}

/// The clocks of all events, where channels are below `channels`.
pub fn clocks(alloc: Global, events: &[Event], channels: usize) -> Result<Vec<Clock>, Memory>
    requires few { channels < 2 ^ 63 }
    requires fits { All (FitsIn (8 + channels)) events.now }
    ensures { IfOk result (λ clocks. AreClocks events.now clocks.items) }
{
    let mut known = vec![in alloc; Clock::empty(); THREADS + channels].map_err(|_| Memory)?;
    run(alloc, &mut known, events)
}
