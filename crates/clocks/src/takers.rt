//! First takers of channels.

ghost use Rattle.std.specs.Prelude.{◌≡◌, ◌<◌, ◌+◌, ◌^◌, ℕ, length, All, IfOk};
ghost use Rattle.clocks.specs.Events.{FitsIn, FindAllTakers};

use crate::clock::{Clock, THREADS};
use crate::pass::Event;
use ports::Memory;
use std::alloc::Global;

/// Counts the event at a place among those that take from its channel.
fn count_taker(takers: &mut [Clock], events: &[Event], at: usize)
    requires inside { at < length events.now }
    requires fits { All (FitsIn (8 + length takers.old)) events.now }
    requires found { FindAllTakers events.now at takers.old }
    ensures { FindAllTakers events.now (at + 1) takers.new }
{
    let event = events[at];
    if let Some(channel) = event.takes {
        let first = takers[channel].known[event.thread].min(at);
        takers[channel] = takers[channel].with(event.thread, first);
    }
}

/// Counts all events.
fn count_takers(takers: &mut [Clock], events: &[Event])
    requires fits { All (FitsIn (8 + length takers.old)) events.now }
    requires found { FindAllTakers events.now 0 takers.old }
    ensures { FindAllTakers events.now (length events.now) takers.new }
{
    for at in 0..events.len() {
        count_taker(takers, events, at);
    }
}

/// For each channel and thread the first event of the thread that takes from the channel.
pub fn first_takers(alloc: Global, events: &[Event], channels: usize) -> Result<Vec<Clock>, Memory>
    requires few { channels < 2 ^ 63 }
    requires fits { All (FitsIn (8 + channels)) events.now }
    ensures each { IfOk result (λ takers. length takers.items ≡ channels) }
    ensures found { IfOk result (λ takers. FindAllTakers events.now (length events.now) takers.items) }
{
    let none = Clock {
        known: [events.len(); THREADS],
    };
    let mut takers = vec![in alloc; none; channels].map_err(|_| Memory)?;
    count_takers(&mut takers, events);
    Ok(takers)
}
