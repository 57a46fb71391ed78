//! The last writes of volatile variables along the synchronization order.

ghost use Rattle.std.specs.Prelude.{◌≡◌, ◌<◌, ◌+◌, ◌↔◌, ℕ, Option, None, Some, slice_get, slice_index_or, length, IfOk, IfSome, IsTrue};
ghost use Rattle.program.specs.Straight.{AreApart};
ghost use Rattle.orders.specs.Made.{IsMade};
ghost use Rattle.orders.specs.Symbols.{symbols};
ghost use Rattle.volatile_reads.specs.LastWrites.{AreLastWrites, IsConsistentAtPlace, read_channel, write_channel, with_last};

use crate::entries::{entry_at, seen};
use clocks::Event;
use orders::Orders;
use ports::Memory;
use program::Kind;
use std::alloc::Global;

/// The channel that a volatile read takes from.
fn read_from(kind: Kind, event: &Event) -> Option<usize>
    ensures { result ≡ read_channel kind event.now }
{
    match kind {
        Kind::VolatileRead => event.takes,
        _ => None,
    }
}

/// The channel that a volatile write gives to.
fn written_to(kind: Kind, event: &Event) -> Option<usize>
    ensures { result ≡ write_channel kind event.now }
{
    match kind {
        Kind::VolatileWrite => event.gives,
        _ => None,
    }
}

/// No write yet, for each channel.
pub fn none_yet(alloc: Global, channels: usize) -> Result<Vec<Option<u64>>, Memory>
    ensures size { IfOk result (λ last. length last.items ≡ channels) }
    ensures none { IfOk result (λ last. (c : ℕ) (d : Option ℕ) → c < length last.items → slice_index_or last.items c d ≡ None) }
{
    let last = vec![in alloc; None; channels].map_err(|_| Memory)?;
    Ok(last)
}

/// Whether the write is the last one of a channel.
fn is_last(last: &[Option<u64>], channel: usize, write: Option<u64>) -> bool
    requires { channel < length last.now }
    ensures { IsTrue result ↔ (slice_get last.now channel ≡ Some write) }
{
    last[channel] == write
}

/// Makes a write the last one of a channel, if any.
fn put_last(last: &mut [Option<u64>], channel: Option<usize>, id: u64)
    requires { IfSome channel (λ c. c < length last.old) }
    ensures { last.new ≡ with_last last.old channel id }
{
    if let Some(channel) = channel {
        last[channel] = Some(id);
    }
}

/// Whether a volatile read at a place of the synchronization order, if there is one, sees the last write to its variable
/// before it.
pub fn sees_last(orders: &Orders, last: &[Option<u64>], at: usize) -> bool
    requires made { IsMade orders.now }
    requires apart { AreApart orders.now.flat.program.now.variables }
    requires inside { at < length orders.now.flat.execution.now.so }
    requires last { AreLastWrites orders.now.flat.program.now orders.now.flat.execution.now (symbols orders.now.channels) at last.now }
    ensures { IsTrue result ↔ IsConsistentAtPlace orders.now.flat.program.now orders.now.flat.execution.now at }
{
    let entry = entry_at(orders, at);
    match read_from(entry.action.kind, &orders.clocks.events[at]) {
        Some(channel) => is_last(last, channel, seen(entry.note)),
        None => true,
    }
}

/// Goes past the action at a place of the synchronization order.
pub fn pass(orders: &Orders, last: &mut [Option<u64>], at: usize)
    requires made { IsMade orders.now }
    requires apart { AreApart orders.now.flat.program.now.variables }
    requires inside { at < length orders.now.flat.execution.now.so }
    requires last { AreLastWrites orders.now.flat.program.now orders.now.flat.execution.now (symbols orders.now.channels) at last.old }
    ensures { AreLastWrites orders.now.flat.program.now orders.now.flat.execution.now (symbols orders.now.channels) (at + 1) last.new }
{
    let entry = entry_at(orders, at);
    let channel = written_to(entry.action.kind, &orders.clocks.events[at]);
    put_last(last, channel, entry.action.id)
}
