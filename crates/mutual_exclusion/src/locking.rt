//! Locks and unlocks along the synchronization order.

ghost use Rattle.std.specs.Prelude.{◌≡◌, ◌<◌, ◌+◌, ◌^◌, ◌↔◌, length, IsTrue};
ghost use Rattle.action_orders.specs.WellFormed.{locks, unlocks};
ghost use Rattle.orders.specs.Made.{IsMade};
ghost use Rattle.orders.specs.Symbols.{symbols};
ghost use Rattle.mutual_exclusion.specs.Locking.{IsActionAt, IsTally, ExcludesAtPlace, lock_channel, unlock_channel};

use crate::counts::{Counts, bump, counts_of};
use action_orders::Action;
use clocks::Event;
use orders::Orders;
use program::Kind;

/// The channel that a lock takes from.
fn locked(kind: Kind, event: &Event) -> Option<usize>
    ensures { result ≡ lock_channel kind event.now }
{
    match kind {
        Kind::Lock => event.takes,
        _ => None,
    }
}

/// The channel that an unlock gives to.
fn unlocked(kind: Kind, event: &Event) -> Option<usize>
    ensures { result ≡ unlock_channel kind event.now }
{
    match kind {
        Kind::Unlock => event.gives,
        _ => None,
    }
}

/// The action at a place of the synchronization order.
fn action_at<'a>(orders: &Orders<'a>, at: usize) -> &'a Action
    requires made { IsMade orders.now }
    requires inside { at < length orders.now.flat.execution.now.so }
    ensures { IsActionAt orders.now at result.now }
{
    orders.flat.action(orders.places[at])
}

/// Whether a lock at a place of the synchronization order, if there is one, keeps the monitor from no other thread that holds
/// it, by the locks and the unlocks of each channel before.
pub fn excludes(
    orders: &Orders,
    locked_so_far: &[Counts],
    unlocked_so_far: &[Counts],
    at: usize,
) -> bool
    requires made { IsMade orders.now }
    requires inside { at < length orders.now.flat.execution.now.so }
    requires locks { IsTally orders.now.flat.execution.now locks (symbols orders.now.channels) at locked_so_far.now }
    requires unlocks { IsTally orders.now.flat.execution.now unlocks (symbols orders.now.channels) at unlocked_so_far.now }
    ensures { IsTrue result ↔ ExcludesAtPlace orders.now.flat.execution.now at }
{
    let action = action_at(orders, at);
    match locked(action.kind, &orders.clocks.events[at]) {
        Some(channel) => counts_of(unlocked_so_far, channel).agree_but_at(
            &counts_of(locked_so_far, channel),
            action.thread as usize,
        ),
        None => true,
    }
}

/// Counts the action at a place of the synchronization order, if it is a lock.
pub fn count_lock(orders: &Orders, locked_so_far: &mut [Counts], at: usize)
    requires made { IsMade orders.now }
    requires inside { at < length orders.now.flat.execution.now.so }
    requires small { at < 2 ^ 63 }
    requires locks { IsTally orders.now.flat.execution.now locks (symbols orders.now.channels) at locked_so_far.old }
    ensures { IsTally orders.now.flat.execution.now locks (symbols orders.now.channels) (at + 1) locked_so_far.new }
{
    let action = action_at(orders, at);
    let channel = locked(action.kind, &orders.clocks.events[at]);
    bump(locked_so_far, channel, action.thread as usize)
}

/// Counts the action at a place of the synchronization order, if it is an unlock.
pub fn count_unlock(orders: &Orders, unlocked_so_far: &mut [Counts], at: usize)
    requires made { IsMade orders.now }
    requires inside { at < length orders.now.flat.execution.now.so }
    requires small { at < 2 ^ 63 }
    requires unlocks { IsTally orders.now.flat.execution.now unlocks (symbols orders.now.channels) at unlocked_so_far.old }
    ensures { IsTally orders.now.flat.execution.now unlocks (symbols orders.now.channels) (at + 1) unlocked_so_far.new }
{
    let action = action_at(orders, at);
    let channel = unlocked(action.kind, &orders.clocks.events[at]);
    bump(unlocked_so_far, channel, action.thread as usize)
}
