//! Whether a write was overwritten.

ghost use Rattle.std.specs.Prelude.{◌≡◌, ◌<◌, ◌↔◌, All, IsTrue, length};
ghost use Rattle.std.specs.List.Sorted.{IsNonDecreasingBy};
ghost use Rattle.action_orders.specs.Actions.{Act, IsAction, name_of};
ghost use Rattle.orders.specs.Made.{IsMade};
ghost use Rattle.writes_between.specs.Before.{IsBefore, IsPassed, IsPassedBy};

use crate::known::last_before;
use action_orders::ActionRef;
use clocks::THREADS;
use orders::Orders;

/// Whether an action, or a default write, happens before the action at a place.
pub fn is_before(orders: &Orders, write: &ActionRef, place: usize) -> bool
    requires made { IsMade orders.now }
    requires inside { place < length orders.now.flat.entries.items }
    ensures { (x : Act) → IsAction orders.now.flat.program.now orders.now.flat.execution.now x → name_of x ≡ write.now → IsTrue result ↔ IsBefore orders.now x place }
{
    let later = ActionRef::Id(orders.flat.action(place).id);
    orders.hb(write, &later)
}

/// Whether a write happens before an action of a thread at one of some places that happens before the action at a place.
fn is_overwritten_by(
    orders: &Orders,
    places: &[usize],
    write: &ActionRef,
    thread: usize,
    at: usize,
) -> bool
    requires made { IsMade orders.now }
    requires thread { thread < 8 }
    requires inside { at < length orders.now.flat.entries.items }
    requires rising { IsNonDecreasingBy (λ k. k) places.now }
    requires within { All (λ k. k < length orders.now.flat.entries.items) places.now }
    ensures { (x : Act) → IsAction orders.now.flat.program.now orders.now.flat.execution.now x → name_of x ≡ write.now → IsTrue result ↔ IsPassedBy orders.now places.now x thread at }
{
    match last_before(orders, places, thread, at) {
        Some(place) => is_before(orders, write, place),
        None => false,
    }
}

/// Whether a write, which may be a default write, happens before an action at one of some places that happens before the action
/// at a place. The places are in order. With the places of the writes to a variable and a read of it, this is whether another
/// write lies between the write and the read in happens-before (JLS 17.4.5). It takes time in proportion to the threads, with
/// the logarithm of the number of places.
pub fn is_overwritten(orders: &Orders, places: &[usize], write: &ActionRef, at: usize) -> bool
    requires made { IsMade orders.now }
    requires inside { at < length orders.now.flat.entries.items }
    requires rising { IsNonDecreasingBy (λ k. k) places.now }
    requires within { All (λ k. k < length orders.now.flat.entries.items) places.now }
    ensures { (x : Act) → IsAction orders.now.flat.program.now orders.now.flat.execution.now x → name_of x ≡ write.now → IsTrue result ↔ IsPassed orders.now places.now x at }
{
    for thread in 0..THREADS {
        if is_overwritten_by(orders, places, write, thread, at) {
            return true;
        }
    }
    false
}
