//! What happens before an action, by thread.

ghost use Rattle.std.specs.Prelude.{◌≡◌, ◌<◌, All, IfNone, IfSome, length};
ghost use Rattle.std.specs.List.Sorted.{IsNonDecreasingBy};
ghost use Rattle.orders.specs.Made.{IsMade};
ghost use Rattle.writes_between.specs.Before.{IsKnownUntil, IsLastBefore, NoneBefore};

use crate::places::last_below;
use orders::Orders;

/// The place below which all actions of a thread happen before the action at a place, and from which on none does.
fn known_until(orders: &Orders, thread: usize, at: usize) -> usize
    requires made { IsMade orders.now }
    requires thread { thread < 8 }
    requires inside { at < length orders.now.flat.entries.items }
    ensures { IsKnownUntil orders.now thread at result }
{
    if orders.flat.action(at).thread as usize == thread {
        return at;
    }
    let Some(last) = orders.before[at] else {
        return 0;
    };
    match orders.clocks.last_known(thread, last) {
        Some(known) => orders.places[known] + 1,
        None => 0,
    }
}

/// The last of some places with an action of a thread that happens before the action at a place.
pub fn last_before(orders: &Orders, places: &[usize], thread: usize, at: usize) -> Option<usize>
    requires made { IsMade orders.now }
    requires thread { thread < 8 }
    requires inside { at < length orders.now.flat.entries.items }
    requires rising { IsNonDecreasingBy (λ k. k) places.now }
    requires within { All (λ k. k < length orders.now.flat.entries.items) places.now }
    ensures found { IfSome result (IsLastBefore orders.now places.now thread at) }
    ensures none { IfNone result (NoneBefore orders.now places.now thread at) }
{
    let bound = known_until(orders, thread, at);
    match last_below(places, bound) {
        None => None,
        Some(place) => if orders.flat.action(place).thread as usize == thread {
            Some(place)
        } else {
            None
        },
    }
}
