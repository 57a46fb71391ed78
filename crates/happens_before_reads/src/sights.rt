//! The writes that reads see.

ghost use Rattle.std.specs.Prelude.{◌≡◌, ◌<◌, ◌↔◌, All, IfOk, IsTrue, length};
ghost use Rattle.std.specs.List.Sorted.{IsNonDecreasingBy};
ghost use Rattle.action_orders.specs.Actions.{Act, Of, IsAction, name_of};
ghost use Rattle.action_orders.specs.HappensBefore.{HappensBefore};
ghost use Rattle.orders.specs.Made.{IsMade};
ghost use Rattle.orders.specs.Tables.{action_of};
ghost use Rattle.happens_before_reads.specs.Sights.{IsConsistentAtPlace, IsRecent, seen_name};
ghost use Rattle.happens_before_reads.specs.Writes.{AreAllWrites};

use crate::accesses::number_read;
use crate::writes::Writes;
use action_orders::{ActionOperand, ActionRef, Entry, Note};
use orders::Orders;
use ports::Memory;
use writes_between::is_overwritten;

/// The name of the write that an entry's note names, if it names one.
///
/// # Errors
///
/// `Memory` where an allocation fails.
pub fn seen(entry: &Entry) -> Result<Option<ActionRef>, Memory>
    ensures { IfOk result (λ name. name ≡ seen_name entry.now.note entry.now.action.operand) }
{
    match (entry.note, &entry.action.operand) {
        (Note::Sees(Some(id)), _) => Ok(Some(ActionRef::Id(id))),
        (Note::Sees(None), ActionOperand::Variable { class, name }) => {
            let class = class.duplicate()?;
            let name = name.duplicate()?;
            Ok(Some(ActionRef::Default { class, name }))
        }
        _ => Ok(None),
    }
}

/// Whether the action at a place happens before another action.
fn is_later(orders: &Orders, write: &ActionRef, at: usize) -> bool
    requires made { IsMade orders.now }
    requires inside { at < length orders.now.flat.entries.items }
    ensures { (x : Act) → IsAction orders.now.flat.program.now orders.now.flat.execution.now x → name_of x ≡ write.now → IsTrue result ↔ HappensBefore orders.now.flat.program.now orders.now.flat.execution.now (Of (action_of orders.now.flat at)) x }
{
    let read = ActionRef::Id(orders.flat.action(at).id);
    orders.hb(&read, write)
}

/// Whether a write neither comes after the action at a place in happens-before, nor happens before an action at one of some
/// other places that happens before that action.
fn is_recent(orders: &Orders, places: &[usize], write: &ActionRef, at: usize) -> bool
    requires made { IsMade orders.now }
    requires inside { at < length orders.now.flat.entries.items }
    requires rising { IsNonDecreasingBy (λ k. k) places.now }
    requires within { All (λ k. k < length orders.now.flat.entries.items) places.now }
    ensures { (x : Act) → IsAction orders.now.flat.program.now orders.now.flat.execution.now x → name_of x ≡ write.now → IsTrue result ↔ IsRecent orders.now places.now x at }
{
    if is_later(orders, write, at) {
        return false;
    }
    !is_overwritten(orders, places, write, at)
}

/// Whether what the action at a place sees, if it is a read, agrees with happens-before.
pub fn agrees(orders: &Orders, writes: &Writes, at: usize) -> Result<bool, Memory>
    requires made { IsMade orders.now }
    requires writes { AreAllWrites orders.now (length orders.now.flat.entries.items) writes.now.lists.items }
    requires inside { at < length orders.now.flat.entries.items }
    ensures { IfOk result (λ fits. IsTrue fits ↔ IsConsistentAtPlace orders.now at) }
{
    let entry = orders.flat.entries[at];
    let Some(number) = number_read(orders, &entry.action) else {
        return Ok(true);
    };
    let Some(write) = seen(entry)? else {
        return Ok(true);
    };
    Ok(is_recent(orders, writes.places(number), &write, at))
}
