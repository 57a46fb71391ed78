//! The check of all locks.

ghost use Rattle.std.specs.Prelude.{length, IfOk};
ghost use Rattle.action_orders.specs.WellFormed.{ExcludesAt, locks, unlocks};
ghost use Rattle.least_break.specs.Least.{IsLeastBreak, IsScanned};
ghost use Rattle.orders.specs.Made.{IsMade};
ghost use Rattle.orders.specs.Symbols.{symbols};
ghost use Rattle.mutual_exclusion.specs.Locking.{IsTally, ExcludesAtPlace};

use crate::counts::{Counts, all_none};
use crate::locking::{count_lock, count_unlock, excludes};
use least_break::noted;
use orders::Orders;
use ports::Memory;
use std::alloc::Global;

/// The pass over the synchronization order, with nothing counted yet.
fn scan(orders: &Orders, locked: &mut [Counts], unlocked: &mut [Counts]) -> Option<u64>
    requires made { IsMade orders.now }
    requires locks { IsTally orders.now.flat.execution.now locks (symbols orders.now.channels) 0 locked.old }
    requires unlocks { IsTally orders.now.flat.execution.now unlocks (symbols orders.now.channels) 0 unlocked.old }
    ensures { IsScanned (ExcludesAtPlace orders.now.flat.execution.now) orders.now.flat.execution.now.so (length orders.now.flat.execution.now.so) result }
{
    let so = orders.flat.execution.so();
    let mut least = None;
    for at in 0..so.len() {
        let fits = excludes(orders, locked, unlocked, at);
        least = noted(least, so[at], fits);
        count_lock(orders, locked, at);
        count_unlock(orders, unlocked, at);
    }
    least
}

/// The least identifier of a lock that breaks mutual exclusion, the third clause of well-formedness (docs/MODEL.md), or none
/// where each lock meets it. It takes time in proportion to the synchronization actions, and memory in proportion to the
/// monitors.
///
/// # Errors
///
/// `Memory` where an allocation fails.
pub fn check_locks(alloc: Global, orders: &Orders) -> Result<Option<u64>, Memory>
    requires { IsMade orders.now }
    ensures { IfOk result (IsLeastBreak (ExcludesAt orders.now.flat.execution.now)) }
{
    let mut locked = all_none(alloc, orders.channels.len())?;
    let mut unlocked = all_none(alloc, orders.channels.len())?;
    Ok(scan(orders, &mut locked, &mut unlocked))
}
