//! The check of all reads.

ghost use Rattle.std.specs.Prelude.{length, IfOk};
ghost use Rattle.action_orders.specs.WellFormed.{HappensBeforeConsistentAt};
ghost use Rattle.least_break.specs.Least.{IsLeastBreak, IsScanned};
ghost use Rattle.orders.specs.Made.{IsMade};
ghost use Rattle.happens_before_reads.specs.Sights.{IsConsistentAtPlace};
ghost use Rattle.happens_before_reads.specs.Writes.{AreAllWrites};

use crate::sights::agrees;
use crate::writes::Writes;
use least_break::noted;
use orders::Orders;
use ports::Memory;
use std::alloc::Global;

/// The pass over all actions.
fn scan(orders: &Orders, writes: &Writes) -> Result<Option<u64>, Memory>
    requires made { IsMade orders.now }
    requires writes { AreAllWrites orders.now (length orders.now.flat.entries.items) writes.now.lists.items }
    ensures { IfOk result (IsScanned (IsConsistentAtPlace orders.now) orders.now.flat.ids.keys (length orders.now.flat.entries.items)) }
{
    let mut least = None;
    for at in 0..orders.flat.entries.len() {
        let fits = agrees(orders, writes, at)?;
        least = noted(least, orders.flat.action(at).id, fits);
    }
    Ok(least)
}

/// The least identifier of a read that breaks happens-before consistency (JLS 17.4.5), the fifth clause of well-formedness, or
/// none where each read meets it. A read, plain or volatile, meets it exactly where the write that it sees does not come after
/// it in happens-before, and no other write to its variable lies between the two. It takes time in proportion to the actions
/// and the threads, with the logarithm of the number of actions, and memory in proportion to the writes and the variables.
///
/// # Errors
///
/// `Memory` where an allocation fails.
pub fn check_reads(alloc: Global, orders: &Orders) -> Result<Option<u64>, Memory>
    requires { IsMade orders.now }
    ensures { IfOk result (IsLeastBreak (HappensBeforeConsistentAt orders.now.flat.program.now orders.now.flat.execution.now)) }
{
    let writes = Writes::of(alloc, orders)?;
    scan(orders, &writes)
}
