//! The check of all volatile reads.

ghost use Rattle.std.specs.Prelude.{length, IfOk};
ghost use Rattle.program.specs.Straight.{AreApart};
ghost use Rattle.action_orders.specs.WellFormed.{SyncOrderConsistentAt};
ghost use Rattle.least_break.specs.Least.{IsLeastBreak, IsScanned};
ghost use Rattle.orders.specs.Made.{IsMade};
ghost use Rattle.orders.specs.Symbols.{symbols};
ghost use Rattle.volatile_reads.specs.LastWrites.{AreLastWrites, IsConsistentAtPlace};

use crate::last_writes::{none_yet, pass, sees_last};
use least_break::noted;
use orders::Orders;
use ports::Memory;
use std::alloc::Global;

/// The pass over the synchronization order, before which only the default writes stand.
fn scan(orders: &Orders, last: &mut [Option<u64>]) -> Option<u64>
    requires made { IsMade orders.now }
    requires apart { AreApart orders.now.flat.program.now.variables }
    requires last { AreLastWrites orders.now.flat.program.now orders.now.flat.execution.now (symbols orders.now.channels) 0 last.old }
    ensures { IsScanned (IsConsistentAtPlace orders.now.flat.program.now orders.now.flat.execution.now) orders.now.flat.execution.now.so (length orders.now.flat.execution.now.so) result }
{
    let so = orders.flat.execution.so();
    let mut least = None;
    for at in 0..so.len() {
        let fits = sees_last(orders, last, at);
        least = noted(least, so[at], fits);
        pass(orders, last, at);
    }
    least
}

/// The least identifier of a volatile read that breaks consistency with the synchronization order (JLS 17.4.7), the sixth
/// clause of well-formedness, or none where each volatile read meets it. A read meets it exactly where it sees the last write
/// to its variable before it, the default write where there is no other. The program's variables have different names, as
/// those of linked programs do. It takes time in proportion to the synchronization actions, and memory in proportion to the
/// volatile variables, monitors and threads that are used.
///
/// # Errors
///
/// `Memory` where an allocation fails.
pub fn check_volatile_reads(alloc: Global, orders: &Orders) -> Result<Option<u64>, Memory>
    requires made { IsMade orders.now }
    requires apart { AreApart orders.now.flat.program.now.variables }
    ensures { IfOk result (IsLeastBreak (SyncOrderConsistentAt orders.now.flat.program.now orders.now.flat.execution.now)) }
{
    let mut last = none_yet(alloc, orders.channels.len())?;
    Ok(scan(orders, &mut last))
}
