//! The check of the agreement.

ghost use Rattle.std.specs.Prelude.{◌≡◌, ◌<◌, ◌↔◌, ℕ, None, length, map, IsTrue, IfOk};
ghost use Rattle.action_orders.specs.Actions.{entries};
ghost use Rattle.action_orders.specs.WellFormed.{FormAt, AgreesAt};
ghost use Rattle.least_break.specs.Least.{IsLeastBreak, IsScanned};
ghost use Rattle.orders.specs.Flat.{IsOrdered};
ghost use Rattle.sync_agreement.specs.Latest.{AreLatest};
ghost use Rattle.sync_agreement.specs.Placed.{IsPlaced, IsRightlyPlaced};

use crate::gate::Gate;
use crate::placed::Placed;
use action_orders::Execution;
use clocks::THREADS;
use least_break::noted;
use ports::Memory;
use program::Program;
use std::alloc::Global;

/// Whether the action at a place of all comes in the synchronization order after all that it has to come after, by the last
/// places of all starts and of all last actions, and those of each thread before this place.
fn is_rightly_placed(
    placed: &Placed,
    starts: &[Option<usize>],
    ends: &[Option<usize>],
    own: &[Option<usize>],
    at: usize,
) -> bool
    requires made { IsPlaced placed.now }
    requires inside { at < length placed.now.entries.items }
    requires starts { AreLatest placed.now.execution.now Gate.Start (length (entries placed.now.execution.now)) starts.now }
    requires ends { AreLatest placed.now.execution.now Gate.End (length (entries placed.now.execution.now)) ends.now }
    requires own { AreLatest placed.now.execution.now Gate.Thread at own.now }
    ensures { IsTrue result ↔ IsRightlyPlaced placed.now.execution.now at }
{
    if !placed.comes_after(Gate::Start, starts, at) {
        return false;
    }
    if !placed.comes_after(Gate::End, ends, at) {
        return false;
    }
    placed.comes_after(Gate::Thread, own, at)
}

/// The pass along each thread.
fn scan(placed: &Placed, starts: &[Option<usize>], ends: &[Option<usize>]) -> Option<u64>
    requires made { IsPlaced placed.now }
    requires starts { AreLatest placed.now.execution.now Gate.Start (length (entries placed.now.execution.now)) starts.now }
    requires ends { AreLatest placed.now.execution.now Gate.End (length (entries placed.now.execution.now)) ends.now }
    ensures { IsScanned (IsRightlyPlaced placed.now.execution.now) (map (λ n. n.action.id) (entries placed.now.execution.now)) (length (entries placed.now.execution.now)) result }
{
    let mut own = [None; THREADS];
    let mut least = None;
    for at in 0..placed.entries.len() {
        let fits = is_rightly_placed(placed, starts, ends, &own, at);
        let action = placed.action(at);
        least = noted(least, action.id, fits);
        placed.pass(Gate::Thread, &mut own, at);
    }
    least
}

/// The least identifier of an action that comes too early in the synchronization order, the second clause of well-formedness
/// (docs/MODEL.md), or none where that order agrees with program order and with the starts and ends of threads; then the orders
/// of the execution can be made. The execution meets the first clause. It takes time and memory in proportion to the actions.
///
/// # Errors
///
/// `Memory` where an allocation fails.
pub fn check_agreement(
    alloc: Global,
    program: &Program,
    execution: &Execution,
) -> Result<Option<u64>, Memory>
    requires { (id : ℕ) → FormAt program.now execution.now id }
    ensures least { IfOk result (IsLeastBreak (AgreesAt program.now execution.now)) }
    ensures ordered { IfOk result (λ least. least ≡ None → IsOrdered program.now execution.now) }
{
    let placed = Placed::new(alloc, program, execution)?;
    let starts = placed.latest(Gate::Start);
    let ends = placed.latest(Gate::End);
    Ok(scan(&placed, &starts, &ends))
}
