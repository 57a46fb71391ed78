//! How one thread stands to its run.

ghost use Rattle.std.specs.Prelude.{Contains, IfOk};
ghost use Rattle.action_orders.specs.Runs.{Acts};
ghost use Rattle.line_text.specs.Bounds.{IsBounds};
ghost use Rattle.line_text.specs.declared.bounds.Bounds.{Bounds as BoundsValue};
ghost use Rattle.orders.specs.Made.{IsMade};
ghost use Rattle.thread_runs.specs.Judged.{StandsAt};
ghost use Rattle.thread_runs.specs.Sound.{HasSoundRuns};

use crate::answers::ThreadRun;
use crate::part::run_of;
use crate::started::{is_started, part_of};
use action_orders::ThreadPart;
use line_text::bounds::Bounds;
use orders::Orders;
use ports::Memory;
use std::alloc::Global;

/// A thread that doesn't act: main always does, and another exactly where it is started.
fn idle(orders: &Orders, thread: u32) -> ThreadRun
    requires made { IsMade orders.now }
    requires idle { Acts orders.now.flat.execution.now thread → ⊥ }
    ensures { (bounds : BoundsValue) → StandsAt orders.now.flat.program.now orders.now.flat.execution.now bounds thread result }
{
    if thread == 0 {
        return ThreadRun::Wrong;
    }
    if is_started(orders, thread) {
        return ThreadRun::Wrong;
    }
    ThreadRun::Within
}

/// A thread that acts.
fn acting(
    alloc: Global,
    orders: &Orders,
    bounds: &Bounds,
    part: &ThreadPart,
) -> Result<ThreadRun, Memory>
    requires made { IsMade orders.now }
    requires bounds { IsBounds bounds.now }
    requires sound { HasSoundRuns orders.now.flat.program.now }
    requires acts { Contains orders.now.flat.execution.now.threads part.now }
    ensures { IfOk result (StandsAt orders.now.flat.program.now orders.now.flat.execution.now bounds.now part.now.thread) }
{
    if part.entries.is_empty() {
        return Ok(ThreadRun::Wrong);
    }
    if part.thread == 0 {
        return run_of(alloc, orders, bounds, part);
    }
    if is_started(orders, part.thread) {
        return run_of(alloc, orders, bounds, part);
    }
    Ok(ThreadRun::Wrong)
}

/// How a thread stands to its run.
pub fn judge(
    alloc: Global,
    orders: &Orders,
    bounds: &Bounds,
    thread: u32,
) -> Result<ThreadRun, Memory>
    requires made { IsMade orders.now }
    requires bounds { IsBounds bounds.now }
    requires sound { HasSoundRuns orders.now.flat.program.now }
    ensures { IfOk result (StandsAt orders.now.flat.program.now orders.now.flat.execution.now bounds.now thread) }
{
    match part_of(orders.flat.execution, thread) {
        Some(part) => acting(alloc, orders, bounds, part),
        None => Ok(idle(orders, thread)),
    }
}
