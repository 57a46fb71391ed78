//! The run of a thread that acts.

ghost use Rattle.std.specs.Prelude.{Contains, IfOk};
ghost use Rattle.line_text.specs.Bounds.{IsBounds};
ghost use Rattle.orders.specs.Made.{IsMade};
ghost use Rattle.thread_events.specs.Gotten.{AreAmong};
ghost use Rattle.thread_runs.specs.Judged.{AreCompared, IsSaidBy, StandsAs};
ghost use Rattle.thread_runs.specs.Sound.{HasSoundRuns};

use crate::answers::ThreadRun;
use action_orders::{Entry, ThreadPart};
use line_text::bounds::Bounds;
use orders::Orders;
use ports::Memory;
use program::Event;
use std::alloc::Global;
use thread_events::{ended_threads, have_events, values_read};
use thread_meaning::{TraceEnd, trace};

/// What the events of the run that a thread has say of its actions.
fn compared(orders: &Orders, part: &[Entry], events: &[Event]) -> ThreadRun
    requires made { IsMade orders.now }
    requires among { AreAmong orders.now.flat.execution.now part.now }
    ensures { AreCompared orders.now.flat.program.now orders.now.flat.execution.now part.now events.now result }
{
    if have_events(orders, part, events) {
        return ThreadRun::Within;
    }
    ThreadRun::Wrong
}

/// What the end of a trace says of a run.
fn said(end: TraceEnd) -> Result<ThreadRun, Memory>
    ensures { IfOk result (IsSaidBy end) }
{
    match end {
        TraceEnd::PastJumps => Ok(ThreadRun::Past),
        TraceEnd::PastWidth => Ok(ThreadRun::Past),
        TraceEnd::Memory => Err(Memory),
        _ => Ok(ThreadRun::Wrong),
    }
}

/// How the run of a thread that acts stands to its actions and to the bounds.
pub fn run_of(
    alloc: Global,
    orders: &Orders,
    bounds: &Bounds,
    part: &ThreadPart,
) -> Result<ThreadRun, Memory>
    requires made { IsMade orders.now }
    requires bounds { IsBounds bounds.now }
    requires sound { HasSoundRuns orders.now.flat.program.now }
    requires acts { Contains orders.now.flat.execution.now.threads part.now }
    ensures { IfOk result (StandsAs orders.now.flat.program.now orders.now.flat.execution.now bounds.now part.now) }
{
    let program = orders.flat.program;
    if part.thread >= program.threads() {
        return Ok(ThreadRun::Wrong);
    }
    let entries = part.entries.as_slice();
    let values = values_read(alloc, orders, entries)?;
    let ended = ended_threads(entries);
    match trace(
        alloc,
        program,
        part.thread,
        values.as_slice(),
        ended,
        bounds,
    ) {
        Ok(trace) => Ok(compared(orders, entries, trace.events.as_slice())),
        Err(end) => said(end),
    }
}
