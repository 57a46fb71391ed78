//! What a thread prints.

ghost use Rattle.std.specs.Prelude.{◌≡◌, ◌↔◌, Contains, IfOk, IsTrue};
ghost use Rattle.action_orders.specs.Runs.{HasRunWithin, Prints};
ghost use Rattle.line_text.specs.Bounds.{IsBounds};
ghost use Rattle.orders.specs.Made.{IsMade};
ghost use Rattle.thread_runs.specs.Sound.{HasSoundRuns};

use action_orders::ThreadPart;
use line_text::Values;
use line_text::bounds::Bounds;
use orders::Orders;
use ports::Memory;
use std::alloc::Global;
use thread_events::{ended_threads, values_read};
use thread_meaning::{TraceEnd, trace};

/// Why a run that is within the bounds was not traced.
fn wanted(end: TraceEnd) -> Memory
    requires { end ≡ TraceEnd.Memory }
{
    match end {
        TraceEnd::Memory => Memory,
        _ => unreachable!(),
    }
}

/// Whether a thread whose run is within the bounds prints exactly these values.
pub fn prints(
    alloc: Global,
    orders: &Orders,
    bounds: &Bounds,
    part: &ThreadPart,
    values: &Values,
) -> Result<bool, Memory>
    requires made { IsMade orders.now }
    requires bounds { IsBounds bounds.now }
    requires sound { HasSoundRuns orders.now.flat.program.now }
    requires acts { Contains orders.now.flat.execution.now.threads part.now }
    requires within { HasRunWithin orders.now.flat.program.now orders.now.flat.execution.now bounds.now.jumps bounds.now.width part.now }
    ensures { IfOk result (λ same. IsTrue same ↔ Prints orders.now.flat.program.now orders.now.flat.execution.now part.now.thread values.now) }
{
    let entries = part.entries.as_slice();
    let reads = values_read(alloc, orders, entries)?;
    let ended = ended_threads(entries);
    match trace(
        alloc,
        orders.flat.program,
        part.thread,
        reads.as_slice(),
        ended,
        bounds,
    ) {
        Ok(trace) => Ok(trace.printed.same(values)),
        Err(end) => Err(wanted(end)),
    }
}
