//! What main prints within bounds.

ghost use Rattle.std.specs.Prelude.{IfOk};
ghost use Rattle.line_text.specs.Bounds.{IsBounds};
ghost use Rattle.program.specs.Straight.{IsStraight};
ghost use Rattle.straight.specs.Runs.{IsRunOf};
ghost use Rattle.straight_trace.specs.Within.{IsPrintedBy, TellsPrinted};

use crate::reads::values_read;
use line_text::Values;
use line_text::bounds::Bounds;
use ports::Memory;
use program::Program;
use std::alloc::Global;
use straight::StraightRun;
use thread_meaning::{Trace, TraceEnd, trace};

/// What a trace prints, or `None` where it was refused.
fn printed_by(traced: Result<Trace, TraceEnd>) -> Result<Option<Values>, Memory>
    ensures { IfOk result (IsPrintedBy traced) }
{
    match traced {
        Ok(Trace { events: _, printed }) => Ok(Some(printed)),
        Err(TraceEnd::Memory) => Err(Memory),
        Err(_) => Ok(None),
    }
}

/// What main prints within bounds: the values of the run, or `None` exactly where an int of the run is too wide.
///
/// # Errors
/// `Memory` where there is no room.
pub fn printed_within(
    alloc: Global,
    program: &Program,
    run: &StraightRun,
    bounds: &Bounds,
) -> Result<Option<Values>, Memory>
    requires straight { IsStraight program.now }
    requires run { IsRunOf program.now run.now }
    requires bounds { IsBounds bounds.now }
    ensures { IfOk result (TellsPrinted run.now bounds.now) }
{
    let main = program.method(program.entry(0));
    let reads = values_read(
        alloc,
        main.listing.as_slice(),
        main.operands.as_slice(),
        run.ints.as_slice(),
    )?;
    printed_by(trace(alloc, program, 0, reads.as_slice(), 0, bounds))
}
