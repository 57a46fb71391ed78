//! The check of all clauses.

ghost use Rattle.std.specs.Prelude.{OnOk, IfErr};
ghost use Rattle.action_orders.specs.Runs.{IsWithin};
ghost use Rattle.action_orders.specs.WellFormed.{IsWellFormed};
ghost use Rattle.line_text.specs.Bounds.{IsBounds};
ghost use Rattle.orders.specs.Flat.{IsOrdered};
ghost use Rattle.orders.specs.Made.{IsMade};
ghost use Rattle.program.specs.Straight.{AreApart};
ghost use Rattle.thread_runs.specs.Sound.{HasSoundRuns};
ghost use Rattle.well_formed.specs.Refusals.{IsRefusal};

use crate::refusal::NotWellFormed;
use action_orders::Execution;
use execution_form::check_form;
use happens_before_reads::check_reads;
use line_text::bounds::Bounds;
use mutual_exclusion::check_locks;
use orders::{Orders, orders};
use program::Program;
use std::alloc::Global;
use sync_agreement::check_agreement;
use thread_runs::{Runs, check_runs};
use volatile_reads::check_volatile_reads;

/// The clauses behind the first two, of an execution that meets these.
fn check_ordered(alloc: Global, orders: &Orders, bounds: &Bounds) -> Result<(), NotWellFormed>
    requires made { IsMade orders.now }
    requires bounds { IsBounds bounds.now }
    requires sound { HasSoundRuns orders.now.flat.program.now }
    requires apart { AreApart orders.now.flat.program.now.variables }
    ensures well_formed { OnOk result (IsWellFormed orders.now.flat.program.now orders.now.flat.execution.now) }
    ensures within { OnOk result (IsWithin orders.now.flat.program.now orders.now.flat.execution.now bounds.now.jumps bounds.now.width) }
    ensures refused { IfErr result (IsRefusal orders.now.flat.program.now orders.now.flat.execution.now bounds.now) }
{
    if let Some(at) = check_locks(alloc, orders)? {
        return Err(NotWellFormed::Clause { number: 3, at });
    }
    let runs = check_runs(alloc, orders, bounds)?;
    if let Runs::Wrong { thread } = runs {
        return Err(NotWellFormed::Clause {
            number: 4,
            at: u64::from(thread),
        });
    }
    if let Some(at) = check_reads(alloc, orders)? {
        return Err(NotWellFormed::Clause { number: 5, at });
    }
    if let Some(at) = check_volatile_reads(alloc, orders)? {
        return Err(NotWellFormed::Clause { number: 6, at });
    }
    if let Runs::Past { thread } = runs {
        return Err(NotWellFormed::Clause {
            number: 7,
            at: u64::from(thread),
        });
    }
    Ok(())
}

/// Whether the execution is well-formed for the program (JLS 17.4.7, docs/MODEL.md) and within the bounds; else the least
/// clause that fails, and in it the least identifier or thread. Where it is, its orders can be made. The runs of the program
/// are sound and no two of its variables have one name, as those of linked programs. It takes time in proportion to the
/// actions times the threads, with the logarithm of the number of actions, and to the steps of the runs; memory in proportion
/// to the actions and to what a run takes.
///
/// # Errors
///
/// `Clause` where the execution is not well-formed or not within the bounds, `Memory` where an allocation fails.
pub fn check_execution(
    alloc: Global,
    program: &Program,
    bounds: &Bounds,
    execution: &Execution,
) -> Result<(), NotWellFormed>
    requires bounds { IsBounds bounds.now }
    requires sound { HasSoundRuns program.now }
    requires apart { AreApart program.now.variables }
    ensures well_formed { OnOk result (IsWellFormed program.now execution.now) }
    ensures within { OnOk result (IsWithin program.now execution.now bounds.now.jumps bounds.now.width) }
    ensures ordered { OnOk result (IsOrdered program.now execution.now) }
    ensures refused { IfErr result (IsRefusal program.now execution.now bounds.now) }
{
    if let Some(at) = check_form(alloc, program, execution)? {
        return Err(NotWellFormed::Clause { number: 1, at });
    }
    if let Some(at) = check_agreement(alloc, program, execution)? {
        return Err(NotWellFormed::Clause { number: 2, at });
    }
    let orders = orders(alloc, program, execution)?;
    check_ordered(alloc, &orders, bounds)
}
