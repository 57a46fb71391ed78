//! The check of all threads of an outcome.

ghost use Rattle.std.specs.Prelude.{◌≡◌, ◌↔◌, IfOk, IsTrue};
ghost use Rattle.action_orders.specs.Runs.{IsWithin, Prints};
ghost use Rattle.line_text.specs.Bounds.{IsBounds};
ghost use Rattle.orders.specs.Made.{IsMade};
ghost use Rattle.shown_outcome.specs.Shown.{IsFirstUnshown};
ghost use Rattle.thread_runs.specs.Sound.{HasSoundRuns};

use crate::printed::prints;
use line_text::bounds::Bounds;
use line_text::outcome::{Outcome, OutcomePart};
use orders::Orders;
use ports::Memory;
use std::alloc::Global;
use thread_runs::part_of;

/// Whether a thread acts and prints exactly the values that an outcome lists for it.
fn is_shown(
    alloc: Global,
    orders: &Orders,
    bounds: &Bounds,
    part: &OutcomePart,
) -> Result<bool, Memory>
    requires made { IsMade orders.now }
    requires bounds { IsBounds bounds.now }
    requires sound { HasSoundRuns orders.now.flat.program.now }
    requires within { IsWithin orders.now.flat.program.now orders.now.flat.execution.now bounds.now.jumps bounds.now.width }
    ensures { IfOk result (λ shown. IsTrue shown ↔ Prints orders.now.flat.program.now orders.now.flat.execution.now part.now.thread part.now.values) }
{
    match part_of(orders.flat.execution, part.thread) {
        Some(acting) => prints(alloc, orders, bounds, acting, &part.values),
        None => Ok(false),
    }
}

/// The least thread that the outcome names and that doesn't act, or doesn't print exactly the values that the outcome lists for
/// it, or none where the execution shows the outcome. The runs of the program are sound, as those of linked programs, and
/// those of the execution are within the bounds. It takes time and memory in proportion to the actions and to the steps of the runs.
///
/// # Errors
///
/// `Memory` where an allocation fails.
pub fn check_outcome(
    alloc: Global,
    orders: &Orders,
    bounds: &Bounds,
    outcome: &Outcome,
) -> Result<Option<u32>, Memory>
    requires made { IsMade orders.now }
    requires bounds { IsBounds bounds.now }
    requires sound { HasSoundRuns orders.now.flat.program.now }
    requires within { IsWithin orders.now.flat.program.now orders.now.flat.execution.now bounds.now.jumps bounds.now.width }
    ensures { IfOk result (IsFirstUnshown orders.now.flat.program.now orders.now.flat.execution.now outcome.now) }
{
    for at in 0..outcome.len() {
        let Some(part) = outcome.get(at) else {
            unreachable!();
        };
        if !is_shown(alloc, orders, bounds, part)? {
            return Ok(Some(part.thread));
        }
    }
    Ok(None)
}
