//! The check of the form.

ghost use Rattle.std.specs.Prelude.{IfOk};
ghost use Rattle.action_orders.specs.WellFormed.{FormAt};
ghost use Rattle.least_break.specs.Least.{IsLeastBreak};

use crate::entry::Form;
use crate::facts::{facts_of, synchronizing_ids};
use crate::order::scan_order;
use action_orders::Execution;
use entry_tables::{IdSet, flat_entries};
use least_break::lesser;
use ports::Memory;
use program::Program;
use std::alloc::Global;

/// The least identifier at which the execution's form is wrong for the program, the first clause of well-formedness
/// (docs/MODEL.md), or none where its form is right. It takes time and memory in proportion to the actions, the identifiers of
/// the synchronization order, the variables and the monitors.
///
/// # Errors
///
/// `Memory` where an allocation fails.
pub fn check_form(
    alloc: Global,
    program: &Program,
    execution: &Execution,
) -> Result<Option<u64>, Memory>
    ensures { IfOk result (IsLeastBreak (FormAt program.now execution.now)) }
{
    let entries = flat_entries(alloc, execution)?;
    let facts = facts_of(alloc, program, &entries)?;
    let synchronizing = synchronizing_ids(alloc, &entries)?;
    let mut listed = IdSet::new(alloc);
    let in_order = scan_order(execution, &synchronizing, &mut listed)?;
    let form = Form {
        program,
        execution,
        entries,
        facts,
        listed,
    };
    let in_threads = form.scan_entries(alloc)?;
    Ok(lesser(in_order, in_threads))
}
