//! The entries of all threads in one list.

ghost use Rattle.std.specs.Prelude.{◌≡◌, ◌++◌, OnOk, IfOk};
ghost use Rattle.action_orders.specs.Actions.{entries};
ghost use Rattle.action_orders.specs.Execution.{IsExecution};
ghost use Rattle.action_orders.specs.Spelling.{IsSpelt};
ghost use Rattle.entry_tables.specs.Lists.{seen};

use action_orders::{Entry, Execution};
use ports::Memory;
use std::alloc::Global;

/// Adds the entries of one thread.
fn append<'a>(flat: &mut Vec<&'a Entry>, part: &'a [Entry]) -> Result<(), Memory>
    ensures { OnOk result (seen flat.new.items ≡ seen flat.old.items ++ part.now) }
{
    for entry in part {
        flat.push(entry).map_err(|_| Memory)?;
    }
    Ok(())
}

/// The entries of all threads, one thread after another (JLS 17.4.6), and what the type of executions keeps of them.
///
/// # Errors
///
/// `Memory` where an allocation fails.
pub fn flat_entries<'a>(alloc: Global, execution: &'a Execution) -> Result<Vec<&'a Entry>, Memory>
    ensures all { IfOk result (λ flat. seen flat.items ≡ entries execution.now) }
    ensures shape { IsExecution execution.now }
    ensures spelt { IsSpelt execution.now }
{
    let mut flat = Vec::new(alloc);
    for part in execution.threads() {
        append(&mut flat, part.entries.as_slice())?;
    }
    Ok(flat)
}
