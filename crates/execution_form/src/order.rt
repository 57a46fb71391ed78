//! The synchronization order by itself.

ghost use Rattle.std.specs.Prelude.{◌≡◌, ◌↔◌, ℕ, [], length, Contains, IfOk, OnOk};
ghost use Rattle.least_break.specs.Least.{IsScanned};
ghost use Rattle.execution_form.specs.Form.{IsRightAtPlace};
ghost use Rattle.execution_form.specs.Needs.{IsSyncId};

use action_orders::Execution;
use entry_tables::IdSet;
use least_break::noted;
use ports::Memory;

/// The pass over the synchronization order, each identifier of which is to be that of a synchronization action and to stand
/// there once. The identifiers are collected.
pub fn scan_order(
    execution: &Execution,
    synchronizing: &IdSet,
    listed: &mut IdSet,
) -> Result<Option<u64>, Memory>
    requires synchronizing { (id : ℕ) → Contains synchronizing.now id ↔ IsSyncId execution.now id }
    requires none { listed.old ≡ [] }
    ensures scanned { IfOk result (IsScanned (IsRightAtPlace execution.now) execution.now.so (length execution.now.so)) }
    ensures listed { OnOk result ((id : ℕ) → Contains listed.new id ↔ Contains execution.now.so id) }
{
    let so = execution.so();
    let mut least = None;
    for at in 0..so.len() {
        let id = so[at];
        let new = listed.add(id)?;
        let known = synchronizing.has(id);
        let right = known && new;
        least = noted(least, id, right);
    }
    Ok(least)
}
