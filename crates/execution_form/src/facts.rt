//! The facts that the entries of an execution may rest on.

ghost use Rattle.std.specs.Prelude.{◌≡◌, ◌↔◌, ℕ, length, Contains, OnOk, IfOk};
ghost use Rattle.action_orders.specs.Actions.{entries};
ghost use Rattle.action_orders.specs.Execution.{Exec};
ghost use Rattle.entry_tables.specs.Added.{AreAdded};
ghost use Rattle.entry_tables.specs.Lists.{seen};
ghost use Rattle.execution_form.specs.Facts.{AreFacts, stated, stated_given, variable_of, volatile_named, monitor_of};
ghost use Rattle.execution_form.specs.Needs.{written_by, synced_by, IsSyncId};

use crate::fact::{Fact, Facts};
use crate::needs::{synchronizing, written};
use action_orders::Entry;
use entry_tables::IdSet;
use ports::Memory;
use program::{Name, Program, Variable};
use std::alloc::Global;

/// Adds the variables.
fn add_variables<'a>(facts: &mut Facts<'a>, variables: &'a [Variable]) -> Result<(), Memory>
    ensures { OnOk result (AreAdded (stated facts.old) variable_of variables.now (length variables.now) (stated facts.new)) }
{
    for variable in variables {
        facts.add(Fact::Variable {
            class: variable.class.as_slice(),
            name: variable.name.as_slice(),
        })?;
    }
    Ok(())
}

/// That a variable is volatile.
fn is_volatile<'a>(variable: &'a Variable) -> Option<Fact<'a>>
    ensures { stated_given result ≡ volatile_named variable.now }
{
    if !variable.volatile {
        return None;
    }
    Some(Fact::Volatile {
        class: variable.class.as_slice(),
        name: variable.name.as_slice(),
    })
}

/// Adds which of them are volatile.
fn add_volatiles<'a>(facts: &mut Facts<'a>, variables: &'a [Variable]) -> Result<(), Memory>
    ensures { OnOk result (AreAdded (stated facts.old) volatile_named variables.now (length variables.now) (stated facts.new)) }
{
    for variable in variables {
        facts.note(is_volatile(variable))?;
    }
    Ok(())
}

/// Adds the monitors.
fn add_monitors<'a>(facts: &mut Facts<'a>, monitors: &'a [Name]) -> Result<(), Memory>
    ensures { OnOk result (AreAdded (stated facts.old) monitor_of monitors.now (length monitors.now) (stated facts.new)) }
{
    for monitor in monitors {
        facts.add(Fact::Monitor {
            class: monitor.as_slice(),
        })?;
    }
    Ok(())
}

/// Adds the writes.
fn add_writes<'a>(facts: &mut Facts<'a>, entries: &[&'a Entry]) -> Result<(), Memory>
    ensures { OnOk result (AreAdded (stated facts.old) written_by (seen entries.now) (length entries.now) (stated facts.new)) }
{
    for entry in entries {
        facts.note(written(&entry.action))?;
    }
    Ok(())
}

/// What the program has, and which writes the entries of an execution are.
pub fn facts_of<'a>(
    alloc: Global,
    program: &'a Program,
    flat: &[&'a Entry],
) -> Result<Facts<'a>, Memory>
    ensures { IfOk result (λ facts. (e : Exec) → seen flat.now ≡ entries e → AreFacts program.now e (stated facts)) }
{
    let mut facts = Facts::new(alloc);
    add_variables(&mut facts, program.variables())?;
    add_volatiles(&mut facts, program.variables())?;
    add_monitors(&mut facts, program.monitors())?;
    add_writes(&mut facts, flat)?;
    Ok(facts)
}

/// The identifiers of the synchronization actions among the entries of an execution.
pub fn synchronizing_ids(alloc: Global, flat: &[&Entry]) -> Result<IdSet, Memory>
    ensures { IfOk result (λ ids. (e : Exec) (id : ℕ) → seen flat.now ≡ entries e → Contains ids id ↔ IsSyncId e id) }
{
    let mut ids = IdSet::new(alloc);
    for entry in flat {
        ids.note(synchronizing(&entry.action))?;
    }
    Ok(ids)
}
