//! A step of a committing sequence.

ghost use Rattle.std.specs.Prelude.{◌≡◌, ◌↔◌, ℕ, Contains, IfOk, IsTrue, OnOk};
ghost use Rattle.step_members.specs.Stages.{AreIds};
ghost use Rattle.step_members.specs.Members.{Gains};

use action_orders::ActionRef;
use indexmap::IndexSet;
use orders::Orders;
use ports::Memory;
use std::alloc::Global;

/// A step of a committing sequence beside the execution that is committed: the orders of that execution and of the step's own,
/// and the step's set, with the identifiers of those of its members that are no default writes.
#[derive(Drop)]
pub struct Stage<'a> {
    pub whole: &'a Orders<'a>,
    pub own: &'a Orders<'a>,
    pub names: &'a [ActionRef],
    pub ids: IndexSet<u64>,
}

/// The set that was committed before a step, with the identifiers of those of its members that are no default writes.
#[derive(Drop)]
pub struct Earlier<'a> {
    pub names: &'a [ActionRef],
    pub ids: IndexSet<u64>,
}

/// Adds a member's identifier, if it has one.
fn add(ids: &mut IndexSet<u64>, member: &ActionRef) -> Result<(), Memory>
    ensures { OnOk result (Gains ids.old.keys member.now ids.new.keys) }
{
    match member {
        ActionRef::Id(id) => match ids.insert_full(*id) {
            Ok(_) => Ok(()),
            Err(_) => Err(Memory),
        },
        ActionRef::Default { .. } => Ok(()),
    }
}

/// The identifiers of those members of a set that are no default writes.
///
/// # Errors
///
/// `Memory` where an allocation fails.
pub fn ids_of(alloc: Global, names: &[ActionRef]) -> Result<IndexSet<u64>, Memory>
    ensures { IfOk result (λ ids. AreIds names.now ids.keys) }
{
    let mut ids = IndexSet::new(alloc);
    for member in names {
        add(&mut ids, member)?;
    }
    Ok(ids)
}

impl<'a> Stage<'a> {
    /// Whether the set has a member with this identifier.
    pub fn has(&self, id: u64) -> bool
        ensures { IsTrue result ↔ Contains self.now.ids.keys id }
    {
        self.ids.get_index_of(&id).is_some()
    }
}

impl<'a> Earlier<'a> {
    /// Whether the set has a member with this identifier.
    pub fn has(&self, id: u64) -> bool
        ensures { IsTrue result ↔ Contains self.now.ids.keys id }
    {
        self.ids.get_index_of(&id).is_some()
    }
}
