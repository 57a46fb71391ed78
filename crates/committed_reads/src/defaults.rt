//! Default writes that are members of a set, by the numbers of their variables.

ghost use Rattle.std.specs.Prelude.{◌≡◌, ◌↔◌, Contains, IfOk, OnOk};
ghost use Rattle.orders.specs.Made.{IsMade};
ghost use Rattle.committed_reads.specs.Defaults.{AreDefaults, GainsNumber, IsDefaultNumber};

use action_orders::ActionRef;
use indexmap::IndexSet;
use orders::Orders;
use ports::Memory;
use std::alloc::Global;

/// The number of the variable whose default write a member names, if it names one.
fn default_number(orders: &Orders, member: &ActionRef) -> Option<usize>
    requires { IsMade orders.now }
    ensures { IsDefaultNumber orders.now member.now result }
{
    match member {
        ActionRef::Default { class, name } => orders.variable_number(class, name),
        ActionRef::Id(_) => None,
    }
}

/// Adds a number, if any.
fn add(numbers: &mut IndexSet<usize>, number: Option<usize>) -> Result<(), Memory>
    ensures { OnOk result (GainsNumber numbers.old.keys number numbers.new.keys) }
{
    match number {
        Some(number) => match numbers.insert_full(number) {
            Ok(_) => Ok(()),
            Err(_) => Err(Memory),
        },
        None => Ok(()),
    }
}

/// The numbers of the variables whose default writes are members of a set.
///
/// # Errors
///
/// `Memory` where an allocation fails.
pub fn default_numbers(
    alloc: Global,
    orders: &Orders,
    names: &[ActionRef],
) -> Result<IndexSet<usize>, Memory>
    requires { IsMade orders.now }
    ensures { IfOk result (λ numbers. AreDefaults orders.now names.now numbers.keys) }
{
    let mut numbers = IndexSet::new(alloc);
    for member in names {
        add(&mut numbers, default_number(orders, member))?;
    }
    Ok(numbers)
}
