//! The nodes of a graph that have an action.

ghost use Rattle.std.specs.Prelude.{◌≡◌, ◌+◌, ◌++◌, IfOk, OnOk};
ghost use Rattle.program_graph.specs.Graph as spec;

use node_details::{NodeAction, NodeDetails};
use ports::Memory;
use program::Items;
use std::alloc::Global;

/// A node that has an action, by its number.
#[derive(Clone, Copy, Debug, PartialEq, Eq)]
pub struct ActionNode {
    pub node: u32,
    pub action: NodeAction,
}

/// Adds a node, if it has an action.
fn add(actions: &mut Items<ActionNode>, node: u32, action: Option<NodeAction>) -> Result<(), Memory>
    ensures { OnOk result (actions.new ≡ actions.old ++ spec.action_at node action) }
{
    if let Some(action) = action {
        actions.push(ActionNode { node, action })?;
    }
    Ok(())
}

/// The number of the next node; one past 2^32 counts as want of memory.
fn next(node: u32) -> Result<u32, Memory>
    ensures { IfOk result (λ n. n ≡ node + 1) }
{
    match node.checked_add(1) {
        Some(next) => Ok(next),
        None => Err(Memory),
    }
}

/// The nodes that have an action, in their order.
///
/// # Errors
/// `Memory` where there is no room for them.
pub fn actions_of(alloc: Global, details: &[NodeDetails]) -> Result<Items<ActionNode>, Memory>
    ensures { IfOk result (λ actions. actions ≡ spec.actions_from 0 details.now) }
{
    let mut actions = Items::new(alloc);
    let mut node = 0;
    for one in details {
        add(&mut actions, node, one.action)?;
        node = next(node)?;
    }
    Ok(actions)
}
