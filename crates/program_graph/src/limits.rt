//! The limits of a graph.

ghost use Rattle.std.specs.Prelude.{◌≡◌, ◌≤◌, IfNone, IfSome, IsTrue, count_by, length};
ghost use Rattle.program_graph.specs.Limits.{IsFirstPassed, IsWithin};
ghost use Rattle.program_graph.specs.Limits as spec;

use crate::actions::ActionNode;
use crate::refusal::GraphRefusal;
use node_details::NodeDetails;
use opcodes::Instr;
use program::Kind;

/// Whether an action reads a variable.
fn is_read(action: &ActionNode) -> bool
    ensures { result ≡ spec.is_read action.now }
{
    matches!(action.action.act.kind, Kind::Read | Kind::VolatileRead)
}

/// How many of the actions read variables.
pub fn reads_among(actions: &[ActionNode]) -> usize
    ensures value { result ≡ spec.reads_among actions.now }
    ensures few { result ≤ length actions.now }
{
    actions.iter().filter(|action| is_read(action)).count()
}

/// Whether an instruction multiplies.
fn multiplies(instr: &Instr) -> bool
    ensures { result ≡ spec.multiplies instr.now }
{
    matches!(instr, Instr::Imul)
}

/// Whether a node multiplies.
fn is_multiplication(node: &NodeDetails) -> bool
    ensures { result ≡ spec.is_multiplication node.now }
{
    match &node.instruction {
        Some(at) => multiplies(&at.instr),
        None => false,
    }
}

/// How many of the nodes multiply.
fn multiplications_among(nodes: &[NodeDetails]) -> usize
    ensures { result ≡ spec.multiplications_among nodes.now }
{
    let mut count = 0;
    for node in nodes {
        if is_multiplication(node) {
            count += 1;
        }
    }
    count
}

/// The first limit that these nodes pass, with these actions: 64 actions, 24 reads, 16 multiplications.
pub fn first_passed(nodes: &[NodeDetails], actions: &[ActionNode]) -> Option<GraphRefusal>
    ensures some { IfSome result (IsFirstPassed nodes.now actions.now) }
    ensures none { IfNone result (IsWithin nodes.now actions.now) }
{
    if actions.len() > 64 {
        return Some(GraphRefusal::ActionNodes);
    }
    if reads_among(actions) > 24 {
        return Some(GraphRefusal::ReadNodes);
    }
    if multiplications_among(nodes) > 16 {
        return Some(GraphRefusal::Multiplications);
    }
    None
}
