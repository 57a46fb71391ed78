//! The instructions of the nodes of a graph, by number: their circuits and slots.

ghost use Rattle.std.specs.Prelude.{◌≡◌, ◌≤◌, ◌^◌};
ghost use Rattle.std.specs.Option.{option_copied};
ghost use Rattle.rule_base.specs.Instructions as spec;

use crate::nodes::from_of;
use circuits::{Gate, Input};
use node_details::NodeInstruction;
use program_graph::Graph;

/// The instruction of a node, if it has one.
pub fn instruction_at<'a>(graph: &'a Graph, node: u32) -> Option<&'a NodeInstruction>
    ensures { option_copied result ≡ spec.instruction_at graph.now node }
{
    match graph.details.get(node as usize) {
        Some(details) => details.instruction.as_ref(),
        None => None,
    }
}

/// When the jump of a node is taken, if it is a conditional one.
pub fn condition_of(graph: &Graph, node: u32) -> Option<Input>
    ensures { result ≡ spec.condition_of graph.now node }
{
    match instruction_at(graph, node) {
        Some(at) => circuits::condition(&at.instr),
        None => None,
    }
}

/// Whether an edge leads from a conditional jump.
pub fn is_jump(graph: &Graph, edge: u32) -> bool
    ensures { result ≡ spec.is_jump graph.now edge }
{
    condition_of(graph, from_of(graph, edge)).is_some()
}

/// A number above all inner bits of a node.
pub fn inner_bits_of(graph: &Graph, node: u32) -> u32
    ensures { result ≡ spec.inner_bits_of graph.now node }
{
    match instruction_at(graph, node) {
        Some(at) => circuits::inner_bits(&at.instr),
        None => 0,
    }
}

/// The gate of an inner bit of a node, if it has one.
pub fn inner_gate_of(graph: &Graph, node: u32, j: u32) -> Option<Gate>
    ensures { result ≡ spec.inner_gate_of graph.now node j }
{
    match instruction_at(graph, node) {
        Some(at) => circuits::inner_gate(&at.instr, j),
        None => None,
    }
}

/// The gate of a bit of a node's result, if it has one.
pub fn result_gate_of(graph: &Graph, node: u32, bit: u32) -> Option<Gate>
    ensures { result ≡ spec.result_gate_of graph.now node bit }
{
    match instruction_at(graph, node) {
        Some(at) => circuits::result_gate(at, bit),
        None => None,
    }
}

/// Whether the bits of a node's result have gates.
pub fn is_gated(graph: &Graph, node: u32) -> bool
    ensures { result ≡ spec.is_gated graph.now node }
{
    match instruction_at(graph, node) {
        Some(at) => circuits::has_gates(at),
        None => false,
    }
}

/// Whether a node has a result.
pub fn has_result(graph: &Graph, node: u32) -> bool
    ensures { result ≡ spec.has_result graph.now node }
{
    match instruction_at(graph, node) {
        Some(at) => circuits::has_result(at),
        None => false,
    }
}

/// How many rows a gate has, if it is one.
fn rows_of(gate: Option<Gate>) -> u32
    ensures { result ≡ spec.rows_of gate }
{
    match gate {
        Some(gate) => gate.rows(),
        None => 0,
    }
}

/// How many rows the gate of an inner bit of a node has.
pub fn inner_rows(graph: &Graph, node: u32, j: u32) -> u32
    ensures { result ≡ spec.rows_of (spec.inner_gate_of graph.now node j) }
{
    rows_of(inner_gate_of(graph, node, j))
}

/// How many rows the gate of a bit of a node's result has.
pub fn result_rows(graph: &Graph, node: u32, bit: u32) -> u32
    ensures { result ≡ spec.rows_of (spec.result_gate_of graph.now node bit) }
{
    rows_of(result_gate_of(graph, node, bit))
}

/// The first number above these.
fn above_all(slots: &[u32]) -> u64
    ensures value { result ≡ spec.above_all slots.now }
    ensures few { result ≤ 2 ^ 32 }
{
    let mut above = 0;
    for slot in slots {
        above = (u64::from(*slot) + 1).max(above);
    }
    above
}

/// The first number above the slots that hold ints at a node.
pub fn slots_above(graph: &Graph, node: u32) -> u64
    ensures value { result ≡ spec.above_all (spec.int_slots_of graph.now node) }
    ensures few { result ≤ 2 ^ 32 }
{
    match instruction_at(graph, node) {
        Some(at) => above_all(at.int_slots.as_slice()),
        None => 0,
    }
}

/// Whether a slot holds an int at a node.
pub fn is_int_slot(graph: &Graph, node: u32, slot: u32) -> bool
    ensures { result ≡ spec.is_int_slot graph.now node slot }
{
    match instruction_at(graph, node) {
        Some(at) => at.int_slots.as_slice().iter().any(|s| *s == slot),
        None => false,
    }
}
