//! The circuits of instructions: the gates of inner bits and of results, and the conditions of jumps.

ghost use Rattle.std.specs.Prelude.{◌≡◌, ◌<◌};
ghost use Rattle.circuits.specs.Circuits as spec;

use crate::gate::{Gate, Input, Pair, Wire};
use crate::inputs::{inner, lower, negated, not_upper, upper};
use crate::products::{mul_inner, mul_result};
use crate::shifts::{shift_result, shl_inner, shr_inner, ushr_inner};
use crate::sums::{
    add_inner, add_result, increment_inner, increment_result, is_set, neg_inner, neg_result,
    sub_inner, sub_result,
};
use crate::tests::{above_inner, above_zero_inner, below_inner, equal_inner, zero_inner};
use node_details::NodeInstruction;
use opcodes::Instr;
use program::Operand;

/// A number above all inner bits of an instruction.
pub fn inner_bits(instr: &Instr) -> u32
    ensures { result ≡ spec.inner_bits instr.now }
{
    match instr {
        Instr::Iadd | Instr::Isub | Instr::Ineg | Instr::Iinc { .. } => 32,
        Instr::Imul => 3072,
        Instr::Ishl | Instr::Ishr | Instr::Iushr => 160,
        Instr::Ifgt { .. } | Instr::Ifle { .. } => 34,
        Instr::Ifeq { .. }
        | Instr::Ifne { .. }
        | Instr::IfIcmpeq { .. }
        | Instr::IfIcmpne { .. }
        | Instr::IfIcmplt { .. }
        | Instr::IfIcmpge { .. }
        | Instr::IfIcmpgt { .. }
        | Instr::IfIcmple { .. } => 33,
        _ => 0,
    }
}

/// The gate of an inner bit of an instruction, if it has one.
pub fn inner_gate(instr: &Instr, j: u32) -> Option<Gate>
    ensures { result ≡ spec.inner_gate instr.now j }
{
    if inner_bits(instr) <= j {
        return None;
    }
    inner_by(instr, j)
}

fn inner_by(instr: &Instr, j: u32) -> Option<Gate>
    requires { j < spec.inner_bits instr.now }
    ensures { result ≡ spec.inner_by instr.now j }
{
    match instr {
        Instr::Iadd => Some(add_inner(j)),
        Instr::Isub => Some(sub_inner(j)),
        Instr::Ineg => Some(neg_inner(j)),
        Instr::Iinc { slot, delta } => Some(increment_inner(i32::from(*delta), *slot, j)),
        Instr::Imul => mul_inner(j),
        Instr::Ishl => Some(shl_inner(j)),
        Instr::Ishr => Some(shr_inner(j)),
        Instr::Iushr => Some(ushr_inner(j)),
        Instr::Ifeq { .. } | Instr::Ifne { .. } => Some(zero_inner(j)),
        Instr::Ifgt { .. } | Instr::Ifle { .. } => Some(above_zero_inner(j)),
        Instr::IfIcmpeq { .. } | Instr::IfIcmpne { .. } => Some(equal_inner(j)),
        Instr::IfIcmplt { .. } | Instr::IfIcmpge { .. } => Some(below_inner(j)),
        Instr::IfIcmpgt { .. } | Instr::IfIcmple { .. } => Some(above_inner(j)),
        _ => None,
    }
}

/// A bit of a narrowed int, of which so high a one is repeated.
fn narrowed(highest: u32, bit: u32) -> Gate
    ensures { result ≡ spec.narrowed highest bit }
{
    Gate::Same(upper(bit.min(highest)))
}

/// A bit of a char.
fn char_result(bit: u32) -> Gate
    ensures { result ≡ spec.char_result bit }
{
    if bit < 16 {
        Gate::Same(upper(bit))
    } else {
        Gate::Constant(false)
    }
}

/// The gate of a bit of what an instruction computes.
fn computed_by(instr: &Instr, bit: u32) -> Option<Gate>
    requires { bit < 32 }
    ensures { result ≡ spec.computed_by instr.now bit }
{
    match instr {
        Instr::Iadd => Some(add_result(bit)),
        Instr::Isub => Some(sub_result(bit)),
        Instr::Ineg => Some(neg_result(bit)),
        Instr::Iinc { slot, delta } => Some(increment_result(i32::from(*delta), *slot, bit)),
        Instr::Imul => Some(mul_result(bit)),
        Instr::Ishl | Instr::Ishr | Instr::Iushr => Some(shift_result(bit)),
        Instr::Iand => Some(Gate::Two(Pair::And, lower(bit), upper(bit))),
        Instr::Ior => Some(Gate::Two(Pair::Or, lower(bit), upper(bit))),
        Instr::Ixor => Some(Gate::Two(Pair::Xor, lower(bit), upper(bit))),
        Instr::I2b => Some(narrowed(7, bit)),
        Instr::I2s => Some(narrowed(15, bit)),
        Instr::I2c => Some(char_result(bit)),
        _ => None,
    }
}

/// The gate of a bit of the result of a node's instruction, if it has one.
pub fn result_gate(at: &NodeInstruction, bit: u32) -> Option<Gate>
    ensures { result ≡ spec.result_gate at.now bit }
{
    if bit >= 32 {
        return None;
    }
    match at.constant {
        Some(n) => Some(Gate::Constant(is_set(n, bit))),
        None => computed_by(&at.instr, bit),
    }
}

/// Whether the bits of a node's result have gates.
pub fn has_gates(at: &NodeInstruction) -> bool
    ensures { result ≡ spec.has_gates at.now }
{
    result_gate(at, 0).is_some()
}

/// Whether a node reads a variable.
pub fn reads_variable(at: &NodeInstruction) -> bool
    ensures { result ≡ spec.reads_variable at.now }
{
    match (at.names, at.instr) {
        (Operand::Variable(_), Instr::Getstatic { .. }) => true,
        _ => false,
    }
}

/// Whether a node has a result: what is read has no gates.
pub fn has_result(at: &NodeInstruction) -> bool
    ensures { result ≡ spec.has_result at.now }
{
    has_gates(at) || reads_variable(at)
}

/// The bit that says that a conditional jump is taken.
pub fn condition(instr: &Instr) -> Option<Input>
    ensures { result ≡ spec.condition instr.now }
{
    match instr {
        Instr::Ifeq { .. }
        | Instr::IfIcmpeq { .. }
        | Instr::IfIcmplt { .. }
        | Instr::IfIcmpgt { .. } => Some(inner(32)),
        Instr::Ifne { .. }
        | Instr::IfIcmpne { .. }
        | Instr::IfIcmpge { .. }
        | Instr::IfIcmple { .. } => Some(negated(Wire::InnerBit(32))),
        Instr::Iflt { .. } => Some(upper(31)),
        Instr::Ifge { .. } => Some(not_upper(31)),
        Instr::Ifgt { .. } => Some(inner(33)),
        Instr::Ifle { .. } => Some(negated(Wire::InnerBit(33))),
        _ => None,
    }
}
