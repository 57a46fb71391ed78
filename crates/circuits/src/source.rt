//! From where the content of a slot comes along an edge.

ghost use Rattle.std.specs.Prelude.{◌≡◌, ◌+◌, IfOk};
ghost use Rattle.std.specs.Option.{option_copied};
ghost use Rattle.circuits.specs.Sources as spec;

use crate::circuit::reads_variable;
use node_details::NodeInstruction;
use opcodes::Instr;
use ports::Memory;
use program::Operand;

/// From where the content of a slot comes: it is the result of the instruction, or moves there from a slot.
#[derive(Clone, Copy, Debug, PartialEq, Eq)]
pub enum Source {
    Result,
    Moved(u32),
}

/// The sum of two numbers; one past 2^32 counts as want of memory.
pub fn sum(a: u32, b: u32) -> Result<u32, Memory>
    ensures { IfOk result (λ both. both ≡ a + b) }
{
    match a.checked_add(b) {
        Some(both) => Ok(both),
        None => Err(Memory),
    }
}

/// The slot of an int that an instruction says itself.
fn said_slot(names: Operand, top: u32) -> u32
    ensures { result ≡ spec.said_slot names top }
{
    match names {
        Operand::Alive(_) => top.saturating_sub(1),
        _ => top,
    }
}

/// The slot of what an instruction computes, if it computes something.
fn computed_slot(instr: &Instr, base: u32, top: u32) -> Result<Option<u32>, Memory>
    ensures { IfOk result (λ slot. slot ≡ spec.computed_slot instr.now base top) }
{
    match instr {
        Instr::Iadd
        | Instr::Isub
        | Instr::Imul
        | Instr::Ishl
        | Instr::Ishr
        | Instr::Iushr
        | Instr::Iand
        | Instr::Ior
        | Instr::Ixor => Ok(Some(top.saturating_sub(2))),
        Instr::Ineg | Instr::I2b | Instr::I2c | Instr::I2s => Ok(Some(top.saturating_sub(1))),
        Instr::Iinc { slot, .. } => Ok(Some(sum(base, u32::from(*slot))?)),
        _ => Ok(None),
    }
}

/// The slot into which a node puts its result, if it has one.
fn result_slot(at: &NodeInstruction) -> Result<Option<u32>, Memory>
    ensures { IfOk result (λ slot. slot ≡ spec.result_slot at.now) }
{
    match at.constant {
        Some(_) => Ok(Some(said_slot(at.names, at.top))),
        None if reads_variable(at) => Ok(Some(at.top)),
        None => computed_slot(&at.instr, at.base, at.top),
    }
}

/// The local that an instruction loads.
fn loaded(instr: &Instr) -> Option<u32>
    ensures { result ≡ spec.loaded instr.now }
{
    match instr {
        Instr::Iload { slot } => Some(u32::from(*slot)),
        Instr::Iload0 => Some(0),
        Instr::Iload1 => Some(1),
        Instr::Iload2 => Some(2),
        Instr::Iload3 => Some(3),
        _ => None,
    }
}

/// The local into which an instruction stores.
fn stored(instr: &Instr) -> Option<u32>
    ensures { result ≡ spec.stored instr.now }
{
    match instr {
        Instr::Istore { slot } => Some(u32::from(*slot)),
        Instr::Istore0 => Some(0),
        Instr::Istore1 => Some(1),
        Instr::Istore2 => Some(2),
        Instr::Istore3 => Some(3),
        _ => None,
    }
}

/// From where a slot's content comes where the two topmost values are exchanged.
fn exchanged(top: u32, slot: u32) -> u32
    ensures { result ≡ spec.exchanged top slot }
{
    let (upper, lower) = (top.saturating_sub(1), top.saturating_sub(2));
    if slot == upper {
        return lower;
    }
    if slot == lower { upper } else { slot }
}

/// From where a slot's content comes where arguments are passed.
fn passed(from: &NodeInstruction, to: &NodeInstruction, slot: u32) -> Result<u32, Memory>
    ensures { IfOk result (λ source. source ≡ spec.passed from.now to.now slot) }
{
    if to.base <= slot && slot - to.base < to.parameters {
        return sum(from.top.saturating_sub(to.parameters), slot - to.base);
    }
    Ok(slot)
}

/// From where a slot's content comes where one slot takes that of another.
fn only(to: u32, from: u32, slot: u32) -> u32
    ensures { result ≡ spec.only to from slot }
{
    if slot == to { from } else { slot }
}

/// From where a slot's content comes where an instruction neither loads nor stores.
fn moved_otherwise(from: &NodeInstruction, to: &NodeInstruction, slot: u32) -> Result<u32, Memory>
    ensures { IfOk result (λ source. source ≡ spec.moved_otherwise from.now.instr from.now to.now slot) }
{
    match from.instr {
        Instr::Dup => Ok(only(from.top, from.top.saturating_sub(1), slot)),
        Instr::Swap => Ok(exchanged(from.top, slot)),
        Instr::Invokestatic { .. } => passed(from, to, slot),
        Instr::Ireturn => Ok(only(to.top.saturating_sub(1), from.top.saturating_sub(1), slot)),
        _ => Ok(slot),
    }
}

/// The slot whose content moves to a slot.
fn moved_from(from: &NodeInstruction, to: &NodeInstruction, slot: u32) -> Result<u32, Memory>
    ensures { IfOk result (λ source. source ≡ spec.moved_from from.now to.now slot) }
{
    if let Some(local) = loaded(&from.instr) {
        return Ok(only(from.top, sum(from.base, local)?, slot));
    }
    match stored(&from.instr) {
        Some(local) => Ok(only(sum(from.base, local)?, from.top.saturating_sub(1), slot)),
        None => moved_otherwise(from, to, slot),
    }
}

/// From where the content of a slot comes, where an instruction leads to another.
fn source_between(from: &NodeInstruction, to: &NodeInstruction, slot: u32) -> Result<Source, Memory>
    ensures { IfOk result (λ source. source ≡ spec.source_between from.now to.now slot) }
{
    if result_slot(from)? == Some(slot) {
        return Ok(Source::Result);
    }
    Ok(Source::Moved(moved_from(from, to, slot)?))
}

/// From where the content of a slot comes along an edge between nodes with these instructions, if they have any.
///
/// # Errors
/// `Memory` where a slot is past 2^32.
pub fn source_along(
    from: Option<&NodeInstruction>,
    to: Option<&NodeInstruction>,
    slot: u32,
) -> Result<Source, Memory>
    ensures { IfOk result (λ source. source ≡ spec.source (option_copied from.entry) (option_copied to.entry) slot) }
{
    match (from, to) {
        (Some(from), Some(to)) => source_between(from, to, slot),
        _ => Ok(Source::Moved(slot)),
    }
}
