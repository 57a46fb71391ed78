//! Straight code.

ghost use Rattle.std.specs.Prelude.{◌≡◌, ◌↔◌, [], IfOk, IsTrue, length};
ghost use Rattle.program.specs.Straight.{IsStraightEnd, IsStraightFrom};

use crate::type_stack::{Limits, TypeStack};
use opcodes::{Instr, Listed};
use ports::Memory;
use program::Operand;
use std::alloc::Global;

/// Whether an instruction at this place is the last of straight code.
fn is_end(pc: u64, item: &Listed, operand: &Operand) -> bool
    ensures { IsTrue result ↔ IsStraightEnd pc item.now operand.now }
{
    u64::from(item.pc) == pc
        && matches!(item.instr, Instr::Return)
        && matches!(operand, Operand::Nothing)
}

/// Whether the instructions, with what they name, are straight code.
pub fn is_straight_code(
    alloc: Global,
    limits: Limits,
    listing: &[Listed],
    operands: &[Operand],
) -> Result<bool, Memory>
    requires { length operands.now ≡ length listing.now }
    ensures { IfOk result (λ b. IsTrue b ↔ IsStraightFrom limits.variables limits.max_stack 0 [] listing.now operands.now) }
{
    let mut stack = TypeStack::new(alloc);
    let mut pc = 0u64;
    for (place, item) in listing.iter().enumerate() {
        let operand = operands[place];
        if place + 1 == listing.len() {
            return Ok(is_end(pc, item, &operand));
        }
        if !stack.step(limits, pc, item, &operand)? {
            return Ok(false);
        }
        pc = u64::from(item.pc) + u64::from(item.instr.length());
    }
    Ok(false)
}
