//! Reading one instruction.

ghost use Rattle.std.specs.Prelude.{◌<◌, length, IfOk, IfErr};
ghost use Rattle.opcodes.specs.Instructions.{Decodes};
ghost use Rattle.opcodes.specs.Survey.{IsMisread};

use crate::instruction::Instr;
use crate::opcode::{form_of, with_operands};

/// Why no instruction can be read at a place.
#[derive(Clone, Copy)]
pub enum Misread {
    /// No instruction has the number that stands there.
    Opcode(u8),
    /// The operands pass the end of the code.
    Cut,
}

/// The instruction at a place of the code.
pub fn instruction_at(code: &[u8], pc: usize) -> Result<Instr, Misread>
    requires { pc < length code.now }
    ensures ok { IfOk result (λ instr. Decodes code.now pc instr) }
    ensures err { IfErr result (λ why. IsMisread code.now pc why) }
{
    let number = code[pc];
    let Some(form) = form_of(number) else {
        return Err(Misread::Opcode(number));
    };
    if code.len() - pc < form.length() as usize {
        return Err(Misread::Cut);
    }
    Ok(with_operands(form, code, pc))
}
