//! Where a frame stands in the code of its method.

ghost use Rattle.std.specs.Prelude.{◌≡◌, ◌<◌, ◌≤◌, length, IfOk, IfErr, IfSome, IfNone};
ghost use Rattle.std.specs.List.{AllWithin};
ghost use Rattle.opcodes.specs.Listing.{IsByPc};
ghost use Rattle.program.specs.Program.{IsMethod};
ghost use Rattle.thread_meaning.specs.Outcomes.{IsHere, IsHereIn, IsTheMethod, NothingAt, NothingIn};

use crate::end::TraceEnd;
use opcodes::{Instr, Listed};
use program::{Frame, Method, MethodId, Operand, Program};

/// An instruction, its place in the code, what it names, and the frame of its method.
#[derive(Clone, Copy, Debug, PartialEq, Eq)]
pub struct Here {
    pub pc: u32,
    pub instr: Instr,
    pub names: Operand,
    pub frame: Frame,
}

/// The reached method of this name.
pub fn method_of(program: &Program, id: MethodId) -> Result<&Method, TraceEnd>
    ensures ok { IfOk result (λ m. IsTheMethod program.now id m.now) }
    ensures err { IfErr result (λ e. (e ≡ TraceEnd.NotLinked) × ((m : Method) → IsMethod program.now id m → ⊥)) }
{
    if program.methods().contains(&id) {
        Ok(program.method(id))
    } else {
        Err(TraceEnd::NotLinked)
    }
}

/// The first place of a listing with an instruction at `pc` or behind it.
fn place_from(listing: &[Listed], pc: u64) -> usize
    requires { IsByPc listing.now }
    ensures within { result ≤ length listing.now }
    ensures before { AllWithin (λ l. l.pc < pc) listing.now 0 result }
    ensures behind { AllWithin (λ l. pc ≤ l.pc) listing.now result (length listing.now) }
{
    listing.partition_point(|listed| u64::from(listed.pc) < pc)
}

/// The instruction at a place of this method's code.
fn here_in(method: &Method, pc: u64) -> Option<Here>
    ensures some { IfSome result (IsHereIn method.now pc) }
    ensures none { IfNone result (NothingIn method.now pc) }
{
    let place = place_from(method.listing.as_slice(), pc);
    let found = *method.listing.get(place)?;
    let names = *method.operands.get(place)?;
    if u64::from(found.pc) != pc {
        return None;
    }
    Some(Here {
        pc: found.pc,
        instr: found.instr,
        names,
        frame: method.frame,
    })
}

/// The instruction at a place of a method's code.
pub fn look(program: &Program, id: MethodId, pc: u64) -> Result<Here, TraceEnd>
    ensures ok { IfOk result (IsHere program.now id pc) }
    ensures err { IfErr result (λ e. (e ≡ TraceEnd.NotLinked) × NothingAt program.now id pc) }
{
    match method_of(program, id) {
        Ok(method) => match here_in(method, pc) {
            Some(here) => Ok(here),
            None => Err(TraceEnd::NotLinked),
        },
        Err(end) => Err(end),
    }
}
