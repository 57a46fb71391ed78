//! Steps along the code of a small program.

use crate::traces::{HELP, MAIN, calling, frame};
use code_paths::{CodeHop, CodePlace, hops_from};
use opcodes::Instr;
use program::{MethodId, Operand};
use std::test::Fail;

/// A place in the code of a method.
fn at(method: MethodId, pc: u64) -> CodePlace {
    CodePlace { method, pc }
}

/// Whether there is a step, and it leads there.
fn leads(step: &Option<CodeHop>, taken: bool, backward: bool, to: &[CodePlace]) -> bool {
    match step {
        Some(hop) => hop.taken == taken && hop.backward == backward && hop.to.as_slice() == to,
        None => false,
    }
}

#[test]
fn steps(rt: HostRuntime) -> Result<(), Fail> {
    let alloc = rt.alloc();
    let main = [
        (Instr::Iconst0, Operand::Constant(0)),
        (Instr::Ifeq { distance: 0 }, Operand::Nothing),
        (Instr::Invokestatic { index: 1 }, Operand::Method(HELP)),
        (Instr::Return, Operand::Nothing),
    ];
    let help = [(Instr::Return, Operand::Nothing)];
    let program = calling(&rt, alloc, &main, frame(0, None), &help)?;
    let jumping = hops_from(alloc, &program, &[at(MAIN, 1)])?;
    assert!(rt; leads(&jumping.fall, false, false, &[at(MAIN, 4)]));
    assert!(rt; leads(&jumping.jump, true, true, &[at(MAIN, 1)]));
    assert!(rt; jumping.call.is_none() && jumping.leave.is_none());
    let calling = hops_from(alloc, &program, &[at(MAIN, 4)])?;
    assert!(rt; leads(&calling.call, false, false, &[at(HELP, 0), at(MAIN, 4)]));
    assert!(rt; calling.fall.is_none() && calling.jump.is_none() && calling.leave.is_none());
    let leaving = hops_from(alloc, &program, &[at(HELP, 0), at(MAIN, 4)])?;
    assert!(rt; leads(&leaving.leave, false, false, &[at(MAIN, 7)]));
    let ending = hops_from(alloc, &program, &[at(MAIN, 7)])?;
    assert!(rt; leads(&ending.leave, false, false, &[]));
    let nowhere = hops_from(alloc, &program, &[at(MAIN, 2)])?;
    assert!(rt; nowhere.fall.is_none() && nowhere.jump.is_none());
    Ok(())
}
