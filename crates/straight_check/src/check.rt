//! The test of a whole program.

ghost use Rattle.std.specs.Prelude.{◌↔◌, IfOk, IsTrue, MatchOption};
ghost use Rattle.program.specs.declared.method.Method.{Method};
ghost use Rattle.program.specs.declared.program.Variable.{Variable};
ghost use Rattle.straight_check.specs.Parts.{IsAlone, IsStraightMain};
ghost use Rattle.straight_check.specs.StraightProgram.{IsStraightProgram};

use crate::code::is_straight_code;
use crate::size::is_small;
use crate::type_stack::Limits;
use crate::variables::are_plain;
use ports::Memory;
use program::{Method, Program, Variable};
use std::alloc::Global;

/// The one method of a program, where its one thread runs it.
fn method_alone(program: &Program) -> Option<&Method>
    ensures { MatchOption result ((main : Method) → IsAlone program.now main → ⊥) (λ main. IsAlone program.now main.now) }
{
    let [id] = program.methods() else {
        return None;
    };
    if program.threads() == 1 && program.entry(0) == *id {
        Some(program.method(*id))
    } else {
        None
    }
}

/// Whether the code of main is straight and passes no limit.
fn is_straight_main(alloc: Global, variables: &[Variable], main: &Method) -> Result<bool, Memory>
    ensures { IfOk result (λ b. IsTrue b ↔ IsStraightMain variables.now main.now) }
{
    if main.operands.len() != main.listing.len() {
        return Ok(false);
    }
    if !is_small(main) {
        return Ok(false);
    }
    let limits = Limits {
        variables: variables.len(),
        max_stack: main.frame.max_stack as usize,
    };
    is_straight_code(
        alloc,
        limits,
        main.listing.as_slice(),
        main.operands.as_slice(),
    )
}

/// Whether a program is straight and passes no limit of the graph (docs/PROFILE.md, "Straight programs").
///
/// # Errors
///
/// `Memory` where memory is short.
pub fn is_straight(alloc: Global, program: &Program) -> Result<bool, Memory>
    ensures { IfOk result (λ straight. IsTrue straight ↔ IsStraightProgram program.now) }
{
    let Some(main) = method_alone(program) else {
        return Ok(false);
    };
    if !are_plain(program.variables()) {
        return Ok(false);
    }
    is_straight_main(alloc, program.variables(), main)
}
