//! The program that classes make.

ghost use Rattle.std.specs.Prelude.{◌≡◌, All, IfErr, IfOk};
ghost use Rattle.linking.specs.Linking.{AreTypedMethods, IsProgramOf, IsUntypedOf};
ghost use Rattle.linking.specs.Phases.{only_methods};
ghost use Rattle.linking.specs.Refusals.{IsRefusedFor};
ghost use Rattle.program.specs.Program.{IsSpeltVariable};
ghost use Rattle.untyped_program.specs.Limits.{IsWithinLimits};

use crate::class_list::ClassList;
use crate::methods::typed_methods;
use crate::parts::{add_monitors, add_threads, add_variables};
use crate::phases::{check_program, untyped_of};
use crate::refusal::ProgramRefusal;
use ports::Memory;
use program::Program;
use std::alloc::Global;
use untyped_program::UntypedProgram;

/// The program of typed methods, with its variables, monitors and threads.
fn completed(mut program: Program, untyped: &UntypedProgram) -> Result<Program, Memory>
    requires alone { program ≡ only_methods program.methods }
    requires spelt { All IsSpeltVariable untyped.now.variables }
    requires limits { IsWithinLimits untyped.now }
    ensures { IfOk result (λ p. p ≡ record { variables = untyped.now.variables; monitors = untyped.now.monitors; threads = untyped.now.threads; methods = program.methods }) }
{
    add_variables(&mut program, untyped.variables.as_slice())?;
    add_monitors(&mut program, untyped.monitors.as_slice())?;
    add_threads(&mut program, untyped.threads.as_slice())?;
    Ok(program)
}

/// The program that the classes make (docs/PROFILE.md, "Linking").
///
/// # Errors
///
/// Why they make none: the first of four phases that finds something, and the first that it finds. `Memory` where memory is
/// short.
pub fn link(alloc: Global, classes: &ClassList) -> Result<Program, ProgramRefusal>
    ensures program { IfOk result (λ p. IsProgramOf classes.now p) }
    ensures refused { IfErr result (λ refusal. IsRefusedFor classes.now refusal) }
{
    let untyped = untyped_of(alloc, classes.as_slice())?;
    let program = typed_methods(alloc, untyped.methods.as_slice())?;
    check_program(alloc, &untyped)?;
    match completed(program, &untyped) {
        Ok(program) => Ok(program),
        Err(Memory) => Err(ProgramRefusal::Memory),
    }
}
