//! The program of the classes before it is typed.

ghost use Rattle.std.specs.Prelude.{◌≡◌, All, IfOk};
ghost use Rattle.class_profile.specs.Profile.{IsOfProfile};
ghost use Rattle.program.specs.Program.{IsSpeltVariable};
ghost use Rattle.reached_methods.specs.Reached.{AreReachedMethods};
ghost use Rattle.untyped_program.specs.Known.{AreKnown};
ghost use Rattle.untyped_program.specs.Limits.{AreByPlace};
ghost use Rattle.untyped_program.specs.Untyped.{IsUntypedProgram};

use crate::fields::fields_of;
use crate::monitors::{monitor_names, names_of};
use crate::numbers::Fields;
use crate::symbols::Names;
use crate::threads::threads_of;
use class_format::ClassRecord;
use ports::Memory;
use program::{Items, MethodId, Name, Variable};
use reached_methods::ReachedMethod;
use std::alloc::Global;
use typing::UntypedMethod;

/// The program of the classes before it is typed: its variables by class and by place in the class, its monitors by the
/// first appearance of their names, the methods that its threads run, and the reached methods by class and by place in the
/// class.
#[derive(Debug, Drop)]
pub struct UntypedProgram {
    pub variables: Items<Variable>,
    pub monitors: Items<Name>,
    pub threads: Items<MethodId>,
    pub methods: Items<UntypedMethod>,
}

/// The program of known methods.
fn program_of(
    alloc: Global,
    classes: &[ClassRecord],
    main: MethodId,
    methods: &[ReachedMethod],
) -> Result<UntypedProgram, Memory>
    requires { AreKnown classes.now main methods.now }
    ensures { IfOk result (λ p. IsUntypedProgram classes.now main methods.now p) }
{
    let Fields { variables, numbers } = fields_of(alloc, classes, methods)?;
    let monitors = monitor_names(alloc, classes, methods)?;
    let threads = threads_of(alloc, classes, main, methods)?;
    let names = Names {
        classes,
        numbers,
        monitors,
    };
    let untyped = names.untyped_methods(alloc, main, methods)?;
    let monitors = names_of(alloc, &names.monitors)?;
    Ok(UntypedProgram {
        variables,
        monitors,
        threads,
        methods: untyped,
    })
}

/// The program of classes of the profile, whose reached methods these are. It is refused for want of memory alone, to which
/// a program counts that has more than 2^32 of anything.
pub fn untyped_program(
    alloc: Global,
    classes: &[ClassRecord],
    main: MethodId,
    methods: Items<ReachedMethod>,
) -> Result<UntypedProgram, Memory>
    requires profile { IsOfProfile classes.now }
    requires reached { AreReachedMethods classes.now main methods }
    ensures program { IfOk result (λ p. IsUntypedProgram classes.now main methods p) }
    ensures spelt { IfOk result (λ p. All IsSpeltVariable p.variables) }
    ensures by_place { IfOk result (λ p. AreByPlace p.methods) }
{
    program_of(alloc, classes, main, methods.as_slice())
}
