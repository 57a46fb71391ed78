//! The parts of a program that its methods share.

ghost use Rattle.std.specs.Prelude.{◌≡◌, ◌<◌, ◌+◌, ◌^◌, ◌++◌, All, IfOk, OnOk, length};
ghost use Rattle.program.specs.Program.{IsSpeltVariable};

use ports::Memory;
use program::{MethodId, Name, Program, Variable};

/// The same variable once more.
fn copied(variable: &Variable) -> Result<Variable, Memory>
    ensures { IfOk result (λ copy. copy ≡ variable.now) }
{
    let class = variable.class.duplicate()?;
    let name = variable.name.duplicate()?;
    Ok(Variable {
        class,
        name,
        volatile: variable.volatile,
    })
}

/// Adds variables behind the last one.
pub fn add_variables(program: &mut Program, variables: &[Variable]) -> Result<(), Memory>
    requires { All IsSpeltVariable variables.now }
    ensures { OnOk result (program.new ≡ record program.old { variables = program.old.variables ++ variables.now }) }
{
    for variable in variables {
        program.add_variable(copied(variable)?)?;
    }
    Ok(())
}

/// Adds monitors behind the last one.
pub fn add_monitors(program: &mut Program, monitors: &[Name]) -> Result<(), Memory>
    ensures { OnOk result (program.new ≡ record program.old { monitors = program.old.monitors ++ monitors.now }) }
{
    for monitor in monitors {
        program.add_monitor(monitor.duplicate()?)?;
    }
    Ok(())
}

/// Adds threads behind the last one.
pub fn add_threads(program: &mut Program, threads: &[MethodId]) -> Result<(), Memory>
    requires { length program.old.threads + length threads.now < 2 ^ 32 }
    ensures { OnOk result (program.new ≡ record program.old { threads = program.old.threads ++ threads.now }) }
{
    for thread in threads {
        program.add_thread(*thread)?;
    }
    Ok(())
}
