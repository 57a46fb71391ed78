//! Operands of actions against the numbers of a program's variables, monitors and threads.

ghost use Rattle.std.specs.Prelude.{◌≡◌, ◌↔◌, IsTrue};
ghost use Rattle.thread_events.specs.Named.{NamesMonitor, NamesVariable};

use action_orders::ActionOperand;
use program::Program;

/// Whether an operand is the variable with this number.
pub fn is_variable(program: &Program, operand: &ActionOperand, number: u32) -> bool
    ensures { IsTrue result ↔ NamesVariable program.now operand.now number }
{
    let Some(variable) = program.variables().get(number as usize) else {
        return false;
    };
    let ActionOperand::Variable { class, name } = operand else {
        return false;
    };
    if !class.same(&variable.class) {
        return false;
    }
    name.same(&variable.name)
}

/// Whether an operand is the monitor with this number.
pub fn is_monitor(program: &Program, operand: &ActionOperand, number: u32) -> bool
    ensures { IsTrue result ↔ NamesMonitor program.now operand.now number }
{
    let Some(monitor) = program.monitors().get(number as usize) else {
        return false;
    };
    match operand {
        ActionOperand::Monitor { class } => class.same(monitor),
        _ => false,
    }
}

/// Whether an operand is this thread.
pub fn is_thread(operand: &ActionOperand, number: u32) -> bool
    ensures { IsTrue result ↔ (operand.now ≡ ActionOperand.Thread number) }
{
    match operand {
        ActionOperand::Thread(thread) => *thread == number,
        _ => false,
    }
}
