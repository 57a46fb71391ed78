//! What an instruction of straight code does.

ghost use Rattle.std.specs.Prelude.{◌≡◌};
ghost use Rattle.straight.specs.Doing.{doing_of};

use opcodes::Instr;
use program::Operand;

/// A value on the stack.
#[derive(Clone, Copy, Debug, PartialEq, Eq)]
pub enum StackItem {
    /// An int.
    Int(i32),
    /// The object of `System.out`.
    Out,
}

/// What is known of a variable: its last write, none being the default write, and its value.
#[derive(Clone, Copy, Debug, PartialEq, Eq)]
pub struct Cell {
    pub seen: Option<u64>,
    pub value: i32,
}

/// What an instruction of straight code does. Variables are places in the program's list.
#[derive(Clone, Copy, Debug, PartialEq, Eq)]
pub enum Doing {
    /// Pushes an int.
    Push(i32),
    /// Reads a variable and pushes its value.
    Read(u32),
    /// Takes an int and writes it to a variable.
    Write(u32),
    /// Pushes the object of `System.out`.
    PushOut,
    /// Takes an int and the object, and prints the int.
    Print,
    /// Nothing that changes the stack.
    Nothing,
}

/// What the instruction does that names this.
pub fn what_it_does(instr: &Instr, operand: &Operand) -> Doing
    ensures { result ≡ doing_of instr.now operand.now }
{
    match operand {
        Operand::Constant(value) => Doing::Push(*value),
        Operand::Variable(variable) => match instr {
            Instr::Putstatic { index: _ } => Doing::Write(*variable),
            _ => Doing::Read(*variable),
        },
        Operand::Out => Doing::PushOut,
        Operand::Print => Doing::Print,
        _ => Doing::Nothing,
    }
}
