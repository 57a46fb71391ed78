//! Reached methods: their frames, their instructions and what each instruction names.

use crate::items::Items;
use crate::operands::Operands;
use crate::value_type::TypedState;
use opcodes::Listing;

/// A method, by the place of its class among the classes and its own place in the class.
#[derive(Clone, Copy, Debug, PartialEq, Eq)]
pub struct MethodId {
    pub class: u32,
    pub method: u32,
}

/// The frame of a method (JVMS 3.6).
#[derive(Clone, Copy, Debug, PartialEq, Eq)]
pub struct Frame {
    /// The number of local variables.
    pub max_locals: u32,
    /// The greatest height of the operand stack.
    pub max_stack: u32,
    /// The number of locals that are filled when the method is entered; the object of a `run()V` counts as one.
    pub parameters: u32,
    /// Whether the method returns an int.
    pub result: bool,
    /// The monitor of a synchronized method, as its place in the program's list.
    pub monitor: Option<u32>,
}

/// What an instruction names by the constant pool and by the types of its operands. Variables and monitors are places in
/// the program's lists.
#[derive(Clone, Copy, Debug, PartialEq, Eq)]
pub enum Operand {
    /// The int that a constant pushes.
    Constant(i32),
    /// The variable that a `getstatic` or `putstatic` names.
    Variable(u32),
    /// The monitor of an `ldc` of a class, a `monitorenter` or a `monitorexit`.
    Monitor(u32),
    /// The thread that a `new` or a constructor's call makes.
    Make(u32),
    /// The thread whose target a `new` or a constructor's call makes.
    Target(u32),
    /// The thread that a call of the constructor of `java/lang/Thread` makes around its target.
    Wrap(u32),
    /// The thread that a call of `start` starts.
    Start(u32),
    /// The thread that a call of `join` waits for.
    Join(u32),
    /// The thread that a call of `isAlive` asks for.
    Alive(u32),
    /// The method that an `invokestatic` calls.
    Method(MethodId),
    /// The `getstatic` of `java/lang/System.out`.
    Out,
    /// A call of `println`.
    Print,
    /// All other instructions.
    Nothing,
}

/// A reached method: its frame, its reached instructions by place, and in the same order what each of them names and what is
/// known of the frame before it. A method that was not typed has no typed states.
#[derive(Debug, Drop)]
pub struct Method {
    pub id: MethodId,
    pub frame: Frame,
    pub listing: Listing,
    pub operands: Operands,
    pub typed: Items<TypedState>,
}
