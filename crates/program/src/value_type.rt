//! What typing knows of the locals, the stack and the monitors of a frame (docs/PROFILE.md, "Typing").

use crate::items::Items;

/// The type of a local or of a place of the operand stack.
#[derive(Clone, Copy, Debug, PartialEq, Eq)]
pub enum ValueType {
    /// An int.
    Int,
    /// The object of `System.out`.
    Out,
    /// The argument of main.
    Args,
    /// The object whose `run()V` is run.
    This,
    /// The class object of the monitor with this number.
    Lock(u32),
    /// The object of the thread with this number, its constructor not called yet.
    Fresh(u32),
    /// The object of the thread with this number.
    Thread(u32),
    /// The target of the thread with this number, its constructor not called yet.
    FreshTarget(u32),
    /// The target of the thread with this number.
    Target(u32),
}

/// A local that has a type.
#[derive(Clone, Copy, Debug, PartialEq, Eq)]
pub struct TypedLocal {
    pub slot: u32,
    pub holds: ValueType,
}

/// A monitor, and how often a frame has entered it by `monitorenter` without leaving it again: once or more.
#[derive(Clone, Copy, Debug, PartialEq, Eq)]
pub struct HeldMonitor {
    pub monitor: u32,
    pub count: u32,
}

/// What is known before an instruction: the locals that have a type, by slot; the types on the stack, the lowest first; the
/// monitors that the frame holds, by number.
#[derive(Debug, Drop)]
pub struct TypedState {
    pub locals: Items<TypedLocal>,
    pub stack: Items<ValueType>,
    pub held: Items<HeldMonitor>,
}
