//! What instructions do to the types of a frame.

use program::ValueType;

/// What an instruction does to the types of a frame (JVMS 6.5).
#[derive(Clone, Copy, Debug, PartialEq, Eq)]
pub enum Deed {
    /// Takes so many ints, and pushes an int or nothing.
    Operate { ints: u32, result: bool },
    /// Pushes a value.
    Push(ValueType),
    /// Takes an int and below it the object of `System.out`.
    Print,
    /// Takes a value.
    Discard,
    /// Pushes the top of the stack again.
    Double,
    /// Exchanges the two topmost values.
    Exchange,
    /// Pushes the int of a local.
    LoadInt(u32),
    /// Pushes the reference of a local.
    LoadReference(u32),
    /// Takes an int and stores it in a local.
    StoreInt(u32),
    /// Takes a reference and stores it in a local.
    StoreReference(u32),
    /// Adds to the int of a local.
    Increment(u32),
    /// Takes a class object, and enters its monitor.
    Enter,
    /// Takes a class object, and leaves its monitor.
    Leave,
    /// Makes the object of a thread.
    Make(u32),
    /// Calls the constructor of a thread's object.
    Construct,
    /// Makes the target of a thread.
    MakeTarget(u32),
    /// Calls the constructor of a thread's target.
    ConstructTarget,
    /// Calls the constructor of a thread's object that takes the thread's target.
    Wrap,
    /// Starts a thread.
    Start,
    /// Waits for the end of a thread.
    Join,
    /// Asks whether a thread is alive.
    Ask,
    /// Returns without a result.
    Return,
    /// Returns an int.
    ReturnInt,
    /// Nothing: the instruction doesn't name what it needs.
    Misplaced,
}
