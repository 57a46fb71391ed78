//! What instructions name.

use program::MethodId;

/// What an instruction names by the constant pool of its class. Variables, monitors and threads go by their numbers.
#[derive(Clone, Copy, Debug, PartialEq, Eq)]
pub enum Symbol {
    /// The int that a constant pushes.
    Constant(i32),
    /// The variable that a `getstatic` or `putstatic` names.
    Variable(u32),
    /// The `getstatic` of `java/lang/System.out`.
    Out,
    /// The `invokevirtual` of `java/io/PrintStream.println(I)V`.
    Print,
    /// The `ldc` of a class, whose object has this monitor.
    Monitor(u32),
    /// The `new` that makes this thread.
    Make(u32),
    /// The `invokespecial` of a thread class's constructor.
    Construct,
    /// The `new` that makes the target of this thread.
    MakeTarget(u32),
    /// The `invokespecial` of a target class's constructor.
    ConstructTarget,
    /// The `invokespecial` of the constructor of `java/lang/Thread` that takes a target.
    Wrap,
    /// The `invokevirtual` of `start()V`.
    Start,
    /// The `invokevirtual` of `join()V`.
    Join,
    /// The `invokevirtual` of `isAlive()Z`.
    Alive,
    /// The `invokestatic` of a method that takes so many ints, and returns an int or nothing.
    Call {
        method: MethodId,
        parameters: u32,
        result: bool,
    },
    /// All other instructions.
    Nothing,
}
