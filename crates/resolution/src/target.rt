//! What an instruction names.

use program::MethodId;

/// What an instruction names by the constant pool of its class. Classes, fields and methods are places from 0.
#[derive(Clone, Copy, Debug, PartialEq, Eq)]
pub enum Target {
    /// The int that a constant pushes.
    Constant(i32),
    /// The class object that an `ldc` pushes, by the number of the Class entry.
    Class(u16),
    /// A static int or boolean that isn't final.
    Field { class: u32, field: u32 },
    /// `java/lang/System.out`.
    Out,
    /// A call of `java/io/PrintStream.println(I)V`.
    Print,
    /// A `new` of a thread, whose run is that of the class at this place: of a thread class, or of the target class of a form.
    New(u32),
    /// A call of a thread class's constructor.
    Construct,
    /// A `new` of the target of the thread that was made last.
    NewTarget,
    /// A call of a target class's constructor in a form.
    ConstructTarget,
    /// A call of the constructor of `java/lang/Thread` in a form.
    Wrap,
    /// A call of a thread's `start()V`.
    Start,
    /// A call of a thread's `join()V`.
    Join,
    /// A call of a thread's `isAlive()Z`.
    Alive,
    /// A call of a static method.
    Call(MethodId),
    /// Any other instruction.
    Nothing,
}
