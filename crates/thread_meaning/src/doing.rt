//! What instructions do to the frame that they run in.

ghost use Rattle.std.specs.Prelude.{◌≡◌};
ghost use Rattle.thread_meaning.specs.Doings.{unary_op, binary_op, compares, or_else};

use crate::value::Value;
use java_int::{add, and, mul, neg, or, shl, shr, sub, to_byte, to_char, to_short, ushr, xor};
use program::MethodId;

/// An operation on one int (JVMS 6.5).
#[derive(Clone, Copy, Debug, PartialEq, Eq)]
pub enum Unary {
    Negate,
    ToByte,
    ToChar,
    ToShort,
}

/// An operation on two ints, the upper one on the stack being the second (JVMS 6.5).
#[derive(Clone, Copy, Debug, PartialEq, Eq)]
pub enum Binary {
    Add,
    Subtract,
    Multiply,
    ShiftLeft,
    ShiftRight,
    ShiftRightUnsigned,
    And,
    Or,
    ExclusiveOr,
}

/// A test of one int against another.
#[derive(Clone, Copy, Debug, PartialEq, Eq)]
pub enum Comparison {
    Equal,
    NotEqual,
    Less,
    GreaterOrEqual,
    Greater,
    LessOrEqual,
}

/// When a jump is taken: always, or where an int passes a comparison with 0, or the lower of two ints one with the upper.
#[derive(Clone, Copy, Debug, PartialEq, Eq)]
pub enum Test {
    Always,
    WithZero(Comparison),
    OfTwo(Comparison),
}

/// What an instruction does (JVMS 6.5). Variables, monitors and threads are places in the program's lists.
#[derive(Clone, Copy, Debug, PartialEq, Eq)]
pub enum Doing {
    /// Pushes an int.
    Push(i32),
    /// Pushes a reference.
    Put(Value),
    /// Takes the class object of this monitor, and locks it.
    Lock(u32),
    /// Takes the class object of this monitor, and unlocks it.
    Unlock(u32),
    /// Takes the object of this thread, whose constructor is called.
    Construct(u32),
    /// Takes the object of this thread, and starts it.
    Start(u32),
    /// Takes the object of this thread, and detects its end.
    Join(u32),
    /// Takes the target of this thread, whose constructor is called.
    ConstructTarget(u32),
    /// Takes the target of this thread, and its object, whose constructor is called.
    Wrap(u32),
    /// Takes the object of this thread, and pushes 0 where it has ended, which detects its end, or 1.
    Ask { thread: u32, ended: bool },
    /// Reads a variable and pushes its value.
    Read(u32),
    /// Takes an int and writes it to a variable.
    Write(u32),
    /// Takes an int and the object of `System.out`, and prints the int.
    Print,
    /// Changes nothing.
    Nothing,
    /// Takes a value.
    Discard,
    /// Pushes the top of the stack again.
    Double,
    /// Exchanges the two topmost values.
    Exchange,
    /// Pushes the int of a local.
    LoadInt(u32),
    /// Pushes the reference of a local.
    LoadReference(u32),
    /// Takes an int and stores it in a local.
    StoreInt(u32),
    /// Takes a reference and stores it in a local.
    StoreReference(u32),
    /// Adds to the int of a local.
    Increment { slot: u32, delta: i32 },
    /// Replaces an int by the result of an operation.
    Unary(Unary),
    /// Replaces two ints by the result of an operation.
    Binary(Binary),
    /// Jumps, where the test is passed.
    Jump { test: Test, distance: i16 },
    /// Calls a static method.
    Call(MethodId),
    /// Returns without a result.
    Return,
    /// Returns an int.
    ReturnInt,
    /// No step: the instruction doesn't name what it needs.
    Stuck,
}

impl Unary {
    /// The result of the operation.
    pub fn apply(self, a: i32) -> i32
        ensures { result ≡ unary_op self a }
    {
        match self {
            Unary::Negate => neg(a),
            Unary::ToByte => to_byte(a),
            Unary::ToChar => to_char(a),
            Unary::ToShort => to_short(a),
        }
    }
}

impl Binary {
    /// The result of the operation.
    pub fn apply(self, a: i32, b: i32) -> i32
        ensures { result ≡ binary_op self a b }
    {
        match self {
            Binary::Add => add(a, b),
            Binary::Subtract => sub(a, b),
            Binary::Multiply => mul(a, b),
            Binary::ShiftLeft => shl(a, b),
            Binary::ShiftRight => shr(a, b),
            Binary::ShiftRightUnsigned => ushr(a, b),
            Binary::And => and(a, b),
            Binary::Or => or(a, b),
            Binary::ExclusiveOr => xor(a, b),
        }
    }
}

impl Comparison {
    /// Whether the first int stands so to the second.
    pub fn holds(self, a: i32, b: i32) -> bool
        ensures { result ≡ compares self a b }
    {
        match self {
            Comparison::Equal => a <= b && b <= a,
            Comparison::NotEqual => !(a <= b && b <= a),
            Comparison::Less => a < b,
            Comparison::GreaterOrEqual => b <= a,
            Comparison::Greater => b < a,
            Comparison::LessOrEqual => a <= b,
        }
    }
}

impl Doing {
    /// The other, where this is stuck.
    pub fn or_else(self, other: Doing) -> Doing
        ensures { result ≡ or_else self other }
    {
        match self {
            Doing::Stuck => other,
            doing => doing,
        }
    }
}
