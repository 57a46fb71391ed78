//! The types on the stack of straight code.

/// The type of a place of the operand stack.
#[derive(Clone, Copy, Debug, PartialEq, Eq)]
pub enum StackType {
    /// An int.
    Int,
    /// The object of `System.out`.
    Out,
}
