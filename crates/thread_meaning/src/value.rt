//! What a local variable or a place of the stack holds.

ghost use Rattle.std.specs.Prelude.{◌≡◌, ◌↔◌, IsTrue};
ghost use Rattle.thread_meaning.specs.Values.{int_of, monitor_of, object_of, target_of, is_reference};

use std::marker::Model;

/// The shape of a value.
#[derive(Clone, Copy, Debug, PartialEq, Eq)]
enum Shape {
    Int(i32),
    Out,
    Args,
    This,
    Monitor(u32),
    Object(u32),
    Target(u32),
}

/// A value of a thread's run: an int, or one of the few references that programs of the profile have.
#[derive(Clone, Copy, Debug, PartialEq, Eq)]
pub struct Value {
    shape: Shape,
}

impl Model for Value {
    ghost use Rattle.program.specs.Step.{JavaValue};
    ghost use Rattle.thread_meaning.specs.Values.{value_of, shape_of};

    ghost Value = { JavaValue };

    ghost view = { λ v. value_of v.shape };

    ghost inverse = { λ j. record { shape = shape_of j } };
}

impl Value {
    ghost use Rattle.program.specs.Step.{JavaValue, Int, Out, Args, This, Monitor, Object, Target};

    /// An int.
    pub fn int(value: i32) -> Value
        ensures { result ≡ Int value }
    {
        Value {
            shape: Shape::Int(value),
        }
    }

    /// The object of `System.out`.
    pub fn out() -> Value
        ensures { result ≡ Out }
    {
        Value { shape: Shape::Out }
    }

    /// The argument of main.
    pub fn args() -> Value
        ensures { result ≡ Args }
    {
        Value { shape: Shape::Args }
    }

    /// The object whose `run()V` is run.
    pub fn this() -> Value
        ensures { result ≡ This }
    {
        Value { shape: Shape::This }
    }

    /// The class object of a monitor.
    pub fn monitor(number: u32) -> Value
        ensures { result ≡ Monitor number }
    {
        Value {
            shape: Shape::Monitor(number),
        }
    }

    /// The object of a thread.
    pub fn object(thread: u32) -> Value
        ensures { result ≡ Object thread }
    {
        Value {
            shape: Shape::Object(thread),
        }
    }

    /// The target of a thread.
    pub fn target(thread: u32) -> Value
        ensures { result ≡ Target thread }
    {
        Value {
            shape: Shape::Target(thread),
        }
    }

    /// The int, where it is one.
    pub fn as_int(&self) -> Option<i32>
        ensures { result ≡ int_of self.now }
    {
        match self.shape {
            Shape::Int(value) => Some(value),
            _ => None,
        }
    }

    /// The monitor, where it is the class object of one.
    pub fn as_monitor(&self) -> Option<u32>
        ensures { result ≡ monitor_of self.now }
    {
        match self.shape {
            Shape::Monitor(number) => Some(number),
            _ => None,
        }
    }

    /// The thread, where it is the object of one.
    pub fn as_object(&self) -> Option<u32>
        ensures { result ≡ object_of self.now }
    {
        match self.shape {
            Shape::Object(thread) => Some(thread),
            _ => None,
        }
    }

    /// The thread, where it is the target of one.
    pub fn as_target(&self) -> Option<u32>
        ensures { result ≡ target_of self.now }
    {
        match self.shape {
            Shape::Target(thread) => Some(thread),
            _ => None,
        }
    }

    /// Whether it is the object of `System.out`.
    pub fn is_out(&self) -> bool
        ensures { IsTrue result ↔ (self.now ≡ Out) }
    {
        matches!(self.shape, Shape::Out)
    }

    /// Whether it is a reference.
    pub fn is_reference(&self) -> bool
        ensures { result ≡ is_reference self.now }
    {
        !matches!(self.shape, Shape::Int(_))
    }
}
