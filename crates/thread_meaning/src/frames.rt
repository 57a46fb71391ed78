//! The frames of a thread.

ghost use Rattle.std.specs.Prelude.{◌≡◌, ◌↔◌, [], ◌∷◌, IsTrue, IfSome, IfNone, OnOk, OnErr, IfErr};
ghost use Rattle.thread_meaning.specs.Changes.{activation_of};
ghost use Rattle.thread_meaning.specs.Outcomes.{IsRunning};

use crate::end::TraceEnd;
use crate::frame::Frame;
use program::MethodId;
use std::alloc::Global;
use std::marker::Model;

/// The methods that a thread is running, seen as the list of their activations, the innermost first.
#[derive(Debug, Drop)]
pub struct Frames {
    items: Vec<Frame>,
}

impl Model for Frames {
    ghost use Rattle.std.specs.Prelude.{List, reverse, map};
    ghost use Rattle.program.specs.Step.{Activation};
    ghost use Rattle.thread_meaning.specs.Changes.{activation_of};

    ghost Value = { List Activation };

    ghost view = { λ f. map activation_of (reverse f.items.items) };
}

impl Frames {
    /// No method is run.
    pub fn new(alloc: Global) -> Frames
        ensures { result ≡ [] }
    {
        Frames {
            items: Vec::new(alloc),
        }
    }

    /// A method is entered, or gone on with.
    pub fn push(&mut self, frame: Frame) -> Result<(), TraceEnd>
        ensures ok { OnOk result (self.new ≡ activation_of frame ∷ self.old) }
        ensures err { IfErr result (λ e. e ≡ TraceEnd.Memory) }
    {
        self.items.push(frame).map_err(|_| TraceEnd::Memory)
    }

    /// Takes the innermost frame.
    pub fn pop(&mut self) -> Option<Frame>
        ensures some { IfSome result (λ frame. self.old ≡ activation_of frame ∷ self.new) }
        ensures none { IfNone result (self.old ≡ []) }
    {
        self.items.pop()
    }

    /// Whether no method is run.
    pub fn is_empty(&self) -> bool
        ensures { IsTrue result ↔ (self.now ≡ []) }
    {
        self.items.is_empty()
    }

    /// Whether a method is being run.
    pub fn is_running(&self, id: MethodId) -> bool
        ensures { IsTrue result ↔ IsRunning self.now id }
    {
        for frame in &self.items {
            if frame.method == id {
                return true;
            }
        }
        false
    }
}
