//! What a step does beside changing the frames.

ghost use Rattle.std.specs.Prelude.{◌≡◌, ◌≤◌, ◌↔◌, [], ◌∷◌, All, IsTrue};
ghost use Rattle.java_int.specs.JavaInt.{Fits};
ghost use Rattle.thread_meaning.specs.Effects.{FitsIfAny};

use crate::value::Value;
use java_int::fits;
use program::Event;
use std::marker::Model;

/// The effect of a step: its event, the ints that it pushes or stores, of which there are at most two, and whether it is
/// a backward jump.
#[derive(Debug, Drop)]
pub struct Effect {
    event: Option<Event>,
    first: Option<i32>,
    second: Option<i32>,
    backward: bool,
}

impl Model for Effect {
    ghost use Rattle.program.specs.Step.{Effect};
    ghost use Rattle.thread_meaning.specs.Effects.{both};

    ghost Value = { Effect };

    ghost view = { λ e. record { event = e.event; ints = both e.first e.second; backward = e.backward } };
}

/// Whether the int has the width, where there is one.
fn fits_if_any(int: Option<i32>, width: u32) -> bool
    requires low { 2 ≤ width }
    requires high { width ≤ 32 }
    ensures { IsTrue result ↔ FitsIfAny width int }
{
    match int {
        Some(value) => fits(value, width),
        None => true,
    }
}

impl Effect {
    ghost use Rattle.std.specs.Prelude.{false};
    ghost use Rattle.program.specs.Step.{silent, pushes, shows, moves_values, jump_effect};

    /// No effect.
    pub fn silent() -> Effect
        ensures { result ≡ silent }
    {
        Effect::of_event(None)
    }

    /// An event, if there is one, without ints.
    pub fn of_event(event: Option<Event>) -> Effect
        ensures { result ≡ record { event = event; ints = []; backward = false } }
    {
        Effect {
            event,
            first: None,
            second: None,
            backward: false,
        }
    }

    /// An int that is pushed or stored, with an event, if there is one.
    pub fn of_int(event: Option<Event>, value: i32) -> Effect
        ensures { result ≡ record { event = event; ints = value ∷ []; backward = false } }
    {
        Effect {
            event,
            first: Some(value),
            second: None,
            backward: false,
        }
    }

    /// A value that is pushed.
    pub fn of_value(value: &Value) -> Effect
        ensures { result ≡ moves_values (value.now ∷ []) }
    {
        Effect {
            event: None,
            first: value.as_int(),
            second: None,
            backward: false,
        }
    }

    /// Two values that are pushed.
    pub fn of_values(upper: &Value, lower: &Value) -> Effect
        ensures { result ≡ moves_values (upper.now ∷ lower.now ∷ []) }
    {
        Effect {
            event: None,
            first: upper.as_int(),
            second: lower.as_int(),
            backward: false,
        }
    }

    /// A jump.
    pub fn of_jump(backward: bool) -> Effect
        ensures { result ≡ jump_effect backward }
    {
        Effect {
            event: None,
            first: None,
            second: None,
            backward,
        }
    }

    /// Its event.
    pub fn event(&self) -> Option<Event>
        ensures { result ≡ self.now.event }
    {
        self.event
    }

    /// Whether each of its ints has the width.
    pub fn fits(&self, width: u32) -> bool
        requires low { 2 ≤ width }
        requires high { width ≤ 32 }
        ensures { IsTrue result ↔ All (Fits width) self.now.ints }
    {
        fits_if_any(self.first, width) && fits_if_any(self.second, width)
    }

    /// Whether it is that of a backward jump.
    pub fn is_backward(&self) -> bool
        ensures { result ≡ self.now.backward }
    {
        self.backward
    }
}
