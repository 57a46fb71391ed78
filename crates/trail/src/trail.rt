//! The trail, in arrays that are taken once.

use crate::step::{Assigned, Reason, Step, Value, rise};
use literals::{opposite, variable};
use std::alloc::{AllocError, Global};
use std::marker::Model;

/// There was no memory for the trail.
#[derive(Clone, Copy, Debug, PartialEq, Eq)]
pub struct Memory;

impl From<AllocError> for Memory {
    fn from(_error: AllocError) -> Memory {
        Memory
    }
}

/// The literals that were made true, in order. No call after [`open`](Trail::open) takes memory.
#[derive(Debug, Drop)]
pub struct Trail {
    /// The oldest first.
    steps: Vec<Step>,
    /// The value of each literal.
    values: Vec<Value>,
    /// For each variable, what was kept when it got its value.
    assigned: Vec<Assigned>,
    /// The number of decisions.
    level: u32,
}

impl Model for Trail {
    ghost use Rattle.std.specs.Prelude.{reverse, vec_len, vec_capacity};
    ghost use Rattle.trail.specs.Steps.{TrailValue};
    ghost use Rattle.trail.specs.Arrays.{IsTrail};

    ghost Value = { TrailValue };

    ghost view = { λ t. record { steps = reverse t.steps.items; variables = vec_len t.assigned } };

    ghost invariant = { λ t. IsTrail (reverse t.steps.items) t.values.items t.assigned.items t.level (vec_capacity t.steps) };
}

impl Trail {
    ghost use Rattle.std.specs.Prelude.{◌≡◌, ◌==◌, ◌*◌, ◌<◌, ◌^◌, IfOk, length};
    ghost use Rattle.literals.specs.Literal.{variable_of};
    ghost use Rattle.literals.specs.Propagation.{HasNoValueIn};
    ghost use Rattle.trail.specs.Steps.{literals_of, level_of, level_at, reason_at, HasValue, IsSoundTrail, IsStepAt, empty_trail, with_step, back_in, without_newest, HasSomeValueIn};

    /// A trail without steps, for so many variables. It takes all its memory here.
    ///
    /// # Errors
    ///
    /// `Memory` where an allocation fails.
    pub fn open(alloc: Global, variables: u32) -> Result<Trail, Memory>
        requires { variables < 2 ^ 31 }
        ensures { IfOk result (λ trail. trail ≡ empty_trail variables) }
    {
        let none = Assigned { level: 0, place: 0 };
        let count = variables as usize;
        let steps = Vec::with_capacity(alloc, count)?;
        let values = vec![in alloc; Value::Open; 2 * count]?;
        let assigned = vec![in alloc; none; count]?;
        Ok(Trail {
            steps,
            values,
            assigned,
            level: 0,
        })
    }

    /// The number of steps.
    pub fn len(&self) -> usize
        ensures { result ≡ length self.now.steps }
    {
        self.steps.len()
    }

    /// Whether no literal was made true yet.
    pub fn is_empty(&self) -> bool
        ensures { result ≡ (length self.now.steps == 0) }
    {
        self.steps.is_empty()
    }

    /// The number of decisions.
    pub fn level(&self) -> u32
        ensures { result ≡ level_of self.now.steps }
    {
        self.level
    }

    /// The step that has so many steps before it.
    pub fn step(&self, place: usize) -> Step
        requires { place < length self.now.steps }
        ensures { IsStepAt self.now.steps place result }
    {
        self.steps[place]
    }

    /// The value of a literal, in constant time.
    pub fn value(&self, literal: u32) -> Value
        requires { literal < 2 * self.now.variables }
        ensures value { HasValue (literals_of self.now.steps) literal result }
        ensures sound { IsSoundTrail self.now }
    {
        self.values[literal as usize]
    }

    /// The number of decisions up to the step that gave the variable of this literal its value.
    pub fn level_of(&self, literal: u32) -> u32
        requires { HasSomeValueIn (literals_of self.now.steps) literal }
        ensures { result ≡ level_at self.now.steps (variable_of literal) }
    {
        self.assigned[variable(literal) as usize].level
    }

    /// Why the variable of this literal has its value.
    pub fn reason_of(&self, literal: u32) -> Reason
        requires { HasSomeValueIn (literals_of self.now.steps) literal }
        ensures { result ≡ reason_at self.now.steps (variable_of literal) }
    {
        let place = self.assigned[variable(literal) as usize].place;
        self.steps[place as usize].reason
    }

    /// Makes a literal true that has no value. With the reason `Decision` the level rises by one.
    pub fn assign(&mut self, literal: u32, reason: Reason)
        requires below { literal < 2 * self.old.variables }
        requires open_value { HasNoValueIn (literals_of self.old.steps) literal }
        ensures { self.new ≡ with_step self.old literal reason }
    {
        self.level += rise(&reason);
        self.values[literal as usize] = Value::True;
        self.values[opposite(literal) as usize] = Value::False;
        self.assigned[variable(literal) as usize] = Assigned {
            level: self.level,
            place: self.steps.len() as u32,
        };
        self.steps.push_reserved(Step { literal, reason });
    }

    /// Takes steps back, the newest first, until the level is no higher than this one.
    pub fn back_to(&mut self, level: u32)
        ensures { self.new ≡ back_in self.old level }
    {
        while self.level() > level {
            self.take_back();
        }
    }

    /// Takes the newest step back, where there is one.
    pub fn take_back(&mut self)
        ensures { self.new ≡ without_newest self.old }
    {
        let Some(step) = self.steps.pop() else {
            return;
        };
        self.level -= rise(&step.reason);
        self.values[step.literal as usize] = Value::Open;
        self.values[opposite(step.literal) as usize] = Value::Open;
    }
}
