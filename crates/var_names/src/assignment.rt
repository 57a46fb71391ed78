ghost use Rattle.std.specs.Prelude.{◌<◌, ◌≡◌, false, IfOk, length, replicate, slice_get, slice_set};

use ports::Memory;
use std::alloc::Global;
use std::marker::Model;

/// A truth value for each variable of a formula, in the order of the variables.
#[derive(Debug, Drop)]
pub struct Assignment {
    values: Vec<bool>,
}

impl Model for Assignment {
    ghost use Rattle.std.specs.Prelude.{Bool, List};

    ghost Value = { List Bool };

    ghost view = { λ assignment. assignment.values.items };
}

impl Assignment {
    /// So many values, all false.
    ///
    /// # Errors
    /// `Memory` where there is no room.
    pub fn new(alloc: Global, len: usize) -> Result<Assignment, Memory>
        ensures { IfOk result (λ assignment. assignment ≡ replicate len false) }
    {
        Ok(Assignment {
            values: vec![in alloc; false; len].map_err(|_| Memory)?,
        })
    }

    /// How many values there are.
    pub fn len(&self) -> usize
        ensures { result ≡ length self.now }
    {
        self.values.len()
    }

    /// The value at a place, or `None` exactly at or past the number of values.
    pub fn get(&self, at: usize) -> Option<bool>
        ensures { result ≡ slice_get self.now at }
    {
        self.values.get(at).copied()
    }

    /// Changes the value at a place, on condition that it is below the number of values.
    pub fn set(&mut self, at: usize, value: bool)
        requires { at < length self.old }
        ensures { self.new ≡ slice_set self.old at value }
    {
        self.values[at] = value;
    }
}
