ghost use Rattle.std.specs.Prelude.{◌<◌, length, ◌++◌, ◌≡◌, ◌↔◌, [], ◌∷◌, Contains, IsTrue, OnErr, OnOk};
ghost use Rattle.refutation_check.specs.Marked.{SameMarks};

use ports::Memory;
use std::alloc::Global;
use std::marker::Model;

/// The literals, by number, that were made true, in order, with a mark at each.
#[derive(Debug, Drop)]
pub struct Marks {
    marks: Vec<bool>,
    trail: Vec<u32>,
}

impl Model for Marks {
    ghost use Rattle.std.specs.Prelude.{List, ℕ};
    ghost use Rattle.refutation_check.specs.Marked.{IsMarked};

    ghost Value = { List ℕ };

    ghost view = { λ marks. marks.trail.items };

    ghost invariant = { λ marks. IsMarked marks.marks.items marks.trail.items };
}

/// Makes room for a mark.
fn reserve(marks: &mut Vec<bool>, number: usize) -> Result<(), Memory>
    ensures kept { SameMarks marks.old.items marks.new.items }
    ensures room { OnOk result (number < length marks.new.items) }
{
    while marks.len() <= number {
        marks.push(false).map_err(|_| Memory)?;
    }
    Ok(())
}

impl Marks {
    /// No literal.
    pub fn new(alloc: Global) -> Marks
        ensures { result ≡ [] }
    {
        Marks {
            marks: Vec::new(alloc),
            trail: Vec::new(alloc),
        }
    }

    /// Whether a literal was made true.
    pub fn is_marked(&self, number: u32) -> bool
        ensures { IsTrue result ↔ Contains self.now number }
    {
        self.marks.get(number as usize).copied().unwrap_or(false)
    }

    /// Makes a literal true.
    ///
    /// # Errors
    /// `Memory` where there is no room. Then nothing changed.
    pub fn mark(&mut self, number: u32) -> Result<(), Memory>
        ensures ok { OnOk result (self.new ≡ self.old ++ number ∷ []) }
        ensures memory { OnErr result (self.new ≡ self.old) }
    {
        reserve(&mut self.marks, number as usize)?;
        self.trail.push(number).map_err(|_| Memory)?;
        self.marks[number as usize] = true;
        Ok(())
    }

    /// Takes all marks back.
    pub fn clear(&mut self)
        ensures { self.new ≡ [] }
    {
        while let Some(number) = self.trail.pop() {
            self.marks[number as usize] = false;
        }
    }
}
