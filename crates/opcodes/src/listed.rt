ghost use Rattle.std.specs.Prelude.{◌≡◌, ◌<◌, ◌≤◌, ◌↔◌, ◌+◌, ◌++◌, [], ◌∷◌, length, All, IsTrue, IsSome, IfSome, IfNone, OnOk, OnErr, slice_get};
ghost use Rattle.std.specs.List.{AllWithin};
ghost use Rattle.std.specs.Option.{option_copied};
ghost use Rattle.opcodes.specs.Listing.{IsByPc, StandsAt};

use crate::instruction::Instr;
use std::alloc::{AllocError, Global};
use std::marker::Model;

/// An instruction and the place in its method's code where it begins, counted in bytes from 0.
#[derive(Clone, Copy, Debug, PartialEq, Eq)]
pub struct Listed {
    pub pc: u32,
    pub instr: Instr,
}

/// Instructions by their places in one method's code, the places strictly increasing.
#[derive(Clone, Debug, Drop)]
pub struct Listing {
    items: Vec<Listed>,
}

impl Model for Listing {
    ghost use Rattle.std.specs.Prelude.{List};
    ghost use Rattle.opcodes.specs.declared.listed.Listed.{Listed};
    ghost use Rattle.opcodes.specs.Listing.{IsByPc};

    ghost Value = { List Listed };

    ghost view = { λ l. l.items.items };

    ghost invariant = { λ l. IsByPc l.items.items };
}

impl Listing {
    /// A listing without instructions.
    pub fn new(alloc: Global) -> Listing
        ensures { result ≡ [] }
    {
        Listing {
            items: Vec::new(alloc),
        }
    }

    /// Adds an instruction behind all others. The listing is unchanged where memory is short.
    pub fn push(&mut self, pc: u32, instr: Instr) -> Result<(), AllocError>
        requires { All (λ l. l.pc < pc) self.old }
        ensures ok { OnOk result (self.new ≡ self.old ++ record { pc = pc; instr = instr } ∷ []) }
        ensures err { OnErr result (self.new ≡ self.old) }
    {
        self.items.push(Listed { pc, instr })?;
        Ok(())
    }

    /// How many instructions there are.
    pub fn len(&self) -> usize
        ensures { result ≡ length self.now }
    {
        self.items.len()
    }

    /// Whether there is no instruction.
    pub fn is_empty(&self) -> bool
        ensures { IsTrue result ↔ (self.now ≡ []) }
    {
        self.items.is_empty()
    }

    /// The instruction at a place of the list, counted from 0.
    pub fn get(&self, place: usize) -> Option<&Listed>
        ensures item { option_copied result ≡ slice_get self.now place }
        ensures some { IsSome result ↔ (place < length self.now) }
    {
        self.items.get(place)
    }

    /// The whole list, by place in the code.
    pub fn as_slice(&self) -> &[Listed]
        ensures items { result.now ≡ self.now }
        ensures by_pc { IsByPc self.now }
    {
        self.items.as_slice()
    }

    /// The instruction at a place of the code, if one is listed there.
    pub fn at(&self, pc: u32) -> Option<&Instr>
        ensures some { IfSome result (λ i. StandsAt self.now pc i.now) }
        ensures none { IfNone result ((i : Instr) → StandsAt self.now pc i → ⊥) }
    {
        let found = self.items.get(self.place_from(pc))?;
        if found.pc == pc {
            Some(&found.instr)
        } else {
            None
        }
    }

    /// The first place of the list with an instruction at `pc` or behind it.
    fn place_from(&self, pc: u32) -> usize
        ensures within { result ≤ length self.now }
        ensures before { AllWithin (λ l. l.pc < pc) self.now 0 result }
        ensures behind { AllWithin (λ l. pc ≤ l.pc) self.now result (length self.now) }
    {
        self.items.partition_point(|listed| listed.pc < pc)
    }
}
