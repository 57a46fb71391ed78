//! What a program says of its reached methods and of their instructions, by the method's id and the place in its code.

ghost use Rattle.std.specs.Prelude.{◌≡◌, ◌<◌, ◌≤◌, Contains, length, map};
ghost use Rattle.std.specs.List.{AllWithin};
ghost use Rattle.opcodes.specs.Listing.{IsByPc};
ghost use Rattle.opcodes.specs.Listing.{IsByPc};
ghost use Rattle.program.specs.Accessors.{IsFrameIn, IsKnownIn, IsListedAt, IsListingIn, IsOperandIn, IsReachedIn, IsTypedIn, Stands};

use crate::method::{Frame, MethodId, Operand};
use crate::program::Program;
use crate::value_type::TypedState;
use opcodes::{Listed, Listing};

/// The first place of a listing with an instruction at `pc` or behind it.
fn place_from(listing: &[Listed], pc: u32) -> usize
    requires { IsByPc listing.now }
    ensures within { result ≤ length listing.now }
    ensures before { AllWithin (λ l. l.pc < pc) listing.now 0 result }
    ensures behind { AllWithin (λ l. pc ≤ l.pc) listing.now result (length listing.now) }
{
    listing.partition_point(|listed| listed.pc < pc)
}

/// The place of a listing where the instruction at a place of the code stands.
fn place_of(listing: &[Listed], pc: u32) -> usize
    requires by_pc { IsByPc listing.now }
    requires stands { Stands listing.now pc }
    ensures { IsListedAt listing.now pc result }
{
    place_from(listing, pc)
}

impl Program {
    /// The reached instructions of a method, by place in its code.
    pub fn listing(&self, method: MethodId) -> &Listing
        requires { Contains (map (λ m. m.id) self.now.methods) method }
        ensures { IsListingIn self.now method result.now }
    {
        &self.method(method).listing
    }

    /// The frame of a method.
    pub fn frame(&self, method: MethodId) -> Frame
        requires { Contains (map (λ m. m.id) self.now.methods) method }
        ensures { IsFrameIn self.now method result }
    {
        self.method(method).frame
    }

    /// What the reached instruction at a place of a method's code names.
    pub fn operand(&self, method: MethodId, pc: u32) -> Operand
        requires { IsReachedIn self.now method pc }
        ensures { IsOperandIn self.now method pc result }
    {
        let method = self.reached(method);
        let place = place_of(method.listing.as_slice(), pc);
        let Some(operand) = method.operands.get(place) else {
            unreachable!();
        };
        *operand
    }

    /// What is known of the frame before the reached instruction at a place of a method's code.
    pub fn typed(&self, method: MethodId, pc: u32) -> &TypedState
        requires { IsKnownIn self.now method pc }
        ensures { IsTypedIn self.now method pc result.now }
    {
        let method = self.reached(method);
        let place = place_of(method.listing.as_slice(), pc);
        let Some(state) = method.typed.get(place) else {
            unreachable!();
        };
        state
    }
}
