//! Variables and actions by their names.

ghost use Rattle.std.specs.Prelude.{◌≡◌, ◌↔◌, Some, slice_get, Contains, IsSome, IfNone, IfSome};
ghost use Rattle.orders.specs.Made.{HasNoPlace, IsMade, IsPlaced};
ghost use Rattle.orders.specs.Symbols.{OfVariable, symbols};

use crate::answers::Orders;
use crate::channel::Channel;
use crate::numbers::number_of;
use program::Name;

impl<'a> Orders<'a> {
    /// The number of a variable among the names of the program's variables, or none where the program has no such variable.
    pub fn variable_number(&self, class: &Name, name: &Name) -> Option<usize>
        ensures found { IfSome result (λ n. slice_get (symbols self.now.variables) n ≡ Some (OfVariable class.now name.now)) }
        ensures there { IsSome result ↔ Contains (symbols self.now.variables) (OfVariable class.now name.now) }
    {
        self.variables.find(Channel::Variable {
            class: class.as_slice(),
            name: name.as_slice(),
        })
    }

    /// The place of the action with an identifier among all threads' actions, or none where no action has it.
    pub fn place(&self, id: u64) -> Option<usize>
        requires { IsMade self.now }
        ensures found { IfSome result (IsPlaced self.now id) }
        ensures none { IfNone result (HasNoPlace self.now id) }
    {
        number_of(&self.flat.ids, id)
    }

    /// The place of an identifier in the synchronization order of the threads' actions, or none where it doesn't stand there.
    pub fn synced_place(&self, id: u64) -> Option<usize>
        requires { IsMade self.now }
        ensures found { IfSome result (λ r. slice_get self.now.flat.execution.now.so r ≡ Some id) }
        ensures there { IsSome result ↔ Contains self.now.flat.execution.now.so id }
    {
        number_of(&self.flat.sync, id)
    }
}
