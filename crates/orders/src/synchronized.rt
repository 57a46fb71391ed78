//! The synchronization order.

ghost use Rattle.std.specs.Prelude.{◌↔◌, Contains, IsTrue};
ghost use Rattle.action_orders.specs.Orders.{SyncOrder};
ghost use Rattle.orders.specs.Flat.{Relates};
ghost use Rattle.orders.specs.Made.{IsMade};

use crate::answers::Orders;
use crate::numbers::number_of;
use crate::volatiles::{is_volatile_from, stands_before};
use action_orders::ActionRef;
use program::Name;

impl<'a> Orders<'a> {
    /// Whether the one identifier stands before the other.
    fn stands_synced(&self, first: u64, second: u64) -> bool
        requires { IsMade self.now }
        ensures { IsTrue result ↔ Relates self.now.flat.program.now self.now.flat.execution.now (SyncOrder self.now.flat.program.now self.now.flat.execution.now) (ActionRef.Id first) (ActionRef.Id second) }
    {
        match self.both_synced(first, second) {
            Some((r, s)) => r < s,
            None => false,
        }
    }

    /// Whether the variable is volatile and the identifier stands in the order.
    fn default_synced(&self, class: &Name, name: &Name, second: u64) -> bool
        requires { IsMade self.now }
        ensures { IsTrue result ↔ Relates self.now.flat.program.now self.now.flat.execution.now (SyncOrder self.now.flat.program.now self.now.flat.execution.now) (ActionRef.Default class.now name.now) (ActionRef.Id second) }
    {
        if !is_volatile_from(self.flat.program.variables(), 0, class, name) {
            return false;
        }
        number_of(&self.flat.sync, second).is_some()
    }

    /// The synchronization order (JLS 17.4.4): the default writes of the volatile variables, in variable order, and then the
    /// synchronization actions of the threads.
    pub fn so(&self, a: &ActionRef, b: &ActionRef) -> bool
        requires { IsMade self.now }
        ensures { IsTrue result ↔ Relates self.now.flat.program.now self.now.flat.execution.now (SyncOrder self.now.flat.program.now self.now.flat.execution.now) a.now b.now }
    {
        match (a, b) {
            (ActionRef::Id(first), ActionRef::Id(second)) => self.stands_synced(*first, *second),
            (ActionRef::Default { class, name }, ActionRef::Id(second)) => self.default_synced(
                class, name, *second,
            ),
            (
                ActionRef::Default { class, name },
                ActionRef::Default {
                    class: later_class,
                    name: later_name,
                },
            ) => stands_before(
                self.flat.program.variables(),
                class,
                name,
                later_class,
                later_name,
            ),
            _ => false,
        }
    }
}
