//! Synchronizes-with.

ghost use Rattle.std.specs.Prelude.{◌≡◌, ◌<◌, ◌↔◌, length, IsTrue, IfSome, IfNone};
ghost use Rattle.action_orders.specs.SynchronizesWith.{SynchronizesWith};
ghost use Rattle.orders.specs.Flat.{Relates};
ghost use Rattle.orders.specs.Made.{IsMade};
ghost use Rattle.orders.specs.Synced.{AreSyncedAt, AreNotSynced, DoMeet, IsTargetOf, IsEssentialAt, IsBetweenFrom, IsBetweenBy};
ghost use Rattle.action_orders.specs.HappensBefore.{EssentialSync};
ghost use Rattle.orders.specs.Symbols.{symbol_of, symbols};

use crate::answers::Orders;
use crate::channel::Channel;
use crate::numbers::number_of;
use action_orders::{Action, ActionOperand, ActionRef};
use program::{Kind, Name};

/// Whether the default write of a variable synchronizes with an action.
fn is_target(class: &Name, name: &Name, action: &Action) -> bool
    ensures { IsTrue result ↔ IsTargetOf (record { class = class.now; name = name.now }) action.now }
{
    match (action.kind, &action.operand) {
        (Kind::First, _) => true,
        (
            Kind::VolatileRead,
            ActionOperand::Variable {
                class: own_class,
                name: own_name,
            },
        ) => own_class.same(class) && own_name.same(name),
        _ => false,
    }
}

impl<'a> Orders<'a> {
    /// The places of two actions in the synchronization order.
    pub fn both_synced(&self, first: u64, second: u64) -> Option<(usize, usize)>
        requires { IsMade self.now }
        ensures found { IfSome result (λ places. AreSyncedAt self.now first second places.0 places.1) }
        ensures none { IfNone result (AreNotSynced self.now first second) }
    {
        match (
            number_of(&self.flat.sync, first),
            number_of(&self.flat.sync, second),
        ) {
            (Some(r), Some(s)) => Some((r, s)),
            _ => None,
        }
    }

    /// Whether the action at the one place gives to the channel that the later one at the other takes from.
    fn meets(&self, r: usize, s: usize) -> bool
        requires first { r < length self.now.clocks.events.items }
        requires second { s < length self.now.clocks.events.items }
        ensures { IsTrue result ↔ DoMeet self.now.clocks.events.items r s }
    {
        let from = self.clocks.events[r];
        let to = self.clocks.events[s];
        match (from.gives, to.takes) {
            (Some(given), Some(taken)) => given == taken && r < s,
            _ => false,
        }
    }

    /// Whether the default write of a variable synchronizes with an action.
    fn default_synchronizes(&self, class: &Name, name: &Name, second: u64) -> bool
        requires { IsMade self.now }
        ensures { IsTrue result ↔ Relates self.now.flat.program.now self.now.flat.execution.now (SynchronizesWith self.now.flat.program.now self.now.flat.execution.now) (ActionRef.Default class.now name.now) (ActionRef.Id second) }
    {
        let own = Channel::Variable {
            class: class.as_slice(),
            name: name.as_slice(),
        };
        if self.variables.find(own).is_none() {
            return false;
        }
        match number_of(&self.flat.ids, second) {
            Some(j) => is_target(class, name, self.flat.action(j)),
            None => false,
        }
    }

    /// Synchronizes-with (JLS 17.4.4).
    pub fn sw(&self, a: &ActionRef, b: &ActionRef) -> bool
        requires { IsMade self.now }
        ensures { IsTrue result ↔ Relates self.now.flat.program.now self.now.flat.execution.now (SynchronizesWith self.now.flat.program.now self.now.flat.execution.now) a.now b.now }
    {
        match (a, b) {
            (ActionRef::Id(first), ActionRef::Id(second)) => match self.both_synced(
                *first, *second,
            ) {
                Some((r, s)) => self.meets(r, s),
                None => false,
            },
            (ActionRef::Default { class, name }, ActionRef::Id(second)) =>
                self.default_synchronizes(class, name, *second),
            _ => false,
        }
    }

    /// Whether the edge between two places of the synchronization order is essential.
    fn is_essential(&self, r: usize, s: usize) -> bool
        requires made { IsMade self.now }
        requires first { r < length self.now.clocks.events.items }
        requires second { s < length self.now.clocks.events.items }
        ensures { IsTrue result ↔ IsEssentialAt self.now.clocks.events.items r s }
    {
        if !self.meets(r, s) {
            return false;
        }
        if self.clocks.events[r].thread == self.clocks.events[s].thread {
            return false;
        }
        !self.clocks.lies_between(r, s)
    }

    /// Whether an action comes before a place of the synchronization order, at or after one that takes from the channel.
    fn channel_between(&self, channel: Channel, s: usize) -> bool
        requires made { IsMade self.now }
        requires last { s < length self.now.flat.execution.now.so }
        ensures { IsTrue result ↔ IsBetweenFrom (symbols self.now.channels) self.now.clocks.events.items (symbol_of channel.entry) s }
    {
        match self.channels.find(channel) {
            Some(number) => self.clocks.taken_between(number, s),
            None => false,
        }
    }

    /// Whether the default write of a variable happens before an action that happens before that at a place.
    fn default_between(&self, class: &Name, name: &Name, s: usize) -> bool
        requires made { IsMade self.now }
        requires last { s < length self.now.flat.execution.now.so }
        ensures { IsTrue result ↔ IsBetweenBy (symbols self.now.channels) self.now.clocks.events.items (record { class = class.now; name = name.now }) s }
    {
        let own = Channel::Variable {
            class: class.as_slice(),
            name: name.as_slice(),
        };
        if self.channel_between(own, s) {
            return true;
        }
        for thread in 0..8 {
            if self.channel_between(Channel::Start(thread), s) {
                return true;
            }
        }
        false
    }

    /// Whether the edge from the default write of a variable to an action is essential.
    fn default_essential(&self, class: &Name, name: &Name, second: u64) -> bool
        requires { IsMade self.now }
        ensures { IsTrue result ↔ Relates self.now.flat.program.now self.now.flat.execution.now (EssentialSync self.now.flat.program.now self.now.flat.execution.now) (ActionRef.Default class.now name.now) (ActionRef.Id second) }
    {
        if !self.default_synchronizes(class, name, second) {
            return false;
        }
        match number_of(&self.flat.sync, second) {
            Some(s) => !self.default_between(class, name, s),
            None => false,
        }
    }

    /// The essential edges of synchronizes-with (JLS 17.4.8): those in its transitive reduction by happens-before.
    pub fn ssw(&self, a: &ActionRef, b: &ActionRef) -> bool
        requires { IsMade self.now }
        ensures { IsTrue result ↔ Relates self.now.flat.program.now self.now.flat.execution.now (EssentialSync self.now.flat.program.now self.now.flat.execution.now) a.now b.now }
    {
        match (a, b) {
            (ActionRef::Id(first), ActionRef::Id(second)) => match self.both_synced(
                *first, *second,
            ) {
                Some((r, s)) => self.is_essential(r, s),
                None => false,
            },
            (ActionRef::Default { class, name }, ActionRef::Id(second)) => self.default_essential(
                class, name, *second,
            ),
            _ => false,
        }
    }
}
