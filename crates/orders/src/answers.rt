//! The five orders.

ghost use Rattle.std.specs.Prelude.{◌≡◌, ◌<◌, ◌↔◌, ℕ, length, Contains, IsTrue, IfSome, IfNone};
ghost use Rattle.action_orders.specs.Actions.{Of, Default, variables};
ghost use Rattle.action_orders.specs.Orders.{ProgramOrder};
ghost use Rattle.action_orders.specs.HappensBefore.{HappensBefore};
ghost use Rattle.orders.specs.Flat.{Relates, IsTakenBy, IsTakenFrom};
ghost use Rattle.orders.specs.Symbols.{symbol_of, symbols};
ghost use Rattle.orders.specs.Tables.{action_of};
ghost use Rattle.orders.specs.Made.{IsMade, AreBoth, HasNotBoth};

use crate::channel::Channel;
use crate::channels::Channels;
use crate::flat::Flat;
use crate::numbers::number_of;
use action_orders::ActionRef;
use clocks::Clocks;
use program::Name;

/// The orders on the actions of an execution, with the default writes of the program's variables. Each answer takes constant
/// time, but for that of the synchronization order at default writes, which takes time in proportion to the variables. An
/// answer is false where a name stands for no action.
#[derive(Drop)]
pub struct Orders<'a> {
    pub flat: Flat<'a>,
    pub places: Vec<usize>,
    pub before: Vec<Option<usize>>,
    pub channels: Channels<'a>,
    pub variables: Channels<'a>,
    pub clocks: Clocks,
}

impl<'a> Orders<'a> {
    /// The places of two actions among all threads' actions.
    fn both(&self, first: u64, second: u64) -> Option<(usize, usize)>
        requires { IsMade self.now }
        ensures found { IfSome result (λ places. AreBoth self.now first second places.0 places.1) }
        ensures none { IfNone result (HasNotBoth self.now first second) }
    {
        match (
            number_of(&self.flat.ids, first),
            number_of(&self.flat.ids, second),
        ) {
            (Some(i), Some(j)) => Some((i, j)),
            _ => None,
        }
    }

    /// Whether the action at the one place stands before that at the other in their thread.
    fn stands_before(&self, i: usize, j: usize) -> bool
        requires made { IsMade self.now }
        requires first { i < length self.now.flat.entries.items }
        requires second { j < length self.now.flat.entries.items }
        ensures { IsTrue result ↔ ProgramOrder self.now.flat.execution.now (Of (action_of self.now.flat i)) (Of (action_of self.now.flat j)) }
    {
        if self.flat.action(i).thread != self.flat.action(j).thread {
            return false;
        }
        i < j
    }

    /// Program order (JLS 17.4.3): whether the one action stands before the other in the list of their thread.
    pub fn po(&self, a: &ActionRef, b: &ActionRef) -> bool
        requires { IsMade self.now }
        ensures { IsTrue result ↔ Relates self.now.flat.program.now self.now.flat.execution.now (ProgramOrder self.now.flat.execution.now) a.now b.now }
    {
        match (a, b) {
            (ActionRef::Id(first), ActionRef::Id(second)) => match self.both(*first, *second) {
                Some((i, j)) => self.stands_before(i, j),
                None => false,
            },
            _ => false,
        }
    }

    /// Whether the action at the one place happens before that at the other.
    pub fn happens_before(&self, i: usize, j: usize) -> bool
        requires made { IsMade self.now }
        requires first { i < length self.now.flat.entries.items }
        requires second { j < length self.now.flat.entries.items }
        ensures { IsTrue result ↔ HappensBefore self.now.flat.program.now self.now.flat.execution.now (Of (action_of self.now.flat i)) (Of (action_of self.now.flat j)) }
    {
        if self.stands_before(i, j) {
            return true;
        }
        let Some(last) = self.before[j] else {
            return false;
        };
        let thread = self.flat.action(i).thread as usize;
        match self.clocks.last_known(thread, last) {
            Some(known) => i <= self.places[known],
            None => false,
        }
    }

    /// Whether the default write of a variable happens before the action at a place.
    fn default_before(&self, class: &Name, name: &Name, j: usize) -> bool
        requires made { IsMade self.now }
        requires second { j < length self.now.flat.entries.items }
        requires variable { Contains (variables self.now.flat.program.now) (record { class = class.now; name = name.now }) }
        ensures { IsTrue result ↔ HappensBefore self.now.flat.program.now self.now.flat.execution.now (Default (record { class = class.now; name = name.now })) (Of (action_of self.now.flat j)) }
    {
        let Some(last) = self.before[j] else {
            return false;
        };
        self.default_taken(class, name, last)
    }

    /// Whether the place of the synchronization order has an action that takes what the default write of the variable
    /// synchronizes by, or comes after one that does.
    fn default_taken(&self, class: &Name, name: &Name, last: usize) -> bool
        requires made { IsMade self.now }
        requires last { last < length self.now.flat.execution.now.so }
        ensures { IsTrue result ↔ IsTakenBy (symbols self.now.channels) self.now.clocks.events.items (record { class = class.now; name = name.now }) last }
    {
        let own = Channel::Variable {
            class: class.as_slice(),
            name: name.as_slice(),
        };
        if self.channel_taken(own, last) {
            return true;
        }
        for thread in 0..8 {
            if self.channel_taken(Channel::Start(thread), last) {
                return true;
            }
        }
        false
    }

    /// Whether the place of the synchronization order has an action that takes from the channel, or comes after one that does.
    fn channel_taken(&self, channel: Channel, last: usize) -> bool
        requires made { IsMade self.now }
        requires last { last < length self.now.flat.execution.now.so }
        ensures { IsTrue result ↔ IsTakenFrom (symbols self.now.channels) self.now.clocks.events.items (symbol_of channel.entry) last }
    {
        match self.channels.find(channel) {
            Some(number) => self.clocks.taken_before(number, last),
            None => false,
        }
    }

    /// Happens-before (JLS 17.4.5), taken strict.
    pub fn hb(&self, a: &ActionRef, b: &ActionRef) -> bool
        requires { IsMade self.now }
        ensures { IsTrue result ↔ Relates self.now.flat.program.now self.now.flat.execution.now (HappensBefore self.now.flat.program.now self.now.flat.execution.now) a.now b.now }
    {
        match (a, b) {
            (ActionRef::Id(first), ActionRef::Id(second)) => match self.both(*first, *second) {
                Some((i, j)) => self.happens_before(i, j),
                None => false,
            },
            (ActionRef::Default { class, name }, ActionRef::Id(second)) => self.default_happens(
                class, name, *second,
            ),
            _ => false,
        }
    }

    /// Whether the default write of a variable happens before an action.
    fn default_happens(&self, class: &Name, name: &Name, second: u64) -> bool
        requires { IsMade self.now }
        ensures { IsTrue result ↔ Relates self.now.flat.program.now self.now.flat.execution.now (HappensBefore self.now.flat.program.now self.now.flat.execution.now) (ActionRef.Default class.now name.now) (ActionRef.Id second) }
    {
        let own = Channel::Variable {
            class: class.as_slice(),
            name: name.as_slice(),
        };
        if self.variables.find(own).is_none() {
            return false;
        }
        match number_of(&self.flat.ids, second) {
            Some(j) => self.default_before(class, name, j),
            None => false,
        }
    }
}
