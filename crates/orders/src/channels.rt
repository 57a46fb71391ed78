//! Numbers of channels.

ghost use Rattle.std.specs.Prelude.{◌≡◌, ◌<◌, ◌↔◌, ◌^◌, ℕ, Some, slice_get, length, Contains, IsSome, IfOk, IfSome, OnOk};
ghost use Rattle.orders.specs.Symbols.{Symbol, symbol_of, symbols, Extends, IsDistinct, MatchesOr, symbol_given};
ghost use Rattle.orders.specs.Flat.{IsNumbered, IsEventOf};

use crate::channel::{Channel, given, taken};
use action_orders::Action;
use clocks::Event;
use indexmap::IndexSet;
use ports::Memory;
use std::alloc::Global;

/// Channels, each with a number, in the order in which they were added.
#[derive(Drop)]
pub struct Channels<'a> {
    pub set: IndexSet<Channel<'a>>,
}

impl<'a> Channels<'a> {
    /// No channel.
    pub fn new(alloc: Global) -> Channels<'a>
        ensures { length (symbols result) ≡ 0 }
    {
        Channels {
            set: IndexSet::new(alloc),
        }
    }

    /// The number of a channel, which is added where it has none.
    pub fn number(&mut self, channel: Channel<'a>) -> Result<usize, Memory>
        ensures numbered { IfOk result (λ n. slice_get (symbols self.new) n ≡ Some (symbol_of channel.entry)) }
        ensures extends { OnOk result (Extends (symbols self.old) (symbols self.new)) }
        ensures only { OnOk result ((s : Symbol) → Contains (symbols self.new) s → MatchesOr (symbols self.old) (symbol_of channel.entry) s) }
        ensures distinct { OnOk result (IsDistinct (symbols self.new)) }
    {
        match self.set.insert_full(channel) {
            Ok((number, _)) => Ok(number),
            Err(_) => Err(Memory),
        }
    }

    /// The number of a channel that was added.
    pub fn find(&self, channel: Channel) -> Option<usize>
        ensures found { IfSome result (λ n. slice_get (symbols self.now) n ≡ Some (symbol_of channel.entry)) }
        ensures there { IsSome result ↔ Contains (symbols self.now) (symbol_of channel.entry) }
    {
        self.set.get_index_of(&channel)
    }

    /// How many channels there are.
    pub fn len(&self) -> usize
        ensures len { result ≡ length (symbols self.now) }
        ensures small { result < 2 ^ 63 }
    {
        self.set.len()
    }
}

/// The number of a channel, or none of none.
fn numbered<'a>(
    channels: &mut Channels<'a>,
    channel: Option<Channel<'a>>,
) -> Result<Option<usize>, Memory>
    ensures numbered { IfOk result (λ n. IsNumbered (symbols channels.new) (symbol_given channel.entry) n) }
    ensures extends { OnOk result (Extends (symbols channels.old) (symbols channels.new)) }
    ensures distinct { OnOk result (IsDistinct (symbols channels.old) → IsDistinct (symbols channels.new)) }
{
    match channel {
        None => Ok(None),
        Some(channel) => match channels.number(channel) {
            Ok(number) => Ok(Some(number)),
            Err(failed) => Err(failed),
        },
    }
}

/// The event of an action, by the numbers of its channels.
pub fn event_of<'a>(channels: &mut Channels<'a>, action: &'a Action) -> Result<Event, Memory>
    requires { action.now.thread < 8 }
    ensures event { IfOk result (IsEventOf (symbols channels.new) action.now) }
    ensures extends { OnOk result (Extends (symbols channels.old) (symbols channels.new)) }
    ensures distinct { OnOk result (IsDistinct (symbols channels.old) → IsDistinct (symbols channels.new)) }
{
    let takes = numbered(channels, taken(action))?;
    let gives = numbered(channels, given(action))?;
    Ok(Event {
        thread: action.thread as usize,
        takes,
        gives,
    })
}
