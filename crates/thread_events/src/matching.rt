//! Actions against the events of a run.

ghost use Rattle.std.specs.Prelude.{◌≡◌, ◌↔◌, Contains, IsTrue};
ghost use Rattle.action_orders.specs.Actions.{entries};
ghost use Rattle.action_orders.specs.Runs.{HasEvent, HaveEvents};
ghost use Rattle.orders.specs.Made.{IsMade};
ghost use Rattle.thread_events.specs.Gotten.{AreAmong, is_write};

use crate::operands::{is_monitor, is_thread, is_variable};
use crate::values::{is_read, value_read};
use action_orders::{Entry, Note};
use orders::Orders;
use program::{Event, Kind};

/// Whether an action reads this variable and gets this value.
fn has_read(orders: &Orders, entry: &Entry, variable: u32, value: i32) -> bool
    requires made { IsMade orders.now }
    requires among { Contains (entries orders.now.flat.execution.now) entry.now }
    ensures { IsTrue result ↔ HasEvent orders.now.flat.program.now orders.now.flat.execution.now entry.now (Event.Read variable value) }
{
    if !is_read(entry.action.kind) {
        return false;
    }
    if !is_variable(orders.flat.program, &entry.action.operand, variable) {
        return false;
    }
    value_read(orders, entry) == value
}

/// Whether an action of this kind writes.
fn is_write(kind: Kind) -> bool
    ensures { result ≡ is_write kind }
{
    match kind {
        Kind::Write => true,
        Kind::VolatileWrite => true,
        _ => false,
    }
}

/// Whether a write stores this value.
fn stores(note: Note, value: i32) -> bool
    ensures { IsTrue result ↔ (note ≡ Note.Stores value) }
{
    match note {
        Note::Stores(stored) => stored == value,
        _ => false,
    }
}

/// Whether an action writes this value to this variable.
fn has_write(orders: &Orders, entry: &Entry, variable: u32, value: i32) -> bool
    requires made { IsMade orders.now }
    requires among { Contains (entries orders.now.flat.execution.now) entry.now }
    ensures { IsTrue result ↔ HasEvent orders.now.flat.program.now orders.now.flat.execution.now entry.now (Event.Write variable value) }
{
    if !is_write(entry.action.kind) {
        return false;
    }
    if !is_variable(orders.flat.program, &entry.action.operand, variable) {
        return false;
    }
    stores(entry.note, value)
}

/// Whether an action is this event of a run.
fn has_event(orders: &Orders, entry: &Entry, event: Event) -> bool
    requires made { IsMade orders.now }
    requires among { Contains (entries orders.now.flat.execution.now) entry.now }
    ensures { IsTrue result ↔ HasEvent orders.now.flat.program.now orders.now.flat.execution.now entry.now event }
{
    let kind = entry.action.kind;
    let operand = &entry.action.operand;
    match event {
        Event::First => kind == Kind::First,
        Event::Last => kind == Kind::Last,
        Event::Read { variable, value } => has_read(orders, entry, variable, value),
        Event::Write { variable, value } => has_write(orders, entry, variable, value),
        Event::Lock { monitor } => kind == Kind::Lock
            && is_monitor(orders.flat.program, operand, monitor),
        Event::Unlock { monitor } => kind == Kind::Unlock
            && is_monitor(orders.flat.program, operand, monitor),
        Event::Start { thread } => kind == Kind::Start && is_thread(operand, thread),
        Event::Detect { thread } => kind == Kind::Detect && is_thread(operand, thread),
        Event::Print { .. } => kind == Kind::Print,
    }
}

/// Whether the actions of a thread, in order, are these events of a run, in order: kinds, operands, what reads get and what
/// writes store. It takes time in proportion to the actions.
pub fn have_events(orders: &Orders, part: &[Entry], events: &[Event]) -> bool
    requires made { IsMade orders.now }
    requires among { AreAmong orders.now.flat.execution.now part.now }
    ensures { IsTrue result ↔ HaveEvents orders.now.flat.program.now orders.now.flat.execution.now part.now events.now }
{
    if part.len() != events.len() {
        return false;
    }
    for at in 0..part.len() {
        if !has_event(orders, &part[at], events[at]) {
            return false;
        }
    }
    true
}
