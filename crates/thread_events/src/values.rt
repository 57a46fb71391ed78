//! The values that reads get.

ghost use Rattle.std.specs.Prelude.{◌≡◌, ℤ, true, Contains, IfOk, OnOk};
ghost use Rattle.action_orders.specs.Actions.{entries};
ghost use Rattle.orders.specs.Made.{IsMade};
ghost use Rattle.thread_events.specs.Gotten.{AreAmong, AreGotten, GetsValue, IsOneMore, IsStoredBy, is_read};

use action_orders::{Entry, Note};
use line_text::Values;
use orders::Orders;
use ports::Memory;
use program::Kind;
use std::alloc::Global;
use volatile_reads::seen;

/// Whether an action of this kind reads.
pub fn is_read(kind: Kind) -> bool
    ensures { result ≡ is_read kind }
{
    match kind {
        Kind::Read => true,
        Kind::VolatileRead => true,
        _ => false,
    }
}

/// The value that a write stores.
fn stored_in(note: Note) -> i32
    ensures { (value : ℤ) → note ≡ Note.Stores value → result ≡ value }
{
    match note {
        Note::Stores(value) => value,
        _ => 0,
    }
}

/// The value that the write with this identifier stores.
fn stored(orders: &Orders, id: u64) -> i32
    requires { IsMade orders.now }
    ensures { IsStoredBy orders.now.flat.execution.now id result }
{
    match orders.flat.ids.get_index_of(&id) {
        Some(place) => stored_in(orders.flat.entries[place].note),
        None => 0,
    }
}

/// The value that a read gets: that of the write that it sees, and 0 where that is a default write.
pub fn value_read(orders: &Orders, entry: &Entry) -> i32
    requires made { IsMade orders.now }
    requires among { Contains (entries orders.now.flat.execution.now) entry.now }
    ensures { is_read entry.now.action.kind ≡ true → GetsValue orders.now.flat.execution.now entry.now result }
{
    match seen(entry.note) {
        Some(write) => stored(orders, write),
        None => 0,
    }
}

/// Adds the value that an action gets, if it reads.
fn add_read(values: &mut Values, orders: &Orders, entry: &Entry) -> Result<(), Memory>
    requires made { IsMade orders.now }
    requires among { Contains (entries orders.now.flat.execution.now) entry.now }
    ensures { OnOk result (IsOneMore orders.now.flat.execution.now entry.now values.old values.new) }
{
    if !is_read(entry.action.kind) {
        return Ok(());
    }
    values.push(value_read(orders, entry))
}

/// The values that the reads among the actions of a thread get, in order: each that of the write that it sees (JLS 17.4.6), and
/// 0 where that is a default write. It takes time and memory in proportion to the actions.
///
/// # Errors
///
/// `Memory` where an allocation fails.
pub fn values_read(alloc: Global, orders: &Orders, part: &[Entry]) -> Result<Values, Memory>
    requires made { IsMade orders.now }
    requires among { AreAmong orders.now.flat.execution.now part.now }
    ensures { IfOk result (AreGotten orders.now.flat.execution.now part.now) }
{
    let mut values = Values::new(alloc);
    for entry in part {
        add_read(&mut values, orders, entry)?;
    }
    Ok(values)
}
