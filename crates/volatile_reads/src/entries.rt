//! Entries by place of the synchronization order, and what they note.

ghost use Rattle.std.specs.Prelude.{◌≡◌, ◌<◌, ℕ, Option, length};
ghost use Rattle.orders.specs.Made.{IsMade};
ghost use Rattle.volatile_reads.specs.Entries.{IsEntryAt};

use action_orders::{Entry, Note};
use orders::Orders;

/// The entry at a place of the synchronization order.
pub fn entry_at<'a>(orders: &Orders<'a>, at: usize) -> &'a Entry
    requires made { IsMade orders.now }
    requires inside { at < length orders.now.flat.execution.now.so }
    ensures { IsEntryAt orders.now at result.now }
{
    let place = orders.places[at];
    orders.flat.entries[place]
}

/// The write that a read sees, by its identifier; none is the default write.
pub fn seen(note: Note) -> Option<u64>
    ensures { (write : Option ℕ) → note ≡ Note.Sees write → result ≡ write }
{
    match note {
        Note::Sees(write) => write,
        Note::Stores(_) => None,
        Note::Nothing => None,
    }
}
