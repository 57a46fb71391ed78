//! Executions (JLS 17.4.6): the actions of each thread in program order, and the synchronization order.

ghost use Rattle.std.specs.Prelude.{◌≡◌, OnOk, OnErr};
ghost use Rattle.action_orders.specs.Execution.{IsExecution, IsNextThread, FitsLast, empty, with_thread, with_entry, with_order};
ghost use Rattle.action_orders.specs.Spelling.{IsSpelt, IsSpeltEntry, IsSpeltThread};

use crate::action::Entry;
use crate::lists::Entries;
use ports::Memory;
use std::alloc::Global;
use std::marker::Model;

/// A thread that acts, with its actions.
#[derive(Clone, Debug, Drop)]
pub struct ThreadPart {
    pub thread: u32,
    pub entries: Entries,
}

/// An execution: the threads that act, each with its actions in program order and with what each read sees and each write
/// stores, and the synchronization order as a list of identifiers. Its threads increase strictly and are at most 7, each
/// entry is of its thread, operands and notes fit the kinds of their actions, and the names in operands can be written
/// (docs/MODEL.md, "Executions"; docs/TEXTS.md, "Names").
#[derive(Debug, Drop)]
pub struct Execution {
    threads: Vec<ThreadPart>,
    so: Vec<u64>,
}

impl Model for Execution {
    ghost use Rattle.action_orders.specs.Execution.{Exec};
    ghost use Rattle.action_orders.specs.Spelling.{IsKept};

    ghost Value = { Exec };

    ghost view = { λ e. record { threads = e.threads.items; so = e.so.items } };

    ghost invariant = { λ e. IsKept (record { threads = e.threads.items; so = e.so.items }) };
}

impl Execution {
    /// An execution in which no thread acts.
    pub fn new(alloc: Global) -> Execution
        ensures { result ≡ empty }
    {
        Execution {
            threads: Vec::new(alloc),
            so: Vec::new(alloc),
        }
    }

    /// The threads that act.
    pub fn threads(&self) -> &[ThreadPart]
        ensures value { result.now ≡ self.now.threads }
        ensures kept { IsExecution self.now }
        ensures spelt { IsSpelt self.now }
    {
        self.threads.as_slice()
    }

    /// The synchronization order.
    pub fn so(&self) -> &[u64]
        ensures { result.now ≡ self.now.so }
    {
        self.so.as_slice()
    }

    /// Adds a thread, above the last one, that has no action yet. Where memory is short, nothing changed.
    pub fn thread(&mut self, thread: u32) -> Result<(), Memory>
        requires next { IsNextThread self.old thread }
        requires few { IsSpeltThread thread }
        ensures ok { OnOk result (self.new ≡ with_thread self.old thread) }
        ensures err { OnErr result (self.new ≡ self.old) }
    {
        let alloc = *self.threads.allocator();
        let part = ThreadPart {
            thread,
            entries: Entries::new(alloc),
        };
        self.threads.push(part).map_err(|_| Memory)
    }

    /// Adds an action, with its note, at the end of the last thread's list. Where memory is short, nothing changed.
    pub fn entry(&mut self, entry: Entry) -> Result<(), Memory>
        requires fits { FitsLast self.old entry }
        requires spelt { IsSpeltEntry entry }
        ensures ok { OnOk result (self.new ≡ with_entry self.old entry) }
        ensures err { OnErr result (self.new ≡ self.old) }
    {
        let last = self.threads.len() - 1;
        let part = &mut self.threads[last];
        part.entries.push(entry)?;
        Ok(())
    }

    /// Adds an identifier at the end of the synchronization order. Where memory is short, nothing changed.
    pub fn order(&mut self, id: u64) -> Result<(), Memory>
        ensures ok { OnOk result (self.new ≡ with_order self.old id) }
        ensures err { OnErr result (self.new ≡ self.old) }
    {
        self.so.push(id).map_err(|_| Memory)
    }
}
