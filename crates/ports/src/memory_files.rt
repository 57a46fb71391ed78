ghost use Rattle.std.specs.Prelude.{◌≡◌, ◌≤◌, ℕ, drop, IfOk, length, List, MatchOption, None, OnErr, OnOk, Some};
ghost use Rattle.ports.specs.Extents.{content_of};
ghost use Rattle.ports.specs.Growth.{SameContents, SameElsewhere};
ghost use Rattle.ports.specs.Reading.{ReadsPrefix};

use crate::numbered_calls::NumberedCalls;
use crate::store::Store;
use crate::{Failed, Files, Memory};
use std::alloc::Global;

/// Files that lie in memory, their names and contents in room that `open` reserved. Its calls are numbered from 0, and
/// those listed fail, as do a read of a name that is not there, an append to one, and a start or an append past the room.
/// It tells the content of every name that is there; `None` says that no file has the name.
#[derive(Debug, Drop)]
pub struct MemoryFiles {
    store: Store,
    calls: NumberedCalls,
    read_faults: u64,
    write_faults: u64,
}

impl MemoryFiles {
    /// No file yet, and room for some bytes of names and contents. The calls whose numbers are in `failing` will fail.
    ///
    /// # Errors
    /// `Memory` where the room cannot be reserved.
    pub fn open(alloc: Global, room: usize, failing: Vec<u64>) -> Result<MemoryFiles, Memory>
        ensures empty { IfOk result (λ files. (name : List ℕ) → ⟦<MemoryFiles as Files>⟧.content files name ≡ None) }
        ensures read_faults { IfOk result (λ files. ⟦<MemoryFiles as Files>⟧.read_faults files ≡ 0) }
        ensures write_faults { IfOk result (λ files. ⟦<MemoryFiles as Files>⟧.write_faults files ≡ 0) }
    {
        let store = Store::open(alloc, room)?;
        Ok(MemoryFiles {
            store,
            calls: NumberedCalls::new(failing),
            read_faults: 0,
            write_faults: 0,
        })
    }

    /// Sets a content, and makes the room larger by what the name and the content need. It is no numbered call.
    ///
    /// # Errors
    /// `Memory` where the room cannot be made. Then no content changed.
    pub fn insert(&mut self, name: &str, bytes: &[u8]) -> Result<(), Memory>
        ensures content { OnOk result (⟦<MemoryFiles as Files>⟧.content self.new name.now ≡ Some bytes.now) }
        ensures others { SameElsewhere name.now (⟦<MemoryFiles as Files>⟧.content self.old) (⟦<MemoryFiles as Files>⟧.content self.new) }
        ensures memory { OnErr result (SameContents (⟦<MemoryFiles as Files>⟧.content self.old) (⟦<MemoryFiles as Files>⟧.content self.new)) }
        ensures read_faults { ⟦<MemoryFiles as Files>⟧.read_faults self.new ≡ ⟦<MemoryFiles as Files>⟧.read_faults self.old }
        ensures write_faults { ⟦<MemoryFiles as Files>⟧.write_faults self.new ≡ ⟦<MemoryFiles as Files>⟧.write_faults self.old }
    {
        self.store.insert(name.as_bytes(), bytes)
    }

    /// The content of a name, or `None` where no file has it.
    pub fn content(&self, name: &str) -> Option<&[u8]>
        ensures { MatchOption result (⟦<MemoryFiles as Files>⟧.content self.now name.now ≡ None)
            (λ content. ⟦<MemoryFiles as Files>⟧.content self.now name.now ≡ Some content.now) }
    {
        self.store.content(name.as_bytes())
    }
}

/// Copies what a content has from a place on to the front of a buffer, and answers how many bytes.
fn copy_from(content: &[u8], place: u64, buf: &mut [u8]) -> usize
    ensures bound { result ≤ length buf.new }
    ensures bytes { ReadsPrefix (drop place content.now) result buf.new }
{
    let start = (place as usize).min(content.len());
    let left = &content[start..];
    let count = left.len().min(buf.len());
    buf[..count].copy_from_slice(&left[..count]);
    count
}

impl Files for MemoryFiles {
    ghost content = { λ files name. content_of files.store.extents.items files.store.bytes.items name };

    ghost read_faults = { λ files. files.read_faults };

    ghost write_faults = { λ files. files.write_faults };

    fn read_at(&mut self, name: &str, place: u64, buf: &mut [u8]) -> Result<usize, Failed> {
        if !self.calls.next_fails() {
            if let Some(content) = self.store.content(name.as_bytes()) {
                return Ok(copy_from(content, place, buf));
            }
        }
        self.read_faults = self.read_faults.saturating_add(1);
        Err(Failed)
    }

    fn start(&mut self, name: &str) -> Result<(), Failed> {
        if !self.calls.next_fails() && self.store.start(name.as_bytes()).is_ok() {
            return Ok(());
        }
        self.write_faults = self.write_faults.saturating_add(1);
        Err(Failed)
    }

    fn append(&mut self, name: &str, bytes: &[u8]) -> Result<usize, Failed> {
        if !self.calls.next_fails() {
            if let Ok(count) = self.store.append(name.as_bytes(), bytes) {
                return Ok(count);
            }
        }
        self.write_faults = self.write_faults.saturating_add(1);
        Err(Failed)
    }

    ghost short = { λ files name bytes told. files.store.short name bytes told };
}
