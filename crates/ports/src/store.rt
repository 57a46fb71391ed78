ghost use Rattle.std.specs.Prelude.{◌++◌, ◌+◌, ◌-◌, ◌<◌, ◌≡◌, ◌≢◌, ◌≤◌, ◌^◌, ℕ, [], ◌∷◌, drop, IfOk, IfSome, length, List, MatchOption, MatchResult, None, OnErr, OnOk, Option, Some, take, vec_capacity, vec_len};
ghost use Rattle.ports.specs.Growth.{PutsSome};
ghost use Rattle.ports.specs.Extents.{content_of, IsFound, total};

use crate::{Failed, Memory};
use std::alloc::Global;

/// The lengths of one stored file's name and of its content, which lie one after the other.
#[derive(Clone, Copy, Debug, Drop)]
pub(crate) struct Extent {
    pub name: usize,
    pub content: usize,
}

/// Files whose names and contents lie one after another in room that was reserved.
#[derive(Debug, Drop)]
pub(crate) struct Store {
    extents: Vec<Extent>,
    bytes: Vec<u8>,
    room: usize,
    ghost filled: { total extents.items ≡ length bytes.items },
    ghost short: { (name content : List ℕ) → content_of extents.items bytes.items name ≡ Some content → length content < 2 ^ 64 },
    ghost within: { vec_len bytes ≤ room },
    ghost reserved: { room ≤ vec_capacity bytes },
}

/// Where a stored file stands among the extents, and where its content lies among the bytes.
#[derive(Clone, Copy, Drop)]
pub(crate) struct Found {
    pub index: usize,
    pub at: usize,
    pub len: usize,
}

/// The first file of this name.
pub(crate) fn find(extents: &[Extent], bytes: &[u8], name: &[u8]) -> Option<Found>
    requires { total extents.now ≤ length bytes.now }
    ensures found { MatchOption result (content_of extents.now bytes.now name.now ≡ None)
        (λ f. IsFound extents.now bytes.now name.now f.index f.at f.len) }
    ensures index { IfSome result (λ f. f.index < length extents.now) }
    ensures range { IfSome result (λ f. f.at + f.len ≤ length bytes.now) }
{
    let (first, rest) = extents.split_first()?;
    if &bytes[..first.name] == name {
        return Some(Found {
            index: 0,
            at: first.name,
            len: first.content,
        });
    }
    let size = first.name + first.content;
    let found = find(rest, &bytes[size..], name)?;
    Some(Found {
        index: found.index + 1,
        at: size + found.at,
        len: found.len,
    })
}

/// Puts a piece between the bytes before a place and those from it on.
pub(crate) fn put_between(bytes: &mut Vec<u8>, at: usize, piece: &[u8])
    requires place { at ≤ vec_len bytes.old }
    requires room { vec_len bytes.old + length piece.now ≤ vec_capacity bytes.old }
    ensures items { bytes.new.items ≡ take at bytes.old.items ++ (piece.now ++ drop at bytes.old.items) }
    ensures len { vec_len bytes.new ≡ vec_len bytes.old + length piece.now }
    ensures capacity { vec_capacity bytes.old ≤ vec_capacity bytes.new }
{
    bytes.extend_from_slice(piece).unwrap();
    bytes[at..].rotate_right(piece.len());
}

/// Takes some bytes out from a place on.
pub(crate) fn take_out(bytes: &mut Vec<u8>, at: usize, len: usize)
    requires { at + len ≤ vec_len bytes.old }
    ensures items { bytes.new.items ≡ take at bytes.old.items ++ drop (at + len) bytes.old.items }
    ensures len { vec_len bytes.new + len ≡ vec_len bytes.old }
    ensures capacity { vec_capacity bytes.old ≤ vec_capacity bytes.new }
{
    let kept = bytes.len() - len;
    bytes[at..].rotate_left(len);
    bytes.truncate(kept);
}

/// Puts an empty file behind the others.
fn push_file(extents: &mut Vec<Extent>, bytes: &mut Vec<u8>, name: &[u8])
    requires slot { vec_len extents.old < vec_capacity extents.old }
    requires room { vec_len bytes.old + length name.now ≤ vec_capacity bytes.old }
    ensures extents { extents.new.items ≡ extents.old.items ++ record { name = length name.now; content = 0 } ∷ [] }
    ensures bytes { bytes.new.items ≡ bytes.old.items ++ name.now }
    ensures len { vec_len bytes.new ≡ vec_len bytes.old + length name.now }
    ensures capacity { vec_capacity bytes.old ≤ vec_capacity bytes.new }
{
    bytes.extend_from_slice(name).unwrap();
    extents
        .push(Extent {
            name: name.len(),
            content: 0,
        })
        .unwrap();
}

impl Store {
    /// A store of no file, with room for some bytes of names and contents.
    pub(crate) fn open(alloc: Global, room: usize) -> Result<Store, Memory>
        ensures { IfOk result (λ store. (name : List ℕ) → content_of store.extents.items store.bytes.items name ≡ None) }
    {
        let extents = Vec::with_capacity(alloc, room.saturating_add(1)).map_err(|_| Memory)?;
        let bytes = Vec::with_capacity(alloc, room).map_err(|_| Memory)?;
        Ok(Store {
            extents,
            bytes,
            room,
        })
    }

    /// The content of the file of this name.
    pub(crate) fn content(&self, name: &[u8]) -> Option<&[u8]>
        ensures { MatchOption result (content_of self.now.extents.items self.now.bytes.items name.now ≡ None)
            (λ content. content_of self.now.extents.items self.now.bytes.items name.now ≡ Some content.now) }
    {
        let found = find(&self.extents, &self.bytes, name)?;
        Some(&self.bytes[found.at..found.at + found.len])
    }

    /// Makes the found file empty.
    fn clear(&mut self, name: &[u8], found: Found)
        requires found { IsFound self.old.extents.items self.old.bytes.items name.now found.index found.at found.len }
        requires index { found.index < vec_len self.old.extents }
        requires range { found.at + found.len ≤ vec_len self.old.bytes }
        ensures content { content_of self.new.extents.items self.new.bytes.items name.now ≡ Some [] }
        ensures others { (n : List ℕ) → n ≢ name.now → content_of self.new.extents.items self.new.bytes.items n
            ≡ content_of self.old.extents.items self.old.bytes.items n }
        ensures len { vec_len self.new.bytes + found.len ≡ vec_len self.old.bytes }
        ensures room { self.new.room ≡ self.old.room }
    {
        take_out(&mut self.bytes, found.at, found.len);
        self.extents[found.index] = Extent {
            name: name.len(),
            content: 0,
        };
    }

    /// Adds a piece to the found file's end.
    fn extend(&mut self, name: &[u8], found: Found, piece: &[u8])
        requires found { IsFound self.old.extents.items self.old.bytes.items name.now found.index found.at found.len }
        requires index { found.index < vec_len self.old.extents }
        requires range { found.at + found.len ≤ vec_len self.old.bytes }
        requires room { vec_len self.old.bytes + length piece.now ≤ self.old.room }
        ensures content { (content : List ℕ) → content_of self.old.extents.items self.old.bytes.items name.now ≡ Some content
            → content_of self.new.extents.items self.new.bytes.items name.now ≡ Some (content ++ piece.now) }
        ensures others { (n : List ℕ) → n ≢ name.now → content_of self.new.extents.items self.new.bytes.items n
            ≡ content_of self.old.extents.items self.old.bytes.items n }
    {
        put_between(&mut self.bytes, found.at + found.len, piece);
        self.extents[found.index] = Extent {
            name: name.len(),
            content: found.len + piece.len(),
        };
    }

    /// Adds an empty file of a name that no file has.
    fn add(&mut self, name: &[u8])
        requires absent { content_of self.old.extents.items self.old.bytes.items name.now ≡ None }
        requires slot { vec_len self.old.extents < vec_capacity self.old.extents }
        requires room { vec_len self.old.bytes + length name.now ≤ self.old.room }
        ensures content { content_of self.new.extents.items self.new.bytes.items name.now ≡ Some [] }
        ensures others { (n : List ℕ) → n ≢ name.now → content_of self.new.extents.items self.new.bytes.items n
            ≡ content_of self.old.extents.items self.old.bytes.items n }
        ensures len { vec_len self.new.bytes ≡ vec_len self.old.bytes + length name.now }
        ensures room { self.new.room ≡ self.old.room }
    {
        push_file(&mut self.extents, &mut self.bytes, name);
    }

    /// Makes the file of this name empty, and adds it where there is none.
    ///
    /// # Errors
    /// `Failed` where the room has no place for the name. Then nothing changed.
    pub(crate) fn start(&mut self, name: &[u8]) -> Result<(), Failed>
        ensures content { MatchResult result
            (λ _. content_of self.new.extents.items self.new.bytes.items name.now ≡ Some [])
            (λ _. content_of self.new.extents.items self.new.bytes.items name.now
            ≡ content_of self.old.extents.items self.old.bytes.items name.now) }
        ensures others { (n : List ℕ) → n ≢ name.now → content_of self.new.extents.items self.new.bytes.items n
            ≡ content_of self.old.extents.items self.old.bytes.items n }
    {
        match find(&self.extents, &self.bytes, name) {
            Some(found) => {
                self.clear(name, found);
                Ok(())
            }
            None => {
                let free = self.room - self.bytes.len();
                if free < name.len() || self.extents.len() >= self.extents.capacity() {
                    return Err(Failed);
                }
                self.add(name);
                Ok(())
            }
        }
    }

    /// Adds as much of a piece to the end of the file of this name as the room has place for, and answers how many bytes.
    ///
    /// # Errors
    /// `Failed` where no file has the name, or the piece is not empty and no room is left. Then nothing changed.
    pub(crate) fn append(&mut self, name: &[u8], piece: &[u8]) -> Result<usize, Failed>
        ensures bound { IfOk result (λ n. n ≤ length piece.now) }
        ensures some { IfOk result (λ n. 0 < length piece.now → 0 < n) }
        ensures bytes { PutsSome (content_of self.old.extents.items self.old.bytes.items name.now)
            (content_of self.new.extents.items self.new.bytes.items name.now) result piece.now }
        ensures others { (n : List ℕ) → n ≢ name.now → content_of self.new.extents.items self.new.bytes.items n
            ≡ content_of self.old.extents.items self.old.bytes.items n }
    {
        let Some(found) = find(&self.extents, &self.bytes, name) else {
            return Err(Failed);
        };
        let free = self.room - self.bytes.len();
        if free == 0 && !piece.is_empty() {
            return Err(Failed);
        }
        let count = free.min(piece.len());
        self.extend(name, found, &piece[..count]);
        Ok(count)
    }

    /// Sets the content of a name, and makes the room larger by the name and the content.
    ///
    /// # Errors
    /// `Memory` where the room cannot be made. Then no content changed.
    pub(crate) fn insert(&mut self, name: &[u8], content: &[u8]) -> Result<(), Memory>
        ensures content { OnOk result (content_of self.new.extents.items self.new.bytes.items name.now ≡ Some content.now) }
        ensures others { (n : List ℕ) → n ≢ name.now → content_of self.new.extents.items self.new.bytes.items n
            ≡ content_of self.old.extents.items self.old.bytes.items n }
        ensures memory { OnErr result ((n : List ℕ) → content_of self.new.extents.items self.new.bytes.items n
            ≡ content_of self.old.extents.items self.old.bytes.items n) }
    {
        let needed = name.len().checked_add(content.len()).ok_or(Memory)?;
        self.enlarge(needed)?;
        self.reset(name);
        let Some(found) = find(&self.extents, &self.bytes, name) else {
            unreachable!()
        };
        self.extend(name, found, content);
        Ok(())
    }

    /// Makes the file of this name empty, and adds it where there is none, on condition that there is room for it.
    fn reset(&mut self, name: &[u8])
        requires slot { vec_len self.old.extents < vec_capacity self.old.extents }
        requires room { vec_len self.old.bytes + length name.now ≤ self.old.room }
        ensures content { content_of self.new.extents.items self.new.bytes.items name.now ≡ Some [] }
        ensures others { (n : List ℕ) → n ≢ name.now → content_of self.new.extents.items self.new.bytes.items n
            ≡ content_of self.old.extents.items self.old.bytes.items n }
        ensures len { vec_len self.new.bytes ≤ vec_len self.old.bytes + length name.now }
        ensures room { self.new.room ≡ self.old.room }
    {
        match find(&self.extents, &self.bytes, name) {
            Some(found) => self.clear(name, found),
            None => self.add(name),
        }
    }

    /// Makes the room larger, and has a place for one more file.
    fn enlarge(&mut self, more: usize) -> Result<(), Memory>
        ensures extents { self.new.extents.items ≡ self.old.extents.items }
        ensures bytes { self.new.bytes.items ≡ self.old.bytes.items }
        ensures slot { OnOk result (vec_len self.new.extents < vec_capacity self.new.extents) }
        ensures room { OnOk result (vec_len self.new.bytes + more ≤ self.new.room) }
    {
        let free = self.room - self.bytes.len();
        let additional = free.checked_add(more).ok_or(Memory)?;
        self.extents.try_reserve(1).map_err(|_| Memory)?;
        self.bytes.try_reserve(additional).map_err(|_| Memory)?;
        self.room += more;
        Ok(())
    }
}
