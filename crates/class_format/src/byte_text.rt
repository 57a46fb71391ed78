ghost use Rattle.std.specs.Prelude.{◌≡◌, [], ◌∷◌, ◌++◌, ◌<◌, ◌^◌, ◌↔◌, length, slice_get, All, IsSome, OnOk, OnErr, IfOk};
ghost use Rattle.std.specs.Option.{option_copied};

use crate::refusal::FormatRefusal;
use std::alloc::Global;
use std::marker::Model;

/// A list of bytes.
#[derive(Debug, Drop)]
pub struct ByteText {
    bytes: Vec<u8>,
}

impl Model for ByteText {
    ghost use Rattle.std.specs.Prelude.{List, ℕ, All, ◌<◌};

    ghost Value = { List ℕ };

    ghost view = { λ text. text.bytes.items };

    ghost invariant = { λ text. All (λ b. b < 256) text.bytes.items };
}

impl ByteText {
    /// The empty list. It takes no memory.
    pub fn new(alloc: Global) -> ByteText
        ensures { result ≡ [] }
    {
        ByteText {
            bytes: Vec::new(alloc),
        }
    }

    /// A copy of the bytes. The one refusal is want of memory.
    pub fn copied(alloc: Global, bytes: &[u8]) -> Result<ByteText, FormatRefusal>
        ensures ok { IfOk result (λ text. text ≡ bytes.now) }
        ensures memory { OnErr result (result ≡ Err FormatRefusal.Memory) }
    {
        let bytes = Vec::from_slice(alloc, bytes).map_err(|_| FormatRefusal::Memory)?;
        Ok(ByteText { bytes })
    }

    /// How many bytes there are.
    pub fn len(&self) -> usize
        ensures value { result ≡ length self.now }
        ensures small { result < 2 ^ 63 }
    {
        self.bytes.len()
    }

    /// The byte at a place, from 0.
    pub fn get(&self, at: usize) -> Option<&u8>
        ensures value { option_copied result ≡ slice_get self.now at }
        ensures within { IsSome result ↔ (at < length self.now) }
    {
        self.bytes.get(at)
    }

    /// The bytes as a slice.
    pub fn as_slice(&self) -> &[u8]
        ensures value { result.now ≡ self.now }
        ensures bytes { All (λ b. b < 256) self.now }
    {
        self.bytes.as_slice()
    }

    /// Adds the byte at the end. The one refusal is want of memory.
    pub fn push(&mut self, item: u8) -> Result<(), FormatRefusal>
        ensures ok { OnOk result (self.new ≡ self.old ++ item ∷ []) }
        ensures err { OnErr result (self.new ≡ self.old) }
        ensures memory { OnErr result (result ≡ Err FormatRefusal.Memory) }
    {
        self.bytes.push(item).map_err(|_| FormatRefusal::Memory)
    }

    /// Adds the bytes at the end. The one refusal is want of memory.
    pub fn extend(&mut self, bytes: &[u8]) -> Result<(), FormatRefusal>
        ensures ok { OnOk result (self.new ≡ self.old ++ bytes.now) }
        ensures err { OnErr result (self.new ≡ self.old) }
        ensures memory { OnErr result (result ≡ Err FormatRefusal.Memory) }
    {
        self.bytes
            .extend_from_slice(bytes)
            .map_err(|_| FormatRefusal::Memory)
    }
}
