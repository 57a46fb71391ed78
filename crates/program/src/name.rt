//! Names of classes, fields and methods.

ghost use Rattle.std.specs.Prelude.{◌≡◌, ◌<◌, ◌↔◌, ◌++◌, [], ◌∷◌, length, All, IsTrue, IsSome, IfOk, OnOk, OnErr, slice_get};
ghost use Rattle.std.specs.Option.{option_copied};
ghost use Rattle.program.specs.Names.{IsName, IsNameByte};

use ports::Memory;
use std::alloc::Global;
use std::marker::Model;

/// Whether a name that can be written may have this byte.
fn is_name_byte(byte: u8) -> bool
    ensures { IsTrue result ↔ IsNameByte byte }
{
    (0x21..=0x7e).contains(&byte) && byte != b'.' && byte != b';' && byte != b'['
}

/// A name, as the bytes that spell it in a class file (JVMS 4.2).
#[derive(Clone, Debug, Drop)]
pub struct Name {
    bytes: Vec<u8>,
}

impl Model for Name {
    ghost use Rattle.std.specs.Prelude.{List, ℕ, All, ◌<◌};

    ghost Value = { List ℕ };

    ghost view = { λ name. name.bytes.items };

    ghost invariant = { λ name. All (λ b. b < 256) name.bytes.items };
}

impl Name {
    /// A name of no byte.
    pub fn new(alloc: Global) -> Name
        ensures { result ≡ [] }
    {
        Name {
            bytes: Vec::new(alloc),
        }
    }

    /// The name that these bytes spell.
    pub fn copied(alloc: Global, bytes: &[u8]) -> Result<Name, Memory>
        ensures { IfOk result (λ name. name ≡ bytes.now) }
    {
        let bytes = Vec::from_slice(alloc, bytes).map_err(|_| Memory)?;
        Ok(Name { bytes })
    }

    /// A name that is spelled alike.
    pub fn duplicate(&self) -> Result<Name, Memory>
        ensures { IfOk result (λ name. name ≡ self.now) }
    {
        self.clone().map_err(|_| Memory)
    }

    /// Adds a byte at the end. Where memory is short, the name is unchanged.
    pub fn push(&mut self, item: u8) -> Result<(), Memory>
        ensures ok { OnOk result (self.new ≡ self.old ++ item ∷ []) }
        ensures err { OnErr result (self.new ≡ self.old) }
    {
        self.bytes.push(item).map_err(|_| Memory)
    }

    /// How many bytes it has.
    pub fn len(&self) -> usize
        ensures { result ≡ length self.now }
    {
        self.bytes.len()
    }

    /// Whether it has no byte.
    pub fn is_empty(&self) -> bool
        ensures { IsTrue result ↔ (self.now ≡ []) }
    {
        self.bytes.is_empty()
    }

    /// The byte at a place.
    pub fn get(&self, at: usize) -> Option<&u8>
        ensures value { option_copied result ≡ slice_get self.now at }
        ensures within { IsSome result ↔ (at < length self.now) }
    {
        self.bytes.get(at)
    }

    /// All its bytes.
    pub fn as_slice(&self) -> &[u8]
        ensures value { result.now ≡ self.now }
        ensures bytes { All (λ b. b < 256) self.now }
    {
        self.bytes.as_slice()
    }

    /// Whether it can be written in the texts: 1 to 200 printable bytes without `.`, `;` and `[`
    /// (docs/TEXTS.md, "Names").
    pub fn can_be_written(&self) -> bool
        ensures { IsTrue result ↔ IsName self.now }
    {
        !self.bytes.is_empty()
            && self.bytes.len() <= 200
            && self.bytes.iter().all(|b| is_name_byte(*b))
    }

    /// Whether the two names are spelled alike.
    pub fn same(&self, other: &Name) -> bool
        ensures { IsTrue result ↔ (self.now ≡ other.now) }
    {
        self.bytes.as_slice() == other.bytes.as_slice()
    }
}
