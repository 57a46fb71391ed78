ghost use Rattle.std.specs.Prelude.{◌++◌, ◌<◌, ◌≡◌, ◌↔◌, [], ◌∷◌, IsSome, length, MatchOption, None, OnErr, OnOk, slice_get, Some};

use ports::Memory;
use std::alloc::Global;
use std::marker::Model;

/// A text, seen as its bytes.
#[derive(Debug, Drop)]
struct Word {
    text: String,
}

impl Model for Word {
    ghost use Rattle.std.specs.Prelude.{List, string_bytes, ℕ};

    ghost Value = { List ℕ };

    ghost view = { λ word. string_bytes word.text };
}

impl Word {
    fn as_str(&self) -> &str
        ensures { result.now ≡ self.now }
    {
        self.text.as_str()
    }
}

/// The words of a command, each seen as its bytes.
#[derive(Debug, Drop)]
pub struct Words {
    items: Vec<Word>,
}

impl Model for Words {
    ghost use Rattle.std.specs.Prelude.{List, ℕ};

    ghost Value = { List (List ℕ) };

    ghost view = { λ words. words.items.items };
}

impl Words {
    /// No word yet.
    pub fn new(alloc: Global) -> Words
        ensures { result ≡ [] }
    {
        Words {
            items: Vec::new(alloc),
        }
    }

    /// Adds a word at the end.
    ///
    /// # Errors
    /// `Memory` where there is no room. Then nothing changed.
    pub fn push(&mut self, word: &str) -> Result<(), Memory>
        ensures ok { OnOk result (self.new ≡ self.old ++ word.now ∷ []) }
        ensures memory { OnErr result (self.new ≡ self.old) }
    {
        let alloc = *self.items.allocator();
        let text = String::from_str(alloc, word).map_err(|_| Memory)?;
        self.items.push(Word { text }).map_err(|_| Memory)
    }

    /// How many words there are.
    pub fn len(&self) -> usize
        ensures { result ≡ length self.now }
    {
        self.items.len()
    }

    /// The word at a place, or `None` exactly at or past the length.
    pub fn get(&self, at: usize) -> Option<&str>
        ensures value { MatchOption result (slice_get self.now at ≡ None) (λ word. slice_get self.now at ≡ Some word.now) }
        ensures within { IsSome result ↔ (at < length self.now) }
    {
        let word = self.items.get(at)?;
        Some(word.as_str())
    }
}
