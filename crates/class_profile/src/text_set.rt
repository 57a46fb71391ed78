//! Texts without repetition.

ghost use Rattle.std.specs.Prelude.{◌≡◌, [], Err, IfOk, OnErr, not};
ghost use Rattle.std.specs.List.{list_any, position_or_len};
ghost use Rattle.class_names.specs.Names.{same_text};
ghost use Rattle.class_profile.specs.Texts.{with_text};

use crate::refusal::ProfileRefusal;
use indexmap::IndexSet;
use std::alloc::Global;
use std::marker::Model;

/// Texts, no two alike, in the order in which they came.
#[derive(Drop)]
pub struct TextSet<'a> {
    texts: IndexSet<&'a [u8]>,
}

impl<'a> Model for TextSet<'a> {
    ghost use Rattle.std.specs.Prelude.{List, ℕ, map};

    ghost Value = { List (List ℕ) };

    ghost view = { λ set. map (λ text. text.now) set.texts.keys };
}

/// Where a text stands in a set, and whether it is new there.
#[derive(Clone, Copy)]
pub struct Added {
    pub number: usize,
    pub is_new: bool,
}

impl<'a> TextSet<'a> {
    /// No text.
    pub fn new(alloc: Global) -> TextSet<'a>
        ensures { result ≡ [] }
    {
        TextSet {
            texts: IndexSet::new(alloc),
        }
    }

    /// Adds a text at the end where it is new.
    pub fn add(&mut self, text: &'a [u8]) -> Result<Added, ProfileRefusal>
        ensures number { IfOk result (λ added. added.number ≡ position_or_len (same_text text.now) self.old) }
        ensures is_new { IfOk result (λ added. added.is_new ≡ not (list_any (same_text text.now) self.old)) }
        ensures texts { IfOk result (λ added. self.new ≡ with_text self.old text.now) }
        ensures memory { OnErr result (result ≡ Err ProfileRefusal.Memory) }
    {
        match self.texts.insert_full(text) {
            Ok((number, is_new)) => Ok(Added { number, is_new }),
            Err(_) => Err(ProfileRefusal::Memory),
        }
    }
}
