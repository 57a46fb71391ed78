//! Lists of classes.

ghost use Rattle.std.specs.Prelude.{◌≡◌, ◌<◌, ◌≤◌, ◌↔◌, ◌++◌, [], ◌∷◌, length, All, IsTrue, IsSome, OnOk, OnErr, slice_get};
ghost use Rattle.std.specs.Option.{option_copied};
ghost use Rattle.class_format.specs.ClassText.{IsValid};

use class_format::ClassRecord;
use ports::Memory;
use std::alloc::Global;
use std::marker::Model;

/// At most 65535 classes, each of which has a text (JVMS 4.1).
#[derive(Debug, Drop)]
pub struct ClassList {
    classes: Vec<ClassRecord>,
}

impl Model for ClassList {
    ghost use Rattle.std.specs.Prelude.{List, All, ◌≤◌, length};
    ghost use Rattle.class_format.specs.declared.record.ClassRecord.{ClassRecord};
    ghost use Rattle.class_format.specs.contracts.record.ClassRecord as record_of;
    ghost use Rattle.class_format.specs.ClassText.{IsValid};
    ghost use Rattle.std.specs.Coded.{coded_list};

    ghost Value = { List ClassRecord };

    ghost coded = { coded_list record_of.the_row.coded };

    ghost view = { λ list. list.classes.items };

    ghost invariant = { λ list. All IsValid list.classes.items × (length list.classes.items ≤ 65535) };
}

impl ClassList {
    /// No class.
    pub fn new(alloc: Global) -> ClassList
        ensures { result ≡ [] }
    {
        ClassList {
            classes: Vec::new(alloc),
        }
    }

    /// Adds a class at the end. Where memory is short, the list is unchanged.
    pub fn push(&mut self, class: ClassRecord) -> Result<(), Memory>
        requires text { IsValid class }
        requires few { length self.old < 65535 }
        ensures ok { OnOk result (self.new ≡ self.old ++ class ∷ []) }
        ensures err { OnErr result (self.new ≡ self.old) }
    {
        self.classes.push(class).map_err(|_| Memory)
    }

    /// How many classes there are.
    pub fn len(&self) -> usize
        ensures { result ≡ length self.now }
    {
        self.classes.len()
    }

    /// Whether there is none.
    pub fn is_empty(&self) -> bool
        ensures { IsTrue result ↔ (self.now ≡ []) }
    {
        self.classes.is_empty()
    }

    /// The class at a place.
    pub fn get(&self, at: usize) -> Option<&ClassRecord>
        ensures value { option_copied result ≡ slice_get self.now at }
        ensures within { IsSome result ↔ (at < length self.now) }
    {
        self.classes.get(at)
    }

    /// All classes.
    pub fn as_slice(&self) -> &[ClassRecord]
        ensures value { result.now ≡ self.now }
        ensures valid { All IsValid self.now }
        ensures few { length self.now ≤ 65535 }
    {
        self.classes.as_slice()
    }
}
